//! Checks the bytes of a stored CRL: encodes the CRL anew from the rows of `listed` (the table of CRL entries), with the stored signature, and
//! compares. `number`: the CRL number. `take` gives a DER value and the bytes after it. For a `Broken` from here, `reg_audit` reports the CRL's row.

ghost use Rattle.std.specs.Prelude.{◌≡◌, ◌+◌, ◌≤◌, ◌↔◌, ℕ, List, Some, length, IsTrue, OnOk, IfOk};
ghost use Rattle.std.specs.List.Sorted.{IsPermutation};
ghost use Rattle.reg_core.specs.Calendar.{IsMoment};
ghost use Rattle.reg_core.specs.Crls.{EntriesAscend, cert_list};
ghost use Rattle.reg_core.specs.Records.{Records};
ghost use Rattle.reg_core.specs.Sound.{KeysDiffer};
ghost use Rattle.reg_crl.specs.Signing.{IsAlgorithm};
ghost use Rattle.reg_der.specs.ValueReading.{AgreesWith};
ghost use Rattle.reg_audit.specs.Crls.{IsCrlOf, MatchRecords, crl_with_entries, listed_entries, lists_row, signature_at};
ghost use Rattle.reg_audit.specs.CheckFaults.{NotBrokenIf, NotBroken};

use crate::check_fault::{CheckFault, broken_at};
use crate::derived_rows::Listed;
use reg_core::{CrlRow, Defect, Entry, Moment, RegisterTable};
use reg_crl::{crl_tbs, crl_whole};
use reg_der::{Issuer, take};
use std::alloc::Global;

/// The most octets of a signature that `crl_whole` takes. `crl_whole` encodes a CRL, and `crl_tbs` the tbsCertList in it.
const MOST_SIGNATURE: usize = 65_536;

const MOST_ENTRIES: usize = 1_000_000;

/// The signature in a CRL (RFC 5280 5.1.1.3), without the first octet of the BIT STRING, which counts unused bits.
fn signature_in(crl: &[u8]) -> Option<&[u8]>
    ensures { AgreesWith (λ signature. signature.now) result (signature_at crl.now) }
{
    let (list, _) = take(crl)?;
    let (_, after_tbs) = take(list.contents)?;
    let (_, after_algorithm) = take(after_tbs)?;
    let (bits, _) = take(after_algorithm)?;
    let (_, signature) = bits.contents.split_first()?;
    Some(signature)
}

/// The signature in a CRL. It is empty if there is none: `crl` is then no CRL, and `check_bytes` finds other bytes.
fn signature_of(crl: &[u8]) -> &[u8]
    ensures { (signature : List ℕ) → signature_at crl.now ≡ Some signature → result.now ≡ signature }
{
    match signature_in(crl) {
        Some(signature) => signature,
        None => &[],
    }
}

/// Whether the CRL with this number lists the revocation. CRLs `first` to `last` do. If `last` is `None` (not issued yet), all from `first` on do.
fn is_listed_on(row: &Listed, number: u64) -> bool
    ensures { result ≡ lists_row number row.now }
{
    match row.last {
        Some(last) => row.first <= number && number <= last,
        None => row.first <= number,
    }
}

fn listed_by(alloc: Global, listed: &[Listed], number: u64) -> Result<Vec<Entry>, CheckFault>
    ensures made { IfOk result (λ entries. entries.items ≡ listed_entries number listed.now) }
    ensures memory { NotBroken result }
{
    let mut entries = Vec::new(alloc);
    for row in listed {
        if is_listed_on(row, number) {
            entries.push(Entry {
                serial: row.serial,
                at: row.at,
                reason: row.reason,
            })?;
        }
    }
    Ok(entries)
}

fn ascends(entries: &[Entry]) -> bool
    ensures { IsTrue result ↔ EntriesAscend entries.now }
{
    entries.is_sorted_by(|earlier, later| earlier.serial < later.serial)
}

/// The entries of a CRL (RFC 5280 5.1.2.6), in ascending order of serial number: at most 1,000,000, because no table has more rows.
fn entries_of(alloc: Global, listed: &[Listed], number: u64) -> Result<Vec<Entry>, CheckFault>
    ensures same { IfOk result (λ entries. IsPermutation (listed_entries number listed.now) entries.items) }
    ensures ascend { IfOk result (λ entries. EntriesAscend entries.items) }
    ensures few { IfOk result (λ entries. length entries.items ≤ 1000000) }
    ensures broken { KeysDiffer (λ row. row.serial) listed.now → length listed.now ≤ 1000000
        → NotBroken result }
{
    let mut entries = listed_by(alloc, listed, number)?;
    entries.sort_unstable_by_key(|entry| entry.serial);
    if entries.len() > MOST_ENTRIES {
        return Err(broken_at(RegisterTable::Listed, MOST_ENTRIES, Defect::AboveCap));
    }
    if !ascends(&entries) {
        return Err(broken_at(RegisterTable::Listed, 0, Defect::SameSerial));
    }
    Ok(entries)
}

fn check_bytes(
    alloc: Global,
    issuer: &Issuer,
    algorithm: &[u8],
    crl: &CrlRow,
    next_update: Moment,
    entries: &[Entry],
    bytes: &[u8],
) -> Result<(), CheckFault>
    requires ascending { EntriesAscend entries.now }
    requires few { length entries.now ≤ 1000000 }
    requires algorithm { length algorithm.now ≤ 1024 }
    ensures ok { OnOk result
        (IsCrlOf algorithm.now (crl_with_entries issuer.now crl.now next_update entries.now) bytes.now) }
    ensures broken { IsAlgorithm algorithm.now
        → NotBrokenIf (IsCrlOf algorithm.now (crl_with_entries issuer.now crl.now next_update entries.now)
        bytes.now) result }
{
    let tbs = crl_tbs(
        alloc,
        issuer,
        algorithm,
        crl.number,
        crl.this_update,
        next_update,
        entries,
    )?;
    let signature = signature_of(bytes);
    if signature.len() > MOST_SIGNATURE {
        return Err(broken_at(RegisterTable::Crl, 0, Defect::OtherBytes));
    }
    let whole = crl_whole(alloc, &tbs, algorithm, signature)?;
    if whole.as_slice() == bytes {
        Ok(())
    } else {
        Err(broken_at(RegisterTable::Crl, 0, Defect::OtherBytes))
    }
}

/// Checks that `bytes` are the CRL `crl` with its entries by `listed`, this algorithm (AlgorithmIdentifier in DER), any signature of up to 65,536
/// octets, and nextUpdate `crl_life` seconds after thisUpdate. `Broken` if not; also if it has over 1,000,000 entries, or two for one serial number.
pub fn check_crl(
    alloc: Global,
    issuer: &Issuer,
    algorithm: &[u8],
    crl_life: u64,
    listed: &[Listed],
    crl: &CrlRow,
    bytes: &[u8],
) -> Result<(), CheckFault>
    requires algorithm { length algorithm.now ≤ 1024 }
    requires next { IsMoment (crl.now.this_update + crl_life) }
    ensures ok { (records : Records) → MatchRecords issuer.now crl_life listed.now records
        → OnOk result (IsCrlOf algorithm.now
        (cert_list records crl.now.number crl.now.this_update) bytes.now) }
    ensures broken { (records : Records) → MatchRecords issuer.now crl_life listed.now records
        → IsAlgorithm algorithm.now → KeysDiffer (λ row. row.serial) listed.now → length listed.now ≤ 1000000
        → NotBrokenIf (IsCrlOf algorithm.now (cert_list records crl.now.number crl.now.this_update)
        bytes.now) result }
{
    let entries = entries_of(alloc, listed, crl.number)?;
    let next_update = crl.this_update.plus(crl_life);
    check_bytes(alloc, issuer, algorithm, crl, next_update, &entries, bytes)
}
