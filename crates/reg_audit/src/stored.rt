//! Checks that the bytes of each stored CRL encode the entries that the records have for it.

ghost use Rattle.std.specs.Prelude.{◌≡◌, ◌<◌, ◌≤◌, length, OnOk, IfOk, IfErr, IfSome, IsSomeAnd};
ghost use Rattle.std.specs.List.{AllByRecursion};
ghost use Rattle.sqlite.specs.Held.{state};
ghost use Rattle.sqlite.specs.State.{HasCleanDisk};
ghost use Rattle.reg_core.specs.Calendar.{clock_end};
ghost use Rattle.reg_core.specs.Crls.{CertList, cert_list};
ghost use Rattle.reg_core.specs.Records.{Records};
ghost use Rattle.reg_core.specs.Sound.{CrlsSigned, SoundRows};
ghost use Rattle.reg_crl.specs.Signing.{IsAlgorithm};
ghost use Rattle.reg_der.specs.Der.{IsTlv};
ghost use Rattle.reg_der.specs.ValueReading.{AgreesWith};
ghost use Rattle.reg_store_tables.specs.DerivedRows.{DerivedRows};
ghost use Rattle.reg_store_tables.specs.Kept.{Kept};
ghost use Rattle.reg_store_tables.specs.Shows.{Shows, ShowsBoth};
ghost use Rattle.reg_store_tables.specs.Stays.{Looked};
ghost use Rattle.reg_audit.specs.Crls.{MatchRecords};
ghost use Rattle.reg_audit.specs.ReadQueries.{AreRead, whole};
ghost use Rattle.reg_audit.specs.Faults.{BreaksRule, NoBrokenRowIf};
ghost use Rattle.reg_audit.specs.Stored.{CanList, HoldsOfRecordsWith, IsSomeCrl, IsStored, behind_signed};
ghost use Rattle.reg_audit.specs.ReadableValues.{HasValues};
ghost use Rattle.reg_audit.specs.ShownTables.{OnAllRead};

use crate::check_fault::CheckFault;
use crate::crls::check_crl;
use crate::derived_rows::Listed;
use crate::fault::AuditFault;
use crate::observer::ProgressObserver;
use crate::read_rows::rows_at;
use crate::tables::{crls, listings};
use reg_core::{BrokenRow, CrlRow, Defect, Moment, RegisterTable};
use reg_der::{Issuer, Tlv, take};
use reg_store_tables::DatabaseFault;
use sqlite::{Alter, Connection, Row};
use std::alloc::Global;

const SEQUENCE: u8 = 0x30;

/// The most octets of a CRL's signatureAlgorithm, tag and length included: no signer's AlgorithmIdentifier has more (`IsAlgorithm` of `reg_crl`).
const MOST_ALGORITHM: usize = 1_024;

/// 2^28 octets, more than a register's CRL can have (2^27 + 66,573, by the contracts of `reg_crl`). A longer one is a defect, and is not parsed.
const MOST_CRL: usize = 268_435_456;

/// The fault for the CRL with this number, whatever `check_crl` found. Its row has the same number, because CRL numbers are 1, 2, 3 and so on.
fn other_bytes_fault(number: u64) -> AuditFault
    ensures { ¬ BreaksRule result }
{
    AuditFault::Broken(BrokenRow {
        table: RegisterTable::Crl,
        row: number,
        why: Defect::OtherBytes,
    })
}

/// The value after the tbsCertList: the signatureAlgorithm (RFC 5280 5.1.1). `None` if there is none. `take` gives the first DER value and the rest.
fn value_after_tbs(crl: &[u8]) -> Option<Tlv<'_>>
    ensures exact { AgreesWith (λ value. record { tag = value.tag; contents = value.contents.now }) result
        (behind_signed crl.now) }
    ensures value { IfSome result (λ value. IsTlv value.raw.now value.tag value.contents.now) }
{
    let (list, _) = take(crl)?;
    let (_, after_tbs) = take(list.contents)?;
    let (algorithm, _) = take(after_tbs)?;
    Some(algorithm)
}

fn as_algorithm(value: Tlv<'_>) -> Option<&[u8]>
    ensures found { IsTlv value.entry.raw.now value.entry.tag value.entry.contents.now
        → IfSome result (λ found. IsAlgorithm found.now) }
    ensures one { value.entry.tag ≡ 48 → length value.entry.raw.now ≤ 1024
        → IsSomeAnd result (λ found. found.now ≡ value.entry.raw.now) }
{
    if value.tag == SEQUENCE && value.raw.len() <= MOST_ALGORITHM {
        Some(value.raw)
    } else {
        None
    }
}

fn algorithm_in(crl: &[u8]) -> Option<&[u8]>
    ensures found { IfSome result (λ found. IsAlgorithm found.now) }
    ensures one { (list : CertList) → (is : IsSomeCrl list crl.now)
        → IsSomeAnd result (λ found. found.now ≡ is.algorithm) }
{
    match value_after_tbs(crl) {
        Some(value) => as_algorithm(value),
        None => None,
    }
}

/// Checks that the bytes are those of the CRL `crl`, with any algorithm and any signature. Its nextUpdate is `crl_life` seconds after its thisUpdate
/// (at most 863,999, under ten days). `listed` has the entry of each revocation, and the numbers of the first and last CRL that list it.
fn check_bytes(
    alloc: Global,
    issuer: &Issuer,
    crl_life: u64,
    listed: &[Listed],
    crl: &CrlRow,
    bytes: &[u8],
) -> Result<(), AuditFault>
    requires { crl_life ≤ 863999 }
    ensures bytes { (records : Records) → MatchRecords issuer.now crl_life listed.now records
        → OnOk result (IsSomeCrl (cert_list records crl.now.number crl.now.this_update) bytes.now) }
    ensures others { (records : Records) → MatchRecords issuer.now crl_life listed.now records
        → CanList listed.now
        → crl.now.this_update < clock_end
        → NoBrokenRowIf (IsSomeCrl (cert_list records crl.now.number crl.now.this_update) bytes.now) result }
    ensures rows { IfErr result (λ fault. ¬ BreaksRule fault) }
{
    if bytes.len() > MOST_CRL {
        return Err(other_bytes_fault(crl.number));
    }
    // No row with such a thisUpdate gets here: `check_read` has reported it. This test shows the prover that nextUpdate is a moment.
    if crl.this_update >= Moment::CLOCK_END {
        return Err(other_bytes_fault(crl.number));
    }
    match algorithm_in(bytes) {
        Some(algorithm) => {
            match check_crl(alloc, issuer, algorithm, crl_life, listed, crl, bytes) {
                Ok(()) => Ok(()),
                Err(CheckFault::Memory) => Err(AuditFault::Memory),
                Err(CheckFault::Broken(_)) => Err(other_bytes_fault(crl.number)),
            }
        }
        None => Err(other_bytes_fault(crl.number)),
    }
}

fn check_stored<S: Alter>(
    alloc: Global,
    conn: &mut Connection<S>,
    issuer: &Issuer,
    crl_life: u64,
    listed: &[Listed],
    crl: &CrlRow,
) -> Result<(), AuditFault>
    requires { crl_life ≤ 863999 }
    ensures bytes { HoldsOfRecordsWith S.Store conn.old issuer.now crl_life listed.now
        (λ records. HasCleanDisk (state S.Store conn.new) → OnOk result (IsStored records crl.now)) }
    ensures others { HoldsOfRecordsWith S.Store conn.old issuer.now crl_life listed.now
        (λ records. CanList listed.now → crl.now.this_update < clock_end
        → HasCleanDisk (state S.Store conn.new)
        → NoBrokenRowIf (IsStored records crl.now) result) }
    ensures rows { IfErr result (λ fault. ¬ BreaksRule fault) }
    ensures looked { Looked S.Store conn.old conn.new }
{
    match reg_store_tables::crl(conn, crl.number)? {
        Some(bytes) => check_bytes(alloc, issuer, crl_life, listed, crl, &bytes),
        None => Err(other_bytes_fault(crl.number)),
    }
}

fn check_each<S: Alter, W: ProgressObserver>(
    alloc: Global,
    conn: &mut Connection<S>,
    issuer: &Issuer,
    crl_life: u64,
    listed: &[Listed],
    crls: &[CrlRow],
    observer: &mut W,
) -> Result<(), AuditFault>
    requires { crl_life ≤ 863999 }
    ensures bytes { HoldsOfRecordsWith S.Store conn.old issuer.now crl_life listed.now
        (λ records. HasCleanDisk (state S.Store conn.new)
        → OnOk result (AllByRecursion (IsStored records) crls.now)) }
    ensures others { HoldsOfRecordsWith S.Store conn.old issuer.now crl_life listed.now
        (λ records. CanList listed.now → AllByRecursion (λ crl. crl.this_update < clock_end) crls.now
        → HasCleanDisk (state S.Store conn.new)
        → NoBrokenRowIf (AllByRecursion (IsStored records) crls.now) result) }
    ensures rows { IfErr result (λ fault. ¬ BreaksRule fault) }
    ensures looked { Looked S.Store conn.old conn.new }
{
    for crl in crls {
        check_stored(alloc, conn, issuer, crl_life, listed, crl)?;
        observer.crl_compared();
    }
    Ok(())
}

fn issuer_and_crl_life<S: Alter>(conn: &mut Connection<S>) -> Result<(Issuer, u64), DatabaseFault>
    ensures found { (records : Records) → Shows S.Store conn.old records
        → HasCleanDisk (state S.Store conn.new)
        → IfOk result (λ it. (it.0 ≡ records.issuer) × (it.1 ≡ records.policy.crl_life)) }
    ensures short { IfOk result (λ it. it.1 ≤ 863999) }
    ensures looked { Looked S.Store conn.old conn.new }
{
    let issuer = reg_store_tables::issuer(conn)?;
    let policy = reg_store_tables::policy(conn)?;
    Ok((issuer, policy.crl_life()))
}

/// Checks the stored bytes of each CRL, one in memory at a time. `all` has the rows of each of `TABLE_QUERIES`: in 6 the CRLs, in 9 the CRL entries.
pub(crate) fn check_crls<S: Alter, W: ProgressObserver>(
    alloc: Global,
    conn: &mut Connection<S>,
    all: &[Vec<Row>],
    observer: &mut W,
) -> Result<(), AuditFault>
    ensures bytes { (records : Records) → (columns : DerivedRows) → ShowsBoth S.Store conn.old records columns
        → AreRead records columns whole all.now (λ rows. rows.items) → Kept columns records
        → HasCleanDisk (state S.Store conn.new) → OnOk result (CrlsSigned IsSomeCrl records) }
    ensures others { (records : Records) → (columns : DerivedRows)
        → ShowsBoth S.Store conn.old records columns
        → AreRead records columns whole all.now (λ rows. rows.items) → HasValues records → SoundRows records
        → Kept columns records → HasCleanDisk (state S.Store conn.new)
        → NoBrokenRowIf (CrlsSigned IsSomeCrl records) result }
    ensures rows { OnAllRead all.now
        (λ records columns. HasValues records → SoundRows records → Kept columns records
        → IfErr result (λ fault. ¬ BreaksRule fault)) }
    ensures looked { Looked S.Store conn.old conn.new }
{
    let crls = crls(alloc, rows_at(all, 6))?;
    let listed = listings(alloc, rows_at(all, 9))?;
    let (issuer, crl_life) = issuer_and_crl_life(conn)?;
    check_each(alloc, conn, &issuer, crl_life, &listed, &crls, observer)
}
