//! Checks that the derived tables match the records.

ghost use Rattle.std.specs.Prelude.{◌≡◌, ◌≢◌, ◌==◌, ◌&&◌, ◌↔◌, ℕ, nat_le, nat_lt, not, find, filter, length, map, IsTrue, MatchOption, OnOk, IfOk};
ghost use Rattle.std.specs.BTreeMap.{get};
ghost use Rattle.std.specs.List.Sorted.{IsPermutation};
ghost use Rattle.std.specs.Ordering.{nat_cmp};
ghost use Rattle.reg_core.specs.Sound.{KeysDiffer, NumberedFrom, NeverDecreases};
ghost use Rattle.reg_store_migration.specs.Refilled.{last_in};
ghost use Rattle.reg_audit.specs.DerivedAsRead.{letter_by, standing_by, found_not_after, listed_with, found_counts, same_letter};
ghost use Rattle.reg_audit.specs.CheckFaults.{NotBrokenIf, NotBroken};

use crate::check_fault::{CheckFault, broken_at};
use reg_core::{
    CertRow, Counts, CrlRow, Defect, Moment, RegisterTable, RevocationRow, Serial, Status,
    status_of,
};
use std::alloc::Global;
use std::collections::BTreeMap;

/// The state of a certificate at the last accepted moment, stored in `standing` as G, R or X.
#[derive(Clone, Copy, PartialEq, Eq)]
pub enum Letter {
    Good,
    Revoked,
    Expired,
}

/// A row of `standing`: a certificate's serial number, notAfter and state letter.
#[derive(Clone, Copy)]
pub struct Standing {
    pub serial: Serial,
    pub not_after: Moment,
    pub letter: Letter,
}

/// A row of `listed`: a revocation's CRL entry, its certificate's notAfter, and the numbers of the first and last CRL that list it. `last` is `None`
/// until that CRL is issued.
#[derive(Clone, Copy)]
pub struct Listed {
    pub serial: Serial,
    pub at: Moment,
    pub reason: u8,
    pub first: u64,
    pub not_after: Moment,
    pub last: Option<u64>,
}

/// The rows of the derived tables `standing`, `kept` and `listed`, each in the order of its rowids.
#[derive(Clone, Copy)]
pub struct StoredDerivedRows<'a> {
    pub letters: &'a [Standing],
    pub counts: Counts,
    pub listed: &'a [Listed],
}

/// A row of a derived table. It has a serial number; `is` compares it with another row, field by field.
pub(crate) trait HasSerial: Copy {
    ghost use Rattle.std.specs.Prelude.{◌≡◌, ◌↔◌, ℕ, IsTrue};

    ghost serial: { Self → ℕ };

    fn serial(&self) -> Serial
        ensures { result ≡ serial self.now };

    fn is(&self, other: &Self) -> bool
        ensures { IsTrue result ↔ (self.now ≡ other.now) };
}

impl HasSerial for Standing {
    ghost serial = { λ row. row.serial };

    fn serial(&self) -> Serial {
        self.serial
    }

    fn is(&self, other: &Standing) -> bool {
        self.serial == other.serial
            && self.not_after == other.not_after
            && self.letter == other.letter
    }
}

impl HasSerial for Listed {
    ghost serial = { λ row. row.serial };

    fn serial(&self) -> Serial {
        self.serial
    }

    fn is(&self, other: &Listed) -> bool {
        self.serial == other.serial
            && self.at == other.at
            && self.reason == other.reason
            && self.first == other.first
            && self.not_after == other.not_after
            && self.last == other.last
    }
}

/// The letter of a certificate's status. `Unknown` does not occur, because the certificate exists.
fn letter_of(status: Status) -> Letter
    ensures { result ≡ letter_by status }
{
    match status {
        Status::Revoked { .. } => Letter::Revoked,
        Status::Expired => Letter::Expired,
        Status::Good | Status::Unknown => Letter::Good,
    }
}

/// The rows that `standing` must have at the last accepted moment, `last`, in the order of the certificates.
pub(crate) fn standings(
    alloc: Global,
    certificates: &[CertRow],
    revocations: &BTreeMap<Serial, RevocationRow>,
    last: Moment,
) -> Result<Vec<Standing>, CheckFault>
    ensures made { IfOk result
        (λ made. made.items ≡ map (standing_by last (λ key. get nat_cmp revocations.now key))
        certificates.now) }
    ensures memory { NotBroken result }
{
    let mut made = Vec::new(alloc);
    for certificate in certificates {
        let revocation = revocations.get(&certificate.serial).copied();
        let status = status_of(last, Some(*certificate), revocation);
        made.push(Standing {
            serial: certificate.serial,
            not_after: certificate.not_after,
            letter: letter_of(status),
        })?;
    }
    Ok(made)
}

fn can_be_last_listing(crl: &CrlRow, first: u64, not_after: Moment) -> bool
    ensures { result ≡ (nat_le first crl.now.number && nat_lt not_after crl.now.this_update) }
{
    first <= crl.number && not_after < crl.this_update
}

/// The number of the last CRL that lists a revocation; `None` if not issued yet. That CRL is the first, from number `first` on, whose thisUpdate
/// is after `not_after` (RFC 5280 3.3). The binary search requires that the numbers rise and the thisUpdates do not fall.
fn last_listing(crls: &[CrlRow], first: u64, not_after: Moment) -> Option<u64>
    ensures { NumberedFrom (λ crl. crl.number) 1 crls.now → NeverDecreases (λ crl. crl.this_update) crls.now
        → result ≡ last_in crls.now first not_after }
{
    let at = crls.partition_point(|crl| !can_be_last_listing(crl, first, not_after));
    match crls.get(at) {
        Some(crl) => Some(crl.number),
        None => None,
    }
}

/// The notAfter of a revocation's certificate. `None` does not occur: `check_rows` ran before, and reports a revocation without a certificate.
fn not_after_or_epoch(certificate: Option<CertRow>) -> Moment
    ensures { result ≡ found_not_after certificate }
{
    match certificate {
        Some(certificate) => certificate.not_after,
        None => Moment::EPOCH,
    }
}

/// The rows that `listed` must have, in the order of the revocations.
pub(crate) fn listings(
    alloc: Global,
    revocations: &[RevocationRow],
    certificates: &BTreeMap<Serial, CertRow>,
    crls: &[CrlRow],
) -> Result<Vec<Listed>, CheckFault>
    ensures made { NumberedFrom (λ crl. crl.number) 1 crls.now
        → NeverDecreases (λ crl. crl.this_update) crls.now
        → IfOk result (λ made.
        made.items ≡ map (listed_with crls.now (λ key. get nat_cmp certificates.now key)) revocations.now) }
    ensures memory { NotBroken result }
{
    let mut made = Vec::new(alloc);
    for revocation in revocations {
        let not_after = not_after_or_epoch(certificates.get(&revocation.serial).copied());
        made.push(Listed {
            serial: revocation.serial,
            at: revocation.at,
            reason: revocation.reason,
            first: revocation.first,
            not_after,
            last: last_listing(crls, revocation.first, not_after),
        })?;
    }
    Ok(made)
}

fn count_of(rows: &[Standing], letter: Letter) -> u64
    ensures { result ≡ length (filter (λ row. same_letter row.letter letter) rows.now) }
{
    let mut count = 0;
    for row in rows {
        if row.letter == letter {
            count += 1;
        }
    }
    count
}

/// Checks that `counts`, the row of `kept`, has the number of rows of `standing` with each letter.
pub(crate) fn check_counts(rows: &[Standing], counts: Counts) -> Result<(), CheckFault>
    ensures ok { OnOk result (counts ≡ found_counts rows.now) }
    ensures broken { NotBrokenIf (counts ≡ found_counts rows.now) result }
{
    let good = count_of(rows, Letter::Good);
    let revoked = count_of(rows, Letter::Revoked);
    let expired = count_of(rows, Letter::Expired);
    if counts.good == good && counts.revoked == revoked && counts.expired == expired {
        Ok(())
    } else {
        Err(broken_at(RegisterTable::Kept, 0, Defect::WrongCounts))
    }
}

/// The first index at which `stored` and `wanted` differ; `None` if they are equal. If one is the start of the other, its length is the index.
fn first_difference<T: HasSerial>(stored: &[T], wanted: &[T]) -> Option<usize>
    ensures { MatchOption result (stored.now ≡ wanted.now) (λ _. stored.now ≢ wanted.now) }
{
    for (row_index, row) in stored.iter().enumerate() {
        match wanted.get(row_index) {
            Some(other) if row.is(other) => {}
            _ => return Some(row_index),
        }
    }
    if stored.len() == wanted.len() {
        None
    } else {
        Some(stored.len())
    }
}

fn index_of<T: HasSerial>(rows: &[T], row: Option<&T>) -> usize {
    let Some(row) = row else {
        return rows.len();
    };
    for (row_index, other) in rows.iter().enumerate() {
        if other.is(row) {
            return row_index;
        }
    }
    rows.len()
}

/// Checks that a table's `rows` are those of `wanted`, in any order. If not, sorts both by serial number, and reports the row of `rows` at the
/// first difference; if `rows` has none there, the row after the last.
pub(crate) fn same_rows<T: HasSerial>(
    alloc: Global,
    table: RegisterTable,
    rows: &[T],
    wanted: Vec<T>,
) -> Result<(), CheckFault>
    ensures ok { OnOk result (IsPermutation wanted.items rows.now) }
    ensures broken { KeysDiffer T.serial wanted.items
        → NotBrokenIf (IsPermutation wanted.items rows.now) result }
{
    let mut wanted = wanted;
    wanted.sort_unstable_by_key(|row| row.serial());
    let mut stored = Vec::from_slice(alloc, rows)?;
    stored.sort_unstable_by_key(|row| row.serial());
    match first_difference(&stored, &wanted) {
        None => Ok(()),
        Some(row_index) => Err(broken_at(
            table,
            index_of(rows, stored.get(row_index)),
            Defect::DerivedMismatch,
        )),
    }
}
