//! Checks of the order of rows. Ids and CRL numbers are 1, 2, 3 and so on. No row has an earlier moment than the row before it, or a moment after
//! `last`, the last accepted command's. `table` and `why` (what is wrong) are only for the report of a broken row.

ghost use Rattle.std.specs.Prelude.{◌≡◌, ◌≤◌, OnOk};
ghost use Rattle.std.specs.List.{AllByRecursion};
ghost use Rattle.reg_core.specs.Sound.{NumberedFrom, NeverDecreases};
ghost use Rattle.reg_audit.specs.CheckFaults.{NotBrokenIf};

use crate::check_fault::{CheckFault, broken_at};
use reg_core::{
    CrlRow, Defect, Moment, OrderRow, RegisterTable, RequestRow, RevocationRow, SubscriberRow,
};

pub(crate) trait Numbered {
    ghost use Rattle.std.specs.Prelude.{ℕ, ◌≡◌};

    ghost number: { Self → ℕ };

    fn number(&self) -> u64
        ensures { result ≡ number self.now };
}

impl Numbered for SubscriberRow {
    ghost number = { λ row. row.id };

    fn number(&self) -> u64 {
        self.id
    }
}

impl Numbered for OrderRow {
    ghost number = { λ row. row.id };

    fn number(&self) -> u64 {
        self.id
    }
}

impl Numbered for RequestRow {
    ghost number = { λ row. row.id };

    fn number(&self) -> u64 {
        self.id
    }
}

impl Numbered for CrlRow {
    ghost number = { λ row. row.number };

    fn number(&self) -> u64 {
        self.number
    }
}

pub(crate) fn in_order<T: Numbered>(table: RegisterTable, rows: &[T]) -> Result<(), CheckFault>
    ensures ok { OnOk result (NumberedFrom T.number 1 rows.now) }
    ensures broken { NotBrokenIf (NumberedFrom T.number 1 rows.now) result }
{
    for (row_index, row) in rows.iter().enumerate() {
        if row.number() != row_index as u64 + 1 {
            return Err(broken_at(table, row_index, Defect::OutOfOrder));
        }
    }
    Ok(())
}

pub(crate) trait Dated {
    ghost use Rattle.std.specs.Prelude.{ℕ, ◌≡◌};

    ghost moment: { Self → ℕ };

    fn moment(&self) -> Moment
        ensures { result ≡ moment self.now };
}

impl Dated for RequestRow {
    ghost moment = { λ row. row.received };

    fn moment(&self) -> Moment {
        self.received
    }
}

impl Dated for RevocationRow {
    ghost moment = { λ row. row.at };

    fn moment(&self) -> Moment {
        self.at
    }
}

impl Dated for CrlRow {
    ghost moment = { λ row. row.this_update };

    fn moment(&self) -> Moment {
        self.this_update
    }
}

pub(crate) fn moments_never_decrease<T: Dated>(
    table: RegisterTable,
    rows: &[T],
    why: Defect,
) -> Result<(), CheckFault>
    ensures ok { OnOk result (NeverDecreases T.moment rows.now) }
    ensures broken { NotBrokenIf (NeverDecreases T.moment rows.now) result }
{
    let mut latest = Moment::EPOCH;
    for (row_index, row) in rows.iter().enumerate() {
        let at = row.moment();
        if at < latest {
            return Err(broken_at(table, row_index, why));
        }
        latest = at;
    }
    Ok(())
}

/// Checks that no row has a lower `first` than the row before it. `first` is the number of the first CRL that can list the row's revocation.
pub(crate) fn firsts_never_decrease(revocations: &[RevocationRow]) -> Result<(), CheckFault>
    ensures ok { OnOk result (NeverDecreases (λ row. row.first) revocations.now) }
    ensures broken { NotBrokenIf (NeverDecreases (λ row. row.first) revocations.now) result }
{
    let mut latest = 0;
    for (row_index, revocation) in revocations.iter().enumerate() {
        if revocation.first < latest {
            return Err(broken_at(RegisterTable::Revocation, row_index, Defect::EarlierFirst));
        }
        latest = revocation.first;
    }
    Ok(())
}

/// Checks that no row has a moment after `last`.
pub(crate) fn are_at_most_last<T: Dated>(
    table: RegisterTable,
    rows: &[T],
    last: Moment,
) -> Result<(), CheckFault>
    ensures ok { OnOk result (AllByRecursion (λ row. T.moment row ≤ last) rows.now) }
    ensures broken { NotBrokenIf (AllByRecursion (λ row. T.moment row ≤ last) rows.now) result }
{
    for (row_index, row) in rows.iter().enumerate() {
        if row.moment() > last {
            return Err(broken_at(table, row_index, Defect::AfterLast));
        }
    }
    Ok(())
}
