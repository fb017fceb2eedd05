//! Reads result rows as values. Columns are counted from 0, in the order of the statement. `first`, `last`: the numbers of the first and last CRL
//! that list a revocation. `ground`: why a request asks for it.

ghost use Rattle.std.specs.Prelude.{◌≡◌, ◌≤◌, List, Option, map, length, IfOk, IfErr, OnErr};
ghost use Rattle.std.specs.List.{AllByRecursion};
ghost use Rattle.reg_store_tables.specs.ShownRows.{IsRowOf};

use crate::fault::{DatabaseFault, RowFault};
use crate::sql_values::{
    clock_moment_at, flag_at, ground_at, label_at, moment_at, number_at, number_or_null_at,
    reason_at, serial_at,
};
use reg_core::{
    CertRow, Counts, CrlRow, Entry, Listing, Moment, OrderRow, RequestRow, RevocationRow,
    SubscriberRow,
};
use sqlite::Row;
use std::alloc::Global;

/// A kind of row, and how to read one. In its conditions, `Unit {0}` is always true.
pub trait RowKind {
    ghost use Rattle.std.specs.Prelude.{◌≡◌, IfSome, IsSome};
    ghost use Rattle.sqlite_value.specs.Order.{Row as Cells};
    ghost use Rattle.reg_store_tables.specs.ShownRows.{HasCells};

    /// The type of the value that a row is read as.
    type Record: Copy;

    /// The columns of a value's row.
    ghost shown: { Self.Record → Cells };

    /// The serial number of a value, if it has one, is in the range of RFC 5280 4.1.2.2.
    ghost has_valid_serial: { Self.Record → Type 0 };

    /// The other fields of a value are within the ranges of the register's types.
    ghost has_values: { Self.Record → Type 0 };

    /// Reads a row: `None` if a column has another type or an invalid value.
    fn read_row(row: &Row) -> Option<Self::Record>
        ensures read { (it : Self.Record) → has_valid_serial it → row.now ≡ shown it
            → IfSome result (λ read. read ≡ it) }
        ensures has { (it : Self.Record) → has_valid_serial it → has_values it → row.now ≡ shown it
            → IsSome result }
        ensures in_columns { IfSome result (λ it. has_valid_serial it × HasCells 0 row.now (shown it)) };
}

impl RowKind for SubscriberRow {
    ghost use Rattle.reg_store_tables.specs.ReadStatements.{shown_subscriber};
    ghost use Rattle.reg_core.specs.Label.{IsLabel};

    type Record = SubscriberRow;

    ghost shown = { shown_subscriber };

    ghost has_valid_serial = { λ _. Unit {0} };

    ghost has_values = { λ it. IsLabel it.name };

    fn read_row(row: &Row) -> Option<SubscriberRow> {
        Some(SubscriberRow {
            id: number_at(row, 0)?,
            name: label_at(row, 1)?,
        })
    }
}

impl RowKind for OrderRow {
    ghost use Rattle.reg_store_tables.specs.ReadStatements.{shown_order};

    type Record = OrderRow;

    ghost shown = { shown_order };

    ghost has_valid_serial = { λ _. Unit {0} };

    ghost has_values = { λ _. Unit {0} };

    fn read_row(row: &Row) -> Option<OrderRow> {
        Some(OrderRow {
            id: number_at(row, 0)?,
            subscriber: number_at(row, 1)?,
            days: number_at(row, 2)?,
        })
    }
}

impl RowKind for CertRow {
    ghost use Rattle.reg_store_tables.specs.ReadStatements.{shown_certificate};
    ghost use Rattle.reg_core.specs.Serial.{IsSerial};
    ghost use Rattle.reg_store_tables.specs.RecordValues.{IsValidity};

    type Record = CertRow;

    ghost shown = { shown_certificate };

    ghost has_valid_serial = { λ it. IsSerial it.serial };

    ghost has_values = { λ it. IsValidity it.not_before it.not_after };

    fn read_row(row: &Row) -> Option<CertRow> {
        Some(CertRow {
            serial: serial_at(row, 0)?,
            order: number_at(row, 1)?,
            not_before: moment_at(row, 2)?,
            not_after: moment_at(row, 3)?,
        })
    }
}

impl RowKind for RequestRow {
    ghost use Rattle.reg_store_tables.specs.ReadStatements.{shown_request};
    ghost use Rattle.reg_core.specs.Serial.{IsSerial};
    ghost use Rattle.std.specs.Prelude.{◌<◌};
    ghost use Rattle.reg_core.specs.Calendar.{clock_end};

    type Record = RequestRow;

    ghost shown = { shown_request };

    ghost has_valid_serial = { λ it. IsSerial it.serial };

    ghost has_values = { λ it. it.received < clock_end };

    fn read_row(row: &Row) -> Option<RequestRow> {
        Some(RequestRow {
            id: number_at(row, 0)?,
            serial: serial_at(row, 1)?,
            ground: ground_at(row, 2)?,
            received: clock_moment_at(row, 3)?,
            declined: flag_at(row, 4)?,
        })
    }
}

impl RowKind for RevocationRow {
    ghost use Rattle.reg_store_tables.specs.ReadStatements.{shown_revocation};
    ghost use Rattle.reg_core.specs.Serial.{IsSerial};
    ghost use Rattle.reg_store_tables.specs.RecordValues.{AreMomentAndReason};

    type Record = RevocationRow;

    ghost shown = { shown_revocation };

    ghost has_valid_serial = { λ it. IsSerial it.serial };

    ghost has_values = { λ it. AreMomentAndReason it.at it.reason };

    fn read_row(row: &Row) -> Option<RevocationRow> {
        Some(RevocationRow {
            serial: serial_at(row, 0)?,
            at: clock_moment_at(row, 1)?,
            reason: reason_at(row, 2)?,
            request: number_at(row, 3)?,
            first: number_at(row, 4)?,
        })
    }
}

impl RowKind for CrlRow {
    ghost use Rattle.reg_store_tables.specs.ReadStatements.{shown_crl};
    ghost use Rattle.std.specs.Prelude.{◌<◌};
    ghost use Rattle.reg_core.specs.Calendar.{clock_end};

    type Record = CrlRow;

    ghost shown = { shown_crl };

    ghost has_valid_serial = { λ _. Unit {0} };

    ghost has_values = { λ it. it.this_update < clock_end };

    fn read_row(row: &Row) -> Option<CrlRow> {
        Some(CrlRow {
            number: number_at(row, 0)?,
            this_update: clock_moment_at(row, 1)?,
        })
    }
}

impl RowKind for Entry {
    ghost use Rattle.reg_store_tables.specs.ReadStatements.{shown_entry};
    ghost use Rattle.reg_core.specs.Serial.{IsSerial};
    ghost use Rattle.reg_store_tables.specs.RecordValues.{AreMomentAndReason};

    type Record = Entry;

    ghost shown = { shown_entry };

    ghost has_valid_serial = { λ it. IsSerial it.serial };

    ghost has_values = { λ it. AreMomentAndReason it.at it.reason };

    fn read_row(row: &Row) -> Option<Entry> {
        Some(Entry {
            serial: serial_at(row, 0)?,
            at: clock_moment_at(row, 1)?,
            reason: reason_at(row, 2)?,
        })
    }
}

impl RowKind for Counts {
    ghost use Rattle.reg_store_tables.specs.ShownRows.{shown_counts};

    type Record = Counts;

    ghost shown = { shown_counts };

    ghost has_valid_serial = { λ _. Unit {0} };

    ghost has_values = { λ _. Unit {0} };

    fn read_row(row: &Row) -> Option<Counts> {
        Some(Counts {
            good: number_at(row, 0)?,
            revoked: number_at(row, 1)?,
            expired: number_at(row, 2)?,
        })
    }
}

impl RowKind for Listing {
    ghost use Rattle.reg_store_tables.specs.ShownRows.{shown_listing};

    type Record = Listing;

    ghost shown = { shown_listing };

    ghost has_valid_serial = { λ _. Unit {0} };

    ghost has_values = { λ _. Unit {0} };

    fn read_row(row: &Row) -> Option<Listing> {
        Some(Listing {
            first: number_at(row, 0)?,
            last: number_or_null_at(row, 1)?,
        })
    }
}

/// A row of a step of the schedule: a notBefore, and the longest validity in days from this notBefore on.
pub struct Step;

impl RowKind for Step {
    ghost use Rattle.reg_store_tables.specs.ReadStatements.{shown_step};
    ghost use Rattle.reg_core.specs.Calendar.{IsMoment};

    type Record = (Moment, u64);

    ghost shown = { shown_step };

    ghost has_valid_serial = { λ _. Unit {0} };

    ghost has_values = { λ it. IsMoment it.0 };

    fn read_row(row: &Row) -> Option<(Moment, u64)> {
        Some((moment_at(row, 0)?, number_at(row, 1)?))
    }
}

/// A row of one number.
pub(crate) struct Number;

impl RowKind for Number {
    ghost use Rattle.reg_store_tables.specs.ShownRows.{shown_number};

    type Record = u64;

    ghost shown = { shown_number };

    ghost has_valid_serial = { λ _. Unit {0} };

    ghost has_values = { λ _. Unit {0} };

    fn read_row(row: &Row) -> Option<u64> {
        Some(number_at(row, 0)?)
    }
}

/// A row of one moment, before [`Moment::CLOCK_END`].
pub(crate) struct ClockMoment;

impl RowKind for ClockMoment {
    ghost use Rattle.reg_store_tables.specs.ShownRows.{shown_number};
    ghost use Rattle.std.specs.Prelude.{◌<◌};
    ghost use Rattle.reg_core.specs.Calendar.{clock_end};

    type Record = Moment;

    ghost shown = { shown_number };

    ghost has_valid_serial = { λ _. Unit {0} };

    ghost has_values = { λ it. it < clock_end };

    fn read_row(row: &Row) -> Option<Moment> {
        Some(clock_moment_at(row, 0)?)
    }
}

/// A row of the lives of CRLs and of OCSP responses (thisUpdate to nextUpdate, in seconds), and the cap (the most rows that a table may have).
pub(crate) struct LivesAndCap;

impl RowKind for LivesAndCap {
    ghost use Rattle.reg_store_tables.specs.ShownRows.{shown_terms};

    type Record = (u64, u64, u64);

    ghost shown = { shown_terms };

    ghost has_valid_serial = { λ _. Unit {0} };

    ghost has_values = { λ _. Unit {0} };

    fn read_row(row: &Row) -> Option<(u64, u64, u64)> {
        Some((number_at(row, 0)?, number_at(row, 1)?, number_at(row, 2)?))
    }
}

/// Reads all rows. Errors: `Memory`; `At` with the index of the first row that has a column of another type or an invalid value.
pub fn rows_in<T: RowKind>(alloc: Global, rows: &[Row]) -> Result<Vec<T::Record>, RowFault>
    ensures read { (shown : List T.Record) → AllByRecursion T.has_valid_serial shown
        → rows.now ≡ map T.shown shown
        → IfOk result (λ read. read.items ≡ shown) }
    ensures has { (shown : List T.Record) → AllByRecursion T.has_valid_serial shown
        → AllByRecursion T.has_values shown → rows.now ≡ map T.shown shown
        → IfErr result (λ why. why ≡ RowFault.Memory) }
{
    let mut found = Vec::new(alloc);
    for row in rows {
        match T::read_row(row) {
            Some(it) => found.push(it)?,
            None => return Err(RowFault::At(found.len())),
        }
    }
    Ok(found)
}

pub(crate) fn row_in<T: RowKind>(rows: &[Row]) -> Result<Option<T::Record>, DatabaseFault>
    ensures read { (wanted : Option T.Record) → IsRowOf T.has_valid_serial T.shown rows.now wanted
        → IfOk result (λ found. found ≡ wanted) }
    ensures has { (wanted : Option T.Record)
        → IsRowOf (λ it. T.has_valid_serial it × T.has_values it) T.shown rows.now wanted
        → OnErr result (2 ≤ length rows.now) }
{
    match rows {
        [] => Ok(None),
        [row] => match T::read_row(row) {
            Some(it) => Ok(Some(it)),
            None => Err(DatabaseFault::Store),
        },
        _ => Err(DatabaseFault::Store),
    }
}
