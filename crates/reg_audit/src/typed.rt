//! Reads typed values from rows by column index, in the order in which the query of `sql.rt` names the columns. A row with a value of another type or
//! an invalid value is reported as broken, with the defect `NoValue`. A `RowKind` reads one row; `reg_store_tables` has those that are not here. A
//! moment read by `clock_moment_at` must be before 9999-12-22T00:00:00Z (from then on no command is accepted). A notAfter, by `moment_at`, need not.

ghost use Rattle.std.specs.Prelude.{◌≡◌, [], ◌∷◌, List, map, IfOk};
ghost use Rattle.std.specs.List.{AllByRecursion};
ghost use Rattle.reg_audit.specs.Faults.{NoBrokenRow};

use crate::derived_rows::{Listed, Standing};
use crate::fault::{AuditFault, broken_at};
use crate::sql_values::letter_at;
use reg_core::{Defect, Moment, RegisterTable};
use reg_store_tables::RowFault;
use reg_store_tables::rows::{RowKind, rows_in};
use reg_store_tables::sql_values::{
    clock_moment_at, moment_at, number_at, number_or_null_at, reason_at, serial_at,
};
use sqlite::Row;
use std::alloc::Global;

/// The row of the table `office`, as far as it is read here: `cap`, the most rows of a table, and the last accepted moment.
#[derive(Clone, Copy)]
pub(crate) struct OfficeRow {
    pub(crate) cap: u64,
    pub(crate) last: Moment,
}

impl RowKind for OfficeRow {
    ghost use Rattle.reg_audit.specs.ShownRows.{shown_office};
    ghost use Rattle.std.specs.Prelude.{◌<◌};
    ghost use Rattle.reg_core.specs.Calendar.{clock_end};

    type Record = OfficeRow;

    ghost shown = { shown_office };

    ghost has_valid_serial = { λ _. Unit {0} };

    ghost has_values = { λ it. it.last < clock_end };

    fn read_row(row: &Row) -> Option<OfficeRow> {
        Some(OfficeRow {
            cap: number_at(row, 0)?,
            last: clock_moment_at(row, 1)?,
        })
    }
}

/// Rows of `standing`: certificates' state letters. `RowKind` and [`Standing`] are of other crates, so this type implements `RowKind`.
pub(crate) struct StandingRows;

impl RowKind for StandingRows {
    ghost use Rattle.reg_audit.specs.ShownRows.{shown_standing};
    ghost use Rattle.reg_core.specs.Serial.{IsSerial};
    ghost use Rattle.reg_core.specs.Calendar.{IsMoment};

    type Record = Standing;

    ghost shown = { shown_standing };

    ghost has_valid_serial = { λ it. IsSerial it.serial };

    ghost has_values = { λ it. IsMoment it.not_after };

    fn read_row(row: &Row) -> Option<Standing> {
        Some(Standing {
            serial: serial_at(row, 0)?,
            not_after: moment_at(row, 1)?,
            letter: letter_at(row, 2)?,
        })
    }
}

/// Rows of `listed`: CRL entries. `first` and `last` are the numbers of the first and last CRL that list the entry.
pub(crate) struct ListedRows;

impl RowKind for ListedRows {
    ghost use Rattle.reg_audit.specs.ShownRows.{shown_listed};
    ghost use Rattle.reg_core.specs.Serial.{IsSerial};
    ghost use Rattle.reg_core.specs.Calendar.{IsMoment};
    ghost use Rattle.reg_audit.specs.ReadableValues.{AreMomentAndReason};

    type Record = Listed;

    ghost shown = { shown_listed };

    ghost has_valid_serial = { λ it. IsSerial it.serial };

    ghost has_values = { λ it. AreMomentAndReason it.at it.reason × IsMoment it.not_after };

    fn read_row(row: &Row) -> Option<Listed> {
        Some(Listed {
            serial: serial_at(row, 0)?,
            at: clock_moment_at(row, 1)?,
            reason: reason_at(row, 2)?,
            first: number_at(row, 3)?,
            not_after: moment_at(row, 4)?,
            last: number_or_null_at(row, 5)?,
        })
    }
}

pub(crate) fn typed<T: RowKind>(
    alloc: Global,
    table: RegisterTable,
    rows: &[Row],
) -> Result<Vec<T::Record>, AuditFault>
    ensures read { (shown : List T.Record) → AllByRecursion T.has_valid_serial shown
        → rows.now ≡ map T.shown shown
        → IfOk result (λ read. read.items ≡ shown) }
    ensures has { (shown : List T.Record) → AllByRecursion T.has_valid_serial shown
        → AllByRecursion T.has_values shown → rows.now ≡ map T.shown shown
        → NoBrokenRow result }
{
    match rows_in::<T>(alloc, rows) {
        Ok(found) => Ok(found),
        Err(RowFault::Memory) => Err(AuditFault::Memory),
        Err(RowFault::At(row_index)) => Err(broken_at(table, row_index, Defect::NoValue)),
    }
}

/// The value of the only row of a table. If there are none or several, the row after the last one is reported as broken.
pub(crate) fn only<T: RowKind>(table: RegisterTable, rows: &[Row]) -> Result<T::Record, AuditFault>
    ensures read { (it : T.Record) → T.has_valid_serial it → rows.now ≡ T.shown it ∷ []
        → IfOk result (λ read. read ≡ it) }
    ensures has { (it : T.Record) → T.has_valid_serial it → T.has_values it → rows.now ≡ T.shown it ∷ []
        → NoBrokenRow result }
{
    match rows {
        [row] => T::read_row(row).ok_or(broken_at(table, 0, Defect::NoValue)),
        _ => Err(broken_at(table, rows.len(), Defect::NoValue)),
    }
}
