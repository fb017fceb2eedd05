ghost use Rattle.std.specs.Prelude.{◌≡◌, ℕ, IsTrue, OnOk};
ghost use Rattle.sqlite_value.specs.Order.{column};
ghost use Rattle.reg_core.specs.Schedule.{IsDays};
ghost use Rattle.reg_store_tables.specs.Rows.{number};
ghost use Rattle.reg_audit.specs.ReadQueries.{other_queries};
ghost use Rattle.reg_audit.specs.Faults.{NoBrokenRowIf};
ghost use Rattle.reg_audit.specs.ReadableValues.{HasAllowedDays};
ghost use Rattle.reg_audit.specs.ShownTables.{OnEachRead};

use crate::fault::{AuditFault, broken_at};
use crate::read_rows::rows_at;
use reg_core::{Defect, RegisterTable, Schedule};
use reg_store_tables::sql_values::number_at;
use sqlite::Row;

/// Whether `days`, the longest validity when the register was created, is 1 to 398 (`can_allow`). `AuditQuery::Terms` reads it as column 6.
fn has_allowed_days(row: &Row) -> bool
    ensures allowed { IsTrue result → (days : ℕ) × (column row.now 6 ≡ number days) × IsDays days }
    ensures others { (days : ℕ) → column row.now 6 ≡ number days → IsDays days → IsTrue result }
{
    match number_at(row, 6) {
        Some(days) => Schedule::can_allow(days),
        None => false,
    }
}

/// Checks `days`; the defect is `BadDays`. `Terms` is item 5 of [`crate::complete::OTHER_QUERIES`], so its rows are `more[5]`: one row, else `Store`.
pub(crate) fn check_longest_validity(more: &[Vec<Row>]) -> Result<(), AuditFault>
    ensures allowed { OnEachRead other_queries more.now (λ rows. rows.items)
        (λ records columns. OnOk result (HasAllowedDays columns)) }
    ensures broken { OnEachRead other_queries more.now (λ rows. rows.items)
        (λ records columns. NoBrokenRowIf (HasAllowedDays columns) result) }
{
    let [office] = rows_at(more, 5) else {
        return Err(AuditFault::Store);
    };
    if has_allowed_days(office) {
        return Ok(());
    }
    Err(broken_at(RegisterTable::Office, 0, Defect::BadDays))
}
