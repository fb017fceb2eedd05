//! Replaces the schedule of longest validities. A step has a notBefore, and the longest validity in days of certificates from this notBefore on.

ghost use Rattle.reg_store_tables.specs.Stays.{Stepped};
ghost use Rattle.reg_store_changes.specs.ChangeSteps.{ClearsSteps, WritesSchedule};
ghost use Rattle.reg_store_changes.specs.MadeChanges.{SetsSchedule};
ghost use Rattle.reg_store_tables.specs.Steps.{Makes, MakesRows};

use crate::sql;
use reg_core::Schedule;
use reg_store_tables::write_statements::{commit, write};
use reg_store_tables::{DatabaseFault, put_schedule_steps};
use sqlite::{Alter, Connection, Transaction};

fn clear_schedule_steps<S: Alter>(tx: &mut Transaction<'_, S>) -> Result<(), DatabaseFault>
    ensures made { MakesRows S.Store tx.old tx.new result ClearsSteps }
    ensures stepped { Stepped S.Store tx.old tx.new }
{
    write(tx, sql::CLEAR_STEPS, &[])?;
    Ok(())
}

fn write_schedule<S: Alter>(
    tx: &mut Transaction<'_, S>,
    schedule: &Schedule,
) -> Result<(), DatabaseFault>
    ensures made { Makes S.Store tx.old tx.new result (WritesSchedule schedule.now) }
    ensures stepped { Stepped S.Store tx.old tx.new }
{
    clear_schedule_steps(tx)?;
    put_schedule_steps(tx, schedule.steps())
}

/// Sets the schedule in a transaction of its own. Nothing else changes, not even the column `days` of `office` (the longest validity at creation).
/// Errors: `Memory`; `Store` if the database fails or a transaction is under way. An error changes nothing. But if the disk failed in the commit, the
/// register has the old schedule or the new one once it is opened again.
pub fn set_schedule<S: Alter>(
    conn: &mut Connection<S>,
    schedule: &Schedule,
) -> Result<(), DatabaseFault>
    ensures { SetsSchedule S.Store conn.old conn.new schedule.now result }
{
    if !conn.is_autocommit() {
        return Err(DatabaseFault::Store);
    }
    let mut tx = conn.transaction();
    write_schedule(&mut tx, schedule)?;
    commit(tx)
}
