//! Sets the schedule of longest validities, or the issuer, inside the transaction that is under way. The moment of the last accepted command stays.
//! Errors: those of the statements (`statements.rt`); after an error, the transaction must be rolled back.

ghost use Rattle.std.specs.Prelude.{◌≡◌, OnOk, true};
ghost use Rattle.reg_store_changes.specs.ChangeSteps.{ClearsSteps, ReplacesIssuer, WritesSchedule};
ghost use Rattle.reg_store_changes.specs.WithinTransactions.{ContinuesWithin, MakesRowsWithin, MakesWithin, StepsWithin};
ghost use Rattle.reg_store_tables.specs.Staged.{AddsStep, AddsSteps};
ghost use Rattle.reg_store_tables.specs.Steps.{KeepsRows};

use crate::sql;
use crate::writes::write;
use reg_core::{Moment, Schedule};
use reg_der::Issuer;
use reg_store_tables::DatabaseFault;
use reg_store_tables::write_statements::{sql_moment, sql_number};
use sqlite::types::ValueRef;
use sqlite::{Alter, Connection};

/// Replaces the column `name`: the issuer's Name, then any key identifiers. The issuer must have the same key as before; the call doesn't check it.
pub fn enter_issuer<S: Alter>(
    conn: &mut Connection<S>,
    issuer: &Issuer,
) -> Result<(), DatabaseFault>
    ensures made { MakesRowsWithin S.Store conn.old conn.new result (ReplacesIssuer issuer.now) }
    ensures stepped { StepsWithin S.Store conn.old conn.new }
    ensures under_way { OnOk result (conn.old.in_transaction ≡ true) }
{
    write(conn, sql::SET_NAME, &[ValueRef::Blob(issuer.stored_name())])?;
    Ok(())
}

pub fn enter_schedule<S: Alter>(
    conn: &mut Connection<S>,
    schedule: &Schedule,
) -> Result<(), DatabaseFault>
    ensures made { MakesWithin S.Store conn.old conn.new result (WritesSchedule schedule.now) }
    ensures stepped { StepsWithin S.Store conn.old conn.new }
    ensures under_way { OnOk result (conn.old.in_transaction ≡ true) }
{
    clear_steps(conn)?;
    put_steps(conn, schedule.steps())
}

fn clear_steps<S: Alter>(conn: &mut Connection<S>) -> Result<(), DatabaseFault>
    ensures made { MakesRowsWithin S.Store conn.old conn.new result ClearsSteps }
    ensures stepped { StepsWithin S.Store conn.old conn.new }
    ensures under_way { OnOk result (conn.old.in_transaction ≡ true) }
{
    write(conn, sql::CLEAR_STEPS, &[])?;
    Ok(())
}

/// Inserts ascending steps into the empty table `longest`.
fn put_steps<S: Alter>(
    conn: &mut Connection<S>,
    steps: &[(Moment, u64)],
) -> Result<(), DatabaseFault>
    ensures made { ContinuesWithin S.Store conn.old conn.new result
        (λ before after. AddsSteps steps.now before after × KeepsRows before after) }
    ensures stepped { StepsWithin S.Store conn.old conn.new }
{
    for step in steps {
        put_step(conn, step.0, step.1)?;
    }
    Ok(())
}

fn put_step<S: Alter>(
    conn: &mut Connection<S>,
    from: Moment,
    days: u64,
) -> Result<(), DatabaseFault>
    ensures made { MakesRowsWithin S.Store conn.old conn.new result (AddsStep from days) }
    ensures stepped { StepsWithin S.Store conn.old conn.new }
{
    let from = sql_moment(from);
    let days = sql_number(days)?;
    write(conn, sql::PUT_STEP, &[from, days])?;
    Ok(())
}
