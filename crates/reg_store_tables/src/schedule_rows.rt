//! Inserts the steps of the schedule. A certificate with a notBefore from a step's `from` up to the next step is valid for at most the step's `days`.

ghost use Rattle.reg_store_tables.specs.Stays.{Stepped};
ghost use Rattle.reg_store_tables.specs.Staged.{AddsStep, AddsSteps};
ghost use Rattle.reg_store_tables.specs.Steps.{MakesRows, MayMakeRows};

use crate::DatabaseFault;
use crate::sql::PUT_STEP;
use crate::write_statements::{sql_moment, sql_number, write};
use reg_core::Moment;
use sqlite::{Alter, Transaction};

fn put_schedule_step<S: Alter>(
    tx: &mut Transaction<'_, S>,
    from: Moment,
    days: u64,
) -> Result<(), DatabaseFault>
    ensures made { MakesRows S.Store tx.old tx.new result (AddsStep from days) }
    ensures stepped { Stepped S.Store tx.old tx.new }
{
    let from = sql_moment(from);
    let days = sql_number(days)?;
    write(tx, PUT_STEP, &[from, days])?;
    Ok(())
}

/// Inserts ascending steps in the empty table `longest`. Errors: `Memory`; `Store` if the database fails or refuses a row, or for over 2^63 - 1 days.
pub fn put_schedule_steps<S: Alter>(
    tx: &mut Transaction<'_, S>,
    steps: &[(Moment, u64)],
) -> Result<(), DatabaseFault>
    ensures made { MayMakeRows S.Store tx.old tx.new result (AddsSteps steps.now) }
    ensures stepped { Stepped S.Store tx.old tx.new }
{
    for step in steps {
        put_schedule_step(tx, step.0, step.1)?;
    }
    Ok(())
}
