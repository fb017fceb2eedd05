//! The first rows of a register's tables: one of `office`, one of `kept` (counts of 0), and the steps of the schedule.

ghost use Rattle.reg_store_tables.specs.Schema.{register_schema};
ghost use Rattle.reg_store_tables.specs.Stays.{Stepped};
ghost use Rattle.reg_store_tables.specs.Steps.{Makes};
ghost use Rattle.reg_store_opening.specs.Blank.{CreatesRegister, PutsOffice};

use crate::sql;
use reg_core::Policy;
use reg_der::Issuer;
use reg_store_migration::put_counts;
use reg_store_tables::write_statements::{sql_number, write};
use reg_store_tables::{DatabaseFault, put_schedule_steps};
use sqlite::types::ValueRef;
use sqlite::{Alter, Transaction};

/// Inserts the row of `office`: version 3, the issuer, the policy (`days`: the schedule's greatest; lives in seconds; `cap`: most rows of a table).
fn put_office<S: Alter>(
    tx: &mut Transaction<'_, S>,
    issuer: &Issuer,
    policy: &Policy,
) -> Result<(), DatabaseFault>
    ensures made { Makes S.Store tx.old tx.new result (PutsOffice issuer.now policy.now) }
    ensures stepped { Stepped S.Store tx.old tx.new }
{
    let days = sql_number(policy.schedule().greatest())?;
    let crl_life = sql_number(policy.crl_life())?;
    let ocsp_life = sql_number(policy.ocsp_life())?;
    let cap = sql_number(policy.cap())?;
    let name = ValueRef::Blob(issuer.stored_name());
    let key = ValueRef::Blob(issuer.key());
    write(
        tx,
        sql::PUT_OFFICE,
        &[name, key, days, crl_life, ocsp_life, cap],
    )?;
    Ok(())
}

pub(crate) fn fill<S: Alter>(
    tx: &mut Transaction<'_, S>,
    issuer: &Issuer,
    policy: &Policy,
) -> Result<(), DatabaseFault>
    ensures made { Makes S.Store tx.old tx.new result
        (CreatesRegister register_schema issuer.now policy.now) }
    ensures stepped { Stepped S.Store tx.old tx.new }
{
    put_office(tx, issuer, policy)?;
    put_counts(tx)?;
    let schedule = policy.schedule();
    put_schedule_steps(tx, schedule.steps())
}
