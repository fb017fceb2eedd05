//! Adds to an older version the tables of version 3 that it lacks, with their first rows. `derived_tables.rt` then fills the derived tables.

ghost use Rattle.reg_store_tables.specs.Stays.{Stepped};
ghost use Rattle.reg_store_tables.specs.Steps.{Makes, MakesRows};
ghost use Rattle.reg_store_migration.specs.Rebuilds.{BeginsTables, PutsCounts, SetsVersion};

use crate::missing_tables::make_missing;
use crate::sql;
use crate::version::OlderVersion;
use reg_core::Moment;
use reg_store_tables::write_statements::write;
use reg_store_tables::{DatabaseFault, put_schedule_steps};
use sqlite::{Alter, Transaction};

fn set_version<S: Alter>(tx: &mut Transaction<'_, S>) -> Result<(), DatabaseFault>
    ensures made { MakesRows S.Store tx.old tx.new result SetsVersion }
    ensures stepped { Stepped S.Store tx.old tx.new }
{
    write(tx, sql::SET_VERSION, &[])?;
    Ok(())
}

/// Inserts the row of `kept` (the counts of the state letters), all 0. Errors: `Memory`; `Store` if the database fails or already has the row.
pub fn put_counts<S: Alter>(tx: &mut Transaction<'_, S>) -> Result<(), DatabaseFault>
    ensures made { MakesRows S.Store tx.old tx.new result PutsCounts }
    ensures stepped { Stepped S.Store tx.old tx.new }
{
    write(tx, sql::PUT_COUNTS, &[])?;
    Ok(())
}

/// Makes the tables of version 3. The schedule has one step, a longest validity of `days` from 1970 on. Of the derived tables, only `kept` has a row.
pub(crate) fn make_tables<S: Alter>(
    tx: &mut Transaction<'_, S>,
    version: OlderVersion,
    days: u64,
) -> Result<(), DatabaseFault>
    ensures made { Makes S.Store tx.old tx.new result (BeginsTables version days) }
    ensures stepped { Stepped S.Store tx.old tx.new }
{
    make_missing(tx, version)?;
    set_version(tx)?;
    put_counts(tx)?;
    put_schedule_steps(tx, &[(Moment::EPOCH, days)])
}
