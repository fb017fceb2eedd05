//! Makes the tables and indexes that an older version lacks; empties the derived tables that it has. Errors: those of [`define`].

ghost use Rattle.reg_store_tables.specs.Schema.{register_schema};
ghost use Rattle.reg_store_tables.specs.Stays.{Stepped};
ghost use Rattle.reg_store_tables.specs.Steps.{Makes};
ghost use Rattle.reg_store_migration.specs.Older.{with_derived_tables};
ghost use Rattle.reg_store_migration.specs.Rebuilds.{AddsDerivedTables, AddsSchedule, Defines, Rebuilds};

use crate::sql;
use crate::version::OlderVersion;
use reg_store_tables::write_statements::write;
use reg_store_tables::{DatabaseFault, schema};
use sqlite::{Alter, Transaction};

/// Runs one CREATE TABLE or CREATE INDEX. Errors: `Memory`; `Store` if the database fails or already has a table or index of that name.
pub fn define<S: Alter>(tx: &mut Transaction<'_, S>, sql: &str) -> Result<(), DatabaseFault>
    ensures made { Makes S.Store tx.old tx.new result (Defines sql.now) }
    ensures stepped { Stepped S.Store tx.old tx.new }
{
    write(tx, sql, &[])?;
    Ok(())
}

/// Makes the derived tables, without rows: the certificates' state letters (`standing`), the counts of them (`kept`), the CRL entries (`listed`).
pub fn make_derived_tables<S: Alter>(tx: &mut Transaction<'_, S>) -> Result<(), DatabaseFault>
    ensures made { Makes S.Store tx.old tx.new result AddsDerivedTables }
    ensures stepped { Stepped S.Store tx.old tx.new }
{
    define(tx, schema::STANDING)?;
    define(tx, schema::KEPT)?;
    define(tx, schema::LISTED)
}

fn clear_derived_tables<S: Alter>(tx: &mut Transaction<'_, S>) -> Result<(), DatabaseFault>
    ensures made { Makes S.Store tx.old tx.new result (Rebuilds OlderVersion.Second with_derived_tables) }
    ensures stepped { Stepped S.Store tx.old tx.new }
{
    write(tx, sql::CLEAR_LISTED, &[])?;
    write(tx, sql::CLEAR_STANDING, &[])?;
    write(tx, sql::CLEAR_KEPT, &[])?;
    Ok(())
}

fn make_or_clear_derived_tables<S: Alter>(
    tx: &mut Transaction<'_, S>,
    version: OlderVersion,
) -> Result<(), DatabaseFault>
    ensures made { Makes S.Store tx.old tx.new result (Rebuilds version with_derived_tables) }
    ensures stepped { Stepped S.Store tx.old tx.new }
{
    match version {
        OlderVersion::First => make_derived_tables(tx),
        OlderVersion::Second => clear_derived_tables(tx),
    }
}

/// Makes the table of the schedule (`longest`), without rows, and indexes that find CRLs (`crl_at`) and certificates past notAfter (`standing_due`).
pub fn make_schedule_and_indexes<S: Alter>(tx: &mut Transaction<'_, S>) -> Result<(), DatabaseFault>
    ensures made { Makes S.Store tx.old tx.new result AddsSchedule }
    ensures stepped { Stepped S.Store tx.old tx.new }
{
    define(tx, schema::LONGEST)?;
    define(tx, schema::CRL_AT)?;
    define(tx, schema::STANDING_DUE)
}

pub(crate) fn make_missing<S: Alter>(
    tx: &mut Transaction<'_, S>,
    version: OlderVersion,
) -> Result<(), DatabaseFault>
    ensures made { Makes S.Store tx.old tx.new result (Rebuilds version register_schema) }
    ensures stepped { Stepped S.Store tx.old tx.new }
{
    make_or_clear_derived_tables(tx, version)?;
    make_schedule_and_indexes(tx)
}
