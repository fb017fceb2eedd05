//! The migration of a register of version 1 or 2 to version 3, the program's.

ghost use Rattle.std.specs.Prelude.{◌≡◌, false};
ghost use Rattle.reg_store_tables.specs.Stays.{Stepped};
ghost use Rattle.reg_store_tables.specs.Commits.{Commits};
ghost use Rattle.reg_store_tables.specs.Steps.{Makes};
ghost use Rattle.reg_store_migration.specs.Rebuilds.{MigratesTables};

use crate::derived_tables::rebuild_derived_tables;
use crate::initial_rows::make_tables;
use crate::version::OlderVersion;
use reg_core::Moment;
use reg_store_tables::DatabaseFault;
use reg_store_tables::write_statements::commit;
use sqlite::{Alter, Connection, Transaction};

fn migrate_tables<S: Alter>(
    tx: &mut Transaction<'_, S>,
    version: OlderVersion,
    days: u64,
    last: Moment,
) -> Result<(), DatabaseFault>
    ensures made { Makes S.Store tx.old tx.new result (MigratesTables version days last) }
    ensures stepped { Stepped S.Store tx.old tx.new }
{
    make_tables(tx, version, days)?;
    rebuild_derived_tables(tx, last)
}

/// Migrates a register of an older version to version 3, in one transaction: the records stay, and the derived tables are rebuilt from them.
/// `days` is the register's longest validity, `last` its last accepted moment; the caller checks both. Errors: `Memory`; `Store` if the database
/// fails or already has a table or index to be added, or a row is missing or invalid. An error changes nothing. But if the disk failed in the commit,
/// the database is as before or wholly migrated once it is opened again.
pub fn migrate<S: Alter>(
    conn: &mut Connection<S>,
    version: OlderVersion,
    days: u64,
    last: Moment,
) -> Result<(), DatabaseFault>
    requires { conn.old.in_transaction ≡ false }
    ensures commits { Commits S.Store conn.old conn.new result (MigratesTables version days last) }
    ensures idle { conn.new.in_transaction ≡ false }
{
    let mut tx = conn.transaction();
    migrate_tables(&mut tx, version, days, last)?;
    commit(tx)
}
