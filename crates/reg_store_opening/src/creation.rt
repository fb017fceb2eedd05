//! Creates a register in an empty database.

ghost use Rattle.std.specs.Prelude.{◌≡◌, ◌↔◌, false, IsTrue, OnOk, IfErr};
ghost use Rattle.reg_store_tables.specs.Schema.{no_schema};
ghost use Rattle.reg_store_tables.specs.Stays.{Stepped};
ghost use Rattle.reg_store_tables.specs.Commits.{Commits};
ghost use Rattle.reg_store_tables.specs.Steps.{Makes};
ghost use Rattle.reg_store_opening.specs.Blank.{CreatesRegister};
ghost use Rattle.reg_store_opening.specs.Opens.{Creates, IsFailedCreate};

use crate::empty_tables::make_empty_tables;
use crate::initial_rows::fill;
use reg_core::Policy;
use reg_der::Issuer;
use reg_store_tables::write_statements::commit;
use reg_store_tables::{DatabaseFault, StoreFault};
use sqlite::{Alter, Connection, Transaction};

fn is_empty<S: Alter>(conn: &Connection<S>) -> bool
    ensures { IsTrue result ↔ conn.now.schema ≡ no_schema }
{
    let schema = conn.schema();
    schema.tables.is_empty() && schema.indexes.is_empty() && schema.views.is_empty()
}

fn make_register<S: Alter>(
    tx: &mut Transaction<'_, S>,
    issuer: &Issuer,
    policy: &Policy,
) -> Result<(), DatabaseFault>
    ensures made { Makes S.Store tx.old tx.new result (CreatesRegister no_schema issuer.now policy.now) }
    ensures stepped { Stepped S.Store tx.old tx.new }
{
    make_empty_tables(tx)?;
    fill(tx, issuer, policy)
}

fn create_in_transaction<S: Alter>(
    conn: &mut Connection<S>,
    issuer: &Issuer,
    policy: &Policy,
) -> Result<(), DatabaseFault>
    requires { conn.old.in_transaction ≡ false }
    ensures commits { Commits S.Store conn.old conn.new result
        (CreatesRegister no_schema issuer.now policy.now) }
    ensures idle { conn.new.in_transaction ≡ false }
{
    let mut tx = conn.transaction();
    make_register(&mut tx, issuer, policy)?;
    commit(tx)
}

/// Creates a register with this issuer and policy, without records. Its last accepted moment is 1970-01-01T00:00:00Z. Errors: `NotEmpty` if the
/// database has a table, an index or a view; `Memory`; `Store` if the database fails. An error changes nothing. But if the disk failed in the commit,
/// the database is empty or has the whole register once it is opened again.
pub fn create<S: Alter>(
    conn: &mut Connection<S>,
    issuer: &Issuer,
    policy: &Policy,
) -> Result<(), StoreFault>
    requires { conn.old.in_transaction ≡ false }
    ensures creates { OnOk result (Creates S.Store conn.old conn.new issuer.now policy.now) }
    ensures uncreated { IfErr result (IsFailedCreate S.Store conn.old conn.new issuer.now policy.now) }
    ensures idle { conn.new.in_transaction ≡ false }
{
    if !is_empty(conn) {
        return Err(StoreFault::NotEmpty);
    }
    Ok(create_in_transaction(conn, issuer, policy)?)
}
