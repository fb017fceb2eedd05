//! Replaces the column `name` of the table `office`: the issuer's Name, and after it the authority key identifiers that were set (RFC 5280 5.2.1).

ghost use Rattle.reg_store_tables.specs.Stays.{Stepped};
ghost use Rattle.reg_store_changes.specs.ChangeSteps.{ReplacesIssuer};
ghost use Rattle.reg_store_changes.specs.MadeChanges.{SetsIssuer};
ghost use Rattle.reg_store_tables.specs.Steps.{MakesRows};

use crate::sql;
use reg_der::Issuer;
use reg_store_tables::DatabaseFault;
use reg_store_tables::write_statements::{commit, write};
use sqlite::types::ValueRef;
use sqlite::{Alter, Connection, Transaction};

fn set_name<S: Alter>(tx: &mut Transaction<'_, S>, issuer: &Issuer) -> Result<(), DatabaseFault>
    ensures made { MakesRows S.Store tx.old tx.new result (ReplacesIssuer issuer.now) }
    ensures stepped { Stepped S.Store tx.old tx.new }
{
    write(tx, sql::SET_NAME, &[ValueRef::Blob(issuer.stored_name())])?;
    Ok(())
}

/// Replaces the issuer's Name and key identifiers, and nothing else, in a transaction of its own. The call does not check that the key is as before.
/// Errors: `Memory`; `Store` if the database fails or a transaction is under way. An error changes nothing. But if the disk failed in the commit, the
/// register has the old issuer or the new one once it is opened again.
pub fn set_issuer<S: Alter>(conn: &mut Connection<S>, issuer: &Issuer) -> Result<(), DatabaseFault>
    ensures { SetsIssuer S.Store conn.old conn.new issuer.now result }
{
    if !conn.is_autocommit() {
        return Err(DatabaseFault::Store);
    }
    let mut tx = conn.transaction();
    set_name(&mut tx, issuer)?;
    commit(tx)
}
