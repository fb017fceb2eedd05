//! The call that makes a change of any kind. Its contract says what the tables show afterwards, on three conditions: the records are sound; the
//! change fits them (`Fits`; for example, a new row has the next id); the change's moment is not before the last accepted one.

ghost use Rattle.reg_store_changes.specs.MadeChanges.{MakesChange};

use crate::change_statements::enter;
use crate::writes::{begin, end};
use reg_core::{Change, Moment};
use reg_store_tables::DatabaseFault;
use sqlite::{Alter, Connection};

/// Makes a change at the moment `now`, in a transaction of its own. Errors: those of [`enter`]; `Store` also if a transaction is under way already.
/// An error changes nothing. But if the disk failed in the commit, the register has the whole change or none of it once it is opened again.
pub fn apply<S: Alter>(
    conn: &mut Connection<S>,
    now: Moment,
    change: &Change<'_>,
) -> Result<(), DatabaseFault>
    ensures { MakesChange S.Store conn.old conn.new now change.now result }
{
    begin(conn)?;
    let made = enter(conn, now, change);
    end(conn, made)
}
