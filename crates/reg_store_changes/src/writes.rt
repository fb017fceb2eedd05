//! Begins and ends a transaction, and writes in it, by SQL. (`sqlite::Transaction` would borrow the connection, which look-ups between writes use.)

ghost use Rattle.std.specs.Prelude.{◌≡◌, IfOk, OnOk, true};
ghost use Rattle.sqlite.specs.Held.{state};
ghost use Rattle.sqlite.specs.State.{HasCleanDisk};
ghost use Rattle.sqlite.specs.Values.{bound};
ghost use Rattle.reg_store_tables.specs.Stays.{Ran};
ghost use Rattle.reg_store_changes.specs.WithinTransactions.{BeginsTransaction, CommitsWithin, EndsTransaction, IsInTransaction, IsWritingText, RollsBack, StepsWithin};

use crate::sql;
use reg_store_tables::DatabaseFault;
use sqlite::types::ValueRef;
use sqlite::{Alter, Connection};

/// Runs a statement inside the transaction, and returns how many rows it wrote. `Store` also if a failure has ended the transaction.
pub(crate) fn write<S: Alter>(
    conn: &mut Connection<S>,
    sql: &str,
    params: &[ValueRef<'_>],
) -> Result<usize, DatabaseFault>
    ensures ran { IsWritingText sql.now → IsInTransaction (state S.Store conn.old)
        → HasCleanDisk (state S.Store conn.new)
        → IfOk result (Ran sql.now (bound params.now) (state S.Store conn.old) (state S.Store conn.new)) }
    ensures stepped { IsWritingText sql.now → StepsWithin S.Store conn.old conn.new }
    ensures under_way { OnOk result (conn.old.in_transaction ≡ true) }
{
    if conn.is_autocommit() {
        return Err(DatabaseFault::Store);
    }
    Ok(conn.execute(sql, params)?)
}

/// Begins a transaction. Errors: `Memory`; `Store` if the database fails, or if a transaction is under way already.
pub fn begin<S: Alter>(conn: &mut Connection<S>) -> Result<(), DatabaseFault>
    ensures { BeginsTransaction S.Store conn.old conn.new result }
{
    if !conn.is_autocommit() {
        return Err(DatabaseFault::Store);
    }
    conn.execute(sql::BEGIN, &[])?;
    Ok(())
}

/// Ends the transaction. `made` is the result of its changes. `Ok`: commits it. `Err`: rolls it back and returns this error. A failed commit is
/// rolled back; but if the disk failed, the register has the whole transaction or none of it once it is opened again. Errors of the commit: `Memory`;
/// `Store` if the database fails, or an earlier failure ended the transaction.
pub fn end<S: Alter>(
    conn: &mut Connection<S>,
    made: Result<(), DatabaseFault>,
) -> Result<(), DatabaseFault>
    ensures { EndsTransaction S.Store conn.old conn.new made result }
{
    match made {
        Ok(()) => commit(conn),
        Err(fault) => {
            roll_back(conn);
            Err(fault)
        }
    }
}

fn commit<S: Alter>(conn: &mut Connection<S>) -> Result<(), DatabaseFault>
    ensures { CommitsWithin S.Store conn.old conn.new result }
{
    if conn.is_autocommit() {
        return Err(DatabaseFault::Store);
    }
    match conn.execute(sql::COMMIT, &[]) {
        Ok(_) => Ok(()),
        Err(error) => {
            roll_back(conn);
            Err(DatabaseFault::from(error))
        }
    }
}

/// Rolls back the transaction, if one is under way. Ignores a failure to do so: each caller returns the error because of which it rolls back.
fn roll_back<S: Alter>(conn: &mut Connection<S>)
    ensures { RollsBack S.Store conn.old conn.new }
{
    if !conn.is_autocommit() {
        let _ = conn.execute(sql::ROLLBACK, &[]);
    }
}
