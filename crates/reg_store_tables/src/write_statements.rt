//! Runs SQL statements that write, inside a transaction, and makes the SQL values that they take.

ghost use Rattle.std.specs.Prelude.{◌≡◌, ◌<◌, ◌≤◌, ◌^◌, pos, cond, OnOk, IfOk, IfErr};
ghost use Rattle.sqlite.specs.Values.{bound};
ghost use Rattle.sqlite.specs.Held.{state};
ghost use Rattle.sqlite.specs.State.{HasCleanDisk};
ghost use Rattle.reg_store_tables.specs.Rows.{ground_index};
ghost use Rattle.reg_store_tables.specs.Stays.{Stepped, Ran};
ghost use Rattle.reg_store_tables.specs.DerivedRows.{with_counts};
ghost use Rattle.reg_store_tables.specs.Commits.{Ends};
ghost use Rattle.reg_store_tables.specs.Steps.{MakesRows, TurnsDerivedRows};

use crate::DatabaseFault;
use crate::sql::SET_COUNTS;
use reg_core::{Counts, Ground, Moment};
use sqlite::types::ValueRef;
use sqlite::{Alter, Transaction};

/// The number as an SQL INTEGER, a parameter of [`write`]. `Store` above 2^63 - 1, the greatest INTEGER.
pub fn sql_number(n: u64) -> Result<ValueRef<'static>, DatabaseFault>
    ensures value { IfOk result (λ value. value ≡ ValueRef.Int (pos n)) }
    ensures fits { OnOk result (n < 2 ^ 63) }
    ensures refused { IfErr result (λ fault. (fault ≡ DatabaseFault.Store) × (2 ^ 63 ≤ n)) }
{
    match i64::try_from(n) {
        Ok(n) => Ok(ValueRef::Int(n)),
        Err(_) => Err(DatabaseFault::Store),
    }
}

/// The moment as an SQL INTEGER, in whole seconds since 1970.
pub fn sql_moment(moment: Moment) -> ValueRef<'static>
    ensures { result ≡ ValueRef.Int (pos moment) }
{
    ValueRef::Int(moment.secs() as i64)
}

/// The flag as an SQL INTEGER, 0 or 1.
pub fn sql_flag(flag: bool) -> ValueRef<'static>
    ensures { result ≡ ValueRef.Int (pos (cond flag 1 0)) }
{
    ValueRef::Int(if flag { 1 } else { 0 })
}

/// The reasonCode as an SQL INTEGER (RFC 5280 5.3.1).
pub fn sql_reason(reason: u8) -> ValueRef<'static>
    ensures { result ≡ ValueRef.Int (pos reason) }
{
    ValueRef::Int(i64::from(reason))
}

/// The ground of a request (why it is requested) as an SQL INTEGER: its index in the list of grounds, from 1 on.
pub fn sql_ground(ground: Ground) -> ValueRef<'static>
    ensures { result ≡ ValueRef.Int (pos (ground_index ground)) }
{
    ValueRef::Int(match ground {
        Ground::Asked => 1,
        Ground::Unauthorized => 2,
        Ground::KeyCompromise => 3,
        Ground::ControlLost => 4,
        Ground::Affiliation => 5,
        Ground::Superseded => 6,
        Ground::Cessation => 7,
        Ground::Misuse => 8,
        Ground::NameNotPermitted => 9,
        Ground::Nonconforming => 10,
        Ground::Inaccurate => 11,
    })
}

/// Runs a statement inside the transaction, and returns how many rows it wrote. Errors: `Memory`; `Store` if the database fails or refuses a row.
pub fn write<S: Alter>(
    tx: &mut Transaction<'_, S>,
    sql: &str,
    params: &[ValueRef<'_>],
) -> Result<usize, DatabaseFault>
    ensures ran { HasCleanDisk (state S.Store tx.new.conn.now) → IfOk result
        (Ran sql.now (bound params.now) (state S.Store tx.old.conn.now) (state S.Store tx.new.conn.now)) }
    ensures stepped { Stepped S.Store tx.old tx.new }
{
    Ok(tx.execute(sql, params)?)
}

/// Commits the transaction. Errors: `Memory`; `Store` if the database fails. After an error the transaction is rolled back. But if the disk failed in
/// the commit, the tables have all of it or none of it once the database is opened again.
pub fn commit<S: Alter>(tx: Transaction<'_, S>) -> Result<(), DatabaseFault>
    ensures { Ends S.Store tx.entry.conn.now tx.exit.0.now result }
{
    Ok(tx.commit()?)
}

/// Sets the counts in the table `kept`. Errors: those of [`write`], and `Store` for a count above 2^63 - 1.
pub fn set_counts<S: Alter>(
    tx: &mut Transaction<'_, S>,
    counts: Counts,
) -> Result<(), DatabaseFault>
    ensures made { MakesRows S.Store tx.old tx.new result (TurnsDerivedRows (with_counts counts)) }
    ensures stepped { Stepped S.Store tx.old tx.new }
{
    let good = sql_number(counts.good)?;
    let revoked = sql_number(counts.revoked)?;
    let expired = sql_number(counts.expired)?;
    write(tx, SET_COUNTS, &[good, revoked, expired])?;
    Ok(())
}
