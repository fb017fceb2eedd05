//! Runs SQL statements that only read. `T`, a kind of row, says how to read one. `Store` if the number of rows is wrong, or a row isn't a register's.

ghost use Rattle.std.specs.Prelude.{◌≡◌, ◌≢◌, ◌≤◌, ◌<◌, ◌^◌, ℕ, false, List, [], ◌∷◌, length, IfOk, OnErr, MatchOption};
ghost use Rattle.sqlite_value.specs.Order.{Row as Values};
ghost use Rattle.sqlite.specs.Values.{bound};
ghost use Rattle.reg_core.specs.Records.{Records};
ghost use Rattle.reg_store_tables.specs.LookUps.{FindsIf, Queries, ReadsBy, ReadsOne, ReadsRow};
ghost use Rattle.reg_store_tables.specs.Pages.{ReadsPage};
ghost use Rattle.reg_store_tables.specs.ReadStatements.{IsReading};
ghost use Rattle.reg_store_tables.specs.ShownRows.{ShowsAll};

use crate::fault::DatabaseFault;
use crate::rows::{RowKind, row_in, rows_in};
use crate::sql_values::sql_number;
use sqlite::types::ValueRef;
use sqlite::{Alter, Connection, Row, params};

pub(crate) fn read<S: Alter>(
    conn: &mut Connection<S>,
    sql: &str,
    params: &[ValueRef<'_>],
) -> Result<Vec<Row>, DatabaseFault>
    ensures reads { IsReading sql.now
        → Queries S.Store conn.old conn.new sql.now (bound params.now) result (λ rows. rows.items) }
    ensures idle { conn.old.in_transaction ≡ false → conn.new.in_transaction ≡ false }
{
    Ok(conn.query_all(sql, params)?)
}

/// The record in the only row that a query returns; `None` if it returns no row ([`look_up_one`]: `Store`). `Store` for more rows.
pub(crate) fn look_up<S: Alter, T: RowKind>(
    conn: &mut Connection<S>,
    sql: &str,
    params: &[ValueRef<'_>],
) -> Result<Option<T::Record>, DatabaseFault>
    ensures reads { IsReading sql.now
        → ReadsRow T.has_valid_serial T.has_values T.shown S.Store conn.old conn.new sql.now
        (bound params.now) result }
    ensures idle { conn.old.in_transaction ≡ false → conn.new.in_transaction ≡ false }
{
    let rows = read(conn, sql, params)?;
    row_in::<T>(&rows)
}

pub(crate) fn look_up_one<S: Alter, T: RowKind>(
    conn: &mut Connection<S>,
    sql: &str,
    params: &[ValueRef<'_>],
) -> Result<T::Record, DatabaseFault>
    ensures reads { IsReading sql.now
        → ReadsOne T.has_valid_serial T.has_values T.shown S.Store conn.old conn.new sql.now
        (bound params.now) result }
    ensures idle { conn.old.in_transaction ≡ false → conn.new.in_transaction ≡ false }
{
    let found = look_up::<S, T>(conn, sql, params)?;
    match found {
        Some(it) => Ok(it),
        None => Err(DatabaseFault::Store),
    }
}

pub(crate) fn look_up_all<S: Alter, T: RowKind>(
    conn: &mut Connection<S>,
    sql: &str,
    params: &[ValueRef<'_>],
) -> Result<Vec<T::Record>, DatabaseFault>
    ensures reads { IsReading sql.now
        → ReadsBy S.Store conn.old conn.new sql.now (bound params.now) result (λ found. found.items)
        (ShowsAll T.has_valid_serial T.shown)
        (ShowsAll (λ it. T.has_valid_serial it × T.has_values it) T.shown) }
    ensures idle { conn.old.in_transaction ≡ false → conn.new.in_transaction ≡ false }
{
    let rows = read(conn, sql, params)?;
    Ok(rows_in::<T>(*rows.allocator(), &rows)?)
}

/// At most `most` records (`?2` in the SQL) past the id, rowid or CRL number `after` (`?1`). A number above 2^63 - 1 gives `Store`.
pub(crate) fn look_up_page<S: Alter, T: RowKind>(
    conn: &mut Connection<S>,
    sql: &str,
    after: u64,
    most: u64,
) -> Result<Vec<T::Record>, DatabaseFault>
    ensures { (page : Records → ℕ → ℕ → List T.Record)
        → ReadsPage T.has_valid_serial T.has_values T.shown page sql.now
        → FindsIf (λ _. (after < 2 ^ 63) × (most < 2 ^ 63)) S.Store conn.old conn.new result
        (λ records found. found.items ≡ page records after most) }
{
    let limit = sql_number(most)?;
    let key = sql_number(after)?;
    look_up_all::<S, T>(conn, sql, params![&key, &limit])
}

pub(crate) fn at_most_one(rows: &[Row]) -> Result<Option<&Row>, DatabaseFault>
    ensures found { IfOk result (λ found.
        MatchOption found (rows.now ≡ []) (λ row. rows.now ≡ row.now ∷ [])) }
    ensures more { OnErr result (2 ≤ length rows.now) }
{
    match rows {
        [] => Ok(None),
        [row] => Ok(Some(row)),
        _ => Err(DatabaseFault::Store),
    }
}

pub(crate) fn only(rows: &[Row]) -> Result<&Row, DatabaseFault>
    ensures found { IfOk result (λ row. rows.now ≡ row.now ∷ []) }
    ensures others { OnErr result ((row : Values) → rows.now ≢ row ∷ []) }
{
    at_most_one(rows)?.ok_or(DatabaseFault::Store)
}
