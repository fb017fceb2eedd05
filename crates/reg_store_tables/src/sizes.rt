//! How many rows the tables of the records have: the number of the last row, since rows are numbered from 1 on and never deleted.

ghost use Rattle.std.specs.Prelude.{◌≡◌, ◌<◌, ◌≤◌, ◌^◌, None, IsTrue, OnOk};
ghost use Rattle.sqlite.specs.Held.{state};
ghost use Rattle.sqlite.specs.State.{HasCleanDisk};
ghost use Rattle.reg_store_tables.specs.LookUps.{Finds, FindsIf};
ghost use Rattle.reg_store_tables.specs.Stays.{HasSchema};
ghost use Rattle.reg_store_tables.specs.Tables.{rows_of, text_of_last};

use crate::fault::DatabaseFault;
use crate::read_statements::look_up;
use crate::rows::Number;
use crate::sql::{LAST_CERT, LAST_CRL, LAST_ORDER, LAST_REQUEST, LAST_SUBSCRIBER};
use crate::tables::Tables;
use sqlite::{Alter, Connection};

/// The tables whose rows are counted against the policy's cap, the most rows of a table. `revocation` isn't: it can't have more rows than `cert`.
#[derive(Clone, Copy, PartialEq, Eq)]
pub enum Table {
    Subscribers,
    Orders,
    Certs,
    Requests,
    Crls,
}

fn last_row_sql(table: Table) -> &'static str
    ensures { result.now ≡ text_of_last table }
{
    match table {
        Table::Subscribers => LAST_SUBSCRIBER,
        Table::Orders => LAST_ORDER,
        Table::Certs => LAST_CERT,
        Table::Requests => LAST_REQUEST,
        Table::Crls => LAST_CRL,
    }
}

impl<S: Alter> Tables<S> {
    /// How many rows a table has. The call reads only the last row.
    pub fn held(&mut self, table: Table) -> Result<u64, DatabaseFault>
        ensures { Finds S.Store self.old self.new result (λ records rows. rows ≡ rows_of records table) }
    {
        held(&mut self.connection, table)
    }
}

pub(crate) fn held<S: Alter>(conn: &mut Connection<S>, table: Table) -> Result<u64, DatabaseFault>
    ensures finds { Finds S.Store conn.old conn.new result (λ records rows. rows ≡ rows_of records table) }
    ensures live { HasSchema (state S.Store conn.old) → HasCleanDisk (state S.Store conn.new)
        → OnOk result (IsTrue (state S.Store conn.old).is_open) }
{
    let last = look_up::<S, Number>(conn, last_row_sql(table), &[])?;
    Ok(last.unwrap_or(0))
}

/// `None` for a number above 2^63 - 1. The call reads the last row: its number proves that no row has one so high, and a failed read is an error.
pub(crate) fn none_above_range<S: Alter, T>(
    conn: &mut Connection<S>,
    table: Table,
    number: u64,
) -> Result<Option<T>, DatabaseFault>
    ensures { FindsIf (λ _. 2 ^ 63 ≤ number) S.Store conn.old conn.new result
        (λ records found. (found ≡ None) × IsTrue (state S.Store conn.old).is_open
        × (rows_of records table < number)) }
{
    let rows = held(conn, table)?;
    if rows < number {
        Ok(None)
    } else {
        Err(DatabaseFault::Store)
    }
}
