ghost use Rattle.std.specs.Prelude.{◌≡◌, ◌≤◌, [], IfOk};
ghost use Rattle.sqlite.specs.Effect.{Database};
ghost use Rattle.sqlite.specs.Held.{state};
ghost use Rattle.sqlite.specs.State.{HasCleanDisk};
ghost use Rattle.sqlite_trees.specs.View.{doubt};
ghost use Rattle.reg_store_tables.specs.ReadStatements.{Answers, IsReading};
ghost use Rattle.reg_store_tables.specs.Schema.{register_schema};
ghost use Rattle.reg_store_tables.specs.Shows.{Holds};
ghost use Rattle.reg_store_tables.specs.Stays.{IsRegister, Looked};
ghost use Rattle.reg_audit.specs.ReadQueries.{IsReadOf, IsReadFrom, AreRead, AreReadFrom};
ghost use Rattle.reg_audit.specs.ShownTables.{OnShown};

use crate::observer::ProgressObserver;
use crate::sql::{AuditQuery, text};
use reg_store_tables::DatabaseFault;
use sqlite::{Alter, Connection, Row};
use std::alloc::Global;

fn read<S: Alter>(conn: &mut Connection<S>, sql: &str) -> Result<Vec<Row>, DatabaseFault>
    ensures rows { IsReading sql.now → IsRegister (state S.Store conn.old)
        → HasCleanDisk (state S.Store conn.new)
        → IfOk result (λ rows. Answers (state S.Store conn.old) sql.now [] rows.items) }
    ensures looked { IsReading sql.now → Looked S.Store conn.old conn.new }
    ensures clean { doubt (state S.Store conn.old).is_clean ≤ doubt (state S.Store conn.new).is_clean }
{
    Ok(conn.query_all(sql, &[])?)
}

fn read_whole<S: Alter>(
    conn: &mut Connection<S>,
    query: AuditQuery,
) -> Result<Vec<Row>, DatabaseFault>
    ensures found { OnShown S.Store conn.old conn.new
        (λ records columns. IfOk result (λ rows. IsReadOf records columns query rows.items)) }
    ensures from { (db : Database) → Holds S.Store conn.old (λ now. now ≡ db) → db.schema ≡ register_schema
        → HasCleanDisk (state S.Store conn.new) → IfOk result (λ rows. IsReadFrom db query rows.items) }
    ensures looked { Looked S.Store conn.old conn.new }
{
    read(conn, text(query))
}

/// Runs the queries. The result has the rows of each query at its index; the observer gets the count of rows after each query.
pub(crate) fn read_each<S: Alter, W: ProgressObserver>(
    alloc: Global,
    conn: &mut Connection<S>,
    queries: &[AuditQuery],
    observer: &mut W,
) -> Result<Vec<Vec<Row>>, DatabaseFault>
    ensures found { OnShown S.Store conn.old conn.new
        (λ records columns. IfOk result
        (λ all. AreRead records columns queries.now all.items (λ rows. rows.items))) }
    ensures from { (db : Database) → Holds S.Store conn.old (λ now. now ≡ db) → db.schema ≡ register_schema
        → HasCleanDisk (state S.Store conn.new)
        → IfOk result (λ all. AreReadFrom db queries.now all.items (λ rows. rows.items)) }
    ensures looked { Looked S.Store conn.old conn.new }
{
    let mut all = Vec::new(alloc);
    for query in queries {
        let rows = read_whole(conn, *query)?;
        observer.rows_read(rows.len());
        all.push(rows)?;
    }
    Ok(all)
}
