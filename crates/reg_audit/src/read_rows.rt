ghost use Rattle.std.specs.Prelude.{◌<◌, List, get_or, length, IfOk};
ghost use Rattle.sqlite.specs.Effect.{Database};
ghost use Rattle.reg_core.specs.Records.{Records};
ghost use Rattle.reg_core.specs.Reached.{ReachedRows};
ghost use Rattle.reg_store_tables.specs.DerivedRows.{DerivedRows};
ghost use Rattle.reg_store_tables.specs.Kept.{Kept};
ghost use Rattle.reg_audit.specs.Numbers.{AreNumbersOf};
ghost use Rattle.reg_audit.specs.ReadQueries.{IsReadOf, IsReadFrom, AreRead, AreReadFrom};
ghost use Rattle.reg_audit.specs.Faults.{NoBrokenRowIf};
ghost use Rattle.reg_audit.specs.ReadableValues.{HasValues};
ghost use Rattle.reg_audit.specs.ShownTables.{OnAllRead};

use crate::derived_rows::StoredDerivedRows;
use crate::fault::AuditFault;
use crate::rows::Rows;
use crate::sql::AuditQuery;
use crate::tables::{
    certificates, counts, crls, letters, listings, office, orders, requests, revocations,
    subscribers,
};
use crate::whole_check::check;
use reg_core::Audited;
use sqlite::Row;
use std::alloc::Global;

/// The rows of the query with this index, or none if it is too high. `all` has the rows of each query of an array, as `TABLE_QUERIES`, in order.
pub(crate) fn rows_at(all: &[Vec<Row>], query_index: usize) -> &[Row]
    ensures read { (records : Records) → (columns : DerivedRows) → (whats : List AuditQuery)
        → (other : AuditQuery)
        → AreRead records columns whats all.now (λ rows. rows.items) → query_index < length whats
        → IsReadOf records columns (get_or whats query_index other) result.now }
    ensures from { (db : Database) → (whats : List AuditQuery) → (other : AuditQuery)
        → AreReadFrom db whats all.now (λ rows. rows.items) → query_index < length whats
        → IsReadFrom db (get_or whats query_index other) result.now }
{
    match all.get(query_index) {
        Some(rows) => rows.as_slice(),
        None => &[],
    }
}

/// Checks by [`check`] that the rows of [`crate::whole_audit::TABLE_QUERIES`] (at 0 to 9) are a register's. Counts certificates, revocations, CRLs.
pub(crate) fn check_read(alloc: Global, all: &[Vec<Row>]) -> Result<Audited, AuditFault>
    ensures sound { OnAllRead all.now
        (λ records columns. IfOk result (λ _. ReachedRows records × Kept columns records)) }
    ensures counted { OnAllRead all.now
        (λ records columns. IfOk result (AreNumbersOf records)) }
    ensures broken { OnAllRead all.now
        (λ records columns. NoBrokenRowIf
        (HasValues records × ReachedRows records × Kept columns records) result) }
{
    // The one row of the table `office`: `cap` is the most rows of a table, `last` the last accepted moment.
    let office = office(rows_at(all, 0))?;
    let subscribers = subscribers(alloc, rows_at(all, 1))?;
    let orders = orders(alloc, rows_at(all, 2))?;
    let certificates = certificates(alloc, rows_at(all, 3))?;
    let requests = requests(alloc, rows_at(all, 4))?;
    let revocations = revocations(alloc, rows_at(all, 5))?;
    let crls = crls(alloc, rows_at(all, 6))?;
    // The tables derived from these: the state letter of each certificate (good, revoked, expired); how many have each letter; the CRL entries.
    let letters = letters(alloc, rows_at(all, 7))?;
    let counts = counts(rows_at(all, 8))?;
    let listed = listings(alloc, rows_at(all, 9))?;
    let rows = Rows {
        cap: office.cap,
        last: office.last,
        subscribers: &subscribers,
        orders: &orders,
        certificates: &certificates,
        requests: &requests,
        revocations: &revocations,
        crls: &crls,
    };
    let derived = StoredDerivedRows {
        letters: &letters,
        counts,
        listed: &listed,
    };
    check(alloc, &rows, &derived)?;
    Ok(Audited {
        certificates: certificates.len(),
        revoked: revocations.len(),
        crls: crls.len(),
    })
}
