//! Checks that each row has the values of a record, or of a row derived from records, and that ids, CRL numbers and rowids are 1, 2, 3 and so on: a
//! register deletes no record, and derived rows only to fill their table anew. `office` has one row: version, issuer, policy, last accepted moment.
//! The derived tables: `standing` has the state of each certificate; `kept` has one row, the counts of each state; `listed` has the CRL entries.

ghost use Rattle.std.specs.Prelude.{◌≡◌, ℕ, IsTrue, IfOk, IfSome, OnOk};
ghost use Rattle.std.specs.List.{AllByRecursion, AllZip};
ghost use Rattle.sqlite.specs.Effect.{Database};
ghost use Rattle.sqlite_value.specs.Order.{Row as Cells, column};
ghost use Rattle.reg_core.specs.Policy.{IsPolicy};
ghost use Rattle.reg_store_tables.specs.ReadStatements.{shown_step};
ghost use Rattle.reg_store_tables.specs.Rows.{number};
ghost use Rattle.reg_audit.specs.Cells.{CountedFrom, HasCells, IsOfSomeRecord};
ghost use Rattle.reg_audit.specs.Complete.{AreTables, AreCounts, AreOffice, IsTermsOf, ShowSome};
ghost use Rattle.reg_audit.specs.ReadQueries.{AreRead, AreReadFrom, IsReadFrom, other_queries, whole};
ghost use Rattle.reg_audit.specs.Faults.{NoBrokenRow};
ghost use Rattle.reg_audit.specs.declared.sql.AuditQuery.TheVariants.{Counts as OfCounts, CountsRowid, Terms as OfTerms, Steps};
ghost use Rattle.reg_audit.specs.ShownTables.{OnAllRead};

use crate::fault::{AuditFault, broken_at};
use crate::read_rows::rows_at;
use crate::sql::AuditQuery;
use crate::typed::{ListedRows, StandingRows};
use reg_core::{
    CertRow, Counts, CrlRow, Defect, Moment, OrderRow, Policy, RegisterTable, RequestRow,
    RevocationRow, Schedule, SubscriberRow,
};
use reg_store_tables::rows::{RowKind, Step};
use reg_store_tables::sql_values::number_at;
use sqlite::Row;
use std::alloc::Global;

/// The queries that an audit runs after [`crate::whole_audit::TABLE_QUERIES`]. Items 0 to 4 read rowids, 5 `office`, 6 the schedule's steps.
pub(crate) const OTHER_QUERIES: [AuditQuery; 7] = [
    AuditQuery::CertificateRowids,
    AuditQuery::RevocationRowids,
    AuditQuery::StandingRowids,
    AuditQuery::CountsRowid,
    AuditQuery::ListingRowids,
    AuditQuery::Terms,
    AuditQuery::Steps,
];

/// The version of a register's tables, in the column `version` of `office`.
const VERSION: u64 = 3;

fn is_number(row: &Row, at: usize, n: u64) -> bool
    ensures yes { IsTrue result → column row.now at ≡ number n }
    ensures no { column row.now at ≡ number n → IsTrue result }
{
    match number_at(row, at) {
        Some(found) => found == n,
        None => false,
    }
}

/// Checks that column 0 (id, CRL number or rowid) is 1, 2, 3 and so on in the rows. `table`, here and below, is only for the report of a broken row.
fn check_counted(table: RegisterTable, rows: &[Row]) -> Result<(), AuditFault>
    ensures counted { OnOk result (CountedFrom 1 rows.now) }
    ensures broken { CountedFrom 1 rows.now → NoBrokenRow result }
{
    for (row_index, row) in rows.iter().enumerate() {
        if !is_number(row, 0, row_index as u64 + 1) {
            return Err(broken_at(table, row_index, Defect::OutOfOrder));
        }
    }
    Ok(())
}

fn is_of_some_record<T: RowKind>(row: &Row) -> bool
    ensures { IsTrue result → IsOfSomeRecord T.has_valid_serial T.shown row.now }
{
    match T::read_row(row) {
        Some(_it) => true,
        None => false,
    }
}

/// Checks that `T` can hold each row's values. `Store` if not; but no such row gets here, because `check_read` has reported it before.
fn check_are_of_some_record<T: RowKind>(rows: &[Row]) -> Result<(), AuditFault>
    ensures stand { OnOk result (AllByRecursion (IsOfSomeRecord T.has_valid_serial T.shown) rows.now) }
    ensures broken { NoBrokenRow result }
{
    for row in rows {
        if !is_of_some_record::<T>(row) {
            return Err(AuditFault::Store);
        }
    }
    Ok(())
}

/// Checks a table whose id or CRL number (column 0 of `rows`) is the rowid. [`check_by_rowid`] checks one that has another rowid (in `rowids`).
fn check_by_id<T: RowKind>(table: RegisterTable, rows: &[Row]) -> Result<(), AuditFault>
    ensures counted { OnOk result (CountedFrom 1 rows.now) }
    ensures stand { OnOk result (AllByRecursion (IsOfSomeRecord T.has_valid_serial T.shown) rows.now) }
    ensures broken { CountedFrom 1 rows.now → NoBrokenRow result }
{
    check_counted(table, rows)?;
    check_are_of_some_record::<T>(rows)
}

fn check_by_rowid<T: RowKind>(
    table: RegisterTable,
    rows: &[Row],
    rowids: &[Row],
) -> Result<(), AuditFault>
    ensures counted { OnOk result (CountedFrom 1 rowids.now) }
    ensures stand { OnOk result (AllByRecursion (IsOfSomeRecord T.has_valid_serial T.shown) rows.now) }
    ensures broken { CountedFrom 1 rowids.now → NoBrokenRow result }
{
    check_counted(table, rowids)?;
    check_are_of_some_record::<T>(rows)
}

/// Checks that the table `kept` has one row, of three counts (in `rows`), with the rowid 1 (in `rowids`). `Store` if not. `db.trees 14`: its B-tree.
fn check_counts(rows: &[Row], rowids: &[Row]) -> Result<(), AuditFault>
    ensures hold { (db : Database) → AreTables db → IsReadFrom db OfCounts rows.now
        → IsReadFrom db CountsRowid rowids.now → OnOk result (AreCounts (db.trees 14)) }
    ensures broken { NoBrokenRow result }
{
    let [rowid] = rowids else {
        return Err(AuditFault::Store);
    };
    if !is_number(rowid, 0, 1) {
        return Err(AuditFault::Store);
    }
    check_are_of_some_record::<Counts>(rows)
}

/// Numbers in `office`: seconds from thisUpdate to nextUpdate of CRLs and of OCSP responses; the most rows of a table; the last accepted moment.
#[derive(Clone, Copy)]
struct OfficeNumbers {
    crl_life: u64,
    ocsp_life: u64,
    cap: u64,
    last: u64,
}

/// The columns 2 to 5 in `rows`, which [`AuditQuery::Terms`] read. `None` unless there is one row, of numbers, with the rowid 1 and [`VERSION`].
fn terms_in(rows: &[Row]) -> Option<OfficeNumbers>
    ensures { IfSome result (IsTermsOf rows.now) }
{
    let [row] = rows else {
        return None;
    };
    if !is_number(row, 0, 1) || !is_number(row, 1, VERSION) {
        return None;
    }
    Some(OfficeNumbers {
        crl_life: number_at(row, 2)?,
        ocsp_life: number_at(row, 3)?,
        cap: number_at(row, 4)?,
        last: number_at(row, 5)?,
    })
}

/// The steps of the schedule: each a notBefore, and the longest validity in days from it on. `Store` if a row has no moment or no number of days.
fn steps_in(alloc: Global, rows: &[Row]) -> Result<Vec<(Moment, u64)>, AuditFault>
    ensures in_rows { IfOk result
        (λ steps. AllZip (λ (step : ℕ × ℕ) (row : Cells). HasCells 0 row (shown_step step))
        steps.items rows.now) }
    ensures broken { NoBrokenRow result }
{
    let mut steps = Vec::new(alloc);
    for row in rows {
        match Step::read_row(row) {
            Some(step) => steps.push(step)?,
            None => return Err(AuditFault::Store),
        }
    }
    Ok(steps)
}

fn check_policy(steps: &[(Moment, u64)], terms: OfficeNumbers) -> Result<(), AuditFault>
    ensures hold { OnOk result
        (IsPolicy (record {
          schedule = steps.now;
          crl_life = terms.crl_life;
          ocsp_life = terms.ocsp_life;
          cap = terms.cap;
        })) }
    ensures broken { NoBrokenRow result }
{
    match Schedule::new(steps) {
        Some(schedule) => {
            match Policy::with(schedule, terms.crl_life, terms.ocsp_life, terms.cap) {
                Some(_) => Ok(()),
                None => Err(AuditFault::Store),
            }
        }
        None => Err(AuditFault::Store),
    }
}

/// Checks that a register can have the rowid, version and policy of `office`, with the steps of the schedule in `steps`. `Store` if not.
fn check_office(alloc: Global, office: &[Row], steps: &[Row]) -> Result<(), AuditFault>
    ensures hold { (db : Database) → AreTables db → IsReadFrom db OfTerms office.now
        → IsReadFrom db Steps steps.now → OnOk result (AreOffice db.trees) }
    ensures broken { NoBrokenRow result }
{
    let steps = steps_in(alloc, steps)?;
    match terms_in(office) {
        Some(terms) => check_policy(&steps, terms),
        None => Err(AuditFault::Store),
    }
}

/// Checks all tables, as this file's first lines say. `all[i]` has the rows that item i of `TABLE_QUERIES` read; `more[i]`: of [`OTHER_QUERIES`].
pub(crate) fn check_complete(
    alloc: Global,
    all: &[Vec<Row>],
    more: &[Vec<Row>],
) -> Result<(), AuditFault>
    ensures shown { (db : Database) → AreTables db → AreReadFrom db whole all.now (λ rows. rows.items)
        → AreReadFrom db other_queries more.now (λ rows. rows.items) → OnOk result (ShowSome db) }
    ensures broken { OnAllRead all.now
        (λ records columns. AreRead records columns other_queries more.now (λ rows. rows.items)
        → NoBrokenRow result) }
{
    check_office(alloc, rows_at(more, 5), rows_at(more, 6))?;
    check_by_id::<SubscriberRow>(RegisterTable::Subscriber, rows_at(all, 1))?;
    check_by_id::<OrderRow>(RegisterTable::Orders, rows_at(all, 2))?;
    check_by_rowid::<CertRow>(RegisterTable::Cert, rows_at(all, 3), rows_at(more, 0))?;
    check_by_id::<RequestRow>(RegisterTable::Request, rows_at(all, 4))?;
    check_by_rowid::<RevocationRow>(RegisterTable::Revocation, rows_at(all, 5), rows_at(more, 1))?;
    check_by_id::<CrlRow>(RegisterTable::Crl, rows_at(all, 6))?;
    check_by_rowid::<StandingRows>(RegisterTable::Standing, rows_at(all, 7), rows_at(more, 2))?;
    check_counts(rows_at(all, 8), rows_at(more, 3))?;
    check_by_rowid::<ListedRows>(RegisterTable::Listed, rows_at(all, 9), rows_at(more, 4))
}
