ghost use Rattle.std.specs.Prelude.{◌≡◌, IfOk, IfErr};
ghost use Rattle.sqlite.specs.Effect.{Database};
ghost use Rattle.sqlite.specs.Held.{state};
ghost use Rattle.sqlite.specs.State.{HasCleanDisk};
ghost use Rattle.reg_store_tables.specs.Shows.{Holds};
ghost use Rattle.reg_store_tables.specs.Stays.{Looked};
ghost use Rattle.reg_audit.specs.Complete.{AreTables, ShowsSound};
ghost use Rattle.reg_audit.specs.Numbers.{AreNumbersOf};
ghost use Rattle.reg_audit.specs.Faults.{IsDisproved};
ghost use Rattle.reg_audit.specs.ReadableValues.{IsSoundRegister};
ghost use Rattle.reg_audit.specs.ShownTables.{OnShown};

use crate::complete::{OTHER_QUERIES, check_complete};
use crate::days::check_longest_validity;
use crate::fault::AuditFault;
use crate::observer::{NoProgress, ProgressObserver};
use crate::read_rows::check_read;
use crate::sql::AuditQuery;
use crate::stored::check_crls;
use crate::whole_tables::read_each;
use reg_core::Audited;
use sqlite::{Alter, Connection};
use std::alloc::Global;

/// The queries that read each table except `longest`, the schedule of longest validities, in the order in which they run.
const TABLE_QUERIES: [AuditQuery; 10] = [
    AuditQuery::Office,
    AuditQuery::Subscribers,
    AuditQuery::Orders,
    AuditQuery::Certificates,
    AuditQuery::Requests,
    AuditQuery::Revocations,
    AuditQuery::Crls,
    AuditQuery::Standings,
    AuditQuery::Counts,
    AuditQuery::Listings,
];

/// Reads all rows of an open database. `check_read` checks that the records are sound (they obey all rules of a register), and that `standing` (the
/// state of each certificate), `kept` (the counts of each state) and `listed` (CRL entries) follow from them. `check_crls` checks that the bytes of
/// each CRL encode the entries that the records have for it (RFC 5280 5.1), with the algorithm that the CRL names. `check_complete` checks ids,
/// rowids, the numbers in the table `office` (version, policy, last accepted moment), and the schedule. Verifies no signature, checks neither the
/// schema nor a validity against the schedule, changes nothing, and reports its progress. The audit reports a broken row only if the tables show no
/// sound register with valid values (`IsDisproved`). If the tables have a register's schema (`AreTables`) and the audit succeeds, they show sound
/// records (`ShowsSound`). Errors: `Store` if the database fails, or if no register writes its issuer, policy, version, or rowid in `office` or
/// `kept` (but `Broken` if the policy's `cap` is no number); `Broken` with a row that breaks a rule or has another invalid value; `Memory`.
pub fn audit<S: Alter, W: ProgressObserver>(
    alloc: Global,
    conn: &mut Connection<S>,
    observer: &mut W,
) -> Result<Audited, AuditFault>
    ensures sound { OnShown S.Store conn.old conn.new
        (λ records columns. IfOk result (λ _. IsSoundRegister records columns)) }
    ensures shown { (db : Database) → Holds S.Store conn.old (λ now. now ≡ db) → AreTables db
        → HasCleanDisk (state S.Store conn.new) → IfOk result (λ _. ShowsSound db) }
    ensures counted { OnShown S.Store conn.old conn.new
        (λ records columns. IfOk result (AreNumbersOf records)) }
    ensures broken { OnShown S.Store conn.old conn.new
        (λ records columns. IfErr result (λ fault. IsDisproved fault records columns)) }
    ensures looked { Looked S.Store conn.old conn.new }
{
    // `all` has the rows of each of `TABLE_QUERIES`, by its index; `more` those of `OTHER_QUERIES`, uncounted: the observer counts a table once.
    let all = read_each(alloc, conn, &TABLE_QUERIES, observer)?;
    let audited = check_read(alloc, &all)?;
    check_crls(alloc, conn, &all, observer)?;
    let more = read_each(alloc, conn, &OTHER_QUERIES, &mut NoProgress)?;
    check_complete(alloc, &all, &more)?;
    check_longest_validity(&more)?;
    Ok(audited)
}
