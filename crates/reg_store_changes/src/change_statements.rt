//! The steps of a change, inside a transaction. Three tables are derived from the records: `standing` has a state letter for each certificate (`G`
//! good, `R` revoked, `X` expired), `kept` has the counts of these letters, `listed` each revocation's CRL entry. `last`: last accepted moment.

ghost use Rattle.std.specs.Prelude.{◌≡◌, ◌+◌, length, IfOk, OnOk, true};
ghost use Rattle.reg_core.specs.Changes.{touched, with_certificate, with_crl};
ghost use Rattle.reg_store_tables.specs.DerivedRows.{with_counts};
ghost use Rattle.reg_store_tables.specs.Steps.{Turns, TurnsWhere};
ghost use Rattle.reg_store_changes.specs.DerivedEffects.{with_good, with_last_listings, shifted};
ghost use Rattle.reg_store_changes.specs.ChangeEffects.{crl_of, newly_revoked, added};
ghost use Rattle.reg_store_changes.specs.ChangeSteps.{Enters, Puts, Revokes};
ghost use Rattle.reg_store_changes.specs.WithinTransactions.{ContinuesWithin, MakesRowsWithin, MakesWithin, StepsWithin};

use crate::statements::{
    expire_ended, mark_revoked, put_cert, put_crl, put_letter, put_listed, put_order, put_request,
    put_revocation, put_subscriber, set_counts, set_declined, set_last, set_last_listed,
};
use reg_core::{CertRow, Change, Counts, CrlRow, Moment, RevocationRow};
use reg_store_tables::{DatabaseFault, stored_counts_at_last};
use sqlite::{Alter, Connection};

/// `counts` as they are once `ended` good certificates expire and the change is made. `Store` if a count would be below 0 or above 2^64 - 1.
fn counts_after(counts: Counts, ended: usize, change: &Change<'_>) -> Result<Counts, DatabaseFault>
    ensures shifted { IfOk result (λ next. next
        ≡ shifted counts ended (newly_revoked change.now) (added change.now)) }
{
    let (newly_revoked, added) = revoked_and_added(change);
    let ended = ended as u64;
    let no_longer_good = ended
        .checked_add(newly_revoked)
        .ok_or(DatabaseFault::Store)?;
    let with_added = counts.good.checked_add(added).ok_or(DatabaseFault::Store)?;
    Ok(Counts {
        good: with_added
            .checked_sub(no_longer_good)
            .ok_or(DatabaseFault::Store)?,
        revoked: counts
            .revoked
            .checked_add(newly_revoked)
            .ok_or(DatabaseFault::Store)?,
        expired: counts
            .expired
            .checked_add(ended)
            .ok_or(DatabaseFault::Store)?,
    })
}

fn revoked_and_added(change: &Change<'_>) -> (u64, u64)
    ensures { result ≡ (newly_revoked change.now, added change.now) }
{
    match *change {
        Change::Certificate(_) => (0, 1),
        Change::Revocation(_, _) => (1, 0),
        _ => (0, 0),
    }
}

fn set_counts_and_last<S: Alter>(
    conn: &mut Connection<S>,
    now: Moment,
    counts: Counts,
) -> Result<(), DatabaseFault>
    ensures made { MakesRowsWithin S.Store conn.old conn.new result
        (Turns (λ records. touched records now) (with_counts counts)) }
    ensures stepped { StepsWithin S.Store conn.old conn.new }
{
    set_counts(conn, counts)?;
    set_last(conn, now)
}

fn register<S: Alter>(conn: &mut Connection<S>, row: CertRow) -> Result<(), DatabaseFault>
    ensures made { MakesWithin S.Store conn.old conn.new result
        (Turns (λ records. with_certificate records records.last row) (with_good row.serial row.not_after)) }
    ensures stepped { StepsWithin S.Store conn.old conn.new }
{
    let (serial, not_after) = (row.serial, row.not_after);
    put_cert(conn, row)?;
    put_letter(conn, serial, not_after)
}

/// Adds a revocation and its row of `listed`. Changes the certificate's letter from `G` to `R`; `Store` if it is not `G`. `not_after`: its notAfter.
fn revoke<S: Alter>(
    conn: &mut Connection<S>,
    row: RevocationRow,
    not_after: Moment,
) -> Result<(), DatabaseFault>
    ensures made { MakesWithin S.Store conn.old conn.new result (Revokes row not_after) }
    ensures stepped { StepsWithin S.Store conn.old conn.new }
{
    put_revocation(conn, row)?;
    put_listed(conn, row, not_after)?;
    if mark_revoked(conn, row.serial)? == 1 {
        Ok(())
    } else {
        Err(DatabaseFault::Store)
    }
}

/// Adds a CRL: the last to list each revocation that has no last CRL yet and whose certificate's notAfter is before thisUpdate (RFC 5280 3.3).
fn issue<S: Alter>(conn: &mut Connection<S>, row: CrlRow, der: &[u8]) -> Result<(), DatabaseFault>
    ensures made { MakesWithin S.Store conn.old conn.new result
        (TurnsWhere (λ records. row.number ≡ length records.crls + 1)
        (λ records. with_crl records records.last (crl_of row der.now))
        (with_last_listings row.number row.this_update)) }
    ensures stepped { StepsWithin S.Store conn.old conn.new }
{
    let (number, this_update) = (row.number, row.this_update);
    put_crl(conn, row, der)?;
    set_last_listed(conn, number, this_update)
}

fn write_rows<S: Alter>(conn: &mut Connection<S>, change: &Change<'_>) -> Result<(), DatabaseFault>
    ensures made { ContinuesWithin S.Store conn.old conn.new result (Puts change.now) }
    ensures stepped { StepsWithin S.Store conn.old conn.new }
{
    match *change {
        Change::Touch => Ok(()),
        Change::Subscriber(row) => put_subscriber(conn, row),
        Change::Order(row) => put_order(conn, row),
        Change::Certificate(row) => register(conn, row),
        Change::Request(row) => put_request(conn, row),
        Change::Decline(id) => set_declined(conn, id),
        Change::Revocation(row, not_after) => revoke(conn, row, not_after),
        Change::Crl(row, der) => issue(conn, row, der),
    }
}

/// Makes a change inside the transaction that is under way. Its moment, `now`, becomes the last accepted one (`Touch` adds no row). First, good
/// certificates whose notAfter is before `now` get the letter `X`. Errors: `Memory`; `Store` if the database fails or refuses a row, a number is over
/// 2^63 - 1, a count is missing or too small, the certificate to revoke isn't good, or no transaction is under way. After an error, roll back.
pub fn enter<S: Alter>(
    conn: &mut Connection<S>,
    now: Moment,
    change: &Change<'_>,
) -> Result<(), DatabaseFault>
    ensures made { MakesWithin S.Store conn.old conn.new result (Enters now change.now) }
    ensures stepped { StepsWithin S.Store conn.old conn.new }
    ensures under_way { OnOk result (conn.old.in_transaction ≡ true) }
{
    let counts = stored_counts_at_last(conn)?;
    let ended = expire_ended(conn, now)?;
    write_rows(conn, change)?;
    let next = counts_after(counts, ended, change)?;
    set_counts_and_last(conn, now, next)
}
