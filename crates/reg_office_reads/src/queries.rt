//! Answers queries. `clock` refuses a query before the last accepted moment, and from `Moment::CLOCK_END` (9999-12-22) on.

ghost use Rattle.std.specs.Prelude.{◌≡◌, ◌≤◌, ◌<◌, None, IfOk, IfSome, IsSome};
ghost use Rattle.reg_core.specs.Calendar.{clock_end};
ghost use Rattle.reg_core.specs.Checks.{first_refusal};
ghost use Rattle.reg_core.specs.Due.{due, earliest, unlisted};
ghost use Rattle.reg_core.specs.Queries.{listing as listing_of, query_checks, query_reply};
ghost use Rattle.reg_core.specs.Records.{certificate_in};
ghost use Rattle.reg_core.specs.declared.command.Query.TheVariants.{Listing as AskListing};
ghost use Rattle.reg_office_reads.specs.Looking.{AnswersQuery, LooksAndDecides};
ghost use Rattle.reg_store_tables.specs.LookUps.{Learns};

use crate::decision_head::latest_crl;
use crate::statuses::status_at;
use reg_core::{Fault, Listing, Moment, Query, Refusal, Reply, Serial, clock, due_of};
use reg_store_tables::{DatabaseFault, Tables};
use sqlite::Alter;

/// The answer to a query at the moment `now`, or the refusal of this moment by `clock`. No table changes.
pub fn answer<C: Alter>(tables: &mut Tables<C>, now: Moment, query: &Query) -> Result<Reply, Fault>
    ensures { AnswersQuery C.Store tables.old tables.new now query.now result }
{
    let last = tables.last()?;
    clock(now, last)?;
    reply_to(tables, now, query)
}

fn reply_to<C: Alter>(tables: &mut Tables<C>, now: Moment, query: &Query) -> Result<Reply, Fault>
    ensures { LooksAndDecides C.Store tables.old tables.new
        (λ records. first_refusal (query_checks records query.now))
        (λ records reply. records.last ≤ now → (first_refusal (query_checks records query.now) ≡ None)
        × (query_reply records now query.now ≡ reply)) result }
{
    match *query {
        Query::Status(serial) => Ok(Reply::Status(status_at(tables, serial, now)?)),
        Query::Counts => Ok(Reply::Counts(tables.counts(now)?)),
        Query::Listing(serial) => Ok(Reply::Listing(listing(tables, serial)?)),
        Query::Overdue => Ok(Reply::Overdue(tables.open_past_due(now)?)),
        Query::NextCrl => Ok(Reply::NextCrl(next_crl(tables)?)),
    }
}

/// Which CRL lists a serial number first (an issued one, or the next one), and which lists it last, if that is issued. `None` if it is not revoked.
fn listing<C: Alter>(tables: &mut Tables<C>, serial: Serial) -> Result<Option<Listing>, Fault>
    ensures { LooksAndDecides C.Store tables.old tables.new
        (λ records. first_refusal (query_checks records (AskListing serial))) (λ records found.
        IsSome (certificate_in records.certificates serial) × (found ≡ listing_of records serial)) result }
{
    match tables.cert(serial)? {
        None => Err(Fault::Refused(Refusal::UnknownSerial)),
        Some(_) => Ok(tables.listing(serial)?),
    }
}

/// The moment of the earliest revocation that no CRL lists yet, if any. `Store` if it is not before `CLOCK_END`: no register has such a row.
fn earliest_unlisted<C: Alter>(tables: &mut Tables<C>) -> Result<Option<Moment>, DatabaseFault>
    ensures looks { Learns C.Store tables.old tables.new result (λ records at.
        at ≡ earliest (unlisted records)) }
    ensures within { IfOk result (λ found. IfSome found (λ at. at < clock_end)) }
{
    let earliest = tables.earliest_unlisted()?;
    match earliest {
        Some(at) if at >= Moment::CLOCK_END => Err(DatabaseFault::Store),
        _ => Ok(earliest),
    }
}

/// The moment at which the next CRL is due; `None` if there is no CRL yet, because the first CRL is due at once.
fn next_crl<C: Alter>(tables: &mut Tables<C>) -> Result<Option<Moment>, DatabaseFault>
    ensures { Learns C.Store tables.old tables.new result (λ records at. at ≡ due records) }
{
    let policy = tables.policy()?;
    let latest = latest_crl(tables)?;
    let earliest = earliest_unlisted(tables)?;
    Ok(due_of(&policy, latest, earliest))
}
