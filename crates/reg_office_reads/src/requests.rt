//! Decides `request`, `decline`, `revoke` by rows and a `head` (moments, policy, row count). `id` is a request's. `late`: revoked after its deadline.

ghost use Rattle.std.specs.Prelude.{◌<◌};
ghost use Rattle.reg_core.specs.Calendar.{clock_end};
ghost use Rattle.reg_core.specs.declared.command.Command.TheVariants.{Request as RequestIt, Decline as DeclineIt, Revoke as RevokeIt};
ghost use Rattle.reg_office_reads.specs.Cases.{IsCase};
ghost use Rattle.reg_office_reads.specs.Looking.{DecidesCommand};
ghost use Rattle.reg_store_tables.specs.LookUps.{Learns};

use crate::decision_head::{Decided, certificate_of, clock_head, head_at, latest_crl};
use reg_core::{
    CertRow, Change, Fault, Label, Moment, Reply, RequestRow, RevocationRow, Serial,
    decide_decline, decide_request, decide_revoke,
};
use reg_store_tables::{DatabaseFault, Table, Tables};
use sqlite::Alter;

/// A request, with the certificate and the revocation of its serial number; `None` for each that does not exist.
#[derive(Clone, Copy)]
pub(crate) struct Case {
    request: Option<RequestRow>,
    certificate: Option<CertRow>,
    revocation: Option<RevocationRow>,
}

/// Decides the command `request`. `word` names the ground: why to revoke. The deadline and the reasonCode follow from it.
pub(crate) fn enter_request<C: Alter>(
    tables: &mut Tables<C>,
    now: Moment,
    serial: Serial,
    word: Label,
) -> Result<Decided, Fault>
    requires { now < clock_end }
    ensures { DecidesCommand C.Store tables.old tables.new now (RequestIt serial word) result }
{
    let head = head_at(tables, now, Table::Requests)?;
    let (certificate, revocation) = certificate_of(tables, serial)?;
    let row = decide_request(&head, certificate, word, revocation)?;
    let due = now.plus(row.ground.limit_secs());
    Ok((Reply::Request { id: row.id, due }, Change::Request(row)))
}

fn case_of<C: Alter>(tables: &mut Tables<C>, id: u64) -> Result<Case, DatabaseFault>
    ensures { Learns C.Store tables.old tables.new result (λ records found. IsCase records id found) }
{
    match tables.request(id)? {
        None => Ok(Case {
            request: None,
            certificate: None,
            revocation: None,
        }),
        Some(request) => {
            let (certificate, revocation) = certificate_of(tables, request.serial)?;
            Ok(Case {
                request: Some(request),
                certificate,
                revocation,
            })
        }
    }
}

pub(crate) fn decline<C: Alter>(
    tables: &mut Tables<C>,
    now: Moment,
    id: u64,
) -> Result<Decided, Fault>
    ensures { DecidesCommand C.Store tables.old tables.new now (DeclineIt id) result }
{
    let head = clock_head(tables, now)?;
    let found = case_of(tables, id)?;
    let row = decide_decline(&head, found.request, found.certificate, found.revocation)?;
    Ok((Reply::Declined, Change::Decline(row.id)))
}

pub(crate) fn revoke<C: Alter>(
    tables: &mut Tables<C>,
    now: Moment,
    id: u64,
) -> Result<Decided, Fault>
    ensures { DecidesCommand C.Store tables.old tables.new now (RevokeIt id) result }
{
    let head = clock_head(tables, now)?;
    let found = case_of(tables, id)?;
    // The revocation's row has the number of the first CRL to list it: the next one, after `latest`.
    let latest = latest_crl(tables)?;
    let (row, late) = decide_revoke(
        &head,
        found.request,
        found.certificate,
        found.revocation,
        latest,
    )?;
    // `decide_revoke` does not check that there is a certificate. A register has one for each request, so a missing one is the fault `Store`.
    let not_after = found.certificate.ok_or(DatabaseFault::Store)?.not_after;
    Ok((Reply::Revoked { late }, Change::Revocation(row, not_after)))
}
