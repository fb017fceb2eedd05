//! The routes `/health` and `/metrics`, on which an open desk reports on itself.

ghost use Rattle.std.specs.Prelude.{◌≡◌, ◌↔◌, ℕ, List, IsTrue, IfErr, IfOk, option_map};
ghost use Rattle.reg_core.specs.Crls.{latest as latest_in, row_of};
ghost use Rattle.reg_core.specs.Records.{Records};
ghost use Rattle.reg_core.specs.declared.command.Query.TheVariants.{Counts as AskCounts, NextCrl as AskNextCrl, Overdue as AskOverdue};
ghost use Rattle.reg_core.specs.declared.command.Reply.TheVariants.{Counts as CountsAre, NextCrl as NextCrlIs};
ghost use Rattle.reg_office_api.specs.Answered.{IsAnswered};
ghost use Rattle.reg_office_api.specs.Calls.{KeepsIn, LooksIn};
ghost use Rattle.reg_office_api.specs.LookUps.{IsOfStore};
ghost use Rattle.reg_http.specs.AnswerEffects.{plain, answer_effects};
ghost use Rattle.reg_crl.specs.Signing.{sha1_algorithm};
ghost use Rattle.reg_crl_signer.specs.Signed.{IsCrlWithAlgorithm};
ghost use Rattle.reg_desk_service.specs.HealthRoutes.{ByGet, Has, HasDue, HasFound, HasOverdue, HasRequests, IsCounted, IsHealthAt, IsLatestRead, IsCrlRead, IsReadAt, IsRecounted, IsUnsigned, KeepsRead, Recounts, AnswersHealth, AnswersMetrics, IsDueUnsigned};
ghost use Rattle.reg_desk_service.specs.HealthRoutes.{due_after, health_response, health_status as status_spec, overdue_count, metrics_response, signing_by};
ghost use Rattle.reg_desk_cli.specs.declared.desk.TheConstants.{VERSION};
ghost use Rattle.reg_desk_metrics.specs.Metrics.{metrics_text};

use crate::control_reply::LineOutcome;
use crate::crl_signer::CrlSignerChoice;
use crate::machine::Machine;
use crate::reasons::{Reason, reason_line};
use crate::validity::not_after;
use http::Method;
use reg_core::{Counts, CrlRow, Fault, Memory, Moment, Outcome, Overdue, Query, Reply};
use reg_crl::{DigestSeal, Signer};
use reg_crl_signer::crl_algorithm;
use reg_desk_cli::{ResponderChoice, VERSION};
use reg_desk_metrics::{
    ConnectionTotals, CrlSigning, Health, Numbers, NumbersResult, ReadCrl, Requests, Tally, metrics,
};
use reg_http::{HttpAnswer, json, only_get};
use reg_http_head::{Answer, status};
use reg_lines::LineKind;
use reg_office_api::Office;
use std::alloc::Global;

/// The media type of the metrics.
pub(crate) const PROMETHEUS: &str = "text/plain; version=0.0.4; charset=utf-8";

/// Answers `/health` at `now`: 200 if all is well, else 503; 405 if not GET. `accepted`: the moment in the last control line `accept-clock`, if any.
pub(crate) fn answer_health<M: Machine>(
    alloc: Global,
    office: &mut M::Office,
    method: &Method,
    now: Moment,
    tally: &mut Tally,
    accepted: Option<Moment>,
) -> Result<HttpAnswer, Memory>
    ensures moves { LooksIn M.Office.Office
        (λ records.
        IfOk result (λ answered.
        ByGet method.now (AnswersHealth accepted now records) (answer_effects answered)))
        office.old office.new }
    ensures recounted { IsRecounted tally.old tally.new }
{
    if method.as_str() != "GET" {
        return only_get(alloc);
    }
    health_at::<M>(alloc, office, now, tally, accepted)
}

fn health_at<M: Machine>(
    alloc: Global,
    office: &mut M::Office,
    now: Moment,
    tally: &mut Tally,
    accepted: Option<Moment>,
) -> Result<HttpAnswer, Memory>
    ensures moves { LooksIn M.Office.Office
        (λ records. IfOk result (λ answered. AnswersHealth accepted now records (answer_effects answered)))
        office.old office.new }
    ensures recounted { IsRecounted tally.old tally.new }
{
    let health = read_health::<M>(alloc, office, now, tally, accepted);
    health_answer(alloc, &health)
}

/// The health at `now`.
pub(crate) fn read_health<M: Machine>(
    alloc: Global,
    office: &mut M::Office,
    now: Moment,
    tally: &mut Tally,
    accepted: Option<Moment>,
) -> Health
    ensures moves { LooksIn M.Office.Office (λ records. IsHealthAt accepted now records result)
        office.old office.new }
    ensures recounted { IsRecounted tally.old tally.new }
{
    let found = found_at::<M>(alloc, office, now, tally);
    Health::of(now, &found, tally, accepted)
}

/// Answers `/metrics` at `now` with 200; 405 if not GET. Counts open requests for revocation anew unless the last count is less than a minute old.
pub(crate) fn answer_metrics<M: Machine>(
    alloc: Global,
    office: &mut M::Office,
    method: &Method,
    now: Moment,
    tally: &mut Tally,
    connection_totals: ConnectionTotals,
) -> Result<HttpAnswer, Memory>
    ensures moves { LooksIn M.Office.Office
        (λ records.
        IfOk result (λ answered. ByGet method.now (AnswersMetrics now records) (answer_effects answered)))
        office.old office.new }
    ensures recounted { IsRecounted tally.old tally.new }
{
    if method.as_str() != "GET" {
        return only_get(alloc);
    }
    metrics_at::<M>(alloc, office, now, tally, connection_totals)
}

fn metrics_at<M: Machine>(
    alloc: Global,
    office: &mut M::Office,
    now: Moment,
    tally: &mut Tally,
    connection_totals: ConnectionTotals,
) -> Result<HttpAnswer, Memory>
    ensures moves { LooksIn M.Office.Office
        (λ records. IfOk result (λ answered. AnswersMetrics now records (answer_effects answered)))
        office.old office.new }
    ensures recounted { IsRecounted tally.old tally.new }
{
    recount::<M>(alloc, office, now, tally);
    let found = found_at::<M>(alloc, office, now, tally);
    metrics_answer(alloc, now, &found, tally, connection_totals)
}

/// Counts of certificates by status, when the next CRL is due, and the register's summary. Keeps in the tally whether the latest CRL is signed.
pub(crate) fn found_at<M: Machine>(
    alloc: Global,
    office: &mut M::Office,
    now: Moment,
    tally: &mut Tally,
) -> NumbersResult
    ensures moves { LooksIn M.Office.Office (λ records. HasFound tally.old records now result)
        office.old office.new }
    ensures read { IsCrlRead tally.old tally.new }
{
    let counted = office.ask(alloc, now, &Query::Counts);
    let counts = match counts_of(counted) {
        Ok(counts) => counts,
        Err(fault) => return Err(fault),
    };
    let summary = match office.summary() {
        Ok(summary) => summary,
        Err(fault) => return Err(fault),
    };
    match due_at::<M>(alloc, office, now, summary.latest, tally) {
        Ok(due) => Ok(Numbers {
            counts,
            due,
            summary,
        }),
        Err(fault) => Err(fault),
    }
}

/// When the next CRL is due; `None` if at once, for example if the latest CRL has a placeholder digest, but a signer now has the issuer's key.
fn due_at<M: Machine>(
    alloc: Global,
    office: &mut M::Office,
    now: Moment,
    latest: Option<CrlRow>,
    tally: &mut Tally,
) -> Result<Option<Moment>, Fault>
    ensures moves { LooksIn M.Office.Office
        (λ records.
        latest ≡ option_map row_of (latest_in records.crls)
        → (HasDue tally.old records now result × KeepsRead tally.old records tally.new))
        office.old office.new }
    ensures read { IsCrlRead tally.old tally.new }
{
    let asked = office.ask(alloc, now, &Query::NextCrl);
    let due = match due_of(asked) {
        Ok(due) => due,
        Err(fault) => return Err(fault),
    };
    match cached_or_read_latest::<M>(alloc, office, latest, tally) {
        Ok(Some(read)) => {
            tally.keep_crl(read);
            Ok(due_after_read(read, due))
        }
        Ok(None) => Ok(due),
        Err(fault) => Err(fault),
    }
}

fn due_after_read(read: ReadCrl, due: Option<Moment>) -> Option<Moment>
    ensures { result ≡ due_after read due }
{
    if read.is_unsigned { None } else { due }
}

/// The latest CRL's number, and whether it has a placeholder digest (from the tally, if read before). `None` without a CRL, or if no key signs CRLs.
fn cached_or_read_latest<M: Machine>(
    alloc: Global,
    office: &mut M::Office,
    latest: Option<CrlRow>,
    tally: &Tally,
) -> Result<Option<ReadCrl>, Fault>
    ensures looks { LooksIn M.Office.Office
        (λ records. latest ≡ option_map row_of (latest_in records.crls)
        → IfOk result (IsLatestRead tally.now records)) office.old office.new }
    ensures faults { IfErr result IsOfStore }
{
    let Some(crl) = latest else {
        return Ok(None);
    };
    if !tally.has_crl_key() {
        return Ok(None);
    }
    match tally.read_crl(crl.number) {
        Some(read) => Ok(Some(read)),
        None => Ok(Some(read_latest::<M>(alloc, office, crl.number)?)),
    }
}

/// Reads the latest CRL from the register (`None` in the call: the latest), which has this number. It exists, so the call isn't refused (`NoCrl`).
fn read_latest<M: Machine>(
    alloc: Global,
    office: &mut M::Office,
    number: u64,
) -> Result<ReadCrl, Fault>
    ensures looks { LooksIn M.Office.Office (λ records. IfOk result (IsReadAt records number))
        office.old office.new }
    ensures faults { IfErr result IsOfStore }
{
    match office.crl_bytes(alloc, None) {
        Ok(bytes) => Ok(ReadCrl {
            number,
            is_unsigned: is_unsigned(&bytes),
        }),
        Err(Fault::Memory) => Err(Fault::Memory),
        Err(_) => Err(Fault::Store),
    }
}

/// Whether a CRL has a placeholder digest instead of a signature; `false` if its algorithm can't be read.
fn is_unsigned(crl: &[u8]) -> bool
    ensures { IsUnsigned crl.now result }
{
    match crl_algorithm(crl) {
        Some(algorithm) => is_digest(algorithm),
        None => false,
    }
}

fn is_digest(algorithm: &[u8]) -> bool
    ensures { IsTrue result ↔ (algorithm.now ≡ sha1_algorithm) }
{
    let digest = DigestSeal;
    algorithm == digest.algorithm()
}

/// After an answered line `next-crl`, keeps the reason of [`why_at_once`], if there is one, in `last_reason`: a later line `why` reports it.
pub(crate) fn keep_due_reason<M: Machine>(
    alloc: Global,
    office: &mut M::Office,
    tally: &Tally,
    line_outcome: &LineOutcome,
    last_reason: &mut Vec<u8>,
)
    ensures { KeepsIn M.Office.Office office.old office.new }
{
    match line_outcome {
        LineOutcome::Completed(LineKind::Query(Query::NextCrl), Ok(_)) => {
            let why = why_at_once::<M>(alloc, office, tally);
            // Without a reason (a fault counts as none) or memory for it, `last_reason` keeps the earlier one. `b""`: the text has no prefix.
            if let Some(text) = reason_line(alloc, b"", why.unwrap_or(None)) {
                *last_reason = text;
            }
        }
        _ => {}
    }
}

/// Why the next CRL is due at once: the latest CRL has a placeholder digest, but a signer now has the issuer's key. `None` in any other case.
fn why_at_once<M: Machine>(
    alloc: Global,
    office: &mut M::Office,
    tally: &Tally,
) -> Result<Option<Reason>, Fault>
    ensures { LooksIn M.Office.Office (λ records. IfOk result (IsDueUnsigned tally.now records))
        office.old office.new }
{
    let summary = office.summary()?;
    match cached_or_read_latest::<M>(alloc, office, summary.latest, tally)? {
        Some(read) if read.is_unsigned => Ok(Some(Reason::Unsigned(read.number))),
        _ => Ok(None),
    }
}

/// What new CRLs get: a signature or a placeholder digest. With `NoSigner`, each command `crl` fails. For [`Tally::new`].
pub fn signing_of(crl_signer: &CrlSignerChoice<'_>) -> CrlSigning
    ensures { result ≡ signing_by crl_signer.now }
{
    match crl_signer {
        CrlSignerChoice::KeyAt(_) => CrlSigning::Key,
        CrlSignerChoice::Digest => CrlSigning::Digest,
        CrlSignerChoice::NoSigner => CrlSigning::NoSigner,
    }
}

/// The counts in the outcome of the query `counts`. The contract of `ask` excludes another reply (`Ok(_)`), here and in the next two functions.
fn counts_of(outcome: Outcome) -> Result<Counts, Fault>
    ensures { (records : Records) (now : ℕ) → IsAnswered records now AskCounts outcome
        → Has AskCounts CountsAre records now result }
{
    match outcome {
        Ok(Reply::Counts(counts)) => Ok(counts),
        Ok(_) => Err(Fault::Store),
        Err(fault) => Err(fault),
    }
}

fn due_of(outcome: Outcome) -> Result<Option<Moment>, Fault>
    ensures { (records : Records) (now : ℕ) → IsAnswered records now AskNextCrl outcome
        → Has AskNextCrl NextCrlIs records now result }
{
    match outcome {
        Ok(Reply::NextCrl(due)) => Ok(due),
        Ok(_) => Err(Fault::Store),
        Err(fault) => Err(fault),
    }
}

fn overdue_of(outcome: Outcome) -> Result<u64, Fault>
    ensures { (records : Records) (now : ℕ) → IsAnswered records now AskOverdue outcome
        → HasOverdue records now result }
{
    match outcome {
        Ok(Reply::Overdue(overdue)) => Ok(overdue_count_of(overdue)),
        Ok(_) => Err(Fault::Store),
        Err(fault) => Err(fault),
    }
}

fn overdue_count_of(overdue: Option<Overdue>) -> u64
    ensures { result ≡ overdue_count overdue }
{
    match overdue {
        Some(overdue) => overdue.count,
        None => 0,
    }
}

/// Counts the open and the overdue requests for revocation, unless the last counts are under a minute old. If counting fails, the last counts stay.
pub(crate) fn recount<M: Machine>(
    alloc: Global,
    office: &mut M::Office,
    now: Moment,
    tally: &mut Tally,
)
    ensures moves { LooksIn M.Office.Office (λ records. Recounts records now tally.old tally.new)
        office.old office.new }
    ensures recounted { IsCounted tally.old tally.new }
{
    if !tally.wants_requests(now) {
        return;
    }
    match requests_at::<M>(alloc, office, now) {
        Ok(requests) => tally.set_requests(requests),
        Err(_) => {}
    }
}

fn requests_at<M: Machine>(
    alloc: Global,
    office: &mut M::Office,
    now: Moment,
) -> Result<Requests, Fault>
    ensures { LooksIn M.Office.Office (λ records. HasRequests records now result) office.old office.new }
{
    let asked = office.ask(alloc, now, &Query::Overdue);
    let overdue = match overdue_of(asked) {
        Ok(overdue) => overdue,
        Err(fault) => return Err(fault),
    };
    match office.open_count(now) {
        Ok(waiting) => Ok(Requests {
            at: now,
            waiting,
            overdue,
        }),
        Err(fault) => Err(fault),
    }
}

/// `plain`: an answer without a signature or an effect on the store, here with a JSON body.
fn health_answer(alloc: Global, health: &Health) -> Result<HttpAnswer, Memory>
    ensures { IfOk result (λ answered. answer_effects answered ≡ plain (health_response health.now)) }
{
    match health.text(alloc) {
        Ok(body) => Ok(HttpAnswer::plain(json(status_of(health.is_well()), body))),
        Err(_) => Err(Memory),
    }
}

pub(crate) fn status_of(is_well: bool) -> u16
    ensures { result ≡ status_spec is_well }
{
    if is_well {
        status::OK
    } else {
        status::SERVICE_UNAVAILABLE
    }
}

fn metrics_answer(
    alloc: Global,
    now: Moment,
    found: &NumbersResult,
    tally: &Tally,
    connection_totals: ConnectionTotals,
) -> Result<HttpAnswer, Memory>
    ensures { IfOk result (λ answered.
        answer_effects answered
        ≡ plain (metrics_response (metrics_text VERSION.now now found.now tally.now connection_totals))) }
{
    match metrics(alloc, VERSION, now, found, tally, connection_totals) {
        Ok(body) => Ok(HttpAnswer::plain(Answer {
            status: status::OK,
            kind: PROMETHEUS,
            allow: None,
            body,
        })),
        Err(_) => Err(Memory),
    }
}

/// notAfter of a delegated responder's certificate (RFC 5280 4.1.2.5). `None` if the issuer signs OCSP responses, or the certificate can't be read.
pub fn responder_not_after<M: Machine>(
    machine: &M,
    responder: &ResponderChoice<'_>,
) -> Option<Moment> {
    match responder {
        ResponderChoice::Delegate { certificate, .. } => not_after(&machine.file(
            certificate.as_str(),
        )?),
        ResponderChoice::Issuer { .. } => None,
    }
}
