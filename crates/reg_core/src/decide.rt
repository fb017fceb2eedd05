//! The pure decisions, one for each command. Each takes the rows that the caller looked up (`None`: there is no such row), and returns the row to
//! write or the first refusal that applies. Each calls [`clock`] first; the comment of each lists its other refusals, in the order of their checks.
//! `head` has the moments, the policy, and in `held` the number of rows in the table to which the command would add one; a new id is `held` + 1.

ghost use Rattle.std.specs.Prelude.{◌≡◌, ℕ, ◌+◌, ◌<◌, ◌^◌, false, IfSome, ⊤};
ghost use Rattle.reg_core.specs.Checks.{clock_checks, first_refusal, live_checks, pending_request_checks, validity_checks, refused_if};
ghost use Rattle.reg_core.specs.Crls.{number_after};
ghost use Rattle.reg_core.specs.Decisions.{table_is_full, IsDecidedAfterClock, IsDecidedBy, DecidesSubscriber, DecidesOrder, DecidesRegister, DecidesRequest, DecidesDecline, DecidesRevoke, DecidesCrl};

use crate::grounds::Ground;
use crate::label::Label;
use crate::moment::Moment;
use crate::refusal::Refusal;
use crate::rows::{CertRow, CrlRow, Head, OrderRow, RequestRow, RevocationRow, SubscriberRow};

const SECONDS_OF_DAY: u64 = 86_400;

/// Checks a command's or query's moment, `now`. Refusals: `ClockEnd` from [`Moment::CLOCK_END`] on; `ClockBack` before `last`, the last accepted one.
pub fn clock(now: Moment, last: Moment) -> Result<(), Refusal>
    ensures { IsDecidedBy (first_refusal (clock_checks now last)) (λ _. ⊤) result }
{
    if now >= Moment::CLOCK_END {
        return Err(Refusal::ClockEnd);
    }
    if now < last {
        return Err(Refusal::ClockBack { last });
    }
    Ok(())
}

/// The row of the new subscriber. `by_name` is the subscriber that has the name already. Refusals: `BadName`, `NameTaken`, `Full`.
pub fn decide_subscriber(
    head: &Head,
    name: Label,
    by_name: Option<SubscriberRow>,
) -> Result<SubscriberRow, Refusal>
    ensures { DecidesSubscriber head.entry.now name by_name result }
{
    clock(head.now, head.last)?;
    if !name.is_name() {
        return Err(Refusal::BadName);
    }
    if let Some(taken) = by_name {
        return Err(Refusal::NameTaken { id: taken.id });
    }
    let id = next_id(head)?;
    Ok(SubscriberRow { id, name })
}

/// The row of the new order, by `subscriber`, for a certificate with a validity of at most `days`. Refusals: `NoSubscriber`, `BadDays`, `Full`.
pub fn decide_order(
    head: &Head,
    subscriber: Option<SubscriberRow>,
    days: u64,
) -> Result<OrderRow, Refusal>
    ensures { DecidesOrder head.entry.now subscriber days result }
{
    clock(head.now, head.last)?;
    let Some(subscriber) = subscriber else {
        return Err(Refusal::NoSubscriber);
    };
    // The schedule has the longest validity in days for each notBefore. An order may allow at most the greatest of them.
    let most = head.policy.schedule().greatest();
    if days == 0 || days > most {
        return Err(Refusal::BadDays { most });
    }
    let id = next_id(head)?;
    Ok(OrderRow {
        id,
        subscriber: subscriber.id,
        days,
    })
}

/// The row of the new certificate, `wanted`; `None` if it is registered already, equal in all fields: then only [`clock`] can refuse.
/// `order` is the order to fill, `by_order` the certificate that fills it already, `by_serial` the one that has the serial number already.
/// Refusals: `NoOrder`, `OrderFilled`, `SerialTaken`, `BadValidity`, `TooLong`, `Ended`, `Full`.
pub fn decide_register(
    head: &Head,
    wanted: CertRow,
    order: Option<OrderRow>,
    by_order: Option<CertRow>,
    by_serial: Option<CertRow>,
) -> Result<Option<CertRow>, Refusal>
    ensures { DecidesRegister head.entry.now wanted order by_order by_serial result }
{
    clock(head.now, head.last)?;
    if let Some(registered) = &by_serial {
        if *registered == wanted {
            return Ok(None);
        }
    }
    let Some(order) = order else {
        return Err(Refusal::NoOrder);
    };
    if by_order.is_some() {
        return Err(Refusal::OrderFilled);
    }
    if by_serial.is_some() {
        return Err(Refusal::SerialTaken);
    }
    check_validity(head, &wanted, &order)?;
    // For the refusal `Full` alone: a certificate has no id.
    next_id(head)?;
    Ok(Some(wanted))
}

/// The row of the new request, on the ground with the name `ground_name`. `certificate` and `revocation` are those of the command's serial number.
/// Refusals: `UnknownSerial`, `NoHold`, `BadGround`, `RevokedBefore`, `Expired`, `Full`.
pub fn decide_request(
    head: &Head,
    certificate: Option<CertRow>,
    ground_name: Label,
    revocation: Option<RevocationRow>,
) -> Result<RequestRow, Refusal>
    ensures { DecidesRequest head.entry.now certificate ground_name revocation result }
{
    clock(head.now, head.last)?;
    let Some(certificate) = certificate else {
        return Err(Refusal::UnknownSerial);
    };
    let serial = certificate.serial;
    let ground = Ground::read(ground_name.as_bytes())?;
    check_live(head.now, Some(certificate), revocation)?;
    let id = next_id(head)?;
    Ok(RequestRow {
        id,
        serial,
        ground,
        received: head.now,
        declined: false,
    })
}

/// The request's row, now declined. `certificate` and `revocation` are those of its serial number. Refusals: as for [`decide_revoke`].
pub fn decide_decline(
    head: &Head,
    request: Option<RequestRow>,
    certificate: Option<CertRow>,
    revocation: Option<RevocationRow>,
) -> Result<RequestRow, Refusal>
    ensures { DecidesDecline head.entry.now request certificate revocation result }
{
    let request = pending_request(head, request, certificate, revocation)?;
    Ok(RequestRow {
        id: request.id,
        serial: request.serial,
        ground: request.ground,
        received: request.received,
        declined: true,
    })
}

/// The row of the new revocation, and whether it is after the request's deadline. Field `first`: the number of the next CRL, the first to list it.
/// `certificate` and `revocation` are those of the request's serial number; `latest` is the newest CRL, whose number is below 10^18, so that one more
/// fits. Refusals: `NoRequest`, `DeclinedBefore`, `RevokedBefore`, `Expired`; not `Full`, because each certificate has at most one revocation.
pub fn decide_revoke(
    head: &Head,
    request: Option<RequestRow>,
    certificate: Option<CertRow>,
    revocation: Option<RevocationRow>,
    latest: Option<CrlRow>,
) -> Result<(RevocationRow, bool), Refusal>
    requires { IfSome latest (λ crl. crl.number < 10 ^ 18) }
    ensures { DecidesRevoke head.entry.now request certificate revocation latest result }
{
    let request = pending_request(head, request, certificate, revocation)?;
    // Not `request.deadline()`: it requires a receipt before `CLOCK_END`, and no precondition here says that of the request.
    let late = head.now.secs() > request.received.secs() + request.ground.limit_secs();
    let row = RevocationRow {
        serial: request.serial,
        at: head.now,
        reason: request.ground.reason(),
        request: request.id,
        first: next_number(latest),
    };
    Ok((row, late))
}

/// The row of the new CRL, whose thisUpdate is the command's moment. `latest` is the newest CRL, with a number of at most 18 digits. Refusal: `Full`.
pub fn decide_crl(head: &Head, latest: Option<CrlRow>) -> Result<CrlRow, Refusal>
    requires { IfSome latest (λ crl. crl.number < 10 ^ 18) }
    ensures { DecidesCrl head.entry.now latest result }
{
    clock(head.now, head.last)?;
    if is_full(head) {
        return Err(Refusal::Full);
    }
    Ok(CrlRow {
        number: next_number(latest),
        this_update: head.now,
    })
}

fn next_id(head: &Head) -> Result<u64, Refusal>
    ensures { IsDecidedBy (refused_if (table_is_full head.entry.now) Refusal.Full)
        (λ id. id ≡ head.entry.now.held + 1) result }
{
    if is_full(head) {
        return Err(Refusal::Full);
    }
    Ok(head.held + 1)
}

fn is_full(head: &Head) -> bool
    ensures full { result ≡ table_is_full head.entry.now }
    ensures room { (result ≡ false) → head.entry.now.held < 1000000 }
{
    head.held >= head.policy.cap()
}

fn next_number(latest: Option<CrlRow>) -> u64
    requires { IfSome latest (λ crl. crl.number < 10 ^ 18) }
    ensures { result ≡ number_after latest }
{
    match latest {
        Some(crl) => crl.number + 1,
        None => 1,
    }
}

fn check_validity(head: &Head, wanted: &CertRow, order: &OrderRow) -> Result<(), Refusal>
    ensures { IsDecidedBy
        (first_refusal (validity_checks head.entry.now.policy head.entry.now.now wanted.now (Some order.now)))
        (λ _. ⊤)
        result }
{
    if wanted.not_after < wanted.not_before {
        return Err(Refusal::BadValidity);
    }
    // The policy's longest validity, in days, for this notBefore.
    let longest = head.policy.schedule().longest(wanted.not_before);
    // From notBefore through notAfter, both included (RFC 5280 4.1.2.5).
    let seconds = wanted.not_after.secs() - wanted.not_before.secs() + 1;
    if seconds > SECONDS_OF_DAY * order.days.min(longest) {
        return Err(Refusal::TooLong);
    }
    if wanted.not_after < head.now {
        return Err(Refusal::Ended);
    }
    Ok(())
}

/// Refuses if there is a revocation, or `now` is past the certificate's notAfter. Without a certificate it would accept, but each request has one.
fn check_live(
    now: Moment,
    certificate: Option<CertRow>,
    revocation: Option<RevocationRow>,
) -> Result<(), Refusal>
    ensures { IsDecidedBy (first_refusal (live_checks now certificate revocation)) (λ _. ⊤) result }
{
    if let Some(revoked) = revocation {
        return Err(Refusal::RevokedBefore { at: revoked.at });
    }
    match certificate {
        Some(certificate) if now > certificate.not_after => Err(Refusal::Expired),
        _ => Ok(()),
    }
}

/// The request, if [`clock`] accepts the moment, and the request exists, is not declined, and its certificate is not revoked or expired.
fn pending_request(
    head: &Head,
    request: Option<RequestRow>,
    certificate: Option<CertRow>,
    revocation: Option<RevocationRow>,
) -> Result<RequestRow, Refusal>
    ensures { IsDecidedAfterClock
        head.entry.now
        (pending_request_checks head.entry.now.now request certificate revocation)
        (λ row. IfSome request (λ known. row ≡ known))
        result }
{
    clock(head.now, head.last)?;
    let Some(request) = request else {
        return Err(Refusal::NoRequest);
    };
    if request.declined {
        return Err(Refusal::DeclinedBefore);
    }
    check_live(head.now, certificate, revocation)?;
    Ok(request)
}
