//! Answers the bytes that came on an HTTP connection. `HttpAnswer` is a finished answer, and `Exchange` has its text. `Draft` is an OCSP response to
//! be signed; `UnsignedResponse` has its route, too, and `Unsigned` also the data for the log and the counts.

ghost use Rattle.std.specs.Prelude.{◌≡◌, cond};
ghost use Rattle.reg_office_api.specs.Calls.{LeadsIn};
ghost use Rattle.reg_http_head.specs.Bytes.{collected_bytes};
ghost use Rattle.reg_http_head.specs.Frame.{asked};
ghost use Rattle.reg_http.specs.RoutedRequests.{path_of};
ghost use Rattle.reg_http.specs.Exchanges.{IsEmpty, HasNoEffects};
ghost use Rattle.reg_http.specs.RouteNames.{named_route, route_at};
ghost use Rattle.reg_http.specs.declared.exchange.Exchange.{Exchange as HttpExchange};
ghost use Rattle.reg_http.specs.declared.exchange.UnsignedResponse.{UnsignedResponse as UnsignedResponses};
ghost use Rattle.reg_desk_server.specs.Outcomes.{outcome_of};
ghost use Rattle.reg_desk_service.specs.RequestOutcomes.{AnswersBegun, BeginsAt, IsBegunRoute, ready_of};
ghost use Rattle.reg_desk_service.specs.Counted.{CountsBegun};
ghost use Rattle.reg_desk_service.specs.Admission.{CountsRequest};
ghost use Rattle.reg_desk_service.specs.Exchanges.{admission_after, dispatch, dispatch_following, dispatch_open, kind_of_desk};
ghost use Rattle.reg_desk_service.specs.SignerAnswers.{AnsweredAtSomePath};
ghost use Rattle.reg_desk_service.specs.HealthRoutes.{IsRecounted};
ghost use Rattle.reg_desk_metrics.specs.declared.tally.Tally.{Tally as Tallies};
ghost use Rattle.reg_io.specs.declared.begun.ReadyOrUnsigned.{ReadyOrUnsigned as BegunOf};

use crate::admission::{Admission, begin_admitted};
use crate::exchange_log::log_exchange;
use crate::follower_routes::{follower_health, follower_metrics};
use crate::health_routes::{answer_health, answer_metrics};
use crate::machine::Machine;
use crate::unsigned_responses::{Unsigned, unsigned_of};
use http::Method;
use reg_core::{Fault, Memory, Moment};
use reg_desk_metrics::{ConnectionTotals, FollowerStatus, Tally};
use reg_http::{
    Exchange, HttpAnswer, Route, UnsignedResponse, answer_changes, answer_list, begin,
    begun_exchange, refuse, text_buffer, try_later,
};
use reg_http_head::{Collected, RequestRef, status};
use reg_io::ReadyOrUnsigned;
use reg_ocsp::Draft;
use reg_office_api::{Office, SignatureOutcome};
use std::alloc::Global;
use std::net::SocketAddr;

/// The desk that answers: that of `serve`, that of `open`, or a follower in this state.
#[derive(Clone, Copy)]
pub(crate) enum DeskKind {
    Serving,
    Open,
    Following(FollowerStatus),
}

impl DeskKind {
    /// The desk of `open` (`is_open`) or `serve`.
    pub(crate) fn of(is_open: bool) -> DeskKind
        ensures { result ≡ kind_of_desk is_open }
    {
        if is_open {
            DeskKind::Open
        } else {
            DeskKind::Serving
        }
    }
}

/// The part of the desk that answers a request. In `desk serve`, the register answers all. Else the route decides; with a follower, also its lag.
#[derive(Clone, Copy)]
pub(crate) enum Dispatch {
    ToRegister,
    /// Refuses requests for revocation beyond the limits, and passes the others to the register.
    ToLimits,
    ToList,
    ToHealth,
    ToMetrics,
    ToChanges,
    ToFollowerHealth(FollowerStatus),
    ToFollowerMetrics(FollowerStatus),
    /// A follower refuses the request: an OCSP request with tryLater, another one with this status code.
    TryLater,
    Refuse(u16),
}

fn dispatch_of(kind: DeskKind, route: Route) -> Dispatch
    ensures { result ≡ dispatch kind route }
{
    match kind {
        DeskKind::Serving => Dispatch::ToRegister,
        DeskKind::Open => open_dispatch(route),
        DeskKind::Following(follower) => follower_dispatch(follower, route),
    }
}

fn follower_dispatch(follower: FollowerStatus, route: Route) -> Dispatch
    ensures { result ≡ dispatch_following follower route }
{
    match route {
        Route::Health => Dispatch::ToFollowerHealth(follower),
        Route::Metrics => Dispatch::ToFollowerMetrics(follower),
        Route::Changes => Dispatch::Refuse(status::NOT_FOUND),
        Route::Requests => Dispatch::Refuse(status::SERVICE_UNAVAILABLE),
        Route::Ocsp => if_current(follower, route, Dispatch::TryLater),
        Route::OcspRest => if_current(follower, route, Dispatch::TryLater),
        _ => if_current(
            follower,
            route,
            Dispatch::Refuse(status::SERVICE_UNAVAILABLE),
        ),
    }
}

fn if_current(follower: FollowerStatus, route: Route, otherwise: Dispatch) -> Dispatch
    ensures { result ≡ cond follower.is_current (dispatch_open route) otherwise }
{
    if follower.is_current {
        open_dispatch(route)
    } else {
        otherwise
    }
}

fn open_dispatch(route: Route) -> Dispatch
    ensures { result ≡ dispatch_open route }
{
    match route {
        Route::Requests => Dispatch::ToLimits,
        Route::List => Dispatch::ToList,
        Route::Health => Dispatch::ToHealth,
        Route::Metrics => Dispatch::ToMetrics,
        Route::Changes => Dispatch::ToChanges,
        _ => Dispatch::ToRegister,
    }
}

/// Answers at `now` the bytes that came on a connection, counts the exchange in `tally`, and logs it if there is a log. If the response needs a
/// signature, `finish_http` counts and logs it later instead. `connection_totals`: for `/metrics`. `admission`: for the limits of `/requests`.
pub(crate) fn answer_http<M: Machine>(
    alloc: Global,
    office: &mut M::Office,
    machine: &M,
    kind: DeskKind,
    tally: &mut Tally,
    admission: &mut Admission,
    connection_totals: ConnectionTotals,
    now: Moment,
    client: SocketAddr,
    request: &Collected,
) -> ReadyOrUnsigned<Vec<u8>, Unsigned>
    ensures { (begun : BegunOf HttpExchange UnsignedResponses) × (asked : Tallies)
        × IsRecounted tally.old asked
        × LeadsIn M.Office.Office
        (λ signers before after.
        AnswersBegun (AnsweredAtSomePath M.signer_answered) kind M.Office.signs now
        admission.old admission.new signers before (collected_bytes request.now) begun after)
        office.old office.new
        × CountsBegun now (collected_bytes request.now) begun (outcome_of result) asked tally.new }
{
    let began = machine.micros();
    match exchange_at::<M>(
        alloc,
        office,
        kind,
        tally,
        admission,
        connection_totals,
        now,
        request,
    ) {
        ReadyOrUnsigned::Ready(exchange) => {
            let micros = machine.micros().saturating_sub(began);
            tally.count_exchange(now, &exchange, micros);
            log_exchange(
                alloc,
                machine,
                micros,
                now,
                client,
                request.as_slice(),
                &exchange,
            );
            ReadyOrUnsigned::Ready(exchange.text)
        }
        ReadyOrUnsigned::Unsigned(response) => {
            ReadyOrUnsigned::Unsigned(unsigned_of(
                alloc, machine, response, now, began, client, request,
            ))
        }
    }
}

/// As `answer_http`, but neither counts nor logs. Reserves memory for the text (`room`) first: the reply to a request for revocation needs no more.
fn exchange_at<M: Machine>(
    alloc: Global,
    office: &mut M::Office,
    kind: DeskKind,
    tally: &mut Tally,
    admission: &mut Admission,
    connection_totals: ConnectionTotals,
    now: Moment,
    request: &Collected,
) -> ReadyOrUnsigned<Exchange, UnsignedResponse>
    ensures moves { LeadsIn M.Office.Office
        (λ signers before after.
        AnswersBegun (AnsweredAtSomePath M.signer_answered) kind M.Office.signs now
        admission.old admission.new signers before (collected_bytes request.now) result after)
        office.old office.new }
    ensures route { IsBegunRoute (collected_bytes request.now) result }
    ensures recounted { IsRecounted tally.old tally.new }
{
    let Ok(room) = text_buffer(alloc) else {
        return ReadyOrUnsigned::Ready(empty(alloc, request));
    };
    match request.request(alloc) {
        Ok(
            RequestRef::Valid {
                method,
                target,
                body,
            },
        ) => {
            let route = Route::of(target);
            let begun = begin_at::<M>(
                alloc,
                office,
                kind,
                tally,
                admission,
                connection_totals,
                now,
                route,
                &method,
                target,
                body,
            );
            begun_exchange(route, room, begun, now)
        }
        Ok(RequestRef::Refused(status)) => {
            let route = Route::named_in(request.as_slice());
            begun_exchange(route, room, ready(refuse(alloc, status)), now)
        }
        Err(Fault::Read) => ReadyOrUnsigned::Ready(empty(alloc, request)),
        Err(_) => {
            let route = Route::named_in(request.as_slice());
            ReadyOrUnsigned::Ready(Exchange::out_of_memory(route, room))
        }
    }
}

/// An exchange without a response (the bytes are no whole request, or there is no memory), counted at the route that the first line names.
fn empty(alloc: Global, request: &Collected) -> Exchange
    ensures empty { IsEmpty result }
    ensures nothing { HasNoEffects result }
    ensures route { result.route ≡ named_route (collected_bytes request.now) }
{
    let route = Route::named_in(request.as_slice());
    Exchange::empty(alloc, route, SignatureOutcome::NotRequested)
}

fn ready(answered: Result<HttpAnswer, Memory>) -> Result<ReadyOrUnsigned<HttpAnswer, Draft>, Memory>
    ensures { result ≡ ready_of answered }
{
    match answered {
        Ok(answered) => Ok(ReadyOrUnsigned::Ready(answered)),
        Err(memory) => Err(memory),
    }
}

/// Answers at `now` a request at a route, or leaves a response to be signed. `admission.accepted`: the moment in the last line `accept-clock`.
fn begin_at<M: Machine>(
    alloc: Global,
    office: &mut M::Office,
    kind: DeskKind,
    tally: &mut Tally,
    admission: &mut Admission,
    connection_totals: ConnectionTotals,
    now: Moment,
    route: Route,
    method: &Method,
    target: &str,
    body: &[u8],
) -> Result<ReadyOrUnsigned<HttpAnswer, Draft>, Memory>
    requires { route ≡ route_at (path_of target.now) }
    ensures moves { LeadsIn M.Office.Office
        (λ signers before after.
        BeginsAt kind M.Office.signs now admission.old signers before method.now target.now body.now
        result after)
        office.old office.new }
    ensures counted { CountsRequest result
        (admission_after kind now (asked method.now target.now body.now) admission.old)
        admission.old admission.new }
    ensures recounted { IsRecounted tally.old tally.new }
{
    match dispatch_of(kind, route) {
        Dispatch::ToRegister => begin(alloc, method, target, body, now, office),
        Dispatch::ToLimits => {
            begin_admitted::<M>(alloc, office, admission, now, method, target, body)
        }
        Dispatch::ToList => ready(answer_list(alloc, method, target, now, office)),
        Dispatch::ToChanges => ready(answer_changes(alloc, method, target, office)),
        Dispatch::ToHealth => {
            let accepted = admission.accepted;
            ready(answer_health::<M>(alloc, office, method, now, tally, accepted))
        }
        Dispatch::ToMetrics => {
            ready(answer_metrics::<M>(alloc, office, method, now, tally, connection_totals))
        }
        Dispatch::ToFollowerHealth(follower) => {
            ready(follower_health::<M>(alloc, office, &follower, method, now, tally))
        }
        Dispatch::ToFollowerMetrics(follower) => ready(follower_metrics::<M>(
            alloc,
            office,
            &follower,
            method,
            now,
            tally,
            connection_totals,
        )),
        Dispatch::TryLater => ready(try_later(alloc)),
        Dispatch::Refuse(code) => ready(refuse(alloc, code)),
    }
}
