//! Limits of `desk open` on requests for revocation over HTTP. The limit on a clock too far past the `last` command holds at the control socket, too.

ghost use Rattle.std.specs.Prelude.{◌≡◌, IfOk, None, replicate};
ghost use Rattle.reg_office_api.specs.Calls.{LeadsIn, LooksIn};
ghost use Rattle.reg_http.specs.RoutedRequests.{asked, requested_serial};
ghost use Rattle.reg_desk_service.specs.Admission.{BeginsAdmitted, CountsRequest, IsRefusedBy, ChecksLimits, after_request, after_request_if, first_admission, is_rate_reached as reached_at, limit_by, after_one_more};

use crate::machine::Machine;
use http::Method;
use reg_core::{Memory, Moment, Serial};
use reg_desk_metrics::is_ahead;
use reg_http::{HttpAnswer, begin, refuse, report_fault, serial_of};
use reg_http_head::status;
use reg_io::ReadyOrUnsigned;
use reg_ocsp::Draft;
use reg_office_api::{Office, RequestLoad};
use std::alloc::Global;

/// With this many open requests for one serial number, the desk refuses another over HTTP: such requests could otherwise fill their table.
const MOST_OPEN: u64 = 3;

/// The most requests for revocation over HTTP within a minute: for each, the desk may read the whole requests table (`Office::request_load`).
const MOST_RECENT: usize = 100;

const MINUTE: u64 = 60;

/// The moments of the last hundred requests for revocation over HTTP that passed the rate limit. The oldest is at `next` % 100; `count` replaces it.
#[derive(Clone, Copy)]
pub(crate) struct RecentRequests {
    pub(crate) moments: [Option<Moment>; MOST_RECENT],
    pub(crate) next: usize,
}

impl RecentRequests {
    /// Whether all these hundred came within the minute up to `now`. `false` if the oldest is later than `now`, because the clock was set back.
    fn is_rate_reached(&self, now: Moment) -> bool
        ensures { result ≡ reached_at now self.now }
    {
        match self.moments[self.next % MOST_RECENT] {
            Some(oldest) => oldest <= now && now.secs().saturating_sub(oldest.secs()) < MINUTE,
            None => false,
        }
    }

    fn count(&mut self, now: Moment)
        ensures { self.new ≡ after_one_more now self.old }
    {
        let index = self.next % MOST_RECENT;
        self.moments[index] = Some(now);
        self.next = index + 1;
    }
}

/// The state, besides the records, by which an open desk admits requests for revocation.
#[derive(Clone, Copy)]
pub struct Admission {
    pub(crate) recent: RecentRequests,
    /// The moment in the last line `accept-clock`, if there was one: the operator lets the clock be up to 30 days past it.
    pub accepted: Option<Moment>,
}

impl Admission {
    /// The admission of a desk that was just opened: no request is counted, and the operator has accepted no moment.
    pub fn new() -> Admission
        ensures { result ≡ first_admission }
    {
        Admission {
            recent: RecentRequests {
                moments: [None; MOST_RECENT],
                next: 0,
            },
            accepted: None,
        }
    }
}

/// Answers a request at `/requests`: 429 or 503 if a limit refuses it. No limit holds if `serial_of` gives `None`: the request can't be entered.
pub(crate) fn begin_admitted<M: Machine>(
    alloc: Global,
    office: &mut M::Office,
    admission: &mut Admission,
    now: Moment,
    method: &Method,
    target: &str,
    body: &[u8],
) -> Result<ReadyOrUnsigned<HttpAnswer, Draft>, Memory>
    ensures moves { LeadsIn M.Office.Office
        (λ signers before after.
        BeginsAdmitted admission.old M.Office.signs now signers before
        (asked method.now target.now body.now) result after)
        office.old office.new }
    ensures counted { CountsRequest result
        (after_request_if now (requested_serial (asked method.now target.now body.now)) admission.old)
        admission.old admission.new }
{
    let Some(serial) = serial_of(alloc, method, target, body)? else {
        return begin(alloc, method, target, body, now, office);
    };
    match refusal_of::<M>(alloc, office, admission, now, serial)? {
        Some(refused) => Ok(ReadyOrUnsigned::Ready(refused)),
        None => begin(alloc, method, target, body, now, office),
    }
}

/// Counts a request to revoke this serial number, unless the rate limit refuses it. Returns the answer if a limit refuses it or a call fails.
fn refusal_of<M: Machine>(
    alloc: Global,
    office: &mut M::Office,
    admission: &mut Admission,
    now: Moment,
    serial: Serial,
) -> Result<Option<HttpAnswer>, Memory>
    ensures looks { LooksIn M.Office.Office
        (λ records. IfOk result (ChecksLimits admission.old records now serial)) office.old office.new }
    ensures counted { admission.new ≡ after_request now admission.old }
{
    if admission.recent.is_rate_reached(now) {
        return refusal_with_status(alloc, status::TOO_MANY_REQUESTS);
    }
    admission.recent.count(now);
    match office.request_load(now, serial, MOST_OPEN) {
        Ok(request_load) => match limit_of(
            request_load,
            is_ahead(now, request_load.last, admission.accepted),
        ) {
            Some(status) => refusal_with_status(alloc, status),
            None => Ok(None),
        },
        Err(fault) => Ok(Some(report_fault(alloc, fault)?)),
    }
}

fn refusal_with_status(alloc: Global, status: u16) -> Result<Option<HttpAnswer>, Memory>
    ensures { IfOk result (IsRefusedBy status) }
{
    Ok(Some(refuse(alloc, status)?))
}

/// The status of the refusal. 503 (RFC 9110 15.6.4): the clock is too far ahead, or less than a tenth of the requests table's `cap` rows is free.
/// The operator may need that tenth (rounded down). 429 (RFC 6585 4): [`MOST_OPEN`] requests for the serial number are open (`waiting`).
fn limit_of(request_load: RequestLoad, is_ahead: bool) -> Option<u16>
    ensures { result ≡ limit_by request_load is_ahead }
{
    if is_ahead || request_load.cap.saturating_sub(request_load.requests) < request_load.cap / 10 {
        return Some(status::SERVICE_UNAVAILABLE);
    }
    if request_load.waiting >= MOST_OPEN {
        return Some(status::TOO_MANY_REQUESTS);
    }
    None
}
