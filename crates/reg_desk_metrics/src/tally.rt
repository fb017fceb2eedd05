//! What an open desk counts: each HTTP exchange (request and answer), and each line at the control socket. Counts and sums stop at `u64::MAX`.

ghost use Rattle.std.specs.Prelude.{◌≡◌, ◌<◌};
ghost use Rattle.reg_desk_metrics.specs.Tallies.{IsNewTally, bumped, bucket_of as bucket_spec, route_number as number_of_route, code_number as number_of_code, with_time as timed, with_exchange, with_line, outcomes_counted, with_reply_to_line, with_counted, with_unconfirmed, wants_requests as wants_counted, has_crl_key as has_key, read_of, with_read, with_amount, is_ocsp_route, has_response, with_route, with_failure, counted_crl_outcome};

use crate::numbers::{CrlSigning, ReadCrl, Requests};
use crate::signature_outcomes::{SignatureCounts, store_after};
use reg_core::Moment;
use reg_http::{Exchange, Route};
use reg_office_api::{LineEffects, LineReply, SignatureOutcome, StoreEffect};

/// How many items the tally's arrays have. `CODES`: HTTP statuses (`code_number`). `ANSWERS`: `ROUTES` times `CODES`. `BUCKETS`: times (`bucket_of`).
pub(crate) const CODES: usize = 12;

pub(crate) const ANSWERS: usize = 144;

pub(crate) const BUCKETS: usize = 12;

pub(crate) const ROUTES: usize = 12;

/// The counters of an open desk, and what its metrics need to know of its signers.
#[derive(Clone, Copy)]
pub struct Tally {
    /// HTTP exchanges by route and status code: the index is that of the route times `CODES`, plus that of the code.
    pub(crate) answers: [u64; ANSWERS],
    /// Lines at the control socket, by reply: accepted commands and answered queries; refused lines; lines with a fault, or no memory for the reply.
    pub(crate) accepted: u64,
    pub(crate) refused: u64,
    pub(crate) faults: u64,
    /// HTTP exchanges and control lines, by how long each took. The wait for a signature counts; receiving and sending don't. `micros`: the sum.
    pub(crate) buckets: [u64; BUCKETS],
    pub(crate) micros: u64,
    /// HTTP exchanges by route (`route_number`), and for each route the sum of their times in microseconds.
    pub(crate) route_counts: [u64; ROUTES],
    pub(crate) route_micros: [u64; ROUTES],
    /// OCSP responses over HTTP that were internalError (RFC 6960 2.3) because the signer failed, and because the store failed.
    pub(crate) ocsp_signer_failures: u64,
    pub(crate) ocsp_store_failures: u64,
    /// The signatures of CRLs, and those of OCSP responses.
    pub(crate) crls: SignatureCounts,
    pub(crate) ocsp: SignatureCounts,
    pub(crate) store_failing_since: Option<Moment>,
    /// How many requests for revocation were open and overdue when they were counted last; `None` if they were not counted yet.
    pub(crate) requests: Option<Requests>,
    pub(crate) crl_signing: CrlSigning,
    /// notAfter of a delegated responder's certificate (RFC 5280 4.1.2.5); `None` if the issuer responds, or if the certificate can't be read.
    pub(crate) responder_ends: Option<Moment>,
    /// The number of the CRL that was read last, and whether it is signed, so that the same CRL is not read again.
    pub(crate) read: Option<ReadCrl>,
    /// Whether replies to commands wait for followers, and the moment of the first command for which one waits.
    pub(crate) waits_for_followers: bool,
    pub(crate) unconfirmed_since: Option<Moment>,
}

fn bump<const N: usize>(counts: &mut [u64; N], index: usize)
    requires { index < N }
    ensures { counts.new ≡ bumped counts.old index }
{
    counts[index] = counts[index].saturating_add(1);
}

fn add<const N: usize>(sums: &mut [u64; N], index: usize, amount: u64)
    requires { index < N }
    ensures { sums.new ≡ with_amount sums.old index amount }
{
    sums[index] = sums[index].saturating_add(amount);
}

fn is_ocsp(route: Route) -> bool
    ensures { result ≡ is_ocsp_route route }
{
    match route {
        Route::Ocsp => true,
        Route::OcspRest => true,
        _ => false,
    }
}

fn has_ocsp_response(exchange: &Exchange) -> bool
    ensures { result ≡ has_response exchange.now }
{
    match exchange.status {
        Some(200) => is_ocsp(exchange.route),
        _ => false,
    }
}

fn route_number(route: Route) -> usize
    ensures number { result ≡ number_of_route route }
    ensures within { result < 12 }
{
    match route {
        Route::Ocsp => 0,
        Route::OcspRest => 1,
        Route::Crl => 2,
        Route::CrlNumber => 3,
        Route::Status => 4,
        Route::Counts => 5,
        Route::Requests => 6,
        Route::List => 7,
        Route::Health => 8,
        Route::Metrics => 9,
        Route::Changes => 10,
        Route::Other => 11,
    }
}

/// The index of a status code; the last one is for no answer (`None`), and for any other code.
#[tactic(auto, unfolding(crate::specs::Tallies::code_number))]
fn code_number(status: Option<u16>) -> usize
    ensures number { result ≡ number_of_code status }
    ensures within { result < 12 }
{
    let Some(code) = status else {
        return 11;
    };
    match code {
        200 => 0,
        400 => 1,
        404 => 2,
        405 => 3,
        409 => 4,
        411 => 5,
        413 => 6,
        429 => 7,
        431 => 8,
        500 => 9,
        503 => 10,
        _ => 11,
    }
}

#[tactic(auto, unfolding(crate::specs::Tallies::bucket_of))]
fn bucket_of(micros: u64) -> usize
    ensures bucket { result ≡ bucket_spec micros }
    ensures within { result < 12 }
{
    match micros {
        _ if micros <= 100 => 0,
        _ if micros <= 300 => 1,
        _ if micros <= 1_000 => 2,
        _ if micros <= 3_000 => 3,
        _ if micros <= 10_000 => 4,
        _ if micros <= 30_000 => 5,
        _ if micros <= 100_000 => 6,
        _ if micros <= 300_000 => 7,
        _ if micros <= 1_000_000 => 8,
        _ if micros <= 3_000_000 => 9,
        _ if micros <= 10_000_000 => 10,
        _ => 11,
    }
}

/// The outcome to count for a CRL's signature. If the desk has no signer of CRLs, a line `crl` fails, but must not count as a failing signer.
fn crl_outcome_at(signing: CrlSigning, signature_outcome: SignatureOutcome) -> SignatureOutcome
    ensures { result ≡ counted_crl_outcome signing signature_outcome }
{
    match signing {
        CrlSigning::NoSigner => SignatureOutcome::NotRequested,
        _ => signature_outcome,
    }
}

impl Tally {
    /// A tally with nothing counted. `crl_signing` is the kind of the desk's signer of CRLs; `responder_ends` is described at the field.
    pub fn new(crl_signing: CrlSigning, responder_ends: Option<Moment>) -> Tally
        ensures { IsNewTally crl_signing responder_ends result }
    {
        Tally {
            answers: [0; ANSWERS],
            accepted: 0,
            refused: 0,
            faults: 0,
            buckets: [0; BUCKETS],
            micros: 0,
            route_counts: [0; ROUTES],
            route_micros: [0; ROUTES],
            ocsp_signer_failures: 0,
            ocsp_store_failures: 0,
            crls: SignatureCounts::nothing(),
            ocsp: SignatureCounts::nothing(),
            store_failing_since: None,
            requests: None,
            crl_signing,
            responder_ends,
            read: None,
            waits_for_followers: false,
            unconfirmed_since: None,
        }
    }

    /// Replies to commands wait for followers. Keeps the moment of the first command for which one waits.
    pub fn set_unconfirmed(&mut self, since: Option<Moment>)
        ensures { self.new ≡ with_unconfirmed since self.old }
    {
        self.waits_for_followers = true;
        self.unconfirmed_since = since;
    }

    /// Counts an HTTP exchange that was answered at the moment `now`, and took `micros` microseconds.
    pub fn count_exchange(&mut self, now: Moment, exchange: &Exchange, micros: u64)
        ensures { self.new ≡ with_exchange now exchange.now micros self.old }
    {
        let number = route_number(exchange.route);
        bump(
            &mut self.answers,
            number * CODES + code_number(exchange.status),
        );
        self.add_route(number, micros);
        self.add_time(micros);
        self.add_failure(exchange);
        // No HTTP request issues a CRL; `exchange.signature` is that of an OCSP response.
        self.count_outcomes(
            now,
            SignatureOutcome::NotRequested,
            exchange.signature,
            exchange.store,
        );
    }

    /// Counts a line of a control connection that was answered at the moment `now`, and took `micros` microseconds.
    pub fn count_line(&mut self, now: Moment, line: LineEffects, micros: u64)
        ensures { self.new ≡ with_line now line micros self.old }
    {
        self.add_line(line.reply);
        self.add_time(micros);
        self.count_outcomes(now, line.crl, line.ocsp, line.store);
    }

    /// Whether to count the requests for revocation at `now`: they were not counted yet, or not for a minute, or the clock was set back since.
    pub fn wants_requests(&self, now: Moment) -> bool
        ensures { result ≡ wants_counted now self.now.requests }
    {
        match self.requests {
            None => true,
            Some(counted) => now < counted.at || now.secs() - counted.at.secs() >= 60,
        }
    }

    /// Keeps the counts of requests for revocation.
    pub fn set_requests(&mut self, requests: Requests)
        ensures { self.new ≡ with_counted requests self.old }
    {
        self.requests = Some(requests);
    }

    /// Whether a key signs the CRLs.
    pub fn has_crl_key(&self) -> bool
        ensures { result ≡ has_key self.now }
    {
        match self.crl_signing {
            CrlSigning::Key => true,
            _ => false,
        }
    }

    /// What [`keep_crl`](Tally::keep_crl) kept last, if that CRL has this number.
    pub fn read_crl(&self, number: u64) -> Option<ReadCrl>
        ensures { result ≡ read_of number self.now }
    {
        match self.read {
            Some(read) if read.number == number => Some(read),
            _ => None,
        }
    }

    /// Keeps the number of the CRL that was read last, and whether it is signed.
    pub fn keep_crl(&mut self, read: ReadCrl)
        ensures { self.new ≡ with_read read self.old }
    {
        self.read = Some(read);
    }

    fn add_line(&mut self, reply: LineReply)
        ensures { self.new ≡ with_reply_to_line reply self.old }
    {
        match reply {
            LineReply::Accepted => self.accepted = self.accepted.saturating_add(1),
            LineReply::Refused => self.refused = self.refused.saturating_add(1),
            LineReply::Fault => self.faults = self.faults.saturating_add(1),
        }
    }

    fn add_time(&mut self, micros: u64)
        ensures { self.new ≡ timed micros self.old }
    {
        bump(&mut self.buckets, bucket_of(micros));
        self.micros = self.micros.saturating_add(micros);
    }

    fn add_route(&mut self, number: usize, micros: u64)
        requires { number < 12 }
        ensures { self.new ≡ with_route number micros self.old }
    {
        bump(&mut self.route_counts, number);
        add(&mut self.route_micros, number, micros);
    }

    /// If the exchange's OCSP response was internalError, counts it by the cause: the signer, or else the store.
    fn add_failure(&mut self, exchange: &Exchange)
        ensures { self.new ≡ with_failure exchange.now self.old }
    {
        if !has_ocsp_response(exchange) {
            return;
        }
        match (exchange.signature, exchange.store) {
            (SignatureOutcome::Failed, _) => {
                self.ocsp_signer_failures = self.ocsp_signer_failures.saturating_add(1);
            }
            (_, StoreEffect::Failed) => self.ocsp_store_failures = self
                .ocsp_store_failures
                .saturating_add(1),
            _ => {}
        }
    }

    fn count_outcomes(
        &mut self,
        now: Moment,
        crl: SignatureOutcome,
        ocsp: SignatureOutcome,
        store: StoreEffect,
    )
        ensures { self.new ≡ outcomes_counted now crl ocsp store self.old }
    {
        self.crls = self.crls.after(crl_outcome_at(self.crl_signing, crl), now);
        self.ocsp = self.ocsp.after(ocsp, now);
        self.store_failing_since = store_after(self.store_failing_since, store, now);
    }
}
