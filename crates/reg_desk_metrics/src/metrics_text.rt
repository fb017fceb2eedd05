//! The metrics of an open register, in the text format of Prometheus, version 0.0.4. Constants such as `CLOCK` are names of series, some of them with
//! HELP and TYPE lines before. `LABEL_END` ends a name whose label's value is appended.

ghost use Rattle.std.specs.Prelude.{◌≡◌, ◌++◌, IfOk, OnOk};
ghost use Rattle.reg_desk_metrics.specs.Metrics.{answer_text, answers_text, seconds_behind as behind_spec, bucket_name as bucket_named, bucket_text, buckets_text, certificates_text, clock_text, code_name as code_named, connections_text, crl_text as crl_text_spec, issued_text, last_text, lines_text, lost_text, metrics_text, numbers_text, register_text, requests_text, rows_text, route_name as route_named, route_text, routes_text, build_text, failures_text, responder_text, seconds_text, signers_text, signed_text, sum_of};

use crate::numbers::{ConnectionTotals, Numbers, NumbersResult, Requests};
use crate::samples::{put_moment, put_sample, put_seconds};
use crate::series_names::{
    ACCEPTED, ACCEPTED_LINES, ANSWER, ANSWER_CODE, ANSWERED, BEHIND, BROKEN, BUILD, CAP,
    CERTIFICATE_ROWS, CLOCK, COUNTED, CRL_AGE, CRL_DUE, CRL_FAILED, CRL_FAILING, CRL_LAST,
    CRL_LAST_FAILED, CRL_NUMBER, CRL_ROWS, CRL_SIGNED, EVICTED, EXPIRED, FAULTS, GOOD, LABEL_END,
    LAST_COMMAND, LATE, NEXT_UPDATE, NO_MEMORY, OCSP_ERRORS_BY_SIGNER, OCSP_ERRORS_BY_STORE,
    OCSP_FAILED, OCSP_FAILING, OCSP_LAST, OCSP_LAST_FAILED, OCSP_SIGNED, OPEN, OPEN_CONTROL,
    OPEN_HTTP, ORDER_ROWS, OVERDUE, READABLE, REFUSED_LINES, REQUEST_ROWS, RESPONDER_ENDS, REVOKED,
    ROUTE_COUNT, ROUTE_SECONDS, ROUTE_SUM, SECONDS, SECONDS_COUNT, SECONDS_SUM, SECONDS_TO,
    STORE_FAILING, SUBSCRIBER_ROWS, THIS_UPDATE,
};
use crate::signature_outcomes::SignatureCounts;
use crate::tally::{ANSWERS, BUCKETS, CODES, ROUTES, Tally};
use reg_core::{Counts, CrlRow, Fault, Moment, Refusal};
use reg_office_api::TableSizes;
use std::alloc::{AllocError, Global};

/// More than the usual length of the text, some 9,000 bytes: so it is rarely moved to a larger buffer.
const INITIAL_CAPACITY: usize = 12_288;

/// The metrics of an open register at `now`: the program's version, the register's numbers (`found`), the desk's counters (`tally`), its connections.
pub fn metrics(
    alloc: Global,
    version: &str,
    now: Moment,
    found: &NumbersResult,
    tally: &Tally,
    connection_totals: ConnectionTotals,
) -> Result<Vec<u8>, AllocError>
    ensures { IfOk result (λ text.
        text.items ≡ metrics_text version.now now found.now tally.now connection_totals) }
{
    let mut text = Vec::with_capacity(alloc, INITIAL_CAPACITY)?;
    put_build(&mut text, version)?;
    put_clock(&mut text, now, found)?;
    put_register(&mut text, now, found)?;
    put_requests(&mut text, tally.requests)?;
    put_answers(&mut text, &tally.answers)?;
    put_lines(&mut text, tally)?;
    put_signed(&mut text, tally.crls, tally.ocsp)?;
    put_last(&mut text, tally.crls, tally.ocsp)?;
    put_failing_since(&mut text, tally)?;
    put_connections(&mut text, connection_totals)?;
    put_lost(&mut text, connection_totals)?;
    put_times(&mut text, tally)?;
    put_routes(&mut text, tally)?;
    put_failures(&mut text, tally)?;
    put_responder(&mut text, tally.responder_ends)?;
    Ok(text)
}

#[tactic(auto, unfolding(crate::specs::Metrics::build_text))]
fn put_build(text: &mut Vec<u8>, version: &str) -> Result<(), AllocError>
    ensures { OnOk result (text.new.items ≡ text.old.items ++ build_text version.now) }
{
    text.extend_from_slice(BUILD.as_bytes())?;
    text.extend_from_slice(version.as_bytes())?;
    put_sample(text, LABEL_END, 1)
}

/// How many seconds the clock is behind the last accepted command; 0 if it isn't behind. If it is, the query for `found` was refused (`ClockBack`).
fn behind(now: Moment, found: &NumbersResult) -> u64
    ensures { result ≡ behind_spec now found.now }
{
    match *found {
        Err(Fault::Refused(Refusal::ClockBack { last })) => last.secs().saturating_sub(now.secs()),
        _ => 0,
    }
}

#[tactic(auto, unfolding(crate::specs::Metrics::clock_text))]
fn put_clock(text: &mut Vec<u8>, now: Moment, found: &NumbersResult) -> Result<(), AllocError>
    ensures { OnOk result (text.new.items ≡ text.old.items ++ clock_text now found.now) }
{
    put_sample(text, CLOCK, now.secs())?;
    put_sample(text, BEHIND, behind(now, found))
}

#[tactic(auto, unfolding(crate::specs::Metrics::register_text))]
fn put_register(text: &mut Vec<u8>, now: Moment, found: &NumbersResult) -> Result<(), AllocError>
    ensures { OnOk result (text.new.items ≡ text.old.items ++ register_text now found.now) }
{
    match found {
        Ok(numbers) => put_numbers(text, now, numbers),
        Err(_) => put_sample(text, READABLE, 0),
    }
}

#[tactic(auto, unfolding(crate::specs::Metrics::numbers_text))]
fn put_numbers(text: &mut Vec<u8>, now: Moment, numbers: &Numbers) -> Result<(), AllocError>
    ensures { OnOk result (text.new.items ≡ text.old.items ++ numbers_text now numbers.now) }
{
    put_sample(text, READABLE, 1)?;
    put_certificates(text, numbers.counts)?;
    put_rows(text, numbers.summary.rows, numbers.summary.cap)?;
    put_moment(text, LAST_COMMAND, Some(numbers.summary.last))?;
    put_crl(text, now, numbers.summary.latest, numbers.summary.crl_life)?;
    put_moment(text, CRL_DUE, numbers.due)?;
    Ok(())
}

#[tactic(auto, unfolding(crate::specs::Metrics::certificates_text))]
fn put_certificates(text: &mut Vec<u8>, counts: Counts) -> Result<(), AllocError>
    ensures { OnOk result (text.new.items ≡ text.old.items ++ certificates_text counts) }
{
    put_sample(text, GOOD, counts.good)?;
    put_sample(text, REVOKED, counts.revoked)?;
    put_sample(text, EXPIRED, counts.expired)
}

#[tactic(auto, unfolding(crate::specs::Metrics::rows_text))]
fn put_rows(text: &mut Vec<u8>, rows: TableSizes, cap: u64) -> Result<(), AllocError>
    ensures { OnOk result (text.new.items ≡ text.old.items ++ rows_text rows cap) }
{
    put_sample(text, SUBSCRIBER_ROWS, rows.subscribers)?;
    put_sample(text, ORDER_ROWS, rows.orders)?;
    put_sample(text, CERTIFICATE_ROWS, rows.certificates)?;
    put_sample(text, REQUEST_ROWS, rows.requests)?;
    put_sample(text, CRL_ROWS, rows.crls)?;
    put_sample(text, CAP, cap)
}

fn put_crl(
    text: &mut Vec<u8>,
    now: Moment,
    latest: Option<CrlRow>,
    life: u64,
) -> Result<(), AllocError>
    ensures { OnOk result (text.new.items ≡ text.old.items ++ crl_text_spec now latest life) }
{
    match latest {
        Some(crl) => put_issued(text, now, crl, life),
        None => put_sample(text, CRL_NUMBER, 0),
    }
}

#[tactic(auto, unfolding(crate::specs::Metrics::issued_text))]
fn put_issued(text: &mut Vec<u8>, now: Moment, crl: CrlRow, life: u64) -> Result<(), AllocError>
    ensures { OnOk result (text.new.items ≡ text.old.items ++ issued_text now crl life) }
{
    let this_update = crl.this_update.secs();
    put_sample(text, CRL_NUMBER, crl.number)?;
    put_sample(text, THIS_UPDATE, this_update)?;
    put_sample(text, NEXT_UPDATE, this_update.saturating_add(life))?;
    put_sample(text, CRL_AGE, now.secs().saturating_sub(this_update))?;
    Ok(())
}

#[tactic(auto, unfolding(crate::specs::Metrics::requests_text))]
fn put_requests(text: &mut Vec<u8>, requests: Option<Requests>) -> Result<(), AllocError>
    ensures { OnOk result (text.new.items ≡ text.old.items ++ requests_text requests) }
{
    let Some(counted) = requests else {
        // The requests were not counted yet.
        return Ok(());
    };
    put_sample(text, OPEN, counted.waiting)?;
    put_sample(text, OVERDUE, counted.overdue)?;
    put_moment(text, COUNTED, Some(counted.at))?;
    Ok(())
}

/// The path of a route, by the route's index in the tally.
#[tactic(auto, unfolding(crate::specs::Metrics::route_name))]
fn route_name(index: usize) -> &'static str
    ensures { result.now ≡ route_named index }
{
    match index {
        0 => "/ocsp",
        1 => "/ocsp/{request}",
        2 => "/crl",
        3 => "/crl/{number}",
        4 => "/status/{serial}",
        5 => "/counts",
        6 => "/requests",
        7 => "/list/{word}",
        8 => "/health",
        9 => "/metrics",
        10 => "/changes",
        _ => "other",
    }
}

/// An HTTP status, by its index in the tally; `none` if no answer was sent, or one with another status.
#[tactic(auto, unfolding(crate::specs::Metrics::code_name))]
fn code_name(index: usize) -> &'static str
    ensures { result.now ≡ code_named index }
{
    match index {
        0 => "200",
        1 => "400",
        2 => "404",
        3 => "405",
        4 => "409",
        5 => "411",
        6 => "413",
        7 => "429",
        8 => "431",
        9 => "500",
        10 => "503",
        _ => "none",
    }
}

fn put_answers(text: &mut Vec<u8>, answers: &[u64; ANSWERS]) -> Result<(), AllocError>
    ensures { OnOk result (text.new.items ≡ text.old.items ++ answers_text answers.now) }
{
    text.extend_from_slice(ANSWERED.as_bytes())?;
    for index in 0..ANSWERS {
        put_answer(text, index, answers[index])?;
    }
    Ok(())
}

/// Appends the count of a pair of a route and a status; `index` is that of `Tally::answers`. If the count is 0, as for most pairs, appends nothing.
fn put_answer(text: &mut Vec<u8>, index: usize, count: u64) -> Result<(), AllocError>
    ensures { OnOk result (text.new.items ≡ text.old.items ++ answer_text index count) }
{
    if count == 0 {
        return Ok(());
    }
    text.extend_from_slice(ANSWER.as_bytes())?;
    text.extend_from_slice(route_name(index / CODES).as_bytes())?;
    text.extend_from_slice(ANSWER_CODE.as_bytes())?;
    text.extend_from_slice(code_name(index % CODES).as_bytes())?;
    put_sample(text, LABEL_END, count)
}

#[tactic(auto, unfolding(crate::specs::Metrics::lines_text))]
fn put_lines(text: &mut Vec<u8>, tally: &Tally) -> Result<(), AllocError>
    ensures { OnOk result (text.new.items ≡ text.old.items ++ lines_text tally.now) }
{
    put_sample(text, ACCEPTED_LINES, tally.accepted)?;
    put_sample(text, REFUSED_LINES, tally.refused)?;
    put_sample(text, FAULTS, tally.faults)
}

#[tactic(auto, unfolding(crate::specs::Metrics::signed_text))]
fn put_signed(
    text: &mut Vec<u8>,
    crls: SignatureCounts,
    ocsp: SignatureCounts,
) -> Result<(), AllocError>
    ensures { OnOk result (text.new.items ≡ text.old.items ++ signed_text crls ocsp) }
{
    put_sample(text, CRL_SIGNED, crls.received)?;
    put_sample(text, OCSP_SIGNED, ocsp.received)?;
    put_sample(text, CRL_FAILED, crls.failed)?;
    put_sample(text, OCSP_FAILED, ocsp.failed)
}

#[tactic(auto, unfolding(crate::specs::Metrics::last_text))]
fn put_last(
    text: &mut Vec<u8>,
    crls: SignatureCounts,
    ocsp: SignatureCounts,
) -> Result<(), AllocError>
    ensures { OnOk result (text.new.items ≡ text.old.items ++ last_text crls ocsp) }
{
    put_moment(text, CRL_LAST, crls.last)?;
    put_moment(text, OCSP_LAST, ocsp.last)?;
    put_moment(text, CRL_LAST_FAILED, crls.last_failed)?;
    put_moment(text, OCSP_LAST_FAILED, ocsp.last_failed)
}

#[tactic(auto, unfolding(crate::specs::Metrics::signers_text))]
fn put_failing_since(text: &mut Vec<u8>, tally: &Tally) -> Result<(), AllocError>
    ensures { OnOk result (text.new.items ≡ text.old.items ++ signers_text tally.now) }
{
    put_moment(text, CRL_FAILING, tally.crls.failing_since)?;
    put_moment(text, OCSP_FAILING, tally.ocsp.failing_since)?;
    put_moment(text, STORE_FAILING, tally.store_failing_since)
}

#[tactic(auto, unfolding(crate::specs::Metrics::connections_text))]
fn put_connections(
    text: &mut Vec<u8>,
    connection_totals: ConnectionTotals,
) -> Result<(), AllocError>
    ensures { OnOk result (text.new.items ≡ text.old.items ++ connections_text connection_totals) }
{
    put_sample(text, OPEN_HTTP, connection_totals.open_http)?;
    put_sample(text, OPEN_CONTROL, connection_totals.open_control)?;
    put_sample(text, ACCEPTED, connection_totals.accepted)
}

#[tactic(auto, unfolding(crate::specs::Metrics::lost_text))]
fn put_lost(text: &mut Vec<u8>, connection_totals: ConnectionTotals) -> Result<(), AllocError>
    ensures { OnOk result (text.new.items ≡ text.old.items ++ lost_text connection_totals) }
{
    put_sample(text, BROKEN, connection_totals.broken)?;
    put_sample(text, LATE, connection_totals.late)?;
    put_sample(text, EVICTED, connection_totals.evicted)?;
    put_sample(text, NO_MEMORY, connection_totals.memory)
}

/// The upper bound, in seconds, of the bucket of times with this index in the tally.
#[tactic(auto, unfolding(crate::specs::Metrics::bucket_name))]
fn bucket_name(index: usize) -> &'static str
    ensures { result.now ≡ bucket_named index }
{
    match index {
        0 => "0.0001",
        1 => "0.0003",
        2 => "0.001",
        3 => "0.003",
        4 => "0.01",
        5 => "0.03",
        6 => "0.1",
        7 => "0.3",
        8 => "1",
        9 => "3",
        10 => "10",
        _ => "+Inf",
    }
}

#[tactic(auto, unfolding(crate::specs::Metrics::seconds_text))]
fn put_times(text: &mut Vec<u8>, tally: &Tally) -> Result<(), AllocError>
    ensures { OnOk result (text.new.items ≡ text.old.items ++ seconds_text tally.now) }
{
    text.extend_from_slice(SECONDS.as_bytes())?;
    let count = put_buckets(text, &tally.buckets)?;
    put_seconds(text, SECONDS_SUM, tally.micros)?;
    put_sample(text, SECONDS_COUNT, count)
}

/// Appends each bucket. Its value is the sum of the counts up to it, because buckets of Prometheus are cumulative. Returns the sum of all counts.
fn put_buckets(text: &mut Vec<u8>, buckets: &[u64; BUCKETS]) -> Result<u64, AllocError>
    ensures { IfOk result (λ count. (count ≡ sum_of buckets.now 12)
        × (text.new.items ≡ text.old.items ++ buckets_text buckets.now 12)) }
{
    let mut sum: u64 = 0;
    for index in 0..BUCKETS {
        sum = sum.saturating_add(buckets[index]);
        put_bucket(text, bucket_name(index), sum)?;
    }
    Ok(sum)
}

fn put_bucket(text: &mut Vec<u8>, name: &str, count: u64) -> Result<(), AllocError>
    ensures { OnOk result (text.new.items ≡ text.old.items ++ bucket_text name.now count) }
{
    text.extend_from_slice(SECONDS_TO.as_bytes())?;
    text.extend_from_slice(name.as_bytes())?;
    put_sample(text, LABEL_END, count)
}

fn put_routes(text: &mut Vec<u8>, tally: &Tally) -> Result<(), AllocError>
    ensures { OnOk result (text.new.items ≡ text.old.items ++ routes_text tally.now) }
{
    text.extend_from_slice(ROUTE_SECONDS.as_bytes())?;
    for index in 0..ROUTES {
        put_route(
            text,
            route_name(index),
            tally.route_micros[index],
            tally.route_counts[index],
        )?;
    }
    Ok(())
}

#[tactic(auto, unfolding(crate::specs::Metrics::route_text))]
fn put_route(text: &mut Vec<u8>, name: &str, micros: u64, count: u64) -> Result<(), AllocError>
    ensures { OnOk result (text.new.items ≡ text.old.items ++ route_text name.now micros count) }
{
    text.extend_from_slice(ROUTE_SUM.as_bytes())?;
    text.extend_from_slice(name.as_bytes())?;
    put_seconds(text, LABEL_END, micros)?;
    text.extend_from_slice(ROUTE_COUNT.as_bytes())?;
    text.extend_from_slice(name.as_bytes())?;
    put_sample(text, LABEL_END, count)
}

#[tactic(auto, unfolding(crate::specs::Metrics::failures_text))]
fn put_failures(text: &mut Vec<u8>, tally: &Tally) -> Result<(), AllocError>
    ensures { OnOk result (text.new.items ≡ text.old.items ++ failures_text tally.now) }
{
    put_sample(text, OCSP_ERRORS_BY_SIGNER, tally.ocsp_signer_failures)?;
    put_sample(text, OCSP_ERRORS_BY_STORE, tally.ocsp_store_failures)
}

fn put_responder(text: &mut Vec<u8>, ends: Option<Moment>) -> Result<(), AllocError>
    ensures { OnOk result (text.new.items ≡ text.old.items ++ responder_text ends) }
{
    match ends {
        Some(at) => put_sample(text, RESPONDER_ENDS, at.secs()),
        None => Ok(()),
    }
}
