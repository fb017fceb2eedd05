//! Answers one request, by its route.

ghost use Rattle.std.specs.Prelude.{◌≡◌, IfOk, Ok, OnErr, codes};
ghost use Rattle.reg_office_api.specs.CallSteps.{Runs, Asks, AnswersOcsp, GivesCrl};
ghost use Rattle.reg_office_api.specs.Drafts.{Drafts};
ghost use Rattle.reg_office_api.specs.Calls.{LeadsIn};
ghost use Rattle.reg_office_api.specs.Responses.{Replies};
ghost use Rattle.reg_http_head.specs.Response.{shown};
ghost use Rattle.reg_http.specs.Added.{AddsARequestAtMost};
ghost use Rattle.reg_http.specs.Answers.{BeginsIn, BeginsTo, RespondsIn, RespondsTo};
ghost use Rattle.reg_http.specs.RoutedRequests.{asked, requested_serial};
ghost use Rattle.reg_http.specs.Bodies.{http_refusal, method_not_allowed as only_response, ocsp_reply};
ghost use Rattle.reg_http.specs.Meanings.{request_of_call};
ghost use Rattle.reg_ocsp.specs.Response.{refusal_response};
ghost use Rattle.reg_ocsp.specs.declared.response.RefusalStatus.TheVariants.{TryLater};
ghost use Rattle.reg_http.specs.AnswerEffects.{fault_effects, plain, answer_effects};

use crate::answered::{HttpAnswer, answer_of_fault, begun_answer, ocsp_answer};
use crate::bodies::{OCSP_RESPONSE, der, json_buffer, method_not_allowed, refusal};
use crate::meaning::{Call, Meaning, meaning_of};
use crate::respond::respond;
use http::Method;
use reg_core::{Fault, Ground, Memory, Moment, Serial};
use reg_http_head::Answer;
use reg_io::ReadyOrUnsigned;
use reg_ocsp::{Draft, RefusalStatus};
use reg_office_api::Office;
use std::alloc::Global;

/// Answers one HTTP request at `now`, with at most one call of the office. It adds at most one request for revocation to the records. [`Memory`] if
/// there is no memory to read the HTTP request, or for the buffer of the answer: the office was not called. The program calls [`begin`] instead.
pub fn answer<O: Office>(
    alloc: Global,
    method: &Method,
    target: &str,
    body: &[u8],
    now: Moment,
    office: &mut O,
) -> Result<Answer, Memory>
    ensures ok { IfOk result (λ answer. LeadsIn O.Office
        (λ signers before after.
        RespondsTo (Runs O.signs signers) Asks (AnswersOcsp O.signs signers) GivesCrl now before
        (asked method.now target.now body.now) (shown answer) after
        × AddsARequestAtMost now before after)
        office.old office.new) }
    ensures memory { OnErr result (office.new ≡ office.old) }
    ensures calls { IfOk result (λ answer. RespondsIn O.Office now office.old
        (asked method.now target.now body.now) (shown answer) office.new) }
{
    let buffer = json_buffer(alloc)?;
    match meaning_of(alloc, method, target, body)? {
        Meaning::OcspByPost => Ok(ocsp_answer(buffer, office.ocsp(alloc, now, body))),
        Meaning::OcspByGet(request) => Ok(ocsp_answer(buffer, office.ocsp(alloc, now, &request))),
        Meaning::Other(call) => Ok(respond(alloc, buffer, call, now, office).answer),
    }
}

/// As [`answer`], but an OCSP response that is to be signed is returned as a draft. Any other answer has its effects, which are logged and counted.
pub fn begin<O: Office>(
    alloc: Global,
    method: &Method,
    target: &str,
    body: &[u8],
    now: Moment,
    office: &mut O,
) -> Result<ReadyOrUnsigned<HttpAnswer, Draft>, Memory>
    ensures ok { IfOk result (λ begun. LeadsIn O.Office
        (λ signers before after.
        BeginsTo (Runs O.signs signers) Asks (Replies O.signs signers) GivesCrl (Drafts signers) now
        before
        (asked method.now target.now body.now) begun after
        × AddsARequestAtMost now before after)
        office.old office.new) }
    ensures memory { OnErr result (office.new ≡ office.old) }
    ensures calls { IfOk result (λ begun. BeginsIn O.Office now office.old
        (asked method.now target.now body.now) begun office.new) }
{
    let buffer = json_buffer(alloc)?;
    match meaning_of(alloc, method, target, body)? {
        Meaning::OcspByPost => Ok(begun_answer(buffer, office.begin_ocsp(alloc, now, body))),
        Meaning::OcspByGet(request) => Ok(begun_answer(
            buffer,
            office.begin_ocsp(alloc, now, &request),
        )),
        Meaning::Other(call) => Ok(ReadyOrUnsigned::Ready(respond(
            alloc, buffer, call, now, office,
        ))),
    }
}

/// The serial number of a request for revocation, by which `desk open` limits such requests. `None` for any other request, and for one with an
/// unknown ground, which the register refuses anyway. [`Memory`] if out of memory.
pub fn serial_of(
    alloc: Global,
    method: &Method,
    target: &str,
    body: &[u8],
) -> Result<Option<Serial>, Memory>
    ensures { IfOk result (λ serial. serial ≡ requested_serial (asked method.now target.now body.now)) }
{
    let meaning = meaning_of(alloc, method, target, body)?;
    match &meaning {
        Meaning::Other(call) => Ok(serial_in(*call)),
        _ => Ok(None),
    }
}

fn serial_in(call: Call) -> Option<Serial>
    ensures { result ≡ requested_serial (request_of_call call) }
{
    let Call::Request { serial, word } = call else {
        return None;
    };
    match Ground::read(word.as_bytes()) {
        Ok(_) => Some(serial),
        Err(_) => None,
    }
}

/// The answer to a request that ended in this fault, with the line of the fault. [`Memory`] if out of memory.
pub fn report_fault(alloc: Global, fault: Fault) -> Result<HttpAnswer, Memory>
    ensures { IfOk result (λ answered. answer_effects answered ≡ fault_effects fault) }
{
    Ok(answer_of_fault(json_buffer(alloc)?, fault))
}

/// The answer to a request that is refused with this status code, without a call of the office. [`Memory`] if out of memory.
pub fn refuse(alloc: Global, status: u16) -> Result<HttpAnswer, Memory>
    ensures { IfOk result (λ answered. answer_effects answered ≡ plain (http_refusal status)) }
{
    Ok(HttpAnswer::plain(refusal(json_buffer(alloc)?, status)))
}

/// The answer to another method than GET at a route that has only GET (RFC 9110 15.5.6). [`Memory`] if out of memory.
pub fn only_get(alloc: Global) -> Result<HttpAnswer, Memory>
    ensures { IfOk result (λ answered. answer_effects answered ≡ plain (only_response (codes "GET"))) }
{
    Ok(HttpAnswer::plain(method_not_allowed(json_buffer(alloc)?, "GET")))
}

/// The answer to an OCSP request that can't be answered now: tryLater (RFC 6960 2.3), without a call of the office. [`Memory`] if out of memory.
pub fn try_later(alloc: Global) -> Result<HttpAnswer, Memory>
    ensures { IfOk result (λ answered. answer_effects answered ≡ plain (ocsp_reply (Ok (refusal_response TryLater)))) }
{
    match Vec::from_slice(alloc, &reg_ocsp::refusal(RefusalStatus::TryLater)) {
        Ok(bytes) => Ok(HttpAnswer::plain(der(OCSP_RESPONSE, bytes))),
        Err(_) => Err(Memory),
    }
}
