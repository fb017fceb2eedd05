//! JSON bodies for a status, the counts, a new request (their memory is reserved before the office is called) and an error. Answers with JSON or DER.

ghost use Rattle.std.specs.Prelude.{◌≡◌, ◌≤◌, [], IfOk, length, vec_capacity};
ghost use Rattle.reg_http_head.specs.Response.{shown};
ghost use Rattle.reg_http.specs.Bodies.{counts_text, der, due_text, error_text, diverged_response, fault_response, fault_status, json, method_not_allowed, http_refusal as refusal_of, status_text};

use reg_core::{Counts, Decimal, Fault, Memory, Moment, Refusal, Status};
use reg_http_head::{Answer, put, status};
use std::alloc::Global;

/// The media types of JSON (RFC 8259 11), of an OCSP response (RFC 6960 A.2) and of a CRL (RFC 2585 4.2).
const JSON: &str = "application/json";

pub(crate) const OCSP_RESPONSE: &str = "application/ocsp-response";

pub(crate) const PKIX_CRL: &str = "application/pkix-crl";

/// Reserves 256 bytes, enough for the longest of these JSON bodies, which are written by functions `put_..`. [`Memory`] if out of memory.
pub(crate) fn json_buffer(alloc: Global) -> Result<Vec<u8>, Memory>
    ensures empty { IfOk result (λ buffer. buffer.items ≡ []) }
    ensures buffer { IfOk result (λ buffer. 256 ≤ vec_capacity buffer) }
{
    Vec::with_capacity(alloc, 256).map_err(|_| Memory)
}

/// `{"error":"LINE"}`: LINE is the line of a refusal or a fault (such as `E22 syntax`), a status code, or `diverged`: at most 64 bytes.
#[tactic(auto, unfolding(crate::specs::Bodies::error_text))]
fn put_error(buffer: &mut Vec<u8>, line: &[u8])
    requires empty { buffer.old.items ≡ [] }
    requires buffer { 256 ≤ vec_capacity buffer.old }
    requires short { length line.now ≤ 64 }
    ensures { buffer.new.items ≡ error_text line.now }
{
    put(buffer, b"{\"error\":\"");
    put(buffer, line);
    put(buffer, b"\"}");
}

#[tactic(auto, unfolding(crate::specs::Bodies::status_text))]
pub(crate) fn put_status(buffer: &mut Vec<u8>, status: Status)
    requires empty { buffer.old.items ≡ [] }
    requires buffer { 256 ≤ vec_capacity buffer.old }
    ensures { buffer.new.items ≡ status_text status }
{
    match status {
        Status::Unknown => put(buffer, b"{\"status\":\"unknown\"}"),
        Status::Good => put(buffer, b"{\"status\":\"good\"}"),
        Status::Expired => put(buffer, b"{\"status\":\"expired\"}"),
        Status::Revoked { at, reason } => {
            put(buffer, b"{\"at\":\"");
            put(buffer, &at.text());
            put(buffer, b"\",\"reason\":");
            put(buffer, Decimal::of(u64::from(reason)).as_bytes());
            put(buffer, b",\"status\":\"revoked\"}");
        }
    }
}

#[tactic(auto, unfolding(crate::specs::Bodies::counts_text))]
pub(crate) fn put_counts(buffer: &mut Vec<u8>, counts: Counts)
    requires empty { buffer.old.items ≡ [] }
    requires buffer { 256 ≤ vec_capacity buffer.old }
    ensures { buffer.new.items ≡ counts_text counts }
{
    put(buffer, b"{\"expired\":");
    put(buffer, Decimal::of(counts.expired).as_bytes());
    put(buffer, b",\"good\":");
    put(buffer, Decimal::of(counts.good).as_bytes());
    put(buffer, b",\"revoked\":");
    put(buffer, Decimal::of(counts.revoked).as_bytes());
    put(buffer, b"}");
}

#[tactic(auto, unfolding(crate::specs::Bodies::due_text))]
pub(crate) fn put_due(buffer: &mut Vec<u8>, id: u64, due: Moment)
    requires empty { buffer.old.items ≡ [] }
    requires buffer { 256 ≤ vec_capacity buffer.old }
    ensures { buffer.new.items ≡ due_text id due }
{
    put(buffer, b"{\"due\":\"");
    put(buffer, &due.text());
    put(buffer, b"\",\"request\":");
    put(buffer, Decimal::of(id).as_bytes());
    put(buffer, b"}");
}

/// An answer with this status code and a JSON body.
#[tactic(auto, unfolding(crate::specs::Bodies::json))]
pub fn json(code: u16, body: Vec<u8>) -> Answer
    ensures { shown result ≡ json code body.items }
{
    Answer {
        status: code,
        kind: JSON,
        allow: None,
        body,
    }
}

/// An answer of status code 200 with a body that isn't JSON: DER of an OCSP response or a CRL, or a page of the changes feed. `kind`: its media type.
#[tactic(auto, unfolding(crate::specs::Bodies::der))]
pub(crate) fn der(kind: &'static str, body: Vec<u8>) -> Answer
    requires { length kind.now ≤ 64 }
    ensures { shown result ≡ der kind.now body.items }
{
    Answer {
        status: status::OK,
        kind,
        allow: None,
        body,
    }
}

/// The answer that refuses a request with a status code, such as 404, which is in the body, too: `{"error":"404"}`.
#[tactic(auto, unfolding(crate::specs::Bodies::http_refusal))]
pub(crate) fn refusal(mut buffer: Vec<u8>, code: u16) -> Answer
    requires empty { buffer.items ≡ [] }
    requires buffer { 256 ≤ vec_capacity buffer }
    ensures { shown result ≡ refusal_of code }
{
    put_error(&mut buffer, Decimal::of(u64::from(code)).as_bytes());
    json(code, buffer)
}

/// The answer to a request by another method than `method`, the only one that its route has (RFC 9110 15.5.6).
#[tactic(auto, unfolding(crate::specs::Bodies::method_not_allowed))]
pub(crate) fn method_not_allowed(mut buffer: Vec<u8>, method: &'static str) -> Answer
    requires empty { buffer.items ≡ [] }
    requires buffer { 256 ≤ vec_capacity buffer }
    requires short { length method.now ≤ 64 }
    ensures { shown result ≡ method_not_allowed method.now }
{
    put_error(
        &mut buffer,
        Decimal::of(u64::from(status::METHOD_NOT_ALLOWED)).as_bytes(),
    );
    Answer {
        status: status::METHOD_NOT_ALLOWED,
        kind: JSON,
        allow: Some(method),
        body: buffer,
    }
}

/// The answer to a client of the changes feed whose copy has another history than this register: the positions of that copy are not in this history.
#[tactic(auto, unfolding(crate::specs::Bodies::diverged_response))]
pub(crate) fn diverged_answer(mut buffer: Vec<u8>) -> Answer
    requires empty { buffer.items ≡ [] }
    requires buffer { 256 ≤ vec_capacity buffer }
    ensures { shown result ≡ diverged_response }
{
    put_error(&mut buffer, b"diverged");
    json(status::CONFLICT, buffer)
}

fn status_of(fault: Fault) -> u16
    ensures { result ≡ fault_status fault }
{
    match fault {
        Fault::Refused(Refusal::Syntax) => status::BAD_REQUEST,
        Fault::Refused(Refusal::NoCrl) => status::NOT_FOUND,
        Fault::Refused(_) => status::CONFLICT,
        _ => status::INTERNAL_SERVER_ERROR,
    }
}

#[tactic(auto, unfolding(crate::specs::Bodies::fault_response))]
pub(crate) fn fault_answer(mut buffer: Vec<u8>, fault: Fault) -> Answer
    requires empty { buffer.items ≡ [] }
    requires buffer { 256 ≤ vec_capacity buffer }
    ensures { shown result ≡ fault_response fault }
{
    put_error(&mut buffer, fault.line().as_bytes());
    json(status_of(fault), buffer)
}
