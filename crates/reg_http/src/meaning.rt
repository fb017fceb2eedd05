//! Reads what an HTTP request asks for, from its method, target and body, before the office is called.

ghost use Rattle.std.specs.Prelude.{◌≡◌, ℕ, List, IfOk, Some, codes, option_map, option_and_then};
ghost use Rattle.reg_core.specs.Number.{number_of};
ghost use Rattle.reg_core.specs.Serial.{serial_of};
ghost use Rattle.reg_core.specs.Label.{label_of as label_in};
ghost use Rattle.serde_json.specs.Errors.{IsMemory};
ghost use Rattle.serde_json.specs.View.{view};
ghost use Rattle.reg_http.specs.RoutedRequests.{crl_of, status_of, asked as query_by, request_at_route, revocation_request, decoded as decoded_in, is_rooted as is_rooted_text, json_of, or_malformed, or_unreadable, string_at as text_at, wanted as wanted_by, wanted_in as wanted_of};
ghost use Rattle.reg_http.specs.Meanings.{request_of_call, request_of_meaning};

use crate::paths::{Found, find_route};
use crate::route::{Route, path_of};
use base64::DecodeAllocError;
use base64::engine::general_purpose::STANDARD;
use http::Method;
use percent_encoding::percent_decode;
use reg_core::{Label, Memory, Serial, read_number};
use reg_http_head::status;
use serde_json::{Category, Error, Value};
use std::alloc::Global;
use std::str;

/// What an HTTP request asks for: an OCSP request in its body, one that was decoded from its path, or another call.
#[derive(Drop)]
pub(crate) enum Meaning {
    OcspByPost,
    OcspByGet(Vec<u8>),
    Other(Call),
}

/// A call of the office other than an OCSP request, or why there is no call.
#[derive(Clone, Copy)]
pub(crate) enum Call {
    /// The request is refused with this status code.
    Refused(u16),
    /// The route has only the method GET, and the request another one. `OnlyPost`: the same for POST.
    OnlyGet,
    OnlyPost,
    /// A CRL's number, a serial number or a JSON body can't be read: the answer is 400 with the line `E22`.
    Unreadable,
    /// The OCSP request in the path can't be decoded from base64: the answer is an OCSPResponse of status malformedRequest.
    Malformed,
    /// The CRL with this number; `None`: the latest one.
    Crl(Option<u64>),
    Status(Serial),
    Counts,
    /// A request for revocation. `word` names its ground, such as `key-compromise`; the office checks whether there is such a ground.
    Request { serial: Serial, word: Label },
}

fn is_origin_form(target: &str) -> bool
    ensures { result ≡ is_rooted_text target.now }
{
    target.starts_with('/')
}

/// Decodes the OCSP request in a path: percent-decoded, then base64 (RFC 6960 A.1).
#[tactic(auto, unfolding(crate::specs::RoutedRequests::decoded))]
fn decoded(alloc: Global, text: &[u8]) -> Result<Meaning, Memory>
    ensures { IfOk result (λ part.
        (body : List ℕ) → request_of_meaning body part ≡ or_malformed (decoded_in text.now)) }
{
    let mut percent_decoded = Vec::new(alloc);
    if percent_decode(text)
        .append_to(&mut percent_decoded)
        .is_err()
    {
        return Err(Memory);
    }
    match STANDARD.decode(alloc, percent_decoded.as_slice()) {
        Ok(request) => Ok(Meaning::OcspByGet(request)),
        Err(DecodeAllocError::DecodeError(_)) => Ok(Meaning::Other(Call::Malformed)),
        Err(DecodeAllocError::OutOfMemory) => Err(Memory),
    }
}

fn crl_call(text: &[u8]) -> Call
    ensures { request_of_call result ≡ or_unreadable (λ n. crl_of (Some n)) (number_of text.now) }
{
    match read_number(text) {
        Some(number) => Call::Crl(Some(number)),
        None => Call::Unreadable,
    }
}

fn status_call(text: &[u8]) -> Call
    ensures { request_of_call result ≡ or_unreadable status_of (serial_of text.now) }
{
    match Serial::read(text) {
        Some(serial) => Call::Status(serial),
        None => Call::Unreadable,
    }
}

fn string_at<'v>(value: &'v Value, name: &str) -> Option<&'v str>
    ensures { option_map (λ text. text.now) result ≡ text_at name.now (view value.entry.now) }
{
    value.get(name)?.as_str()
}

fn serial_in(value: &Value) -> Option<Serial>
    ensures { result ≡ option_and_then serial_of (text_at (codes "serial") (view value.now)) }
{
    Serial::read(string_at(value, "serial")?.as_bytes())
}

fn ground_in(value: &Value) -> Option<Label>
    ensures { result ≡ option_and_then label_in (text_at (codes "ground") (view value.now)) }
{
    Label::of(string_at(value, "ground")?.as_bytes())
}

#[tactic(auto, unfolding(crate::specs::RoutedRequests::wanted_in))]
fn request_in(value: &Value) -> Call
    ensures { request_of_call result ≡ revocation_request (wanted_of (view value.now)) }
{
    match serial_in(value) {
        Some(serial) => match ground_in(value) {
            Some(word) => Call::Request { serial, word },
            None => Call::Unreadable,
        },
        None => Call::Unreadable,
    }
}

fn unreadable(error: &Error) -> Result<Meaning, Memory>
    ensures { IfOk result (λ part. ¬ (IsMemory error.now) × (part ≡ Meaning.Other Call.Unreadable)) }
{
    match error.classify() {
        Category::Memory => Err(Memory),
        _ => Ok(Meaning::Other(Call::Unreadable)),
    }
}

/// The meaning of a request for revocation with this body, such as `{"serial":"05","ground":"key-compromise"}`.
#[tactic(auto, unfolding(crate::specs::RoutedRequests::json_of))]
fn revocation_meaning(alloc: Global, body: &[u8]) -> Result<Meaning, Memory>
    ensures { IfOk result (λ part.
        (posted : List ℕ) → request_of_meaning posted part ≡ revocation_request (wanted_by body.now)) }
{
    let Ok(text) = str::from_utf8(body) else {
        return Ok(Meaning::Other(Call::Unreadable));
    };
    match Value::from_str(alloc, text) {
        Ok(value) => Ok(Meaning::Other(request_in(&value))),
        Err(error) => unreadable(&error),
    }
}

fn meaning_at(
    alloc: Global,
    method: &Method,
    found: Found<'_>,
    body: &[u8],
) -> Result<Meaning, Memory>
    ensures { IfOk result (λ part.
        request_of_meaning body.now part
        ≡ request_at_route method.now found.entry.route found.entry.rest.now body.now) }
{
    let is_get = method.as_str() == "GET";
    let is_post = method.as_str() == "POST";
    match found.route {
        // `desk open` answers the first four routes before it calls this. `desk serve` (no control socket) lacks them. `Other`: any other path.
        Route::List | Route::Health | Route::Metrics | Route::Changes | Route::Other => {
            Ok(Meaning::Other(Call::Refused(status::NOT_FOUND)))
        }
        Route::Ocsp if is_post => Ok(Meaning::OcspByPost),
        Route::Requests if is_post => revocation_meaning(alloc, body),
        Route::Ocsp | Route::Requests => Ok(Meaning::Other(Call::OnlyPost)),
        _ if !is_get => Ok(Meaning::Other(Call::OnlyGet)),
        Route::OcspRest => decoded(alloc, found.rest),
        Route::Crl => Ok(Meaning::Other(Call::Crl(None))),
        Route::CrlNumber => Ok(Meaning::Other(crl_call(found.rest))),
        Route::Status => Ok(Meaning::Other(status_call(found.rest))),
        Route::Counts => Ok(Meaning::Other(Call::Counts)),
    }
}

pub(crate) fn meaning_of(
    alloc: Global,
    method: &Method,
    target: &str,
    body: &[u8],
) -> Result<Meaning, Memory>
    ensures { IfOk result (λ part.
        request_of_meaning body.now part ≡ query_by method.now target.now body.now) }
{
    if !is_origin_form(target) {
        return Ok(Meaning::Other(Call::Refused(status::BAD_REQUEST)));
    }
    let found = find_route(alloc, path_of(target))?;
    meaning_at(alloc, method, found, body)
}
