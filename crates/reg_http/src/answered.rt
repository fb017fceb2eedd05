//! The answers to HTTP requests, with the values that the desk counts and logs of them.

ghost use Rattle.std.specs.Prelude.{◌≡◌, ◌≤◌, [], Ok, vec_capacity};
ghost use Rattle.reg_office_api.specs.Items.{items_of};
ghost use Rattle.reg_http_head.specs.Response.{shown};
ghost use Rattle.reg_http.specs.Answers.{BeginsOcsp};
ghost use Rattle.reg_http.specs.Bodies.{ocsp_reply};
ghost use Rattle.reg_http.specs.AnswerEffects.{crl_effects, entered_request, fault_effects, ocsp_effects, outcome_effects, plain as plainly, reply_effects, request_effects, answer_effects, unsigned_answer as unsigned_effects};

use crate::bodies::{
    OCSP_RESPONSE, PKIX_CRL, der, fault_answer, json, put_counts, put_due, put_status,
};
use reg_core::{Fault, Label, Memory, Outcome, Reply, Serial};
use reg_http_head::{Answer, status};
use reg_io::ReadyOrUnsigned;
use reg_ocsp::Draft;
use reg_office_api::{OcspResponse, SignatureOutcome, StoreEffect};

/// A request for revocation that was entered or decided, as the log names it.
#[derive(Clone, Copy)]
pub struct LoggedRevocationRequest {
    pub id: u64,
    pub serial: Serial,
    /// The word of its ground (the reason), such as `key-compromise`, if it was entered; `None` if it was decided (carried out or declined).
    pub ground: Option<Label>,
}

/// An answer, the outcome of its signature, and what the store did. `named` is the request for revocation that was entered: the log names it.
#[derive(Drop)]
pub struct HttpAnswer {
    pub answer: Answer,
    pub signature: SignatureOutcome,
    pub store: StoreEffect,
    pub named: Option<LoggedRevocationRequest>,
}

impl HttpAnswer {
    /// An answer that needs no signature and had no effect on the store.
    pub fn plain(answer: Answer) -> HttpAnswer
        ensures { answer_effects result ≡ plainly (shown answer) }
    {
        HttpAnswer::without_signature(answer, StoreEffect::Unwritten)
    }

    fn without_signature(answer: Answer, store: StoreEffect) -> HttpAnswer
        ensures { answer_effects result ≡ unsigned_effects (shown answer) store }
    {
        HttpAnswer {
            answer,
            signature: SignatureOutcome::NotRequested,
            store,
            named: None,
        }
    }
}

/// The answer with a refusal or a fault: its line (such as `E22 syntax`) in a JSON body, written into `buffer` (256 reserved bytes).
pub(crate) fn answer_of_fault(buffer: Vec<u8>, fault: Fault) -> HttpAnswer
    requires empty { buffer.items ≡ [] }
    requires buffer { 256 ≤ vec_capacity buffer }
    ensures { answer_effects result ≡ fault_effects fault }
{
    let store = StoreEffect::of_fault(&fault);
    HttpAnswer::without_signature(fault_answer(buffer, fault), store)
}

/// The answer with the reply to a query for a status or the counts, or to a request for revocation. `_`: no office gives another reply to these.
fn reply_answer(mut buffer: Vec<u8>, reply: Reply) -> HttpAnswer
    requires empty { buffer.items ≡ [] }
    requires buffer { 256 ≤ vec_capacity buffer }
    ensures { answer_effects result ≡ reply_effects reply }
{
    match reply {
        Reply::Status(status) => {
            put_status(&mut buffer, status);
            HttpAnswer::plain(json(status::OK, buffer))
        }
        Reply::Counts(counts) => {
            put_counts(&mut buffer, counts);
            HttpAnswer::plain(json(status::OK, buffer))
        }
        Reply::Request { id, due } => {
            put_due(&mut buffer, id, due);
            HttpAnswer::without_signature(json(status::OK, buffer), StoreEffect::Written)
        }
        _ => answer_of_fault(buffer, Fault::Store),
    }
}

pub(crate) fn outcome_answer(buffer: Vec<u8>, outcome: Outcome) -> HttpAnswer
    requires empty { buffer.items ≡ [] }
    requires buffer { 256 ≤ vec_capacity buffer }
    ensures { answer_effects result ≡ outcome_effects outcome }
{
    match outcome {
        Ok(reply) => reply_answer(buffer, reply),
        Err(fault) => answer_of_fault(buffer, fault),
    }
}

/// The answer to a request for revocation on the ground `word`, with its [`LoggedRevocationRequest`] if the office entered it.
pub(crate) fn request_answer(
    buffer: Vec<u8>,
    serial: Serial,
    word: Label,
    outcome: Outcome,
) -> HttpAnswer
    requires empty { buffer.items ≡ [] }
    requires buffer { 256 ≤ vec_capacity buffer }
    ensures { answer_effects result ≡ request_effects serial word outcome }
{
    let named = entered_request(serial, word, &outcome);
    let mut answered = outcome_answer(buffer, outcome);
    answered.named = named;
    answered
}

fn entered_request(
    serial: Serial,
    word: Label,
    outcome: &Outcome,
) -> Option<LoggedRevocationRequest>
    ensures { result ≡ entered_request serial word outcome.now }
{
    match outcome {
        Ok(Reply::Request { id, .. }) => Some(LoggedRevocationRequest {
            id: *id,
            serial,
            ground: Some(word),
        }),
        _ => None,
    }
}

pub(crate) fn crl_answer(buffer: Vec<u8>, crl: Result<Vec<u8>, Fault>) -> HttpAnswer
    requires empty { buffer.items ≡ [] }
    requires buffer { 256 ≤ vec_capacity buffer }
    ensures { answer_effects result ≡ crl_effects (items_of crl) }
{
    match crl {
        Ok(bytes) => HttpAnswer::plain(der(PKIX_CRL, bytes)),
        Err(fault) => answer_of_fault(buffer, fault),
    }
}

/// The answer with an OCSP response that waits for no signature: it has a placeholder digest, or only a status.
fn ready_ocsp_answer(response: OcspResponse) -> HttpAnswer
    ensures { answer_effects result ≡ ocsp_effects (Ok (response.kind, response.bytes.items)) }
{
    let OcspResponse { bytes, kind } = response;
    HttpAnswer {
        answer: der(OCSP_RESPONSE, bytes),
        signature: kind.signature(),
        store: kind.store(),
        named: None,
    }
}

/// The answer with an OCSP response, or the draft of one that is to be signed; if the office was out of memory, the answer with that fault.
pub(crate) fn begun_answer(
    buffer: Vec<u8>,
    given: Result<ReadyOrUnsigned<OcspResponse, Draft>, Memory>,
) -> ReadyOrUnsigned<HttpAnswer, Draft>
    requires empty { buffer.items ≡ [] }
    requires buffer { 256 ≤ vec_capacity buffer }
    ensures { BeginsOcsp given result }
{
    match given {
        Ok(ReadyOrUnsigned::Ready(response)) => ReadyOrUnsigned::Ready(ready_ocsp_answer(response)),
        Ok(ReadyOrUnsigned::Unsigned(draft)) => ReadyOrUnsigned::Unsigned(draft),
        Err(_) => ReadyOrUnsigned::Ready(answer_of_fault(buffer, Fault::Memory)),
    }
}

/// The answer with the bytes of an OCSP response; if out of memory for these, an answer with the line `F1 memory`.
pub(crate) fn ocsp_answer(buffer: Vec<u8>, response: Result<Vec<u8>, Memory>) -> Answer
    requires empty { buffer.items ≡ [] }
    requires buffer { 256 ≤ vec_capacity buffer }
    ensures { shown result ≡ ocsp_reply (items_of response) }
{
    match response {
        Ok(bytes) => der(OCSP_RESPONSE, bytes),
        Err(_) => fault_answer(buffer, Fault::Memory),
    }
}
