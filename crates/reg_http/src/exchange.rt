//! A finished HTTP exchange: the text of the response, and the values that are counted and logged.

ghost use Rattle.std.specs.Prelude.{◌≡◌, ◌≤◌, [], IfOk, vec_capacity};
ghost use Rattle.reg_office_api.specs.Items.{items_of};
ghost use Rattle.reg_http_head.specs.Response.{shown};
ghost use Rattle.reg_http.specs.Bodies.{ocsp_reply};
ghost use Rattle.reg_http.specs.Exchanges.{IsEmpty, IsMemoryAnswer, PutsText, HasNoEffects, HasOnlySignature, HasEffects, BeginsExchange, AnswersText};
ghost use Rattle.reg_http.specs.AnswerEffects.{answer_effects};

use crate::answered::{HttpAnswer, LoggedRevocationRequest, ocsp_answer};
use crate::bodies::json_buffer;
use crate::route::Route;
use reg_core::{Memory, Moment};
use reg_http_head::{Answer, memory_fault, put, put_answer, status};
use reg_io::ReadyOrUnsigned;
use reg_ocsp::Draft;
use reg_office_api::{SignatureOutcome, StoreEffect};
use std::alloc::Global;

/// The bytes reserved for the text of a response: enough for the reply to a request for revocation, which needs no memory after the office is called.
const TEXT_ROOM: usize = 4_096;

/// Reserves `TEXT_ROOM` bytes for the text of a response; contracts rely on 512, for its head. [`Memory`] if out of memory.
pub fn text_buffer(alloc: Global) -> Result<Vec<u8>, Memory>
    ensures empty { IfOk result (λ buffer. buffer.items ≡ []) }
    ensures buffer { IfOk result (λ buffer. 512 ≤ vec_capacity buffer) }
{
    Vec::with_capacity(alloc, TEXT_ROOM).map_err(|_| Memory)
}

/// A finished HTTP exchange. The desk counts `route`, `status`, `signature` (whether one was requested and made) and `store` (what the store did).
#[derive(Drop)]
pub struct Exchange {
    pub route: Route,
    /// The status code of the text; `None` if the text is empty.
    pub status: Option<u16>,
    pub signature: SignatureOutcome,
    pub store: StoreEffect,
    /// The request for revocation that was entered, if one was: the log names it.
    pub named: Option<LoggedRevocationRequest>,
    /// The head and the body of the response; empty if no whole request came, or if there is no memory for them.
    pub text: Vec<u8>,
}

impl Exchange {
    /// An exchange without a response: its text is empty. A signature may have been requested before; `signature` is its outcome.
    pub fn empty(alloc: Global, route: Route, signature: SignatureOutcome) -> Exchange
        ensures empty { IsEmpty result }
        ensures effects { HasOnlySignature signature result }
        ensures route { result.route ≡ route }
    {
        Exchange {
            route,
            status: None,
            signature,
            store: StoreEffect::Unwritten,
            named: None,
            text: Vec::new(alloc),
        }
    }

    /// The exchange if there was no memory for the answer: `buffer` gets the constant text of status code 500.
    pub fn out_of_memory(route: Route, mut buffer: Vec<u8>) -> Exchange
        requires empty { buffer.items ≡ [] }
        requires buffer { 512 ≤ vec_capacity buffer }
        ensures memory_answer { IsMemoryAnswer result }
        ensures effects { HasNoEffects result }
        ensures route { result.route ≡ route }
    {
        put(&mut buffer, memory_fault());
        Exchange {
            route,
            status: Some(status::INTERNAL_SERVER_ERROR),
            signature: SignatureOutcome::NotRequested,
            store: StoreEffect::Unwritten,
            named: None,
            text: buffer,
        }
    }

    /// An exchange with this answer, dated `now`, written into `buffer`; or the constant text of status code 500, if out of memory for the body.
    pub fn of(route: Route, mut buffer: Vec<u8>, answered: HttpAnswer, now: Moment) -> Exchange
        requires empty { buffer.items ≡ [] }
        requires buffer { 512 ≤ vec_capacity buffer }
        ensures effects { HasEffects now (answer_effects answered) result }
        ensures route { result.route ≡ route }
    {
        let HttpAnswer {
            answer,
            signature,
            store,
            named,
        } = answered;
        let status = put_text(&mut buffer, &answer, now);
        Exchange {
            route,
            status: Some(status),
            signature,
            store,
            named,
            text: buffer,
        }
    }

    /// The exchange of an OCSP request whose response was to be signed; it is dated `now`. If `response` is an error, the body has `F1 memory`
    /// (status code 500). If there is no memory for a buffer, the text is empty; if none for the body, it is the constant text of status code 500.
    pub fn finished(
        alloc: Global,
        route: Route,
        now: Moment,
        response: Result<Vec<u8>, Memory>,
        signature: SignatureOutcome,
    ) -> Exchange
        ensures answer_text { AnswersText now (ocsp_reply (items_of response)) result }
        ensures effects { HasOnlySignature signature result }
        ensures route { result.route ≡ route }
    {
        let (Ok(text), Ok(body)) = (text_buffer(alloc), json_buffer(alloc)) else {
            return Exchange::empty(alloc, route, signature);
        };
        let answered = HttpAnswer {
            answer: ocsp_answer(body, response),
            signature,
            store: StoreEffect::Unwritten,
            named: None,
        };
        Exchange::of(route, text, answered, now)
    }
}

/// An OCSP response that is to be signed, with the route of its request.
#[derive(Drop)]
pub struct UnsignedResponse {
    pub route: Route,
    pub draft: Draft,
}

/// The exchange of an answer, with its text in `buffer`; for a draft, the response to be signed. For an error, the text is that of `out_of_memory`.
pub fn begun_exchange(
    route: Route,
    buffer: Vec<u8>,
    begun: Result<ReadyOrUnsigned<HttpAnswer, Draft>, Memory>,
    now: Moment,
) -> ReadyOrUnsigned<Exchange, UnsignedResponse>
    requires empty { buffer.items ≡ [] }
    requires buffer { 512 ≤ vec_capacity buffer }
    ensures { BeginsExchange now route begun result }
{
    match begun {
        Ok(ReadyOrUnsigned::Ready(answered)) => ReadyOrUnsigned::Ready(Exchange::of(
            route, buffer, answered, now,
        )),
        Ok(ReadyOrUnsigned::Unsigned(draft)) => ReadyOrUnsigned::Unsigned(UnsignedResponse {
            route,
            draft,
        }),
        Err(_) => ReadyOrUnsigned::Ready(Exchange::out_of_memory(route, buffer)),
    }
}

fn put_text(text: &mut Vec<u8>, answer: &Answer, now: Moment) -> u16
    requires empty { text.old.items ≡ [] }
    requires buffer { 512 ≤ vec_capacity text.old }
    ensures { PutsText now (shown answer.now) result text.new.items }
{
    match put_answer(text, answer, now) {
        Ok(()) => answer.status,
        Err(_) => {
            text.clear();
            put(text, memory_fault());
            status::INTERNAL_SERVER_ERROR
        }
    }
}
