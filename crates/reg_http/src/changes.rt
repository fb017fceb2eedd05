//! `GET /changes` of `desk open`: a page of the changes feed, by which clients copy the register. With `?after=POSITIONS`, it has what a copy lacks.

ghost use Rattle.std.specs.Prelude.{◌≡◌, ◌==◌, ◌<◌, length, IfOk, IfSome};
ghost use Rattle.std.specs.List.{position};
ghost use Rattle.reg_office_api.specs.Calls.{LooksIn};
ghost use Rattle.reg_http.specs.AnswerEffects.{answer_effects};
ghost use Rattle.reg_http.specs.Changes.{RespondsChanges, changes_in, changes_request, changes_wanted, given_changes, is_follower_parameter, positions_after, without_wait};

use crate::answered::HttpAnswer;
use crate::bodies::{der, diverged_answer, json_buffer};
use crate::routes::{only_get, report_fault};
use http::Method;
use reg_core::{Fault, Memory, Refusal, read_number};
use reg_core_lists::Positions;
use reg_office_api::{Changes, Office};
use std::alloc::Global;

/// The media type of a page: its lines are text, but a CRL in it may have any octets. ([`der`] makes an answer of any body that isn't JSON.)
const PAGE: &str = "application/octet-stream";

/// The last parameter of a request that may be answered a second later if there is no news.
const WAIT: &[u8] = b"&wait=1";

#[derive(Clone, Copy)]
pub(crate) enum ChangesRequest {
    /// The method is not GET, the only one of the route.
    OnlyGet,
    /// The query is not `after=POSITIONS` or `after=POSITIONS&follower=NUMBER`, or one of these and `&wait=1`.
    Unreadable,
    /// From the first row on; or (`After`) after these positions, by which a client says how far its copy has got.
    FromFirst,
    After(Positions),
}

/// Answers a request for the changes of the register. No record changes (`plain`: no signature, no effect). [`Memory`] if out of memory.
pub fn answer_changes<O: Office>(
    alloc: Global,
    method: &Method,
    target: &str,
    office: &mut O,
) -> Result<HttpAnswer, Memory>
    ensures { LooksIn O.Office
        (λ records. IfOk result
        (λ answered. RespondsChanges records (changes_request method.now target.now)
        (answer_effects answered)))
        office.old office.new }
{
    match read_changes(method, target) {
        ChangesRequest::FromFirst => {
            let given = office.changes(alloc, &None);
            answer_given(alloc, given)
        }
        ChangesRequest::After(positions) => {
            let given = office.changes(alloc, &Some(positions));
            answer_given(alloc, given)
        }
        ChangesRequest::OnlyGet => only_get(alloc),
        ChangesRequest::Unreadable => report_fault(alloc, Fault::Refused(Refusal::Syntax)),
    }
}

fn read_changes(method: &Method, target: &str) -> ChangesRequest
    ensures { result ≡ changes_request method.now target.now }
{
    if method.as_str() != "GET" {
        return ChangesRequest::OnlyGet;
    }
    changes_at(target)
}

#[tactic(auto, unfolding(crate::specs::Changes::changes_in))]
fn changes_at(target: &str) -> ChangesRequest
    ensures { result ≡ changes_in target.now }
{
    let query = match target.split_once('?') {
        Some((_, query)) => query,
        None => "",
    };
    changes_wanted(without_wait(query.as_bytes()))
}

fn without_wait(query: &[u8]) -> &[u8]
    ensures { result.now ≡ without_wait query.now }
{
    if query.ends_with(WAIT) {
        &query[..query.len() - WAIT.len()]
    } else {
        query
    }
}

fn changes_wanted(query: &[u8]) -> ChangesRequest
    ensures { result ≡ changes_wanted query.now }
{
    if query.is_empty() {
        return ChangesRequest::FromFirst;
    }
    match positions_after(query) {
        Some(positions) => ChangesRequest::After(positions),
        None => ChangesRequest::Unreadable,
    }
}

fn positions_after(query: &[u8]) -> Option<Positions>
    ensures { result ≡ positions_after query.now }
{
    if !query.starts_with(b"after=") {
        return None;
    }
    let rest = &query[b"after=".len()..];
    match first_ampersand(rest) {
        Some(at) => {
            if is_follower(&rest[at..]) {
                Positions::read(&rest[..at])
            } else {
                None
            }
        }
        None => Positions::read(rest),
    }
}

fn first_ampersand(text: &[u8]) -> Option<usize>
    ensures place { result ≡ position (λ b. b == 38) text.now }
    ensures within { IfSome result (λ at. at < length text.now) }
{
    text.iter().position(|byte| *byte == b'&')
}

/// Whether a parameter is `&follower=NUMBER`, by which the desk tells followers apart.
fn is_follower(parameter: &[u8]) -> bool
    ensures { result ≡ is_follower_parameter parameter.now }
{
    parameter.starts_with(b"&follower=") && read_number(&parameter[b"&follower=".len()..]).is_some()
}

/// The answer with a page, with the office's fault, or with `diverged`: the positions are not in the history of this register.
fn answer_given(alloc: Global, given: Result<Changes, Fault>) -> Result<HttpAnswer, Memory>
    ensures { IfOk result (λ answered. answer_effects answered ≡ given_changes given) }
{
    match given {
        Ok(Changes::Page(text)) => Ok(HttpAnswer::plain(der(PAGE, text))),
        Ok(Changes::Diverged) => Ok(HttpAnswer::plain(diverged_answer(json_buffer(alloc)?))),
        Err(fault) => report_fault(alloc, fault),
    }
}
