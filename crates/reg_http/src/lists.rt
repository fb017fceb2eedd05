//! Requests for lists, `GET /list/WORD` (WORD names the list) with a query: `after=KEY` (the serial number, id or CRL number of the
//! last row read), `limit=N`, `before=MOMENT` (only for `ending`), and a filter (`subscriber`, `serial`, `from`, `to`). `desk serve` answers 404.

ghost use Rattle.std.specs.Prelude.{◌≡◌, IfOk, OnErr};
ghost use Rattle.reg_office_api.specs.Calls.{LooksIn};
ghost use Rattle.reg_http.specs.Lists.{RespondsList, given_page, list_request, page_in, page_of_path, wanted_body};
ghost use Rattle.reg_http.specs.AnswerEffects.{fault_effects, answer_effects};

use crate::answered::{HttpAnswer, answer_of_fault};
use crate::bodies::{json, json_buffer};
use crate::routes::only_get;
use http::Method;
use percent_encoding::percent_decode;
use reg_core::{Fault, Memory, Moment, Refusal};
use reg_core_lists::{Page, PageQuery, page_text, read_page};
use reg_http_head::status;
use reg_office_api::Office;
use std::alloc::{AllocError, Global};

/// A request for a list. `OnlyGet`: its method is not GET. `Unreadable`: its word or query can't be read. `Page`: the page that it asks for.
#[derive(Clone, Copy)]
pub(crate) enum ListRequest {
    OnlyGet,
    Unreadable,
    Page(PageQuery),
}

/// Answers a request for a page of a list at the moment `now`. No record changes (`plain`: no signature, no effect). [`Memory`] if out of memory.
pub fn answer_list<O: Office>(
    alloc: Global,
    method: &Method,
    target: &str,
    now: Moment,
    office: &mut O,
) -> Result<HttpAnswer, Memory>
    ensures { LooksIn O.Office
        (λ records. IfOk result
        (λ answered. RespondsList records now (list_request method.now target.now) (answer_effects answered)))
        office.old office.new }
{
    match read_list(alloc, method, target) {
        Ok(ListRequest::Page(wanted)) => {
            // `from` is where the page begins (`after=KEY`), `most` how many rows it reads (at most 250). The query's `from=MOMENT` is in the filter.
            let given = office.page(alloc, now, wanted.from, wanted.most);
            answer_page(alloc, &wanted, &given)
        }
        Ok(ListRequest::OnlyGet) => only_get(alloc),
        Ok(ListRequest::Unreadable) => report_fault(alloc, Fault::Refused(Refusal::Syntax)),
        Err(memory) => Err(memory),
    }
}

fn read_list(alloc: Global, method: &Method, target: &str) -> Result<ListRequest, Memory>
    ensures { IfOk result (λ asked. asked ≡ list_request method.now target.now) }
{
    if method.as_str() != "GET" {
        return Ok(ListRequest::OnlyGet);
    }
    page_at(alloc, target)
}

#[tactic(auto, unfolding(crate::specs::Lists::page_in))]
fn page_at(alloc: Global, target: &str) -> Result<ListRequest, Memory>
    ensures { IfOk result (λ asked. asked ≡ page_in target.now) }
{
    let (path, query) = match target.split_once('?') {
        Some((path, query)) => (path, query),
        None => (target, ""),
    };
    let mut decoded_query = Vec::new(alloc);
    if percent_decode(query.as_bytes())
        .append_to(&mut decoded_query)
        .is_err()
    {
        return Err(Memory);
    }
    Ok(page_of_parts(path.as_bytes(), &decoded_query))
}

fn page_of_parts(path: &[u8], decoded_query: &[u8]) -> ListRequest
    ensures { result ≡ page_of_path path.now decoded_query.now }
{
    if !path.starts_with(b"/list/") {
        return ListRequest::Unreadable;
    }
    match read_page(&path[b"/list/".len()..], decoded_query) {
        Some(wanted) => ListRequest::Page(wanted),
        None => ListRequest::Unreadable,
    }
}

fn answer_page(
    alloc: Global,
    wanted: &PageQuery,
    given: &Result<Page, Fault>,
) -> Result<HttpAnswer, Memory>
    ensures { IfOk result (λ answered. answer_effects answered ≡ given_page wanted.now given.now) }
{
    match given {
        Ok(page) => match filtered_text(alloc, wanted, page) {
            Ok(text) => Ok(HttpAnswer::plain(json(status::OK, text))),
            Err(_) => Err(Memory),
        },
        Err(fault) => report_fault(alloc, *fault),
    }
}

fn filtered_text(alloc: Global, wanted: &PageQuery, page: &Page) -> Result<Vec<u8>, AllocError>
    ensures { IfOk result (λ text. text.items ≡ wanted_body wanted.now page.now) }
{
    let rows = wanted.filter.kept(alloc, &page.rows)?;
    page_text(alloc, wanted.from, &rows, page.next)
}

fn report_fault(alloc: Global, fault: Fault) -> Result<HttpAnswer, Memory>
    ensures { IfOk result (λ answered. answer_effects answered ≡ fault_effects fault) }
{
    Ok(answer_of_fault(json_buffer(alloc)?, fault))
}
