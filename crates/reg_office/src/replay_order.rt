//! The order in which a follower replays the commands that entered the rows of pages of the changes feed. A page has its rows table by table; a
//! register accepted the commands one after another. Only the rows of requests, revocations and CRLs have their command's moment.
//!
//! First come subscribers, orders and certificates, and the declines of requests that the follower had. If a register accepted these commands later,
//! the follower accepts them at its last accepted moment, too. Then the others follow by their moments. At the same moment requests come first, and a
//! revocation comes before the first CRL that lists it. A request is declined right after it is entered.
//!
//! No contract says that this order is right: if the register refuses a command in it, the follower enters nothing.

ghost use Rattle.std.specs.Prelude.{◌≡◌, IfSome, IsTrue, length};
ghost use Rattle.reg_core_lists.specs.Feed.{feed_rows_of};
ghost use Rattle.reg_office.specs.Replays.{AreAllReplayed, IsNextFeedRow, none_replayed};

use crate::feed_row::FeedRow;
use reg_core::{CrlRow, Moment, RequestRow, RevocationRow};
use reg_core_lists::{FeedRows, ReceivedPage};

/// How many rows of each table of the pages were replayed.
#[derive(Clone, Copy)]
pub(crate) struct Replayed {
    pub(crate) subscribers: usize,
    pub(crate) orders: usize,
    pub(crate) certificates: usize,
    pub(crate) requests: usize,
    pub(crate) declined: usize,
    pub(crate) revocations: usize,
    /// How many pages are done: their CRL, if any, was replayed.
    pub(crate) pages: usize,
}

/// Nothing yet.
pub(crate) fn none_replayed() -> Replayed
    ensures { result ≡ none_replayed }
{
    Replayed {
        subscribers: 0,
        orders: 0,
        certificates: 0,
        requests: 0,
        declined: 0,
        revocations: 0,
        pages: 0,
    }
}

/// What comes next: a row of a table, or the CRL of a page, if it has one.
#[derive(Clone, Copy, PartialEq, Eq)]
pub(crate) enum NextRow {
    Subscriber,
    Order,
    Certificate,
    Request,
    Declined,
    Revocation,
    Page,
}

/// What comes next; `None` after all rows. `had` is how many requests the follower had before the pages.
pub(crate) fn next_of(
    rows: &FeedRows,
    pages: &[ReceivedPage],
    done: &Replayed,
    had: u64,
) -> Option<NextRow> {
    match next_without_moment(rows, done, had) {
        Some(next) => Some(next),
        None => next_by_moment(rows, pages, done),
    }
}

fn next_without_moment(rows: &FeedRows, done: &Replayed, had: u64) -> Option<NextRow> {
    if done.subscribers < rows.subscribers.len() {
        return Some(NextRow::Subscriber);
    }
    if done.orders < rows.orders.len() {
        return Some(NextRow::Order);
    }
    if done.certificates < rows.certificates.len() {
        return Some(NextRow::Certificate);
    }
    // The follower has the requests 1 to `entered`. Once it has all, a decline with a greater id comes too, and the register refuses it.
    let entered = had.saturating_add(done.requests as u64);
    match rows.declined.get(done.declined) {
        Some(id) if *id <= entered || done.requests >= rows.requests.len() => Some(
            NextRow::Declined,
        ),
        _ => None,
    }
}

fn next_by_moment(rows: &FeedRows, pages: &[ReceivedPage], done: &Replayed) -> Option<NextRow> {
    let request = rows.requests.get(done.requests).copied();
    let revocation = rows.revocations.get(done.revocations).copied();
    match pages.get(done.pages) {
        Some(page) => match crl_row(page) {
            Some(crl) => Some(next_before_crl(request, revocation, crl)),
            None => Some(NextRow::Page),
        },
        None => next_after_crls(request, revocation),
    }
}

fn crl_row(page: &ReceivedPage) -> Option<CrlRow> {
    match &page.crl {
        Some(crl) => Some(crl.row),
        None => None,
    }
}

fn next_before_crl(
    request: Option<RequestRow>,
    revocation: Option<RevocationRow>,
    crl: CrlRow,
) -> NextRow {
    match revocation {
        Some(row) if row.first <= crl.number => request_or(request, row.at, NextRow::Revocation),
        _ => request_or(request, crl.this_update, NextRow::Page),
    }
}

fn next_after_crls(
    request: Option<RequestRow>,
    revocation: Option<RevocationRow>,
) -> Option<NextRow> {
    match revocation {
        Some(row) => Some(request_or(request, row.at, NextRow::Revocation)),
        None => match request {
            Some(_) => Some(NextRow::Request),
            None => None,
        },
    }
}

/// `Request`, if the next request was received by this moment; else `next`, a revocation or CRL of this moment.
fn request_or(request: Option<RequestRow>, moment: Moment, next: NextRow) -> NextRow {
    match request {
        Some(row) if row.received <= moment => NextRow::Request,
        _ => next,
    }
}

/// The next row of a table, and the counts `done` once it is replayed. `None` if the table has no more rows, and for `Page`.
pub(crate) fn row_at(rows: &FeedRows, done: &Replayed, next: NextRow) -> Option<(FeedRow, Replayed)>
    ensures { IfSome result (λ it. IsNextFeedRow (feed_rows_of rows.now) done.now it.0 it.1) }
{
    match next {
        NextRow::Subscriber => next_subscriber(rows, done),
        NextRow::Order => next_order(rows, done),
        NextRow::Certificate => next_certificate(rows, done),
        NextRow::Request => next_request(rows, done),
        NextRow::Declined => next_declined(rows, done),
        NextRow::Revocation => next_revocation(rows, done),
        NextRow::Page => None,
    }
}

fn next_subscriber(rows: &FeedRows, done: &Replayed) -> Option<(FeedRow, Replayed)>
    ensures { IfSome result (λ it. IsNextFeedRow (feed_rows_of rows.now) done.now it.0 it.1) }
{
    match rows.subscribers.get(done.subscribers) {
        Some(row) => {
            let mut after = *done;
            after.subscribers += 1;
            Some((FeedRow::Subscriber(*row), after))
        }
        None => None,
    }
}

fn next_order(rows: &FeedRows, done: &Replayed) -> Option<(FeedRow, Replayed)>
    ensures { IfSome result (λ it. IsNextFeedRow (feed_rows_of rows.now) done.now it.0 it.1) }
{
    match rows.orders.get(done.orders) {
        Some(row) => {
            let mut after = *done;
            after.orders += 1;
            Some((FeedRow::Order(*row), after))
        }
        None => None,
    }
}

fn next_certificate(rows: &FeedRows, done: &Replayed) -> Option<(FeedRow, Replayed)>
    ensures { IfSome result (λ it. IsNextFeedRow (feed_rows_of rows.now) done.now it.0 it.1) }
{
    match rows.certificates.get(done.certificates) {
        Some(row) => {
            let mut after = *done;
            after.certificates += 1;
            Some((FeedRow::Certificate(*row), after))
        }
        None => None,
    }
}

fn next_request(rows: &FeedRows, done: &Replayed) -> Option<(FeedRow, Replayed)>
    ensures { IfSome result (λ it. IsNextFeedRow (feed_rows_of rows.now) done.now it.0 it.1) }
{
    match rows.requests.get(done.requests) {
        Some(row) => {
            let mut after = *done;
            after.requests += 1;
            Some((FeedRow::Request(*row), after))
        }
        None => None,
    }
}

fn next_declined(rows: &FeedRows, done: &Replayed) -> Option<(FeedRow, Replayed)>
    ensures { IfSome result (λ it. IsNextFeedRow (feed_rows_of rows.now) done.now it.0 it.1) }
{
    match rows.declined.get(done.declined) {
        Some(row) => {
            let mut after = *done;
            after.declined += 1;
            Some((FeedRow::Declined(*row), after))
        }
        None => None,
    }
}

fn next_revocation(rows: &FeedRows, done: &Replayed) -> Option<(FeedRow, Replayed)>
    ensures { IfSome result (λ it. IsNextFeedRow (feed_rows_of rows.now) done.now it.0 it.1) }
{
    match rows.revocations.get(done.revocations) {
        Some(row) => {
            let mut after = *done;
            after.revocations += 1;
            Some((FeedRow::Revocation(*row), after))
        }
        None => None,
    }
}

/// Whether all rows and CRLs were replayed.
pub(crate) fn are_all_replayed(rows: &FeedRows, pages: &[ReceivedPage], done: &Replayed) -> bool
    ensures { IsTrue result → AreAllReplayed (feed_rows_of rows.now) (length pages.now) done.now }
{
    done.subscribers == rows.subscribers.len()
        && done.orders == rows.orders.len()
        && done.certificates == rows.certificates.len()
        && done.requests == rows.requests.len()
        && done.declined == rows.declined.len()
        && done.revocations == rows.revocations.len()
        && done.pages == pages.len()
}

/// How many steps a whole replay takes: one for each row, and one for each page.
pub(crate) fn steps_of(rows: &FeedRows, pages: &[ReceivedPage]) -> usize {
    pages
        .len()
        .saturating_add(rows.subscribers.len())
        .saturating_add(rows.orders.len())
        .saturating_add(rows.certificates.len())
        .saturating_add(rows.requests.len())
        .saturating_add(rows.declined.len())
        .saturating_add(rows.revocations.len())
}
