//! The line of each reply to a command or query.

ghost use Rattle.std.specs.Prelude.{◌≡◌, ℕ, ◌+◌, ◌≤◌, ◌++◌, [], length};
ghost use Rattle.std.specs.Fmt.{decimal};
ghost use Rattle.reg_core.specs.Calendar.{moment_text};
ghost use Rattle.reg_lines.specs.Replies.{line_of_status, counts_line, listing_line, overdue_line, next_crl_line, reply_line, outcome_line, with_lf};

use reg_core::{Counts, Decimal, Listing, Moment, Outcome, Overdue, Reply, Status};
use std::marker::Model;

/// The length of the longest reply to a command or query, with its LF: that of the reply to `counts`, with three numbers of 20 digits.
pub const LONGEST_REPLY: usize = 84;

/// A reply's text, in an array, so without an allocation. In contracts, a `ReplyText` is the list of its bytes.
#[derive(Drop)]
pub struct ReplyText {
    bytes: [u8; LONGEST_REPLY],
    len: usize,
}

impl Model for ReplyText {
    ghost use Rattle.std.specs.Prelude.{ℕ, List, ◌≤◌, take};

    ghost Value = { List ℕ };

    ghost view = { λ text. take text.len text.bytes };

    ghost invariant = { λ text. text.len ≤ 84 };
}

impl ReplyText {
    /// The reply to a command or query with this outcome: a line with its LF.
    #[tactic(auto, unfolding(crate::specs::Replies::outcome_line, crate::specs::Replies::with_lf))]
    pub fn of(outcome: &Outcome) -> ReplyText
        ensures line { result ≡ with_lf (outcome_line outcome.now) }
        ensures short { length result ≤ 84 }
    {
        match outcome {
            Ok(reply) => reply_text(reply).with(b"\n"),
            Err(fault) => ReplyText::new().with(fault.line().as_bytes()).with(b"\n"),
        }
    }

    pub fn as_bytes(&self) -> &[u8]
        ensures { result.now ≡ self.now }
    {
        &self.bytes[..self.len]
    }

    fn new() -> ReplyText
        ensures { result ≡ [] }
    {
        ReplyText {
            bytes: [0; LONGEST_REPLY],
            len: 0,
        }
    }

    fn with(mut self, text: &[u8]) -> ReplyText
        requires { length self + length text.now ≤ 84 }
        ensures { result ≡ self ++ text.now }
    {
        let start = self.len;
        let end = start + text.len();
        self.bytes[start..end].copy_from_slice(text);
        self.len = end;
        self
    }

    fn with_number(self, word: &[u8], value: u64) -> ReplyText
        requires { length self + length word.now + 20 ≤ 84 }
        ensures text { result ≡ self ++ word.now ++ decimal value }
        ensures short { length result ≤ length self + length word.now + 20 }
    {
        self.with(word).with(Decimal::of(value).as_bytes())
    }

    fn with_moment(self, word: &[u8], value: Moment) -> ReplyText
        requires { length self + length word.now + 20 ≤ 84 }
        ensures text { result ≡ self ++ word.now ++ moment_text value }
        ensures short { length result ≤ length self + length word.now + 20 }
    {
        self.with(word).with(&value.text())
    }
}

#[tactic(auto, unfolding(crate::specs::Replies::reply_line))]
fn reply_text(reply: &Reply) -> ReplyText
    ensures line { result ≡ reply_line reply.now }
    ensures short { length result ≤ 83 }
{
    match *reply {
        Reply::Subscriber { id } => ReplyText::new().with_number(b"subscriber ", id),
        Reply::Order { id } => ReplyText::new().with_number(b"order ", id),
        Reply::Registered => ReplyText::new().with(b"registered"),
        Reply::Same => ReplyText::new().with(b"same"),
        Reply::Request { id, due } => ReplyText::new()
            .with_number(b"request ", id)
            .with_moment(b" due ", due),
        Reply::Declined => ReplyText::new().with(b"declined"),
        Reply::Revoked { late: true } => ReplyText::new().with(b"revoked late"),
        Reply::Revoked { late: false } => ReplyText::new().with(b"revoked"),
        Reply::Crl { number, entries } => ReplyText::new()
            .with_number(b"crl ", number)
            .with_number(b" entries ", entries),
        Reply::Status(status) => status_text(status),
        Reply::Counts(counts) => counts_text(counts),
        Reply::Listing(listing) => listing_text(listing),
        Reply::Overdue(overdue) => overdue_text(overdue),
        Reply::NextCrl(moment) => next_crl_text(moment),
    }
}

#[tactic(auto, unfolding(crate::specs::Replies::line_of_status))]
fn status_text(status: Status) -> ReplyText
    ensures line { result ≡ line_of_status status }
    ensures short { length result ≤ 83 }
{
    match status {
        Status::Unknown => ReplyText::new().with(b"unknown"),
        Status::Good => ReplyText::new().with(b"good"),
        Status::Expired => ReplyText::new().with(b"expired"),
        Status::Revoked { at, reason } => {
            ReplyText::new()
                .with_moment(b"revoked ", at)
                .with_number(b" reason ", u64::from(reason))
        }
    }
}

#[tactic(auto, unfolding(crate::specs::Replies::counts_line))]
fn counts_text(counts: Counts) -> ReplyText
    ensures line { result ≡ counts_line counts }
    ensures short { length result ≤ 83 }
{
    ReplyText::new()
        .with_number(b"good ", counts.good)
        .with_number(b" revoked ", counts.revoked)
        .with_number(b" expired ", counts.expired)
}

#[tactic(auto, unfolding(crate::specs::Replies::listing_line, crate::specs::Replies::listing_by))]
fn listing_text(listing: Option<Listing>) -> ReplyText
    ensures line { result ≡ listing_line listing }
    ensures short { length result ≤ 83 }
{
    let Some(listing) = listing else {
        return ReplyText::new().with(b"listing none");
    };
    let first = ReplyText::new().with_number(b"listing first ", listing.first);
    match listing.last {
        Some(last) => first.with_number(b" last ", last),
        None => first,
    }
}

#[tactic(auto, unfolding(crate::specs::Replies::overdue_line))]
fn overdue_text(overdue: Option<Overdue>) -> ReplyText
    ensures line { result ≡ overdue_line overdue }
    ensures short { length result ≤ 83 }
{
    match overdue {
        Some(overdue) => ReplyText::new()
            .with_number(b"overdue ", overdue.count)
            .with_number(b" first ", overdue.first),
        None => ReplyText::new().with(b"overdue 0"),
    }
}

#[tactic(auto, unfolding(crate::specs::Replies::next_crl_line))]
fn next_crl_text(moment: Option<Moment>) -> ReplyText
    ensures line { result ≡ next_crl_line moment }
    ensures short { length result ≤ 83 }
{
    match moment {
        Some(moment) => ReplyText::new().with_moment(b"next-crl ", moment),
        None => ReplyText::new().with(b"next-crl at-once"),
    }
}
