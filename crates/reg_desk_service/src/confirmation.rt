//! Whether followers have the commands that a desk accepted: with `desk open --confirm-by N`, the reply to a command is sent only after that.

ghost use Rattle.std.specs.Prelude.{◌≡◌, ◌==◌, ◌<◌, length, option_map, IfOk, IsTrue, IfSome};
ghost use Rattle.std.specs.List.{position};
ghost use Rattle.reg_desk_server.specs.LineEnds.{IsWholeLines};
ghost use Rattle.reg_desk_server.specs.Outcomes.{outcome_of};
ghost use Rattle.reg_desk_service.specs.Confirmations.{AfterFirstLine, after_lines, after_outcome, after_request, follower_in_query, follower_number, confirming_follower, confirming_in, confirming_number, ends_feed, follower_in, has_follower, has_schedule, has_schedule_steps, holds_reply, is_confirmed, is_done_with, is_wanted, unwaiting, with_follower};
ghost use Rattle.reg_desk_service.specs.PageSchedules.{after_part, steps_in, whole_first_line};

use crate::line_kinds::{first_line, may_be_command};
use crate::unsigned_responses::Unsigned;
use reg_core::{Moment, read_number};
use reg_io::ReadyOrUnsigned;
use std::alloc::{AllocError, Global};

/// The most followers that a command can wait for.
pub const MOST_FOLLOWERS: usize = 8;

/// The path with the query by which a follower says how far its copy has got, up to its positions.
const ASKED: &[u8] = b"GET /changes?after=";

/// The name of the parameter after the positions, by which followers are told apart.
const NAMED: &[u8] = b"&follower=";

/// The last parameter of a request that waits while there is no news.
const WAIT: &[u8] = b"&wait=1";

/// The beginning of the header by which a follower says which schedule its copy has, and of the line of a page with the schedule of the register.
const GIVEN_SCHEDULE: &[u8] = b"\r\ndesk-schedule: ";

const SCHEDULE: &[u8] = b"\nschedule ";

/// The followers that have all records since the last command at the control socket.
#[derive(Clone, Copy)]
pub struct Confirmation {
    /// How many followers must have a command; 0 if no reply waits.
    needed: u64,
    /// The moment of the first command that is not confirmed yet.
    since: Option<Moment>,
    /// The numbers of the followers that have all commands; the first `count` of these.
    followers: [u64; MOST_FOLLOWERS],
    count: usize,
    /// Whether the lines that were answered last had a command.
    had_command: bool,
}

impl Confirmation {
    /// Commands wait for this number of followers; for 0, they don't wait.
    pub fn by(needed: u64) -> Confirmation
        ensures needed { result.needed ≡ needed }
        ensures confirmed { IsTrue (is_confirmed result) }
    {
        Confirmation {
            needed,
            since: None,
            followers: [0; MOST_FOLLOWERS],
            count: 0,
            had_command: false,
        }
    }

    /// Whether replies wait at all.
    pub fn is_wanted(&self) -> bool
        ensures { result ≡ is_wanted self.now }
    {
        self.needed > 0
    }

    /// The moment of the first command that is not confirmed yet, if there is one.
    pub fn since(&self) -> Option<Moment>
        ensures { result ≡ self.now.since }
    {
        self.since
    }

    /// Whether each command is confirmed.
    pub fn is_confirmed(&self) -> bool
        ensures { result ≡ is_confirmed self.now }
    {
        self.since.is_none()
    }

    /// Whether the reply to the lines that were answered last waits.
    pub fn holds_reply(&self) -> bool
        ensures { result ≡ holds_reply self.now }
    {
        self.had_command && !self.is_confirmed()
    }

    /// Lines were answered. If a command is among them, no follower is known to have it.
    pub fn lines_answered(&mut self, had_command: bool, now: Moment)
        ensures { self.new ≡ after_lines had_command now self.old }
    {
        if !self.is_wanted() {
            return;
        }
        self.had_command = had_command;
        if had_command {
            self.count = 0;
            if self.since.is_none() {
                self.since = Some(now);
            }
        }
    }

    /// The first of these lines was answered at `now`, or the first several, which are then commands.
    pub(crate) fn first_lines_answered(&mut self, alloc: Global, lines: &[u8], now: Moment)
        requires { IsWholeLines lines.now }
        ensures { AfterFirstLine lines.now now self.old self.new }
    {
        if !self.is_wanted() {
            return;
        }
        let had_command = may_be_command(alloc, first_line(lines));
        self.lines_answered(had_command, now);
    }

    /// An HTTP request was answered, or the response to it is to be signed.
    pub(crate) fn request_begun(
        &mut self,
        request: &[u8],
        begun: &ReadyOrUnsigned<Vec<u8>, Unsigned>,
    )
        ensures { self.new ≡ after_outcome request.now (outcome_of begun.now) self.old }
    {
        match begun {
            ReadyOrUnsigned::Ready(text) => self.request_answered(request, text),
            ReadyOrUnsigned::Unsigned(_) => {}
        }
    }

    /// An HTTP request was answered. A follower has all commands if its positions are those of all records, and its schedule is that of the register.
    pub fn request_answered(&mut self, request: &[u8], response: &[u8])
        ensures { self.new ≡ after_request request.now response.now self.old }
    {
        if self.is_confirmed() {
            return;
        }
        if let Some(follower) = confirming_follower(request, response) {
            self.add(follower);
        }
    }

    /// Whether a request can confirm nothing: each command is confirmed, or its follower is counted already, or has no number.
    pub(crate) fn is_done_with(&self, request: &[u8]) -> bool
        ensures { result ≡ is_done_with request.now self.now }
    {
        match follower_of(request) {
            Some(follower) => self.is_confirmed() || self.has(follower),
            None => true,
        }
    }

    fn add(&mut self, follower: u64)
        ensures { self.new ≡ with_follower follower self.old }
    {
        if self.count >= MOST_FOLLOWERS || self.has(follower) {
            return;
        }
        self.followers[self.count] = follower;
        self.count += 1;
        if self.count as u64 >= self.needed {
            self.since = None;
        }
    }

    fn has(&self, follower: u64) -> bool
        ensures { result ≡ has_follower follower self.now }
    {
        self.followers[..self.count.min(MOST_FOLLOWERS)].contains(&follower)
    }
}

/// The number of the follower that sends a request for changes.
fn follower_of(request: &[u8]) -> Option<u64>
    ensures { result ≡ follower_number request.now }
{
    if !request.starts_with(ASKED) {
        return None;
    }
    let rest = &request[ASKED.len()..];
    match first_space(rest) {
        Some(end) => follower_in_query(unwaiting(&rest[..end])),
        None => None,
    }
}

fn follower_in_query(query: &[u8]) -> Option<u64>
    ensures { result ≡ follower_in_query query.now }
{
    match first_ampersand(query) {
        Some(at) => follower_in(&query[at..]),
        None => None,
    }
}

/// The number of the follower that sent a request, if its copy has all rows and the schedule of the response.
fn confirming_follower(request: &[u8], response: &[u8]) -> Option<u64>
    ensures { result ≡ confirming_follower request.now response.now }
{
    if has_schedule(request, response) {
        confirming(request, response)
    } else {
        None
    }
}

/// Whether a request gives the schedule of the response; or gives none, as an older follower's.
fn has_schedule(request: &[u8], response: &[u8]) -> bool
    ensures { result ≡ has_schedule request.now response.now }
{
    match after_part(GIVEN_SCHEDULE, request) {
        Some(rest) => match first_return(rest) {
            Some(end) => has_schedule_steps(&rest[..end], response),
            None => false,
        },
        None => true,
    }
}

fn has_schedule_steps(steps: &[u8], response: &[u8]) -> bool
    ensures { result ≡ has_schedule_steps steps.now response.now }
{
    match after_part(SCHEDULE, response) {
        Some(line) => line.starts_with(steps) && line[steps.len()..].starts_with(b"\n"),
        None => false,
    }
}

/// The steps of the schedule in a page, as text; empty if it has none.
pub(crate) fn schedule_in(alloc: Global, page: &[u8]) -> Result<Vec<u8>, AllocError>
    ensures { IfOk result (λ steps. steps.items ≡ steps_in page.now) }
{
    match after_part(SCHEDULE, page) {
        Some(line) => Vec::from_slice(alloc, whole_first_line(line)),
        None => Ok(Vec::new(alloc)),
    }
}

/// The first line of a text, without its LF; empty if the text has no LF.
fn whole_first_line(text: &[u8]) -> &[u8]
    ensures { result.now ≡ whole_first_line text.now }
{
    match first_line_end(text) {
        Some(end) => &text[..end],
        None => b"",
    }
}

/// What follows the first place at which a text has this part; `None` if it has none.
fn after_part<'t>(part: &[u8], text: &'t [u8]) -> Option<&'t [u8]>
    ensures { option_map (λ rest. rest.now) result ≡ after_part part.now text.now }
{
    let mut rest = text;
    while !rest.is_empty() {
        if rest.starts_with(part) {
            return Some(&rest[part.len()..]);
        }
        rest = &rest[1..];
    }
    None
}

/// The number of the follower that sent a request, if it asked with the positions after which the response, the last page, has nothing. A request
/// without a number, as while pages are kept in memory only, confirms nothing.
fn confirming(request: &[u8], response: &[u8]) -> Option<u64>
    ensures { result ≡ confirming_number request.now response.now }
{
    if !request.starts_with(ASKED) {
        return None;
    }
    let rest = &request[ASKED.len()..];
    match first_space(rest) {
        Some(end) => confirming_in(unwaiting(&rest[..end]), response),
        None => None,
    }
}

fn unwaiting(query: &[u8]) -> &[u8]
    ensures { result.now ≡ unwaiting query.now }
{
    if query.ends_with(WAIT) {
        &query[..query.len() - WAIT.len()]
    } else {
        query
    }
}

fn confirming_in(query: &[u8], response: &[u8]) -> Option<u64>
    ensures { result ≡ confirming_in query.now response.now }
{
    match first_ampersand(query) {
        Some(at) => {
            if ends_feed(response, &query[..at]) {
                follower_in(&query[at..])
            } else {
                None
            }
        }
        None => None,
    }
}

pub(crate) fn first_space(text: &[u8]) -> Option<usize>
    ensures place { result ≡ position (λ b. b == 32) text.now }
    ensures within { IfSome result (λ at. at < length text.now) }
{
    text.iter().position(|byte| *byte == b' ')
}

fn first_return(text: &[u8]) -> Option<usize>
    ensures place { result ≡ position (λ b. b == 13) text.now }
    ensures within { IfSome result (λ at. at < length text.now) }
{
    text.iter().position(|byte| *byte == b'\r')
}

fn first_line_end(text: &[u8]) -> Option<usize>
    ensures place { result ≡ position (λ b. b == 10) text.now }
    ensures within { IfSome result (λ at. at < length text.now) }
{
    text.iter().position(|byte| *byte == b'\n')
}

fn first_ampersand(text: &[u8]) -> Option<usize>
    ensures place { result ≡ position (λ b. b == 38) text.now }
    ensures within { IfSome result (λ at. at < length text.now) }
{
    text.iter().position(|byte| *byte == b'&')
}

fn follower_in(parameter: &[u8]) -> Option<u64>
    ensures { result ≡ follower_in parameter.now }
{
    if parameter.starts_with(NAMED) {
        read_number(&parameter[NAMED.len()..])
    } else {
        None
    }
}

/// Whether the last line of a response is `end` and these positions.
fn ends_feed(response: &[u8], positions: &[u8]) -> bool
    ensures { result ≡ ends_feed response.now positions.now }
{
    if positions.is_empty() || !response.ends_with(b"\n") {
        return false;
    }
    let text = &response[..response.len() - 1];
    text.ends_with(positions) && text[..text.len() - positions.len()].ends_with(b"\nend ")
}
