//! Reads a line of the log for `desk replay`: the exchange that it records, and the command to send again.

ghost use Rattle.std.specs.Prelude.{◌≡◌, ◌<◌, IfSome, length, option_map};
ghost use Rattle.std.specs.List.{position};
ghost use Rattle.reg_lines.specs.Fields.{fields_of};
ghost use Rattle.reg_desk_jobs.specs.LogEntries.{accepted, decision_by, enters, exchange_in, exchange_of, first_word, has_quote, is_control, is_quote, is_of_request, is_whole, log_meaning_of, named_in, split_at_quote, request_by, request_named, second_word, unnamed, was_accepted};

use reg_core::{Label, Serial, read_number};
use reg_desk_service::{CONTROL_SOCKET, MOST_QUOTED};
use reg_lines::{Fields, is_accepted};

/// The parts of a line of the log, without its quotation marks. These enclose a control line or HTTP request (`asked`), and its answer (`answered`).
#[derive(Clone, Copy)]
pub(crate) struct ExchangeText<'a> {
    /// Two words before the first quotation mark.
    pub(crate) moment_and_client: &'a [u8],
    pub(crate) asked: &'a [u8],
    pub(crate) answered: &'a [u8],
    /// A space; the answer's length in bytes; the exchange's microseconds; then perhaps `request ID SERIAL ..`; and `signer`, if a signature failed.
    pub(crate) after_answer: &'a [u8],
}

/// A command that `replay` sends again.
#[derive(Clone, Copy)]
pub(crate) enum LoggedCommand {
    /// The control line that the exchange quotes (`asked`), as it is.
    Line,
    /// A request for revocation that was entered. `id` is the number that it got then. `ground` is a word for the reason, such as `key-compromise`.
    Request {
        id: u64,
        serial: Serial,
        ground: Label,
    },
    /// A control line that revoked or declined a request for revocation, which had the number `id` then.
    Decision {
        id: u64,
        serial: Serial,
    },
}

#[derive(Clone, Copy)]
pub(crate) enum LogMeaning {
    /// The exchange has no accepted command that changes the register.
    Nothing,
    /// A command of which the log has only a part, or one on a request for revocation that the log doesn't name.
    Unknown,
    Command(LoggedCommand),
}

/// The exchange of a line of the log; `None` if the line has fewer than four quotation marks.
#[tactic(auto, unfolding(crate::specs::LogEntries::exchange_in))]
pub(crate) fn exchange_in(line: &[u8]) -> Option<ExchangeText<'_>>
    ensures { option_map exchange_of result ≡ exchange_in line.now }
{
    let (moment_and_client, rest) = split_at_quote(line)?;
    let (asked, rest) = split_at_quote(rest)?;
    let (_, rest) = split_at_quote(rest)?;
    let (answered, after_answer) = split_at_quote(rest)?;
    Some(ExchangeText {
        moment_and_client,
        asked,
        answered,
        after_answer,
    })
}

#[tactic(auto, unfolding(crate::specs::LogEntries::split_at_quote))]
fn split_at_quote(text: &[u8]) -> Option<(&[u8], &[u8])>
    ensures { option_map (λ p. (p.0.now, p.1.now)) result ≡ split_at_quote text.now }
{
    let quote = first_quote(text)?;
    Some((&text[..quote], &text[quote + 1..]))
}

fn first_quote(text: &[u8]) -> Option<usize>
    ensures place { result ≡ position is_quote text.now }
    ensures within { IfSome result (λ mark. mark < length text.now) }
{
    text.iter().position(|byte| *byte == b'"')
}

pub(crate) fn has_quote(text: &[u8]) -> bool
    ensures { result ≡ has_quote text.now }
{
    text.contains(&b'"')
}

/// The meaning of an exchange. `Unknown` if a fifth quotation mark follows: then the line begins with an earlier line that was not written whole.
#[tactic(auto, unfolding(crate::specs::LogEntries::log_meaning_of))]
pub(crate) fn log_meaning_of(logged_exchange: &ExchangeText<'_>) -> LogMeaning
    ensures { result ≡ log_meaning_of (exchange_of logged_exchange.now) }
{
    if has_quote(logged_exchange.after_answer) {
        return LogMeaning::Unknown;
    }
    match named_in(logged_exchange.after_answer) {
        Some(logged) => logged,
        None => unnamed(logged_exchange),
    }
}

/// The meaning of an exchange that names a request for revocation after three fields (an empty one before the space, two numbers); else `None`.
#[tactic(auto, unfolding(crate::specs::LogEntries::named_in))]
fn named_in(after_answer: &[u8]) -> Option<LogMeaning>
    ensures { result ≡ named_in (fields_of after_answer.now) }
{
    let mut fields = Fields::of(after_answer);
    fields.next()?;
    fields.next()?;
    fields.next()?;
    if fields.next()? != b"request".as_slice() {
        return None;
    }
    match request_named(fields) {
        Some(command) => Some(LogMeaning::Command(command)),
        None => Some(LogMeaning::Unknown),
    }
}

/// The command in the fields after `request`: ID SERIAL for a decision, ID SERIAL GROUND for an entered request; `None` for other fields.
#[tactic(auto, unfolding(crate::specs::LogEntries::request_named))]
fn request_named(mut fields: Fields<'_>) -> Option<LoggedCommand>
    ensures { result ≡ request_named fields.entry }
{
    let id = fields.next()?;
    let serial = fields.next()?;
    match fields.next() {
        None => decision_by(id, serial),
        Some(word) if fields.is_empty() => request_by(id, serial, word),
        Some(_) => None,
    }
}

#[tactic(auto, unfolding(crate::specs::LogEntries::decision_by))]
fn decision_by(id: &[u8], serial: &[u8]) -> Option<LoggedCommand>
    ensures { result ≡ decision_by id.now serial.now }
{
    let id = read_number(id)?;
    let serial = Serial::read(serial)?;
    Some(LoggedCommand::Decision { id, serial })
}

#[tactic(auto, unfolding(crate::specs::LogEntries::request_by))]
fn request_by(id: &[u8], serial: &[u8], word: &[u8]) -> Option<LoggedCommand>
    ensures { result ≡ request_by id.now serial.now word.now }
{
    let id = read_number(id)?;
    let serial = Serial::read(serial)?;
    let ground = Label::of(word)?;
    Some(LoggedCommand::Request { id, serial, ground })
}

/// The meaning of an exchange that names no request: a command if the control socket accepted it, it changes the register, and the log has all of it.
#[tactic(auto, unfolding(crate::specs::LogEntries::unnamed))]
fn unnamed(logged_exchange: &ExchangeText<'_>) -> LogMeaning
    ensures { result ≡ unnamed (exchange_of logged_exchange.now) }
{
    if !was_accepted(logged_exchange) {
        return LogMeaning::Nothing;
    }
    let word = first_word(logged_exchange.asked);
    if is_of_request(word) {
        LogMeaning::Unknown
    } else if !enters(word) {
        LogMeaning::Nothing
    } else if is_whole(logged_exchange.asked) {
        LogMeaning::Command(LoggedCommand::Line)
    } else {
        LogMeaning::Unknown
    }
}

fn was_accepted(logged_exchange: &ExchangeText<'_>) -> bool
    ensures { result ≡ was_accepted (exchange_of logged_exchange.now) }
{
    is_control(second_word(logged_exchange.moment_and_client)) && accepted(logged_exchange.answered)
}

/// Whether a client is the control socket, which older versions of the program log as `counter`.
fn is_control(client: &[u8]) -> bool
    ensures { result ≡ is_control client.now }
{
    client == CONTROL_SOCKET.as_bytes() || client == b"counter".as_slice()
}

/// Whether a reply shows acceptance. An empty one doesn't: the desk had no memory for the reply.
fn accepted(answered: &[u8]) -> bool
    ensures { result ≡ accepted answered.now }
{
    !answered.is_empty() && is_accepted(answered)
}

/// Whether a line with this first word, once accepted, enters or decides a request for revocation, which its exchange should then name.
fn is_of_request(word: &[u8]) -> bool
    ensures { result ≡ is_of_request word.now }
{
    word == b"request".as_slice() || word == b"revoke".as_slice() || word == b"decline".as_slice()
}

/// Whether a line with this first word, once accepted, changes the register, but no request for revocation.
fn enters(word: &[u8]) -> bool
    ensures { result ≡ enters word.now }
{
    word == b"subscriber".as_slice()
        || word == b"order".as_slice()
        || word == b"register".as_slice()
        || word == b"crl".as_slice()
        || word == b"schedule".as_slice()
}

/// Whether the log surely has all of a text as it came: it has less than 256 bytes, so it was not cut off, and has no escaped byte.
fn is_whole(text: &[u8]) -> bool
    ensures { result ≡ is_whole text.now }
{
    text.len() < MOST_QUOTED && !text.contains(&b'\\')
}

pub(crate) fn first_word(text: &[u8]) -> &[u8]
    ensures { result.now ≡ first_word text.now }
{
    let mut fields = Fields::of(text);
    match fields.next() {
        Some(word) => word,
        None => b"",
    }
}

pub(crate) fn second_word(text: &[u8]) -> &[u8]
    ensures { result.now ≡ second_word text.now }
{
    let mut fields = Fields::of(text);
    fields.next();
    match fields.next() {
        Some(word) => word,
        None => b"",
    }
}
