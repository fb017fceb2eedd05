//! The reasons in the replies to `why` at the control socket, and those of refused registrations that `--strict --why` (`script`, `import`) prints.

ghost use Rattle.std.specs.Prelude.{◌≡◌, ◌⊎◌, ◌≤◌, ◌++◌, ◌∷◌, [], IfNone, IfOk, IfSome, option_map};
ghost use Rattle.reg_office_api.specs.Calls.{KeepsIn};
ghost use Rattle.reg_desk_service.specs.ControlReplies.{ReportsLineOutcome};
ghost use Rattle.reg_desk_service.specs.Syntax.{wrong_in};
ghost use Rattle.reg_lines.specs.Fields.{fields_of};
ghost use Rattle.reg_desk_service.specs.Reasons.{IsReasonLine, ahead_text, last_second, latest_text, text_with_number, other_text, reason_text, kept_reason_text};

use crate::control_reply::{ControlReply, LineOutcome};
use crate::machine::Machine;
use crate::syntax::{WrongField, wrong_field, wrong_field_text};
use reg_core::{Command, Decimal, Fault, Moment, Refusal, Serial};
use reg_lines::{Ended, RefusedCommand, read_line};
use reg_office_api::{LineReply, Office};
use std::alloc::{AllocError, Global};
use std::cell::Cell;

const DAY: u64 = 86_400;

/// Why a line, or an import's row, was refused, in more detail than its reply. Only `Unsigned` is no refusal: it is why the next CRL is due at once.
#[derive(Clone, Copy, PartialEq, Eq)]
pub enum Reason {
    /// There is no order with this number; or (`Filled`) that order already has a certificate.
    NoOrder(u64),
    Filled(u64),
    /// The latest notAfter that the order and the register's schedule (`desk schedule`) allow with the line's notBefore (RFC 5280 4.1.2.5).
    Latest(Moment),
    /// The request with this number is for this serial number, and not for the one in the line.
    OtherSerial(u64, Serial),
    /// The clock is over 30 days past this moment of the last command and, after a line `accept-clock MOMENT`, also over 30 days past MOMENT.
    ClockAhead(Moment),
    /// The line can't be read, because of this field.
    Wrong(WrongField),
    /// The latest CRL, with this number, has a placeholder digest instead of a signature, and the next one will be signed.
    Unsigned(u64),
}

/// The reply to the line `why`, with the last reason that was kept for its connection (empty: none).
pub(crate) fn reason_reply(alloc: Global, last_reason: &[u8]) -> ControlReply
    ensures { ReportsLineOutcome result.line_outcome result.text.items }
{
    ControlReply::made(alloc, why_reply(alloc, last_reason), LineOutcome::Done)
}

#[tactic(auto, unfolding(crate::specs::Reasons::kept_reason_text))]
fn why_reply(alloc: Global, last_reason: &[u8]) -> Result<Vec<u8>, AllocError>
    ensures { IfOk result (λ text. text.items ≡ kept_reason_text last_reason.now) }
{
    let mut text = Vec::from_slice(alloc, b"why ")?;
    if last_reason.is_empty() {
        text.extend_from_slice(b"nothing\n")?;
        return Ok(text);
    }
    text.extend_from_slice(last_reason)?;
    Ok(text)
}

/// Keeps why a command was refused ([`reason_of`]); or the reply, if the line was no command, no reason is known, or there is no memory for it.
pub(crate) fn keep_refusal_reason<M: Machine>(
    alloc: Global,
    office: &mut M::Office,
    refused: Option<RefusedCommand>,
    reply: &[u8],
    last_reason: &mut Vec<u8>,
)
    ensures { KeepsIn M.Office.Office office.old office.new }
{
    match refused {
        Some(refused) => {
            let reason = reason_of::<M>(office, &refused);
            keep_reason_text(reason_line(alloc, b"", reason), reply, last_reason);
        }
        None => keep_reply_reason(reply, last_reason),
    }
}

/// Keeps a text as the last reason; if there is none, or no memory for it, keeps the reply.
pub(crate) fn keep_reason_text(text: Option<Vec<u8>>, reply: &[u8], last_reason: &mut Vec<u8>) {
    match text {
        Some(text) => *last_reason = text,
        None => keep_reply_reason(reply, last_reason),
    }
}

/// Keeps which field of a line is wrong, if the line can't be read. If no wrong field is found, keeps the reply.
pub(crate) fn keep_syntax_reason(
    alloc: Global,
    line: &[u8],
    reply: &ControlReply,
    last_reason: &mut Vec<u8>,
) {
    if reply.line_outcome.kind() == LineReply::Refused && read_line(line).is_none() {
        keep_reason_text(
            reason_line(alloc, b"", wrong_field_reason(line)),
            &reply.text,
            last_reason,
        );
    }
}

fn wrong_field_reason(line: &[u8]) -> Option<Reason>
    ensures { result ≡ option_map (λ field. Reason.Wrong field) (wrong_in (fields_of line.now)) }
{
    Some(Reason::Wrong(wrong_field(line)?))
}

/// Keeps the reply as the last reason; without memory for it, no reason is kept.
pub(crate) fn keep_reply_reason(reply: &[u8], last_reason: &mut Vec<u8>) {
    last_reason.clear();
    let _ = last_reason.extend_from_slice(reply);
}

/// Why the register refused a registration for its order or its validity (E08, E09 or E12); `None` for any other refusal.
fn reason_of<M: Machine>(office: &mut M::Office, refused: &RefusedCommand) -> Option<Reason>
    ensures { KeepsIn M.Office.Office office.old office.new }
{
    let Command::Register {
        order,
        not_before,
        ..
    } = refused.command
    else {
        return None;
    };
    match refused.why {
        Refusal::NoOrder => Some(Reason::NoOrder(order)),
        Refusal::OrderFilled => Some(Reason::Filled(order)),
        Refusal::TooLong => latest_of::<M>(office, order, not_before),
        _ => None,
    }
}

fn latest_of<M: Machine>(office: &mut M::Office, order: u64, not_before: Moment) -> Option<Reason>
    ensures { KeepsIn M.Office.Office office.old office.new }
{
    match office.longest(order, not_before) {
        Ok(Some(days)) => Some(Reason::Latest(last_moment_of(not_before, days)?)),
        _ => None,
    }
}

/// Keeps in `reason` why a script or an import ended at a refused registration ([`reason_of`]); `None` if it ended otherwise.
pub fn keep_reason<M: Machine>(
    office: &mut M::Office,
    run_result: &Result<Ended, Fault>,
    reason: &Cell<Option<Reason>>,
)
    ensures { KeepsIn M.Office.Office office.old office.new }
{
    match *run_result {
        Ok(Ended::Refused(Some(refused))) => reason.set(reason_of::<M>(office, &refused)),
        _ => reason.set(None),
    }
}

/// The last second of a validity of `days` days from `not_before` on. Both ends count (RFC 5280 4.1.2.5), so one second is subtracted.
fn last_moment_of(not_before: Moment, days: u64) -> Option<Moment>
    ensures some { IfSome result (λ at. at ≡ last_second not_before days) }
    ensures none { IfNone result ((days ≡ 0) ⊎ (253402300800 ≤ last_second not_before days)) }
{
    let seconds = days.checked_mul(DAY)?.checked_sub(1)?;
    Moment::of_secs(not_before.secs().checked_add(seconds)?)
}

/// A prefix (`b""`, none, for the reply to `why`), the text of a reason and an LF; `None` if there is no reason or no memory.
pub fn reason_line(alloc: Global, prefix: &[u8], reason: Option<Reason>) -> Option<Vec<u8>>
    ensures { IfSome result (λ text. IsReasonLine prefix.now reason text.items) }
{
    let words = reason_words(alloc, reason?).ok()?;
    prefixed_line(alloc, prefix, &words).ok()
}

pub(crate) fn prefixed_line(
    alloc: Global,
    prefix: &[u8],
    words: &[u8],
) -> Result<Vec<u8>, AllocError>
    ensures { IfOk result (λ text. text.items ≡ prefix.now ++ words.now ++ 10 ∷ []) }
{
    let mut text = Vec::from_slice(alloc, prefix)?;
    text.extend_from_slice(words)?;
    text.push(b'\n')?;
    Ok(text)
}

fn reason_words(alloc: Global, reason: Reason) -> Result<Vec<u8>, AllocError>
    ensures { IfOk result (λ text. text.items ≡ reason_text reason) }
{
    match reason {
        Reason::NoOrder(order) => numbered_text(alloc, b"no order ", order, b""),
        Reason::Filled(order) => numbered_text(
            alloc,
            b"order ",
            order,
            b" already has a certificate",
        ),
        Reason::Latest(at) => latest_text_of(alloc, at),
        Reason::OtherSerial(request, serial) => other_serial_text(alloc, request, serial),
        Reason::ClockAhead(last) => ahead_text_of(alloc, last),
        Reason::Wrong(wrong) => wrong_field_text(alloc, wrong),
        Reason::Unsigned(number) => numbered_text(
            alloc,
            b"CRL ",
            number,
            b" has a placeholder digest: the next one is due at once",
        ),
    }
}

#[tactic(auto, unfolding(crate::specs::Reasons::latest_text))]
fn latest_text_of(alloc: Global, at: Moment) -> Result<Vec<u8>, AllocError>
    ensures { IfOk result (λ text. text.items ≡ latest_text at) }
{
    let mut text = Vec::from_slice(alloc, b"notAfter at most ")?;
    text.extend_from_slice(&at.text())?;
    Ok(text)
}

#[tactic(auto, unfolding(crate::specs::Reasons::ahead_text))]
fn ahead_text_of(alloc: Global, last: Moment) -> Result<Vec<u8>, AllocError>
    ensures { IfOk result (λ text. text.items ≡ ahead_text last) }
{
    let mut text = Vec::from_slice(
        alloc,
        b"the clock is more than 30 days past the last command, ",
    )?;
    text.extend_from_slice(&last.text())?;
    Ok(text)
}

fn other_serial_text(alloc: Global, request: u64, serial: Serial) -> Result<Vec<u8>, AllocError>
    ensures { IfOk result (λ text. text.items ≡ other_text request serial) }
{
    let mut text = Vec::from_slice(alloc, b"request ")?;
    text.extend_from_slice(Decimal::of(request).as_bytes())?;
    text.extend_from_slice(b" is for ")?;
    text.extend_from_slice(&serial.text())?;
    Ok(text)
}

fn numbered_text(
    alloc: Global,
    prefix: &[u8],
    number: u64,
    end: &[u8],
) -> Result<Vec<u8>, AllocError>
    ensures { IfOk result (λ text. text.items ≡ text_with_number prefix.now number end.now) }
{
    let digits = Decimal::of(number);
    let mut text = Vec::from_slice(alloc, prefix)?;
    text.extend_from_slice(digits.as_bytes())?;
    text.extend_from_slice(end)?;
    Ok(text)
}
