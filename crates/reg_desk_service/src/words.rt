//! Reads a line at the control socket: one that only the control socket has (in code: a word), or any other line.

ghost use Rattle.std.specs.Prelude.{◌≡◌, IfOk};
ghost use Rattle.reg_desk_cli.specs.WordValues.{steps_of};
ghost use Rattle.reg_desk_service.specs.ControlWords.{IsWord, accepted_by_word, accepted_in, serial_decision_by, serial_decision_in, row_key_by, row_key_in, steps_set};
ghost use Rattle.reg_lines.specs.Fields.{fields_of};

use crate::copies::{is_copy_line, path_in};
use reg_core::{Command, Label, Moment, Serial, read_number};
use reg_desk_cli::{Steps, read_step};
use reg_lines::{Fields, untimed_line, without_end};
use std::alloc::{AllocError, Global};

#[derive(Drop)]
pub(crate) enum ControlWord<'a> {
    Help,
    /// `why`: the reply is the last reason that the desk kept for the connection, mostly why a line was refused.
    Why,
    /// `copy`: the desk copies the register to this path; `None` if the path is not UTF-8.
    Copy(Option<&'a str>),
    Show(RowKey),
    /// `revoke N SERIAL` or `decline N SERIAL`: carries out or declines the request with the number N, if it is for this serial number.
    Decide(SerialDecision),
    /// `accept-clock`: the operator accepts this moment, so the clock may be up to 30 days past it.
    AcceptClock(AcceptedClock),
    /// `schedule`: the desk sets the longest validities. Each step has a notBefore, and the most days of a certificate from that notBefore on.
    Schedule(Steps),
    /// Any other line, or a word above with wrong fields, without line end. `None` if over 8,171 bytes (in a script 8,192 with a moment and a space).
    Line(Option<&'a [u8]>),
}

/// The row that `show` is to show: a request by its number (`show request N`), a certificate by its serial number, or a subscriber by its name.
#[derive(Clone, Copy)]
pub(crate) enum RowKey {
    Request(u64),
    Certificate(Serial),
    Subscriber(Label),
}

#[derive(Clone, Copy)]
pub(crate) struct AcceptedClock {
    pub(crate) moment: Moment,
}

#[derive(Clone, Copy)]
pub(crate) struct SerialDecision {
    pub(crate) command: Command,
    pub(crate) request: u64,
    pub(crate) serial: Serial,
}

pub(crate) fn read_control_line(alloc: Global, line: &[u8]) -> Result<ControlWord<'_>, AllocError>
    ensures { IfOk result (IsWord line.now) }
{
    let text = without_end(line);
    if text == b"help".as_slice() {
        return Ok(ControlWord::Help);
    }
    if text == b"why".as_slice() {
        return Ok(ControlWord::Why);
    }
    if is_copy_line(line) {
        return Ok(ControlWord::Copy(path_in(line)));
    }
    if let Some(shown) = row_key_in(text) {
        return Ok(ControlWord::Show(shown));
    }
    if let Some(serial_decision) = serial_decision_in(text) {
        return Ok(ControlWord::Decide(serial_decision));
    }
    if let Some(moment) = accepted_in(text) {
        return Ok(ControlWord::AcceptClock(AcceptedClock { moment }));
    }
    match steps_in(alloc, text) {
        Ok(Some(steps)) => Ok(ControlWord::Schedule(steps)),
        Ok(None) => Ok(ControlWord::Line(untimed_line(line))),
        Err(fault) => Err(fault),
    }
}

fn row_key_in(text: &[u8]) -> Option<RowKey>
    ensures { result ≡ row_key_in (fields_of text.now) }
{
    let mut fields = Fields::of(text);
    if fields.next()? == b"show".as_slice() {
        read_row_key(fields)
    } else {
        None
    }
}

fn read_row_key(mut fields: Fields<'_>) -> Option<RowKey>
    ensures { result ≡ row_key_by fields.entry }
{
    let first = fields.next()?;
    let Some(second) = fields.next() else {
        return Some(RowKey::Certificate(Serial::read(first)?));
    };
    if !fields.is_empty() {
        return None;
    }
    if first == b"request".as_slice() {
        Some(RowKey::Request(read_number(second)?))
    } else if first == b"subscriber".as_slice() {
        Some(RowKey::Subscriber(Label::of(second)?))
    } else {
        None
    }
}

pub(crate) fn serial_decision_in(text: &[u8]) -> Option<SerialDecision>
    ensures { result ≡ serial_decision_in (fields_of text.now) }
{
    let mut fields = Fields::of(text);
    let word = fields.next()?;
    let request = fields.next()?;
    let serial = fields.next()?;
    if fields.is_empty() {
        read_serial_decision(word, read_number(request)?, Serial::read(serial)?)
    } else {
        None
    }
}

fn read_serial_decision(word: &[u8], request: u64, serial: Serial) -> Option<SerialDecision>
    ensures { result ≡ serial_decision_by word.now request serial }
{
    let command = if word == b"revoke".as_slice() {
        Command::Revoke { request }
    } else if word == b"decline".as_slice() {
        Command::Decline { request }
    } else {
        return None;
    };
    Some(SerialDecision {
        command,
        request,
        serial,
    })
}

fn accepted_in(text: &[u8]) -> Option<Moment>
    ensures { result ≡ accepted_in (fields_of text.now) }
{
    let mut fields = Fields::of(text);
    let word = fields.next()?;
    let moment = fields.next()?;
    if fields.is_empty() {
        read_accepted(word, moment)
    } else {
        None
    }
}

fn read_accepted(word: &[u8], moment: &[u8]) -> Option<Moment>
    ensures { result ≡ accepted_by_word word.now moment.now }
{
    if word == b"accept-clock".as_slice() {
        Moment::read(moment)
    } else {
        None
    }
}

fn steps_in(alloc: Global, text: &[u8]) -> Result<Option<Steps>, AllocError>
    ensures { IfOk result (λ steps. steps ≡ steps_set (fields_of text.now)) }
{
    let mut fields = Fields::of(text);
    match fields.next() {
        Some(word) if word == b"schedule".as_slice() && !fields.is_empty() => {
            read_steps(alloc, fields)
        }
        _ => Ok(None),
    }
}

fn read_steps(alloc: Global, mut fields: Fields<'_>) -> Result<Option<Steps>, AllocError>
    ensures { IfOk result (λ steps. steps ≡ steps_of fields.entry) }
{
    let mut steps = Vec::new(alloc);
    for _ in 0..u64::MAX {
        match fields.next() {
            Some(text) => match read_step(text) {
                Some(step) => steps.push(step)?,
                None => return Ok(None),
            },
            None => return Ok(Some(Steps::of(steps))),
        }
    }
    // No line has this many fields.
    Err(AllocError)
}
