//! The job `replay`: sends the accepted commands of a log to the control socket of an open desk again.

ghost use Rattle.std.specs.Prelude.{◌≡◌, ◌++◌, ◌⊎◌, IfOk, OnOk};
ghost use Rattle.reg_desk_jobs.specs.LogEntries.{exchange_of};
ghost use Rattle.reg_desk_jobs.specs.Replays.{EntryEnds, LineEnds, ReplaysAt, ReplaysLog, ReplaysOver, StopsWith, agrees, line_to_send, text_to_send, number_now, renumbered, state_of};

use crate::at_job::{NextLine, exchange, next_line};
use crate::line_source::LineSource;
use crate::log_entries::{
    ExchangeText, LogMeaning, LoggedCommand, exchange_in, first_word, has_quote, log_meaning_of,
    second_word,
};
use crate::output_lines::print_text;
use reg_core::{Fault, read_number};
use reg_desk_cli::Failure;
use reg_desk_service::{Machine, put_number, put_word};
use reg_io::Sink;
use reg_lines::without_end;
use std::alloc::{AllocError, Global};
use std::io::{BufReader, Read, Write};
use std::os::unix::net::UnixStream;

/// The number that a request for revocation has in the log, and the number that the open desk gave it in the replay.
#[derive(Clone, Copy)]
struct Renumbered {
    logged: u64,
    given: u64,
}

/// Sends each accepted command of a log (`reader`) to the control socket at a path, in order, and writes the replies. A request for revocation,
/// also one by `POST /requests`, is sent as `request SERIAL GROUND`. A decision (`revoke`, `decline`) has the number that its request has now.
/// Errors: `Refused` if a line of the log has only a part of a command, or lacks the `request ID SERIAL` of its command, or if its reply now doesn't
/// agree ([`agrees`]); that line is written last. `NoLineEnd` at a last line without LF; `Read`, also if it can't connect; `Write`; `Memory`.
pub fn replay<M: Machine, R: Read, W: Write>(
    alloc: Global,
    machine: &M,
    control_path: &str,
    reader: &mut R,
    writer: &mut W,
) -> Result<(), Failure>
    ensures { ReplaysAt (M.socket_connected control_path.now) (R.remaining reader.old)
        (W.contents writer.old) (W.contents writer.new) result }
{
    match machine.connect_to_socket(control_path) {
        Ok(stream) => replay_over(alloc, &stream, reader, writer),
        Err(_) => Err(Failure::Fault(Fault::Read)),
    }
}

fn replay_over<R: Read, W: Write>(
    alloc: Global,
    stream: &UnixStream,
    reader: &mut R,
    writer: &mut W,
) -> Result<(), Failure>
    ensures { ReplaysOver (R.remaining reader.old) (W.contents writer.old) (W.contents writer.new) result }
{
    let Ok(mut incoming) = BufReader::new(alloc, stream) else {
        return Err(Failure::Fault(Fault::Memory));
    };
    let mut outgoing = stream;
    let mut numbers = Vec::new(alloc);
    match BufReader::new(alloc, reader) {
        Ok(mut log) => {
            replay_log(
                alloc,
                &mut log,
                &mut numbers,
                writer,
                &mut incoming,
                &mut outgoing,
            )
        }
        Err(_) => Err(Failure::Fault(Fault::Memory)),
    }
}

/// Replays the lines of `log`. `numbers` has the requests for revocation that were entered again so far.
fn replay_log<R: LineSource, W: Sink, C: LineSource, S: Sink>(
    alloc: Global,
    log: &mut R,
    numbers: &mut Vec<Renumbered>,
    writer: &mut W,
    incoming: &mut C,
    outgoing: &mut S,
) -> Result<(), Failure>
    ensures { ReplaysLog (R.failed ⊎ C.failed) (W.failed ⊎ S.failed)
        (R.remaining log.old)
        (state_of (S.contents outgoing.old) (C.remaining incoming.old) (W.contents writer.old)
        numbers.old.items)
        (state_of (S.contents outgoing.new) (C.remaining incoming.new) (W.contents writer.new)
        numbers.new.items)
        result }
{
    for _ in 0..u64::MAX {
        match next_line(alloc, log)? {
            NextLine::Line(line) => match replay_line(
                alloc, &line, numbers, writer, incoming, outgoing,
            ) {
                Ok(()) => {}
                Err(why) => return Err(why),
            },
            NextLine::Cut => return Err(Failure::NoLineEnd),
            NextLine::End => return Ok(()),
        }
    }
    // Not reached: no log has this many lines.
    Err(Failure::Fault(Fault::Read))
}

fn replay_line<W: Sink, C: LineSource, S: Sink>(
    alloc: Global,
    line: &[u8],
    numbers: &mut Vec<Renumbered>,
    writer: &mut W,
    incoming: &mut C,
    outgoing: &mut S,
) -> Result<(), Failure>
    ensures { LineEnds C.failed (W.failed ⊎ S.failed)
        (state_of (S.contents outgoing.old) (C.remaining incoming.old) (W.contents writer.old)
        numbers.old.items) line.now
        (state_of (S.contents outgoing.new) (C.remaining incoming.new) (W.contents writer.new)
        numbers.new.items)
        result }
{
    let text = without_end(line);
    match exchange_in(text) {
        Some(logged_exchange) => match log_meaning_of(&logged_exchange) {
            LogMeaning::Nothing => Ok(()),
            LogMeaning::Unknown => stop(writer, line),
            LogMeaning::Command(logged_command) => {
                replay_entry(
                    alloc,
                    line,
                    &logged_exchange,
                    &logged_command,
                    numbers,
                    writer,
                    incoming,
                    outgoing,
                )
            }
        },
        // An exchange has four quotation marks, a part of one has one to three. A line with none reports something else, such as a lost connection.
        None if has_quote(text) => stop(writer, line),
        None => Ok(()),
    }
}

fn replay_entry<W: Sink, C: LineSource, S: Sink>(
    alloc: Global,
    line: &[u8],
    logged_exchange: &ExchangeText<'_>,
    logged_command: &LoggedCommand,
    numbers: &mut Vec<Renumbered>,
    writer: &mut W,
    incoming: &mut C,
    outgoing: &mut S,
) -> Result<(), Failure>
    ensures { EntryEnds C.failed (W.failed ⊎ S.failed)
        (state_of (S.contents outgoing.old) (C.remaining incoming.old) (W.contents writer.old)
        numbers.old.items)
        (exchange_of logged_exchange.now) logged_command.now line.now
        (state_of (S.contents outgoing.new) (C.remaining incoming.new) (W.contents writer.new)
        numbers.new.items)
        result }
{
    let Ok(command) = line_to_send(alloc, numbers, logged_exchange, logged_command) else {
        return Err(Failure::Fault(Fault::Memory));
    };
    let reply = exchange(alloc, &command, writer, incoming, outgoing)?;
    let text = without_end(&reply);
    if !agrees(logged_exchange, logged_command, text) {
        return stop(writer, line);
    }
    match renumber(numbers, logged_command, text) {
        Ok(()) => Ok(()),
        Err(_) => Err(Failure::Fault(Fault::Memory)),
    }
}

fn stop<W: Sink>(writer: &mut W, line: &[u8]) -> Result<(), Failure>
    ensures { StopsWith W.failed (W.contents writer.old) line.now (W.contents writer.new) result }
{
    print_text(writer, line)?;
    Err(Failure::Refused)
}

fn line_to_send(
    alloc: Global,
    numbers: &[Renumbered],
    logged_exchange: &ExchangeText<'_>,
    logged_command: &LoggedCommand,
) -> Result<Vec<u8>, AllocError>
    ensures { IfOk result (λ line.
        line.items ≡ line_to_send numbers.now (exchange_of logged_exchange.now) logged_command.now) }
{
    let mut line = Vec::new(alloc);
    put_text(&mut line, numbers, logged_exchange, logged_command)?;
    line.push(b'\n')?;
    Ok(line)
}

fn put_text(
    line: &mut Vec<u8>,
    numbers: &[Renumbered],
    logged_exchange: &ExchangeText<'_>,
    logged_command: &LoggedCommand,
) -> Result<(), AllocError>
    ensures { OnOk result
        (line.new.items ≡ line.old.items
        ++ text_to_send numbers.now (exchange_of logged_exchange.now) logged_command.now) }
{
    match *logged_command {
        LoggedCommand::Line => line.extend_from_slice(logged_exchange.asked),
        LoggedCommand::Request { serial, ground, .. } => {
            line.extend_from_slice(b"request")?;
            put_word(line, &serial.text())?;
            put_word(line, ground.as_bytes())
        }
        LoggedCommand::Decision { id, serial } => {
            line.extend_from_slice(first_word(logged_exchange.asked))?;
            put_number(line, number_now(numbers, id))?;
            put_word(line, &serial.text())
        }
    }
}

/// The number that a request for revocation has now: the last one that it was given in the replay, or else that of the log (`logged`).
fn number_now(numbers: &[Renumbered], logged: u64) -> u64
    ensures { result ≡ number_now numbers.now logged }
{
    let mut number = logged;
    for one in numbers {
        if one.logged == logged {
            number = one.given;
        }
    }
    number
}

/// Whether a reply's first two words are as logged; for a decision the first alone (it may be `revoked late` now); for a request it is `request`.
fn agrees(logged_exchange: &ExchangeText<'_>, logged_command: &LoggedCommand, reply: &[u8]) -> bool
    ensures { result ≡ agrees (exchange_of logged_exchange.now) logged_command.now reply.now }
{
    match logged_command {
        LoggedCommand::Line => {
            first_word(reply) == first_word(logged_exchange.answered)
                && second_word(reply) == second_word(logged_exchange.answered)
        }
        LoggedCommand::Request { .. } => first_word(reply) == b"request".as_slice(),
        LoggedCommand::Decision { .. } => first_word(reply) == first_word(logged_exchange.answered),
    }
}

/// If the command (`logged_command`) is a request for revocation, keeps in `numbers` the number that the reply `request NUMBER ..` gives it.
fn renumber(
    numbers: &mut Vec<Renumbered>,
    logged_command: &LoggedCommand,
    reply: &[u8],
) -> Result<(), AllocError>
    ensures { OnOk result (numbers.new.items ≡ numbers.old.items ++ renumbered logged_command.now reply.now) }
{
    let LoggedCommand::Request { id, .. } = logged_command else {
        return Ok(());
    };
    match read_number(second_word(reply)) {
        Some(given) => {
            numbers.push(Renumbered { logged: *id, given })?;
            Ok(())
        }
        None => Ok(()),
    }
}
