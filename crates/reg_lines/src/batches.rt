//! Runs the commands of a script in batches: those whose lines are in the buffer run in one transaction.

ghost use Rattle.std.specs.Prelude.{◌≡◌, ◌+◌, ◌≤◌, false, IfOk, IfSome, length, take};
ghost use Rattle.reg_office_api.specs.Calls.{LeadsIn};
ghost use Rattle.reg_lines.specs.Answer.{LineReplies};
ghost use Rattle.reg_lines.specs.Batches.{AreTimedCommands, BatchEnds, IsTimedCommand, MayBeAhead, WritesReplies};
ghost use Rattle.reg_lines.specs.ByCalls.{Lines};
ghost use Rattle.reg_lines.specs.Script.{RunEnds, longest_of};

use crate::answered::Ended;
use crate::line::{ParsedLine, read_line};
use crate::lines::{AfterLine, MOST_LINES, end_of_input, run_next};
use crate::moments::{take_moment, without_end};
use crate::reply::ReplyText;
use crate::script::NoHost;
use reg_core::{Command, Fault, Moment, Outcome};
use reg_io::{Sink, Source, WriteFault, first_delimiter, write_whole};
use reg_office_api::Office;
use std::alloc::Global;

/// The most commands in one transaction.
const MOST_COMMANDS: usize = 256;

/// How many lines of the buffer ran, and how many bytes they have.
#[derive(Clone, Copy)]
struct Ran {
    count: usize,
    length: usize,
}

/// The commands of lines, each with its moment, and how many bytes these lines have.
#[derive(Drop)]
struct TimedCommands {
    commands: Vec<(Moment, Command)>,
    length: usize,
}

/// A command with its moment, and the length of its line.
#[derive(Clone, Copy)]
struct TimedCommand {
    length: usize,
    command: (Moment, Command),
}

/// Runs each line of a script: the commands in the buffer in one transaction, and then the next line alone. `buffer` has room for the longest line.
pub(crate) fn run_batches<R: Source, W: Sink, O: Office>(
    alloc: Global,
    reader: &mut R,
    writer: &mut W,
    office: &mut O,
    buffer: &mut [u8],
) -> Result<Ended, Fault>
    requires { length buffer.old ≡ longest_of false + 1 }
    ensures { LeadsIn O.Office
        (λ signers before ahead. MayBeAhead
        (λ s t. RunEnds (longest_of false) (R.remaining reader.old) (R.remaining reader.new)
        (W.contents writer.old) (W.contents writer.new) (LineReplies (Lines O.signs signers) (λ now. ⊥) false)
        s t R.failed ⊥ W.failed false) before ahead result)
        office.old office.new }
{
    let mut buffered = 0;
    let mut ran: usize = 0;
    while ran < MOST_LINES as usize {
        let most = MOST_LINES as usize - 1 - ran;
        match run_batch(alloc, writer, office, &buffer[..buffered], most) {
            Ok(batch) => {
                buffer.rotate_left(batch.length);
                buffered -= batch.length;
                ran += batch.count;
            }
            Err(fault) => return Err(fault),
        }
        match run_next(
            alloc, reader, writer, office, &NoHost, false, buffer, buffered,
        ) {
            Ok(AfterLine::Held(left)) => {
                buffered = left;
                ran += 1;
            }
            Ok(AfterLine::End(ended)) => return Ok(ended),
            Err(fault) => return Err(fault),
        }
    }
    // As in `run_all`.
    if buffered > 0 {
        return Err(Fault::Read);
    }
    end_of_input(reader, &mut buffer[..1])
}

/// Runs the commands at the beginning of the bytes that are held, at most `most` of them, in one transaction, and writes their replies. None runs if
/// there are fewer than two, or if the transaction failed.
fn run_batch<W: Sink, O: Office>(
    alloc: Global,
    writer: &mut W,
    office: &mut O,
    held: &[u8],
    most: usize,
) -> Result<Ran, Fault>
    ensures leads { LeadsIn O.Office
        (λ signers before after. BatchEnds (LineReplies (Lines O.signs signers) (λ now. ⊥) false) before after
        (W.contents writer.old) (W.contents writer.new) held.now most W.failed result)
        office.old office.new }
    ensures within { IfOk result (λ ran. ran.length ≤ length held.now) }
    ensures few { IfOk result (λ ran. ran.count ≤ most) }
{
    let none = Ran {
        count: 0,
        length: 0,
    };
    let TimedCommands { commands, length } = timed_commands(alloc, held, most);
    if commands.len() < 2 {
        return Ok(none);
    }
    match office.run_batch(alloc, &commands) {
        Ok(outcomes) => match write_replies(writer, &outcomes) {
            Ok(()) => Ok(Ran {
                count: commands.len(),
                length,
            }),
            Err(_) => Err(Fault::Write),
        },
        Err(_) => Ok(none),
    }
}

/// The commands of the lines at the beginning of the held bytes: at most `most`, at most `MOST_COMMANDS`, and as many as there is memory for.
fn timed_commands(alloc: Global, held: &[u8], most: usize) -> TimedCommands
    ensures commands { AreTimedCommands (take result.length held.now) result.commands.items }
    ensures within { result.length ≤ length held.now }
    ensures few { length result.commands.items ≤ most }
{
    let mut commands = Vec::new(alloc);
    let mut length = 0;
    for _ in 0..most.min(MOST_COMMANDS) {
        let next = match timed_command(&held[length..]) {
            Some(next) => next,
            None => break,
        };
        match commands.push(next.command) {
            Ok(()) => length += next.length,
            Err(_) => break,
        }
    }
    TimedCommands { commands, length }
}

/// The first line's length and command, with the moment; `None` if it has no LF, or is no command, or is `crl`, which a batch can't sign.
fn timed_command(held: &[u8]) -> Option<TimedCommand>
    ensures means { IfSome result (λ next. IsTimedCommand (take next.length held.now) next.command) }
    ensures within { IfSome result (λ next. next.length ≤ length held.now) }
{
    let length = match first_delimiter(held, held.len(), b"\n", 0) {
        Some(length) => length,
        None => return None,
    };
    let taken = match take_moment(without_end(&held[..length])) {
        Some(taken) => taken,
        None => return None,
    };
    match read_line(taken.1) {
        Some(ParsedLine::Command(Command::Crl)) => None,
        Some(ParsedLine::Command(command)) => Some(TimedCommand {
            length,
            command: (taken.0, command),
        }),
        _ => None,
    }
}

/// Writes the replies to commands with these outcomes.
fn write_replies<W: Sink>(writer: &mut W, outcomes: &[Outcome]) -> Result<(), WriteFault>
    ensures { WritesReplies (W.contents writer.old) (W.contents writer.new) W.failed outcomes.now result }
{
    for outcome in outcomes {
        match write_whole(writer, ReplyText::of(outcome).as_bytes()) {
            Ok(()) => {}
            Err(fault) => return Err(fault),
        }
    }
    Ok(())
}
