//! Runs consecutive command lines of the control socket in one transaction. A command line, here, has any command of scripts except `crl`.

ghost use Rattle.std.specs.Prelude.{◌≡◌, ◌⊎◌, ◌≤◌, ◌*◌, [], take, length, IfNone, IfSome, IsFalse, IsTrue, vec_capacity};
ghost use Rattle.reg_desk_metrics.specs.Ahead.{is_ahead as ahead_by};
ghost use Rattle.reg_desk_server.specs.LineEnds.{EndsLine, FirstLineEnds};
ghost use Rattle.reg_lines.specs.Replies.{outcome_line, with_lf};
ghost use Rattle.reg_lines.specs.Script.{pieces};
ghost use Rattle.reg_office_api.specs.Calls.{KeepsIn, LeadsIn, LooksIn};
ghost use Rattle.reg_desk_service.specs.CommandBatches.{AreCommandLines, IsCommandLine, replies_to};
ghost use Rattle.reg_desk_service.specs.ControlWords.{AnswersLinesAt};
ghost use Rattle.reg_desk_service.specs.Counted.{CountsLine};

use crate::control_reply::LineOutcome;
use crate::decisions_by_serial::{decided_request, logged_request};
use crate::exchange_log::log_line;
use crate::machine::Machine;
use crate::reasons::keep_refusal_reason;
use crate::words::{ControlWord, read_control_line};
use reg_core::{Command, Fault, Moment, Outcome};
use reg_desk_metrics::{Tally, is_ahead};
use reg_desk_server::{LineReplies, line_end};
use reg_lines::{LONGEST_REPLY, LineKind, ParsedLine, RefusedCommand, ReplyText, read_line};
use reg_office_api::Office;
use std::alloc::Global;

/// The most commands in one transaction. The commands share one sync of the disk, but other clients wait until the transaction ends.
const MOST_COMMANDS: usize = 256;

/// The command lines at the beginning of some lines; the command of each, with the moment at which it is to run; how many bytes they have, with LFs.
#[derive(Drop)]
struct CommandLines<'a> {
    lines: Vec<&'a [u8]>,
    commands: Vec<(Moment, Command)>,
    length: usize,
}

/// A command line, its length (both with the LF), and its command.
#[derive(Clone, Copy)]
struct CommandLine<'a> {
    line: &'a [u8],
    length: usize,
    command: Command,
}

/// Runs at `now` the command lines at the beginning of these lines in one transaction; counts (`tally`) and logs each. `None`: no command has run,
/// as there are fewer than two such lines, the clock is too far ahead, the store failed, or there was no memory. The first line then runs alone.
/// `accepted`: the moment of the last line `accept-clock`. `began`: the monotonic clock's µs before the answer. A line `why` reports `last_reason`.
pub(crate) fn answer_batch<M: Machine>(
    alloc: Global,
    office: &mut M::Office,
    machine: &M,
    tally: &mut Tally,
    accepted: Option<Moment>,
    began: u64,
    now: Moment,
    lines: &[u8],
    last_reason: &mut Vec<u8>,
) -> Option<LineReplies>
    ensures none { IfNone result (KeepsIn M.Office.Office office.old office.new) }
    ensures ends { IfSome result (λ replies. EndsLine lines.now replies.length) }
    ensures moves { IfSome result (λ replies. LeadsIn M.Office.Office
        (λ identity before after. AnswersLinesAt accepted M.Office.signs now identity before
        (pieces (take replies.length lines.now)) replies.text.items after)
        office.old office.new) }
{
    let CommandLines {
        lines: texts,
        commands,
        length,
    } = command_lines(alloc, now, lines);
    if commands.len() < 2 {
        return None;
    }
    let room = room_for(alloc, commands.len())?;
    if !may_run::<M>(office, accepted, now) {
        return None;
    }
    match office.run_batch(alloc, &commands) {
        Ok(outcomes) => {
            let text = joined_replies(&outcomes, room);
            report_lines::<M>(
                alloc,
                office,
                machine,
                tally,
                began,
                &commands,
                &texts,
                &outcomes,
                last_reason,
            );
            Some(LineReplies { length, text })
        }
        Err(_) => None,
    }
}

/// The command lines at the beginning of these lines, to run at `now`: at most `MOST_COMMANDS`, and as many as there is memory for.
fn command_lines<'a>(alloc: Global, now: Moment, lines: &'a [u8]) -> CommandLines<'a>
    ensures commands { AreCommandLines now (take result.length lines.now) result.commands.items }
    ensures ends { (result.commands.items ≡ []) ⊎ EndsLine lines.now result.length }
{
    let mut texts = Vec::new(alloc);
    let mut commands = Vec::new(alloc);
    let mut length = 0;
    for _ in 0..MOST_COMMANDS {
        let next = match command_line(alloc, &lines[length..]) {
            Some(next) => next,
            None => break,
        };
        if texts.push(next.line).is_err() {
            break;
        }
        match commands.push((now, next.command)) {
            Ok(()) => length += next.length,
            Err(_) => break,
        }
    }
    CommandLines {
        lines: texts,
        commands,
        length,
    }
}

fn command_line<'a>(alloc: Global, lines: &'a [u8]) -> Option<CommandLine<'a>>
    ensures ends { IfSome result (λ next. FirstLineEnds lines.now next.length) }
    ensures means { IfSome result (λ next. IsCommandLine (take next.length lines.now) next.command) }
{
    let length = match line_end(lines) {
        Some(length) => length,
        None => return None,
    };
    let line = &lines[..length];
    let command = command_of(alloc, line)?;
    Some(CommandLine {
        line,
        length,
        command,
    })
}

/// The command of a command line; `None` for any other line, and for `crl`, which may need a signature.
fn command_of(alloc: Global, line: &[u8]) -> Option<Command>
    ensures { IfSome result (IsCommandLine line.now) }
{
    match read_control_line(alloc, line) {
        Ok(ControlWord::Line(Some(text))) => match read_line(text) {
            Some(ParsedLine::Command(Command::Crl)) => None,
            Some(ParsedLine::Command(command)) => Some(command),
            _ => None,
        },
        _ => None,
    }
}

fn room_for(alloc: Global, commands: usize) -> Option<Vec<u8>>
    ensures { IfSome result (λ room. (room.items ≡ []) × (84 * commands ≤ vec_capacity room)) }
{
    let size = LONGEST_REPLY.checked_mul(commands)?;
    Vec::with_capacity(alloc, size).ok()
}

/// Whether the clock is not too far ahead. `false` if the last command's moment can't be read: the first line then runs alone, with its own check.
fn may_run<M: Machine>(office: &mut M::Office, accepted: Option<Moment>, now: Moment) -> bool
    ensures { LooksIn M.Office.Office
        (λ records. IsTrue result → IsFalse (ahead_by now records.last accepted))
        office.old office.new }
{
    match office.last() {
        Ok(last) => !is_ahead(now, last, accepted),
        Err(_) => false,
    }
}

/// The replies to commands with these outcomes, in the empty buffer `room`. It has 84 bytes (`LONGEST_REPLY`) for each, so nothing is allocated.
fn joined_replies(outcomes: &[Outcome], room: Vec<u8>) -> Vec<u8>
    requires { room.items ≡ [] }
    ensures { 84 * length outcomes.now ≤ vec_capacity room → result.items ≡ replies_to outcomes.now }
{
    let mut text = room;
    for outcome in outcomes {
        let _ = text.extend_from_slice(ReplyText::of(outcome).as_bytes());
    }
    text
}

/// Reports each line. Each outcome has its command and its line at the same index, so both calls of `get` give `Some`.
fn report_lines<M: Machine>(
    alloc: Global,
    office: &mut M::Office,
    machine: &M,
    tally: &mut Tally,
    began: u64,
    commands: &[(Moment, Command)],
    lines: &[&[u8]],
    outcomes: &[Outcome],
    last_reason: &mut Vec<u8>,
)
    ensures { KeepsIn M.Office.Office office.old office.new }
{
    for (index, outcome) in outcomes.iter().enumerate() {
        if let (Some((now, command)), Some(line)) = (commands.get(index), lines.get(index)) {
            report_line::<M>(
                alloc,
                office,
                machine,
                tally,
                began,
                *now,
                line,
                command,
                outcome,
                last_reason,
            );
        }
    }
}

fn refused_command(command: &Command, outcome: &Outcome) -> Option<RefusedCommand> {
    match outcome {
        Err(Fault::Refused(why)) => Some(RefusedCommand {
            command: *command,
            why: *why,
        }),
        _ => None,
    }
}

/// Counts and logs a line that ran in a batch; keeps why its command was refused. `named`: the request that it decided (`looked_up`) or entered.
fn report_line<M: Machine>(
    alloc: Global,
    office: &mut M::Office,
    machine: &M,
    tally: &mut Tally,
    began: u64,
    now: Moment,
    line: &[u8],
    command: &Command,
    outcome: &Outcome,
    last_reason: &mut Vec<u8>,
)
    ensures stays { KeepsIn M.Office.Office office.old office.new }
    ensures counted { CountsLine ⊥ now (with_lf (outcome_line outcome.now)) tally.old tally.new }
{
    let reply = ReplyText::of(outcome);
    let line_outcome = LineOutcome::Completed(LineKind::Command(*command), *outcome);
    let refused = refused_command(command, outcome);
    if refused.is_some() {
        keep_refusal_reason::<M>(alloc, office, refused, reply.as_bytes(), last_reason);
    }
    let looked_up = decided_request::<M>(alloc, office, machine, now, line);
    let micros = machine.micros().saturating_sub(began);
    // A batch signs nothing, so no signature failed (`false`, here and in the log).
    tally.count_line(now, line_outcome.effects(false), micros);
    let named = logged_request(&line_outcome, looked_up);
    log_line(
        alloc,
        machine,
        micros,
        now,
        line,
        reply.as_bytes(),
        named,
        false,
    );
}
