//! Answers lines at the control socket of `desk open`.

ghost use Rattle.std.specs.Prelude.{◌≡◌, ◌⊎◌, ◌↔◌, ◌<◌, ◌≤◌, [], IfSome, IsTrue, OnOk, Some, codes, take, vec_capacity};
ghost use Rattle.reg_lines.specs.Answer.{reply_of};
ghost use Rattle.reg_office_api.specs.Calls.{KeepsIn, LeadsIn, LooksIn};
ghost use Rattle.reg_desk_service.specs.ControlReplies.{IsLineReply, IsReplyText, ReportsLineOutcome, line_outcome_of};
ghost use Rattle.reg_desk_service.specs.Counted.{CountsLine, SignatureFailed};
ghost use Rattle.reg_desk_service.specs.ControlWords.{AtClock, CommandAt, HasCommand, IsAcceptedAfter, LineAt, ChecksClock, AnswersLineAt, AnswersLinesAt, accepted_after};
ghost use Rattle.reg_desk_server.specs.LineEnds.{EndsLine, FirstLineEnds, IsWholeLines};
ghost use Rattle.reg_lines.specs.Script.{pieces};
ghost use Rattle.reg_desk_service.specs.Schedules.{SetAt, SetsSteps, RepliesSetting};
ghost use Rattle.reg_desk_service.specs.SerialDecisions.{DecidesAt};

use crate::command_batches::answer_batch;
use crate::control_reply::{ControlReply, LineOutcome};
use crate::copies::answer_copy;
use crate::decisions_by_serial::{answer_serial_decision, decided_request, logged_request};
use crate::exchange_log::log_line;
use crate::health_routes::keep_due_reason;
use crate::machine::Machine;
use crate::reasons::{
    Reason, keep_reason_text, keep_refusal_reason, keep_reply_reason, keep_syntax_reason,
    reason_line, reason_reply,
};
use crate::registers::ended;
use crate::show::{answer_help, answer_show};
use crate::words::{AcceptedClock, ControlWord, SerialDecision, read_control_line};
use reg_core::{Fault, Moment};
use reg_desk_cli::{Failure, Steps, schedule_of};
use reg_desk_metrics::{Tally, is_ahead};
use reg_desk_server::{LineReplies, line_end};
use reg_lines::{Answered, LONGEST_REPLY, ParsedLine, read_line, run_line};
use reg_office_api::{LineReply, Office};
use std::alloc::Global;

/// Answers the first of these lines, or the first several if they are commands that run in one transaction. Parameters: as for `answer_counted`.
pub(crate) fn answer_first_lines<M: Machine>(
    alloc: Global,
    office: &mut M::Office,
    machine: &M,
    file: &str,
    tally: &mut Tally,
    accepted: &mut Option<Moment>,
    began: u64,
    now: Moment,
    lines: &[u8],
    last_reason: &mut Vec<u8>,
) -> LineReplies
    requires { IsWholeLines lines.now }
    ensures ends { EndsLine lines.now result.length }
    ensures moves { LeadsIn M.Office.Office
        (λ identity before after. AnswersLinesAt accepted.old M.Office.signs now identity before
        (pieces (take result.length lines.now)) result.text.items after)
        office.old office.new }
    ensures accepted { (accepted.new ≡ accepted_after (pieces (take result.length lines.now)) accepted.old)
        ⊎ (accepted.new ≡ accepted.old) }
{
    match answer_batch::<M>(
        alloc,
        office,
        machine,
        tally,
        *accepted,
        began,
        now,
        lines,
        last_reason,
    ) {
        Some(replies) => replies,
        None => answer_first_line::<M>(
            alloc,
            office,
            machine,
            file,
            tally,
            accepted,
            began,
            now,
            lines,
            last_reason,
        ),
    }
}

fn answer_first_line<M: Machine>(
    alloc: Global,
    office: &mut M::Office,
    machine: &M,
    file: &str,
    tally: &mut Tally,
    accepted: &mut Option<Moment>,
    began: u64,
    now: Moment,
    lines: &[u8],
    last_reason: &mut Vec<u8>,
) -> LineReplies
    requires { IsWholeLines lines.now }
    ensures ends { FirstLineEnds lines.now result.length }
    ensures moves { LeadsIn M.Office.Office
        (λ identity before after. AnswersLineAt accepted.old M.Office.signs now identity before
        (take result.length lines.now) result.text.items after)
        office.old office.new }
    ensures accepted { IsAcceptedAfter (take result.length lines.now) accepted.old accepted.new }
{
    let length = first_length(lines);
    let text = answer_counted::<M>(
        alloc,
        office,
        machine,
        file,
        tally,
        accepted,
        began,
        now,
        &lines[..length],
        last_reason,
    );
    LineReplies { length, text }
}

/// How many bytes the first line has, with its LF. Whole lines have an LF, so `line_end` gives no `None` here.
fn first_length(lines: &[u8]) -> usize
    requires { IsWholeLines lines.now }
    ensures { FirstLineEnds lines.now result }
{
    match line_end(lines) {
        Some(length) => length,
        None => lines.len(),
    }
}

/// Answers a line at `now`, counts it (`tally`), and logs it if there is a log. `file`: the register's path. `accepted`: the moment in the last line
/// `accept-clock`; another such line replaces it. `began`: the monotonic clock (microseconds) before the answer. `last_reason`: what a later line
/// `why` reports; `keep_due_reason` sets it only after `next-crl`. The log names the request that the line decided (`looked_up`) or entered.
pub(crate) fn answer_counted<M: Machine>(
    alloc: Global,
    office: &mut M::Office,
    machine: &M,
    file: &str,
    tally: &mut Tally,
    accepted: &mut Option<Moment>,
    began: u64,
    now: Moment,
    line: &[u8],
    last_reason: &mut Vec<u8>,
) -> Vec<u8>
    ensures moves { LeadsIn M.Office.Office
        (λ identity before after.
        AnswersLineAt accepted.old M.Office.signs now identity before line.now result.items after)
        office.old office.new }
    ensures accepted { IsAcceptedAfter line.now accepted.old accepted.new }
    ensures counted { CountsLine (SignatureFailed M.Office.failures M.Office.answer_failures
        office.old office.new)
        now result.items tally.old tally.new }
{
    let failures = office.failure_counts();
    let looked_up = decided_request::<M>(alloc, office, machine, now, line);
    let reply = answer_control_line::<M>(
        alloc,
        office,
        machine,
        file,
        accepted,
        now,
        line,
        last_reason,
    );
    keep_due_reason::<M>(alloc, office, tally, &reply.line_outcome, last_reason);
    let signature_failed = has_failed::<M>(office, failures);
    let micros = machine.micros().saturating_sub(began);
    tally.count_line(now, reply.line_outcome.effects(signature_failed), micros);
    let named = logged_request(&reply.line_outcome, looked_up);
    log_line(
        alloc,
        machine,
        micros,
        now,
        line,
        &reply.text,
        named,
        signature_failed,
    );
    reply.text
}

/// Answers a line of any kind. `Show`: `show`. `Line`: one that scripts also have, or that can't be read; `None` if too long. `Err`: no memory.
fn answer_control_line<M: Machine>(
    alloc: Global,
    office: &mut M::Office,
    machine: &M,
    file: &str,
    accepted: &mut Option<Moment>,
    now: Moment,
    line: &[u8],
    last_reason: &mut Vec<u8>,
) -> ControlReply
    ensures moves { LeadsIn M.Office.Office
        (λ identity before after.
        AnswersLineAt accepted.old M.Office.signs now identity before line.now result.text.items after)
        office.old office.new }
    ensures accepted { IsAcceptedAfter line.now accepted.old accepted.new }
    ensures line_outcome { ReportsLineOutcome result.line_outcome result.text.items }
{
    match read_control_line(alloc, line) {
        Ok(ControlWord::Help) => answer_help(alloc),
        Ok(ControlWord::Why) => reason_reply(alloc, last_reason),
        Ok(ControlWord::Copy(path)) => answer_copy(alloc, machine, file, path, last_reason),
        Ok(ControlWord::Show(shown)) => answer_show::<M>(alloc, office, now, shown, last_reason),
        Ok(ControlWord::Decide(serial_decision)) => {
            decide_by_clock::<M>(alloc, office, *accepted, now, serial_decision, last_reason)
        }
        Ok(ControlWord::AcceptClock(clock)) => accept_clock(alloc, clock, accepted),
        Ok(ControlWord::Schedule(steps)) => answer_schedule::<M>(
            alloc,
            office,
            &steps,
            last_reason,
        ),
        Ok(ControlWord::Line(Some(command))) => {
            answer_by_clock::<M>(alloc, office, *accepted, now, command, last_reason)
        }
        Ok(ControlWord::Line(None)) => ControlReply::fault(alloc, Fault::Read),
        Err(_) => ControlReply::fault(alloc, Fault::Memory),
    }
}

fn accept_clock(alloc: Global, clock: AcceptedClock, accepted: &mut Option<Moment>) -> ControlReply
    ensures accepted { accepted.new ≡ Some clock.moment }
    ensures said { IsReplyText (codes "clock accepted\n") result.text.items }
    ensures line_outcome { ReportsLineOutcome result.line_outcome result.text.items }
{
    *accepted = Some(clock.moment);
    ControlReply::line(alloc, b"clock accepted", LineOutcome::Done)
}

/// The refusal if the clock is too far ahead, or the fault if the last command's moment can't be read; else `None`. `b""`: the reason has no prefix.
fn refusal_by_clock<M: Machine>(
    alloc: Global,
    office: &mut M::Office,
    accepted: Option<Moment>,
    now: Moment,
    last_reason: &mut Vec<u8>,
) -> Option<ControlReply>
    ensures looks { LooksIn M.Office.Office (λ records. ChecksClock accepted now records result)
        office.old office.new }
    ensures line_outcome { IfSome result (λ reply. ReportsLineOutcome reply.line_outcome reply.text.items) }
{
    match office.last() {
        Ok(last) if is_ahead(now, last, accepted) => {
            let reply = clock_refused(alloc);
            let reason = Some(Reason::ClockAhead(last));
            keep_reason_text(reason_line(alloc, b"", reason), &reply.text, last_reason);
            Some(reply)
        }
        Ok(_) => None,
        Err(fault) => Some(ControlReply::fault(alloc, fault)),
    }
}

fn clock_refused(alloc: Global) -> ControlReply
    ensures said { IsReplyText (codes "bad-clock\n") result.text.items }
    ensures line_outcome { ReportsLineOutcome result.line_outcome result.text.items }
{
    ControlReply::line(alloc, b"bad-clock", LineOutcome::Failed(Failure::BadClock))
}

/// Decides a request (`revoke N SERIAL`), unless the clock is too far ahead.
fn decide_by_clock<M: Machine>(
    alloc: Global,
    office: &mut M::Office,
    accepted: Option<Moment>,
    now: Moment,
    serial_decision: SerialDecision,
    last_reason: &mut Vec<u8>,
) -> ControlReply
    ensures moves { LeadsIn M.Office.Office (λ identity before after. AtClock accepted now before
        (DecidesAt M.Office.signs now identity before serial_decision result.text.items after)
        result.text.items after)
        office.old office.new }
    ensures line_outcome { ReportsLineOutcome result.line_outcome result.text.items }
{
    match refusal_by_clock::<M>(alloc, office, accepted, now, last_reason) {
        Some(refused) => refused,
        None => answer_serial_decision::<M>(alloc, office, now, serial_decision, last_reason),
    }
}

/// Runs a line, unless it is a command and the clock is too far ahead: a command at a wrong moment can't be undone. Queries and `ocsp` always run.
fn answer_by_clock<M: Machine>(
    alloc: Global,
    office: &mut M::Office,
    accepted: Option<Moment>,
    now: Moment,
    line: &[u8],
    last_reason: &mut Vec<u8>,
) -> ControlReply
    ensures moves { LeadsIn M.Office.Office
        (λ identity before after.
        LineAt accepted M.Office.signs now identity before line.now result.text.items after)
        office.old office.new }
    ensures line_outcome { ReportsLineOutcome result.line_outcome result.text.items }
{
    if !has_command(line) {
        return answer_command_line::<M>(alloc, office, now, line, last_reason);
    }
    match refusal_by_clock::<M>(alloc, office, accepted, now, last_reason) {
        Some(refused) => refused,
        None => answer_command_line::<M>(alloc, office, now, line, last_reason),
    }
}

fn has_command(line: &[u8]) -> bool
    ensures { IsTrue result ↔ HasCommand line.now }
{
    match read_line(line) {
        Some(ParsedLine::Command(_)) => true,
        Some(ParsedLine::Query(_)) => false,
        Some(ParsedLine::Ocsp(_)) => false,
        None => false,
    }
}

/// Runs a line that scripts also have; `line` has no line end. Memory for the reply (`room`) comes first, so that a command that ran gets its reply.
fn answer_command_line<M: Machine>(
    alloc: Global,
    office: &mut M::Office,
    now: Moment,
    line: &[u8],
    last_reason: &mut Vec<u8>,
) -> ControlReply
    ensures moves { LeadsIn M.Office.Office
        (λ identity before after.
        CommandAt M.Office.signs now identity before line.now result.text.items after)
        office.old office.new }
    ensures line_outcome { ReportsLineOutcome result.line_outcome result.text.items }
{
    let Ok(room) = Vec::with_capacity(alloc, LONGEST_REPLY) else {
        return ControlReply::fault(alloc, Fault::Memory);
    };
    let answered = run_line(alloc, office, now, line);
    let reply = answer_command::<M>(alloc, office, answered, room, last_reason);
    keep_syntax_reason(alloc, line, &reply, last_reason);
    reply
}

/// The reply ([`ControlReply::of`]) to a command, query or OCSP request that has run. If the line was refused, keeps the reason for `why`.
pub(crate) fn answer_command<M: Machine>(
    alloc: Global,
    office: &mut M::Office,
    answered: Answered,
    room: Vec<u8>,
    last_reason: &mut Vec<u8>,
) -> ControlReply
    requires empty { room.items ≡ [] }
    requires room { 84 ≤ vec_capacity room }
    ensures stays { KeepsIn M.Office.Office office.old office.new }
    ensures text { result.text.items ≡ reply_of answered }
    ensures line_outcome { result.line_outcome ≡ line_outcome_of answered }
{
    let refused = answered.refused();
    let reply = ControlReply::of(answered, room);
    if reply.line_outcome.kind() == LineReply::Refused {
        keep_refusal_reason::<M>(alloc, office, refused, &reply.text, last_reason);
    }
    reply
}

/// Sets the schedule of the longest validities, if its steps are valid. A step: from this notBefore on, a validity has at most this many days.
fn answer_schedule<M: Machine>(
    alloc: Global,
    office: &mut M::Office,
    steps: &Steps,
    last_reason: &mut Vec<u8>,
) -> ControlReply
    ensures moves { LeadsIn M.Office.Office
        (λ identity before after. SetAt steps.now before result.text.items after) office.old office.new }
    ensures line_outcome { ReportsLineOutcome result.line_outcome result.text.items }
{
    let outcome = set_steps::<M>(alloc, office, steps);
    let reply = set_reply(alloc, outcome);
    if reply.line_outcome.kind() == LineReply::Refused {
        keep_reply_reason(&reply.text, last_reason);
    }
    reply
}

/// Sets the schedule of these steps, if they are valid. `ended` makes the office's fault, if any, a [`Failure`].
fn set_steps<M: Machine>(
    alloc: Global,
    office: &mut M::Office,
    steps: &Steps,
) -> Result<(), Failure>
    ensures { LeadsIn M.Office.Office
        (λ identity before after. SetsSteps steps.now result before after) office.old office.new }
{
    let schedule = match schedule_of(steps) {
        Ok(schedule) => schedule,
        Err(why) => return Err(why),
    };
    ended(office.set_schedule(alloc, schedule))
}

fn set_reply(alloc: Global, outcome: Result<(), Failure>) -> ControlReply
    ensures text { RepliesSetting outcome result.text.items }
    ensures line_outcome { ReportsLineOutcome result.line_outcome result.text.items }
    ensures written { OnOk outcome (IsLineReply (codes "schedule set") LineOutcome.ScheduleSet result) }
{
    match outcome {
        Ok(()) => ControlReply::line(alloc, b"schedule set", LineOutcome::ScheduleSet),
        Err(why) => ControlReply::line(alloc, why.line().as_bytes(), LineOutcome::Failed(why)),
    }
}

/// Whether a signature has failed since the office's counts of failed signatures (of CRLs, and of OCSP responses) were read as `failures`.
fn has_failed<M: Machine>(office: &M::Office, failures: (u64, u64)) -> bool
    ensures { IsTrue result
        ↔ ((failures.0 < M.Office.failures office.now) ⊎ (failures.1 < M.Office.answer_failures office.now)) }
{
    let (crls, answers) = office.failure_counts();
    failures.0 < crls || failures.1 < answers
}
