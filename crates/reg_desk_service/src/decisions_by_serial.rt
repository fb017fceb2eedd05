//! Carries out or declines a request that a line names by its number and serial number (`revoke 1 05`). Finds these two numbers for the log, too.

ghost use Rattle.std.specs.Prelude.{◌≡◌, IfSome};
ghost use Rattle.reg_core.specs.Records.{request_in};
ghost use Rattle.reg_office_api.specs.Calls.{LeadsIn, LooksIn};
ghost use Rattle.reg_desk_service.specs.ControlReplies.{ReportsLineOutcome, ReportsFault};
ghost use Rattle.reg_desk_service.specs.LogNames.{Decides, NamesRequest, NamesAccepted, NamesDecided};
ghost use Rattle.reg_desk_service.specs.SerialDecisions.{RunsAt, DecidesAt, request_of_row};
ghost use Rattle.reg_desk_service.specs.RowLookUps.{IsLookedUp};

use crate::control_lines::answer_command;
use crate::control_reply::{ControlReply, LineOutcome};
use crate::machine::Machine;
use crate::reasons::{Reason, keep_reason_text, reason_line};
use crate::show::{find, report_fault};
use crate::words::{RowKey, SerialDecision, serial_decision_in};
use reg_core::{Command, Fault, Moment, Refusal, Reply, RequestRow};
use reg_core_lists::Row;
use reg_http::LoggedRevocationRequest;
use reg_lines::{
    Answered, LONGEST_REPLY, LineKind, ParsedLine, read_line, untimed_line, without_end,
};
use reg_office_api::Office;
use std::alloc::Global;

/// Decides the line's request. If it is for another serial number: `NoRequest`, and `why` reports that number. If there is none, the office refuses.
pub(crate) fn answer_serial_decision<M: Machine>(
    alloc: Global,
    office: &mut M::Office,
    now: Moment,
    serial_decision: SerialDecision,
    last_reason: &mut Vec<u8>,
) -> ControlReply
    ensures moves { LeadsIn M.Office.Office
        (λ identity before after.
        DecidesAt M.Office.signs now identity before serial_decision result.text.items after)
        office.old office.new }
    ensures line_outcome { ReportsLineOutcome result.line_outcome result.text.items }
{
    match find_request(alloc, office, now, serial_decision.request) {
        Ok(Some(request)) if request.serial != serial_decision.serial => answer_other(
            alloc,
            request,
            last_reason,
        ),
        Ok(_) => answer_run::<M>(alloc, office, now, serial_decision.command, last_reason),
        Err(fault) => report_fault(alloc, fault, last_reason),
    }
}

fn answer_run<M: Machine>(
    alloc: Global,
    office: &mut M::Office,
    now: Moment,
    command: Command,
    last_reason: &mut Vec<u8>,
) -> ControlReply
    ensures moves { LeadsIn M.Office.Office
        (λ identity before after. RunsAt M.Office.signs now identity before command result.text.items after)
        office.old office.new }
    ensures line_outcome { ReportsLineOutcome result.line_outcome result.text.items }
{
    let Ok(room) = Vec::with_capacity(alloc, LONGEST_REPLY) else {
        return ControlReply::fault(alloc, Fault::Memory);
    };
    let outcome = office.run_one(alloc, now, &command);
    let answered = Answered::Completed(LineKind::Command(command), outcome);
    answer_command::<M>(alloc, office, answered, room, last_reason)
}

/// Refuses a line whose request is for another serial number, and keeps that number for the line `why`. `b""`: the reason has no prefix.
fn answer_other(alloc: Global, request: RequestRow, last_reason: &mut Vec<u8>) -> ControlReply
    ensures reply_text { ReportsFault (Fault.Refused Refusal.NoRequest) result.text.items }
    ensures line_outcome { ReportsLineOutcome result.line_outcome result.text.items }
{
    let reply = ControlReply::fault(alloc, Fault::Refused(Refusal::NoRequest));
    let reason = Reason::OtherSerial(request.id, request.serial);
    keep_reason_text(
        reason_line(alloc, b"", Some(reason)),
        &reply.text,
        last_reason,
    );
    reply
}

fn find_request<O: Office>(
    alloc: Global,
    office: &mut O,
    now: Moment,
    id: u64,
) -> Result<Option<RequestRow>, Fault>
    ensures { LooksIn O.Office
        (λ records. IsLookedUp records now (request_in records.requests id) result)
        office.old office.new }
{
    let found = find(alloc, office, now, &RowKey::Request(id))?;
    Ok(request_of_row(found))
}

/// The request in a row of the list of all requests: `AnyRequest` has a `ListedRequest` (with a `RequestRow`) and its state.
fn request_of_row(found: Option<Row>) -> Option<RequestRow>
    ensures { result ≡ request_of_row found }
{
    match found {
        Some(Row::AnyRequest(with_state)) => Some(with_state.request.request),
        _ => None,
    }
}

/// The request that a line decides, for the log: its number and serial number. `None` if there is no log or no such request, or if the look-up fails.
pub(crate) fn decided_request<M: Machine>(
    alloc: Global,
    office: &mut M::Office,
    machine: &M,
    now: Moment,
    line: &[u8],
) -> Option<LoggedRevocationRequest>
    ensures { LooksIn M.Office.Office
        (λ records. IfSome result (NamesDecided records line.now))
        office.old office.new }
{
    if !machine.has_log() {
        return None;
    }
    let id = decided_by(line)?;
    match find_request(alloc, office, now, id) {
        Ok(Some(request)) => Some(LoggedRevocationRequest {
            id,
            serial: request.serial,
            ground: None,
        }),
        _ => None,
    }
}

fn decided_by(line: &[u8]) -> Option<u64>
    ensures { IfSome result (Decides line.now) }
{
    if let Some(serial_decision) = serial_decision_in(without_end(line)) {
        return Some(serial_decision.request);
    }
    match read_line(untimed_line(line)?) {
        Some(ParsedLine::Command(Command::Revoke { request })) => Some(request),
        Some(ParsedLine::Command(Command::Decline { request })) => Some(request),
        _ => None,
    }
}

/// The request that a line entered (with its ground) or decided. `looked_up`: what `decided_request` found (the same before and after the line).
pub(crate) fn logged_request(
    line_outcome: &LineOutcome,
    looked_up: Option<LoggedRevocationRequest>,
) -> Option<LoggedRevocationRequest>
    ensures { NamesRequest line_outcome.now looked_up result }
{
    match line_outcome {
        LineOutcome::Completed(LineKind::Command(command), Ok(reply)) => request_of_command(
            command, reply, looked_up,
        ),
        _ => None,
    }
}

fn request_of_command(
    command: &Command,
    reply: &Reply,
    looked_up: Option<LoggedRevocationRequest>,
) -> Option<LoggedRevocationRequest>
    ensures { NamesAccepted command.now reply.now looked_up result }
{
    match (command, reply) {
        (Command::Request { serial, ground }, Reply::Request { id, .. }) => Some(
            LoggedRevocationRequest {
                id: *id,
                serial: *serial,
                ground: Some(*ground),
            },
        ),
        (Command::Revoke { .. }, _) => looked_up,
        (Command::Decline { .. }, _) => looked_up,
        _ => None,
    }
}
