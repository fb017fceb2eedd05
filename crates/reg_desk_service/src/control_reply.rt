//! A reply at the control socket, and how its line is counted.

ghost use Rattle.std.specs.Prelude.{◌≡◌, ◌≤◌, ◌++◌, ◌∷◌, [], ℕ, List, IfOk, vec_capacity};
ghost use Rattle.reg_core.specs.Lines.{fault_line};
ghost use Rattle.reg_lines.specs.Answer.{reply_of};
ghost use Rattle.reg_desk_service.specs.ControlReplies.{IsLineReply, IsReplyWith, line_outcome_of, crl_outcome, effects_of, failed_if as failed_where, kind_of, kind_of_fault as kind_by_fault, ocsp_outcome, store_effect};

use reg_core::{Command, Fault, Outcome};
use reg_desk_cli::Failure;
use reg_lines::{Answered, LineKind};
use reg_office_api::{LineEffects, LineReply, SignatureOutcome, StoreEffect};
use std::alloc::{AllocError, Global};

#[derive(Clone, Copy)]
pub(crate) enum LineOutcome {
    /// A command (`revoke N SERIAL` too), a query, an `ocsp` line without a response, or a line that can't be read: its kind, and its outcome.
    Completed(LineKind, Outcome),
    /// An OCSP request that got a response; `true` if the response has only a responseStatus (RFC 6960 4.2.1), and so no signature.
    Response(bool),
    /// Any other line that only the control socket has, if it succeeded: one that wrote nothing to the store (`Done`), or `schedule` (`ScheduleSet`).
    Done,
    ScheduleSet,
    /// Any other failure: of such a line, or before a command ran, such as `bad-clock`.
    Failed(Failure),
    /// No copy was created, because of this fault. It is not counted as a failure of the store: it may come from the path of the copy.
    CopyFault(Fault),
    /// There was no memory for the reply.
    Silent,
}

impl LineOutcome {
    fn of(answered: &Answered) -> LineOutcome
        ensures { result ≡ line_outcome_of answered.now }
    {
        match answered {
            Answered::Completed(kind, outcome) => LineOutcome::Completed(*kind, *outcome),
            Answered::Response(reply) => LineOutcome::Response(reply.has_only_status),
        }
    }

    /// What the desk counts of the line. `signature_failed`: whether a signature failed while the line ran.
    pub(crate) fn effects(&self, signature_failed: bool) -> LineEffects
        ensures { result ≡ effects_of signature_failed self.now }
    {
        LineEffects {
            reply: self.kind(),
            crl: self.crl(signature_failed),
            ocsp: self.ocsp(signature_failed),
            store: self.store(),
        }
    }

    /// Whether the line was accepted, was refused, or met a fault.
    pub(crate) fn kind(&self) -> LineReply
        ensures { result ≡ kind_of self.now }
    {
        match self {
            LineOutcome::Completed(_, Ok(_)) => LineReply::Accepted,
            LineOutcome::Completed(_, Err(fault)) => kind_of_fault(fault),
            LineOutcome::Response(_) => LineReply::Accepted,
            LineOutcome::Done => LineReply::Accepted,
            LineOutcome::ScheduleSet => LineReply::Accepted,
            LineOutcome::Failed(Failure::Fault(fault)) => kind_of_fault(fault),
            LineOutcome::Failed(_) => LineReply::Refused,
            LineOutcome::CopyFault(fault) => kind_of_fault(fault),
            LineOutcome::Silent => LineReply::Fault,
        }
    }

    fn crl(&self, signature_failed: bool) -> SignatureOutcome
        ensures { result ≡ crl_outcome signature_failed self.now }
    {
        match self {
            LineOutcome::Completed(LineKind::Command(Command::Crl), Ok(_)) =>
                SignatureOutcome::Made,
            LineOutcome::Completed(LineKind::Command(Command::Crl), Err(_)) => failed_if(
                signature_failed,
            ),
            _ => SignatureOutcome::NotRequested,
        }
    }

    /// Whether an `ocsp` line's response is signed. Without a response, or with only a responseStatus (`true`), a signature failed or was not needed.
    fn ocsp(&self, signature_failed: bool) -> SignatureOutcome
        ensures { result ≡ ocsp_outcome signature_failed self.now }
    {
        match self {
            LineOutcome::Completed(LineKind::Ocsp, _) => failed_if(signature_failed),
            LineOutcome::Response(true) => failed_if(signature_failed),
            LineOutcome::Response(false) if !signature_failed => SignatureOutcome::Made,
            // Does not occur: if a signature fails, the response is internalError (`true`).
            LineOutcome::Response(false) => SignatureOutcome::Failed,
            _ => SignatureOutcome::NotRequested,
        }
    }

    fn store(&self) -> StoreEffect
        ensures { result ≡ store_effect self.now }
    {
        match self {
            LineOutcome::Completed(LineKind::Command(_), Ok(_)) => StoreEffect::Written,
            LineOutcome::ScheduleSet => StoreEffect::Written,
            LineOutcome::Completed(_, Err(Fault::Store)) => StoreEffect::Failed,
            LineOutcome::Failed(Failure::Fault(Fault::Store)) => StoreEffect::Failed,
            _ => StoreEffect::Unwritten,
        }
    }
}

fn kind_of_fault(fault: &Fault) -> LineReply
    ensures { result ≡ kind_by_fault fault.now }
{
    match fault {
        Fault::Refused(_) => LineReply::Refused,
        _ => LineReply::Fault,
    }
}

fn failed_if(signature_failed: bool) -> SignatureOutcome
    ensures { result ≡ failed_where signature_failed }
{
    if signature_failed {
        SignatureOutcome::Failed
    } else {
        SignatureOutcome::NotRequested
    }
}

/// A reply at the control socket with its LF (empty if there was no memory for it), and the result of its line.
#[derive(Drop)]
pub(crate) struct ControlReply {
    pub(crate) text: Vec<u8>,
    pub(crate) line_outcome: LineOutcome,
}

impl ControlReply {
    /// The reply to a line that scripts also have. It is written into `room` (empty, with 84 bytes for the longest reply), except an OCSP response.
    pub(crate) fn of(answered: Answered, room: Vec<u8>) -> ControlReply
        requires empty { room.items ≡ [] }
        requires room { 84 ≤ vec_capacity room }
        ensures text { result.text.items ≡ reply_of answered }
        ensures line_outcome { result.line_outcome ≡ line_outcome_of answered }
    {
        let line_outcome = LineOutcome::of(&answered);
        ControlReply {
            text: answered.into_reply(room),
            line_outcome,
        }
    }

    /// A reply of one line, given without its LF; empty if there is no memory for it.
    pub(crate) fn line(alloc: Global, line: &[u8], line_outcome: LineOutcome) -> ControlReply
        ensures { IsLineReply line.now line_outcome result }
    {
        ControlReply::made(alloc, with_lf(alloc, line), line_outcome)
    }

    /// The reply to a line that ran no command: the text of this fault, which may be a refusal.
    pub(crate) fn fault(alloc: Global, fault: Fault) -> ControlReply
        ensures { IsLineReply (fault_line fault) (LineOutcome.Failed (Failure.Fault fault)) result }
    {
        let line = fault.line();
        ControlReply::line(
            alloc,
            line.as_bytes(),
            LineOutcome::Failed(Failure::Fault(fault)),
        )
    }

    pub(crate) fn copy_failed(alloc: Global, fault: Fault) -> ControlReply
        ensures { IsLineReply (fault_line fault) (LineOutcome.CopyFault fault) result }
    {
        let line = fault.line();
        ControlReply::line(alloc, line.as_bytes(), LineOutcome::CopyFault(fault))
    }

    /// The reply with this text; empty, with the outcome `Silent`, if there was no memory for the text.
    pub(crate) fn made(
        alloc: Global,
        text: Result<Vec<u8>, AllocError>,
        line_outcome: LineOutcome,
    ) -> ControlReply
        ensures { (bytes : List ℕ) → IfOk text (λ made. made.items ≡ bytes)
            → IsReplyWith bytes line_outcome result.text.items result.line_outcome }
    {
        match text {
            Ok(text) => ControlReply { text, line_outcome },
            Err(_) => ControlReply {
                text: Vec::new(alloc),
                line_outcome: LineOutcome::Silent,
            },
        }
    }
}

fn with_lf(alloc: Global, line: &[u8]) -> Result<Vec<u8>, AllocError>
    ensures { IfOk result (λ text. text.items ≡ line.now ++ 10 ∷ []) }
{
    let mut text = Vec::from_slice(alloc, line)?;
    text.push(b'\n')?;
    Ok(text)
}
