//! The outcome of a line, its reply, and whether a run goes on after it.

ghost use Rattle.std.specs.Prelude.{◌≡◌, ◌↔◌, ◌≤◌, [], IsTrue, OnErr, vec_capacity};
ghost use Rattle.reg_lines.specs.Accepted.{IsAccepted, WritesReply, Wrote, done_of};
ghost use Rattle.reg_lines.specs.Answer.{accepts, refused_of, reply_of};

use crate::reply::ReplyText;
use reg_core::{Command, Fault, Outcome, Query, Refusal};
use reg_io::{Sink, WriteFault, write_whole};

/// The kind of a line, by the call of the office (which runs commands and queries on a register) that it needs.
#[derive(Clone, Copy)]
pub enum LineKind {
    /// The line can't be read, so the office gets no call.
    Nothing,
    Command(Command),
    Query(Query),
    Ocsp,
}

/// The reply to an OCSP request.
#[derive(Drop)]
pub struct OcspReply {
    /// `ocsp` and the response in hexadecimal, with an LF.
    pub line: Vec<u8>,
    /// Whether the response has only a status, so no signature (RFC 6960 4.2.1).
    pub has_only_status: bool,
}

/// The result of a line.
#[derive(Drop)]
pub enum Answered {
    /// The line's kind and outcome: always [`Refusal::Syntax`] for `Nothing`, and [`Fault::Memory`] for `Ocsp`, which otherwise gives a `Response`.
    Completed(LineKind, Outcome),
    Response(OcspReply),
}

/// A refused command, and why it is refused.
#[derive(Clone, Copy)]
pub struct RefusedCommand {
    pub command: Command,
    pub why: Refusal,
}

/// How a run of script lines or CSV rows ended, unless a fault of its input, clock, output or memory stopped it. A strict run (`--strict`) ends at
/// the first refusal or fault. It does not run a last line or row without a line end, which may be cut off.
#[derive(Clone, Copy)]
pub enum Ended {
    /// Each line or row ran. In a strict run, each was accepted.
    Whole,
    /// The run is strict, and the last reply is a refusal or a fault. Nothing ran after it. `None` if it is not the refusal of a command.
    Refused(Option<RefusedCommand>),
    /// The run is strict, and each line or row up to the last line end ran and was accepted. The rest did not run.
    NoLineEnd,
}

/// Whether a run goes on after a reply, or ends as in [`Ended::Refused`].
#[derive(Clone, Copy)]
pub(crate) enum Continuation {
    On,
    Refused(Option<RefusedCommand>),
}

impl Answered {
    /// Whether the outcome is neither a refusal nor a fault. An OCSP response is accepted, even if it has only a status.
    pub fn is_accepted(&self) -> bool
        ensures { result ≡ accepts self.now }
    {
        match self {
            Answered::Completed(_, outcome) => outcome.is_ok(),
            Answered::Response(_) => true,
        }
    }

    /// The command that was refused, with its refusal; `None` if the line is no command, or was not refused.
    pub fn refused(&self) -> Option<RefusedCommand>
        ensures { result ≡ refused_of self.now }
    {
        match self {
            Answered::Completed(LineKind::Command(command), Err(Fault::Refused(why))) => {
                Some(RefusedCommand {
                    command: *command,
                    why: *why,
                })
            }
            _ => None,
        }
    }

    /// The reply, with its LF. For `Completed` it is written into `room`, which must have the capacity of the longest reply, 84 bytes: no allocation.
    pub fn into_reply(self, mut room: Vec<u8>) -> Vec<u8>
        requires empty { room.items ≡ [] }
        requires room { 84 ≤ vec_capacity room }
        ensures { result.items ≡ reply_of self }
    {
        match self {
            Answered::Completed(_, outcome) => {
                let text = ReplyText::of(&outcome);
                let _ = room.extend_from_slice(text.as_bytes());
                room
            }
            Answered::Response(reply) => reply.line,
        }
    }

    fn write<W: Sink>(&self, writer: &mut W) -> Result<(), WriteFault>
        ensures wrote { Wrote (W.contents writer.old) (W.contents writer.new) (reply_of self.now) result }
        ensures fails { OnErr result W.failed }
    {
        match self {
            Answered::Completed(_, outcome) => write_whole(
                writer,
                ReplyText::of(outcome).as_bytes(),
            ),
            Answered::Response(reply) => write_whole(writer, &reply.line),
        }
    }

    /// Writes the reply, and returns whether the run goes on. Precondition: `self.is_accepted()` agrees with [`crate::is_accepted`] of the reply.
    pub(crate) fn write_reply<W: Sink>(
        &self,
        writer: &mut W,
        is_strict: bool,
    ) -> Result<Continuation, WriteFault>
        requires { IsTrue (accepts self.now) ↔ IsAccepted (reply_of self.now) }
        ensures said { WritesReply is_strict (W.contents writer.old) (W.contents writer.new)
            (reply_of self.now) result }
        ensures fails { OnErr result W.failed }
    {
        self.write(writer)?;
        if is_strict && !self.is_accepted() {
            return Ok(Continuation::Refused(self.refused()));
        }
        Ok(Continuation::On)
    }
}

/// The result of a run without the way in which it ended.
pub(crate) fn done<T: Copy>(ran: Result<T, Fault>) -> Result<(), Fault>
    ensures { result ≡ done_of ran }
{
    match ran {
        Ok(_) => Ok(()),
        Err(fault) => Err(fault),
    }
}
