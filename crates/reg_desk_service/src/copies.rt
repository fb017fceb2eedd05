//! The line `copy PATH` at the control socket, which copies the open register.

ghost use Rattle.std.specs.Prelude.{◌≡◌, ◌++◌, ◌∷◌, [], IfErr, IfOk};
ghost use Rattle.reg_core.specs.Lines.{fault_line};
ghost use Rattle.reg_desk_service.specs.ControlReplies.{IsLineReply, IsReplyWith, ReportsLineOutcome};
ghost use Rattle.reg_desk_service.specs.Copies.{AnswersCopy, is_copy_line as asks, copied_text};
ghost use Rattle.reg_office_api.specs.LookUps.{IsOfStore};

use crate::control_reply::{ControlReply, LineOutcome};
use crate::machine::Machine;
use crate::reasons::{keep_reason_text, prefixed_line};
use reg_core::{Cause, Decimal, Fault};
use std::alloc::{AllocError, Global};

/// Why no copy was created: the fault (`Memory` or `Store`), and the cause of the failed call, if it is known.
#[derive(Clone, Copy, PartialEq, Eq)]
pub struct CopyFault {
    pub fault: Fault,
    pub cause: Option<Cause>,
}

pub(crate) fn is_copy_line(line: &[u8]) -> bool
    ensures { result ≡ asks line.now }
{
    line.starts_with(b"copy ")
}

/// Copies the open register, whose path is `file`, to `path` (`None`: it is not UTF-8), and replies. Other clients wait meanwhile. If no copy is
/// created, `last_reason` (for a later `why`) becomes the cause, or the reply if the cause is not known. Clause `reply_text`: only the reply's form.
pub(crate) fn answer_copy<M: Machine>(
    alloc: Global,
    machine: &M,
    file: &str,
    path: Option<&str>,
    last_reason: &mut Vec<u8>,
) -> ControlReply
    ensures copied { AnswersCopy (M.copied_open file.now) result.text.items }
    ensures reply_text { AnswersCopy (λ bytes. Unit {0}) result.text.items }
    ensures line_outcome { ReportsLineOutcome result.line_outcome result.text.items }
{
    let began = machine.micros();
    match copy_to(machine, file, path) {
        Ok(bytes) => copied_reply(alloc, bytes, millis_since(machine, began)),
        Err(why) => copy_failed_reply(alloc, why, last_reason),
    }
}

fn copy_to<M: Machine>(machine: &M, file: &str, path: Option<&str>) -> Result<u64, CopyFault>
    ensures ok { IfOk result (M.copied_open file.now) }
    ensures err { IfErr result (λ why. IsOfStore why.fault) }
{
    match path {
        Some(path) => machine.copy_open(file, path),
        None => Err(CopyFault {
            fault: Fault::Store,
            cause: None,
        }),
    }
}

/// The path after the word `copy`: the rest of the line without its line end. `None` if that is not UTF-8.
pub(crate) fn path_in(line: &[u8]) -> Option<&str> {
    let path = line.strip_prefix(b"copy ")?;
    let path = path.strip_suffix(b"\n").unwrap_or(path);
    let path = path.strip_suffix(b"\r").unwrap_or(path);
    str::from_utf8(path).ok()
}

/// The whole milliseconds since `since`, an earlier value of the monotonic clock [`Machine::micros`].
pub fn millis_since<M: Machine>(machine: &M, since: u64) -> u64 {
    machine.micros().saturating_sub(since) / 1_000
}

fn copied_reply(alloc: Global, bytes: u64, millis: u64) -> ControlReply
    ensures { IsReplyWith (copied_text bytes millis) LineOutcome.Done result.text.items result.line_outcome }
{
    ControlReply::made(alloc, copied_line(alloc, bytes, millis), LineOutcome::Done)
}

/// The line that reports a copy: how many bytes it has, and how many milliseconds it took. [`AllocError`] if out of memory.
#[tactic(auto, unfolding(crate::specs::Copies::copied_text))]
pub fn copied_line(alloc: Global, bytes: u64, millis: u64) -> Result<Vec<u8>, AllocError>
    ensures { IfOk result (λ text. text.items ≡ copied_text bytes millis) }
{
    let mut text = Vec::from_slice(alloc, b"copied ")?;
    text.extend_from_slice(Decimal::of(bytes).as_bytes())?;
    text.extend_from_slice(b" bytes in ")?;
    text.extend_from_slice(Decimal::of(millis).as_bytes())?;
    text.extend_from_slice(b" ms\n")?;
    Ok(text)
}

fn copy_failed_reply(alloc: Global, why: CopyFault, last_reason: &mut Vec<u8>) -> ControlReply
    ensures { IsLineReply (fault_line why.fault) (LineOutcome.CopyFault why.fault) result }
{
    let reply = ControlReply::copy_failed(alloc, why.fault);
    keep_reason_text(cause_text(alloc, why.cause), &reply.text, last_reason);
    reply
}

/// The cause as the line `why` reports it: with an LF, and without the two spaces with which `Cause::line` begins (`b""`: nothing replaces them).
fn cause_text(alloc: Global, cause: Option<Cause>) -> Option<Vec<u8>> {
    let line = cause?.line();
    prefixed_line(alloc, b"", line.as_bytes().strip_prefix(b"  ")?).ok()
}
