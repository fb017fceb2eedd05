//! The kinds of lines at the control socket: commands, queries and others.

ghost use Rattle.std.specs.Prelude.{◌≡◌, IfOk, IsFalse, length, take};
ghost use Rattle.reg_desk_server.specs.LineEnds.{FirstLineEnds, IsWholeLines};
ghost use Rattle.reg_desk_service.specs.Following.{IsLineKind, IsNoCommand, IsTextKind};

use crate::words::{ControlWord, read_control_line};
use reg_desk_server::line_end;
use reg_lines::{ParsedLine, read_line};
use std::alloc::{AllocError, Global};

/// The kind of a line at the control socket.
#[derive(Clone, Copy, PartialEq, Eq)]
pub(crate) enum LineKind {
    /// It would change the register or the desk.
    Command,
    /// It reads the register.
    Query,
    /// `help`, `why`, `copy`, or a line that can't be read.
    Other,
}

/// The kind of a line. [`AllocError`] if there is no memory to read it.
pub(crate) fn kind_of(alloc: Global, line: &[u8]) -> Result<LineKind, AllocError>
    ensures { IfOk result (IsLineKind line.now) }
{
    match read_control_line(alloc, line) {
        Ok(ControlWord::Help) => Ok(LineKind::Other),
        Ok(ControlWord::Why) => Ok(LineKind::Other),
        Ok(ControlWord::Copy(_)) => Ok(LineKind::Other),
        Ok(ControlWord::Show(_)) => Ok(LineKind::Query),
        Ok(ControlWord::Decide(_)) => Ok(LineKind::Command),
        Ok(ControlWord::AcceptClock(_)) => Ok(LineKind::Command),
        Ok(ControlWord::Schedule(_)) => Ok(LineKind::Command),
        Ok(ControlWord::Line(Some(text))) => Ok(kind_of_text(text)),
        Ok(ControlWord::Line(None)) => Ok(LineKind::Other),
        Err(fault) => Err(fault),
    }
}

fn kind_of_text(text: &[u8]) -> LineKind
    ensures { IsTextKind text.now result }
{
    match read_line(text) {
        Some(ParsedLine::Command(_)) => LineKind::Command,
        Some(ParsedLine::Query(_)) => LineKind::Query,
        Some(ParsedLine::Ocsp(_)) => LineKind::Query,
        None => LineKind::Other,
    }
}

/// Whether a line is a command, or may be one, because there is no memory to read it.
pub(crate) fn may_be_command(alloc: Global, line: &[u8]) -> bool
    ensures { IsFalse result → IsNoCommand line.now }
{
    match kind_of(alloc, line) {
        Ok(LineKind::Query) => false,
        Ok(LineKind::Other) => false,
        Ok(LineKind::Command) => true,
        Err(_) => true,
    }
}

/// The first of some whole lines.
pub(crate) fn first_line(lines: &[u8]) -> &[u8]
    requires { IsWholeLines lines.now }
    ensures { FirstLineEnds lines.now (length result.now) × (result.now ≡ take (length result.now) lines.now) }
{
    match line_end(lines) {
        Some(end) => &lines[..end],
        None => lines,
    }
}
