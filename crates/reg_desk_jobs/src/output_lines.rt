//! Writes the output of a job to standard output, and why the job failed to standard error.

ghost use Rattle.std.specs.Prelude.{◌≡◌, ◌∷◌, [], ℕ, List, IfOk, OnErr};
ghost use Rattle.reg_desk_jobs.specs.Ends.{PrintsText, PrintsLine};
ghost use Rattle.reg_desk_service.specs.FailureReports.{Adds, Explains, IsReportedLine, IsWritten, ReportsExit, ReportsReason};

use reg_core::Fault;
use reg_desk_cli::{Failure, status_of};
use reg_desk_service::{FailureCause, Reason, reason_line};
use reg_io::{Sink, write_whole};
use std::alloc::{AllocError, Global};
use std::io::Write;

pub(crate) fn print_text<W: Sink>(writer: &mut W, text: &[u8]) -> Result<(), Failure>
    ensures prints { PrintsText text.now (W.contents writer.old) (W.contents writer.new) result }
    ensures fails { OnErr result W.failed }
{
    match write_whole(writer, text) {
        Ok(()) => Ok(()),
        Err(_) => Err(Failure::Fault(Fault::Write)),
    }
}

pub(crate) fn print_line<W: Write>(
    writer: &mut W,
    line: Result<Vec<u8>, AllocError>,
) -> Result<(), Failure>
    ensures { (text : List ℕ) → IfOk line (λ made. made.items ≡ text)
        → PrintsLine text W.contents writer.old writer.new result }
{
    match line {
        Ok(line) => print_text(writer, &line),
        Err(_) => Err(Failure::Fault(Fault::Memory)),
    }
}

/// Reports on standard error why a job failed (`ending`): one line, or two for `RefusedNoLineEnd`. With `--why` (`is_asked`), an indented line
/// follows, if known: at exit status 1 the `cause`; at 3 the `reason` why the registration that ended the job was refused. Ignores failed writes.
pub fn report_exit<W: Write>(
    alloc: Global,
    errors: &mut W,
    ending: &Result<(), Failure>,
    is_asked: bool,
    cause: Option<FailureCause>,
    reason: Option<Reason>,
)
    ensures { Explains is_asked ending.now (W.contents errors.old) (W.contents errors.new) }
{
    report_failure(errors, ending);
    explain(alloc, errors, is_asked, status_of(ending), cause, reason);
}

fn report_failure<W: Write>(errors: &mut W, ending: &Result<(), Failure>)
    ensures { ReportsExit ending.now (W.contents errors.old) (W.contents errors.new) }
{
    match ending {
        Ok(()) => {}
        Err(failure) => report_line(errors, failure.line().as_bytes()),
    }
}

fn report_line<W: Write>(errors: &mut W, line: &[u8])
    ensures { IsReportedLine (W.contents errors.old) (W.contents errors.new) line.now }
{
    match write_whole(errors, line) {
        Ok(()) => put(errors, b"\n"),
        Err(_) => {}
    }
}

fn put<W: Write>(errors: &mut W, text: &[u8])
    ensures { IsWritten (W.contents errors.old) (W.contents errors.new) text.now }
{
    match write_whole(errors, text) {
        Ok(()) => {}
        Err(_) => {}
    }
}

fn explain<W: Write>(
    alloc: Global,
    errors: &mut W,
    is_asked: bool,
    status: u8,
    cause: Option<FailureCause>,
    reason: Option<Reason>,
)
    ensures { Adds is_asked status (W.contents errors.old) (W.contents errors.new) }
{
    if !is_asked {
        return;
    }
    match (status, cause) {
        (1, Some(cause)) => match cause.line(alloc) {
            Ok(line) => report_line(errors, &line),
            Err(_) => {}
        },
        (3, _) => report_reason(alloc, errors, reason),
        _ => {}
    }
}

fn report_reason<W: Write>(alloc: Global, errors: &mut W, reason: Option<Reason>)
    ensures { ReportsReason (W.contents errors.old) (W.contents errors.new) }
{
    match reason_line(alloc, b"  ", reason) {
        Some(line) => put(errors, &line),
        None => {}
    }
}
