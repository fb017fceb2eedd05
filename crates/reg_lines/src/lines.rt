//! A run of lines: lines in, reply lines out.

ghost use Rattle.std.specs.Prelude.{◌≡◌, ◌+◌, ◌≤◌, length, take, IfErr, IfOk, OnErr};
ghost use Rattle.reg_office_api.specs.Calls.{LeadsIn};
ghost use Rattle.reg_lines.specs.Answer.{HostLines, LineComesTo, TimedComesTo};
ghost use Rattle.reg_lines.specs.ByCalls.{LineCalls, Lines};
ghost use Rattle.reg_lines.specs.Script.{ClockFails, EndOrMore, LineEnds, LinesEnd, NextEnds, RunEnds, longest_of};

use crate::answered::{Answered, Continuation, Ended};
use crate::host::Host;
use crate::moments::{MOMENT, take_moment, without_end};
use crate::run::{run_line, unreadable};
use reg_core::Fault;
use reg_io::{FillEnd, Sink, Source, fill_to_delimiter};
use reg_office_api::Office;
use std::alloc::Global;

/// The most bytes of a line before its LF (a CR counts). The one buffer of a run, allocated before the first line, has room for each line.
pub const LONGEST_LINE: usize = 8192;

/// The most bytes of an untimed line (without a moment and the space after it) before its LF: 8,171. A CR counts.
pub const LONGEST_UNTIMED_LINE: usize = LONGEST_LINE - MOMENT - 1;

/// The most lines of a run.
pub const MOST_LINES: u64 = 1_000_000;

#[derive(Clone, Copy)]
pub(crate) enum AfterLine {
    /// More lines may follow: this many of their bytes are at the start of the buffer.
    Held(usize),
    End(Ended),
}

/// Runs each line of an input, in turn, and writes each reply before the next line runs. Each line begins with the moment at which it runs. If the
/// host has a clock, lines have no moments, and run at the clock's. [`Ended`] says when a strict run ends. Errors: those of [`crate::run_script`].
/// With a clock, also [`Fault::Read`] if the clock can't be read (the line did not run), or if a line has more than 8,171 bytes before its LF.
pub fn run_lines<R: Source, W: Sink, O: Office, H: Host>(
    alloc: Global,
    reader: &mut R,
    writer: &mut W,
    office: &mut O,
    host: &H,
    is_strict: bool,
) -> Result<Ended, Fault>
    ensures ends { LeadsIn O.Office
        (λ signers before after.
        LinesEnd (Lines O.signs signers) R.remaining W.contents R.failed W.failed before after
        reader.old reader.new writer.old writer.new
        H.clock_reached H.clock_failed (H.clocked host.now) is_strict result)
        office.old office.new }
    ensures by_calls { LinesEnd (LineCalls O.Office) R.remaining W.contents R.failed W.failed
        office.old office.new reader.old reader.new writer.old writer.new
        H.clock_reached H.clock_failed (H.clocked host.now) is_strict result }
{
    let size = buffer_size(host.is_clocked());
    match vec![in alloc; 0; size] {
        Ok(mut buffer) => run_all(alloc, reader, writer, office, host, is_strict, &mut buffer),
        Err(_) => Err(Fault::Memory),
    }
}

fn buffer_size(is_clocked: bool) -> usize
    ensures { result ≡ longest_of is_clocked + 1 }
{
    if is_clocked {
        LONGEST_UNTIMED_LINE + 1
    } else {
        LONGEST_LINE + 1
    }
}

/// Runs each line of an input. `buffer` has room for the longest line and its LF; its first `buffered` bytes were read and have not run.
fn run_all<R: Source, W: Sink, O: Office, H: Host>(
    alloc: Global,
    reader: &mut R,
    writer: &mut W,
    office: &mut O,
    host: &H,
    is_strict: bool,
    buffer: &mut [u8],
) -> Result<Ended, Fault>
    requires { length buffer.old ≡ longest_of (H.clocked host.now) + 1 }
    ensures { RunEnds (longest_of (H.clocked host.now)) (R.remaining reader.old) (R.remaining reader.new)
        (W.contents writer.old) (W.contents writer.new) (HostLines O.Office H.Host host.now)
        office.old office.new
        R.failed (ClockFails H.clock_failed (H.clocked host.now)) W.failed is_strict result }
{
    let mut buffered = 0;
    for _ in 0..MOST_LINES {
        match run_next(
            alloc, reader, writer, office, host, is_strict, buffer, buffered,
        ) {
            Ok(AfterLine::Held(left)) => buffered = left,
            Ok(AfterLine::End(ended)) => return Ok(ended),
            Err(fault) => return Err(fault),
        }
    }
    // `MOST_LINES` lines ran, so any more bytes are an error: those that are buffered, or one that is read into the buffer.
    if buffered > 0 {
        return Err(Fault::Read);
    }
    end_of_input(reader, &mut buffer[..1])
}

/// Runs the next line, moves the bytes after it to the start of `buffer`, and returns whether more lines may follow (`Held`).
pub(crate) fn run_next<R: Source, W: Sink, O: Office, H: Host>(
    alloc: Global,
    reader: &mut R,
    writer: &mut W,
    office: &mut O,
    host: &H,
    is_strict: bool,
    buffer: &mut [u8],
    buffered: usize,
) -> Result<AfterLine, Fault>
    requires room { length buffer.old ≡ longest_of (H.clocked host.now) + 1 }
    requires buffered_fits { buffered ≤ length buffer.old }
    ensures { NextEnds (HostLines O.Office H.Host host.now) office.old office.new
        (W.contents writer.old) (W.contents writer.new) (longest_of (H.clocked host.now))
        (R.remaining reader.old) (R.remaining reader.new) (take buffered buffer.old)
        R.failed (ClockFails H.clock_failed (H.clocked host.now)) W.failed is_strict buffer.new result }
{
    match fill_to_delimiter(reader, buffer, buffered, b"\n") {
        Ok(FillEnd::Delimiter { end, buffered }) => {
            let line = without_end(&buffer[..end]);
            match answer_line(alloc, writer, office, host, is_strict, line) {
                Ok(Continuation::On) => {
                    buffer.rotate_left(end);
                    Ok(AfterLine::Held(buffered - end))
                }
                Ok(Continuation::Refused(refused)) => Ok(AfterLine::End(Ended::Refused(refused))),
                Err(fault) => Err(fault),
            }
        }
        Ok(FillEnd::End { buffered: 0 }) => Ok(AfterLine::End(Ended::Whole)),
        Ok(FillEnd::End { buffered }) => {
            if is_strict {
                return Ok(AfterLine::End(Ended::NoLineEnd));
            }
            match answer_line(alloc, writer, office, host, is_strict, &buffer[..buffered]) {
                Ok(_) => Ok(AfterLine::End(Ended::Whole)),
                Err(fault) => Err(fault),
            }
        }
        Ok(FillEnd::Full) => Err(Fault::Read),
        Err(_) => Err(Fault::Read),
    }
}

/// Runs a line, shows the result to the host (which may warn the operator), writes the reply, and returns whether the run goes on.
fn answer_line<W: Sink, O: Office, H: Host>(
    alloc: Global,
    writer: &mut W,
    office: &mut O,
    host: &H,
    is_strict: bool,
    line: &[u8],
) -> Result<Continuation, Fault>
    ensures { LineEnds (HostLines O.Office H.Host host.now) office.old office.new
        (W.contents writer.old) (W.contents writer.new)
        (ClockFails H.clock_failed (H.clocked host.now)) W.failed is_strict line.now result }
{
    let answered = match run_by(alloc, office, host, line) {
        Ok(answered) => answered,
        Err(fault) => return Err(fault),
    };
    host.observe(&answered);
    match answered.write_reply(writer, is_strict) {
        Ok(continuation) => Ok(continuation),
        Err(_) => Err(Fault::Write),
    }
}

/// Runs a line at the moment of the host's clock; without a clock, at the moment with which the line begins.
fn run_by<O: Office, H: Host>(
    alloc: Global,
    office: &mut O,
    host: &H,
    line: &[u8],
) -> Result<Answered, Fault>
    ensures comes { IfOk result (λ answered.
        LineComesTo (LineCalls O.Office) H.clock_reached (H.clocked host.now)
        office.old line.now answered office.new) }
    ensures clock { IfErr result (λ fault.
        (fault ≡ Fault.Read) × ClockFails H.clock_failed (H.clocked host.now)) }
    ensures err { OnErr result (office.new ≡ office.old) }
{
    if !host.is_clocked() {
        return Ok(run_at_own_moment(alloc, office, line));
    }
    match host.moment() {
        Ok(now) => Ok(run_line(alloc, office, now, line)),
        Err(fault) => Err(fault),
    }
}

fn run_at_own_moment<O: Office>(alloc: Global, office: &mut O, line: &[u8]) -> Answered
    ensures { TimedComesTo (LineCalls O.Office) office.old line.now result office.new }
{
    match take_moment(line) {
        Some((now, command)) => run_line(alloc, office, now, command),
        None => unreadable(),
    }
}

pub(crate) fn end_of_input<R: Source>(reader: &mut R, byte: &mut [u8]) -> Result<Ended, Fault>
    requires { length byte.old ≡ 1 }
    ensures { EndOrMore R.failed (R.remaining reader.old) (R.remaining reader.new) result }
{
    match reader.read_once(byte) {
        Ok(0) => Ok(Ended::Whole),
        Ok(_) | Err(_) => Err(Fault::Read),
    }
}
