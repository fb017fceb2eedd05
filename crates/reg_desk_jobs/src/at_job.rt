//! The job `at`: sends lines, or rows as lines, to the control socket of an open desk, and writes the desk's replies.

ghost use Rattle.std.specs.Prelude.{◌≡◌, ◌⊎◌, ◌↔◌, ◌<◌, IsFalse, IsTrue, IfErr, IfOk, MatchResult};
ghost use Rattle.std.specs.Io.{StopsAt};
ghost use Rattle.std.specs.Io.BufRead.{ends_with_byte};
ghost use Rattle.std.specs.Io.KnownBytes.{Appends, Consumes};
ghost use Rattle.reg_desk_jobs.specs.Conversations.{AtControlSocket, IsConversationFault, IsPiece, IsReadAs, NextIs, PassesReplies, RowsAtControlSocket, ExchangesLines, ExchangesLine, ExchangesLinesOver};

use crate::line_source::LineSource;
use crate::output_lines::print_text;
use reg_core::Fault;
use reg_desk_cli::Failure;
use reg_desk_service::Machine;
use reg_io::{Sink, Source};
use reg_lines::{is_accepted, lines_of_rows};
use std::alloc::Global;
use std::io::{BufReader, Read, Write};
use std::os::unix::net::UnixStream;

/// The next line of an input, with its LF; `Cut`: a last line without LF, whose bytes are dropped; or `End`: no line is left.
#[derive(Drop)]
pub(crate) enum NextLine {
    Line(Vec<u8>),
    Cut,
    End,
}

/// The next lines of an input, which are sent in one write: their bytes, with each LF (`text`); how many they are; and why the piece ends.
#[derive(Drop)]
struct Piece {
    text: Vec<u8>,
    count: usize,
    end: PieceEnd,
}

/// Why a piece ends: it has as many lines as it may have; the next line has no LF, so it is not sent; or the input ends.
#[derive(Clone, Copy)]
enum PieceEnd {
    Full,
    Cut,
    End,
}

/// The most rows whose lines are sent before a reply is read, so that the desk can run them in one transaction. Neither side blocks the other: the
/// lines are one write of at most 28 KB, and a socket's buffer (208 KB) holds 278 replies: the kernel counts 768 bytes for a reply of at most 84.
const MOST_IN_FLIGHT: usize = 256;

/// Sends each line of standard input (`reader`) to the control socket at a path, once the reply to the line before has come, and writes its reply.
/// Errors: `Read` if it can't connect there; `Memory` if out of memory for the buffers; else those of [`exchange_lines`].
pub fn at<M: Machine, R: Read, W: Write>(
    alloc: Global,
    machine: &M,
    control_path: &str,
    reader: &mut R,
    writer: &mut W,
) -> Result<(), Failure>
    ensures { AtControlSocket (M.socket_connected control_path.now) (R.remaining reader.old)
        (W.contents writer.old) (W.contents writer.new) result }
{
    exchange_at(alloc, machine, control_path, 1, reader, writer)
}

/// Sends each row of a CSV file (`reader`), except its header, as a `register` line. Sends 256 lines, or all that are left, before it reads their
/// replies. `Read`, and nothing is sent, if the file can't be read or has over 16 MiB. Other errors: those of [`at`].
pub fn at_rows<M: Machine, R: Source, W: Write>(
    alloc: Global,
    machine: &M,
    control_path: &str,
    reader: &mut R,
    writer: &mut W,
) -> Result<(), Failure>
    ensures { RowsAtControlSocket (M.socket_connected control_path.now) R.failed
        (R.remaining reader.old) (R.remaining reader.new) (W.contents writer.old) (W.contents writer.new)
        result }
{
    match lines_of_rows(alloc, reader) {
        Ok(lines) => exchange_at(
            alloc,
            machine,
            control_path,
            MOST_IN_FLIGHT,
            &mut lines.as_slice(),
            writer,
        ),
        Err(fault) => Err(Failure::Fault(fault)),
    }
}

fn exchange_at<M: Machine, R: Read, W: Write>(
    alloc: Global,
    machine: &M,
    control_path: &str,
    most_in_flight: usize,
    reader: &mut R,
    writer: &mut W,
) -> Result<(), Failure>
    requires { 0 < most_in_flight }
    ensures { AtControlSocket (M.socket_connected control_path.now) (R.remaining reader.old)
        (W.contents writer.old) (W.contents writer.new) result }
{
    match machine.connect_to_socket(control_path) {
        Ok(stream) => exchange_lines_over(alloc, &stream, most_in_flight, reader, writer),
        Err(_) => Err(Failure::Fault(Fault::Read)),
    }
}

fn exchange_lines_over<R: Read, W: Write>(
    alloc: Global,
    stream: &UnixStream,
    most_in_flight: usize,
    reader: &mut R,
    writer: &mut W,
) -> Result<(), Failure>
    requires { 0 < most_in_flight }
    ensures { ExchangesLinesOver (R.remaining reader.old) (W.contents writer.old) (W.contents writer.new)
        result }
{
    let Ok(mut incoming) = BufReader::new(alloc, stream) else {
        return Err(Failure::Fault(Fault::Memory));
    };
    let mut outgoing = stream;
    match BufReader::new(alloc, reader) {
        Ok(mut input) => exchange_lines(
            alloc,
            most_in_flight,
            &mut input,
            writer,
            &mut incoming,
            &mut outgoing,
        ),
        Err(_) => Err(Failure::Fault(Fault::Memory)),
    }
}

/// Sends the lines of `input` to a control socket (`outgoing`), at most `most_in_flight` in one write. Then reads their replies from `incoming`, and
/// writes each to `writer`, before it sends more. A last line without its LF is not sent. Errors once all lines are sent: `Refused` if a reply was a
/// refusal or a fault; `NoLineEnd` if a last line has no LF; `RefusedNoLineEnd` for both. Earlier errors: `Read` if the input or connection fails, a
/// reply is cut off, or memory runs out for a line or reply; `Memory` if it runs out for the lines of one write; `Write` if a write fails.
pub fn exchange_lines<R: LineSource, W: Sink, C: LineSource, S: Sink>(
    alloc: Global,
    most_in_flight: usize,
    input: &mut R,
    writer: &mut W,
    incoming: &mut C,
    outgoing: &mut S,
) -> Result<(), Failure>
    requires { 0 < most_in_flight }
    ensures { ExchangesLines (S.contents outgoing.old) (S.contents outgoing.new)
        (C.remaining incoming.old) (C.remaining incoming.new)
        (W.contents writer.old) (W.contents writer.new)
        (R.failed ⊎ C.failed) (W.failed ⊎ S.failed)
        (R.remaining input.old) result }
{
    let mut is_accepted = true;
    for _ in 0..u64::MAX {
        let piece = next_piece(alloc, most_in_flight, input)?;
        print_text(outgoing, &piece.text)?;
        let piece_is_accepted = pass_replies(alloc, piece.count, writer, incoming)?;
        is_accepted = both(is_accepted, piece_is_accepted);
        match piece.end {
            PieceEnd::Full => {}
            PieceEnd::Cut => return Err(failure_at_cut(is_accepted)),
            PieceEnd::End => return result_at_end(is_accepted),
        }
    }
    // Not reached: no input has this many lines.
    Err(Failure::Fault(Fault::Read))
}

pub(crate) fn both(first: bool, second: bool) -> bool
    ensures { IsTrue result ↔ (IsTrue first × IsTrue second) }
{
    first && second
}

/// The result once all lines were sent (in [`failure_at_cut`]: all but a last one without LF). `is_accepted`: no reply was a refusal or a fault.
pub(crate) fn result_at_end(is_accepted: bool) -> Result<(), Failure>
    ensures { MatchResult result (λ done. IsTrue is_accepted)
        (λ why. (why ≡ Failure.Refused) × IsFalse is_accepted) }
{
    if is_accepted {
        Ok(())
    } else {
        Err(Failure::Refused)
    }
}

pub(crate) fn failure_at_cut(is_accepted: bool) -> Failure
    ensures { ((result ≡ Failure.NoLineEnd) × IsTrue is_accepted)
        ⊎ ((result ≡ Failure.RefusedNoLineEnd) × IsFalse is_accepted) }
{
    if is_accepted {
        Failure::NoLineEnd
    } else {
        Failure::RefusedNoLineEnd
    }
}

fn next_piece<R: LineSource>(alloc: Global, most: usize, input: &mut R) -> Result<Piece, Failure>
    ensures ok { IfOk result (IsPiece most (R.remaining input.old) (R.remaining input.new)) }
    ensures err { IfErr result (IsConversationFault R.failed ⊥) }
{
    let mut text = Vec::new(alloc);
    for count in 0..most {
        match next_line(alloc, input)? {
            NextLine::Line(line) => match text.extend_from_slice(&line) {
                Ok(()) => {}
                Err(_) => return Err(Failure::Fault(Fault::Memory)),
            },
            NextLine::Cut => return Ok(Piece {
                text,
                count,
                end: PieceEnd::Cut,
            }),
            NextLine::End => return Ok(Piece {
                text,
                count,
                end: PieceEnd::End,
            }),
        }
    }
    Ok(Piece {
        text,
        count: most,
        end: PieceEnd::Full,
    })
}

/// Reads `count` replies, and writes each once it has come. Returns whether none was a refusal or a fault.
fn pass_replies<W: Sink, C: LineSource>(
    alloc: Global,
    count: usize,
    writer: &mut W,
    incoming: &mut C,
) -> Result<bool, Failure>
    ensures ok { IfOk result (PassesReplies (C.remaining incoming.old) (C.remaining incoming.new)
        (W.contents writer.old) (W.contents writer.new) count) }
    ensures err { IfErr result (IsConversationFault C.failed W.failed) }
{
    let mut all_accepted = true;
    for _ in 0..count {
        let reply = next_reply(alloc, incoming)?;
        print_text(writer, &reply)?;
        all_accepted = both(all_accepted, is_accepted(&reply));
    }
    Ok(all_accepted)
}

/// Sends a line to a control socket, writes its reply to `writer`, and returns it. [`request_reply`] only returns it.
pub(crate) fn exchange<W: Sink, C: LineSource, S: Sink>(
    alloc: Global,
    line: &[u8],
    writer: &mut W,
    incoming: &mut C,
    outgoing: &mut S,
) -> Result<Vec<u8>, Failure>
    ensures ok { IfOk result (λ reply.
        ExchangesLine (S.contents outgoing.old) (S.contents outgoing.new)
        (C.remaining incoming.old) (C.remaining incoming.new)
        (W.contents writer.old) (W.contents writer.new) line.now reply.items) }
    ensures err { IfErr result (IsConversationFault C.failed (W.failed ⊎ S.failed)) }
{
    let reply = request_reply(alloc, line, incoming, outgoing)?;
    print_text(writer, &reply)?;
    Ok(reply)
}

pub(crate) fn request_reply<C: LineSource, S: Sink>(
    alloc: Global,
    line: &[u8],
    incoming: &mut C,
    outgoing: &mut S,
) -> Result<Vec<u8>, Failure>
    ensures sent { IfOk result (λ reply.
        Appends (S.contents outgoing.old) (S.contents outgoing.new) line.now) }
    ensures incoming { IfOk result (λ reply.
        Consumes (C.remaining incoming.old) (C.remaining incoming.new) reply.items) }
    ensures err { IfErr result (IsConversationFault C.failed S.failed) }
{
    print_text(outgoing, line)?;
    next_reply(alloc, incoming)
}

pub(crate) fn next_line<R: LineSource>(alloc: Global, input: &mut R) -> Result<NextLine, Failure>
    ensures ok { IfOk result (NextIs (R.remaining input.old) (R.remaining input.new)) }
    ensures err { IfErr result (λ why. (why ≡ Failure.Fault Fault.Read) × R.failed) }
{
    match input.take_line(alloc) {
        Ok(line) => Ok(next_of(line)),
        Err(_) => Err(Failure::Fault(Fault::Read)),
    }
}

fn next_of(line: Vec<u8>) -> NextLine
    requires { StopsAt line.items 10 }
    ensures { IsReadAs line.items result }
{
    if has_end(line.as_slice()) {
        return NextLine::Line(line);
    }
    if line.as_slice().is_empty() {
        return NextLine::End;
    }
    NextLine::Cut
}

fn has_end(line: &[u8]) -> bool
    ensures { result ≡ ends_with_byte 10 line.now }
{
    let len = line.len();
    len > 0 && line[len - 1] == b'\n'
}

fn next_reply<C: LineSource>(alloc: Global, incoming: &mut C) -> Result<Vec<u8>, Failure>
    ensures ok { IfOk result (λ reply.
        Consumes (C.remaining incoming.old) (C.remaining incoming.new) reply.items) }
    ensures err { IfErr result (λ why. (why ≡ Failure.Fault Fault.Read) × C.failed) }
{
    match incoming.take_whole_line(alloc) {
        Ok(reply) => Ok(reply),
        Err(_) => Err(Failure::Fault(Fault::Read)),
    }
}
