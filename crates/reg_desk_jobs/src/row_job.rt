//! The jobs that take the rows of a CSV file to an open desk: `at --import FILE --orders ..` registers each row's certificate under a new order, and
//! `at --revoke FILE` requests its revocation and revokes it. `incoming` and `outgoing` are the two directions of the connection to the desk.

ghost use Rattle.std.specs.Prelude.{◌≡◌, ◌<◌, ◌==◌, ◌↔◌, ◌⊎◌, IfErr, IfOk, IfSome, IsTrue, length, option_map, position};
ghost use Rattle.reg_desk_jobs.specs.Conversations.{IsConversationFault};
ghost use Rattle.reg_desk_jobs.specs.RowTasks.{AnswersRow, IsRowDone, LineReplied, OrdersRow, RegistersRow, RevokesRow, SendsRows, SendsRowsAt, SendsRowsOver, has_first_word, header_of, is_skipped, link_of, split_at_comma, registration_row_in, revocation_row_in, row_order, row_registration, row_request, row_revocation, row_status};

use crate::at_job::{NextLine, both, failure_at_cut, next_line, request_reply, result_at_end};
use crate::line_source::LineSource;
use crate::log_entries::{first_word, second_word};
use crate::output_lines::print_text;
use reg_core::{Fault, Label, Moment, Serial};
use reg_desk_cli::{Failure, OrderTerms, RowTask};
use reg_desk_service::{Machine, put_number, put_word};
use reg_io::Sink;
use reg_lines::{is_accepted, without_end};
use std::alloc::{AllocError, Global};
use std::io::{BufReader, Read, Write};
use std::os::unix::net::UnixStream;

/// A row of a file of certificates to revoke: the serial number, and the ground (reason) as a word, such as `key-compromise`.
#[derive(Clone, Copy)]
struct RevocationInput {
    serial: Serial,
    ground_word: Label,
}

#[derive(Clone, Copy)]
struct RegistrationInput {
    serial: Serial,
    not_before: Moment,
    not_after: Moment,
}

/// Does a task with the certificate of each row in `reader`, in their order, by lines at the control socket at a path. For each row, writes the reply
/// to the last line sent for it. A row is `SERIAL,GROUND` to revoke, and `SERIAL,NOTBEFORE,NOTAFTER` to register. Empty lines and lines equal to the
/// header are skipped. Errors: those of [`at`](crate::at), but the refusal E19 (already revoked) is no error here.
pub fn each_row<M: Machine, R: Read, W: Write>(
    alloc: Global,
    machine: &M,
    control_path: &str,
    task: RowTask,
    reader: &mut R,
    writer: &mut W,
) -> Result<(), Failure>
    ensures { SendsRowsAt task (M.socket_connected control_path.now) (R.remaining reader.old)
        (W.contents writer.old) (W.contents writer.new) result }
{
    match machine.connect_to_socket(control_path) {
        Ok(stream) => send_over(alloc, task, &stream, reader, writer),
        Err(_) => Err(Failure::Fault(Fault::Read)),
    }
}

fn send_over<R: Read, W: Write>(
    alloc: Global,
    task: RowTask,
    stream: &UnixStream,
    reader: &mut R,
    writer: &mut W,
) -> Result<(), Failure>
    ensures { SendsRowsOver task (R.remaining reader.old) (W.contents writer.old) (W.contents writer.new)
        result }
{
    let Ok(mut incoming) = BufReader::new(alloc, stream) else {
        return Err(Failure::Fault(Fault::Memory));
    };
    let mut outgoing = stream;
    match BufReader::new(alloc, reader) {
        Ok(mut rows) => send_each(alloc, task, &mut rows, writer, &mut incoming, &mut outgoing),
        Err(_) => Err(Failure::Fault(Fault::Memory)),
    }
}

fn send_each<R: LineSource, W: Sink, C: LineSource, S: Sink>(
    alloc: Global,
    task: RowTask,
    rows: &mut R,
    writer: &mut W,
    incoming: &mut C,
    outgoing: &mut S,
) -> Result<(), Failure>
    ensures { SendsRows task (R.failed ⊎ C.failed)
        (W.failed ⊎ S.failed) (R.remaining rows.old)
        (link_of (S.contents outgoing.old) (C.remaining incoming.old))
        (link_of (S.contents outgoing.new) (C.remaining incoming.new))
        (W.contents writer.old) (W.contents writer.new) result }
{
    let mut is_done = true;
    for _ in 0..u64::MAX {
        match next_line(alloc, rows)? {
            NextLine::Line(line) => match send_line(
                alloc, task, &line, writer, incoming, outgoing,
            ) {
                Ok(line_is_done) => is_done = both(is_done, line_is_done),
                Err(why) => return Err(why),
            },
            NextLine::Cut => return Err(failure_at_cut(is_done)),
            NextLine::End => return result_at_end(is_done),
        }
    }
    // Not reached: no input has this many lines.
    Err(Failure::Fault(Fault::Read))
}

/// Does the task with the certificate of a row, `line`, and writes the last reply. Returns [`is_done`] of this reply; `true` for a skipped line.
fn send_line<W: Sink, C: LineSource, S: Sink>(
    alloc: Global,
    task: RowTask,
    line: &[u8],
    writer: &mut W,
    incoming: &mut C,
    outgoing: &mut S,
) -> Result<bool, Failure>
    ensures ok { IfOk result (LineReplied task (link_of (S.contents outgoing.old) (C.remaining incoming.old))
        (link_of (S.contents outgoing.new) (C.remaining incoming.new))
        (W.contents writer.old) (W.contents writer.new) line.now) }
    ensures err { IfErr result (IsConversationFault C.failed (W.failed ⊎ S.failed)) }
{
    let text = without_end(line);
    if is_skipped(task, text) {
        return Ok(true);
    }
    let reply = answer_row(alloc, task, text, incoming, outgoing)?;
    print_text(writer, &reply)?;
    Ok(is_done(&reply))
}

fn answer_row<C: LineSource, S: Sink>(
    alloc: Global,
    task: RowTask,
    text: &[u8],
    incoming: &mut C,
    outgoing: &mut S,
) -> Result<Vec<u8>, Failure>
    ensures ok { IfOk result (λ reply.
        AnswersRow task text.now (link_of (S.contents outgoing.old) (C.remaining incoming.old))
        (link_of (S.contents outgoing.new) (C.remaining incoming.new)) reply.items) }
    ensures err { IfErr result (IsConversationFault C.failed S.failed) }
{
    match task {
        RowTask::Register(terms) => register_row(
            alloc,
            terms,
            registration_row_in(text),
            incoming,
            outgoing,
        ),
        RowTask::Revoke => revoke_row(alloc, revocation_row_in(text), incoming, outgoing),
    }
}

/// Asks for the `status` of the serial number of `row` (`None`: the row can't be read). If the reply is `unknown`, no certificate has it: only then
/// enters an order, and registers the certificate under it (`order_row`). So a row that is registered already adds no order. Returns the last reply.
fn register_row<C: LineSource, S: Sink>(
    alloc: Global,
    terms: OrderTerms,
    row: Option<RegistrationInput>,
    incoming: &mut C,
    outgoing: &mut S,
) -> Result<Vec<u8>, Failure>
    ensures ok { IfOk result (λ reply.
        RegistersRow terms row (link_of (S.contents outgoing.old) (C.remaining incoming.old))
        (link_of (S.contents outgoing.new) (C.remaining incoming.new)) reply.items) }
    ensures err { IfErr result (IsConversationFault C.failed S.failed) }
{
    let Some(row) = row else {
        // The desk replies `E22 syntax` to this line, and so to a row that can't be read.
        return request_reply(alloc, b"register\n", incoming, outgoing);
    };
    let Ok(query) = status_line(alloc, &row) else {
        return Err(Failure::Fault(Fault::Memory));
    };
    let status = request_reply(alloc, &query, incoming, outgoing)?;
    if !has_first_word(&status, b"unknown") {
        return Ok(status);
    }
    order_row(alloc, terms, &row, incoming, outgoing)
}

fn order_row<C: LineSource, S: Sink>(
    alloc: Global,
    terms: OrderTerms,
    row: &RegistrationInput,
    incoming: &mut C,
    outgoing: &mut S,
) -> Result<Vec<u8>, Failure>
    ensures ok { IfOk result (λ reply.
        OrdersRow terms row.now (link_of (S.contents outgoing.old) (C.remaining incoming.old))
        (link_of (S.contents outgoing.new) (C.remaining incoming.new)) reply.items) }
    ensures err { IfErr result (IsConversationFault C.failed S.failed) }
{
    let Ok(order) = order_line(alloc, terms) else {
        return Err(Failure::Fault(Fault::Memory));
    };
    let ordered = request_reply(alloc, &order, incoming, outgoing)?;
    if !has_first_word(&ordered, b"order") {
        return Ok(ordered);
    }
    let Ok(registration) = registration_line(alloc, row, &ordered) else {
        return Err(Failure::Fault(Fault::Memory));
    };
    request_reply(alloc, &registration, incoming, outgoing)
}

/// Requests the revocation of a row's certificate. If the reply (`entered`) is `request NUMBER ..`, revokes it. `row` and result: as `register_row`.
fn revoke_row<C: LineSource, S: Sink>(
    alloc: Global,
    row: Option<RevocationInput>,
    incoming: &mut C,
    outgoing: &mut S,
) -> Result<Vec<u8>, Failure>
    ensures ok { IfOk result (λ reply.
        RevokesRow row (link_of (S.contents outgoing.old) (C.remaining incoming.old))
        (link_of (S.contents outgoing.new) (C.remaining incoming.new)) reply.items) }
    ensures err { IfErr result (IsConversationFault C.failed S.failed) }
{
    let Some(row) = row else {
        return request_reply(alloc, b"request\n", incoming, outgoing);
    };
    let Ok(request) = request_line(alloc, &row) else {
        return Err(Failure::Fault(Fault::Memory));
    };
    let entered = request_reply(alloc, &request, incoming, outgoing)?;
    if !has_first_word(&entered, b"request") {
        return Ok(entered);
    }
    let Ok(revocation) = revocation_line(alloc, &row, &entered) else {
        return Err(Failure::Fault(Fault::Memory));
    };
    request_reply(alloc, &revocation, incoming, outgoing)
}

fn is_skipped(task: RowTask, text: &[u8]) -> bool
    ensures { result ≡ is_skipped task text.now }
{
    text.is_empty() || text == header_of(task)
}

fn header_of(task: RowTask) -> &'static [u8]
    ensures { result.now ≡ header_of task }
{
    match task {
        RowTask::Register(_) => b"serial,notBefore,notAfter",
        RowTask::Revoke => b"serial,ground",
    }
}

#[tactic(auto, unfolding(crate::specs::RowTasks::revocation_row_in))]
fn revocation_row_in(text: &[u8]) -> Option<RevocationInput>
    ensures { result ≡ revocation_row_in text.now }
{
    let (serial, ground) = split_at_comma(text)?;
    let serial = Serial::read(serial)?;
    let ground_word = Label::of(ground)?;
    Some(RevocationInput {
        serial,
        ground_word,
    })
}

#[tactic(auto, unfolding(crate::specs::RowTasks::registration_row_in))]
fn registration_row_in(text: &[u8]) -> Option<RegistrationInput>
    ensures { result ≡ registration_row_in text.now }
{
    let (serial, moments) = split_at_comma(text)?;
    let (not_before, not_after) = split_at_comma(moments)?;
    Some(RegistrationInput {
        serial: Serial::read(serial)?,
        not_before: Moment::read(not_before)?,
        not_after: Moment::read(not_after)?,
    })
}

#[tactic(auto, unfolding(crate::specs::RowTasks::split_at_comma))]
fn split_at_comma(text: &[u8]) -> Option<(&[u8], &[u8])>
    ensures { option_map (λ p. (p.0.now, p.1.now)) result ≡ split_at_comma text.now }
{
    let comma = first_comma(text)?;
    Some((&text[..comma], &text[comma + 1..]))
}

fn first_comma(text: &[u8]) -> Option<usize>
    ensures place { result ≡ position (λ byte. byte == 44) text.now }
    ensures within { IfSome result (λ comma. comma < length text.now) }
{
    text.iter().position(|byte| *byte == b',')
}

/// The line `request SERIAL GROUND`. `put_word` and `put_number` put a space before what they append.
fn request_line(alloc: Global, row: &RevocationInput) -> Result<Vec<u8>, AllocError>
    ensures { IfOk result (λ line. line.items ≡ row_request row.now) }
{
    let mut line = Vec::from_slice(alloc, b"request")?;
    put_word(&mut line, &row.serial.text())?;
    put_word(&mut line, row.ground_word.as_bytes())?;
    line.push(b'\n')?;
    Ok(line)
}

/// The line `revoke NUMBER SERIAL`. NUMBER is the second word of `reply`, the reply to `request` (in `registration_line`: to `order`).
fn revocation_line(
    alloc: Global,
    row: &RevocationInput,
    reply: &[u8],
) -> Result<Vec<u8>, AllocError>
    ensures { IfOk result (λ line. line.items ≡ row_revocation row.now reply.now) }
{
    let mut line = Vec::from_slice(alloc, b"revoke")?;
    put_word(&mut line, second_word(without_end(reply)))?;
    put_word(&mut line, &row.serial.text())?;
    line.push(b'\n')?;
    Ok(line)
}

fn status_line(alloc: Global, row: &RegistrationInput) -> Result<Vec<u8>, AllocError>
    ensures { IfOk result (λ line. line.items ≡ row_status row.now) }
{
    let mut line = Vec::from_slice(alloc, b"status")?;
    put_word(&mut line, &row.serial.text())?;
    line.push(b'\n')?;
    Ok(line)
}

fn order_line(alloc: Global, terms: OrderTerms) -> Result<Vec<u8>, AllocError>
    ensures { IfOk result (λ line. line.items ≡ row_order terms) }
{
    let mut line = Vec::from_slice(alloc, b"order")?;
    put_number(&mut line, terms.subscriber)?;
    put_number(&mut line, terms.days)?;
    line.push(b'\n')?;
    Ok(line)
}

fn registration_line(
    alloc: Global,
    row: &RegistrationInput,
    reply: &[u8],
) -> Result<Vec<u8>, AllocError>
    ensures { IfOk result (λ line. line.items ≡ row_registration row.now reply.now) }
{
    let mut line = Vec::from_slice(alloc, b"register")?;
    put_word(&mut line, second_word(without_end(reply)))?;
    put_word(&mut line, &row.serial.text())?;
    put_word(&mut line, &row.not_before.text())?;
    put_word(&mut line, &row.not_after.text())?;
    line.push(b'\n')?;
    Ok(line)
}

fn has_first_word(reply: &[u8], word: &[u8]) -> bool
    ensures { result ≡ has_first_word reply.now word.now }
{
    first_word(without_end(reply)) == word
}

/// Whether a reply is no refusal and no fault, or is the refusal E19: the certificate is already revoked.
fn is_done(reply: &[u8]) -> bool
    ensures { IsTrue result ↔ IsRowDone reply.now }
{
    is_accepted(reply) || first_word(without_end(reply)) == b"E19".as_slice()
}
