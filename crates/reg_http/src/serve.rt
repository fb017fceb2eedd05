//! Serves one request over any reader and writer. `desk` doesn't use this, but [`begin`](crate::begin), which can leave a response to be signed.

ghost use Rattle.std.specs.Prelude.{◌≡◌, ◌≢◌, ◌≤◌, ◌⊎◌, [], ℕ, List, IfErr, OnOk, vec_capacity};
ghost use Rattle.std.specs.Io.KnownBytes.{Appends};
ghost use Rattle.reg_io.specs.Put.{AppendsPrefix};
ghost use Rattle.reg_office_api.specs.CallSteps.{Runs, Asks, AnswersOcsp, GivesCrl};
ghost use Rattle.reg_office_api.specs.Calls.{LeadsIn};
ghost use Rattle.reg_http_head.specs.Frame.{request_meaning};
ghost use Rattle.reg_http_head.specs.Response.{IsText, memory_text, shown};
ghost use Rattle.reg_http.specs.Added.{AddsARequestAtMost};
ghost use Rattle.reg_http.specs.Bodies.{http_refusal as refusal_of};
ghost use Rattle.reg_http.specs.Served.{ReplyEnds, ReplyEndsIn, ServingEnds, ServingEndsIn};

use crate::bodies::{json_buffer, refusal};
use crate::routes::answer;
use reg_core::{Fault, Moment};
use reg_http_head::{
    Answer, RESPONSE_HEAD_ROOM, Request, memory_fault, read_request, write_answer,
};
use reg_io::write_whole;
use reg_office_api::Office;
use std::alloc::Global;
use std::io::{Read, Write};

/// Writes the answer, dated `now`; `buffer` is for the head of the response.
fn send<W: Write>(
    writer: &mut W,
    buffer: Vec<u8>,
    answer: &Answer,
    now: Moment,
) -> Result<(), Fault>
    requires empty { buffer.items ≡ [] }
    requires buffer { 512 ≤ vec_capacity buffer }
    ensures ok { OnOk result ((text : List ℕ) × IsText (shown answer.now) now text
        × Appends (W.contents writer.old) (W.contents writer.new) text) }
    ensures err { IfErr result (λ fault.
        (fault ≡ Fault.Write) × ((text : List ℕ) × IsText (shown answer.now) now text
        × AppendsPrefix (W.contents writer.old) (W.contents writer.new) text)) }
{
    write_answer(writer, buffer, answer, now).map_err(|_| Fault::Write)
}

fn send_memory_fault<W: Write>(writer: &mut W) -> Result<(), Fault>
    ensures ok { OnOk result (Appends (W.contents writer.old) (W.contents writer.new) memory_text) }
    ensures err { IfErr result (λ fault. (fault ≡ Fault.Write)
        × AppendsPrefix (W.contents writer.old) (W.contents writer.new) memory_text) }
{
    match write_whole(writer, memory_fault()) {
        Ok(()) => Ok(()),
        Err(_) => Err(Fault::Write),
    }
}

fn refuse<W: Write>(
    alloc: Global,
    writer: &mut W,
    buffer: Vec<u8>,
    status: u16,
    now: Moment,
) -> Result<(), Fault>
    requires empty { buffer.items ≡ [] }
    requires buffer { 512 ≤ vec_capacity buffer }
    ensures ok { OnOk result ((text : List ℕ) × IsText (refusal_of status) now text
        × Appends (W.contents writer.old) (W.contents writer.new) text) }
    ensures err { IfErr result (λ fault.
        ((fault ≡ Fault.Write) × ((text : List ℕ) × IsText (refusal_of status) now text
        × AppendsPrefix (W.contents writer.old) (W.contents writer.new) text))
        ⊎ ((fault ≡ Fault.Memory) × (writer.new ≡ writer.old))) }
{
    match json_buffer(alloc) {
        Ok(body) => send(writer, buffer, &refusal(body, status), now),
        Err(_) => Err(Fault::Memory),
    }
}

fn reply<W: Write, O: Office>(
    alloc: Global,
    writer: &mut W,
    buffer: Vec<u8>,
    request: Request,
    now: Moment,
    office: &mut O,
) -> Result<(), Fault>
    requires empty { buffer.items ≡ [] }
    requires buffer { 512 ≤ vec_capacity buffer }
    ensures ends { LeadsIn O.Office
        (λ signers before after.
        ReplyEnds (Runs O.signs signers) Asks (AnswersOcsp O.signs signers) GivesCrl now before after
        (request_meaning request) (W.contents writer.old) (W.contents writer.new) result
        × AddsARequestAtMost now before after)
        office.old office.new }
    ensures silent { IfErr result (λ fault. fault ≢ Fault.Write
        → (writer.new ≡ writer.old) × (office.new ≡ office.old)) }
    ensures calls { ReplyEndsIn O.Office now office.old office.new (request_meaning request)
        (W.contents writer.old) (W.contents writer.new) result }
{
    match request {
        Request::Refused(status) => refuse(alloc, writer, buffer, status, now),
        Request::Valid {
            method,
            target,
            body,
        } => match answer(
            alloc,
            &method,
            target.as_str(),
            body.as_slice(),
            now,
            office,
        ) {
            Ok(answer) => send(writer, buffer, &answer, now),
            Err(_) => send_memory_fault(writer),
        },
    }
}

/// Reads one request, answers it and writes the response. If there is no memory to answer a valid request, the response is a constant with status
/// code 500, and the office does not change. [`Fault::Read`]: the reader failed, or ended within the request. [`Fault::Memory`]: there was no memory
/// to read the request, to refuse an invalid one, or for the response's head. After both faults, nothing was written, and the office did not change.
/// [`Fault::Write`]: the writer failed or accepted no more bytes. Then a prefix of the response was written, and the office is as after the answer.
pub fn serve_one<R: Read, W: Write, O: Office>(
    alloc: Global,
    reader: &mut R,
    writer: &mut W,
    now: Moment,
    office: &mut O,
) -> Result<(), Fault>
    ensures ends { LeadsIn O.Office
        (λ signers before after.
        ServingEnds (Runs O.signs signers) Asks (AnswersOcsp O.signs signers) GivesCrl now before after
        (R.remaining reader.old) (R.remaining reader.new) (W.contents writer.old) (W.contents writer.new)
        result
        × AddsARequestAtMost now before after)
        office.old office.new }
    ensures silent { IfErr result (λ fault. fault ≢ Fault.Write
        → (writer.new ≡ writer.old) × (office.new ≡ office.old)) }
    ensures calls { ServingEndsIn O.Office now office.old office.new
        (R.remaining reader.old) (R.remaining reader.new)
        (W.contents writer.old) (W.contents writer.new) result }
{
    let Ok(buffer) = Vec::with_capacity(alloc, RESPONSE_HEAD_ROOM) else {
        return Err(Fault::Memory);
    };
    match read_request(alloc, reader) {
        Ok(request) => reply(alloc, writer, buffer, request, now, office),
        Err(fault) => Err(fault),
    }
}
