//! Runs one untimed line (a line without its moment) in an office, which runs commands and queries on a register.

ghost use Rattle.std.specs.Prelude.{◌≡◌, ◌++◌, Err, IfOk, Ok, codes};
ghost use Rattle.hex.specs.Hex.{encode_lower};
ghost use Rattle.reg_office_api.specs.Calls.{LeadsIn};
ghost use Rattle.reg_lines.specs.Answer.{ComesTo, OfficeAnswers, OcspLineComesTo, unreadable as syntax_refused};
ghost use Rattle.reg_lines.specs.ByCalls.{LineCalls, Lines};
ghost use Rattle.reg_lines.specs.Meaning.{is_ocsp_line, decoded_bytes};
ghost use Rattle.reg_lines.specs.Replies.{with_lf};

use crate::answered::{Answered, LineKind, OcspReply};
use crate::line::{ParsedLine, read_line};
use reg_core::{Fault, Moment, Refusal};
use reg_office_api::Office;
use std::alloc::{AllocError, Global};

/// The length in bytes of an OCSP response that has only a status (RFC 6960 4.2.1).
const STATUS_ONLY_LENGTH: usize = 5;

/// Runs an untimed line, without its line end, at the moment `now`. A line that can't be read gets [`Refusal::Syntax`] without a call of the office.
pub fn run_line<O: Office>(alloc: Global, office: &mut O, now: Moment, line: &[u8]) -> Answered
    ensures leads { LeadsIn O.Office
        (λ signers before after. ComesTo (Lines O.signs signers) now before line.now result after)
        office.old office.new }
    ensures by_calls { ComesTo (LineCalls O.Office) now office.old line.now result office.new }
{
    match read_line(line) {
        Some(ParsedLine::Command(command)) => {
            let outcome = office.run_one(alloc, now, &command);
            Answered::Completed(LineKind::Command(command), outcome)
        }
        Some(ParsedLine::Query(query)) => {
            let outcome = office.ask(alloc, now, &query);
            Answered::Completed(LineKind::Query(query), outcome)
        }
        Some(ParsedLine::Ocsp(digits)) => run_ocsp(alloc, office, now, digits),
        None => unreadable(),
    }
}

pub(crate) fn unreadable() -> Answered
    ensures { result ≡ syntax_refused }
{
    Answered::Completed(LineKind::Nothing, Err(Fault::Refused(Refusal::Syntax)))
}

fn run_ocsp<O: Office>(alloc: Global, office: &mut O, now: Moment, digits: &[u8]) -> Answered
    ensures { OfficeAnswers (LineCalls O.Office) now office.old (is_ocsp_line (decoded_bytes digits.now))
        result office.new }
{
    // `decode` and `ocsp` fail only if out of memory: `read_line` found the digits valid.
    let Ok(request) = hex::decode(alloc, digits) else {
        return no_memory();
    };
    match office.ocsp(alloc, now, &request) {
        Ok(response) => respond(alloc, &response),
        Err(_) => no_memory(),
    }
}

fn respond(alloc: Global, response: &[u8]) -> Answered
    ensures { OcspLineComesTo (Ok response.now) result }
{
    match response_line(alloc, response) {
        Ok(line) => Answered::Response(OcspReply {
            line,
            has_only_status: response.len() == STATUS_ONLY_LENGTH,
        }),
        Err(_) => no_memory(),
    }
}

fn no_memory() -> Answered
    ensures { result ≡ Answered.Completed LineKind.Ocsp (Err Fault.Memory) }
{
    Answered::Completed(LineKind::Ocsp, Err(Fault::Memory))
}

fn response_line(alloc: Global, response: &[u8]) -> Result<Vec<u8>, AllocError>
    ensures { IfOk result (λ text. text.items ≡ with_lf (codes "ocsp " ++ encode_lower response.now)) }
{
    let digits = hex::encode(alloc, response)?;
    let mut text = Vec::from_slice(alloc, b"ocsp ")?;
    text.extend_from_slice(digits.as_bytes())?;
    text.push(b'\n')?;
    Ok(text)
}
