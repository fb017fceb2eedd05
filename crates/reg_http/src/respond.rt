//! Answers an HTTP request by a call of the office (it runs commands and queries on the register). Some answers need no call, as for a wrong method.

ghost use Rattle.std.specs.Prelude.{◌≡◌, ◌≤◌, [], codes, vec_capacity};
ghost use Rattle.reg_http_head.specs.Response.{shown};
ghost use Rattle.reg_http.specs.Answers.{AnswersIn};
ghost use Rattle.reg_http.specs.Bodies.{der, malformed_text};
ghost use Rattle.reg_http.specs.Meanings.{request_of_call};
ghost use Rattle.reg_http.specs.AnswerEffects.{answer_effects};

use crate::answered::{HttpAnswer, answer_of_fault, crl_answer, outcome_answer, request_answer};
use crate::bodies::{OCSP_RESPONSE, der, method_not_allowed, refusal};
use crate::meaning::Call;
use reg_core::{Command, Fault, Moment, Query, Refusal};
use reg_http_head::{Answer, put};
use reg_office_api::Office;
use std::alloc::Global;

/// The OCSPResponse of status malformedRequest (RFC 6960 4.2.1).
const MALFORMED: &[u8] = b"\x30\x03\x0A\x01\x01";

fn malformed(mut buffer: Vec<u8>) -> Answer
    requires empty { buffer.items ≡ [] }
    requires buffer { 256 ≤ vec_capacity buffer }
    ensures { shown result ≡ der (codes "application/ocsp-response") malformed_text }
{
    put(&mut buffer, MALFORMED);
    der(OCSP_RESPONSE, buffer)
}

/// Makes the call, if any, and answers. Each body but a CRL goes into `buffer` (256 bytes), so no memory is needed after the call. `number` is that
/// of a CRL (`None`: the latest one), `word` the ground (reason) of a request for revocation. A `plain` answer has no signature and no effect.
pub(crate) fn respond<O: Office>(
    alloc: Global,
    buffer: Vec<u8>,
    call: Call,
    now: Moment,
    office: &mut O,
) -> HttpAnswer
    requires empty { buffer.items ≡ [] }
    requires buffer { 256 ≤ vec_capacity buffer }
    ensures { AnswersIn O.Office now office.old (request_of_call call) (answer_effects result) office.new }
{
    match call {
        Call::Refused(status) => HttpAnswer::plain(refusal(buffer, status)),
        Call::OnlyGet => HttpAnswer::plain(method_not_allowed(buffer, "GET")),
        Call::OnlyPost => HttpAnswer::plain(method_not_allowed(buffer, "POST")),
        Call::Unreadable => answer_of_fault(buffer, Fault::Refused(Refusal::Syntax)),
        Call::Malformed => HttpAnswer::plain(malformed(buffer)),
        Call::Crl(number) => crl_answer(buffer, office.crl_bytes(alloc, number)),
        Call::Status(serial) => {
            let query = Query::Status(serial);
            outcome_answer(buffer, office.ask(alloc, now, &query))
        }
        Call::Counts => outcome_answer(buffer, office.ask(alloc, now, &Query::Counts)),
        Call::Request { serial, word } => {
            let command = Command::Request {
                serial,
                ground: word,
            };
            request_answer(buffer, serial, word, office.run_one(alloc, now, &command))
        }
    }
}
