//! Writes OCSP responses in DER (RFC 6960 4.2.1). Clauses `length_at_most` bound the DER that a function gives or appends.

ghost use Rattle.std.specs.Prelude.{◌≡◌, ◌+◌, ◌*◌, ◌^◌, ◌<◌, ◌≤◌, ◌%◌, length, None, IfOk, OnOk, IfSome, option_copied, sum_by};
ghost use Rattle.std.specs.List.{flat_map};
ghost use Rattle.reg_der.specs.Der.{tlv};
ghost use Rattle.reg_core.specs.declared.command.Status.TheVariants.{Revoked};
ghost use Rattle.reg_ocsp.specs.Response.{basic_fields, basic_response, cert_status, certs_part, certs_room, data_fields, next_update, ocsp_response, reason_part, refusal_response, single_fields, single_response, successful_response};
ghost use Rattle.reg_ocsp.specs.Response as spec;
ghost use Rattle.reg_ocsp.specs.Request.{CanBeAnswered};
ghost use Rattle.reg_ocsp.specs.Views.{answer_model, answers_model, answered, answered_length, ids_model};
ghost use Rattle.reg_core.specs.Buffers.{AppendsOnOk, ItemsOnOk};

use crate::asked::CertId;
use crate::extensions::NONCE;
use reg_core::{Memory, Moment, Status};
use reg_der::tags::{
    ENUMERATED, OBJECT_IDENTIFIER, OCTET_STRING, PRIMITIVE_0, PRIMITIVE_2, SEQUENCE, TAGGED_0,
    TAGGED_1, TAGGED_2,
};
use reg_der::{Issuer, put, put_bits, put_general, put_raw};
use sha1::Sha1;
use std::alloc::Global;

/// id-pkix-ocsp-basic, 1.3.6.1.5.5.7.48.1.1 (RFC 6960 4.2.1).
const BASIC: [u8; 9] = [0x2B, 0x06, 0x01, 0x05, 0x05, 0x07, 0x30, 0x01, 0x01];

/// Why a response has no responseBytes (OCSPResponseStatus, RFC 6960 4.2.1): malformedRequest, internalError, or tryLater.
#[derive(Clone, Copy, PartialEq, Eq)]
pub enum RefusalStatus {
    Malformed,
    Internal,
    TryLater,
}

/// The whole OCSPResponse with this status and no responseBytes.
#[tactic(auto, unfolding(reg_der::specs::Der::tlv, reg_der::specs::Der::length_octets))]
pub fn refusal(status: RefusalStatus) -> [u8; 5]
    ensures { result ≡ refusal_response status }
{
    let code = match status {
        RefusalStatus::Malformed => 1,
        RefusalStatus::Internal => 2,
        RefusalStatus::TryLater => 3,
    };
    [SEQUENCE, 3, ENUMERATED, 1, code]
}

/// The ResponseData, which is to be signed (RFC 6960 4.2.1), of an issuer that is its own responder: responderID is the SHA-1 of the issuer's key.
/// producedAt and each thisUpdate are `now`, each nextUpdate is `next`. Each CertID is repeated byte for byte, in the order of `answers`. An expired
/// certificate that isn't revoked is `good`, and the reason 0 (unspecified) is left out. There are at most 65,536 CertIDs with 65,536 bytes in all;
/// `nonce`, the contents of its extnValue, has at most 131 bytes. [`crate::read_request`] gives no more. [`Memory`] if out of memory.
pub fn response_data(
    alloc: Global,
    issuer: &Issuer,
    now: Moment,
    next: Moment,
    answers: &[(CertId<'_>, Status)],
    nonce: Option<&[u8]>,
) -> Result<Vec<u8>, Memory>
    requires { CanBeAnswered (ids_model (answered answers.now)) (option_copied nonce) }
    ensures data { ItemsOnOk result
        (spec.response_data issuer.now.key now next (answers_model answers.now) (option_copied nonce.entry)) }
    ensures bounded { IfOk result (λ v. length v.items ≤ 2 ^ 27) }
{
    response_data_by(alloc, issuer.key(), now, next, answers, nonce)
}

/// As [`response_data`], for any responder: `key` is the bits of its subjectPublicKey, and responderID (byKey) is the SHA-1 of them.
#[tactic(auto, using(crate::proofs::Answering::few_answers, crate::proofs::Answering::short_answers), unfolding(crate::specs::Response::response_data))]
pub fn response_data_by(
    alloc: Global,
    key: &[u8],
    now: Moment,
    next: Moment,
    answers: &[(CertId<'_>, Status)],
    nonce: Option<&[u8]>,
) -> Result<Vec<u8>, Memory>
    requires { CanBeAnswered (ids_model (answered answers.now)) (option_copied nonce) }
    ensures data { ItemsOnOk result
        (spec.response_data key.now now next (answers_model answers.now) (option_copied nonce.entry)) }
    ensures bounded { IfOk result (λ v. length v.items ≤ 2 ^ 27) }
{
    let mut fields = Vec::new(alloc);
    put_data_fields(alloc, &mut fields, key, now, next, answers, nonce)?;
    enclosed(alloc, SEQUENCE, &fields)
}

/// Appends responderID, producedAt (`now`), responses and responseExtensions.
fn put_data_fields(
    alloc: Global,
    out: &mut Vec<u8>,
    key: &[u8],
    now: Moment,
    next: Moment,
    answers: &[(CertId<'_>, Status)],
    nonce: Option<&[u8]>,
) -> Result<(), Memory>
    requires few { length answers.now ≤ 65536 }
    requires short { sum_by answered_length answers.now ≤ 65536 }
    requires short_nonce { IfSome (option_copied nonce) (λ value. length value ≤ 131) }
    ensures ok { AppendsOnOk out.old out.new result
        (data_fields key.now now next (answers_model answers.now) (option_copied nonce.entry)) }
    ensures length_at_most { OnOk result
        (length out.new.items
        ≤ length out.old.items + 100 * length answers.now + sum_by answered_length answers.now + 255) }
{
    put_responder(alloc, out, key)?;
    put_general(out, now)?;
    put_answers(alloc, out, now, next, answers)?;
    put_nonce(alloc, out, nonce)
}

/// The whole OCSPResponse of status successful, with a BasicOCSPResponse (RFC 6960 4.2.1). `signed` is the DER of the ResponseData, `algorithm` the
/// signature's AlgorithmIdentifier, `signature` the contents of the BIT STRING without their first octet. [`Memory`] if out of memory.
pub fn basic(
    alloc: Global,
    signed: &[u8],
    algorithm: &[u8],
    signature: &[u8],
) -> Result<Vec<u8>, Memory>
    requires short_signed { length signed.now ≤ 2 ^ 27 }
    requires short_algorithm { length algorithm.now ≤ 1024 }
    requires short_signature { length signature.now ≤ 65536 }
    ensures response { ItemsOnOk result (ocsp_response signed.now algorithm.now signature.now None) }
    ensures length_at_most { IfOk result
        (λ v. length v.items ≤ length signed.now + length algorithm.now + length signature.now + 64) }
{
    basic_with(alloc, signed, algorithm, signature, None)
}

/// As [`basic`], with a certificate in `certs`, if there is one: its DER (RFC 6960 4.2.1, 4.2.2.2).
#[tactic(auto, unfolding(crate::specs::Response::ocsp_response))]
pub fn basic_with(
    alloc: Global,
    signed: &[u8],
    algorithm: &[u8],
    signature: &[u8],
    certificate: Option<&[u8]>,
) -> Result<Vec<u8>, Memory>
    requires short_signed { length signed.now ≤ 2 ^ 27 }
    requires short_algorithm { length algorithm.now ≤ 1024 }
    requires short_signature { length signature.now ≤ 65536 }
    requires short_certificate { IfSome (option_copied certificate) (λ bytes. length bytes ≤ 65536) }
    ensures response { ItemsOnOk result
        (ocsp_response signed.now algorithm.now signature.now (option_copied certificate.entry)) }
    ensures length_at_most { IfOk result (λ v. length v.items
        ≤ length signed.now + length algorithm.now + length signature.now
        + certs_room (option_copied certificate.entry) + 64) }
{
    let basic = basic_value(alloc, signed, algorithm, signature, certificate)?;
    let bytes = response_bytes(alloc, &basic)?;
    successful_value(alloc, &bytes)
}

/// The OCSPResponse of status successful (0), around the DER of its ResponseBytes.
fn successful_value(alloc: Global, bytes: &[u8]) -> Result<Vec<u8>, Memory>
    requires { length bytes.now ≤ 2 ^ 28 }
    ensures value { ItemsOnOk result (successful_response bytes.now) }
    ensures length_at_most { IfOk result (λ v. length v.items ≤ length bytes.now + 19) }
{
    let mut fields = Vec::new(alloc);
    put(&mut fields, ENUMERATED, &[0])?;
    put(&mut fields, TAGGED_0, bytes)?;
    enclosed(alloc, SEQUENCE, &fields)
}

fn response_bytes(alloc: Global, basic: &[u8]) -> Result<Vec<u8>, Memory>
    requires { length basic.now < 2 ^ 28 }
    ensures value { ItemsOnOk result (spec.response_bytes basic.now) }
    ensures length_at_most { IfOk result (λ v. length v.items ≤ length basic.now + 27) }
{
    let mut fields = Vec::new(alloc);
    put(&mut fields, OBJECT_IDENTIFIER, &BASIC)?;
    put(&mut fields, OCTET_STRING, basic)?;
    enclosed(alloc, SEQUENCE, &fields)
}

#[tactic(auto, unfolding(crate::specs::Response::basic_response))]
fn basic_value(
    alloc: Global,
    signed: &[u8],
    algorithm: &[u8],
    signature: &[u8],
    certificate: Option<&[u8]>,
) -> Result<Vec<u8>, Memory>
    requires short_signed { length signed.now ≤ 2 ^ 27 }
    requires short_algorithm { length algorithm.now ≤ 1024 }
    requires short_signature { length signature.now ≤ 65536 }
    requires short_certificate { IfSome (option_copied certificate) (λ bytes. length bytes ≤ 65536) }
    ensures value { ItemsOnOk result
        (basic_response signed.now algorithm.now signature.now (option_copied certificate.entry)) }
    ensures length_at_most { IfOk result (λ v. length v.items
        ≤ length signed.now + length algorithm.now + length signature.now
        + certs_room (option_copied certificate.entry) + 13) }
    ensures bounded { IfOk result (λ v. length v.items ≤ 2 ^ 27 + 2 ^ 18) }
{
    let mut fields = Vec::new(alloc);
    put_basic_fields(
        alloc,
        &mut fields,
        signed,
        algorithm,
        signature,
        certificate,
    )?;
    enclosed(alloc, SEQUENCE, &fields)
}

fn put_basic_fields(
    alloc: Global,
    out: &mut Vec<u8>,
    signed: &[u8],
    algorithm: &[u8],
    signature: &[u8],
    certificate: Option<&[u8]>,
) -> Result<(), Memory>
    requires short_signature { length signature.now ≤ 65536 }
    requires short_certificate { IfSome (option_copied certificate) (λ bytes. length bytes ≤ 65536) }
    ensures ok { AppendsOnOk out.old out.new result
        (basic_fields signed.now algorithm.now signature.now (option_copied certificate.entry)) }
    ensures length_at_most { OnOk result (length out.new.items
        ≤ length out.old.items + length signed.now + length algorithm.now + length signature.now
        + certs_room (option_copied certificate.entry) + 7) }
    ensures bounded { OnOk result
        (length out.new.items
        ≤ length out.old.items + length signed.now + length algorithm.now + length signature.now + 65555) }
{
    put_raw(out, signed)?;
    put_raw(out, algorithm)?;
    put_bits(out, signature)?;
    put_certificate(alloc, out, certificate)
}

fn put_certificate(
    alloc: Global,
    out: &mut Vec<u8>,
    certificate: Option<&[u8]>,
) -> Result<(), Memory>
    requires { IfSome (option_copied certificate) (λ bytes. length bytes ≤ 65536) }
    ensures ok { AppendsOnOk out.old out.new result (certs_part (option_copied certificate.entry)) }
    ensures length_at_most { OnOk result
        (length out.new.items ≤ length out.old.items + certs_room (option_copied certificate.entry)) }
    ensures bounded { OnOk result (length out.new.items ≤ length out.old.items + 65548) }
{
    let Some(bytes) = certificate else {
        return Ok(());
    };
    let certificates = enclosed(alloc, SEQUENCE, bytes)?;
    put(out, TAGGED_0, &certificates)
}

fn put_responder(alloc: Global, out: &mut Vec<u8>, key: &[u8]) -> Result<(), Memory>
    ensures ok { AppendsOnOk out.old out.new result (spec.responder key.now) }
    ensures length_at_most { OnOk result (length out.new.items ≤ length out.old.items + 32) }
{
    let hash = enclosed(alloc, OCTET_STRING, &Sha1::digest(key))?;
    put(out, TAGGED_2, &hash)
}

fn put_answers(
    alloc: Global,
    out: &mut Vec<u8>,
    now: Moment,
    next: Moment,
    answers: &[(CertId<'_>, Status)],
) -> Result<(), Memory>
    requires few { length answers.now ≤ 65536 }
    requires short { sum_by answered_length answers.now ≤ 65536 }
    ensures ok { AppendsOnOk out.old out.new result
        (tlv 0x30 (flat_map (single_response now next) (answers_model answers.now))) }
    ensures length_at_most { OnOk result
        (length out.new.items
        ≤ length out.old.items + 100 * length answers.now + sum_by answered_length answers.now + 6) }
{
    let mut list = Vec::new(alloc);
    for answer in answers {
        put_single(alloc, &mut list, now, next, answer)?;
    }
    put(out, SEQUENCE, &list)
}

#[tactic(auto, unfolding(crate::specs::Response::single_response))]
fn put_single(
    alloc: Global,
    out: &mut Vec<u8>,
    now: Moment,
    next: Moment,
    answer: &(CertId<'_>, Status),
) -> Result<(), Memory>
    requires { answered_length answer.now ≤ 65536 }
    ensures ok { AppendsOnOk out.old out.new result (single_response now next (answer_model answer.now)) }
    ensures length_at_most { OnOk result
        (length out.new.items ≤ length out.old.items + answered_length answer.now + 100) }
{
    let mut fields = Vec::new(alloc);
    put_single_fields(alloc, &mut fields, now, next, answer)?;
    put(out, SEQUENCE, &fields)
}

/// Appends certID, certStatus, thisUpdate (`now`) and nextUpdate (`next`).
fn put_single_fields(
    alloc: Global,
    out: &mut Vec<u8>,
    now: Moment,
    next: Moment,
    answer: &(CertId<'_>, Status),
) -> Result<(), Memory>
    ensures ok { AppendsOnOk out.old out.new result (single_fields now next (answer_model answer.now)) }
    ensures length_at_most { OnOk result
        (length out.new.items ≤ length out.old.items + answered_length answer.now + 76) }
{
    let (id, status) = answer;
    put_raw(out, id.raw)?;
    put_status(alloc, out, *status)?;
    put_general(out, now)?;
    put_next_update(alloc, out, next)
}

fn put_next_update(alloc: Global, out: &mut Vec<u8>, next: Moment) -> Result<(), Memory>
    ensures ok { AppendsOnOk out.old out.new result (next_update next) }
    ensures length_at_most { OnOk result (length out.new.items ≤ length out.old.items + 23) }
{
    let mut update = Vec::new(alloc);
    put_general(&mut update, next)?;
    put(out, TAGGED_0, &update)
}

fn put_status(alloc: Global, out: &mut Vec<u8>, status: Status) -> Result<(), Memory>
    ensures ok { AppendsOnOk out.old out.new result (cert_status status) }
    ensures length_at_most { OnOk result (length out.new.items ≤ length out.old.items + 36) }
{
    match status {
        Status::Good | Status::Expired => put(out, PRIMITIVE_0, &[]),
        Status::Unknown => put(out, PRIMITIVE_2, &[]),
        Status::Revoked { at, reason } => put_revoked(alloc, out, at, reason),
    }
}

fn put_revoked(alloc: Global, out: &mut Vec<u8>, at: Moment, reason: u8) -> Result<(), Memory>
    ensures ok { AppendsOnOk out.old out.new result (cert_status (Revoked at reason)) }
    ensures length_at_most { OnOk result (length out.new.items ≤ length out.old.items + 36) }
{
    let mut info = Vec::new(alloc);
    put_general(&mut info, at)?;
    put_reason(alloc, &mut info, reason)?;
    put(out, TAGGED_1, &info)
}

fn put_reason(alloc: Global, out: &mut Vec<u8>, reason: u8) -> Result<(), Memory>
    ensures ok { AppendsOnOk out.old out.new result (reason_part reason) }
    ensures length_at_most { OnOk result (length out.new.items ≤ length out.old.items + 13) }
{
    if reason == 0 {
        return Ok(());
    }
    let code = enclosed(alloc, ENUMERATED, &[reason])?;
    put(out, TAGGED_0, &code)
}

fn put_nonce(alloc: Global, out: &mut Vec<u8>, nonce: Option<&[u8]>) -> Result<(), Memory>
    requires { IfSome (option_copied nonce) (λ value. length value ≤ 131) }
    ensures ok { AppendsOnOk out.old out.new result (spec.nonce_part (option_copied nonce.entry)) }
    ensures length_at_most { OnOk result (length out.new.items ≤ length out.old.items + 200) }
{
    let Some(value) = nonce else {
        return Ok(());
    };
    let extension = nonce_extension(alloc, value)?;
    let extensions = enclosed(alloc, SEQUENCE, &extension)?;
    put(out, TAGGED_1, &extensions)
}

fn nonce_extension(alloc: Global, nonce: &[u8]) -> Result<Vec<u8>, Memory>
    requires { length nonce.now ≤ 131 }
    ensures value { ItemsOnOk result (spec.nonce_extension nonce.now) }
    ensures length_at_most { IfOk result (λ v. length v.items ≤ length nonce.now + 27) }
{
    let mut fields = Vec::new(alloc);
    put(&mut fields, OBJECT_IDENTIFIER, &NONCE)?;
    put(&mut fields, OCTET_STRING, nonce)?;
    enclosed(alloc, SEQUENCE, &fields)
}

/// The DER value with this tag and these contents.
fn enclosed(alloc: Global, tag: u8, contents: &[u8]) -> Result<Vec<u8>, Memory>
    requires low_tag { tag % 32 < 31 }
    requires short { length contents.now < 2 ^ 32 }
    ensures value { ItemsOnOk result (tlv tag contents.now) }
    ensures length_at_most { IfOk result (λ v. length v.items ≤ length contents.now + 6) }
{
    let mut out = Vec::new(alloc);
    put(&mut out, tag, contents)?;
    Ok(out)
}
