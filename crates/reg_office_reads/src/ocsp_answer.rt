//! Makes the response to an OCSP request, or a draft, which lacks the signature. An event loop requests that, and answers other requests meanwhile.

ghost use Rattle.std.specs.Prelude.{◌≡◌, ◌^◌, ◌≤◌, ◌↔◌, None, length, IfOk, IfSome, option_copied, unwrap_or};
ghost use Rattle.reg_ocsp.specs.Request.{CanBeAnswered};
ghost use Rattle.reg_ocsp.specs.Response.{refusal_response};
ghost use Rattle.reg_ocsp.specs.Views.{ids_model};
ghost use Rattle.reg_ocsp.specs.declared.response.RefusalStatus.TheVariants as refused;
ghost use Rattle.reg_office_api.specs.Drafts.{IsSignerFailure};
ghost use Rattle.reg_office_reads.specs.Answering.{ResponderHasFailed, SameSigners, SignerHasFailed, answering, failures_of, responder_named};
ghost use Rattle.reg_office_reads.specs.Beginning.{IsBegun, IsMessage, IsReady, IsResponding, IsResponseOver, IsSignedBy, RefusesRequest, key_in};
ghost use Rattle.reg_store_tables.specs.LookUps.{Learns, LooksUp};

use crate::ocsp_faults::ResponseFault;
use crate::responder::{Responder, ResponderFields, of_delegate, of_issuer};
use crate::statuses::answers;
use reg_core::{Memory, Moment, clock};
use reg_crl::{SignFault, Signer};
use reg_der::Issuer;
use reg_io::ReadyOrUnsigned;
use reg_ocsp::{
    Asked, Draft, RefusalStatus, RequestFault, basic_with, read_request, refusal, response_data_by,
    slice_of,
};
use reg_office_api::{OcspResponse, ResponseKind};
use reg_store_tables::Tables;
use sqlite::Alter;
use std::alloc::Global;

/// The response (RFC 6960 4.2.1) to the bytes of a request. The signer of CRLs (`signer`) or the delegate's own signs it. If that signer has a
/// `public_key`, it is a separate process: then a response to be signed is a draft, and the caller requests the signature. No table changes.
pub fn begin_ocsp<C: Alter, S: Signer>(
    alloc: Global,
    tables: &mut Tables<C>,
    signer: &mut S,
    responder: &mut Responder<S>,
    now: Moment,
    request: &[u8],
) -> Result<ReadyOrUnsigned<OcspResponse, Draft>, Memory>
    ensures looks { Learns C.Store tables.old tables.new result (λ records.
        IsBegun S.signs (answering S.Signer signer.old responder.old) records now request.now) }
    ensures refuses { IfOk result (RefusesRequest request.now) }
    ensures same { SameSigners S.Signer signer.old responder.old signer.new responder.new }
    ensures counts { IfOk result (λ begun.
        IsSignerFailure begun
        ↔ ResponderHasFailed S.Signer signer.old responder.old signer.new responder.new) }
    ensures never_falls { failures_of S.failure_count (S.failure_count signer.old) responder.old
        ≤ failures_of S.failure_count (S.failure_count signer.new) responder.new }
{
    match responder {
        Responder::Issuer(certificate) => {
            begin(alloc, tables, signer, of_issuer(certificate), now, request)
        }
        Responder::Delegate(own, certificate) => {
            begin(alloc, tables, own, of_delegate(certificate), now, request)
        }
    }
}

/// Signs a draft at once with the signer of OCSP responses, and returns the response's bytes: internalError if the signer fails (`None`).
pub fn sign_draft<S: Signer>(
    alloc: Global,
    signer: &mut S,
    responder: &mut Responder<S>,
    draft: &Draft,
) -> Result<Vec<u8>, Memory>
    ensures signed { IfOk result (λ bytes.
        IsSignedBy S.signs (answering S.Signer signer.old responder.old) draft.now bytes.items) }
    ensures same { SameSigners S.Signer signer.old responder.old signer.new responder.new }
    ensures failed { ResponderHasFailed S.Signer signer.old responder.old signer.new responder.new
        → IfOk result (λ bytes. bytes.items ≡ refusal_response refused.Internal) }
{
    let signature = match responder {
        Responder::Issuer(_) => signature_by(alloc, signer, draft.message())?,
        Responder::Delegate(own, _) => signature_by(alloc, own, draft.message())?,
    };
    draft.response(alloc, slice_of(&signature))
}

/// [`begin_ocsp`] with the signer of the response. `responder_fields` has the responder's key, if that isn't the issuer's, and its certificate.
fn begin<C: Alter, S: Signer>(
    alloc: Global,
    tables: &mut Tables<C>,
    signer: &mut S,
    responder_fields: ResponderFields<'_>,
    now: Moment,
    request: &[u8],
) -> Result<ReadyOrUnsigned<OcspResponse, Draft>, Memory>
    requires { IfSome (option_copied responder_fields.certificate) (λ bytes. length bytes ≤ 65536) }
    ensures looks { Learns C.Store tables.old tables.new result (λ records.
        IsBegun S.signs (responder_named (S.identity signer.old) responder_fields.entry) records now
        request.now) }
    ensures refuses { IfOk result (RefusesRequest request.now) }
    ensures same_identity { S.identity signer.new ≡ S.identity signer.old }
    ensures counts { IfOk result (λ begun.
        IsSignerFailure begun ↔ SignerHasFailed S.Signer signer.old signer.new) }
    ensures never_falls { S.failure_count signer.old ≤ S.failure_count signer.new }
{
    let asked = match read_request(alloc, request) {
        Ok(asked) => asked,
        Err(RequestFault::Malformed) => {
            return refused(alloc, RefusalStatus::Malformed, ResponseKind::Malformed);
        }
        Err(RequestFault::Memory) => return Err(Memory),
    };
    match ocsp_data(alloc, tables, responder_fields.own_key, now, &asked) {
        Ok(message) => respond(alloc, signer, responder_fields, &message),
        Err(ResponseFault::Clock) => {
            refused(alloc, RefusalStatus::TryLater, ResponseKind::TryLater)
        }
        Err(ResponseFault::Store) => {
            refused(alloc, RefusalStatus::Internal, ResponseKind::StoreFailure)
        }
        Err(ResponseFault::Memory) => Err(Memory),
    }
}

/// A response without responseBytes, only with this status. For internalError, `kind` also says which failed, the store or the signer.
fn refused(
    alloc: Global,
    status: RefusalStatus,
    kind: ResponseKind,
) -> Result<ReadyOrUnsigned<OcspResponse, Draft>, Memory>
    ensures { IfOk result (IsReady kind (refusal_response status)) }
{
    let bytes = Vec::from_slice(alloc, &refusal(status)).map_err(|_| Memory)?;
    Ok(ReadyOrUnsigned::Ready(OcspResponse { bytes, kind }))
}

/// The ResponseData for a request. Its ResponderID has the hash of the responder's key: `own_key`, or for `None` the issuer's key.
fn ocsp_data<C: Alter>(
    alloc: Global,
    tables: &mut Tables<C>,
    own_key: Option<&[u8]>,
    now: Moment,
    asked: &Asked<'_>,
) -> Result<Vec<u8>, ResponseFault>
    requires { CanBeAnswered (ids_model asked.now.ids.items) (option_copied asked.now.nonce) }
    ensures looks { LooksUp C.Store tables.old tables.new (λ records.
        IsMessage (key_in records (option_copied own_key.entry)) records now
        (ids_model asked.now.ids.items) (option_copied asked.now.nonce) result) }
    ensures bounded { IfOk result (λ bytes. length bytes.items ≤ 2 ^ 27) }
{
    let (issuer, next) = issuer_and_next_update(tables, now)?;
    let answers = answers(alloc, tables, &issuer, now, &asked.ids)?;
    let key = key_of(own_key, &issuer);
    Ok(response_data_by(alloc, key, now, next, &answers, asked.nonce)?)
}

fn key_of<'a>(own: Option<&'a [u8]>, issuer: &'a Issuer) -> &'a [u8]
    ensures { result.now ≡ unwrap_or (option_copied own.entry) issuer.now.key }
{
    match own {
        Some(key) => key,
        None => issuer.key(),
    }
}

/// The issuer, and an answer's nextUpdate: `now` plus the policy's `life`. `Clock` if `now` is before the last accepted moment, or after 9999-12-21.
fn issuer_and_next_update<C: Alter>(
    tables: &mut Tables<C>,
    now: Moment,
) -> Result<(Issuer, Moment), ResponseFault>
    ensures { LooksUp C.Store tables.old tables.new (λ records. IsResponding records now result) }
{
    let (last, issuer, life) = tables.ocsp_head()?;
    clock(now, last)?;
    Ok((issuer, now.plus(life)))
}

/// The response with a ResponseData (`message`): a draft if the signer's `public_key` is `Some`; else signed, or internalError if the signer fails.
fn respond<S: Signer>(
    alloc: Global,
    signer: &mut S,
    responder_fields: ResponderFields<'_>,
    message: &[u8],
) -> Result<ReadyOrUnsigned<OcspResponse, Draft>, Memory>
    requires short { length message.now ≤ 2 ^ 27 }
    requires short_certificate { IfSome (option_copied responder_fields.certificate) (λ bytes.
        length bytes ≤ 65536) }
    ensures responds { IfOk result
        (IsResponseOver S.signs (responder_named (S.identity signer.old) responder_fields.entry)
        message.now) }
    ensures same_identity { S.identity signer.new ≡ S.identity signer.old }
    ensures counts { IfOk result (λ begun.
        IsSignerFailure begun ↔ SignerHasFailed S.Signer signer.old signer.new) }
    ensures never_falls { S.failure_count signer.old ≤ S.failure_count signer.new }
{
    if let Some(key) = signer.public_key() {
        let draft = Draft::of(
            alloc,
            message,
            signer.algorithm(),
            key,
            responder_fields.certificate,
        )?;
        return Ok(ReadyOrUnsigned::Unsigned(draft));
    }
    match signature_by(alloc, signer, message)? {
        Some(signature) => {
            let algorithm = signer.algorithm();
            let bytes = basic_with(
                alloc,
                message,
                algorithm,
                &signature,
                responder_fields.certificate,
            )?;
            let kind = ResponseKind::Signed;
            Ok(ReadyOrUnsigned::Ready(OcspResponse { bytes, kind }))
        }
        None => refused(alloc, RefusalStatus::Internal, ResponseKind::SignerFailure),
    }
}

/// A signature of a ResponseData; `None` if the signer failed and counted the failure.
fn signature_by<S: Signer>(
    alloc: Global,
    signer: &mut S,
    message: &[u8],
) -> Result<Option<Vec<u8>>, Memory>
    ensures signed { IfOk result (λ it.
        IfSome it (λ signature. S.signs (S.identity signer.old) message.now signature.items)) }
    ensures short { IfOk result (λ it. IfSome it (λ signature. length signature.items ≤ 65536)) }
    ensures same_identity { S.identity signer.new ≡ S.identity signer.old }
    ensures counts { IfOk result (λ it. (it ≡ None) ↔ SignerHasFailed S.Signer signer.old signer.new) }
    ensures never_falls { S.failure_count signer.old ≤ S.failure_count signer.new }
{
    match signer.sign(alloc, message) {
        Ok(signature) => Ok(Some(signature)),
        Err(SignFault::Device) => Ok(None),
        Err(SignFault::Memory) => Err(Memory),
    }
}
