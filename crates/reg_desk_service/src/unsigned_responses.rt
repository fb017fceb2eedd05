//! OCSP responses over HTTP that are to be signed, and how they are finished.

ghost use Rattle.std.specs.Prelude.{◌≡◌, ◌≤◌, IfSome, length, option_map};
ghost use Rattle.reg_desk_service.specs.Counted.{CountsFinished};
ghost use Rattle.reg_desk_service.specs.LineSignatures.{AnsweredBySigner};
ghost use Rattle.reg_desk_service.specs.FinishedResponses.{IsFinished, IsSignatureOf, outcome_of_signature};
ghost use Rattle.reg_desk_service.specs.Signers.{AnsweredByOcspSigner};

use crate::deferred_commands::{SignatureKind, socket_of};
use crate::exchange_log::log_exchange;
use crate::machine::Machine;
use reg_core::Moment;
use reg_crl_signer::{SignatureRequest, has_form};
use reg_desk_cli::{ResponderChoice, SignerAddress};
use reg_desk_metrics::Tally;
use reg_http::{Exchange, Route, UnsignedResponse};
use reg_http_head::Collected;
use reg_ocsp::{Draft, slice_of};
use reg_office_api::SignatureOutcome;
use std::alloc::Global;
use std::net::SocketAddr;

/// The most bytes of a request that are kept for the log, which quotes at most this many of the first line.
const MOST_KEPT: usize = 256;

/// An OCSP response that is to be signed (`draft`), with the data that the tally (the desk's counts) and the log need.
#[derive(Drop)]
pub struct Unsigned {
    pub(crate) draft: Draft,
    /// When the desk began to answer; `began` is the same in microseconds of the monotonic clock.
    pub(crate) moment: Moment,
    pub(crate) route: Route,
    pub(crate) began: u64,
    pub(crate) client: SocketAddr,
    /// The first bytes of the request; empty if there is no log, or no memory.
    pub(crate) log_prefix: Vec<u8>,
}

pub(crate) fn unsigned_of<M: Machine>(
    alloc: Global,
    machine: &M,
    response: UnsignedResponse,
    moment: Moment,
    began: u64,
    client: SocketAddr,
    request: &Collected,
) -> Unsigned
    ensures draft { result.draft ≡ response.draft }
    ensures moment { result.moment ≡ moment }
    ensures route { result.route ≡ response.route }
{
    let UnsignedResponse { route, draft } = response;
    Unsigned {
        draft,
        moment,
        route,
        began,
        client,
        log_prefix: log_prefix_of(alloc, machine, request.as_slice()),
    }
}

fn log_prefix_of<M: Machine>(alloc: Global, machine: &M, request: &[u8]) -> Vec<u8> {
    if !machine.has_log() {
        return Vec::new(alloc);
    }
    let prefix = &request[..request.len().min(MOST_KEPT)];
    match Vec::from_slice(alloc, prefix) {
        Ok(kept) => kept,
        Err(_) => Vec::new(alloc),
    }
}

/// The HTTP answer with an OCSP response, whose signature is the signer's answer to the signature request (`request`); internalError (RFC 6960 2.3)
/// without this request, or without an answer in the form of a signature. Counts the exchange by the moment and route of `unsigned`, and logs it if
/// there is a log. `signer` signs CRLs. `responder` says whether this signer signs OCSP responses, too, or another one does.
pub(crate) fn finish_http<M: Machine>(
    alloc: Global,
    machine: &M,
    tally: &mut Tally,
    signer: &Option<SignerAddress<'_>>,
    responder: &ResponderChoice<'_>,
    unsigned: Unsigned,
    request: &mut Option<SignatureRequest>,
) -> Vec<u8>
    ensures { CountsFinished (AnsweredByOcspSigner M.signer_answered signer.now responder.now) unsigned
        result.items tally.old tally.new }
{
    let signature = signature_of::<M>(alloc, signer, responder, &unsigned.draft, request);
    let exchange = finish(alloc, &unsigned, &signature);
    let micros = machine.micros().saturating_sub(unsigned.began);
    tally.count_exchange(unsigned.moment, &exchange, micros);
    log_exchange(
        alloc,
        machine,
        micros,
        unsigned.moment,
        unsigned.client,
        &unsigned.log_prefix,
        &exchange,
    );
    exchange.text
}

/// The answer of the signer of OCSP responses (`SignatureKind::Answer`) for `draft`, if it has the form of a signature. It has at most 4,096 bytes.
fn signature_of<M: Machine>(
    alloc: Global,
    signer: &Option<SignerAddress<'_>>,
    responder: &ResponderChoice<'_>,
    draft: &Draft,
    request: &mut Option<SignatureRequest>,
) -> Option<Vec<u8>>
    ensures signed { IsSignatureOf (AnsweredByOcspSigner M.signer_answered signer.now responder.now) draft.now
        (option_map (λ signature. signature.items) result) }
    ensures short { IfSome result (λ signature. length signature.items ≤ 4096) }
{
    let answer = received_answer::<M>(
        alloc,
        signer,
        responder,
        SignatureKind::Answer,
        draft.message(),
        request,
    )?;
    if has_form(draft.algorithm(), draft.key(), &answer) {
        Some(answer)
    } else {
        None
    }
}

/// The bytes that the signer of CRLs (`Crl`) or of OCSP responses (`Answer`) sent for `message`. `None` without this signer, without a `request` to
/// it for `message`, or if [`Machine::receive_answer`] gives none. The last `match` only names branches for the proof.
pub(crate) fn received_answer<M: Machine>(
    alloc: Global,
    signer: &Option<SignerAddress<'_>>,
    responder: &ResponderChoice<'_>,
    kind: SignatureKind,
    message: &[u8],
    request: &mut Option<SignatureRequest>,
) -> Option<Vec<u8>>
    ensures given { IfSome result (λ answer.
        AnsweredBySigner M.signer_answered signer.now responder.now kind message.now answer.items) }
    ensures short { IfSome result (λ answer. length answer.items ≤ 4096) }
{
    let socket = socket_of(signer, responder, kind)?;
    let request = request.as_mut()?;
    if !request.is_for(socket, message) {
        return None;
    }
    match M::receive_answer(alloc, request) {
        Some(answer) => Some(answer),
        None => None,
    }
}

fn finish(alloc: Global, unsigned: &Unsigned, signature: &Option<Vec<u8>>) -> Exchange
    requires { IfSome signature.now (λ signature. length signature.items ≤ 4096) }
    ensures finished { IsFinished unsigned.now.draft unsigned.now.moment
        (option_map (λ signature. signature.items) signature.now) result }
    ensures route { result.route ≡ unsigned.now.route }
{
    let response = unsigned.draft.response(alloc, slice_of(signature));
    let signature_outcome = signature_outcome_of(signature);
    Exchange::finished(
        alloc,
        unsigned.route,
        unsigned.moment,
        response,
        signature_outcome,
    )
}

fn signature_outcome_of(signature: &Option<Vec<u8>>) -> SignatureOutcome
    ensures { result ≡ outcome_of_signature (option_map (λ signature. signature.items) signature.now) }
{
    match signature {
        Some(_) => SignatureOutcome::Made,
        None => SignatureOutcome::Failed,
    }
}
