//! Lines at the control socket that need a signature: the desk makes the message (the DER to sign), has it signed, and then runs the line, once.

ghost use Rattle.std.specs.Prelude.{◌≡◌, IfOk, IfSome, OnErr, option_copied};
ghost use Rattle.reg_office_api.specs.Calls.{KeepsIn, LeadsIn};
ghost use Rattle.reg_desk_service.specs.LineSignatures.{AnsweredBySigner, IsLineSignature, kind_of_signature, socket_for};
ghost use Rattle.reg_desk_service.specs.Signers.{crl_socket};
ghost use Rattle.reg_desk_service.specs.ControlWords.{IsAdmissionAfter, AnswersLinesByClock};
ghost use Rattle.reg_desk_server.specs.LineEnds.{IsLine};

use crate::control_lines::answer_counted;
use crate::desks::Desk;
use crate::machine::Machine;
use crate::unsigned_responses::received_answer;
use reg_core::{Command, Memory, Moment};
use reg_crl_signer::{Backoff, PresetSignature, SignatureRequest};
use reg_desk_cli::{ResponderChoice, SignerAddress};
use reg_desk_metrics::is_ahead;
use reg_desk_server::{Deferred, EventLoopFault};
use reg_io::ReadyOrUnsigned;
use reg_lines::ParsedLine;
use reg_ocsp::Draft;
use reg_office_api::{OcspResponse, Office};
use std::alloc::Global;
use std::time::Duration;

/// The kind of signature that a line needs: of a CRL, or (`Answer`) of an OCSP response.
#[derive(Clone, Copy, PartialEq, Eq)]
pub enum SignatureKind {
    Crl,
    Answer,
}

/// The desk's record of a line while a signature for it is awaited.
#[derive(Clone, Copy)]
pub struct LineTicket {
    pub(crate) kind: SignatureKind,
    /// The moment for which the message was made; 1970 without a message, in a back-off (for ten seconds after a timeout, the signer isn't asked).
    pub(crate) moment: Moment,
    /// When the desk began the line, in microseconds of the monotonic clock.
    pub(crate) began: u64,
    pub(crate) is_backed_off: bool,
}

/// The moment at which a line is to run, and the signature for it: the message, and the signer's answer, if there is one.
#[derive(Drop)]
pub(crate) struct LineSignature {
    pub(crate) moment: Moment,
    pub(crate) preset_signature: PresetSignature,
}

/// How many milliseconds after `began` a signer without an answer has timed out. The event loop's ten seconds begin earlier than `began`: hence less.
const TIMEOUT: u64 = 9_500;

fn signature_kind_by(command_line: &ParsedLine<'_>) -> Option<SignatureKind>
    ensures { result ≡ kind_of_signature command_line.now }
{
    match *command_line {
        ParsedLine::Command(Command::Crl) => Some(SignatureKind::Crl),
        ParsedLine::Ocsp(_) => Some(SignatureKind::Answer),
        _ => None,
    }
}

/// The message to sign for a line `ocsp` or `crl`, made at its ticket's moment; `None` if nothing is to be signed, or if it can't be made.
fn deferred_of<M: Machine>(
    alloc: Global,
    office: &mut M::Office,
    ticket: LineTicket,
    command_line: &ParsedLine<'_>,
) -> Option<Deferred<LineTicket>>
    ensures { KeepsIn M.Office.Office office.old office.new }
{
    match *command_line {
        ParsedLine::Ocsp(digits) => deferred_ocsp(alloc, office, ticket, digits),
        _ => Some(Deferred {
            message: office.crl_message(alloc, ticket.moment)?,
            ticket,
        }),
    }
}

fn deferred_ocsp<O: Office>(
    alloc: Global,
    office: &mut O,
    ticket: LineTicket,
    digits: &[u8],
) -> Option<Deferred<LineTicket>>
    ensures { KeepsIn O.Office office.old office.new }
{
    let Ok(request) = hex::decode(alloc, digits) else {
        return None;
    };
    let begun = office.begin_ocsp(alloc, ticket.moment, &request);
    deferred_draft(alloc, begun, ticket)
}

fn deferred_draft(
    alloc: Global,
    begun: Result<ReadyOrUnsigned<OcspResponse, Draft>, Memory>,
    ticket: LineTicket,
) -> Option<Deferred<LineTicket>> {
    let Ok(ReadyOrUnsigned::Unsigned(draft)) = begun else {
        return None;
    };
    let message = Vec::from_slice(alloc, draft.message()).ok()?;
    Some(Deferred { message, ticket })
}

/// The socket path of the signer that signs CRLs (`Crl`) or OCSP responses (`Answer`: the responder's own, if it has one). `None`: no signer.
pub(crate) fn socket_of<'w>(
    signer: &Option<SignerAddress<'w>>,
    responder: &ResponderChoice<'w>,
    kind: SignatureKind,
) -> Option<&'w str>
    ensures { socket_for signer.now responder.now kind ≡ option_copied result }
{
    match kind {
        SignatureKind::Crl => crl_signer_socket(signer),
        SignatureKind::Answer => match responder {
            ResponderChoice::Delegate { address, .. } => Some(address.socket.as_str()),
            ResponderChoice::Issuer { .. } => crl_signer_socket(signer),
        },
    }
}

fn crl_signer_socket<'w>(signer: &Option<SignerAddress<'w>>) -> Option<&'w str>
    ensures { crl_socket signer.now ≡ option_copied result }
{
    Some(signer.as_ref()?.socket.as_str())
}

/// The signature for a line, and the moment at which the line is to run: that of the ticket. Without a `request` (not sent to the signer, or not
/// answered in time), the signature is empty, so that signing fails, and the moment is the clock's. If the clock can't be read then, the event loop
/// ends. `None`: the line needs a new message: a command was accepted after the ticket's moment, or the clock is behind it or can't be read.
pub(crate) fn line_signature_of<M: Machine>(
    alloc: Global,
    office: &mut M::Office,
    machine: &M,
    signer: &Option<SignerAddress<'_>>,
    responder: &ResponderChoice<'_>,
    ticket: LineTicket,
    message: Vec<u8>,
    request: Option<SignatureRequest>,
) -> Result<Option<LineSignature>, EventLoopFault>
    ensures moves { KeepsIn M.Office.Office office.old office.new }
    ensures known { IfOk result (λ found.
        IfSome found
        (IsLineSignature (AnsweredBySigner M.signer_answered signer.now responder.now ticket.kind)
        M.clock_reached)) }
    ensures err { OnErr result (office.new ≡ office.old) }
    ensures fails { OnErr result M.failed }
{
    let Some(request) = request else {
        let Ok(moment) = machine.moment() else {
            return Err(EventLoopFault);
        };
        let preset_signature = PresetSignature {
            message: Vec::new(alloc),
            answer: None,
        };
        return Ok(Some(LineSignature {
            moment,
            preset_signature,
        }));
    };
    Ok(signature_if_current::<M>(
        alloc, office, machine, signer, responder, ticket, message, request,
    ))
}

fn signature_if_current<M: Machine>(
    alloc: Global,
    office: &mut M::Office,
    machine: &M,
    signer: &Option<SignerAddress<'_>>,
    responder: &ResponderChoice<'_>,
    ticket: LineTicket,
    message: Vec<u8>,
    request: SignatureRequest,
) -> Option<LineSignature>
    ensures moves { KeepsIn M.Office.Office office.old office.new }
    ensures known { IfSome result
        (IsLineSignature (AnsweredBySigner M.signer_answered signer.now responder.now ticket.kind)
        M.clock_reached) }
{
    if is_past(office, ticket.moment) {
        return None;
    }
    let moment = machine.moment_if_reached(ticket.moment)?;
    let answer = received_answer::<M>(
        alloc,
        signer,
        responder,
        ticket.kind,
        &message,
        &mut Some(request),
    );
    let preset_signature = PresetSignature { message, answer };
    Some(LineSignature {
        moment,
        preset_signature,
    })
}

/// Whether a command was accepted at a later moment than this; `false` if the register can't be read: the line then meets that fault itself.
fn is_past<O: Office>(office: &mut O, moment: Moment) -> bool
    ensures { KeepsIn O.Office office.old office.new }
{
    match office.last() {
        Ok(last) => moment < last,
        Err(_) => false,
    }
}

impl<'a, 'w, M: Machine> Desk<'a, 'w, M> {
    /// The message to sign before a line is answered; empty for a line `ocsp` in its signer's back-off. `None` if the line is to be answered at once:
    /// it needs no signature or has no signer, its message can't be made, or the clock can't be read or is too far ahead for `crl`.
    pub(crate) fn deferred_line(
        &mut self,
        command_line: &ParsedLine<'_>,
    ) -> Option<Deferred<LineTicket>>
        ensures open { self.new.is_open ≡ self.old.is_open }
        ensures admission { self.new.admission ≡ self.old.admission }
        ensures confirmation { self.new.confirmation ≡ self.old.confirmation }
        ensures moves { KeepsIn M.Office.Office
            self.old.office self.new.office }
    {
        let kind = signature_kind_by(command_line)?;
        socket_of(self.signer, self.responder, kind)?;
        let began = self.machine.micros();
        if kind == SignatureKind::Answer && self.backoff.is_active(Duration::from_micros(began)) {
            // Without a message, the line is answered, but its signer isn't asked. A line `crl` asks even in a back-off, and the answer may end it.
            let ticket = LineTicket {
                kind,
                moment: Moment::EPOCH,
                began,
                is_backed_off: true,
            };
            return Some(Deferred {
                message: Vec::new(self.alloc),
                ticket,
            });
        }
        let moment = self.machine.moment().ok()?;
        if kind == SignatureKind::Crl && self.is_ahead(moment) {
            return None;
        }
        let ticket = LineTicket {
            kind,
            moment,
            began,
            is_backed_off: false,
        };
        deferred_of::<M>(self.alloc, &mut self.office, ticket, command_line)
    }

    /// Whether a moment is too far past the last command and `accept-clock`. `false` if the register can't be read: the line itself checks again.
    fn is_ahead(&mut self, moment: Moment) -> bool
        ensures open { self.new.is_open ≡ self.old.is_open }
        ensures admission { self.new.admission ≡ self.old.admission }
        ensures confirmation { self.new.confirmation ≡ self.old.confirmation }
        ensures moves { KeepsIn M.Office.Office
            self.old.office self.new.office }
    {
        match self.office.last() {
            Ok(last) => is_ahead(moment, last, self.admission.accepted),
            Err(_) => false,
        }
    }

    /// The back-off after a line: unchanged if the OCSP signer wasn't asked; begun if it timed out; else none. `has_arrived`: it answered or closed.
    pub(crate) fn backoff_after(&self, ticket: LineTicket, has_arrived: bool) -> Backoff {
        let ocsp_socket = socket_of(self.signer, self.responder, SignatureKind::Answer);
        let asked_socket = socket_of(self.signer, self.responder, ticket.kind);
        if ticket.is_backed_off || !is_same(asked_socket, ocsp_socket) {
            return self.backoff;
        }
        if has_arrived {
            return Backoff::none();
        }
        Backoff::after_failure(
            Duration::from_micros(ticket.began),
            Duration::from_micros(self.machine.micros()),
            Duration::from_millis(TIMEOUT),
        )
    }

    /// Answers a line, and counts it. Its signature, which may be empty, is preset in the office meanwhile, so that the office asks no signer.
    pub(crate) fn answer_with_signature(
        &mut self,
        line: &[u8],
        last_reason: &mut Vec<u8>,
        ticket: LineTicket,
        line_signature: LineSignature,
    ) -> Vec<u8>
        requires signature { IsLineSignature
            (AnsweredBySigner M.signer_answered self.old.signer.now self.old.responder.now
            ticket.kind) M.clock_reached line_signature }
        requires line { IsLine line.now }
        ensures open { self.new.is_open ≡ self.old.is_open }
        ensures admission { IsAdmissionAfter line.now self.old.admission self.new.admission }
        ensures confirmation { self.new.confirmation ≡ self.old.confirmation }
        ensures moves { LeadsIn M.Office.Office
            (λ identity before after. AnswersLinesByClock self.old.admission.accepted
            M.Office.signs M.clock_reached
            identity before line.now result.items after)
            self.old.office self.new.office }
    {
        let LineSignature {
            moment,
            preset_signature,
        } = line_signature;
        M::set_preset(&mut self.office, ticket.kind, Some(preset_signature));
        let mut tally = self.tally.get();
        let reply = answer_counted::<M>(
            self.alloc,
            &mut self.office,
            self.machine,
            self.file,
            &mut tally,
            &mut self.admission.accepted,
            ticket.began,
            moment,
            line,
            last_reason,
        );
        self.tally.set(tally);
        M::set_preset(&mut self.office, ticket.kind, None);
        reply
    }
}

fn is_same(first: Option<&str>, second: Option<&str>) -> bool {
    match (first, second) {
        (Some(first), Some(second)) => first == second,
        _ => false,
    }
}
