//! The handler of `desk serve` and `desk open`: it answers HTTP requests, and lines at the control socket.

ghost use Rattle.std.specs.Prelude.{◌≡◌, IfOk, MatchOption, OnErr};
ghost use Rattle.reg_desk_service.specs.Log.{with_loss};

use crate::admission::Admission;
use crate::confirmation::Confirmation;
use crate::control_lines::answer_first_lines;
use crate::deferred_commands::{LineTicket, SignatureKind, line_signature_of, socket_of};
use crate::exchange_log::log_lost;
use crate::feed_end::FeedEnd;
use crate::http_exchanges::{DeskKind, answer_http};
use crate::machine::Machine;
use crate::unsigned_responses::{Unsigned, finish_http};
use mio::net::{TcpListener, TcpStream};
use mio::{Events, Poll, Registry};
use reg_crl_signer::{Backoff, SignatureRequest};
use reg_desk_cli::{ResponderChoice, SignerAddress};
use reg_desk_metrics::{ConnectionTotals, Tally};
use reg_desk_server::{
    ConnectionCounts, ConnectionFault, Deferred, EventLoopFault, Handler, LineReplies,
};
use reg_http_head::Collected;
use reg_io::ReadyOrUnsigned;
use reg_lines::{read_line, untimed_line};
use std::alloc::Global;
use std::cell::Cell;
use std::io;
use std::io::ErrorKind;
use std::net::SocketAddr;
use std::time::Duration;

/// A desk that answers HTTP requests, each at a moment of the clock. `desk open` also has lists, `/changes`, `/health`, `/metrics`, control lines.
#[derive(Drop)]
pub struct Desk<'a, 'w, M: Machine> {
    /// Runs commands and queries on the open register; `machine` has the clock, the sockets and the log.
    pub office: M::Office,
    pub alloc: Global,
    pub machine: &'a M,
    /// Whether this is `desk open`, and not `desk serve`. `file` is the path of the register.
    pub is_open: bool,
    pub file: &'a str,
    /// The signer of CRLs, and (`responder`) that of OCSP responses, as the options name them.
    pub signer: &'a Option<SignerAddress<'w>>,
    pub responder: &'a ResponderChoice<'w>,
    /// The back-off of the OCSP signer, for `ocsp` lines at the control socket: for ten seconds after the signer timed out, these lines don't ask it.
    pub backoff: Backoff,
    /// The counts since the register was opened, each in a `Cell`, because `finish` and `report_lost` take `&self`.
    pub tally: &'a Cell<Tally>,
    pub connection_totals: &'a Cell<ConnectionTotals>,
    /// The state by which the desk refuses requests for revocation over HTTP beyond the limits, with the moment in the last line `accept-clock`.
    pub admission: Admission,
    /// Whether followers have the commands of the control socket (`--confirm-by`).
    pub confirmation: Confirmation,
    /// The end of the changes feed, while nothing came after it: a follower's request for changes then waits.
    pub feed_end: FeedEnd,
}

impl<'a, 'w, M: Machine> Desk<'a, 'w, M> {
    /// The tally, with the moment of the first command that waits for followers.
    fn tally_now(&self) -> Tally {
        let mut tally = self.tally.get();
        if self.confirmation.is_wanted() {
            tally.set_unconfirmed(self.confirmation.since());
        }
        tally
    }
}

// The trait `Handler` describes each function and relation. `kept`: an earlier signature request, whose connection to the signer may be used again.
impl<'a, 'w, M: Machine> Handler for Desk<'a, 'w, M> {
    ghost use Rattle.std.specs.Prelude.{[], ◌&&◌, ℕ, IsTrue};
    ghost use Rattle.reg_desk_service.specs.Confirmations.{AfterFirstLine, after_outcome, holds_reply, is_confirmed, is_done_with};
    ghost use Rattle.reg_desk_service.specs.FeedEnds.{waits_for_changes};
    ghost use Rattle.reg_office_api.specs.Calls.{KeepsIn, LeadsIn};
    ghost use Rattle.reg_desk_service.specs.ControlWords.{IsAdmissionAfter, AnswersLinesByClock};
    ghost use Rattle.reg_desk_service.specs.LineSignatures.{socket_for};
    ghost use Rattle.reg_desk_service.specs.Exchanges.{AnswersBy};
    ghost use Rattle.reg_desk_service.specs.SignerAnswers.{AtGivenPath, AnsweredAtSomePath};
    ghost use Rattle.reg_desk_service.specs.FinishedResponses.{FinishesUnsigned, Meets};
    ghost use Rattle.reg_desk_service.specs.Signers.{AnsweredByOcspSigner, answer_socket};
    ghost use Rattle.reg_crl_signer.specs.SignatureRequest.{IsSignatureRequest};
    ghost use Rattle.reg_desk_server.specs.LineEnds.{IsLine};

    type Ticket = Unsigned;

    type ControlTicket = LineTicket;

    ghost answers = { λ s request outcome t. (t.is_open ≡ s.is_open) × LeadsIn M.Office.Office
        (λ identity before after. Meets (FinishesUnsigned (AnsweredAtSomePath M.signer_answered))
        (λ text. AnswersBy s.is_open M.Office.signs M.clock_reached s.admission t.admission
        identity before request text after) outcome)
        s.office t.office × (t.confirmation ≡ after_outcome request outcome s.confirmation) };

    ghost answers_lines = { λ s bytes text t. IsTrue s.is_open × IsTrue t.is_open
        × IsAdmissionAfter bytes s.admission t.admission × LeadsIn M.Office.Office
        (λ identity before after. AnswersLinesByClock s.admission.accepted M.Office.signs M.clock_reached
        identity before bytes text after)
        s.office t.office × ((now : ℕ) × AfterFirstLine bytes now s.confirmation t.confirmation) };

    ghost defers = { λ s line t. (t.is_open ≡ s.is_open) × (t.admission ≡ s.admission)
        × KeepsIn M.Office.Office s.office t.office × (t.confirmation ≡ s.confirmation) };

    ghost finishes = { λ s. FinishesUnsigned
        (AnsweredByOcspSigner M.signer_answered s.signer.now s.responder.now) };

    // a desk does no work of its own
    ghost works = { λ s t. t ≡ s };

    ghost ends_loop = { λ desk. ⊥ };

    ghost holds = { λ desk. holds_reply desk.confirmation };

    ghost confirmed = { λ desk. is_confirmed desk.confirmation };

    // a request waits for changes after the end of the feed, unless it can confirm a command
    ghost lets_wait = { λ desk request. waits_for_changes desk.feed_end.positions.items request
        && is_done_with request desk.confirmation };

    ghost has_control = { λ desk. IsTrue desk.is_open };

    ghost failed = { M.failed };

    ghost waited = { M.waited };

    ghost not_waited = { M.not_waited };

    fn has_control_socket(&self) -> bool {
        self.is_open
    }

    fn millis(&self) -> Result<u64, EventLoopFault> {
        match self.machine.millis() {
            Ok(millis) => Ok(millis),
            Err(_) => Err(EventLoopFault),
        }
    }

    fn wait(
        &self,
        poll: &mut Poll,
        events: &mut Events,
        longest: Duration,
    ) -> Result<(), EventLoopFault> {
        match self.machine.wait(poll, events, longest) {
            Ok(()) => Ok(()),
            Err(_) => Err(EventLoopFault),
        }
    }

    fn accept(&self, listener: &TcpListener) -> io::Result<(TcpStream, SocketAddr)> {
        self.machine.accept(listener)
    }

    fn answer(
        &mut self,
        client: SocketAddr,
        request: &Collected,
    ) -> Result<ReadyOrUnsigned<Vec<u8>, Unsigned>, EventLoopFault> {
        let Ok(now) = self.machine.moment() else {
            return Err(EventLoopFault);
        };
        let mut tally = self.tally_now();
        let begun = answer_http::<M>(
            self.alloc,
            &mut self.office,
            self.machine,
            DeskKind::of(self.is_open),
            &mut tally,
            &mut self.admission,
            self.connection_totals.get(),
            now,
            client,
            request,
        );
        self.confirmation.request_begun(request.as_slice(), &begun);
        self.feed_end.request_begun(request.as_slice(), &begun);
        self.tally.set(tally);
        Ok(begun)
    }

    fn request_signature(
        &self,
        ticket: &Unsigned,
        kept: Option<SignatureRequest>,
    ) -> io::Result<SignatureRequest>
        ensures { IfOk result (λ sent_request.
            AtGivenPath (answer_socket self.now.signer.now self.now.responder.now)
            (λ path. M.signature_requested path ticket.now.draft.message
            × IsSignatureRequest path ticket.now.draft.message sent_request)) }
    {
        match socket_of(self.signer, self.responder, SignatureKind::Answer) {
            Some(socket) => self
                .machine
                .request_signature(socket, ticket.draft.message(), kept),
            None => Err(io::Error::from(ErrorKind::NotFound)),
        }
    }

    fn finish(&self, ticket: Unsigned, request: &mut Option<SignatureRequest>) -> Vec<u8> {
        let mut tally = self.tally.get();
        let text = finish_http::<M>(
            self.alloc,
            self.machine,
            &mut tally,
            self.signer,
            self.responder,
            ticket,
            request,
        );
        self.tally.set(tally);
        text
    }

    fn answer_lines(
        &mut self,
        lines: &[u8],
        last_reason: &mut Vec<u8>,
    ) -> Result<LineReplies, EventLoopFault> {
        let Ok(now) = self.machine.moment() else {
            return Err(EventLoopFault);
        };
        let began = self.machine.micros();
        let mut tally = self.tally.get();
        let replies = answer_first_lines::<M>(
            self.alloc,
            &mut self.office,
            self.machine,
            self.file,
            &mut tally,
            &mut self.admission.accepted,
            began,
            now,
            lines,
            last_reason,
        );
        self.tally.set(tally);
        let answered = &lines[..replies.length];
        self.confirmation
            .first_lines_answered(self.alloc, answered, now);
        self.feed_end.first_lines_answered(self.alloc, answered);
        Ok(replies)
    }

    fn defer(&mut self, line: &[u8]) -> Option<Deferred<LineTicket>> {
        // `untimed_line`: the line without its line end; `None` if the line is too long. Such a line is answered at once.
        match read_line(untimed_line(line)?) {
            Some(command_line) => self.deferred_line(&command_line),
            None => None,
        }
    }

    fn connect_to_signer(&self, ticket: &LineTicket) -> io::Result<SignatureRequest>
        ensures { IfOk result (λ sent_request.
            AtGivenPath (socket_for self.now.signer.now self.now.responder.now ticket.now.kind)
            (λ path. M.reached path × IsSignatureRequest path [] sent_request)) }
    {
        match socket_of(self.signer, self.responder, ticket.kind) {
            Some(socket) if !ticket.is_backed_off => self.machine.connect_to_signer(socket),
            _ => Err(io::Error::from(ErrorKind::NotFound)),
        }
    }

    fn answer_deferred(
        &mut self,
        line: &[u8],
        last_reason: &mut Vec<u8>,
        deferred: Deferred<LineTicket>,
        request: Option<SignatureRequest>,
    ) -> Result<Option<Vec<u8>>, EventLoopFault>
        requires control { IsTrue self.old.is_open }
        requires line { IsLine line.now }
        ensures ok { IfOk result (λ answered. MatchOption answered
            ((self.new.is_open ≡ self.old.is_open) × (self.new.admission ≡ self.old.admission)
            × KeepsIn M.Office.Office self.old.office self.new.office
            × (self.new.confirmation ≡ self.old.confirmation))
            (λ text. IsTrue self.old.is_open × IsTrue self.new.is_open
            × IsAdmissionAfter line.now self.old.admission self.new.admission × LeadsIn M.Office.Office
            (λ identity before after. AnswersLinesByClock self.old.admission.accepted
            M.Office.signs M.clock_reached
            identity before line.now text.items after)
            self.old.office self.new.office
            × ((now : ℕ) × AfterFirstLine line.now now self.old.confirmation self.new.confirmation))) }
        ensures err { OnErr result ((self.new ≡ self.old) × (last_reason.new ≡ last_reason.old)) }
        ensures fails { OnErr result M.failed }
    {
        let Deferred { message, ticket } = deferred;
        // Three calls take the ticket, so it is copied. No `request`: the signer wasn't asked, or was late. `Ok(None)`: the line needs a new message.
        let ticket_for_signature = ticket;
        let ticket_for_backoff = ticket;
        let has_arrived = request.is_some();
        let signature = line_signature_of::<M>(
            self.alloc,
            &mut self.office,
            self.machine,
            self.signer,
            self.responder,
            ticket_for_signature,
            message,
            request,
        )?;
        self.backoff = self.backoff_after(ticket_for_backoff, has_arrived);
        match signature {
            Some(signature) => {
                let signed_at = signature.moment;
                let text = self.answer_with_signature(line, last_reason, ticket, signature);
                self.confirmation
                    .first_lines_answered(self.alloc, line, signed_at);
                self.feed_end.first_lines_answered(self.alloc, line);
                Ok(Some(text))
            }
            None => Ok(None),
        }
    }

    fn holds_replies(&self) -> bool {
        self.confirmation.holds_reply()
    }

    fn is_confirmed(&self) -> bool {
        self.confirmation.is_confirmed()
    }

    // A request that confirms commands doesn't wait.
    fn waits(&self, request: &Collected) -> bool {
        self.feed_end.holds(request.as_slice())
            && self.confirmation.is_done_with(request.as_slice())
    }

    fn work(&mut self, registry: &Registry, now: u64) -> Result<u64, EventLoopFault> {
        Ok(u64::MAX)
    }

    fn report_lost(&self, client: Option<SocketAddr>, why: ConnectionFault) {
        self.connection_totals
            .set(with_loss(self.connection_totals.get(), why));
        log_lost(self.alloc, self.machine, client, why);
    }

    fn keep_counts(&self, connection_counts: ConnectionCounts) {
        self.connection_totals.set(with_connection_counts(
            self.connection_totals.get(),
            connection_counts,
        ));
    }
}

fn with_loss(connection_totals: ConnectionTotals, why: ConnectionFault) -> ConnectionTotals
    ensures { result ≡ with_loss connection_totals why }
{
    let mut connection_totals = connection_totals;
    match why {
        ConnectionFault::Broken => connection_totals.broken = connection_totals
            .broken
            .saturating_add(1),
        ConnectionFault::TimedOut => connection_totals.late = connection_totals
            .late
            .saturating_add(1),
        ConnectionFault::Evicted => connection_totals.evicted = connection_totals
            .evicted
            .saturating_add(1),
        ConnectionFault::Memory => connection_totals.memory = connection_totals
            .memory
            .saturating_add(1),
    }
    connection_totals
}

fn with_connection_counts(
    connection_totals: ConnectionTotals,
    connection_counts: ConnectionCounts,
) -> ConnectionTotals
    ensures { result ≡ record connection_totals {
      open_http = connection_counts.open_http;
      open_control = connection_counts.open_control;
      accepted = connection_counts.accepted;
    } }
{
    ConnectionTotals {
        open_http: connection_counts.open_http as u64,
        open_control: connection_counts.open_control as u64,
        accepted: connection_counts.accepted,
        ..connection_totals
    }
}
