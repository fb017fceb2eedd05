//! The handler of `desk follow`: a desk over a copy of another desk's register, which it keeps up to date. It takes no commands.

ghost use Rattle.std.specs.Prelude.{◌≡◌, ◌++◌, ◌∷◌, [], length, IfOk, IsTrue, MatchOption, OnErr};
ghost use Rattle.reg_desk_server.specs.LineEnds.{FirstLineEnds};
ghost use Rattle.reg_desk_cli.specs.ExitStatus.{failure_line};
ghost use Rattle.reg_desk_service.specs.ControlReplies.{IsReplyText};
ghost use Rattle.reg_desk_service.specs.Following.{AnswersLinesAsOpen, FollowerAnswersLines, IsRefusal, is_current_at};

use crate::control_reply::{ControlReply, LineOutcome};
use crate::deferred_commands::LineTicket;
use crate::desks::Desk;
use crate::exchange_log::log_line;
use crate::follower::Follower;
use crate::http_exchanges::{DeskKind, answer_http};
use crate::line_kinds::{LineKind, first_line, kind_of};
use crate::machine::Machine;
use crate::reasons::keep_reply_reason;
use crate::unsigned_responses::Unsigned;
use mio::net::{TcpListener, TcpStream};
use mio::{Events, Poll, Registry};
use reg_core::Fault;
use reg_crl_signer::SignatureRequest;
use reg_desk_cli::Failure;
use reg_desk_server::{
    ConnectionCounts, ConnectionFault, Deferred, EventLoopFault, Handler, LineReplies,
};
use reg_http_head::Collected;
use reg_io::ReadyOrUnsigned;
use std::io;
use std::net::SocketAddr;
use std::time::Duration;

/// A desk that follows another one.
#[derive(Drop)]
pub struct FollowDesk<'a, 'w, M: Machine> {
    pub desk: Desk<'a, 'w, M>,
    pub follower: Follower<'a, 'w>,
    /// Whether it has a control socket.
    pub has_control: bool,
}

impl<'a, 'w, M: Machine> FollowDesk<'a, 'w, M> {
    /// The milliseconds of the monotonic clock.
    fn read_millis(&self) -> Result<u64, EventLoopFault>
        ensures read { IfOk result M.millis_read }
        ensures fails { OnErr result M.failed }
    {
        match self.desk.machine.millis() {
            Ok(millis) => Ok(millis),
            Err(_) => Err(EventLoopFault),
        }
    }

    /// Why a line is refused at `now`; `None` if the desk answers it.
    fn refusal_of(&self, line: &[u8], now: u64) -> Option<Failure>
        ensures { IsRefusal (is_current_at self.now.follower now) line.now result }
    {
        match kind_of(self.desk.alloc, line) {
            Ok(LineKind::Command) => Some(Failure::IsFollower),
            Ok(LineKind::Query) if !self.follower.is_current(now) => Some(Failure::Behind),
            Ok(LineKind::Query) => None,
            Ok(LineKind::Other) => None,
            Err(_) => Some(Failure::Fault(Fault::Memory)),
        }
    }

    /// The reply that refuses a line, which is counted, and logged if there is a log.
    fn refuse(
        &self,
        line: &[u8],
        why: Failure,
        last_reason: &mut Vec<u8>,
    ) -> Result<Vec<u8>, EventLoopFault>
        ensures reply { IfOk result (λ text. IsReplyText (failure_line why ++ 10 ∷ []) text.items) }
        ensures err { OnErr result (last_reason.new ≡ last_reason.old) }
        ensures fails { OnErr result M.failed }
    {
        let began = self.desk.machine.micros();
        let Ok(now) = self.desk.machine.moment() else {
            return Err(EventLoopFault);
        };
        let reply = ControlReply::line(
            self.desk.alloc,
            why.line().as_bytes(),
            LineOutcome::Failed(why),
        );
        keep_reply_reason(&reply.text, last_reason);
        let micros = self.desk.machine.micros().saturating_sub(began);
        let mut tally = self.desk.tally.get();
        tally.count_line(now, reply.line_outcome.effects(false), micros);
        self.desk.tally.set(tally);
        log_line(
            self.desk.alloc,
            self.desk.machine,
            micros,
            now,
            line,
            &reply.text,
            None,
            false,
        );
        Ok(reply.text)
    }
}

impl<'a, 'w, M: Machine> FollowDesk<'a, 'w, M> {
    /// Answers one line, or refuses it.
    fn answer_line(
        &mut self,
        line: &[u8],
        last_reason: &mut Vec<u8>,
    ) -> Result<Vec<u8>, EventLoopFault>
        requires control { IsTrue self.old.desk.is_open }
        requires line { FirstLineEnds line.now (length line.now) }
        ensures ok { IfOk result (λ text. (self.new.desk.is_open ≡ self.old.desk.is_open)
            × FollowerAnswersLines M.Machine M.Office.Office
            (self.old.desk.office, self.old.desk.admission, self.old.follower) line.now text.items
            (self.new.desk.office, self.new.desk.admission, self.new.follower)) }
        ensures err { OnErr result ((self.new ≡ self.old) × (last_reason.new ≡ last_reason.old)) }
        ensures fails { OnErr result M.failed }
    {
        let now = self.read_millis()?;
        match self.refusal_of(line, now) {
            Some(why) => self.refuse(line, why, last_reason),
            None => self.answer_as_open(line, last_reason),
        }
    }

    /// Answers one line as an open desk does.
    fn answer_as_open(
        &mut self,
        line: &[u8],
        last_reason: &mut Vec<u8>,
    ) -> Result<Vec<u8>, EventLoopFault>
        requires control { IsTrue self.old.desk.is_open }
        requires line { FirstLineEnds line.now (length line.now) }
        ensures ok { IfOk result (λ text. (self.new.desk.is_open ≡ self.old.desk.is_open)
            × AnswersLinesAsOpen M.Machine M.Office.Office
            (self.old.desk.office, self.old.desk.admission, self.old.follower) line.now text.items
            (self.new.desk.office, self.new.desk.admission, self.new.follower)) }
        ensures err { OnErr result ((self.new ≡ self.old) × (last_reason.new ≡ last_reason.old)) }
        ensures fails { OnErr result M.failed }
    {
        match self.desk.answer_lines(line, last_reason) {
            Ok(replies) => Ok(replies.text),
            Err(fault) => Err(fault),
        }
    }
}

impl<'a, 'w, M: Machine> Handler for FollowDesk<'a, 'w, M> {
    ghost use Rattle.std.specs.Prelude.{◌≡◌, true, false, IsTrue, is_some};
    ghost use Rattle.reg_desk_server.specs.LineEnds.{IsLine};
    ghost use Rattle.reg_desk_service.specs.FinishedResponses.{FinishesUnsigned};
    ghost use Rattle.reg_desk_service.specs.Following.{FollowerAnswers, FollowerAnswersLines, FollowerDefers, FollowerWorks};
    ghost use Rattle.reg_desk_service.specs.Signers.{AnsweredByOcspSigner};

    type Ticket = Unsigned;

    type ControlTicket = LineTicket;

    ghost answers = { λ s request outcome t. (t.desk.is_open ≡ s.desk.is_open)
        × FollowerAnswers M.Machine M.Office.Office
        (s.desk.office, s.desk.admission, s.follower) request outcome (t.desk.office, t.desk.admission, t.follower) };

    ghost answers_lines = { λ s bytes text t. (t.desk.is_open ≡ s.desk.is_open)
        × FollowerAnswersLines M.Machine M.Office.Office
        (s.desk.office, s.desk.admission, s.follower) bytes text (t.desk.office, t.desk.admission, t.follower) };

    ghost defers = { λ s line t. (t.desk.is_open ≡ s.desk.is_open)
        × FollowerDefers M.Machine M.Office.Office
        (s.desk.office, s.desk.admission, s.follower) line (t.desk.office, t.desk.admission, t.follower) };

    ghost finishes = { λ s. FinishesUnsigned
        (AnsweredByOcspSigner M.signer_answered s.desk.signer.now s.desk.responder.now) };

    ghost works = { λ s t. (t.desk.is_open ≡ s.desk.is_open)
        × FollowerWorks M.Machine M.Office.Office
        (s.desk.office, s.desk.admission, s.follower) (t.desk.office, t.desk.admission, t.follower) };

    // the follower ended the loop: its leader diverged, or is too far ahead
    ghost ends_loop = { λ it. IsTrue (is_some it.follower.stop) };

    // no command is taken, so no reply waits
    ghost holds = { λ it. false };

    ghost confirmed = { λ it. true };

    // no request waits
    ghost lets_wait = { λ it request. false };

    ghost has_control = { λ it. IsTrue it.desk.is_open };

    ghost failed = { M.failed };

    ghost waited = { M.waited };

    ghost not_waited = { M.not_waited };

    fn has_control_socket(&self) -> bool {
        self.has_control && self.desk.is_open
    }

    fn millis(&self) -> Result<u64, EventLoopFault> {
        self.desk.millis()
    }

    fn wait(
        &self,
        poll: &mut Poll,
        events: &mut Events,
        longest: Duration,
    ) -> Result<(), EventLoopFault> {
        self.desk.wait(poll, events, longest)
    }

    fn accept(&self, listener: &TcpListener) -> io::Result<(TcpStream, SocketAddr)> {
        self.desk.accept(listener)
    }

    fn answer(
        &mut self,
        client: SocketAddr,
        request: &Collected,
    ) -> Result<ReadyOrUnsigned<Vec<u8>, Unsigned>, EventLoopFault> {
        let Ok(now) = self.desk.machine.moment() else {
            return Err(EventLoopFault);
        };
        let millis = self.read_millis()?;
        let progress = self.follower.status(millis);
        let desk = &mut self.desk;
        let mut tally = desk.tally.get();
        let begun = answer_http::<M>(
            desk.alloc,
            &mut desk.office,
            desk.machine,
            DeskKind::Following(progress),
            &mut tally,
            &mut desk.admission,
            desk.connection_totals.get(),
            now,
            client,
            request,
        );
        desk.tally.set(tally);
        Ok(begun)
    }

    fn request_signature(
        &self,
        ticket: &Unsigned,
        kept: Option<SignatureRequest>,
    ) -> io::Result<SignatureRequest> {
        self.desk.request_signature(ticket, kept)
    }

    fn finish(&self, ticket: Unsigned, request: &mut Option<SignatureRequest>) -> Vec<u8> {
        self.desk.finish(ticket, request)
    }

    fn answer_lines(
        &mut self,
        lines: &[u8],
        last_reason: &mut Vec<u8>,
    ) -> Result<LineReplies, EventLoopFault> {
        let line = first_line(lines);
        match self.answer_line(line, last_reason) {
            Ok(text) => Ok(LineReplies {
                length: line.len(),
                text,
            }),
            Err(fault) => Err(fault),
        }
    }

    fn defer(&mut self, line: &[u8]) -> Option<Deferred<LineTicket>> {
        let Ok(now) = self.read_millis() else {
            return None;
        };
        match self.refusal_of(line, now) {
            Some(_) => None,
            None => self.desk.defer(line),
        }
    }

    fn connect_to_signer(&self, ticket: &LineTicket) -> io::Result<SignatureRequest> {
        self.desk.connect_to_signer(ticket)
    }

    fn answer_deferred(
        &mut self,
        line: &[u8],
        last_reason: &mut Vec<u8>,
        deferred: Deferred<LineTicket>,
        request: Option<SignatureRequest>,
    ) -> Result<Option<Vec<u8>>, EventLoopFault>
        requires control { IsTrue self.old.desk.is_open }
        requires line { IsLine line.now }
        ensures ok { IfOk result (λ answered. MatchOption answered
            ((self.new.desk.is_open ≡ self.old.desk.is_open)
            × FollowerDefers M.Machine M.Office.Office
            (self.old.desk.office, self.old.desk.admission, self.old.follower) line.now
            (self.new.desk.office, self.new.desk.admission, self.new.follower))
            (λ text. (self.new.desk.is_open ≡ self.old.desk.is_open)
            × FollowerAnswersLines M.Machine M.Office.Office
            (self.old.desk.office, self.old.desk.admission, self.old.follower) line.now text.items
            (self.new.desk.office, self.new.desk.admission, self.new.follower))) }
        ensures err { OnErr result ((self.new ≡ self.old) × (last_reason.new ≡ last_reason.old)) }
        ensures fails { OnErr result M.failed }
    {
        let now = self.read_millis()?;
        match self.refusal_of(line, now) {
            Some(why) => match self.refuse(line, why, last_reason) {
                Ok(text) => Ok(Some(text)),
                Err(fault) => Err(fault),
            },
            None => self
                .desk
                .answer_deferred(line, last_reason, deferred, request),
        }
    }

    fn holds_replies(&self) -> bool {
        false
    }

    fn is_confirmed(&self) -> bool {
        true
    }

    fn waits(&self, request: &Collected) -> bool {
        false
    }

    fn report_lost(&self, client: Option<SocketAddr>, why: ConnectionFault) {
        self.desk.report_lost(client, why);
    }

    fn work(&mut self, registry: &Registry, now: u64) -> Result<u64, EventLoopFault> {
        let millis = self.read_millis()?;
        let machine = self.desk.machine;
        self.follower
            .work::<M>(&mut self.desk.office, machine, registry, millis)
    }

    fn keep_counts(&self, connection_counts: ConnectionCounts) {
        self.desk.keep_counts(connection_counts);
    }
}
