//! The trait `Handler`, by which the event loop has HTTP requests and control lines answered, and the types of its arguments and results.

use mio::net::{TcpListener, TcpStream};
use mio::{Events, Poll, Registry};
use reg_crl_signer::SignatureRequest;
use reg_http_head::Collected;
use reg_io::ReadyOrUnsigned;
use std::io;
use std::net::SocketAddr;
use std::time::Duration;

/// The loop can't go on: the clock can't be read, the sockets fail, or the loop has made 2^64 - 1 iterations.
#[derive(Clone, Copy, Debug, PartialEq, Eq)]
pub struct EventLoopFault;

/// Why a connection was lost, or why no more of its request was received.
#[derive(Clone, Copy, Debug, PartialEq, Eq)]
pub enum ConnectionFault {
    /// A read, write or poller registration failed before the whole answer was sent; or the client half-closed while its signature was queued.
    Broken,
    /// The request was not whole, or its answer was not wholly sent, within 30 seconds.
    TimedOut,
    /// The loop evicted the connection before its whole answer was sent: to accept another one, or because of the limit of all unsent bytes.
    Evicted,
    /// There was no memory for the bytes that came on the connection.
    Memory,
}

/// How many connections are open, and how many HTTP connections were accepted so far.
#[derive(Clone, Copy, Debug, PartialEq, Eq)]
pub struct ConnectionCounts {
    pub open_http: usize,
    pub open_control: usize,
    pub accepted: u64,
}

/// The message that is to be signed before a line of a control connection is answered, and the handler's data about the line until then.
#[derive(Drop)]
pub struct Deferred<T> {
    pub message: Vec<u8>,
    pub ticket: T,
}

/// The result of [`Handler::answer_lines`]: how many bytes the answered lines have, with their LFs; and their replies, joined.
#[derive(Drop)]
pub struct LineReplies {
    pub length: usize,
    pub text: Vec<u8>,
}

/// Answers requests and lines in turn. While a request awaits a signature, others are answered. While a line awaits one, no other line is answered.
/// `Desk` and `FollowDesk` (reg_desk_service) implement it. The loop's contracts hold whatever the relations below (`ghost`) mean in an
/// implementation.
pub trait Handler {
    ghost use Rattle.std.specs.Prelude.{◌≡◌, ◌+◌, ◌⊎◌, ℕ, Bool, List, take, IsTrue, IfErr, IfOk, OnErr, OnOk, MatchOption};
    ghost use Rattle.reg_http_head.specs.Bytes.{collected_bytes};
    ghost use Rattle.reg_desk_server.specs.LineEnds.{EndsLine, IsLine, IsWholeLines};
    ghost use Rattle.reg_desk_server.specs.Exchange.{Outcome};
    ghost use Rattle.reg_desk_server.specs.Outcomes.{outcome_of};
    ghost use Rattle.reg_desk_server.specs.Failures.{AcceptFails};

    /// The handler's data about a request (`ControlTicket`: about a line) while a signature is awaited for it.
    type Ticket: Drop;

    type ControlTicket: Drop;

    // Relates the handler before a request, the bytes of the request, its outcome, and the handler after it.
    ghost answers: { Self → List ℕ → Outcome Self.Ticket → Self → Type 0 };

    // Relates the handler before one or several whole lines, these lines, their joined replies, and the handler after them.
    ghost answers_lines: { Self → List ℕ → List ℕ → Self → Type 0 };

    // Relates the handler before a call that leaves a line unanswered (it may make the message to be signed), the line, and the handler after it.
    ghost defers: { Self → List ℕ → Self → Type 0 };

    // Relates the handler, the ticket of an answer that was left to be signed, and the whole text of this answer.
    ghost finishes: { Self → Self.Ticket → List ℕ → Type 0 };

    // The handler before and after work of its own.
    ghost works: { Self → Self → Type 0 };

    // The handler, in this state, ended the loop.
    ghost ends_loop: { Self → Type 0 };

    // Whether the replies to the lines that were answered last wait; and whether replies that wait are sent.
    ghost holds: { Self → Bool };

    ghost confirmed: { Self → Bool };

    // Whether a whole request waits, by its bytes.
    ghost lets_wait: { Self → List ℕ → Bool };

    ghost has_control: { Self → Type 0 };

    // The system failed: the clock can't be read, or the sockets can't be used.
    ghost failed: { Type 0 };

    // The handler waited for its sockets this number of times, at first none.
    ghost waited: { ℕ → Type 0 };

    ghost not_waited: { waited 0 };

    /// Whether this handler has a control socket, and so answers lines. If not, the event loop closes each control connection instead.
    fn has_control_socket(&self) -> bool
        ensures { IsTrue result → has_control self.now };

    /// The milliseconds of a monotonic clock. [`EventLoopFault`] if the clock can't be read.
    fn millis(&self) -> Result<u64, EventLoopFault>
        ensures { OnErr result failed };

    /// Blocks until a socket is ready, at most for `longest`. [`EventLoopFault`] if the sockets can't be polled.
    fn wait(
        &self,
        poll: &mut Poll,
        events: &mut Events,
        longest: Duration,
    ) -> Result<(), EventLoopFault>
        ensures ok { OnOk result ((count : ℕ) → waited count → waited (count + 1)) }
        ensures err { OnErr result failed };

    /// Accepts a connection. Errors of accept(2): no client waits, a signal came, the client is gone, no descriptor is left, or the system failed.
    fn accept(&self, listener: &TcpListener) -> io::Result<(TcpStream, SocketAddr)>
        ensures { IfErr result (AcceptFails failed) };

    /// Answers a request, or leaves the answer to be signed. An incomplete request gets an empty answer. The error: the clock can't be read.
    fn answer(
        &mut self,
        client: SocketAddr,
        request: &Collected,
    ) -> Result<ReadyOrUnsigned<Vec<u8>, Self::Ticket>, EventLoopFault>
        ensures ok { IfOk result (λ begun.
            answers self.old (collected_bytes request.now) (outcome_of begun) self.new) }
        ensures err { OnErr result (self.new ≡ self.old) }
        ensures fails { OnErr result failed };

    /// Requests the signature of an answer, without blocking. `kept` is an earlier request whose connection to the signer may be used again. The
    /// error is `WouldBlock` if the backlog of the signer's socket is full or no file descriptor is left. After any other error, no signature comes.
    fn request_signature(
        &self,
        ticket: &Self::Ticket,
        kept: Option<SignatureRequest>,
    ) -> io::Result<SignatureRequest>;

    /// The whole text of an answer that was left to be signed: with the signature that `request` brought, or without one if that is `None`.
    fn finish(&self, ticket: Self::Ticket, request: &mut Option<SignatureRequest>) -> Vec<u8>
        ensures { finishes self.now ticket result.items };

    /// Answers the first of these lines of a control connection, or the first several. Keeps in `last_reason`, which is empty at first, what a later
    /// line `why` reports: mostly why the last refused line was refused. The error: the clock can't be read.
    fn answer_lines(
        &mut self,
        lines: &[u8],
        last_reason: &mut Vec<u8>,
    ) -> Result<LineReplies, EventLoopFault>
        requires control { has_control self.old }
        requires lines { IsWholeLines lines.now }
        ensures ok { IfOk result (λ replies. EndsLine lines.now replies.length
            × answers_lines self.old (take replies.length lines.now) replies.text.items self.new) }
        ensures err { OnErr result ((self.new ≡ self.old) × (last_reason.new ≡ last_reason.old)) }
        ensures fails { OnErr result failed };

    /// The message to be signed before a line is answered. `None` if nothing is to be signed, there is no signer, or the message can't be made. For
    /// some seconds after the signer timed out, an `ocsp` line gets an empty message: `connect_to_signer` then fails, and the line gets no signature.
    fn defer(&mut self, line: &[u8]) -> Option<Deferred<Self::ControlTicket>>
        ensures { defers self.old line.now self.new };

    /// Connects to the signer for a line, without blocking. Errors: as for [`Handler::request_signature`].
    fn connect_to_signer(&self, ticket: &Self::ControlTicket) -> io::Result<SignatureRequest>;

    /// Answers a line after `defer` made its message. `request`: the signature request, if it has ended, answered or not; `None` if connecting or
    /// sending failed, or time was up. Returns `None` if the message no longer fits register or clock: call `defer` again. Errors: as `answer_lines`.
    fn answer_deferred(
        &mut self,
        line: &[u8],
        last_reason: &mut Vec<u8>,
        deferred: Deferred<Self::ControlTicket>,
        request: Option<SignatureRequest>,
    ) -> Result<Option<Vec<u8>>, EventLoopFault>
        requires control { has_control self.old }
        requires line { IsLine line.now }
        ensures ok { IfOk result (λ answered. MatchOption answered (defers self.old line.now self.new)
            (λ text. answers_lines self.old line.now text.items self.new)) }
        ensures err { OnErr result ((self.new ≡ self.old) × (last_reason.new ≡ last_reason.old)) }
        ensures fails { OnErr result failed };

    /// Whether the replies to the lines that were answered last wait until `is_confirmed`. Meanwhile, no other line of their connection is answered.
    fn holds_replies(&self) -> bool
        ensures { result ≡ holds self.now };

    /// Whether replies that wait are sent.
    fn is_confirmed(&self) -> bool
        ensures { result ≡ confirmed self.now };

    /// Whether a whole request waits: the event loop answers it once this is no longer so, or after a second.
    fn waits(&self, request: &Collected) -> bool
        ensures { result ≡ lets_wait self.now (collected_bytes request.now) };

    /// Does work of its own, without blocking, once in each iteration of `serve_all` before anything is answered. `now` is in milliseconds of the
    /// handler's clock. Returns the most milliseconds until it is called again. [`EventLoopFault`] if the loop is to end.
    fn work(&mut self, registry: &Registry, now: u64) -> Result<u64, EventLoopFault>
        ensures works { works self.old self.new }
        ensures fails { OnErr result (failed ⊎ ends_loop self.new) };

    /// Receives the report of a connection's fault. `client` is its address; `None` at the control socket.
    fn report_lost(&self, client: Option<SocketAddr>, why: ConnectionFault);

    /// Receives how many connections there are, in each iteration of `serve_all`, before anything is answered.
    fn keep_counts(&self, connection_counts: ConnectionCounts);
}
