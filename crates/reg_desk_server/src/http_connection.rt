//! One HTTP connection, on which one request is answered.

ghost use Rattle.std.specs.Prelude.{◌≡◌, ◌≤◌, ◌+◌, ◌⊎◌, [], OnOk, OnErr, is_some, IsSome, IfNone, IsFalse, IsTrue, Some, false, ◌↔◌};
ghost use Rattle.reg_desk_server.specs.Handling.{Handled};
ghost use Rattle.reg_desk_server.specs.Stages.{Answering, Drops, Finishing, HasReceived, HasUnsentText, IsDropped, IsIncomplete, KeepsReceived, MayWait, ReceivesMore, SameStreamAndFault, Sends, WaitsAt};

use crate::handler::{ConnectionFault, EventLoopFault, Handler};
use crate::request_bytes::{Received, receive};
use crate::stream::ClientStream;
use crate::unsent::{Sent, Unsent};
use mio::Interest;
use reg_crl_signer::SignatureRequest;
use reg_http_head::Collected;
use reg_io::ReadyOrUnsigned;
use std::alloc::Global;
use std::io::{ErrorKind, Read};
use std::net::SocketAddr;
use std::{io, mem};

/// The most milliseconds in one [`Stage`] before `Draining`. The event loop ends `Signing` after 10,000 already, unless a call blocks the loop.
const TIMEOUT_MILLIS: u64 = 30_000;

/// After the answer was sent, the bytes that a client still sends are dropped for this many milliseconds.
const LINGER_MILLIS: u64 = 1_000;

const MOST_DROP_READS: usize = 32;

/// How many milliseconds a request waits at most ([`Handler::waits`]), and the time until the next iteration of the loop.
const WAIT_MILLIS: u64 = 1_000;

/// The stage of a connection, in the order in which a connection reaches them. An answer that needs no signature skips `Signing`.
#[derive(Drop)]
pub(crate) enum Stage<T> {
    Receiving(Collected),
    /// The answer is to be signed: the handler's data about it ([`Handler::Ticket`]), and `is_exact`: whether nothing came after the request.
    Signing(T, bool),
    /// The answer is being sent. `closes_after`: whether its last byte ends the connection, without `Draining`.
    Sending(Unsent, bool),
    /// The answer was sent, and the bytes that the client still sends are dropped.
    Draining,
}

/// The next step for a connection: answer it, register it with the poller, keep it without registering it again, or close it.
#[derive(Clone, Copy)]
pub enum NextStep {
    Due,
    Poll(Interest),
    Park,
    Close,
}

fn drop_all<R: Read>(reader: &mut R, read_buffer: &mut [u8]) -> Received
    ensures { IsDropped (R.remaining reader.old) (R.remaining reader.new) }
{
    for _ in 0..MOST_DROP_READS {
        match drop_once(reader, read_buffer) {
            Received::More => {}
            received => return received,
        }
    }
    Received::More
}

fn drop_once<R: Read>(reader: &mut R, read_buffer: &mut [u8]) -> Received
    ensures { IsDropped (R.remaining reader.old) (R.remaining reader.new) }
{
    match reader.read(read_buffer) {
        Ok(0) => Received::Ended,
        Ok(_) => Received::More,
        Err(error) if error.kind() == ErrorKind::WouldBlock => Received::Blocked,
        Err(_) => Received::Broken,
    }
}

/// A client's connection, for one request. It keeps an answer that is to be signed, so the signature reaches no other client.
#[derive(Drop)]
pub struct HttpConnection<S: ClientStream, H: Handler> {
    pub(crate) stream: S,
    pub(crate) client: SocketAddr,
    pub(crate) stage: Stage<H::Ticket>,
    /// The fault because of which no more of the request is received, if there is one.
    pub(crate) fault: Option<ConnectionFault>,
    /// Whether the client has half-closed (it sends no more). This is noticed only while its answer waits for a signature.
    pub(crate) has_ended: bool,
    /// When the time for the stage is up, in milliseconds of the handler's clock, as `now` is in each function.
    pub(crate) deadline: u64,
    pub(crate) number: u64,
    pub(crate) is_registered: bool,
    /// When the request has waited long enough, in milliseconds of the handler's clock. `None`: it has not waited.
    pub(crate) waits_until: Option<u64>,
}

impl<S: ClientStream, H: Handler> HttpConnection<S, H> {
    /// A connection from the address `client`, accepted at `now`, in milliseconds of the handler's clock. Later connections have greater numbers.
    pub fn new(
        alloc: Global,
        stream: S,
        client: SocketAddr,
        number: u64,
        now: u64,
    ) -> HttpConnection<S, H>
        ensures stream { result.stream ≡ stream }
        ensures receives { HasReceived result.stage [] }
        ensures open { is_some result.fault ≡ false }
    {
        HttpConnection {
            stream,
            client,
            stage: Stage::Receiving(Collected::new(alloc)),
            fault: None,
            has_ended: false,
            deadline: now.saturating_add(TIMEOUT_MILLIS),
            number,
            is_registered: false,
            waits_until: None,
        }
    }

    pub fn is_receiving(&self) -> bool {
        matches!(self.stage, Stage::Receiving(_))
    }

    pub fn is_signing(&self) -> bool {
        matches!(self.stage, Stage::Signing(..))
    }

    /// Whether the answer is finished: it is being sent, or was sent.
    pub fn has_answer(&self) -> bool {
        !self.is_receiving() && !self.is_signing()
    }

    pub fn is_expired(&self, now: u64) -> bool
        ensures { IsTrue result ↔ (self.now.deadline ≤ now) }
    {
        self.deadline <= now
    }

    /// The fault of a connection whose request is to be answered now. Records `TimedOut` first, if no fault is recorded yet and the time is up before
    /// the request is whole. A half-close within the request is no fault. `None` in a later stage.
    pub fn record_fault(&mut self, now: u64) -> Option<ConnectionFault>
        ensures same_stream { self.new.stream ≡ self.old.stream }
        ensures kept { KeepsReceived self.old.stage self.new.stage }
        ensures fault { IsSome self.old.fault → IsSome self.new.fault }
        ensures late { (self.new.fault ≡ self.old.fault)
            ⊎ ((self.new.fault ≡ Some ConnectionFault.TimedOut) × (self.old.deadline ≤ now)
            × IsIncomplete self.old.stage) }
    {
        let is_expired = self.is_expired(now);
        match &mut self.stage {
            Stage::Receiving(collected) => {
                if self.fault.is_none() && is_expired && !collected.is_whole() {
                    self.fault = Some(ConnectionFault::TimedOut);
                }
                self.fault
            }
            Stage::Signing(..) => None,
            Stage::Sending(..) => None,
            Stage::Draining => None,
        }
    }

    /// How many bytes of a finished answer are not sent yet.
    pub fn unsent(&self) -> usize {
        match &self.stage {
            Stage::Sending(unsent, _) => unsent.len(),
            _ => 0,
        }
    }

    /// Receives, sends or drops bytes without blocking, and returns the next step. Few reads or writes at once: other connections get their turn.
    pub fn advance(&mut self, read_buffer: &mut [u8], now: u64) -> NextStep
        ensures receives { ReceivesMore S.Read.remaining self.old self.new }
        ensures sends { Sends S.Write.contents self.old self.new }
        ensures drops { Drops S.Read.remaining self.old self.new }
    {
        match &self.stage {
            Stage::Receiving(_) => self.receive(read_buffer),
            Stage::Signing(..) => self.drop_received(read_buffer),
            Stage::Sending(..) => self.send_on(now),
            Stage::Draining => self.drain(read_buffer),
        }
    }

    #[tactic(auto, using(crate::proofs::Gatherings::gathers_none))]
    fn receive(&mut self, read_buffer: &mut [u8]) -> NextStep
        ensures { ReceivesMore S.Read.remaining self.old self.new }
    {
        if self.fault.is_some() {
            return NextStep::Due;
        }
        // `advance` calls `receive` in the stage `Receiving` only, and `send_on` in `Sending` only: their other arms are not reached.
        match &mut self.stage {
            Stage::Receiving(collected) => match receive(&mut self.stream, collected, read_buffer) {
                Received::Blocked => NextStep::Poll(Interest::READABLE),
                Received::More => NextStep::Poll(Interest::READABLE),
                Received::Whole => NextStep::Due,
                Received::Ended => NextStep::Due,
                Received::Broken => {
                    self.fault = Some(ConnectionFault::Broken);
                    NextStep::Due
                }
                Received::OutOfMemory => {
                    self.fault = Some(ConnectionFault::Memory);
                    NextStep::Due
                }
            },
            Stage::Signing(..) => NextStep::Close,
            Stage::Sending(..) => NextStep::Close,
            Stage::Draining => NextStep::Close,
        }
    }

    /// Drops what a client sends while its answer waits for a signature, and notes a half-close. `Park`: the connection waits for the signature.
    fn drop_received(&mut self, read_buffer: &mut [u8]) -> NextStep
        ensures { Drops S.Read.remaining self.old self.new }
    {
        match drop_all(&mut self.stream, read_buffer) {
            Received::Broken => return NextStep::Close,
            Received::Ended => self.has_ended = true,
            _ => {}
        }
        NextStep::Park
    }

    fn send_on(&mut self, now: u64) -> NextStep
        ensures { Sends S.Write.contents self.old self.new }
    {
        match self.send() {
            Some(next) => next,
            None => self.finish(now),
        }
    }

    /// Sends more of the answer. `None` if all of it is sent, and the connection is not closed yet: then `send_on` calls `finish`.
    fn send(&mut self) -> Option<NextStep>
        ensures sends { Sends S.Write.contents self.old self.new }
        ensures all { IfNone result (HasUnsentText self.new.stage []) }
    {
        match &mut self.stage {
            Stage::Sending(unsent, closes_after) => match unsent.send_on(&mut self.stream) {
                Sent::All if *closes_after => Some(NextStep::Close),
                Sent::All => None,
                Sent::Blocked | Sent::More => {
                    // The client may send more before all is sent, so the connection is drained afterwards.
                    *closes_after = false;
                    Some(NextStep::Poll(Interest::WRITABLE))
                }
                Sent::Broken => Some(NextStep::Close),
            },
            Stage::Receiving(_) => Some(NextStep::Close),
            Stage::Signing(..) => Some(NextStep::Close),
            Stage::Draining => Some(NextStep::Close),
        }
    }

    /// Shuts down the sending side. If the connection were closed with unread bytes, the client could lose an answer that it has not read yet. So the
    /// bytes that it still sends are read and dropped for `LINGER_MILLIS`.
    fn finish(&mut self, now: u64) -> NextStep
        ensures stream { self.new.stream ≡ self.old.stream }
        ensures drains { self.new.stage ≡ Stage.Draining }
    {
        self.stage = Stage::Draining;
        self.deadline = now.saturating_add(LINGER_MILLIS);
        match self.stream.finish() {
            Ok(()) => NextStep::Poll(Interest::READABLE),
            Err(_) => NextStep::Close,
        }
    }

    fn drain(&mut self, read_buffer: &mut [u8]) -> NextStep
        ensures { Drops S.Read.remaining self.old self.new }
    {
        match drop_all(&mut self.stream, read_buffer) {
            Received::Blocked | Received::More => NextStep::Poll(Interest::READABLE),
            _ => NextStep::Close,
        }
    }

    /// Whether the request waits before it is answered: the handler lets it, and it has not waited for `WAIT_MILLIS`.
    pub fn waits(&mut self, handler: &H, now: u64) -> bool
        ensures rest { self.new ≡ record self.old { waits_until = self.new.waits_until } }
        ensures waits { IsTrue result → MayWait (H.lets_wait handler.now) self.old
            × WaitsAt now self.old.waits_until self.new.waits_until }
        ensures goes { IsFalse result → self.new ≡ self.old }
    {
        if !self.may_wait(handler) {
            return false;
        }
        match self.waits_until {
            Some(until) => now < until,
            None => {
                self.waits_until = Some(now.saturating_add(WAIT_MILLIS));
                true
            }
        }
    }

    fn may_wait(&self, handler: &H) -> bool
        ensures { IsTrue result → MayWait (H.lets_wait handler.now) self.now }
    {
        if self.fault.is_some() {
            return false;
        }
        match &self.stage {
            Stage::Receiving(collected) => {
                if !collected.is_exact() {
                    return false;
                }
                handler.waits(collected)
            }
            Stage::Signing(..) => false,
            Stage::Sending(..) => false,
            Stage::Draining => false,
        }
    }

    /// Answers the bytes of the request that came, even if it is incomplete, and adds 1 to `answered`. Returns whether the answer is to be signed. In
    /// a stage after `Receiving`, does nothing and returns `false`. [`EventLoopFault`] as for [`Handler::answer`], and if `answered` is 2^64 - 1.
    #[tactic(auto, using(crate::proofs::Exchanges::exchanged_none))]
    pub fn answer(
        &mut self,
        handler: &mut H,
        answered: &mut u64,
        now: u64,
    ) -> Result<bool, EventLoopFault>
        ensures exchanged { Handled H.Handler handler.old handler.new answered.old answered.new }
        ensures one { answered.new ≤ answered.old + 1 }
        ensures answered { OnOk result (
            Answering H.answers handler.old handler.new self.old.stage self.new.stage) }
        ensures kept { SameStreamAndFault self.old self.new }
        ensures err { OnErr result ((self.new ≡ self.old) × (handler.new ≡ handler.old)) }
        ensures fails { OnErr result (H.failed ⊎ (answered.old ≡ 18446744073709551615)) }
    {
        let (begun, is_exact) = match &self.stage {
            Stage::Receiving(collected) => {
                let Some(count) = answered.checked_add(1) else {
                    return Err(EventLoopFault);
                };
                let begun = handler.answer(self.client, collected)?;
                *answered = count;
                (begun, collected.is_exact())
            }
            Stage::Signing(..) => return Ok(false),
            Stage::Sending(..) => return Ok(false),
            Stage::Draining => return Ok(false),
        };
        match begun {
            ReadyOrUnsigned::Ready(text) => {
                self.start_sending(text, is_exact, now);
                Ok(false)
            }
            ReadyOrUnsigned::Unsigned(ticket) => {
                self.deadline = now.saturating_add(TIMEOUT_MILLIS);
                self.stage = Stage::Signing(ticket, is_exact);
                Ok(true)
            }
        }
    }

    fn start_sending(&mut self, text: Vec<u8>, is_exact: bool, now: u64)
        ensures holds { HasUnsentText self.new.stage text.items }
        ensures kept { SameStreamAndFault self.old self.new }
    {
        // The connection can close at once if nothing is unread, or if there is no answer to lose.
        let closes_after = is_exact || text.is_empty();
        self.stage = Stage::Sending(Unsent::new(text), closes_after);
        self.deadline = now.saturating_add(TIMEOUT_MILLIS);
    }

    /// Requests the answer's signature. `kept`: an earlier request whose connection may be used again, if there is one. Errors: those of
    /// [`Handler::request_signature`], and `NotConnected` if no answer is to be signed.
    pub(crate) fn request_signature(
        &self,
        handler: &H,
        kept: Option<SignatureRequest>,
    ) -> io::Result<SignatureRequest> {
        match &self.stage {
            Stage::Signing(ticket, _) => handler.request_signature(ticket, kept),
            Stage::Receiving(_) => Err(io::Error::from(ErrorKind::NotConnected)),
            Stage::Sending(..) => Err(io::Error::from(ErrorKind::NotConnected)),
            Stage::Draining => Err(io::Error::from(ErrorKind::NotConnected)),
        }
    }

    /// Finishes the answer that is to be signed: with the signature that `request` brought, or without one. In any other stage nothing changes.
    pub fn complete(&mut self, handler: &H, request: &mut Option<SignatureRequest>, now: u64)
        ensures finished { Finishing (H.finishes handler.now) self.old.stage self.new.stage }
        ensures kept { SameStreamAndFault self.old self.new }
    {
        match mem::replace(&mut self.stage, Stage::Draining) {
            Stage::Signing(ticket, is_exact) => {
                let finished = handler.finish(ticket, request);
                self.start_sending(finished, is_exact, now);
            }
            Stage::Receiving(collected) => self.stage = Stage::Receiving(collected),
            Stage::Sending(unsent, closes_after) => self.stage = Stage::Sending(
                unsent,
                closes_after,
            ),
            Stage::Draining => {}
        }
    }
}
