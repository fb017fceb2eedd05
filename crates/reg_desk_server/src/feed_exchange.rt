//! One request to another desk, and its response, without blocking.

ghost use Rattle.std.specs.Prelude.{◌≡◌, ◌<◌, ◌≤◌, ◌⊎◌, [], drop, length};
ghost use Rattle.reg_desk_server.specs.Buffers.{unsent_of};
ghost use Rattle.reg_desk_server.specs.FeedExchanges.{HasLastProgress, HasProgress, LacksResponse, WaitsAtOnce, WaitsPatiently};
ghost use Rattle.reg_desk_server.specs.FeedExchanges.{Proceeds, Progresses, ReceivesResponse, Transfers, has_failed, longest_response};

use crate::control_connection::gather;
use crate::request_bytes::Received;
use crate::unsent::{Sent, Unsent};
use reg_http_head::{ResponseHead, ResponseStart, read_response_start};
use std::alloc::Global;
use std::io::{Read, Write};

/// The most bytes that are kept of a response. It is too long once a read could bring more.
const LONGEST_RESPONSE: usize = 167_772_160;

/// For how many milliseconds the exchange waits for the next byte.
const PATIENCE_MILLIS: u64 = 5_000;

const READ_BYTES: usize = 16_384;

const MOST_READS: usize = 64;

/// The progress of an exchange.
#[derive(Clone, Copy)]
pub enum FeedProgress {
    /// More is awaited. The exchange is to be advanced when its connection is ready, and after this number of milliseconds.
    Waiting(u64),
    /// The whole response has come. This is its head.
    Arrived(ResponseHead),
    /// No response comes: the connection failed or ended, no byte was sent or came for five seconds, the response is invalid or too long (some 160
    /// MiB), or there was no memory for it.
    Failed,
}

/// A request that is sent on a connection of its own, and what has come of its response.
#[derive(Drop)]
pub struct FeedExchange<S> {
    pub(crate) stream: S,
    pub(crate) request: Unsent,
    pub(crate) received: Vec<u8>,
    /// When a byte was last sent or came, in milliseconds of the handler's clock.
    pub(crate) moved_at: u64,
}

impl<S: Drop> FeedExchange<S> {
    /// The request with these bytes, on a connection from which nothing was read. `now` is in milliseconds of the handler's clock.
    pub fn new(alloc: Global, stream: S, request: Vec<u8>, now: u64) -> FeedExchange<S>
        ensures stream { result.stream ≡ stream }
        ensures request { unsent_of result.request ≡ request.items }
        ensures received { result.received.items ≡ [] }
        ensures moved_at { result.moved_at ≡ now }
    {
        FeedExchange {
            stream,
            request: Unsent::new(request),
            received: Vec::new(alloc),
            moved_at: now,
        }
    }

    /// The body of the response that has arrived with this head.
    pub fn body(&self, head: ResponseHead) -> &[u8]
        ensures { result.now ≡ drop head.end self.now.received.items }
    {
        &self.received[head.end.min(self.received.len())..]
    }

    /// The progress, if the connection may still give more.
    fn progress(&self, now: u64) -> FeedProgress
        ensures { HasProgress now self.now result × WaitsPatiently now self.now result }
    {
        if self.request.len() > 0 {
            return self.waiting(now);
        }
        match read_response_start(&self.received) {
            ResponseStart::Partial => self.waiting(now),
            ResponseStart::Head(head) => match head.length.checked_add(head.end as u64) {
                Some(needed) if needed > self.received.len() as u64 => self.waiting(now),
                Some(needed) if needed == self.received.len() as u64 => {
                    FeedProgress::Arrived(head)
                }
                Some(_) => FeedProgress::Failed,
                None => self.waiting(now),
            },
            ResponseStart::Bad => FeedProgress::Failed,
        }
    }

    /// The progress if more may be sent or received at once.
    fn progress_at_once(&self, now: u64) -> FeedProgress
        ensures { HasProgress now self.now result × WaitsAtOnce result }
    {
        match self.progress(now) {
            FeedProgress::Waiting(_) => FeedProgress::Waiting(0),
            FeedProgress::Arrived(head) => FeedProgress::Arrived(head),
            FeedProgress::Failed => FeedProgress::Failed,
        }
    }

    /// The progress if the connection has ended.
    fn progress_at_end(&self, now: u64) -> FeedProgress
        ensures { HasLastProgress self.now result }
    {
        match self.progress(now) {
            FeedProgress::Waiting(_) => FeedProgress::Failed,
            FeedProgress::Arrived(head) => FeedProgress::Arrived(head),
            FeedProgress::Failed => FeedProgress::Failed,
        }
    }

    fn waiting(&self, now: u64) -> FeedProgress
        requires { LacksResponse self.now }
        ensures { HasProgress now self.now result × WaitsPatiently now self.now result }
    {
        let idle = now.saturating_sub(self.moved_at);
        if idle < PATIENCE_MILLIS {
            FeedProgress::Waiting(PATIENCE_MILLIS - idle)
        } else {
            FeedProgress::Failed
        }
    }
}

impl<S: Read + Write + Drop> FeedExchange<S> {
    /// Sends and receives what can be sent and received at once. `now` is in milliseconds of the handler's clock.
    pub fn advance(&mut self, now: u64) -> FeedProgress
        ensures proceeds { Proceeds S.contents S.remaining self.old self.new (has_failed result) }
        ensures progress { Progresses S.contents S.remaining now self.old self.new result }
        ensures idle { unsent_of self.new.request ≡ unsent_of self.old.request → self.new.received.items ≡ self.old.received.items
            → self.new.moved_at ≡ self.old.moved_at }
        ensures sent { length (unsent_of self.new.request) < length (unsent_of self.old.request)
            → self.new.moved_at ≡ now }
        ensures came { length self.old.received.items < length self.new.received.items
            → self.new.moved_at ≡ now }
        ensures moved { (self.new.moved_at ≡ self.old.moved_at) ⊎ (self.new.moved_at ≡ now) }
        ensures short { length self.old.received.items ≤ longest_response → length self.new.received.items ≤ longest_response }
    {
        match self.transfer_at(now) {
            Received::Blocked => self.progress(now),
            Received::More => self.progress_at_once(now),
            Received::Ended => self.progress_at_end(now),
            Received::Whole => FeedProgress::Failed,
            Received::Broken => FeedProgress::Failed,
            Received::OutOfMemory => FeedProgress::Failed,
        }
    }

    /// Sends and receives, and keeps the moment if a byte was sent or came.
    fn transfer_at(&mut self, now: u64) -> Received
        ensures transfers { Transfers S.contents S.remaining self.old self.new result }
        ensures idle { unsent_of self.new.request ≡ unsent_of self.old.request → self.new.received.items ≡ self.old.received.items
            → self.new.moved_at ≡ self.old.moved_at }
        ensures sent { length (unsent_of self.new.request) < length (unsent_of self.old.request)
            → self.new.moved_at ≡ now }
        ensures came { length self.old.received.items < length self.new.received.items
            → self.new.moved_at ≡ now }
        ensures moved { (self.new.moved_at ≡ self.old.moved_at) ⊎ (self.new.moved_at ≡ now) }
    {
        let unsent = self.request.len();
        let came = self.received.len();
        let received = self.transfer();
        if self.request.len() == unsent && self.received.len() == came {
            return received;
        }
        self.moved_at = now;
        received
    }

    fn transfer(&mut self) -> Received
        ensures transfers { Transfers S.contents S.remaining self.old self.new result }
        ensures moved_at { self.new.moved_at ≡ self.old.moved_at }
    {
        match self.request.send_on(&mut self.stream) {
            Sent::All => self.receive(),
            Sent::Blocked => Received::Blocked,
            Sent::More => Received::More,
            Sent::Broken => Received::Broken,
        }
    }

    fn receive(&mut self) -> Received
        ensures { ReceivesResponse S.remaining self.old self.new result }
    {
        let mut buffer = [0; READ_BYTES];
        for _ in 0..MOST_READS {
            match self.receive_once(&mut buffer) {
                Received::More => {}
                received => return received,
            }
        }
        Received::More
    }

    fn receive_once(&mut self, read_buffer: &mut [u8]) -> Received
        ensures { ReceivesResponse S.remaining self.old self.new result }
    {
        if read_buffer.len() > LONGEST_RESPONSE.saturating_sub(self.received.len()) {
            return Received::Broken;
        }
        gather(&mut self.stream, &mut self.received, read_buffer)
    }
}
