//! All HTTP connections, each in its slot.

ghost use Rattle.std.specs.Prelude.{◌≡◌, ◌+◌, ◌-◌, ◌^◌, min, [], IfOk};
ghost use Rattle.reg_desk_server.specs.Buffers.{AppendsIfMemory};

use crate::handler::{ConnectionFault, Handler};
use crate::http_connection::{HttpConnection, NextStep};
use crate::poller::{FIRST_HTTP, Poller};
use crate::shared::{ConnectionFaultReport, Shared};
use crate::signature_requests::Requester;
use crate::slots::Slots;
use mio::net::TcpStream;
use reg_crl_signer::SignatureRequest;
use std::alloc::{AllocError, Global};
use std::io;
use std::io::ErrorKind;

/// The most open HTTP connections. Of the usual 1,024 file descriptors, 32 are left for connections to the signer, 32 for files and control lines.
pub const MOST_HTTP_CONNECTIONS: usize = 960;

/// The most unsent bytes of all HTTP connections together, which clients that don't read keep in memory: 64 MiB.
const MOST_UNSENT: usize = 67_108_864;

/// How many milliseconds pass at least between two searches for connections whose time is up.
pub(crate) const SWEEP_MILLIS: u64 = 250;

/// Which connections may be evicted: those without an answer; those with one; those whose answer is not wholly sent, except the one in this slot.
#[derive(Clone, Copy)]
enum Selection {
    Unanswered,
    Answered,
    UnsentExcept(usize),
}

impl Selection {
    fn includes<H: Handler>(self, connection: &HttpConnection<TcpStream, H>, slot: usize) -> bool {
        match self {
            Selection::Unanswered => !connection.has_answer(),
            Selection::Answered => connection.has_answer(),
            Selection::UnsentExcept(answered_slot) => connection.unsent() > 0
                && slot != answered_slot,
        }
    }
}

#[derive(Drop)]
pub(crate) struct HttpConnections<H: Handler> {
    pub(crate) slots: Slots<HttpConnection<TcpStream, H>>,
    /// The slots of the connections that are to be answered in this iteration.
    pub(crate) due: Vec<usize>,
    /// The connections whose requests wait ([`Handler::waits`]).
    waiting: Vec<Requester>,
    unsent: usize,
    /// When the last sweep was, in milliseconds of the handler's clock.
    swept: u64,
}

impl<H: Handler> HttpConnections<H> {
    pub(crate) fn new(alloc: Global, count: usize) -> Result<HttpConnections<H>, AllocError>
        ensures { IfOk result (λ connections. connections.due.items ≡ []) }
    {
        let due = Vec::with_capacity(alloc, count)?;
        let waiting = Vec::new(alloc);
        let slots = Slots::new(alloc, count)?;
        Ok(HttpConnections {
            slots,
            due,
            waiting,
            unsent: 0,
            swept: 0,
        })
    }

    /// Corrects the total of unsent bytes (`unsent`): of these, a connection had `before`, and has `after` now.
    pub(crate) fn count_unsent(&mut self, before: usize, after: usize)
        ensures count { self.new.unsent ≡ min (self.old.unsent - before + after) (2 ^ 64 - 1) }
        ensures due { self.new.due ≡ self.old.due }
    {
        self.unsent = self.unsent.saturating_sub(before).saturating_add(after);
    }

    pub(crate) fn advance(&mut self, slot: usize, shared: &mut Shared, now: u64) {
        if let Some(connection) = self.slots.take(slot) {
            self.drive(slot, connection, shared, now);
        }
    }

    /// Advances a connection that was taken out of its slot, and puts it back unless it is to be closed.
    pub(crate) fn drive(
        &mut self,
        slot: usize,
        mut connection: HttpConnection<TcpStream, H>,
        shared: &mut Shared,
        now: u64,
    ) {
        let before = connection.unsent();
        let next = connection.advance(shared.read_buffer.as_mut_slice(), now);
        self.count_unsent(before, connection.unsent());
        match next {
            NextStep::Due => self.put_due(slot, connection),
            NextStep::Poll(interest) => {
                let token = slot.saturating_add(FIRST_HTTP);
                let HttpConnection {
                    stream,
                    is_registered,
                    ..
                } = &mut connection;
                if shared
                    .poller
                    .register_again(stream, token, interest, is_registered)
                {
                    self.slots.put(slot, connection);
                } else if connection.is_receiving() {
                    // Not closed: `serve_all` waits until each accepted connection was answered, so this one is to be answered, too.
                    connection.fault = Some(ConnectionFault::Broken);
                    self.put_due(slot, connection);
                } else {
                    self.close(slot, connection, shared, ConnectionFault::Broken);
                }
            }
            NextStep::Park => self.slots.put(slot, connection),
            NextStep::Close => self.close(slot, connection, shared, ConnectionFault::Broken),
        }
    }

    fn put_due(&mut self, slot: usize, connection: HttpConnection<TcpStream, H>)
        ensures { AppendsIfMemory slot self.old.due.items self.new.due.items }
    {
        self.slots.put(slot, connection);
        // Out of memory: a sweep after the connection's deadline makes it due again.
        let _ = self.due.push(slot);
    }

    /// Lets a connection whose request waits, and that was taken out of its slot, wait until the next iteration.
    pub(crate) fn put_waiting(&mut self, slot: usize, connection: HttpConnection<TcpStream, H>) {
        let number = connection.number;
        self.slots.put(slot, connection);
        // Out of memory: a sweep after the connection's deadline makes it due again.
        let _ = self.waiting.push(Requester { slot, number });
    }

    /// Makes the connections due whose requests waited in the iteration before this one, and that still receive.
    pub(crate) fn wake(&mut self)
        ensures { self.new.waiting.items ≡ [] }
    {
        for index in 0..self.waiting.len() {
            if let Some(requester) = self.waiting.get(index).copied() {
                self.wake_one(requester);
            }
        }
        self.waiting.clear();
    }

    fn wake_one(&mut self, requester: Requester) {
        let is_there = match self.slots.get(requester.slot) {
            Some(connection) => connection.number == requester.number && connection.is_receiving(),
            None => false,
        };
        if is_there && !self.due.contains(&requester.slot) {
            let _ = self.due.push(requester.slot);
        }
    }

    /// Closes a connection taken out of its slot. If its answer is unsigned or not wholly sent, reports `why`, unless a `fault` was reported before.
    fn close(
        &mut self,
        slot: usize,
        connection: HttpConnection<TcpStream, H>,
        shared: &mut Shared,
        why: ConnectionFault,
    )
        ensures { self.new.due ≡ self.old.due }
    {
        let is_lost = connection.unsent() > 0 || connection.is_signing();
        if is_lost && connection.fault.is_none() {
            let client = Some(connection.client);
            shared
                .lost
                .add_fault_report(ConnectionFaultReport { client, why });
        }
        self.count_unsent(connection.unsent(), 0);
        drop(connection);
        self.slots.release(slot);
    }

    /// Evicts the oldest connection that has an answer, or else the oldest of all, unless that is due already. One that still receives becomes due:
    /// the handler gets what came, and the answer (empty for an incomplete request) is sent before it is closed. Any other is closed at once.
    pub(crate) fn evict(&mut self, shared: &mut Shared) {
        let answered = self.oldest(Selection::Answered);
        let Some(slot) = answered.or(self.oldest(Selection::Unanswered)) else {
            return;
        };
        if self.due.contains(&slot) {
            return;
        }
        if let Some(mut connection) = self.slots.take(slot) {
            if connection.is_receiving() {
                connection.fault = Some(ConnectionFault::Evicted);
            }
            self.make_due_or_close(slot, connection, shared, ConnectionFault::Evicted);
        }
    }

    fn oldest(&self, selection: Selection) -> Option<usize> {
        let mut found = None;
        let mut least = u64::MAX;
        for slot in 0..self.slots.entries.len() {
            let number = self.number_at(slot, selection);
            if number < least {
                least = number;
                found = Some(slot);
            }
        }
        found
    }

    /// The number of a slot's connection (smaller if it is older) if the selection includes it; else the greatest number, which no connection has.
    fn number_at(&self, slot: usize, selection: Selection) -> u64 {
        match self.slots.get(slot) {
            Some(connection) if selection.includes(connection, slot) => connection.number,
            _ => u64::MAX,
        }
    }

    /// If a connection's time is up, makes it due if it still receives, else closes it. Does nothing within `SWEEP_MILLIS` after the last sweep.
    pub(crate) fn sweep(&mut self, shared: &mut Shared, now: u64) {
        if now.saturating_sub(self.swept) < SWEEP_MILLIS {
            return;
        }
        self.swept = now;
        for slot in 0..self.slots.entries.len() {
            match self.slots.take(slot) {
                Some(connection) if connection.is_expired(now) => {
                    self.make_due_or_close(slot, connection, shared, ConnectionFault::TimedOut);
                }
                Some(connection) => self.slots.put(slot, connection),
                None => {}
            }
        }
    }

    fn make_due_or_close(
        &mut self,
        slot: usize,
        connection: HttpConnection<TcpStream, H>,
        shared: &mut Shared,
        why: ConnectionFault,
    ) {
        if connection.is_receiving() {
            self.put_due(slot, connection);
        } else {
            self.close(slot, connection, shared, why);
        }
    }

    /// While more than `MOST_UNSENT` bytes are unsent, closes the oldest connection that has any, but not the one just answered (in `answered_slot`).
    pub(crate) fn limit_unsent(&mut self, answered_slot: usize, shared: &mut Shared) {
        for _ in 0..MOST_HTTP_CONNECTIONS {
            if self.unsent <= MOST_UNSENT {
                return;
            }
            let Some(slot) = self.oldest(Selection::UnsentExcept(answered_slot)) else {
                return;
            };
            if let Some(connection) = self.slots.take(slot) {
                self.make_due_or_close(slot, connection, shared, ConnectionFault::Evicted);
            }
        }
    }

    /// Closes each connection that still receives (`close_due`: each due one), for `EventLoop::finish`. `close` reports none, whatever its `why`.
    pub(crate) fn close_all_receiving(&mut self, shared: &mut Shared) {
        for slot in 0..self.slots.entries.len() {
            self.close_if_receiving(slot, shared);
        }
    }

    pub(crate) fn close_due(&mut self, shared: &mut Shared)
        ensures { self.new.due.items ≡ [] }
    {
        for index in 0..self.due.len() {
            if let Some(slot) = self.due.get(index).copied() {
                self.close_if_receiving(slot, shared);
            }
        }
        self.due.clear();
    }

    fn close_if_receiving(&mut self, slot: usize, shared: &mut Shared) {
        if let Some(connection) = self.slots.take(slot) {
            if connection.is_receiving() {
                self.close(slot, connection, shared, ConnectionFault::TimedOut);
            } else {
                self.slots.put(slot, connection);
            }
        }
    }

    pub(crate) fn is_waiting(&self, requester: Requester) -> bool {
        match self.slots.get(requester.slot) {
            Some(connection) => connection.number == requester.number && connection.is_signing(),
            None => false,
        }
    }

    pub(crate) fn take_waiting(
        &mut self,
        requester: Requester,
    ) -> Option<HttpConnection<TcpStream, H>> {
        if self.is_waiting(requester) {
            self.slots.take(requester.slot)
        } else {
            None
        }
    }

    /// As [`HttpConnection::request_signature`]; `NotConnected` also if the requester's connection is closed.
    pub(crate) fn request_signature(
        &self,
        requester: Requester,
        handler: &H,
        kept: Option<SignatureRequest>,
    ) -> io::Result<SignatureRequest> {
        match self.slots.get(requester.slot) {
            Some(connection) if connection.number == requester.number => {
                connection.request_signature(handler, kept)
            }
            _ => Err(io::Error::from(ErrorKind::NotConnected)),
        }
    }

    /// Advances the connection of a requester, and closes it if its client has half-closed. Returns whether the requester no longer waits.
    pub(crate) fn close_if_ended(
        &mut self,
        requester: Requester,
        shared: &mut Shared,
        now: u64,
    ) -> bool {
        self.advance(requester.slot, shared, now);
        match self.take_waiting(requester) {
            Some(connection) if connection.has_ended => {
                self.close(requester.slot, connection, shared, ConnectionFault::Broken);
                true
            }
            Some(connection) => {
                self.slots.put(requester.slot, connection);
                false
            }
            None => true,
        }
    }
}
