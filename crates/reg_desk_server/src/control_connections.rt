//! The connections of clients at the control socket: their listener, and each connection in its slot.

ghost use Rattle.std.specs.Prelude.{◌≡◌, IsFalse, IsTrue, OnErr};
ghost use Rattle.reg_desk_server.specs.Handling.{AnsweredLines};

use crate::control_connection::ControlConnection;
use crate::handler::{ConnectionFault, EventLoopFault, Handler};
use crate::http_connection::NextStep;
use crate::http_connections::SWEEP_MILLIS;
use crate::poller::{CONTROL_LISTENER, FIRST_CONTROL, Poller, is_out_of_descriptors};
use crate::shared::{ConnectionFaultReport, Shared};
use crate::signature_requests::PAUSE_MILLIS;
use crate::slots::Slots;
use crate::waiting_line::WaitingLine;
use mio::Interest;
use mio::net::{UnixListener, UnixStream};
use std::alloc::Global;
use std::io;
use std::io::ErrorKind;
use std::time::Duration;

const MOST_CONTROL_CONNECTIONS: usize = 8;

/// A connection whose replies wait, taken out of its slot.
#[derive(Drop)]
struct HeldConnection {
    slot: usize,
    connection: ControlConnection<UnixStream>,
}

#[derive(Drop)]
pub(crate) struct ControlConnections<H: Handler> {
    listener: Option<UnixListener>,
    pub(crate) slots: Slots<ControlConnection<UnixStream>>,
    /// The line that waits for a signature, if there is one. No other line is answered before it.
    pub(crate) waiting: Option<WaitingLine<H>>,
    /// The connections whose replies wait, at most one for each slot.
    held: Vec<HeldConnection>,
    /// Whether a client's connection may be waiting at the listener. `lacks_descriptors`: whether no file descriptor was free to accept it.
    pub(crate) may_accept: bool,
    pub(crate) lacks_descriptors: bool,
    /// Whether a connection may have a whole line without a reply.
    has_lines: bool,
    /// The slot that is answered first (modulo the number of slots): it follows the slot whose line last waited for a signature. All get a turn.
    first_slot: usize,
}

impl<H: Handler> ControlConnections<H> {
    /// No connections yet. Registers the listener (`None` without a control socket) with the poller for the first time (`false`).
    pub(crate) fn new(
        alloc: Global,
        mut listener: Option<UnixListener>,
        poller: &Poller,
    ) -> io::Result<ControlConnections<H>> {
        if let Some(listener) = &mut listener {
            poller.register(listener, CONTROL_LISTENER, Interest::READABLE, false)?;
        }
        let slots = Slots::new(alloc, MOST_CONTROL_CONNECTIONS)?;
        let held = Vec::with_capacity(alloc, MOST_CONTROL_CONNECTIONS)?;
        Ok(ControlConnections {
            listener,
            slots,
            waiting: None,
            held,
            may_accept: true,
            lacks_descriptors: false,
            has_lines: false,
            first_slot: 0,
        })
    }

    /// Whether the loop must not block: a line can be answered now, or a slot is free and a connection may be waiting at the listener.
    pub(crate) fn is_ready(&self) -> bool {
        let has_work = match &self.waiting {
            Some(waiting) => waiting.has_ended(),
            None => self.has_lines,
        };
        has_work || (self.may_accept && self.slots.has_free() && self.listener.is_some())
    }

    /// How long the loop may block: while a line waits, until the next try to connect to the signer, or (once connected) the next deadline check.
    pub(crate) fn longest_wait(&self) -> Duration {
        match &self.waiting {
            Some(waiting) if waiting.request.is_none() => Duration::from_millis(PAUSE_MILLIS),
            Some(_) => Duration::from_millis(SWEEP_MILLIS),
            None => Duration::MAX,
        }
    }

    /// While the last HTTP answers are sent: forgets lines that came, so that the next poll blocks, and closes the connection of a waiting line.
    pub(crate) fn stop(&mut self) {
        self.has_lines = false;
        self.waiting = None;
        self.held.clear();
    }

    /// Sends the replies that waited, once the handler says so.
    pub(crate) fn release(&mut self, shared: &mut Shared, handler: &H)
        ensures { IsFalse (H.confirmed handler.now) → self.new ≡ self.old }
    {
        if self.held.is_empty() || !handler.is_confirmed() {
            return;
        }
        for _ in 0..MOST_CONTROL_CONNECTIONS {
            let Some(HeldConnection { slot, connection }) = self.held.pop() else {
                return;
            };
            self.drive(slot, connection, shared);
        }
    }

    /// After lines of a connection were passed to the handler (`was_answered`: it has answered some): sends the replies, unless they wait.
    fn reply_on(
        &mut self,
        slot: usize,
        mut connection: ControlConnection<UnixStream>,
        was_answered: bool,
        shared: &mut Shared,
        handler: &H,
    )
        ensures { IsTrue was_answered → IsTrue (H.holds handler.now)
            → (self.new ≡ record self.old { held = self.new.held }) × (shared.new ≡ shared.old) }
    {
        if was_answered && handler.holds_replies() {
            // A client that has hung up already is reported by the next poll, as the connection is registered again.
            let _ = register(slot, &mut connection, Interest::READABLE, &shared.poller);
            // The vector has capacity for each slot.
            let _ = self.held.push(HeldConnection { slot, connection });
        } else {
            self.drive(slot, connection, shared);
        }
    }

    /// Fills free slots. After a signal or a lack of descriptors, the next call tries again; after another error, only once the listener is ready.
    pub(crate) fn accept_all(&mut self, shared: &mut Shared) {
        if self.lacks_descriptors {
            self.lacks_descriptors = false;
            self.may_accept = true;
        }
        for _ in 0..MOST_CONTROL_CONNECTIONS {
            if !self.may_accept || !self.slots.has_free() {
                return;
            }
            let Some(connection) = self.accept(shared.alloc) else {
                return;
            };
            if let Some(slot) = self.slots.free.pop() {
                self.drive(slot, connection, shared);
            }
        }
    }

    fn accept(&mut self, alloc: Global) -> Option<ControlConnection<UnixStream>> {
        let Some(listener) = &self.listener else {
            return None;
        };
        match listener.accept() {
            Ok((stream, _)) => Some(ControlConnection::new(alloc, stream)),
            Err(error) => {
                self.may_accept = error.kind() == ErrorKind::Interrupted;
                self.lacks_descriptors = is_out_of_descriptors(&error);
                None
            }
        }
    }

    /// Sends or receives on the connection in a slot. If its replies wait, closes it once its client has hung up: other clients need the slot.
    pub(crate) fn advance(&mut self, slot: usize, has_hung_up: bool, shared: &mut Shared) {
        if let Some(connection) = self.slots.take(slot) {
            self.drive(slot, connection, shared);
        } else if has_hung_up {
            self.close_held(slot, shared);
        }
    }

    fn close_held(&mut self, slot: usize, shared: &mut Shared) {
        if let Some(index) = self.held.iter().position(|held| held.slot == slot) {
            let HeldConnection { connection, .. } = self.held.swap_remove(index);
            let why = connection.loss();
            self.close_lost(slot, connection, shared, why);
        }
    }

    /// Sends or receives on a connection that was taken out of its slot, and puts it back unless it is to be closed.
    fn drive(
        &mut self,
        slot: usize,
        mut connection: ControlConnection<UnixStream>,
        shared: &mut Shared,
    ) {
        match connection.advance(shared.read_buffer.as_mut_slice()) {
            NextStep::Due => {
                self.has_lines = true;
                self.slots.put(slot, connection);
            }
            NextStep::Poll(interest) => {
                if register(slot, &mut connection, interest, &shared.poller) {
                    self.slots.put(slot, connection);
                } else {
                    // The poller failed. Reported even if no reply is unsent: the client may be about to send a line.
                    let why = Some(ConnectionFault::Broken);
                    self.close_lost(slot, connection, shared, why);
                }
            }
            // Only HTTP connections are parked.
            NextStep::Park => self.slots.put(slot, connection),
            NextStep::Close => {
                let why = connection.loss();
                self.close_lost(slot, connection, shared, why);
            }
        }
    }

    /// Closes a connection. If it is lost (`why` is not `None`), reports that; a client of a Unix socket has no address (`client: None`).
    fn close_lost(
        &mut self,
        slot: usize,
        connection: ControlConnection<UnixStream>,
        shared: &mut Shared,
        why: Option<ConnectionFault>,
    ) {
        if let Some(why) = why {
            shared
                .lost
                .add_fault_report(ConnectionFaultReport { client: None, why });
        }
        self.close(slot, connection);
    }

    fn close(&mut self, slot: usize, connection: ControlConnection<UnixStream>)
        ensures { self.new.has_lines ≡ self.old.has_lines }
    {
        drop(connection);
        self.slots.release(slot);
    }

    /// Answers lines of each connection; while a line waits for a signature, only that line. `now` is in milliseconds of the handler's clock.
    #[tactic(auto, using(crate::proofs::Exchanges::exchanged_none))]
    pub(crate) fn answer_all_lines(
        &mut self,
        shared: &mut Shared,
        handler: &mut H,
        now: u64,
    ) -> Result<(), EventLoopFault>
        ensures lines { AnsweredLines H.Handler handler.old handler.new }
        ensures fails { OnErr result H.failed }
    {
        if let Some(waiting) = self.waiting.take() {
            return self.advance_waiting_line(waiting, shared, handler, now);
        }
        if !self.has_lines {
            return Ok(());
        }
        self.has_lines = false;
        let first = self.first_slot;
        for turn in 0..MOST_CONTROL_CONNECTIONS {
            let slot = first.wrapping_add(turn) % MOST_CONTROL_CONNECTIONS;
            self.answer_lines_at(slot, shared, handler, now)?;
        }
        Ok(())
    }

    /// Answers the waiting line once its signature request has ended or failed, or its time is up. Before that, connects to the signer if need be.
    #[tactic(auto, using(crate::proofs::Exchanges::exchanged_none))]
    fn advance_waiting_line(
        &mut self,
        mut waiting: WaitingLine<H>,
        shared: &mut Shared,
        handler: &mut H,
        now: u64,
    ) -> Result<(), EventLoopFault>
        ensures lines { AnsweredLines H.Handler handler.old handler.new }
        ensures fails { OnErr result H.failed }
    {
        if waiting.is_due(now) {
            let (slot, mut connection, deferred, request) = waiting.into_parts();
            // `desk` has connections here only with a control socket. But the contracts of `answer_deferred` and `answer_lines` require the check.
            if !handler.has_control_socket() {
                self.close(slot, connection);
                return Ok(());
            }
            let before = connection.arrived.len();
            let line_answered = connection.answer_deferred(handler, deferred, request);
            let was_answered = connection.arrived.len() < before;
            self.reply_on(slot, connection, was_answered, shared, handler);
            return line_answered;
        }
        waiting.connect_and_send(handler, &shared.poller);
        self.waiting = Some(waiting);
        Ok(())
    }

    /// Answers lines of the connection in a slot, unless another connection's line waits. If the first line needs a signature, it waits from now on.
    #[tactic(auto, using(crate::proofs::Exchanges::exchanged_none))]
    fn answer_lines_at(
        &mut self,
        slot: usize,
        shared: &mut Shared,
        handler: &mut H,
        now: u64,
    ) -> Result<(), EventLoopFault>
        ensures lines { AnsweredLines H.Handler handler.old handler.new }
        ensures fails { OnErr result H.failed }
    {
        if self.waiting.is_some() {
            self.has_lines = true;
            return Ok(());
        }
        let Some(mut connection) = self.slots.take(slot) else {
            return Ok(());
        };
        match connection.defer(handler) {
            Some(deferred) => {
                let mut waiting = WaitingLine::new(slot, connection, deferred, now);
                waiting.connect_and_send(handler, &shared.poller);
                self.waiting = Some(waiting);
                self.first_slot = slot.wrapping_add(1);
                Ok(())
            }
            None => {
                if !handler.has_control_socket() {
                    self.close(slot, connection);
                    return Ok(());
                }
                let before = connection.arrived.len();
                let line_answered = connection.answer_lines(handler);
                let was_answered = connection.arrived.len() < before;
                self.reply_on(slot, connection, was_answered, shared, handler);
                line_answered
            }
        }
    }
}

fn register(
    slot: usize,
    connection: &mut ControlConnection<UnixStream>,
    interest: Interest,
    poller: &Poller,
) -> bool {
    let ControlConnection {
        stream,
        is_registered,
        ..
    } = connection;
    poller.register_again(
        stream,
        slot.saturating_add(FIRST_CONTROL),
        interest,
        is_registered,
    )
}
