//! The event loop: it polls the listeners and connections, and has the handler answer HTTP requests and control lines.

ghost use Rattle.std.specs.Prelude.{◌≡◌, ◌≤◌, ◌<◌, ◌+◌, ◌⊎◌, ℕ, OnErr, OnOk};
ghost use Rattle.reg_desk_server.specs.Failures.{EndsEarly};
ghost use Rattle.reg_desk_server.specs.Handling.{Handled, HandledAndWorked};

use crate::acceptor::Acceptor;
use crate::control_connections::ControlConnections;
use crate::handler::{ConnectionCounts, EventLoopFault, Handler};
use crate::http_connection::HttpConnection;
use crate::http_connections::{HttpConnections, MOST_HTTP_CONNECTIONS, SWEEP_MILLIS};
use crate::poller::{
    CONTROL_LISTENER, FIRST_CONTROL, FIRST_HTTP, FIRST_SIGNATURE, HTTP_LISTENER, LINE_SIGNER,
    MOST_SIGNATURES, Ready,
};
use crate::shared::{ConnectionFaultReport, Shared};
use crate::signature_requests::{PendingSignature, Requester, SignatureRequests, TIMEOUT_MILLIS};
use mio::net::{TcpListener, TcpStream, UnixListener};
use reg_crl_signer::SignatureRequest;
use std::alloc::AllocGlobal;
use std::io;
use std::io::ErrorKind;
use std::net::Net;
use std::time::Duration;

/// The most seconds that the loop blocks if no HTTP connection is open (an open one may time out) and no accept waits for a file descriptor.
const IDLE_SECS: u64 = 3_600;

/// The event loop of one thread, with all connections that a handler answers. `signatures`: the requested and queued signatures of HTTP answers.
#[derive(Drop)]
pub struct EventLoop<H: Handler> {
    shared: Shared,
    acceptor: Acceptor,
    http: HttpConnections<H>,
    control: ControlConnections<H>,
    signatures: SignatureRequests,
}

impl<H: Handler> EventLoop<H> {
    /// An event loop over two non-blocking listeners: for HTTP connections, of which it has room for `slots`, and, if there is a control socket, for
    /// control connections. Errors: the system's, if there is no poller or the listeners can't be polled; `OutOfMemory`. `rt`: the system's calls.
    pub fn new(
        rt: &(impl Net + AllocGlobal),
        listener: TcpListener,
        control: Option<UnixListener>,
        slots: usize,
    ) -> io::Result<EventLoop<H>> {
        let shared = Shared::new(rt, slots)?;
        let acceptor = Acceptor::new(listener, &shared.poller)?;
        let control = ControlConnections::new(shared.alloc, control, &shared.poller)?;
        let http = HttpConnections::new(shared.alloc, slots)?;
        let signatures = SignatureRequests::new(shared.alloc)?;
        Ok(EventLoop {
            shared,
            acceptor,
            http,
            control,
            signatures,
        })
    }

    /// Answers HTTP requests until their count `answered` is `limit`, and control lines meanwhile. Each accepted HTTP connection is one request.
    /// The handler gets it once: when it is whole, nothing more of it comes, its time is up, or its connection is evicted. If its answer needs a
    /// signature, the loop requests that, and only this client waits. In each iteration, the handler works before anything is answered.
    /// [`EventLoopFault`] if the system failed, if the handler ends the loop, or after 2^64 - 1 iterations.
    #[tactic(auto, using(crate::proofs::Exchanges::exchanged_none))]
    pub fn serve_all(
        &mut self,
        handler: &mut H,
        answered: &mut u64,
        limit: u64,
    ) -> Result<(), EventLoopFault>
        requires { answered.old ≤ limit }
        ensures exchanged { HandledAndWorked H.Handler handler.old handler.new answered.old answered.new }
        ensures all { OnOk result (answered.new ≡ limit) }
        ensures early { OnErr result (EndsEarly H.failed H.waited ⊎ H.ends_loop handler.new) }
    {
        let mut until_work = 0;
        for _ in 0..u64::MAX {
            if *answered == limit {
                return Ok(());
            }
            let now = self.poll(handler, limit, until_work)?;
            self.shared.lost.report(handler);
            handler.keep_counts(self.connections());
            self.finish_all(handler, now);
            until_work = handler.work(self.shared.poller.registry(), now)?;
            self.control
                .answer_all_lines(&mut self.shared, handler, now)?;
            self.http.wake();
            let outcome = self.answer_all(handler, answered, limit, now);
            self.request_all(handler, now);
            self.control.release(&mut self.shared, handler);
            outcome?;
        }
        Err(EventLoopFault)
    }

    /// Closes the HTTP connections that still receive a request, without an answer. Finishes and sends the answers of the others, until no HTTP
    /// connection is left. Answers no more control lines. Reports lost connections to the handler. [`EventLoopFault`] if the system failed.
    pub fn finish(&mut self, handler: &H) -> Result<(), EventLoopFault> {
        // With this limit, no more HTTP connections are accepted.
        let limit = self.acceptor.accepted;
        self.http.close_all_receiving(&mut self.shared);
        for _ in 0..u64::MAX {
            self.shared.lost.report(handler);
            if self.http.slots.reserved() == 0 {
                return Ok(());
            }
            let now = self.poll(handler, limit, u64::MAX)?;
            self.finish_all(handler, now);
            self.request_all(handler, now);
            self.http.close_due(&mut self.shared);
            // The poll may have read control lines. If they stayed due, the next poll wouldn't block.
            self.control.stop();
        }
        Ok(())
    }

    fn connections(&self) -> ConnectionCounts {
        ConnectionCounts {
            open_http: self.http.slots.reserved(),
            open_control: self.control.slots.reserved(),
            accepted: self.acceptor.accepted,
        }
    }

    /// Waits for events, at most `until_work` milliseconds, then reads, writes and accepts, and ends connections whose time is up. Returns the
    /// handler's clock (`now`), in milliseconds.
    fn poll(&mut self, handler: &H, limit: u64, until_work: u64) -> Result<u64, EventLoopFault>
        ensures ok { OnOk result ((count : ℕ) → H.waited count → H.waited (count + 1)) }
        ensures fails { OnErr result H.failed }
    {
        let longest = self
            .longest_wait(limit)
            .min(Duration::from_millis(until_work));
        self.shared.poller.poll(handler, longest)?;
        let now = handler.millis()?;
        for index in 0..self.shared.poller.ready.len() {
            if let Some(ready) = self.shared.poller.ready.get(index).copied() {
                self.advance(ready, now);
            }
        }
        if self.acceptor.lacks_descriptors || self.control.lacks_descriptors {
            self.signatures.close_idle();
        }
        self.control.accept_all(&mut self.shared);
        self.acceptor
            .accept_all(limit, &mut self.http, &mut self.shared, handler, now)?;
        self.http.sweep(&mut self.shared, now);
        Ok(now)
    }

    fn longest_wait(&mut self, limit: u64) -> Duration {
        let for_signatures = self
            .signatures
            .longest_wait()
            .min(self.control.longest_wait());
        let has_work = !self.http.due.is_empty() || !self.shared.lost.unreported.is_empty();
        if self.acceptor.is_ready(limit) || self.control.is_ready() || has_work {
            return Duration::ZERO;
        }
        let lacks_descriptors = self.acceptor.lacks_descriptors || self.control.lacks_descriptors;
        let idle = if self.http.slots.reserved() == 0 && !lacks_descriptors {
            Duration::from_secs(IDLE_SECS)
        } else {
            Duration::from_millis(SWEEP_MILLIS)
        };
        idle.min(for_signatures)
    }

    fn advance(&mut self, ready: Ready, now: u64) {
        let Ready { token, has_hung_up } = ready;
        if token == HTTP_LISTENER {
            self.acceptor.mark_ready();
        } else if token == CONTROL_LISTENER {
            self.control.may_accept = true;
        } else if token < FIRST_SIGNATURE {
            let slot = token.saturating_sub(FIRST_CONTROL);
            self.control.advance(slot, has_hung_up, &mut self.shared);
        } else if token < LINE_SIGNER {
            self.signatures
                .advance(token.saturating_sub(FIRST_SIGNATURE));
        } else if token == LINE_SIGNER {
            if let Some(waiting) = &mut self.control.waiting {
                waiting.advance(&self.shared.poller);
            }
        } else if let Some(slot) = token.checked_sub(FIRST_HTTP) {
            self.http.advance(slot, &mut self.shared, now);
        }
        // The token is `HANDLER`: the handler works in each iteration.
    }

    fn answer_all(
        &mut self,
        handler: &mut H,
        answered: &mut u64,
        limit: u64,
        now: u64,
    ) -> Result<(), EventLoopFault>
        requires { answered.old ≤ limit }
        ensures exchanged { Handled H.Handler handler.old handler.new answered.old answered.new }
        ensures within { answered.new ≤ limit }
        ensures fails { OnErr result H.failed }
    {
        for index in 0..self.http.due.len() {
            if *answered == limit {
                return Ok(());
            }
            self.answer_due(index, handler, answered, now)?;
        }
        self.http.due.clear();
        Ok(())
    }

    /// Answers the connection whose slot is at this index of `due`, if it still receives, unless its request waits. Sends the answer, or has it signed
    /// first.
    #[tactic(auto, using(crate::proofs::Exchanges::exchanged_none))]
    fn answer_due(
        &mut self,
        index: usize,
        handler: &mut H,
        answered: &mut u64,
        now: u64,
    ) -> Result<(), EventLoopFault>
        requires { answered.old < 18446744073709551615 }
        ensures exchanged { Handled H.Handler handler.old handler.new answered.old answered.new }
        ensures one { answered.new ≤ answered.old + 1 }
        ensures fails { OnErr result H.failed }
    {
        let Some(slot) = self.http.due.get(index).copied() else {
            return Ok(());
        };
        let Some(mut connection) = self.http.slots.take(slot) else {
            return Ok(());
        };
        if connection.waits(handler, now) {
            self.http.put_waiting(slot, connection);
            return Ok(());
        }
        let before = connection.unsent();
        // Even after a fault, such as a timeout, the handler answers what was received.
        if let Some(why) = connection.record_fault(now) {
            let client = Some(connection.client);
            self.shared
                .lost
                .add_fault_report(ConnectionFaultReport { client, why });
        }
        match connection.answer(handler, answered, now) {
            Ok(true) => {
                self.wait_for_signature(slot, connection, handler, now);
                Ok(())
            }
            Ok(false) => {
                self.send_on(slot, connection, before, now);
                Ok(())
            }
            Err(stopped) => {
                self.send_on(slot, connection, before, now);
                Err(stopped)
            }
        }
    }

    /// Sends a connection's answer; the connection was taken out of its slot. `before`: how many of its unsent bytes were counted before this answer.
    fn send_on(
        &mut self,
        slot: usize,
        connection: HttpConnection<TcpStream, H>,
        before: usize,
        now: u64,
    ) {
        self.http.count_unsent(before, connection.unsent());
        self.http.drive(slot, connection, &mut self.shared, now);
        self.http.limit_unsent(slot, &mut self.shared);
    }

    fn wait_for_signature(
        &mut self,
        slot: usize,
        connection: HttpConnection<TcpStream, H>,
        handler: &H,
        now: u64,
    ) {
        let number = connection.number;
        let requester = Requester { slot, number };
        self.http.slots.put(slot, connection);
        // Out of memory for the queue: the answer is finished without a signature (`None`).
        if !self.signatures.add(requester, now) {
            self.complete(requester, &mut None, handler, now);
        }
    }

    fn request_all(&mut self, handler: &H, now: u64) {
        for _ in 0..MOST_HTTP_CONNECTIONS {
            match self.signatures.next(now) {
                Some((pending, index)) => self.request_next(pending, index, handler, now),
                None => return,
            }
        }
    }

    /// Requests a queued signature. If it was queued before `now` and its client has half-closed (so is taken to be gone), closes the connection.
    fn request_next(&mut self, pending: PendingSignature, index: usize, handler: &H, now: u64) {
        // A deadline is `TIMEOUT_MILLIS` after the moment at which the signature was queued.
        let has_waited = pending.deadline < now.saturating_add(TIMEOUT_MILLIS);
        if has_waited
            && self
                .http
                .close_if_ended(pending.requester, &mut self.shared, now)
        {
            return;
        }
        self.request(pending, index, handler, now);
    }

    /// Requests the signature of an answer. `index`: of a free place in `signatures`, at which an idle connection to the signer may be kept.
    fn request(&mut self, pending: PendingSignature, index: usize, handler: &H, now: u64) {
        let requester = pending.requester;
        let kept = self.signatures.take(index);
        match self.http.request_signature(requester, handler, kept) {
            Ok(request) => {
                let poller = &self.shared.poller;
                if !self.signatures.put(index, pending, request, poller) {
                    self.complete(requester, &mut None, handler, now);
                }
            }
            // The signer's backlog is full, or no descriptor is left.
            Err(error) if error.kind() == ErrorKind::WouldBlock => {
                if !self.signatures.requeue(pending, now) {
                    self.complete(requester, &mut None, handler, now);
                }
            }
            Err(_) => self.complete(requester, &mut None, handler, now),
        }
    }

    /// Finishes the answers whose signatures came or whose time is up; drops signature requests whose HTTP connections no longer wait.
    fn finish_all(&mut self, handler: &H, now: u64) {
        for index in 0..MOST_SIGNATURES {
            self.finish_at(index, handler, now);
        }
        for _ in 0..MOST_HTTP_CONNECTIONS {
            match self.signatures.take_expired(now) {
                Some(expired) => self.complete(expired.requester, &mut None, handler, now),
                None => return,
            }
        }
    }

    fn finish_at(&mut self, index: usize, handler: &H, now: u64) {
        let Some(pending) = self.signatures.pending(index) else {
            return;
        };
        let PendingSignature {
            requester,
            deadline,
        } = pending;
        // Whether the signature came, or the connection to the signer ended without one.
        let has_arrived = self.signatures.has_arrived(index);
        let is_awaited = deadline > now && self.http.is_waiting(requester);
        if is_awaited && !has_arrived {
            return;
        }
        let request = self.signatures.take(index);
        let mut arrived = if has_arrived { request } else { None };
        if is_awaited && failed_unanswered(&arrived) {
            // The kept connection to the signer had failed, as after the signer's restart. Its place is empty now, so this call opens a new one.
            self.request(pending, index, handler, now);
            return;
        }
        self.complete(requester, &mut arrived, handler, now);
        self.signatures.keep(index, arrived, &self.shared.poller);
    }

    /// Finishes the answer of a waiting connection with the signature that `request` brought, or without one, and sends it.
    fn complete(
        &mut self,
        requester: Requester,
        request: &mut Option<SignatureRequest>,
        handler: &H,
        now: u64,
    ) {
        if let Some(mut connection) = self.http.take_waiting(requester) {
            connection.complete(handler, request, now);
            self.send_on(requester.slot, connection, 0, now);
        }
    }
}

fn failed_unanswered(request: &Option<SignatureRequest>) -> bool {
    match request {
        Some(request) => request.failed_unanswered(),
        None => false,
    }
}
