//! Accepts HTTP connections at the TCP port, and gives each one a slot: its place among the open connections.

ghost use Rattle.std.specs.Prelude.{◌≡◌, ◌≤◌, IfOk, OnErr, false, true};
ghost use Rattle.reg_desk_server.specs.Failures.{AcceptFails};

use crate::handler::{EventLoopFault, Handler};
use crate::http_connection::HttpConnection;
use crate::http_connections::HttpConnections;
use crate::poller::{HTTP_LISTENER, Poller, is_out_of_descriptors};
use crate::shared::Shared;
use mio::Interest;
use mio::net::{TcpListener, TcpStream};
use std::io;
use std::io::ErrorKind;
use std::net::SocketAddr;

const MOST_ACCEPTS: usize = 64;

/// The listener; the accepted connection that has no slot yet (`next`), if there is one; and how many were `accepted`: the number of the last one.
#[derive(Drop)]
pub(crate) struct Acceptor {
    listener: TcpListener,
    next: Option<(TcpStream, SocketAddr)>,
    /// Whether another connection may be waiting at the listener.
    may_have_more: bool,
    /// Whether a connection is expected: since the last accept the listener became ready, or its registration failed. Else no error evicts another.
    expects_more: bool,
    /// Whether no file descriptor was left for a waiting connection, and no HTTP connection was open that could be closed to free one.
    pub(crate) lacks_descriptors: bool,
    pub(crate) accepted: u64,
}

impl Acceptor {
    pub(crate) fn new(mut listener: TcpListener, poller: &Poller) -> io::Result<Acceptor>
        ensures { IfOk result (λ acceptor. acceptor.accepted ≡ 0) }
    {
        poller.register(&mut listener, HTTP_LISTENER, Interest::READABLE, false)?;
        Ok(Acceptor {
            listener,
            next: None,
            may_have_more: true,
            expects_more: false,
            lacks_descriptors: false,
            accepted: 0,
        })
    }

    pub(crate) fn mark_ready(&mut self)
        ensures { self.new.expects_more ≡ true }
    {
        self.may_have_more = true;
        self.expects_more = true;
    }

    /// Whether `accept_all` has work: a connection has no slot yet, or another may be waiting and fewer than `limit` were accepted in all.
    pub(crate) fn is_ready(&self, limit: u64) -> bool {
        self.next.is_some() || (self.may_have_more && self.accepted < limit)
    }

    /// Accepts connections until `limit` were accepted in all; at most [`MOST_ACCEPTS`] in one call. `now`: milliseconds of the handler's clock.
    /// Evicts an open connection if no slot is free. Does so also if accept(2) fails while a connection is expected, unless a signal came, the client
    /// is gone or no client waits. If no connection is open then: [`EventLoopFault`]; but after a lack of descriptors, the next call tries again.
    pub(crate) fn accept_all<H: Handler>(
        &mut self,
        limit: u64,
        connections: &mut HttpConnections<H>,
        shared: &mut Shared,
        handler: &H,
        now: u64,
    ) -> Result<(), EventLoopFault>
        ensures within { self.old.accepted ≤ limit → self.new.accepted ≤ limit }
        ensures fails { OnErr result H.failed }
    {
        self.retry_after_shortage();
        for _ in 0..MOST_ACCEPTS {
            if !self.accept(limit, connections, shared, handler, now)? {
                return Ok(());
            }
        }
        Ok(())
    }

    fn retry_after_shortage(&mut self)
        ensures { self.new.accepted ≡ self.old.accepted }
    {
        if self.lacks_descriptors {
            self.lacks_descriptors = false;
            self.may_have_more = true;
        }
    }

    /// Accepts the next connection, gives it a slot, and reads what has come on it. Returns whether a connection got a slot.
    fn accept<H: Handler>(
        &mut self,
        limit: u64,
        connections: &mut HttpConnections<H>,
        shared: &mut Shared,
        handler: &H,
        now: u64,
    ) -> Result<bool, EventLoopFault>
        ensures within { self.old.accepted ≤ limit → self.new.accepted ≤ limit }
        ensures fails { OnErr result H.failed }
    {
        self.accept_next(limit, connections, shared, handler)?;
        if self.next.is_some() && !connections.slots.has_free() {
            // A later call gives `next` a slot, once the evicted connection has freed one.
            connections.evict(shared);
            return Ok(false);
        }
        match self.next.take() {
            Some((stream, client)) => {
                let connection = HttpConnection::new(
                    shared.alloc,
                    stream,
                    client,
                    self.accepted,
                    now,
                );
                if let Some(slot) = connections.slots.free.pop() {
                    connections.drive(slot, connection, shared, now);
                }
                Ok(true)
            }
            None => Ok(false),
        }
    }

    fn accept_next<H: Handler>(
        &mut self,
        limit: u64,
        connections: &mut HttpConnections<H>,
        shared: &mut Shared,
        handler: &H,
    ) -> Result<(), EventLoopFault>
        ensures within { self.old.accepted ≤ limit → self.new.accepted ≤ limit }
        ensures kept { self.old.expects_more ≡ false → connections.new ≡ connections.old }
        ensures fails { OnErr result H.failed }
    {
        if self.next.is_some() || !self.may_have_more || self.accepted >= limit {
            return Ok(());
        }
        match handler.accept(&self.listener) {
            Ok((stream, client)) => {
                self.accepted += 1;
                self.expects_more = false;
                self.next = Some((stream, client));
                Ok(())
            }
            Err(error) => self.after_accept_error(&error, connections, shared),
        }
    }

    fn after_accept_error<H: Handler>(
        &mut self,
        error: &io::Error,
        connections: &mut HttpConnections<H>,
        shared: &mut Shared,
    ) -> Result<(), EventLoopFault>
        requires { AcceptFails H.failed error.now }
        ensures same { self.new.accepted ≡ self.old.accepted }
        ensures kept { self.old.expects_more ≡ false → connections.new ≡ connections.old }
        ensures fails { OnErr result H.failed }
    {
        match error.kind() {
            ErrorKind::WouldBlock => {
                self.may_have_more = false;
                Ok(())
            }
            ErrorKind::Interrupted | ErrorKind::ConnectionAborted => Ok(()),
            // Perhaps no connection waits: Linux reports a lack of descriptors even if none does.
            _ if !self.expects_more => {
                self.reregister(&shared.poller);
                Ok(())
            }
            _ if connections.slots.reserved() > 0 => {
                connections.evict(shared);
                Ok(())
            }
            _ if is_out_of_descriptors(error) => {
                self.may_have_more = false;
                self.lacks_descriptors = true;
                Ok(())
            }
            _ => Err(EventLoopFault),
        }
    }

    /// Registers the listener again (`true`), so that it is reported as ready if a connection waits. If that fails, assumes that one waits.
    fn reregister(&mut self, poller: &Poller)
        ensures { self.new.accepted ≡ self.old.accepted }
    {
        let is_registered = poller
            .register(&mut self.listener, HTTP_LISTENER, Interest::READABLE, true)
            .is_ok();
        self.may_have_more = !is_registered;
        self.expects_more = !is_registered;
    }
}
