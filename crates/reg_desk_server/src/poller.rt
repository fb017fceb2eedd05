//! The poller, which reports the sockets that are ready; their tokens; and the errors of a system without free file descriptors.

ghost use Rattle.std.specs.Prelude.{◌≡◌, ◌+◌, ℕ, [], IfOk, MatchBool, OnErr, OnOk, true};
ghost use Rattle.std.specs.IoError.{error_kind};
ghost use Rattle.reg_desk_server.specs.Failures.{IsOutOfDescriptors};

use crate::handler::{EventLoopFault, Handler};
use mio::event::Source;
use mio::{Events, Interest, Poll, Registry, Token};
use std::alloc::AllocGlobal;
use std::io;
use std::io::ErrorKind;
use std::net::Net;
use std::time::Duration;

const MOST_EVENTS: usize = 1_024;

/// The error numbers for too many open files: in this process (EMFILE), in the system (ENFILE).
const EMFILE: i32 = 24;

const ENFILE: i32 = 23;

/// How many signatures for HTTP answers can be awaited at the same time.
pub(crate) const MOST_SIGNATURES: usize = 32;

/// Tokens name sockets. `FIRST_..` is the first of several, such as 8 control connections. `LINE_SIGNER`: a control line's connection to the signer.
/// `HANDLER`: the connection of the handler itself.
pub(crate) const HTTP_LISTENER: usize = 0;

pub(crate) const CONTROL_LISTENER: usize = 1;

pub(crate) const FIRST_CONTROL: usize = 2;

pub(crate) const FIRST_SIGNATURE: usize = 10;

pub(crate) const LINE_SIGNER: usize = FIRST_SIGNATURE + MOST_SIGNATURES;

pub(crate) const HANDLER: usize = LINE_SIGNER + 1;

pub(crate) const FIRST_HTTP: usize = HANDLER + 1;

/// A socket that a poll found ready. `has_hung_up`: its peer neither sends nor receives any more.
#[derive(Clone, Copy)]
pub(crate) struct Ready {
    pub(crate) token: usize,
    pub(crate) has_hung_up: bool,
}

/// Polls the registered sockets. `ready` are those that the last poll found ready, at most `MOST_EVENTS`; a later poll finds others.
#[derive(Drop)]
pub(crate) struct Poller {
    poll: Poll,
    events: Events,
    pub(crate) ready: Vec<Ready>,
}

impl Poller {
    pub(crate) fn new(rt: &(impl Net + AllocGlobal)) -> io::Result<Poller>
        ensures { IfOk result (λ poller. poller.ready.items ≡ []) }
    {
        let alloc = rt.alloc();
        let ready = Vec::with_capacity(alloc, MOST_EVENTS)?;
        let events = Events::with_capacity(alloc, MOST_EVENTS)?;
        let poll = Poll::new(rt)?;
        Ok(Poller {
            poll,
            events,
            ready,
        })
    }

    pub(crate) fn registry(&self) -> &Registry {
        self.poll.registry()
    }

    pub(crate) fn register<S: Source>(
        &self,
        source: &mut S,
        token: usize,
        interest: Interest,
        was_registered: bool,
    ) -> io::Result<()>
        ensures { S.keeps source.old source.new }
    {
        let registry = self.poll.registry();
        if was_registered {
            registry.reregister(source, Token(token), interest)
        } else {
            registry.register(source, Token(token), interest)
        }
    }

    /// Registers a socket, or registers it again if `is_registered` is set. Sets `is_registered` even if that fails. Returns whether it succeeded.
    pub(crate) fn register_again<S: Source>(
        &self,
        source: &mut S,
        token: usize,
        interest: Interest,
        is_registered: &mut bool,
    ) -> bool
        ensures kept { S.keeps source.old source.new }
        ensures registered { is_registered.new ≡ true }
    {
        let was_registered = *is_registered;
        *is_registered = true;
        self.register(source, token, interest, was_registered)
            .is_ok()
    }

    pub(crate) fn poll<H: Handler>(
        &mut self,
        handler: &H,
        longest: Duration,
    ) -> Result<(), EventLoopFault>
        ensures ok { OnOk result ((count : ℕ) → H.waited count → H.waited (count + 1)) }
        ensures err { OnErr result H.failed }
    {
        // The handler makes the call, so that contracts can count its waits (`Handler::waited`).
        handler.wait(&mut self.poll, &mut self.events, longest)?;
        self.ready.clear();
        for event in &self.events {
            let Token(token) = event.token();
            let has_hung_up = event.is_write_closed();
            // The vector has capacity for each event.
            let _ = self.ready.push(Ready { token, has_hung_up });
        }
        Ok(())
    }
}

pub(crate) fn is_out_of_descriptors(error: &io::Error) -> bool
    ensures { MatchBool result (IsOutOfDescriptors error.now) (IsOutOfDescriptors error.now → ⊥) }
{
    match error.raw_os_error() {
        Some(EMFILE | ENFILE) => true,
        _ => false,
    }
}

/// The error of a call that opens a descriptor: `WouldBlock` if none is left, as the call can succeed once a file is closed; else `error` itself.
pub fn as_would_block(error: io::Error) -> io::Error
    ensures none_left { IsOutOfDescriptors error → error_kind result ≡ ErrorKind.WouldBlock }
    ensures other { (IsOutOfDescriptors error → ⊥) → result ≡ error }
{
    if is_out_of_descriptors(&error) {
        return io::Error::from(ErrorKind::WouldBlock);
    }
    error
}
