//! A line of a control connection that waits for a signature, with the connection to the signer.

use crate::control_connection::ControlConnection;
use crate::handler::{Deferred, Handler};
use crate::poller::{LINE_SIGNER, Poller};
use crate::unsent::{Sent, Unsent};
use mio::Interest;
use mio::net::UnixStream;
use reg_crl_signer::SignatureRequest;
use std::io::ErrorKind;

/// How many milliseconds a signature may take, from the event loop's iteration in which its message was made.
const TIMEOUT_MILLIS: u64 = 10_000;

/// The message is not wholly sent; its answer is awaited; the answer has come, or reading it failed; connecting, sending or polling failed.
#[derive(Clone, Copy)]
enum SignatureProgress {
    Sending,
    Waiting,
    Arrived,
    Failed,
}

/// A line that waits. Its client's connection is taken out of `slot` and kept here, so no other client gets the reply. The handler made `ticket`.
#[derive(Drop)]
pub(crate) struct WaitingLine<H: Handler> {
    slot: usize,
    connection: ControlConnection<UnixStream>,
    ticket: H::ControlTicket,
    message: Unsent,
    /// The signature request, once there is a connection to the signer. `is_registered`: whether this connection was registered with the poller.
    pub(crate) request: Option<SignatureRequest>,
    is_registered: bool,
    progress: SignatureProgress,
    /// When the line is answered without a signature, in milliseconds of the handler's clock (`now`).
    deadline: u64,
}

impl<H: Handler> WaitingLine<H> {
    pub(crate) fn new(
        slot: usize,
        connection: ControlConnection<UnixStream>,
        deferred: Deferred<H::ControlTicket>,
        now: u64,
    ) -> WaitingLine<H> {
        WaitingLine {
            slot,
            connection,
            ticket: deferred.ticket,
            message: Unsent::new(deferred.message),
            request: None,
            is_registered: false,
            progress: SignatureProgress::Sending,
            deadline: now.saturating_add(TIMEOUT_MILLIS),
        }
    }

    pub(crate) fn has_ended(&self) -> bool {
        matches!(
            self.progress,
            SignatureProgress::Arrived | SignatureProgress::Failed
        )
    }

    pub(crate) fn is_due(&self, now: u64) -> bool {
        self.has_ended() || self.deadline <= now
    }

    /// The connection to the signer is ready: sends more of the message, or, once that is sent, reads what has come of the answer.
    pub(crate) fn advance(&mut self, poller: &Poller) {
        if !matches!(self.progress, SignatureProgress::Waiting) {
            self.send_on(poller);
            return;
        }
        if let Some(request) = &mut self.request {
            if request.receive() {
                self.progress = SignatureProgress::Arrived;
            }
        }
    }

    /// If there is no connection to the signer yet, connects, and begins to send the message. If connecting would block, a later call tries again.
    pub(crate) fn connect_and_send(&mut self, handler: &H, poller: &Poller) {
        if self.request.is_some() {
            return;
        }
        match handler.connect_to_signer(&self.ticket) {
            Ok(request) => {
                self.request = Some(request);
                self.send_on(poller);
            }
            Err(error) if error.kind() == ErrorKind::WouldBlock => {}
            Err(_) => self.progress = SignatureProgress::Failed,
        }
    }

    /// Sends more of the message, and after its last byte shuts down the sending side (`finish`), by which the signer knows that it is whole.
    fn send_on(&mut self, poller: &Poller) {
        if !matches!(self.progress, SignatureProgress::Sending) {
            return;
        }
        let Some(request) = &mut self.request else {
            return;
        };
        let sent = self.message.send_on(request);
        let is_finished = matches!(sent, Sent::All) && request.finish().is_ok();
        let (progress, interest) = match sent {
            Sent::All if is_finished => (SignatureProgress::Waiting, Interest::READABLE),
            Sent::Blocked | Sent::More => (SignatureProgress::Sending, Interest::WRITABLE),
            Sent::All | Sent::Broken => {
                self.progress = SignatureProgress::Failed;
                return;
            }
        };
        let is_polled = poller.register_again(
            request,
            LINE_SIGNER,
            interest,
            &mut self.is_registered,
        );
        self.progress = if is_polled {
            progress
        } else {
            SignatureProgress::Failed
        };
    }

    /// The slot, the client's connection, the message with its ticket, and the request: `None` if connecting or sending failed, or the time was up.
    pub(crate) fn into_parts(
        self,
    ) -> (
        usize,
        ControlConnection<UnixStream>,
        Deferred<H::ControlTicket>,
        Option<SignatureRequest>,
    ) {
        let WaitingLine {
            slot,
            connection,
            ticket,
            message,
            request,
            progress,
            ..
        } = self;
        let message = message.text;
        let deferred = Deferred { message, ticket };
        match progress {
            SignatureProgress::Arrived => (slot, connection, deferred, request),
            _ => (slot, connection, deferred, None),
        }
    }
}
