//! One connection at the control socket: receives lines, passes them to the handler in their order, and sends the replies.

ghost use Rattle.std.specs.Prelude.{◌≡◌, ◌+◌, ◌≤◌, ◌<◌, ◌⊎◌, [], length, drop, Some, None, true, false, MatchOption, IfNone, OnOk, OnErr};
ghost use Rattle.reg_desk_server.specs.Buffers.{AddsTo, ReadsToEnd, Receives, unsent_of};
ghost use Rattle.reg_desk_server.specs.LineEnds.{EndsLine, FirstLineEnds, HasNoLine};
ghost use Rattle.reg_desk_server.specs.ControlLines.{Advances, DefersFirstLine, EndsOnlyBy, GathersOn, MayClose, IsFresh, SameStreamAndEnd, StaysEnded, AnswersFirstLines, AnswersDeferred, ends_by, fault_by, loss_of};

use crate::handler::{ConnectionFault, Deferred, EventLoopFault, Handler, LineReplies};
use crate::http_connection::NextStep;
use crate::request_bytes::Received;
use crate::stream::ClientStream;
use crate::unsent::{Sent, Unsent};
use mio::Interest;
use reg_crl_signer::SignatureRequest;
use reg_io::{Source, first_delimiter};
use std::alloc::Global;
use std::io::ErrorKind;

/// A connection that keeps at least this many bytes without an LF is closed. No valid line is so long: with its LF it has at most 8,193 bytes.
const OVERLONG_LINE: usize = 8_194;

const MOST_READS: usize = 4;

/// The most lines that one call passes to the handler. All other connections wait while the handler answers them.
const MOST_LINES: usize = 256;

/// How often at most a line's signature is requested while the loop goes on. After that, answering the line blocks the loop while the signer signs.
const MOST_DEFERRALS: u32 = 3;

/// A client's connection at the control socket.
#[derive(Drop)]
pub struct ControlConnection<S: ClientStream> {
    pub(crate) stream: S,
    /// The bytes that came and were not answered yet.
    pub(crate) arrived: Vec<u8>,
    pub(crate) unsent: Unsent,
    /// Whether nothing more is received: the client has half-closed, a read failed, or there was no memory for what came (only this sets `fault`).
    pub(crate) has_ended: bool,
    pub(crate) fault: Option<ConnectionFault>,
    pub(crate) is_registered: bool,
    /// How often the first line was passed to `Handler::defer` since the last reply.
    pub(crate) deferrals: u32,
    /// The text that the line `why` reports: mostly why the last refused line was refused ([`Handler::answer_lines`]).
    pub(crate) last_reason: Vec<u8>,
}

/// The index after the first line, with its LF; `None` if no line is whole. Searches all bytes, from the index 0 on.
#[tactic(auto, using(crate::proofs::Holdings::found_or_none))]
pub fn line_end(bytes: &[u8]) -> Option<usize>
    ensures { MatchOption result (HasNoLine bytes.now) (λ end. FirstLineEnds bytes.now end) }
{
    first_delimiter(bytes, bytes.len(), b"\n", 0)
}

/// The index after the last whole line, or after the first `MOST_LINES` lines if there are more; `None` if no line is whole.
fn lines_end(bytes: &[u8]) -> Option<usize>
    ensures { MatchOption result (HasNoLine bytes.now) (λ end. EndsLine bytes.now end) }
{
    let mut end = match line_end(bytes) {
        Some(end) => end,
        None => return None,
    };
    for _ in 1..MOST_LINES {
        match line_end(&bytes[end..]) {
            Some(length) => end += length,
            None => return Some(end),
        }
    }
    Some(end)
}

impl<S: ClientStream> ControlConnection<S> {
    /// A connection that was just accepted: nothing came yet, and nothing is to be sent.
    pub fn new(alloc: Global, stream: S) -> ControlConnection<S>
        ensures stream { result.stream ≡ stream }
        ensures fresh { IsFresh result }
    {
        ControlConnection {
            stream,
            arrived: Vec::new(alloc),
            unsent: Unsent::new(Vec::new(alloc)),
            has_ended: false,
            fault: None,
            is_registered: false,
            deferrals: 0,
            last_reason: Vec::new(alloc),
        }
    }

    /// Sends more of the reply without blocking. Once all is sent, reads until a line is whole, in at most `MOST_READS` reads. Returns the next step.
    pub fn advance(&mut self, read_buffer: &mut [u8]) -> NextStep
        ensures advances { Advances S.Write.contents S.Read.remaining self.old self.new }

        ensures ends { 0 < length read_buffer.old
            → EndsOnlyBy S.failed (S.Read.remaining self.new.stream) self.old self.new }
        ensures closes { result ≡ NextStep.Close
            → (unsent_of self.new.unsent ≡ [] → MayClose self.new) }

        // Once the previous reply is sent, a whole line is due, even if the client has half-closed.
        ensures whole { unsent_of self.new.unsent ≡ []
            → (result ≡ NextStep.Due) ⊎ HasNoLine self.new.arrived.items }
    {
        let sent = self.unsent.send_on(&mut self.stream);
        if self.unsent.len() == 0 {
            return self.receive(read_buffer);
        }
        match sent {
            Sent::Broken => NextStep::Close,
            _ => NextStep::Poll(Interest::WRITABLE),
        }
    }

    fn receive(&mut self, read_buffer: &mut [u8]) -> NextStep
        ensures gathers { GathersOn S.Read.remaining self.old self.new }
        ensures ended { StaysEnded self.old self.new }
        ensures ends { 0 < length read_buffer.old
            → EndsOnlyBy S.failed (S.Read.remaining self.new.stream) self.old self.new }
        ensures closes { result ≡ NextStep.Close → MayClose self.new }
        ensures unsent { self.new.unsent ≡ self.old.unsent }
        ensures whole { (result ≡ NextStep.Due) ⊎ HasNoLine self.new.arrived.items }
    {
        for _ in 0..MOST_READS {
            if let Some(next) = self.after_reading() {
                return next;
            }
            if !self.receive_once(read_buffer) {
                return NextStep::Poll(Interest::READABLE);
            }
        }
        // The last read may have completed a line, and its client may send nothing more before the reply.
        match self.after_reading() {
            Some(next) => next,
            None => NextStep::Poll(Interest::READABLE),
        }
    }

    /// The next step if no more is to be read: `Due` if a line is whole, `Close` if the input ended without one or the line is too long. Else `None`.
    fn after_reading(&self) -> Option<NextStep>
        ensures goes_on { IfNone result (self.now.has_ended ≡ false) }
        ensures closes { result ≡ Some NextStep.Close → MayClose self.now }
        ensures whole { (result ≡ Some NextStep.Due) ⊎ HasNoLine self.now.arrived.items }
    {
        match line_end(self.arrived.as_slice()) {
            Some(_) => Some(NextStep::Due),
            None if self.has_ended => Some(NextStep::Close),
            None if self.arrived.len() >= OVERLONG_LINE => Some(NextStep::Close),
            None => None,
        }
    }

    /// Reads once. `false` if the read would block; `true` if another read may give more, or if nothing more is received (`has_ended`).
    fn receive_once(&mut self, read_buffer: &mut [u8]) -> bool
        ensures gathers { GathersOn S.Read.remaining self.old self.new }
        ensures ends { 0 < length read_buffer.old
            → EndsOnlyBy S.failed (S.Read.remaining self.new.stream) self.old self.new }
        ensures unsent { self.new.unsent ≡ self.old.unsent }
        ensures waits { result ≡ false → self.new.arrived.items ≡ self.old.arrived.items }
        ensures fault { (self.new.fault ≡ None) ⊎ (self.new.has_ended ≡ true) }
    {
        let received = gather(&mut self.stream, &mut self.arrived, read_buffer);
        self.has_ended = is_end(received);
        self.fault = fault_of(received);
        !matches!(received, Received::Blocked)
    }

    /// Why the connection counts as lost if it is closed now: a reply is not wholly sent, or there was no memory for bytes that came. Else `None`.
    pub(crate) fn loss(&self) -> Option<ConnectionFault>
        ensures { result ≡ loss_of (unsent_of self.now.unsent) self.now.fault }
    {
        if self.unsent.len() > 0 {
            Some(ConnectionFault::Broken)
        } else {
            self.fault
        }
    }

    /// The index after the first line (`due_lines`: after the last, as [`lines_end`]). `None` if no line is whole, or a reply is not wholly sent.
    fn due_line(&self) -> Option<usize>
        ensures { MatchOption result (unsent_of self.now.unsent ≡ [] → HasNoLine self.now.arrived.items)
            (λ end. (unsent_of self.now.unsent ≡ []) × FirstLineEnds self.now.arrived.items end) }
    {
        if self.unsent.len() > 0 {
            return None;
        }
        line_end(self.arrived.as_slice())
    }

    fn due_lines(&self) -> Option<usize>
        ensures { MatchOption result (unsent_of self.now.unsent ≡ [] → HasNoLine self.now.arrived.items)
            (λ end. (unsent_of self.now.unsent ≡ []) × EndsLine self.now.arrived.items end) }
    {
        if self.unsent.len() > 0 {
            return None;
        }
        lines_end(self.arrived.as_slice())
    }

    /// Passes the whole lines, at most `MOST_LINES`, to the handler, which answers the first one or several. Does nothing while a reply is unsent.
    pub fn answer_lines<H: Handler>(&mut self, handler: &mut H) -> Result<(), EventLoopFault>
        requires { H.has_control handler.old }
        ensures ok { OnOk result
            (AnswersFirstLines H.answers_lines handler.old handler.new self.old self.new) }
        ensures kept { SameStreamAndEnd self.old self.new }
        ensures err { OnErr result ((self.new ≡ self.old) × (handler.new ≡ handler.old)) }
        ensures fails { OnErr result H.failed }
    {
        match self.due_lines() {
            None => Ok(()),
            Some(end) => {
                let replies = handler.answer_lines(&self.arrived[..end], &mut self.last_reason)?;
                let LineReplies { length, text } = replies;
                self.reply(text, length);
                Ok(())
            }
        }
    }

    fn reply(&mut self, text: Vec<u8>, end: usize)
        requires { end ≤ length self.old.arrived.items }
        ensures reply { unsent_of self.new.unsent ≡ text.items }
        ensures rest { self.new.arrived.items ≡ drop end self.old.arrived.items }
        ensures kept { SameStreamAndEnd self.old self.new }
    {
        self.unsent = Unsent::new(text);
        drop_prefix(&mut self.arrived, end);
        self.deferrals = 0;
    }

    /// The message that is to be signed before the first line is answered. `None` if the previous reply is not wholly sent, if no line is whole, if
    /// the handler makes no message for the line, or after `MOST_DEFERRALS` calls of the handler since the last reply.
    pub fn defer<H: Handler>(&mut self, handler: &mut H) -> Option<Deferred<H::ControlTicket>>
        ensures looked { DefersFirstLine H.defers handler.old handler.new self.old }
        ensures arrived { self.new.arrived ≡ self.old.arrived }
        ensures unsent { self.new.unsent ≡ self.old.unsent }
        ensures kept { SameStreamAndEnd self.old self.new }
    {
        if self.deferrals >= MOST_DEFERRALS {
            return None;
        }
        match self.due_line() {
            None => None,
            Some(end) => {
                self.deferrals += 1;
                handler.defer(&self.arrived[..end])
            }
        }
    }

    /// Answers the first line, which was deferred, with the signature of `request`, or without one. If another is needed by now, the line stays due.
    pub fn answer_deferred<H: Handler>(
        &mut self,
        handler: &mut H,
        deferred: Deferred<H::ControlTicket>,
        request: Option<SignatureRequest>,
    ) -> Result<(), EventLoopFault>
        requires { H.has_control handler.old }
        ensures ok { OnOk result
            (AnswersDeferred H.answers_lines H.defers handler.old handler.new self.old self.new) }
        ensures kept { SameStreamAndEnd self.old self.new }
        ensures err { OnErr result ((self.new ≡ self.old) × (handler.new ≡ handler.old)) }
        ensures fails { OnErr result H.failed }
    {
        match self.due_line() {
            None => Ok(()),
            Some(end) => {
                let reply_text = handler.answer_deferred(
                    &self.arrived[..end],
                    &mut self.last_reason,
                    deferred,
                    request,
                )?;
                match reply_text {
                    Some(text) => {
                        self.reply(text, end);
                        Ok(())
                    }
                    None => Ok(()),
                }
            }
        }
    }
}

/// Reads once into `read_buffer`, which all connections share, and appends what came to `buffer`.
pub(crate) fn gather<R: Source>(
    reader: &mut R,
    buffer: &mut Vec<u8>,
    read_buffer: &mut [u8],
) -> Received
    ensures receives { Receives (R.remaining reader.old) (R.remaining reader.new)
        buffer.old.items buffer.new.items result }
    ensures ends { 0 < length read_buffer.old → ReadsToEnd R.failed (R.remaining reader.new) result }
    ensures waits { result ≡ Received.Blocked → buffer.new.items ≡ buffer.old.items }
    ensures bounded { length buffer.new.items ≤ length buffer.old.items + length read_buffer.old }
{
    match reader.try_read(read_buffer) {
        Ok(0) => Received::Ended,
        Ok(count) => keep_bytes(buffer, &read_buffer[..count]),
        Err(error) => match error.kind() {
            ErrorKind::WouldBlock => Received::Blocked,
            ErrorKind::Interrupted => Received::More,
            _ => Received::Broken,
        },
    }
}

fn keep_bytes(buffer: &mut Vec<u8>, arrived: &[u8]) -> Received
    ensures adds { AddsTo buffer.old.items arrived.now buffer.new.items result }
    ensures goes { (result ≡ Received.More) ⊎ (result ≡ Received.OutOfMemory) }
    ensures bounded { length buffer.new.items ≤ length buffer.old.items + length arrived.now }
{
    match buffer.extend_from_slice(arrived) {
        Ok(()) => Received::More,
        Err(_) => Received::OutOfMemory,
    }
}

fn is_end(received: Received) -> bool
    ensures { result ≡ ends_by received }
{
    match received {
        Received::Ended => true,
        Received::Broken => true,
        Received::OutOfMemory => true,
        Received::Whole => false,
        Received::Blocked => false,
        Received::More => false,
    }
}

fn fault_of(received: Received) -> Option<ConnectionFault>
    ensures { result ≡ fault_by received }
{
    match received {
        Received::OutOfMemory => Some(ConnectionFault::Memory),
        Received::Ended => None,
        Received::Broken => None,
        Received::Whole => None,
        Received::Blocked => None,
        Received::More => None,
    }
}

fn drop_prefix(bytes: &mut Vec<u8>, count: usize)
    requires { count ≤ length bytes.old.items }
    ensures { bytes.new.items ≡ drop count bytes.old.items }
{
    let left = bytes.len() - count;
    bytes.rotate_left(count);
    bytes.truncate(left);
}
