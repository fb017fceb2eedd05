//! One connection to a signer process. A persistent connection takes many messages: the next one is sent once the answer to the last was taken.

ghost use Rattle.std.specs.Prelude.{◌≡◌, ◌<◌, ◌≤◌, ◌↔◌, IfNone, IfOk, IfSome, IsTrue, OnErr, length};

use crate::counted_bytes::{LENGTH_BYTES, with_length, without_length};
use crate::signer::LONGEST_ANSWER;
use reg_io::{Sink, Source, write_whole};
use std::alloc::{AllocError, Global};
use std::io::ErrorKind;

/// The most bytes of a message on a persistent connection: 2^24 - 1. So its length begins with a byte 0, by which the signer knows such a connection.
const LONGEST_MESSAGE: usize = 16_777_215;

const READ_BYTES: usize = 512;

/// The most reads of one `receive`. If each gives only one byte, they suffice for the longest answer and its length, a byte too many, and the end.
const MOST_READS: usize = LENGTH_BYTES + LONGEST_ANSWER + 2;

/// How the end of a message, and that of its answer, is found.
#[derive(Clone, Copy, PartialEq, Eq)]
pub enum Framing {
    /// After the message or answer, its sender shuts down that side of the connection. So the connection is for one message.
    ByEnd,
    /// The message or answer comes after its length, which has four bytes, big-endian. So the connection is persistent.
    ByLength,
}

/// The progress of the last message. `Idle`: there was none, or its answer was taken. `Waiting`: its answer is awaited. `Arrived`: its whole answer
/// has come. `Failed`: the connection failed, or the bytes that came are no answer.
#[derive(Clone, Copy, PartialEq, Eq)]
pub enum Progress {
    Idle,
    Waiting,
    Arrived,
    Failed,
}

/// A connection to a signer over `stream`, such as a Unix socket, whose reads and writes don't block.
#[derive(Drop)]
pub struct SignerConnection<S> {
    pub(crate) stream: S,
    framing: Framing,
    progress: Progress,
    /// The bytes that came since the last answer was taken: the next answer as far as it came, after its length if the framing is `ByLength`.
    received: Vec<u8>,
}

impl<S: Drop> SignerConnection<S> {
    ghost use Rattle.reg_crl_signer.specs.SignerConnections.{FailedUnanswered, FailsAfterRead, FramesAnswer, HasEnded, HoldsAnswer, IsNewConnection, LeadsOn, TakesAnswer};

    /// A connection for one message, which the caller sends over `stream`. Its answer counts as awaited from the start.
    pub fn for_one(alloc: Global, stream: S) -> SignerConnection<S>
        ensures { IsNewConnection stream Framing.ByEnd Progress.Waiting result }
    {
        SignerConnection::new(alloc, stream, Framing::ByEnd, Progress::Waiting)
    }

    /// A persistent connection, on which no message was sent.
    pub fn persistent(alloc: Global, stream: S) -> SignerConnection<S>
        ensures { IsNewConnection stream Framing.ByLength Progress.Idle result }
    {
        SignerConnection::new(alloc, stream, Framing::ByLength, Progress::Idle)
    }

    fn new(alloc: Global, stream: S, framing: Framing, progress: Progress) -> SignerConnection<S>
        ensures { IsNewConnection stream framing progress result }
    {
        SignerConnection {
            stream,
            framing,
            progress,
            received: Vec::new(alloc),
        }
    }

    /// Whether the connection is persistent and awaits no answer, so that the next message may be sent.
    pub fn is_idle(&self) -> bool
        ensures { IsTrue result ↔ ((self.now.framing ≡ Framing.ByLength)
            × (self.now.progress ≡ Progress.Idle)) }
    {
        self.framing == Framing::ByLength && self.progress == Progress::Idle
    }

    /// Whether the whole answer has arrived, or the progress is `Failed`.
    pub fn has_ended(&self) -> bool
        ensures { IsTrue result ↔ HasEnded self.now.progress }
    {
        match self.progress {
            Progress::Idle | Progress::Waiting => false,
            Progress::Arrived | Progress::Failed => true,
        }
    }

    /// Whether the connection is persistent and failed before a byte of the answer was stored in `received`, as when the signer process has ended.
    pub fn failed_unanswered(&self) -> bool
        ensures { IsTrue result ↔ FailedUnanswered self.now }
    {
        self.framing == Framing::ByLength
            && self.progress == Progress::Failed
            && self.received.is_empty()
    }

    /// Takes the answer, if it has arrived (else `Ok(None)`). After that a persistent connection is idle (`is_idle`).
    pub fn take_answer(&mut self, alloc: Global) -> Result<Option<Vec<u8>>, AllocError>
        ensures taken { IfOk result (λ taken. IfSome taken
            (λ answer. TakesAnswer self.old self.new answer.items)) }
        ensures short { IfOk result (λ taken. IfSome taken (λ answer. length answer.items ≤ 4096)) }
        ensures none { IfOk result (λ taken. IfNone taken
            (¬ ((self.old.progress ≡ Progress.Arrived) × HoldsAnswer self.old))) }
        ensures same { IfOk result (λ taken. IfNone taken (self.new ≡ self.old)) }
        ensures memory { OnErr result (self.new ≡ self.old) }
    {
        if self.progress != Progress::Arrived {
            return Ok(None);
        }
        let answer = match self.answer() {
            Some(answer) => Vec::from_slice(alloc, answer)?,
            None => return Ok(None),
        };
        self.progress = Progress::Idle;
        self.received.clear();
        Ok(Some(answer))
    }

    /// The received bytes as a whole answer. `None` if they are no whole answer, or if it has more than 4,096 bytes.
    fn answer(&self) -> Option<&[u8]>
        ensures is { IfSome result (λ answer.
            FramesAnswer self.now.framing self.now.received.items answer.now) }
        ensures short { IfSome result (λ answer. length answer.now ≤ 4096) }
        ensures none { IfNone result (¬ HoldsAnswer self.now) }
    {
        let answer = match self.framing {
            Framing::ByEnd => self.received.as_slice(),
            Framing::ByLength => without_length(&self.received)?,
        };
        if answer.len() > LONGEST_ANSWER {
            return None;
        }
        Some(answer)
    }

    /// The progress after a read: more bytes came, or (`is_at_end`) the signer has ended its side of the connection.
    fn progress_after(&self, is_at_end: bool) -> Progress
        ensures leads { LeadsOn self.now.progress result }
        ensures not_idle { ¬ (result ≡ Progress.Idle) }
        ensures ended { result ≡ Progress.Arrived → self.now.framing ≡ Framing.ByEnd → IsTrue is_at_end }
        ensures whole { result ≡ Progress.Arrived → HoldsAnswer self.now }
        ensures failed { result ≡ Progress.Failed → self.now.progress ≡ Progress.Waiting
            → FailsAfterRead self.now is_at_end }
        ensures waits { result ≡ Progress.Waiting
            → ¬ (IsTrue is_at_end) × (length self.now.received.items ≤ 4100) }
        ensures partial { result ≡ Progress.Waiting → self.now.framing ≡ Framing.ByLength
            → ¬ HoldsAnswer self.now }
        ensures unawaited { ¬ (self.now.progress ≡ Progress.Waiting) → result ≡ Progress.Failed }
    {
        // No answer is awaited: the connection has ended, or bytes came to which no message belongs.
        if self.progress != Progress::Waiting {
            return Progress::Failed;
        }
        // An answer `ByEnd` is whole only once the connection has ended, one `ByLength` only while it has not.
        let is_whole = is_at_end == (self.framing == Framing::ByEnd) && self.has_answer();
        if is_whole {
            Progress::Arrived
        } else if is_at_end || self.received.len() > LENGTH_BYTES + LONGEST_ANSWER {
            Progress::Failed
        } else {
            Progress::Waiting
        }
    }

    fn has_answer(&self) -> bool
        ensures { IsTrue result ↔ HoldsAnswer self.now }
    {
        match self.answer() {
            Some(_) => true,
            None => false,
        }
    }
}

impl<S: Source + Drop> SignerConnection<S> {
    ghost use Rattle.std.specs.Bool.{IsFalse};
    ghost use Rattle.reg_crl_signer.specs.SignerConnections.{FailsToReceive, HoldsAnswer, Receives};

    /// Reads what has come, without blocking: until the answer has arrived, the connection has failed, or a read would block.
    pub fn receive(&mut self)
        ensures receives { Receives S.remaining self.old self.new }
        ensures rests { self.new.progress ≡ self.old.progress → ¬ (self.new.progress ≡ Progress.Failed)
            → S.failed }
        ensures whole { self.old.progress ≡ Progress.Waiting → self.new.progress ≡ Progress.Arrived
            → HoldsAnswer self.new }
        ensures partial { self.new.progress ≡ Progress.Waiting → self.new.framing ≡ Framing.ByLength
            → ¬ HoldsAnswer self.old → ¬ HoldsAnswer self.new }
        ensures fails { ¬ (self.old.progress ≡ Progress.Failed) → self.new.progress ≡ Progress.Failed
            → FailsToReceive S.failed S.remaining self.old self.new }
    {
        for reads in 0..MOST_READS {
            if !self.receive_once() {
                return;
            }
        }
    }

    /// Reads once. Returns whether another read may give more of the answer.
    fn receive_once(&mut self) -> bool
        ensures receives { Receives S.remaining self.old self.new }
        ensures more { IsTrue result → self.new.progress ≡ Progress.Waiting }
        ensures grows { IsTrue result → (length self.old.received.items < length self.new.received.items)
            × (length self.new.received.items ≤ 4100) }
        ensures rests { IsFalse result → self.new.progress ≡ self.old.progress
            → ¬ (self.new.progress ≡ Progress.Failed) → S.failed }
        ensures whole { self.old.progress ≡ Progress.Waiting → self.new.progress ≡ Progress.Arrived
            → HoldsAnswer self.new }
        ensures partial { self.new.progress ≡ Progress.Waiting → self.new.framing ≡ Framing.ByLength
            → ¬ HoldsAnswer self.old → ¬ HoldsAnswer self.new }
        ensures fails { ¬ (self.old.progress ≡ Progress.Failed) → self.new.progress ≡ Progress.Failed
            → FailsToReceive S.failed S.remaining self.old self.new }
    {
        let mut buffer = [0; READ_BYTES];
        match self.stream.try_read(&mut buffer) {
            Ok(0) => {
                self.progress = self.progress_after(true);
                false
            }
            Ok(count) => match self.received.extend_from_slice(&buffer[..count]) {
                Ok(()) => {
                    self.progress = self.progress_after(false);
                    self.progress == Progress::Waiting
                }
                Err(_) => {
                    self.progress = Progress::Failed;
                    false
                }
            },
            Err(error) if error.kind() == ErrorKind::WouldBlock => false,
            Err(_) => {
                self.progress = Progress::Failed;
                false
            }
        }
    }
}

impl<S: Sink + Drop> SignerConnection<S> {
    ghost use Rattle.std.specs.Bool.{OnFalse, OnTrue};
    ghost use Rattle.reg_crl_signer.specs.SignerConnections.{FailsToSend, SendsNext};

    /// Sends the next message. If the connection isn't idle, or the message is longer than `LONGEST_MESSAGE`, sends nothing and returns `Ok(false)`.
    /// If sending fails or would block, returns `Ok(false)`, and the connection has failed. If out of memory, sends nothing.
    pub fn send_next(&mut self, alloc: Global, message: &[u8]) -> Result<bool, AllocError>
        ensures sent { IfOk result (λ sent. OnTrue sent
            (SendsNext S.contents self.old self.new message.now)) }
        ensures unsent { IfOk result (λ sent. OnFalse sent
            (FailsToSend S.failed self.old self.new message.now)) }
        ensures memory { OnErr result (self.new ≡ self.old) }
    {
        if !self.is_idle() {
            return Ok(false);
        }
        if message.len() > LONGEST_MESSAGE {
            return Ok(false);
        }
        let counted = with_length(alloc, message)?;
        match write_whole(&mut self.stream, &counted) {
            Ok(()) => {
                self.progress = Progress::Waiting;
                Ok(true)
            }
            Err(_) => {
                self.progress = Progress::Failed;
                Ok(false)
            }
        }
    }
}
