//! A device (which has the key, such as a signer process) at a Unix socket, and one exchange with it: a message to sign, and its answer, a signature.

ghost use Rattle.std.specs.Prelude.{◌≡◌, ◌<◌, IfOk, OnErr, length, take};
ghost use Rattle.reg_crl_signer.specs.Exchange.{ExchangesMessage, FailsToExchange};

use crate::announcement::keep_signature;
use crate::device::{Device, DeviceFault};
use reg_io::{Sink, Source, fill_to_end, write_whole};
use std::io;
use std::io::{Read, Write};
use std::marker::PhantomData;

/// A connection to a device, for one exchange. Proofs over any such connection use the relations below; in `UnixConnection` each is always true. Each
/// connection is a [`Source`] and a [`Sink`]. Only with these bounds can a contract state that a read or a write failed (`failed`).
pub trait DeviceConnection: Read + Write {
    ghost use Rattle.std.specs.Prelude.{ℕ, List, IfOk, OnErr, OnOk};

    // This connection was made to the listener at this path.
    ghost connected: { List ℕ → Self → Type 0 };

    // No connection could be made to this path.
    ghost unconnected: { List ℕ → Type 0 };

    // The connection before its sending side was shut down, and after.
    ghost finished: { Self → Self → Type 0 };

    // The sending side of this connection could not be shut down.
    ghost unfinished: { Self → Type 0 };

    // The listener at this path gave another caller, such as the event loop by its `SignerConnection`, this answer to this message.
    ghost answered_another_caller: { List ℕ → List ℕ → List ℕ → Type 0 };

    /// Connects to the listener at `path`. The errors are those of the implementation.
    fn connect(rt: &HostRuntime, path: &str) -> io::Result<Self>
        ensures ok { IfOk result (connected path.now) }
        ensures err { OnErr result (unconnected path.now) };

    /// Shuts down the sending side, because the message is whole. The errors are those of shutdown(2).
    fn finish(&mut self) -> io::Result<()>
        ensures ok { OnOk result (finished self.old self.new) }
        ensures err { OnErr result (unfinished self.old) };
}

/// A device that listens at a path. Each exchange opens a connection, sends the message, shuts down the sending side, and reads up to the end, which
/// must come before the buffer `room` is full. The answer is what was read, without the announcement that the signer takes persistent connections.
#[derive(Drop)]
pub struct SocketDevice<L: DeviceConnection> {
    rt: HostRuntime,
    path: String,
    key: Vec<u8>,
    connections: PhantomData<L>,
}

impl<L: DeviceConnection> SocketDevice<L> {
    /// The device that listens at `path`. `key` is the bits of its subjectPublicKey (RFC 5280 4.1.2.7). The call does not connect.
    pub fn new(rt: HostRuntime, path: String, key: Vec<u8>) -> SocketDevice<L>
        ensures path { result.path ≡ path }
        ensures key { result.key ≡ key }
    {
        SocketDevice {
            rt,
            path,
            key,
            connections: PhantomData,
        }
    }
}

impl<L: DeviceConnection + Source + Sink + Drop> Device for SocketDevice<L> {
    ghost use Rattle.std.proofs.Common.{inr};
    ghost use Rattle.std.specs.Prelude.{ℕ, List, ◌⊎◌, string_bytes};
    ghost use Rattle.reg_crl_signer.specs.Exchange.{ExchangesAtPath, FailsAtPath};

    ghost public_key = { λ it. it.key.items };

    ghost device_path = { λ it. string_bytes it.path };

    ghost device_answered = { ExchangesAtPath L.Read.remaining L.Write.contents L.finished L.connected };

    ghost answers = { λ key message answer.
        ((path : List ℕ)
        × ExchangesAtPath L.Read.remaining L.Write.contents L.finished L.connected path message answer)
        ⊎ ((path : List ℕ) × ∥ L.answered_another_caller path message answer ∥₁) };

    ghost answered_another_caller = { L.answered_another_caller };

    ghost others_answers_are_answers = { λ key device_path message answer given. inr (device_path, given) };

    ghost fails = { λ it message size after.
        FailsAtPath L.Read.remaining L.Write.contents L.finished L.unfinished L.Sink.failed L.Source.failed
        L.connected L.unconnected (string_bytes it.path) message size };

    fn public_key(&self) -> &[u8] {
        &self.key
    }

    fn exchange(&mut self, message: &[u8], room: &mut [u8]) -> Result<usize, DeviceFault> {
        match L::connect(&self.rt, self.path.as_str()) {
            Ok(mut connection) => exchange_message(&mut connection, message, room),
            Err(_) => Err(DeviceFault),
        }
    }

    // There is no back-off here: `BackoffDevice` adds it.
    fn reset_backoff(&mut self) {}
}

/// Sends the message, reads the answer into `room`, moves the signature in it to the beginning, and returns the signature's length.
fn exchange_message<L: DeviceConnection + Source + Sink>(
    connection: &mut L,
    message: &[u8],
    room: &mut [u8],
) -> Result<usize, DeviceFault>
    ensures short { IfOk result (λ count. count < length room.new) }
    ensures answered { IfOk result (λ count.
        ExchangesMessage L.Read.remaining L.Write.contents L.finished connection.old message.now
        (take count room.new)) }
    ensures failed { OnErr result
        (FailsToExchange L.Read.remaining L.Write.contents L.finished L.unfinished L.Sink.failed L.Source.failed
        connection.old message.now (length room.new)) }
{
    match write_whole(connection, message) {
        Ok(()) => match connection.finish() {
            Ok(()) => match fill_to_end(connection, room) {
                Ok(count) => Ok(keep_signature(room, count)),
                Err(_) => Err(DeviceFault),
            },
            Err(_) => Err(DeviceFault),
        },
        Err(_) => Err(DeviceFault),
    }
}
