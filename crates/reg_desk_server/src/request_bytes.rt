//! Receives the bytes of an HTTP request, as far as they have come.

ghost use Rattle.std.specs.Prelude.{◌≡◌, ◌⊎◌};
ghost use Rattle.reg_http_head.specs.Bytes.{collected_bytes};
ghost use Rattle.reg_http_head.specs.Collected.{IsWholeRequest};
ghost use Rattle.reg_desk_server.specs.Buffers.{AddsTo, Collects};

use reg_http_head::Collected;
use std::io::{ErrorKind, Read};

const MOST_READS: usize = 32;

/// After a read: the request is whole; nothing more has come yet; more may have come; the client sends no more; the read failed; out of memory.
#[derive(Clone, Copy)]
pub(crate) enum Received {
    Whole,
    Blocked,
    More,
    Ended,
    Broken,
    OutOfMemory,
}

/// Appends bytes to `collected` until it has a whole request, or no more have come. Reads at most `MOST_READS` times: other connections get a turn.
pub(crate) fn receive<R: Read>(
    reader: &mut R,
    collected: &mut Collected,
    read_buffer: &mut [u8],
) -> Received
    ensures { Collects (R.remaining reader.old) (R.remaining reader.new)
        collected.old collected.new result }
{
    for _ in 0..MOST_READS {
        match receive_once(reader, collected, read_buffer) {
            Received::More => {}
            received => return received,
        }
    }
    Received::More
}

fn receive_once<R: Read>(
    reader: &mut R,
    collected: &mut Collected,
    read_buffer: &mut [u8],
) -> Received
    ensures { Collects (R.remaining reader.old) (R.remaining reader.new)
        collected.old collected.new result }
{
    match reader.read(read_buffer) {
        Ok(0) => Received::Ended,
        Ok(count) => add(collected, &read_buffer[..count]),
        Err(error) => match error.kind() {
            ErrorKind::WouldBlock => Received::Blocked,
            ErrorKind::Interrupted => Received::More,
            _ => Received::Broken,
        },
    }
}

fn add(collected: &mut Collected, arrived: &[u8]) -> Received
    ensures kept { AddsTo (collected_bytes collected.old) arrived.now (collected_bytes collected.new) result }
    ensures whole { result ≡ Received.Whole → ∥ IsWholeRequest (collected_bytes collected.new) ∥₁ }
{
    match collected.add(arrived) {
        Ok(()) => whole_or_more(collected),
        Err(_) => Received::OutOfMemory,
    }
}

fn whole_or_more(collected: &mut Collected) -> Received
    ensures same { collected_bytes collected.new ≡ collected_bytes collected.old }
    ensures rests { (result ≡ Received.Whole) ⊎ (result ≡ Received.More) }
    ensures whole { result ≡ Received.Whole → ∥ IsWholeRequest (collected_bytes collected.new) ∥₁ }
{
    if collected.is_whole() {
        Received::Whole
    } else {
        Received::More
    }
}
