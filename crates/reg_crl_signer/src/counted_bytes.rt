//! Messages and answers on persistent connections to a signer: the length in four bytes, big-endian, and then that many bytes.

ghost use Rattle.std.specs.Prelude.{◌≡◌, ◌≢◌, ◌≤◌, ◌<◌, ◌^◌, ℕ, List, IfOk, IsTrue, MatchOption, length};
ghost use Rattle.std.specs.Bool.{OnTrue};
ghost use Rattle.std.specs.Int.{w32, to_be_bytes};
ghost use Rattle.reg_crl_signer.specs.CountedBytes.{counted_bytes};

use std::alloc::{AllocError, Global};

pub(crate) const LENGTH_BYTES: usize = 4;

/// The bytes after the length. `None` if the length is incomplete, or is not the number of these bytes.
pub(crate) fn without_length(counted: &[u8]) -> Option<&[u8]>
    ensures { MatchOption result
        ((bytes : List ℕ) → length bytes < 2 ^ 32 → counted.now ≢ counted_bytes bytes)
        (λ bytes. counted.now ≡ counted_bytes bytes.now) }
{
    if counted.len() < LENGTH_BYTES {
        return None;
    }
    let (head, bytes) = counted.split_at(LENGTH_BYTES);
    if is_length(head, bytes.len()) {
        Some(bytes)
    } else {
        None
    }
}

/// Whether `head` is `count` in four bytes.
fn is_length(head: &[u8], count: usize) -> bool
    ensures is { OnTrue result (head.now ≡ to_be_bytes w32 count) }
    ensures only { count < 2 ^ 32 → head.now ≡ to_be_bytes w32 count → IsTrue result }
{
    match u32::try_from(count) {
        Ok(length) => head == length.to_be_bytes().as_slice(),
        Err(_) => false,
    }
}

/// The message after its length. At most 2^24 - 1 bytes are sent so: `LONGEST_MESSAGE` of `signer_connection.rt` says why.
pub(crate) fn with_length(alloc: Global, message: &[u8]) -> Result<Vec<u8>, AllocError>
    requires { length message.now ≤ 16777215 }
    ensures { IfOk result (λ bytes. bytes.items ≡ counted_bytes message.now) }
{
    let mut bytes = Vec::with_capacity(alloc, LENGTH_BYTES + message.len())?;
    bytes.extend_from_slice(&(message.len() as u32).to_be_bytes())?;
    bytes.extend_from_slice(message)?;
    Ok(bytes)
}
