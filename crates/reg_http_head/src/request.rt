//! A request, and how one is read from any reader.

ghost use Rattle.std.specs.Prelude.{◌≡◌, ◌+◌, ◌<◌, ◌≤◌, ◌++◌, ◌⊎◌, ℕ, List, length, take, IfOk, IfErr, OnOk, OnErr};
ghost use Rattle.std.specs.Io.KnownBytes.{Consumes};
ghost use Rattle.reg_http_head.specs.Head.{longest_head, longest_body, HoldsHead};
ghost use Rattle.reg_http_head.specs.Frame.{Framed, HasHead, IsCutBy, TakesAtMost, request_meaning, asked};
ghost use Rattle.httparse.specs.Spans.{span_bytes};

use crate::head::{HeadSpans, read_head};
use crate::status;
use http::Method;
use reg_core::Fault;
use reg_io::{FillEnd, ReadFault, fill_exact, fill_to_delimiter};
use std::alloc::Global;
use std::io::Read;

/// The most bytes of a head: more than the 8,000 that RFC 9112 3 recommends for the request line.
pub(crate) const LONGEST_HEAD: usize = 8_192;

pub(crate) const HEAD_END: &[u8] = b"\r\n\r\n";

/// A request, or the status code that refuses its head. `target` is as in the request line; `body` is empty if the method isn't POST.
#[derive(Drop)]
pub enum Request {
    Refused(u16),
    Valid {
        method: Method,
        target: String,
        body: Vec<u8>,
    },
}

/// As [`Request`], with the target and the body as slices of the bytes of a [`crate::Collected`].
#[derive(Drop)]
pub enum RequestRef<'b> {
    Refused(u16),
    Valid {
        method: Method,
        target: &'b str,
        body: &'b [u8],
    },
}

/// Reads one request (RFC 9112 2.1): its head (at most 8,192 bytes), up to the first CR LF CR LF, and the body of a POST (at most 65,536 bytes).
/// [`Fault::Read`] if the reader fails, or ends within the request; [`Fault::Memory`] if out of memory.
pub fn read_request<R: Read>(alloc: Global, reader: &mut R) -> Result<Request, Fault>
    ensures ok { IfOk result (λ request. TakesAtMost (R.remaining reader.old) (R.remaining reader.new)
        (longest_head + longest_body) (λ took. Framed took (request_meaning request))) }
    ensures err { IfErr result (λ fault. TakesAtMost (R.remaining reader.old) (R.remaining reader.new)
        (longest_head + longest_body) (IsCutBy fault)) }
{
    let mut buffer = vec![in alloc; 0u8; LONGEST_HEAD].map_err(|_| Fault::Memory)?;
    read_within(alloc, reader, &mut buffer)
}

/// As [`read_request`], with a `buffer` for the head. It has no bytes of the head yet: hence the 0 in the call of `fill_to_delimiter`.
fn read_within<R: Read>(alloc: Global, reader: &mut R, buffer: &mut [u8]) -> Result<Request, Fault>
    requires { length buffer.old ≡ longest_head }
    ensures ok { IfOk result (λ request. TakesAtMost (R.remaining reader.old) (R.remaining reader.new)
        (longest_head + longest_body) (λ took. Framed took (request_meaning request))) }
    ensures err { IfErr result (λ fault. TakesAtMost (R.remaining reader.old) (R.remaining reader.new)
        (longest_head + longest_body) (IsCutBy fault)) }
{
    match fill_to_delimiter(reader, buffer, 0, HEAD_END) {
        Ok(FillEnd::Delimiter { end, buffered }) => read_rest(
            alloc,
            reader,
            &buffer[..buffered],
            end,
        ),
        Ok(FillEnd::Full) => Ok(Request::Refused(status::HEADERS_TOO_LARGE)),
        Ok(FillEnd::End { .. }) => Err(Fault::Read),
        Err(_) => Err(Fault::Read),
    }
}

/// Reads the rest of a request. `buffered` has the bytes that were read; the head ends in them at the index `end`.
fn read_rest<R: Read>(
    alloc: Global,
    reader: &mut R,
    buffered: &[u8],
    end: usize,
) -> Result<Request, Fault>
    requires head { HasHead buffered.now end }
    requires buffered { length buffered.now ≤ longest_head }
    ensures ok { IfOk result (λ request. TakesAtMost (R.remaining reader.old) (R.remaining reader.new)
        longest_body (λ took. Framed (buffered.now ++ took) (request_meaning request))) }
    ensures err { IfErr result (λ fault. TakesAtMost (R.remaining reader.old) (R.remaining reader.new)
        longest_body (λ took. IsCutBy fault (buffered.now ++ took))) }
{
    match read_head(&buffered[..end]) {
        Ok(head) => match read_body(alloc, reader, &buffered[end..], head.size) {
            Ok(body) => owned_request(alloc, &buffered[..end], head, body),
            Err(fault) => Err(fault),
        },
        Err(refused) => Ok(Request::Refused(refused)),
    }
}

/// Reads a body of `size` bytes. `buffered` has its first bytes, which were read together with the head. The others come from the reader.
fn read_body<R: Read>(
    alloc: Global,
    reader: &mut R,
    buffered: &[u8],
    size: u64,
) -> Result<Vec<u8>, Fault>
    requires { size ≤ longest_body }
    ensures ok { IfOk result (λ body. (took : List ℕ)
        × Consumes (R.remaining reader.old) (R.remaining reader.new) took
        × (length took ≤ size) × (length body.items ≡ size)
        × (body.items ≡ take size (buffered.now ++ took))) }
    ensures err { IfErr result (λ fault. (took : List ℕ)
        × Consumes (R.remaining reader.old) (R.remaining reader.new) took
        × (length took ≤ size)
        × (((fault ≡ Fault.Read) × (length buffered.now + length took < size)) ⊎ (fault ≡ Fault.Memory))) }
{
    let mut body = vec![in alloc; 0u8; size as usize].map_err(|_| Fault::Memory)?;
    fill_body(reader, &mut body, buffered).map_err(|_| Fault::Read)?;
    Ok(body)
}

fn fill_body<R: Read>(reader: &mut R, body: &mut [u8], buffered: &[u8]) -> Result<(), ReadFault>
    ensures ok { OnOk result ((took : List ℕ)
        × Consumes (R.remaining reader.old) (R.remaining reader.new) took
        × (length took ≤ length body.old) × (body.new ≡ take (length body.old) (buffered.now ++ took))) }
    ensures err { OnErr result ((took : List ℕ)
        × Consumes (R.remaining reader.old) (R.remaining reader.new) took
        × (length buffered.now + length took < length body.old)) }
{
    let copied = buffered.len().min(body.len());
    body[..copied].copy_from_slice(&buffered[..copied]);
    fill_exact(reader, body, copied)
}

fn owned_request(
    alloc: Global,
    head: &[u8],
    spans: HeadSpans,
    body: Vec<u8>,
) -> Result<Request, Fault>
    requires { ∥ HoldsHead head.now spans ∥₁ }
    ensures ok { IfOk result (λ request.
        request_meaning request
        ≡ asked (span_bytes head.now spans.method) (span_bytes head.now spans.target) body.items) }
    ensures err { IfErr result (λ fault. fault ≡ Fault.Memory) }
{
    let method = spans.method_in(alloc, head).map_err(|_| Fault::Memory)?;
    let target = String::from_str(alloc, spans.target_in(head)).map_err(|_| Fault::Memory)?;
    Ok(Request::Valid {
        method,
        target,
        body,
    })
}
