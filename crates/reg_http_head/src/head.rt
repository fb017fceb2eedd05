//! The head of a request: the request line and the fields (RFC 9112 3, 5).

ghost use Rattle.std.specs.Prelude.{◌≡◌, ◌≤◌, ℕ, IfOk, IfErr, length, map, All, Ok};
ghost use Rattle.httparse.specs.Spans.{header_bytes, span_bytes, IsHeaderWithin};
ghost use Rattle.reg_http_head.specs.Head.{RefusesHead, longest_body, size_of as size_by_fields, HoldsHead};

use crate::fields::post_size;
use crate::status;
use http::Method;
use httparse::spans::{EMPTY_HEADER_SPAN, HeaderSpan, RequestSpans, Span, parse_request};
use httparse::{Error, Status};
use reg_core::Memory;
use std::alloc::Global;
use std::str;

/// The most fields of a head. Their positions are kept in an array of this length, so nothing is allocated for them.
pub(crate) const MOST_FIELDS: usize = 64;

/// A head that was read: the positions of its parts in it, and the length in bytes of its body (at most 65,536; 0 if the method is not POST).
#[derive(Clone, Copy)]
pub(crate) struct HeadSpans {
    pub(crate) method: Span,
    pub(crate) target: Span,
    pub(crate) size: u64,
}

impl HeadSpans {
    /// The method. It is a token, so the only error is out of memory.
    pub(crate) fn method_in(self, alloc: Global, head: &[u8]) -> Result<Method, Memory>
        requires { ∥ HoldsHead head.now self ∥₁ }
        ensures { IfOk result (λ method. method ≡ span_bytes head.now self.method) }
    {
        Method::from_bytes(alloc, self.method.of(head)).map_err(|_| Memory)
    }

    /// The target. httparse accepts only targets in UTF-8.
    pub(crate) fn target_in(self, head: &[u8]) -> &str
        requires { ∥ HoldsHead head.now self ∥₁ }
        ensures { result.now ≡ span_bytes head.now self.target }
    {
        match str::from_utf8(self.target.of(head)) {
            Ok(target) => target,
            Err(_) => unreachable!(),
        }
    }
}

/// Reads a whole head, through its first CRLF CRLF. The error is the status code that refuses the head: 431 for more than 64 fields, or 400 for bytes
/// that are no head (if both apply, one of the two); or the error of [`post_size`].
pub(crate) fn read_head(head: &[u8]) -> Result<HeadSpans, u16>
    ensures ok { IfOk result (HoldsHead head.now) }
    ensures small { IfOk result (λ spans. spans.size ≤ longest_body) }
    ensures err { IfErr result (RefusesHead head.now) }
{
    let mut fields = [EMPTY_HEADER_SPAN; MOST_FIELDS];
    match parse_request(head, &mut fields) {
        Ok(Status::Complete(parts)) if parts.len == head.len() => {
            let size = size_of(parts.method.of(head), head, &fields[..parts.headers])?;
            Ok(HeadSpans {
                method: parts.method,
                target: parts.path,
                size,
            })
        }
        // `Complete`: the parser also takes a lone LF as a line end, so it took an earlier empty line as the end.
        // `Partial`: the head has only empty lines, which the parser skips.
        Ok(Status::Complete(_)) => Err(status::BAD_REQUEST),
        Ok(Status::Partial) => Err(status::BAD_REQUEST),
        Err(Error::TooManyHeaders) => Err(status::HEADERS_TOO_LARGE),
        Err(_) => Err(status::BAD_REQUEST),
    }
}

fn size_of(method: &[u8], head: &[u8], fields: &[HeaderSpan]) -> Result<u64, u16>
    requires { All (IsHeaderWithin (length head.now)) fields.now }
    ensures size { result ≡ size_by_fields method.now (map (header_bytes head.now) fields.now) }
    ensures small { IfOk result (λ size. size ≤ longest_body) }
{
    if method == b"POST".as_slice() {
        post_size(head, fields)
    } else {
        Ok(0)
    }
}
