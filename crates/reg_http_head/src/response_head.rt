//! The head of a response: the status line and the fields (RFC 9112 4, 5).

ghost use Rattle.reg_http_head.specs.ResponseStart.{IsStartOf};

use crate::fields::stated_length;
use crate::head::MOST_FIELDS;
use crate::request::LONGEST_HEAD;
use httparse::Status;
use httparse::spans::{EMPTY_HEADER_SPAN, parse_response};

/// The head of a response that was read.
#[derive(Clone, Copy, PartialEq, Eq)]
pub struct ResponseHead {
    pub status: u16,
    /// How many bytes the head has.
    pub end: usize,
    /// How many bytes the body has, as the head states it.
    pub length: u64,
}

/// The first bytes of a connection, as those of a response.
#[derive(Clone, Copy, PartialEq, Eq)]
pub enum ResponseStart {
    /// The head is not whole yet.
    Partial,
    Head(ResponseHead),
    /// No accepted head begins with these bytes. An accepted head has at most 8,192 bytes and 64 fields, one Content-Length, of 1 to 18 digits, and
    /// no Transfer-Encoding.
    Bad,
}

/// Reads the head of a response from the first bytes of a connection.
pub fn read_response_start(bytes: &[u8]) -> ResponseStart
    ensures { IsStartOf bytes.now result }
{
    let mut fields = [EMPTY_HEADER_SPAN; MOST_FIELDS];
    let start = &bytes[..bytes.len().min(LONGEST_HEAD)];
    match parse_response(start, &mut fields) {
        Ok(Status::Complete(parts)) => match stated_length(start, &fields[..parts.headers]) {
            Some(length) => ResponseStart::Head(ResponseHead {
                status: parts.code,
                end: parts.len,
                length,
            }),
            None => ResponseStart::Bad,
        },
        Ok(Status::Partial) if bytes.len() < LONGEST_HEAD => ResponseStart::Partial,
        Ok(Status::Partial) => ResponseStart::Bad,
        Err(_) => ResponseStart::Bad,
    }
}
