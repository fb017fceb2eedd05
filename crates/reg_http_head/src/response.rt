//! Makes and writes the text of a response (RFC 9112 4 to 6).

ghost use Rattle.std.specs.Prelude.{◌≡◌, ◌+◌, ◌≤◌, ◌++◌, ℕ, List, [], length, OnOk, OnErr, option_map, vec_capacity};
ghost use Rattle.std.specs.Io.KnownBytes.{Appends};
ghost use Rattle.reg_io.specs.Put.{AppendsPrefix};
ghost use Rattle.reg_http_head.specs.Allow.{allowed};
ghost use Rattle.reg_http_head.specs.Response.{shown, phrase, field_line, status_line, allow_line, retry_line, head_text, IsDateOf, IsText, memory_text};

use crate::answer::Answer;
use crate::status;
use httpdate::HttpDate;
use reg_core::{Decimal, Moment};
use reg_io::{WriteFault, write_whole};
use std::alloc::AllocError;
use std::io::Write;

/// The bytes of capacity that [`put_answer`] and [`write_answer`] need for the head of a response. A head has at most 352 bytes.
pub const RESPONSE_HEAD_ROOM: usize = 512;

/// Appends bytes without an allocation: the caller has reserved the capacity.
pub fn put(out: &mut Vec<u8>, bytes: &[u8])
    requires { length out.old.items + length bytes.now ≤ vec_capacity out.old }
    ensures items { out.new.items ≡ out.old.items ++ bytes.now }
    ensures room { vec_capacity out.old ≤ vec_capacity out.new }
{
    let _ = out.extend_from_slice(bytes);
}

#[tactic(auto, unfolding(crate::specs::Response::field_line))]
fn put_line(out: &mut Vec<u8>, start: &[u8], value: &[u8])
    requires { length out.old.items + length start.now + length value.now + 2 ≤ vec_capacity out.old }
    ensures items { out.new.items ≡ out.old.items ++ field_line start.now value.now }
    ensures room { vec_capacity out.old ≤ vec_capacity out.new }
    ensures length { length out.new.items ≡ length out.old.items + length start.now + length value.now + 2 }
{
    put(out, start);
    put(out, value);
    put(out, b"\r\n");
}

fn phrase(code: u16) -> &'static [u8]
    ensures text { result.now ≡ phrase code }
    ensures short { length result.now ≤ 31 }
{
    match code {
        status::OK => b"OK",
        status::BAD_REQUEST => b"Bad Request",
        status::NOT_FOUND => b"Not Found",
        status::METHOD_NOT_ALLOWED => b"Method Not Allowed",
        status::CONFLICT => b"Conflict",
        status::LENGTH_REQUIRED => b"Length Required",
        status::PAYLOAD_TOO_LARGE => b"Payload Too Large",
        status::TOO_MANY_REQUESTS => b"Too Many Requests",
        status::HEADERS_TOO_LARGE => b"Request Header Fields Too Large",
        status::INTERNAL_SERVER_ERROR => b"Internal Server Error",
        status::SERVICE_UNAVAILABLE => b"Service Unavailable",
        _ => b"",
    }
}

#[tactic(auto, unfolding(crate::specs::Response::status_line))]
fn put_status_line(out: &mut Vec<u8>, code: u16)
    requires { length out.old.items + 64 ≤ vec_capacity out.old }
    ensures items { out.new.items ≡ out.old.items ++ status_line code }
    ensures room { vec_capacity out.old ≤ vec_capacity out.new }
    ensures length { length out.new.items ≤ length out.old.items + 64 }
{
    put(out, b"HTTP/1.1 ");
    put(out, Decimal::of(u64::from(code)).as_bytes());
    put_line(out, b" ", phrase(code));
}

#[tactic(auto, unfolding(crate::specs::Response::allow_line))]
fn put_allow(out: &mut Vec<u8>, allow: Option<&'static str>)
    requires short { length (allowed (option_map (λ method. method.now) allow)) ≤ 64 }
    requires room { length out.old.items + 80 ≤ vec_capacity out.old }
    ensures items { out.new.items ≡ out.old.items
        ++ allow_line (option_map (λ method. method.now) allow.entry) }
    ensures room { vec_capacity out.old ≤ vec_capacity out.new }
    ensures length { length out.new.items ≤ length out.old.items + 80 }
{
    if let Some(method) = allow {
        put_line(out, b"Allow: ", method.as_bytes());
    }
}

#[tactic(auto, unfolding(crate::specs::Response::retry_line))]
fn put_retry(out: &mut Vec<u8>, code: u16)
    requires { length out.old.items + 32 ≤ vec_capacity out.old }
    ensures items { out.new.items ≡ out.old.items ++ retry_line code }
    ensures room { vec_capacity out.old ≤ vec_capacity out.new }
    ensures length { length out.new.items ≤ length out.old.items + 32 }
{
    if code == status::TOO_MANY_REQUESTS {
        put_line(out, b"Retry-After: ", b"60");
    }
}

#[tactic(auto, unfolding(crate::specs::Response::head_text))]
fn put_head(out: &mut Vec<u8>, answer: &Answer, date: &[u8])
    requires empty { out.old.items ≡ [] }
    requires room { 512 ≤ vec_capacity out.old }
    requires date { length date.now ≤ 29 }
    ensures items { out.new.items ≡ head_text date.now (shown answer.now) }
    ensures room { vec_capacity out.old ≤ vec_capacity out.new }
{
    put_status_line(out, answer.status);
    put_line(out, b"Date: ", date);
    put_allow(out, answer.allow);
    put_retry(out, answer.status);
    put_line(out, b"Content-Type: ", answer.kind.as_bytes());
    let length = answer.body.as_slice().len() as u64;
    put_line(out, b"Content-Length: ", Decimal::of(length).as_bytes());
    put_line(out, b"Connection: close", b"");
    put_line(out, b"", b"");
}

/// The moment as IMF-fixdate (RFC 9110 5.6.7). Each moment has one, because it is before the year 10000.
fn date_of(now: Moment) -> [u8; 29]
    ensures { IsDateOf now result }
{
    HttpDate::from_unix_secs(now.secs()).unwrap().to_bytes()
}

/// Writes the response, with Date `now`, into an empty `text`. [`AllocError`] if out of memory for the body: then `text` has only the head.
pub fn put_answer(text: &mut Vec<u8>, answer: &Answer, now: Moment) -> Result<(), AllocError>
    requires empty { text.old.items ≡ [] }
    requires room { RESPONSE_HEAD_ROOM ≤ vec_capacity text.old }
    ensures ok { OnOk result (IsText (shown answer.now) now text.new.items) }
    ensures room { vec_capacity text.old ≤ vec_capacity text.new }
{
    put_head(text, answer, &date_of(now));
    match text.extend_from_slice(answer.body.as_slice()) {
        Ok(()) => Ok(()),
        Err(error) => Err(error),
    }
}

/// The constant response when out of memory: status code 500, without a Date or a body.
#[tactic(auto, unfolding(crate::specs::Response::memory_text, crate::specs::Response::field_line))]
pub fn memory_fault() -> &'static [u8]
    ensures text { result.now ≡ memory_text }
    ensures short { length result.now ≤ RESPONSE_HEAD_ROOM }
{
    b"HTTP/1.1 500 Internal Server Error\r\nConnection: close\r\nContent-Length: 0\r\n\r\n"
}

/// Writes the response, with Date `now`. `room` is an empty buffer for its head. [`WriteFault`] if the writer fails or accepts no more bytes.
pub fn write_answer<W: Write>(
    writer: &mut W,
    mut room: Vec<u8>,
    answer: &Answer,
    now: Moment,
) -> Result<(), WriteFault>
    requires empty { room.items ≡ [] }
    requires room { RESPONSE_HEAD_ROOM ≤ vec_capacity room }
    ensures ok { OnOk result ((text : List ℕ) × IsText (shown answer.now) now text
        × Appends (W.contents writer.old) (W.contents writer.new) text) }
    ensures err { OnErr result ((text : List ℕ) × IsText (shown answer.now) now text
        × AppendsPrefix (W.contents writer.old) (W.contents writer.new) text) }
{
    put_head(&mut room, answer, &date_of(now));
    match write_whole(writer, room.as_slice()) {
        Ok(()) => write_whole(writer, answer.body.as_slice()),
        Err(fault) => Err(fault),
    }
}
