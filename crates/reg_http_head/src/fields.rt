//! Finds the length of a request's body from the fields of its head.

ghost use Rattle.std.specs.Prelude.{◌≡◌, ◌++◌, ◌∷◌, [], ℕ, List, codes, length, map, All};
ghost use Rattle.httparse.specs.Spans.{header_bytes, IsHeaderWithin};
ghost use Rattle.reg_http_head.specs.Head.{size_by, values_of, HasFieldValues};
ghost use Rattle.reg_http_head.specs.ResponseStart.{length_of};

use crate::status;
use httparse::spans::{HeaderSpan, Span};
use reg_core::read_number;

/// The most bytes of a body: as many as an OCSP request may have. The other routes need fewer.
const LONGEST_BODY: u64 = 65_536;

/// The values of all fields of one name: none, one (its position in the head), or several.
#[derive(Clone, Copy)]
pub(crate) enum Values {
    Absent,
    One(Span),
    Several,
}

/// The values in `earlier` (of fields with this `name` before this field), and this field's if it has that name in any letter case (RFC 9110 5.1).
fn with_field(head: &[u8], field: &HeaderSpan, name: &[u8], earlier: Values) -> Values
    requires { IsHeaderWithin (length head.now) field.now }
    ensures { (before : List (List ℕ)) → HasFieldValues head.now before earlier
        → HasFieldValues head.now (before ++ values_of name.now (header_bytes head.now field.now ∷ []))
        result }
{
    if !field.name.of(head).eq_ignore_ascii_case(name) {
        return earlier;
    }
    match earlier {
        Values::Absent => Values::One(field.value),
        Values::One(_) => Values::Several,
        Values::Several => Values::Several,
    }
}

fn values_of(head: &[u8], fields: &[HeaderSpan], name: &[u8]) -> Values
    requires { All (IsHeaderWithin (length head.now)) fields.now }
    ensures { HasFieldValues head.now (values_of name.now (map (header_bytes head.now) fields.now)) result }
{
    let mut values = Values::Absent;
    for field in fields {
        values = with_field(head, field, name, values);
    }
    values
}

/// The length in bytes of a POST's body (RFC 9112 6.3), or the status code that refuses the POST: 411 also with a Transfer-Encoding (`chunked`).
pub(crate) fn post_size(head: &[u8], fields: &[HeaderSpan]) -> Result<u64, u16>
    requires { All (IsHeaderWithin (length head.now)) fields.now }
    ensures { result ≡ size_by
        (values_of (codes "transfer-encoding") (map (header_bytes head.now) fields.now))
        (values_of (codes "content-length") (map (header_bytes head.now) fields.now)) }
{
    match values_of(head, fields, b"transfer-encoding") {
        Values::Absent => {}
        _ => return Err(status::LENGTH_REQUIRED),
    }
    match values_of(head, fields, b"content-length") {
        Values::Absent => Err(status::LENGTH_REQUIRED),
        Values::Several => Err(status::BAD_REQUEST),
        Values::One(text) => match read_number(text.of(head)) {
            None => Err(status::BAD_REQUEST),
            Some(size) if size > LONGEST_BODY => Err(status::PAYLOAD_TOO_LARGE),
            Some(size) => Ok(size),
        },
    }
}

/// The length in bytes of the body of a response, if its fields state it: by one Content-Length, and no Transfer-Encoding.
pub(crate) fn stated_length(head: &[u8], fields: &[HeaderSpan]) -> Option<u64>
    requires { All (IsHeaderWithin (length head.now)) fields.now }
    ensures { result ≡ length_of (map (header_bytes head.now) fields.now) }
{
    match values_of(head, fields, b"transfer-encoding") {
        Values::Absent => {}
        _ => return None,
    }
    match values_of(head, fields, b"content-length") {
        Values::One(text) => read_number(text.of(head)),
        _ => None,
    }
}
