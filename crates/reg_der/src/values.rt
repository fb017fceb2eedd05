//! Reads DER values with an expected tag.

ghost use Rattle.std.specs.Prelude.{◌≡◌, ◌<◌, ◌≤◌, length, IfSome, option_copied};
ghost use Rattle.reg_core.specs.Integer.{value as number_written};
ghost use Rattle.reg_der.specs.Der.{tlv};
ghost use Rattle.reg_der.specs.ValueReading.{AgreesWith};
ghost use Rattle.reg_der.specs.TaggedValues.{expect_at, last_at, optional_at, whole_at};

use crate::tlv_reader::{Tlv, take};

/// The value at the front, and the bytes after it. `None` if no value is there, or one with another tag.
#[tactic(auto, using(crate::proofs::ValueLemmas::tlv_some), unfolding(crate::specs::TaggedValues::expect_at))]
pub fn expect(tag: u8, bytes: &[u8]) -> Option<(Tlv<'_>, &[u8])>
    ensures exact { AgreesWith (λ x. (x.0.contents.now, x.1.now)) result (expect_at tag bytes.now) }
    ensures raw { IfSome result (λ x. x.0.raw.now ≡ tlv tag x.0.contents.now) }
    ensures shorter { IfSome result (λ x. length x.1.now < length bytes.now) }
{
    let (value, rest) = take(bytes)?;
    if value.tag == tag {
        Some((value, rest))
    } else {
        None
    }
}

/// The contents of a value with this tag, if the bytes are this value and nothing else; else `None`.
#[tactic(auto, unfolding(crate::specs::TaggedValues::whole_at))]
pub fn whole(tag: u8, bytes: &[u8]) -> Option<&[u8]>
    ensures exact { AgreesWith (λ x. x.now) result (whole_at tag bytes.now) }
{
    let (value, rest) = expect(tag, bytes)?;
    if rest.is_empty() {
        Some(value.contents)
    } else {
        None
    }
}

/// Reads an optional field. If the first byte is the field's tag: the field's contents and the bytes after it, or `None` if no whole value is there.
/// If the first byte is another one, or there is none: `Some((None, bytes))`.
#[tactic(auto, unfolding(crate::specs::TaggedValues::optional_at))]
pub fn optional(tag: u8, bytes: &[u8]) -> Option<(Option<&[u8]>, &[u8])>
    ensures exact { AgreesWith (λ x. (option_copied x.0, x.1.now)) result (optional_at tag bytes.now) }
{
    match bytes {
        [first, ..] if *first == tag => {
            let (value, rest) = expect(tag, bytes)?;
            Some((Some(value.contents), rest))
        }
        _ => Some((None, bytes)),
    }
}

/// Reads an optional last field. Without any bytes: `Some(None)`. Else its contents, or `None` unless the bytes are exactly one value with this tag.
#[tactic(auto, unfolding(crate::specs::TaggedValues::last_at))]
pub fn last(tag: u8, bytes: &[u8]) -> Option<Option<&[u8]>>
    ensures exact { AgreesWith (λ x. option_copied x) result (last_at tag bytes.now) }
{
    if bytes.is_empty() {
        return Some(None);
    }
    Some(Some(whole(tag, bytes)?))
}

/// The number that at most eight octets encode, big-endian.
pub fn number(octets: &[u8]) -> u64
    requires { length octets.now ≤ 8 }
    ensures { result ≡ number_written octets.now }
{
    let mut number = 0;
    for octet in octets {
        number = number * 256 + u64::from(*octet);
    }
    number
}
