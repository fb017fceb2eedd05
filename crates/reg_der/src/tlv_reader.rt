//! Reads the DER value (tag, length, contents) at the front of bytes (X.690 8.1, 10.1). The last slice of a result has the bytes that follow.

ghost use Rattle.std.specs.Prelude.{◌≡◌, ℕ, List, ◌+◌, ◌++◌, ◌≤◌, length, IfSome, IfNone};
ghost use Rattle.reg_core.specs.Integer.{value};
ghost use Rattle.reg_der.specs.Der.{IsTlv};
ghost use Rattle.reg_der.specs.ValueReading.{AgreesWith, Parts, long_length_at, length_at, contents_at, value_at};

/// A DER value, as slices of the bytes from which it was read. `raw` is the whole value: tag, length and contents.
#[derive(Clone, Copy)]
pub struct Tlv<'a> {
    pub tag: u8,
    pub contents: &'a [u8],
    pub raw: &'a [u8],
}

/// A tag of more than one octet, which is not read, has all of these bits set in its first octet (X.690 8.1.2.4).
const HIGH_TAG: u8 = 0x1F;

/// The first octet of a length above 127 is this plus the count of the octets that follow (X.690 8.1.3.5).
const LONG_FORM: u8 = 0x80;

fn number(octets: &[u8]) -> usize
    requires { length octets.now ≤ 4 }
    ensures { result ≡ value octets.now }
{
    let mut number = 0;
    for octet in octets {
        number = number * 256 + usize::from(*octet);
    }
    number
}

/// Reads a length in the long form: `count` octets (the octet before them gave `count`). `None` also if `count` is over 4, or 0 (indefinite length).
#[tactic(auto, unfolding(crate::specs::ValueReading::long_length_at))]
fn long_length(count: usize, bytes: &[u8]) -> Option<(usize, &[u8])>
    ensures exact { AgreesWith (λ x. (x.0, x.1.now)) result (long_length_at count bytes.now) }
    ensures shorter { IfSome result (λ x. length x.1.now ≤ length bytes.now) }
{
    if count == 0 || count > 4 || bytes.len() < count {
        return None;
    }
    let (octets, rest) = bytes.split_at(count);
    let length = number(octets);
    // With a leading zero, or a length below 128, these are not the fewest octets (X.690 10.1).
    if octets[0] == 0 || length < 128 {
        return None;
    }
    Some((length, rest))
}

#[tactic(auto, unfolding(crate::specs::ValueReading::length_at))]
fn length(bytes: &[u8]) -> Option<(usize, &[u8])>
    ensures exact { AgreesWith (λ x. (x.0, x.1.now)) result (length_at bytes.now) }
    ensures shorter { IfSome result (λ x. length x.1.now ≤ length bytes.now) }
{
    match bytes {
        [] => None,
        [first, rest @ ..] => {
            if *first < LONG_FORM {
                Some((usize::from(*first), rest))
            } else {
                long_length(usize::from(*first - LONG_FORM), rest)
            }
        }
    }
}

/// Reads length octets, and then as many bytes of contents.
#[tactic(auto, unfolding(crate::specs::ValueReading::contents_at))]
fn read_contents(bytes: &[u8]) -> Option<(&[u8], &[u8])>
    ensures exact { AgreesWith (λ x. (x.0.now, x.1.now)) result (contents_at bytes.now) }
    ensures shorter { IfSome result (λ x. length x.1.now ≤ length bytes.now) }
{
    let (length, rest) = length(bytes)?;
    if rest.len() < length {
        return None;
    }
    Some(rest.split_at(length))
}

/// As [`take`], without `raw`.
#[tactic(auto, unfolding(crate::specs::ValueReading::value_at))]
fn first_element(bytes: &[u8]) -> Option<(u8, &[u8], &[u8])>
    ensures exact { AgreesWith (λ x. (record { tag = x.0; contents = x.1.now }, x.2.now)) result
        (value_at bytes.now) }
    ensures shorter { IfSome result (λ x. length x.2.now ≤ length bytes.now) }
{
    let (tag, after_tag) = bytes.split_first()?;
    if *tag % 32 == HIGH_TAG {
        return None;
    }
    let (contents, rest) = read_contents(after_tag)?;
    Some((*tag, contents, rest))
}

/// The value at the front, and the bytes after it. A value is a tag of one octet, the length in the fewest octets (at most five), and contents of any
/// bytes. `None` if no prefix of the bytes is a value; at most one prefix is (`laws::no_two_prefixes`).
pub fn take(bytes: &[u8]) -> Option<(Tlv<'_>, &[u8])>
    ensures found { IfSome result
        (λ x. IsTlv x.0.raw.now x.0.tag x.0.contents.now × (bytes.now ≡ x.0.raw.now ++ x.1.now)) }

    ensures none { IfNone result
        ((raw rest contents : List ℕ) (tag : ℕ) → IsTlv raw tag contents → bytes.now ≡ raw ++ rest → ⊥) }

    // The result again, by the definition `value_at`, which contracts in other crates cite.
    ensures exact { AgreesWith (λ x. (record { tag = x.0.tag; contents = x.0.contents.now }, x.1.now)) result
        (value_at bytes.now) }
    ensures shorter { IfSome result (λ x. length x.0.raw.now + length x.1.now ≡ length bytes.now) }
{
    let (tag, contents, rest) = first_element(bytes)?;
    let raw = &bytes[..bytes.len() - rest.len()];
    Some((Tlv { tag, contents, raw }, rest))
}
