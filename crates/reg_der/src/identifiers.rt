ghost use Rattle.std.specs.Prelude.{◌≡◌, ◌<◌, length, IfSome, IsSome, IsTrue, ◌↔◌, unwrap_or, []};
ghost use Rattle.reg_der.specs.Authority as authority;
ghost use Rattle.reg_der.specs.ValueReading.{AgreesWith};

use crate::tlv_reader::take;
use crate::values::number;
use reg_core::Label;

/// The tag octet of a stored key identifier: [0], as in an AuthorityKeyIdentifier (RFC 5280 4.2.1.1). `Issuer::stored_name` says where it is stored.
pub(crate) const KEY_IDENTIFIER: u8 = 0x80;

/// The contents of a stored key identifier are 8 octets for the number of the first CRL that has it, and then its own 1 to 64 octets.
const NUMBER_LENGTH: usize = 8;

const LONGEST_CONTENTS: usize = 72;

/// A key identifier of 1 to 64 octets that was set for an issuer (RFC 5280 4.2.1.2), and `first`, the number of the first CRL that has it.
#[derive(Clone, Copy, PartialEq, Eq)]
pub struct KeyIdentifier {
    pub first: u64,
    pub octets: Label,
}

/// The stored key identifier with which the bytes begin, and the bytes after it; `None` if they do not begin with one.
#[tactic(auto, unfolding(crate::specs::Authority::identifier_at))]
fn first_identifier(bytes: &[u8]) -> Option<(KeyIdentifier, &[u8])>
    ensures exact { AgreesWith (λ x. (x.0, x.1.now)) result (authority.identifier_at bytes.now) }
    ensures shorter { IfSome result (λ x. length x.1.now < length bytes.now) }
{
    let (value, rest) = take(bytes)?;
    if value.tag != KEY_IDENTIFIER
        || value.contents.len() <= NUMBER_LENGTH
        || value.contents.len() > LONGEST_CONTENTS
    {
        return None;
    }
    let (first, octets) = value.contents.split_at(NUMBER_LENGTH);
    let identifier = KeyIdentifier {
        first: number(first),
        // `joined` makes one label of two texts; here all octets are in the first.
        octets: Label::joined(octets, &[]),
    };
    Some((identifier, rest))
}

/// Whether the bytes are zero or more stored key identifiers, one after the other, and nothing else.
pub(crate) fn are_identifiers(bytes: &[u8]) -> bool
    ensures { IsTrue result ↔ IsSome (authority.identifiers_at bytes.now) }
{
    let mut rest = bytes;
    while !rest.is_empty() {
        let Some((_, after)) = first_identifier(rest) else {
            return false;
        };
        rest = after;
    }
    true
}

/// The key identifiers that stay when one with this `first` is added. `bytes` begin with the latest; if it has this `first`, the new one replaces it.
#[tactic(auto, unfolding(crate::specs::Authority::earlier_identifiers))]
pub(crate) fn earlier_identifiers(bytes: &[u8], first: u64) -> &[u8]
    ensures { result.now ≡ authority.earlier_identifiers first bytes.now }
{
    match first_identifier(bytes) {
        Some((latest, rest)) if latest.first == first => rest,
        _ => bytes,
    }
}

/// The key identifier of the CRL with this number: in `bytes` (latest first), the first one whose `first` is at most the number; `None` if none is.
pub(crate) fn identifier_for(bytes: &[u8], number: u64) -> Option<Label>
    requires { IsSome (authority.identifiers_at bytes.now) }
    ensures { result ≡ authority.identifier_for (unwrap_or (authority.identifiers_at bytes.now) []) number }
{
    let mut rest = bytes;
    while let Some((identifier, after)) = first_identifier(rest) {
        if identifier.first <= number {
            return Some(identifier.octets);
        }
        rest = after;
    }
    None
}
