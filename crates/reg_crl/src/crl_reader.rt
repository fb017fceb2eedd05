//! Reads the number of a CRL and the serial numbers of its entries (RFC 5280 5.1), to compare them with a register. The functions `expect` (the
//! value must be there), `optional` and `whole` (nothing may follow) read the first DER value of some bytes, if it has a given tag.

ghost use Rattle.std.specs.Prelude.{◌≡◌, ◌<◌, ℕ, List, length, IfSome, MatchOption};
ghost use Rattle.reg_crl.specs.Reading.{IsEntryAt, after_next_update, certificate_list_at, crl_extension_at, header_at, crl_number_at, number_among, crl_number_of, revoked_entry_at, tbs_cert_list_at, time_at};
ghost use Rattle.reg_der.specs.ValueReading.{AgreesWith};

use crate::crl::CRL_NUMBER;
use reg_core::Serial;
use reg_der::tags::{
    BIT_STRING, BOOLEAN, GENERALIZED_TIME, INTEGER, OBJECT_IDENTIFIER, OCTET_STRING, SEQUENCE,
    TAGGED_0, UTC_TIME,
};
use reg_der::take;
use reg_der::values::{expect, number, optional, whole};

/// The CRL number of a CRL (RFC 5280 5.2.3), and the contents of its revokedCertificates, which [`next_entry`] reads; empty without that field.
#[derive(Clone, Copy)]
pub struct ParsedCrl<'a> {
    pub number: u64,
    pub revoked: &'a [u8],
}

/// Reads the DER of a CRL. Parses no entries and verifies no signature. `None` for other bytes, or without a CRL number of 0 to 2^63 - 1.
#[tactic(auto, unfolding(crate::specs::Reading::certificate_list_at))]
pub fn read_crl(bytes: &[u8]) -> Option<ParsedCrl<'_>>
    ensures { AgreesWith (λ crl. (crl.number, crl.revoked.now)) result (certificate_list_at bytes.now) }
{
    let (tbs, rest) = expect(SEQUENCE, whole(SEQUENCE, bytes)?)?;
    let (_, rest) = expect(SEQUENCE, rest)?;
    whole(BIT_STRING, rest)?;
    number_and_entries(tbs.contents)
}

/// The serial number of the first entry, and the entries after it. `None` if no entry is there, or its serial number is not 1 to 2^159 - 1.
pub fn next_entry(entries: &[u8]) -> Option<(Serial, &[u8])>
    ensures exact { MatchOption result
        ((serial : ℕ) (rest : List ℕ) → ¬ IsEntryAt entries.now serial rest)
        (λ x. IsEntryAt entries.now x.0 x.1.now) }
    ensures shorter { IfSome result (λ x. length x.1.now < length entries.now) }
{
    let (octets, rest) = serial_octets(entries)?;
    Some((Serial::from_der(octets)?, rest))
}

#[tactic(auto, unfolding(crate::specs::Reading::revoked_entry_at))]
fn serial_octets(entries: &[u8]) -> Option<(&[u8], &[u8])>
    ensures exact { AgreesWith (λ x. (x.0.now, x.1.now)) result (revoked_entry_at entries.now) }
    ensures shorter { IfSome result (λ x. length x.1.now < length entries.now) }
{
    let (entry, rest) = expect(SEQUENCE, entries)?;
    let (serial, _) = expect(INTEGER, entry.contents)?;
    Some((serial.contents, rest))
}

#[tactic(auto, unfolding(crate::specs::Reading::tbs_cert_list_at))]
fn number_and_entries(bytes: &[u8]) -> Option<ParsedCrl<'_>>
    ensures { AgreesWith (λ crl. (crl.number, crl.revoked.now)) result (tbs_cert_list_at bytes.now) }
{
    let (revoked, rest) = optional(SEQUENCE, skip_header(bytes)?)?;
    let number = crl_number(rest)?;
    Some(ParsedCrl {
        number,
        revoked: revoked.unwrap_or(&[]),
    })
}

/// The bytes after version, signature (an AlgorithmIdentifier), issuer, thisUpdate and nextUpdate.
#[tactic(auto, unfolding(crate::specs::Reading::header_at))]
fn skip_header(bytes: &[u8]) -> Option<&[u8]>
    ensures { AgreesWith (λ x. x.now) result (header_at bytes.now) }
{
    let (_, rest) = optional(INTEGER, bytes)?;
    let (_, rest) = expect(SEQUENCE, rest)?;
    let (_, rest) = expect(SEQUENCE, rest)?;
    skip_next_update(skip_time(rest)?)
}

#[tactic(auto, unfolding(crate::specs::Reading::time_at))]
fn skip_time(bytes: &[u8]) -> Option<&[u8]>
    ensures { AgreesWith (λ x. x.now) result (time_at bytes.now) }
{
    let (time, rest) = take(bytes)?;
    if time.tag == UTC_TIME || time.tag == GENERALIZED_TIME {
        Some(rest)
    } else {
        None
    }
}

#[tactic(auto, unfolding(crate::specs::Reading::after_next_update))]
fn skip_next_update(bytes: &[u8]) -> Option<&[u8]>
    ensures { AgreesWith (λ x. x.now) result (after_next_update bytes.now) }
{
    match bytes {
        [first, ..] if *first == UTC_TIME || *first == GENERALIZED_TIME => skip_time(bytes),
        _ => Some(bytes),
    }
}

/// The CRL number in crlExtensions, which must be the last field.
#[tactic(auto, unfolding(crate::specs::Reading::crl_number_at))]
fn crl_number(bytes: &[u8]) -> Option<u64>
    ensures { result ≡ crl_number_at bytes.now }
{
    let extensions = whole(SEQUENCE, whole(TAGGED_0, bytes)?)?;
    number_among(extensions)
}

fn number_among(extensions: &[u8]) -> Option<u64>
    ensures { result ≡ number_among (length extensions.now) extensions.now }
{
    let mut rest = extensions;
    while !rest.is_empty() {
        let (identifier, value, after) = next_extension(rest)?;
        if identifier == CRL_NUMBER.as_slice() {
            return number_of_integer(whole(INTEGER, value)?);
        }
        rest = after;
    }
    None
}

#[tactic(auto, unfolding(crate::specs::Reading::crl_extension_at))]
fn next_extension(bytes: &[u8]) -> Option<(&[u8], &[u8], &[u8])>
    ensures exact { AgreesWith (λ x. ((x.0.now, x.1.now), x.2.now)) result (crl_extension_at bytes.now) }
    ensures shorter { IfSome result (λ x. length x.2.now < length bytes.now) }
{
    let (extension, rest) = expect(SEQUENCE, bytes)?;
    let (identifier, after_identifier) = expect(OBJECT_IDENTIFIER, extension.contents)?;
    let (_, after_critical) = optional(BOOLEAN, after_identifier)?;
    let value = whole(OCTET_STRING, after_critical)?;
    Some((identifier.contents, value, rest))
}

/// The number that the contents octets of an INTEGER encode (X.690 8.3). `None` if it is negative, or if there are no octets or more than eight.
fn number_of_integer(octets: &[u8]) -> Option<u64>
    ensures { result ≡ crl_number_of octets.now }
{
    if octets.is_empty() || octets[0] >= 0x80 || octets.len() > 8 {
        return None;
    }
    Some(number(octets))
}
