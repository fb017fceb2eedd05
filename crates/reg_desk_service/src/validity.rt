//! Reads notAfter of a certificate (RFC 5280 4.1.2.5). `take` returns the first DER value and the bytes after it. `expect` does so only if the value
//! has the given tag. `optional` skips the value only if it has the given tag. `whole` returns a value's contents, if nothing comes after it.

ghost use Rattle.std.specs.Prelude.{◌≡◌, ◌≢◌, ℕ, Some, IfNone, IfSome, length};
ghost use Rattle.reg_core.specs.Calendar.{IsMoment, moment_text};
ghost use Rattle.reg_der.specs.ValueReading.{AgreesWith};
ghost use Rattle.reg_desk_service.specs.Validities.{century as century_spec, dated as dated_spec, generalized_text as generalized_spec, not_after_at, validity_time_at, utc_time_text as utc_spec, validity_at};

use reg_core::Moment;
use reg_der::tags::{GENERALIZED_TIME, INTEGER, SEQUENCE, TAGGED_0, UTC_TIME};
use reg_der::take;
use reg_der::values::{expect, optional, whole};

/// notAfter of a certificate in DER. `None` if the fields up to validity can't be read, or if notAfter is no [`Moment`]. Later fields are not read.
pub(crate) fn not_after(certificate: &[u8]) -> Option<Moment>
    ensures found { IfSome result (λ at. not_after_at certificate.now ≡ Some (moment_text at)) }
    ensures none { IfNone result
        ((at : ℕ) → IsMoment at → not_after_at certificate.now ≢ Some (moment_text at)) }
{
    match not_after_text(certificate) {
        Some(text) => Moment::read(&text),
        None => None,
    }
}

/// notAfter of a certificate, the second value in its validity, in the form `2026-01-01T00:00:00Z`. `Moment::read` checks the digits later.
#[tactic(auto, unfolding(crate::specs::Validities::not_after_at))]
fn not_after_text(certificate: &[u8]) -> Option<[u8; 20]>
    ensures { result ≡ not_after_at certificate.now }
{
    let (tbs, _) = expect(SEQUENCE, whole(SEQUENCE, certificate)?)?;
    let validity = validity_in(tbs.contents)?;
    let (_, rest) = take(validity)?;
    let (time, _) = take(rest)?;
    time_text(time.tag, time.contents)
}

/// The contents of the field validity in those of a TBSCertificate (RFC 5280 4.1): after version, serialNumber, signature and issuer.
#[tactic(auto, unfolding(crate::specs::Validities::validity_at))]
fn validity_in(bytes: &[u8]) -> Option<&[u8]>
    ensures { AgreesWith (λ x. x.now) result (validity_at bytes.now) }
{
    let (_, rest) = optional(TAGGED_0, bytes)?;
    let (_, rest) = expect(INTEGER, rest)?;
    let (_, rest) = expect(SEQUENCE, rest)?;
    let (_, rest) = expect(SEQUENCE, rest)?;
    let (validity, _) = expect(SEQUENCE, rest)?;
    Some(validity.contents)
}

fn time_text(tag: u8, digits: &[u8]) -> Option<[u8; 20]>
    ensures { result ≡ validity_time_at tag digits.now }
{
    match tag {
        UTC_TIME => utc_text(digits),
        GENERALIZED_TIME => generalized_text(digits),
        _ => None,
    }
}

/// The form `2026-01-01T00:00:00Z` of a UTCTime, whose contents (`digits`) are `YYMMDDHHMMSSZ`. Its year is 1950 to 2049, by its first digit.
fn utc_text(digits: &[u8]) -> Option<[u8; 20]>
    ensures { result ≡ utc_spec digits.now }
{
    if digits.len() != 13 {
        return None;
    }
    Some(dated(century(digits[0]), digits))
}

/// The same of a GeneralizedTime, whose contents are `YYYYMMDDHHMMSSZ`.
fn generalized_text(digits: &[u8]) -> Option<[u8; 20]>
    ensures { result ≡ generalized_spec digits.now }
{
    if digits.len() != 15 {
        return None;
    }
    Some(dated((digits[0], digits[1]), &digits[2..]))
}

fn century(decade: u8) -> (u8, u8)
    ensures { result ≡ century_spec decade }
{
    if decade < b'5' {
        (b'2', b'0')
    } else {
        (b'1', b'9')
    }
}

/// The form `2026-01-01T00:00:00Z` of a time; `century` has the first two digits of its year, and `digits` the rest: `YYMMDDHHMMSSZ`.
fn dated(century: (u8, u8), digits: &[u8]) -> [u8; 20]
    requires { length digits.now ≡ 13 }
    ensures { result ≡ dated_spec century digits.now }
{
    [
        century.0, century.1, digits[0], digits[1], b'-', digits[2], digits[3], b'-', digits[4],
        digits[5], b'T', digits[6], digits[7], b':', digits[8], digits[9], b':', digits[10],
        digits[11], digits[12],
    ]
}
