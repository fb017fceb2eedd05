//! Checks the extensions of an OCSP request, and finds the nonce. The functions `expect` (the value must be there), `optional`, `whole` (nothing may
//! follow) and `last` (as `whole`, or there are no bytes) read the first DER value of some bytes, if it has a given tag.

ghost use Rattle.std.specs.Prelude.{◌≡◌, ◌<◌, length, IfSome, option_copied};
ghost use Rattle.reg_der.specs.ValueReading.{AgreesWith};
ghost use Rattle.reg_ocsp.specs.RequestReading.{critical_at, extension_at, fields_at, flag_of, last_nonce_at, nonce_at, written_flag};
ghost use Rattle.reg_ocsp.specs.RequestReading as spec;
ghost use Rattle.reg_ocsp.specs.Views.{extension_model};

use reg_der::tags::{BOOLEAN, OBJECT_IDENTIFIER, OCTET_STRING, SEQUENCE};
use reg_der::values::{expect, last, optional, whole};

/// The contents of the OID id-pkix-ocsp-nonce, 1.3.6.1.5.5.7.48.1.2 (RFC 6960 4.4.1).
pub(crate) const NONCE: [u8; 9] = [0x2B, 0x06, 0x01, 0x05, 0x05, 0x07, 0x30, 0x01, 0x02];

/// An Extension (RFC 5280 4.1) of an OCSP request: the contents of extnID, `critical` as it is encoded (`None` if it is left out, which means
/// `false`), and the contents of extnValue. Only the nonce may be critical ([`is_refused`]).
#[derive(Clone, Copy)]
pub(crate) struct Extension<'a> {
    identifier: &'a [u8],
    critical: Option<bool>,
    value: &'a [u8],
}

/// The value of the first nonce in `bytes`. `bytes` must be empty, or one Extensions value with this explicit tag. `Some(None)` if there is no nonce;
/// `None` if `bytes` are anything else, or if an Extension is refused ([`is_refused`]).
#[tactic(auto, unfolding(crate::specs::RequestReading::last_nonce_at))]
pub(crate) fn nonce_under(tag: u8, bytes: &[u8]) -> Option<Option<&[u8]>>
    ensures { AgreesWith (λ x. option_copied x) result (last_nonce_at tag bytes.now) }
{
    // `last` reads the one value that is left, if any: hence the name `last_nonce_at` in the contract.
    written_nonce(last(tag, bytes)?)
}

/// As [`nonce_under`], from the contents of the explicit tag. `extensions` is `None` if the field is left out.
fn written_nonce(extensions: Option<&[u8]>) -> Option<Option<&[u8]>>
    ensures { AgreesWith (λ x. option_copied x) result (spec.written_nonce (option_copied extensions.entry)) }
{
    match extensions {
        None => Some(None),
        Some(contents) => first_nonce(contents),
    }
}

/// The value of the first nonce in one Extensions value. `Some(None)` if it has none; `None` for any other bytes, or if an Extension is refused.
#[tactic(auto, unfolding(crate::specs::RequestReading::nonce_at))]
fn first_nonce(bytes: &[u8]) -> Option<Option<&[u8]>>
    ensures { AgreesWith (λ x. option_copied x) result (nonce_at bytes.now) }
{
    let mut rest = whole(SEQUENCE, bytes)?;
    let mut nonce = None;
    while !rest.is_empty() {
        let (extension, after) = next_extension(rest)?;
        if nonce.is_none() && extension.identifier == NONCE.as_slice() {
            nonce = Some(extension.value);
        }
        rest = after;
    }
    Some(nonce)
}

/// The first Extension, and the bytes after it. `None`, here and below, if the bytes are not as expected or the Extension is refused.
#[tactic(auto, unfolding(crate::specs::RequestReading::extension_at))]
fn next_extension(bytes: &[u8]) -> Option<(Extension<'_>, &[u8])>
    ensures exact { AgreesWith (λ x. (extension_model x.0, x.1.now)) result (extension_at bytes.now) }
    ensures shorter { IfSome result (λ x. length x.1.now < length bytes.now) }
{
    let (outer, rest) = expect(SEQUENCE, bytes)?;
    let extension = extension_of(outer.contents)?;
    Some((extension, rest))
}

#[tactic(auto, unfolding(crate::specs::RequestReading::fields_at))]
fn extension_of(bytes: &[u8]) -> Option<Extension<'_>>
    ensures { AgreesWith extension_model result (fields_at bytes.now) }
{
    let (identifier, after_identifier) = expect(OBJECT_IDENTIFIER, bytes)?;
    let (critical, after_critical) = critical(after_identifier)?;
    let value = whole(OCTET_STRING, after_critical)?;
    let identifier = identifier.contents;
    if is_refused(identifier, critical) {
        return None;
    }
    Some(Extension {
        identifier,
        critical,
        value,
    })
}

fn is_refused(identifier: &[u8], critical: Option<bool>) -> bool
    ensures { result ≡ spec.is_refused identifier.now critical }
{
    identifier.is_empty() || (critical.unwrap_or(false) && identifier != NONCE.as_slice())
}

#[tactic(auto, unfolding(crate::specs::RequestReading::critical_at))]
fn critical(bytes: &[u8]) -> Option<(Option<bool>, &[u8])>
    ensures { AgreesWith (λ x. (x.0, x.1.now)) result (critical_at bytes.now) }
{
    let (written, rest) = optional(BOOLEAN, bytes)?;
    match written {
        None => Some((None, rest)),
        Some(contents) => Some((Some(flag(contents)?), rest)),
    }
}

/// The value of a BOOLEAN with these contents (X.690 8.2.2, 11.1); `None` if they are not DER.
fn flag(contents: &[u8]) -> Option<bool>
    ensures { result ≡ flag_of contents.now }
{
    match contents {
        [0xFF] => Some(true),
        [0x00] => Some(false),
        _ => None,
    }
}
