//! Reads an OCSP request (RFC 6960 4.1.1). The functions `expect` (the value must be there), `optional`, `whole` (nothing may follow) and `last`
//! (as `whole`, or there are no bytes) read the first DER value of some bytes, if it has a given tag.

ghost use Rattle.std.specs.Prelude.{◌≡◌, ℕ, List, Option, ◌≤◌, ◌<◌, length, IfOk, IfSome, IsErrOf, option_copied};
ghost use Rattle.reg_der.specs.ValueReading.{AgreesWith, value_at};
ghost use Rattle.reg_ocsp.specs.Request.{CanBeAnswered, Id, IsNonce, IsOcspRequest};
ghost use Rattle.reg_ocsp.specs.RequestReading.{algorithm_at, ids_at, list_at, hashes_and_serial_at, parts_at, read_all, request_at, serial_at, signed_at, single_at, cert_id_at, tbs_at, version_at};
ghost use Rattle.reg_ocsp.specs.RequestReading as spec;
ghost use Rattle.reg_ocsp.specs.Request as grammar;
ghost use Rattle.reg_ocsp.specs.Views.{ids_model, id_model, GivesUnlessMemory};

use crate::asked::{Asked, CertId};
use crate::extensions::nonce_under;
use crate::fault::RequestFault;
use reg_der::tags::{
    INTEGER, OBJECT_IDENTIFIER, OCTET_STRING, SEQUENCE, TAGGED_0, TAGGED_1, TAGGED_2,
};
use reg_der::take;
use reg_der::values::{expect, last, optional, whole};
use std::alloc::Global;

/// In bytes: as many as the body of an HTTP request may have.
const LONGEST_REQUEST: usize = 65_536;

/// The INTEGER 0, which means version 1 (RFC 6960 4.1.1).
const VERSION_1: [u8; 3] = [0x02, 0x01, 0x00];

/// The most contents octets in the extnValue of a nonce that is repeated: the DER of an OCTET STRING of 128 octets (RFC 9654 2.1).
const LONGEST_NONCE: usize = 131;

/// Reads the CertIDs and nonce of an OCSPRequest: DER of at most 65,536 bytes, at least one CertID, no critical extension but the nonce. `Malformed`
/// exactly for other bytes. Defaults (version v1, `critical` FALSE) may be encoded, and Extensions may be empty. The parameters of hashAlgorithm, if
/// any, are one value with a tag of one octet. OIDs (not empty), requestorName, optionalSignature and extnValue may have any contents.
pub fn read_request(alloc: Global, bytes: &[u8]) -> Result<Asked<'_>, RequestFault>
    ensures found { IfOk result
        (λ a. IsOcspRequest bytes.now (ids_model a.ids.items) (option_copied a.nonce)) }
    ensures malformed { IsErrOf result RequestFault.Malformed → (ids : List Id) (nonce : Option (List ℕ))
        → IsOcspRequest bytes.now ids nonce → ⊥ }
    ensures answerable { IfOk result (λ a. CanBeAnswered (ids_model a.ids.items) (option_copied a.nonce)) }
    ensures some { IfOk result (λ a. 1 ≤ length a.ids.items) }
    ensures nonce { IfOk result (λ a. IfSome (option_copied a.nonce) IsNonce) }
{
    request(alloc, bytes)
}

#[tactic(auto, unfolding(crate::specs::RequestReading::request_at))]
fn request(alloc: Global, bytes: &[u8]) -> Result<Asked<'_>, RequestFault>
    ensures { GivesUnlessMemory (λ a. (ids_model a.ids.items, option_copied a.nonce)) result
        (request_at bytes.now) }
{
    let Some((list, nonce)) = list_and_nonce(bytes) else {
        return Err(RequestFault::Malformed);
    };
    let ids = ids(alloc, list)?;
    Ok(Asked { ids, nonce })
}

/// The contents of requestList, and the nonce to repeat, from an OCSPRequest of at most 65,536 bytes.
#[tactic(auto, unfolding(crate::specs::RequestReading::parts_at))]
fn list_and_nonce(bytes: &[u8]) -> Option<(&[u8], Option<&[u8]>)>
    ensures { AgreesWith (λ x. (x.0.now, option_copied x.1)) result (parts_at bytes.now) }
{
    if bytes.len() > LONGEST_REQUEST {
        return None;
    }
    tbs_list_and_nonce(to_be_signed(bytes)?)
}

/// The contents of an OCSPRequest's TBSRequest. Of optionalSignature only the tag and the length are checked.
#[tactic(auto, unfolding(crate::specs::RequestReading::tbs_at))]
fn to_be_signed(bytes: &[u8]) -> Option<&[u8]>
    ensures { AgreesWith (λ x. x.now) result (tbs_at bytes.now) }
{
    let (signed, rest) = expect(SEQUENCE, whole(SEQUENCE, bytes)?)?;
    last(TAGGED_0, rest)?;
    Some(signed.contents)
}

/// As `list_and_nonce`, from the contents of a TBSRequest. `nonce_under` checks the extensions under the tag [2], and gives their first nonce.
#[tactic(auto, unfolding(crate::specs::RequestReading::signed_at))]
fn tbs_list_and_nonce(bytes: &[u8]) -> Option<(&[u8], Option<&[u8]>)>
    ensures { AgreesWith (λ x. (x.0.now, option_copied x.1)) result (signed_at bytes.now) }
{
    let (list, rest) = list(bytes)?;
    let nonce = nonce_under(TAGGED_2, rest)?;
    Some((list, echoed_nonce(nonce)))
}

/// From the contents of a TBSRequest: the contents of requestList, and the bytes after that field. Of requestorName only tag and length are checked.
#[tactic(auto, unfolding(crate::specs::RequestReading::list_at))]
fn list(bytes: &[u8]) -> Option<(&[u8], &[u8])>
    ensures { AgreesWith (λ x. (x.0.now, x.1.now)) result (list_at bytes.now) }
{
    let (_, rest) = optional(TAGGED_1, after_version(bytes)?)?;
    let (list, rest) = expect(SEQUENCE, rest)?;
    Some((list.contents, rest))
}

#[tactic(auto, unfolding(crate::specs::RequestReading::version_at))]
fn after_version(bytes: &[u8]) -> Option<&[u8]>
    ensures { AgreesWith (λ x. x.now) result (version_at bytes.now) }
{
    let (version, rest) = optional(TAGGED_0, bytes)?;
    match version {
        Some(contents) if contents != VERSION_1.as_slice() => None,
        _ => Some(rest),
    }
}

fn echoed_nonce(nonce: Option<&[u8]>) -> Option<&[u8]>
    ensures { option_copied result ≡ grammar.echoed_nonce (option_copied nonce.entry) }
{
    nonce.filter(|value| !value.is_empty() && value.len() <= LONGEST_NONCE)
}

#[tactic(auto, unfolding(crate::specs::RequestReading::ids_at))]
fn ids(alloc: Global, bytes: &[u8]) -> Result<Vec<CertId<'_>>, RequestFault>
    ensures { GivesUnlessMemory (λ ids. ids_model ids.items) result (ids_at bytes.now) }
{
    if bytes.is_empty() {
        return Err(RequestFault::Malformed);
    }
    let mut ids = Vec::new(alloc);
    let mut rest = bytes;
    while !rest.is_empty() {
        let Some((id, after)) = single(rest) else {
            return Err(RequestFault::Malformed);
        };
        ids.push(id)?;
        rest = after;
    }
    Ok(ids)
}

/// The CertID of the first Request, and the bytes after that Request. Its extensions are only checked: a response repeats no nonce in them.
#[tactic(auto, unfolding(crate::specs::RequestReading::single_at))]
fn single(bytes: &[u8]) -> Option<(CertId<'_>, &[u8])>
    ensures exact { AgreesWith (λ x. (id_model x.0, x.1.now)) result (single_at bytes.now) }
    ensures shorter { IfSome result (λ x. length x.1.now < length bytes.now) }
{
    let (outer, rest) = expect(SEQUENCE, bytes)?;
    let (id, extensions) = cert_id(outer.contents)?;
    nonce_under(TAGGED_0, extensions)?;
    Some((id, rest))
}

#[tactic(auto, unfolding(crate::specs::RequestReading::cert_id_at))]
fn cert_id(bytes: &[u8]) -> Option<(CertId<'_>, &[u8])>
    ensures { AgreesWith (λ x. (id_model x.0, x.1.now)) result (cert_id_at bytes.now) }
{
    let (outer, rest) = expect(SEQUENCE, bytes)?;
    let (algorithm, after_algorithm) = algorithm(outer.contents)?;
    let (name_hash, key_hash, serial) = hashes_and_serial(after_algorithm)?;
    let id = CertId {
        raw: outer.raw,
        algorithm,
        name_hash,
        key_hash,
        serial,
    };
    Some((id, rest))
}

#[tactic(auto, unfolding(crate::specs::RequestReading::hashes_and_serial_at))]
fn hashes_and_serial(bytes: &[u8]) -> Option<(&[u8], &[u8], &[u8])>
    ensures { AgreesWith (λ x. (x.0.now, x.1.now, x.2.now)) result (hashes_and_serial_at bytes.now) }
{
    let (name_hash, after_name) = expect(OCTET_STRING, bytes)?;
    let (key_hash, after_key) = expect(OCTET_STRING, after_name)?;
    let serial = serial(after_key)?;
    Some((name_hash.contents, key_hash.contents, serial))
}

#[tactic(auto, unfolding(crate::specs::RequestReading::serial_at))]
fn serial(bytes: &[u8]) -> Option<&[u8]>
    ensures { AgreesWith (λ x. x.now) result (serial_at bytes.now) }
{
    let octets = whole(INTEGER, bytes)?;
    if is_shortest(octets) {
        Some(octets)
    } else {
        None
    }
}

#[tactic(auto, unfolding(crate::specs::RequestReading::algorithm_at))]
fn algorithm(bytes: &[u8]) -> Option<(&[u8], &[u8])>
    ensures { AgreesWith (λ x. (x.0.now, x.1.now)) result (algorithm_at bytes.now) }
{
    let (outer, rest) = expect(SEQUENCE, bytes)?;
    let (identifier, parameters) = expect(OBJECT_IDENTIFIER, outer.contents)?;
    if identifier.contents.is_empty() || !is_at_most_one(parameters) {
        return None;
    }
    Some((outer.raw, rest))
}

/// Whether the bytes (parameters of hashAlgorithm) are one DER value or none.
fn is_at_most_one(bytes: &[u8]) -> bool
    ensures { result ≡ read_all bytes.now (value_at bytes.now) }
{
    match take(bytes) {
        None => bytes.is_empty(),
        Some((_, rest)) => rest.is_empty(),
    }
}

/// Whether these are the fewest contents octets of an INTEGER: at least one, and the first nine bits neither all zero nor all one (X.690 8.3.2).
fn is_shortest(octets: &[u8]) -> bool
    ensures { result ≡ spec.is_shortest octets.now }
{
    match octets {
        [] => false,
        [_] => true,
        [first, second, ..] => {
            let all_zero = *first == 0 && *second < 128;
            let all_one = *first == 255 && *second >= 128;
            !all_zero && !all_one
        }
    }
}
