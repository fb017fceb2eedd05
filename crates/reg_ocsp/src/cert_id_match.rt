//! Compares the hashes in a CertID with an issuer's Name and key, and gives the serial number in the CertID (RFC 6960 4.1.1).

ghost use Rattle.std.specs.Prelude.{◌≡◌, ℕ, ◌↔◌, IsTrue, IfSome, IfNone};
ghost use Rattle.sha1.specs.Sha1.{sha1};
ghost use Rattle.sha2.specs.Sha256.{sha256};
ghost use Rattle.reg_ocsp.specs.Matching.{IsHashAlgorithm, IsHashedBy, IsMatch, NamesIssuer, sha1_identifier, sha256_identifier};
ghost use Rattle.reg_ocsp.specs.Views.{id_model};

use crate::asked::CertId;
use reg_core::Serial;
use reg_der::Issuer;
use sha2::{Digest, Sha256};

/// The AlgorithmIdentifier of SHA-1 without parameters; [`SHA1_NULL`] has the parameters NULL (RFC 3370 2.1).
const SHA1: [u8; 9] = [0x30, 0x07, 0x06, 0x05, 0x2B, 0x0E, 0x03, 0x02, 0x1A];

const SHA1_NULL: [u8; 11] = [
    0x30, 0x09, 0x06, 0x05, 0x2B, 0x0E, 0x03, 0x02, 0x1A, 0x05, 0x00,
];

/// The AlgorithmIdentifier of SHA-256 without parameters; [`SHA256_NULL`] has the parameters NULL (RFC 5754 2.2).
const SHA256: [u8; 13] = [
    0x30, 0x0B, 0x06, 0x09, 0x60, 0x86, 0x48, 0x01, 0x65, 0x03, 0x04, 0x02, 0x01,
];

const SHA256_NULL: [u8; 15] = [
    0x30, 0x0D, 0x06, 0x09, 0x60, 0x86, 0x48, 0x01, 0x65, 0x03, 0x04, 0x02, 0x01, 0x05, 0x00,
];

/// The serial number of a CertID, if it is 1 to 2^159 - 1 and the hashes are the SHA-1, or the SHA-256, of the issuer's Name and key; else `None`.
/// The parameters of the hash algorithm may be NULL or left out.
pub fn matches(issuer: &Issuer, id: &CertId<'_>) -> Option<Serial>
    ensures found { IfSome result (λ serial. IsMatch issuer.now (id_model id.now) serial) }
    ensures none { IfNone result ((serial : ℕ) → ¬ (IsMatch issuer.now (id_model id.now) serial)) }
    ensures only { (serial : ℕ) → IsMatch issuer.now (id_model id.now) serial → result ≡ Some serial }
{
    if !names_by_sha1(issuer, id) && !names_by_sha256(issuer, id) {
        return None;
    }
    Serial::from_der(id.serial)
}

fn names_by_sha1(issuer: &Issuer, id: &CertId<'_>) -> bool
    ensures { IsTrue result ↔ IsHashedBy sha1_identifier sha1 issuer.now (id_model id.now) }
{
    is_sha1(id.algorithm)
        && id.name_hash == issuer.name_sha1().as_slice()
        && id.key_hash == issuer.key_sha1().as_slice()
}

fn names_by_sha256(issuer: &Issuer, id: &CertId<'_>) -> bool
    ensures { IsTrue result ↔ IsHashedBy sha256_identifier sha256 issuer.now (id_model id.now) }
{
    is_sha256(id.algorithm)
        && is_sha256_of(id.name_hash, issuer.name())
        && is_sha256_of(id.key_hash, issuer.key())
}

fn is_sha256_of(hash: &[u8], bytes: &[u8]) -> bool
    ensures { IsTrue result ↔ hash.now ≡ sha256 bytes.now }
{
    hash == Sha256::digest(bytes).as_slice()
}

#[tactic(auto, unfolding(reg_der::specs::Der::tlv, reg_der::specs::Der::length_octets))]
fn is_sha1(algorithm: &[u8]) -> bool
    ensures { IsTrue result ↔ IsHashAlgorithm sha1_identifier algorithm.now }
{
    algorithm == SHA1_NULL.as_slice() || algorithm == SHA1.as_slice()
}

#[tactic(auto, unfolding(reg_der::specs::Der::tlv, reg_der::specs::Der::length_octets))]
fn is_sha256(algorithm: &[u8]) -> bool
    ensures { IsTrue result ↔ IsHashAlgorithm sha256_identifier algorithm.now }
{
    algorithm == SHA256_NULL.as_slice() || algorithm == SHA256.as_slice()
}
