//! Checks the form of keys and signatures. `octets_of_pair` gives the lengths of the modulus and exponent of an RSA key, or r and s of ECDSA.

ghost use Rattle.std.specs.Prelude.{◌≡◌, ◌↔◌, ◌<◌, ◌^◌, IsTrue, length};
ghost use Rattle.reg_crl_signer.specs.Forms.{HasForm, IsEcdsaValue, HasKeyForm, IsPoint, IsRsaKey, HasSignatureForm};

use crate::algorithm::Algorithm;
use crate::numbers::octets_of_pair;

/// How many octets a coordinate of a point of P-256 has (SEC 1 2.3.5). A signature's r and s have at most as many, without a zero octet for the sign.
const P256_OCTETS: usize = 32;

const P384_OCTETS: usize = 48;

/// How many octets a public key of Ed25519 has, and, in the next constant, a signature (RFC 8032 5.1.5, 5.1.6).
const ED25519_KEY: usize = 32;

const ED25519_SIGNATURE: usize = 64;

impl Algorithm {
    /// Whether `key`, the bits of a subjectPublicKey (RFC 5280 4.1.2.7), has the form of a public key of this algorithm.
    pub fn is_key(self, key: &[u8]) -> bool
        ensures { IsTrue result ↔ HasKeyForm self key.now }
    {
        match self {
            Algorithm::EcdsaSha256 => is_point(key, P256_OCTETS),
            Algorithm::EcdsaSha384 => is_point(key, P384_OCTETS),
            Algorithm::RsaSha256 => octets_of_pair(key).is_some(),
            Algorithm::Ed25519 => key.len() == ED25519_KEY,
        }
    }

    /// Whether `signature` has the form of a signature by this algorithm with the key `key`. Does not verify it.
    pub fn is_signature(self, key: &[u8], signature: &[u8]) -> bool
        ensures { IsTrue result ↔ HasSignatureForm self key.now signature.now }
    {
        match self {
            Algorithm::EcdsaSha256 => is_ecdsa_value(signature, P256_OCTETS),
            Algorithm::EcdsaSha384 => is_ecdsa_value(signature, P384_OCTETS),
            Algorithm::RsaSha256 => has_modulus_of(key, signature.len()),
            Algorithm::Ed25519 => signature.len() == ED25519_SIGNATURE,
        }
    }
}

/// As [`Algorithm::is_signature`], for the algorithm with the AlgorithmIdentifier `identifier`, in DER. `false` if no [`Algorithm`] has it.
pub fn has_form(identifier: &[u8], key: &[u8], signature: &[u8]) -> bool
    ensures { IsTrue result
        ↔ HasForm (record { algorithm = identifier.now; public_key = key.now }) signature.now }
{
    match Algorithm::from_identifier(identifier) {
        Some(algorithm) => algorithm.is_signature(key, signature),
        None => false,
    }
}

/// Whether `key` has the form of a point (SEC 1 2.3.3): octet 4 and two coordinates of `octets` octets, or octet 2 or 3 and one coordinate.
/// With fewer than 100 `octets`, the sums below can't overflow.
fn is_point(key: &[u8], octets: usize) -> bool
    requires { octets < 100 }
    ensures { IsTrue result ↔ IsPoint octets key.now }
{
    match key {
        [first, ..] if *first == 4 => key.len() == 1 + 2 * octets,
        [first, ..] if *first == 2 || *first == 3 => key.len() == 1 + octets,
        _ => false,
    }
}

fn is_ecdsa_value(signature: &[u8], octets: usize) -> bool
    ensures { IsTrue result ↔ IsEcdsaValue (256 ^ octets) signature.now }
{
    match octets_of_pair(signature) {
        Some((r, s)) => r <= octets && s <= octets,
        None => false,
    }
}

/// Whether the key has the form of an RSA key with a modulus of `octets` octets; its signatures have as many (RFC 8017 8.2.1).
fn has_modulus_of(key: &[u8], octets: usize) -> bool
    ensures { IsTrue result ↔ IsRsaKey key.now octets }
{
    match octets_of_pair(key) {
        Some((modulus, _)) => modulus == octets,
        None => false,
    }
}
