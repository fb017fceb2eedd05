//! Signature algorithms. Each constant is an AlgorithmIdentifier in DER: of signatures, of keys (`P256`, `P384`, `RSA`) or of both (`ED25519`).

ghost use Rattle.std.specs.Prelude.{◌≡◌, ◌≢◌, ◌↔◌, IsTrue, MatchOption};
ghost use Rattle.reg_crl.specs.Signing.{IsAlgorithm};
ghost use Rattle.reg_crl_signer.specs.Algorithms.{algorithm_named, identifier_of, algorithm_name, key_identifier_of};
ghost use Rattle.reg_crl_signer.specs.declared.algorithm.Algorithm.{Algorithm};

/// ecdsa-with-SHA256, 1.2.840.10045.4.3.2. The next constant is ecdsa-with-SHA384, 1.2.840.10045.4.3.3.
const ECDSA_SHA256: [u8; 12] = [
    0x30, 0x0A, 0x06, 0x08, 0x2A, 0x86, 0x48, 0xCE, 0x3D, 0x04, 0x03, 0x02,
];

const ECDSA_SHA384: [u8; 12] = [
    0x30, 0x0A, 0x06, 0x08, 0x2A, 0x86, 0x48, 0xCE, 0x3D, 0x04, 0x03, 0x03,
];

/// sha256WithRSAEncryption, 1.2.840.113549.1.1.11, with parameters NULL.
const RSA_SHA256: [u8; 15] = [
    0x30, 0x0D, 0x06, 0x09, 0x2A, 0x86, 0x48, 0x86, 0xF7, 0x0D, 0x01, 0x01, 0x0B, 0x05, 0x00,
];

/// id-Ed25519, 1.3.101.112 (RFC 8410 3).
const ED25519: [u8; 7] = [0x30, 0x05, 0x06, 0x03, 0x2B, 0x65, 0x70];

/// id-ecPublicKey, 1.2.840.10045.2.1, with the curve secp256r1, 1.2.840.10045.3.1.7; `P384` has secp384r1, 1.3.132.0.34 (RFC 5480 2.1.1).
const P256: [u8; 21] = [
    0x30, 0x13, 0x06, 0x07, 0x2A, 0x86, 0x48, 0xCE, 0x3D, 0x02, 0x01, 0x06, 0x08, 0x2A, 0x86, 0x48,
    0xCE, 0x3D, 0x03, 0x01, 0x07,
];

const P384: [u8; 18] = [
    0x30, 0x10, 0x06, 0x07, 0x2A, 0x86, 0x48, 0xCE, 0x3D, 0x02, 0x01, 0x06, 0x05, 0x2B, 0x81, 0x04,
    0x00, 0x22,
];

/// rsaEncryption, 1.2.840.113549.1.1.1, with parameters NULL (RFC 3279 2.3.1).
const RSA: [u8; 15] = [
    0x30, 0x0D, 0x06, 0x09, 0x2A, 0x86, 0x48, 0x86, 0xF7, 0x0D, 0x01, 0x01, 0x01, 0x05, 0x00,
];

/// A signature algorithm, with its one kind of key: for ECDSA (RFC 5758 3.2) P-256 with SHA-256, P-384 with SHA-384. RSA is RSASSA-PKCS1-v1_5.
#[derive(Clone, Copy, Debug, PartialEq, Eq)]
pub enum Algorithm {
    EcdsaSha256,
    EcdsaSha384,
    RsaSha256,
    Ed25519,
}

impl Algorithm {
    /// The algorithm with this name ([`Algorithm::name`]). `None` for any other text.
    pub fn read(name: &str) -> Option<Algorithm>
        ensures named { MatchOption result ((algorithm : Algorithm) → algorithm_name algorithm ≢ name.now)
            (λ algorithm. algorithm_name algorithm ≡ name.now) }
        ensures exact { result ≡ algorithm_named name.now }
    {
        match name {
            "ecdsa-sha256" => Some(Algorithm::EcdsaSha256),
            "ecdsa-sha384" => Some(Algorithm::EcdsaSha384),
            "rsa-sha256" => Some(Algorithm::RsaSha256),
            "ed25519" => Some(Algorithm::Ed25519),
            _ => None,
        }
    }

    /// The algorithm with this AlgorithmIdentifier in DER ([`Algorithm::identifier`]). `None` for any other bytes.
    pub fn from_identifier(identifier: &[u8]) -> Option<Algorithm>
        ensures { MatchOption result ((algorithm : Algorithm) → identifier_of algorithm ≢ identifier.now)
            (λ algorithm. identifier_of algorithm ≡ identifier.now) }
    {
        if Algorithm::EcdsaSha256.is(identifier) {
            Some(Algorithm::EcdsaSha256)
        } else if Algorithm::EcdsaSha384.is(identifier) {
            Some(Algorithm::EcdsaSha384)
        } else if Algorithm::RsaSha256.is(identifier) {
            Some(Algorithm::RsaSha256)
        } else if Algorithm::Ed25519.is(identifier) {
            Some(Algorithm::Ed25519)
        } else {
            None
        }
    }

    fn is(self, identifier: &[u8]) -> bool
        ensures { IsTrue result ↔ (identifier_of self ≡ identifier.now) }
    {
        self.identifier() == identifier
    }

    /// Its name: `ecdsa-sha256`, `ecdsa-sha384`, `rsa-sha256` or `ed25519`.
    pub fn name(self) -> &'static str
        ensures { result.now ≡ algorithm_name self }
    {
        match self {
            Algorithm::EcdsaSha256 => "ecdsa-sha256",
            Algorithm::EcdsaSha384 => "ecdsa-sha384",
            Algorithm::RsaSha256 => "rsa-sha256",
            Algorithm::Ed25519 => "ed25519",
        }
    }

    /// The AlgorithmIdentifier of its signatures in DER: the parameters are NULL for RSA, and left out otherwise.
    #[tactic(auto, using(crate::proofs::Identifiers::identifier_is), unfolding(reg_der::specs::Der::tlv, reg_der::specs::Der::length_octets))]
    pub fn identifier(self) -> &'static [u8]
        ensures value { result.now ≡ identifier_of self }
        ensures within { IsAlgorithm result.now }
    {
        match self {
            Algorithm::EcdsaSha256 => &ECDSA_SHA256,
            Algorithm::EcdsaSha384 => &ECDSA_SHA384,
            Algorithm::RsaSha256 => &RSA_SHA256,
            Algorithm::Ed25519 => &ED25519,
        }
    }
}

/// Whether `identifier` is the AlgorithmIdentifier in DER of the subjectPublicKeyInfo of a key for this algorithm (RFC 5280 4.1.2.7).
#[tactic(auto, unfolding(reg_der::specs::Der::tlv, reg_der::specs::Der::length_octets))]
pub fn is_key_algorithm_identifier(algorithm: Algorithm, identifier: &[u8]) -> bool
    ensures { IsTrue result ↔ (identifier.now ≡ key_identifier_of algorithm) }
{
    match algorithm {
        Algorithm::EcdsaSha256 => identifier == P256.as_slice(),
        Algorithm::EcdsaSha384 => identifier == P384.as_slice(),
        Algorithm::RsaSha256 => identifier == RSA.as_slice(),
        Algorithm::Ed25519 => identifier == ED25519.as_slice(),
    }
}
