//! A certificate for OCSP responses, and how its public key is read (RFC 5280 4.1.2.7).

ghost use Rattle.std.specs.Prelude.{◌≡◌, ◌≤◌, ℕ, List, Some, IfOk, IfSome, IsErrOf, length, option_map};
ghost use Rattle.reg_der.specs.ValueReading.{AgreesWith};
ghost use Rattle.reg_ocsp.specs.Certificate.{IsCertificateOf, after_subject_at, as_key, certificate_at, key_info_at, no_unused, tbs_contents_at};
ghost use Rattle.reg_ocsp.specs.Views.{key_model};
ghost use Rattle.reg_ocsp.specs.declared.certificate.CertificateFault.TheVariants.{Memory};

use reg_der::tags::{BIT_STRING, INTEGER, SEQUENCE, TAGGED_0};
use reg_der::values::{expect, optional, whole};
use std::alloc::{AllocError, Global};
use std::marker::Model;

/// The most bytes of a certificate; [`LONGEST_KEY`]: the most bytes (not bits) of a subjectPublicKey.
const LONGEST_CERTIFICATE: usize = 65_536;

const LONGEST_KEY: usize = 2_048;

/// Why there is no [`Certificate`]. `Bad`: [`subject_public_key`] reads no key in the bytes.
#[derive(Clone, Copy, PartialEq, Eq)]
pub enum CertificateFault {
    Bad,
    Memory,
}

impl From<AllocError> for CertificateFault {
    ghost from_gives = { λ _ e. e ≡ Memory };

    fn from(_e: AllocError) -> CertificateFault {
        CertificateFault::Memory
    }
}

/// A certificate for the field `certs` of responses (RFC 6960 4.2.1): the responder's, or the issuer's. Contracts see the bytes of the three vectors.
#[derive(Drop)]
pub struct Certificate {
    der: Vec<u8>,
    algorithm: Vec<u8>,
    key: Vec<u8>,
}

impl Model for Certificate {
    ghost use Rattle.reg_ocsp.specs.Certificate.{Certified, IsCertificateOf};

    ghost Value = { Certified };

    ghost view = { λ it. record { der = it.der.items; algorithm = it.algorithm.items; key = it.key.items } };

    ghost invariant = { λ it. IsCertificateOf it.der.items it.algorithm.items it.key.items };
}

impl Certificate {
    /// The certificate with this DER. `Bad` if [`subject_public_key`] gives `None` for it; `Memory` if out of memory.
    pub fn new(alloc: Global, der: &[u8]) -> Result<Certificate, CertificateFault>
        ensures der { IfOk result (λ it. it.der ≡ der.now) }
        ensures bad { IsErrOf result CertificateFault.Bad → (algorithm key : List ℕ)
            → ¬ (IsCertificateOf der.now algorithm key) }
    {
        let public_key = match subject_public_key(der) {
            Some(public_key) => public_key,
            None => return Err(CertificateFault::Bad),
        };
        let algorithm = Vec::from_slice(alloc, public_key.algorithm)?;
        let key = Vec::from_slice(alloc, public_key.key)?;
        let der = Vec::from_slice(alloc, der)?;
        Ok(Certificate {
            der,
            algorithm,
            key,
        })
    }

    /// The whole certificate in DER: at most 65,536 bytes.
    pub fn der(&self) -> &[u8]
        ensures der { result.now ≡ self.now.der }
        ensures short { length result.now ≤ 65536 }
    {
        &self.der
    }

    /// The whole DER value of the AlgorithmIdentifier in its subjectPublicKeyInfo (RFC 5280 4.1.2.7).
    pub fn algorithm(&self) -> &[u8]
        ensures { result.now ≡ self.now.algorithm }
    {
        &self.algorithm
    }

    /// The bits of its subjectPublicKey, without the octet that counts the unused bits: 1 to 2,048 bytes.
    pub fn key(&self) -> &[u8]
        ensures key { result.now ≡ self.now.key }
        ensures certified { IsCertificateOf self.now.der self.now.algorithm result.now }
    {
        &self.key
    }
}

/// The public key of a certificate, in slices of its bytes: as [`Certificate::algorithm`] and [`Certificate::key`].
#[derive(Clone, Copy)]
pub struct SubjectPublicKey<'a> {
    pub algorithm: &'a [u8],
    pub key: &'a [u8],
}

/// The public key of a certificate of at most 65,536 bytes in DER; `None` for other bytes, a key with unused bits, or one not of 1 to 2,048 bytes.
/// Of the other fields only tags and lengths are checked, and of the TBSCertificate nothing after subjectPublicKeyInfo, such as the extensions.
pub fn subject_public_key(certificate: &[u8]) -> Option<SubjectPublicKey<'_>>
    ensures found { IfSome result (λ it. IsCertificateOf certificate.now it.algorithm.now it.key.now) }
    ensures only { (algorithm key : List ℕ) → IsCertificateOf certificate.now algorithm key
        → option_map key_model result ≡ Some (algorithm, key) }
{
    read_certificate(certificate)
}

// `expect` (the value must be there), `optional` and `whole` (nothing may follow; gives the contents) read the first DER value, by its tag.
#[tactic(auto, unfolding(crate::specs::Certificate::certificate_at))]
fn read_certificate(bytes: &[u8]) -> Option<SubjectPublicKey<'_>>
    ensures { AgreesWith key_model result (certificate_at bytes.now) }
{
    let tbs = tbs_contents(bytes)?;
    let (info, _) = expect(SEQUENCE, after_subject(tbs)?)?;
    key_info(info.contents)
}

#[tactic(auto, unfolding(crate::specs::Certificate::tbs_contents_at))]
fn tbs_contents(bytes: &[u8]) -> Option<&[u8]>
    ensures { AgreesWith (λ x. x.now) result (tbs_contents_at bytes.now) }
{
    if bytes.len() > LONGEST_CERTIFICATE {
        return None;
    }
    let (tbs, rest) = expect(SEQUENCE, whole(SEQUENCE, bytes)?)?;
    let (_, rest) = expect(SEQUENCE, rest)?;
    whole(BIT_STRING, rest)?;
    Some(tbs.contents)
}

/// The bytes after version, serialNumber, signature, issuer, validity and subject, in the contents of a TBSCertificate.
#[tactic(auto, unfolding(crate::specs::Certificate::after_subject_at))]
fn after_subject(tbs: &[u8]) -> Option<&[u8]>
    ensures { AgreesWith (λ x. x.now) result (after_subject_at tbs.now) }
{
    let (_, rest) = optional(TAGGED_0, tbs)?;
    let (_, rest) = expect(INTEGER, rest)?;
    let (_, rest) = expect(SEQUENCE, rest)?;
    let (_, rest) = expect(SEQUENCE, rest)?;
    let (_, rest) = expect(SEQUENCE, rest)?;
    let (_, rest) = expect(SEQUENCE, rest)?;
    Some(rest)
}

#[tactic(auto, unfolding(crate::specs::Certificate::key_info_at))]
fn key_info(bytes: &[u8]) -> Option<SubjectPublicKey<'_>>
    ensures { AgreesWith key_model result (key_info_at bytes.now) }
{
    let (algorithm, rest) = expect(SEQUENCE, bytes)?;
    let bits = without_unused_bits(whole(BIT_STRING, rest)?)?;
    let key = checked_key(bits)?;
    Some(SubjectPublicKey {
        algorithm: algorithm.raw,
        key,
    })
}

fn without_unused_bits(contents: &[u8]) -> Option<&[u8]>
    ensures { AgreesWith (λ x. x.now) result (no_unused contents.now) }
{
    match contents {
        [unused, bits @ ..] if *unused == 0 => Some(bits),
        _ => None,
    }
}

fn checked_key(bits: &[u8]) -> Option<&[u8]>
    ensures { AgreesWith (λ x. x.now) result (as_key bits.now) }
{
    if bits.is_empty() || bits.len() > LONGEST_KEY {
        return None;
    }
    Some(bits)
}
