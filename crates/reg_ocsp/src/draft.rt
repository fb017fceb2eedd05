//! An OCSP response that waits for its signature.

ghost use Rattle.std.specs.Prelude.{◌≡◌, ◌^◌, ◌≤◌, IfOk, IfSome, length, option_copied, option_map};
ghost use Rattle.reg_ocsp.specs.Drafts.{drafted_response};
ghost use Rattle.reg_core.specs.Buffers.{ItemsOnOk};

use crate::response::{RefusalStatus, basic_with, refusal};
use reg_core::Memory;
use reg_der::copy_of;
use std::alloc::Global;
use std::marker::Model;

/// The fields of a BasicOCSPResponse except the signature (RFC 6960 4.2.1): ResponseData (`message`), signatureAlgorithm, the certificate in `certs`
/// (if any). `key` is the signer's public key, to check the signature's form. The register may change before the signature: no later step reads it.
#[derive(Drop)]
pub struct Draft {
    message: Vec<u8>,
    algorithm: Vec<u8>,
    key: Vec<u8>,
    certificate: Option<Vec<u8>>,
}

impl Model for Draft {
    ghost use Rattle.std.specs.Prelude.{◌^◌, ◌≤◌, IfSome, length, option_map};
    ghost use Rattle.reg_ocsp.specs.Drafts.{Drafted};

    ghost Value = { Drafted };

    ghost view = { λ it. record {
      message = it.message.items;
      algorithm = it.algorithm.items;
      key = it.key.items;
      certificate = option_map (λ bytes. bytes.items) it.certificate;
    } };

    ghost invariant = { λ it. (length it.message.items ≤ 2 ^ 27) × (length it.algorithm.items ≤ 1024)
        × IfSome it.certificate (λ bytes. length bytes.items ≤ 65536) };
}

impl Draft {
    /// Copies the ResponseData, the signature's AlgorithmIdentifier, the bits of the signer's subjectPublicKey, and the certificate, if any.
    pub fn of(
        alloc: Global,
        message: &[u8],
        algorithm: &[u8],
        key: &[u8],
        certificate: Option<&[u8]>,
    ) -> Result<Draft, Memory>
        requires short_message { length message.now ≤ 2 ^ 27 }
        requires short_algorithm { length algorithm.now ≤ 1024 }
        requires short_certificate { IfSome (option_copied certificate) (λ bytes. length bytes ≤ 65536) }
        ensures { IfOk result (λ it. it ≡ record {
          message = message.now;
          algorithm = algorithm.now;
          key = key.now;
          certificate = option_copied certificate.entry;
        }) }
    {
        let message = copy_of(alloc, message)?;
        let algorithm = copy_of(alloc, algorithm)?;
        let key = copy_of(alloc, key)?;
        let certificate = copy_of_optional(alloc, certificate)?;
        Ok(Draft {
            message,
            algorithm,
            key,
            certificate,
        })
    }

    /// The ResponseData, which is to be signed.
    pub fn message(&self) -> &[u8]
        ensures { result.now ≡ self.now.message }
    {
        &self.message
    }

    pub fn algorithm(&self) -> &[u8]
        ensures { result.now ≡ self.now.algorithm }
    {
        &self.algorithm
    }

    /// The bits of the subjectPublicKey of the signer.
    pub fn key(&self) -> &[u8]
        ensures { result.now ≡ self.now.key }
    {
        &self.key
    }

    /// The whole OCSPResponse with this signature (at most 65,536 bytes); internalError without one (RFC 6960 2.3). [`Memory`] if out of memory.
    pub fn response(&self, alloc: Global, signature: Option<&[u8]>) -> Result<Vec<u8>, Memory>
        requires { IfSome (option_copied signature) (λ bytes. length bytes ≤ 65536) }
        ensures { ItemsOnOk result (drafted_response self.now (option_copied signature.entry)) }
    {
        match signature {
            Some(signature) => basic_with(
                alloc,
                &self.message,
                &self.algorithm,
                signature,
                slice_of(&self.certificate),
            ),
            None => copy_of(alloc, &refusal(RefusalStatus::Internal)),
        }
    }
}

fn copy_of_optional(alloc: Global, bytes: Option<&[u8]>) -> Result<Option<Vec<u8>>, Memory>
    ensures { IfOk result (λ copy. option_map (λ it. it.items) copy ≡ option_copied bytes.entry) }
{
    match bytes {
        Some(bytes) => Ok(Some(copy_of(alloc, bytes)?)),
        None => Ok(None),
    }
}

/// A slice of the bytes, if there is a vector.
pub fn slice_of(bytes: &Option<Vec<u8>>) -> Option<&[u8]>
    ensures { option_copied result ≡ option_map (λ it. it.items) bytes.now }
{
    Some(bytes.as_ref()?.as_slice())
}
