//! The signer of a register: a key, the placeholder digest, or none.

ghost use Rattle.std.specs.Prelude.{◌≡◌, None};
ghost use Rattle.std.specs.Option.{ForSome};
ghost use Rattle.reg_crl_signer.specs.RegisterSigners.{HasNoSigner, SignsAsBefore, register_signer_identity, key_of};
ghost use Rattle.reg_crl_signer.specs.PresetSignature.{IsPreset};

use crate::device::Device;
use crate::preset_signature::PresetSignature;
use crate::signer::{DeviceSigner, count_failure};
use reg_crl::{DigestSeal, SignFault, Signer};
use std::alloc::Global;

#[derive(Drop)]
pub enum RegisterSigner<D: Device> {
    /// A key in a device (such as a signer process): the issuer's, or that of an OCSP responder with its own certificate.
    Key(DeviceSigner<D>),
    /// No key: a placeholder digest (the SHA-1 of the message) instead of a signature.
    Digest(DigestSeal),
    /// No signer: each `sign` fails, and the number counts these failures. [`Signer::algorithm`], which must return one, returns that of the digest.
    NoSigner(DigestSeal, u64),
}

impl<D: Device + Drop> RegisterSigner<D> {
    /// This signer; if it is the placeholder digest, then `NoSigner` with 0 failures instead.
    pub fn without_digest(self) -> RegisterSigner<D>
        ensures key { key_of D.Device result ≡ key_of D.Device self }
        ensures same_identity { register_signer_identity D.Device result
            ≡ register_signer_identity D.Device self }
        ensures nobody { key_of D.Device result ≡ None → HasNoSigner D.Device result }
    {
        match self {
            RegisterSigner::Key(signer) => RegisterSigner::Key(signer),
            RegisterSigner::Digest(digest) => RegisterSigner::NoSigner(digest, 0),
            RegisterSigner::NoSigner(digest, failures) => RegisterSigner::NoSigner(
                digest, failures,
            ),
        }
    }

    /// Presets the key's next signature, or removes the preset (`None`): [`DeviceSigner::set_preset`]. Without a key, nothing changes.
    pub fn set_preset(&mut self, preset_signature: Option<PresetSignature>)
        requires { ForSome (key_of D.Device self.old)
            (λ signer. IsPreset (D.answered_another_caller (D.device_path signer.device)) preset_signature) }
        ensures same { SignsAsBefore D.Device self.old self.new }
        ensures preset { ForSome (key_of D.Device self.new)
            (λ signer. signer.preset_signature ≡ preset_signature) }
    {
        match self {
            RegisterSigner::Key(signer) => signer.set_preset(preset_signature),
            RegisterSigner::Digest(_) => {}
            RegisterSigner::NoSigner(_, _) => {}
        }
    }
}

impl<D: Device + Drop> Signer for RegisterSigner<D> {
    ghost use Rattle.std.specs.Prelude.{◌≡◌, None, IfOk, IfSome, OnOk};
    ghost use Rattle.reg_crl_signer.specs.KeyOrDigestSignatures.{FormsByKeyOrDigest, SignsByKeyOrDigest};
    ghost use Rattle.reg_crl_signer.specs.RegisterSigners.{HasNoSigner, SigningByRegisterSigner, register_signer_identity, register_signer_failures, register_signer_path, key_of};

    ghost identity = { register_signer_identity D.Device };

    ghost signs = { SignsByKeyOrDigest D.answers };

    ghost forms = { FormsByKeyOrDigest };

    ghost failure_count = { register_signer_failures D.Device };

    fn algorithm(&self) -> &[u8] {
        match self {
            RegisterSigner::Key(signer) => signer.algorithm(),
            RegisterSigner::Digest(digest) => digest.algorithm(),
            RegisterSigner::NoSigner(digest, _) => digest.algorithm(),
        }
    }

    fn public_key(&self) -> Option<&[u8]> {
        match self {
            RegisterSigner::Key(signer) => signer.public_key(),
            RegisterSigner::Digest(_) => None,
            RegisterSigner::NoSigner(_, _) => None,
        }
    }

    fn sign(&mut self, alloc: Global, message: &[u8]) -> Result<Vec<u8>, SignFault>
        ensures signing { SigningByRegisterSigner D.Device self.old self.new message.now result }
        ensures device_answered { IfSome (key_of D.Device self.old) (λ signer. signer.preset_signature ≡ None
            → IfOk result (λ signature.
            D.device_answered (D.device_path signer.device) message.now signature.items)) }
        ensures nobody { HasNoSigner D.Device self.old → OnOk result ⊥ }
        ensures same_path { register_signer_path D.Device self.new ≡ register_signer_path D.Device self.old }
    {
        match self {
            RegisterSigner::Key(signer) => signer.sign(alloc, message),
            RegisterSigner::Digest(digest) => digest.sign(alloc, message),
            RegisterSigner::NoSigner(_, failures) => Err(count_failure(failures)),
        }
    }

    fn reset_backoff(&mut self) {
        match self {
            RegisterSigner::Key(signer) => signer.reset_backoff(),
            RegisterSigner::Digest(_) => {}
            RegisterSigner::NoSigner(_, _) => {}
        }
    }

    fn has_form(&self, message: &[u8], signature: &[u8]) -> bool {
        match self {
            RegisterSigner::Key(signer) => signer.has_form(message, signature),
            RegisterSigner::Digest(digest) => digest.has_form(message, signature),
            RegisterSigner::NoSigner(digest, _) => digest.has_form(message, signature),
        }
    }

    fn failures(&self) -> u64 {
        // The digest fails only if out of memory, which is not counted.
        match self {
            RegisterSigner::Key(signer) => signer.failures(),
            RegisterSigner::Digest(_) => 0,
            RegisterSigner::NoSigner(_, failures) => *failures,
        }
    }
}
