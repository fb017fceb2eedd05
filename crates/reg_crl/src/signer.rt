ghost use Rattle.std.specs.Prelude.{◌≡◌, IfSome, option_copied};
ghost use Rattle.reg_crl.specs.declared.signer.SignFault.TheVariants.{Memory};

use reg_core::{Fault, SignsCrls};
use std::alloc::{AllocError, Global};

/// Why there is no signature.
#[derive(Clone, Copy, PartialEq, Eq)]
pub enum SignFault {
    /// The device that has the key (such as a signer process at a Unix socket) failed, and the signer counted the failure.
    Device,
    Memory,
}

impl From<AllocError> for SignFault {
    ghost from_gives = { λ _ fault. fault ≡ Memory };

    fn from(_error: AllocError) -> SignFault {
        SignFault::Memory
    }
}

impl From<SignFault> for Fault {
    ghost use Rattle.std.specs.Prelude.{◌≡◌};
    ghost use Rattle.reg_crl.specs.Faults.{signer_fault_of};

    ghost from_gives = { λ signing fault. fault ≡ signer_fault_of signing };

    fn from(signing: SignFault) -> Fault {
        match signing {
            SignFault::Device => Fault::Signer,
            SignFault::Memory => Fault::Memory,
        }
    }
}

/// A signer has one algorithm, and one key or none ([`crate::DigestSeal`], which gives a placeholder digest). No call changes algorithm or key.
pub trait Signer {
    ghost use Rattle.std.specs.Prelude.{ℕ, List};
    ghost use Rattle.std.specs.Bool.{OnTrue};
    ghost use Rattle.reg_crl.specs.Signing.{Identity, IsAlgorithm};
    ghost use Rattle.reg_crl.specs.Signatures.{SignsOrFails};

    ghost identity: { Self → Identity };

    // `signs identity message signature`: with this identity (algorithm and public key), the message has this signature.
    ghost signs: { Identity → List ℕ → List ℕ → Type 0 };

    // `forms identity message signature`: the signature has the form of a signature of the message by this identity. Its key may not have made it.
    ghost forms: { Identity → List ℕ → List ℕ → Type 0 };

    ghost failure_count: { Self → ℕ };

    /// The AlgorithmIdentifier of the signatures (RFC 5280 4.1.1.2): one DER SEQUENCE, at most 1,024 bytes in all.
    fn algorithm(&self) -> &[u8]
        ensures value { result.now ≡ (identity self.now).algorithm }
        ensures within { IsAlgorithm result.now };

    /// The public key, if a device has the private key. A caller can then request signatures from the device without `sign`. `None` without a device.
    fn public_key(&self) -> Option<&[u8]>
        ensures { IfSome (option_copied result) (λ key. key ≡ (identity self.now).public_key) };

    /// A signature of the message, of at most 65,536 bytes. `Memory` if out of memory. `Device` if the device failed: then the count of failures
    /// rises. At `u64::MAX` the count can't rise, and the fault is `Memory` instead.
    fn sign(&mut self, alloc: Global, message: &[u8]) -> Result<Vec<u8>, SignFault>
        ensures { SignsOrFails identity signs failure_count self.old self.new message.now result };

    /// Ends the back-off (the time after a timeout in which the device is not asked): the device is asked for the next signature.
    fn reset_backoff(&mut self)
        ensures same_identity { identity self.new ≡ identity self.old }
        ensures same_failures { failure_count self.new ≡ failure_count self.old };

    /// Whether the signature, which another program gave, has the form of a signature of the message by this signer. It is not verified.
    fn has_form(&self, message: &[u8], signature: &[u8]) -> bool
        ensures { OnTrue result (forms (identity self.now) message.now signature.now) };

    /// How many failures of the device the signer has counted.
    fn failures(&self) -> u64
        ensures { result ≡ failure_count self.now };
}

/// The signers of all of a register's CRLs, for the register's laws (proved theorems). `signer` signs the CRLs from number `since` on. Earlier CRLs
/// have the placeholder digest, which the register used before it had a signer with a key.
#[derive(Drop)]
pub struct CrlSigner<S> {
    pub signer: S,
    pub since: u64,
}

impl<S: Signer> SignsCrls for CrlSigner<S> {
    ghost use Rattle.reg_crl.specs.Signing.{signed_since};

    ghost signed = { λ it. signed_since it.since S.signs (S.identity it.signer) };
}
