ghost use Rattle.std.specs.Prelude.{◌≡◌, []};
ghost use Rattle.sha1.specs.Sha1.{sha1};
ghost use Rattle.reg_crl.specs.Signing.{sha1_algorithm};

use crate::signer::{SignFault, Signer};
use sha1::Sha1;
use std::alloc::Global;

/// The AlgorithmIdentifier of SHA-1, 1.3.14.3.2.26, with parameters NULL.
const ALGORITHM: [u8; 11] = [
    0x30, 0x09, 0x06, 0x05, 0x2B, 0x0E, 0x03, 0x02, 0x1A, 0x05, 0x00,
];

/// A signer without a key: in place of a signature it gives a placeholder digest, the SHA-1 of the message, which anyone can compute. It fails only
/// if out of memory. It asks no device (such as a signer process), so it has no back-off after a timeout, and no failures of a device to count.
#[derive(Clone, Copy, PartialEq, Eq)]
pub struct DigestSeal;

impl Signer for DigestSeal {
    ghost identity = { λ _. record { algorithm = sha1_algorithm; public_key = [] } };

    ghost signs = { λ _ message signature. signature ≡ sha1 message };

    ghost forms = { λ _ message signature. signature ≡ sha1 message };

    ghost failure_count = { λ _. 0 };

    #[tactic(auto, using(crate::proofs::Algorithms::sha1_algorithm_is), unfolding(reg_der::specs::Der::tlv, reg_der::specs::Der::length_octets))]
    fn algorithm(&self) -> &[u8] {
        &ALGORITHM
    }

    fn public_key(&self) -> Option<&[u8]> {
        None
    }

    fn sign(&mut self, alloc: Global, message: &[u8]) -> Result<Vec<u8>, SignFault> {
        Ok(Vec::from_slice(alloc, &Sha1::digest(message))?)
    }

    fn reset_backoff(&mut self) {}

    fn has_form(&self, message: &[u8], signature: &[u8]) -> bool {
        signature == Sha1::digest(message).as_slice()
    }

    fn failures(&self) -> u64 {
        0
    }
}
