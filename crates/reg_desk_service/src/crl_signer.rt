//! The signer of CRLs, as the options `--signer` and `--responder` choose it.

ghost use Rattle.std.specs.Prelude.{◌≡◌};
ghost use Rattle.reg_desk_service.specs.Signers.{crl_signer_of, unreachable_signer};

use reg_crl_signer::Algorithm;
use reg_desk_cli::{Argument, ResponderChoice, SignerAddress};

/// How new CRLs are signed. `NoSigner`: each fails. `Digest`: by a placeholder digest. `KeyAt`: with the issuer's key, by a process at this address.
#[derive(Drop)]
pub enum CrlSignerChoice<'a> {
    NoSigner,
    Digest,
    KeyAt(SignerAddress<'a>),
}

impl<'a> CrlSignerChoice<'a> {
    /// The given `signer`. Without one: `Digest`; but `NoSigner` with a delegated responder: else a CRL with a digest could follow signed ones.
    pub fn of(
        signer: &Option<SignerAddress<'a>>,
        responder: &ResponderChoice<'_>,
    ) -> CrlSignerChoice<'a>
        ensures { result ≡ crl_signer_of signer.now responder.now }
    {
        match (signer, responder) {
            (Some(signer_address), _) => CrlSignerChoice::KeyAt(SignerAddress {
                socket: Argument::of(signer_address.socket.as_str()),
                algorithm: signer_address.algorithm,
            }),
            (None, ResponderChoice::Issuer { .. }) => CrlSignerChoice::Digest,
            (None, ResponderChoice::Delegate { .. }) => CrlSignerChoice::NoSigner,
        }
    }

    /// No process, for a register that only takes CRLs from elsewhere: they have this algorithm, or (`None`) a placeholder digest.
    pub fn unreachable(algorithm: Option<Algorithm>) -> CrlSignerChoice<'static>
        ensures { result ≡ unreachable_signer algorithm }
    {
        match algorithm {
            // No socket can be at the empty path.
            Some(algorithm) => CrlSignerChoice::KeyAt(SignerAddress {
                socket: Argument::of(""),
                algorithm,
            }),
            None => CrlSignerChoice::Digest,
        }
    }
}
