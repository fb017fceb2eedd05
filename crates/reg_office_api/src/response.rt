ghost use Rattle.std.specs.Prelude.{◌≡◌};
ghost use Rattle.reg_office_api.specs.Responses.{signature_of as signature_by, store_of as store_by};

use crate::effects::{SignatureOutcome, StoreEffect};

/// The kind of an OCSP response (OCSPResponseStatus, RFC 6960 4.2.1). internalError has two kinds: the store failed, or the signer did.
#[derive(Clone, Copy, PartialEq, Eq)]
pub enum ResponseKind {
    /// successful: signed, or, in a register without a key, with the placeholder digest.
    Signed,
    /// malformedRequest: the bytes are no OCSP request (RFC 6960 4.1.1) that reg_ocsp reads.
    Malformed,
    /// tryLater: the moment is before the last accepted one, or not before `Moment::CLOCK_END` (in the year 9999).
    TryLater,
    StoreFailure,
    SignerFailure,
}

/// An OCSP response: the DER of its OCSPResponse (RFC 6960 4.2.1), and its kind.
#[derive(Drop)]
pub struct OcspResponse {
    pub bytes: Vec<u8>,
    pub kind: ResponseKind,
}

impl ResponseKind {
    /// Whether a signature was requested for the response, and whether the signer made it.
    pub fn signature(self) -> SignatureOutcome
        ensures { result ≡ signature_by self }
    {
        match self {
            ResponseKind::Signed => SignatureOutcome::Made,
            ResponseKind::SignerFailure => SignatureOutcome::Failed,
            _ => SignatureOutcome::NotRequested,
        }
    }

    /// `Failed` if the response shows that the store failed, else `Unwritten`: an OCSP request writes nothing.
    pub fn store(self) -> StoreEffect
        ensures { result ≡ store_by self }
    {
        match self {
            ResponseKind::StoreFailure => StoreEffect::Failed,
            _ => StoreEffect::Unwritten,
        }
    }
}
