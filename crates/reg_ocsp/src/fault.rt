ghost use Rattle.std.specs.Prelude.{◌≡◌};
ghost use Rattle.reg_ocsp.specs.declared.fault.RequestFault.TheVariants.{Memory};

use std::alloc::{AllocError, AllocFailed};

/// Why a request could not be read.
#[derive(Clone, Copy, PartialEq, Eq)]
pub enum RequestFault {
    /// The bytes are no OCSP request (RFC 6960 4.1.1), or [`read_request`](crate::read_request) refuses them, as for a critical extension.
    Malformed,
    Memory,
}

impl From<AllocError> for RequestFault {
    ghost from_gives = { λ _ e. e ≡ Memory };

    fn from(_e: AllocError) -> RequestFault {
        RequestFault::Memory
    }
}

impl<T: Drop> From<AllocFailed<T>> for RequestFault {
    ghost from_gives = { λ _ e. e ≡ Memory };

    fn from(_e: AllocFailed<T>) -> RequestFault {
        RequestFault::Memory
    }
}
