ghost use Rattle.std.specs.Prelude.{◌≡◌, ◌⊎◌};
ghost use Rattle.reg_office_reads.specs.declared.ocsp_faults.ResponseFault.TheVariants as to;

use reg_core::{Memory, Refusal};
use reg_store_tables::DatabaseFault;
use std::alloc::AllocError;

/// Why a request gets no ResponseData. `Clock`: now is before the last accepted moment, or nextUpdate may pass 9999. `Store`: the database failed.
#[derive(Clone, Copy, PartialEq, Eq)]
pub(crate) enum ResponseFault {
    Clock,
    Memory,
    Store,
}

impl From<Refusal> for ResponseFault {
    ghost from_gives = { λ _ fault. fault ≡ to.Clock };

    fn from(_refusal: Refusal) -> ResponseFault {
        ResponseFault::Clock
    }
}

impl From<Memory> for ResponseFault {
    ghost from_gives = { λ _ fault. fault ≡ to.Memory };

    fn from(_memory: Memory) -> ResponseFault {
        ResponseFault::Memory
    }
}

impl From<AllocError> for ResponseFault {
    ghost from_gives = { λ _ fault. fault ≡ to.Memory };

    fn from(_error: AllocError) -> ResponseFault {
        ResponseFault::Memory
    }
}

impl From<DatabaseFault> for ResponseFault {
    ghost from_gives = { λ _ fault. (fault ≡ to.Memory) ⊎ (fault ≡ to.Store) };

    fn from(fault: DatabaseFault) -> ResponseFault {
        match fault {
            DatabaseFault::Memory => ResponseFault::Memory,
            DatabaseFault::Store => ResponseFault::Store,
        }
    }
}
