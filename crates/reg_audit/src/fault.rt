ghost use Rattle.std.specs.Prelude.{◌≡◌, ◌⊎◌};

use crate::check_fault::CheckFault;
use reg_core::{BrokenRow, Defect, RegisterTable};
use reg_store_tables::DatabaseFault;
use std::alloc::AllocFailed;

/// Why [`audit`](crate::audit) does not find all rows sound. `Memory`: out of memory. `Broken`: this row breaks a rule or has an invalid value.
#[derive(Clone, Copy)]
pub enum AuditFault {
    Memory,
    /// The database failed; or the issuer, policy, version or rowid in the table `office`, or the rowid in `kept`, is one that no register writes.
    Store,
    Broken(BrokenRow),
}

impl From<DatabaseFault> for AuditFault {
    ghost use Rattle.reg_audit.specs.Faults.{fault_of_call};
    ghost use Rattle.reg_audit.specs.declared.fault.AuditFault.TheVariants.{Memory, Store};

    ghost from_gives = { λ call fault. (fault ≡ fault_of_call call) × ((fault ≡ Memory) ⊎ (fault ≡ Store)) };

    fn from(fault: DatabaseFault) -> AuditFault {
        match fault {
            DatabaseFault::Memory => AuditFault::Memory,
            DatabaseFault::Store => AuditFault::Store,
        }
    }
}

impl From<CheckFault> for AuditFault {
    ghost use Rattle.reg_audit.specs.Faults.{fault_of_check};

    ghost from_gives = { λ found fault. fault ≡ fault_of_check found };

    fn from(found: CheckFault) -> AuditFault {
        match found {
            CheckFault::Memory => AuditFault::Memory,
            CheckFault::Broken(broken) => AuditFault::Broken(broken),
        }
    }
}

impl<T: Drop> From<AllocFailed<T>> for AuditFault {
    ghost use Rattle.reg_audit.specs.declared.fault.AuditFault.TheVariants.{Memory};

    ghost from_gives = { λ _ fault. fault ≡ Memory };

    fn from(_error: AllocFailed<T>) -> AuditFault {
        AuditFault::Memory
    }
}

/// The fault for a row that has the defect `why`. `row_index` counts the rows of the table from 0, the fault's `row` from 1.
pub(crate) fn broken_at(table: RegisterTable, row_index: usize, why: Defect) -> AuditFault {
    let row = (row_index as u64).saturating_add(1);
    AuditFault::Broken(BrokenRow { table, row, why })
}
