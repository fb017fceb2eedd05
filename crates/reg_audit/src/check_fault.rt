ghost use Rattle.std.specs.Prelude.{◌≡◌, ◌≤◌, length, OnOk};
ghost use Rattle.reg_audit.specs.CheckFaults.{IsBroken, NotBrokenIf};

use reg_core::{BrokenRow, Defect, Memory, RegisterTable};
use std::alloc::{AllocError, AllocFailed};

/// Why a check fails: it is out of memory, or this row breaks a rule.
#[derive(Clone, Copy)]
pub enum CheckFault {
    Memory,
    Broken(BrokenRow),
}

impl From<Memory> for CheckFault {
    ghost use Rattle.reg_audit.specs.declared.check_fault.CheckFault.TheVariants.{Memory as Lacked};

    ghost from_gives = { λ _ fault. fault ≡ Lacked };

    fn from(_memory: Memory) -> CheckFault {
        CheckFault::Memory
    }
}

impl From<AllocError> for CheckFault {
    ghost use Rattle.reg_audit.specs.declared.check_fault.CheckFault.TheVariants.{Memory};

    ghost from_gives = { λ _ fault. fault ≡ Memory };

    fn from(_error: AllocError) -> CheckFault {
        CheckFault::Memory
    }
}

impl<T: Drop> From<AllocFailed<T>> for CheckFault {
    ghost use Rattle.reg_audit.specs.declared.check_fault.CheckFault.TheVariants.{Memory};

    ghost from_gives = { λ _ fault. fault ≡ Memory };

    fn from(_error: AllocFailed<T>) -> CheckFault {
        CheckFault::Memory
    }
}

/// The fault for a row that has the defect `why`. `row_index` counts the rows of the table from 0; `row`, in the fault, counts them from 1.
pub(crate) fn broken_at(table: RegisterTable, row_index: usize, why: Defect) -> CheckFault
    ensures { IsBroken result }
{
    let row = (row_index as u64).saturating_add(1);
    CheckFault::Broken(BrokenRow { table, row, why })
}

/// Checks that the number of rows of a table, `rows`, is at most `cap`, the policy's limit. If not, reports the last row.
pub(crate) fn within_cap(table: RegisterTable, rows: usize, cap: u64) -> Result<(), CheckFault>
    ensures ok { OnOk result (rows ≤ cap) }
    ensures broken { NotBrokenIf (rows ≤ cap) result }
{
    if rows as u64 <= cap {
        Ok(())
    } else {
        Err(broken_at(table, rows.saturating_sub(1), Defect::AboveCap))
    }
}
