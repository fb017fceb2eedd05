//! Why a call on the store, or the reading of a row, fails.

ghost use Rattle.std.specs.Prelude.{◌≡◌};

use reg_core::Fault;
use reg_der::IssuerFault;
use sqlite::{Error, ErrorCode};
use std::alloc::{AllocError, AllocFailed};

/// Why a call on an open register fails.
#[derive(Clone, Copy, PartialEq, Eq)]
pub enum DatabaseFault {
    Memory,
    /// The database failed, its rows are not those of a register, a change does not fit them, or a number is above 2^63 - 1, SQL's greatest INTEGER.
    Store,
}

/// Why a register is not created or opened, or why a call on it fails.
#[derive(Clone, Copy, PartialEq, Eq)]
pub enum StoreFault {
    Memory,
    Store,
    /// The database has a table, an index or a view.
    NotEmpty,
    /// The schema, the row of `office` or the schedule is not that of a register of any version up to the program's.
    NotARegister,
    /// The version in the row of `office` is newer than the program's.
    NewVersion,
}

/// Why rows can't be read.
#[derive(Clone, Copy, PartialEq, Eq)]
pub enum RowFault {
    Memory,
    /// The row with this index, from 0 on, has a column of another type or an invalid value.
    At(usize),
}

impl<T: Drop> From<AllocFailed<T>> for RowFault {
    ghost use Rattle.reg_store_tables.specs.declared.fault.RowFault.TheVariants.{Memory};

    ghost from_gives = { λ _ why. why ≡ Memory };

    fn from(_error: AllocFailed<T>) -> RowFault {
        RowFault::Memory
    }
}

impl From<RowFault> for DatabaseFault {
    ghost use Rattle.reg_store_tables.specs.Faults.{row_fault_of};

    ghost from_gives = { λ why fault. fault ≡ row_fault_of why };

    fn from(why: RowFault) -> DatabaseFault {
        match why {
            RowFault::Memory => DatabaseFault::Memory,
            RowFault::At(_) => DatabaseFault::Store,
        }
    }
}

impl From<Error> for DatabaseFault {
    ghost use Rattle.reg_store_tables.specs.Faults.{database_fault_of};

    ghost from_gives = { λ error fault. fault ≡ database_fault_of error };

    fn from(error: Error) -> DatabaseFault {
        match error {
            Error::SqliteFailure(ErrorCode::OutOfMemory) => DatabaseFault::Memory,
            _ => DatabaseFault::Store,
        }
    }
}

impl From<AllocError> for DatabaseFault {
    ghost use Rattle.reg_store_tables.specs.declared.fault.DatabaseFault.TheVariants.{Memory};

    ghost from_gives = { λ _ fault. fault ≡ Memory };

    fn from(_error: AllocError) -> DatabaseFault {
        DatabaseFault::Memory
    }
}

impl<T: Drop> From<AllocFailed<T>> for DatabaseFault {
    ghost use Rattle.reg_store_tables.specs.declared.fault.DatabaseFault.TheVariants.{Memory};

    ghost from_gives = { λ _ fault. fault ≡ Memory };

    fn from(_error: AllocFailed<T>) -> DatabaseFault {
        DatabaseFault::Memory
    }
}

impl From<IssuerFault> for DatabaseFault {
    ghost use Rattle.reg_store_tables.specs.Faults.{issuer_fault_of};

    ghost from_gives = { λ reason fault. fault ≡ issuer_fault_of reason };

    fn from(reason: IssuerFault) -> DatabaseFault {
        match reason {
            IssuerFault::Memory => DatabaseFault::Memory,
            IssuerFault::BadName | IssuerFault::BadKey => DatabaseFault::Store,
        }
    }
}

impl From<DatabaseFault> for StoreFault {
    ghost use Rattle.reg_store_tables.specs.Faults.{store_fault_of};
    ghost use Rattle.reg_store_tables.specs.Stays.{IsDatabaseFault};

    ghost from_gives = { λ database_fault fault.
        (fault ≡ store_fault_of database_fault) × IsDatabaseFault fault };

    fn from(database_fault: DatabaseFault) -> StoreFault {
        match database_fault {
            DatabaseFault::Memory => StoreFault::Memory,
            DatabaseFault::Store => StoreFault::Store,
        }
    }
}

impl From<Error> for StoreFault {
    ghost use Rattle.reg_store_tables.specs.Faults.{database_fault_of, store_fault_of};
    ghost use Rattle.reg_store_tables.specs.Stays.{IsDatabaseFault};

    ghost from_gives = { λ error fault.
        (fault ≡ store_fault_of (database_fault_of error)) × IsDatabaseFault fault };

    fn from(error: Error) -> StoreFault {
        StoreFault::from(DatabaseFault::from(error))
    }
}

impl<T: Drop> From<AllocFailed<T>> for StoreFault {
    ghost use Rattle.reg_store_tables.specs.declared.fault.StoreFault.TheVariants.{Memory};

    ghost from_gives = { λ _ fault. fault ≡ Memory };

    fn from(_error: AllocFailed<T>) -> StoreFault {
        StoreFault::Memory
    }
}

impl From<DatabaseFault> for Fault {
    ghost use Rattle.reg_store_tables.specs.Faults.{fault_of};

    ghost from_gives = { λ database_fault fault. fault ≡ fault_of database_fault };

    fn from(database_fault: DatabaseFault) -> Fault {
        match database_fault {
            DatabaseFault::Memory => Fault::Memory,
            DatabaseFault::Store => Fault::Store,
        }
    }
}
