//! Why a file can't be opened, created, read or written.

ghost use Rattle.std.specs.Prelude.{◌≡◌};
ghost use Rattle.reg_desk_files.specs.Reading.{IsFileFault};

use reg_core::{Cause, Fault, create_cause_of, io_cause_of};
use sqlite::{Error, ErrorCode};
use sqlite_std_file::OpenError;
use std::alloc::AllocError;
use std::io;
use std::io::ErrorKind;

/// A fault, which is `Memory` or `Store`, and its cause, if that is known.
#[derive(Clone, Copy, PartialEq, Eq)]
pub struct FileFault {
    pub fault: Fault,
    pub cause: Option<Cause>,
}

pub(crate) fn fault_with_cause(fault: Fault, cause: Option<Cause>) -> FileFault
    ensures fault { result.fault ≡ fault }
    ensures cause { result.cause ≡ cause }
{
    FileFault { fault, cause }
}

impl From<OpenError> for FileFault {
    ghost from_gives = { λ error fault. IsFileFault fault };

    fn from(error: OpenError) -> FileFault {
        let fault = match &error {
            OpenError::OutOfMemory => Fault::Memory,
            OpenError::Io(error) if error.kind() == ErrorKind::OutOfMemory => Fault::Memory,
            _ => Fault::Store,
        };
        fault_with_cause(fault, open_cause_of(&error))
    }
}

impl From<Error> for FileFault {
    ghost from_gives = { λ error fault. IsFileFault fault };

    fn from(error: Error) -> FileFault {
        let fault = match &error {
            Error::SqliteFailure(ErrorCode::OutOfMemory) => Fault::Memory,
            _ => Fault::Store,
        };
        fault_with_cause(fault, database_cause_of(&error))
    }
}

impl From<sqlite_wal::Error> for FileFault {
    ghost from_gives = { λ error fault. IsFileFault fault };

    fn from(error: sqlite_wal::Error) -> FileFault {
        match error {
            sqlite_wal::Error::OutOfMemory => fault_with_cause(Fault::Memory, None),
            sqlite_wal::Error::Io(error) => FileFault::from(error),
            // `Corrupt`, or `Full`: more pages than 32 bits can number. The other variants do not occur here.
            _ => damaged_fault(),
        }
    }
}

impl From<io::Error> for FileFault {
    ghost from_gives = { λ error fault. IsFileFault fault };

    fn from(error: io::Error) -> FileFault {
        match error.kind() {
            ErrorKind::OutOfMemory => fault_with_cause(Fault::Memory, None),
            other => fault_with_cause(Fault::Store, io_cause_of(other)),
        }
    }
}

impl From<AllocError> for FileFault {
    ghost from_gives = { λ error fault. IsFileFault fault };

    fn from(_: AllocError) -> FileFault {
        fault_with_cause(Fault::Memory, None)
    }
}

/// Why a new file can't be created or written, by the kind of error. Unlike `From<io::Error>`, it has a cause for `AlreadyExists`.
pub(crate) fn create_fault_of(kind: ErrorKind) -> FileFault
    ensures { IsFileFault result }
{
    match kind {
        ErrorKind::OutOfMemory => fault_with_cause(Fault::Memory, None),
        other => fault_with_cause(Fault::Store, create_cause_of(other)),
    }
}

pub(crate) fn damaged_fault() -> FileFault
    ensures { result.fault ≡ Fault.Store }
{
    fault_with_cause(Fault::Store, Some(Cause::Damaged))
}

pub(crate) fn in_use_fault() -> FileFault
    ensures { result.fault ≡ Fault.Store }
{
    fault_with_cause(Fault::Store, Some(Cause::InUse))
}

fn open_cause_of(error: &OpenError) -> Option<Cause>
    ensures busy { error.now ≡ OpenError.Busy → result ≡ Some Cause.InUse }
    ensures memory { error.now ≡ OpenError.OutOfMemory → result ≡ None }
{
    match error {
        OpenError::Io(error) => io_cause_of(error.kind()),
        OpenError::Busy => Some(Cause::InUse),
        // `HotJournal`: SQLite left a rollback journal, which only SQLite can play back. `Cause` has no variant for it.
        OpenError::OutOfMemory | OpenError::HotJournal => None,
    }
}

fn database_cause_of(error: &Error) -> Option<Cause>
    ensures no_database { error.now ≡ Error.SqliteFailure ErrorCode.NotADatabase
        → result ≡ Some Cause.Damaged }
    ensures corrupt { error.now ≡ Error.SqliteFailure ErrorCode.DatabaseCorrupt
        → result ≡ Some Cause.Damaged }
    ensures busy { error.now ≡ Error.SqliteFailure ErrorCode.DatabaseBusy → result ≡ Some Cause.InUse }
    ensures full { error.now ≡ Error.SqliteFailure ErrorCode.DiskFull → result ≡ Some Cause.DiskFull }
    ensures memory { error.now ≡ Error.SqliteFailure ErrorCode.OutOfMemory → result ≡ None }
{
    match error {
        Error::SqliteFailure(ErrorCode::NotADatabase) => Some(Cause::Damaged),
        Error::SqliteFailure(ErrorCode::DatabaseCorrupt) => Some(Cause::Damaged),
        Error::SqliteFailure(ErrorCode::DatabaseBusy) => Some(Cause::InUse),
        Error::SqliteFailure(ErrorCode::DiskFull) => Some(Cause::DiskFull),
        _ => None,
    }
}
