//! Locks a database's file at the offsets at which SQLite locks it, and makes the paths of the files beside it, such as its WAL (in code: log).

ghost use Rattle.std.specs.Prelude.{◌≡◌, ◌++◌, codes, string_bytes, IfErr, IfOk};
ghost use Rattle.reg_desk_files.specs.Reading.{IsFileFault};

use crate::file_fault::{FileFault, fault_with_cause, in_use_fault};
use os::RangeLock;
use reg_core::{Cause, Fault};
use std::alloc::AllocError;
use std::fs::OpenOptions;
use std::io::ErrorKind;
use std::os::fd::AsRawFd;
use std::{fs, io};

/// The offset of the bytes that SQLite locks in a database file (for its pending, reserved and shared locks). `LOCKS_LENGTH`: how many these are.
const LOCKS: u64 = 1_073_741_824;

const LOCKS_LENGTH: u64 = 512;

/// Takes a shared or exclusive lock (`kind`) on these bytes, without waiting. The lock ends when the file is closed. Errors: `Store`, with cause
/// `InUse` if another lock prevents this one; `Memory`.
pub(crate) fn lock(file: &fs::File, kind: RangeLock) -> Result<(), FileFault>
    ensures { IfErr result IsFileFault }
{
    if os::try_lock_range(file.as_raw_fd(), kind, LOCKS, LOCKS_LENGTH) == 0 {
        return Ok(());
    }
    let error = io::Error::from_raw_os_error(os::errno());
    match error.kind() {
        ErrorKind::WouldBlock => Err(in_use_fault()),
        _ => Err(FileFault::from(error)),
    }
}

/// Checks that `file`, which was opened at the path of a database that this program has open, is still that database. If it is, this program's own
/// lock for writing prevents the shared lock that is tried here, because such locks belong to an open file, not to a process. Errors: `Store` with
/// the cause `NoFile` if the shared lock succeeds: another file is at that path now; else those of [`lock`], without `InUse`.
pub(crate) fn check_locked(file: &fs::File) -> Result<(), FileFault>
    ensures { IfErr result IsFileFault }
{
    match lock(file, RangeLock::Shared) {
        Ok(()) => Err(fault_with_cause(Fault::Store, Some(Cause::NoFile))),
        Err(why) if why == in_use_fault() => Ok(()),
        Err(why) => Err(why),
    }
}

pub(crate) fn lock_exclusively(rt: &HostRuntime, path: &str) -> Option<fs::File> {
    let mut options = OpenOptions::new();
    options.read(true).write(true);
    match options.open(rt, path) {
        Ok(file) => locked(file),
        Err(_) => None,
    }
}

fn locked(file: fs::File) -> Option<fs::File> {
    match lock(&file, RangeLock::Exclusive) {
        Ok(()) => Some(file),
        Err(_) => None,
    }
}

pub(crate) fn log_path(rt: &HostRuntime, path: &str) -> Result<String, AllocError>
    ensures { IfOk result (λ log. string_bytes log ≡ path.now ++ codes "-wal") }
{
    with_suffix(rt, path, "-wal")
}

pub(crate) fn with_suffix(rt: &HostRuntime, path: &str, suffix: &str) -> Result<String, AllocError>
    ensures { IfOk result (λ other. string_bytes other ≡ path.now ++ suffix.now) }
{
    let mut other = String::new(rt.alloc());
    other.push_str(path)?;
    other.push_str(suffix)?;
    Ok(other)
}
