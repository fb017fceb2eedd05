//! Opens files of the machine read-only.

ghost use Rattle.std.specs.Prelude.{◌≡◌, [], false, IfErr};
ghost use Rattle.std.specs.Fs.{asks_append, asks_create, asks_create_new, asks_truncate, asks_write};
ghost use Rattle.reg_desk_files.specs.Reading.{IsFileFault};

use crate::file_fault::{FileFault, fault_with_cause};
use crate::file_locks::{check_locked, lock, with_suffix};
use crate::source::ReadAt;
use os::RangeLock;
use reg_core::Fault;
use std::fs::OpenOptions;
use std::io::ErrorKind;
use std::os::unix::fs::{FileExt, MetadataExt};
use std::{fs, io};

/// A file of the machine, opened read-only: the system refuses each write through it. No contract can state what the machine returns.
#[derive(Drop)]
pub struct ReadFile {
    file: fs::File,
}

impl ReadAt for ReadFile {
    ghost bytes = { λ _. [] };

    ghost is_honest = { λ _. false };

    fn size(&self) -> io::Result<usize> {
        Ok(self.file.metadata()?.len() as usize)
    }

    fn fill(&self, at: usize, buf: &mut [u8]) -> io::Result<()> {
        self.file.read_exact_at(buf, at as u64)
    }
}

/// Which program has the database open for writing while its files are read: none, or this one, which does not write meanwhile.
#[derive(Clone, Copy)]
pub(crate) enum OpenedBy {
    /// A shared lock keeps out `desk` and SQLite in rollback mode, but not SQLite in WAL mode, which takes a shared lock too.
    NoWriter,
    ThisProgram,
}

/// A database's file (`db`), with its lock if [`lock_files`] locked it, and its log (`-wal`), if there is one.
#[derive(Drop)]
pub(crate) struct LockedFiles {
    pub(crate) log: Option<ReadFile>,
    pub(crate) db: ReadFile,
}

/// Opens the files of a database read-only, also through a symbolic link. With `NoWriter`, the database's file is locked until the result is dropped.
/// Errors: those of [`read_at`](crate::read_at). But with `ThisProgram`, that file must be locked for writing: `Store` (cause `NoFile`) if it is not.
pub(crate) fn lock_files(
    rt: &HostRuntime,
    path: &str,
    opened_by: OpenedBy,
) -> Result<LockedFiles, FileFault>
    ensures { IfErr result IsFileFault }
{
    // SQLite does not read these paths as the names of files.
    if path == ":memory:" || path.starts_with("file:") {
        return Err(fault_with_cause(Fault::Store, None));
    }
    let real_path = fs::canonicalize(rt, path)?;
    let db = open_regular(rt, real_path.as_str())?;
    match opened_by {
        OpenedBy::NoWriter => lock(&db.file, RangeLock::Shared)?,
        OpenedBy::ThisProgram => check_locked(&db.file)?,
    }
    let log = open_log(rt, real_path.as_str())?;
    Ok(LockedFiles { log, db })
}

fn open_log(rt: &HostRuntime, path: &str) -> Result<Option<ReadFile>, FileFault>
    ensures { IfErr result IsFileFault }
{
    let journal = with_suffix(rt, path, "-journal")?;
    if has_hot_journal(rt, journal.as_str())? {
        return Err(fault_with_cause(Fault::Store, None));
    }
    let log = with_suffix(rt, path, "-wal")?;
    match open_regular(rt, log.as_str()) {
        Ok(log) => Ok(Some(log)),
        Err(error) if error.kind() == ErrorKind::NotFound => Ok(None),
        Err(error) => Err(FileFault::from(error)),
    }
}

/// Whether SQLite may have to play back a rollback journal at the path: its first byte isn't 0, or it is anything but a regular file with one name.
fn has_hot_journal(rt: &HostRuntime, path: &str) -> io::Result<bool> {
    match open_regular(rt, path) {
        Ok(journal) => is_hot(&journal),
        Err(error) if error.kind() == ErrorKind::NotFound => Ok(false),
        Err(error) if error.kind() == ErrorKind::Unsupported => Ok(true),
        Err(error) => Err(error),
    }
}

fn is_hot(journal: &ReadFile) -> io::Result<bool> {
    if journal.size()? == 0 {
        return Ok(false);
    }
    let mut first = [0];
    journal.fill(0, &mut first)?;
    Ok(first[0] != 0)
}

/// Opens a regular file read-only; `Unsupported` for anything else, such as a symbolic link, or a file with two names (each may have a `-wal`).
fn open_regular(rt: &HostRuntime, path: &str) -> io::Result<ReadFile> {
    // A pipe is not opened: that would wait for a writer.
    if !fs::symlink_metadata(rt, path)?.is_file() {
        return Err(ErrorKind::Unsupported.into());
    }
    let file = read_options().open(rt, path)?;
    // The path may name another file (`named`) than the one that was opened (`found`).
    let (found, named) = (file.metadata()?, fs::symlink_metadata(rt, path)?);
    let is_named = found.dev() == named.dev() && found.ino() == named.ino();
    if !is_named || !found.is_file() || found.nlink() != 1 {
        return Err(ErrorKind::Unsupported.into());
    }
    Ok(ReadFile { file })
}

fn read_options() -> OpenOptions
    ensures writes { asks_write result ≡ false }
    ensures appends { asks_append result ≡ false }
    ensures cuts { asks_truncate result ≡ false }
    ensures makes { (asks_create result ≡ false) × (asks_create_new result ≡ false) }
{
    let mut options = OpenOptions::new();
    options.read(true);
    options
}
