//! Opens a register's files as a database that is only read: the database file, and its WAL (in code: log) as a copy in memory.

ghost use Rattle.std.specs.Prelude.{◌≡◌, false, length, IfErr, IfOk, IsTrue, OnOk};
ghost use Rattle.sqlite.specs.Files.{file_state, image_of, IsNothing, IsOpened};
ghost use Rattle.sqlite.specs.Held.{IsNew};
ghost use Rattle.sqlite.specs.Start.{FindsIn};
ghost use Rattle.sqlite.specs.State.{HasCleanDisk};
ghost use Rattle.sqlite_wal.specs.Reads.{AreClean, OnlyReads};
ghost use Rattle.reg_desk_files.specs.Overlaid.{image};
ghost use Rattle.reg_desk_files.specs.Reading.{IsFileFault, IsReadFailureOfFiles};

use crate::file::options_for;
use crate::file_check::{FileContent, probe_content};
use crate::file_fault::{FileFault, damaged_fault};
use crate::overlay::{Overlay, overlaid};
use crate::read_file::{LockedFiles, OpenedBy, ReadFile, lock_files};
use crate::source::ReadAt;
use reg_core::Fault;
use sqlite::{Connection, FileStore, Options};
use sqlite_disk::{Disk, Files};
use std::alloc::{AllocError, Global};
use std::hash::{BuildHasher, RandomState};

/// The copy of a log has so many more bytes of capacity than the log. Opening the database appends fewer bytes than this to the copy.
const ROOM: usize = 64;

/// Why files can't be read as a database. `Nothing`: there is no database in them yet, but opening them for writing would create one.
#[derive(Clone, Copy, PartialEq, Eq)]
pub enum ReadFailure {
    Nothing,
    Fault(FileFault),
}

impl From<FileFault> for ReadFailure {
    ghost use Rattle.reg_desk_files.specs.declared.read_only.ReadFailure.TheVariants.{Fault as IsFault};

    ghost from_gives = { λ fault why. why ≡ IsFault fault };

    fn from(fault: FileFault) -> ReadFailure {
        ReadFailure::Fault(fault)
    }
}

/// A copy of a database's log (`-wal`; empty if there is none); the database's file, which is only read; and the options to open the database.
#[derive(Drop)]
pub struct SourceFiles<F: ReadAt> {
    pub log: Vec<u8>,
    pub db: F,
    /// The random key of the digests that `sqlite` keeps of pages, to check later reads. (`RandomState` gives any fixed value a random hash.)
    pub key: u64,
    pub options: Options,
}

/// Opens the database file at a path read-only, also through a symbolic link, and copies its log into memory. Creates no file. Until the result is
/// dropped, `desk` can't open the file for writing; SQLite in WAL mode can. Errors: `Memory`; `Store`, with its cause if that is known, if the files
/// can't be read, or if a program has locked the file for writing. `Store` too if SQLite left a rollback journal, if the path is `:memory:` or begins
/// with `file:`, or if a file is not a regular one or has two names (hard links).
pub fn read_at(rt: &HostRuntime, path: &str) -> Result<SourceFiles<ReadFile>, FileFault>
    ensures { IfErr result IsFileFault }
{
    sources_at(rt, path, OpenedBy::NoWriter)
}

/// As [`read_at`], but with `opened_by`: whether no program has the database open for writing, or this one has and does not write meanwhile.
pub(crate) fn sources_at(
    rt: &HostRuntime,
    path: &str,
    opened_by: OpenedBy,
) -> Result<SourceFiles<ReadFile>, FileFault>
    ensures { IfErr result IsFileFault }
{
    let options = options_for(rt, path)?;
    let LockedFiles { log, db } = lock_files(rt, path, opened_by)?;
    let log = match &log {
        Some(log) => copy_of(rt.alloc(), log)?,
        None => Vec::new(rt.alloc()),
    };
    let key = RandomState::new(rt)?.hash_one(&0u8);
    Ok(SourceFiles {
        log,
        db,
        key,
        options,
    })
}

/// Checks that the files at a path, which are only read, have the beginning of a database. Errors: `Nothing` if there is no database yet; those of
/// [`read_at`]; `Store` with the cause `Damaged` if the files hold something else.
pub fn check_database(rt: &HostRuntime, path: &str) -> Result<(), ReadFailure>
    ensures { IfErr result IsReadFailureOfFiles }
{
    check_sources(rt.alloc(), read_at(rt, path)?)
}

fn check_sources<F: ReadAt + Drop>(
    alloc: Global,
    sources: SourceFiles<F>,
) -> Result<(), ReadFailure>
    ensures { IfErr result IsReadFailureOfFiles }
{
    let mut files = overlaid(alloc, sources.log, sources.db, sources.key);
    check_has_database(alloc, &mut files)
}

/// Opens the database in these sources. No use of the connection changes the file, because `F` has no method that writes. What opening writes goes
/// only to the copy of the log. Errors: those of [`open_existing`].
pub fn open_sources<F: ReadAt + Drop>(
    alloc: Global,
    sources: SourceFiles<F>,
) -> Result<Connection<FileStore<Overlay<F>>>, ReadFailure>
    ensures opened { IfOk result (λ connection. HasCleanDisk (file_state connection) → IsOpened connection) }
    ensures found { IfOk result (λ connection. HasCleanDisk (file_state connection)
        → FindsIn (image sources.log.items (F.ReadAt.bytes sources.db)) (file_state connection)) }
    ensures begun { IfOk result (λ connection.
        HasCleanDisk (file_state connection)
        → ¬ IsNothing (image sources.log.items (F.ReadAt.bytes sources.db))) }
    ensures fresh { IfOk result IsNew }
    ensures idle { IfOk result (λ connection. connection.in_transaction ≡ false) }
    ensures faults { IfErr result IsReadFailureOfFiles }
{
    let options = sources.options;
    let files = overlaid(alloc, sources.log, sources.db, sources.key);
    open_existing(alloc, files, options)
}

/// Opens the database in a file and its log, and creates none. Errors: `Nothing` if there is no database yet; `Memory`; `Store` if the files hold
/// something else, or if a call failed.
pub fn open_existing<D: Disk + Drop>(
    alloc: Global,
    mut files: Files<D>,
    options: Options,
) -> Result<Connection<FileStore<D>>, ReadFailure>
    requires log { IsTrue (D.Disk.is_usable files.log) }
    requires db { IsTrue (D.Disk.is_usable files.db) }
    ensures opened { IfOk result (λ connection. HasCleanDisk (file_state connection) → IsOpened connection) }
    ensures found { IfOk result (λ connection.
        HasCleanDisk (file_state connection) → FindsIn (image_of D.Disk files) (file_state connection)) }
    ensures begun { IfOk result (λ connection.
        HasCleanDisk (file_state connection) → ¬ IsNothing (image_of D.Disk files)) }
    ensures fresh { IfOk result IsNew }
    ensures idle { IfOk result (λ connection. connection.in_transaction ≡ false) }
    ensures faults { IfErr result IsReadFailureOfFiles }
{
    check_has_database(alloc, &mut files)?;
    // `false`: a database that is created has no page checksums. Here none is created, and an existing one stays as it is.
    match Connection::open_files_with(alloc, files, options, false) {
        Ok(connection) => Ok(connection),
        Err((error, _)) => Err(ReadFailure::Fault(FileFault::from(error))),
    }
}

pub(crate) fn check_has_database<D: Disk>(
    alloc: Global,
    files: &mut Files<D>,
) -> Result<(), ReadFailure>
    requires log { IsTrue (D.Disk.is_usable files.old.log) }
    requires db { IsTrue (D.Disk.is_usable files.old.db) }
    ensures begun { OnOk result
        (AreClean D.Disk files.new.log files.new.db → ¬ IsNothing (image_of D.Disk files.old)) }
    ensures log { OnlyReads D.Disk files.old.log files.new.log }
    ensures db { OnlyReads D.Disk files.old.db files.new.db }
    ensures faults { IfErr result IsReadFailureOfFiles }
{
    match probe_content(alloc, files)? {
        FileContent::PossibleDatabase => Ok(()),
        FileContent::Nothing => Err(ReadFailure::Nothing),
        FileContent::Other => Err(ReadFailure::Fault(damaged_fault())),
    }
}

/// A copy of all bytes of a file, such as a log, with `ROOM` more bytes of capacity. Errors: `Memory`; `Store` if a call failed.
pub fn copy_of<F: ReadAt>(alloc: Global, file: &F) -> Result<Vec<u8>, FileFault>
    ensures bytes { IfOk result (λ copy.
        IsTrue (F.ReadAt.is_honest file.now) → copy.items ≡ F.ReadAt.bytes file.now) }
    ensures faults { IfErr result IsFileFault }
{
    let size = file.size()?;
    let mut copy = zeros(alloc, size)?;
    file.fill(0, &mut copy)?;
    Ok(copy)
}

fn zeros(alloc: Global, size: usize) -> Result<Vec<u8>, AllocError>
    ensures { IfOk result (λ all. length all.items ≡ size) }
{
    let mut all = Vec::with_capacity(alloc, size.saturating_add(ROOM))?;
    all.resize(size, 0)?;
    Ok(all)
}
