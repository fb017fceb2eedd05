//! Opens, creates and removes the files of a database.

ghost use Rattle.std.specs.Prelude.{◌≡◌, ◌≢◌, ◌≤◌, false, IfOk, IfErr};
ghost use Rattle.sqlite.specs.Files.{file_state, IsOpened};
ghost use Rattle.sqlite.specs.Held.{IsNew};
ghost use Rattle.sqlite.specs.Start.{FindsIn};
ghost use Rattle.sqlite.specs.State.{HasCleanDisk};
ghost use Rattle.sqlite_wal.specs.Files.{image_at};
ghost use Rattle.reg_desk_files.specs.Reading.{IsFileFault};

use crate::file_fault::{FileFault, fault_with_cause};
use crate::file_locks::{lock_exclusively, log_path};
use reg_core::{Cause, Fault, io_cause_of};
use sqlite::{Connection, FileFrom, FileStore, Options};
use sqlite_disk::Start;
use std::fs;
use std::fs::OpenOptions;
use std::hash::{BuildHasher, RandomState};
use std::io::ErrorKind;
use std::os::unix::fs::OpenOptionsExt;

/// How many bytes a page has in a register that `desk` creates.
const PAGE: u64 = 4096;

const MIN_CACHE_PAGES: usize = 2_000;

const MAX_CACHE_PAGES: usize = 131_072;

const OWNER_ONLY: u32 = 0o600;

/// Opens the database at a path for writing, or creates it. The crate `sqlite` then checks each page, index and constraint. `start` tells contracts
/// what the file and its log (`-wal`) hold. `Start::mixes` says whether a torn write leaves each byte old or new. If it does, most commits sync once.
/// Errors: `Memory`; `Store`, with its cause if that is known, if the file can't be opened, if it is no database, or if the path is `:memory:` or
/// begins with `file:`.
pub fn open_file<S: Start>(
    rt: &HostRuntime,
    path: &str,
    start: S,
) -> Result<Connection<FileStore<FileFrom<S>>>, FileFault>
    ensures opened { IfOk result (λ connection. HasCleanDisk (file_state connection) → IsOpened connection) }
    ensures found { IfOk result (λ connection.
        HasCleanDisk (file_state connection) → FindsIn (image_at S.Start) (file_state connection)) }
    ensures fresh { IfOk result IsNew }
    ensures idle { IfOk result (λ connection. connection.in_transaction ≡ false) }
    ensures faults { IfErr result IsFileFault }
{
    // SQLite does not read these paths as the names of files.
    if path == ":memory:" || path.starts_with("file:") {
        return Err(fault_with_cause(Fault::Store, None));
    }
    let options = options_for(rt, path)?;
    let files = sqlite_std_file::open(rt, path, start)?;
    // `false`: a new database gets no page checksums. After an error, the open files (`_`) are closed.
    match Connection::open_files_with(rt.alloc(), files, options, false) {
        Ok(connection) => Ok(connection),
        Err((error, _)) => Err(FileFault::from(error)),
    }
}

/// The options to open the database at a path. The seed for its log's salts is random: `RandomState` gives a fixed value a random hash. The page
/// cache has room for twice the file's pages (8 MB to 512 MiB): look-ups seldom read the disk. The same number of changed pages can wait in memory.
pub(crate) fn options_for(rt: &HostRuntime, path: &str) -> Result<Options, FileFault>
    ensures room { IfOk result (λ options. (2000 ≤ options.cache_pages) × (options.cache_pages ≤ 131072)
        × (options.spill_pages ≡ options.cache_pages)) }
    ensures faults { IfErr result (λ why. why.fault ≡ Fault.Store) }
{
    let Ok(state) = RandomState::new(rt) else {
        return Err(fault_with_cause(Fault::Store, None));
    };
    let pages = cache_pages_for(rt, path);
    Ok(Options {
        cache_pages: pages,
        spill_pages: pages,
        ..Options::new(state.hash_one(&0u8))
    })
}

fn cache_pages_for(rt: &HostRuntime, path: &str) -> usize
    ensures fewest { 2000 ≤ result }
    ensures most { result ≤ 131072 }
{
    let bytes = fs::metadata(rt, path).map_or(0, |it| it.len());
    usize::try_from((bytes / PAGE).saturating_mul(2))
        .unwrap_or(MAX_CACHE_PAGES)
        .max(MIN_CACHE_PAGES)
        .min(MAX_CACHE_PAGES)
}

/// Why no file was created. `Taken`: something is at the path or at that of its log; or a system call failed, with its cause if that is known.
#[derive(Clone, Copy, PartialEq, Eq)]
pub enum ClaimFault {
    Memory,
    Taken(Option<Cause>),
}

/// Creates an empty file at a path with mode 0600, if there is no file, and none at the path of its log (`-wal`): a log may be all that is left of a
/// register. A dangling symbolic link counts as a file. If two programs call this at once for one path, only one of them succeeds.
pub fn claim_file(rt: &HostRuntime, path: &str) -> Result<(), ClaimFault> {
    let Ok(log) = log_path(rt, path) else {
        return Err(ClaimFault::Memory);
    };
    match fs::symlink_metadata(rt, log.as_str()) {
        Ok(_) => Err(ClaimFault::Taken(None)),
        Err(error) if error.kind() == ErrorKind::NotFound => create_file(rt, path),
        Err(error) => Err(claim_fault_of(error.kind())),
    }
}

fn create_file(rt: &HostRuntime, path: &str) -> Result<(), ClaimFault> {
    let mut options = OpenOptions::new();
    options.write(true).create_new(true).mode(OWNER_ONLY);
    match options.open(rt, path) {
        Ok(_) => Ok(()),
        Err(error) => Err(claim_fault_of(error.kind())),
    }
}

fn claim_fault_of(kind: ErrorKind) -> ClaimFault
    ensures memory { kind ≡ ErrorKind.OutOfMemory → result ≡ ClaimFault.Memory }
    ensures others { kind ≢ ErrorKind.OutOfMemory → result ≢ ClaimFault.Memory }
{
    match kind {
        ErrorKind::OutOfMemory => ClaimFault::Memory,
        other => ClaimFault::Taken(io_cause_of(other)),
    }
}

/// Removes a database's file and its log, and holds SQLite's locks on the file meanwhile. Removes nothing if another program holds one of these
/// locks, or if the file can't be opened for writing. Writes nothing to the file first, so that a failing disk does not prevent the removal.
pub fn remove_file(rt: &HostRuntime, path: &str) {
    let Some(held) = lock_exclusively(rt, path) else {
        return;
    };
    drop(fs::remove_file(rt, path));
    if let Ok(log) = log_path(rt, path) {
        drop(fs::remove_file(rt, log.as_str()));
    }
    drop(held);
}
