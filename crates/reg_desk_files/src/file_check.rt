//! Finds out whether a file and its log (`-wal`) hold a database, before it is opened.

ghost use Rattle.std.specs.Prelude.{◌≡◌, ◌≢◌, ◌↔◌, false, IfErr, IsTrue};
ghost use Rattle.sqlite.specs.Files.{HoldsDatabase, IsBlankAs, IsNothing};
ghost use Rattle.sqlite_pool.specs.Stored.{stored_size};
ghost use Rattle.sqlite_trees.specs.Tree.{Trees};
ghost use Rattle.sqlite_wal.specs.PageSize.{bytes_of};
ghost use Rattle.sqlite_wal.specs.Reads.{OnlyReads};
ghost use Rattle.reg_desk_files.specs.Reading.{IsFileFault, ReportsImage};

use crate::file_fault::FileFault;
use reg_core::Fault;
use sqlite_disk::{Disk, Files};
use sqlite_pool::probe_blank;
use sqlite_wal::{Error, PageSize, probe_first_page, probe_page_size};
use std::alloc::Global;

const NEW_PAGE_SIZE: usize = 4096;

/// The content of a file and its log, as far as reading their beginnings shows.
#[derive(Clone, Copy, PartialEq, Eq)]
pub enum FileContent {
    /// No database yet: the file is empty, or an interrupted creation left a part of its first page. Opening for writing would create one.
    Nothing,
    Other,
    /// The beginning of a database. Only opening finds out whether the rest is one too.
    PossibleDatabase,
}

/// Finds out what opening would find in a file and its log. Errors: `Memory`; `Store` if a read failed, or if the log is not that of a database.
pub fn probe_content<D: Disk>(alloc: Global, files: &mut Files<D>) -> Result<FileContent, FileFault>
    requires log { IsTrue (D.Disk.is_usable files.old.log) }
    requires db { IsTrue (D.Disk.is_usable files.old.db) }
    ensures nothing { ReportsImage D.Disk files.old files.new result
        (λ found image. found ≡ FileContent.Nothing ↔ IsNothing image) }
    ensures other { ReportsImage D.Disk files.old files.new result
        (λ found image. found ≡ FileContent.Other → (db : Trees) → ¬ HoldsDatabase image db) }
    ensures log { OnlyReads D.Disk files.old.log files.new.log }
    ensures db { OnlyReads D.Disk files.old.db files.new.db }
    ensures faults { IfErr result IsFileFault }
{
    if is_nothing(alloc, files)? {
        return Ok(FileContent::Nothing);
    }
    if begins(alloc, files)? {
        return Ok(FileContent::PossibleDatabase);
    }
    Ok(FileContent::Other)
}

fn is_nothing<D: Disk>(alloc: Global, files: &mut Files<D>) -> Result<bool, Error>
    requires log { IsTrue (D.Disk.is_usable files.old.log) }
    requires db { IsTrue (D.Disk.is_usable files.old.db) }
    ensures nothing { ReportsImage D.Disk files.old files.new result
        (λ is image. IsTrue is ↔ IsNothing image) }
    ensures log { OnlyReads D.Disk files.old.log files.new.log }
    ensures db { OnlyReads D.Disk files.old.db files.new.db }
{
    if is_blank(alloc, files, false)? {
        return Ok(true);
    }
    is_blank(alloc, files, true)
}

/// Whether opening would create a database, or finish an interrupted creation. `has_sums`: each page would end with a checksum of 8 octets, as
/// SQLite's extension cksumvfs writes it.
fn is_blank<D: Disk>(alloc: Global, files: &mut Files<D>, has_sums: bool) -> Result<bool, Error>
    requires log { IsTrue (D.Disk.is_usable files.old.log) }
    requires db { IsTrue (D.Disk.is_usable files.old.db) }
    ensures blank { ReportsImage D.Disk files.old files.new result
        (λ is image. IsTrue is ↔ IsBlankAs has_sums image) }
    ensures log { OnlyReads D.Disk files.old.log files.new.log }
    ensures db { OnlyReads D.Disk files.old.db files.new.db }
{
    let size = PageSize::new(NEW_PAGE_SIZE).unwrap();
    probe_blank(alloc, files, size, has_sums)
}

/// Whether the log or else the file names a page size, and the first page begins as that of a database.
fn begins<D: Disk>(alloc: Global, files: &mut Files<D>) -> Result<bool, Error>
    requires log { IsTrue (D.Disk.is_usable files.old.log) }
    requires db { IsTrue (D.Disk.is_usable files.old.db) }
    ensures none { ReportsImage D.Disk files.old files.new result
        (λ is image. is ≡ false → (db : Trees) → ¬ HoldsDatabase image db) }
    ensures log { OnlyReads D.Disk files.old.log files.new.log }
    ensures db { OnlyReads D.Disk files.old.db files.new.db }
{
    let page_size = probe_page_size(files)?;
    match page_size {
        Some(size) => begins_with(alloc, files, size),
        None => Ok(false),
    }
}

/// Whether the first byte (`head.0`) of the first page, which may be in the log, is the S of SQLite, as in each database (SQLite file format 1.3.1).
fn begins_with<D: Disk>(alloc: Global, files: &mut Files<D>, size: PageSize) -> Result<bool, Error>
    requires log { IsTrue (D.Disk.is_usable files.old.log) }
    requires db { IsTrue (D.Disk.is_usable files.old.db) }
    ensures none { ReportsImage D.Disk files.old files.new result
        (λ is image. is ≡ false → (db : Trees) → (held : HoldsDatabase image db)
        → stored_size held.0 ≢ bytes_of size) }
    ensures log { OnlyReads D.Disk files.old.log files.new.log }
    ensures db { OnlyReads D.Disk files.old.db files.new.db }
{
    let head = probe_first_page(alloc, files, size)?;
    Ok(head.0 == b'S')
}
