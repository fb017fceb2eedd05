//! Copies a database's file and its log (`-wal`) to one new file, which has each page as opening would find it, even if only the log has that page.

ghost use Rattle.std.specs.Prelude.{◌≡◌, ◌*◌, min, IfErr, IfOk, IsTrue, OnOk};
ghost use Rattle.std.specs.Io.KnownBytes.{Appends};
ghost use Rattle.sqlite.specs.Files.{image_of};
ghost use Rattle.sqlite_pager.specs.Pager.{page_count, state, visible};
ghost use Rattle.sqlite_wal.specs.Reads.{OnlyReads};
ghost use Rattle.sqlite_wal.specs.Recovery.{Recovers};
ghost use Rattle.reg_desk_files.specs.Copied.{pages_in_order, page_bytes};
ghost use Rattle.reg_desk_files.specs.Reading.{IsFileFault, IsReadFailureOfFiles};

use crate::file_creation::write_copy;
use crate::file_fault::{FileFault, create_fault_of, damaged_fault, fault_with_cause};
use crate::overlay::overlaid;
use crate::read_file::OpenedBy;
use crate::read_only::{ReadFailure, SourceFiles, check_has_database, sources_at};
use crate::source::ReadAt;
use reg_core::Fault;
use sqlite::Options;
use sqlite_disk::{Disk, Files};
use sqlite_pager::Pager;
use sqlite_wal::{PageSize, probe_page_size};
use std::alloc::Global;
use std::io::Write;

/// Copies a database that no program has open for writing, to the path `to`, and returns how many bytes the copy has. The copy has mode 0600, and
/// gets that path once it is complete and synced. After an error no copy is left. Errors: `Nothing` if there is no database yet; `Memory`; `Store` if
/// the files can't be read, if the copy can't be written, or if there is a file at `to`, or at `to` with `-wal`, `-journal` or `.part`.
pub fn copy_closed(rt: &HostRuntime, path: &str, to: &str) -> Result<u64, ReadFailure>
    ensures { IfErr result IsReadFailureOfFiles }
{
    copy_locked(rt, path, OpenedBy::NoWriter, to)
}

/// As [`copy_closed`], for a database that this program has open and locked, between two transactions. `Store` also if another file is at `path` now.
pub fn copy_open(rt: &HostRuntime, path: &str, to: &str) -> Result<u64, ReadFailure>
    ensures { IfErr result IsReadFailureOfFiles }
{
    copy_locked(rt, path, OpenedBy::ThisProgram, to)
}

fn copy_locked(
    rt: &HostRuntime,
    path: &str,
    opened_by: OpenedBy,
    to: &str,
) -> Result<u64, ReadFailure>
    ensures { IfErr result IsReadFailureOfFiles }
{
    copy_sources(rt, sources_at(rt, path, opened_by)?, to)
}

fn copy_sources<F: ReadAt + Drop>(
    rt: &HostRuntime,
    sources: SourceFiles<F>,
    to: &str,
) -> Result<u64, ReadFailure>
    ensures { IfErr result IsReadFailureOfFiles }
{
    // The default page cache (2,000 pages) is enough, since a copy reads each page once.
    // The seed is for the log's salts, the key for digests that check later reads of a page. `overlaid` lets no write reach the files.
    let options = Options::new(sources.options.seed);
    let files = overlaid(rt.alloc(), sources.log, sources.db, sources.key);
    copy_files(rt, files, options, to)
}

fn copy_files<D: Disk + Drop>(
    rt: &HostRuntime,
    files: Files<D>,
    options: Options,
    to: &str,
) -> Result<u64, ReadFailure>
    requires log { IsTrue (D.Disk.is_usable files.log) }
    requires db { IsTrue (D.Disk.is_usable files.db) }
    ensures { IfErr result IsReadFailureOfFiles }
{
    let mut pager = recovered(rt.alloc(), files, options)?;
    Ok(write_copy(rt, &mut pager, to)?)
}

/// A pager, which reads pages by number, with the pages that opening finds in a file and its log. Errors: `Nothing` if there is no database yet;
/// `Memory`; `Store` if the files hold something else, or if a call failed.
pub fn recovered<D: Disk + Drop>(
    alloc: Global,
    mut files: Files<D>,
    options: Options,
) -> Result<Pager<D>, ReadFailure>
    requires log { IsTrue (D.Disk.is_usable files.log) }
    requires db { IsTrue (D.Disk.is_usable files.db) }
    ensures found { IfOk result (λ pager.
        IsTrue (state pager).is_clean
        → Recovers (state pager).page_size (image_of D.Disk files) (visible pager)) }
    ensures faults { IfErr result IsReadFailureOfFiles }
{
    check_has_database(alloc, &mut files)?;
    let size = size_in(&mut files)?;
    recovered_by(alloc, files, size, options)
}

fn size_in<D: Disk>(files: &mut Files<D>) -> Result<PageSize, ReadFailure>
    requires log { IsTrue (D.Disk.is_usable files.old.log) }
    requires db { IsTrue (D.Disk.is_usable files.old.db) }
    ensures log { OnlyReads D.Disk files.old.log files.new.log }
    ensures db { OnlyReads D.Disk files.old.db files.new.db }
    ensures faults { IfErr result IsReadFailureOfFiles }
{
    match probe_page_size(files) {
        Ok(Some(size)) => Ok(size),
        Ok(None) => Err(ReadFailure::Fault(damaged_fault())),
        Err(error) => Err(ReadFailure::Fault(FileFault::from(error))),
    }
}

fn recovered_by<D: Disk + Drop>(
    alloc: Global,
    files: Files<D>,
    size: PageSize,
    options: Options,
) -> Result<Pager<D>, ReadFailure>
    requires log { IsTrue (D.Disk.is_usable files.log) }
    requires db { IsTrue (D.Disk.is_usable files.db) }
    ensures found { IfOk result (λ pager.
        IsTrue (state pager).is_clean
        → Recovers (state pager).page_size (image_of D.Disk files) (visible pager)) }
    ensures faults { IfErr result IsReadFailureOfFiles }
{
    let Ok(mut pager) = Pager::new(alloc, files, size, options) else {
        return Err(ReadFailure::Fault(fault_with_cause(Fault::Memory, None)));
    };
    match pager.recover() {
        Ok(()) => Ok(pager),
        Err(error) => Err(ReadFailure::Fault(FileFault::from(error))),
    }
}

/// Writes all pages in order, from number 1 on, and returns how many bytes those are. Errors: `Memory`; `Store` if a page can't be read or written.
pub fn put_pages<D: Disk, W: Write>(pager: &mut Pager<D>, writer: &mut W) -> Result<u64, FileFault>
    ensures whole { IfOk result (λ bytes. IsTrue (state pager.new).is_clean
        → Appends (W.contents writer.old) (W.contents writer.new)
        (pages_in_order (visible pager.old) (page_count pager.old))) }
    ensures bytes { IfOk result (λ bytes.
        bytes ≡ min (page_count pager.old * (state pager.old).page_size) 18446744073709551615) }
    ensures faults { IfErr result IsFileFault }
{
    let count = pager.page_count();
    let bytes = u64::from(count).saturating_mul(pager.page_size() as u64);
    for before in 0..count {
        put_page(pager, before + 1, writer)?;
    }
    Ok(bytes)
}

fn put_page<D: Disk, W: Write>(
    pager: &mut Pager<D>,
    page: u32,
    writer: &mut W,
) -> Result<(), FileFault>
    ensures whole { OnOk result (IsTrue (state pager.new).is_clean
        → Appends (W.contents writer.old) (W.contents writer.new) (page_bytes (visible pager.old page))) }
    ensures clean { IsTrue (state pager.new).is_clean → IsTrue (state pager.old).is_clean }
    ensures pages { visible pager.new ≡ visible pager.old }
    ensures faults { IfErr result IsFileFault }
{
    pager.load(page)?;
    put(writer, pager.loaded())
}

fn put<W: Write>(writer: &mut W, bytes: &[u8]) -> Result<(), FileFault>
    ensures whole { OnOk result (Appends (W.contents writer.old) (W.contents writer.new) bytes.now) }
    ensures faults { IfErr result IsFileFault }
{
    match writer.write_all(bytes) {
        Ok(()) => Ok(()),
        Err(error) => Err(create_fault_of(error.kind())),
    }
}
