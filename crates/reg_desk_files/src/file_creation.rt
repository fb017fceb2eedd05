//! Copies a database to a new file: writes its pages under another name, and gives the file its own name once it is whole and synced.

ghost use Rattle.std.specs.Prelude.{IfErr};
ghost use Rattle.reg_desk_files.specs.Reading.{IsFileFault};

use crate::file_fault::{FileFault, create_fault_of, fault_with_cause};
use crate::file_locks::with_suffix;
use crate::page_copy::put_pages;
use reg_core::{Cause, Fault};
use sqlite_disk::Disk;
use sqlite_pager::Pager;
use std::fs::{File, OpenOptions};
use std::io::ErrorKind;
use std::os::unix::fs::OpenOptionsExt;
use std::{fs, io};

const OWNER_ONLY: u32 = 0o600;

const PARTIAL_SUFFIX: &str = ".part";

/// Writes all pages to a new file at the path `to`, and returns how many bytes it has. The file is written at that path with `.part`, and synced.
/// Then it gets its own name, in one step that replaces no file. If any of this fails, the new file is removed. Errors: `Memory`; `Store` if a page
/// can't be read, or if the file can't be written or named. `Store` too if there is a file at `to`, or at `to` with `-wal`, `-journal` or `.part`.
pub(crate) fn write_copy<D: Disk>(
    rt: &HostRuntime,
    pager: &mut Pager<D>,
    to: &str,
) -> Result<u64, FileFault>
    ensures { IfErr result IsFileFault }
{
    check_no_files(rt, to)?;
    let part_path = with_suffix(rt, to, PARTIAL_SUFFIX)?;
    let mut file = new_file(rt, part_path.as_str())?;
    match fill_and_name(rt, pager, &mut file, part_path.as_str(), to) {
        Ok(bytes) => Ok(bytes),
        Err(why) => {
            drop(fs::remove_file(rt, part_path.as_str()));
            Err(why)
        }
    }
}

fn check_no_files(rt: &HostRuntime, to: &str) -> Result<(), FileFault>
    ensures { IfErr result IsFileFault }
{
    if to.is_empty() {
        return Err(fault_with_cause(Fault::Store, Some(Cause::NoFile)));
    }
    check_no_file(rt, to, "")?;
    check_no_file(rt, to, "-wal")?;
    check_no_file(rt, to, "-journal")
}

fn check_no_file(rt: &HostRuntime, to: &str, suffix: &str) -> Result<(), FileFault>
    ensures { IfErr result IsFileFault }
{
    let path = with_suffix(rt, to, suffix)?;
    match fs::symlink_metadata(rt, path.as_str()) {
        Ok(_) => Err(fault_with_cause(Fault::Store, Some(Cause::PathExists))),
        Err(error) if error.kind() == ErrorKind::NotFound => Ok(()),
        Err(error) => Err(create_fault_of(error.kind())),
    }
}

fn new_file(rt: &HostRuntime, path: &str) -> Result<File, FileFault>
    ensures { IfErr result IsFileFault }
{
    let mut options = OpenOptions::new();
    options.write(true).create_new(true).mode(OWNER_ONLY);
    match options.open(rt, path) {
        Ok(file) => Ok(file),
        Err(error) => Err(create_fault_of(error.kind())),
    }
}

fn fill_and_name<D: Disk>(
    rt: &HostRuntime,
    pager: &mut Pager<D>,
    file: &mut File,
    part_path: &str,
    to: &str,
) -> Result<u64, FileFault>
    ensures { IfErr result IsFileFault }
{
    let bytes = put_pages(pager, file)?;
    or_create_fault(file.sync_all())?;
    rename_without_replacing(rt, part_path, to)?;
    Ok(bytes)
}

/// Gives the whole file its own name `to`, if that is free; then removes the name with `.part` and syncs the folder. If the removal or the sync
/// fails, removes the name `to` too.
fn rename_without_replacing(rt: &HostRuntime, part_path: &str, to: &str) -> Result<(), FileFault>
    ensures { IfErr result IsFileFault }
{
    or_create_fault(fs::hard_link(rt, part_path, to))?;
    match remove_former_name(rt, part_path) {
        Ok(()) => Ok(()),
        Err(error) => {
            drop(fs::remove_file(rt, to));
            Err(create_fault_of(error.kind()))
        }
    }
}

fn remove_former_name(rt: &HostRuntime, part_path: &str) -> io::Result<()> {
    let mut folder = fs::canonicalize(rt, part_path)?;
    folder.pop();
    fs::remove_file(rt, part_path)?;
    let folder = File::open(rt, folder.as_str())?;
    folder.sync_all()
}

fn or_create_fault(outcome: io::Result<()>) -> Result<(), FileFault>
    ensures { IfErr result IsFileFault }
{
    match outcome {
        Ok(()) => Ok(()),
        Err(error) => Err(create_fault_of(error.kind())),
    }
}
