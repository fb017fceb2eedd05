//! The job `copy`: copies a register's file.

ghost use Rattle.reg_desk_jobs.specs.Ends.{CopyAt};

use crate::output_lines::print_line;
use reg_desk_cli::Failure;
use reg_desk_service::{Machine, copied_line, millis_since};
use std::alloc::Global;
use std::io::Write;

/// Copies the register `file` to the path `to`, and prints the copy's size and the time in ms. Errors: [`Machine::copy`]'s; `Memory`; `Write`.
pub fn copy<M: Machine, W: Write>(
    alloc: Global,
    machine: &mut M,
    file: &str,
    to: &str,
    writer: &mut W,
) -> Result<(), Failure>
    ensures { CopyAt M.Machine M.Office.Office W.contents machine.old machine.new writer.old writer.new
        file.now to.now
        result }
{
    let began = machine.micros();
    let bytes = machine.copy(file, to)?;
    let millis = millis_since(machine, began);
    print_line(writer, copied_line(alloc, bytes, millis))
}
