//! Runs an invocation of the program: opens its input, output and log, and has its job done.

use crate::dispatch::perform_without_contract;
use crate::host::{SystemHost, open_log};
use crate::input::{Input, input_path};
use crate::progress::{CountedOutput, register_path_of, show_large_opening};
use reg_core::{Fault, create_cause_of, io_cause_of};
use reg_desk_cli::{Failure, Invocation, status_of};
use reg_desk_jobs::report_exit;
use reg_desk_service::{FailureCause, Location};
use std::cell::Cell;
use std::io::{ErrorKind, IsTerminal};
use std::os::unix::fs::MetadataExt;
use std::{fs, io};

/// Does the job of an invocation, and returns its exit status. The job reads standard input, or the file that an option or argument names in its
/// place. If that file or the log file can't be opened, `run_desk` does no job, reports the fault on standard error, and returns 1. Else it has
/// `perform_without_contract` do the job: [`perform`](crate::perform), but without its contract, which the prover would write out at length here.
pub fn run_desk(rt: &HostRuntime, invocation: &Invocation<'_>) -> u8 {
    let log_file = log_path(invocation);
    if let Err(error) = check_log(rt, invocation) {
        let fault = if error.kind() == ErrorKind::OutOfMemory {
            Fault::Memory
        } else {
            Fault::Write
        };
        let cause = FailureCause::at(Some(Location::LogFile), create_cause_of(error.kind()));
        return report_fault(rt, invocation, fault, cause);
    }
    show_large_opening(rt, &invocation.job);
    let (location, path) = input_path(&invocation.job).unzip();
    let mut input = match Input::of(rt, path) {
        Ok(input) => input,
        Err(error) => {
            let cause = FailureCause::at(location, io_cause_of(error.kind()));
            return report_fault(rt, invocation, Fault::Read, cause);
        }
    };
    let last_cause = Cell::new(None);
    let mut errors = rt.stderr();
    let mut host = SystemHost {
        rt: *rt,
        last_cause: &last_cause,
        logs_to_stderr: invocation.has_log,
        log_file,
        shows_progress: errors.is_terminal(),
    };
    let mut output = CountedOutput::of(rt, &invocation.job, &last_cause);
    perform_without_contract(
        rt,
        &mut host,
        &invocation.job,
        invocation.is_explained,
        &mut input,
        &mut output,
        &mut errors,
    )
}

fn log_path<'n>(invocation: &'n Invocation<'_>) -> Option<&'n str> {
    match &invocation.log_file {
        Some(path) => Some(path.as_str()),
        None => None,
    }
}

/// Checks that the log file, if one is named, can be opened for appending, and creates it if there is none. Errors: `AlreadyExists` if it is the
/// register's file, or that file's `-wal` or `-journal`, which log lines would damage; else those of the system.
fn check_log(rt: &HostRuntime, invocation: &Invocation<'_>) -> io::Result<()> {
    let (Some(path), Some(register)) = (log_path(invocation), register_path_of(&invocation.job))
    else {
        return Ok(());
    };
    let log = open_log(rt, path)?.metadata()?;
    // SQLite names `-wal` and `-journal` after the file to which a symbolic link leads. If there is no register yet, a log line can't damage it.
    let register = match fs::canonicalize(rt, register) {
        Ok(register) => register,
        Err(error) if error.kind() == ErrorKind::NotFound => return Ok(()),
        Err(error) => return Err(error),
    };
    for suffix in ["", "-wal", "-journal"] {
        let mut part = String::new(rt.alloc());
        part.push_str(register.as_str())?;
        part.push_str(suffix)?;
        match fs::metadata(rt, part.as_str()) {
            Ok(found) if found.dev() == log.dev() && found.ino() == log.ino() => {
                return Err(ErrorKind::AlreadyExists.into());
            }
            Err(error) if error.kind() != ErrorKind::NotFound => return Err(error),
            _ => {}
        }
    }
    Ok(())
}

fn report_fault(
    rt: &HostRuntime,
    invocation: &Invocation<'_>,
    fault: Fault,
    cause: Option<FailureCause>,
) -> u8 {
    let ending = Err(Failure::Fault(fault));
    report_exit(
        rt.alloc(),
        &mut rt.stderr(),
        &ending,
        invocation.is_explained,
        cause,
        None,
    );
    status_of(&ending)
}
