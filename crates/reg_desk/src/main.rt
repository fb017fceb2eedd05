//! The program `desk`: the register and status service of one certification authority. Each call of the system needs a `HostRuntime` (`rt`).
#![tactic(auto)]

use reg_desk_cli::{Usage, not_utf8_usage, read_words};
use reg_desk_program::run_desk;
use std::fs::{File, OpenOptions};
use std::io::ErrorKind;
use std::os::fd::AsRawFd;
use std::process::ExitCode;
use std::{env, io};

/// Does the job of the command line ([`run_desk`]), or prints help, the version or a usage error ([`print_usage`]). Returns the exit status.
fn main(rt: HostRuntime) -> ExitCode {
    let _streams = fill_closed_streams(&rt);
    let status = match words_of(&rt) {
        Ok(words) => match read_words(rt.alloc(), words.as_slice()) {
            Ok(invocation) => run_desk(&rt, &invocation),
            Err(usage) => print_usage(&rt, &usage),
        },
        Err(usage) => print_usage(&rt, &usage),
    };
    ExitCode::from(status)
}

/// Opens `/dev/null` in place of each closed standard stream: the system gives a file the lowest free descriptor. `main` keeps these files, so that
/// no socket gets descriptor 1 and sends a client what the program prints. Input is opened write-only, outputs read-only, so that their use fails.
fn fill_closed_streams(rt: &HostRuntime) -> io::Result<Vec<File>> {
    let mut filled = Vec::new(rt.alloc());
    for stream in [0, 1, 2] {
        let mut options = OpenOptions::new();
        options.write(stream == 0).read(stream != 0);
        let file = options.open(rt, "/dev/null")?;
        if file.as_raw_fd() == stream {
            filled.push(file)?;
        }
    }
    Ok(filled)
}

/// The words of the command line, of which the first is the program's name. Errors: `Bad` if a word is not UTF-8; else `Memory`.
fn words_of(rt: &HostRuntime) -> Result<Vec<String>, Usage> {
    match env::args(rt) {
        Ok(args) => args.collect(rt.alloc()).map_err(|_| Usage::Memory),
        Err(error) if error.kind() == ErrorKind::InvalidData => Err(not_utf8_usage(rt.alloc())),
        Err(_) => Err(Usage::Memory),
    }
}

/// Prints the text, and returns the exit status. `F1 memory` and `F5 write` are the lines of these faults (`Fault::line` of reg_core).
fn print_usage(rt: &HostRuntime, usage: &Usage) -> u8 {
    let printed = match usage {
        Usage::Help(text) | Usage::Version(text) => print!(rt; "{text}"),
        Usage::Bad(text) => eprint!(rt; "{text}"),
        Usage::Memory => eprintln!(rt; "F1 memory"),
    };
    match printed {
        Ok(()) => usage.status(),
        Err(_) => {
            let _ = eprintln!(rt; "F5 write");
            1
        }
    }
}
