//! The input of a job: standard input, or the file that an argument or option names instead.

use reg_desk_cli::{Job, OpenJob, RowTask, ServeJob};
use reg_desk_service::Location;
use std::fs::File;
use std::io;
use std::io::{Read, Stdin};

#[derive(Drop)]
pub(crate) enum Input {
    Standard(Stdin),
    File(File),
}

impl Input {
    pub(crate) fn of(rt: &HostRuntime, path: Option<&str>) -> io::Result<Input> {
        match path {
            Some(path) => Ok(Input::File(File::open(rt, path)?)),
            None => Ok(Input::Standard(rt.stdin())),
        }
    }
}

/// The argument or option that names a file which a job reads in place of standard input, and the file's path; `None` if there is no such file.
pub(crate) fn input_path<'a>(job: &Job<'a>) -> Option<(Location, &'a str)> {
    match job {
        Job::EachRow {
            rows: path,
            task: RowTask::Revoke,
            ..
        } => Some((Location::Revoke, path.as_str())),
        Job::At {
            rows: Some(path),
            ..
        }
        | Job::EachRow { rows: path, .. } => Some((Location::Import, path.as_str())),
        Job::Replay { log: path, .. } => Some((Location::Log, path.as_str())),
        Job::Serve(
            ServeJob {
                published: Some(path),
                ..
            },
        )
        | Job::Open(
            OpenJob {
                published: Some(path),
                ..
            },
        ) => Some((Location::Published, path.as_str())),
        _ => None,
    }
}

impl Read for Input {
    fn read(&mut self, buf: &mut [u8]) -> io::Result<usize> {
        match self {
            Input::Standard(input) => input.read(buf),
            Input::File(file) => file.read(buf),
        }
    }
}
