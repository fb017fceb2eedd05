//! Shows on standard error, if that is a terminal, that a large register is being opened, and how many lines of a long job are done.

use reg_core::io_cause_of;
use reg_desk_cli::Job;
use reg_desk_service::{FailureCause, Location};
use std::cell::Cell;
use std::io::{IsTerminal, Stdout, Write};
use std::time::Clock;
use std::{fs, io};

/// Opening a register's file of at least so many bytes (64 MiB) may take seconds, so the opening is shown.
const LARGE: u64 = 67_108_864;

const MEGABYTE: u64 = 1_000_000;

/// Standard output. A long job writes a reply for each line or row; their number, `lines`, is shown on standard error, at most once a second. The
/// cause of a failed write is kept in `last_cause`.
#[derive(Drop)]
pub(crate) struct CountedOutput<'a> {
    rt: &'a HostRuntime,
    output: Stdout,
    last_cause: &'a Cell<Option<FailureCause>>,
    shows_progress: bool,
    lines: u64,
    /// The seconds of the monotonic clock when the job started, and when progress was last shown.
    started_at: u64,
    last_shown: u64,
}

impl<'a> CountedOutput<'a> {
    /// Progress is shown for a long job, if standard error is a terminal and standard output is not: on a terminal, the replies themselves show it.
    pub(crate) fn of(
        rt: &'a HostRuntime,
        job: &Job<'_>,
        last_cause: &'a Cell<Option<FailureCause>>,
    ) -> CountedOutput<'a> {
        let output = rt.stdout();
        let shows_progress = is_long(job) && rt.stderr().is_terminal() && !output.is_terminal();
        let now = seconds(rt);
        CountedOutput {
            rt,
            output,
            last_cause,
            shows_progress,
            lines: 0,
            started_at: now,
            last_shown: now,
        }
    }

    fn count(&mut self) {
        self.lines = self.lines.saturating_add(1);
        let now = seconds(self.rt);
        if now == self.last_shown {
            return;
        }
        self.last_shown = now;
        // `elapsed` is 0 only if the clock can't be read.
        let elapsed = now.saturating_sub(self.started_at);
        let per_second = self.lines.checked_div(elapsed).unwrap_or(self.lines);
        let lines = self.lines;
        // A line that can't be written is left out.
        drop(eprintln!(self.rt; "{lines} lines done, {per_second} a second"));
    }
}

impl<'a> Write for CountedOutput<'a> {
    fn write(&mut self, buf: &[u8]) -> io::Result<usize> {
        let count = match self.output.write(buf) {
            Ok(count) => count,
            Err(error) => {
                self.last_cause.set(FailureCause::at(
                    Some(Location::Output),
                    io_cause_of(error.kind()),
                ));
                return Err(error);
            }
        };
        // Each reply is offered in one write. If the output takes only a part of it, the rest is offered in another one, and counts again.
        if self.shows_progress && buf.ends_with(b"\n") {
            self.count();
        }
        Ok(count)
    }

    fn flush(&mut self) -> io::Result<()> {
        self.output.flush()
    }
}

pub(crate) fn show_large_opening(rt: &HostRuntime, job: &Job<'_>) {
    let Some(path) = register_path_of(job) else {
        return;
    };
    let bytes = fs::metadata(rt, path).map_or(0, |it| it.len());
    if bytes >= LARGE && rt.stderr().is_terminal() {
        let megabytes = bytes / MEGABYTE;
        drop(eprintln!(rt; "opening {path}, {megabytes} MB"));
    }
}

/// The seconds of the monotonic clock; 0 if it can't be read.
pub(crate) fn seconds(rt: &HostRuntime) -> u64 {
    match rt.monotonic() {
        Ok(time) => time.as_secs(),
        Err(_) => 0,
    }
}

fn is_long(job: &Job<'_>) -> bool {
    matches!(
        job,
        Job::Script { .. }
            | Job::Lines(_)
            | Job::Import(_)
            | Job::At { rows: Some(_), .. }
            | Job::EachRow { .. }
            | Job::Replay { .. }
    )
}

/// The path of the register that a job opens. `None` for a register in memory, and if the job opens none: `init` creates one; a copy reads bytes.
pub(crate) fn register_path_of<'a>(job: &Job<'a>) -> Option<&'a str> {
    match job {
        Job::Script { file, .. } => Some(file.as_ref()?.as_str()),
        Job::Lines(script) => Some(script.file.as_str()),
        Job::Import(rows) => Some(rows.file.as_str()),
        Job::Crl { file, .. } => Some(file.as_str()),
        Job::Serve(serve_job) => Some(serve_job.file.as_str()),
        Job::Open(open_job) => Some(open_job.file.as_str()),
        Job::Follow(follow_job) => Some(follow_job.file.as_str()),
        Job::Schedule { file, .. } => Some(file.as_str()),
        Job::KeyId { file, .. } => Some(file.as_str()),
        Job::Listing(list_job) => Some(list_job.file.as_str()),
        Job::Audit { file } => Some(file.as_str()),
        Job::Copy { .. } => None,
        Job::Init(_) => None,
        Job::At { .. } | Job::EachRow { .. } | Job::Replay { .. } => None,
    }
}
