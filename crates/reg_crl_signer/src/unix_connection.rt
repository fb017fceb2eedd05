//! Blocking connections to Unix sockets, with a timeout of ten seconds for the whole exchange.

ghost use Rattle.std.specs.Prelude.{◌≡◌, ◌≤◌, ◌<◌, ◌+◌, ◌-◌, MatchOption};
ghost use Rattle.std.specs.Duration.{as_nanos};
ghost use Rattle.std.specs.Time.{instant_nanos};

use crate::exchange::DeviceConnection;
use mio::net::UnixStream as NonblockingStream;
use std::io::{ErrorKind, Read, Write};
use std::net::Shutdown;
use std::os::unix::net::UnixStream;
use std::time::{Duration, Instant};
use std::{io, thread};

pub(crate) const TIMEOUT_SECS: u64 = 10;

/// The pause between two attempts to connect to a socket whose backlog is full.
const PAUSE_MILLIS: u64 = 10;

/// The most bytes of one write. In a longer write, the kernel may apply the timeout to each part anew.
const MAX_WRITE: usize = 32_768;

/// A connection to a Unix socket, for one exchange of at most ten seconds from `began` on, when connecting began. `rt` gives the monotonic clock.
#[derive(Drop)]
pub struct UnixConnection {
    rt: HostRuntime,
    stream: UnixStream,
    began: Instant,
}

/// A read or a write that a signal interrupts is tried again. Each loop in this file has `u64::MAX` rounds at most, but the ten seconds end it.
impl Read for UnixConnection {
    fn read(&mut self, buf: &mut [u8]) -> io::Result<usize> {
        for _ in 0..u64::MAX {
            self.stream
                .set_read_timeout(Some(time_left_now(&self.rt, self.began)?))?;
            match self.stream.read(buf) {
                Err(error) if error.kind() == ErrorKind::Interrupted => {}
                outcome => return outcome,
            }
        }
        Err(io::Error::from(ErrorKind::TimedOut))
    }
}

impl Write for UnixConnection {
    fn write(&mut self, bytes: &[u8]) -> io::Result<usize> {
        let piece = &bytes[..bytes.len().min(MAX_WRITE)];
        for _ in 0..u64::MAX {
            self.stream
                .set_write_timeout(Some(time_left_now(&self.rt, self.began)?))?;
            match self.stream.write(piece) {
                Err(error) if error.kind() == ErrorKind::Interrupted => {}
                outcome => return outcome,
            }
        }
        Err(io::Error::from(ErrorKind::TimedOut))
    }

    fn flush(&mut self) -> io::Result<()> {
        Ok(())
    }
}

/// Each relation (`connected` and so on) is always true here (`Unit`), so the contracts say nothing about the listener at a path or its answers.
impl DeviceConnection for UnixConnection {
    ghost connected = { λ path connection. Unit {0} };

    ghost unconnected = { λ path. Unit {0} };

    ghost finished = { λ before after. Unit {0} };

    ghost unfinished = { λ before. Unit {0} };

    ghost answered_another_caller = { λ path message answer. Unit {0} };

    /// If the socket's backlog is full, tries again every 10 ms, for ten seconds: then `TimedOut`. Other errors are those of the system calls. A
    /// blocking call would wait for the backlog, so this connects without blocking; then the connection is made a blocking one.
    fn connect(rt: &HostRuntime, path: &str) -> io::Result<UnixConnection>
        ensures ok { Unit {0} }
        ensures err { Unit {0} }
    {
        let began = Instant::now(rt)?;
        for _ in 0..u64::MAX {
            let left = time_left_now(rt, began)?;
            match NonblockingStream::connect(rt, path) {
                Ok(stream) => {
                    let (rt, stream) = (*rt, UnixStream::from(stream));
                    stream.set_nonblocking(false)?;
                    return Ok(UnixConnection { rt, stream, began });
                }
                Err(error) if error.kind() == ErrorKind::WouldBlock => {
                    thread::sleep(rt, left.min(Duration::from_millis(PAUSE_MILLIS)));
                }
                Err(error) => return Err(error),
            }
        }
        Err(io::Error::from(ErrorKind::TimedOut))
    }

    fn finish(&mut self) -> io::Result<()>
        ensures ok { Unit {0} }
        ensures err { Unit {0} }
    {
        self.stream.shutdown(Shutdown::Write)
    }
}

fn time_left_now(rt: &HostRuntime, began: Instant) -> io::Result<Duration> {
    time_left(began, Instant::now(rt)?).ok_or(io::Error::from(ErrorKind::TimedOut))
}

fn time_left(began: Instant, now: Instant) -> Option<Duration>
    ensures { MatchOption result (10000000000 ≤ instant_nanos now - instant_nanos began)
        (λ left. (as_nanos left + (instant_nanos now - instant_nanos began) ≡ 10000000000)
        × (0 < as_nanos left)) }
{
    let left = Duration::from_secs(TIMEOUT_SECS).checked_sub(now.duration_since(began))?;
    if left.is_zero() { None } else { Some(left) }
}
