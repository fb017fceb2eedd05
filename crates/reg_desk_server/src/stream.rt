//! The trait of a client's connection whose reads and writes never block: over TCP for HTTP, over a Unix socket for control lines.

use mio::event::Source;
use mio::net::{TcpStream, UnixStream};
use std::io;
use std::io::Write;
use std::net::Shutdown;

pub trait ClientStream: reg_io::Source + Write + Source {
    /// Shuts down the sending side of the connection. The errors are those of shutdown(2).
    fn finish(&self) -> io::Result<()>;
}

impl ClientStream for TcpStream {
    fn finish(&self) -> io::Result<()> {
        self.shutdown(Shutdown::Write)
    }
}

impl ClientStream for UnixStream {
    fn finish(&self) -> io::Result<()> {
        self.shutdown(Shutdown::Write)
    }
}
