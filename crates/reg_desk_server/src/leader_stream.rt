//! A connection to another desk, which the handler uses for itself.

use crate::poller::HANDLER;
use mio::event::Source;
use mio::net::{TcpStream, UnixStream};
use mio::{Interest, Registry, Token};
use std::io;
use std::io::{Read, Write};

/// A connection to another desk, over TCP or a Unix socket. Its reads and writes never block: they fail with `WouldBlock` instead.
#[derive(Drop)]
pub enum LeaderStream {
    Tcp(TcpStream),
    Unix(UnixStream),
}

impl LeaderStream {
    /// Has the event loop call `Handler::work` when the connection becomes readable or writable. Errors: the system's.
    pub fn register(&mut self, registry: &Registry) -> io::Result<()> {
        let interests = Interest::READABLE.add(Interest::WRITABLE);
        match self {
            LeaderStream::Tcp(stream) => stream.register(registry, Token(HANDLER), interests),
            LeaderStream::Unix(stream) => stream.register(registry, Token(HANDLER), interests),
        }
    }
}

impl Read for LeaderStream {
    fn read(&mut self, buf: &mut [u8]) -> io::Result<usize> {
        match self {
            LeaderStream::Tcp(stream) => stream.read(buf),
            LeaderStream::Unix(stream) => stream.read(buf),
        }
    }
}

impl Write for LeaderStream {
    fn write(&mut self, buf: &[u8]) -> io::Result<usize> {
        match self {
            LeaderStream::Tcp(stream) => stream.write(buf),
            LeaderStream::Unix(stream) => stream.write(buf),
        }
    }

    fn flush(&mut self) -> io::Result<()> {
        Ok(())
    }
}
