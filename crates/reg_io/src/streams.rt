use crate::fill::ReadFault;
use crate::put::WriteFault;
use std::io;
use std::io::{Read, Write};

/// A reader whose failure a contract can state: `R.failed` for any `R: Source`. Its calls `read_once` and `try_read` ensure this, if they fail; no
/// other call does.
pub trait Source: Read {
    ghost use Rattle.std.specs.Prelude.{OnErr};
    ghost use Rattle.std.specs.Io.{ReadsAtMost};
    ghost use Rattle.std.specs.Io.KnownBytes.{ReadConsumes};

    ghost failed: { Type 0 };

    /// Reads once, as [`Read::read`], and returns how many bytes came. [`ReadFault`] if the read fails, even with `Interrupted`.
    fn read_once(&mut self, buf: &mut [u8]) -> Result<usize, ReadFault>
        ensures bound { ReadsAtMost result buf.new }
        ensures bytes { ReadConsumes (Self.remaining self.old) (Self.remaining self.new) result buf.new }
        ensures fails { OnErr result failed };

    /// As `read_once`, but with the error of the reader, such as `WouldBlock`.
    fn try_read(&mut self, buf: &mut [u8]) -> io::Result<usize>
        ensures bound { ReadsAtMost result buf.new }
        ensures bytes { ReadConsumes (Self.remaining self.old) (Self.remaining self.new) result buf.new }
        ensures fails { OnErr result failed };
}

impl<R: Read> Source for R {
    // Always true: no clause can state what a call did outside the program. A function that is generic in `R: Source` can't rely on that.
    ghost failed = { Unit {0} };

    fn read_once(&mut self, buf: &mut [u8]) -> Result<usize, ReadFault> {
        match self.read(buf) {
            Ok(count) => Ok(count),
            Err(_) => Err(ReadFault),
        }
    }

    fn try_read(&mut self, buf: &mut [u8]) -> io::Result<usize> {
        self.read(buf)
    }
}

/// A writer whose failure a contract can state: `W.failed` for any `W: Sink`. `write_once` ensures this if it fails, or takes 0 of some bytes.
pub trait Sink: Write {
    ghost use Rattle.std.specs.Prelude.{◌≡◌, ◌<◌, length, IfOk, OnErr};
    ghost use Rattle.std.specs.Io.{WritesAtMost};
    ghost use Rattle.std.specs.Io.KnownBytes.{WriteAppends};

    ghost failed: { Type 0 };

    /// Writes once, as [`Write::write`], and returns how many bytes were written. [`WriteFault`] if the write fails, even with `Interrupted`.
    fn write_once(&mut self, bytes: &[u8]) -> Result<usize, WriteFault>
        ensures bound { WritesAtMost result bytes.now }
        ensures bytes { WriteAppends (Self.contents self.old) (Self.contents self.new) result bytes.now }
        ensures none { IfOk result (λ count. count ≡ 0 → 0 < length bytes.now → failed) }
        ensures fails { OnErr result failed };
}

impl<W: Write> Sink for W {
    // Always true, as for `Source`.
    ghost failed = { Unit {0} };

    fn write_once(&mut self, bytes: &[u8]) -> Result<usize, WriteFault> {
        match self.write(bytes) {
            Ok(count) => Ok(count),
            Err(_) => Err(WriteFault),
        }
    }
}
