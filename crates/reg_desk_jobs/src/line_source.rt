//! Readers whose lines are taken one at a time.

use reg_io::ReadFault;
use std::alloc::Global;
use std::io::BufRead;

/// A reader of lines whose failure a contract can state: `R.failed` for any `R: LineSource`. Its two calls ensure this if they fail.
pub trait LineSource: BufRead {
    ghost use Rattle.std.specs.Prelude.{◌≡◌, IfOk, IfSome, OnErr};
    ghost use Rattle.std.specs.Io.{StopsAt};
    ghost use Rattle.std.specs.Io.BufRead.{take_through};
    ghost use Rattle.std.specs.Io.KnownBytes.{Consumes};

    ghost failed: { Type 0 };

    /// Takes the bytes up to and with the next LF, or to the end of the input. [`ReadFault`] if a read fails, or out of memory for them.
    fn take_line(&mut self, alloc: Global) -> Result<Vec<u8>, ReadFault>
        ensures stops { IfOk result (λ line. StopsAt line.items 10) }
        ensures taken { IfOk result (λ line.
            Consumes (Self.remaining self.old) (Self.remaining self.new) line.items) }
        ensures bytes { IfOk result (λ line.
            IfSome (Self.remaining self.old) (λ xs. line.items ≡ take_through 10 xs)) }
        ensures fails { OnErr result failed };

    /// Takes the next line with its LF. [`ReadFault`] also if the input ends before an LF.
    fn take_whole_line(&mut self, alloc: Global) -> Result<Vec<u8>, ReadFault>
        ensures taken { IfOk result (λ line.
            Consumes (Self.remaining self.old) (Self.remaining self.new) line.items) }
        ensures fails { OnErr result failed };
}

impl<R: BufRead> LineSource for R {
    // Always true, as for `Source` of reg_io: no clause can state what a call did outside the program.
    ghost failed = { Unit {0} };

    fn take_line(&mut self, alloc: Global) -> Result<Vec<u8>, ReadFault> {
        let mut line = Vec::new(alloc);
        match self.read_until(b'\n', &mut line) {
            Ok(_) => Ok(line),
            Err(_) => Err(ReadFault),
        }
    }

    fn take_whole_line(&mut self, alloc: Global) -> Result<Vec<u8>, ReadFault> {
        let mut line = Vec::new(alloc);
        match self.read_until(b'\n', &mut line) {
            Ok(_) if line.ends_with(b"\n") => Ok(line),
            _ => Err(ReadFault),
        }
    }
}
