//! The trait of a file that is only read, such as a database's file in an audit.

use std::io;

/// A file that can be read at any offset. The trait has no method that writes, so a function that gets only such files changes none of them.
pub trait ReadAt {
    ghost use Rattle.std.specs.Prelude.{◌≡◌, ◌<◌, ℕ, Bool, List, length, IfOk, IsTrue, OnOk};
    ghost use Rattle.sqlite_disk.specs.Disk.{Holds};

    ghost bytes: { Self → List ℕ };

    /// Whether each call returns what `bytes` has. It is false for a file of the system, because no contract can state what that returns.
    ghost is_honest: { Self → Bool };

    /// How many bytes the file has. Errors: the system call failed.
    fn size(&self) -> io::Result<usize>
        ensures { IfOk result (λ size. IsTrue (is_honest self.now) → size ≡ length (bytes self.now)) };

    /// Fills `buf` with the bytes from the offset `at` on. Errors: `UnexpectedEof` if the file has too few; or the system call failed.
    fn fill(&self, at: usize, buf: &mut [u8]) -> io::Result<()>
        ensures { OnOk result
            (IsTrue (is_honest self.now) → 0 < length buf.old → Holds (bytes self.now) at buf.new) };
}

impl ReadAt for Vec<u8> {
    ghost use Rattle.std.specs.Prelude.{true};

    ghost bytes = { λ v. v.items };

    ghost is_honest = { λ _. true };

    fn size(&self) -> io::Result<usize> {
        Ok(self.len())
    }

    fn fill(&self, at: usize, buf: &mut [u8]) -> io::Result<()> {
        if at > self.len() || buf.len() > self.len() - at {
            return Err(io::ErrorKind::UnexpectedEof.into());
        }
        buf.copy_from_slice(&self[at..at + buf.len()]);
        Ok(())
    }
}
