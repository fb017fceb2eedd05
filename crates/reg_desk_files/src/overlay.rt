//! The files that a database gets if nothing may be written to disk: a file that is only read, or bytes in memory.

ghost use Rattle.std.specs.Prelude.{◌≡◌, ◌+◌, ◌≤◌, ◌<◌, Some, None, true, false, refl, length, is_ok, IfOk, IsErr, IsTrue, OnOk};
ghost use Rattle.sqlite_disk.specs.Disk.{CountsFault, Cut, Holds, Torn};
ghost use Rattle.sqlite_disk.specs.Refusal.{finds_no_room};
ghost use Rattle.sqlite_wal.specs.Files.{seen_image};
ghost use Rattle.reg_desk_files.specs.Overlaid.{bytes_of, bytes_with, file_below, honest_with, image};

use crate::source::ReadAt;
use sqlite_disk::{Disk, Files, Tally, digest_of};
use std::alloc::{AllocError, Global};
use std::io;
use std::io::ErrorKind;

/// One of the files that a database gets: a file that is only read (`below`), to which each write is refused; or, if that is `None`, bytes in memory
/// (`kept`), which may be written.
#[derive(Drop)]
pub struct Overlay<F: ReadAt> {
    below: Option<F>,
    kept: Vec<u8>,
    /// The key of the digests that the crate `sqlite` keeps of pages, to check each later read of a page.
    key: u64,
    /// How many calls failed, and how many of these read bytes with another digest than the caller expected (`caught`).
    faults: u64,
    caught: u64,
}

impl<F: ReadAt> Overlay<F> {
    /// Bytes in memory. `key` is the key of the digests, here and in [`Overlay::over`].
    pub fn copied(bytes: Vec<u8>, key: u64) -> Overlay<F>
        ensures bytes { bytes_of F.ReadAt.bytes result ≡ bytes.items }
        ensures alone { file_below result ≡ None }
    {
        Overlay {
            below: None,
            kept: bytes,
            key,
            faults: 0,
            caught: 0,
        }
    }

    pub fn over(alloc: Global, file: F, key: u64) -> Overlay<F>
        ensures bytes { bytes_of F.ReadAt.bytes result ≡ F.ReadAt.bytes file }
        ensures below { file_below result ≡ Some file }
    {
        Overlay {
            below: Some(file),
            kept: Vec::new(alloc),
            key,
            faults: 0,
            caught: 0,
        }
    }

    fn size(&self) -> io::Result<usize>
        ensures { IfOk result (λ size. IsTrue (honest_with F.ReadAt.is_honest self.now.below)
            → size ≡ length (bytes_with F.ReadAt.bytes self.now.below self.now.kept.items)) }
    {
        match &self.below {
            Some(file) => file.size(),
            None => self.kept.size(),
        }
    }

    fn fill(&self, at: usize, buf: &mut [u8]) -> io::Result<()>
        ensures { OnOk result (IsTrue (honest_with F.ReadAt.is_honest self.now.below) → 0 < length buf.old
            → Holds (bytes_with F.ReadAt.bytes self.now.below self.now.kept.items) at buf.new) }
    {
        match &self.below {
            Some(file) => file.fill(at, buf),
            None => self.kept.fill(at, buf),
        }
    }
}

/// The two files that a database gets: a log (`-wal`) that was copied into memory, and a database file that is only read.
pub fn overlaid<F: ReadAt>(alloc: Global, log: Vec<u8>, db: F, key: u64) -> Files<Overlay<F>>
    ensures image { seen_image ⟦<Overlay<F> as Disk>⟧ result.log result.db
        ≡ image log.items (F.ReadAt.bytes db) }
    ensures below { file_below result.db ≡ Some db }
    ensures alone { file_below result.log ≡ None }
{
    Files {
        log: Overlay::copied(log, key),
        db: Overlay::over(alloc, db, key),
    }
}

impl<F: ReadAt> Disk for Overlay<F> {
    ghost seen = { λ o. bytes_with F.ReadAt.bytes o.below o.kept.items };

    ghost may_leave = { λ o left. left ≡ bytes_with F.ReadAt.bytes o.below o.kept.items };

    ghost is_usable = { λ _. true };

    ghost faults = { λ o. o.faults };

    ghost tally_of = { λ o. record { caught = o.caught; refused = 0 } };

    ghost is_clean = { λ o. honest_with F.ReadAt.is_honest o.below };

    ghost key_of = { λ o. o.key };

    ghost is_fair = { λ o _. honest_with F.ReadAt.is_honest o.below };

    ghost seen_may_stay = { λ _. refl };

    ghost fair_if_clean = { λ _ _ clean. clean };

    // Whether a crash is sure to leave each byte of a torn write old or new: then most commits sync once. `false` promises less, and a second sync
    // costs nothing here. By `may_leave`, a crash leaves all bytes as they are, even those in memory; no process can read these after a crash.
    fn mixes(&self) -> bool {
        false
    }

    fn key(&self) -> u64 {
        self.key
    }

    fn tally(&self) -> Tally {
        Tally {
            caught: self.caught,
            // How many calls found the disk full: none, because nothing is written to disk.
            refused: 0,
        }
    }

    // Whether no sync has failed: here none can.
    fn may_be_used(&self) -> bool {
        true
    }

    fn len(&mut self) -> io::Result<usize> {
        let size = self.size();
        count(&size, &mut self.faults);
        size
    }

    fn read_at(&mut self, at: usize, buf: &mut [u8]) -> io::Result<()> {
        let filled = self.fill(at, buf);
        count(&filled, &mut self.faults);
        filled
    }

    // `want` is the digest, with this `key`, that the caller expects of the bytes from the offset `at` on.
    fn read_checked(&mut self, key: u64, want: u64, at: usize, buf: &mut [u8]) -> io::Result<()> {
        let filled = self.fill(at, buf);
        count(&filled, &mut self.faults);
        filled?;
        if digest_of(key, buf) != want {
            self.faults = self.faults.saturating_add(1);
            self.caught = self.caught.saturating_add(1);
            return Err(ErrorKind::InvalidData.into());
        }
        Ok(())
    }

    fn write_at(&mut self, at: usize, bytes: &[u8]) -> io::Result<()> {
        match &self.below {
            Some(_) => refused(&mut self.faults),
            None => {
                let written = io_result(overwrite(&mut self.kept, at, bytes));
                count(&written, &mut self.faults);
                written
            }
        }
    }

    fn set_len(&mut self, len: usize) -> io::Result<()> {
        match &self.below {
            Some(_) => refused(&mut self.faults),
            None => {
                let resized = io_result(resize(&mut self.kept, len));
                count(&resized, &mut self.faults);
                resized
            }
        }
    }

    fn sync(&mut self) -> io::Result<()> {
        Ok(())
    }
}

fn count<T>(outcome: &io::Result<T>, faults: &mut u64)
    ensures { CountsFault outcome.now faults.old faults.new }
{
    match outcome {
        Ok(_) => {}
        Err(_) => *faults = faults.saturating_add(1),
    }
}

/// The error of a write to the file that is only read. It counts as a fault, but `Tally::refused` counts only calls that find the disk full.
fn refused(faults: &mut u64) -> io::Result<()>
    ensures refused { IsErr result }
    ensures counted { CountsFault result faults.old faults.new }
    ensures kind { finds_no_room result ≡ false }
{
    *faults = faults.saturating_add(1);
    Err(io::Error::from(ErrorKind::ReadOnlyFilesystem))
}

fn io_result(outcome: Result<(), AllocError>) -> io::Result<()>
    ensures variant { is_ok result ≡ is_ok outcome }
    ensures kind { finds_no_room result ≡ false }
{
    match outcome {
        Ok(()) => Ok(()),
        Err(_) => Err(io::Error::from(ErrorKind::OutOfMemory)),
    }
}

fn resize(kept: &mut Vec<u8>, len: usize) -> Result<(), AllocError>
    ensures len { OnOk result (length kept.new.items ≡ len) }
    ensures others { Cut len kept.old.items kept.new.items }
{
    kept.resize(len, 0)
}

fn overwrite(kept: &mut Vec<u8>, at: usize, bytes: &[u8]) -> Result<(), AllocError>
    ensures written { OnOk result (Holds kept.new.items at bytes.now) }
    ensures others { Torn at (length bytes.now) kept.old.items kept.new.items }
{
    let end = at.checked_add(bytes.len()).ok_or(AllocError)?;
    if end > kept.len() {
        resize(kept, end)?;
    }
    kept[at..end].copy_from_slice(bytes);
    Ok(())
}
