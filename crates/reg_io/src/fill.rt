ghost use Rattle.std.specs.Prelude.{◌≡◌, ◌⊎◌, ℕ, ◌+◌, ◌<◌, ◌≤◌, ◌++◌, List, length, take, IfOk, MatchOption, OnErr, OnOk};
ghost use Rattle.std.specs.Io.KnownBytes.{Consumes, IsAtEnd};
ghost use Rattle.reg_io.specs.Delimiter.{EndsWith, FirstDelimiter};
ghost use Rattle.reg_io.specs.Fill.{Fills, FillsShort, FillsTo};

use crate::streams::Source;

/// The reader failed (even with `Interrupted`), ended before the buffer was full (in [`fill_exact`]), or filled the buffer (in [`fill_to_end`]).
#[derive(Clone, Copy, PartialEq, Eq)]
pub struct ReadFault;

/// Why a read up to a delimiter stopped: the buffer has a delimiter (`end` is the index after the first one), it is full without one, or the reader
/// ended before either. `buffered` is the number of bytes in the buffer after the read.
#[derive(Clone, Copy, PartialEq, Eq)]
pub enum FillEnd {
    Delimiter { end: usize, buffered: usize },
    Full,
    End { buffered: usize },
}

/// Reads into `buf` after its first `buffered` bytes, until the buffered bytes contain the delimiter or fill the buffer, or the reader is at its end.
/// Each [`Read`] is a [`Source`]. Only with `Source` can the contract state that an error comes from a failed read (`R.failed`).
pub fn fill_to_delimiter<R: Source>(
    reader: &mut R,
    buf: &mut [u8],
    buffered: usize,
    delimiter: &[u8],
) -> Result<FillEnd, ReadFault>
    requires buffered_fits { buffered ≤ length buf.old }
    requires delimiter_not_empty { 0 < length delimiter.now }
    ensures ok { IfOk result (FillsTo delimiter.now
        (R.remaining reader.old) (R.remaining reader.new) buf.old buf.new buffered) }
    ensures err { OnErr result (FillsShort delimiter.now
        (R.remaining reader.old) (R.remaining reader.new) buf.old buf.new buffered) }
    ensures fails { OnErr result R.failed }

    ensures has_delimiter { (end : ℕ) → end ≤ buffered → EndsWith (take end buf.old) delimiter.now
        → (reader.new ≡ reader.old) × (buf.new ≡ buf.old) }
    ensures is_full { buffered ≡ length buf.old → (reader.new ≡ reader.old) × (buf.new ≡ buf.old) }
{
    let mut filled = buffered;
    let mut searched: usize = 0;
    // The proof finds the loop by this label.
    'reading: loop {
        if let Some(end) = first_delimiter(buf, filled, delimiter, searched) {
            return Ok(FillEnd::Delimiter {
                end,
                buffered: filled,
            });
        }
        if filled == buf.len() {
            return Ok(FillEnd::Full);
        }
        searched = filled;
        match reader.read_once(&mut buf[filled..]) {
            Ok(0) => return Ok(FillEnd::End { buffered: filled }),
            Ok(count) => filled += count,
            Err(_) => return Err(ReadFault),
        }
    }
}

/// The index after the first delimiter in the first `buffered` bytes, if any. Precondition: none ends within the first `searched` bytes.
pub fn first_delimiter(
    buf: &[u8],
    buffered: usize,
    delimiter: &[u8],
    searched: usize,
) -> Option<usize>
    requires buffered_fits { buffered ≤ length buf.now }
    requires none_before { (n : ℕ) → n ≤ searched → ¬ EndsWith (take n buf.now) delimiter.now }
    ensures { MatchOption result
        ((n : ℕ) → n ≤ buffered → ¬ EndsWith (take n buf.now) delimiter.now)
        (λ end. (end ≤ buffered) × FirstDelimiter delimiter.now buf.now end) }
{
    for end in searched..buffered {
        if buf[..end + 1].ends_with(delimiter) {
            return Some(end + 1);
        }
    }
    None
}

/// Reads into `buf` after its first `buffered` bytes, until `buf` is full.
pub fn fill_exact<R: Source>(
    reader: &mut R,
    buf: &mut [u8],
    buffered: usize,
) -> Result<(), ReadFault>
    requires { buffered ≤ length buf.old }
    ensures ok { OnOk result ((took : List ℕ)
        × Consumes (R.remaining reader.old) (R.remaining reader.new) took
        × (buf.new ≡ take buffered buf.old ++ took)) }
    ensures err { OnErr result ((took : List ℕ)
        × Fills (R.remaining reader.old) (R.remaining reader.new) buf.old buf.new buffered took
        × (buffered + length took < length buf.new)) }
    ensures fails { OnErr result (R.failed ⊎ IsAtEnd (R.remaining reader.new)) }
    ensures is_full { buffered ≡ length buf.old → (reader.new ≡ reader.old) × (buf.new ≡ buf.old) }
{
    let mut filled = buffered;
    while filled < buf.len() {
        match reader.read_once(&mut buf[filled..]) {
            Ok(0) | Err(_) => return Err(ReadFault),
            Ok(count) => filled += count,
        }
    }
    Ok(())
}

/// Reads up to the reader's end into `buf`, and returns how many bytes came. [`ReadFault`] also if they fill the buffer, since more may follow.
pub fn fill_to_end<R: Source>(reader: &mut R, buf: &mut [u8]) -> Result<usize, ReadFault>
    ensures came { IfOk result (λ count.
        Consumes (R.remaining reader.old) (R.remaining reader.new) (take count buf.new)) }
    ensures ended { OnOk result (IsAtEnd (R.remaining reader.new)) }
    ensures short { IfOk result (λ count. count < length buf.new) }
    ensures fails { OnErr result
        (R.failed ⊎ Consumes (R.remaining reader.old) (R.remaining reader.new) buf.new) }
{
    let mut filled: usize = 0;
    while filled < buf.len() {
        match reader.read_once(&mut buf[filled..]) {
            Ok(0) => return Ok(filled),
            Ok(count) => filled += count,
            Err(_) => return Err(ReadFault),
        }
    }
    Err(ReadFault)
}
