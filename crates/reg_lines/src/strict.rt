//! The strict import (`import --strict`), which ends at the first refusal or fault.

ghost use Rattle.std.specs.Prelude.{◌≡◌};
ghost use Rattle.reg_office_api.specs.Calls.{LeadsIn};
ghost use Rattle.reg_lines.specs.ByCalls.{LineCalls, Lines};
ghost use Rattle.reg_lines.specs.Strict.{StrictEnds, StrictRan, whole_lines, is_within};

use crate::answered::{Continuation, Ended};
use crate::rows::{read_text, run_rows};
use reg_core::{Fault, Moment};
use reg_io::{Sink, Source};
use reg_office_api::Office;
use std::alloc::Global;

/// Registers each row (CSV) of a text as [`crate::import`] does, up to the first reply that is a refusal or a fault; the errors are the same. Bytes
/// after the last line end (CR or LF) do not run ([`Ended::NoLineEnd`]), because they may be a part of a row.
pub fn import_strictly<R: Source, W: Sink, O: Office>(
    alloc: Global,
    reader: &mut R,
    writer: &mut W,
    now: Moment,
    office: &mut O,
) -> Result<Ended, Fault>
    ensures ends { LeadsIn O.Office
        (λ signers before after.
        StrictEnds (Lines O.signs signers) R.remaining W.contents R.failed W.failed now before after
        reader.old reader.new writer.old writer.new result)
        office.old office.new }
    ensures calls { StrictEnds (LineCalls O.Office) R.remaining W.contents R.failed W.failed
        now office.old office.new reader.old reader.new writer.old writer.new result }
{
    match read_text(alloc, reader) {
        Ok(text) => run_whole_lines(alloc, writer, now, office, &text),
        Err(fault) => Err(fault),
    }
}

/// Runs the rows of a text up to its last line end (`whole`: the part up to there). The run is strict (`true`).
fn run_whole_lines<W: Sink, O: Office>(
    alloc: Global,
    writer: &mut W,
    now: Moment,
    office: &mut O,
    text: &[u8],
) -> Result<Ended, Fault>
    ensures { StrictRan (LineCalls O.Office) now office.old office.new W.failed
        (W.contents writer.old) (W.contents writer.new) text.now result }
{
    let whole = whole_lines(text);
    match run_rows(alloc, writer, now, office, true, whole) {
        Ok(Continuation::On) if whole.len() == text.len() => Ok(Ended::Whole),
        Ok(Continuation::On) => Ok(Ended::NoLineEnd),
        Ok(Continuation::Refused(refused)) => Ok(Ended::Refused(refused)),
        Err(fault) => Err(fault),
    }
}

fn whole_lines(mut text: &[u8]) -> &[u8]
    ensures { result.now ≡ whole_lines text.entry.now }
{
    while let [trimmed @ .., last] = text
        && is_no_line_end(*last)
    {
        text = trimmed;
    }
    text
}

fn is_no_line_end(byte: u8) -> bool
    ensures { result ≡ is_within byte }
{
    byte != b'\r' && byte != b'\n'
}
