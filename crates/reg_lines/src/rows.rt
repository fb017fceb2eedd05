//! Imports rows of comma-separated fields, and writes a reply line for each.

ghost use Rattle.std.specs.Prelude.{◌≡◌, ◌==◌, ◌&&◌, ℕ, List, OnErr, option_map, is_some};
ghost use Rattle.std.specs.Result.{result_map_both};
ghost use Rattle.csv.specs.Records.{fields_of};
ghost use Rattle.reg_office_api.specs.Calls.{LeadsIn};
ghost use Rattle.reg_lines.specs.ByCalls.{LineCalls, Lines};
ghost use Rattle.reg_lines.specs.Import.{ImportEnds, IsAtStart, RanRow, ReadsText, RowsEnd, TextRead, TookRow, is_header};
ghost use Rattle.reg_lines.specs.LineReading.{four, four_at, register_of};

use crate::answered::{Answered, Continuation, LineKind, done};
use crate::line::read_registration;
use crate::run::unreadable;
use csv::{ByteRecord, Reader, ReaderBuilder};
use reg_core::{Command, Fault, Moment};
use reg_io::{Sink, Source, WriteFault};
use reg_office_api::Office;
use std::alloc::Global;

/// The most bytes of an import. It has a limit because its whole text is held in memory.
pub const MOST_BYTES: usize = 16_777_216;

const PIECE: usize = 4096;

/// Registers each row of a text of comma-separated fields (RFC 4180) at `now`, in order, and writes each reply before the next row runs. The whole
/// text is read first. A first row `order,serial,notBefore,notAfter` is skipped. A row that is no registration is refused (`E22`). The import goes on
/// after a refusal or a fault in a reply. [`Fault::Read`] if a read fails, or for over 16,777,216 bytes: nothing ran. [`Fault::Write`]
/// if the output fails in a reply, whose row ran. [`Fault::Memory`] if out of memory for the text (nothing ran) or for a row (those before it ran).
pub fn import<R: Source, W: Sink, O: Office>(
    alloc: Global,
    reader: &mut R,
    writer: &mut W,
    now: Moment,
    office: &mut O,
) -> Result<(), Fault>
    ensures ends { LeadsIn O.Office
        (λ signers before after.
        ImportEnds (Lines O.signs signers) R.remaining W.contents R.failed W.failed now before after
        reader.old reader.new writer.old writer.new result)
        office.old office.new }
    ensures calls { ImportEnds (LineCalls O.Office) R.remaining W.contents R.failed W.failed
        now office.old office.new reader.old reader.new writer.old writer.new result }
{
    match read_text(alloc, reader) {
        // The run is not strict (`false`), so no reply ends it: each run that has no fault gives `Continuation::On`. `done` replaces that by `()`.
        Ok(text) => done(run_rows(alloc, writer, now, office, false, &text)),
        Err(fault) => Err(fault),
    }
}

pub(crate) fn read_text<R: Source>(alloc: Global, reader: &mut R) -> Result<Vec<u8>, Fault>
    ensures { TextRead R.failed (R.remaining reader.old) (R.remaining reader.new)
        (result_map_both (λ text. text.items) (λ fault. fault) result) }
{
    let mut text = Vec::new(alloc);
    let mut piece = [0; PIECE];
    while text.len() <= MOST_BYTES {
        // One byte more than `MOST_BYTES` shows that the text is too long.
        let room = (MOST_BYTES + 1 - text.len()).min(PIECE);
        match reader.read_once(&mut piece[..room]) {
            Ok(0) => return Ok(text),
            Ok(count) => match text.extend_from_slice(&piece[..count]) {
                Ok(()) => {}
                Err(_) => return Err(Fault::Memory),
            },
            Err(_) => return Err(Fault::Read),
        }
    }
    Err(Fault::Read)
}

/// A reader of the rows of a text. Each row may have any number of fields. The reader has read no row yet, and takes none as a header.
pub(crate) fn rows_of(alloc: Global, text: &[u8]) -> Reader<&[u8]>
    ensures at_start { IsAtStart result }
    ensures reads { ReadsText result text.entry.now }
{
    ReaderBuilder::new()
        .has_headers(false)
        .flexible(true)
        .from_reader(alloc, text)
}

/// Runs each row of a text; a strict run ends at the first reply that is a refusal or a fault.
pub(crate) fn run_rows<W: Sink, O: Office>(
    alloc: Global,
    writer: &mut W,
    now: Moment,
    office: &mut O,
    is_strict: bool,
    text: &[u8],
) -> Result<Continuation, Fault>
    ensures { RowsEnd (LineCalls O.Office) is_strict now office.old office.new W.failed
        (W.contents writer.old) (W.contents writer.new) text.now result }
{
    let mut rows = rows_of(alloc, text);
    let mut row = ByteRecord::new(alloc);
    run_each(alloc, writer, now, office, is_strict, &mut rows, &mut row)
}

/// Runs each row of `rows`, a reader that has read none yet. Each row is read into the same `row`.
fn run_each<W: Sink, O: Office>(
    alloc: Global,
    writer: &mut W,
    now: Moment,
    office: &mut O,
    is_strict: bool,
    rows: &mut Reader<&[u8]>,
    row: &mut ByteRecord,
) -> Result<Continuation, Fault>
    requires { IsAtStart rows.old }
    ensures { (text : List ℕ) → ReadsText rows.old text
        → RowsEnd (LineCalls O.Office) is_strict now office.old office.new W.failed
        (W.contents writer.old) (W.contents writer.new) text result }
{
    for index in 0..u64::MAX {
        match rows.read_byte_record(row) {
            Ok(true) => match take_row(alloc, writer, now, office, is_strict, row, index == 0) {
                Ok(Continuation::On) => {}
                Ok(Continuation::Refused(refused)) => return Ok(Continuation::Refused(refused)),
                Err(_) => return Err(Fault::Write),
            },
            Ok(false) => return Ok(Continuation::On),
            // The text is in memory, and a row may have any number of fields, so a read fails only if out of memory.
            Err(_) => return Err(Fault::Memory),
        }
    }
    // No text has so many rows.
    Err(Fault::Memory)
}

/// Runs a row, unless it is the header, which only the first row can be. Returns whether the run goes on.
fn take_row<W: Sink, O: Office>(
    alloc: Global,
    writer: &mut W,
    now: Moment,
    office: &mut O,
    is_strict: bool,
    row: &ByteRecord,
    is_first: bool,
) -> Result<Continuation, WriteFault>
    ensures took { TookRow (LineCalls O.Office) is_strict now office.old office.new is_first
        (fields_of row.now) (W.contents writer.old) (W.contents writer.new) result }
    ensures fails { OnErr result W.failed }
{
    if is_first && is_header(row) {
        return Ok(Continuation::On);
    }
    run_row(alloc, writer, now, office, is_strict, row)
}

fn run_row<W: Sink, O: Office>(
    alloc: Global,
    writer: &mut W,
    now: Moment,
    office: &mut O,
    is_strict: bool,
    row: &ByteRecord,
) -> Result<Continuation, WriteFault>
    ensures ran { RanRow (LineCalls O.Office) is_strict now office.old office.new (fields_of row.now)
        (W.contents writer.old) (W.contents writer.new) result }
    ensures fails { OnErr result W.failed }
{
    match read_row(row) {
        Some(command) => {
            let outcome = office.run_one(alloc, now, &command);
            Answered::Completed(LineKind::Command(command), outcome).write_reply(writer, is_strict)
        }
        None => unreadable().write_reply(writer, is_strict),
    }
}

pub(crate) fn is_header(row: &ByteRecord) -> bool
    ensures { result ≡ is_header (fields_of row.now) }
{
    match four_fields(row) {
        Some((order, serial, not_before, not_after)) => {
            order == b"order".as_slice()
                && serial == b"serial".as_slice()
                && not_before == b"notBefore".as_slice()
                && not_after == b"notAfter".as_slice()
        }
        None => false,
    }
}

#[tactic(auto, unfolding(crate::specs::LineReading::register_of))]
fn read_row(row: &ByteRecord) -> Option<Command>
    ensures { result ≡ register_of (fields_of row.now) }
{
    let (order, serial, not_before, not_after) = four_fields(row)?;
    read_registration(order, serial, not_before, not_after)
}

pub(crate) fn four_fields(row: &ByteRecord) -> Option<(&[u8], &[u8], &[u8], &[u8])>
    ensures { option_map (λ p. (p.0.now, p.1.now, p.2.now, p.3.now)) result ≡ four (fields_of row.now) }
{
    four_of(row.get(0), row.get(1), row.get(2), row.get(3), row.get(4))
}

fn four_of<'a>(
    first: Option<&'a [u8]>,
    second: Option<&'a [u8]>,
    third: Option<&'a [u8]>,
    fourth: Option<&'a [u8]>,
    fifth: Option<&'a [u8]>,
) -> Option<(&'a [u8], &'a [u8], &'a [u8], &'a [u8])>
    ensures { option_map (λ p. (p.0.now, p.1.now, p.2.now, p.3.now)) result
        ≡ four_at (option_map (λ a. a.now) first.entry) (option_map (λ a. a.now) second.entry)
        (option_map (λ a. a.now) third.entry) (option_map (λ a. a.now) fourth.entry) (is_some fifth.entry) }
{
    if fifth.is_some() {
        return None;
    }
    Some((first?, second?, third?, fourth?))
}
