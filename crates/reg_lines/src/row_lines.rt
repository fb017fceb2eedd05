//! The rows of an import as untimed lines (script lines without their moment).

ghost use Rattle.std.specs.Prelude.{◌≡◌, [], ◌∷◌, ◌++◌, ℕ, List, MatchResult, OnOk, option_map};
ghost use Rattle.std.specs.Result.{result_map_both};
ghost use Rattle.csv.specs.Records.{fields_of};
ghost use Rattle.reg_lines.specs.Import.{IsAtStart, ReadsText};
ghost use Rattle.reg_lines.specs.RowLines.{ListsRows, ListingEnds, fields_listed, row_line, line_added};

use crate::line::read_registration;
use crate::rows::{four_fields, is_header, read_text, rows_of};
use csv::{ByteRecord, Reader};
use reg_core::Fault;
use reg_io::Source;
use std::alloc::{AllocError, Global};

/// The untimed lines, with LF, of the rows of a CSV text. A row's line is `register` and its four fields. A row that is no registration has the line
/// `register`, which is refused (`E22`). A first row `order,serial,notBefore,notAfter` has no line. Errors: `Read` as in [`crate::import`]; `Memory`.
pub fn lines_of_rows<R: Source>(alloc: Global, reader: &mut R) -> Result<Vec<u8>, Fault>
    ensures { ListingEnds R.failed (R.remaining reader.old) (R.remaining reader.new)
        (result_map_both (λ lines. lines.items) (λ fault. fault) result) }
{
    match read_text(alloc, reader) {
        Ok(text) => lines_of_text(alloc, &text),
        Err(fault) => Err(fault),
    }
}

fn lines_of_text(alloc: Global, text: &[u8]) -> Result<Vec<u8>, Fault>
    ensures { MatchResult result (λ lines. ListsRows text.now lines.items) (λ fault. fault ≡ Fault.Memory) }
{
    let mut rows = rows_of(alloc, text);
    let mut row = ByteRecord::new(alloc);
    let mut lines = Vec::new(alloc);
    match put_each(&mut rows, &mut row, &mut lines) {
        Ok(()) => Ok(lines),
        Err(_) => Err(Fault::Memory),
    }
}

/// Appends the line of each row of `rows`, a reader that has read none yet. Each row is read into the same `row`.
fn put_each(
    rows: &mut Reader<&[u8]>,
    row: &mut ByteRecord,
    lines: &mut Vec<u8>,
) -> Result<(), AllocError>
    requires at_start { IsAtStart rows.old }
    requires empty { lines.old.items ≡ [] }
    ensures { OnOk result ((text : List ℕ) → ReadsText rows.old text → ListsRows text lines.new.items) }
{
    for index in 0..u64::MAX {
        match rows.read_byte_record(row) {
            Ok(true) => match put_row(row, index == 0, lines) {
                Ok(()) => {}
                Err(fault) => return Err(fault),
            },
            Ok(false) => return Ok(()),
            // The text is in memory, and a row may have any number of fields, so a read fails only if out of memory.
            Err(_) => return Err(AllocError),
        }
    }
    // No text has so many rows.
    Err(AllocError)
}

/// Appends a row's line, unless the row is the header, which only the first row can be.
fn put_row(row: &ByteRecord, is_first: bool, lines: &mut Vec<u8>) -> Result<(), AllocError>
    ensures { OnOk result (lines.new.items ≡ lines.old.items ++ line_added is_first (fields_of row.now)) }
{
    if is_first && is_header(row) {
        return Ok(());
    }
    put_line(four_fields(row), lines)
}

fn put_line(
    fields: Option<(&[u8], &[u8], &[u8], &[u8])>,
    lines: &mut Vec<u8>,
) -> Result<(), AllocError>
    ensures { OnOk result (lines.new.items
        ≡ lines.old.items ++ row_line (option_map (λ p. (p.0.now, p.1.now, p.2.now, p.3.now)) fields.entry)) }
{
    lines.extend_from_slice(b"register")?;
    put_fields(fields, lines)?;
    lines.push(b'\n')?;
    Ok(())
}

fn put_fields(
    fields: Option<(&[u8], &[u8], &[u8], &[u8])>,
    text: &mut Vec<u8>,
) -> Result<(), AllocError>
    ensures { OnOk result (text.new.items
        ≡ text.old.items
        ++ fields_listed (option_map (λ p. (p.0.now, p.1.now, p.2.now, p.3.now)) fields.entry)) }
{
    let Some((order, serial, not_before, not_after)) = fields else {
        return Ok(());
    };
    if read_registration(order, serial, not_before, not_after).is_none() {
        return Ok(());
    }
    put_field(order, text)?;
    put_field(serial, text)?;
    put_field(not_before, text)?;
    put_field(not_after, text)
}

fn put_field(field: &[u8], text: &mut Vec<u8>) -> Result<(), AllocError>
    ensures { OnOk result (text.new.items ≡ text.old.items ++ 32 ∷ field.now) }
{
    text.push(b' ')?;
    text.extend_from_slice(field)?;
    Ok(())
}
