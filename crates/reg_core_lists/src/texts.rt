//! Lists as CSV (RFC 4180, but records end with LF) and JSON (RFC 8259). No byte needs quoting or escaping: names are of letters, digits and `.-_`. A
//! cursor names a list, and the key after which it continues. `put_..` appends to `out` (`put_plain`: unquoted); `.._rest`, items after the first.

ghost use Rattle.std.specs.Prelude.{◌≡◌, ◌∷◌, ◌++◌, [], IfOk, flat_map, map};
ghost use Rattle.reg_core_lists.specs.Cursors.{key_cell};
ghost use Rattle.reg_core_lists.specs.Fields.{json_text, plain_text, row_fields, field_of_text};
ghost use Rattle.reg_core_lists.specs.Texts.{header_text, member_rest, member_text, next_text, object_text, page_body, record_rest, record_text, row_rest, row_text, rows_json};
ghost use Rattle.reg_core.specs.Buffers.{AppendsOnOk};

use crate::cursor::Cursor;
use crate::fields::{Cell, Field, fields_of, serial_cell};
use crate::rows::Row;
use reg_core::Decimal;
use std::alloc::{AllocError, Global};

/// The format of a list: CSV, a record for each row after a header; or JSON, an object for each row, each on its own line.
#[derive(Clone, Copy, PartialEq, Eq)]
pub enum Format {
    Csv,
    Json,
}

// The names of the fields, as in `fields.rt` and in its order. The list `overdue` has the header of `open-requests`.
const CERTIFICATES_HEADER: &str =
    "serial,subscriber,name,order,notBefore,notAfter,status,revokedAt,reason,firstCrl,lastCrl\n";

const REVOCATIONS_HEADER: &str =
    "serial,subscriber,name,order,notBefore,notAfter,status,revokedAt,reason,firstCrl,lastCrl,request,ground,received,due,lateness\n";

const OPEN_REQUESTS_HEADER: &str =
    "request,serial,ground,received,due,subscriber,name,order,notBefore,notAfter\n";

const REQUESTS_HEADER: &str =
    "request,serial,ground,received,due,subscriber,name,order,notBefore,notAfter,state,decided,lateness\n";

/// The header of the list of `from` as CSV, with its LF.
pub fn header(from: Cursor) -> &'static str
    ensures { result.now ≡ header_text from }
{
    match from {
        Cursor::Revoked(_) => REVOCATIONS_HEADER,
        Cursor::Certificates(_) | Cursor::Ending { .. } => CERTIFICATES_HEADER,
        Cursor::OpenRequests(_) | Cursor::Overdue(_) => OPEN_REQUESTS_HEADER,
        Cursor::Requests(_) => REQUESTS_HEADER,
        Cursor::Subscribers(_) => "subscriber,name\n",
        Cursor::Orders(_) => "order,subscriber,name,days,serial\n",
        Cursor::Crls(_) => "crl,thisUpdate\n",
    }
}

/// Appends rows, each as a line; no header. `AllocError` if out of memory: then `out` may have some of the bytes.
pub fn put_rows(
    alloc: Global,
    out: &mut Vec<u8>,
    form: Format,
    rows: &[Row],
) -> Result<(), AllocError>
    ensures { AppendsOnOk out.old out.new result (flat_map (row_text form) rows.now) }
{
    for row in rows {
        put_row(alloc, out, form, row)?;
    }
    Ok(())
}

#[tactic(auto, unfolding(crate::specs::Texts::row_text))]
fn put_row(alloc: Global, out: &mut Vec<u8>, form: Format, row: &Row) -> Result<(), AllocError>
    ensures { AppendsOnOk out.old out.new result (row_text form row.now) }
{
    let fields = fields_of(alloc, row)?;
    match form {
        Format::Csv => put_record(out, &fields)?,
        Format::Json => put_object(out, &fields)?,
    }
    out.push(b'\n')?;
    Ok(())
}

#[tactic(auto, unfolding(crate::specs::Texts::record_text))]
fn put_record(out: &mut Vec<u8>, fields: &[Field]) -> Result<(), AllocError>
    ensures { AppendsOnOk out.old out.new result (record_text (map field_of_text fields.now)) }
{
    match fields.split_first() {
        Some((first, rest)) => {
            put_plain(out, &first.cell)?;
            put_record_rest(out, rest)
        }
        None => Ok(()),
    }
}

fn put_record_rest(out: &mut Vec<u8>, fields: &[Field]) -> Result<(), AllocError>
    ensures { AppendsOnOk out.old out.new result (flat_map record_rest (map field_of_text fields.now)) }
{
    for field in fields {
        out.push(b',')?;
        put_plain(out, &field.cell)?;
    }
    Ok(())
}

#[tactic(auto, unfolding(crate::specs::Fields::plain_text))]
pub(crate) fn put_plain(out: &mut Vec<u8>, cell: &Cell) -> Result<(), AllocError>
    ensures { AppendsOnOk out.old out.new result (plain_text cell.now) }
{
    match cell {
        Cell::Empty => Ok(()),
        Cell::Number(number) => out.extend_from_slice(Decimal::of(*number).as_bytes()),
        Cell::Serial(serial) => out.extend_from_slice(&serial.text()),
        Cell::At(moment) => out.extend_from_slice(&moment.text()),
        Cell::Text(text) => out.extend_from_slice(text.as_bytes()),
    }
}

#[tactic(auto, unfolding(crate::specs::Texts::object_text))]
fn put_object(out: &mut Vec<u8>, fields: &[Field]) -> Result<(), AllocError>
    ensures { AppendsOnOk out.old out.new result (object_text (map field_of_text fields.now)) }
{
    out.push(b'{')?;
    match fields.split_first() {
        Some((first, rest)) => {
            put_member(out, first)?;
            put_members_rest(out, rest)?;
        }
        None => {}
    }
    out.push(b'}')?;
    Ok(())
}

fn put_members_rest(out: &mut Vec<u8>, fields: &[Field]) -> Result<(), AllocError>
    ensures { AppendsOnOk out.old out.new result (flat_map member_rest (map field_of_text fields.now)) }
{
    for field in fields {
        out.push(b',')?;
        put_member(out, field)?;
    }
    Ok(())
}

#[tactic(auto, unfolding(crate::specs::Texts::member_text))]
fn put_member(out: &mut Vec<u8>, field: &Field) -> Result<(), AllocError>
    ensures { AppendsOnOk out.old out.new result (member_text (field_of_text field.now)) }
{
    out.push(b'"')?;
    out.extend_from_slice(field.name.as_bytes())?;
    out.extend_from_slice(b"\":")?;
    put_value(out, &field.cell)
}

#[tactic(auto, unfolding(crate::specs::Fields::json_text))]
fn put_value(out: &mut Vec<u8>, cell: &Cell) -> Result<(), AllocError>
    ensures { AppendsOnOk out.old out.new result (json_text cell.now) }
{
    match cell {
        Cell::Empty => out.extend_from_slice(b"null"),
        Cell::Number(_) => put_plain(out, cell),
        Cell::Serial(_) | Cell::At(_) | Cell::Text(_) => put_string(out, cell),
    }
}

fn put_string(out: &mut Vec<u8>, cell: &Cell) -> Result<(), AllocError>
    ensures { AppendsOnOk out.old out.new result (34 ∷ plain_text cell.now ++ 34 ∷ []) }
{
    out.push(b'"')?;
    put_plain(out, cell)?;
    out.push(b'"')?;
    Ok(())
}

/// A page from the cursor `from` on, as a JSON object: the name of its list; the key after which the next page begins (`null`: none does); the rows.
#[tactic(auto, unfolding(crate::specs::Texts::page_body))]
pub fn page_text(
    alloc: Global,
    from: Cursor,
    rows: &[Row],
    next: Option<Cursor>,
) -> Result<Vec<u8>, AllocError>
    ensures { IfOk result (λ text. text.items ≡ page_body from next rows.now) }
{
    let mut out = Vec::from_slice(alloc, b"{\"list\":\"")?;
    out.extend_from_slice(from.name().as_bytes())?;
    out.extend_from_slice(b"\",\"next\":")?;
    put_next(&mut out, next)?;
    out.extend_from_slice(b",\"rows\":[")?;
    put_json_rows(alloc, &mut out, rows)?;
    out.extend_from_slice(b"]}")?;
    Ok(out)
}

#[tactic(auto, unfolding(crate::specs::Texts::next_text))]
fn put_next(out: &mut Vec<u8>, next: Option<Cursor>) -> Result<(), AllocError>
    ensures { AppendsOnOk out.old out.new result (next_text next) }
{
    match next {
        Some(next) => put_string(out, &key_of(next)),
        None => out.extend_from_slice(b"null"),
    }
}

fn key_of(cursor: Cursor) -> Cell
    ensures { result ≡ key_cell cursor }
{
    match cursor {
        Cursor::Revoked(after) => serial_cell(after),
        Cursor::Certificates(after) => serial_cell(after),
        Cursor::Ending { before: _, after } => serial_cell(after),
        Cursor::OpenRequests(after) => Cell::Number(after),
        Cursor::Overdue(after) => Cell::Number(after),
        Cursor::Requests(after) => Cell::Number(after),
        Cursor::Subscribers(after) => Cell::Number(after),
        Cursor::Orders(after) => Cell::Number(after),
        Cursor::Crls(after) => Cell::Number(after),
    }
}

fn put_json_rows(alloc: Global, out: &mut Vec<u8>, rows: &[Row]) -> Result<(), AllocError>
    ensures { AppendsOnOk out.old out.new result (rows_json rows.now) }
{
    match rows.split_first() {
        Some((first, rest)) => {
            put_json_row(alloc, out, first)?;
            put_json_rest(alloc, out, rest)
        }
        None => Ok(()),
    }
}

fn put_json_rest(alloc: Global, out: &mut Vec<u8>, rows: &[Row]) -> Result<(), AllocError>
    ensures { AppendsOnOk out.old out.new result (flat_map row_rest rows.now) }
{
    for row in rows {
        out.push(b',')?;
        put_json_row(alloc, out, row)?;
    }
    Ok(())
}

fn put_json_row(alloc: Global, out: &mut Vec<u8>, row: &Row) -> Result<(), AllocError>
    ensures { AppendsOnOk out.old out.new result (object_text (row_fields row.now)) }
{
    let fields = fields_of(alloc, row)?;
    put_object(out, &fields)
}
