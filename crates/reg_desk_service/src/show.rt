//! The lines `show ..` and `help` at the control socket.

ghost use Rattle.std.specs.Prelude.{◌≡◌, ◌++◌, ◌∷◌, ◌-◌, ◌≤◌, [], IfOk, find as first_passing};
ghost use Rattle.reg_core.specs.AscendingRows.{key_of};
ghost use Rattle.reg_core_lists.specs.Lists.{page};
ghost use Rattle.reg_core_lists.specs.Texts.{row_text};
ghost use Rattle.reg_core_lists.specs.declared.texts.Format.TheVariants.{Json};
ghost use Rattle.reg_office_api.specs.Calls.{LooksIn};
ghost use Rattle.reg_desk_service.specs.ControlReplies.{IsReplyText, ReportsLineOutcome, ReportsFault};
ghost use Rattle.reg_desk_service.specs.RowLookUps.{IsSoundLookUp, AnswersShow, found_text, help_text, has_key, refusal_of, row_with_key};

use crate::control_reply::{ControlReply, LineOutcome};
use crate::machine::Machine;
use crate::reasons::keep_reply_reason;
use crate::words::RowKey;
use reg_core::{Fault, Label, Moment, Refusal, Serial};
use reg_core_lists::{Cursor, Format, Row, put_rows};
use reg_office_api::Office;
use std::alloc::{AllocError, Global};

/// How many subscribers one call of [`Office::page`] reads at most: as many rows as a page of a list over HTTP.
const SUBSCRIBERS_READ: u64 = 250;

const SERIAL_BYTES: usize = 20;

const HELP_LINE: &[u8] =
    b"help: subscriber NAME | order SUBSCRIBER DAYS | register ORDER SERIAL NOTBEFORE NOTAFTER | request SERIAL GROUND | decline REQUEST [SERIAL] | revoke REQUEST [SERIAL] | crl | status SERIAL | counts | listing SERIAL | overdue | next-crl | ocsp HEX | show request REQUEST | show SERIAL | show subscriber NAME | why | accept-clock MOMENT | schedule MOMENT=DAYS .. | copy PATH | help";

pub(crate) fn answer_help(alloc: Global) -> ControlReply
    ensures reply_text { IsReplyText (help_text ++ 10 ∷ []) result.text.items }
    ensures line_outcome { ReportsLineOutcome result.line_outcome result.text.items }
{
    ControlReply::line(alloc, HELP_LINE, LineOutcome::Done)
}

/// Shows the row that `shown` names, at `now`, as `desk list --json` does. Without memory, the reply is empty. Keeps a refusal or a fault for `why`.
pub(crate) fn answer_show<M: Machine>(
    alloc: Global,
    office: &mut M::Office,
    now: Moment,
    shown: RowKey,
    last_reason: &mut Vec<u8>,
) -> ControlReply
    ensures moves { LooksIn M.Office.Office
        (λ records. AnswersShow records now shown result.text.items)
        office.old office.new }
    ensures line_outcome { ReportsLineOutcome result.line_outcome result.text.items }
{
    let found = find(alloc, office, now, &shown);
    answer_found(alloc, &shown, found, last_reason)
}

fn answer_found(
    alloc: Global,
    shown: &RowKey,
    found: Result<Option<Row>, Fault>,
    last_reason: &mut Vec<u8>,
) -> ControlReply
    ensures reply_text { IsReplyText (found_text shown.now found) result.text.items }
    ensures line_outcome { ReportsLineOutcome result.line_outcome result.text.items }
{
    match found {
        Ok(Some(row)) => ControlReply::made(alloc, row_line(alloc, row), LineOutcome::Done),
        Ok(None) => report_fault(alloc, Fault::Refused(refusal_of(shown)), last_reason),
        Err(fault) => report_fault(alloc, fault, last_reason),
    }
}

pub(crate) fn report_fault(alloc: Global, fault: Fault, last_reason: &mut Vec<u8>) -> ControlReply
    ensures reply_text { ReportsFault fault result.text.items }
    ensures line_outcome { ReportsLineOutcome result.line_outcome result.text.items }
{
    let reply = ControlReply::fault(alloc, fault);
    keep_reply_reason(&reply.text, last_reason);
    reply
}

fn refusal_of(shown: &RowKey) -> Refusal
    ensures { result ≡ refusal_of shown.now }
{
    match shown {
        RowKey::Request(_) => Refusal::NoRequest,
        RowKey::Certificate(_) => Refusal::UnknownSerial,
        RowKey::Subscriber(_) => Refusal::NoSubscriber,
    }
}

fn row_line(alloc: Global, row: Row) -> Result<Vec<u8>, AllocError>
    ensures { IfOk result (λ text. text.items ≡ row_text Json row) }
{
    let mut text = Vec::new(alloc);
    put_rows(alloc, &mut text, Format::Json, &[row])?;
    Ok(text)
}

/// The row that `shown` names, at `now`; `None` if there is none. A page begins after its cursor `from`, the key before. Errors: `Office::page`'s.
pub(crate) fn find<O: Office>(
    alloc: Global,
    office: &mut O,
    now: Moment,
    shown: &RowKey,
) -> Result<Option<Row>, Fault>
    ensures { LooksIn O.Office
        (λ records. IsSoundLookUp records now (row_with_key records now shown.now) result)
        office.old office.new }
{
    match shown {
        RowKey::Request(id) => {
            let from = Cursor::Requests(id.saturating_sub(1));
            find_at(alloc, office, now, from, shown)
        }
        RowKey::Certificate(serial) => {
            let from = Cursor::Certificates(serial_before(*serial));
            find_at(alloc, office, now, from, shown)
        }
        RowKey::Subscriber(name) => find_subscriber(alloc, office, now, *name),
    }
}

/// The first row after the cursor `from`, if this row has the key `shown`. The cursor is just before that key. `1`: the page has at most one row.
fn find_at<O: Office>(
    alloc: Global,
    office: &mut O,
    now: Moment,
    from: Cursor,
    shown: &RowKey,
) -> Result<Option<Row>, Fault>
    ensures { LooksIn O.Office
        (λ records.
        IsSoundLookUp records now (first_passing (has_key shown.now) (page records now 1 from).rows) result)
        office.old office.new }
{
    let page = office.page(alloc, now, from, 1)?;
    Ok(row_among(&page.rows, shown))
}

/// Reads the subscribers in the order of their ids, page by page, until it finds the one with this name: no cursor is by name.
fn find_subscriber<O: Office>(
    alloc: Global,
    office: &mut O,
    now: Moment,
    name: Label,
) -> Result<Option<Row>, Fault>
    ensures { LooksIn O.Office
        (λ records. IsSoundLookUp records now (row_with_key records now (RowKey.Subscriber name)) result)
        office.old office.new }
{
    let shown = RowKey::Subscriber(name);
    let mut from = Cursor::Subscribers(0);
    for _ in 0..u64::MAX {
        let page = office.page(alloc, now, from, SUBSCRIBERS_READ)?;
        match row_among(&page.rows, &shown) {
            Some(row) => return Ok(Some(row)),
            None => {}
        }
        let next = page.next;
        match next {
            Some(next) => from = next,
            None => return Ok(None),
        }
    }
    // No register has this many pages.
    Err(Fault::Store)
}

fn row_among(rows: &[Row], shown: &RowKey) -> Option<Row>
    ensures { result ≡ first_passing (has_key shown.now) rows.now }
{
    for row in rows {
        if has_key(row, shown) {
            return Some(*row);
        }
    }
    None
}

/// Whether this is the row that `shown` names. `AnyRequest` (the list of all requests) has a `ListedRequest` (with a `RequestRow`) and its state.
fn has_key(row: &Row, shown: &RowKey) -> bool
    ensures { result ≡ has_key shown.now row.now }
{
    match (shown, row) {
        (RowKey::Request(id), Row::AnyRequest(with_state)) => with_state.request.request.id == *id,
        (RowKey::Certificate(serial), Row::Certificate(line)) => line.certificate.serial == *serial,
        (RowKey::Subscriber(name), Row::Subscriber(subscriber)) => subscriber.name == *name,
        _ => false,
    }
}

/// The serial number minus 1, computed on its 20 bytes from the last, the least significant, to the first. `None` for 1: 0 is no serial number.
fn serial_before(serial: Serial) -> Option<Serial>
    ensures before { key_of result ≡ serial - 1 }
    ensures above_0 { 1 ≤ serial }
{
    let mut bytes = serial.bytes20();
    for index in 0..SERIAL_BYTES {
        let at = SERIAL_BYTES - 1 - index;
        if bytes[at] > 0 {
            bytes[at] -= 1;
            return Serial::from_bytes20(&bytes);
        }
        bytes[at] = 255;
    }
    None
}
