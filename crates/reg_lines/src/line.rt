//! Reads one untimed line (a line without its moment): as a command, a query or an OCSP request.

ghost use Rattle.std.specs.Prelude.{◌≡◌, ◌<◌, IfNone, IfSome, IsTrue, ◌↔◌, Some, None, option_map, length, cond};
ghost use Rattle.std.specs.List.{AllPass};
ghost use Rattle.hex.specs.Hex.{is_hex_digit};
ghost use Rattle.reg_lines.specs.Fields.{fields_of};
ghost use Rattle.reg_lines.specs.Meaning.{Meaning, IsUnreadable, LineMeans, OneMeaning, meaning_of, decoded_bytes, means_command, means_query, is_ocsp_line};
ghost use Rattle.reg_lines.specs.LineReading.{subscriber_of, order_of, register_by, register_of, request_of, number_alone, serial_alone, hex_of, ocsp_of, alone, query_by, revoking_by, meaning_in_fields};

use crate::fields::{Fields, four, one, two};
use reg_core::{Command, Label, Moment, Query, Serial, read_number};

/// The meaning of a line.
#[derive(Clone, Copy)]
pub enum ParsedLine<'a> {
    Command(Command),
    Query(Query),
    /// An OCSP request: its hexadecimal digits, an even number of them, at least two.
    Ocsp(&'a [u8]),
}

/// Reads an untimed line, given without its line end: `None` if it can't be read. No line has two meanings.
pub fn read_line(line: &[u8]) -> Option<ParsedLine<'_>>
    ensures found { IfSome result (λ said. LineMeans line.now (meaning_of said)) }
    ensures only { (meaning : Meaning) → LineMeans line.now meaning
        → option_map meaning_of result ≡ Some meaning }
    ensures none { IfNone result (IsUnreadable line.now) }
    ensures one { OneMeaning }
{
    read_fields(Fields::of(line))
}

/// Reads `subscriber NAME`, `order SUBSCRIBER DAYS` (the longest validity), `register ORDER SERIAL NOTBEFORE NOTAFTER`. Other words: `read_revoking`.
#[tactic(auto, unfolding(crate::specs::LineReading::meaning_in_fields, crate::specs::LineReading::meaning_by))]
fn read_fields(mut fields: Fields<'_>) -> Option<ParsedLine<'_>>
    ensures { option_map meaning_of result ≡ meaning_in_fields fields.entry }
{
    let word = fields.next()?;
    if word == b"subscriber".as_slice() {
        command(read_subscriber(fields))
    } else if word == b"order".as_slice() {
        command(read_order(fields))
    } else if word == b"register".as_slice() {
        command(read_register(fields))
    } else {
        read_revoking(word, fields)
    }
}

/// Reads `request SERIAL GROUND` (why to revoke), `decline REQUEST`, `revoke REQUEST`, `crl` (issue the next CRL). Other words: `read_query`.
#[tactic(auto, unfolding(crate::specs::LineReading::revoking_by))]
fn read_revoking<'a>(word: &[u8], fields: Fields<'a>) -> Option<ParsedLine<'a>>
    ensures { option_map meaning_of result ≡ revoking_by word.now fields.entry }
{
    if word == b"request".as_slice() {
        command(read_request(fields))
    } else if word == b"decline".as_slice() {
        let request = number_alone(fields)?;
        Some(ParsedLine::Command(Command::Decline { request }))
    } else if word == b"revoke".as_slice() {
        let request = number_alone(fields)?;
        Some(ParsedLine::Command(Command::Revoke { request }))
    } else if word == b"crl".as_slice() {
        command(alone(Command::Crl, fields))
    } else {
        read_query(word, fields)
    }
}

/// Reads a query (such as `listing SERIAL`: which CRLs list it) or `ocsp HEX`; `None` for any other word.
#[tactic(auto, unfolding(crate::specs::LineReading::query_by))]
fn read_query<'a>(word: &[u8], fields: Fields<'a>) -> Option<ParsedLine<'a>>
    ensures { option_map meaning_of result ≡ query_by word.now fields.entry }
{
    if word == b"status".as_slice() {
        let serial = serial_alone(fields)?;
        Some(ParsedLine::Query(Query::Status(serial)))
    } else if word == b"counts".as_slice() {
        query(alone(Query::Counts, fields))
    } else if word == b"listing".as_slice() {
        let serial = serial_alone(fields)?;
        Some(ParsedLine::Query(Query::Listing(serial)))
    } else if word == b"overdue".as_slice() {
        query(alone(Query::Overdue, fields))
    } else if word == b"next-crl".as_slice() {
        query(alone(Query::NextCrl, fields))
    } else if word == b"ocsp".as_slice() {
        ocsp(read_hex(fields))
    } else {
        None
    }
}

fn command<'a>(command: Option<Command>) -> Option<ParsedLine<'a>>
    ensures { option_map meaning_of result ≡ option_map means_command command }
{
    Some(ParsedLine::Command(command?))
}

fn query<'a>(query: Option<Query>) -> Option<ParsedLine<'a>>
    ensures { option_map meaning_of result ≡ option_map means_query query }
{
    Some(ParsedLine::Query(query?))
}

fn ocsp(digits: Option<&[u8]>) -> Option<ParsedLine<'_>>
    ensures { option_map meaning_of result
        ≡ option_map (λ d. is_ocsp_line (decoded_bytes d.now)) digits.entry }
{
    Some(ParsedLine::Ocsp(digits?))
}

/// The value of a word without arguments; `None` if a field is left.
fn alone<T: Copy>(value: T, fields: Fields<'_>) -> Option<T>
    ensures { result ≡ alone value fields.entry }
{
    if fields.is_empty() { Some(value) } else { None }
}

#[tactic(auto, unfolding(crate::specs::LineReading::subscriber_of))]
fn read_subscriber(fields: Fields<'_>) -> Option<Command>
    ensures { result ≡ subscriber_of fields.entry }
{
    let name = Label::of(one(fields)?)?;
    Some(Command::Subscriber { name })
}

#[tactic(auto, unfolding(crate::specs::LineReading::order_of))]
fn read_order(fields: Fields<'_>) -> Option<Command>
    ensures { result ≡ order_of fields.entry }
{
    let (subscriber, days) = two(fields)?;
    let subscriber = read_number(subscriber)?;
    let days = read_number(days)?;
    Some(Command::Order { subscriber, days })
}

#[tactic(auto, unfolding(crate::specs::LineReading::register_of))]
fn read_register(fields: Fields<'_>) -> Option<Command>
    ensures { result ≡ register_of fields.entry }
{
    let (order, serial, not_before, not_after) = four(fields)?;
    read_registration(order, serial, not_before, not_after)
}

#[tactic(auto, unfolding(crate::specs::LineReading::register_by))]
pub(crate) fn read_registration(
    order: &[u8],
    serial: &[u8],
    not_before: &[u8],
    not_after: &[u8],
) -> Option<Command>
    ensures { result ≡ register_by (order.now, serial.now, not_before.now, not_after.now) }
{
    let order = read_number(order)?;
    let serial = Serial::read(serial)?;
    let not_before = Moment::read(not_before)?;
    let not_after = Moment::read(not_after)?;
    Some(Command::Register {
        order,
        serial,
        not_before,
        not_after,
    })
}

#[tactic(auto, unfolding(crate::specs::LineReading::request_of))]
fn read_request(fields: Fields<'_>) -> Option<Command>
    ensures { result ≡ request_of fields.entry }
{
    let (serial, name) = two(fields)?;
    let serial = Serial::read(serial)?;
    let ground = Label::of(name)?;
    Some(Command::Request { serial, ground })
}

#[tactic(auto, unfolding(crate::specs::LineReading::number_alone))]
fn number_alone(fields: Fields<'_>) -> Option<u64>
    ensures { result ≡ number_alone fields.entry }
{
    read_number(one(fields)?)
}

#[tactic(auto, unfolding(crate::specs::LineReading::serial_alone))]
fn serial_alone(fields: Fields<'_>) -> Option<Serial>
    ensures { result ≡ serial_alone fields.entry }
{
    Serial::read(one(fields)?)
}

#[tactic(auto, unfolding(crate::specs::LineReading::ocsp_of))]
fn read_hex(fields: Fields<'_>) -> Option<&[u8]>
    ensures { option_map (λ d. decoded_bytes d.now) result ≡ ocsp_of fields.entry }
{
    let digits = one(fields)?;
    if is_hex(digits) { Some(digits) } else { None }
}

fn is_hex(digits: &[u8]) -> bool
    ensures { hex_of digits.now ≡ cond result (Some (decoded_bytes digits.now)) None }
{
    if digits.is_empty() || digits.len() % 2 == 1 {
        return false;
    }
    all_hex(digits)
}

fn all_hex(digits: &[u8]) -> bool
    ensures { IsTrue result ↔ AllPass is_hex_digit digits.now }
{
    digits.iter().all(|digit| digit.is_ascii_hexdigit())
}
