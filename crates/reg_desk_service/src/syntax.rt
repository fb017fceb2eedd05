//! Finds the first wrong field of a line that can't be read, for `why`: a field that is missing or malformed, or one too many.

ghost use Rattle.std.specs.Prelude.{◌≡◌, ◌++◌, [], IfOk, is_some, option_map};
ghost use Rattle.reg_core.specs.Calendar.{moment_of};
ghost use Rattle.reg_core.specs.Label.{label_of};
ghost use Rattle.reg_desk_service.specs.Syntax.{fields_wanted, first_wrong, form_text, is_well_formed, name_text, wrong_in, wrong_text};
ghost use Rattle.reg_lines.specs.Fields.{fields_of};

use reg_core::{Label, Moment, Serial, read_number};
use reg_lines::Fields;
use std::alloc::{AllocError, Global};

/// A field of a command or query, by its name in the reply to the line `help`.
#[derive(Clone, Copy, PartialEq, Eq)]
pub enum CommandField {
    Name,
    Subscriber,
    Days,
    Order,
    Serial,
    NotBefore,
    NotAfter,
    Ground,
    Request,
}

/// The first error in the fields of a command or query. `TooMany`: there is a field after the last one.
#[derive(Clone, Copy, PartialEq, Eq)]
pub enum WrongField {
    Malformed(CommandField),
    Missing(CommandField),
    TooMany,
}

/// The fields of the command `subscriber`, in their order. The lists below are those of other commands and queries.
const SUBSCRIBER: &[CommandField] = &[CommandField::Name];

const ORDER: &[CommandField] = &[CommandField::Subscriber, CommandField::Days];

const REGISTER: &[CommandField] = &[
    CommandField::Order,
    CommandField::Serial,
    CommandField::NotBefore,
    CommandField::NotAfter,
];

const REQUEST: &[CommandField] = &[CommandField::Serial, CommandField::Ground];

/// The fields of `revoke` and `decline`. A line that lacks only the serial number can be read, so `wrong_field` isn't called for it.
const DECISION: &[CommandField] = &[CommandField::Request, CommandField::Serial];

const STATUS: &[CommandField] = &[CommandField::Serial];

/// The first wrong field of a line that can't be read. `None` if its first word is none of those in `fields_by_word`, or if no field is wrong.
pub(crate) fn wrong_field(line: &[u8]) -> Option<WrongField>
    ensures { result ≡ wrong_in (fields_of line.now) }
{
    let mut fields = Fields::of(line);
    let word = fields.next()?;
    first_wrong(fields_by_word(word)?, fields)
}

fn fields_by_word(word: &[u8]) -> Option<&'static [CommandField]>
    ensures { option_map (λ expected. expected.now) result ≡ fields_wanted word.now }
{
    if word == b"subscriber".as_slice() {
        Some(SUBSCRIBER)
    } else if word == b"order".as_slice() {
        Some(ORDER)
    } else if word == b"register".as_slice() {
        Some(REGISTER)
    } else if word == b"request".as_slice() {
        Some(REQUEST)
    } else if word == b"decline".as_slice() || word == b"revoke".as_slice() {
        Some(DECISION)
    } else if word == b"status".as_slice() || word == b"listing".as_slice() {
        Some(STATUS)
    } else {
        None
    }
}

fn first_wrong(expected: &[CommandField], mut fields: Fields<'_>) -> Option<WrongField>
    ensures { result ≡ first_wrong expected.now fields.entry }
{
    for field in expected {
        match fields.next() {
            Some(text) => {
                if !is_well_formed(*field, text) {
                    return Some(WrongField::Malformed(*field));
                }
            }
            None => return Some(WrongField::Missing(*field)),
        }
    }
    if fields.is_empty() {
        None
    } else {
        Some(WrongField::TooMany)
    }
}

fn is_well_formed(field: CommandField, text: &[u8]) -> bool
    ensures { result ≡ is_well_formed field text.now }
{
    match field {
        CommandField::Name | CommandField::Ground => is_label(text),
        CommandField::Subscriber
        | CommandField::Days
        | CommandField::Order
        | CommandField::Request => { read_number(text).is_some() }
        CommandField::Serial => Serial::read(text).is_some(),
        CommandField::NotBefore | CommandField::NotAfter => is_moment(text),
    }
}

fn is_label(text: &[u8]) -> bool
    ensures { result ≡ is_some (label_of text.now) }
{
    Label::of(text).is_some()
}

fn is_moment(text: &[u8]) -> bool
    ensures { result ≡ is_some (moment_of text.now) }
{
    Moment::read(text).is_some()
}

pub(crate) fn wrong_field_text(alloc: Global, wrong: WrongField) -> Result<Vec<u8>, AllocError>
    ensures { IfOk result (λ text. text.items ≡ wrong_text wrong) }
{
    match wrong {
        WrongField::Malformed(field) => field_words(alloc, field, form_of(field)),
        WrongField::Missing(field) => field_words(alloc, field, b" is missing"),
        WrongField::TooMany => Vec::from_slice(alloc, b"more fields than this line takes"),
    }
}

fn field_words(alloc: Global, field: CommandField, end: &[u8]) -> Result<Vec<u8>, AllocError>
    ensures { IfOk result (λ text. text.items ≡ name_text field ++ end.now) }
{
    let mut text = Vec::from_slice(alloc, name_of(field))?;
    text.extend_from_slice(end)?;
    Ok(text)
}

fn name_of(field: CommandField) -> &'static [u8]
    ensures { result.now ≡ name_text field }
{
    match field {
        CommandField::Name => b"NAME",
        CommandField::Subscriber => b"SUBSCRIBER",
        CommandField::Days => b"DAYS",
        CommandField::Order => b"ORDER",
        CommandField::Serial => b"SERIAL",
        CommandField::NotBefore => b"NOTBEFORE",
        CommandField::NotAfter => b"NOTAFTER",
        CommandField::Ground => b"GROUND",
        CommandField::Request => b"REQUEST",
    }
}

fn form_of(field: CommandField) -> &'static [u8]
    ensures { result.now ≡ form_text field }
{
    match field {
        CommandField::Name | CommandField::Ground => b" is not 1 to 64 bytes",
        CommandField::Subscriber
        | CommandField::Days
        | CommandField::Order
        | CommandField::Request => { b" is not 1 to 18 digits" }
        CommandField::Serial => b" is not 1 to 40 hexadecimal digits, from 1 to 2^159 - 1",
        CommandField::NotBefore | CommandField::NotAfter =>
            b" is not a moment such as 2026-01-01T00:00:00Z",
    }
}
