ghost use Rattle.std.specs.Prelude.{◌≡◌, ◌≤◌, ◌==◌, IfOk, bytes_eq, drop, length, nat_le, nat_lt, not};
ghost use Rattle.std.specs.List.{position, position_or_len};
ghost use Rattle.reg_core_lists.specs.Filters.{begins_with, fits, keeps, name_of_row, serial_of_row, starts_in_any_case, time_of_row, filtered_rows, wanted_field};

use crate::cursor::Cursor;
use crate::rows::Row;
use reg_core::{Label, Moment, Serial};
use std::alloc::{AllocError, Global};

/// A filter of a list's rows: a row must satisfy each condition that is given (not `None`).
#[derive(Clone, Copy)]
pub struct Filter {
    /// The exact name of the subscriber.
    pub subscriber: Option<Label>,
    /// The first hexadecimal digits (upper or lower case) of the serial number, written with 40 digits as in lists, or without leading zeros.
    pub serial: Option<Label>,
    /// The row's time must be at or after `from`, and before `to`. That time is the notBefore of a certificate, the moment of a revocation, the
    /// receipt of a request, or the thisUpdate of a CRL.
    pub from: Option<Moment>,
    pub to: Option<Moment>,
}

impl Filter {
    /// Whether the rows of the list that a cursor names have the fields that the filter needs. A CRL has only a time, a subscriber only a name. An
    /// order has no time.
    pub fn fits(&self, list: Cursor) -> bool
        ensures { result ≡ fits self.now list }
    {
        let has_time = self.from.is_some() || self.to.is_some();
        match list {
            Cursor::Crls(_) => self.subscriber.is_none() && self.serial.is_none(),
            Cursor::Subscribers(_) => self.serial.is_none() && !has_time,
            Cursor::Orders(_) => !has_time,
            _ => true,
        }
    }

    /// The rows that pass the filter, in their order; `AllocError` if out of memory.
    pub fn kept(&self, alloc: Global, rows: &[Row]) -> Result<Vec<Row>, AllocError>
        ensures { IfOk result (λ kept. kept.items ≡ filtered_rows self.now rows.now) }
    {
        let mut kept = Vec::new(alloc);
        for row in rows {
            if self.keeps(row) {
                kept.push(*row)?;
            }
        }
        Ok(kept)
    }

    fn keeps(&self, row: &Row) -> bool
        ensures { result ≡ keeps self.now row.now }
    {
        let name_fits = is_wanted_name(&self.subscriber, name_of_row(row));
        let serial_fits = has_wanted_prefix(&self.serial, serial_of_row(row));
        let time_is_from = is_from(self.from, time_of_row(row));
        let time_is_before = is_before(self.to, time_of_row(row));
        name_fits && serial_fits && time_is_from && time_is_before
    }
}

/// The name of the row's subscriber; `None` for a CRL. [`Row`] says which lists have rows `Request`, and which list has rows `AnyRequest`.
fn name_of_row(row: &Row) -> Option<Label>
    ensures { result ≡ name_of_row row.now }
{
    match row {
        Row::Certificate(listed) => Some(listed.subscriber.name),
        Row::Revoked(listed) => Some(listed.certificate.subscriber.name),
        Row::Request(listed) => Some(listed.subscriber.name),
        Row::AnyRequest(listed) => Some(listed.request.subscriber.name),
        Row::Subscriber(subscriber) => Some(subscriber.name),
        Row::Order(listed) => Some(listed.subscriber.name),
        Row::Crl(_) => None,
    }
}

fn serial_of_row(row: &Row) -> Option<Serial>
    ensures { result ≡ serial_of_row row.now }
{
    match row {
        Row::Certificate(listed) => Some(listed.certificate.serial),
        Row::Revoked(listed) => Some(listed.revocation.serial),
        Row::Request(listed) => Some(listed.request.serial),
        Row::AnyRequest(listed) => Some(listed.request.request.serial),
        Row::Order(listed) => listed.serial,
        Row::Subscriber(_) | Row::Crl(_) => None,
    }
}

fn time_of_row(row: &Row) -> Option<Moment>
    ensures { result ≡ time_of_row row.now }
{
    match row {
        Row::Certificate(listed) => Some(listed.certificate.not_before),
        Row::Revoked(listed) => Some(listed.revocation.at),
        Row::Request(listed) => Some(listed.request.received),
        Row::AnyRequest(listed) => Some(listed.request.request.received),
        Row::Crl(crl) => Some(crl.this_update),
        Row::Subscriber(_) | Row::Order(_) => None,
    }
}

fn is_wanted_name(wanted: &Option<Label>, name: Option<Label>) -> bool
    ensures { result ≡ wanted_field bytes_eq wanted.now name }
{
    match wanted {
        None => true,
        Some(wanted) => match name {
            Some(name) => *wanted == name,
            None => false,
        },
    }
}

fn has_wanted_prefix(wanted: &Option<Label>, serial: Option<Serial>) -> bool
    ensures { result ≡ wanted_field begins_with wanted.now serial }
{
    match wanted {
        None => true,
        Some(wanted) => match serial {
            Some(serial) => begins_with(wanted.as_bytes(), serial),
            None => false,
        },
    }
}

fn begins_with(digits: &[u8], serial: Serial) -> bool
    ensures { result ≡ begins_with digits.now serial }
{
    let text = serial.text();
    starts_with(&text, digits) || starts_with(without_zeros(&text), digits)
}

fn without_zeros(text: &[u8]) -> &[u8]
    ensures { result.now ≡ drop (position_or_len (λ byte. not (byte == 48)) text.now) text.now }
{
    let zeros = zeros_of(text);
    &text[zeros..]
}

fn zeros_of(text: &[u8]) -> usize
    ensures zeros { result ≡ position_or_len (λ byte. not (byte == 48)) text.now }
    ensures within { result ≤ length text.now }
{
    match first_nonzero(text) {
        Some(index) => index,
        None => text.len(),
    }
}

fn first_nonzero(text: &[u8]) -> Option<usize>
    ensures { result ≡ position (λ byte. not (byte == 48)) text.now }
{
    text.iter().position(|byte| *byte != b'0')
}

fn starts_with(text: &[u8], digits: &[u8]) -> bool
    ensures { result ≡ starts_in_any_case text.now digits.now }
{
    digits.len() <= text.len() && text[..digits.len()].eq_ignore_ascii_case(digits)
}

fn is_from(from: Option<Moment>, time: Option<Moment>) -> bool
    ensures { result ≡ wanted_field nat_le from time }
{
    match (from, time) {
        (None, _) => true,
        (Some(_), None) => false,
        (Some(from), Some(time)) => from <= time,
    }
}

fn is_before(to: Option<Moment>, time: Option<Moment>) -> bool
    ensures { result ≡ wanted_field (λ to time. nat_lt time to) to time }
{
    match (to, time) {
        (None, _) => true,
        (Some(_), None) => false,
        (Some(to), Some(time)) => time < to,
    }
}
