//! The fields of a row of a list (docs/RULES.md, "Lists"): their names, as in the CSV header and in JSON, and their values.

ghost use Rattle.std.specs.Prelude.{◌≡◌, ◌≤◌, ◌-◌, IfOk, length, map};
ghost use Rattle.reg_core_lists.specs.Fields.{certificate_fields, crl_fields, decided_cell, first_listing_cell, ground_name, request_with_state_fields, last_listing_cell, number_or_empty, order_fields, reason_cell, request_fields, revoked_at_cell, revoked_fields, row_fields, serial_or_empty, state_name, status_name, subscriber_fields, field_of_text};

use crate::rows::{
    ListedCertificate, ListedOrder, ListedRequest, ListedRevocation, RequestWithState, Row,
};
use reg_core::{CrlRow, Ground, Label, Listing, Moment, Serial, Status, SubscriberRow};
use std::alloc::{AllocError, Global};

/// The value of a field. A `Text` is the name of a status, a state or a ground, or a subscriber's name.
#[derive(Clone, Copy)]
pub(crate) enum Cell {
    Empty,
    Number(u64),
    Serial(Serial),
    At(Moment),
    Text(Label),
}

#[derive(Clone, Copy)]
pub(crate) struct Field {
    pub(crate) name: &'static str,
    pub(crate) cell: Cell,
}

/// `Request` is an open request. `AnyRequest` is a request in any state.
pub(crate) fn fields_of(alloc: Global, row: &Row) -> Result<Vec<Field>, AllocError>
    ensures { IfOk result (λ fields. map field_of_text fields.items ≡ row_fields row.now) }
{
    match row {
        Row::Certificate(listed) => of_certificate(alloc, listed),
        Row::Revoked(listed) => of_revocation(alloc, listed),
        Row::Request(listed) => of_request(alloc, listed),
        Row::AnyRequest(listed) => of_request_with_state(alloc, listed),
        Row::Subscriber(subscriber) => of_subscriber(alloc, subscriber),
        Row::Order(listed) => of_order(alloc, listed),
        Row::Crl(crl) => of_crl(alloc, crl),
    }
}

fn of_certificate(alloc: Global, listed: &ListedCertificate) -> Result<Vec<Field>, AllocError>
    ensures { IfOk result (λ fields. map field_of_text fields.items ≡ certificate_fields listed.now) }
{
    let certificate = &listed.certificate;
    Vec::from_slice(
        alloc,
        &[
            field_with("serial", Cell::Serial(certificate.serial)),
            field_with("subscriber", Cell::Number(listed.subscriber.id)),
            field_with("name", Cell::Text(listed.subscriber.name)),
            field_with("order", Cell::Number(certificate.order)),
            field_with("notBefore", Cell::At(certificate.not_before)),
            field_with("notAfter", Cell::At(certificate.not_after)),
            field_with("status", status_cell(listed.status)),
            field_with("revokedAt", revoked_at_cell_of(listed.status)),
            field_with("reason", reason_cell_of(listed.status)),
            field_with("firstCrl", first_crl_cell(listed.listing)),
            field_with("lastCrl", last_crl_cell(listed.listing)),
        ],
    )
}

fn of_revocation(alloc: Global, listed: &ListedRevocation) -> Result<Vec<Field>, AllocError>
    ensures { IfOk result (λ fields. map field_of_text fields.items ≡ revoked_fields listed.now) }
{
    let mut fields = of_certificate(alloc, &listed.certificate)?;
    fields.extend_from_slice(&[
        field_with("request", Cell::Number(listed.request.id)),
        field_with("ground", ground_cell(listed.request.ground)),
        field_with("received", Cell::At(listed.request.received)),
        field_with("due", Cell::At(listed.due)),
        field_with(
            "lateness",
            Cell::Number(seconds_past(listed.due, listed.revocation.at)),
        ),
    ])?;
    Ok(fields)
}

fn of_request(alloc: Global, listed: &ListedRequest) -> Result<Vec<Field>, AllocError>
    ensures { IfOk result (λ fields. map field_of_text fields.items ≡ request_fields listed.now) }
{
    let request = &listed.request;
    Vec::from_slice(
        alloc,
        &[
            field_with("request", Cell::Number(request.id)),
            field_with("serial", Cell::Serial(request.serial)),
            field_with("ground", ground_cell(request.ground)),
            field_with("received", Cell::At(request.received)),
            field_with("due", Cell::At(listed.due)),
            field_with("subscriber", Cell::Number(listed.subscriber.id)),
            field_with("name", Cell::Text(listed.subscriber.name)),
            field_with("order", Cell::Number(listed.certificate.order)),
            field_with("notBefore", Cell::At(listed.certificate.not_before)),
            field_with("notAfter", Cell::At(listed.certificate.not_after)),
        ],
    )
}

fn of_request_with_state(alloc: Global, listed: &RequestWithState) -> Result<Vec<Field>, AllocError>
    ensures { IfOk result (λ fields. map field_of_text fields.items ≡ request_with_state_fields listed.now) }
{
    let declined = listed.request.request.declined;
    let mut fields = of_request(alloc, &listed.request)?;
    fields.extend_from_slice(&[
        field_with("state", state_cell(declined, listed.status)),
        field_with("decided", decided_cell_of(declined, listed.status)),
        field_with("lateness", number_cell(listed.lateness)),
    ])?;
    Ok(fields)
}

fn of_subscriber(alloc: Global, subscriber: &SubscriberRow) -> Result<Vec<Field>, AllocError>
    ensures { IfOk result (λ fields. map field_of_text fields.items ≡ subscriber_fields subscriber.now) }
{
    Vec::from_slice(
        alloc,
        &[
            field_with("subscriber", Cell::Number(subscriber.id)),
            field_with("name", Cell::Text(subscriber.name)),
        ],
    )
}

fn of_order(alloc: Global, listed: &ListedOrder) -> Result<Vec<Field>, AllocError>
    ensures { IfOk result (λ fields. map field_of_text fields.items ≡ order_fields listed.now) }
{
    Vec::from_slice(
        alloc,
        &[
            field_with("order", Cell::Number(listed.order.id)),
            field_with("subscriber", Cell::Number(listed.subscriber.id)),
            field_with("name", Cell::Text(listed.subscriber.name)),
            field_with("days", Cell::Number(listed.order.days)),
            field_with("serial", serial_cell(listed.serial)),
        ],
    )
}

fn of_crl(alloc: Global, crl: &CrlRow) -> Result<Vec<Field>, AllocError>
    ensures { IfOk result (λ fields. map field_of_text fields.items ≡ crl_fields crl.now) }
{
    Vec::from_slice(
        alloc,
        &[
            field_with("crl", Cell::Number(crl.number)),
            field_with("thisUpdate", Cell::At(crl.this_update)),
        ],
    )
}

fn field_with(name: &'static str, cell: Cell) -> Field
    ensures { field_of_text result ≡ (name.now, cell) }
{
    Field { name, cell }
}

fn text_cell(text: &[u8]) -> Cell
    requires not_empty { 1 ≤ length text.now }
    requires short { length text.now ≤ 64 }
    ensures { result ≡ Cell.Text text.now }
{
    Cell::Text(word_label(text))
}

fn status_cell(status: Status) -> Cell
    ensures { result ≡ Cell.Text (status_name status) }
{
    match status {
        Status::Unknown => text_cell(b"unknown"),
        Status::Good => text_cell(b"good"),
        Status::Expired => text_cell(b"expired"),
        Status::Revoked { .. } => text_cell(b"revoked"),
    }
}

fn state_cell(declined: bool, status: Status) -> Cell
    ensures { result ≡ Cell.Text (state_name declined status) }
{
    match status {
        _ if declined => text_cell(b"declined"),
        Status::Good => text_cell(b"open"),
        _ => status_cell(status),
    }
}

/// When a request was decided: the moment of the revocation, if there is one. Empty if the request is declined, because no record says when.
fn decided_cell_of(declined: bool, status: Status) -> Cell
    ensures { result ≡ decided_cell declined status }
{
    if declined {
        Cell::Empty
    } else {
        revoked_at_cell_of(status)
    }
}

fn seconds_past(due: Moment, at: Moment) -> u64
    ensures { result ≡ at - due }
{
    at.secs().saturating_sub(due.secs())
}

fn revoked_at_cell_of(status: Status) -> Cell
    ensures { result ≡ revoked_at_cell status }
{
    match status {
        Status::Revoked { at, reason: _ } => Cell::At(at),
        _ => Cell::Empty,
    }
}

fn reason_cell_of(status: Status) -> Cell
    ensures { result ≡ reason_cell status }
{
    match status {
        Status::Revoked { at: _, reason } => Cell::Number(u64::from(reason)),
        _ => Cell::Empty,
    }
}

fn first_crl_cell(listing: Option<Listing>) -> Cell
    ensures { result ≡ first_listing_cell listing }
{
    match listing {
        Some(listing) => Cell::Number(listing.first),
        None => Cell::Empty,
    }
}

fn last_crl_cell(listing: Option<Listing>) -> Cell
    ensures { result ≡ last_listing_cell listing }
{
    match listing {
        Some(listing) => number_cell(listing.last),
        None => Cell::Empty,
    }
}

fn number_cell(number: Option<u64>) -> Cell
    ensures { result ≡ number_or_empty number }
{
    match number {
        Some(number) => Cell::Number(number),
        None => Cell::Empty,
    }
}

pub(crate) fn serial_cell(serial: Option<Serial>) -> Cell
    ensures { result ≡ serial_or_empty serial }
{
    match serial {
        Some(serial) => Cell::Serial(serial),
        None => Cell::Empty,
    }
}

pub(crate) fn ground_cell(ground: Ground) -> Cell
    ensures { result ≡ Cell.Text (ground_name ground) }
{
    Cell::Text(ground_word(ground))
}

pub fn ground_word(ground: Ground) -> Label
    ensures { result ≡ ground_name ground }
{
    match ground {
        Ground::Asked => word_label(b"asked"),
        Ground::Unauthorized => word_label(b"unauthorized"),
        Ground::KeyCompromise => word_label(b"key-compromise"),
        Ground::ControlLost => word_label(b"control-lost"),
        Ground::Affiliation => word_label(b"affiliation"),
        Ground::Superseded => word_label(b"superseded"),
        Ground::Cessation => word_label(b"cessation"),
        Ground::Misuse => word_label(b"misuse"),
        Ground::NameNotPermitted => word_label(b"name-not-permitted"),
        Ground::Nonconforming => word_label(b"nonconforming"),
        Ground::Inaccurate => word_label(b"inaccurate"),
    }
}

/// The label with this text, of 1 to 64 bytes. Not by `Label::of`, which may give `None`: `Label::joined` (with an empty second text) never does.
fn word_label(text: &[u8]) -> Label
    requires not_empty { 1 ≤ length text.now }
    requires short { length text.now ≤ 64 }
    ensures { result ≡ text.now }
{
    Label::joined(text, b"")
}
