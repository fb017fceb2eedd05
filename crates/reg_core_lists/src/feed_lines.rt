//! The lines of a page of the changes feed. No field has a space or an LF. The octets of a CRL may be any bytes; its line says how many there are.
//! Each call appends to `out`. `AllocError` if out of memory: then `out` may have some of the bytes.

ghost use Rattle.std.specs.Prelude.{◌≡◌, flat_map};
ghost use Rattle.reg_core.specs.Buffers.{AppendsOnOk};
ghost use Rattle.reg_core_lists.specs.FeedLines.{certificate_line, crl_feed_text, crl_line, declined_line, feed_line, field_text, issuer_line, order_line, page_head, policy_line, request_line, revocation_line, schedule_line, step_text, subscriber_line};

use crate::fields::{Cell, ground_cell};
use crate::texts::put_plain;
use reg_core::{
    CertRow, CrlRow, Decimal, Moment, OrderRow, Policy, RequestRow, RevocationRow, SubscriberRow,
};
use std::alloc::{AllocError, Global};

/// A row that has a line in the changes feed.
pub trait FeedLine {
    ghost use Rattle.std.specs.Prelude.{ℕ, List, ◌≡◌};
    ghost use Rattle.reg_core.specs.Buffers.{AppendsOnOk};

    ghost line: { Self → List ℕ };

    fn put_line(&self, out: &mut Vec<u8>) -> Result<(), AllocError>
        ensures { AppendsOnOk out.old out.new result (line self.now) };
}

impl FeedLine for SubscriberRow {
    ghost line = { subscriber_line };

    fn put_line(&self, out: &mut Vec<u8>) -> Result<(), AllocError> {
        put_fields(
            out,
            "subscriber",
            &[Cell::Number(self.id), Cell::Text(self.name)],
        )
    }
}

impl FeedLine for OrderRow {
    ghost line = { order_line };

    fn put_line(&self, out: &mut Vec<u8>) -> Result<(), AllocError> {
        let subscriber = Cell::Number(self.subscriber);
        put_fields(
            out,
            "order",
            &[Cell::Number(self.id), subscriber, Cell::Number(self.days)],
        )
    }
}

impl FeedLine for CertRow {
    ghost line = { certificate_line };

    fn put_line(&self, out: &mut Vec<u8>) -> Result<(), AllocError> {
        let (from, to) = (Cell::At(self.not_before), Cell::At(self.not_after));
        put_fields(
            out,
            "certificate",
            &[
                Cell::Serial(self.serial),
                Cell::Number(self.order),
                from,
                to,
            ],
        )
    }
}

/// The line does not say whether the request is declined: a declined request has another line, `declined`.
impl FeedLine for RequestRow {
    ghost line = { request_line };

    fn put_line(&self, out: &mut Vec<u8>) -> Result<(), AllocError> {
        let (ground, received) = (ground_cell(self.ground), Cell::At(self.received));
        put_fields(
            out,
            "request",
            &[
                Cell::Number(self.id),
                Cell::Serial(self.serial),
                ground,
                received,
            ],
        )
    }
}

/// `first` is the number of the first CRL that lists the revocation, issued or not.
impl FeedLine for RevocationRow {
    ghost line = { revocation_line };

    fn put_line(&self, out: &mut Vec<u8>) -> Result<(), AllocError> {
        let (serial, at) = (Cell::Serial(self.serial), Cell::At(self.at));
        let reason = Cell::Number(u64::from(self.reason));
        let (request, first) = (Cell::Number(self.request), Cell::Number(self.first));
        put_fields(out, "revocation", &[serial, at, reason, request, first])
    }
}

pub(crate) fn put_lines<T: FeedLine>(out: &mut Vec<u8>, rows: &[T]) -> Result<(), AllocError>
    ensures { AppendsOnOk out.old out.new result (flat_map T.line rows.now) }
{
    for row in rows {
        row.put_line(out)?;
    }
    Ok(())
}

pub(crate) fn put_declined(out: &mut Vec<u8>, ids: &[u64]) -> Result<(), AllocError>
    ensures { AppendsOnOk out.old out.new result (flat_map declined_line ids.now) }
{
    for id in ids {
        put_fields(out, "declined", &[Cell::Number(*id)])?;
    }
    Ok(())
}

#[tactic(auto, unfolding(crate::specs::FeedLines::crl_feed_text))]
pub(crate) fn put_crl(out: &mut Vec<u8>, row: &CrlRow, der: &[u8]) -> Result<(), AllocError>
    ensures { AppendsOnOk out.old out.new result (crl_feed_text row.now der.now) }
{
    put_crl_line(out, row, der.len() as u64)?;
    out.extend_from_slice(der)?;
    out.push(b'\n')?;
    Ok(())
}

pub(crate) fn put_crl_line(out: &mut Vec<u8>, row: &CrlRow, octets: u64) -> Result<(), AllocError>
    ensures { AppendsOnOk out.old out.new result (crl_line row.now octets) }
{
    let (number, this_update) = (Cell::Number(row.number), Cell::At(row.this_update));
    put_fields(out, "crl", &[number, this_update, Cell::Number(octets)])
}

#[tactic(auto, unfolding(crate::specs::FeedLines::feed_line))]
fn put_fields(out: &mut Vec<u8>, word: &str, fields: &[Cell]) -> Result<(), AllocError>
    ensures { AppendsOnOk out.old out.new result (feed_line word.now fields.now) }
{
    out.extend_from_slice(word.as_bytes())?;
    put_each(out, fields)?;
    out.push(b'\n')?;
    Ok(())
}

fn put_each(out: &mut Vec<u8>, fields: &[Cell]) -> Result<(), AllocError>
    ensures { AppendsOnOk out.old out.new result (flat_map field_text fields.now) }
{
    for field in fields {
        out.push(b' ')?;
        put_plain(out, field)?;
    }
    Ok(())
}

/// The lines before the rows: the feed's version, 1; the issuer; the policy (lives of CRLs and OCSP answers in seconds, most rows of a table); the
/// schedule of longest validities; `last`, the moment of the last accepted command. `stored_name` (the issuer's Name, then any key identifiers) and
/// `key` are the columns `name` and `pubkey` of the table `office`.
#[tactic(auto, unfolding(crate::specs::FeedLines::page_head))]
pub fn put_head(
    alloc: Global,
    out: &mut Vec<u8>,
    stored_name: &[u8],
    key: &[u8],
    policy: &Policy,
    last: Moment,
) -> Result<(), AllocError>
    ensures { AppendsOnOk out.old out.new result (page_head stored_name.now key.now policy.now last) }
{
    out.extend_from_slice(b"changes 1\n")?;
    put_issuer(alloc, out, stored_name, key)?;
    put_policy(out, policy)?;
    put_schedule(out, policy.schedule().steps())?;
    put_fields(out, "last", &[Cell::At(last)])
}

/// The line of the issuer, in hexadecimal digits. The text that `digest_of` hashes (`feed.rt`) has it too, but there `stored_name` is the Name alone.
#[tactic(auto, unfolding(crate::specs::FeedLines::issuer_line))]
pub(crate) fn put_issuer(
    alloc: Global,
    out: &mut Vec<u8>,
    stored_name: &[u8],
    key: &[u8],
) -> Result<(), AllocError>
    ensures { AppendsOnOk out.old out.new result (issuer_line stored_name.now key.now) }
{
    out.extend_from_slice(b"issuer ")?;
    let name_digits = hex::encode(alloc, stored_name)?;
    out.extend_from_slice(name_digits.as_bytes())?;
    out.push(b' ')?;
    let key_digits = hex::encode(alloc, key)?;
    out.extend_from_slice(key_digits.as_bytes())?;
    out.push(b'\n')?;
    Ok(())
}

fn put_policy(out: &mut Vec<u8>, policy: &Policy) -> Result<(), AllocError>
    ensures { AppendsOnOk out.old out.new result (policy_line policy.now) }
{
    let (crl_life, ocsp_life) = (policy.crl_life(), policy.ocsp_life());
    put_fields(
        out,
        "policy",
        &[
            Cell::Number(crl_life),
            Cell::Number(ocsp_life),
            Cell::Number(policy.cap()),
        ],
    )
}

#[tactic(auto, unfolding(crate::specs::FeedLines::schedule_line))]
fn put_schedule(out: &mut Vec<u8>, steps: &[(Moment, u64)]) -> Result<(), AllocError>
    ensures { AppendsOnOk out.old out.new result (schedule_line steps.now) }
{
    out.extend_from_slice(b"schedule")?;
    put_steps(out, steps)?;
    out.push(b'\n')?;
    Ok(())
}

fn put_steps(out: &mut Vec<u8>, steps: &[(Moment, u64)]) -> Result<(), AllocError>
    ensures { AppendsOnOk out.old out.new result (flat_map step_text steps.now) }
{
    for step in steps {
        put_step(out, step.0, step.1)?;
    }
    Ok(())
}

/// A step: a space, the moment from which it holds, `=`, and the longest validity in days.
fn put_step(out: &mut Vec<u8>, from: Moment, days: u64) -> Result<(), AllocError>
    ensures { AppendsOnOk out.old out.new result (step_text (from, days)) }
{
    out.push(b' ')?;
    out.extend_from_slice(&from.text())?;
    out.push(b'=')?;
    out.extend_from_slice(Decimal::of(days).as_bytes())
}
