//! The health of an open register, for `GET /health`: what fails, and since when.

ghost use Rattle.std.specs.Prelude.{◌≡◌, ◌++◌, IfOk, OnOk};
ghost use Rattle.reg_desk_metrics.specs.Healths.{clock_failing_since as clock_spec, crl_since as crl_since_spec, crl_text as crl_spec, is_crl_due_at_once as due_at_once, health_members, health_of, health_text, is_unconfirmed_late_at, is_none as is_without, is_filling as fills, is_well as all_well, if_past as past_spec, member, rows_since as rows_spec, signers_text, since_text, status_member, store_since_at as store_spec};

use crate::ahead::is_ahead;
use crate::numbers::NumbersResult;
use crate::tally::Tally;
use reg_core::{Fault, Moment, Refusal};
use reg_office_api::{RegisterSummary, TableSizes};
use std::alloc::{AllocError, Global};

/// After how many seconds without a follower's confirmation a desk is not healthy.
const CONFIRMATION_SECONDS: u64 = 10;

/// What fails in an open register. A field is the moment since when its part fails, or the moment in its comment; `None` if the part doesn't fail.
#[derive(Clone, Copy, PartialEq, Eq)]
pub struct Health {
    /// If the clock is behind the last command: that command's moment. If it `is_ahead` (over 30 days) or not before `CLOCK_END` (9999-12-22): now.
    pub(crate) clock: Option<Moment>,
    /// The next CRL is due at once (`Numbers::due` is `None`): there is none yet, or the latest has a placeholder digest and a key now signs CRLs.
    pub(crate) is_crl_due_at_once: bool,
    /// The moment when the next CRL became due, if it is past.
    pub(crate) crl: Option<Moment>,
    pub(crate) crl_signer: Option<Moment>,
    pub(crate) ocsp_signer: Option<Moment>,
    /// Now, if less than a fifth of the cap (the most rows of a table) is left in a table.
    pub(crate) rows: Option<Moment>,
    pub(crate) store: Option<Moment>,
    /// Whether replies to commands wait for followers; the moment of the first command for which one waits; whether that was ten seconds ago.
    pub(crate) waits_for_followers: bool,
    pub(crate) unconfirmed: Option<Moment>,
    pub(crate) is_unconfirmed_late: bool,
}

impl Health {
    /// The health at `now`. `found` has the register's numbers, or why they can't be read; `tally` has the desk's counters; `accepted` is the moment
    /// that the operator accepted with `accept-clock`, if any.
    pub fn of(now: Moment, found: &NumbersResult, tally: &Tally, accepted: Option<Moment>) -> Health
        ensures { result ≡ health_of now found.now tally.now accepted }
    {
        Health {
            clock: clock_failing_since(now, found, accepted),
            is_crl_due_at_once: is_crl_due_at_once(found),
            crl: crl_since(now, found),
            crl_signer: tally.crls.failing_since,
            ocsp_signer: tally.ocsp.failing_since,
            rows: rows_failing_since(now, found),
            store: store_failing_since(now, found, tally.store_failing_since),
            waits_for_followers: tally.waits_for_followers,
            unconfirmed: tally.unconfirmed_since,
            is_unconfirmed_late: is_late(now, tally.unconfirmed_since),
        }
    }

    /// Whether nothing fails: then `GET /health` has status 200, else 503.
    pub fn is_well(&self) -> bool
        ensures { result ≡ all_well self.now }
    {
        is_none(self.clock)
            && !self.is_crl_due_at_once
            && is_none(self.crl)
            && is_none(self.crl_signer)
            && is_none(self.ocsp_signer)
            && is_none(self.rows)
            && is_none(self.store)
            && !self.is_unconfirmed_late
    }

    /// The body of the answer to `GET /health`, in JSON (RFC 8259). Each member but `status` is its field's moment or null; `crl` can be `"at-once"`.
    #[tactic(auto, unfolding(crate::specs::Healths::health_text))]
    pub fn text(&self, alloc: Global) -> Result<Vec<u8>, AllocError>
        ensures { IfOk result (λ text. text.items ≡ health_text self.now) }
    {
        let mut text = Vec::new(alloc);
        self.put_members(&mut text, self.is_well())?;
        if self.waits_for_followers {
            put_member(&mut text, b",\"unconfirmed\":", self.unconfirmed)?;
        }
        text.push(b'}')?;
        Ok(text)
    }

    /// Appends the opening brace and the members. `is_well` decides `status`.
    #[tactic(auto, unfolding(crate::specs::Healths::health_members))]
    pub(crate) fn put_members(&self, text: &mut Vec<u8>, is_well: bool) -> Result<(), AllocError>
        ensures { OnOk result (text.new.items ≡ text.old.items ++ health_members self.now is_well) }
    {
        text.extend_from_slice(b"{\"clock\":")?;
        put_since(text, self.clock)?;
        put_crl(text, self.is_crl_due_at_once, self.crl)?;
        put_signers(text, self.crl_signer, self.ocsp_signer)?;
        put_member(text, b",\"rows\":", self.rows)?;
        put_status(text, is_well)?;
        put_since(text, self.store)
    }
}

/// Whether a moment was at least ten seconds ago.
fn is_late(now: Moment, since: Option<Moment>) -> bool
    ensures { result ≡ is_unconfirmed_late_at now since }
{
    match since {
        Some(since) => now.secs().saturating_sub(since.secs()) >= CONFIRMATION_SECONDS,
        None => false,
    }
}

fn is_none(moment: Option<Moment>) -> bool
    ensures { result ≡ is_without moment }
{
    match moment {
        Some(_) => false,
        None => true,
    }
}

/// As `Health::clock`. `found` is the refusal `ClockBack` if the clock is behind; it is another refusal (`ClockEnd`) only from `CLOCK_END` on.
fn clock_failing_since(
    now: Moment,
    found: &NumbersResult,
    accepted: Option<Moment>,
) -> Option<Moment>
    ensures { result ≡ clock_spec now found.now accepted }
{
    match *found {
        Ok(numbers) if is_ahead(now, numbers.summary.last, accepted) => Some(now),
        Err(Fault::Refused(Refusal::ClockBack { last })) => Some(last),
        Err(Fault::Refused(_)) => Some(now),
        _ => None,
    }
}

fn is_crl_due_at_once(found: &NumbersResult) -> bool
    ensures { result ≡ due_at_once found.now }
{
    match found {
        Ok(numbers) => is_none(numbers.due),
        Err(_) => false,
    }
}

fn crl_since(now: Moment, found: &NumbersResult) -> Option<Moment>
    ensures { result ≡ crl_since_spec now found.now }
{
    match found {
        Ok(numbers) => past(now, numbers.due),
        Err(_) => None,
    }
}

fn past(now: Moment, due: Option<Moment>) -> Option<Moment>
    ensures { result ≡ past_spec now due }
{
    match due {
        Some(at) => { if at < now { Some(at) } else { None } }
        None => None,
    }
}

fn rows_failing_since(now: Moment, found: &NumbersResult) -> Option<Moment>
    ensures { result ≡ rows_spec now found.now }
{
    match found {
        Ok(numbers) if is_filling(&numbers.summary) => Some(now),
        _ => None,
    }
}

fn is_filling(summary: &RegisterSummary) -> bool
    ensures { result ≡ fills summary.now }
{
    let TableSizes {
        subscribers,
        orders,
        certificates,
        requests,
        crls,
    } = summary.rows;
    let most = subscribers
        .max(orders)
        .max(certificates)
        .max(requests)
        .max(crls);
    summary.cap.saturating_sub(most) < summary.cap / 5
}

/// Since when the store fails: `since`, from the tally. If that is `None`: now if the numbers can't be read (a refusal doesn't count), else `None`.
fn store_failing_since(now: Moment, found: &NumbersResult, since: Option<Moment>) -> Option<Moment>
    ensures { result ≡ store_spec now found.now since }
{
    match *found {
        Ok(_) => since,
        Err(Fault::Refused(_)) => since,
        Err(_) => since.or(Some(now)),
    }
}

fn put_since(text: &mut Vec<u8>, since: Option<Moment>) -> Result<(), AllocError>
    ensures { OnOk result (text.new.items ≡ text.old.items ++ since_text since) }
{
    match since {
        None => text.extend_from_slice(b"null"),
        Some(at) => {
            text.push(b'"')?;
            text.extend_from_slice(&at.text())?;
            text.push(b'"')?;
            Ok(())
        }
    }
}

#[tactic(auto, unfolding(crate::specs::Healths::crl_text))]
fn put_crl(
    text: &mut Vec<u8>,
    is_crl_due_at_once: bool,
    crl: Option<Moment>,
) -> Result<(), AllocError>
    ensures { OnOk result (text.new.items ≡ text.old.items ++ crl_spec is_crl_due_at_once crl) }
{
    text.extend_from_slice(b",\"crl\":")?;
    if is_crl_due_at_once {
        return text.extend_from_slice(b"\"at-once\"");
    }
    put_since(text, crl)
}

#[tactic(auto, unfolding(crate::specs::Healths::signers_text))]
fn put_signers(
    text: &mut Vec<u8>,
    crl: Option<Moment>,
    ocsp: Option<Moment>,
) -> Result<(), AllocError>
    ensures { OnOk result (text.new.items ≡ text.old.items ++ signers_text crl ocsp) }
{
    put_member(text, b",\"crl_signer\":", crl)?;
    put_member(text, b",\"ocsp_signer\":", ocsp)
}

fn put_member(text: &mut Vec<u8>, name: &[u8], since: Option<Moment>) -> Result<(), AllocError>
    ensures { OnOk result (text.new.items ≡ text.old.items ++ member name.now since) }
{
    text.extend_from_slice(name)?;
    put_since(text, since)
}

/// Appends the member `status`, and the name of the next member, `store`. The caller appends the value of `store`.
#[tactic(auto, unfolding(crate::specs::Healths::status_member))]
fn put_status(text: &mut Vec<u8>, is_well: bool) -> Result<(), AllocError>
    ensures { OnOk result (text.new.items ≡ text.old.items ++ status_member is_well) }
{
    if is_well {
        return text.extend_from_slice(b",\"status\":\"ok\",\"store\":");
    }
    text.extend_from_slice(b",\"status\":\"failing\",\"store\":")
}
