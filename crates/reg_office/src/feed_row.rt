//! A row of the changes feed, and the command that enters it.

ghost use Rattle.std.specs.Prelude.{◌≡◌, ◌≢◌, ◌↔◌, ℕ, IsTrue};
ghost use Rattle.reg_core.specs.Changes.{changed_by};
ghost use Rattle.reg_core.specs.Records.{Records};
ghost use Rattle.reg_core.specs.declared.command.Command.TheVariants.{Crl as IssueCrl};
ghost use Rattle.reg_office.specs.Replays.{with_feed_row};

use reg_core::{
    CertRow, Change, Command, Moment, OrderRow, RequestRow, RevocationRow, SubscriberRow,
};
use reg_core_lists::ground_word;
use reg_office_api::FeedPart;

/// A row of the changes feed, without CRLs.
#[derive(Clone, Copy)]
pub(crate) enum FeedRow {
    Subscriber(SubscriberRow),
    Order(OrderRow),
    Certificate(CertRow),
    Request(RequestRow),
    /// The request with this id is declined.
    Declined(u64),
    Revocation(RevocationRow),
}

impl FeedRow {
    /// The command that enters the row. A request's row has its ground as a value; the command has the ground's name (`ground_word`).
    pub(crate) fn command(&self) -> Command
        ensures no_crl { result ≢ IssueCrl }
    {
        match *self {
            FeedRow::Subscriber(row) => Command::Subscriber { name: row.name },
            FeedRow::Order(row) => Command::Order {
                subscriber: row.subscriber,
                days: row.days,
            },
            FeedRow::Certificate(row) => Command::Register {
                order: row.order,
                serial: row.serial,
                not_before: row.not_before,
                not_after: row.not_after,
            },
            FeedRow::Request(row) => Command::Request {
                serial: row.serial,
                ground: ground_word(row.ground),
            },
            FeedRow::Declined(id) => Command::Decline { request: id },
            FeedRow::Revocation(row) => Command::Revoke {
                request: row.request,
            },
        }
    }

    /// Whether the change enters this row.
    pub(crate) fn is_entered_by(&self, change: &Change<'_>) -> bool
        ensures { IsTrue result → (records : Records) (now : ℕ)
            → changed_by records now change.now ≡ with_feed_row records now self.now }
    {
        match *self {
            FeedRow::Subscriber(row) => enters_subscriber(change, &row),
            FeedRow::Order(row) => enters_order(change, &row),
            FeedRow::Certificate(row) => enters_certificate(change, &row),
            FeedRow::Request(row) => enters_request(change, &row),
            FeedRow::Declined(id) => enters_decline(change, id),
            FeedRow::Revocation(row) => enters_revocation(change, &row),
        }
    }

    /// The moment of the command, if the row has it, or else the moment `before`, which the commands before it have reached.
    pub(crate) fn moment(&self, before: Moment) -> Moment {
        match *self {
            FeedRow::Request(row) => row.received,
            FeedRow::Revocation(row) => row.at,
            _ => before,
        }
    }

    /// The id or number of the row, as a [`reg_office_api::BrokenFeed`] has it.
    pub(crate) fn number(&self) -> u64 {
        match *self {
            FeedRow::Subscriber(row) => row.id,
            FeedRow::Order(row) => row.id,
            FeedRow::Certificate(row) => row.order,
            FeedRow::Request(row) => row.id,
            FeedRow::Declined(id) => id,
            FeedRow::Revocation(row) => row.request,
        }
    }

    pub(crate) fn part(&self) -> FeedPart {
        match *self {
            FeedRow::Subscriber(_) => FeedPart::Subscriber,
            FeedRow::Order(_) => FeedPart::Order,
            FeedRow::Certificate(_) => FeedPart::Certificate,
            FeedRow::Request(_) => FeedPart::Request,
            FeedRow::Declined(_) => FeedPart::Declined,
            FeedRow::Revocation(_) => FeedPart::Revocation,
        }
    }
}

// ---- whether a change enters a row: field by field, so that the prover sees equal rows

fn enters_subscriber(change: &Change<'_>, row: &SubscriberRow) -> bool
    ensures { IsTrue result ↔ (change.now ≡ Change.Subscriber row.now) }
{
    match *change {
        Change::Subscriber(decided) => {
            decided.id == row.id && decided.name.as_bytes() == row.name.as_bytes()
        }
        _ => false,
    }
}

fn enters_order(change: &Change<'_>, row: &OrderRow) -> bool
    ensures { IsTrue result ↔ (change.now ≡ Change.Order row.now) }
{
    match *change {
        Change::Order(decided) => {
            decided.id == row.id && decided.subscriber == row.subscriber && decided.days == row.days
        }
        _ => false,
    }
}

fn enters_certificate(change: &Change<'_>, row: &CertRow) -> bool
    ensures { IsTrue result ↔ (change.now ≡ Change.Certificate row.now) }
{
    match *change {
        Change::Certificate(decided) => {
            decided.serial == row.serial
                && decided.order == row.order
                && decided.not_before == row.not_before
                && decided.not_after == row.not_after
        }
        _ => false,
    }
}

fn enters_request(change: &Change<'_>, row: &RequestRow) -> bool
    ensures { IsTrue result ↔ (change.now ≡ Change.Request row.now) }
{
    match *change {
        Change::Request(decided) => {
            decided.id == row.id
                && decided.serial == row.serial
                && decided.ground == row.ground
                && decided.received == row.received
                && decided.declined == row.declined
        }
        _ => false,
    }
}

fn enters_decline(change: &Change<'_>, id: u64) -> bool
    ensures { IsTrue result ↔ (change.now ≡ Change.Decline id) }
{
    match *change {
        Change::Decline(decided) => decided == id,
        _ => false,
    }
}

/// The change also has the certificate's notAfter. A revocation's row in the feed lacks it, so it is not compared.
fn enters_revocation(change: &Change<'_>, row: &RevocationRow) -> bool
    ensures { IsTrue result ↔ ((not_after : ℕ) × (change.now ≡ Change.Revocation row.now not_after)) }
{
    match *change {
        Change::Revocation(decided, _) => {
            decided.serial == row.serial
                && decided.at == row.at
                && decided.reason == row.reason
                && decided.request == row.request
                && decided.first == row.first
        }
        _ => false,
    }
}
