//! The rows of the register's tables. The ids of subscribers, of orders and of requests are 1, 2, 3 and so on, in the order of entry.

ghost use Rattle.std.specs.Prelude.{◌≡◌, ℕ, ◌<◌};
ghost use Rattle.reg_core.specs.Calendar.{clock_end};
ghost use Rattle.reg_core.specs.Due.{deadline};

use crate::grounds::Ground;
use crate::label::Label;
use crate::moment::Moment;
use crate::policy::Policy;
use crate::serial::Serial;

/// A subscriber, which orders certificates.
#[derive(Clone, Copy, PartialEq, Eq)]
pub struct SubscriberRow {
    pub id: u64,
    pub name: Label,
}

/// An order for one certificate. `subscriber` is the id of the subscriber who ordered, `days` the longest validity that was ordered.
#[derive(Clone, Copy, PartialEq, Eq)]
pub struct OrderRow {
    pub id: u64,
    pub subscriber: u64,
    pub days: u64,
}

/// A registered certificate (RFC 5280 4.1.2.2, 4.1.2.5). `order` is the id of the order that it fills, `not_after` its last valid second.
#[derive(Clone, Copy, PartialEq, Eq)]
pub struct CertRow {
    pub serial: Serial,
    pub order: u64,
    pub not_before: Moment,
    pub not_after: Moment,
}

/// A request for revocation, on a ground (why the certificate is to be revoked). `received` is the moment of the command that entered it.
#[derive(Clone, Copy, PartialEq, Eq)]
pub struct RequestRow {
    pub id: u64,
    pub serial: Serial,
    pub ground: Ground,
    pub received: Moment,
    pub declined: bool,
}

impl RequestRow {
    /// The last moment at which the request can be carried out without being late: its receipt plus its ground's `limit_secs`.
    pub fn deadline(&self) -> Moment
        requires { self.now.received < clock_end }
        ensures { result ≡ deadline self.now }
    {
        self.received.plus(self.ground.limit_secs())
    }
}

/// A revocation. `at` is its moment (revocationDate, RFC 5280 5.1.2.6), `reason` the reasonCode (5.3.1), `request` the id of the request that led to
/// it, and `first` the number of the first CRL that lists it, which may not be issued yet.
#[derive(Clone, Copy, PartialEq, Eq)]
pub struct RevocationRow {
    pub serial: Serial,
    pub at: Moment,
    pub reason: u8,
    pub request: u64,
    pub first: u64,
}

/// An issued CRL, without its bytes: its CRL number (RFC 5280 5.2.3), which is 1, 2, 3 and so on, and its thisUpdate (5.1.2.4).
#[derive(Clone, Copy, PartialEq, Eq)]
pub struct CrlRow {
    pub number: u64,
    pub this_update: Moment,
}

/// One entry of a CRL (revokedCertificates, RFC 5280 5.1.2.6): `at` is revocationDate, `reason` the reasonCode (5.3.1).
#[derive(Clone, Copy, PartialEq, Eq)]
pub struct Entry {
    pub serial: Serial,
    pub at: Moment,
    pub reason: u8,
}

/// What a decision (`decide.rt`) takes besides looked-up rows and the command's fields: the command's moment, `now`; the last accepted one, `last`;
/// the policy; and `held`, the number of rows in the table that would grow. `revoke` and `decline` use only the moments: they never get `Full`.
#[derive(Clone, Copy, PartialEq, Eq)]
pub struct Head {
    pub now: Moment,
    pub last: Moment,
    pub policy: Policy,
    pub held: u64,
}
