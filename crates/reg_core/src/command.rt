use crate::label::Label;
use crate::moment::Moment;
use crate::refusal::Fault;
use crate::serial::Serial;

/// A command, which changes the register. `Crl` issues the next CRL. The fields `subscriber`, `order` and `request` are ids.
#[derive(Clone, Copy, PartialEq, Eq)]
pub enum Command {
    Subscriber {
        name: Label,
    },
    /// Enters a subscriber's order for one certificate; `days` is the certificate's longest validity.
    Order {
        subscriber: u64,
        days: u64,
    },
    /// Registers the certificate that fills an order.
    Register {
        order: u64,
        serial: Serial,
        not_before: Moment,
        not_after: Moment,
    },
    /// Enters a request for revocation, on the ground with this name.
    Request {
        serial: Serial,
        ground: Label,
    },
    Decline {
        request: u64,
    },
    Revoke {
        request: u64,
    },
    Crl,
}

/// A query, which reads the register and changes nothing. `Listing`: which CRLs list a serial number. `Overdue`: the open requests past their
/// deadline (open: not declined, and the certificate neither revoked nor expired). `NextCrl`: when the next CRL is due.
#[derive(Clone, Copy, PartialEq, Eq)]
pub enum Query {
    Status(Serial),
    Counts,
    Listing(Serial),
    Overdue,
    NextCrl,
}

/// The status of a serial number at a moment. `Unknown`: no registered certificate has it. `Good`: registered, not revoked, and not past notAfter,
/// even if before notBefore. `Revoked`: since the moment `at`, permanently; `reason` is the reasonCode (RFC 5280 5.3.1).
#[derive(Clone, Copy, PartialEq, Eq)]
pub enum Status {
    Unknown,
    Good,
    /// Registered, not revoked, and past notAfter.
    Expired,
    Revoked { at: Moment, reason: u8 },
}

/// How many registered certificates have each status.
#[derive(Clone, Copy, PartialEq, Eq)]
pub struct Counts {
    pub good: u64,
    pub revoked: u64,
    pub expired: u64,
}

/// Which CRLs list a revoked serial number. `first`: the first one's number, even if not issued yet. `last`: the last one's, `None` until issued.
#[derive(Clone, Copy, PartialEq, Eq)]
pub struct Listing {
    pub first: u64,
    pub last: Option<u64>,
}

/// The open requests past their deadline: `count` is how many there are (at least one), `first` the lowest of their ids.
#[derive(Clone, Copy, PartialEq, Eq)]
pub struct Overdue {
    pub count: u64,
    pub first: u64,
}

/// The reply to an accepted command or a query. `due`: a request's deadline; `late`: the revocation was after it; `entries`: how many the CRL has.
#[derive(Clone, Copy, PartialEq, Eq)]
pub enum Reply {
    Subscriber { id: u64 },
    Order { id: u64 },
    Registered,
    /// The certificate of `Register` was registered already, equal in all fields.
    Same,
    Request { id: u64, due: Moment },
    Declined,
    Revoked { late: bool },
    Crl { number: u64, entries: u64 },
    Status(Status),
    Counts(Counts),
    /// `None`: the serial number is registered and not revoked.
    Listing(Option<Listing>),
    /// `None`: no request is overdue.
    Overdue(Option<Overdue>),
    /// `None`: no CRL was issued, so the next one is due at once.
    NextCrl(Option<Moment>),
}

/// The reply to a command or query, or why there is none: a refusal or a failure.
pub type Outcome = Result<Reply, Fault>;
