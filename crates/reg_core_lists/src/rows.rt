//! The rows of lists: records, and what a list shows with each. `due` is the deadline of the request, `subscriber` the one who ordered. A status is
//! that of the certificate at the moment for which the list is made.

use crate::cursor::Cursor;
use reg_core::{
    CertRow, CrlRow, Listing, Moment, OrderRow, RequestRow, RevocationRow, Serial, Status,
    SubscriberRow,
};

#[derive(Clone, Copy)]
pub struct ListedCertificate {
    pub certificate: CertRow,
    pub subscriber: SubscriberRow,
    pub status: Status,
    /// The CRLs that list the certificate, if it is revoked.
    pub listing: Option<Listing>,
}

#[derive(Clone, Copy)]
pub struct ListedRevocation {
    pub certificate: ListedCertificate,
    pub revocation: RevocationRow,
    /// The request that led to it.
    pub request: RequestRow,
    pub due: Moment,
}

#[derive(Clone, Copy)]
pub struct ListedRequest {
    pub request: RequestRow,
    pub due: Moment,
    pub certificate: CertRow,
    pub subscriber: SubscriberRow,
}

/// A request and its state at the moment for which the list is made.
#[derive(Clone, Copy)]
pub struct RequestWithState {
    pub request: ListedRequest,
    pub status: Status,
    /// For how many seconds after its deadline the request was open, up to the list's moment (0 if none). `None` if declined: no record says when.
    pub lateness: Option<u64>,
}

#[derive(Clone, Copy)]
pub struct ListedOrder {
    pub order: OrderRow,
    pub subscriber: SubscriberRow,
    /// The serial number of the certificate that fills the order, if there is one.
    pub serial: Option<Serial>,
}

/// A row of a list. `Certificate`: of `certificates` and `ending`. `Request`: of `open-requests` and `overdue`. `AnyRequest`: of `requests`.
#[derive(Clone, Copy)]
pub enum Row {
    Certificate(ListedCertificate),
    Revoked(ListedRevocation),
    Request(ListedRequest),
    AnyRequest(RequestWithState),
    Subscriber(SubscriberRow),
    Order(ListedOrder),
    Crl(CrlRow),
}

/// A page of a list: its rows in ascending order of their keys, and the cursor of the next page. `next` is `None` if fewer rows were read than a page
/// may read: then this page is the last. Otherwise there is a next page, which may be empty.
#[derive(Drop)]
pub struct Page {
    pub rows: Vec<Row>,
    pub next: Option<Cursor>,
}
