use crate::moment::Moment;
use crate::rows::{CertRow, CrlRow, OrderRow, RequestRow, RevocationRow, SubscriberRow};

/// What an accepted command changes in the records: mostly the row that it adds. Each change also makes the command's moment the last accepted one.
/// `Revocation` also has the certificate's notAfter (it decides which CRL lists it last), and `Crl` the DER. `Decline` has a request's id.
#[derive(Clone, Copy)]
pub enum Change<'a> {
    /// Only the last accepted moment: `register` named a certificate that is registered already, or a copy takes the moment of a page of the feed.
    Touch,
    Subscriber(SubscriberRow),
    Order(OrderRow),
    Certificate(CertRow),
    Request(RequestRow),
    Decline(u64),
    Revocation(RevocationRow, Moment),
    Crl(CrlRow, &'a [u8]),
}
