//! The rows of lists. A `Listing` has the numbers of the first and the last CRL that list a serial number.

ghost use Rattle.std.specs.Prelude.{◌≡◌, ◌-◌, ◌≤◌, Some, None, cond, nat_lt, option_map, IfErr, IfOk};
ghost use Rattle.reg_core.specs.Calendar.{clock_end};
ghost use Rattle.reg_core.specs.Due.{deadline};
ghost use Rattle.reg_core.specs.Queries.{listing};
ghost use Rattle.reg_core.specs.Records.{certificate_in, order_in, request_in, revocation_in, subscriber_in};
ghost use Rattle.reg_core.specs.Status.{is_good, status_by};
ghost use Rattle.reg_core_lists.specs.Lists.{listed_certificate, certificate_row, expiring_row, history_row, lateness_of, open_row, open_until, order_row, overdue_row, listed_request, revoked_row, status_at, subscriber_of_order};
ghost use Rattle.reg_core_lists.specs.declared.rows.Row.TheVariants as kind;
ghost use Rattle.reg_store_tables.specs.LookUps.{Learns, LooksUp};

use reg_core::{
    CertRow, Listing, Moment, OrderRow, RequestRow, RevocationRow, Serial, Status, SubscriberRow,
    status_of,
};
use reg_core_lists::{
    ListedCertificate, ListedOrder, ListedRequest, ListedRevocation, RequestWithState, Row,
};
use reg_store_tables::{DatabaseFault, Tables};
use sqlite::Alter;

// Functions `.._at` look up a record that a register has, because another record refers to it or a page reads its id. If it is missing: `Store`.

pub(crate) fn subscriber_at<C: Alter>(
    tables: &mut Tables<C>,
    id: u64,
) -> Result<SubscriberRow, DatabaseFault>
    ensures { Learns C.Store tables.old tables.new result (λ records row.
        Some row ≡ subscriber_in records.subscribers id) }
{
    let subscriber = tables.subscriber(id)?;
    subscriber.ok_or(DatabaseFault::Store)
}

pub(crate) fn order_at<C: Alter>(tables: &mut Tables<C>, id: u64) -> Result<OrderRow, DatabaseFault>
    ensures { Learns C.Store tables.old tables.new result (λ records row.
        Some row ≡ order_in records.orders id) }
{
    let order = tables.order(id)?;
    order.ok_or(DatabaseFault::Store)
}

fn certificate_at<C: Alter>(
    tables: &mut Tables<C>,
    serial: Serial,
) -> Result<CertRow, DatabaseFault>
    ensures { Learns C.Store tables.old tables.new result (λ records row.
        Some row ≡ certificate_in records.certificates serial) }
{
    let certificate = tables.cert(serial)?;
    certificate.ok_or(DatabaseFault::Store)
}

pub(crate) fn request_at<C: Alter>(
    tables: &mut Tables<C>,
    id: u64,
) -> Result<RequestRow, DatabaseFault>
    ensures { Learns C.Store tables.old tables.new result (λ records row.
        Some row ≡ request_in records.requests id) }
{
    let request = tables.request(id)?;
    request.ok_or(DatabaseFault::Store)
}

/// The subscriber of the order with this id.
fn subscriber_of<C: Alter>(tables: &mut Tables<C>, id: u64) -> Result<SubscriberRow, DatabaseFault>
    ensures { Learns C.Store tables.old tables.new result (λ records subscriber.
        Some subscriber ≡ subscriber_of_order records id) }
{
    let order = order_at(tables, id)?;
    subscriber_at(tables, order.subscriber)
}

fn listing_of<C: Alter>(
    tables: &mut Tables<C>,
    serial: Serial,
    revocation: &Option<RevocationRow>,
) -> Result<Option<Listing>, DatabaseFault>
    ensures { LooksUp C.Store tables.old tables.new (λ records.
        revocation.now ≡ revocation_in records.revocations serial
        → IfOk result (λ found. found ≡ listing records serial)) }
{
    match revocation {
        Some(_) => tables.listing(serial),
        None => Ok(None),
    }
}

fn listed_certificate_from(
    now: Moment,
    certificate: &CertRow,
    revocation: Option<RevocationRow>,
    subscriber: SubscriberRow,
    listing: Option<Listing>,
) -> ListedCertificate
    ensures { result ≡ record {
      certificate = certificate.now;
      subscriber = subscriber;
      status = status_by now (Some certificate.now) revocation;
      listing = listing;
    } }
{
    let status = status_of(now, Some(*certificate), revocation);
    ListedCertificate {
        certificate: *certificate,
        subscriber,
        status,
        listing,
    }
}

fn listed_certificate<C: Alter>(
    tables: &mut Tables<C>,
    now: Moment,
    certificate: CertRow,
) -> Result<ListedCertificate, DatabaseFault>
    ensures { Learns C.Store tables.old tables.new result (λ records listed.
        Some listed ≡ listed_certificate records now certificate) }
{
    let revocation = tables.revocation(certificate.serial)?;
    let subscriber = subscriber_of(tables, certificate.order)?;
    let listing = listing_of(tables, certificate.serial, &revocation)?;
    Ok(listed_certificate_from(now, &certificate, revocation, subscriber, listing))
}

pub(crate) fn certificate_row<C: Alter>(
    tables: &mut Tables<C>,
    now: Moment,
    certificate: CertRow,
) -> Result<Option<Row>, DatabaseFault>
    ensures { Learns C.Store tables.old tables.new result (λ records row.
        row ≡ certificate_row records now certificate) }
{
    let listed = listed_certificate(tables, now, certificate)?;
    Ok(Some(Row::Certificate(listed)))
}

/// The row of a certificate in the list of good ones whose notAfter is before a moment; `None` if the list does not select it.
pub(crate) fn expiring_row<C: Alter>(
    tables: &mut Tables<C>,
    now: Moment,
    before: Moment,
    certificate: CertRow,
) -> Result<Option<Row>, DatabaseFault>
    ensures { Learns C.Store tables.old tables.new result (λ records row.
        row ≡ expiring_row records now before certificate) }
{
    if ends_before(&certificate, before) {
        good_row(tables, now, certificate)
    } else {
        Ok(None)
    }
}

fn ends_before(certificate: &CertRow, moment: Moment) -> bool
    ensures { result ≡ nat_lt certificate.now.not_after moment }
{
    certificate.not_after < moment
}

fn good_row<C: Alter>(
    tables: &mut Tables<C>,
    now: Moment,
    certificate: CertRow,
) -> Result<Option<Row>, DatabaseFault>
    ensures { Learns C.Store tables.old tables.new result (λ records row.
        row ≡ cond (is_good (status_at records now certificate))
        (certificate_row records now certificate) None) }
{
    let listed = listed_certificate(tables, now, certificate)?;
    Ok(row_if_good(listed))
}

fn row_if_good(listed: ListedCertificate) -> Option<Row>
    ensures { result ≡ cond (is_good listed.status) (Some (kind.Certificate listed)) None }
{
    match listed.status {
        Status::Good => Some(Row::Certificate(listed)),
        _ => None,
    }
}

/// The row of a revocation in the list of revoked certificates: its certificate, and the request that led to it, with the deadline.
pub(crate) fn revoked_row<C: Alter>(
    tables: &mut Tables<C>,
    now: Moment,
    revocation: RevocationRow,
) -> Result<Option<Row>, DatabaseFault>
    ensures { Learns C.Store tables.old tables.new result (λ records row.
        row ≡ revoked_row records now revocation) }
{
    let request = request_at(tables, revocation.request)?;
    let registered = certificate_at(tables, revocation.serial)?;
    let certificate = listed_certificate(tables, now, registered)?;
    let due = due_of(&request)?;
    Ok(Some(Row::Revoked(ListedRevocation {
        certificate,
        revocation,
        request,
        due,
    })))
}

/// The row of a request in the list of open ones; `None` if it is declined, or its certificate is not good.
pub(crate) fn open_row<C: Alter>(
    tables: &mut Tables<C>,
    now: Moment,
    request: RequestRow,
) -> Result<Option<Row>, DatabaseFault>
    ensures { Learns C.Store tables.old tables.new result (λ records row.
        row ≡ open_row records now request) }
{
    if request.declined {
        return Ok(None);
    }
    let certificate = certificate_at(tables, request.serial)?;
    let revocation = tables.revocation(request.serial)?;
    if is_good(now, &certificate, revocation) {
        let listed = listed_request(tables, &request, &certificate)?;
        Ok(Some(Row::Request(listed)))
    } else {
        Ok(None)
    }
}

fn is_good(now: Moment, certificate: &CertRow, revocation: Option<RevocationRow>) -> bool
    ensures { result ≡ is_good (status_by now (Some certificate.now) revocation) }
{
    matches!(status_of(now, Some(*certificate), revocation), Status::Good)
}

fn listed_request<C: Alter>(
    tables: &mut Tables<C>,
    request: &RequestRow,
    certificate: &CertRow,
) -> Result<ListedRequest, DatabaseFault>
    ensures { LooksUp C.Store tables.old tables.new (λ records.
        Some certificate.now ≡ certificate_in records.certificates request.now.serial
        → IfOk result (λ listed. Some listed ≡ listed_request records request.now)) }
{
    let due = due_of(request)?;
    let subscriber = subscriber_of(tables, certificate.order)?;
    Ok(ListedRequest {
        request: *request,
        due,
        certificate: *certificate,
        subscriber,
    })
}

/// The deadline of a request. `Store` if it was received at `CLOCK_END` (9999-12-22) or later: a register has no such request.
fn due_of(request: &RequestRow) -> Result<Moment, DatabaseFault>
    ensures due { IfOk result (λ due. due ≡ deadline request.now) }
    ensures late { IfErr result (λ why. (why ≡ DatabaseFault.Store) × (clock_end ≤ request.now.received)) }
{
    if request.received >= Moment::CLOCK_END {
        return Err(DatabaseFault::Store);
    }
    Ok(request.deadline())
}

/// The row of a request in the list of overdue ones; `None` if it is not open, or its deadline is not past.
pub(crate) fn overdue_row<C: Alter>(
    tables: &mut Tables<C>,
    now: Moment,
    request: RequestRow,
) -> Result<Option<Row>, DatabaseFault>
    ensures { Learns C.Store tables.old tables.new result (λ records row.
        row ≡ overdue_row records now request) }
{
    let due = due_of(&request)?;
    if is_past(due, now) {
        open_row(tables, now, request)
    } else {
        Ok(None)
    }
}

fn is_past(due: Moment, now: Moment) -> bool
    ensures { result ≡ nat_lt due now }
{
    due < now
}

/// The row of a request in the list of all requests.
pub(crate) fn history_row<C: Alter>(
    tables: &mut Tables<C>,
    now: Moment,
    request: RequestRow,
) -> Result<Option<Row>, DatabaseFault>
    ensures { Learns C.Store tables.old tables.new result (λ records row.
        row ≡ history_row records now request) }
{
    let certificate = certificate_at(tables, request.serial)?;
    let revocation = tables.revocation(request.serial)?;
    let listed = listed_request(tables, &request, &certificate)?;
    let status = status_of(now, Some(certificate), revocation);
    let lateness = lateness_of(now, &request, &listed.certificate, &status)?;
    Ok(Some(Row::AnyRequest(RequestWithState {
        request: listed,
        status,
        lateness,
    })))
}

/// How many seconds a request was open after its deadline, or has been so far (0 if none); `None` if it was declined. `Store` as for [`due_of`].
fn lateness_of(
    now: Moment,
    request: &RequestRow,
    certificate: &CertRow,
    status: &Status,
) -> Result<Option<u64>, DatabaseFault>
    ensures { IfOk result (λ lateness. lateness ≡ lateness_of now request.now certificate.now status.now) }
{
    if request.declined {
        return Ok(None);
    }
    let due = due_of(request)?;
    let until = open_until(now, certificate, status);
    Ok(Some(until.secs().saturating_sub(due.secs())))
}

/// The moment until which an undeclined request was open (`now` if it still is). `Unknown` does not occur, because its certificate is registered.
fn open_until(now: Moment, certificate: &CertRow, status: &Status) -> Moment
    ensures { result ≡ open_until now certificate.now status.now }
{
    match status {
        Status::Revoked { at, reason: _ } => *at,
        Status::Expired => certificate.not_after,
        Status::Good | Status::Unknown => now,
    }
}

pub(crate) fn order_row<C: Alter>(
    tables: &mut Tables<C>,
    order: OrderRow,
) -> Result<Option<Row>, DatabaseFault>
    ensures { Learns C.Store tables.old tables.new result (λ records row. row ≡ order_row records order) }
{
    let subscriber = subscriber_at(tables, order.subscriber)?;
    let certificate = tables.cert_of_order(order.id)?;
    let serial = serial_in(certificate);
    Ok(Some(Row::Order(ListedOrder {
        order,
        subscriber,
        serial,
    })))
}

fn serial_in(certificate: Option<CertRow>) -> Option<Serial>
    ensures { result ≡ option_map (λ it. it.serial) certificate }
{
    match certificate {
        Some(certificate) => Some(certificate.serial),
        None => None,
    }
}
