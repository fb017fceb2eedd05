//! The rows of a register's tables, and the check that they are those of sound records (records that obey all rules of a register). No table may
//! have more than `cap` rows (`revocation` is not checked: it can't have more than `cert`). Ids and CRL numbers must be 1, 2, 3 and so on.

ghost use Rattle.std.specs.Prelude.{◌≡◌, ◌<◌, ◌==◌, List, OnOk, IfOk};
ghost use Rattle.std.specs.BTreeMap.{get};
ghost use Rattle.std.specs.List.{list_any};
ghost use Rattle.std.specs.Ordering.{nat_cmp};
ghost use Rattle.reg_core.specs.Calendar.{clock_end};
ghost use Rattle.reg_core.specs.Records.{Records};
ghost use Rattle.reg_core.specs.Reached.{ReachedRows, ReachedSubscribers, ReachedOrders, ReachedCertificates, ReachedRequests};
ghost use Rattle.reg_core.specs.Sound.{NumberedFrom};
ghost use Rattle.reg_audit.specs.Read.{AreCrls, AreOf, AreRevocations, Indexes, IsIndexOf, IsLastSet};
ghost use Rattle.reg_audit.specs.CheckFaults.{NotBrokenIf};

use crate::ascending::{are_at_most_last, firsts_never_decrease, in_order, moments_never_decrease};
use crate::check_fault::{CheckFault, broken_at, within_cap};
use crate::index::{
    certificates_by_order, certificates_by_serial, names_differ, revocations_by_request,
    revocations_by_serial,
};
use crate::relations::{
    are_as_ordered, are_in_time, no_request_after_revocation, revocations_fit, subscribers_exist,
};
use crate::single_rows::{days_are_allowed, names_are_good, validities_are_forward};
use reg_core::{
    CertRow, CrlRow, Defect, Moment, OrderRow, RegisterTable, RequestRow, RevocationRow, Serial,
    SubscriberRow,
};
use std::alloc::Global;
use std::collections::BTreeMap;

/// The rows of the records by rowid, CRLs without their bytes; the policy's most rows of a table, `cap`; and the last accepted moment, `last`.
#[derive(Clone, Copy)]
pub struct Rows<'a> {
    pub cap: u64,
    pub last: Moment,
    pub subscribers: &'a [SubscriberRow],
    pub orders: &'a [OrderRow],
    pub certificates: &'a [CertRow],
    pub requests: &'a [RequestRow],
    pub revocations: &'a [RevocationRow],
    pub crls: &'a [CrlRow],
}

fn check_subscribers(alloc: Global, rows: &[SubscriberRow], cap: u64) -> Result<(), CheckFault>
    ensures ok { OnOk result (ReachedSubscribers cap rows.now) }
    ensures broken { NotBrokenIf (ReachedSubscribers cap rows.now) result }
{
    within_cap(RegisterTable::Subscriber, rows.len(), cap)?;
    in_order(RegisterTable::Subscriber, rows)?;
    names_are_good(rows)?;
    names_differ(alloc, rows)
}

fn check_orders(
    subscribers: &[SubscriberRow],
    rows: &[OrderRow],
    cap: u64,
) -> Result<(), CheckFault>
    ensures ok { NumberedFrom (λ row. row.id) 1 subscribers.now
        → OnOk result (ReachedOrders cap subscribers.now rows.now) }
    ensures broken { NumberedFrom (λ row. row.id) 1 subscribers.now
        → NotBrokenIf (ReachedOrders cap subscribers.now rows.now) result }
{
    within_cap(RegisterTable::Orders, rows.len(), cap)?;
    in_order(RegisterTable::Orders, rows)?;
    subscribers_exist(rows, subscribers)?;
    days_are_allowed(rows)
}

/// `certificates_by_order` also reports a second certificate for an order; `certificates_by_serial`, one with the same serial number.
fn check_certificates(
    alloc: Global,
    orders: &[OrderRow],
    rows: &[CertRow],
    cap: u64,
) -> Result<BTreeMap<Serial, CertRow>, CheckFault>
    ensures ok { NumberedFrom (λ row. row.id) 1 orders.now
        → OnOk result (ReachedCertificates cap orders.now rows.now) }
    ensures found { IfOk result (λ found. Indexes (λ row. row.serial) rows.now (get nat_cmp found)) }
    ensures broken { NumberedFrom (λ row. row.id) 1 orders.now
        → NotBrokenIf (ReachedCertificates cap orders.now rows.now) result }
{
    within_cap(RegisterTable::Cert, rows.len(), cap)?;
    validities_are_forward(rows)?;
    are_as_ordered(rows, orders)?;
    certificates_by_order(alloc, rows)?;
    certificates_by_serial(alloc, rows)
}

/// `are_in_time` checks that each request's certificate exists, and was not past notAfter when the request was received.
fn check_requests(
    certificates: &BTreeMap<Serial, CertRow>,
    rows: &[RequestRow],
    last: Moment,
    cap: u64,
) -> Result<(), CheckFault>
    ensures ok { (registered : List CertRow)
        → Indexes (λ row. row.serial) registered (get nat_cmp certificates.now)
        → OnOk result (ReachedRequests cap last registered rows.now) }
    ensures broken { (registered : List CertRow)
        → Indexes (λ row. row.serial) registered (get nat_cmp certificates.now)
        → NotBrokenIf (ReachedRequests cap last registered rows.now) result }
{
    within_cap(RegisterTable::Request, rows.len(), cap)?;
    in_order(RegisterTable::Request, rows)?;
    are_at_most_last(RegisterTable::Request, rows, last)?;
    moments_never_decrease(RegisterTable::Request, rows, Defect::Earlier)?;
    are_in_time(rows, certificates)
}

fn check_crls(rows: &[CrlRow], last: Moment, cap: u64) -> Result<(), CheckFault>
    ensures ok { OnOk result (AreCrls cap last rows.now) }
    ensures broken { NotBrokenIf (AreCrls cap last rows.now) result }
{
    within_cap(RegisterTable::Crl, rows.len(), cap)?;
    in_order(RegisterTable::Crl, rows)?;
    moments_never_decrease(RegisterTable::Crl, rows, Defect::ThisUpdateDecreases)?;
    are_at_most_last(RegisterTable::Crl, rows, last)
}

/// `revocations_by_..` also report a second revocation for a request or serial number. `no_request_after_revocation` reports a request received
/// after the revocation.
fn check_revocations(
    alloc: Global,
    certificates: &BTreeMap<Serial, CertRow>,
    rows: &Rows<'_>,
) -> Result<BTreeMap<Serial, RevocationRow>, CheckFault>
    ensures ok { NumberedFrom (λ row. row.id) 1 rows.now.requests.now
        → OnOk result (AreRevocations (get nat_cmp certificates.now) rows.now) }
    ensures found { IfOk result
        (λ found. Indexes (λ row. row.serial) rows.now.revocations.now (get nat_cmp found)) }
    ensures broken { NumberedFrom (λ row. row.id) 1 rows.now.requests.now
        → NotBrokenIf (AreRevocations (get nat_cmp certificates.now) rows.now) result }
{
    revocations_fit(
        rows.revocations,
        certificates,
        rows.requests,
        rows.crls,
        rows.last,
    )?;
    moments_never_decrease(RegisterTable::Revocation, rows.revocations, Defect::Earlier)?;
    firsts_never_decrease(rows.revocations)?;
    revocations_by_request(alloc, rows.revocations)?;
    let revocations = revocations_by_serial(alloc, rows.revocations)?;
    no_request_after_revocation(rows.requests, &revocations)?;
    Ok(revocations)
}

fn check_last(last: Moment) -> Result<(), CheckFault>
    ensures ok { OnOk result (last < clock_end) }
    ensures broken { NotBrokenIf (last < clock_end) result }
{
    if last < Moment::CLOCK_END {
        Ok(())
    } else {
        Err(broken_at(RegisterTable::Office, 0, Defect::PastClockEnd))
    }
}

fn is_issued_at(crls: &[CrlRow], moment: Moment) -> bool
    ensures { result ≡ list_any (λ crl. crl.this_update == moment) crls.now }
{
    crls.iter().any(|crl| crl.this_update == moment)
}

/// Checks the last accepted moment of a register without subscribers: it is moment 0 or a CRL's thisUpdate, because only `crl` can have set it.
fn check_last_set(rows: &Rows<'_>) -> Result<(), CheckFault>
    ensures ok { OnOk result (IsLastSet rows.now) }
    ensures broken { NotBrokenIf (IsLastSet rows.now) result }
{
    let needs_no_crl = !rows.subscribers.is_empty() || rows.last == Moment::EPOCH;
    if needs_no_crl || is_issued_at(rows.crls, rows.last) {
        Ok(())
    } else {
        Err(broken_at(RegisterTable::Office, 0, Defect::NeverAccepted))
    }
}

#[derive(Drop)]
pub(crate) struct RowsBySerial {
    pub(crate) certificates: BTreeMap<Serial, CertRow>,
    pub(crate) revocations: BTreeMap<Serial, RevocationRow>,
}

/// Checks the records, table by table. The order matters: the check of orders, for example, relies on the ids of subscribers, checked before.
pub(crate) fn check_rows(alloc: Global, rows: &Rows<'_>) -> Result<RowsBySerial, CheckFault>
    ensures ok { (records : Records) → AreOf rows.now records → OnOk result (ReachedRows records) }
    ensures found { IfOk result (IsIndexOf rows.now) }
    ensures broken { (records : Records) → AreOf rows.now records → NotBrokenIf (ReachedRows records) result }
{
    check_last(rows.last)?;
    check_last_set(rows)?;
    check_subscribers(alloc, rows.subscribers, rows.cap)?;
    check_orders(rows.subscribers, rows.orders, rows.cap)?;
    let certificates = check_certificates(alloc, rows.orders, rows.certificates, rows.cap)?;
    check_requests(&certificates, rows.requests, rows.last, rows.cap)?;
    check_crls(rows.crls, rows.last, rows.cap)?;
    let revocations = check_revocations(alloc, &certificates, rows)?;
    Ok(RowsBySerial {
        certificates,
        revocations,
    })
}
