//! Checks of rows against other rows. A function named `.._defect` or `.._mismatch` gives `None` if there is nothing wrong.

ghost use Rattle.std.specs.Prelude.{◌≡◌, ◌+◌, ◌<◌, ◌≤◌, ◌==◌, ◌↔◌, find, IsTrue, OnOk};
ghost use Rattle.std.specs.BTreeMap.{get};
ghost use Rattle.std.specs.Ordering.{nat_cmp};
ghost use Rattle.reg_core.specs.Reached.{LeadsTo};
ghost use Rattle.reg_core.specs.Sound.{NumberedFrom};
ghost use Rattle.reg_audit.specs.Read.{AreAround, AreAsOrdered, AreBeforeRevocation, AreInTime, FitTogether, FitsIn, HaveSubscribers, IsAsOrdered, IsBefore, IsInTime};
ghost use Rattle.reg_audit.specs.CheckFaults.{NotBrokenIf, NoDefectIff};

use crate::ascending::Numbered;
use crate::check_fault::{CheckFault, broken_at};
use reg_core::{
    CertRow, CrlRow, Defect, Moment, OrderRow, RegisterTable, RequestRow, RevocationRow, Serial,
    SubscriberRow,
};
use std::collections::BTreeMap;

const SECONDS_OF_DAY: u64 = 86_400;

/// Whether a table of `rows` rows has one with this id: `in_order` has checked before that their ids are 1, 2, 3 and so on.
fn is_one_of(id: u64, rows: usize) -> bool
    ensures { IsTrue result ↔ ((1 ≤ id) × (id ≤ rows)) }
{
    id >= 1 && id <= rows as u64
}

pub(crate) fn subscribers_exist(
    orders: &[OrderRow],
    subscribers: &[SubscriberRow],
) -> Result<(), CheckFault>
    ensures ok { NumberedFrom (λ row. row.id) 1 subscribers.now
        → OnOk result (HaveSubscribers subscribers.now orders.now) }
    ensures broken { NumberedFrom (λ row. row.id) 1 subscribers.now
        → NotBrokenIf (HaveSubscribers subscribers.now orders.now) result }
{
    for (row_index, order) in orders.iter().enumerate() {
        if !is_one_of(order.subscriber, subscribers.len()) {
            return Err(broken_at(RegisterTable::Orders, row_index, Defect::NoSubscriber));
        }
    }
    Ok(())
}

/// The row with this id or CRL number, or `None`. Its index is one less: `in_order` has checked before that the numbers are 1, 2, 3 and so on.
fn row_with<T: Numbered + Copy>(rows: &[T], number: u64) -> Option<T>
    ensures { NumberedFrom T.number 1 rows.now → result ≡ find (λ row. T.number row == number) rows.now }
{
    let row_index = number.checked_sub(1)?;
    match rows.get(row_index as usize) {
        Some(row) => Some(*row),
        None => None,
    }
}

/// Why a certificate does not match its order (`None`: there is no such order). A validity includes the seconds of both notBefore and notAfter.
fn certificate_defect(certificate: &CertRow, order: Option<OrderRow>) -> Option<Defect>
    ensures { NoDefectIff (IsAsOrdered certificate.now order) result }
{
    let Some(order) = order else {
        return Some(Defect::NoOrder);
    };
    let not_before_secs = certificate.not_before.secs();
    let seconds = certificate.not_after.secs().saturating_sub(not_before_secs) + 1;
    if seconds > order.days.saturating_mul(SECONDS_OF_DAY) {
        return Some(Defect::TooLong);
    }
    None
}

pub(crate) fn are_as_ordered(
    certificates: &[CertRow],
    orders: &[OrderRow],
) -> Result<(), CheckFault>
    ensures ok { NumberedFrom (λ row. row.id) 1 orders.now
        → OnOk result (AreAsOrdered orders.now certificates.now) }
    ensures broken { NumberedFrom (λ row. row.id) 1 orders.now
        → NotBrokenIf (AreAsOrdered orders.now certificates.now) result }
{
    for (row_index, certificate) in certificates.iter().enumerate() {
        let order = row_with(orders, certificate.order);
        if let Some(why) = certificate_defect(certificate, order) {
            return Err(broken_at(RegisterTable::Cert, row_index, why));
        }
    }
    Ok(())
}

fn request_defect(request: &RequestRow, certificate: Option<CertRow>) -> Option<Defect>
    ensures { NoDefectIff (IsInTime request.now certificate) result }
{
    let Some(certificate) = certificate else {
        return Some(Defect::NoCertificate);
    };
    if request.received > certificate.not_after {
        return Some(Defect::AfterEnd);
    }
    None
}

pub(crate) fn are_in_time(
    requests: &[RequestRow],
    certificates: &BTreeMap<Serial, CertRow>,
) -> Result<(), CheckFault>
    ensures ok { OnOk result (AreInTime (get nat_cmp certificates.now) requests.now) }
    ensures broken { NotBrokenIf (AreInTime (get nat_cmp certificates.now) requests.now) result }
{
    for (row_index, request) in requests.iter().enumerate() {
        let certificate = certificates.get(&request.serial).copied();
        if let Some(why) = request_defect(request, certificate) {
            return Err(broken_at(RegisterTable::Request, row_index, why));
        }
    }
    Ok(())
}

/// Whether the request was received at the moment of the revocation or before, or there is no revocation.
fn is_before(request: &RequestRow, revocation: Option<RevocationRow>) -> bool
    ensures { IsTrue result ↔ IsBefore request.now revocation }
{
    match revocation {
        Some(revocation) => request.received <= revocation.at,
        None => true,
    }
}

/// Checks that no request was received after the revocation of its certificate.
pub(crate) fn no_request_after_revocation(
    requests: &[RequestRow],
    revocations: &BTreeMap<Serial, RevocationRow>,
) -> Result<(), CheckFault>
    ensures ok { OnOk result (AreBeforeRevocation (get nat_cmp revocations.now) requests.now) }
    ensures broken { NotBrokenIf (AreBeforeRevocation (get nat_cmp revocations.now) requests.now) result }
{
    for (row_index, request) in requests.iter().enumerate() {
        let revocation = revocations.get(&request.serial).copied();
        if !is_before(request, revocation) {
            return Err(broken_at(RegisterTable::Request, row_index, Defect::AfterRevocation));
        }
    }
    Ok(())
}

/// Why this request can't have led to the revocation (`NoRequest`: it is for another serial number). Its ground (why to revoke) fixes the reasonCode.
fn request_mismatch(request: &RequestRow, revocation: &RevocationRow) -> Option<Defect>
    ensures { NoDefectIff (LeadsTo revocation.now request.now) result }
{
    if request.serial != revocation.serial {
        return Some(Defect::NoRequest);
    }
    if request.declined {
        return Some(Defect::ByDeclined);
    }
    if revocation.reason != request.ground.reason() {
        return Some(Defect::OtherReason);
    }
    None
}

/// Whether `crl` fits a revocation at `at` whose first CRL is `first`: thisUpdate <= `at` if the CRL's number is below `first`, else >= `at`.
fn is_around(crl: &CrlRow, first: u64, at: Moment) -> bool
    ensures { IsTrue result ↔ ((crl.now.number < first → crl.now.this_update ≤ at)
        × (first ≤ crl.now.number → at ≤ crl.now.this_update)) }
{
    if crl.number < first {
        crl.this_update <= at
    } else {
        at <= crl.this_update
    }
}

fn are_around(crls: &[CrlRow], first: u64, at: Moment) -> bool
    ensures { IsTrue result ↔ AreAround first at crls.now }
{
    for crl in crls {
        if !is_around(crl, first, at) {
            return false;
        }
    }
    true
}

/// Why a revocation does not fit its certificate, its request (`None`: it does not exist), the CRLs, or the last accepted moment, `last`. The first
/// CRL that can list the revocation must be one of `crls`, or the next one, which is not issued yet.
fn revocation_defect(
    revocation: &RevocationRow,
    certificate: Option<CertRow>,
    request: Option<RequestRow>,
    crls: &[CrlRow],
    last: Moment,
) -> Option<Defect>
    ensures { NoDefectIff (FitsIn last certificate request crls.now revocation.now) result }
{
    let Some(certificate) = certificate else {
        return Some(Defect::NoCertificate);
    };
    let Some(request) = request else {
        return Some(Defect::NoRequest);
    };
    if let Some(why) = request_mismatch(&request, revocation) {
        return Some(why);
    }
    if revocation.at > certificate.not_after {
        return Some(Defect::AfterEnd);
    }
    if revocation.at > last {
        return Some(Defect::AfterLast);
    }
    if revocation.first < 1 || revocation.first > crls.len() as u64 + 1 {
        return Some(Defect::NoFirst);
    }
    if are_around(crls, revocation.first, revocation.at) {
        None
    } else {
        Some(Defect::WrongFirst)
    }
}

pub(crate) fn revocations_fit(
    revocations: &[RevocationRow],
    certificates: &BTreeMap<Serial, CertRow>,
    requests: &[RequestRow],
    crls: &[CrlRow],
    last: Moment,
) -> Result<(), CheckFault>
    ensures ok { NumberedFrom (λ row. row.id) 1 requests.now
        → OnOk result (FitTogether last (get nat_cmp certificates.now)
        requests.now crls.now revocations.now) }
    ensures broken { NumberedFrom (λ row. row.id) 1 requests.now
        → NotBrokenIf (FitTogether last (get nat_cmp certificates.now)
        requests.now crls.now revocations.now) result }
{
    for (row_index, revocation) in revocations.iter().enumerate() {
        let certificate = certificates.get(&revocation.serial).copied();
        let request = row_with(requests, revocation.request);
        if let Some(why) = revocation_defect(revocation, certificate, request, crls, last) {
            return Err(broken_at(RegisterTable::Revocation, row_index, why));
        }
    }
    Ok(())
}
