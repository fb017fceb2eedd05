//! Checks of each row by itself: names of subscribers have only allowed bytes, days of orders are 1 to 398 (in any schedule), notBefore ≤ notAfter.

ghost use Rattle.std.specs.Prelude.{◌≤◌, OnOk};
ghost use Rattle.std.specs.List.{AllByRecursion};
ghost use Rattle.reg_core.specs.Label.{IsName};
ghost use Rattle.reg_core.specs.Schedule.{IsDays};
ghost use Rattle.reg_audit.specs.CheckFaults.{NotBrokenIf};

use crate::check_fault::{CheckFault, broken_at};
use reg_core::{CertRow, Defect, OrderRow, RegisterTable, Schedule, SubscriberRow};

pub(crate) fn names_are_good(subscribers: &[SubscriberRow]) -> Result<(), CheckFault>
    ensures ok { OnOk result (AllByRecursion (λ row. IsName row.name) subscribers.now) }
    ensures broken { NotBrokenIf (AllByRecursion (λ row. IsName row.name) subscribers.now) result }
{
    for (row_index, subscriber) in subscribers.iter().enumerate() {
        if !subscriber.name.is_name() {
            return Err(broken_at(RegisterTable::Subscriber, row_index, Defect::BadName));
        }
    }
    Ok(())
}

pub(crate) fn days_are_allowed(orders: &[OrderRow]) -> Result<(), CheckFault>
    ensures ok { OnOk result (AllByRecursion (λ row. IsDays row.days) orders.now) }
    ensures broken { NotBrokenIf (AllByRecursion (λ row. IsDays row.days) orders.now) result }
{
    for (row_index, order) in orders.iter().enumerate() {
        if !Schedule::can_allow(order.days) {
            return Err(broken_at(RegisterTable::Orders, row_index, Defect::BadDays));
        }
    }
    Ok(())
}

pub(crate) fn validities_are_forward(certificates: &[CertRow]) -> Result<(), CheckFault>
    ensures ok { OnOk result (AllByRecursion (λ row. row.not_before ≤ row.not_after) certificates.now) }
    ensures broken { NotBrokenIf
        (AllByRecursion (λ row. row.not_before ≤ row.not_after) certificates.now) result }
{
    for (row_index, certificate) in certificates.iter().enumerate() {
        if certificate.not_before > certificate.not_after {
            return Err(broken_at(RegisterTable::Cert, row_index, Defect::ReversedValidity));
        }
    }
    Ok(())
}
