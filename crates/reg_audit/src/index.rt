//! Maps of rows by serial number, order id or request id. Of two rows with the same key (in `names_differ`: name), the later is reported as broken.

ghost use Rattle.std.specs.Prelude.{OnOk, IfOk};
ghost use Rattle.std.specs.BTreeMap.{get};
ghost use Rattle.std.specs.Ordering.{nat_cmp};
ghost use Rattle.reg_core.specs.Sound.{KeysDiffer};
ghost use Rattle.reg_audit.specs.CheckFaults.{NotBrokenIf};
ghost use Rattle.reg_audit.specs.Read.{Indexes};

use crate::check_fault::{CheckFault, broken_at};
use reg_core::{CertRow, Defect, RegisterTable, RevocationRow, Serial, SubscriberRow};
use std::alloc::Global;
use std::collections::{BTreeMap, BTreeSet};

pub(crate) fn certificates_by_serial(
    alloc: Global,
    certificates: &[CertRow],
) -> Result<BTreeMap<Serial, CertRow>, CheckFault>
    ensures differ { OnOk result (KeysDiffer (λ row. row.serial) certificates.now) }
    ensures found { IfOk result (λ found. Indexes (λ row. row.serial) certificates.now (get nat_cmp found)) }
    ensures broken { NotBrokenIf (KeysDiffer (λ row. row.serial) certificates.now) result }
{
    let mut found = BTreeMap::new(alloc);
    for (row_index, row) in certificates.iter().enumerate() {
        if found.insert(row.serial, *row)?.is_some() {
            return Err(broken_at(RegisterTable::Cert, row_index, Defect::SameSerial));
        }
    }
    Ok(found)
}

pub(crate) fn certificates_by_order(
    alloc: Global,
    certificates: &[CertRow],
) -> Result<BTreeMap<u64, CertRow>, CheckFault>
    ensures differ { OnOk result (KeysDiffer (λ row. row.order) certificates.now) }
    ensures found { IfOk result (λ found. Indexes (λ row. row.order) certificates.now (get nat_cmp found)) }
    ensures broken { NotBrokenIf (KeysDiffer (λ row. row.order) certificates.now) result }
{
    let mut found = BTreeMap::new(alloc);
    for (row_index, row) in certificates.iter().enumerate() {
        if found.insert(row.order, *row)?.is_some() {
            return Err(broken_at(RegisterTable::Cert, row_index, Defect::SameOrder));
        }
    }
    Ok(found)
}

pub(crate) fn revocations_by_serial(
    alloc: Global,
    revocations: &[RevocationRow],
) -> Result<BTreeMap<Serial, RevocationRow>, CheckFault>
    ensures differ { OnOk result (KeysDiffer (λ row. row.serial) revocations.now) }
    ensures found { IfOk result (λ found. Indexes (λ row. row.serial) revocations.now (get nat_cmp found)) }
    ensures broken { NotBrokenIf (KeysDiffer (λ row. row.serial) revocations.now) result }
{
    let mut found = BTreeMap::new(alloc);
    for (row_index, row) in revocations.iter().enumerate() {
        if found.insert(row.serial, *row)?.is_some() {
            return Err(broken_at(RegisterTable::Revocation, row_index, Defect::SameSerial));
        }
    }
    Ok(found)
}

pub(crate) fn revocations_by_request(
    alloc: Global,
    revocations: &[RevocationRow],
) -> Result<BTreeMap<u64, RevocationRow>, CheckFault>
    ensures differ { OnOk result (KeysDiffer (λ row. row.request) revocations.now) }
    ensures found { IfOk result (λ found. Indexes (λ row. row.request) revocations.now (get nat_cmp found)) }
    ensures broken { NotBrokenIf (KeysDiffer (λ row. row.request) revocations.now) result }
{
    let mut found = BTreeMap::new(alloc);
    for (row_index, row) in revocations.iter().enumerate() {
        if found.insert(row.request, *row)?.is_some() {
            return Err(broken_at(RegisterTable::Revocation, row_index, Defect::SameRequest));
        }
    }
    Ok(found)
}

pub(crate) fn names_differ(alloc: Global, subscribers: &[SubscriberRow]) -> Result<(), CheckFault>
    ensures ok { OnOk result (KeysDiffer (λ row. row.name) subscribers.now) }
    ensures broken { NotBrokenIf (KeysDiffer (λ row. row.name) subscribers.now) result }
{
    let mut names = BTreeSet::new(alloc);
    for (row_index, subscriber) in subscribers.iter().enumerate() {
        if !names.insert(subscriber.name.as_bytes())? {
            return Err(broken_at(RegisterTable::Subscriber, row_index, Defect::SameName));
        }
    }
    Ok(())
}
