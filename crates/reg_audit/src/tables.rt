//! Converts SQLite's rows to typed rows: by `only` for a table with one row, else by `typed`. A `RegisterTable` is for reporting a broken row.

ghost use Rattle.std.specs.Prelude.{◌≡◌, map, IfOk};
ghost use Rattle.reg_core.specs.Crls.{row_of};
ghost use Rattle.reg_audit.specs.DerivedAsRead.{standing_in, listed_in};
ghost use Rattle.reg_audit.specs.declared.sql.AuditQuery.TheVariants.{Office as OfOffice, Subscribers, Orders, Certificates, Requests, Revocations, Crls, Standings, Counts as OfCounts, Listings};
ghost use Rattle.reg_audit.specs.ShownTables.{OnRead, AreReadIfReadable};

use crate::derived_rows::{Listed, Standing};
use crate::fault::AuditFault;
use crate::typed::{ListedRows, OfficeRow, StandingRows, only, typed};
use reg_core::{
    CertRow, Counts, CrlRow, OrderRow, RegisterTable, RequestRow, RevocationRow, SubscriberRow,
};
use sqlite::Row;
use std::alloc::Global;

/// From the only row of the table `office`: the cap, and the last accepted moment.
pub(crate) fn office(rows: &[Row]) -> Result<OfficeRow, AuditFault>
    ensures read { OnRead OfOffice rows.now
        (λ records columns. IfOk result
        (λ found. (found.cap ≡ records.policy.cap) × (found.last ≡ records.last))) }
    ensures has { AreReadIfReadable OfOffice rows.now result }
{
    only::<OfficeRow>(RegisterTable::Office, rows)
}

pub(crate) fn subscribers(alloc: Global, rows: &[Row]) -> Result<Vec<SubscriberRow>, AuditFault>
    ensures read { OnRead Subscribers rows.now
        (λ records columns. IfOk result (λ found. found.items ≡ records.subscribers)) }
    ensures has { AreReadIfReadable Subscribers rows.now result }
{
    typed::<SubscriberRow>(alloc, RegisterTable::Subscriber, rows)
}

pub(crate) fn orders(alloc: Global, rows: &[Row]) -> Result<Vec<OrderRow>, AuditFault>
    ensures read { OnRead Orders rows.now
        (λ records columns. IfOk result (λ found. found.items ≡ records.orders)) }
    ensures has { AreReadIfReadable Orders rows.now result }
{
    typed::<OrderRow>(alloc, RegisterTable::Orders, rows)
}

pub(crate) fn certificates(alloc: Global, rows: &[Row]) -> Result<Vec<CertRow>, AuditFault>
    ensures read { OnRead Certificates rows.now
        (λ records columns. IfOk result (λ found. found.items ≡ records.certificates)) }
    ensures has { AreReadIfReadable Certificates rows.now result }
{
    typed::<CertRow>(alloc, RegisterTable::Cert, rows)
}

pub(crate) fn requests(alloc: Global, rows: &[Row]) -> Result<Vec<RequestRow>, AuditFault>
    ensures read { OnRead Requests rows.now
        (λ records columns. IfOk result (λ found. found.items ≡ records.requests)) }
    ensures has { AreReadIfReadable Requests rows.now result }
{
    typed::<RequestRow>(alloc, RegisterTable::Request, rows)
}

pub(crate) fn revocations(alloc: Global, rows: &[Row]) -> Result<Vec<RevocationRow>, AuditFault>
    ensures read { OnRead Revocations rows.now
        (λ records columns. IfOk result (λ found. found.items ≡ records.revocations)) }
    ensures has { AreReadIfReadable Revocations rows.now result }
{
    typed::<RevocationRow>(alloc, RegisterTable::Revocation, rows)
}

pub(crate) fn crls(alloc: Global, rows: &[Row]) -> Result<Vec<CrlRow>, AuditFault>
    ensures read { OnRead Crls rows.now
        (λ records columns. IfOk result (λ found. found.items ≡ map row_of records.crls)) }
    ensures has { AreReadIfReadable Crls rows.now result }
{
    typed::<CrlRow>(alloc, RegisterTable::Crl, rows)
}

/// The rows of `standing`, each with a certificate's state letter: `G` (good), `R` (revoked) or `X` (expired).
pub(crate) fn letters(alloc: Global, rows: &[Row]) -> Result<Vec<Standing>, AuditFault>
    ensures read { OnRead Standings rows.now
        (λ records columns. IfOk result (λ found. map standing_in found.items ≡ columns.letters)) }
    ensures has { AreReadIfReadable Standings rows.now result }
{
    typed::<StandingRows>(alloc, RegisterTable::Standing, rows)
}

/// The row of the table `kept`: how many certificates have each state letter.
pub(crate) fn counts(rows: &[Row]) -> Result<Counts, AuditFault>
    ensures read { OnRead OfCounts rows.now
        (λ records columns. IfOk result (λ found. found ≡ columns.counts)) }
    ensures has { AreReadIfReadable OfCounts rows.now result }
{
    only::<Counts>(RegisterTable::Kept, rows)
}

/// The rows of `listed`. Each has a revocation's CRL entry, and the numbers of the first and last CRL that list it.
pub(crate) fn listings(alloc: Global, rows: &[Row]) -> Result<Vec<Listed>, AuditFault>
    ensures read { OnRead Listings rows.now
        (λ records columns. IfOk result (λ found. map listed_in found.items ≡ columns.listed)) }
    ensures has { AreReadIfReadable Listings rows.now result }
{
    typed::<ListedRows>(alloc, RegisterTable::Listed, rows)
}
