//! Rebuilds the derived table `listed`: each revocation's CRL entry, its certificate's notAfter, and the numbers of the first and last CRL with it.

ghost use Rattle.std.specs.Prelude.{◌≡◌, ◌&&◌, nat_le, nat_lt, IfOk};
ghost use Rattle.sqlite_value.specs.Value.{owned};
ghost use Rattle.sqlite.specs.Values.{bound_value};
ghost use Rattle.reg_store_tables.specs.DerivedRows.{number_or_null};
ghost use Rattle.reg_store_tables.specs.Stays.{Stepped};
ghost use Rattle.reg_store_tables.specs.Steps.{ContinuesRows, MakesRows};
ghost use Rattle.reg_store_migration.specs.Rebuilds.{ListsOne, Relists, RelistsEach, RelistsOne};
ghost use Rattle.reg_store_migration.specs.Refilled.{AreIssued, last_in};

use crate::record_reader::{crls, not_after_by_serial, revocations};
use crate::sql;
use reg_core::{CrlRow, Moment, RevocationRow};
use reg_store_tables::DatabaseFault;
use reg_store_tables::write_statements::{sql_moment, sql_number, sql_reason, write};
use sqlite::types::ValueRef;
use sqlite::{Alter, Transaction};

fn can_be_last_listing(crl: &CrlRow, first_crl: u64, not_after: Moment) -> bool
    ensures { result ≡ (nat_le first_crl crl.now.number && nat_lt not_after crl.now.this_update) }
{
    first_crl <= crl.number && not_after < crl.this_update
}

/// The number of the last CRL that lists a revocation (RFC 5280 3.3); `None` if this CRL is not issued yet. It is the first one, from number
/// `first_crl` on, whose thisUpdate is after `not_after`. The binary search needs `crls` sorted by number and by thisUpdate.
fn last_listing(crls: &[CrlRow], first_crl: u64, not_after: Moment) -> Option<u64>
    ensures { AreIssued crls.now → result ≡ last_in crls.now first_crl not_after }
{
    let at = crls.partition_point(|crl| !can_be_last_listing(crl, first_crl, not_after));
    match crls.get(at) {
        Some(crl) => Some(crl.number),
        None => None,
    }
}

fn sql_number_or_null(number: Option<u64>) -> Result<ValueRef<'static>, DatabaseFault>
    ensures value { IfOk result (λ value. bound_value (owned value) ≡ number_or_null number) }
{
    match number {
        Some(number) => sql_number(number),
        None => Ok(ValueRef::Null),
    }
}

fn put_listing<S: Alter>(
    tx: &mut Transaction<'_, S>,
    row: RevocationRow,
    crls: &[CrlRow],
    not_after: Moment,
) -> Result<(), DatabaseFault>
    ensures made { MakesRows S.Store tx.old tx.new result (ListsOne row crls.now not_after) }
    ensures stepped { Stepped S.Store tx.old tx.new }
{
    let last = sql_number_or_null(last_listing(crls, row.first, not_after))?;
    let serial = row.serial.bytes20();
    let at = sql_moment(row.at);
    let reason = sql_reason(row.reason);
    let first = sql_number(row.first)?;
    let not_after = sql_moment(not_after);
    write(
        tx,
        sql::PUT_LISTING,
        &[ValueRef::Blob(&serial), at, reason, first, not_after, last],
    )?;
    Ok(())
}

fn rebuild_listed_row<S: Alter>(
    tx: &mut Transaction<'_, S>,
    revocation: RevocationRow,
    crls: &[CrlRow],
) -> Result<(), DatabaseFault>
    ensures made { MakesRows S.Store tx.old tx.new result (RelistsOne revocation crls.now) }
    ensures stepped { Stepped S.Store tx.old tx.new }
{
    let not_after = not_after_by_serial(tx, revocation.serial)?;
    put_listing(tx, revocation, crls, not_after)
}

fn rebuild_listed_rows<S: Alter>(
    tx: &mut Transaction<'_, S>,
    revocations: &[RevocationRow],
    crls: &[CrlRow],
) -> Result<(), DatabaseFault>
    ensures made { ContinuesRows S.Store tx.old tx.new result (RelistsEach revocations.now crls.now) }
    ensures stepped { Stepped S.Store tx.old tx.new }
{
    for revocation in revocations {
        rebuild_listed_row(tx, *revocation, crls)?;
    }
    Ok(())
}

pub(crate) fn rebuild_listed<S: Alter>(tx: &mut Transaction<'_, S>) -> Result<(), DatabaseFault>
    ensures made { ContinuesRows S.Store tx.old tx.new result Relists }
    ensures stepped { Stepped S.Store tx.old tx.new }
{
    let crls = crls(tx)?;
    let revocations = revocations(tx)?;
    rebuild_listed_rows(tx, &revocations, &crls)
}
