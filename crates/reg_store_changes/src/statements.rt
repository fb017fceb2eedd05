//! The statements of changes, in a transaction: `put_..` adds a row (`put_letter`: with the letter `G`); `set_last` sets the last accepted moment.
//! `ground`: why to revoke. Errors: `Memory`; `Store` if the database fails or refuses a row, no transaction is open, or a number is above 2^63 - 1.

ghost use Rattle.std.specs.Prelude.{◌≡◌, ◌+◌, OnOk, length, true};
ghost use Rattle.reg_core.specs.Changes.{touched, with_subscriber, with_order, with_certificate, with_request, with_declined, with_revocation, with_crl};
ghost use Rattle.reg_store_tables.specs.Steps.{Turns, TurnsDerivedRows, TurnsCounted, TurnsRecords, TurnsWhere};
ghost use Rattle.reg_store_tables.specs.DerivedRows.{with_counts};
ghost use Rattle.reg_store_changes.specs.ChangeEffects.{crl_of};
ghost use Rattle.reg_store_changes.specs.WithinTransactions.{MakesRowsWithin, MakesWithin, StepsWithin, YieldsWithin};
ghost use Rattle.reg_store_changes.specs.DerivedEffects.{with_expired, count_ended_before, with_revoked_letter, good_at, with_good, with_unlisted, with_last_listings};

use crate::sql;
use crate::writes::write;
use reg_core::{
    CertRow, Counts, CrlRow, Moment, OrderRow, RequestRow, RevocationRow, Serial, SubscriberRow,
};
use reg_store_tables::DatabaseFault;
use reg_store_tables::write_statements::{
    sql_flag, sql_ground, sql_moment, sql_number, sql_reason,
};
use sqlite::types::ValueRef;
use sqlite::{Alter, Connection};

/// Changes state letters from `G` (good) to `X` (expired), where the certificate's notAfter is before `now`. Returns how many it changed.
pub fn expire_ended<S: Alter>(conn: &mut Connection<S>, now: Moment) -> Result<usize, DatabaseFault>
    ensures made { YieldsWithin S.Store conn.old conn.new result
        (TurnsCounted (with_expired now) (count_ended_before now)) }
    ensures stepped { StepsWithin S.Store conn.old conn.new }
    ensures under_way { OnOk result (conn.old.in_transaction ≡ true) }
{
    write(conn, sql::EXPIRE_ENDED, &[sql_moment(now)])
}

/// Changes the state letter of the certificate with this serial number from `G` to `R` (revoked). Returns how many it changed: 0 or 1.
pub fn mark_revoked<S: Alter>(
    conn: &mut Connection<S>,
    serial: Serial,
) -> Result<usize, DatabaseFault>
    ensures made { YieldsWithin S.Store conn.old conn.new result
        (TurnsCounted (with_revoked_letter serial) (good_at serial)) }
    ensures stepped { StepsWithin S.Store conn.old conn.new }
{
    let bytes = serial.bytes20();
    write(conn, sql::MARK_REVOKED, &[ValueRef::Blob(&bytes)])
}

/// Records the CRL `number` as the last one to list each revocation without a last one, if the certificate's notAfter is before `this_update`.
pub(crate) fn set_last_listed<S: Alter>(
    conn: &mut Connection<S>,
    number: u64,
    this_update: Moment,
) -> Result<(), DatabaseFault>
    ensures made { MakesWithin S.Store conn.old conn.new result
        (TurnsDerivedRows (with_last_listings number this_update)) }
    ensures stepped { StepsWithin S.Store conn.old conn.new }
{
    let number = sql_number(number)?;
    let this_update = sql_moment(this_update);
    write(conn, sql::SET_LAST_LISTED, &[number, this_update])?;
    Ok(())
}

pub(crate) fn set_counts<S: Alter>(
    conn: &mut Connection<S>,
    counts: Counts,
) -> Result<(), DatabaseFault>
    ensures made { MakesRowsWithin S.Store conn.old conn.new result (TurnsDerivedRows (with_counts counts)) }
    ensures stepped { StepsWithin S.Store conn.old conn.new }
{
    let good = sql_number(counts.good)?;
    let revoked = sql_number(counts.revoked)?;
    let expired = sql_number(counts.expired)?;
    write(conn, sql::SET_COUNTS, &[good, revoked, expired])?;
    Ok(())
}

pub(crate) fn set_last<S: Alter>(conn: &mut Connection<S>, now: Moment) -> Result<(), DatabaseFault>
    ensures made { MakesRowsWithin S.Store conn.old conn.new result (TurnsRecords
        (λ records. touched records now)) }
    ensures stepped { StepsWithin S.Store conn.old conn.new }
{
    write(conn, sql::SET_LAST, &[sql_moment(now)])?;
    Ok(())
}

pub(crate) fn set_declined<S: Alter>(conn: &mut Connection<S>, id: u64) -> Result<(), DatabaseFault>
    ensures made { MakesWithin S.Store conn.old conn.new result
        (TurnsRecords (λ records. with_declined records records.last id)) }
    ensures stepped { StepsWithin S.Store conn.old conn.new }
{
    let id = sql_number(id)?;
    write(conn, sql::SET_DECLINED, &[id])?;
    Ok(())
}

pub(crate) fn put_subscriber<S: Alter>(
    conn: &mut Connection<S>,
    row: SubscriberRow,
) -> Result<(), DatabaseFault>
    ensures made { MakesWithin S.Store conn.old conn.new result
        (TurnsWhere (λ records. row.id ≡ length records.subscribers + 1)
        (λ records. with_subscriber records records.last row) (λ columns. columns)) }
    ensures stepped { StepsWithin S.Store conn.old conn.new }
{
    let id = sql_number(row.id)?;
    let name = ValueRef::Text(row.name.as_bytes());
    write(conn, sql::PUT_SUBSCRIBER, &[id, name])?;
    Ok(())
}

pub(crate) fn put_order<S: Alter>(
    conn: &mut Connection<S>,
    row: OrderRow,
) -> Result<(), DatabaseFault>
    ensures made { MakesWithin S.Store conn.old conn.new result
        (TurnsWhere (λ records. row.id ≡ length records.orders + 1)
        (λ records. with_order records records.last row) (λ columns. columns)) }
    ensures stepped { StepsWithin S.Store conn.old conn.new }
{
    let id = sql_number(row.id)?;
    let subscriber = sql_number(row.subscriber)?;
    let days = sql_number(row.days)?;
    write(conn, sql::PUT_ORDER, &[id, subscriber, days])?;
    Ok(())
}

pub(crate) fn put_cert<S: Alter>(
    conn: &mut Connection<S>,
    row: CertRow,
) -> Result<(), DatabaseFault>
    ensures made { MakesWithin S.Store conn.old conn.new result
        (TurnsRecords (λ records. with_certificate records records.last row)) }
    ensures stepped { StepsWithin S.Store conn.old conn.new }
{
    let serial = row.serial.bytes20();
    let order = sql_number(row.order)?;
    let not_before = sql_moment(row.not_before);
    let not_after = sql_moment(row.not_after);
    write(
        conn,
        sql::PUT_CERT,
        &[ValueRef::Blob(&serial), order, not_before, not_after],
    )?;
    Ok(())
}

pub(crate) fn put_letter<S: Alter>(
    conn: &mut Connection<S>,
    serial: Serial,
    not_after: Moment,
) -> Result<(), DatabaseFault>
    ensures made { MakesWithin S.Store conn.old conn.new result
        (TurnsDerivedRows (with_good serial not_after)) }
    ensures stepped { StepsWithin S.Store conn.old conn.new }
{
    let serial = serial.bytes20();
    let not_after = sql_moment(not_after);
    write(conn, sql::PUT_LETTER, &[ValueRef::Blob(&serial), not_after])?;
    Ok(())
}

pub(crate) fn put_request<S: Alter>(
    conn: &mut Connection<S>,
    row: RequestRow,
) -> Result<(), DatabaseFault>
    ensures made { MakesWithin S.Store conn.old conn.new result
        (TurnsWhere (λ records. row.id ≡ length records.requests + 1)
        (λ records. with_request records records.last row) (λ columns. columns)) }
    ensures stepped { StepsWithin S.Store conn.old conn.new }
{
    let id = sql_number(row.id)?;
    let serial = row.serial.bytes20();
    let ground = sql_ground(row.ground);
    let received = sql_moment(row.received);
    let declined = sql_flag(row.declined);
    write(
        conn,
        sql::PUT_REQUEST,
        &[id, ValueRef::Blob(&serial), ground, received, declined],
    )?;
    Ok(())
}

pub(crate) fn put_revocation<S: Alter>(
    conn: &mut Connection<S>,
    row: RevocationRow,
) -> Result<(), DatabaseFault>
    ensures made { MakesWithin S.Store conn.old conn.new result
        (TurnsRecords (λ records. with_revocation records records.last row)) }
    ensures stepped { StepsWithin S.Store conn.old conn.new }
{
    let serial = row.serial.bytes20();
    let at = sql_moment(row.at);
    let reason = sql_reason(row.reason);
    let request = sql_number(row.request)?;
    let first_crl = sql_number(row.first)?;
    write(
        conn,
        sql::PUT_REVOCATION,
        &[ValueRef::Blob(&serial), at, reason, request, first_crl],
    )?;
    Ok(())
}

/// Adds a revocation's CRL entry to the table `listed`, without a last CRL (`last_listed` is NULL). `not_after` is that of the certificate.
pub(crate) fn put_listed<S: Alter>(
    conn: &mut Connection<S>,
    row: RevocationRow,
    not_after: Moment,
) -> Result<(), DatabaseFault>
    ensures made { MakesWithin S.Store conn.old conn.new result
        (TurnsDerivedRows (with_unlisted row not_after)) }
    ensures stepped { StepsWithin S.Store conn.old conn.new }
{
    let serial = row.serial.bytes20();
    let at = sql_moment(row.at);
    let reason = sql_reason(row.reason);
    let first_crl = sql_number(row.first)?;
    let not_after = sql_moment(not_after);
    write(
        conn,
        sql::PUT_LISTED,
        &[ValueRef::Blob(&serial), at, reason, first_crl, not_after],
    )?;
    Ok(())
}

pub(crate) fn put_crl<S: Alter>(
    conn: &mut Connection<S>,
    row: CrlRow,
    der: &[u8],
) -> Result<(), DatabaseFault>
    ensures made { MakesWithin S.Store conn.old conn.new result
        (TurnsWhere (λ records. row.number ≡ length records.crls + 1)
        (λ records. with_crl records records.last (crl_of row der.now)) (λ columns. columns)) }
    ensures stepped { StepsWithin S.Store conn.old conn.new }
{
    let number = sql_number(row.number)?;
    let this_update = sql_moment(row.this_update);
    write(
        conn,
        sql::PUT_CRL,
        &[number, this_update, ValueRef::Blob(der)],
    )?;
    Ok(())
}
