//! Reads the records from which the derived tables are rebuilt, inside the migration's transaction. `ask` runs a SELECT there.

ghost use Rattle.std.specs.Prelude.{◌≡◌, [], ◌∷◌, map, IsSomeAnd, IfOk};
ghost use Rattle.sqlite_value.specs.Order.{Row as Values};
ghost use Rattle.sqlite.specs.Values.{bound};
ghost use Rattle.reg_core.specs.Crls.{row_of};
ghost use Rattle.reg_core.specs.Records.{certificate_in};
ghost use Rattle.reg_core.specs.Serial.{IsSerial};
ghost use Rattle.reg_store_tables.specs.ReadStatements.{IsReading, shown_certificate};
ghost use Rattle.reg_store_tables.specs.Stays.{Stepped};
ghost use Rattle.reg_store_tables.specs.Steps.{Asks};
ghost use Rattle.reg_store_migration.specs.RecordReading.{AreAnswer, OfRecords};

use crate::sql;
use reg_core::{CertRow, CrlRow, Moment, RevocationRow, Serial};
use reg_store_tables::DatabaseFault;
use reg_store_tables::rows::{RowKind, rows_in};
use reg_store_tables::sql::CERT_BY_SERIAL;
use sqlite::types::ValueRef;
use sqlite::{Alter, Row, Transaction, params};

pub(crate) fn ask<S: Alter>(
    tx: &mut Transaction<'_, S>,
    sql: &str,
    params: &[ValueRef<'_>],
) -> Result<Vec<Row>, DatabaseFault>
    requires { IsReading sql.now }
    ensures asked { Asks S.Store tx.old tx.new
        result (λ rows. AreAnswer sql.now (bound params.now) rows.items) }
    ensures stepped { Stepped S.Store tx.old tx.new }
{
    Ok(tx.query_all(sql, params)?)
}

pub(crate) fn revocations<S: Alter>(
    tx: &mut Transaction<'_, S>,
) -> Result<Vec<RevocationRow>, DatabaseFault>
    ensures asked { Asks S.Store tx.old tx.new
        result (λ found. OfRecords (λ records. found.items ≡ records.revocations)) }
    ensures stepped { Stepped S.Store tx.old tx.new }
{
    let found = ask(tx, sql::REVOCATIONS, &[])?;
    Ok(rows_in::<RevocationRow>(*found.allocator(), &found)?)
}

pub(crate) fn crls<S: Alter>(tx: &mut Transaction<'_, S>) -> Result<Vec<CrlRow>, DatabaseFault>
    ensures asked { Asks S.Store tx.old tx.new
        result (λ found. OfRecords (λ records. found.items ≡ map row_of records.crls)) }
    ensures stepped { Stepped S.Store tx.old tx.new }
{
    let found = ask(tx, sql::CRLS, &[])?;
    Ok(rows_in::<CrlRow>(*found.allocator(), &found)?)
}

fn not_after_in(rows: &[Row]) -> Result<Moment, DatabaseFault>
    ensures read { IfOk result (λ end. (row : Values) × (rows.now ≡ row ∷ [])
        × ((certificate : CertRow) → IsSerial certificate.serial → row ≡ shown_certificate certificate
        → end ≡ certificate.not_after)) }
{
    match rows {
        [row] => match CertRow::read_row(row) {
            Some(certificate) => Ok(certificate.not_after),
            None => Err(DatabaseFault::Store),
        },
        _ => Err(DatabaseFault::Store),
    }
}

pub(crate) fn not_after_by_serial<S: Alter>(
    tx: &mut Transaction<'_, S>,
    serial: Serial,
) -> Result<Moment, DatabaseFault>
    ensures asked { Asks S.Store tx.old tx.new result (λ end. OfRecords (λ records.
        IsSomeAnd (certificate_in records.certificates serial)
        (λ certificate. certificate.not_after ≡ end))) }
    ensures stepped { Stepped S.Store tx.old tx.new }
{
    let found = ask(tx, CERT_BY_SERIAL, params![serial.bytes20().as_slice()])?;
    not_after_in(&found)
}
