//! Runs statements that only read. The database may not be a register: it may have other tables, or none.

ghost use Rattle.std.specs.Prelude.{◌≡◌, ◌⊎◌, false, IsTrue, IfErr};
ghost use Rattle.sqlite.specs.Held.{state};
ghost use Rattle.sqlite.specs.State.{HasCleanDisk};
ghost use Rattle.sqlite_schema.specs.declared.schema.Schema.{Schema};
ghost use Rattle.reg_store_tables.specs.Stays.{IsDatabaseFault, Stepped};
ghost use Rattle.reg_store_opening.specs.VersionAndOffice.{is_call_error, IsQuery, IsNeverRefused, IsRead, IsRefusedText};
ghost use Rattle.reg_store_opening.specs.Examined.{ReportsNone};
ghost use Rattle.reg_store_tables.specs.Steps.{Asks, WhileOpen};

use reg_store_tables::StoreFault;
use sqlite::{Alter, Error, ErrorCode, Row, Transaction};

/// An error not listed here, such as a missing table, means no register. `OperationInterrupted`: over the limit of `sqlite` on a statement's steps.
fn query_fault(error: Error) -> StoreFault
    ensures call { IsTrue (is_call_error error) → IsDatabaseFault result }
    ensures other { is_call_error error ≡ false → result ≡ StoreFault.NotARegister }
{
    match error {
        Error::SqliteFailure(ErrorCode::OutOfMemory) => StoreFault::Memory,
        Error::SqliteFailure(ErrorCode::SystemIoFailure) => StoreFault::Store,
        Error::SqliteFailure(ErrorCode::DatabaseCorrupt) => StoreFault::Store,
        Error::SqliteFailure(ErrorCode::DiskFull) => StoreFault::Store,
        Error::SqliteFailure(ErrorCode::Closed) => StoreFault::Store,
        Error::SqliteFailure(ErrorCode::OperationInterrupted) => StoreFault::Store,
        _ => StoreFault::NotARegister,
    }
}

pub(crate) fn read_rows<S: Alter>(
    tx: &mut Transaction<'_, S>,
    sql: &str,
) -> Result<Vec<Row>, StoreFault>
    requires { IsQuery sql.now }
    ensures asked { Asks S.Store tx.old tx.new result (λ rows db. IsRead db sql.now rows.items) }
    ensures none { ReportsNone S.Store tx.old.conn.now tx.new.conn.now result
        (λ db. IsRefusedText db sql.now) }
    ensures refused { HasCleanDisk (state S.Store tx.new.conn.now)
        → (schema : Schema) → IsNeverRefused schema sql.now
        → WhileOpen (state S.Store tx.old.conn.now) (λ db. db.schema ≡ schema)
        → IfErr result IsDatabaseFault }
    ensures stepped { Stepped S.Store tx.old tx.new }
    ensures faults { IfErr result (λ fault. IsDatabaseFault fault ⊎ (fault ≡ StoreFault.NotARegister)) }
{
    match tx.query_all(sql, &[]) {
        Ok(rows) => Ok(rows),
        Err(error) => Err(query_fault(error)),
    }
}
