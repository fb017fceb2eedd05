//! Checks an opened database, and migrates an older version. `office` has one row: version, issuer, policy without schedule, last accepted moment.

ghost use Rattle.std.specs.Prelude.{◌≡◌, ◌≢◌, ◌⊎◌, Option, Some, false, IsTrue, MatchResult, OnOk, IfOk, IfErr};
ghost use Rattle.sqlite.specs.Held.{state};
ghost use Rattle.sqlite.specs.State.{HasCleanDisk};
ghost use Rattle.reg_core.specs.Records.{Records};
ghost use Rattle.reg_core.specs.Schedule.{one_step};
ghost use Rattle.reg_store_tables.specs.Shows.{IsShownBy};
ghost use Rattle.reg_store_tables.specs.Stays.{IsDatabaseFault, LeavesNothing, Stays, Stepped};
ghost use Rattle.reg_store_migration.specs.Older.{IsShownByOlder};
ghost use Rattle.reg_store_tables.specs.Steps.{Asks, WhileOpen};
ghost use Rattle.reg_store_opening.specs.VersionAndOffice.{version_of, IsOfVersion, HasVersion, InRange, IsShownAs, ShowsAs, HasOfficeRow, ReadsOlder, HasNoVersion, HasNoOfficeRow, HasNoOlderOffice, HasNoRegister, version_or_current};
ghost use Rattle.reg_store_opening.specs.Examined.{ReportsState, ReportsNewer, ReportsNone, Finds, HasVersionAndOffice, IsFoundOf, found_version};
ghost use Rattle.reg_store_opening.specs.Opens.{Opens, IsFailedOpen};

use crate::office_rows::{check_office_rows, older_office_in, version_in_rows};
use crate::read_only_queries::read_rows;
use crate::schema_check::{is_same, schema_version};
use crate::sql;
use crate::versions::Version;
use reg_core::Moment;
use reg_store_migration::{OlderVersion, migrate};
use reg_store_tables::StoreFault;
use reg_store_tables::sql::STEPS;
use sqlite::{Alter, Connection, Transaction};
use std::alloc::Global;

/// Values of the row of `office` in an older version: the version, the longest validity in days, and the last accepted moment.
#[derive(Clone, Copy)]
pub struct OlderOffice {
    version: OlderVersion,
    days: u64,
    last: Moment,
}

/// The version in the row of `office`, if it is older than the program's; `None` if it is the program's, 3.
fn check_version<S: Alter>(tx: &mut Transaction<'_, S>) -> Result<Option<OlderVersion>, StoreFault>
    ensures asked { Asks S.Store tx.old tx.new result (λ found db. HasVersion db (version_of found)) }
    ensures newer { ReportsNewer S.Store tx.old.conn.now tx.new.conn.now result }
    ensures none { ReportsNone S.Store tx.old.conn.now tx.new.conn.now result HasNoVersion }
    ensures version { HasCleanDisk (state S.Store tx.new.conn.now) → (version : Option OlderVersion)
        → WhileOpen (state S.Store tx.old.conn.now) (IsOfVersion version)
        → MatchResult result (λ found. found ≡ version) IsDatabaseFault }
    ensures stepped { Stepped S.Store tx.old tx.new }
    ensures faults { IfErr result (λ fault. fault ≢ StoreFault.NotEmpty) }
{
    let rows = read_rows(tx, sql::VERSION)?;
    version_in_rows(&rows)
}

fn check_office<S: Alter>(tx: &mut Transaction<'_, S>) -> Result<(), StoreFault>
    ensures reported { ReportsState S.Store tx.old.conn.now tx.new.conn.now result (λ _ db. HasOfficeRow db) }
    ensures none { ReportsNone S.Store tx.old.conn.now tx.new.conn.now result HasNoOfficeRow }
    ensures shown { Finds S.Store tx.old.conn.now tx.new.conn.now result IsShownBy (λ _ _. Unit {0}) }
    ensures stepped { Stepped S.Store tx.old tx.new }
    ensures faults { IfErr result (λ fault. IsDatabaseFault fault ⊎ (fault ≡ StoreFault.NotARegister)) }
{
    let office = read_rows(tx, sql::OFFICE)?;
    let steps = read_rows(tx, STEPS)?;
    check_office_rows(&office, &steps)
}

fn check_older_office<S: Alter>(tx: &mut Transaction<'_, S>) -> Result<(u64, Moment), StoreFault>
    ensures reported { ReportsState S.Store tx.old.conn.now tx.new.conn.now result
        (λ found db. ReadsOlder db found.0 found.1) }
    ensures none { ReportsNone S.Store tx.old.conn.now tx.new.conn.now result HasNoOlderOffice }
    ensures shown { (version : OlderVersion)
        → Finds S.Store tx.old.conn.now tx.new.conn.now result (IsShownByOlder version) (λ found records.
        (records.policy.schedule ≡ one_step found.0) × (records.last ≡ found.1)) }
    ensures stepped { Stepped S.Store tx.old tx.new }
    ensures faults { IfErr result (λ fault. IsDatabaseFault fault ⊎ (fault ≡ StoreFault.NotARegister)) }
{
    let rows = read_rows(tx, sql::OLDER_OFFICE)?;
    older_office_in(&rows)
}

fn check_rows<S: Alter>(tx: &mut Transaction<'_, S>) -> Result<Option<OlderOffice>, StoreFault>
    ensures reported { ReportsState S.Store tx.old.conn.now tx.new.conn.now result
        (λ found db. HasVersionAndOffice db found) }
    ensures newer { ReportsNewer S.Store tx.old.conn.now tx.new.conn.now result }
    ensures none { ReportsNone S.Store tx.old.conn.now tx.new.conn.now result HasNoRegister }
    ensures shown { (version : Option OlderVersion)
        → Finds S.Store tx.old.conn.now tx.new.conn.now result (IsShownAs version)
        (λ found records. IsFoundOf version records found) }
    ensures stepped { Stepped S.Store tx.old tx.new }
    ensures faults { IfErr result (λ fault. fault ≢ StoreFault.NotEmpty) }
{
    let older = check_version(tx)?;
    match older {
        None => {
            check_office(tx)?;
            Ok(None)
        }
        Some(version) => {
            let (days, last) = check_older_office(tx)?;
            Ok(Some(OlderOffice {
                version,
                days,
                last,
            }))
        }
    }
}

/// Checks the version, the row of `office` and the schedule, not the schema. Nothing changes. Returns values of an older version; `None` for
/// version 3, the program's. Errors: `NotARegister` if the row of `office` or the schedule can't be read, or a value is out of range; `NewVersion`
/// if the version is above 3; `Memory`; `Store` if the database fails.
pub fn examine<S: Alter>(conn: &mut Connection<S>) -> Result<Option<OlderOffice>, StoreFault>
    requires { conn.old.in_transaction ≡ false }
    ensures ok { HasCleanDisk (state S.Store conn.new)
        → IfOk result (λ found. HasVersionAndOffice (state S.Store conn.old).now found) }
    ensures live { HasCleanDisk (state S.Store conn.new)
        → OnOk result (IsTrue (state S.Store conn.old).is_open) }
    ensures newer { ReportsNewer S.Store conn.old conn.new result }
    ensures none { ReportsNone S.Store conn.old conn.new result HasNoRegister }
    ensures shown { (version : Option OlderVersion) → (records : Records)
        → ShowsAs version S.Store conn.old records → HasCleanDisk (state S.Store conn.new)
        → MatchResult result (IsFoundOf version records) (λ fault. InRange records → IsDatabaseFault fault) }
    ensures same { Stays (state S.Store conn.old) (state S.Store conn.new) }
    ensures saved { HasCleanDisk (state S.Store conn.new) → IsTrue (state S.Store conn.new).is_open
        → (state S.Store conn.new).now ≡ (state S.Store conn.new).committed }
    ensures survives { LeavesNothing (state S.Store conn.old) (state S.Store conn.new) }
    ensures idle { conn.new.in_transaction ≡ false }
    ensures faults { IfErr result (λ fault. fault ≢ StoreFault.NotEmpty) }
{
    let mut tx = conn.transaction();
    let tested = check_rows(&mut tx);
    tx.rollback();
    tested
}

fn version_in(found: Option<OlderOffice>) -> Option<OlderVersion>
    ensures { result ≡ found_version found }
{
    match found {
        None => None,
        Some(older) => Some(older.version),
    }
}

/// Checks that `of_schema`, the version of the schema, is the version in `office`. [`examine`] has returned `found`: `None` for version 3.
fn check_schema(of_schema: Option<Version>, found: Option<OlderOffice>) -> Result<(), StoreFault>
    ensures ok { OnOk result (of_schema ≡ Some (version_or_current (found_version found))) }
    ensures err { IfErr result (λ fault. (fault ≡ StoreFault.NotARegister)
        × (of_schema ≢ Some (version_or_current (found_version found)))) }
{
    if is_same(of_schema, version_in(found)) {
        return Ok(());
    }
    Err(StoreFault::NotARegister)
}

/// Checks that the schema, the row of `office` and the schedule are a register's. Version 3, the program's, stays as it is. Version 1 or 2 is
/// migrated in one transaction: the records stay, and the derived tables are rebuilt from them. Errors: those of [`examine`] and [`migrate`], and
/// `NotARegister` if the schema (tables, indexes, views) is not that version's. An error changes nothing. But if the disk failed in the commit, the
/// database is as before or wholly migrated once it is opened again.
pub fn open<S: Alter>(alloc: Global, conn: &mut Connection<S>) -> Result<(), StoreFault>
    requires { conn.old.in_transaction ≡ false }
    ensures opens { OnOk result (Opens S.Store conn.old conn.new) }
    ensures unopened { IfErr result (IsFailedOpen S.Store conn.old conn.new) }
    ensures idle { conn.new.in_transaction ≡ false }
{
    let Ok(of_schema) = schema_version(alloc, conn) else {
        return Err(StoreFault::Memory);
    };
    let found = examine(conn)?;
    check_schema(of_schema, found)?;
    match found {
        None => Ok(()),
        Some(older) => Ok(migrate(conn, older.version, older.days, older.last)?),
    }
}
