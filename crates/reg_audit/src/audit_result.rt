//! The audit of a database: first its version and its schema, then its rows.

ghost use Rattle.std.specs.Prelude.{◌≡◌, ◌≢◌, false, IfErr, IfOk, IsTrue};
ghost use Rattle.sqlite.specs.Held.{state};
ghost use Rattle.reg_store_tables.specs.Schema.{register_schema};
ghost use Rattle.reg_audit.specs.Judged.{IsJudged};
ghost use Rattle.reg_audit.specs.Presumed.{IsOverRegister};
ghost use Rattle.reg_audit.specs.AuditResults.{audit_result_of};

use crate::{AuditFault, ProgressObserver, audit};
use reg_core::{AuditResult, Audited};
use reg_store_opening::{examine, is_register};
use reg_store_tables::StoreFault;
use sqlite::{Alter, Connection};
use std::alloc::Global;

fn audit_result_or_fault(audited: Result<Audited, AuditFault>) -> Result<AuditResult, StoreFault>
    ensures is { result ≡ audit_result_of audited }
    ensures faults { IfErr result (λ fault. fault ≢ StoreFault.NotEmpty) }
{
    match audited {
        Ok(found) => Ok(AuditResult::Sound(found)),
        Err(AuditFault::Broken(broken)) => Ok(AuditResult::Broken(broken)),
        Err(AuditFault::Memory) => Err(StoreFault::Memory),
        Err(AuditFault::Store) => Err(StoreFault::Store),
    }
}

/// Whether the connection is in no transaction and its schema is exactly a register's.
fn is_over_register<S: Alter>(alloc: Global, conn: &Connection<S>) -> Result<bool, StoreFault>
    ensures is { IfOk result (λ same. IsTrue same → IsOverRegister S.Store conn.now) }
    ensures other { conn.now.in_transaction ≡ false
        → IfOk result (λ same. same ≡ false → (state S.Store conn.now).now.schema ≢ register_schema) }
    ensures faults { IfErr result (λ fault. fault ≡ StoreFault.Memory) }
{
    if !conn.is_autocommit() {
        return Ok(false);
    }
    match is_register(alloc, conn.schema()) {
        Ok(same) => Ok(same),
        Err(_) => Err(StoreFault::Memory),
    }
}

/// Checks the version, issuer, policy and last accepted moment by [`examine`], as the opening of a register does. [`examine`] gives `None` for the
/// program's version, 3: then the schema must be a register's, and all rows are checked ([`crate::audit`]). Nothing changes: no register is migrated.
///
/// `Sound`: the tables show sound records (they obey all rules of a register), if the connection was open and two facts hold that no query can check
/// (`IsPresumed`): no failed call left its transaction half written; no row of the table `listed` lacks its last column (a query would give NULL).
/// `Broken`: at least one of four statements is false (`Disproves`): the values are a register's; the records are sound; the derived tables match
/// them; each CRL has the bytes of its entries. If the defect isn't `OtherBytes`, one of the first three is false. `Older`: version 1 or 2.
/// `OtherSchema`: version 3, but not a register's schema. Errors: `NotARegister` if the table `office` or the schedule can't be read or is out of
/// range; `NewVersion` above 3; `Memory`; `Store`.
pub fn judge<S: Alter, W: ProgressObserver>(
    alloc: Global,
    conn: &mut Connection<S>,
    observer: &mut W,
) -> Result<AuditResult, StoreFault>
    requires { conn.old.in_transaction ≡ false }
    ensures { IsJudged S.Store conn.old conn.new result }
{
    let is_register = is_over_register(alloc, conn)?;
    let older = examine(conn)?;
    if older.is_some() {
        return Ok(AuditResult::Older);
    }
    if !is_register {
        return Ok(AuditResult::OtherSchema);
    }
    audit_result_or_fault(audit(alloc, conn, observer))
}
