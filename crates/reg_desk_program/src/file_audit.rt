//! Audits a register in a file.

ghost use Rattle.std.specs.Prelude.{◌≡◌, false, IfErr, IfOk};
ghost use Rattle.reg_desk_service.specs.RegisterFailures.{IsOpenFailure};
ghost use Rattle.reg_desk_program.specs.Files.{IsAudited, IsConnection};

use crate::audit_progress::AuditProgress;
use crate::host::SystemHost;
use reg_audit::judge;
use reg_core::AuditResult;
use reg_desk_cli::Failure;
use sqlite::{Connection, FileStore};
use sqlite_disk::Disk;

/// Audits the register of a database, and then drops the connection. Shows the progress if `host.shows_progress` is `true`.
pub(crate) fn audit_over<D: Disk + Drop>(
    host: &SystemHost<'_>,
    connection: Connection<FileStore<D>>,
) -> Result<AuditResult, Failure>
    requires idle { connection.in_transaction ≡ false }
    requires connects { IsConnection connection }
    ensures ok { IfOk result (λ audit_result.
        (audited : IsAudited D.Disk audit_result) × (audited.connection ≡ connection)) }
    ensures err { IfErr result IsOpenFailure }
{
    let mut connection = connection;
    let mut progress = AuditProgress::of(host);
    let judged = judge(host.rt.alloc(), &mut connection, &mut progress);
    match judged {
        Ok(audit_result) => Ok(audit_result),
        Err(fault) => Err(Failure::from(fault)),
    }
}
