//! Opens, creates and audits a register in the files of a machine.

ghost use Rattle.std.specs.Prelude.{◌≡◌, IfErr, IfOk};
ghost use Rattle.reg_office_api.specs.Signers.{OfficeSigners};
ghost use Rattle.reg_core.specs.Records.{no_records};
ghost use Rattle.reg_desk_service.specs.RegisterFailures.{IsCreateFailure, IsOpenFailure};
ghost use Rattle.reg_desk_service.specs.RegisterUses.{exit_of};
ghost use Rattle.reg_desk_service.specs.Registers.{Audits, Created, Opened, Unaudited, NotCreated, Unopened};
ghost use Rattle.reg_desk_service.specs.Signers.{entering, signing_with, unsigned};

use crate::crl_signer::CrlSignerChoice;
use crate::machine::Machine;
use reg_core::{AuditResult, Fault, Policy};
use reg_crl_signer::Algorithm;
use reg_der::Issuer;
use reg_desk_cli::{Failure, ResponderChoice, SignerAddress};

/// Opens a register for a job that signs nothing. Errors: those of [`Machine::check_database`], [`Machine::connect`], [`Machine::open_in`].
pub fn open_unsigned<M: Machine>(machine: &mut M, path: &str) -> Result<M::Office, Failure>
    ensures ok { IfOk result (λ office. Opened M.Machine machine.old path.now unsigned office machine.new) }
    ensures err { IfErr result (λ why. Unopened M.Machine machine.old path.now unsigned why machine.new) }
    ensures faults { IfErr result IsOpenFailure }
{
    // With the issuer as the OCSP responder, there is no certificate file to read and no other signer.
    let issuer_signs = ResponderChoice::Issuer { certificate: None };
    open_by(machine, path, &CrlSignerChoice::NoSigner, &issuer_signs)
}

/// Opens the register at a path, with a signer of its CRLs and an OCSP responder. Without a signer, CRLs get a placeholder digest; but if the
/// responder has its own key, `crl` fails (`Fault::Signer`). Errors: those of [`Machine::read_responder`] and of [`open_unsigned`].
pub fn open_signed<M: Machine>(
    machine: &mut M,
    path: &str,
    signer: &Option<SignerAddress<'_>>,
    responder: &ResponderChoice<'_>,
) -> Result<M::Office, Failure>
    ensures ok { IfOk result (λ office.
        Opened M.Machine machine.old path.now (signing_with signer.now responder.now) office machine.new) }
    ensures err { IfErr result (λ why.
        Unopened M.Machine machine.old path.now (signing_with signer.now responder.now) why machine.new) }
    ensures faults { IfErr result IsOpenFailure }
{
    open_by(
        machine,
        path,
        &CrlSignerChoice::of(signer, responder),
        responder,
    )
}

/// Opens the register at a path for a job that enters CRLs of another register and signs nothing. These CRLs have this algorithm; for `None`, a
/// placeholder digest. Errors: `BadSigner` if the issuer's key doesn't fit the algorithm; those of [`open_unsigned`].
pub fn open_to_fill<M: Machine>(
    machine: &mut M,
    path: &str,
    algorithm: Option<Algorithm>,
) -> Result<M::Office, Failure>
    ensures ok { IfOk result (λ office. Opened M.Machine machine.old path.now (entering algorithm) office machine.new) }
    ensures err { IfErr result (λ why. Unopened M.Machine machine.old path.now (entering algorithm) why machine.new) }
    ensures faults { IfErr result IsOpenFailure }
{
    let issuer_signs = ResponderChoice::Issuer { certificate: None };
    open_by(
        machine,
        path,
        &CrlSignerChoice::unreachable(algorithm),
        &issuer_signs,
    )
}

/// Checks that there is a database at the path before connecting to it, since `connect` would create one.
fn open_by<M: Machine>(
    machine: &mut M,
    path: &str,
    crl_signer: &CrlSignerChoice<'_>,
    responder: &ResponderChoice<'_>,
) -> Result<M::Office, Failure>
    ensures ok { IfOk result (λ office.
        Opened M.Machine machine.old path.now (crl_signer.now, responder.now) office machine.new) }
    ensures err { IfErr result (λ why.
        Unopened M.Machine machine.old path.now (crl_signer.now, responder.now) why machine.new) }
    ensures faults { IfErr result IsOpenFailure }
{
    let loaded_responder = machine.read_responder(responder)?;
    machine.check_database(path)?;
    let database = machine.connect(path)?;
    machine.open_in(database, crl_signer, loaded_responder)
}

/// Creates a register without records in the file at a path, which must exist. If that fails, a file without a register may be left there. Errors:
/// `Store` if there is no file; those of [`Machine::connect`] and [`Machine::create_in`].
pub fn create_register<M: Machine>(
    machine: &mut M,
    path: &str,
    issuer: Issuer,
    policy: Policy,
) -> Result<M::Office, Failure>
    ensures ok { IfOk result (λ office. Created M.Machine machine.old path.now office machine.new) }
    ensures stands { IfOk result (λ office.
        (signers : OfficeSigners) × M.Office.stands signers office (no_records issuer policy)) }
    ensures err { IfErr result (λ why. NotCreated M.Machine machine.old path.now why machine.new) }
    ensures faults { IfErr result IsCreateFailure }
{
    // The job has tried to create the file (`Machine::claim`). If there is none: the path is a dangling link, a WAL exists or no file can be created.
    if !machine.is_there(path) {
        return Err(Failure::Fault(Fault::Store));
    }
    let database = machine.connect(path)?;
    machine.create_in(database, issuer, policy)
}

/// Audits the register at a path. Its files (`sources`) are only read: none changes, none is created, and a register of an older version is not
/// migrated. Errors: those of [`Machine::read`] and [`Machine::audit_in`].
pub fn audit_at<M: Machine>(machine: &M, path: &str) -> Result<AuditResult, Failure>
    ensures ok { IfOk result (Audits M.Machine machine.now path.now) }
    ensures err { IfErr result (Unaudited M.Machine machine.now path.now) }
    ensures faults { IfErr result IsOpenFailure }
{
    let sources = machine.read(path)?;
    machine.audit_in(sources)
}

/// The result of a job or a step, from that of its last call (`ran`): a [`Fault`] becomes a [`Failure`].
pub fn ended(ran: Result<(), Fault>) -> Result<(), Failure>
    ensures { result ≡ exit_of ran }
{
    match ran {
        Ok(()) => Ok(()),
        Err(fault) => Err(Failure::Fault(fault)),
    }
}
