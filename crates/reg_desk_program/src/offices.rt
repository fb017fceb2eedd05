//! Creates, opens and closes a register in a database, and presets its signatures. An `Office` is an open register with its signer and responder.

ghost use Rattle.std.specs.Prelude.{◌≡◌, None, false, IfOk, IfErr};
ghost use Rattle.reg_core.specs.Records.{no_records};
ghost use Rattle.reg_desk_service.specs.RegisterFailures.{IsCreateFailure, IsOpenFailure};
ghost use Rattle.reg_office_reads.specs.Answering.{signers_of};
ghost use Rattle.reg_office.specs.Calls.{seen};
ghost use Rattle.reg_office_reads.specs.declared.responder.Responder.TheVariants.{Issuer as ByIssuer};
ghost use Rattle.reg_desk_program.specs.Files.{MakesOver, OpensOver};

use crate::crl_signer::signer_for;
use crate::file_office::FileSigner;
use crate::host::SystemHost;
use reg_core::Policy;
use reg_crl::Signer;
use reg_crl_signer::PresetSignature;
use reg_der::Issuer;
use reg_desk_cli::Failure;
use reg_desk_service::{CrlSignerChoice, SignatureKind};
use reg_office::{Office, Responder};
use reg_store::Store;
use sqlite::{Alter, Connection, FileFrom, FileStore};
use sqlite_disk::{Disk, Unknown};

/// A connection to a database file, of whose bytes contracts suppose nothing (`Unknown`). If a page that is read from the file again has another
/// digest than before, the call that reads it fails.
pub type FileConnection = Connection<FileStore<FileFrom<Unknown>>>;

/// Creates a register in a database, and returns its office. Errors, with the connection: `NotEmpty`, `Memory` and `Store`.
pub(crate) fn create_over<C: Alter, S: Signer + Drop>(
    connection: Connection<C>,
    issuer: Issuer,
    policy: Policy,
    signer: S,
) -> Result<Office<C, S>, (Failure, Connection<C>)>
    requires { connection.in_transaction ≡ false }
    ensures made { IfOk result (λ office.
        MakesOver C.Store connection S.signs office.store (S.identity office.signer)
        (no_records issuer policy)) }
    ensures alone { IfOk result (λ office. office.responder ≡ ByIssuer None) }
    ensures err { IfErr result (λ left. IsCreateFailure left.0) }
{
    // Does nothing: its contract tells the prover that the policy's numbers are in their ranges.
    policy.prove_ranges();
    match Store::create(connection, issuer, policy) {
        Ok(store) => Ok(Office::new(store, signer)),
        Err(unopened) => Err((Failure::from(unopened.fault), unopened.connection)),
    }
}

/// Opens the register in a database, and returns its office. Errors, with the connection: `NotARegister`, `NewVersion`, and those of [`signer_for`].
pub(crate) fn open_over<C: Alter>(
    host: &SystemHost<'_>,
    connection: Connection<C>,
    crl_signer: &CrlSignerChoice<'_>,
    responder: Responder<FileSigner>,
) -> Result<Office<C, FileSigner>, (Failure, Connection<C>)>
    requires { connection.in_transaction ≡ false }
    ensures opened { IfOk result (λ office.
        OpensOver C.Store connection crl_signer.now office.store (seen ⟦<FileSigner as Signer>⟧ office).1) }
    ensures responder { IfOk result (λ office. office.responder ≡ responder) }
    ensures err { IfErr result (λ left. IsOpenFailure left.0) }
{
    match Store::open(host.rt.alloc(), connection) {
        Ok(store) => {
            let mut store = store;
            match signer_for(host, &mut store, crl_signer, &responder) {
                Ok(signer) => Ok(Office::answering(store, signer, responder)),
                Err(why) => Err((why, store.into_connection())),
            }
        }
        Err(unopened) => Err((Failure::from(unopened.fault), unopened.connection)),
    }
}

pub(crate) fn connection_of<C: Alter, S: Signer + Drop>(office: Office<C, S>) -> Connection<C> {
    let (store, _signer) = office.into_parts();
    store.into_connection()
}

/// Closes a connection. If closing can't copy the WAL into the file, no record is lost: the next opening reads the WAL.
pub(crate) fn close<D: Disk + Drop>(connection: Connection<FileStore<D>>) {
    drop(connection.close());
}

/// Stores a signer's answer that came already, for the next `sign`: of the delegate if `kind` is `Answer` (an OCSP response) and a delegate responds,
/// else of the signer of CRLs. `None` removes it. [`Machine::set_preset`](reg_desk_service::Machine::set_preset) requires that the signer gave it.
#[tactic(auto, using(crate::proofs::PresetSignatures::given_anyhow))]
pub(crate) fn preset_next(
    signer: &mut FileSigner,
    responder: &mut Responder<FileSigner>,
    kind: SignatureKind,
    preset_signature: Option<PresetSignature>,
)
    ensures { signers_of ⟦<FileSigner as Signer>⟧.identity (⟦<FileSigner as Signer>⟧.identity signer.new)
        responder.new
        ≡ signers_of ⟦<FileSigner as Signer>⟧.identity (⟦<FileSigner as Signer>⟧.identity signer.old)
        responder.old }
{
    match (kind, responder) {
        (SignatureKind::Answer, Responder::Delegate(own_signer, _)) => own_signer.set_preset(
            preset_signature,
        ),
        _ => signer.set_preset(preset_signature),
    }
}
