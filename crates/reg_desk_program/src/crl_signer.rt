//! Makes the signer of CRLs with which a register is opened (`FileSigner`): a process at a socket (`FileDevice`), the placeholder digest, or none.

ghost use Rattle.std.specs.Prelude.{◌≡◌, ◌↔◌, ◌⊎◌, List, ℕ, Some, Option, option_copied, option_map, IsTrue, IfOk, IfErr, MatchOption};
ghost use Rattle.sqlite.specs.Held.{state};
ghost use Rattle.sqlite.specs.State.{HasCleanDisk};
ghost use Rattle.reg_core.specs.Crls.{latest};
ghost use Rattle.reg_core.specs.Records.{Records};
ghost use Rattle.reg_core.specs.Sound.{SoundRows};
ghost use Rattle.reg_desk_service.specs.RegisterFailures.{IsOpenFailure};
ghost use Rattle.reg_desk_service.specs.Signers.{MayFollow, identity_of_signer};
ghost use Rattle.reg_office_reads.specs.Answering.{answers_by, signers_of};
ghost use Rattle.reg_crl.specs.Signing.{Identity};
ghost use Rattle.reg_crl_signer.specs.Forms.{identity_of};
ghost use Rattle.reg_crl_signer.specs.KeyOrDigestSignatures.{digest};
ghost use Rattle.reg_crl_signer.specs.RegisterSigners.{register_signer_path};
ghost use Rattle.reg_crl_signer.specs.Signed.{IsCrlWithAlgorithm};
ghost use Rattle.reg_desk_program.specs.Mismatches.{Differs, IsKnownAlgorithm, IsMismatch, IsMismatchAfter};
ghost use Rattle.reg_desk_program.specs.StoreSigners.{SignerAtPath, FitsLatest, FitsRegister, MayExpectCrls};
ghost use Rattle.reg_store_tables.specs.Shows.{Shows};
ghost use Rattle.reg_desk_cli.specs.declared.job.SignerAddress.{SignerAddress};
ghost use Rattle.reg_store_tables.specs.Stays.{Looked};

use crate::file_office::{FileDevice, FileSigner};
use crate::host::SystemHost;
use crate::laws::without_a_key_only_digests_are_made;
use crate::ocsp_responder::embedded_key_fits;
use reg_core::{Cause, Fault};
use reg_crl::{DigestSeal, Signer};
use reg_crl_signer::{
    Algorithm, BackoffDevice, Device, DeviceSigner, KeyFault, RegisterSigner, SocketDevice,
    crl_algorithm,
};
use reg_desk_cli::{Argument, Failure, SignerAddress};
use reg_desk_service::{CrlSignerChoice, Machine};
use reg_office::Responder;
use reg_office::laws::a_key_follows_the_digest;
use reg_store::{DatabaseFault, Tables};
use sqlite::Alter;

/// The signer of CRLs that `crls` chooses, for the register in these tables. The signer for `NoSigner` reaches no process, so each new CRL fails with
/// a fault of the signer. So that the register opens, this signer has the latest CRL's algorithm, or without a CRL the placeholder digest's.
/// Errors: `BadResponder` if the certificate that `responder` embeds has another key than the issuer; else `BadSigner`, with its cause kept in the
/// host, if the issuer's key does not fit the algorithm, or if no CRL with that algorithm may follow the latest one; `Memory`; `Store`.
#[tactic(auto, using(crate::proofs::Missing::opens_faulty))]
pub(crate) fn signer_for<C: Alter>(
    host: &SystemHost<'_>,
    tables: &mut Tables<C>,
    crls: &CrlSignerChoice<'_>,
    responder: &Responder<FileSigner>,
) -> Result<FileSigner, Failure>
    ensures signs { IfOk result (λ signer. FitsRegister C.Store tables.old tables.new
        (λ signers. answers_by ⟦<FileSigner as Signer>⟧.identity signers responder.now)
        (⟦<FileSigner as Signer>⟧.identity signer) crls.now) }
    ensures asks { IfOk result (λ signer.
        SignerAtPath crls.now (register_signer_path ⟦<FileDevice as Device>⟧ signer)) }
    ensures looked { Looked C.Store tables.old tables.new }
    ensures faults { IfErr result IsOpenFailure }
{
    let latest = latest_crl(tables)?;
    match crls {
        CrlSignerChoice::KeyAt(address) => signer_after(
            host,
            tables,
            &latest,
            Some(address),
            responder,
        ),
        CrlSignerChoice::Digest => signer_after(host, tables, &latest, None, responder),
        CrlSignerChoice::NoSigner => signer_without_process(host, tables, &latest, responder),
    }
}

fn signer_without_process<C: Alter>(
    host: &SystemHost<'_>,
    tables: &mut Tables<C>,
    latest: &Option<Vec<u8>>,
    responder: &Responder<FileSigner>,
) -> Result<FileSigner, Failure>
    ensures signs { IfOk result (λ signer.
        (address : Option SignerAddress) × FitsLatest C.Store tables.old tables.new
        (λ signers. answers_by ⟦<FileSigner as Signer>⟧.identity signers responder.now)
        (⟦<FileSigner as Signer>⟧.identity signer)
        address (option_map (λ bytes. bytes.items) latest.now)) }
    ensures looked { Looked C.Store tables.old tables.new }
    ensures faults { IfErr result IsOpenFailure }
{
    let address = unreachable_address(latest);
    match signer_after(host, tables, latest, address.as_ref(), responder) {
        // The placeholder digest needs no process, so CRLs with it could still be made: a signer that always fails replaces it.
        Ok(signer) => Ok(signer.without_digest()),
        Err(why) => Err(why),
    }
}

/// An address with the latest CRL's algorithm, and the empty path, at which no socket can be. `None` if there is no CRL, if the latest one has a
/// placeholder digest, or if this program doesn't know its algorithm.
fn unreachable_address(latest: &Option<Vec<u8>>) -> Option<SignerAddress<'static>> {
    let identifier = crl_algorithm(latest.as_ref()?)?;
    let algorithm = Algorithm::from_identifier(identifier)?;
    Some(SignerAddress {
        socket: Argument::of(""),
        algorithm,
    })
}

/// The signer at an address (`None`: the placeholder digest), if it fits the issuer's key and the CRL `latest`. Errors: those of [`signer_for`].
#[tactic(auto, using(crate::proofs::Missing::opens_faulty))]
fn signer_after<C: Alter>(
    host: &SystemHost<'_>,
    tables: &mut Tables<C>,
    latest: &Option<Vec<u8>>,
    address: Option<&SignerAddress<'_>>,
    responder: &Responder<FileSigner>,
) -> Result<FileSigner, Failure>
    ensures signs { IfOk result (λ signer. FitsLatest C.Store tables.old tables.new
        (λ signers. answers_by ⟦<FileSigner as Signer>⟧.identity signers responder.now)
        (⟦<FileSigner as Signer>⟧.identity signer)
        (option_copied address.entry) (option_map (λ bytes. bytes.items) latest.now)) }
    ensures asks { IfOk result (λ signer.
        register_signer_path ⟦<FileDevice as Device>⟧ signer
        ≡ option_map (λ it. it.socket) (option_copied address.entry)) }
    ensures looked { Looked C.Store tables.old tables.new }
    ensures faults { IfErr result IsOpenFailure }
{
    let issuer = tables.issuer()?;
    if !embedded_key_fits(responder, issuer.key()) {
        return Err(Failure::BadResponder);
    }
    let signer = open_signer(host, address, issuer.key())?;
    match mismatch(latest, signer.algorithm()) {
        None => Ok(signer),
        Some(why) => {
            host.keep_cause(None, Some(why));
            Err(Failure::BadSigner)
        }
    }
}

/// The signer at an address (`None`: the placeholder digest), not asked yet. `BadSigner` (cause kept) if the issuer's `key` doesn't fit; `Memory`.
fn open_signer(
    host: &SystemHost<'_>,
    address: Option<&SignerAddress<'_>>,
    key: &[u8],
) -> Result<FileSigner, Failure>
    ensures ok { IfOk result (λ signer.
        ⟦<FileSigner as Signer>⟧.identity signer ≡ identity_of_signer (option_copied address.entry) key.now) }
    ensures asks { IfOk result (λ signer.
        register_signer_path ⟦<FileDevice as Device>⟧ signer
        ≡ option_map (λ it. it.socket) (option_copied address.entry)) }
    ensures faults { IfErr result IsOpenFailure }
{
    let Some(signer_address) = address else {
        return Ok(RegisterSigner::Digest(DigestSeal));
    };
    match key_signer(
        &host.rt,
        signer_address.socket.as_str(),
        signer_address.algorithm,
        key,
    ) {
        Ok(signer) => Ok(signer),
        Err(Failure::BadSigner) => {
            host.keep_cause(None, Some(Cause::OtherKey));
            Err(Failure::BadSigner)
        }
        Err(why) => Err(why),
    }
}

/// The signer behind the Unix socket at the path `socket`, with this public key. Errors: `BadSigner` if the key doesn't fit the algorithm; `Memory`.
pub(crate) fn key_signer(
    rt: &HostRuntime,
    socket: &str,
    algorithm: Algorithm,
    key: &[u8],
) -> Result<FileSigner, Failure>
    ensures ok { IfOk result (λ signer.
        ⟦<FileSigner as Signer>⟧.identity signer ≡ identity_of algorithm key.now) }
    ensures asks { IfOk result (λ signer.
        register_signer_path ⟦<FileDevice as Device>⟧ signer ≡ Some socket.now) }
    ensures faults { IfErr result (λ why. (why ≡ Failure.Fault Fault.Memory) ⊎ (why ≡ Failure.BadSigner)) }
{
    let (Ok(path), Ok(key)) = (
        String::from_str(rt.alloc(), socket),
        Vec::from_slice(rt.alloc(), key),
    ) else {
        return Err(Failure::Fault(Fault::Memory));
    };
    let device = BackoffDevice::new(SocketDevice::new(*rt, path, key), *rt);
    match DeviceSigner::new(device, algorithm) {
        Ok(signer) => Ok(RegisterSigner::Key(signer)),
        Err(KeyFault) => Err(Failure::BadSigner),
    }
}

/// Replaces a signer that signs nothing, of the register in these tables, by one that signs nothing and has the issuer's key with this algorithm.
/// Nothing changes if the signer is another one, if the issuer is the responder, if the issuer's key doesn't fit the algorithm, if no CRL with that
/// algorithm may follow the latest one, or at a fault.
pub(crate) fn expect_algorithm<C: Alter>(
    host: &SystemHost<'_>,
    tables: &mut Tables<C>,
    signer: &mut FileSigner,
    responder: &Responder<FileSigner>,
    algorithm: Algorithm,
)
    ensures { MayExpectCrls C.Store ⟦<FileSigner as Signer>⟧.signs tables.old tables.new
        (signers_of ⟦<FileSigner as Signer>⟧.identity (⟦<FileSigner as Signer>⟧.identity signer.old)
        responder.now)
        (signers_of ⟦<FileSigner as Signer>⟧.identity (⟦<FileSigner as Signer>⟧.identity signer.new)
        responder.now) }
{
    if may_be_replaced(signer, responder) {
        replace_signer(host, tables, signer, responder, algorithm);
    }
}

/// Whether there is no signer of CRLs, and the responder has a key of its own.
fn may_be_replaced(signer: &FileSigner, responder: &Responder<FileSigner>) -> bool
    ensures digest { IsTrue result → ⟦<FileSigner as Signer>⟧.identity signer.now ≡ digest }
    ensures answers { IsTrue result → (crls other : Identity)
        → answers_by ⟦<FileSigner as Signer>⟧.identity crls responder.now
        ≡ answers_by ⟦<FileSigner as Signer>⟧.identity other responder.now }
{
    match signer {
        RegisterSigner::NoSigner(_, _) => has_own_key(responder),
        _ => false,
    }
}

fn has_own_key(responder: &Responder<FileSigner>) -> bool
    ensures { IsTrue result → (crls other : Identity)
        → answers_by ⟦<FileSigner as Signer>⟧.identity crls responder.now
        ≡ answers_by ⟦<FileSigner as Signer>⟧.identity other responder.now }
{
    match responder {
        Responder::Delegate(_, _) => true,
        Responder::Issuer(_) => false,
    }
}

fn replace_signer<C: Alter>(
    host: &SystemHost<'_>,
    tables: &mut Tables<C>,
    signer: &mut FileSigner,
    responder: &Responder<FileSigner>,
    algorithm: Algorithm,
)
    requires digest { ⟦<FileSigner as Signer>⟧.identity signer.old ≡ digest }
    requires answers { (crls other : Identity)
        → answers_by ⟦<FileSigner as Signer>⟧.identity crls responder.now
        ≡ answers_by ⟦<FileSigner as Signer>⟧.identity other responder.now }
    ensures { MayExpectCrls C.Store ⟦<FileSigner as Signer>⟧.signs tables.old tables.new
        (signers_of ⟦<FileSigner as Signer>⟧.identity (⟦<FileSigner as Signer>⟧.identity signer.old)
        responder.now)
        (signers_of ⟦<FileSigner as Signer>⟧.identity (⟦<FileSigner as Signer>⟧.identity signer.new)
        responder.now) }
{
    // These do nothing. Their contracts tell the prover that CRLs with placeholder digests suit any next signer.
    a_key_follows_the_digest::<C, FileSigner>();
    without_a_key_only_digests_are_made::<FileDevice>();
    let expected = CrlSignerChoice::unreachable(Some(algorithm));
    match signer_for(host, tables, &expected, responder) {
        Ok(fitting) => *signer = fitting,
        Err(_) => {}
    }
}

fn latest_crl<C: Alter>(tables: &mut Tables<C>) -> Result<Option<Vec<u8>>, DatabaseFault>
    ensures found { (records : Records) → Shows C.Store tables.old records → SoundRows records
        → HasCleanDisk (state C.Store tables.new)
        → IfOk result (λ crl.
        option_map (λ bytes. bytes.items) crl ≡ option_map (λ crl. crl.bytes) (latest records.crls)) }
    ensures looked { Looked C.Store tables.old tables.new }
{
    match tables.latest_crl()? {
        Some(row) => tables.crl(row.number),
        None => Ok(None),
    }
}

/// Why no CRL with `algorithm` may follow the CRL `latest`; `None` if one may (equal algorithms, or `latest` is `None` or has a placeholder digest).
fn mismatch(latest: &Option<Vec<u8>>, algorithm: &[u8]) -> Option<Cause>
    ensures { MatchOption result
        ((crl : List ℕ) → option_map (λ bytes. bytes.items) latest.now ≡ Some crl
        → (other : List ℕ) → IsCrlWithAlgorithm crl other → MayFollow algorithm.now other)
        (IsMismatchAfter (option_map (λ bytes. bytes.items) latest.now) algorithm.now) }
{
    match latest {
        Some(crl) => mismatch_of(crl, algorithm),
        None => None,
    }
}

fn mismatch_of(crl: &[u8], algorithm: &[u8]) -> Option<Cause>
    ensures { MatchOption result ((other : List ℕ) → IsCrlWithAlgorithm crl.now other
        → MayFollow algorithm.now other)
        (IsMismatch crl.now algorithm.now) }
{
    match crl_algorithm(crl) {
        Some(found) => difference(found, algorithm),
        None => Some(Cause::UnknownAlgorithm),
    }
}

fn difference(found: &[u8], algorithm: &[u8]) -> Option<Cause>
    ensures { MatchOption result (MayFollow algorithm.now found.now) (Differs found.now algorithm.now) }
{
    if may_follow(algorithm, found) {
        None
    } else if is_known(found) {
        Some(Cause::OtherAlgorithm)
    } else {
        Some(Cause::UnknownAlgorithm)
    }
}

fn may_follow(algorithm: &[u8], earlier: &[u8]) -> bool
    ensures { IsTrue result ↔ MayFollow algorithm.now earlier.now }
{
    let digest = DigestSeal;
    if is_same(earlier, digest.algorithm()) {
        return true;
    }
    is_same(earlier, algorithm)
}

fn is_known(algorithm: &[u8]) -> bool
    ensures { IsTrue result ↔ IsKnownAlgorithm algorithm.now }
{
    match Algorithm::from_identifier(algorithm) {
        Some(_) => true,
        None => false,
    }
}

fn is_same(bytes: &[u8], other: &[u8]) -> bool
    ensures { IsTrue result ↔ (bytes.now ≡ other.now) }
{
    bytes == other
}
