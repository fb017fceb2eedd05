//! Makes the responder to OCSP requests with which a register is opened: the issuer, or a delegate with a certificate and a signer of its own.

ghost use Rattle.std.specs.Prelude.{◌≡◌, ◌⊎◌, IsTrue, IfOk, IfErr, OnErr};
ghost use Rattle.reg_crl.specs.Signing.{Identity};
ghost use Rattle.reg_desk_service.specs.RegisterFailures.{IsOpenFailure};
ghost use Rattle.reg_desk_service.specs.Signers.{EmbeddedKeyFits, HasCertificate, IsAnswering, IsDelegate};
ghost use Rattle.reg_office_reads.specs.Answering.{answers_by, signers_of};
ghost use Rattle.reg_desk_cli.specs.declared.job.ResponderChoice.TheVariants.{Issuer};

use crate::crl_signer::key_signer;
use crate::file_office::FileSigner;
use crate::host::SystemHost;
use reg_core::{Fault, io_cause_of};
use reg_crl::Signer;
use reg_crl_signer::is_key_algorithm_identifier;
use reg_desk_cli::{Argument, Failure, SignerAddress};
use reg_desk_service::{Location, Machine};
use reg_ocsp::{Certificate, CertificateFault};
use reg_office::Responder;
use std::fs;
use std::io::ErrorKind;

/// The issuer as responder: the signer of CRLs signs responses too. `path` (`--embed`): the file of a certificate that each signed response embeds.
/// Errors: those of [`certificate_at`].
pub(crate) fn issuer_responder(
    host: &SystemHost<'_>,
    path: &Option<Argument<'_>>,
) -> Result<Responder<FileSigner>, Failure>
    ensures ok { IfOk result (λ responder.
        (crls : Identity) → IsAnswering (Issuer path.now)
        (signers_of ⟦<FileSigner as Signer>⟧.identity crls responder)) }
    ensures certified { OnErr result (HasCertificate (Issuer path.now)) }
    ensures faults { IfErr result IsOpenFailure }
{
    match path {
        None => Ok(Responder::Issuer(None)),
        Some(path) => {
            let certificate = certificate_at(host, Location::Embed, path.as_str())?;
            Ok(Responder::Issuer(Some(certificate)))
        }
    }
}

/// A responder with its own key: its certificate is in the file at `path` (RFC 6960 4.2.2.2), and its signer is at `address`. Errors: those of
/// [`certificate_at`]; `BadResponder` also if the certificate's key does not fit the signer's algorithm.
pub(crate) fn delegate_responder(
    host: &SystemHost<'_>,
    path: &Argument<'_>,
    address: &SignerAddress<'_>,
) -> Result<Responder<FileSigner>, Failure>
    ensures ok { IfOk result (λ responder.
        (crls : Identity) → IsDelegate address.now
        (answers_by ⟦<FileSigner as Signer>⟧.identity crls responder)) }
    ensures faults { IfErr result IsOpenFailure }
{
    let certificate = certificate_at(host, Location::Responder, path.as_str())?;
    if !is_key_algorithm_identifier(address.algorithm, certificate.algorithm()) {
        return Err(Failure::BadResponder);
    }
    match key_signer(
        &host.rt,
        address.socket.as_str(),
        address.algorithm,
        certificate.key(),
    ) {
        Ok(signer) => Ok(Responder::Delegate(signer, certificate)),
        Err(Failure::BadSigner) => Err(Failure::BadResponder),
        Err(why) => Err(why),
    }
}

/// Reads a certificate in DER; the option `location` names its file. `BadResponder` if invalid, or unreadable (the host keeps the cause); `Memory`.
fn certificate_at(
    host: &SystemHost<'_>,
    location: Location,
    path: &str,
) -> Result<Certificate, Failure>
    ensures { IfErr result (λ why. (why ≡ Failure.Fault Fault.Memory) ⊎ (why ≡ Failure.BadResponder)) }
{
    let der = match fs::read(&host.rt, path) {
        Ok(der) => der,
        Err(error) if error.kind() == ErrorKind::OutOfMemory => {
            return Err(Failure::Fault(Fault::Memory));
        }
        Err(error) => {
            host.keep_cause(Some(location), io_cause_of(error.kind()));
            return Err(Failure::BadResponder);
        }
    };
    match Certificate::new(host.rt.alloc(), &der) {
        Ok(certificate) => Ok(certificate),
        Err(CertificateFault::Memory) => Err(Failure::Fault(Fault::Memory)),
        Err(CertificateFault::Bad) => Err(Failure::BadResponder),
    }
}

/// Whether the certificate that the issuer's responses embed has the issuer's key, `key`. `true` if they embed none, or if a delegate responds.
pub(crate) fn embedded_key_fits(responder: &Responder<FileSigner>, key: &[u8]) -> bool
    ensures { IsTrue result → (crls : Identity)
        → EmbeddedKeyFits key.now (answers_by ⟦<FileSigner as Signer>⟧.identity crls responder.now) }
{
    match responder {
        Responder::Issuer(Some(certificate)) => certificate.key() == key,
        Responder::Issuer(None) => true,
        Responder::Delegate(_, _) => true,
    }
}
