ghost use Rattle.std.specs.Prelude.{◌≡◌, ◌≤◌, None, Some, IfSome, length, option_copied, option_map};
ghost use Rattle.reg_office_reads.specs.Answering.{failures_of};

use reg_crl::Signer;
use reg_ocsp::Certificate;

/// The signer of an office's OCSP responses (RFC 6960 2.2, 4.2.2.2).
#[derive(Drop)]
pub enum Responder<S> {
    /// The signer of the office's CRLs. Each response includes the certificate, if there is one.
    Issuer(Option<Certificate>),
    /// Another signer, whose certificate each response includes.
    Delegate(S, Certificate),
}

/// The fields of a response that depend on its responder (RFC 6960 4.2.1). `certificate`: the only one in the field `certs`, if any.
#[derive(Clone, Copy)]
pub(crate) struct ResponderFields<'a> {
    /// The bits of the subjectPublicKey whose SHA-1 is the ResponderID; `None` if the key is the issuer's.
    pub(crate) own_key: Option<&'a [u8]>,
    pub(crate) certificate: Option<&'a [u8]>,
}

pub(crate) fn of_issuer(certificate: &Option<Certificate>) -> ResponderFields<'_>
    ensures own { option_copied result.own_key ≡ None }
    ensures certificate { option_copied result.certificate ≡ option_map (λ it. it.der) certificate.now }
    ensures short { IfSome (option_copied result.certificate) (λ bytes. length bytes ≤ 65536) }
{
    ResponderFields {
        own_key: None,
        certificate: der_of(certificate),
    }
}

fn der_of(certificate: &Option<Certificate>) -> Option<&[u8]>
    ensures der { option_copied result ≡ option_map (λ it. it.der) certificate.now }
    ensures short { IfSome (option_copied result) (λ bytes. length bytes ≤ 65536) }
{
    Some(certificate.as_ref()?.der())
}

pub(crate) fn of_delegate(certificate: &Certificate) -> ResponderFields<'_>
    ensures own { option_copied result.own_key ≡ Some certificate.now.key }
    ensures certificate { option_copied result.certificate ≡ Some certificate.now.der }
    ensures short { IfSome (option_copied result.certificate) (λ bytes. length bytes ≤ 65536) }
{
    ResponderFields {
        own_key: Some(certificate.key()),
        certificate: Some(certificate.der()),
    }
}

/// How many failures the signer of OCSP responses has counted. `crls`: how many the signer of CRLs has counted. For `Issuer`, one signer signs both.
pub fn failures_in<S: Signer>(responder: &Responder<S>, crls: u64) -> u64
    ensures { result ≡ failures_of S.failure_count crls responder.now }
{
    match responder {
        Responder::Issuer(_) => crls,
        Responder::Delegate(own, _) => own.failures(),
    }
}
