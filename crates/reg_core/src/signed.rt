/// A signer of CRLs. The register's laws (proved theorems) use only its relation `signed`, between the fields of a CRL and its DER. The fields
/// (`CertList`) are those of the tbsCertList (RFC 5280 5.1.2), without the version and the algorithm.
pub trait SignsCrls {
    ghost use Rattle.std.specs.Prelude.{ℕ, List};
    ghost use Rattle.reg_core.specs.Crls.{CertList};

    ghost signed: { Self → CertList → List ℕ → Type 0 };
}
