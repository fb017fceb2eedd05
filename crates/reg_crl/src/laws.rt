//! Laws: proved theorems, as the contracts of functions that do nothing. Proofs in other crates cite the first by `proofs/PublicLaws.antt`.

ghost use Rattle.reg_crl.specs.Reading.{CrlsAreRead, CrlsHaveOneReading, NoCrlBeginsAnother};
ghost use Rattle.reg_crl.specs.Signing.{SequencesAreAlgorithms};

/// A SEQUENCE with at most 1,000 octets of contents satisfies `IsAlgorithm` (RFC 5280 4.1.1.2).
pub fn sequences_are_algorithms()
    ensures { SequencesAreAlgorithms }
{}

/// A CRL that this crate writes, with a number below 2^63, is read back ([`crate::read_crl`], [`crate::next_entry`]). No bytes have two readings as a
/// CRL, and no CRL is a proper prefix of another (RFC 5280 5.1).
pub fn crls_are_read()
    ensures back { CrlsAreRead }
    ensures one_way { CrlsHaveOneReading }
    ensures whole { NoCrlBeginsAnother }
{}
