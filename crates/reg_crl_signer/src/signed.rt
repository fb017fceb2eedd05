ghost use Rattle.std.specs.Prelude.{◌≡◌, List, ℕ, MatchOption};
ghost use Rattle.reg_crl_signer.specs.Signed.{IsCrlWithAlgorithm};

use reg_der::take;

/// The signatureAlgorithm of a CRL (RFC 5280 5.1.1.2), an AlgorithmIdentifier in DER. For bytes that are no CRL, `None` or some part of them. `take`
/// returns the DER value at the front, and the bytes after it.
pub fn crl_algorithm(crl: &[u8]) -> Option<&[u8]>
    ensures { MatchOption result ((algorithm : List ℕ) → ¬ IsCrlWithAlgorithm crl.now algorithm)
        (λ found. (algorithm : List ℕ) → IsCrlWithAlgorithm crl.now algorithm → found.now ≡ algorithm) }
{
    let (list, _) = take(crl)?;
    let (_, rest) = take(list.contents)?;
    let (algorithm, _) = take(rest)?;
    Some(algorithm.raw)
}
