//! Which CRLs of another register may have the placeholder digest: the first ones, from before that register had a signer with a key. `take` returns
//! the DER value at the front, and the bytes after it.

ghost use Rattle.std.specs.Prelude.{◌≡◌, ◌↔◌, ◌<◌, ◌^◌, List, ℕ, length, IfSome, IsTrue};
ghost use Rattle.reg_crl.specs.Signing.{IsAlgorithm};
ghost use Rattle.reg_office.specs.Replays.{HasAlgorithm, IsBeforeKey};
ghost use Rattle.reg_store_tables.specs.LookUps.{Learns};

use crate::crls::latest_der;
use crate::replay::same_octets;
use reg_core::{Fault, Refusal};
use reg_crl::Signer;
use reg_der::take;
use reg_store::{DatabaseFault, Tables};
use sqlite::Alter;

/// More octets than the contents of a DER value have.
const FOUR_GIB: usize = 0x1_0000_0000;

/// Whether a received CRL may have the placeholder digest instead of a signature: it has another algorithm than the signer, and so has the latest
/// CRL, if there is one.
pub(crate) fn may_have_digest<C: Alter, S: Signer>(
    tables: &mut Tables<C>,
    signer: &S,
    der: &[u8],
) -> Result<bool, DatabaseFault>
    ensures { Learns C.Store tables.old tables.new result (λ records may.
        IsTrue may → IsBeforeKey (S.identity signer.now).algorithm records) }
{
    if has_other_algorithm(der, signer.algorithm()) {
        is_before_key(tables, signer.algorithm())
    } else {
        Ok(false)
    }
}

/// Whether no CRL of the records has this algorithm, as far as the latest one tells: there is none, or it has another one.
fn is_before_key<C: Alter>(tables: &mut Tables<C>, algorithm: &[u8]) -> Result<bool, DatabaseFault>
    requires { IsAlgorithm algorithm.now }
    ensures { Learns C.Store tables.old tables.new result (λ records may.
        IsTrue may → IsBeforeKey algorithm.now records) }
{
    match latest_der(tables) {
        Ok(der) => Ok(has_other_algorithm(&der, algorithm)),
        Err(Fault::Refused(Refusal::NoCrl)) => Ok(true),
        Err(Fault::Memory) => Err(DatabaseFault::Memory),
        Err(_) => Err(DatabaseFault::Store),
    }
}

/// Whether a CRL has a signatureAlgorithm, but not this one (RFC 5280 5.1.1.2).
fn has_other_algorithm(crl: &[u8], algorithm: &[u8]) -> bool
    requires { IsAlgorithm algorithm.now }
    ensures { IsTrue result → ¬ HasAlgorithm crl.now algorithm.now }
{
    match algorithm_of(crl) {
        Some(found) => !same_octets(found, algorithm),
        None => false,
    }
}

/// The signatureAlgorithm of a CRL, in DER. For other bytes, `None` or some part of them.
fn algorithm_of(crl: &[u8]) -> Option<&[u8]>
    ensures { IfSome result (λ found. (algorithm : List ℕ) → IsAlgorithm algorithm
        → HasAlgorithm crl.now algorithm → found.now ≡ algorithm) }
{
    if !is_short(crl) {
        return None;
    }
    let (list, _) = take(crl)?;
    let (_, after_tbs) = take(list.contents)?;
    let (algorithm, _) = take(after_tbs)?;
    Some(algorithm.raw)
}

/// Whether these are fewer octets than the contents of a DER value may have.
fn is_short(crl: &[u8]) -> bool
    ensures { IsTrue result ↔ (length crl.now < 2 ^ 32) }
{
    crl.len() < FOUR_GIB
}
