//! Reads positive INTEGERs in DER (X.690 8.3), and SEQUENCEs of two of them. `take` returns the DER value at the front, and the bytes after it.

ghost use Rattle.std.specs.Prelude.{◌≡◌, ℕ, ◌<◌, ◌++◌, List, MatchOption};
ghost use Rattle.reg_core.specs.Integer.{IsInteger};
ghost use Rattle.reg_crl_signer.specs.Forms.{BeginsPositive, HasOctets, IsPairOfIntegers, IsPair, IsPositive};

use reg_der::take;

const INTEGER: u8 = 0x02;

const SEQUENCE: u8 = 0x30;

/// The first octet of an INTEGER's contents is below this if the number is not negative (X.690 8.3.3).
const SIGN_BIT: u8 = 0x80;

/// If the bytes are a SEQUENCE of two INTEGERs above 0: how many octets of contents each has, without a zero octet for the sign. Else `None`.
pub(crate) fn octets_of_pair(bytes: &[u8]) -> Option<(usize, usize)>
    ensures { MatchOption result ((first second : ℕ) → ¬ IsPair bytes.now first second)
        (λ counts. IsPairOfIntegers bytes.now counts.0 counts.1) }
{
    let (sequence, after) = take(bytes)?;
    if sequence.tag != SEQUENCE || !after.is_empty() {
        return None;
    }
    let (first, rest) = take_positive(sequence.contents)?;
    let (second, rest) = take_positive(rest)?;
    if !rest.is_empty() {
        return None;
    }
    Some((first, second))
}

/// If the bytes begin with an INTEGER above 0: how many octets its contents have, without a zero octet for the sign; and the rest. Else `None`.
fn take_positive(bytes: &[u8]) -> Option<(usize, &[u8])>
    ensures { MatchOption result
        ((raw rest : List ℕ) (number : ℕ) → IsPositive raw number → bytes.now ≡ raw ++ rest → ⊥)
        (λ taken. BeginsPositive bytes.now taken.0 taken.1.now) }
{
    let (value, rest) = take(bytes)?;
    if value.tag != INTEGER {
        return None;
    }
    Some((octets_of(value.contents)?, rest))
}

fn octets_of(contents: &[u8]) -> Option<usize>
    ensures { MatchOption result ((number : ℕ) → 0 < number → ¬ IsInteger contents.now number)
        (λ count. (number : ℕ) × (0 < number) × IsInteger contents.now number × HasOctets number count) }
{
    match contents {
        // A first octet 0 is there for the sign, and DER has it only if the next octet's highest bit is set (X.690 8.3.2).
        [first, second, ..] if *first == 0 && *second >= SIGN_BIT => Some(contents.len() - 1),
        [first, ..] if *first != 0 && *first < SIGN_BIT => Some(contents.len()),
        _ => None,
    }
}
