ghost use Rattle.std.specs.Prelude.{◌≡◌, ℕ, ◌^◌, ◌<◌, ◌≤◌, length, IfSome, IfNone, MatchOption, SomeIff};
ghost use Rattle.std.specs.Fmt.{decimal};
ghost use Rattle.std.specs.Str.Parse.{AllDigits, digits_value};
ghost use Rattle.reg_core.specs.Number.{IsNumberText, number_of};

use std::marker::Model;

/// The most digits that [`read_number`] takes. A number of so many digits is below 10^18, so SQLite can store it as an INTEGER.
const MOST_DIGITS: usize = 18;

/// The most decimal digits of a `u64`.
const MOST_DECIMAL_DIGITS: usize = 20;

/// Reads 1 to 18 decimal digits; leading zeros are allowed. `None` for any other text.
pub fn read_number(text: &[u8]) -> Option<u64>
    ensures read { MatchOption result ((n : ℕ) → ¬ IsNumberText text.now n) (IsNumberText text.now) }
    ensures exact { result ≡ number_of text.now }
    ensures in_range { IfSome result (λ n. n < 10 ^ 18) }
{
    if text.is_empty() || text.len() > MOST_DIGITS {
        return None;
    }
    Some(read_digits(text, 10)? as u64)
}

/// Reads at most 32 digits (a `u128` has room for them) to a base of 2 to 16, in upper or lower case. 0 for no digits; `None` if a byte is no digit.
pub(crate) fn read_digits(digits: &[u8], base: u32) -> Option<u128>
    requires base { (2 ≤ base) × (base ≤ 16) }
    requires short { length digits.now ≤ 32 }
    ensures { SomeIff result (AllDigits base digits.now) (digits_value base digits.now) }
{
    let mut number = 0;
    for byte in digits {
        let digit = char::from(*byte).to_digit(base)?;
        number = number * u128::from(base) + u128::from(digit);
    }
    Some(number)
}

/// The decimal text of a `u64`: the array's bytes from the index `start` on. Those before are 0. Its model in contracts is the list of its digits.
#[derive(Clone, Copy)]
pub struct Decimal {
    bytes: [u8; MOST_DECIMAL_DIGITS],
    start: usize,
}

impl Model for Decimal {
    ghost use Rattle.std.specs.Prelude.{ℕ, List, ◌≡◌, ◌≤◌, ◌++◌, ◌-◌, length, take, drop, replicate};
    ghost use Rattle.std.proofs.Common.{arith, ap, sym, ◌∙◌, length-drop};

    ghost Value = { List ℕ };

    ghost view = { λ text. drop text.start text.bytes };

    ghost invariant = { λ text. (text.start ≤ 20) × (length text.bytes ≡ 20)
        × (text.bytes ≡ replicate text.start 0 ++ drop text.start text.bytes) };

    ghost inverse = { λ digits. record { bytes = replicate (20 - length digits) 0 ++ digits; start = 20 - length digits } };

    ghost inverse_ok = { λ text h.
        let start : 20 - length (drop text.start text.bytes) ≡ text.start = Prim.omega (arith, length-drop text.start text.bytes, h.0, h.1) in
        let bytes : replicate (20 - length (drop text.start text.bytes)) 0 ++ drop text.start text.bytes ≡ text.bytes =
        ap (λ (k : ℕ). replicate k 0 ++ drop text.start text.bytes) start ∙ sym h.2 in
        λ i. record { bytes = bytes i; start = start i } };
}

impl Decimal {
    /// The digits of the number, without leading zeros, as `{}` prints them.
    pub fn of(number: u64) -> Decimal
        ensures text { result ≡ decimal number }
        ensures reads_back { number < 10 ^ 18 → IsNumberText result number }
    {
        let mut bytes = [0; MOST_DECIMAL_DIGITS];
        let mut start = MOST_DECIMAL_DIGITS;
        let mut rest = number;
        while rest >= 10 {
            start -= 1;
            bytes[start] = b'0' + (rest % 10) as u8;
            rest /= 10;
        }
        start -= 1;
        bytes[start] = b'0' + rest as u8;
        Decimal { bytes, start }
    }

    /// The text: 1 to 20 ASCII digits.
    pub fn as_bytes(&self) -> &[u8]
        ensures text { result.now ≡ self.now }
        ensures short { length result.now ≤ 20 }
    {
        &self.bytes[self.start..]
    }
}
