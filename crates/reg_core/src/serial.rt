ghost use Rattle.std.specs.Prelude.{◌≡◌, ◌≢◌, ℕ, ◌+◌, ◌*◌, ◌^◌, ◌<◌, ◌≤◌, ◌==◌, ◌↔◌, IsTrue, length, IfSome, IfNone, MatchOption, SomeIff};
ghost use Rattle.std.specs.Str.Parse.{AllDigits, digits_value};
ghost use Rattle.std.specs.Ordering.{nat_cmp, as_partial_cmp};
ghost use Rattle.std.proofs.Common.{rules};
ghost use Rattle.std.specs.Cmp.{partial_order_from_own_ties};
ghost use Rattle.std.specs.Cmp.Rules.{comparing};
ghost use Rattle.reg_core.specs.Integer.{IsInteger, IsShortest, integer, value};
ghost use Rattle.reg_core.specs.Serial.{IsSerial, IsSerialText, serial_bytes, serial_of, serial_text};

use crate::number::read_digits;
use std::cmp::Ordering;
use std::marker::Model;

/// The number of bytes that [`Serial::bytes20`] returns.
const BYTES: usize = 20;

/// The number of bytes of `low`, the lowest 128 bits of a [`Serial`].
const LOW_BYTES: usize = 16;

const MOST_DIGITS: usize = 2 * BYTES;

const LOW_DIGITS: usize = 2 * LOW_BYTES;

/// A certificate's serial number, from 1 to 2^159 - 1 (RFC 5280 4.1.2.2): `high` * 2^128 + `low`. Its model in contracts is the number.
#[derive(Clone, Copy)]
pub struct Serial {
    high: u32,
    low: u128,
}

impl Model for Serial {
    ghost use Rattle.std.specs.Prelude.{ℕ, ◌<◌, ◌≤◌, ◌+◌, ◌*◌, ◌/◌, ◌%◌, ◌^◌};

    ghost Value = { ℕ };

    ghost view = { λ serial. serial.high * 2 ^ 128 + serial.low };

    ghost invariant = { λ serial. (serial.high < 2 ^ 31) × (serial.low < 2 ^ 128)
        × (1 ≤ serial.high * 2 ^ 128 + serial.low) };

    ghost inverse = { λ number. record { high = number / 2 ^ 128; low = number % 2 ^ 128 } };
}

// The comparisons are written out so that contracts compare the numbers, and not `high` and `low`.
impl PartialEq for Serial {
    ghost eq = { ◌==◌ };

    ghost laws = { Prim.search (comparing, rules) };

    fn eq(&self, other: &Serial) -> bool {
        self.high == other.high && self.low == other.low
    }
}

impl Eq for Serial {
    ghost laws = { Prim.search (comparing, rules) };
}

impl Ord for Serial {
    ghost cmp = { nat_cmp };

    ghost total = { Prim.search (comparing, rules) };

    ghost matches_partial_cmp = { Prim.search (comparing, rules) };

    ghost matches_eq = { Prim.search (comparing, rules) };

    fn cmp(&self, other: &Serial) -> Ordering {
        self.high.cmp(&other.high).then(self.low.cmp(&other.low))
    }
}

impl PartialOrd for Serial {
    ghost partial_cmp = { as_partial_cmp nat_cmp };

    ghost laws = { partial_order_from_own_ties (Prim.search (comparing, rules)) (Prim.search (comparing, rules)) };

    fn partial_cmp(&self, other: &Serial) -> Option<Ordering> {
        Some(self.cmp(other))
    }
}

impl Serial {
    /// Reads 1 to 40 hexadecimal digits of either case, also with leading zeros. `None` for any other text, for 0, and from 2^159 on.
    pub fn read(text: &[u8]) -> Option<Serial>
        ensures read { MatchOption result ((n : ℕ) → ¬ IsSerialText text.now n) (IsSerialText text.now) }
        ensures exact { result ≡ serial_of text.now }
    {
        if text.is_empty() || text.len() > MOST_DIGITS {
            return None;
        }
        let (high, low) = text.split_at(text.len().saturating_sub(LOW_DIGITS));
        Serial::of_halves(read_digits(high, 16)?, read_digits(low, 16)?)
    }

    /// Reads the contents octets of a DER INTEGER (X.690 8.3). `None` if there are none, if fewer would do, for 0 or less, and from 2^159 on.
    pub fn from_der(octets: &[u8]) -> Option<Serial>
        ensures read { MatchOption result ((n : ℕ) → IsSerial n → ¬ IsInteger octets.now n)
            (λ n. IsSerial n × IsInteger octets.now n) }
        ensures exact { MatchOption result ((n : ℕ) → IsSerial n → octets.now ≢ integer n)
            (λ n. octets.now ≡ integer n) }
    {
        match octets {
            [first, ..] if *first < 128 && is_shortest(octets) => Serial::from_big_endian(octets),
            _ => None,
        }
    }

    /// The serial number in exactly 20 big-endian bytes, as [`Serial::bytes20`] gives them. `None` for another length, for 0, and from 2^159 on.
    pub fn from_bytes20(bytes: &[u8]) -> Option<Serial>
        ensures { MatchOption result ((n : ℕ) → IsSerial n → bytes.now ≢ serial_bytes n)
            (λ n. IsSerial n × (bytes.now ≡ serial_bytes n)) }
    {
        if bytes.len() == BYTES {
            Serial::from_big_endian(bytes)
        } else {
            None
        }
    }

    /// The number as 20 big-endian bytes.
    pub fn bytes20(self) -> [u8; 20]
        ensures bytes { result ≡ serial_bytes self }
        ensures value { value result ≡ self }
        ensures in_range { IsSerial self }
    {
        let mut bytes = [0; BYTES];
        let (high, low) = bytes.split_at_mut(BYTES - LOW_BYTES);
        high.copy_from_slice(&self.high.to_be_bytes());
        low.copy_from_slice(&self.low.to_be_bytes());
        bytes
    }

    /// The number as 40 hexadecimal digits in lower case, which [`Serial::read`] reads back.
    pub fn text(self) -> [u8; 40]
        ensures text { result ≡ serial_text self }
        ensures reads_back { IsSerialText result self }
    {
        let mut text = [0; MOST_DIGITS];
        // Always `Ok`: there is room for the two digits of each byte.
        let _ = hex::encode_to_slice(self.bytes20().as_slice(), &mut text);
        text
    }

    fn from_big_endian(bytes: &[u8]) -> Option<Serial>
        ensures { SomeIff result ((length bytes.now ≤ 20) × IsSerial (value bytes.now)) (value bytes.now) }
    {
        if bytes.len() > BYTES {
            return None;
        }
        let (high, low) = bytes.split_at(bytes.len().saturating_sub(LOW_BYTES));
        Serial::of_halves(big_endian(high), big_endian(low))
    }

    /// The serial number `high` * 2^128 + `low`. `None` for 0, and for `high` from 2^31 on, since that makes 2^159 or more.
    fn of_halves(high: u128, low: u128) -> Option<Serial>
        ensures { SomeIff result (IsSerial (high * 2 ^ 128 + low)) (high * 2 ^ 128 + low) }
    {
        if high >= 1 << 31 || (high == 0 && low == 0) {
            return None;
        }
        Some(Serial {
            high: high as u32,
            low,
        })
    }
}

/// Whether these are the fewest contents octets of an INTEGER: at least one, and the first nine bits neither all zero nor all one (X.690 8.3.2).
fn is_shortest(octets: &[u8]) -> bool
    ensures { IsTrue result ↔ IsShortest octets.now }
{
    match octets {
        [] => false,
        [_] => true,
        [first, second, ..] => {
            let all_zero = *first == 0 && *second < 128;
            let all_one = *first == 255 && *second >= 128;
            !all_zero && !all_one
        }
    }
}

fn big_endian(bytes: &[u8]) -> u128
    requires { length bytes.now ≤ 16 }
    ensures { result ≡ value bytes.now }
{
    let mut number = 0;
    for byte in bytes {
        number = number * 256 + u128::from(*byte);
    }
    number
}
