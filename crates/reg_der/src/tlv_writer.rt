//! Appends DER values (tag, length and contents) to a vector. [`put`] and each `put_` function append one value ([`put_raw`]: the bytes as they are).
//! A call first allocates the capacity for the whole value, if the vector lacks it. If it can't, the error is `Memory`, and the bytes are unchanged.

ghost use Rattle.std.specs.Prelude.{◌≡◌, ℕ, List, ◌∷◌, ◌++◌, ◌+◌, ◌≤◌, ◌<◌, ◌%◌, ◌^◌, length, OnOk, OnErr, vec_capacity};
ghost use Rattle.reg_core.specs.Integer.{IsInteger, integer, without_zeros, with_clear_bit};
ghost use Rattle.reg_core.specs.Calendar as calendar;
ghost use Rattle.reg_der.specs.Der.{IsTlv, tlv, length_octets};
ghost use Rattle.reg_der.specs.WrittenValues.{integer_value, bits_value, general_value, time_value};
ghost use Rattle.reg_core.specs.Buffers.{AppendsOnOk, ItemsOnOk, LacksCapacityFor};

use crate::tags::{BIT_STRING, GENERALIZED_TIME, INTEGER, UTC_TIME};
use crate::times::{general_text, utc_text};
use reg_core::{Memory, Moment, Serial};
use std::alloc::Global;

/// A length below 128 is one octet. A greater length begins with an octet that is 128 plus the number of length octets after it (X.690 8.1.3).
const LONG_FORM: u8 = 128;

const LAST_UTC_YEAR: u16 = 2049;

/// Appends the value with this tag (one octet: its low five bits aren't all ones) and these contents, fewer than 2^32 bytes.
#[tactic(auto, unfolding(crate::specs::Der::tlv))]
pub fn put(out: &mut Vec<u8>, tag: u8, contents: &[u8]) -> Result<(), Memory>
    requires low_tag { tag % 32 < 31 }
    requires short { length contents.now < 2 ^ 32 }
    ensures ok { AppendsOnOk out.old out.new result (tlv tag contents.now) }
    ensures value { IsTlv (tlv tag contents.now) tag contents.now }
    ensures length_at_most { OnOk result
        (length out.new.items ≤ length out.old.items + length contents.now + 6) }
    ensures short_form { length contents.now < 128
        → OnOk result (length out.new.items ≡ length out.old.items + length contents.now + 2) }
    ensures err { OnErr result (out.new.items ≡ out.old.items) }
    ensures full { LacksCapacityFor out.old result (tlv tag contents.now) }
    ensures room { vec_capacity out.old ≤ vec_capacity out.new }
{
    start_value(out, tag, contents.len())?;
    append(out, contents);
    Ok(())
}

/// Appends bytes as they are, such as a whole DER value.
pub fn put_raw(out: &mut Vec<u8>, bytes: &[u8]) -> Result<(), Memory>
    ensures ok { AppendsOnOk out.old out.new result bytes.now }
    ensures length_is { OnOk result (length out.new.items ≡ length out.old.items + length bytes.now) }
{
    out.extend_from_slice(bytes).map_err(|_| Memory)
}

/// A new vector with these bytes; `Memory` if out of memory.
pub fn copy_of(alloc: Global, bytes: &[u8]) -> Result<Vec<u8>, Memory>
    ensures { ItemsOnOk result bytes.now }
{
    Vec::from_slice(alloc, bytes).map_err(|_| Memory)
}

/// Appends the number as an INTEGER.
pub fn put_number(out: &mut Vec<u8>, number: u64) -> Result<(), Memory>
    ensures ok { AppendsOnOk out.old out.new result (integer_value number) }
    ensures value { IsTlv (integer_value number) 2 (integer number) }
    ensures integer { IsInteger (integer number) number }
    ensures length_at_most { OnOk result (length out.new.items ≤ length out.old.items + 11) }
    ensures err { OnErr result (out.new.items ≡ out.old.items) }
    ensures full { LacksCapacityFor out.old result (integer_value number) }
    ensures room { vec_capacity out.old ≤ vec_capacity out.new }
{
    put_integer(out, &number.to_be_bytes())
}

/// Appends the serial number as an INTEGER (RFC 5280 4.1.2.2).
pub fn put_serial(out: &mut Vec<u8>, serial: Serial) -> Result<(), Memory>
    ensures ok { AppendsOnOk out.old out.new result (integer_value serial) }
    ensures value { IsTlv (integer_value serial) 2 (integer serial) }
    ensures integer { IsInteger (integer serial) serial }
    ensures length_at_most { OnOk result (length out.new.items ≤ length out.old.items + 22) }
    ensures err { OnErr result (out.new.items ≡ out.old.items) }
    ensures full { LacksCapacityFor out.old result (integer_value serial) }
    ensures room { vec_capacity out.old ≤ vec_capacity out.new }
{
    put_integer(out, &serial.bytes20())
}

/// Appends a BIT STRING of fewer than 2^32 - 1 bytes, without unused bits (X.690 8.6.2.2).
pub fn put_bits(out: &mut Vec<u8>, bytes: &[u8]) -> Result<(), Memory>
    requires { length bytes.now + 1 < 2 ^ 32 }
    ensures ok { AppendsOnOk out.old out.new result (bits_value bytes.now) }
    ensures value { IsTlv (bits_value bytes.now) 3 (0 ∷ bytes.now) }
    ensures length_at_most { OnOk result
        (length out.new.items ≤ length out.old.items + length bytes.now + 7) }
    ensures err { OnErr result (out.new.items ≡ out.old.items) }
    ensures full { LacksCapacityFor out.old result (bits_value bytes.now) }
    ensures room { vec_capacity out.old ≤ vec_capacity out.new }
{
    put_with_leading_zero(out, BIT_STRING, bytes)
}

/// Appends the Time of the moment (RFC 5280 4.1.2.5), in UTC: a UTCTime through 2049, a GeneralizedTime from 2050 on.
#[tactic(auto, unfolding(crate::specs::WrittenValues::time_value, reg_core::specs::Calendar::utc_text, reg_core::specs::Calendar::general_text))]
pub fn put_utc_or_general(out: &mut Vec<u8>, moment: Moment) -> Result<(), Memory>
    ensures ok { AppendsOnOk out.old out.new result (time_value moment) }
    ensures value { (tag : ℕ) × (contents : List ℕ) × IsTlv (time_value moment) tag contents }
    ensures length_at_most { OnOk result (length out.new.items ≤ length out.old.items + 17) }
    ensures err { OnErr result (out.new.items ≡ out.old.items) }
    ensures full { LacksCapacityFor out.old result (time_value moment) }
    ensures room { vec_capacity out.old ≤ vec_capacity out.new }
{
    let civil = moment.civil();
    if civil.year <= LAST_UTC_YEAR {
        put(out, UTC_TIME, &utc_text(civil))
    } else {
        put(out, GENERALIZED_TIME, &general_text(civil))
    }
}

/// Appends the GeneralizedTime of the moment (RFC 5280 4.1.2.5.2), to the second and in UTC.
#[tactic(auto, unfolding(reg_core::specs::Calendar::general_text))]
pub fn put_general(out: &mut Vec<u8>, moment: Moment) -> Result<(), Memory>
    ensures ok { AppendsOnOk out.old out.new result (general_value moment) }
    ensures value { IsTlv (general_value moment) 24 (calendar.general_text moment) }
    ensures length_at_most { OnOk result (length out.new.items ≤ length out.old.items + 17) }
    ensures err { OnErr result (out.new.items ≡ out.old.items) }
    ensures full { LacksCapacityFor out.old result (general_value moment) }
    ensures room { vec_capacity out.old ≤ vec_capacity out.new }
{
    put(out, GENERALIZED_TIME, &general_text(moment.civil()))
}

/// Appends the INTEGER of a number. `octets` are its big-endian octets, perhaps with zero octets in front.
fn put_integer(out: &mut Vec<u8>, octets: &[u8]) -> Result<(), Memory>
    requires { length octets.now ≤ 20 }
    ensures ok { AppendsOnOk out.old out.new result (tlv 2 (with_clear_bit (without_zeros octets.now))) }
    ensures length_at_most { OnOk result
        (length out.new.items ≤ length out.old.items + length octets.now + 3) }
    ensures size { OnOk result
        (length out.new.items
        ≡ length out.old.items + length (with_clear_bit (without_zeros octets.now)) + 2) }
    ensures err { OnErr result (out.new.items ≡ out.old.items) }
    ensures full { LacksCapacityFor out.old result (tlv 2 (with_clear_bit (without_zeros octets.now))) }
    ensures room { vec_capacity out.old ≤ vec_capacity out.new }
{
    let trimmed = trim_zeros(octets);
    match trimmed {
        [first, ..] if *first < 128 => put(out, INTEGER, trimmed),
        // The first octet's highest bit is the sign. A zero octet in front keeps it clear, and is the only octet for the number 0 (X.690 8.3.3).
        _ => put_with_leading_zero(out, INTEGER, trimmed),
    }
}

/// Appends the value with this tag whose contents are a zero octet and then the bytes. In a BIT STRING, that octet is the number of unused bits.
#[tactic(auto, unfolding(crate::specs::Der::tlv))]
fn put_with_leading_zero(out: &mut Vec<u8>, tag: u8, bytes: &[u8]) -> Result<(), Memory>
    requires { length bytes.now + 1 < 2 ^ 32 }
    ensures ok { AppendsOnOk out.old out.new result (tlv tag (0 ∷ bytes.now)) }
    ensures length_at_most { OnOk result
        (length out.new.items ≤ length out.old.items + length bytes.now + 7) }
    ensures short_form { length bytes.now < 127
        → OnOk result (length out.new.items ≡ length out.old.items + length bytes.now + 3) }
    ensures err { OnErr result (out.new.items ≡ out.old.items) }
    ensures full { LacksCapacityFor out.old result (tlv tag (0 ∷ bytes.now)) }
    ensures room { vec_capacity out.old ≤ vec_capacity out.new }
{
    start_value(out, tag, bytes.len() + 1)?;
    append(out, &[0]);
    append(out, bytes);
    Ok(())
}

/// Appends the tag and the length octets (X.690 10.1) of a value with `size` octets of contents, and reserves the capacity for the contents.
#[tactic(auto, unfolding(crate::specs::Der::length_octets, crate::specs::Der::fewest))]
fn start_value(out: &mut Vec<u8>, tag: u8, size: usize) -> Result<(), Memory>
    requires { size < 2 ^ 32 }
    ensures ok { AppendsOnOk out.old out.new result (tag ∷ length_octets size) }
    ensures contents { OnOk result (length out.new.items + size ≤ vec_capacity out.new) }
    ensures length_at_most { OnOk result (length out.new.items ≤ length out.old.items + 6) }
    ensures short_form { size < 128 → OnOk result (length out.new.items ≡ length out.old.items + 2) }
    ensures err { OnErr result (out.new.items ≡ out.old.items) }
    ensures full { OnErr result
        (vec_capacity out.old < length out.old.items + 1 + length (length_octets size) + size) }
    ensures room { vec_capacity out.old ≤ vec_capacity out.new }
{
    if size < 128 {
        reserve(out, 2 + size)?;
        append(out, &[tag, size as u8]);
        return Ok(());
    }
    let octets = (size as u32).to_be_bytes();
    let trimmed = trim_zeros(&octets);
    reserve(out, 2 + trimmed.len() + size)?;
    append(out, &[tag, LONG_FORM + trimmed.len() as u8]);
    append(out, trimmed);
    Ok(())
}

fn reserve(out: &mut Vec<u8>, more: usize) -> Result<(), Memory>
    ensures same { out.new.items ≡ out.old.items }
    ensures ok { OnOk result (length out.old.items + more ≤ vec_capacity out.new) }
    ensures full { OnErr result (vec_capacity out.old < length out.old.items + more) }
    ensures room { vec_capacity out.old ≤ vec_capacity out.new }
{
    out.reserve(more).map_err(|_| Memory)
}

/// Appends bytes for which `out` has the capacity. So it allocates nothing, and the ignored result can't be an error.
fn append(out: &mut Vec<u8>, bytes: &[u8])
    requires { length out.old.items + length bytes.now ≤ vec_capacity out.old }
    ensures items { out.new.items ≡ out.old.items ++ bytes.now }
    ensures length { length out.new.items ≡ length out.old.items + length bytes.now }
    ensures room { vec_capacity out.old ≤ vec_capacity out.new }
{
    let _ = out.extend_from_slice(bytes);
}

fn trim_zeros(octets: &[u8]) -> &[u8]
    ensures digits { result.now ≡ without_zeros octets.now }
    ensures shorter { length result.now ≤ length octets.now }
{
    let mut digits = octets;
    while let [0, rest @ ..] = digits {
        digits = rest;
    }
    digits
}
