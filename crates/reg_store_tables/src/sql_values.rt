//! Converts numbers to SQL INTEGERs, and reads column `at` of a row, counted from 0, as a value of the register; `None` for a column of another type
//! or with an invalid value. Clause `read`: a value that a register writes is read back. Clause `in_column`: the column has the value that is read.

ghost use Rattle.std.specs.Prelude.{◌≡◌, ◌≢◌, ◌<◌, ◌≤◌, ◌^◌, ℕ, Bool, List, Option, cond, length, Some, OnOk, IfOk, IfErr, IfSome, IsSomeAnd, MatchOption};
ghost use Rattle.sqlite_value.specs.declared.value.Value.TheVariants.{Text, Blob};
ghost use Rattle.sqlite_value.specs.Order.{column};
ghost use Rattle.reg_core.specs.Calendar.{IsMoment, clock_end};
ghost use Rattle.reg_core.specs.Label.{IsLabel};
ghost use Rattle.reg_core.specs.Serial.{IsSerial};
ghost use Rattle.reg_store_tables.specs.DerivedRows.{number_or_null};
ghost use Rattle.reg_store_tables.specs.Rows.{number, serial_value, ground_index};

use crate::fault::DatabaseFault;
use reg_core::{Ground, Label, Moment, Serial};
use sqlite::Row;
use sqlite::types::{Value, ValueRef};

/// The number as an SQL INTEGER, the key of a look-up. `None` above 2^63 - 1, the greatest INTEGER: no row has such a key.
pub(crate) fn sql_key(n: u64) -> Option<Value>
    ensures value { MatchOption result (2 ^ 63 ≤ n) (λ value. (n < 2 ^ 63) × (value ≡ number n)) }
{
    match i64::try_from(n) {
        Ok(n) => Some(Value::Int(n)),
        Err(_) => None,
    }
}

/// The longest life of a CRL or an OCSP response, from thisUpdate to nextUpdate, in seconds: ten days less a second, as in `reg_core::Policy`.
const LONGEST_LIFE: u64 = 863_999;

pub(crate) fn sql_number(n: u64) -> Result<Value, DatabaseFault>
    ensures value { IfOk result (λ value. value ≡ number n) }
    ensures fits { OnOk result (n < 2 ^ 63) }
    ensures refused { IfErr result (λ fault. (fault ≡ DatabaseFault.Store) × (2 ^ 63 ≤ n)) }
{
    sql_key(n).ok_or(DatabaseFault::Store)
}

/// The number in a column; `None` for a negative one.
pub fn number_at(row: &Row, at: usize) -> Option<u64>
    ensures read { (n : ℕ) → column row.now at ≡ number n → IsSomeAnd result (λ read. read ≡ n) }
    ensures in_column { MatchOption result ((n : ℕ) → column row.now at ≢ number n)
        (λ n. column row.now at ≡ number n) }
{
    match row.get_ref(at) {
        Ok(ValueRef::Int(n)) => match u64::try_from(n) {
            Ok(n) => Some(n),
            Err(_) => None,
        },
        Ok(_) => None,
        Err(_) => None,
    }
}

/// The number in a column that may be NULL (`Some(None)`). `None` for a column beyond the row's end, for which `column` in contracts is NULL.
pub fn number_or_null_at(row: &Row, at: usize) -> Option<Option<u64>>
    ensures read { (n : Option ℕ) → at < length row.now → column row.now at ≡ number_or_null n
        → result ≡ Some n }
    ensures in_column { IfSome result (λ n. column row.now at ≡ number_or_null n) }
{
    match row.get_ref(at) {
        Ok(ValueRef::Null) => Some(None),
        Ok(_) => Some(Some(number_at(row, at)?)),
        Err(_) => None,
    }
}

/// The moment in a column, in seconds since 1970; `None` from the year 10000 on.
pub fn moment_at(row: &Row, at: usize) -> Option<Moment>
    ensures read { (n : ℕ) → column row.now at ≡ number n
        → MatchOption result (253402300800 ≤ n) (λ read. read ≡ n) }
    ensures in_column { IfSome result (λ n. column row.now at ≡ number n) }
    ensures early { IfSome result IsMoment }
{
    Moment::of_secs(number_at(row, at)?)
}

/// The moment in a column that has only accepted moments; `None` from [`Moment::CLOCK_END`] on, because no such moment is accepted.
pub fn clock_moment_at(row: &Row, at: usize) -> Option<Moment>
    ensures read { (n : ℕ) → column row.now at ≡ number n
        → MatchOption result (clock_end ≤ n) (λ read. read ≡ n) }
    ensures in_column { IfSome result (λ n. column row.now at ≡ number n) }
    ensures early { IfSome result (λ n. n < clock_end) }
{
    let moment = moment_at(row, at)?;
    if moment < Moment::CLOCK_END {
        Some(moment)
    } else {
        None
    }
}

pub(crate) fn life_at(row: &Row, at: usize) -> Option<u64>
    ensures read { (n : ℕ) → column row.now at ≡ number n
        → MatchOption result (863999 < n) (λ read. read ≡ n) }
    ensures short { IfSome result (λ n. n ≤ 863999) }
{
    let life = number_at(row, at)?;
    if life <= LONGEST_LIFE {
        Some(life)
    } else {
        None
    }
}

pub fn serial_at(row: &Row, at: usize) -> Option<Serial>
    ensures read { (serial : ℕ) → IsSerial serial → column row.now at ≡ serial_value serial
        → result ≡ Some serial }
    ensures in_column { IfSome result (λ serial.
        IsSerial serial × (column row.now at ≡ serial_value serial)) }
{
    match row.get_ref(at) {
        Ok(ValueRef::Blob(bytes)) => Serial::from_bytes20(bytes),
        Ok(_) => None,
        Err(_) => None,
    }
}

/// The label in a column: text of 1 to 64 bytes.
pub fn label_at(row: &Row, at: usize) -> Option<Label>
    ensures read { (text : List ℕ) → column row.now at ≡ Text text
        → MatchOption result (¬ IsLabel text) (λ read. read ≡ text) }
    ensures in_column { IfSome result (λ text. column row.now at ≡ Text text) }
{
    match row.get_ref(at) {
        Ok(ValueRef::Text(text)) => Label::of(text),
        Ok(_) => None,
        Err(_) => None,
    }
}

/// The ground (why to revoke) in a column, stored as its index in the list of grounds, from 1 on.
pub fn ground_at(row: &Row, at: usize) -> Option<Ground>
    ensures read { (cause : Ground) → column row.now at ≡ number (ground_index cause) → result ≡ Some cause }
    ensures in_column { IfSome result (λ cause. column row.now at ≡ number (ground_index cause)) }
{
    match number_at(row, at)? {
        1 => Some(Ground::Asked),
        2 => Some(Ground::Unauthorized),
        3 => Some(Ground::KeyCompromise),
        4 => Some(Ground::ControlLost),
        5 => Some(Ground::Affiliation),
        6 => Some(Ground::Superseded),
        7 => Some(Ground::Cessation),
        8 => Some(Ground::Misuse),
        9 => Some(Ground::NameNotPermitted),
        10 => Some(Ground::Nonconforming),
        11 => Some(Ground::Inaccurate),
        _ => None,
    }
}

pub fn flag_at(row: &Row, at: usize) -> Option<bool>
    ensures read { (flag : Bool) → column row.now at ≡ number (cond flag 1 0) → result ≡ Some flag }
    ensures in_column { IfSome result (λ flag. column row.now at ≡ number (cond flag 1 0)) }
{
    match number_at(row, at)? {
        0 => Some(false),
        1 => Some(true),
        _ => None,
    }
}

/// The reasonCode in a column (RFC 5280 5.3.1): any number up to 255, also one that is no reasonCode.
pub fn reason_at(row: &Row, at: usize) -> Option<u8>
    ensures read { (n : ℕ) → column row.now at ≡ number n → MatchOption result (256 ≤ n) (λ read. read ≡ n) }
    ensures in_column { IfSome result (λ n. column row.now at ≡ number n) }
{
    match u8::try_from(number_at(row, at)?) {
        Ok(reason) => Some(reason),
        Err(_) => None,
    }
}

pub fn bytes_at(row: &Row, at: usize) -> Option<&[u8]>
    ensures read { (bytes : List ℕ) → column row.now at ≡ Blob bytes
        → IsSomeAnd result (λ read. read.now ≡ bytes) }
    ensures in_column { MatchOption result ((bytes : List ℕ) → column row.now at ≢ Blob bytes)
        (λ bytes. column row.now at ≡ Blob bytes.now) }
{
    match row.get_ref(at) {
        Ok(ValueRef::Blob(bytes)) => Some(bytes),
        Ok(_) => None,
        Err(_) => None,
    }
}
