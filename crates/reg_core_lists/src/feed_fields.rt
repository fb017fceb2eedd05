//! Reads lines of the changes feed (pages of rows, as text, for copies of a register) and their fields. Also reads some texts that no feed has, such
//! as numbers with leading zeros. So `feed_reader.rt` writes each part of a page again from what was read, and refuses a page whose text differs.

ghost use Rattle.std.specs.Prelude.{◌≡◌, ◌≢◌, ◌<◌, ◌+◌, ◌++◌, ℕ, List, IfSome, MatchOption, length, option_map};
ghost use Rattle.reg_core.specs.Calendar.{moment_of};
ghost use Rattle.reg_core.specs.Number.{number_of};
ghost use Rattle.reg_core.specs.Serial.{serial_of};
ghost use Rattle.reg_core_lists.specs.FeedReading.{after_prefix, allowed_name_of, crl_line_read, field_read, ground_of, head_read, is_other_version, issuer_read, last_line_read, line_read, octet_of, policy_read, positions_in_line, value_read, version_read};
ghost use Rattle.reg_core_lists.specs.ReceivedPages.{head_fields_of};

use crate::list_parameters::{index_of, position_of};
use crate::positions::Positions;
use reg_core::{CrlRow, Ground, Label, Moment, Serial, read_number};

/// Whether the page's first line is `changes N` with a version N other than 1. Without a number there, the page is malformed.
pub(crate) fn is_other_version(page: &[u8]) -> bool
    ensures { result ≡ is_other_version page.now }
{
    match read_version(page) {
        Some(version) => version != 1,
        None => false,
    }
}

#[tactic(auto, unfolding(crate::specs::FeedReading::version_read))]
fn read_version(page: &[u8]) -> Option<u64>
    ensures { result ≡ version_read page.now }
{
    let (mut fields, _) = line_after(b"changes", page)?;
    next_value(&mut fields)
}

/// The CRL whose line begins the text (its number and thisUpdate), and how many octets of its DER follow that line.
#[tactic(auto, unfolding(crate::specs::FeedReading::crl_line_read))]
pub(crate) fn read_crl_line(text: &[u8]) -> Option<(CrlRow, u64)>
    ensures { result ≡ crl_line_read text.now }
{
    let (mut fields, _) = line_after(b"crl", text)?;
    let row = CrlRow {
        number: next_value(&mut fields)?,
        this_update: next_value(&mut fields)?,
    };
    Some((row, next_value(&mut fields)?))
}

/// The last line of a page: whether the page is the last one (`end`, not `more`), and the positions of a copy that has this page.
#[tactic(auto, unfolding(crate::specs::FeedReading::last_line_read))]
pub(crate) fn read_last_line(text: &[u8]) -> Option<(bool, Positions)>
    ensures { result ≡ last_line_read text.now }
{
    match read_positions(b"end", text) {
        Some(positions) => Some((true, positions)),
        None => Some((false, read_positions(b"more", text)?)),
    }
}

#[tactic(auto, unfolding(crate::specs::FeedReading::positions_in_line))]
fn read_positions(word: &[u8], text: &[u8]) -> Option<Positions>
    ensures { result ≡ positions_in_line word.now text.now }
{
    let (fields, _) = line_after(word, text)?;
    let (positions, _) = take_field(fields)?;
    Positions::read(positions)
}

/// The fields of the lines before the rows: the columns `name` and `pubkey` (`key`) of the table `office`, in hexadecimal digits; the lives of CRLs
/// and OCSP answers in seconds; the most rows of a table (`cap`); the text of the schedule, whose steps `MOMENT=DAYS` give the longest validity of a
/// certificate by its notBefore; the moment of the last accepted command.
#[derive(Clone, Copy)]
pub(crate) struct HeadFields<'a> {
    pub(crate) name: &'a [u8],
    pub(crate) key: &'a [u8],
    pub(crate) crl_life: u64,
    pub(crate) ocsp_life: u64,
    pub(crate) cap: u64,
    pub(crate) steps: &'a [u8],
    pub(crate) last: Moment,
}

#[tactic(auto, unfolding(crate::specs::FeedReading::head_read, crate::specs::FeedReading::issuer_read, crate::specs::FeedReading::policy_read))]
pub(crate) fn read_head_fields(text: &[u8]) -> Option<HeadFields<'_>>
    ensures { option_map head_fields_of result ≡ head_read text.now }
{
    let rest = after_prefix(b"changes 1\n", text)?;
    let (name, key, rest) = read_issuer(rest)?;
    let (crl_life, ocsp_life, cap, rest) = read_policy(rest)?;
    let (steps, rest) = line_after(b"schedule", rest)?;
    let (mut fields, _) = line_after(b"last", rest)?;
    let last = next_value(&mut fields)?;
    Some(HeadFields {
        name,
        key,
        crl_life,
        ocsp_life,
        cap,
        steps,
        last,
    })
}

#[tactic(auto, unfolding(crate::specs::FeedReading::issuer_read))]
fn read_issuer(text: &[u8]) -> Option<(&[u8], &[u8], &[u8])>
    ensures { option_map (λ it. (it.0.now, it.1.now, it.2.now)) result ≡ issuer_read text.now }
{
    let (fields, behind) = line_after(b"issuer", text)?;
    let (name, fields) = take_field(fields)?;
    let (key, _) = take_field(fields)?;
    Some((name, key, behind))
}

#[tactic(auto, unfolding(crate::specs::FeedReading::policy_read))]
fn read_policy(text: &[u8]) -> Option<(u64, u64, u64, &[u8])>
    ensures { option_map (λ it. (it.0, it.1, it.2, it.3.now)) result ≡ policy_read text.now }
{
    let (mut fields, behind) = line_after(b"policy", text)?;
    let crl_life = next_value(&mut fields)?;
    let ocsp_life = next_value(&mut fields)?;
    Some((crl_life, ocsp_life, next_value(&mut fields)?, behind))
}

pub(crate) trait FieldValue: Copy {
    ghost use Rattle.std.specs.Prelude.{ℕ, List, Option, ◌≡◌};

    ghost value: { List ℕ → Option Self };

    /// The value with this text; `None` if no value has it. A `Label` must be allowed as a subscriber's name.
    fn of(text: &[u8]) -> Option<Self>
        ensures { result ≡ value text.now };
}

impl FieldValue for u64 {
    ghost value = { number_of };

    fn of(text: &[u8]) -> Option<u64> {
        read_number(text)
    }
}

impl FieldValue for u8 {
    ghost value = { octet_of };

    fn of(text: &[u8]) -> Option<u8> {
        let number = read_number(text)?;
        if number < 256 {
            Some(number as u8)
        } else {
            None
        }
    }
}

impl FieldValue for Serial {
    ghost value = { serial_of };

    fn of(text: &[u8]) -> Option<Serial> {
        Serial::read(text)
    }
}

impl FieldValue for Moment {
    ghost value = { moment_of };

    fn of(text: &[u8]) -> Option<Moment> {
        Moment::read(text)
    }
}

impl FieldValue for Label {
    ghost value = { allowed_name_of };

    fn of(text: &[u8]) -> Option<Label> {
        let name = Label::of(text)?;
        if name.is_name() { Some(name) } else { None }
    }
}

impl FieldValue for Ground {
    ghost value = { ground_of };

    fn of(text: &[u8]) -> Option<Ground> {
        match Ground::read(text) {
            Ok(ground) => Some(ground),
            Err(_) => None,
        }
    }
}

/// The value of the first field, or `None` if the field is missing or is no `T`. The other fields remain in `fields`.
#[tactic(auto, unfolding(crate::specs::FeedReading::value_read))]
pub(crate) fn next_value<'a, T: FieldValue>(fields: &mut &'a [u8]) -> Option<T>
    ensures { option_map (λ it. (it, fields.new.now)) result ≡ value_read T.value fields.old.now }
{
    let (text, others) = take_field(*fields)?;
    *fields = others;
    T::of(text)
}

/// The text of the first field, without the space before it; and the other fields. `index_of` gives the index of the next space, or else the length.
#[tactic(auto, unfolding(crate::specs::FeedReading::field_read))]
pub(crate) fn take_field(fields: &[u8]) -> Option<(&[u8], &[u8])>
    ensures value { option_map (λ it. (it.0.now, it.1.now)) result ≡ field_read fields.now }
    ensures shorter { IfSome result (λ it. length it.1.now < length fields.now) }
{
    let rest = after_prefix(b" ", fields)?;
    let end = index_of(rest, b' ');
    Some((&rest[..end], &rest[end..]))
}

/// The fields of the first line, each with a space before it; the text after that line. `None` if the line doesn't begin with `word` or has no LF.
#[tactic(auto, unfolding(crate::specs::FeedReading::line_read))]
pub(crate) fn line_after<'a>(word: &[u8], text: &'a [u8]) -> Option<(&'a [u8], &'a [u8])>
    ensures value { option_map (λ it. (it.0.now, it.1.now)) result ≡ line_read word.now text.now }
    ensures shorter { IfSome result (λ it. length it.1.now < length text.now) }
{
    let rest = after_prefix(word, text)?;
    let end = position_of(rest, b'\n')?;
    Some((&rest[..end], &rest[end + 1..]))
}

pub(crate) fn after_prefix<'a>(prefix: &[u8], text: &'a [u8]) -> Option<&'a [u8]>
    ensures value { option_map (λ rest. rest.now) result ≡ after_prefix prefix.now text.now }
    ensures text { MatchOption result ((rest : List ℕ)
        → text.now ≢ prefix.now ++ rest) (λ rest. text.now ≡ prefix.now ++ rest.now) }
    ensures shorter { IfSome result (λ rest. length rest.now + length prefix.now ≡ length text.now) }
{
    text.strip_prefix(prefix)
}
