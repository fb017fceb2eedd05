//! Positions in the changes feed: how far a copy of a register has got, and a digest by which a register recognizes its own history.

ghost use Rattle.std.specs.Prelude.{◌≡◌, ◌<◌, ◌↔◌, ◌==◌, cond, length, option_map, IfSome, IsTrue};
ghost use Rattle.std.specs.List.{position};
ghost use Rattle.std.specs.Result.{result_ok};
ghost use Rattle.hex.specs.Hex.{decode_sized};
ghost use Rattle.reg_core.specs.Buffers.{AppendsOnOk};
ghost use Rattle.reg_core_lists.specs.Feed.{no_declines, zero_counts};
ghost use Rattle.reg_core_lists.specs.Positions.{counts_read, row_counts_text, declines_read, declines_text, is_dot, number_and_rest, part_text, positions_of_text, positions_text, window_head};

use crate::feed_lines::put_issuer;
use reg_core::{Decimal, read_number};
use std::alloc::{AllocError, Global};

/// The most rows of each table in the digest of [`Positions`]: the copy's last ones (all would take too long). Of CRLs: the end of the last.
pub const WINDOW: u64 = 32;

/// How many rows of each table a copy of a register has: the first ones, in the order of entry.
#[derive(Clone, Copy, PartialEq, Eq)]
pub struct RowCounts {
    pub subscribers: u64,
    pub orders: u64,
    pub certificates: u64,
    pub requests: u64,
    pub revocations: u64,
    pub crls: u64,
}

/// How many requests are declined in a copy of a register, and the highest of their ids (`last`; 0 if there are none).
#[derive(Clone, Copy, PartialEq, Eq)]
pub struct Declines {
    pub count: u64,
    pub last: u64,
}

impl Declines {
    /// `count` is how many requests with ids up to `self.last` are declined in the register. If it equals `self.count`, the result is `self`. If not,
    /// one of these requests was declined after the copy got `self`: the result is `no_declines`, so that the feed has all declines again.
    pub fn if_counted(&self, count: u64) -> Declines
        ensures { result ≡ cond (count == self.now.count) self.now no_declines }
    {
        if count == self.count {
            *self
        } else {
            no_declines()
        }
    }
}

/// How far a copy of a register has got. `digest` is the SHA-256 that `digest_of` makes for the counts.
#[derive(Clone, Copy, PartialEq, Eq)]
pub struct Positions {
    pub counts: RowCounts,
    pub declines: Declines,
    pub digest: [u8; 32],
}

/// The counts of a copy that has nothing yet.
pub fn zero_counts() -> RowCounts
    ensures { result ≡ zero_counts }
{
    RowCounts {
        subscribers: 0,
        orders: 0,
        certificates: 0,
        requests: 0,
        revocations: 0,
        crls: 0,
    }
}

/// The declines of a copy that has nothing yet.
pub fn no_declines() -> Declines
    ensures { result ≡ no_declines }
{
    Declines { count: 0, last: 0 }
}

impl Positions {
    /// Reads six counts of rows, the two numbers of declines, and the digest in 64 hexadecimal digits, with dots between; `None` for another text.
    #[tactic(auto, unfolding(crate::specs::Positions::positions_of_text))]
    pub fn read(text: &[u8]) -> Option<Positions>
        ensures { result ≡ positions_of_text text.now }
    {
        let (counts, rest) = read_counts(text)?;
        let (declines, rest) = read_declines(rest)?;
        let digest = read_digest(rest)?;
        Some(Positions {
            counts,
            declines,
            digest,
        })
    }

    pub fn has_digest(&self, digest: &[u8; 32]) -> bool
        ensures { IsTrue result ↔ (self.now.digest ≡ digest.now) }
    {
        self.digest.as_slice() == digest.as_slice()
    }
}

#[tactic(auto, unfolding(crate::specs::Positions::counts_read))]
fn read_counts(text: &[u8]) -> Option<(RowCounts, &[u8])>
    ensures { option_map (λ it. (it.0, it.1.now)) result ≡ counts_read text.now }
{
    let (subscribers, rest) = number_before_dot(text)?;
    let (orders, rest) = number_before_dot(rest)?;
    let (certificates, rest) = number_before_dot(rest)?;
    let (requests, rest) = number_before_dot(rest)?;
    let (revocations, rest) = number_before_dot(rest)?;
    let (crls, rest) = number_before_dot(rest)?;
    let counts = RowCounts {
        subscribers,
        orders,
        certificates,
        requests,
        revocations,
        crls,
    };
    Some((counts, rest))
}

#[tactic(auto, unfolding(crate::specs::Positions::declines_read))]
fn read_declines(text: &[u8]) -> Option<(Declines, &[u8])>
    ensures { option_map (λ it. (it.0, it.1.now)) result ≡ declines_read text.now }
{
    let (count, rest) = number_before_dot(text)?;
    let (last, rest) = number_before_dot(rest)?;
    Some((Declines { count, last }, rest))
}

#[tactic(auto, unfolding(crate::specs::Positions::number_and_rest))]
fn number_before_dot(text: &[u8]) -> Option<(u64, &[u8])>
    ensures { option_map (λ it. (it.0, it.1.now)) result ≡ number_and_rest text.now }
{
    let end = dot_in(text)?;
    let number = read_number(&text[..end])?;
    Some((number, &text[end + 1..]))
}

fn dot_in(text: &[u8]) -> Option<usize>
    ensures place { result ≡ position is_dot text.now }
    ensures within { IfSome result (λ at. at < length text.now) }
{
    text.iter().position(|byte| *byte == b'.')
}

fn read_digest(text: &[u8]) -> Option<[u8; 32]>
    ensures { result ≡ result_ok (decode_sized text.now 32) }
{
    let mut digest = [0; 32];
    match hex::decode_to_slice(text, &mut digest) {
        Ok(()) => Some(digest),
        Err(_) => None,
    }
}

/// Appends positions, as [`Positions::read`] reads them. `AllocError` if out of memory: then `out` may have some of the bytes.
#[tactic(auto, unfolding(crate::specs::Positions::positions_text))]
pub fn put_positions(
    alloc: Global,
    out: &mut Vec<u8>,
    positions: &Positions,
) -> Result<(), AllocError>
    ensures { AppendsOnOk out.old out.new result (positions_text positions.now) }
{
    put_counts(out, &positions.counts)?;
    put_declines_part(out, &positions.declines)?;
    let digits = hex::encode(alloc, positions.digest.as_slice())?;
    out.extend_from_slice(digits.as_bytes())
}

#[tactic(auto, unfolding(crate::specs::Positions::row_counts_text))]
fn put_counts(out: &mut Vec<u8>, counts: &RowCounts) -> Result<(), AllocError>
    ensures { AppendsOnOk out.old out.new result (row_counts_text counts.now) }
{
    put_part(out, counts.subscribers)?;
    put_part(out, counts.orders)?;
    put_part(out, counts.certificates)?;
    put_part(out, counts.requests)?;
    put_part(out, counts.revocations)?;
    put_part(out, counts.crls)
}

#[tactic(auto, unfolding(crate::specs::Positions::declines_text))]
fn put_declines_part(out: &mut Vec<u8>, declines: &Declines) -> Result<(), AllocError>
    ensures { AppendsOnOk out.old out.new result (declines_text declines.now) }
{
    put_part(out, declines.count)?;
    put_part(out, declines.last)
}

fn put_part(out: &mut Vec<u8>, number: u64) -> Result<(), AllocError>
    ensures { AppendsOnOk out.old out.new result (part_text number) }
{
    out.extend_from_slice(Decimal::of(number).as_bytes())?;
    out.push(b'.')?;
    Ok(())
}

/// Appends the first two lines of the text that `digest_of` hashes: the issuer's Name (`name`, in DER) and public key in hexadecimal; the counts.
#[tactic(auto, unfolding(crate::specs::Positions::window_head))]
pub(crate) fn put_window_head(
    alloc: Global,
    out: &mut Vec<u8>,
    name: &[u8],
    key: &[u8],
    counts: &RowCounts,
) -> Result<(), AllocError>
    ensures { AppendsOnOk out.old out.new result (window_head name.now key.now counts.now) }
{
    put_issuer(alloc, out, name, key)?;
    put_counts(out, counts)?;
    out.push(b'\n')?;
    Ok(())
}
