//! Pages of the changes feed, by which a copy of a register is kept up to date: the rows of a page, their text, and the positions after them, that is
//! how far the copy has got. Calls that append to `out` give `AllocError` if out of memory: then `out` may have some of the bytes.

ghost use Rattle.std.specs.Prelude.{◌≡◌, ◌+◌, codes, cond, length, option_map, IfOk, IfSome};
ghost use Rattle.std.specs.List.{before_first, position};
ghost use Rattle.sha2.specs.Sha256.{sha256};
ghost use Rattle.reg_core.specs.Buffers.{AppendsOnOk};
ghost use Rattle.reg_core_lists.specs.Feed.{is_later, counts_after, crl_count, crl_ending, feed_crl_of, crl_part, declines_after, digest_text, last_line, page_parts, page_parts_of, page_parts_text, room, feed_rows_of, feed_rows_text};

use crate::feed_lines::{put_crl, put_declined, put_lines};
use crate::positions::{Declines, Positions, RowCounts, put_positions, put_window_head};
use reg_core::{CertRow, CrlRow, OrderRow, RequestRow, RevocationRow, SubscriberRow};
use sha2::{Digest, Sha256};
use std::alloc::{AllocError, Global};

/// The most rows of a page of the changes feed.
pub const MOST_ROWS: u64 = 1_000;

/// The digest in positions ([`digest_of`]) covers at most this many octets of the last CRL: its last ones, which are the end of its signature.
const END_OCTETS: usize = 64;

/// Rows of the changes feed, without CRLs. `declined` has the ids of declined requests.
#[derive(Drop)]
pub struct FeedRows {
    pub subscribers: Vec<SubscriberRow>,
    pub orders: Vec<OrderRow>,
    pub certificates: Vec<CertRow>,
    pub requests: Vec<RequestRow>,
    pub declined: Vec<u64>,
    pub revocations: Vec<RevocationRow>,
}

#[derive(Drop)]
pub struct FeedCrl {
    pub row: CrlRow,
    pub der: Vec<u8>,
}

impl FeedRows {
    /// How many more rows fit into a page.
    pub fn room(&self) -> u64
        ensures { result ≡ room (feed_rows_of self.now) }
    {
        MOST_ROWS
            .saturating_sub(self.subscribers.len() as u64)
            .saturating_sub(self.orders.len() as u64)
            .saturating_sub(self.certificates.len() as u64)
            .saturating_sub(self.requests.len() as u64)
            .saturating_sub(self.declined.len() as u64)
            .saturating_sub(self.revocations.len() as u64)
    }

    /// Appends the lines of the rows.
    #[tactic(auto, unfolding(crate::specs::Feed::feed_rows_text))]
    pub fn put(&self, out: &mut Vec<u8>) -> Result<(), AllocError>
        ensures { AppendsOnOk out.old out.new result (feed_rows_text (feed_rows_of self.now)) }
    {
        put_lines(out, &self.subscribers)?;
        put_lines(out, &self.orders)?;
        put_lines(out, &self.certificates)?;
        put_lines(out, &self.requests)?;
        put_declined(out, &self.declined)?;
        put_lines(out, &self.revocations)
    }

    /// The counts of rows in a copy that had `counts`, after these rows and `crls` CRLs. `None` if a number is above 2^64 - 1.
    pub fn counts_after(&self, counts: &RowCounts, crls: u64) -> Option<RowCounts>
        ensures { IfSome result (λ reached. reached ≡ counts_after counts.now (feed_rows_of self.now) crls) }
    {
        Some(RowCounts {
            subscribers: count_after(counts.subscribers, &self.subscribers)?,
            orders: count_after(counts.orders, &self.orders)?,
            certificates: count_after(counts.certificates, &self.certificates)?,
            requests: count_after(counts.requests, &self.requests)?,
            revocations: count_after(counts.revocations, &self.revocations)?,
            crls: counts.crls.checked_add(crls)?,
        })
    }

    /// The number of declines, and the last one's id, in a copy that had `declines` and got these rows. `None` if the number is above 2^64 - 1.
    pub fn declines_after(&self, declines: &Declines) -> Option<Declines>
        ensures { IfSome result (λ reached. reached ≡ declines_after declines.now self.now.declined.items) }
    {
        Some(Declines {
            count: count_after(declines.count, &self.declined)?,
            last: self.declined.last().copied().unwrap_or(declines.last),
        })
    }
}

fn count_after<T>(count: u64, rows: &[T]) -> Option<u64>
    ensures { IfSome result (λ number. number ≡ count + length rows.now) }
{
    count.checked_add(rows.len() as u64)
}

/// The revocations that a copy with `crls` CRLs gets before the next CRL, whose number is `crls` + 1. They end before the first row whose `first`
/// (the number of the first CRL that lists it) is above that number.
#[tactic(auto, using(crate::proofs::FeedCuts::cut_at, crate::proofs::FeedCuts::cut_nowhere))]
pub fn revocations_until_next_crl(mut rows: Vec<RevocationRow>, crls: u64) -> Vec<RevocationRow>
    ensures { result.items ≡ before_first (is_later crls) rows.items }
{
    match later_in(&rows, crls) {
        Some(end) => rows.truncate(end),
        None => {}
    }
    rows
}

fn later_in(rows: &[RevocationRow], crls: u64) -> Option<usize>
    ensures { result ≡ position (is_later crls) rows.now }
{
    rows.iter()
        .position(|row| row.first.saturating_sub(1) > crls)
}

/// A page of the changes feed, without its head (the lines before the rows).
#[derive(Drop)]
pub struct FeedPage {
    rows: FeedRows,
    /// `None` if the page is full.
    crl: Option<FeedCrl>,
    /// Whether nothing comes after the page.
    ends: bool,
    /// The positions after the page, in two fields, without their digest.
    counts: RowCounts,
    declines: Declines,
}

impl FeedPage {
    /// The page after the positions `counts` and `declines`: `rows`, and behind them the next CRL, `next`, unless the page is full. `None` if a number
    /// is above 2^64 - 1.
    pub fn of(
        rows: FeedRows,
        next: Option<FeedCrl>,
        counts: &RowCounts,
        declines: &Declines,
    ) -> Option<FeedPage>
        ensures { IfSome result (λ page.
            page_parts_of page ≡ page_parts (feed_rows_of rows) (option_map feed_crl_of next) counts.now declines.now) }
    {
        let room = rows.room();
        // A full page isn't the end. Nor is one with the CRL `next`, or before it: revocations may follow that CRL.
        let ends = next.is_none() && room > 0;
        let crl = if room > 0 { next } else { None };
        let reached = rows.counts_after(counts, count_of(&crl))?;
        let declines = rows.declines_after(declines)?;
        Some(FeedPage {
            rows,
            crl,
            ends,
            counts: reached,
            declines,
        })
    }

    /// How many rows of each table a copy of the register has after the page.
    pub fn counts(&self) -> &RowCounts
        ensures { result.now ≡ self.now.counts }
    {
        &self.counts
    }

    /// Appends the page without its head. `digest` is that of the positions after it.
    #[tactic(auto, unfolding(crate::specs::Feed::page_parts_text))]
    pub fn put(&self, alloc: Global, out: &mut Vec<u8>, digest: [u8; 32]) -> Result<(), AllocError>
        ensures { AppendsOnOk out.old out.new result (page_parts_text (page_parts_of self.now) digest) }
    {
        self.rows.put(out)?;
        put_crl_part(out, &self.crl)?;
        let positions = Positions {
            counts: self.counts,
            declines: self.declines,
            digest,
        };
        put_last_line(alloc, out, self.ends, &positions)
    }
}

fn count_of(crl: &Option<FeedCrl>) -> u64
    ensures { result ≡ crl_count (option_map feed_crl_of crl.now) }
{
    match crl {
        Some(_) => 1,
        None => 0,
    }
}

fn put_crl_part(out: &mut Vec<u8>, crl: &Option<FeedCrl>) -> Result<(), AllocError>
    ensures { AppendsOnOk out.old out.new result (crl_part (option_map feed_crl_of crl.now)) }
{
    match crl {
        Some(crl) => put_crl(out, &crl.row, &crl.der),
        None => Ok(()),
    }
}

/// Appends the last line of a page: `end` if nothing comes after it (`ends`), else `more`; and the positions after it.
#[tactic(auto, unfolding(crate::specs::Feed::last_line))]
pub(crate) fn put_last_line(
    alloc: Global,
    out: &mut Vec<u8>,
    ends: bool,
    positions: &Positions,
) -> Result<(), AllocError>
    ensures { AppendsOnOk out.old out.new result (last_line ends positions.now) }
{
    put_ending(out, ends)?;
    put_positions(alloc, out, positions)?;
    out.push(b'\n')?;
    Ok(())
}

fn put_ending(out: &mut Vec<u8>, ends: bool) -> Result<(), AllocError>
    ensures { AppendsOnOk out.old out.new result (cond ends (codes "end ") (codes "more ")) }
{
    if ends {
        out.extend_from_slice(b"end ")
    } else {
        out.extend_from_slice(b"more ")
    }
}

/// The digest of positions: the SHA-256 of the issuer's Name (`name`, in DER) and the bits of its subjectPublicKey (`key`), the counts, the last
/// rows of each table up to its count (`rows`, at most 32 of each: `WINDOW`), and the end of the last CRL (`der`; `None` if there is none).
#[tactic(auto, unfolding(crate::specs::Feed::digest_text))]
pub fn digest_of(
    alloc: Global,
    name: &[u8],
    key: &[u8],
    counts: &RowCounts,
    rows: &FeedRows,
    der: &Option<Vec<u8>>,
) -> Result<[u8; 32], AllocError>
    ensures { IfOk result (λ digest. digest
        ≡ sha256 (digest_text name.now key.now counts.now (feed_rows_of rows.now)
        (option_map (λ bytes. bytes.items) der.now))) }
{
    let mut text = Vec::new(alloc);
    put_window_head(alloc, &mut text, name, key, counts)?;
    rows.put(&mut text)?;
    put_crl_ending(&mut text, der)?;
    Ok(Sha256::digest(&text))
}

fn put_crl_ending(out: &mut Vec<u8>, der: &Option<Vec<u8>>) -> Result<(), AllocError>
    ensures { AppendsOnOk out.old out.new result (crl_ending (option_map (λ bytes. bytes.items) der.now)) }
{
    match der {
        Some(der) => out.extend_from_slice(&der[der.len().saturating_sub(END_OCTETS)..]),
        None => Ok(()),
    }
}
