//! Reads a page of the changes feed. It writes each part that it has read, by the functions that write a feed, and refuses a page whose text differs.
//! `None` as a result means that the text is malformed. Most results have what was read, and the text after it.

ghost use Rattle.std.specs.Prelude.{◌≡◌, ◌≢◌, ◌++◌, ◌∷◌, [], ◌↔◌, ℕ, Bool, List, Option, Some, None, IfErr, IfOk, IsTrue, MatchOption, codes, length, option_map};
ghost use Rattle.std.specs.Result.{result_ok};
ghost use Rattle.hex.specs.Hex.{decode_of};
ghost use Rattle.reg_core.specs.Policy.{IsPolicy, Terms};
ghost use Rattle.reg_core.specs.Crls.{row_of};
ghost use Rattle.reg_core.specs.Records.{Crl};
ghost use Rattle.reg_core_lists.specs.Feed.{RowLists, crl_behind, crl_part, feed_crl_of, feed_rows_of, feed_rows_text, last_line, page_parts_text};
ghost use Rattle.reg_core_lists.specs.FeedReading.{crl_line_read, is_other_version};
ghost use Rattle.reg_core_lists.specs.ReceivedPages.{HasNoRow, HasRoomForCrl, HeadTerms, IfRead, IsReadable, IsReadableCrlPart, IsReadableHead, IsReadablePositions, IsReadableRows, MustRead, ReadsAs, ReadsRows, Received, fields_of_terms, head_fields_of, head_terms_of, head_terms_text, positions_of, received_of, received_text};
ghost use Rattle.reg_core_lists.specs.declared.positions.Positions.{Positions};
ghost use Rattle.reg_core_lists.specs.declared.feed_reader.PageFault.TheVariants.{Memory, Version};

use crate::feed::{FeedCrl, FeedRows, put_last_line};
use crate::feed_fields::{
    HeadFields, after_prefix, is_other_version, read_crl_line, read_head_fields, read_last_line,
};
use crate::feed_items::read_all;
use crate::feed_lines::{put_crl_line, put_head};
use crate::positions::Positions;
use hex::FromHexError;
use reg_core::{CrlRow, Moment, Policy, Schedule};
use std::alloc::{AllocError, Global};

/// The lines before the rows. `stored_name`, `key`: columns `name`, `pubkey` of the table `office` (the issuer). `last`: the last accepted moment.
#[derive(Drop)]
pub struct FeedHead {
    pub stored_name: Vec<u8>,
    pub key: Vec<u8>,
    pub policy: Policy,
    pub last: Moment,
}

/// A page of the changes feed, as it was received. A page with a CRL has fewer than `MOST_ROWS` other rows. `rows.declined` has the ids of declined
/// requests: no request in `rows` is marked as declined. `ends`: this is the last page. `positions`: how far a copy has got with this page.
#[derive(Drop)]
pub struct ReceivedPage {
    pub head: FeedHead,
    pub rows: FeedRows,
    pub crl: Option<FeedCrl>,
    pub ends: bool,
    pub positions: Positions,
}

/// Why a page can't be read: it is of another version of the feed, it is not the text of a page, or the reader is out of memory.
#[derive(Clone, Copy, PartialEq, Eq, Debug)]
pub enum PageFault {
    Version,
    Malformed,
    Memory,
}

impl From<AllocError> for PageFault {
    ghost use Rattle.reg_core_lists.specs.declared.feed_reader.PageFault.TheVariants.{Memory};

    ghost from_gives = { λ _ fault. fault ≡ Memory };

    fn from(_error: AllocError) -> PageFault {
        PageFault::Memory
    }
}

/// Reads a page. Its numbers must be below 10^18, and a register must allow its policy and names. No two pages have the same text.
pub fn read_feed_page(alloc: Global, page: &[u8]) -> Result<ReceivedPage, PageFault>
    ensures text { IfOk result (λ read. page.now ≡ received_text (received_of read)) }
    ensures room { IfOk result (λ read. HasRoomForCrl (received_of read).parts) }
    ensures only { (it : Received) → IsReadable it → page.now ≡ received_text it → ReadsAs result it }
    ensures version { IfErr result (λ fault. fault ≢ Memory
        → (fault ≡ Version) ↔ IsTrue (is_other_version page.now)) }
{
    if is_other_version(page) {
        return Err(PageFault::Version);
    }
    match read_parts(alloc, page)? {
        Some(page) => Ok(page),
        None => Err(PageFault::Malformed),
    }
}

fn read_parts(alloc: Global, page: &[u8]) -> Result<Option<ReceivedPage>, AllocError>
    ensures text { IfRead result (λ read. page.now ≡ received_text (received_of read)) }
    ensures room { IfRead result (λ read. HasRoomForCrl (received_of read).parts) }
    ensures only { (it : Received) → IsReadable it → page.now ≡ received_text it
        → MustRead result (λ read. received_of read ≡ it) }
{
    let (head, rest) = match read_head(alloc, page)? {
        Some(found) => found,
        None => return Ok(None),
    };
    match read_after_head(alloc, rest)? {
        Some((rows, crl, ends, positions)) => { Ok(page_with(head, rows, crl, ends, positions)) }
        None => Ok(None),
    }
}

/// The page with these parts; `None` if it has a CRL although it is full: it has at least `MOST_ROWS` other rows.
fn page_with(
    head: FeedHead,
    rows: FeedRows,
    crl: Option<FeedCrl>,
    ends: bool,
    positions: Positions,
) -> Option<ReceivedPage>
    ensures { MatchOption result (crl_behind (feed_rows_of rows) (option_map feed_crl_of crl)
        ≢ option_map feed_crl_of crl)
        (λ page. (page ≡ record { head = head; rows = rows; crl = crl; ends = ends; positions = positions })
        × HasRoomForCrl (received_of page).parts) }
{
    if crl.is_some() && rows.room() == 0 {
        return None;
    }
    Some(ReceivedPage {
        head,
        rows,
        crl,
        ends,
        positions,
    })
}

/// The rows, the CRL if there is one, and the last line (whether this is the last page, and the positions after it), up to the end of the page.
fn read_after_head(
    alloc: Global,
    text: &[u8],
) -> Result<Option<(FeedRows, Option<FeedCrl>, bool, Positions)>, AllocError>
    ensures text { IfRead result (λ it. text.now ≡ feed_rows_text (feed_rows_of it.0)
        ++ (crl_part (option_map feed_crl_of it.1) ++ last_line it.2 it.3)) }
    ensures only { (it : Received) → IsReadable it → text.now ≡ page_parts_text it.parts it.digest
        → MustRead result (λ read. (feed_rows_of read.0 ≡ it.parts.rows)
        × (option_map feed_crl_of read.1 ≡ it.parts.crl) × (read.2 ≡ it.parts.ends)
        × (read.3 ≡ positions_of it)) }
{
    let (rows, rest) = match read_rows(alloc, text)? {
        Some(found) => found,
        None => return Ok(None),
    };
    match read_after_rows(alloc, rest)? {
        Some((crl, ends, positions)) => Ok(Some((rows, crl, ends, positions))),
        None => Ok(None),
    }
}

fn read_after_rows(
    alloc: Global,
    text: &[u8],
) -> Result<Option<(Option<FeedCrl>, bool, Positions)>, AllocError>
    ensures text { IfRead result (λ it. text.now ≡ crl_part (option_map feed_crl_of it.0)
        ++ last_line it.1 it.2) }
    ensures only { (crl : Option Crl) (ends : Bool) (positions : Positions) → IsReadableCrlPart crl
        → IsReadablePositions positions
        → text.now ≡ crl_part crl ++ last_line ends positions
        → MustRead result (λ it. (option_map feed_crl_of it.0 ≡ crl) × (it.1 ≡ ends) × (it.2 ≡ positions)) }
{
    let (crl, rest) = match read_crl(alloc, text)? {
        Some(found) => found,
        None => return Ok(None),
    };
    match read_end(alloc, rest)? {
        Some((ends, positions)) => Ok(Some((crl, ends, positions))),
        None => Ok(None),
    }
}

fn read_head(alloc: Global, page: &[u8]) -> Result<Option<(FeedHead, &[u8])>, AllocError>
    ensures text { IfRead result (λ it. page.now ≡ head_terms_text (head_terms_of it.0) ++ it.1.now) }
    ensures only { (head : HeadTerms) (rest : List ℕ) → IsReadableHead head
        → page.now ≡ head_terms_text head ++ rest
        → MustRead result (λ it. (head_terms_of it.0 ≡ head) × (it.1.now ≡ rest)) }
{
    let fields = match read_head_fields(page) {
        Some(fields) => fields,
        None => return Ok(None),
    };
    let head = match head_with(alloc, &fields)? {
        Some(head) => head,
        None => return Ok(None),
    };
    let mut text = Vec::new(alloc);
    put_head(
        alloc,
        &mut text,
        &head.stored_name,
        &head.key,
        &head.policy,
        head.last,
    )?;
    match after_prefix(&text, page) {
        Some(rest) => Ok(Some((head, rest))),
        None => Ok(None),
    }
}

/// The head with these fields; `None` if one is invalid. `read_all` stops at a step that it can't read: then `read_head` finds that the text differs.
fn head_with(alloc: Global, fields: &HeadFields) -> Result<Option<FeedHead>, AllocError>
    ensures only { (head : HeadTerms) → IsReadableHead head
        → head_fields_of fields.now ≡ fields_of_terms head
        → MustRead result (λ it. head_terms_of it ≡ head) }
{
    let stored_name = match decode(alloc, fields.name)? {
        Some(octets) => octets,
        None => return Ok(None),
    };
    let key = match decode(alloc, fields.key)? {
        Some(octets) => octets,
        None => return Ok(None),
    };
    let (steps, _) = read_all::<(Moment, u64)>(alloc, fields.steps)?;
    match policy_with(&steps, fields.crl_life, fields.ocsp_life, fields.cap) {
        Some(policy) => Ok(Some(FeedHead {
            stored_name,
            key,
            policy,
            last: fields.last,
        })),
        None => Ok(None),
    }
}

fn policy_with(steps: &[(Moment, u64)], crl_life: u64, ocsp_life: u64, cap: u64) -> Option<Policy>
    ensures { (terms : Terms) → IsPolicy terms
        → terms ≡ record { schedule = steps.now; crl_life = crl_life; ocsp_life = ocsp_life; cap = cap }
        → result ≡ Some terms }
{
    Policy::with(Schedule::new(steps)?, crl_life, ocsp_life, cap)
}

fn decode(alloc: Global, digits: &[u8]) -> Result<Option<Vec<u8>>, AllocError>
    ensures { IfOk result (λ found. option_map (λ octets. octets.items) found
        ≡ result_ok (decode_of digits.now)) }
{
    match hex::decode(alloc, digits) {
        Ok(octets) => Ok(Some(octets)),
        Err(FromHexError::OutOfMemory) => Err(AllocError),
        Err(_) => Ok(None),
    }
}

fn read_rows(alloc: Global, text: &[u8]) -> Result<Option<(FeedRows, &[u8])>, AllocError>
    ensures text { IfRead result (λ it. text.now ≡ feed_rows_text (feed_rows_of it.0) ++ it.1.now) }
    ensures only { (rows : RowLists) (rest : List ℕ) → IsReadableRows rows → HasNoRow rest
        → text.now ≡ feed_rows_text rows ++ rest
        → MustRead result (λ it. (feed_rows_of it.0 ≡ rows) × (it.1.now ≡ rest)) }
{
    let rows = rows_in(alloc, text)?;
    let mut written = Vec::new(alloc);
    rows.put(&mut written)?;
    match after_prefix(&written, text) {
        Some(rest) => Ok(Some((rows, rest))),
        None => Ok(None),
    }
}

fn rows_in(alloc: Global, text: &[u8]) -> Result<FeedRows, AllocError>
    ensures { IfOk result (λ rows. ReadsRows (feed_rows_of rows) text.now) }
{
    let (subscribers, rest) = read_all(alloc, text)?;
    let (orders, rest) = read_all(alloc, rest)?;
    let (certificates, rest) = read_all(alloc, rest)?;
    let (requests, rest) = read_all(alloc, rest)?;
    let (declined, rest) = read_all(alloc, rest)?;
    let (revocations, _) = read_all(alloc, rest)?;
    Ok(FeedRows {
        subscribers,
        orders,
        certificates,
        requests,
        declined,
        revocations,
    })
}

/// The CRL, and the text after it. The inner `None` means that the page has no CRL.
fn read_crl(alloc: Global, text: &[u8]) -> Result<Option<(Option<FeedCrl>, &[u8])>, AllocError>
    ensures text { IfRead result (λ it.
        text.now ≡ crl_part (option_map feed_crl_of it.0) ++ it.1.now) }
    ensures only { (crl : Option Crl) (rest : List ℕ) → IsReadableCrlPart crl
        → crl_line_read rest ≡ None → text.now ≡ crl_part crl ++ rest
        → MustRead result (λ it. (option_map feed_crl_of it.0 ≡ crl) × (it.1.now ≡ rest)) }
{
    match read_crl_line(text) {
        Some((row, octets)) => read_crl_octets(alloc, text, row, octets),
        None => Ok(Some((None, text))),
    }
}

/// The CRL at the beginning of the text. Its line was read as `row`, and as `octets`, how many octets of DER follow the line.
#[tactic(auto, unfolding(crate::specs::FeedLines::crl_feed_text))]
fn read_crl_octets(
    alloc: Global,
    text: &[u8],
    row: CrlRow,
    octets: u64,
) -> Result<Option<(Option<FeedCrl>, &[u8])>, AllocError>
    ensures text { IfRead result (λ it.
        text.now ≡ crl_part (option_map feed_crl_of it.0) ++ it.1.now) }
    ensures only { (crl : Crl) (rest : List ℕ) → row ≡ row_of crl → octets ≡ length crl.bytes
        → text.now ≡ crl_part (Some crl) ++ rest
        → MustRead result (λ it. (option_map feed_crl_of it.0 ≡ Some crl) × (it.1.now ≡ rest)) }
{
    let mut line = Vec::new(alloc);
    put_crl_line(&mut line, &row, octets)?;
    match octets_after(&line, octets, text) {
        Some((der, rest)) => {
            let der = Vec::from_slice(alloc, der)?;
            Ok(Some((Some(FeedCrl { row, der }), rest)))
        }
        None => Ok(None),
    }
}

/// Reads `line`, then as many octets as `octets` says, then an LF. Gives these octets, and the text after the LF; `None` for another text.
fn octets_after<'a>(line: &[u8], octets: u64, text: &'a [u8]) -> Option<(&'a [u8], &'a [u8])>
    ensures { MatchOption result ((der rest : List ℕ) → length der ≡ octets
        → text.now ≢ line.now ++ der ++ 10 ∷ rest)
        (λ it. (length it.0.now ≡ octets) × (text.now ≡ line.now ++ it.0.now ++ 10 ∷ it.1.now)) }
{
    let rest = after_prefix(line, text)?;
    if octets > rest.len() as u64 {
        return None;
    }
    let (der, rest) = rest.split_at(octets as usize);
    Some((der, after_prefix(b"\n", rest)?))
}

fn read_end(alloc: Global, text: &[u8]) -> Result<Option<(bool, Positions)>, AllocError>
    ensures text { IfRead result (λ it. text.now ≡ last_line it.0 it.1) }
    ensures only { (ends : Bool) (positions : Positions) → IsReadablePositions positions
        → text.now ≡ last_line ends positions
        → MustRead result (λ it. (it.0 ≡ ends) × (it.1 ≡ positions)) }
{
    let (ends, positions) = match read_last_line(text) {
        Some(read) => read,
        None => return Ok(None),
    };
    let mut line = Vec::new(alloc);
    put_last_line(alloc, &mut line, ends, &positions)?;
    if text == line.as_slice() {
        Ok(Some((ends, positions)))
    } else {
        Ok(None)
    }
}
