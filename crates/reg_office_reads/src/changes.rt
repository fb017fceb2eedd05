//! Pages of the changes feed: the rows after positions (how far a client's copy has got), at most `MOST_ROWS` (1,000) in all. A table comes after
//! those that it refers to, and has rows on a page only if all rows of the tables before it fit. A page that is not full has the next CRL, if any.

ghost use Rattle.std.specs.Prelude.{◌≡◌, ◌-◌, length, option_map, IfErr, Some};
ghost use Rattle.std.specs.List.{slice_get};
ghost use Rattle.sha2.specs.Sha256.{sha256};
ghost use Rattle.reg_core.specs.Records.{crl_in};
ghost use Rattle.reg_core_lists.specs.Feed.{ArePageRows, HasParts, IsPage, feed_crl_of, declines_from, page_parts_of, feed_rows_of, window, window_text, windows};
ghost use Rattle.reg_core_lists.specs.FeedLines.{page_head};
ghost use Rattle.reg_der.specs.Authority.{name_of};
ghost use Rattle.reg_office_api.specs.LookUps.{GivesChanges, HasChanges, IsOfStore};
ghost use Rattle.reg_store_tables.specs.LookUps.{Learns, LooksUp};

use reg_core::{CertRow, Fault, OrderRow, RequestRow, RevocationRow, SubscriberRow};
use reg_core_lists::{
    Declines, FeedCrl, FeedPage, FeedRows, MOST_ROWS, Positions, RowCounts, WINDOW, digest_of,
    no_declines, put_head, revocations_until_next_crl, zero_counts,
};
use reg_der::Issuer;
use reg_office_api::Changes;
use reg_store_tables::{DatabaseFault, Entered, Tables};
use sqlite::Alter;
use std::alloc::Global;

/// The page of the changes feed after the positions `after`; `None`: from the first row on.
#[tactic(auto, using(crate::proofs::Composing::answer_of_fault))]
pub fn changes_in<C: Alter>(
    tables: &mut Tables<C>,
    alloc: Global,
    after: &Option<Positions>,
) -> Result<Changes, Fault>
    ensures looks { LooksUp C.Store tables.old tables.new (λ records. HasChanges records after.now result) }
    ensures faults { IfErr result IsOfStore }
{
    let given = changes(tables, alloc, after)?;
    Ok(given)
}

fn changes<C: Alter>(
    tables: &mut Tables<C>,
    alloc: Global,
    after: &Option<Positions>,
) -> Result<Changes, DatabaseFault>
    ensures { Learns C.Store tables.old tables.new result (λ records given.
        GivesChanges records after.now given) }
{
    let issuer = tables.issuer()?;
    match after {
        Some(positions) => changes_after(tables, alloc, &issuer, positions),
        None => {
            let text = page_after(tables, alloc, &issuer, &zero_counts(), &no_declines())?;
            Ok(Changes::Page(text))
        }
    }
}

/// The page after positions; `Diverged` if their digest is not that of this register's rows up to them.
fn changes_after<C: Alter>(
    tables: &mut Tables<C>,
    alloc: Global,
    issuer: &Issuer,
    after: &Positions,
) -> Result<Changes, DatabaseFault>
    ensures { Learns C.Store tables.old tables.new result (λ records given.
        issuer.now ≡ records.issuer → GivesChanges records (Some after.now) given) }
{
    let digest = digest_at(tables, alloc, issuer, &after.counts)?;
    if !after.has_digest(&digest) {
        return Ok(Changes::Diverged);
    }
    let text = page_after(tables, alloc, issuer, &after.counts, &after.declines)?;
    Ok(Changes::Page(text))
}

/// The text of the page for a copy with the first `counts` rows of the tables. `declines`: how many declined requests it has, and the last one's id.
fn page_after<C: Alter>(
    tables: &mut Tables<C>,
    alloc: Global,
    issuer: &Issuer,
    counts: &RowCounts,
    declines: &Declines,
) -> Result<Vec<u8>, DatabaseFault>
    ensures { Learns C.Store tables.old tables.new result (λ records text.
        issuer.now ≡ records.issuer
        → IsPage (name_of records.issuer) records counts.now declines.now text.items) }
{
    let page = page_in(tables, counts, declines)?;
    let digest = digest_at(tables, alloc, issuer, page.counts())?;
    let mut text = head_in(tables, alloc, issuer)?;
    page.put(alloc, &mut text, digest)?;
    Ok(text)
}

/// The lines before the rows: the feed's version, the issuer (`stored_name`: its Name, any key identifiers), the policy, the last accepted moment.
fn head_in<C: Alter>(
    tables: &mut Tables<C>,
    alloc: Global,
    issuer: &Issuer,
) -> Result<Vec<u8>, DatabaseFault>
    ensures { Learns C.Store tables.old tables.new result (λ records text.
        text.items ≡ page_head issuer.now.name issuer.now.key records.policy records.last) }
{
    let policy = tables.policy()?;
    let last = tables.last()?;
    let mut text = Vec::new(alloc);
    put_head(
        alloc,
        &mut text,
        issuer.stored_name(),
        issuer.key(),
        &policy,
        last,
    )?;
    Ok(text)
}

/// The rows of the page, and the next CRL if it is not full. `Store` if a count would be above 2^64 - 1, which no register reaches.
fn page_in<C: Alter>(
    tables: &mut Tables<C>,
    counts: &RowCounts,
    declines: &Declines,
) -> Result<FeedPage, DatabaseFault>
    ensures { Learns C.Store tables.old tables.new result (λ records page.
        HasParts records counts.now declines.now (page_parts_of page)) }
{
    let from = declines_in(tables, declines)?;
    let rows = rows_in(tables, counts, &from)?;
    let next = next_crl(tables, counts.crls)?;
    match FeedPage::of(rows, next, counts, &from) {
        Some(page) => Ok(page),
        None => Err(DatabaseFault::Store),
    }
}

/// Which declines the page omits: `declines`, which the copy has; none if `count` differs, as a request up to `declines.last` was declined since.
fn declines_in<C: Alter>(
    tables: &mut Tables<C>,
    declines: &Declines,
) -> Result<Declines, DatabaseFault>
    ensures { Learns C.Store tables.old tables.new result (λ records from.
        from ≡ declines_from records.requests declines.now) }
{
    let count = tables.declined_up_to(declines.last)?;
    Ok(declines.if_counted(count))
}

fn rows_in<C: Alter>(
    tables: &mut Tables<C>,
    counts: &RowCounts,
    from: &Declines,
) -> Result<FeedRows, DatabaseFault>
    ensures { Learns C.Store tables.old tables.new result (λ records rows.
        ArePageRows records counts.now from.now (feed_rows_of rows)) }
{
    let subscribers = tables.entered_after::<SubscriberRow>(counts.subscribers, MOST_ROWS)?;
    let room = left(MOST_ROWS, &subscribers);
    let orders = tables.entered_after::<OrderRow>(counts.orders, room)?;
    let room = left(room, &orders);
    let certificates = tables.entered_after::<CertRow>(counts.certificates, room)?;
    let room = left(room, &certificates);
    let requests = tables.entered_after::<RequestRow>(counts.requests, room)?;
    let room = left(room, &requests);
    let declined = tables.declined_after(from.last, room)?;
    let room = left(room, &declined);
    let entered = tables.entered_after::<RevocationRow>(counts.revocations, room)?;
    // A revocation waits for a later page if the first CRL to list it comes after the copy's next one (`counts.crls` + 1).
    let revocations = revocations_until_next_crl(entered, counts.crls);
    Ok(FeedRows {
        subscribers,
        orders,
        certificates,
        requests,
        declined,
        revocations,
    })
}

fn left<T>(room: u64, rows: &Vec<T>) -> u64
    ensures { result ≡ room - length rows.now.items }
{
    room.saturating_sub(rows.len() as u64)
}

/// The CRL after the first `crls` ones, if any: CRLs are numbered from 1 on. `crls_after(crls, 1)` reads at most one row.
fn next_crl<C: Alter>(tables: &mut Tables<C>, crls: u64) -> Result<Option<FeedCrl>, DatabaseFault>
    ensures { Learns C.Store tables.old tables.new result (λ records next.
        option_map feed_crl_of next ≡ slice_get records.crls crls) }
{
    let rows = tables.crls_after(crls, 1)?;
    match rows.first().copied() {
        Some(row) => {
            let der = der_of(tables, row.number)?;
            Ok(Some(FeedCrl { row, der }))
        }
        None => Ok(None),
    }
}

fn der_of<C: Alter>(tables: &mut Tables<C>, number: u64) -> Result<Vec<u8>, DatabaseFault>
    ensures { Learns C.Store tables.old tables.new result (λ records der.
        Some der.items ≡ option_map (λ crl. crl.bytes) (crl_in records.crls number)) }
{
    let found = tables.crl(number)?;
    match found {
        Some(der) => Ok(der),
        None => Err(DatabaseFault::Store),
    }
}

/// The digest of positions with these counts. It covers the issuer, the counts, the last rows of each table, and the end of the last CRL.
pub fn digest_at<C: Alter>(
    tables: &mut Tables<C>,
    alloc: Global,
    issuer: &Issuer,
    counts: &RowCounts,
) -> Result<[u8; 32], DatabaseFault>
    ensures { Learns C.Store tables.old tables.new result (λ records digest.
        issuer.now ≡ records.issuer
        → digest ≡ sha256 (window_text (name_of records.issuer) records counts.now)) }
{
    let rows = windows_in(tables, alloc, counts)?;
    let der = tables.crl(counts.crls)?;
    let digest = digest_of(alloc, issuer.name(), issuer.key(), counts, &rows, &der)?;
    Ok(digest)
}

/// The last rows of each table up to the counts, at most `WINDOW` (32) of each. `declined` is empty: no digest covers which requests are declined.
fn windows_in<C: Alter>(
    tables: &mut Tables<C>,
    alloc: Global,
    counts: &RowCounts,
) -> Result<FeedRows, DatabaseFault>
    ensures { Learns C.Store tables.old tables.new result (λ records rows.
        feed_rows_of rows ≡ windows counts.now records) }
{
    let subscribers = window_in::<C, SubscriberRow>(tables, counts.subscribers)?;
    let orders = window_in::<C, OrderRow>(tables, counts.orders)?;
    let certificates = window_in::<C, CertRow>(tables, counts.certificates)?;
    let requests = window_in::<C, RequestRow>(tables, counts.requests)?;
    let revocations = window_in::<C, RevocationRow>(tables, counts.revocations)?;
    let declined = Vec::new(alloc);
    Ok(FeedRows {
        subscribers,
        orders,
        certificates,
        requests,
        declined,
        revocations,
    })
}

/// The last of the first `count` rows of the table with the rows `T`, at most `WINDOW`. `entered_after` takes how many to skip, and the most to read.
fn window_in<C: Alter, T: Entered>(
    tables: &mut Tables<C>,
    count: u64,
) -> Result<Vec<T>, DatabaseFault>
    ensures { Learns C.Store tables.old tables.new result (λ records rows.
        rows.items ≡ window count (T.entered records)) }
{
    let rows = tables.entered_after::<T>(count.saturating_sub(WINDOW), count.min(WINDOW))?;
    Ok(rows)
}
