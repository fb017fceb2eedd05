//! Enters pages of the changes feed of another register, of which this one is a copy: all of them in one transaction, or nothing. The commands that
//! entered the rows are replayed (`replay.rt`), so the register checks each row by its own rules. The settings come from the last page's head.

ghost use Rattle.std.specs.Prelude.{◌≡◌, ◌↔◌, ◌≤◌, ◌<◌, ◌+◌, ℕ, [], None, false, true, length, IfErr, IfOk, IfSome, IsTrue, OnOk};
ghost use Rattle.sha2.specs.Sha256.{sha256};
ghost use Rattle.reg_core.specs.Calendar.{clock_end};
ghost use Rattle.reg_core.specs.Schedule.{one_step};
ghost use Rattle.reg_core_lists.specs.Feed.{IsInHistory, declines_after, feed_rows_of, window_text};
ghost use Rattle.reg_der.specs.Authority.{key_identifier_at, name_of};
ghost use Rattle.reg_office.specs.AfterStoppedCommand.{follow_call};
ghost use Rattle.reg_office.specs.Calls.{OfficeLooks, OfficeStops, SignsNothing, store_result};
ghost use Rattle.reg_office.specs.Replays.{IsPageWithout, LeadsWithin, MayReplace, MayTakeHead, TakesIssuer, TakesMoment, joined_rows, none_replayed, rows_and};
ghost use Rattle.reg_office_api.specs.Follows.{ArePositionsOf, EntersPages, FollowsPages, FormsSign, IsLastOf, IsWithoutNews, counts_of_records, declines_of_records, no_feed_rows};
ghost use Rattle.reg_office_api.specs.LookUps.{IsOfStore};
ghost use Rattle.reg_store_changes.specs.WithinTransactions.{StaysIdle, StepsWithin};
ghost use Rattle.reg_store_tables.specs.LookUps.{Learns, LooksUp};

use crate::office::Office;
use crate::replay::{Reached, same_octets};
use crate::replay_order::none_replayed;
use crate::stopped::{Stopped, broken, follow_fault};
use reg_core::{Change, Fault, Label, Moment, Policy, Refusal, RevocationRow, Schedule};
use reg_core_lists::{
    Declines, FeedHead, FeedRows, MOST_ROWS, Positions, ReceivedPage, RowCounts, no_declines,
};
use reg_crl::Signer;
use reg_der::{Issuer, IssuerFault};
use reg_office_api::{FeedPart, FeedRule, FollowFault};
use reg_office_reads::digest_at;
use reg_store::{DatabaseFault, Table, Tables};
use sqlite::Alter;
use std::alloc::{AllocError, Global};

/// The most days that a schedule allows. The [`widest`] schedule allows them for every notBefore.
const MOST_DAYS: u64 = 398;

impl<C: Alter, S: Signer> Office<C, S> {
    /// Whether the pages (`earlier`, then `page`) may change the records. A single page without rows, CRL, new head or new positions does not.
    pub(crate) fn have_news(
        &mut self,
        from: &Positions,
        earlier: &[ReceivedPage],
        page: &ReceivedPage,
    ) -> Result<bool, FollowFault>
        ensures { OfficeLooks C.Store S.Signer (λ records. IfOk result (λ news. news ≡ false
            → (earlier.now ≡ []) × IsWithoutNews page.now records)) self.old self.new }
    {
        if !earlier.is_empty() {
            return Ok(true);
        }
        match is_news(&mut self.store, from, page) {
            Ok(news) => Ok(news),
            Err(fault) => Err(follow_fault(Stopped::Database(fault))),
        }
    }

    /// Enters pages, of which `page` is the last, in one transaction.
    pub(crate) fn follow_news(
        &mut self,
        alloc: Global,
        from: &Positions,
        pages: &[ReceivedPage],
        page: &ReceivedPage,
    ) -> Result<Positions, FollowFault>
        ensures stops { FormsSign S.signs S.forms → IsLastOf pages.now page.now → OfficeStops C.Store S.Signer
            (follow_call pages.now) (store_result result) (λ signers. EntersPages pages.now result)
            self.old self.new }
        ensures idle { StaysIdle C.Store self.old.store self.new.store }
    {
        match self.store.begin() {
            Ok(()) => {}
            Err(fault) => return Err(follow_fault(Stopped::Database(fault))),
        }
        match self.follow_within(alloc, from, pages, page) {
            Ok(()) => match self.store.end(Ok(())) {
                Ok(()) => Ok(page.positions),
                Err(fault) => Err(follow_fault(Stopped::Database(fault))),
            },
            Err(stopped) => {
                // Rolls back. `end` returns only the error passed to it, which stands in for `stopped`.
                let _ = self.store.end(Err(DatabaseFault::Store));
                Err(follow_fault(stopped))
            }
        }
    }
}

// ---- the transaction: each call is a step in it, and after an error it must be rolled back

impl<C: Alter, S: Signer> Office<C, S> {
    /// Enters pages, of which `page` is the last.
    fn follow_within(
        &mut self,
        alloc: Global,
        from: &Positions,
        pages: &[ReceivedPage],
        page: &ReceivedPage,
    ) -> Result<(), Stopped>
        ensures made { FormsSign S.signs S.forms → IsLastOf pages.now page.now → IfOk result (λ _.
            LeadsWithin C.Store S.signs (S.identity self.old.signer) self.old.store self.new.store
            (FollowsPages pages.now page.now.positions)) }
        ensures stepped { StepsWithin C.Store self.old.store self.new.store }
        ensures untouched { SignsNothing self.old self.new }
    {
        // A head has the last accepted moment of all rows of the feed. So it fits the records only after the last page.
        if !page.ends {
            return Err(broken(FeedPart::Positions, 0, FeedRule::NoEnd));
        }
        let rows = joined(alloc, pages)?;
        self.take_issuer(alloc, &page.head)?;
        let reached = self.reached_from(from)?;
        self.replay(alloc, &rows, pages, &reached)?;
        self.take_moment(&page.head)?;
        self.check_positions(alloc, from, &rows, pages, page)
    }

    /// Takes the issuer of a head, and the [`widest`] schedule: rows may have been entered under an earlier schedule than the head's.
    fn take_issuer(&mut self, alloc: Global, head: &FeedHead) -> Result<(), Stopped>
        ensures made { IfOk result (λ _. LeadsWithin C.Store S.signs (S.identity self.old.signer)
            self.old.store self.new.store (TakesIssuer head.now)) }
        ensures stepped { StepsWithin C.Store self.old.store self.new.store }
        ensures untouched { SignsNothing self.old self.new }
    {
        let found = issuer_of_head(&mut self.store, alloc, head)?;
        let issuer = match found {
            Ok(issuer) => issuer,
            Err(why) => return Err(broken(FeedPart::Head, 0, why)),
        };
        self.store.enter_issuer(&issuer)?;
        self.store.enter_schedule(widest())?;
        Ok(())
    }

    /// Where the replay begins: at the last accepted moment, with the requests that `from` counts (`had`).
    fn reached_from(&mut self, from: &Positions) -> Result<Reached, Stopped>
        ensures made { IfOk result (λ reached. (reached.done ≡ none_replayed)
            × LeadsWithin C.Store S.signs (S.identity self.old.signer) self.old.store self.new.store
            (λ before after. after ≡ before)) }
        ensures stepped { StepsWithin C.Store self.old.store self.new.store }
        ensures untouched { SignsNothing self.old self.new }
    {
        let at = self.store.last()?;
        // If no transaction is under way now, a failure of the database has ended it.
        if self.store.is_idle() {
            return Err(Stopped::Database(DatabaseFault::Store));
        }
        Ok(Reached {
            done: none_replayed(),
            at,
            had: from.counts.requests,
        })
    }

    /// Takes the last accepted moment and the schedule of a head.
    fn take_moment(&mut self, head: &FeedHead) -> Result<(), Stopped>
        ensures made { IfOk result (λ _. LeadsWithin C.Store S.signs (S.identity self.old.signer)
            self.old.store self.new.store (TakesMoment head.now)) }
        ensures stepped { StepsWithin C.Store self.old.store self.new.store }
        ensures untouched { SignsNothing self.old self.new }
    {
        let before = self.store.last()?;
        match clock_refusal(head.last, before) {
            None => {}
            Some(refusal) => return Err(broken(FeedPart::Head, 0, FeedRule::Refused(refusal))),
        }
        match self.store.enter(head.last, &Change::Touch) {
            Ok(()) => {}
            Err(fault) => return Err(Stopped::Database(fault)),
        }
        self.store.enter_schedule(head.policy.schedule())?;
        Ok(())
    }

    /// Compares the counts and the digest in the last page's positions with the records.
    fn check_positions(
        &mut self,
        alloc: Global,
        from: &Positions,
        rows: &FeedRows,
        pages: &[ReceivedPage],
        page: &ReceivedPage,
    ) -> Result<(), Stopped>
        ensures made { IfOk result (λ _. LeadsWithin C.Store S.signs (S.identity self.old.signer)
            self.old.store self.new.store (λ before after. (after ≡ before)
            × IsInHistory (name_of before.issuer) before page.now.positions)) }
        ensures stepped { StepsWithin C.Store self.old.store self.new.store }
        ensures untouched { SignsNothing self.old self.new }
    {
        let others = broken(FeedPart::Positions, 0, FeedRule::OtherPositions);
        match rows.counts_after(&from.counts, crls_in(pages)) {
            Some(counts) if counts == page.positions.counts => {}
            _ => return Err(others),
        }
        let digest = digest_now(&mut self.store, alloc, &page.positions.counts)?;
        // If no transaction is under way now, a failure of the database has ended it.
        if self.store.is_idle() {
            return Err(Stopped::Database(DatabaseFault::Store));
        }
        if page.positions.has_digest(&digest) {
            Ok(())
        } else {
            Err(others)
        }
    }
}

/// The refusal of the moment `now`, if any. `last` is the last accepted moment. As by [`reg_core::clock`].
fn clock_refusal(now: Moment, last: Moment) -> Option<Refusal>
    ensures { result ≡ None → (last ≤ now) × (now < clock_end) }
{
    if now >= Moment::CLOCK_END {
        return Some(Refusal::ClockEnd);
    }
    if now < last {
        return Some(Refusal::ClockBack { last });
    }
    None
}

/// There is no page at all.
pub(crate) fn no_page() -> FollowFault {
    follow_fault(broken(FeedPart::Positions, 0, FeedRule::NoEnd))
}

fn widest() -> Schedule
    ensures { result ≡ one_step 398 }
{
    Policy::usual().schedule()
}

// ---- the rows of all pages

/// The rows of the pages, table by table.
fn joined(alloc: Global, pages: &[ReceivedPage]) -> Result<FeedRows, DatabaseFault>
    ensures { IfOk result (λ rows. feed_rows_of rows ≡ joined_rows pages.now) }
{
    let mut rows = FeedRows {
        subscribers: Vec::new(alloc),
        orders: Vec::new(alloc),
        certificates: Vec::new(alloc),
        requests: Vec::new(alloc),
        declined: Vec::new(alloc),
        revocations: Vec::new(alloc),
    };
    for page in pages {
        add_rows(&mut rows, &page.rows)?;
    }
    Ok(rows)
}

fn add_rows(rows: &mut FeedRows, more: &FeedRows) -> Result<(), AllocError>
    ensures { OnOk result (feed_rows_of rows.new ≡ rows_and (feed_rows_of rows.old) (feed_rows_of more.now)) }
{
    rows.subscribers.extend_from_slice(&more.subscribers)?;
    rows.orders.extend_from_slice(&more.orders)?;
    rows.certificates.extend_from_slice(&more.certificates)?;
    rows.requests.extend_from_slice(&more.requests)?;
    rows.declined.extend_from_slice(&more.declined)?;
    rows.revocations.extend_from_slice(&more.revocations)
}

fn crls_in(pages: &[ReceivedPage]) -> u64 {
    let mut count: u64 = 0;
    for page in pages {
        if page.crl.is_some() {
            count = count.saturating_add(1);
        }
    }
    count
}

// ---- the head

/// The issuer of a head; or the rule that it or the policy breaks, if they can't replace those of the records.
fn issuer_of_head<C: Alter>(
    tables: &mut Tables<C>,
    alloc: Global,
    head: &FeedHead,
) -> Result<Result<Issuer, FeedRule>, DatabaseFault>
    ensures { Learns C.Store tables.old tables.new result (λ records found.
        IfOk found (MayTakeHead head.now records)) }
{
    let own = tables.issuer()?;
    let policy = tables.policy()?;
    let crls = tables.held(Table::Crls)?;
    issuer_after(alloc, &own, &policy, crls, head)
}

/// As [`issuer_of_head`]. The records have the issuer `own`, the policy `policy`, and `crls` CRLs.
fn issuer_after(
    alloc: Global,
    own: &Issuer,
    policy: &Policy,
    crls: u64,
    head: &FeedHead,
) -> Result<Result<Issuer, FeedRule>, DatabaseFault>
    ensures { IfOk result (λ found. IfOk found (MayReplace head.now own.now policy.now crls)) }
{
    if !has_same_terms(policy, &head.policy) {
        return Ok(Err(FeedRule::OtherPolicy));
    }
    let given = match Issuer::of_stored(alloc, &head.stored_name, &head.key) {
        Ok(given) => given,
        Err(IssuerFault::Memory) => return Err(DatabaseFault::Memory),
        Err(_) => return Ok(Err(FeedRule::OtherIssuer)),
    };
    if !continues(own, &given, crls) {
        return Ok(Err(FeedRule::OtherIssuer));
    }
    Ok(Ok(given))
}

fn has_same_terms(own: &Policy, given: &Policy) -> bool
    ensures { IsTrue result ↔ ((given.now.crl_life ≡ own.now.crl_life)
        × (given.now.ocsp_life ≡ own.now.ocsp_life) × (given.now.cap ≡ own.now.cap)) }
{
    own.crl_life() == given.crl_life()
        && own.ocsp_life() == given.ocsp_life()
        && own.cap() == given.cap()
}

/// Whether the issuers have the same Name, key, and key identifiers of the first `crls` CRLs. A stored name is the Name with all key identifiers.
fn continues(own: &Issuer, given: &Issuer, crls: u64) -> bool
    ensures { IsTrue result ↔ (name_of given.now ≡ name_of own.now) × (given.now.key ≡ own.now.key)
        × ((number : ℕ) → 1 ≤ number → number ≤ crls
        → key_identifier_at given.now number ≡ key_identifier_at own.now number) }
{
    let same_key = same_octets(own.key(), given.key());
    if !same_key {
        return false;
    }
    // The common case, without a look at each CRL.
    let same_stored_name = same_octets(own.stored_name(), given.stored_name());
    if same_stored_name {
        return true;
    }
    let same_name = same_octets(own.name(), given.name());
    if !same_name {
        return false;
    }
    has_same_identifiers(own, given, crls)
}

fn has_same_identifiers(own: &Issuer, given: &Issuer, crls: u64) -> bool
    ensures { IsTrue result ↔ ((number : ℕ) → 1 ≤ number → number ≤ crls
        → key_identifier_at given.now number ≡ key_identifier_at own.now number) }
{
    for count in 0..crls {
        let number = count + 1;
        if !is_same_identifier(&own.key_identifier(number), &given.key_identifier(number)) {
            return false;
        }
    }
    true
}

fn is_same_identifier(own: &Option<Label>, given: &Option<Label>) -> bool
    ensures { IsTrue result ↔ (given.now ≡ own.now) }
{
    match (own, given) {
        (Some(own), Some(given)) => own.as_bytes() == given.as_bytes(),
        (None, None) => true,
        _ => false,
    }
}

// ---- positions

#[tactic(auto, using(crate::proofs::StoreFaults::store_fault))]
pub(crate) fn own_positions<C: Alter>(
    tables: &mut Tables<C>,
    alloc: Global,
) -> Result<Positions, Fault>
    ensures looks { LooksUp C.Store tables.old tables.new (λ records. IfOk result (ArePositionsOf records)) }
    ensures faults { IfErr result IsOfStore }
{
    let positions = positions_in(tables, alloc)?;
    Ok(positions)
}

/// The positions of the register in its own changes feed.
fn positions_in<C: Alter>(tables: &mut Tables<C>, alloc: Global) -> Result<Positions, DatabaseFault>
    ensures { Learns C.Store tables.old tables.new result ArePositionsOf }
{
    let counts = counts_in(tables)?;
    let declines = all_declines_in(tables)?;
    let digest = digest_now(tables, alloc, &counts)?;
    Ok(Positions {
        counts,
        declines,
        digest,
    })
}

fn digest_now<C: Alter>(
    tables: &mut Tables<C>,
    alloc: Global,
    counts: &RowCounts,
) -> Result<[u8; 32], DatabaseFault>
    ensures { Learns C.Store tables.old tables.new result (λ records digest.
        digest ≡ sha256 (window_text (name_of records.issuer) records counts.now)) }
{
    let issuer = tables.issuer()?;
    digest_at(tables, alloc, &issuer, counts)
}

fn counts_in<C: Alter>(tables: &mut Tables<C>) -> Result<RowCounts, DatabaseFault>
    ensures { Learns C.Store tables.old tables.new result (λ records counts.
        counts ≡ counts_of_records records) }
{
    let subscribers = tables.held(Table::Subscribers)?;
    let orders = tables.held(Table::Orders)?;
    let certificates = tables.held(Table::Certs)?;
    let requests = tables.held(Table::Requests)?;
    let revocations = revocations_in(tables, requests)?;
    let crls = tables.held(Table::Crls)?;
    Ok(RowCounts {
        subscribers,
        orders,
        certificates,
        requests,
        revocations,
        crls,
    })
}

/// How many revocations there are, at most `most`. A binary search asks: is there a row after the first `middle`? A `u64` takes at most 64 steps.
fn revocations_in<C: Alter>(tables: &mut Tables<C>, most: u64) -> Result<u64, DatabaseFault>
    ensures { Learns C.Store tables.old tables.new result (λ records count.
        length records.revocations ≤ most → count ≡ length records.revocations) }
{
    let mut low = 0;
    let mut high = most;
    for _ in 0..=64 {
        if low >= high {
            return Ok(low);
        }
        let middle = low + (high - low) / 2;
        let rows = tables.entered_after::<RevocationRow>(middle, 1)?;
        let (next_low, next_high) = halved(low, high, middle, rows.is_empty());
        low = next_low;
        high = next_high;
    }
    Err(DatabaseFault::Store)
}

/// The half that has the count: up to `middle` if there is no row after the first `middle` (`none`), else above it.
fn halved(low: u64, high: u64, middle: u64, none: bool) -> (u64, u64)
    requires { middle < high }
    ensures none { none ≡ true → result ≡ (low, middle) }
    ensures some { none ≡ false → result ≡ (middle + 1, high) }
{
    if none {
        (low, middle)
    } else {
        (middle + 1, high)
    }
}

fn all_declines_in<C: Alter>(tables: &mut Tables<C>) -> Result<Declines, DatabaseFault>
    ensures { Learns C.Store tables.old tables.new result (λ records declines.
        declines ≡ declines_of_records records) }
{
    let mut declines = no_declines();
    // 1,001 rounds are enough: each but the last reads `MOST_ROWS` (1,000) ids, and a table has at most 1,000,000 rows.
    for _ in 0..=MOST_ROWS {
        let ids = tables.declined_after(declines.last, MOST_ROWS)?;
        let Some(reached) = with_declines(declines, &ids) else {
            return Err(DatabaseFault::Store);
        };
        if (ids.len() as u64) < MOST_ROWS {
            return Ok(reached);
        }
        declines = reached;
    }
    Err(DatabaseFault::Store)
}

/// `declines` with more ids, ascending ones. `None` if the number of them is above 2^64 - 1.
fn with_declines(declines: Declines, ids: &[u64]) -> Option<Declines>
    ensures { IfSome result (λ reached. reached ≡ declines_after declines ids.now) }
{
    let count = declines.count.checked_add(ids.len() as u64)?;
    let last = ids.last().copied().unwrap_or(declines.last);
    Some(Declines { count, last })
}

// ---- news

/// Whether a single page has a row, a CRL, other positions than `from`, or another head than the records.
fn is_news<C: Alter>(
    tables: &mut Tables<C>,
    from: &Positions,
    page: &ReceivedPage,
) -> Result<bool, DatabaseFault>
    ensures { Learns C.Store tables.old tables.new result (λ records news. news ≡ false
        → IsWithoutNews page.now records) }
{
    let last = tables.last()?;
    let issuer = tables.issuer()?;
    let policy = tables.policy()?;
    Ok(!is_without_news(from, page, &issuer, &policy, last))
}

fn is_without_news(
    from: &Positions,
    page: &ReceivedPage,
    issuer: &Issuer,
    policy: &Policy,
    last: Moment,
) -> bool
    ensures { IsTrue result → IsPageWithout page.now issuer.now policy.now last }
{
    has_no_rows(&page.rows)
        && has_no_crl(page)
        && page.positions == *from
        && last == page.head.last
        && is_same_issuer(issuer, &page.head)
        && is_same_policy(policy, &page.head.policy)
}

fn has_no_rows(rows: &FeedRows) -> bool
    ensures { IsTrue result → feed_rows_of rows.now ≡ no_feed_rows }
{
    rows.subscribers.is_empty()
        && rows.orders.is_empty()
        && rows.certificates.is_empty()
        && rows.requests.is_empty()
        && rows.declined.is_empty()
        && rows.revocations.is_empty()
}

fn has_no_crl(page: &ReceivedPage) -> bool
    ensures { IsTrue result ↔ (page.now.crl ≡ None) }
{
    match &page.crl {
        Some(_) => false,
        None => true,
    }
}

fn is_same_issuer(issuer: &Issuer, head: &FeedHead) -> bool
    ensures { IsTrue result ↔ ((issuer.now.name ≡ head.now.stored_name.items)
        × (issuer.now.key ≡ head.now.key.items)) }
{
    issuer.stored_name() == head.stored_name.as_slice() && issuer.key() == head.key.as_slice()
}

fn is_same_policy(own: &Policy, given: &Policy) -> bool
    ensures { IsTrue result → own.now ≡ given.now }
{
    is_same_schedule(&own.schedule(), &given.schedule())
        && own.crl_life() == given.crl_life()
        && own.ocsp_life() == given.ocsp_life()
        && own.cap() == given.cap()
}

fn is_same_schedule(own: &Schedule, given: &Schedule) -> bool
    ensures { IsTrue result ↔ (own.now ≡ given.now) }
{
    *own == *given
}
