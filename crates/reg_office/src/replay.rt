//! Replays the commands that entered the rows of pages of the changes feed: the register decides each again, and its decision must be the row.

ghost use Rattle.std.specs.Prelude.{◌+◌, ◌≡◌, ◌↔◌, ◌≤◌, length, map, true, None, IfOk, IfSome, IsFalse, IsSome, IsTrue, OnOk};
ghost use Rattle.reg_core.specs.Changes.{declined_if, with_crl};
ghost use Rattle.reg_core.specs.Crls.{EntriesAscend, cert_list};
ghost use Rattle.reg_core.specs.Records.{request_in};
ghost use Rattle.reg_core_lists.specs.Feed.{RowLists, feed_crl_of, feed_rows_of};
ghost use Rattle.reg_crl.specs.Signing.{has_placeholder_digest, signed_by};
ghost use Rattle.reg_office.specs.Calls.{SignsNothing};
ghost use Rattle.reg_office.specs.Replays.{ReplaysMore, AreAllReplayed, EntersDecidedCrl, EntersFeedRow, EntersPageCrl, HasReplayedAll, LeadsWithin, MayBeNextCrl, joined_rows, none_replayed, with_feed_row};
ghost use Rattle.reg_office.specs.declared.feed_row.FeedRow.TheVariants.{Declined};
ghost use Rattle.reg_office_api.specs.Follows.{FormsSign};
ghost use Rattle.reg_store_changes.specs.WithinTransactions.{StepsWithin};
ghost use Rattle.reg_store_tables.specs.LookUps.{LooksUp};

use crate::before_key::may_have_digest;
use crate::crls::{listed, next_row};
use crate::feed_row::FeedRow;
use crate::office::Office;
use crate::replay_order::{NextRow, Replayed, are_all_replayed, next_of, row_at, steps_of};
use crate::stopped::{Stopped, broken, undecided};
use reg_core::{Change, CrlRow, Entry, Memory, Moment, Refusal};
use reg_core_lists::{FeedCrl, FeedRows, ReceivedPage};
use reg_crl::{DigestSeal, Signer, crl_tbs, crl_whole};
use reg_der::{Issuer, take};
use reg_office_api::{FeedPart, FeedRule};
use reg_office_reads::decide;
use reg_store::{DatabaseFault, Tables};
use sqlite::Alter;
use std::alloc::Global;

/// The most octets of a signature in a CRL.
const LONGEST_SIGNATURE: usize = 65_536;

/// How far the replay has got.
#[derive(Clone, Copy)]
pub(crate) struct Reached {
    pub(crate) done: Replayed,
    /// The moment of the last command; at first the last accepted moment before the pages.
    pub(crate) at: Moment,
    /// How many requests the follower had before the pages.
    pub(crate) had: u64,
}

// Each call is a step inside the transaction that is under way. After an error, the transaction must be rolled back.
impl<C: Alter, S: Signer> Office<C, S> {
    /// Replays all rows of the pages, `rows`, and their CRLs, in the order of `replay_order.rt`.
    pub(crate) fn replay(
        &mut self,
        alloc: Global,
        rows: &FeedRows,
        pages: &[ReceivedPage],
        from: &Reached,
    ) -> Result<(), Stopped>
        requires { from.now.done ≡ none_replayed }
        ensures made { FormsSign S.signs S.forms → feed_rows_of rows.now ≡ joined_rows pages.now
            → IfOk result (λ _. LeadsWithin C.Store S.signs (S.identity self.old.signer)
            self.old.store self.new.store (HasReplayedAll pages.now)) }
        ensures stepped { StepsWithin C.Store self.old.store self.new.store }
        ensures untouched { SignsNothing self.old self.new }
    {
        let mut reached = *from;
        let most = steps_of(rows, pages).saturating_add(1);
        for _ in 0..most {
            let next = match next_of(rows, pages, &reached.done, reached.had) {
                Some(next) => next,
                None => return all_or_stopped(rows, pages, &reached.done),
            };
            let after = self.replay_next(alloc, rows, pages, &reached, next)?;
            reached = after;
        }
        Err(Stopped::Database(DatabaseFault::Store))
    }

    /// Replays the next row of a table, or the CRL of the next page.
    fn replay_next(
        &mut self,
        alloc: Global,
        rows: &FeedRows,
        pages: &[ReceivedPage],
        reached: &Reached,
        next: NextRow,
    ) -> Result<Reached, Stopped>
        ensures made { FormsSign S.signs S.forms → IfOk result (λ after.
            LeadsWithin C.Store S.signs (S.identity self.old.signer) self.old.store self.new.store
            (ReplaysMore (feed_rows_of rows.now) pages.now reached.now.done after.done)) }
        ensures stepped { StepsWithin C.Store self.old.store self.new.store }
        ensures untouched { SignsNothing self.old self.new }
    {
        match row_at(rows, &reached.done, next) {
            Some((row, done)) => {
                let at = row.moment(reached.at);
                self.replay_row(at, &row)?;
                let mut after = *reached;
                after.done = done;
                after.at = at;
                Ok(after)
            }
            None => self.replay_page(alloc, pages, reached),
        }
    }

    /// Replays a row at a moment. The decline of a request that is declined already changes nothing.
    fn replay_row(&mut self, at: Moment, row: &FeedRow) -> Result<(), Stopped>
        ensures made { IfOk result (λ _. LeadsWithin C.Store S.signs (S.identity self.old.signer)
            self.old.store self.new.store (EntersFeedRow at row.now)) }
        ensures stepped { StepsWithin C.Store self.old.store self.new.store }
        ensures untouched { SignsNothing self.old self.new }
    {
        match *row {
            FeedRow::Declined(id) => self.replay_decline(at, row, id),
            _ => self.enter_row(at, row),
        }
    }

    /// Declines the request with this id, as `row` says, if it is not declined already.
    fn replay_decline(&mut self, at: Moment, row: &FeedRow, id: u64) -> Result<(), Stopped>
        requires { row.now ≡ Declined id }
        ensures made { IfOk result (λ _. LeadsWithin C.Store S.signs (S.identity self.old.signer)
            self.old.store self.new.store (EntersFeedRow at row.now)) }
        ensures stepped { StepsWithin C.Store self.old.store self.new.store }
        ensures untouched { SignsNothing self.old self.new }
    {
        let declined = self.is_declined(id)?;
        if declined {
            return Ok(());
        }
        self.enter_row(at, row)
    }

    /// Enters a row, if that is what the register decides on its command at a moment.
    fn enter_row(&mut self, at: Moment, row: &FeedRow) -> Result<(), Stopped>
        ensures made { IfOk result (λ _. LeadsWithin C.Store S.signs (S.identity self.old.signer)
            self.old.store self.new.store (λ before after. after ≡ with_feed_row before at row.now)) }
        ensures stepped { StepsWithin C.Store self.old.store self.new.store }
        ensures untouched { SignsNothing self.old self.new }
    {
        if at >= Moment::CLOCK_END {
            let why = FeedRule::Refused(Refusal::ClockEnd);
            return Err(broken(row.part(), row.number(), why));
        }
        let command = row.command();
        match decide(&mut self.store, at, &command) {
            Ok((_reply, change)) => {
                if !row.is_entered_by(&change) {
                    return Err(broken(row.part(), row.number(), FeedRule::OtherRow));
                }
                match self.store.enter(at, &change) {
                    Ok(()) => Ok(()),
                    Err(fault) => Err(Stopped::Database(fault)),
                }
            }
            Err(fault) => Err(undecided(row.part(), row.number(), fault)),
        }
    }

    /// Whether the request with this id is declined. If there is none, the register would refuse the command, with the same error.
    fn is_declined(&mut self, id: u64) -> Result<bool, Stopped>
        ensures made { IfOk result (λ declined. LeadsWithin C.Store S.signs (S.identity self.old.signer)
            self.old.store self.new.store (λ before after.
            (after ≡ before) × IsSome (request_in before.requests id)
            × (IsTrue declined → map (declined_if id) before.requests ≡ before.requests))) }
        ensures stepped { StepsWithin C.Store self.old.store self.new.store }
        ensures untouched { SignsNothing self.old self.new }
    {
        let found = self.store.request(id)?;
        // If no transaction is under way now, a failure of the database has ended it.
        if self.store.is_idle() {
            return Err(Stopped::Database(DatabaseFault::Store));
        }
        match found {
            Some(request) => Ok(request.declined),
            None => {
                let why = FeedRule::Refused(Refusal::NoRequest);
                Err(broken(FeedPart::Declined, id, why))
            }
        }
    }

    /// Replays the CRL of the next page, if it has one.
    fn replay_page(
        &mut self,
        alloc: Global,
        pages: &[ReceivedPage],
        reached: &Reached,
    ) -> Result<Reached, Stopped>
        ensures made { FormsSign S.signs S.forms → IfOk result (λ after.
            (rows : RowLists) → LeadsWithin C.Store S.signs (S.identity self.old.signer)
            self.old.store self.new.store (ReplaysMore rows pages.now reached.now.done after.done)) }
        ensures stepped { StepsWithin C.Store self.old.store self.new.store }
        ensures untouched { SignsNothing self.old self.new }
    {
        let page = match pages.get(reached.done.pages) {
            Some(page) => page,
            None => return Err(Stopped::Database(DatabaseFault::Store)),
        };
        let at = self.replay_crl_of(alloc, page, reached.at)?;
        let mut after = *reached;
        after.done.pages += 1;
        after.at = at;
        Ok(after)
    }

    /// Replays the CRL of a page, if it has one. Returns its moment, or else `before`.
    fn replay_crl_of(
        &mut self,
        alloc: Global,
        page: &ReceivedPage,
        before: Moment,
    ) -> Result<Moment, Stopped>
        ensures made { FormsSign S.signs S.forms → IfOk result (λ _.
            LeadsWithin C.Store S.signs (S.identity self.old.signer) self.old.store self.new.store
            (EntersPageCrl page.now.crl)) }
        ensures stepped { StepsWithin C.Store self.old.store self.new.store }
        ensures untouched { SignsNothing self.old self.new }
    {
        match &page.crl {
            Some(crl) => {
                self.replay_crl(alloc, crl)?;
                Ok(crl.row.this_update)
            }
            None => Ok(before),
        }
    }

    /// Enters a CRL, if the register issues one with the same row at its moment, and with the same octets but for the signature.
    fn replay_crl(&mut self, alloc: Global, crl: &FeedCrl) -> Result<(), Stopped>
        ensures made { FormsSign S.signs S.forms → IfOk result (λ _.
            LeadsWithin C.Store S.signs (S.identity self.old.signer) self.old.store self.new.store
            (λ before after. after ≡ with_crl before crl.now.row.this_update (feed_crl_of crl.now))) }
        ensures stepped { StepsWithin C.Store self.old.store self.new.store }
        ensures untouched { SignsNothing self.old self.new }
    {
        let at = crl.row.this_update;
        if at >= Moment::CLOCK_END {
            let why = FeedRule::Refused(Refusal::ClockEnd);
            return Err(broken(FeedPart::Crl, crl.row.number, why));
        }
        match next_row(&mut self.store, at) {
            Ok((row, next_update)) => self.enter_crl(alloc, crl, row, next_update),
            Err(fault) => Err(undecided(FeedPart::Crl, crl.row.number, fault)),
        }
    }

    /// Enters a CRL whose row the register has decided to be `row`.
    fn enter_crl(
        &mut self,
        alloc: Global,
        crl: &FeedCrl,
        row: CrlRow,
        next_update: Moment,
    ) -> Result<(), Stopped>
        ensures made { FormsSign S.signs S.forms → IfOk result (λ _.
            EntersDecidedCrl C.Store S.signs (S.identity self.old.signer)
            self.old.store self.new.store crl.now row next_update) }
        ensures under_way { OnOk result (self.old.store.in_transaction ≡ true) }
        ensures stepped { StepsWithin C.Store self.old.store self.new.store }
        ensures untouched { SignsNothing self.old self.new }
    {
        if !is_same_row(&row, &crl.row) {
            return Err(broken(FeedPart::Crl, crl.row.number, FeedRule::OtherRow));
        }
        let der = crl.der.as_slice();
        let wrong = checked_crl(&mut self.store, &self.signer, alloc, &row, next_update, der)?;
        match wrong {
            None => {}
            Some(why) => return Err(broken(FeedPart::Crl, crl.row.number, why)),
        }
        match self.store.enter(row.this_update, &Change::Crl(row, der)) {
            Ok(()) => Ok(()),
            Err(fault) => Err(Stopped::Database(fault)),
        }
    }
}

fn is_same_row(row: &CrlRow, given: &CrlRow) -> bool
    ensures { IsTrue result ↔ (row.now ≡ given.now) }
{
    row.number == given.number && row.this_update == given.this_update
}

fn all_or_stopped(rows: &FeedRows, pages: &[ReceivedPage], done: &Replayed) -> Result<(), Stopped>
    ensures { OnOk result (AreAllReplayed (feed_rows_of rows.now) (length pages.now) done.now) }
{
    if are_all_replayed(rows, pages, done) {
        Ok(())
    } else {
        Err(Stopped::Database(DatabaseFault::Store))
    }
}

// ---- the octets of a CRL

/// The rule that the octets of a received CRL break, if any: they must be those of the records, with a signature in the form of one by the signer;
/// or, if no CRL of the records has such a signature yet, with the placeholder digest.
fn checked_crl<C: Alter, S: Signer>(
    tables: &mut Tables<C>,
    signer: &S,
    alloc: Global,
    row: &CrlRow,
    next_update: Moment,
    der: &[u8],
) -> Result<Option<FeedRule>, DatabaseFault>
    ensures { LooksUp C.Store tables.old tables.new (λ records.
        next_update ≡ row.now.this_update + records.policy.crl_life → IfOk result (λ wrong. wrong ≡ None
        → MayBeNextCrl S.forms (S.identity signer.now) records row.now der.now)) }
{
    let has_digest = may_have_digest(tables, signer, der)?;
    let (issuer, entries) = listed(tables, row.number)?;
    match wrong_form(
        alloc,
        signer,
        has_digest,
        &issuer,
        row,
        next_update,
        &entries,
        der,
    ) {
        Ok(wrong) => Ok(wrong),
        Err(Memory) => Err(DatabaseFault::Memory),
    }
}

/// As [`wrong_octets`], by the signer, or by the placeholder digest (`has_digest`).
fn wrong_form<S: Signer>(
    alloc: Global,
    signer: &S,
    has_digest: bool,
    issuer: &Issuer,
    row: &CrlRow,
    next_update: Moment,
    entries: &[Entry],
    der: &[u8],
) -> Result<Option<FeedRule>, Memory>
    requires ascending { EntriesAscend entries.now }
    requires few { length entries.now ≤ 1000000 }
    ensures digest { IsTrue has_digest → IfOk result (λ wrong. wrong ≡ None
        → has_placeholder_digest
        (record {
          issuer = issuer.now;
          number = row.now.number;
          this_update = row.now.this_update;
          next_update = next_update;
          entries = entries.now;
        })
        der.now) }
    ensures signed { IsFalse has_digest → IfOk result (λ wrong. wrong ≡ None
        → signed_by S.forms (S.identity signer.now)
        (record {
          issuer = issuer.now;
          number = row.now.number;
          this_update = row.now.this_update;
          next_update = next_update;
          entries = entries.now;
        })
        der.now) }
{
    if has_digest {
        let digest = DigestSeal;
        wrong_octets(alloc, &digest, issuer, row, next_update, entries, der)
    } else {
        wrong_octets(alloc, signer, issuer, row, next_update, entries, der)
    }
}

fn wrong_octets<S: Signer>(
    alloc: Global,
    signer: &S,
    issuer: &Issuer,
    row: &CrlRow,
    next_update: Moment,
    entries: &[Entry],
    der: &[u8],
) -> Result<Option<FeedRule>, Memory>
    requires ascending { EntriesAscend entries.now }
    requires few { length entries.now ≤ 1000000 }
    ensures { IfOk result (λ wrong. wrong ≡ None → signed_by S.forms (S.identity signer.now)
        (record {
          issuer = issuer.now;
          number = row.now.number;
          this_update = row.now.this_update;
          next_update = next_update;
          entries = entries.now;
        })
        der.now) }
{
    let signature = match signature_in(der) {
        Some(signature) => signature,
        None => return Ok(Some(FeedRule::OtherCrl)),
    };
    let tbs = crl_tbs(
        alloc,
        issuer,
        signer.algorithm(),
        row.number,
        row.this_update,
        next_update,
        entries,
    )?;
    let whole = crl_whole(alloc, &tbs, signer.algorithm(), signature)?;
    if !same_octets(&whole, der) {
        return Ok(Some(FeedRule::OtherCrl));
    }
    if !signer.has_form(&tbs, signature) {
        return Ok(Some(FeedRule::NoSignature));
    }
    Ok(None)
}

pub(crate) fn same_octets(some: &[u8], others: &[u8]) -> bool
    ensures { IsTrue result ↔ (some.now ≡ others.now) }
{
    some == others
}

/// The octets of the signature in a CRL (RFC 5280 5.1.1.3); `None` if there are none, or more than a signature has. For other bytes, `None` or some
/// part of them.
fn signature_in(crl: &[u8]) -> Option<&[u8]>
    ensures { IfSome result (λ signature. length signature.now ≤ 65536) }
{
    let (list, _) = take(crl)?;
    let (_, after_tbs) = take(list.contents)?;
    let (_, after_algorithm) = take(after_tbs)?;
    let (bits, _) = take(after_algorithm)?;
    let (_, signature) = bits.contents.split_first()?;
    if signature.len() > LONGEST_SIGNATURE {
        return None;
    }
    Some(signature)
}
