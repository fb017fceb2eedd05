//! An office that caches the undecided requests, so that `overdue` and the count of open requests seldom read all requests.

ghost use Rattle.std.specs.Prelude.{◌≡◌, ℕ, List, None, Result, IfOk, IsErrOf, filter, length};
ghost use Rattle.reg_core.specs.Due.{is_open, overdue, overdue_report};
ghost use Rattle.reg_core.specs.Records.{Records};
ghost use Rattle.reg_core.specs.declared.command.Query.TheVariants.{Overdue as AskOverdue};
ghost use Rattle.reg_core.specs.declared.command.Reply.{Reply};
ghost use Rattle.reg_core.specs.declared.refusal.Fault.{Fault as Why};
ghost use Rattle.reg_core.specs.declared.refusal.Fault.TheVariants.{Signer as SignerFailed};
ghost use Rattle.reg_core_laws.specs.Run.{Happens, Run};
ghost use Rattle.reg_crl.specs.Signing.{Identity, signed_by};
ghost use Rattle.reg_office_api.specs.CallSteps.{QueryStep};
ghost use Rattle.reg_office_api.specs.Follows.{AddsRows};
ghost use Rattle.reg_office_cache.specs.Caching.{CachingLeads, CachingLooks};
ghost use Rattle.reg_office_cache.specs.Declining.{has_decline, has_declined_rows, is_decline};
ghost use Rattle.reg_office_cache.specs.Undecided.{AreUndecided};
ghost use Rattle.reg_office_reads.specs.Looking.{clock_refusal};

use crate::undecided::{UndecidedRequests, open_count_by, overdue_by};
use reg_core::{
    Command, Fault, Label, Memory, Moment, Outcome, Overdue, Query, Reply, Schedule, Serial,
};
use reg_core_lists::{Cursor, Page, Positions, ReceivedPage};
use reg_crl::Signer;
use reg_io::ReadyOrUnsigned;
use reg_ocsp::Draft;
use reg_office::Office;
use reg_office_api::{
    Changes, FollowFault, OcspResponse, Office as _, RegisterSummary, RequestLoad,
};
use reg_store::DatabaseFault;
use sqlite::Alter;
use std::alloc::Global;

/// An [`Office`], and the undecided requests of its register as the last query found them.
#[derive(Drop)]
pub struct CachingOffice<C: Alter, S: Signer> {
    pub office: Office<C, S>,
    undecided: UndecidedRequests,
}

impl<C: Alter, S: Signer> CachingOffice<C, S> {
    pub fn new(alloc: Global, office: Office<C, S>) -> CachingOffice<C, S>
        ensures office { result.office ≡ office }
        ensures undecided { (records : Records) → AreUndecided records result.undecided }
    {
        CachingOffice {
            office,
            undecided: UndecidedRequests::new(alloc),
        }
    }

    fn overdue(&mut self, now: Moment) -> Result<Option<Overdue>, Fault>
        ensures { CachingLooks C.Store S.Signer (λ records. IfOk result (λ report.
            (clock_refusal records now ≡ None) × (report ≡ overdue_report (overdue records now))))
            self.old self.new }
    {
        overdue_by(&mut self.office.store, &mut self.undecided, now)
    }

    fn count_open(&mut self, now: Moment) -> Result<u64, DatabaseFault>
        ensures { CachingLooks C.Store S.Signer (λ records. IfOk result (λ count.
            count ≡ length (filter (is_open records now) records.requests))) self.old self.new }
    {
        open_count_by(&mut self.office.store, &mut self.undecided, now)
    }

    /// Reads only the requests and revocations since the last query; if that fails, all requests, as [`Office`] does.
    fn ask_overdue(&mut self, alloc: Global, now: Moment) -> Outcome
        ensures asks { CachingLeads C.Store S.Signer (QueryStep now AskOverdue result) self.old self.new }
        ensures unsigned { ¬ (IsErrOf result SignerFailed) }
    {
        match self.overdue(now) {
            Ok(report) => Ok(Reply::Overdue(report)),
            Err(_) => self.office.ask(alloc, now, &Query::Overdue),
        }
    }
}

// Each method without a comment calls that of `Office` with its name, which leaves the cached requests what they are.
impl<C: Alter, S: Signer> reg_office_api::Office for CachingOffice<C, S> {
    ghost use Rattle.sqlite.specs.Held.{state};
    ghost use Rattle.sqlite.specs.State.{HasCleanDisk};
    ghost use Rattle.reg_office.specs.Calls.{answer_failures_in};
    ghost use Rattle.reg_office_cache.specs.Caching.{Caches};

    ghost is_clean = { λ it. HasCleanDisk (state C.Store it.office.store) };

    ghost stands = { Caches C.Store S.Signer };

    ghost signs = { S.signs };

    ghost forms = { S.forms };

    ghost failures = { λ it. S.failure_count it.office.signer };

    ghost answer_failures = { λ it. answer_failures_in S.Signer it.office };

    fn run_one(&mut self, alloc: Global, now: Moment, command: &Command) -> Outcome {
        let outcome = self.office.run_one(alloc, now, command);
        keep::<S>(&mut self.undecided, command, &outcome);
        outcome
    }

    fn run_batch(
        &mut self,
        alloc: Global,
        commands: &[(Moment, Command)],
    ) -> Result<Vec<Outcome>, Fault> {
        keep_before::<S>(&mut self.undecided, commands);
        self.office.run_batch(alloc, commands)
    }

    fn ask(&mut self, alloc: Global, now: Moment, query: &Query) -> Outcome {
        match *query {
            Query::Overdue => self.ask_overdue(alloc, now),
            _ => self.office.ask(alloc, now, query),
        }
    }

    fn ocsp(&mut self, alloc: Global, now: Moment, request: &[u8]) -> Result<Vec<u8>, Memory> {
        self.office.ocsp(alloc, now, request)
    }

    fn begin_ocsp(
        &mut self,
        alloc: Global,
        now: Moment,
        request: &[u8],
    ) -> Result<ReadyOrUnsigned<OcspResponse, Draft>, Memory> {
        self.office.begin_ocsp(alloc, now, request)
    }

    fn crl_bytes(&mut self, alloc: Global, number: Option<u64>) -> Result<Vec<u8>, Fault> {
        self.office.crl_bytes(alloc, number)
    }

    fn crl_message(&mut self, alloc: Global, now: Moment) -> Option<Vec<u8>> {
        self.office.crl_message(alloc, now)
    }

    fn page(&mut self, alloc: Global, now: Moment, from: Cursor, most: u64) -> Result<Page, Fault> {
        self.office.page(alloc, now, from, most)
    }

    fn changes(&mut self, alloc: Global, after: &Option<Positions>) -> Result<Changes, Fault> {
        self.office.changes(alloc, after)
    }

    fn positions(&mut self, alloc: Global) -> Result<Positions, Fault> {
        self.office.positions(alloc)
    }

    fn follow(
        &mut self,
        alloc: Global,
        from: &Positions,
        pages: &[ReceivedPage],
    ) -> Result<Positions, FollowFault> {
        keep_before_pages(&mut self.undecided, pages);
        self.office.follow(alloc, from, pages)
    }

    fn summary(&mut self) -> Result<RegisterSummary, Fault> {
        self.office.summary()
    }

    fn last(&mut self) -> Result<Moment, Fault> {
        self.office.last()
    }

    fn open_count(&mut self, now: Moment) -> Result<u64, Fault> {
        match self.count_open(now) {
            Ok(count) => Ok(count),
            Err(_) => self.office.open_count(now),
        }
    }

    fn request_load(
        &mut self,
        now: Moment,
        serial: Serial,
        most: u64,
    ) -> Result<RequestLoad, Fault> {
        self.office.request_load(now, serial, most)
    }

    fn longest(&mut self, order: u64, not_before: Moment) -> Result<Option<u64>, Fault> {
        self.office.longest(order, not_before)
    }

    fn set_schedule(&mut self, alloc: Global, schedule: Schedule) -> Result<(), Fault> {
        self.office.set_schedule(alloc, schedule)
    }

    fn set_key_identifier(&mut self, alloc: Global, octets: Label) -> Result<(), Fault> {
        self.office.set_key_identifier(alloc, octets)
    }

    fn failure_counts(&self) -> (u64, u64) {
        self.office.failure_counts()
    }
}

/// After a command with this outcome.
fn keep<S: Signer>(known: &mut UndecidedRequests, command: &Command, outcome: &Outcome)
    ensures { (identity : Identity) (before after : Records) (now : ℕ)
        → Happens (signed_by S.signs identity) before now command.now outcome.now after
        → AreUndecided before known.old → AreUndecided after known.new }
{
    match *command {
        Command::Decline { request } => match outcome {
            Ok(_) => known.decline(request),
            Err(_) => {}
        },
        _ => {}
    }
}

/// Before commands run: the declines of a batch are not followed one by one.
fn keep_before<S: Signer>(known: &mut UndecidedRequests, commands: &[(Moment, Command)])
    ensures stays { (before : Records) → AreUndecided before known.old → AreUndecided before known.new }
    ensures ran { (identity : Identity) (before after : Records) (outcomes : List (Result Reply Why))
        → Run (signed_by S.signs identity) before commands.now outcomes after
        → AreUndecided before known.old → AreUndecided after known.new }
{
    if has_decline(commands) {
        known.forget();
    }
}

/// Before pages of another register's feed are entered.
fn keep_before_pages(known: &mut UndecidedRequests, pages: &[ReceivedPage])
    ensures stays { (before : Records) → AreUndecided before known.old → AreUndecided before known.new }
    ensures added { (before after : Records) → AddsRows pages.now before after
        → AreUndecided before known.old → AreUndecided after known.new }
{
    if has_declined_rows(pages) {
        known.forget();
    }
}

fn has_decline(commands: &[(Moment, Command)]) -> bool
    ensures { result ≡ has_decline commands.now }
{
    commands.iter().any(|(_, command)| is_decline(command))
}

fn is_decline(command: &Command) -> bool
    ensures { result ≡ is_decline command.now }
{
    match *command {
        Command::Decline { .. } => true,
        _ => false,
    }
}

fn has_declined_rows(pages: &[ReceivedPage]) -> bool
    ensures { result ≡ has_declined_rows pages.now }
{
    pages.iter().any(|page| !page.rows.declined.is_empty())
}
