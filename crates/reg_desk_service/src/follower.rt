//! A follower: it asks a leader for changes, keeps the pages in memory up to the one that ends the feed, and then has its office enter them.

ghost use Rattle.std.specs.Prelude.{◌≡◌, ◌⊎◌, ◌↔◌, ◌++◌, ◌∷◌, ◌*◌, [], min, None, Some, Ok, IfErr, IfOk, IfSome, IsFalse, IsTrue, OnErr, OnOk, is_some};
ghost use Rattle.reg_desk_metrics.specs.Tallies.{greatest};
ghost use Rattle.reg_desk_server.specs.Buffers.{unsent_of};
ghost use Rattle.reg_office_api.specs.Follows.{FollowStep, FormsSign};
ghost use Rattle.reg_desk_service.specs.ExpectedCrls.{ExpectsCrls, LeadsWithCrls};
ghost use Rattle.reg_desk_service.specs.PageSchedules.{HasLastSteps};
ghost use Rattle.reg_desk_service.specs.Following.{NotesFailure, IsTooFarBehind, SendsRequest, FollowsAt, KeepsProgress, KeepsRecords, LastEnds, Reaches, TakesResponse, has_diverged, is_current_at, may_wait, next_request, no_progress, reached_within, progress_at};

use crate::confirmation::schedule_in;
use crate::feed_request::changes_request;
use crate::machine::Machine;
use mio::Registry;
use reg_core_lists::{Positions, ReceivedPage, read_feed_page};
use reg_crl_signer::{Algorithm, crl_algorithm};
use reg_desk_cli::{Failure, LeaderAddress};
use reg_desk_metrics::{FeedFailure, FollowerStatus};
use reg_desk_server::{EventLoopFault, FeedExchange, FeedProgress, LeaderStream};
use reg_http_head::{ResponseHead, status};
use reg_office_api::{BrokenFeed, FeedPart, FeedRule, FollowFault, Office};
use std::alloc::{AllocError, Global};

/// How many milliseconds pass at least between two requests, if there was no news.
const PAUSE_MILLIS: u64 = 200;

/// The same if the leader lets such a request wait: the next one then waits there.
const WAITING_PAUSE_MILLIS: u64 = 10;

/// The least lag, in milliseconds, with which a request without news may wait at the leader.
const LEAST_WAITING_LAG: u64 = 5_000;

/// The same after a failure.
const RETRY_MILLIS: u64 = 1_000;

/// The most pages, and the most bytes of them, that are kept in memory.
const MOST_PAGES: usize = 512;

const MOST_BYTES: u64 = 160_000_000;

/// The state of a follower, besides its register.
#[derive(Drop)]
pub struct Follower<'a, 'w> {
    alloc: Global,
    leader: &'a LeaderAddress<'w>,
    /// The number by which the leader tells its followers apart.
    number: u64,
    /// For how many milliseconds answers are given after the leader was last reached.
    lag: u64,
    /// The positions of the records.
    own: Positions,
    /// The steps of the schedule of the records, as text; empty until pages were entered.
    schedule: Vec<u8>,
    /// The positions after the pages that are kept.
    after: Positions,
    pages: Vec<ReceivedPage>,
    bytes: u64,
    exchange: Option<FeedExchange<LeaderStream>>,
    /// When the last request was made, in milliseconds of the monotonic clock; so are the next three.
    asked_at: u64,
    /// When the next request is due.
    next_at: u64,
    started_at: u64,
    /// When the last request was made whose answer ended the feed and was entered; and whether that had news.
    reached_at: Option<u64>,
    had_news: bool,
    entered: u64,
    refused: u64,
    failure: Option<FeedFailure>,
    /// Why the program ends once no answers are given.
    stop: Option<Failure>,
}

impl<'a, 'w> Follower<'a, 'w> {
    /// A follower whose records have these positions; it has not reached its leader yet. `lag` is in seconds.
    pub fn new(
        alloc: Global,
        leader: &'a LeaderAddress<'w>,
        lag: u64,
        own: Positions,
        number: u64,
        now: u64,
    ) -> Follower<'a, 'w>
        ensures lag { result.lag ≡ min (lag * 1000) greatest }
        ensures own { result.own ≡ own }
        ensures number { result.number ≡ number }
        ensures reached_at { result.reached_at ≡ None }
        ensures stop { result.stop ≡ None }
    {
        Follower {
            alloc,
            leader,
            number,
            lag: lag.saturating_mul(1_000),
            own,
            schedule: Vec::new(alloc),
            after: own,
            pages: Vec::new(alloc),
            bytes: 0,
            exchange: None,
            asked_at: now,
            next_at: now,
            started_at: now,
            reached_at: None,
            had_news: false,
            entered: 0,
            refused: 0,
            failure: None,
            stop: None,
        }
    }

    /// Why the program ends, if it must.
    pub fn stop(&self) -> Option<Failure>
        ensures { result ≡ self.now.stop }
    {
        self.stop
    }

    /// Whether answers are given: the records are those of the leader at some moment within the lag.
    pub fn is_current(&self, now: u64) -> bool
        ensures { result ≡ is_current_at self.now now }
    {
        match self.reached_at {
            Some(reached_at) => now.saturating_sub(reached_at) <= self.lag,
            None => false,
        }
    }

    /// Its progress at `now`, in milliseconds of the monotonic clock.
    pub fn status(&self, now: u64) -> FollowerStatus
        ensures { result ≡ progress_at self.now now }
    {
        let since = self.reached_at.unwrap_or(self.started_at);
        FollowerStatus {
            is_current: self.is_current(now),
            lag: now.saturating_sub(since) / 1_000,
            positions: self.own,
            entered: self.entered,
            refused: self.refused,
            is_diverged: is_diverged(self.stop),
            failure: self.failure,
        }
    }

    /// Asks, receives, and enters what was received, without blocking. Returns within how many milliseconds there is more to do. [`EventLoopFault`]
    /// if the program is to end.
    pub fn work<M: Machine>(
        &mut self,
        office: &mut M::Office,
        machine: &M,
        registry: &Registry,
        now: u64,
    ) -> Result<u64, EventLoopFault>
        ensures follows { FollowsAt M.Office.Office now self.old self.new office.old office.new }
        ensures ends { OnErr result (IsTrue (is_some self.new.stop)) }
    {
        if self.stop.is_some() && !self.is_current(now) {
            return Err(EventLoopFault);
        }
        if self.exchange.is_some() {
            return Ok(self.go_on::<M>(office, machine, now));
        }
        if now < self.next_at {
            return Ok(self.next_at.saturating_sub(now));
        }
        self.ask::<M>(machine, registry, now);
        Ok(self.go_on::<M>(office, machine, now))
    }

    /// Receives, and enters what was received. Returns within how many milliseconds there is more to do.
    fn go_on<M: Machine>(&mut self, office: &mut M::Office, machine: &M, now: u64) -> u64
        ensures { TakesResponse M.Office.Office self.old self.new office.old office.new }
    {
        match self.advance(now) {
            FeedProgress::Waiting(millis) => millis,
            FeedProgress::Failed => {
                self.fail::<M>(machine, FeedFailure::Unreachable, now);
                self.next_at.saturating_sub(now)
            }
            FeedProgress::Arrived(head) => {
                self.receive::<M>(office, machine, head, now);
                self.next_at.saturating_sub(now)
            }
        }
    }

    fn ask<M: Machine>(&mut self, machine: &M, registry: &Registry, now: u64)
        ensures { SendsRequest now self.old self.new }
    {
        self.asked_at = now;
        self.exchange = self.asked::<M>(machine, registry, now);
    }

    /// Its next request, on a connection of its own; `None` if the leader can't be reached.
    fn asked<M: Machine>(
        &self,
        machine: &M,
        registry: &Registry,
        now: u64,
    ) -> Option<FeedExchange<LeaderStream>>
        ensures { IfSome result (λ exchange. unsent_of exchange.request ≡ next_request self.now) }
    {
        let mut stream = machine.connect_to_leader(self.leader).ok()?;
        stream.register(registry).ok()?;
        let request = self.next_request().ok()?;
        Some(FeedExchange::new(self.alloc, stream, request, now))
    }

    /// Asks for the changes after the pages that are kept. If there are none, and its file is known to have all rows up to there and this schedule,
    /// then its number tells the leader.
    fn next_request(&self) -> Result<Vec<u8>, AllocError>
        ensures { IfOk result (λ request. request.items ≡ next_request self.now) }
    {
        if self.pages.is_empty() && !self.schedule.is_empty() {
            changes_request(
                self.alloc,
                &Some(self.own),
                Some(self.number),
                &self.schedule,
                self.may_wait(),
            )
        } else {
            changes_request(self.alloc, &Some(self.after), None, &[], false)
        }
    }

    /// Whether its requests may wait at the leader: its lag is long enough.
    fn may_wait(&self) -> bool
        ensures { result ≡ may_wait self.now }
    {
        self.lag >= LEAST_WAITING_LAG
    }

    /// How many milliseconds after a request without news the next one is due.
    fn pause(&self) -> u64 {
        if self.may_wait() {
            WAITING_PAUSE_MILLIS
        } else {
            PAUSE_MILLIS
        }
    }

    fn advance(&mut self, now: u64) -> FeedProgress
        ensures { KeepsProgress self.old self.new }
    {
        match &mut self.exchange {
            Some(exchange) => exchange.advance(now),
            None => FeedProgress::Failed,
        }
    }

    /// Drops the pages that are kept, and asks again later, from the own records on. Reports the failure unless the last request failed in the same
    /// way.
    fn fail<M: Machine>(&mut self, machine: &M, failure: FeedFailure, now: u64)
        ensures kept { KeepsProgress self.old self.new }
        ensures failed { NotesFailure failure now self.old self.new }
    {
        self.exchange = None;
        self.pages.clear();
        self.bytes = 0;
        self.after = self.own;
        self.had_news = false;
        self.next_at = now.saturating_add(RETRY_MILLIS);
        let is_new = self.failure != Some(failure);
        self.failure = Some(failure);
        if is_new {
            report::<M>(self.alloc, machine, &failure);
        }
    }

    /// Takes the response that has arrived with this head.
    fn receive<M: Machine>(
        &mut self,
        office: &mut M::Office,
        machine: &M,
        head: ResponseHead,
        now: u64,
    )
        ensures { TakesResponse M.Office.Office self.old self.new office.old office.new }
    {
        let Some(exchange) = self.exchange.take() else {
            return;
        };
        match head.status {
            status::OK => self.take_body::<M>(office, machine, exchange.body(head), now),
            status::CONFLICT => self.take_conflict::<M>(machine, now),
            code => self.fail::<M>(machine, FeedFailure::Status(code), now),
        }
    }

    /// The leader answered 409 (`diverged`).
    fn take_conflict<M: Machine>(&mut self, machine: &M, now: u64)
        ensures kept { KeepsProgress self.old self.new }
        ensures diverged { self.old.pages.items ≡ [] → self.new.stop ≡ Some Failure.Diverged }
        ensures replaced { ¬ (self.old.pages.items ≡ []) → self.new.stop ≡ self.old.stop }
    {
        // If pages are kept, only the positions after them may be unknown, as after the leader was replaced.
        if self.pages.is_empty() {
            self.stop = Some(Failure::Diverged);
        }
        self.fail::<M>(machine, FeedFailure::Status(status::CONFLICT), now);
    }

    /// Takes the page that is the body of a response. If it is refused, counts and reports that.
    fn take_body<M: Machine>(&mut self, office: &mut M::Office, machine: &M, body: &[u8], now: u64)
        ensures { TakesResponse M.Office.Office self.old self.new office.old office.new }
    {
        match self.take_page::<M>(office, machine, body, now) {
            Ok(()) => {}
            Err(failure) => {
                self.refused = self.refused.saturating_add(1);
                self.fail::<M>(machine, failure, now);
            }
        }
    }

    /// Keeps the page that is the body of a response; if it ends the feed, enters all pages.
    fn take_page<M: Machine>(
        &mut self,
        office: &mut M::Office,
        machine: &M,
        body: &[u8],
        now: u64,
    ) -> Result<(), FeedFailure>
        ensures ok { OnOk result (TakesResponse M.Office.Office self.old self.new office.old office.new) }
        ensures err { OnErr result (KeepsProgress self.old self.new) }
        ensures kept { OnErr result (KeepsRecords M.Office.Office office.old office.new) }
    {
        let page = match read_feed_page(self.alloc, body) {
            Ok(page) => page,
            Err(fault) => return Err(FeedFailure::from(fault)),
        };
        let ends = page.ends;
        self.keep_page(page, body.len(), now)?;
        if !ends {
            return self.check_room();
        }
        match schedule_in(self.alloc, body) {
            Ok(schedule) => self.enter::<M>(office, machine, schedule),
            Err(_) => Err(FeedFailure::Memory),
        }
    }

    /// Keeps a page. An error if it does not end the feed and does not lead on either.
    fn keep_page(&mut self, page: ReceivedPage, length: usize, now: u64) -> Result<(), FeedFailure>
        ensures kept { KeepsProgress self.old self.new }
        ensures pages { OnOk result (self.new.pages.items ≡ self.old.pages.items ++ page ∷ []) }
        ensures after { OnOk result ((self.new.after ≡ page.positions) × (self.new.next_at ≡ now)) }
        ensures ends { OnOk result (IsTrue page.ends → LastEnds self.new.pages.items) }
        ensures err { IfErr result (λ why. (why ≡ FeedFailure.Memory)
            ⊎ (IsFalse page.ends × (page.positions ≡ self.old.after))) }
    {
        let positions = page.positions;
        if !page.ends && positions == self.after {
            return Err(FeedFailure::Broken(no_progress()));
        }
        self.bytes = self.bytes.saturating_add(length as u64);
        match self.pages.push(page) {
            Ok(()) => {}
            Err(_) => return Err(FeedFailure::Memory),
        }
        self.after = positions;
        self.next_at = now;
        Ok(())
    }

    /// An error if the leader has more changes than are kept in memory.
    fn check_room(&mut self) -> Result<(), FeedFailure>
        ensures kept { KeepsProgress self.old self.new }
        ensures ok { OnOk result ((self.new ≡ self.old) × ¬ IsTooFarBehind self.old) }
        ensures err { OnErr result (IsTooFarBehind self.old) }
    {
        if self.pages.len() >= MOST_PAGES || self.bytes > MOST_BYTES {
            self.stop = Some(Failure::TooFarBehind);
            return Err(FeedFailure::TooFarBehind);
        }
        Ok(())
    }

    /// Enters the pages that are kept. `schedule`: the steps of the last one's schedule.
    fn enter<M: Machine>(
        &mut self,
        office: &mut M::Office,
        machine: &M,
        schedule: Vec<u8>,
    ) -> Result<(), FeedFailure>
        requires ends { LastEnds self.old.pages.items }
        requires steps { HasLastSteps self.old.pages.items schedule.items }
        ensures ok { OnOk result (Reaches M.Office.Office self.old self.new office.old office.new) }
        ensures err { OnErr result (self.new ≡ self.old) }
        ensures kept { OnErr result (KeepsRecords M.Office.Office office.old office.new) }
    {
        match self.enter_pages::<M>(office, machine) {
            Ok(positions) => {
                self.keep_reached(positions, schedule);
                Ok(())
            }
            Err(fault) => Err(FeedFailure::from(fault)),
        }
    }

    /// The office enters the pages that are kept. If they have a CRL, it first gets the algorithm of CRLs to expect.
    fn enter_pages<M: Machine>(
        &self,
        office: &mut M::Office,
        machine: &M,
    ) -> Result<Positions, FollowFault>
        ensures { FormsSign M.Office.Office.signs M.Office.Office.forms
            → LeadsWithCrls M.Office.Office (FollowStep self.now.own self.now.pages.items result) office.old office.new }
    {
        expect_crls_of::<M>(office, machine, &self.pages);
        office.follow(self.alloc, &self.own, &self.pages)
    }

    /// Whether its records have these positions, and this schedule.
    fn is_at(&self, positions: &Positions, schedule: &[u8]) -> bool
        ensures { IsTrue result ↔ ((positions.now ≡ self.now.own)
            × (schedule.now ≡ self.now.schedule.items)) }
    {
        *positions == self.own && schedule == self.schedule.as_slice()
    }

    /// The pages that are kept were entered.
    fn keep_reached(&mut self, positions: Positions, schedule: Vec<u8>)
        ensures own { self.new.own ≡ positions }
        ensures schedule { self.new.schedule ≡ schedule }
        ensures lag { self.new.lag ≡ self.old.lag }
        ensures asked_at { self.new.asked_at ≡ self.old.asked_at }
        ensures reached_at { self.new.reached_at ≡ Some self.old.asked_at }
        ensures works { (self.new.failure ≡ None) × (self.new.stop ≡ None) }
        ensures none { (self.new.pages.items ≡ []) × (self.new.bytes ≡ 0) × (self.new.after ≡ positions) }
        ensures soon { ¬ ((positions ≡ self.old.own) × (schedule.items ≡ self.old.schedule.items))
            → self.new.next_at ≡ self.old.asked_at }
    {
        // After news, the follower asks again at once: by that the leader knows that they are on the follower's disk. The leader answers that at once,
        // so the follower asks at once again: this request can wait there for the next command.
        let has_news = !self.is_at(&positions, &schedule);
        let pause = if has_news || self.had_news {
            0
        } else {
            self.pause()
        };
        self.had_news = has_news;
        self.own = positions;
        self.schedule = schedule;
        self.after = positions;
        self.reached_at = Some(self.asked_at);
        self.entered = self.entered.saturating_add(self.pages.len() as u64);
        self.failure = None;
        self.stop = None;
        self.pages.clear();
        self.bytes = 0;
        self.next_at = self.asked_at.saturating_add(pause);
    }
}

/// Lets the office enter the CRLs of pages, if they have any.
fn expect_crls_of<M: Machine>(office: &mut M::Office, machine: &M, pages: &[ReceivedPage])
    ensures { ExpectsCrls M.Office.Office office.old office.new }
{
    match algorithm_in(pages) {
        Some(algorithm) => machine.expect_crls(office, algorithm),
        None => {}
    }
}

fn is_diverged(stop: Option<Failure>) -> bool
    ensures { result ≡ has_diverged stop }
{
    match stop {
        Some(Failure::Diverged) => true,
        _ => false,
    }
}

/// The fault of a page that does not end the feed and does not lead on either.
pub fn no_progress() -> BrokenFeed
    ensures { result ≡ no_progress }
{
    BrokenFeed {
        part: FeedPart::Positions,
        row: 0,
        why: FeedRule::OtherPositions,
    }
}

/// The algorithm of the first CRL in pages that has a signature; the ones before it have placeholder digests. `None` if no CRL has a known algorithm.
pub fn algorithm_in(pages: &[ReceivedPage]) -> Option<Algorithm> {
    for page in pages {
        if let Some(algorithm) = algorithm_on(page) {
            return Some(algorithm);
        }
    }
    None
}

/// The algorithm of the CRL of a page. `None` for a page without a CRL, a placeholder digest, or an unknown algorithm.
fn algorithm_on(page: &ReceivedPage) -> Option<Algorithm> {
    let crl = page.crl.as_ref()?;
    Algorithm::from_identifier(crl_algorithm(&crl.der)?)
}

/// Writes a failure to standard error; without memory, nothing.
pub fn report<M: Machine>(alloc: Global, machine: &M, failure: &FeedFailure) {
    let mut line = Vec::new(alloc);
    let put = line.extend_from_slice(b"follow: ");
    let named = failure.put(&mut line);
    let ended = line.push(b'\n');
    if put.is_ok() && named.is_ok() && ended.is_ok() {
        machine.warn(&line);
    }
}
