//! Fills a new file with the register of another desk: first another file beside it, which is then copied.

ghost use Rattle.std.specs.Prelude.{◌≡◌, ◌↔◌, ◌+◌, ◌++◌, ℕ, Some, string_bytes, IfErr, IfOk, IfSome, IsFalse, IsTrue, OnErr, OnOk};
ghost use Rattle.reg_core.specs.Records.{no_records};
ghost use Rattle.reg_core.specs.declared.refusal.Fault.TheVariants as fault;
ghost use Rattle.reg_desk_cli.specs.declared.failure.Failure.TheVariants as failure;
ghost use Rattle.reg_desk_jobs.specs.Fetches.{Comes, ComesOnce, FailsBySystem, FailsToFetch, IsWholeFeed};
ghost use Rattle.reg_desk_jobs.specs.FollowJobs.{CopiesFilled, CreatesEmpty, EntersFeed, Fills, FillsFile, RemovesLeftovers};
ghost use Rattle.reg_office_api.specs.Calls.{LeadsIn};
ghost use Rattle.reg_office_api.specs.Follows.{FormsSign};

use mio::{Events, Poll};
use reg_core::Fault;
use reg_core_lists::{Positions, ReceivedPage, read_feed_page};
use reg_der::{Issuer, IssuerFault};
use reg_desk_cli::{Failure, FollowJob, LeaderAddress};
use reg_desk_metrics::FeedFailure;
use reg_desk_server::{FeedExchange, FeedProgress, LeaderStream};
use reg_desk_service::{
    Machine, algorithm_in, changes_request, create_register, no_progress, open_to_fill, report,
};
use reg_office_api::{FollowFault, Office};
use std::alloc::Global;
use std::time::Duration;

/// The suffix of the name of the file that is filled first.
const FILLED_SUFFIX: &str = ".fill";

/// The suffixes of two more files that a stop while a file is filled may leave: the log of the one that is filled, without it, and an unfinished
/// copy.
const FILLED_LOG_SUFFIX: &str = ".fill-wal";

const PART_SUFFIX: &str = ".part";

/// How many milliseconds pass after a failure before the leader is asked again.
const RETRY_MILLIS: u64 = 1_000;

/// The status code of a response with a page; and of one to positions that the leader does not know (RFC 9110 15.3.1, 15.5.10).
const OK: u16 = 200;

const DIVERGED: u16 = 409;

/// The most events of one poll: only one connection is polled.
const MOST_EVENTS: usize = 8;

/// Creates a file at a path with the register of the leader. All its pages are kept in memory first. Another file, whose name ends with `.fill`, then
/// gets their rows in one transaction; it is copied, and removed. While the leader can't be reached, it is asked once a second. Errors: `BrokenFeed`
/// if a page can't be read or breaks a rule; `BadSigner` if the issuer's key doesn't fit the algorithm of the first signed CRL; `Memory`; `Store`;
/// `Read` if the clock or the sockets fail.
pub(crate) fn fill<M: Machine>(
    rt: &HostRuntime,
    machine: &mut M,
    job: &FollowJob<'_>,
) -> Result<(), Failure>
    ensures { Fills M.Machine M.Office.Office job.now.file result machine.old machine.new }
{
    let alloc = rt.alloc();
    let file = job.file.as_str();
    let path = path_with(alloc, file, FILLED_SUFFIX)?;
    let filled = path.as_str();
    let mut fetcher = Fetcher::new(rt)?;
    let pages = fetcher.fetch_all::<M>(alloc, &*machine, &job.leader)?;
    let entered = fill_file::<M>(alloc, machine, filled, &pages);
    let copied = copy_filled::<M>(machine, filled, file, entered);
    machine.remove(filled);
    copied
}

/// Copies the file at a path, if it was filled.
fn copy_filled<M: Machine>(
    machine: &mut M,
    path: &str,
    to: &str,
    entered: Result<(), Failure>,
) -> Result<(), Failure>
    ensures { CopiesFilled M.Machine M.Office.Office path.now to.now entered result machine.old machine.new }
{
    match entered {
        Ok(()) => match machine.copy(path, to) {
            Ok(_) => Ok(()),
            Err(why) => Err(why),
        },
        Err(why) => Err(why),
    }
}

/// Removes what a run that was stopped while it filled the file at a path has left beside it.
pub(crate) fn remove_leftovers<M: Machine>(
    alloc: Global,
    machine: &mut M,
    file: &str,
) -> Result<(), Failure>
    ensures ok { OnOk result (RemovesLeftovers M.Machine M.Office.Office file.now machine.old machine.new) }
    ensures err { OnErr result (machine.new ≡ machine.old) }
    ensures faults { IfErr result (λ why. why ≡ failure.Fault fault.Memory) }
{
    let filled = path_with(alloc, file, FILLED_SUFFIX)?;
    let log = path_with(alloc, file, FILLED_LOG_SUFFIX)?;
    let part = path_with(alloc, file, PART_SUFFIX)?;
    machine.remove(filled.as_str());
    machine.remove(log.as_str());
    machine.remove(part.as_str());
    Ok(())
}

fn path_with(alloc: Global, file: &str, suffix: &str) -> Result<String, Failure>
    ensures ok { IfOk result (λ path. string_bytes path ≡ file.now ++ suffix.now) }
    ensures faults { IfErr result (λ why. why ≡ failure.Fault fault.Memory) }
{
    let Ok(mut path) = String::from_str(alloc, file) else {
        return Err(Failure::Fault(Fault::Memory));
    };
    match path.push_str(suffix) {
        Ok(()) => Ok(path),
        Err(_) => Err(Failure::Fault(Fault::Memory)),
    }
}

/// Creates a register at a path, and enters all pages. Its signer of CRLs signs nothing, and has the algorithm of the first signed CRL.
fn fill_file<M: Machine>(
    alloc: Global,
    machine: &mut M,
    path: &str,
    pages: &[ReceivedPage],
) -> Result<(), Failure>
    ensures { FormsSign M.Office.Office.signs M.Office.Office.forms
        → FillsFile M.Machine M.Office.Office path.now pages.now result machine.old machine.new }
{
    let Some(page) = pages.last() else {
        return Err(Failure::BrokenFeed);
    };
    create_empty::<M>(alloc, machine, path, page)?;
    let mut office = open_to_fill(machine, path, algorithm_in(pages))?;
    let entered = enter_all::<M>(alloc, &*machine, &mut office, pages);
    machine.close(path, office);
    entered
}

/// Creates a register without records, of the issuer and the policy of a page.
fn create_empty<M: Machine>(
    alloc: Global,
    machine: &mut M,
    path: &str,
    page: &ReceivedPage,
) -> Result<(), Failure>
    ensures { CreatesEmpty M.Machine M.Office.Office path.now result machine.old machine.new }
{
    let issuer = match Issuer::of_stored(alloc, &page.head.stored_name, &page.head.key) {
        Ok(issuer) => issuer,
        Err(IssuerFault::Memory) => return Err(Failure::Fault(Fault::Memory)),
        Err(_) => {
            report::<M>(alloc, &*machine, &FeedFailure::Malformed);
            return Err(Failure::BrokenFeed);
        }
    };
    match machine.claim(path) {
        Ok(_) => {}
        Err(_) => return Err(Failure::Fault(Fault::Memory)),
    }
    let office = create_register(machine, path, issuer, page.head.policy)?;
    machine.close(path, office);
    Ok(())
}

fn enter_all<M: Machine>(
    alloc: Global,
    machine: &M,
    office: &mut M::Office,
    pages: &[ReceivedPage],
) -> Result<(), Failure>
    ensures { FormsSign M.Office.Office.signs M.Office.Office.forms
        → LeadsIn M.Office.Office (λ identity before after. EntersFeed pages.now result before after)
        office.old office.new }
{
    let own = match office.positions(alloc) {
        Ok(positions) => positions,
        Err(fault) => return Err(Failure::Fault(fault)),
    };
    match office.follow(alloc, &own, pages) {
        Ok(_) => Ok(()),
        Err(FollowFault::Broken(broken)) => {
            report::<M>(alloc, machine, &FeedFailure::Broken(broken));
            Err(Failure::BrokenFeed)
        }
        Err(FollowFault::Memory) => Err(Failure::Fault(Fault::Memory)),
        Err(FollowFault::Store) => Err(Failure::Fault(Fault::Store)),
    }
}

/// Fetches pages, one after another, over a poller of its own.
#[derive(Drop)]
struct Fetcher {
    poll: Poll,
    events: Events,
    failure: Option<FeedFailure>,
}

impl Fetcher {
    fn new(rt: &HostRuntime) -> Result<Fetcher, Failure> {
        let Ok(poll) = Poll::new(rt) else {
            return Err(Failure::Fault(Fault::Read));
        };
        let Ok(events) = Events::with_capacity(rt.alloc(), MOST_EVENTS) else {
            return Err(Failure::Fault(Fault::Memory));
        };
        Ok(Fetcher {
            poll,
            events,
            failure: None,
        })
    }

    /// All pages of the feed, from its first row to its end. If the leader no longer knows the positions of a page that it sent, as after it was
    /// replaced, all are fetched anew.
    fn fetch_all<M: Machine>(
        &mut self,
        alloc: Global,
        machine: &M,
        leader: &LeaderAddress<'_>,
    ) -> Result<Vec<ReceivedPage>, Failure>
        ensures ok { IfOk result (λ pages. IsWholeFeed pages.items) }
        ensures err { IfErr result (FailsToFetch M.failed M.waited) }
    {
        for _ in 0..u64::MAX {
            if let Some(pages) = self.fetch_pages::<M>(alloc, machine, leader)? {
                return Ok(pages);
            }
            self.pause::<M>(machine, RETRY_MILLIS)?;
        }
        Err(Failure::Fault(Fault::Read))
    }

    /// The same; `None` if the leader does not know the positions of a page that it sent. A page that does not end the feed must lead on.
    fn fetch_pages<M: Machine>(
        &mut self,
        alloc: Global,
        machine: &M,
        leader: &LeaderAddress<'_>,
    ) -> Result<Option<Vec<ReceivedPage>>, Failure>
        ensures ok { IfOk result (λ found. IfSome found (λ pages. IsWholeFeed pages.items)) }
        ensures err { IfErr result (FailsToFetch M.failed M.waited) }
    {
        let mut pages = Vec::new(alloc);
        let mut after: Option<Positions> = None;
        for _ in 0..u64::MAX {
            let Some(page) = self.fetch::<M>(alloc, machine, leader, &after)? else {
                return Ok(None);
            };
            if leads_nowhere(&after, &page) {
                report::<M>(alloc, machine, &FeedFailure::Broken(no_progress()));
                return Err(Failure::BrokenFeed);
            }
            let ends = page.ends;
            after = Some(page.positions);
            match pages.push(page) {
                Ok(()) => {}
                Err(_) => return Err(Failure::Fault(Fault::Memory)),
            }
            if ends {
                return Ok(Some(pages));
            }
        }
        Err(Failure::Fault(Fault::Read))
    }

    /// The page after some positions; `None` if the leader does not know them. While it can't be reached or does not answer with a page, it is asked
    /// again, once a second.
    fn fetch<M: Machine>(
        &mut self,
        alloc: Global,
        machine: &M,
        leader: &LeaderAddress<'_>,
        after: &Option<Positions>,
    ) -> Result<Option<ReceivedPage>, Failure>
        ensures ok { IfOk result (Comes after.now) }
        ensures err { IfErr result (FailsToFetch M.failed M.waited) }
    {
        for _ in 0..u64::MAX {
            let failure = match self.fetch_once::<M>(alloc, machine, leader, after)? {
                Ok(page) => return Ok(Some(page)),
                Err(failure) => failure,
            };
            match failure {
                FeedFailure::Status(DIVERGED) => return Ok(None),
                FeedFailure::Memory => return Err(Failure::Fault(Fault::Memory)),
                FeedFailure::OtherVersion | FeedFailure::Malformed => {
                    report::<M>(alloc, machine, &failure);
                    return Err(Failure::BrokenFeed);
                }
                _ => {
                    if self.failure != Some(failure) {
                        self.failure = Some(failure);
                        report::<M>(alloc, machine, &failure);
                    }
                    self.pause::<M>(machine, RETRY_MILLIS)?;
                }
            }
        }
        Err(Failure::Fault(Fault::Read))
    }

    /// The page after some positions, or why none came. The leader is asked once.
    fn fetch_once<M: Machine>(
        &mut self,
        alloc: Global,
        machine: &M,
        leader: &LeaderAddress<'_>,
        after: &Option<Positions>,
    ) -> Result<Result<ReceivedPage, FeedFailure>, Failure>
        ensures ok { IfOk result (ComesOnce after.now) }
        ensures err { IfErr result (FailsBySystem M.failed M.waited) }
    {
        let Ok(mut stream) = machine.connect_to_leader(leader) else {
            return Ok(Err(FeedFailure::Unreachable));
        };
        if stream.register(self.poll.registry()).is_err() {
            return Ok(Err(FeedFailure::Unreachable));
        }
        // Nothing is stored yet, so the request has no follower's number.
        let Ok(request) = changes_request(alloc, after, None, &[], false) else {
            return Err(Failure::Fault(Fault::Memory));
        };
        let mut exchange: FeedExchange<LeaderStream> = FeedExchange::new(
            alloc,
            stream,
            request,
            millis::<M>(machine)?,
        );
        for _ in 0..u64::MAX {
            let now = millis::<M>(machine)?;
            match exchange.advance(now) {
                FeedProgress::Waiting(wait) => self.pause::<M>(machine, wait)?,
                FeedProgress::Failed => return Ok(Err(FeedFailure::Unreachable)),
                FeedProgress::Arrived(head) => {
                    if head.status != OK {
                        return Ok(Err(FeedFailure::Status(head.status)));
                    }
                    return Ok(match read_feed_page(alloc, exchange.body(head)) {
                        Ok(page) => Ok(page),
                        Err(fault) => Err(FeedFailure::from(fault)),
                    });
                }
            }
        }
        Err(Failure::Fault(Fault::Read))
    }

    /// Waits until the connection is ready, at most so many milliseconds.
    fn pause<M: Machine>(&mut self, machine: &M, millis: u64) -> Result<(), Failure>
        ensures ok { OnOk result ((count : ℕ) → M.waited count → M.waited (count + 1)) }
        ensures err { IfErr result (λ why. (why ≡ failure.Fault fault.Read) × M.failed) }
    {
        match machine.wait(
            &mut self.poll,
            &mut self.events,
            Duration::from_millis(millis),
        ) {
            Ok(()) => Ok(()),
            Err(_) => Err(Failure::Fault(Fault::Read)),
        }
    }
}

/// Whether a page, which came after some positions, neither ends the feed nor leads on.
fn leads_nowhere(after: &Option<Positions>, page: &ReceivedPage) -> bool
    ensures { IsTrue result ↔ (IsFalse page.now.ends × (after.now ≡ Some page.now.positions)) }
{
    match after {
        Some(after) => !page.ends && *after == page.positions,
        None => false,
    }
}

fn millis<M: Machine>(machine: &M) -> Result<u64, Failure>
    ensures { IfErr result (λ why. (why ≡ failure.Fault fault.Read) × M.failed) }
{
    match machine.millis() {
        Ok(millis) => Ok(millis),
        Err(_) => Err(Failure::Fault(Fault::Read)),
    }
}
