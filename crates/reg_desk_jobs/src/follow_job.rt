//! The job `follow`: serves a copy of another desk's register, and keeps it up to date.

ghost use Rattle.std.specs.Prelude.{◌≡◌, option_copied};
ghost use Rattle.reg_desk_jobs.specs.FollowJobs.{FollowAt, FollowsRegister, Prepares, ending_by};

use crate::fill_job::{fill, remove_leftovers};
use crate::serve_job::{event_loop_at, run_event_loop};
use reg_core::Fault;
use reg_crl_signer::Backoff;
use reg_desk_cli::{Failure, FollowJob};
use reg_desk_metrics::{ConnectionTotals, Tally};
use reg_desk_server::EventLoop;
use reg_desk_service::{
    Admission, Confirmation, CrlSignerChoice, Desk, FeedEnd, FollowDesk, Follower, Machine,
    open_signed, responder_not_after, signing_of,
};
use reg_office_api::Office;
use std::cell::Cell;
use std::io::Write;

/// Follows a leader until a signal ends the program. If there is no file at the path, it is filled from the leader first. Then the register is
/// opened, the port is bound, and the control socket is created, if one is named. Errors: those of `fill` and [`open_signed`]; `Read` if the port
/// can't be bound or serving ends early; `Diverged` if the leader does not have these records; `TooFarBehind`; `Memory`; `Store`; `Write`.
pub fn follow<M: Machine, W: Write>(
    rt: &HostRuntime,
    machine: &mut M,
    job: &FollowJob<'_>,
    writer: &mut W,
) -> Result<(), Failure>
    ensures { FollowAt M.Machine M.Office.Office W.contents writer.old writer.new job.now result machine.old machine.new }
{
    let path = job.file.as_str();
    remove_leftovers(rt.alloc(), machine, path)?;
    prepare(rt, machine, job)?;
    let office = open_signed(machine, path, &job.signer, &job.responder)?;
    let (office, ending) = serve_copy(rt, &*machine, office, job, writer);
    machine.close(path, office);
    ending
}

/// Fills the file if there is none.
fn prepare<M: Machine>(
    rt: &HostRuntime,
    machine: &mut M,
    job: &FollowJob<'_>,
) -> Result<(), Failure>
    ensures { Prepares M.Machine M.Office.Office job.now.file result machine.old machine.new }
{
    if machine.is_there(job.file.as_str()) {
        return Ok(());
    }
    fill(rt, machine, job)
}

/// Serves the register, and returns the office.
fn serve_copy<'a, 'w, M: Machine, W: Write>(
    rt: &HostRuntime,
    machine: &'a M,
    mut office: M::Office,
    job: &'a FollowJob<'w>,
    writer: &mut W,
) -> (M::Office, Result<(), Failure>)
    ensures { FollowsRegister M.Machine M.Office.Office W.contents writer.old writer.new job.now result.1 office result.0 }
{
    let alloc = rt.alloc();
    let positions = match office.positions(alloc) {
        Ok(positions) => positions,
        Err(fault) => return (office, Err(Failure::Fault(fault))),
    };
    let Ok(now) = machine.millis() else {
        return (office, Err(Failure::Fault(Fault::Read)));
    };
    let control_path = control_path_of(job);
    let event_loop: EventLoop<FollowDesk<'_, '_, M>> = match event_loop_at(
        rt,
        machine,
        job.endpoint,
        control_path,
    ) {
        Ok(event_loop) => event_loop,
        Err(why) => return (office, Err(why)),
    };
    let signing = signing_of(&CrlSignerChoice::of(&job.signer, &job.responder));
    let tally = Cell::new(Tally::new(signing, responder_not_after(machine, &job.responder)));
    let connection_totals = Cell::new(ConnectionTotals::nothing());
    let admission = Admission::new();
    let follower = Follower::new(alloc, &job.leader, job.lag, positions, job.number, now);
    let mut follow_desk: FollowDesk<'_, '_, M> = FollowDesk {
        desk: Desk {
            office,
            alloc,
            machine,
            is_open: true,
            file: job.file.as_str(),
            signer: &job.signer,
            responder: &job.responder,
            backoff: Backoff::none(),
            tally: &tally,
            connection_totals: &connection_totals,
            admission,
            confirmation: Confirmation::by(0),
            feed_end: FeedEnd::unknown(alloc),
        },
        follower,
        has_control: control_path.is_some(),
    };
    let ending = run_event_loop(
        event_loop,
        &mut follow_desk,
        job.endpoint.port,
        u64::MAX,
        writer,
    );
    let FollowDesk {
        desk,
        follower,
        has_control: _,
    } = follow_desk;
    let result = ending_of(follower.stop(), ending);
    (desk.office, result)
}

/// The result of the job: the failure of a follower that must end, or else how serving ended.
fn ending_of(stop: Option<Failure>, ending: Result<(), Failure>) -> Result<(), Failure>
    ensures { result ≡ ending_by stop ending }
{
    match stop {
        Some(why) => Err(why),
        None => ending,
    }
}

/// The path of the control socket, if one is named.
fn control_path_of<'w>(job: &FollowJob<'w>) -> Option<&'w str>
    ensures { job.now.control ≡ option_copied result }
{
    Some(job.control.as_ref()?.as_str())
}
