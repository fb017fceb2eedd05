//! Chooses the function that does a job, calls it, and reports how it ended.

ghost use Rattle.reg_desk_jobs.specs.Ends.{Ends, Performs};

use crate::memory::script_in_memory;
use reg_core::{Cause, policy_cause_of};
use reg_desk_cli::{Failure, Job, status_of};
use reg_desk_jobs::{
    at, at_rows, audit, copy, crl, each_row, follow, import_rows, init, key_identifier, list,
    replay, report_exit, schedule, script, script_by_lines, serve, serve_open,
};
use reg_desk_service::{Machine, Reason};
use reg_io::{Sink, Source};
use std::cell::Cell;
use std::io::Write;

/// Does a job on a machine, reads its input from `reader`, and writes its output to `writer`. Reports a failure to `errors`, and returns the exit
/// status of [`status_of`]. With `is_explained` (`--why`), one more line has the explanation, if it is known: for status 1, the cause; for
/// status 3, why the registration that ended a strict script or import was refused.
pub fn perform<M: Machine, R: Source, W: Sink, E: Write>(
    rt: &HostRuntime,
    machine: &mut M,
    job: &Job<'_>,
    is_explained: bool,
    reader: &mut R,
    writer: &mut W,
    errors: &mut E,
) -> u8
    ensures { Performs M.Machine M.Office.Office R.remaining W.contents R.failed W.failed
        machine.old machine.new reader.old reader.new
        writer.old writer.new job.now is_explained (E.contents errors.old) (E.contents errors.new) result }
{
    let reason = Cell::new(None);
    let ending = run(rt, machine, job, &reason, reader, writer);
    keep_policy_cause(machine, job, &ending);
    let alloc = rt.alloc();
    report_exit(
        alloc,
        errors,
        &ending,
        is_explained,
        machine.last_cause(),
        reason.get(),
    );
    status_of(&ending)
}

/// As [`perform`], without a contract. In `run_desk`, the prover would take minutes to write that contract out over the program's files and sockets.
pub(crate) fn perform_without_contract<M: Machine, R: Source, W: Sink, E: Write>(
    rt: &HostRuntime,
    machine: &mut M,
    job: &Job<'_>,
    is_explained: bool,
    reader: &mut R,
    writer: &mut W,
    errors: &mut E,
) -> u8 {
    perform(rt, machine, job, is_explained, reader, writer, errors)
}

/// Does a job. `reader` is standard input, or the file that an argument names instead. `reason`: why the registration that ended the job was refused.
fn run<M: Machine, R: Source, W: Sink>(
    rt: &HostRuntime,
    machine: &mut M,
    job: &Job<'_>,
    reason: &Cell<Option<Reason>>,
    reader: &mut R,
    writer: &mut W,
) -> Result<(), Failure>
    ensures { Ends M.Machine M.Office.Office R.remaining W.contents R.failed W.failed
        machine.old machine.new reader.old reader.new
        writer.old writer.new job.now result }
{
    let alloc = rt.alloc();
    match job {
        Job::Init(new) => init(alloc, machine, new, writer),
        Job::Script {
            file: Some(file),
            signer,
        } => script(alloc, machine, file.as_str(), signer, reader, writer),
        Job::Script {
            file: None,
            signer: None,
        } => script_in_memory(alloc, reader, writer),
        // A register in memory has a sample issuer, whose key no signer has.
        Job::Script {
            file: None,
            signer: Some(_),
        } => Err(Failure::BadSigner),
        // A script with `--clock` or `--strict`.
        Job::Lines(line_script) => script_by_lines(
            alloc,
            machine,
            line_script,
            reason,
            reader,
            writer,
        ),
        Job::Import(rows) => import_rows(alloc, machine, rows, reason, reader, writer),
        Job::Crl { file, number } => crl(alloc, machine, file.as_str(), *number, writer),
        Job::Serve(serve_job) => serve(rt, machine, serve_job, reader, writer),
        Job::Open(open_job) => serve_open(rt, machine, open_job, reader, writer),
        Job::Follow(follow_job) => follow(rt, machine, follow_job, writer),
        Job::At {
            control_path,
            rows: None,
        } => at(alloc, &*machine, control_path.as_str(), reader, writer),
        // `desk at --import`. With `--orders` too, or with `--revoke`, the job is `EachRow`.
        Job::At {
            control_path,
            rows: Some(_),
        } => at_rows(alloc, &*machine, control_path.as_str(), reader, writer),
        Job::EachRow {
            control_path,
            task,
            ..
        } => {
            each_row(
                alloc,
                &*machine,
                control_path.as_str(),
                *task,
                reader,
                writer,
            )
        }
        Job::Replay { control_path, .. } => replay(
            alloc,
            &*machine,
            control_path.as_str(),
            reader,
            writer,
        ),
        Job::Schedule { file, steps } => schedule(alloc, machine, file.as_str(), steps, writer),
        Job::KeyId { file, key_id } => key_identifier(
            alloc,
            machine,
            file.as_str(),
            key_id,
            writer,
        ),
        Job::Listing(list_job) => list(alloc, machine, list_job, writer),
        Job::Copy { file, path } => copy(alloc, machine, file.as_str(), path.as_str(), writer),
        Job::Audit { file } => audit(alloc, &*machine, file.as_str(), writer),
    }
}

/// After `BadPolicy`, keeps the cause in the machine, because no job does. The cause has no location (`None`): its line names the option or steps.
fn keep_policy_cause<M: Machine>(machine: &M, job: &Job<'_>, ending: &Result<(), Failure>) {
    if let Err(Failure::BadPolicy) = ending {
        machine.keep_cause(None, bad_policy_cause(job));
    }
}

fn bad_policy_cause(job: &Job<'_>) -> Option<Cause> {
    match job {
        Job::Init(new) => policy_cause_of(new.days, new.crl_life, new.ocsp_life, new.cap),
        Job::Schedule { .. } => Some(Cause::Steps),
        _ => None,
    }
}
