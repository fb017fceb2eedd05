//! The job `open`: keeps a register open for HTTP requests and for lines at a control socket.

ghost use Rattle.reg_desk_jobs.specs.Ends.{OpenAt};

use crate::serve_job::serve_checked;
use reg_desk_cli::{Failure, OpenJob};
use reg_desk_service::{Machine, open_signed};
use reg_io::{Sink, Source};

/// Serves a register until a signal ends the program, or the clock or the sockets fail. No number of HTTP connections ends the job (`u64::MAX`). The
/// job opens the register, binds the port, and then creates the control socket. With `--published`, `reader` gives a CRL, and a register that lacks
/// that CRL's number or a revocation in it is not served. Errors: those of [`serve`](crate::serve); `Read` if the control socket can't be created.
pub fn serve_open<M: Machine, R: Source, W: Sink>(
    rt: &HostRuntime,
    machine: &mut M,
    job: &OpenJob<'_>,
    reader: &mut R,
    writer: &mut W,
) -> Result<(), Failure>
    ensures { OpenAt M.Machine M.Office.Office R.remaining W.contents R.failed W.failed
        machine.old machine.new reader.old reader.new
        writer.old writer.new job.now result }
{
    let path = job.file.as_str();
    // With `--unsigned`, the job has no signer: placeholder digests take the place of signatures.
    let office = open_signed(machine, path, &job.signer, &job.responder)?;
    let (office, ending) = serve_checked(
        rt,
        machine,
        office,
        path,
        &job.signer,
        &job.responder,
        job.endpoint,
        Some(job.control.as_str()),
        u64::MAX,
        job.confirm_by,
        job.published.is_some(),
        reader,
        writer,
    );
    machine.close(path, office);
    ending
}
