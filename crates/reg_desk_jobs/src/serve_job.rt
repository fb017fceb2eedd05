//! The job `serve`: HTTP on the loopback interface, many connections at once. The job `open`, which also has a control socket, uses its functions.

ghost use Rattle.std.specs.Prelude.{◌≡◌, ◌⊎◌, ◌++◌, ◌∷◌, [], List, None, Err, OnOk, IfErr, IsTrue, IsFalse, decimal, is_some, option_copied};
ghost use Rattle.reg_office_api.specs.Calls.{LeadsIn, LooksIn};
ghost use Rattle.reg_desk_server.specs.Exchange.{Input, Outcome, HandlesOrWorks};
ghost use Rattle.reg_desk_server.specs.Failures.{EndsEarly};
ghost use Rattle.reg_desk_jobs.specs.Ends.{PrintsText, ServeAt};
ghost use Rattle.reg_desk_cli.specs.declared.failure.Failure.{Failure as Failing};
ghost use Rattle.reg_desk_jobs.specs.Published.{Compares, HasAll};
ghost use Rattle.reg_desk_service.specs.declared.unsigned_responses.Unsigned.{Unsigned};
ghost use Rattle.reg_desk_jobs.specs.Serving.{IsBoundOn, Served, ServedAt, ServesOn, listening, loopback};
ghost use Rattle.reg_io.specs.RunsOfAnswers.{Answered};

use crate::control_socket::create_control_socket;
use crate::output_lines::print_text;
use crate::published::check_published;
use mio::net::{TcpListener, UnixListener};
use reg_core::{Decimal, Fault};
use reg_crl_signer::Backoff;
use reg_desk_cli::{Endpoint, Failure, Loopback, ResponderChoice, ServeJob, SignerAddress};
use reg_desk_metrics::{ConnectionTotals, Tally};
use reg_desk_server::{EventLoop, Handler, MOST_HTTP_CONNECTIONS};
use reg_desk_service::{
    Admission, Confirmation, CrlSignerChoice, Desk, FeedEnd, Machine, open_signed,
    responder_not_after, signing_of,
};
use reg_io::{Sink, Source};
use std::cell::Cell;
use std::io;
use std::io::{ErrorKind, Read, Write};

const LOOPBACK: [u8; 4] = [127, 0, 0, 1];

const LOOPBACK_V6: [u8; 16] = [0, 0, 0, 0, 0, 0, 0, 0, 0, 0, 0, 0, 0, 0, 0, 1];

/// Answers `job.requests` HTTP connections, with one request each. Opens the register before it binds the port. With `--published`, `reader` gives a
/// CRL: the register must have reached the CRL's number, and have its revocations ([`check_published`]). Errors: those of
/// [`Machine::read_responder`], [`check_published`], [`Machine::check_database`] and [`Machine::open_in`]; `Read` if the port can't be bound, or
/// serving ends early; `Memory`; `Write`.
pub fn serve<M: Machine, R: Source, W: Sink>(
    rt: &HostRuntime,
    machine: &mut M,
    job: &ServeJob<'_>,
    reader: &mut R,
    writer: &mut W,
) -> Result<(), Failure>
    ensures { ServeAt M.Machine M.Office.Office R.remaining W.contents R.failed W.failed
        machine.old machine.new reader.old reader.new
        writer.old writer.new job.now result }
{
    let path = job.file.as_str();
    let office = open_signed(machine, path, &job.signer, &job.responder)?;
    let (office, ending) = serve_checked(
        rt,
        machine,
        office,
        path,
        &job.signer,
        &job.responder,
        job.endpoint,
        None,
        u64::from(job.requests),
        0,
        job.published.is_some(),
        reader,
        writer,
    );
    machine.close(path, office);
    ending
}

/// Serves the register at the path `file` until `requests` HTTP connections are answered. Replies to commands wait for `confirm_by` followers. If
/// `has_published`, [`check_published`] comes first.
pub(crate) fn serve_checked<'a, 'w, M: Machine, R: Read, W: Write>(
    rt: &HostRuntime,
    machine: &'a M,
    mut office: M::Office,
    file: &'a str,
    signer: &'a Option<SignerAddress<'w>>,
    responder: &'a ResponderChoice<'w>,
    endpoint: Endpoint,
    control_path: Option<&str>,
    requests: u64,
    confirm_by: u64,
    has_published: bool,
    reader: &mut R,
    writer: &mut W,
) -> (M::Office, Result<(), Failure>)
    ensures unread { IsFalse has_published → reader.new ≡ reader.old }
    ensures ends { ((why : Failing) × (result.1 ≡ Err why) × IsTrue has_published × LooksIn M.Office.Office
        (λ records.
        Compares records (R.remaining reader.old) (W.contents writer.old) (W.contents writer.new) (Err why))
        office result.0)
        ⊎ ((inputs : List Input) × (outcomes : List (Outcome Unsigned)) × LeadsIn M.Office.Office
        (λ identity before after. (IsTrue has_published → HasAll before (R.remaining reader.old))
        × ServesOn M.Machine M.Office.Office signer.now responder.now (is_some control_path.entry)
        inputs outcomes identity before after)
        office result.0
        × ServedAt W.contents writer.old writer.new
        (IsBoundOn M.Machine endpoint (option_copied control_path.entry))
        (EndsEarly M.failed M.waited) endpoint.port requests inputs result.1) }
{
    if has_published {
        match check_published(rt.alloc(), &mut office, reader, writer) {
            Ok(()) => {}
            Err(why) => return (office, Err(why)),
        }
    }
    serve_desk(
        rt,
        machine,
        office,
        file,
        signer,
        responder,
        endpoint,
        control_path,
        requests,
        confirm_by,
        writer,
    )
}

/// Binds the port, creates the control socket if a path is given (the job `open`), prints the port, answers the requests, and returns the office.
fn serve_desk<'a, 'w, M: Machine, W: Write>(
    rt: &HostRuntime,
    machine: &'a M,
    office: M::Office,
    file: &'a str,
    signer: &'a Option<SignerAddress<'w>>,
    responder: &'a ResponderChoice<'w>,
    endpoint: Endpoint,
    control_path: Option<&str>,
    requests: u64,
    confirm_by: u64,
    writer: &mut W,
) -> (M::Office, Result<(), Failure>)
    ensures { (inputs : List Input) × (outcomes : List (Outcome Unsigned)) × LeadsIn M.Office.Office
        (ServesOn M.Machine M.Office.Office signer.now responder.now (is_some control_path.entry) inputs
        outcomes)
        office result.0
        × ServedAt W.contents writer.old writer.new
        (IsBoundOn M.Machine endpoint (option_copied control_path.entry))
        (EndsEarly M.failed M.waited) endpoint.port requests inputs result.1 }
{
    let event_loop: EventLoop<Desk<'_, '_, M>> = match event_loop_at(
        rt,
        machine,
        endpoint,
        control_path,
    ) {
        Ok(event_loop) => event_loop,
        Err(why) => return (office, Err(why)),
    };
    let alloc = rt.alloc();
    // For the metrics: how CRLs are signed, counters, when the responder's certificate ends, and totals of connections.
    let signing = signing_of(&CrlSignerChoice::of(signer, responder));
    let tally = Cell::new(Tally::new(signing, responder_not_after(machine, responder)));
    let connection_totals = Cell::new(ConnectionTotals::nothing());
    // The limits on requests for revocation over HTTP. `is_open`, below: whether the job is `open`.
    let admission = Admission::new();
    let mut desk: Desk<'_, '_, M> = Desk {
        office,
        alloc,
        machine,
        is_open: control_path.is_some(),
        file,
        signer,
        responder,
        backoff: Backoff::none(),
        tally: &tally,
        connection_totals: &connection_totals,
        admission,
        confirmation: Confirmation::by(confirm_by),
        feed_end: FeedEnd::unknown(rt.alloc()),
    };
    let ending = run_event_loop(event_loop, &mut desk, endpoint.port, requests, writer);
    (desk.office, ending)
}

pub(crate) fn event_loop_at<H: Handler, M: Machine>(
    rt: &HostRuntime,
    machine: &M,
    endpoint: Endpoint,
    control_path: Option<&str>,
) -> Result<EventLoop<H>, Failure>
    ensures ok { OnOk result (IsBoundOn M.Machine endpoint (option_copied control_path.entry)) }
    ensures err { IfErr result (λ why.
        (why ≡ Failure.Fault Fault.Read) ⊎ (why ≡ Failure.Fault Fault.Memory)) }
{
    let Ok(listener) = listen(machine, endpoint) else {
        return Err(Failure::Fault(Fault::Read));
    };
    match control_path {
        None => event_loop_over(rt, listener, None),
        Some(path) => match create_control_socket(machine, path) {
            Ok(control) => event_loop_over(rt, listener, Some(control)),
            Err(_) => Err(Failure::Fault(Fault::Read)),
        },
    }
}

fn listen<M: Machine>(machine: &M, endpoint: Endpoint) -> io::Result<TcpListener>
    ensures { OnOk result (M.bound (loopback endpoint.address) endpoint.port) }
{
    match endpoint.address {
        Loopback::V4 => machine.listen(LOOPBACK, endpoint.port),
        Loopback::V6 => machine.listen_v6(LOOPBACK_V6, endpoint.port),
    }
}

fn event_loop_over<H: Handler>(
    rt: &HostRuntime,
    listener: TcpListener,
    control: Option<UnixListener>,
) -> Result<EventLoop<H>, Failure>
    ensures { IfErr result (λ why. (why ≡ Failure.Fault Fault.Read) ⊎ (why ≡ Failure.Fault Fault.Memory)) }
{
    match EventLoop::new(rt, listener, control, MOST_HTTP_CONNECTIONS) {
        Ok(event_loop) => Ok(event_loop),
        Err(error) if error.kind() == ErrorKind::OutOfMemory => {
            Err(Failure::Fault(Fault::Memory))
        }
        Err(_) => Err(Failure::Fault(Fault::Read)),
    }
}

pub(crate) fn run_event_loop<H: Handler, W: Write>(
    mut event_loop: EventLoop<H>,
    handler: &mut H,
    port: u16,
    requests: u64,
    writer: &mut W,
) -> Result<(), Failure>
    ensures { (inputs : List Input) × (outcomes : List (Outcome H.Ticket))
        × Answered (HandlesOrWorks H.answers H.answers_lines H.defers H.works) handler.old inputs outcomes handler.new
        × Served port requests (EndsEarly H.failed H.waited ⊎ H.ends_loop handler.new) inputs
        (W.contents writer.old) (W.contents writer.new) result }
{
    match print_port(writer, port) {
        Ok(()) => {}
        Err(why) => return Err(why),
    }
    let mut answered = 0;
    // The event loop stops early if the clock or the sockets fail, or if the handler ends it.
    let _ = event_loop.serve_all(handler, &mut answered, requests);
    if answered != requests {
        return Err(Failure::Fault(Fault::Read));
    }
    // Sends the answers that are not sent yet. A connection whose client doesn't read its answer in time is closed.
    let _ = event_loop.finish(handler);
    Ok(())
}

fn print_port<W: Write>(writer: &mut W, port: u16) -> Result<(), Failure>
    ensures { PrintsText (listening port) (W.contents writer.old) (W.contents writer.new) result }
{
    match print_text(writer, b"listening ") {
        Ok(()) => print_number(writer, port),
        Err(why) => Err(why),
    }
}

fn print_number<W: Write>(writer: &mut W, number: u16) -> Result<(), Failure>
    ensures { PrintsText (decimal number ++ 10 ∷ []) (W.contents writer.old) (W.contents writer.new) result }
{
    let digits = Decimal::of(u64::from(number));
    match print_text(writer, digits.as_bytes()) {
        Ok(()) => print_text(writer, b"\n"),
        Err(why) => Err(why),
    }
}
