//! Writes exchanges and faults of connections to the log, if there is one. A [`LoggedRevocationRequest`] is a request for revocation, not of HTTP.

ghost use Rattle.std.specs.Prelude.{◌≡◌};
ghost use Rattle.reg_desk_service.specs.Log.{loss_word};

use crate::log_lines::{exchange_line, lost_line};
use crate::machine::Machine;
use reg_core::Moment;
use reg_desk_server::ConnectionFault;
use reg_http::{Exchange, LoggedRevocationRequest};
use reg_office_api::SignatureOutcome;
use std::alloc::{AllocError, Global};
use std::net::SocketAddr;

/// The name in the log of a client at the control socket, which has no address.
pub const CONTROL_SOCKET: &str = "control";

/// Logs an HTTP exchange that began at `now`, if there is memory for its line. `micros`: how long it took. `request`: all bytes of the HTTP request,
/// or only the first ones; the log quotes the first line. `exchange.named`: the request for revocation that the exchange entered, if any.
pub(crate) fn log_exchange<M: Machine>(
    alloc: Global,
    machine: &M,
    micros: u64,
    now: Moment,
    client: SocketAddr,
    request: &[u8],
    exchange: &Exchange,
) {
    if !machine.has_log() {
        return;
    }
    let Ok(client_text) = name_of(alloc, Some(client)) else {
        return;
    };
    let signature_failed = exchange.signature == SignatureOutcome::Failed;
    put(
        machine,
        exchange_line(
            alloc,
            now,
            client_text.as_bytes(),
            request,
            &exchange.text,
            micros,
            exchange.named,
            signature_failed,
        ),
    );
}

/// Logs a control line, its reply, how long it took, the request for revocation that it entered or decided (`named`), and whether a signature failed.
pub(crate) fn log_line<M: Machine>(
    alloc: Global,
    machine: &M,
    micros: u64,
    now: Moment,
    line: &[u8],
    reply: &[u8],
    named: Option<LoggedRevocationRequest>,
    signature_failed: bool,
) {
    if !machine.has_log() {
        return;
    }
    put(
        machine,
        exchange_line(
            alloc,
            now,
            CONTROL_SOCKET.as_bytes(),
            line,
            reply,
            micros,
            named,
            signature_failed,
        ),
    );
}

/// Logs a fault of a connection, if there is memory and the clock can be read. `client` is `None` for a control connection.
pub(crate) fn log_lost<M: Machine>(
    alloc: Global,
    machine: &M,
    client: Option<SocketAddr>,
    why: ConnectionFault,
) {
    if !machine.has_log() {
        return;
    }
    let Ok(client_text) = name_of(alloc, client) else {
        return;
    };
    let Ok(now) = machine.moment() else {
        return;
    };
    put(
        machine,
        lost_line(alloc, now, client_text.as_bytes(), word_of(why)),
    );
}

fn put<M: Machine>(machine: &M, line: Result<Vec<u8>, AllocError>) {
    let Ok(mut line) = line else {
        return;
    };
    if line.push(b'\n').is_ok() {
        machine.log(&line);
    }
}

/// The log's word for a fault. `late` and `crowded` are older words for `TimedOut` and `Evicted`, kept for programs that read the log.
fn word_of(why: ConnectionFault) -> &'static [u8]
    ensures { result.now ≡ loss_word why }
{
    match why {
        ConnectionFault::Broken => b"broken",
        ConnectionFault::TimedOut => b"late",
        ConnectionFault::Evicted => b"crowded",
        ConnectionFault::Memory => b"memory",
    }
}

/// A client's address and port, as `127.0.0.1:50000` or `[::1]:50000`; `control` for the control socket.
fn name_of(alloc: Global, client: Option<SocketAddr>) -> Result<String, AllocError> {
    match client {
        Some(client) => format!(in alloc; "{client}"),
        None => String::from_str(alloc, CONTROL_SOCKET),
    }
}
