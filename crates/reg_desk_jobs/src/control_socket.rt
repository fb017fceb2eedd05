//! Creates the control socket: a Unix socket to which only its owner (and root) can connect.

ghost use Rattle.std.specs.Prelude.{OnOk};
ghost use Rattle.reg_desk_jobs.specs.Serving.{IsControlSocket};

use mio::net::UnixListener;
use reg_core::io_cause_of;
use reg_desk_service::{Location, Machine};
use std::fs::File;
use std::io;
use std::io::ErrorKind;

const OWNER_ONLY: u32 = 0o600;

/// Creates the control socket at a path, and listens on it without blocking. A stale socket, on which no program listens, is replaced; if several
/// desks try that at once, one succeeds. The machine keeps the cause of an error. Errors: `AddrInUse` if a socket is there that does not refuse
/// connections, or a program keeps the path's folder locked for ten seconds; `AlreadyExists` if a file that is no socket is there; or the system's.
pub(crate) fn create_control_socket<M: Machine>(machine: &M, path: &str) -> io::Result<UnixListener>
    ensures { OnOk result (IsControlSocket M.socket_created M.has_mode path.now) }
{
    match create_for_owner(machine, path) {
        Ok(listener) => Ok(listener),
        Err(error) => {
            machine.keep_cause(Some(Location::Control), io_cause_of(error.kind()));
            Err(error)
        }
    }
}

fn create_for_owner<M: Machine>(machine: &M, path: &str) -> io::Result<UnixListener>
    ensures { OnOk result (IsControlSocket M.socket_created M.has_mode path.now) }
{
    let lock = machine.lock_folder(path)?;
    let listener = replace_stale_socket(machine, &lock, path)?;
    machine.set_mode(path, OWNER_ONLY)?;
    drop_waiting(&listener)?;
    Ok(listener)
}

fn replace_stale_socket<M: Machine>(
    machine: &M,
    lock: &File,
    path: &str,
) -> io::Result<UnixListener>
    requires { M.locked lock.now path.now }
    ensures { OnOk result (M.socket_created path.now) }
{
    match machine.create_socket(lock, path) {
        Ok(listener) => Ok(listener),
        Err(error) if error.kind() == ErrorKind::AddrInUse => {
            remove_stale(machine, lock, path)?;
            machine.create_socket(lock, path)
        }
        Err(error) => Err(error),
    }
}

fn remove_stale<M: Machine>(machine: &M, lock: &File, path: &str) -> io::Result<()>
    requires { M.locked lock.now path.now }
{
    if !machine.is_socket(path)? {
        return Err(io::Error::from(ErrorKind::AlreadyExists));
    }
    if !machine.is_stale(lock, path) {
        return Err(io::Error::from(ErrorKind::AddrInUse));
    }
    machine.unlink(lock, path)
}

/// Closes the connections that any user may have opened before the mode was set. Errors: those of accept(2); then such connections may stay open.
fn drop_waiting(listener: &UnixListener) -> io::Result<()> {
    // Until the queue is empty: only the owner and root can add to it now. Its length is a setting of the kernel, so `u64::MAX` stands for no bound.
    for _ in 0..u64::MAX {
        match listener.accept() {
            Ok(_) => {}
            Err(error) if error.kind() == ErrorKind::WouldBlock => return Ok(()),
            Err(error) if error.kind() == ErrorKind::ConnectionAborted => {}
            Err(error) => return Err(error),
        }
    }
    Ok(())
}
