//! A model of a crash, for the theorems about crashes: the machine stops, and a register's files are opened again. The program never calls it.

ghost use Rattle.std.specs.Prelude.{◌≡◌, false, IfOk};
ghost use Rattle.sqlite.specs.Files.{file_state, over_files};
ghost use Rattle.sqlite.specs.State.{HasCleanDisk};
ghost use Rattle.reg_store.specs.OpenedAgain.{IsOpenedAgain};

use sqlite::{Connection, Error, FileStore, Leftover, Options};
use sqlite_disk::Crash;
use std::alloc::Global;

/// Closes the files as they are, lets each lose bytes that were not synced, and opens them again. Errors: those of [`Connection::open_files`]. A
/// stop in the middle of a call is modelled by a disk that fails from some operation on, as a [`Fuse`](sqlite_disk::Fuse) does; `restart` follows the
/// failed call. The theorem `a_register_opened_after_a_stop_stands_before_or_after` of `reg_office` states which records the register then shows.
pub fn restart<D: Crash + Drop>(
    alloc: Global,
    connection: Connection<FileStore<D>>,
    options: Options,
) -> Result<Connection<FileStore<D>>, (Error, Leftover<D>)>
    ensures again { IfOk result (λ again.
        HasCleanDisk (file_state again) → IsOpenedAgain over_files connection again) }
    ensures idle { IfOk result (λ again. again.in_transaction ≡ false) }
{
    let mut files = connection.into_store().close();
    files.log.crash();
    files.db.crash();
    Connection::open_files(alloc, files, options)
}
