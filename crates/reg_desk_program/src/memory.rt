//! Runs a script over a new register in memory: `desk script` without FILE.

ghost use Rattle.std.specs.Prelude.{◌≡◌, None, false, IfErr, IfOk};
ghost use Rattle.reg_desk_jobs.specs.Ends.{ScriptInMemory};
ghost use Rattle.sqlite.specs.Files.{file_state, over_files, IsOpened};
ghost use Rattle.sqlite.specs.State.{HasCleanDisk};
ghost use Rattle.reg_office.specs.AfterStoppedCommand.{LeavesReported};
ghost use Rattle.reg_office.specs.Stands.{Stands};
ghost use Rattle.reg_office_reads.specs.declared.responder.Responder.TheVariants.{Issuer as ByIssuer};
ghost use Rattle.reg_desk_jobs.specs.Digest.{digests};
ghost use Rattle.reg_desk_service.specs.RegisterFailures.{IsCreateFailure};
ghost use Rattle.reg_desk_jobs.specs.Sample.{sample_records};
ghost use Rattle.reg_crl_signer.specs.KeyOrDigestSignatures.{digest};

use crate::offices::create_over;
use reg_core::{Fault, Policy};
use reg_crl::DigestSeal;
use reg_der::Issuer;
use reg_desk_cli::Failure;
use reg_desk_files::Overlay;
use reg_desk_service::ended;
use reg_io::{Sink, Source};
use reg_lines::run_script_in_batches;
use reg_office::Office;
use sqlite::{Connection, FileStore, Options};
use sqlite_disk::Files;
use sqlite_pager::{PageSize, Pager};
use sqlite_store::Unopened;
use std::alloc::{AllocError, Global};

/// The Name of a sample issuer, in DER: the common name CA (RFC 5280 4.1.2.4).
const NAME: [u8; 15] = *b"\x30\x0D\x31\x0B\x30\x09\x06\x03\x55\x04\x03\x0C\x02CA";

/// The public key of that issuer: any bytes, since no signature is made or verified with it.
const KEY: [u8; 3] = *b"abc";

/// How many bytes a page of the database has: as few as SQLite allows. A commit copies and hashes each page that it changed.
const PAGE: usize = 512;

/// How many pages that were read are kept, and how many changed ones wait for the log: 2 MB. More pages make a short script slower, and a long one
/// hardly faster.
const CACHE_PAGES: usize = 4_000;

/// After how many pages the log is copied into the database: 4 MB.
const LOG_PAGES: usize = 8_000;

/// A database in memory: its tables are B-trees of pages, as in a file.
type MemoryStore = FileStore<Overlay<Vec<u8>>>;

type MemoryOffice = Office<MemoryStore, DigestSeal>;

/// Runs the script in `reader` over a new register in memory, with a sample issuer, the default policy and the placeholder digest.
pub(crate) fn script_in_memory<R: Source, W: Sink>(
    alloc: Global,
    reader: &mut R,
    writer: &mut W,
) -> Result<(), Failure>
    ensures { ScriptInMemory R.remaining W.contents R.failed W.failed reader.old reader.new
        writer.old writer.new result }
{
    let mut fresh = office_in_memory(alloc)?;
    // `ended` makes a `Failure` of a fault.
    ended(run_script_in_batches(alloc, reader, writer, &mut fresh))
}

fn office_in_memory(alloc: Global) -> Result<MemoryOffice, Failure>
    ensures ok { IfOk result (λ office. Stands over_files digests office.store digest sample_records) }
    ensures leaves { IfOk result (λ office.
        LeavesReported over_files digests office.store digest sample_records None) }
    ensures alone { IfOk result (λ office. office.responder ≡ ByIssuer None) }
    ensures err { IfErr result IsCreateFailure }
{
    // This Name and key are valid, so only memory can be missing.
    let Ok(issuer) = Issuer::new(alloc, &NAME, &KEY) else {
        return Err(Failure::Fault(Fault::Memory));
    };
    let Ok(connection) = empty_database(alloc) else {
        return Err(Failure::Fault(Fault::Memory));
    };
    match create_over(connection, issuer, Policy::usual(), DigestSeal) {
        Ok(office) => Ok(office),
        Err((why, _connection)) => Err(why),
    }
}

/// An empty database in memory. Its errors can only come from an allocation: the size of a page is an allowed one.
fn empty_database(alloc: Global) -> Result<Connection<MemoryStore>, AllocError>
    ensures opened { IfOk result (λ connection. HasCleanDisk (file_state connection) → IsOpened connection) }
    ensures idle { IfOk result (λ connection. connection.in_transaction ≡ false) }
{
    let files = Files {
        log: Overlay::copied(Vec::new(alloc), 0),
        db: Overlay::copied(Vec::new(alloc), 0),
    };
    let options = Options {
        cache_pages: CACHE_PAGES,
        spill_pages: CACHE_PAGES,
        checkpoint_frames: LOG_PAGES,
        ..Options::new(0)
    };
    let Some(size) = PageSize::new(PAGE) else {
        return Err(AllocError);
    };
    let Ok(pager) = Pager::new(alloc, files, size, options) else {
        return Err(AllocError);
    };
    let Ok(unopened) = Unopened::new(alloc, pager, &[]) else {
        return Err(AllocError);
    };
    let Ok(store) = unopened.create() else {
        return Err(AllocError);
    };
    match Connection::over(alloc, store) {
        Ok(connection) => Ok(connection),
        Err((_, _store)) => Err(AllocError),
    }
}
