//! The machine on which the program runs: the calls of the trait `Machine`, made by the library's system calls.

ghost use Rattle.std.specs.Prelude.{◌≡◌, ◌≤◌, ◌/◌, ℕ, List, [], Ok, IfOk, IfSome, MatchResult, length};
ghost use Rattle.std.specs.Duration.{as_nanos};
ghost use Rattle.reg_office_api.specs.LookUps.{IsOfStore};
ghost use Rattle.reg_office_api.specs.Calls.{KeepsIn};
ghost use Rattle.reg_desk_files.specs.Reading.{IsReadFailureOfFiles};
ghost use Rattle.reg_desk_service.specs.RegisterFailures.{IsOpenFailure, IsReadFailure};
ghost use Rattle.reg_desk_program.specs.Calls.{Unspecified, is_claimed};
ghost use Rattle.reg_desk_program.specs.Files.{failure_of};
ghost use Rattle.reg_crl_signer.specs.SignatureRequest.{IsSignatureRequest};

use crate::crl_signer::expect_algorithm;
use crate::file_audit::audit_over;
use crate::file_office::{FileOffice, FileSigner};
use crate::ocsp_responder::{delegate_responder, issuer_responder};
use crate::offices::{FileConnection, close, connection_of, create_over, open_over, preset_next};
use mio::net::{TcpListener, TcpStream, UnixListener, UnixStream as NonblockingStream};
use mio::{Events, Poll};
use reg_core::{AuditResult, Cause, Fault, Memory, Policy, io_cause_of, port_cause_of};
use reg_crl::{DigestSeal, Signer};
use reg_crl_signer::{Algorithm, PresetSignature, RegisterSigner, SignatureRequest};
use reg_der::Issuer;
use reg_desk_cli::{Failure, LeaderAddress, ResponderChoice};
use reg_desk_files::{
    ClaimFault, FileFault, Overlay, ReadAt, ReadFailure, ReadFile, SourceFiles, check_database,
    claim_file, copy_closed, copy_open, open_file, open_sources, read_at, remove_file,
};
use reg_desk_server::{LeaderStream, as_would_block};
use reg_desk_service::{
    CopyFault, CrlSignerChoice, FailureCause, Location, Machine, SignatureKind,
};
use reg_io::write_whole;
use reg_office::Responder;
use reg_office_cache::CachingOffice;
use sqlite_disk::{Disk, Unknown};
use std::alloc::Global;
use std::cell::Cell;
use std::fs::{File, OpenOptions, Permissions, TryLockError};
use std::io::ErrorKind;
use std::net::SocketAddr;
use std::os::unix::fs::{FileTypeExt, OpenOptionsExt, PermissionsExt};
use std::os::unix::net::UnixStream;
use std::path::Path;
use std::time::{Clock, Duration};
use std::{fs, io, thread};

const OWNER_ONLY: u32 = 0o600;

/// The most attempts to lock a folder, and the pause after each: ten seconds in all. Another desk or signer may hold the lock to create its socket.
const MOST_LOCK_TRIES: u32 = 2_000;

const LOCK_PAUSE_MILLIS: u64 = 5;

/// The machine of the program: its files, clock, TCP ports and Unix sockets. Keeps the last failure's cause (`None`: unknown), for `--why`.
#[derive(Clone, Copy)]
pub struct SystemHost<'a> {
    /// Each library call that uses the system takes it.
    pub(crate) rt: HostRuntime,
    pub(crate) last_cause: &'a Cell<Option<FailureCause>>,
    /// Where exchanges are logged: on standard error (`--log`), in the file at this path (`--log-file`), in both, or nowhere.
    pub(crate) logs_to_stderr: bool,
    pub(crate) log_file: Option<&'a str>,
    pub(crate) shows_progress: bool,
}

impl<'a> SystemHost<'a> {
    /// The failure for unreadable files: `NotARegister` if there is no database yet, else the fault. `location`: the argument that has their path.
    pub(crate) fn failure_of(&self, location: Option<Location>, why: ReadFailure) -> Failure
        requires { IsReadFailureOfFiles why }
        ensures value { result ≡ failure_of why }
        ensures opening { IsOpenFailure result }
        ensures reading { IsReadFailure result }
    {
        match why {
            ReadFailure::Nothing => Failure::NotARegister,
            ReadFailure::Fault(why) => Failure::Fault(self.fault_of(location, why)),
        }
    }

    fn fault_of(&self, location: Option<Location>, why: FileFault) -> Fault
        ensures { result ≡ why.fault }
    {
        self.keep_cause(location, why.cause);
        why.fault
    }

    fn bind(&self, address: SocketAddr) -> io::Result<TcpListener> {
        match TcpListener::bind(&self.rt, address) {
            Ok(listener) => Ok(listener),
            Err(error) => {
                self.keep_cause(Some(Location::Port), port_cause_of(error.kind()));
                Err(error)
            }
        }
    }

    /// `true` if the path was claimed: an empty file was created there. If it was taken, keeps the cause.
    fn is_claimed(&self, claim: Result<(), ClaimFault>) -> Result<bool, Memory>
        ensures { result ≡ is_claimed claim }
    {
        match claim {
            Ok(()) => Ok(true),
            Err(ClaimFault::Memory) => Err(Memory),
            Err(ClaimFault::Taken(cause)) => {
                self.keep_cause(Some(Location::File), cause);
                Ok(false)
            }
        }
    }
}

/// [`Machine`] describes the methods and their arguments. Most make one library call. No clause can state what that call did outside the program, so
/// the method's relation states nothing here (`Unspecified`). Only `fresh`, `certified`, `opened`, `made` and `audited` state what the program itself
/// did. `not_waited` and `answer_in_form_signs` are proofs. No code uses an argument `lock`: contracts name it, as the lock that the caller holds.
impl<'a> Machine for SystemHost<'a> {
    ghost use Rattle.std.specs.Prelude.{false};
    ghost use Rattle.std.proofs.Common.{inr, refl};
    ghost use Rattle.sqlite.specs.Files.{over_files};
    ghost use Rattle.reg_crl.specs.Signing.{Identity};
    ghost use Rattle.reg_desk_files.specs.Overlaid.{image};
    ghost use Rattle.reg_desk_service.specs.Signers.{IsAnswering};
    ghost use Rattle.reg_office_reads.specs.Answering.{signers_of};
    ghost use Rattle.reg_desk_program.specs.Files.{IsAuditOf, IsConnection, IsMadeFrom, OpensFor};

    type Office = FileOffice;

    type Database = FileConnection;

    type Sources = SourceFiles<ReadFile>;

    type Responder = Responder<FileSigner>;

    ghost taken = { λ host path. Unspecified path };

    ghost absent = { λ host path. Unspecified path };

    ghost claimed = { λ host path after. Unspecified path };

    ghost removed = { λ host path after. Unspecified path };

    ghost begun = { λ host path. Unspecified path };

    ghost read_failed = { λ host path why. Unspecified path };

    ghost connected = { λ host path database after. Unspecified path };

    ghost connect_failed = { λ host path why after. Unspecified path };

    ghost fresh = { λ database. (database.in_transaction ≡ false) × IsConnection database };

    ghost certified = { λ responder loaded. (crls : Identity)
        → IsAnswering responder (signers_of ⟦<FileSigner as Signer>⟧.identity crls loaded) };

    ghost opened = { λ database crls responder office.
        OpensFor ⟦<FileSigner as Signer>⟧ database crls responder office.office.office };

    ghost made = { λ database office. IsMadeFrom database office.office.office.store };

    ghost closed = { λ host path office after. Unspecified path };

    ghost read = { λ host path sources. Unspecified path };

    ghost audited = { λ sources.
        IsAuditOf ⟦<Overlay<ReadFile> as Disk>⟧ (image sources.log.items (⟦<ReadFile as ReadAt>⟧.bytes sources.db)) };

    ghost copied = { λ host path to bytes after. Unspecified path };

    ghost copy_failed = { λ host path to why after. Unspecified path };

    ghost copied_open = { λ path bytes. Unspecified path };

    ghost clock_read = { λ seconds. Unspecified seconds };

    ghost clock_reached = { λ now. Unspecified now };

    ghost millis_read = { λ millis. Unspecified millis };

    ghost failed = { Unspecified {A = ℕ} 0 };

    ghost waited = { λ count. Unspecified count };

    ghost not_waited = { refl };

    ghost bound = { λ address port. Unspecified address };

    ghost socket_created = { λ path. Unspecified path };

    ghost has_mode = { λ path mode. Unspecified path };

    ghost locked = { λ lock path. Unspecified path };

    ghost stale = { λ lock path. Unspecified path };

    ghost socket_connected = { λ path. Unspecified path };

    ghost signature_requested = { λ path message. Unspecified path };

    ghost reached = { λ path. Unspecified path };

    ghost signer_answered = { λ path message answer. Unspecified path };

    ghost warned = { λ line. Unspecified line };

    ghost answer_in_form_signs = { λ identity path message answer given form.
        inr (inr (path, ∣ tt ∣₁), form) };

    fn claim(&mut self, path: &str) -> Result<bool, Memory> {
        self.is_claimed(claim_file(&self.rt, path))
    }

    fn is_there(&self, path: &str) -> bool {
        fs::exists(&self.rt, path).unwrap_or(false)
    }

    fn remove(&mut self, path: &str) {
        remove_file(&self.rt, path);
    }

    fn check_database(&self, path: &str) -> Result<(), Failure> {
        match check_database(&self.rt, path) {
            Ok(()) => Ok(()),
            Err(why) => Err(self.failure_of(Some(Location::File), why)),
        }
    }

    fn connect(&mut self, path: &str) -> Result<FileConnection, Failure> {
        // `Unknown`: contracts don't know what the file holds, but suppose that a torn write leaves each byte old or new: most commits sync once.
        match open_file(&self.rt, path, Unknown) {
            Ok(connection) => Ok(connection),
            Err(why) => Err(Failure::Fault(self.fault_of(Some(Location::File), why))),
        }
    }

    fn file(&self, path: &str) -> Option<Vec<u8>> {
        fs::read(&self.rt, path).ok()
    }

    fn read_responder(
        &self,
        responder: &ResponderChoice<'_>,
    ) -> Result<Responder<FileSigner>, Failure> {
        match responder {
            ResponderChoice::Issuer { certificate } => issuer_responder(self, certificate),
            // `address`: the socket and algorithm of the responder's signer.
            ResponderChoice::Delegate {
                certificate,
                address,
            } => delegate_responder(self, certificate, address),
        }
    }

    fn open_in(
        &self,
        database: FileConnection,
        crls: &CrlSignerChoice<'_>,
        responder: Responder<FileSigner>,
    ) -> Result<FileOffice, Failure> {
        match open_over(self, database, crls, responder) {
            Ok(office) => Ok(FileOffice {
                office: CachingOffice::new(self.rt.alloc(), office),
            }),
            Err((why, connection)) => {
                close(connection);
                Err(why)
            }
        }
    }

    fn create_in(
        &self,
        database: FileConnection,
        issuer: Issuer,
        policy: Policy,
    ) -> Result<FileOffice, Failure> {
        // The job `init`, which creates the register, issues no CRL, so it needs no key.
        let signer: FileSigner = RegisterSigner::Digest(DigestSeal);
        match create_over(database, issuer, policy, signer) {
            Ok(office) => Ok(FileOffice {
                office: CachingOffice::new(self.rt.alloc(), office),
            }),
            Err((why, connection)) => {
                close(connection);
                Err(why)
            }
        }
    }

    fn close(&mut self, path: &str, office: FileOffice) {
        close(connection_of(office.office.office));
    }

    fn read(&self, path: &str) -> Result<SourceFiles<ReadFile>, Failure> {
        match read_at(&self.rt, path) {
            Ok(sources) => Ok(sources),
            Err(why) => Err(Failure::Fault(self.fault_of(Some(Location::File), why))),
        }
    }

    fn audit_in(&self, sources: SourceFiles<ReadFile>) -> Result<AuditResult, Failure> {
        match open_sources(self.rt.alloc(), sources) {
            Ok(connection) => audit_over(self, connection),
            Err(why) => Err(self.failure_of(Some(Location::File), why)),
        }
    }

    fn copy(&mut self, path: &str, to: &str) -> Result<u64, Failure> {
        match copy_closed(&self.rt, path, to) {
            Ok(bytes) => Ok(bytes),
            // The cause may be of either path, so it has no location.
            Err(why) => Err(self.failure_of(None, why)),
        }
    }

    fn copy_open(&self, path: &str, to: &str) -> Result<u64, CopyFault> {
        match copy_open(&self.rt, path, to) {
            Ok(bytes) => Ok(bytes),
            Err(why) => Err(copy_fault_by(why)),
        }
    }

    fn seconds(&self) -> io::Result<u64> {
        seconds_of(self.rt.since_1970())
    }

    fn micros(&self) -> u64 {
        match self.rt.monotonic() {
            Ok(time) => micros_of(time),
            Err(_) => 0,
        }
    }

    fn millis(&self) -> io::Result<u64> {
        let time = self.rt.monotonic()?;
        Ok(micros_of(time) / 1_000)
    }

    fn wait(&self, poll: &mut Poll, events: &mut Events, longest: Duration) -> io::Result<()> {
        poll.poll(events, Some(longest))
    }

    fn accept(&self, listener: &TcpListener) -> io::Result<(TcpStream, SocketAddr)> {
        listener.accept()
    }

    fn listen(&self, address: [u8; 4], port: u16) -> io::Result<TcpListener> {
        self.bind(SocketAddr::from((address, port)))
    }

    fn listen_v6(&self, address: [u8; 16], port: u16) -> io::Result<TcpListener> {
        self.bind(SocketAddr::from((address, port)))
    }

    fn lock_folder(&self, path: &str) -> io::Result<File> {
        let lock = File::open(&self.rt, folder_of(path))?;
        lock_once_free(&self.rt, &lock)?;
        Ok(lock)
    }

    fn create_socket(&self, lock: &File, path: &str) -> io::Result<UnixListener> {
        UnixListener::bind(&self.rt, path)
    }

    fn set_mode(&self, path: &str, mode: u32) -> io::Result<()> {
        fs::set_permissions(&self.rt, path, Permissions::from_mode(mode))
    }

    fn is_socket(&self, path: &str) -> io::Result<bool> {
        let found = fs::symlink_metadata(&self.rt, path)?;
        Ok(found.file_type().is_socket())
    }

    fn is_stale(&self, lock: &File, path: &str) -> bool {
        match NonblockingStream::connect(&self.rt, path) {
            Ok(_) => false,
            Err(error) => error.kind() == ErrorKind::ConnectionRefused,
        }
    }

    fn unlink(&self, lock: &File, path: &str) -> io::Result<()> {
        fs::remove_file(&self.rt, path)
    }

    fn connect_to_socket(&self, path: &str) -> io::Result<UnixStream> {
        match UnixStream::connect(&self.rt, path) {
            Ok(stream) => Ok(stream),
            Err(error) => {
                self.keep_cause(Some(Location::Socket), io_cause_of(error.kind()));
                Err(error)
            }
        }
    }

    fn connect_to_leader(&self, leader: &LeaderAddress<'_>) -> io::Result<LeaderStream> {
        match leader {
            LeaderAddress::Port(port) => {
                let address = SocketAddr::from(([127, 0, 0, 1], *port));
                Ok(LeaderStream::Tcp(TcpStream::connect(&self.rt, address)?))
            }
            LeaderAddress::Socket(path) => Ok(LeaderStream::Unix(NonblockingStream::connect(
                &self.rt,
                path.as_str(),
            )?)),
        }
    }

    fn request_signature(
        &self,
        path: &str,
        message: &[u8],
        kept: Option<SignatureRequest>,
    ) -> io::Result<SignatureRequest> {
        // `as_would_block`: the error is `WouldBlock` if no file descriptor is left; others stay.
        match SignatureRequest::send_to(&self.rt, path, message, kept) {
            Ok(request) => Ok(request),
            Err(error) => Err(as_would_block(error)),
        }
    }

    fn connect_to_signer(&self, path: &str) -> io::Result<SignatureRequest> {
        match SignatureRequest::connect(&self.rt, path) {
            Ok(request) => Ok(request),
            Err(error) => Err(as_would_block(error)),
        }
    }

    fn receive_answer(alloc: Global, request: &mut SignatureRequest) -> Option<Vec<u8>>
        ensures given { IfSome result (λ answer.
            (path message : List ℕ) → IsSignatureRequest path message request.old → Unspecified path) }
        ensures short { IfSome result (λ answer. length answer.items ≤ 4096) }
    {
        match request.take_signature(alloc) {
            Ok(answer) => answer,
            Err(_) => None,
        }
    }

    fn set_preset(
        office: &mut FileOffice,
        kind: SignatureKind,
        preset_signature: Option<PresetSignature>,
    )
        ensures { KeepsIn ⟦<FileOffice as reg_office_api::Office>⟧ office.old office.new }
    {
        preset_next(
            &mut office.office.office.signer,
            &mut office.office.office.responder,
            kind,
            preset_signature,
        );
    }

    fn expect_crls(&self, office: &mut FileOffice, algorithm: Algorithm) {
        expect_algorithm(
            self,
            &mut office.office.office.store,
            &mut office.office.office.signer,
            &office.office.office.responder,
            algorithm,
        );
    }

    fn has_log(&self) -> bool {
        self.logs_to_stderr || self.log_file.is_some()
    }

    fn log(&self, line: &[u8]) {
        if self.logs_to_stderr {
            self.warn(line);
        }
        if let Some(path) = self.log_file {
            append(&self.rt, path, line);
        }
    }

    fn warn(&self, line: &[u8]) {
        let mut errors = self.rt.stderr();
        let _ = write_whole(&mut errors, line);
    }

    fn keep_cause(&self, location: Option<Location>, cause: Option<Cause>) {
        self.last_cause.set(FailureCause::at(location, cause));
    }

    fn last_cause(&self) -> Option<FailureCause> {
        self.last_cause.get()
    }
}

/// Why an open register's files were not copied. If the files have no database now, they are damaged, because the desk has one open there.
fn copy_fault_by(why: ReadFailure) -> CopyFault
    requires { IsReadFailureOfFiles why }
    ensures { IsOfStore result.fault }
{
    match why {
        ReadFailure::Nothing => CopyFault {
            fault: Fault::Store,
            cause: Some(Cause::Damaged),
        },
        ReadFailure::Fault(why) => CopyFault {
            fault: why.fault,
            cause: why.cause,
        },
    }
}

/// The whole seconds since the start of 1970; 0 if the clock is before that (then `time` is the error `InvalidData`).
fn seconds_of(time: io::Result<Duration>) -> io::Result<u64>
    ensures { IfOk time (λ time. result ≡ Ok (as_nanos time / 1000000000)) }
{
    match time {
        Ok(time) => Ok(time.as_secs()),
        Err(error) if error.kind() == ErrorKind::InvalidData => Ok(0),
        Err(error) => Err(error),
    }
}

fn micros_of(time: Duration) -> u64 {
    time.as_secs()
        .saturating_mul(1_000_000)
        .saturating_add(u64::from(time.subsec_micros()))
}

fn folder_of(path: &str) -> Path<'_> {
    match Path::new(path).parent() {
        Some(folder) if folder.as_str() != "" => folder,
        _ => Path::new("."),
    }
}

/// Locks a folder once no other program holds the lock. Error after ten seconds: `AddrInUse`. The kernel releases the lock of a program that ends.
fn lock_once_free(rt: &HostRuntime, folder: &File) -> io::Result<()> {
    for _ in 0..MOST_LOCK_TRIES {
        match folder.try_lock() {
            Ok(()) => return Ok(()),
            Err(TryLockError::WouldBlock) => {
                thread::sleep(rt, Duration::from_millis(LOCK_PAUSE_MILLIS));
            }
            Err(TryLockError::Error(error)) => return Err(error),
        }
    }
    Err(io::Error::from(ErrorKind::AddrInUse))
}

/// Appends a line to the log file, which is opened anew, so that a line after a rename goes to a new file. A line that can't be written is lost.
fn append(rt: &HostRuntime, path: &str, line: &[u8]) {
    let Ok(mut file) = open_log(rt, path) else {
        return;
    };
    let Ok(before) = file.metadata() else {
        return;
    };
    if write_whole(&mut file, line).is_err() {
        end_cut_line(&mut file, before.len());
    }
}

/// Ends a line that a full disk cut off: an LF replaces its last byte, so that the next line begins anew. `before`: the file's length without it.
fn end_cut_line(file: &mut File, before: u64) {
    let Ok(metadata) = file.metadata() else {
        return;
    };
    let after = metadata.len();
    if after > before && file.set_len(after - 1).is_ok() {
        let _ = write_whole(file, b"\n");
    }
}

pub(crate) fn open_log(rt: &HostRuntime, path: &str) -> io::Result<File> {
    let mut options = OpenOptions::new();
    options.append(true).create(true).mode(OWNER_ONLY);
    options.open(rt, path)
}
