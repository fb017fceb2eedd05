//! The machine that a job runs on: its files, clock, ports, sockets and standard error.

use crate::clock::moment_at;
use crate::copies::CopyFault;
use crate::crl_signer::CrlSignerChoice;
use crate::deferred_commands::SignatureKind;
use crate::failure_cause::{FailureCause, Location};
use mio::net::{TcpListener, TcpStream, UnixListener};
use mio::{Events, Poll};
use reg_core::{AuditResult, Cause, Fault, Memory, Moment, Policy};
use reg_crl_signer::{Algorithm, PresetSignature, SignatureRequest};
use reg_der::Issuer;
use reg_desk_cli::{Failure, LeaderAddress, ResponderChoice};
use reg_desk_server::LeaderStream;
use reg_office_api::Office;
use std::alloc::Global;
use std::fs::File;
use std::io;
use std::net::SocketAddr;
use std::os::unix::net::UnixStream;
use std::time::Duration;

/// A job reaches a register's files only by these methods, and by the office that they open. The methods that create such files, open them for
/// writing or remove them take `&mut self`, except `copy_open`. A job's contract relates the machine before the job to the one after it, so the job
/// calls these methods only at the paths that its contract names. A method's relation (`ghost`), such as `claimed` of `claim`, states that the method
/// did what its comment says; no proof covers what the system does. `Machine` is a trait, though only the program's `SystemHost` implements it: so
/// its relations are opaque to the proofs. A comment may leave out the system's errors, and `Memory` and `Store` in a [`Failure`] or [`CopyFault`].
pub trait Machine {
    ghost use Rattle.std.specs.Prelude.{◌≡◌, ◌≤◌, ◌+◌, ◌⊎◌, ℕ, List, [], IsTrue, IsFalse, MatchBool, OnOk, OnErr, IfOk, IfErr, IfSome, length};
    ghost use Rattle.reg_office_api.specs.Calls.{KeepsIn};
    ghost use Rattle.reg_office_api.specs.LookUps.{IsOfStore};
    ghost use Rattle.reg_office_api.specs.Signers.{OfficeSigners};
    ghost use Rattle.reg_core.specs.Records.{no_records};
    ghost use Rattle.reg_crl.specs.Signing.{Identity};
    ghost use Rattle.reg_desk_cli.specs.declared.failure.Failure.{Failure as Failing};
    ghost use Rattle.reg_core.specs.declared.audit_result.AuditResult.{AuditResult as AuditResults};
    ghost use Rattle.reg_desk_service.specs.Clocks.{IsClockMoment};
    ghost use Rattle.reg_desk_service.specs.ExpectedCrls.{ExpectsCrls};
    ghost use Rattle.reg_desk_service.specs.SignerAnswers.{AnsweredAtSomePath};
    ghost use Rattle.reg_desk_service.specs.RegisterFailures.{IsCreateFailure, IsOpenFailure, IsReadFailure};
    ghost use Rattle.reg_desk_service.specs.Signers.{HasCertificate};
    ghost use Rattle.reg_desk_service.specs.declared.crl_signer.CrlSignerChoice.{CrlSignerChoice as SignsCrls};
    ghost use Rattle.reg_crl_signer.specs.SignatureRequest.{IsSignatureRequest};
    ghost use Rattle.reg_crl_signer.specs.Forms.{HasForm};
    ghost use Rattle.reg_desk_cli.specs.declared.job.ResponderChoice.{ResponderChoice as Answering};
    ghost use Rattle.std.specs.declared.fs.File.{File as OpenFile};
    ghost use Rattle.reg_desk_server.specs.Failures.{AcceptFails};

    /// The office over an open register: it runs commands, and answers queries and OCSP requests.
    type Office: Office + Drop;

    /// A file that is open as a database. `Sources`: a register's files, opened read-only.
    type Database: Drop;

    type Sources: Drop;

    /// The responder to OCSP requests, with the certificate that its answers contain, if any.
    type Responder: Drop;

    // ---- Files. A `List ℕ` is a path. The first machine is before the action, the second after it. `.._failed`: the action failed for this reason.

    /// There is a file or a link at the path, or its WAL (the path with `-wal`) exists, or no file can be created at the path.
    ghost taken: { Self → List ℕ → Type 0 };

    ghost absent: { Self → List ℕ → Type 0 };

    ghost claimed: { Self → List ℕ → Self → Type 0 };

    ghost removed: { Self → List ℕ → Self → Type 0 };
    /// The files at the path (a file and its WAL) have the beginning of a database.
    ghost begun: { Self → List ℕ → Type 0 };

    ghost read_failed: { Self → List ℕ → Failing → Type 0 };

    ghost connected: { Self → List ℕ → Self.Database → Self → Type 0 };

    ghost connect_failed: { Self → List ℕ → Failing → Self → Type 0 };
    /// No statement ran over the database yet.
    ghost fresh: { Self.Database → Type 0 };
    /// This is the responder that the options choose, with the certificate that they name, if any.
    ghost certified: { Answering → Self.Responder → Type 0 };

    ghost opened: { Self.Database → SignsCrls → Self.Responder → Self.Office → Type 0 };
    /// A register was created in the database (`create_in`), and this is the office over it.
    ghost made: { Self.Database → Self.Office → Type 0 };

    ghost closed: { Self → List ℕ → Self.Office → Self → Type 0 };

    ghost read: { Self → List ℕ → Self.Sources → Type 0 };

    ghost audited: { Self.Sources → AuditResults → Type 0 };
    /// A copy of the register at the first path, with this number of bytes, was created at the second, where there was nothing.
    ghost copied: { Self → List ℕ → List ℕ → ℕ → Self → Type 0 };

    ghost copy_failed: { Self → List ℕ → List ℕ → Failing → Self → Type 0 };
    /// A copy of the open register whose file is at the path, with this number of bytes, was created.
    ghost copied_open: { List ℕ → ℕ → Type 0 };

    // ---- Clock, ports and sockets. The first `List ℕ` is a path (in `bound` an address, in `warned` a line), a second one a message to sign.

    /// The clock showed this number of whole seconds since the start of 1970, or 0 for an earlier time. `clock_reached`: it has reached this moment.
    ghost clock_read: { ℕ → Type 0 };

    ghost clock_reached: { ℕ → Type 0 };
    /// The monotonic clock showed this number of milliseconds.
    ghost millis_read: { ℕ → Type 0 };
    /// The system failed: the clock could not be read, or the sockets could not be used.
    ghost failed: { Type 0 };
    /// The program waited for its sockets this number of times, at first 0.
    ghost waited: { ℕ → Type 0 };

    ghost not_waited: { waited 0 };
    /// This port was bound at this address of four bytes (RFC 791 3.1) or sixteen (RFC 4291 2).
    ghost bound: { List ℕ → ℕ → Type 0 };

    ghost socket_created: { List ℕ → Type 0 };

    ghost has_mode: { List ℕ → ℕ → Type 0 };
    /// This file, as long as it is open, holds the lock of the folder of this path: no other desk, `desk-signer` or `signer.py` holds it meanwhile.
    ghost locked: { OpenFile → List ℕ → Type 0 };
    /// While this file held the lock, the socket at this path was stale: no program listened at it.
    ghost stale: { OpenFile → List ℕ → Type 0 };

    ghost socket_connected: { List ℕ → Type 0 };

    ghost signature_requested: { List ℕ → List ℕ → Type 0 };
    /// The program connected to the signer at this path.
    ghost reached: { List ℕ → Type 0 };
    /// The signer at this path gave to this message this answer.
    ghost signer_answered: { List ℕ → List ℕ → List ℕ → Type 0 };
    /// The program tried to write this line to standard error.
    ghost warned: { List ℕ → Type 0 };

    /// Creates an empty file, for its owner alone, at a path where there is neither a file nor its WAL. Does so in one step: of two programs that try
    /// it, one succeeds. `false` if there is a file or a WAL, even as a dangling link, or if no file can be created there.
    fn claim(&mut self, path: &str) -> Result<bool, Memory>
        ensures ours { IfOk result (λ is_ours. IsTrue is_ours → claimed self.old path.now self.new) }
        ensures taken { IfOk result (λ is_ours. IsFalse is_ours → taken self.old path.now) }
        ensures same { IfOk result (λ is_ours. IsFalse is_ours → self.new ≡ self.old) }
        ensures memory { OnErr result (self.new ≡ self.old) };

    /// Whether something is found at a path. Links are followed.
    fn is_there(&self, path: &str) -> bool
        ensures { MatchBool result (taken self.now path.now) (absent self.now path.now) };

    /// Removes the file at a path, and its WAL. A file that can't be removed, or is in use, stays.
    fn remove(&mut self, path: &str)
        ensures { removed self.old path.now self.new };

    /// Checks that the files at a path, which are only read, have the beginning of a database. `NotARegister` if there is no database in them yet;
    /// `Store` if there is no file, if the files can't be read, or if something else is in them.
    fn check_database(&self, path: &str) -> Result<(), Failure>
        ensures begun { OnOk result (begun self.now path.now) }
        ensures read_failed { IfErr result (read_failed self.now path.now) }
        ensures faults { IfErr result IsReadFailure };

    /// Opens the file at a path as a database, and creates the file and the database if they are missing; `Store` if that can't be done.
    fn connect(&mut self, path: &str) -> Result<Self::Database, Failure>
        ensures connected { IfOk result (λ database. connected self.old path.now database self.new) }
        ensures fresh { IfOk result fresh }
        ensures connect_failed { IfErr result (λ why. connect_failed self.old path.now why self.new) }
        ensures faults { IfErr result (λ why.
            (why ≡ Failure.Fault Fault.Memory) ⊎ (why ≡ Failure.Fault Fault.Store)) };

    /// The bytes of the file at a path; `None` if it can't be read.
    fn file(&self, path: &str) -> Option<Vec<u8>>;

    /// Reads the OCSP responder's certificate, if one is given. `BadResponder`: it can't be read, or a delegate's key is not of the given algorithm.
    fn read_responder(&self, responder: &ResponderChoice<'_>) -> Result<Self::Responder, Failure>
        ensures certified { IfOk result (certified responder.now) }
        ensures has_certificate { OnErr result (HasCertificate responder.now) }
        ensures faults { IfErr result IsOpenFailure };

    /// Opens the register of a database, with `crls` to sign CRLs. If that fails, the database is closed. `NotARegister` if it has no register;
    /// `NewVersion` if a newer program wrote it; `BadSigner` if the latest CRL's algorithm is neither this signer's nor the placeholder digest's, or
    /// if the issuer's key doesn't fit the signer's algorithm; `BadResponder` if the certificate of `--embed` has another key than the issuer's.
    fn open_in(
        &self,
        database: Self::Database,
        crls: &CrlSignerChoice<'_>,
        responder: Self::Responder,
    ) -> Result<Self::Office, Failure>
        requires { fresh database }
        ensures opened { IfOk result (opened database crls.now responder) }
        ensures faults { IfErr result IsOpenFailure };

    /// Creates a register without records in a database. If that fails, the database is closed. `NotEmpty` if it has a table, an index or a view.
    fn create_in(
        &self,
        database: Self::Database,
        issuer: Issuer,
        policy: Policy,
    ) -> Result<Self::Office, Failure>
        requires { fresh database }
        ensures made { IfOk result (made database) }
        ensures stands { IfOk result (λ office.
            (signers : OfficeSigners) × Self.Office.stands signers office (no_records issuer policy)) }
        ensures faults { IfErr result IsCreateFailure };

    /// Closes the office whose file is at a path.
    fn close(&mut self, path: &str, office: Self::Office)
        ensures { closed self.old path.now office self.new };

    /// Opens the files at a path (a file and its WAL) read-only: no byte of them changes, and no file is created.
    fn read(&self, path: &str) -> Result<Self::Sources, Failure>
        ensures read { IfOk result (read self.now path.now) }
        ensures read_failed { IfErr result (read_failed self.now path.now) }
        ensures faults { IfErr result (λ why.
            (why ≡ Failure.Fault Fault.Memory) ⊎ (why ≡ Failure.Fault Fault.Store)) };

    /// Audits the register in these files, and migrates nothing; `NotARegister` if there is none; `NewVersion` if a newer program wrote it.
    fn audit_in(&self, sources: Self::Sources) -> Result<AuditResult, Failure>
        ensures audited { IfOk result (audited sources) }
        ensures faults { IfErr result IsOpenFailure };

    /// Copies the register at a path, which is only read, to the path `to`, and returns how many bytes the copy has. The copy is for its owner alone,
    /// and is synced with its folder. It gets its name once it is whole. `NotARegister` if there is no database yet; `Store` also if a program has
    /// locked the register for writing, or if there is a file at `to`, or at `to` with `-wal`, `-journal` or `.part`.
    fn copy(&mut self, path: &str, to: &str) -> Result<u64, Failure>
        ensures ok { IfOk result (λ bytes. copied self.old path.now to.now bytes self.new) }
        ensures err { IfErr result (λ why. copy_failed self.old path.now to.now why self.new) }
        ensures faults { IfErr result IsReadFailure };

    /// As [`Machine::copy`], but of the register that this program has open, between two transactions. `Store` also if `path` now has another file.
    fn copy_open(&self, path: &str, to: &str) -> Result<u64, CopyFault>
        ensures ok { IfOk result (copied_open path.now) }
        ensures err { IfErr result (λ why. IsOfStore why.fault) };

    /// The whole seconds of the clock since the start of 1970; 0 if it shows an earlier time.
    fn seconds(&self) -> io::Result<u64>
        ensures stood { IfOk result clock_read }
        ensures by_clock { IfOk result (λ seconds. (now : ℕ) → now ≤ seconds → clock_reached now) }
        ensures fails { OnErr result failed };

    /// The microseconds of the monotonic clock; 0 if it can't be read. `millis`: its milliseconds, or why it can't be read.
    fn micros(&self) -> u64;

    fn millis(&self) -> io::Result<u64>
        ensures read { IfOk result millis_read }
        ensures fails { OnErr result failed };

    /// Blocks until a socket is ready, at most for `longest`.
    fn wait(&self, poll: &mut Poll, events: &mut Events, longest: Duration) -> io::Result<()>
        ensures ok { OnOk result ((count : ℕ) → waited count → waited (count + 1)) }
        ensures fails { OnErr result failed };

    /// Accepts a connection. Errors are those of accept(2): none waits, a signal came, the client left, no descriptor is left, the system failed.
    fn accept(&self, listener: &TcpListener) -> io::Result<(TcpStream, SocketAddr)>
        ensures { IfErr result (AcceptFails failed) };

    /// Listens without blocking at a port of an IPv4 address; `listen_v6`: of an IPv6 address.
    fn listen(&self, address: [u8; 4], port: u16) -> io::Result<TcpListener>
        ensures { OnOk result (bound address port) };

    fn listen_v6(&self, address: [u8; 16], port: u16) -> io::Result<TcpListener>
        ensures { OnOk result (bound address port) };

    /// Locks the folder of a path (`locked`), until the caller drops the file. `AddrInUse` if another program holds the lock for ten seconds.
    fn lock_folder(&self, path: &str) -> io::Result<File>
        ensures { IfOk result (λ lock. locked lock path.now) };

    /// Creates a socket at a path, and listens there without blocking; `AddrInUse` if the path exists.
    fn create_socket(&self, lock: &File, path: &str) -> io::Result<UnixListener>
        requires { locked lock.now path.now }
        ensures { OnOk result (socket_created path.now) };

    fn set_mode(&self, path: &str, mode: u32) -> io::Result<()>
        ensures { OnOk result (has_mode path.now mode) };

    /// Whether the file at a path is a socket. A link is not followed.
    fn is_socket(&self, path: &str) -> io::Result<bool>;

    /// Whether the socket at a path is stale: it refuses connections, because no program listens there.
    fn is_stale(&self, lock: &File, path: &str) -> bool
        requires { locked lock.now path.now }
        ensures { IsTrue result → stale lock.now path.now };

    /// Removes a socket that was stale under this lock, which the caller still holds.
    fn unlink(&self, lock: &File, path: &str) -> io::Result<()>
        requires { stale lock.now path.now };

    fn connect_to_socket(&self, path: &str) -> io::Result<UnixStream>
        ensures { OnOk result (socket_connected path.now) };

    /// Connects to another desk, without blocking.
    fn connect_to_leader(&self, leader: &LeaderAddress<'_>) -> io::Result<LeaderStream>;

    /// Asks the signer at the socket at a path to sign a message, without blocking. `kept`: an earlier request, whose connection may be used again.
    /// `WouldBlock` if the socket has no room for one more connection, or no file descriptor is left.
    fn request_signature(
        &self,
        path: &str,
        message: &[u8],
        kept: Option<SignatureRequest>,
    ) -> io::Result<SignatureRequest>
        ensures asked { OnOk result (signature_requested path.now message.now) }
        ensures kept { IfOk result (IsSignatureRequest path.now message.now) };

    /// Connects to the signer in the same way, but sends nothing: the caller sends the message piece by piece. Errors: as for `request_signature`.
    fn connect_to_signer(&self, path: &str) -> io::Result<SignatureRequest>
        ensures reached { OnOk result (reached path.now) }
        ensures kept { IfOk result (IsSignatureRequest path.now []) };

    /// The signer's answer to the signature request, at most 4,096 bytes. `None` if no whole answer has arrived, or if out of memory.
    fn receive_answer(alloc: Global, request: &mut SignatureRequest) -> Option<Vec<u8>>
        ensures given { IfSome result (λ answer.
            (path message : List ℕ) → IsSignatureRequest path message request.old
            → signer_answered path message answer.items) }
        ensures short { IfSome result (λ answer. length answer.items ≤ 4096) };

    /// Presets an office's next signature, of a CRL or an OCSP response (`kind`): a message, and the signer's answer to it, if it gave one. The
    /// office then takes that answer, and doesn't ask the signer; signing another message fails. `None` removes the preset.
    fn set_preset(
        office: &mut Self::Office,
        kind: SignatureKind,
        preset_signature: Option<PresetSignature>,
    )
        requires { IfSome preset_signature (λ known.
            IfSome known.answer (λ answer.
            AnsweredAtSomePath signer_answered known.message.items answer.items)) }
        ensures { KeepsIn Self.Office.Office office.old office.new };

    /// Lets an office that has no signer of CRLs (`CrlSignerChoice::NoSigner`) enter CRLs of another register that have this algorithm, if it has
    /// no signed CRL yet. It still signs none. Nothing changes if it has a signer, or if the issuer's key doesn't fit the algorithm.
    fn expect_crls(&self, office: &mut Self::Office, algorithm: Algorithm)
        ensures { ExpectsCrls Self.Office.Office office.old office.new };

    /// Whether exchanges and faults of connections are logged.
    fn has_log(&self) -> bool;

    /// Appends a line with its LF to the log. If writing fails, the log has none or only a part of the line.
    fn log(&self, line: &[u8]);

    /// Writes a line with its LF to standard error, for the operator. A failed write is ignored.
    fn warn(&self, line: &[u8])
        ensures { warned line.now };

    /// Keeps the cause of a failed call, and its location if known, to report it when the job ends. The cause `None` drops the one kept before.
    fn keep_cause(&self, location: Option<Location>, cause: Option<Cause>);

    /// The cause that was kept last, if it was known.
    fn last_cause(&self) -> Option<FailureCause>;

    /// The moment of the clock, or the last possible moment if the clock is past it; `Read` if the clock can't be read.
    final fn moment(&self) -> Result<Moment, Fault>
        ensures by_clock { IfOk result clock_reached }
        ensures exact { IfOk result (IsClockMoment clock_read) }
        ensures err { IfErr result (λ fault. fault ≡ Fault.Read) }
        ensures fails { OnErr result failed }
    {
        match self.seconds() {
            Ok(seconds) => Ok(moment_at(seconds)),
            Err(_) => {
                self.keep_cause(None, Some(Cause::Clock));
                Err(Fault::Read)
            }
        }
    }

    /// Returns `moment`, an earlier reading, to prove that the clock has reached it. `None` if the clock is behind it now, or can't be read.
    final fn moment_if_reached(&self, moment: Moment) -> Option<Moment>
        ensures { IfSome result (λ recalled. clock_reached recalled × (recalled ≡ moment)) }
    {
        match self.seconds() {
            Ok(seconds) if moment <= moment_at(seconds) => Some(moment),
            _ => None,
        }
    }

    /// An answer that a signer gave counts as a signature (`signs`) if it has the form of one.
    ghost answer_in_form_signs: { (identity : Identity) (path message answer : List ℕ)
        → signer_answered path message answer → HasForm identity answer
        → Self.Office.signs identity message answer };
}
