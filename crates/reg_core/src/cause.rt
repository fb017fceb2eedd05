ghost use Rattle.std.specs.Prelude.{◌≡◌, ◌≤◌, Some, None, length, if◌then◌else◌};
ghost use Rattle.reg_core.specs.Causes.{cause_line, create_cause, io_cause, policy_cause, port_cause};

use crate::Label;
use std::io::ErrorKind;

/// Why a file, a port or the clock can't be used, why a signer doesn't fit a register (`OtherAlgorithm` to `OtherKey`), or which part of a policy is
/// invalid (`Days` to `Steps`; `Steps` are those of its schedule of longest validities). [`line`](Cause::line) explains each.
#[derive(Clone, Copy, PartialEq, Eq)]
pub enum Cause {
    NoFile,
    NoPermission,
    /// Another program has the file open, or listens at the socket.
    InUse,
    Damaged,
    DiskFull,
    PathExists,
    PortInUse,
    Clock,
    /// The latest CRL is signed, but the signer has another algorithm, or there is no signer now.
    OtherAlgorithm,
    /// This program doesn't know the algorithm of the latest CRL, or can't read it.
    UnknownAlgorithm,
    OtherKey,
    Days,
    CrlLife,
    OcspLife,
    Cap,
    Steps,
}

impl Cause {
    /// The line about the cause for standard error: two spaces and the text, without LF.
    #[tactic(auto, unfolding(crate::specs::Causes::cause_line))]
    pub fn line(&self) -> Label
        ensures { result ≡ cause_line self.now }
    {
        match *self {
            Cause::NoFile => line_of(b"  no such file"),
            Cause::NoPermission => line_of(b"  permission denied, or the file system is read-only"),
            Cause::InUse => line_of(b"  in use by another program"),
            Cause::Damaged => line_of(b"  damaged, or not a database: check the path and the disk"),
            Cause::DiskFull => line_of(b"  disk full"),
            Cause::PathExists => line_of(b"  the path already exists: give another one"),
            Cause::PortInUse => line_of(b"  port in use"),
            Cause::Clock => line_of(b"  the machine's clock can't be read"),
            Cause::OtherAlgorithm => line_of(
                b"  the latest CRL has another algorithm: set --algorithm to it",
            ),
            Cause::UnknownAlgorithm => line_of(
                b"  the latest CRL has an unknown algorithm: run desk audit",
            ),
            Cause::OtherKey => line_of(b"  --algorithm does not fit the issuer's key"),
            Cause::Days => line_of(b"  --days: 1 to 398"),
            Cause::CrlLife => line_of(b"  --crl-life: 1 to 863999"),
            Cause::OcspLife => line_of(b"  --ocsp-life: 28800 to 863999"),
            Cause::Cap => line_of(b"  --cap: 1 to 1000000"),
            Cause::Steps => line_of(
                b"  1 to 16 MOMENT=DAYS, ascending from 1970-01-01, DAYS 1 to 398",
            ),
        }
    }
}

fn line_of(text: &[u8]) -> Label
    requires not_empty { 1 ≤ length text.now }
    requires short { length text.now ≤ 64 }
    ensures { result ≡ text.now }
{
    Label::joined(text, b"")
}

/// The cause of a failed system call, by the kind of its error; `None` for a kind without a cause.
#[tactic(auto, unfolding(crate::specs::Causes::io_cause))]
pub fn io_cause_of(kind: ErrorKind) -> Option<Cause>
    ensures { result ≡ io_cause kind }
{
    match kind {
        ErrorKind::NotFound => Some(Cause::NoFile),
        ErrorKind::PermissionDenied | ErrorKind::ReadOnlyFilesystem => Some(Cause::NoPermission),
        ErrorKind::AddrInUse => Some(Cause::InUse),
        ErrorKind::StorageFull | ErrorKind::QuotaExceeded => Some(Cause::DiskFull),
        _ => None,
    }
}

/// As [`io_cause_of`], for the call that creates a new file.
#[tactic(auto, unfolding(crate::specs::Causes::create_cause))]
pub fn create_cause_of(kind: ErrorKind) -> Option<Cause>
    ensures { result ≡ create_cause kind }
{
    match kind {
        ErrorKind::AlreadyExists => Some(Cause::PathExists),
        other => io_cause_of(other),
    }
}

/// As [`io_cause_of`], for the call that binds a port.
#[tactic(auto, unfolding(crate::specs::Causes::port_cause))]
pub fn port_cause_of(kind: ErrorKind) -> Option<Cause>
    ensures { result ≡ port_cause kind }
{
    match kind {
        ErrorKind::AddrInUse => Some(Cause::PortInUse),
        other => io_cause_of(other),
    }
}

/// The cause for the first value out of its range (`Policy::new`), if any. `days`: longest validity. Lives: seconds to nextUpdate. `cap`: most rows.
#[tactic(auto, unfolding(crate::specs::Causes::policy_cause))]
pub fn policy_cause_of(days: u64, crl_life: u64, ocsp_life: u64, cap: u64) -> Option<Cause>
    ensures { result ≡ policy_cause days crl_life ocsp_life cap }
{
    if days < 1 || days > 398 {
        return Some(Cause::Days);
    }
    if crl_life < 1 || crl_life > 863_999 {
        return Some(Cause::CrlLife);
    }
    if ocsp_life < 28_800 || ocsp_life > 863_999 {
        return Some(Cause::OcspLife);
    }
    if cap < 1 || cap > 1_000_000 {
        return Some(Cause::Cap);
    }
    None
}
