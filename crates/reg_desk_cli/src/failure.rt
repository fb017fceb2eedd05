//! Why a job failed: its line on standard error, and its exit status.

ghost use Rattle.std.specs.Prelude.{◌≡◌, ◌≤◌, length};
ghost use Rattle.reg_desk_cli.specs.ExitStatus.{failure_line, exit_status};

use reg_core::{Fault, Label};
use reg_store_tables::{DatabaseFault, StoreFault};

#[derive(Clone, Copy, PartialEq, Eq)]
pub enum Failure {
    /// A refusal of the register, or a fault of memory, store, signer, input or output.
    Fault(Fault),
    /// The file of a new register has a table, an index or a view already.
    NotEmpty,
    /// The file has no database yet, or its schema, its row in the table `office` (issuer and policy) or its schedule is not that of a register.
    NotARegister,
    /// The register's version (in its table `office`) is newer than the program's. `OldVersion`: it is older; only an audit reports this.
    NewVersion,
    OldVersion,
    /// The Name, the key or the key identifier is invalid.
    BadIssuer,
    /// An `init` option is out of range (`--days`, `--crl-life`, `--ocsp-life`; `--cap`, a table's most rows), or steps of `schedule` are invalid.
    BadPolicy,
    /// The clock is more than 30 days past the moment of the last accepted command, and the operator has not accepted it (`--accept-clock`).
    BadClock,
    /// The latest CRL is signed, and new ones would have another algorithm or a placeholder digest; or the issuer's key does not fit the signer's
    /// algorithm; or a signer is given for a register in memory.
    BadSigner,
    /// A certificate for OCSP responses can't be read, or its key is not the issuer's (`--embed`) or not of the given algorithm (`--responder`).
    BadResponder,
    /// A reply was a refusal or a fault, at a control socket or in a strict script or import; or a replay stopped at a line of the log.
    Refused,
    /// The last line of the input has no line end, and did not run. `RefusedNoLineEnd`, at a control socket: a reply was a refusal or a fault, too.
    NoLineEnd,
    RefusedNoLineEnd,
    /// An audit found a broken row, or a schema that is not that of a register.
    Broken,
    /// The file given by `--published` has no CRL with a number (RFC 5280 5.2.3), or the CRL has an invalid entry.
    NotACrl,
    /// The register's latest CRL has a lower number than the CRL given by `--published`, or a serial number that the latter lists is not revoked.
    LacksPublished,
    /// The leader lacks a record that its follower has.
    Diverged,
    /// A page of the leader's changes feed can't be read, or breaks a rule of the register.
    BrokenFeed,
    /// The leader has more changes than its follower keeps in memory.
    TooFarBehind,
    /// A command at the control socket of a follower.
    IsFollower,
    /// A query at the control socket of a follower that has not reached its leader within the lag.
    Behind,
}

impl Failure {
    /// The line for standard error, without its LF; for `RefusedNoLineEnd`, two lines with an LF between them.
    #[tactic(auto, unfolding(crate::specs::ExitStatus::failure_line))]
    pub fn line(&self) -> Label
        ensures { result ≡ failure_line self.now }
    {
        match *self {
            Failure::Fault(fault) => fault.line(),
            Failure::NotEmpty => label(b"not-empty"),
            Failure::NotARegister => label(b"not-a-register"),
            Failure::NewVersion => label(b"new-version"),
            Failure::OldVersion => label(b"old-version"),
            Failure::BadIssuer => label(b"bad-issuer"),
            Failure::BadPolicy => label(b"bad-policy"),
            Failure::BadClock => label(b"bad-clock"),
            Failure::BadSigner => label(b"bad-signer"),
            Failure::BadResponder => label(b"bad-responder"),
            Failure::Refused => label(b"refused"),
            Failure::NoLineEnd => label(b"no-line-end"),
            Failure::RefusedNoLineEnd => label(b"refused\nno-line-end"),
            Failure::Broken => label(b"broken"),
            Failure::NotACrl => label(b"not-a-crl"),
            Failure::LacksPublished => label(b"behind-crl"),
            Failure::Diverged => label(b"diverged"),
            Failure::BrokenFeed => label(b"broken-feed"),
            Failure::TooFarBehind => label(b"too-far-behind"),
            Failure::IsFollower => label(b"follower"),
            Failure::Behind => label(b"behind"),
        }
    }
}

impl From<Fault> for Failure {
    ghost use Rattle.std.specs.Prelude.{◌≡◌};
    ghost use Rattle.reg_desk_cli.specs.declared.failure.Failure.TheVariants.{Fault as HasFault};

    ghost from_gives = { λ fault failure. failure ≡ HasFault fault };

    fn from(fault: Fault) -> Failure {
        Failure::Fault(fault)
    }
}

impl From<StoreFault> for Failure {
    ghost use Rattle.reg_desk_cli.specs.ExitStatus.{store_failure};

    ghost from_gives = { λ fault failure. failure ≡ store_failure fault };

    fn from(fault: StoreFault) -> Failure {
        match fault {
            StoreFault::Memory => Failure::Fault(Fault::Memory),
            StoreFault::Store => Failure::Fault(Fault::Store),
            StoreFault::NotEmpty => Failure::NotEmpty,
            StoreFault::NotARegister => Failure::NotARegister,
            StoreFault::NewVersion => Failure::NewVersion,
        }
    }
}

impl From<DatabaseFault> for Failure {
    ghost use Rattle.std.specs.Prelude.{◌≡◌};
    ghost use Rattle.reg_store_tables.specs.Faults.{fault_of};
    ghost use Rattle.reg_desk_cli.specs.declared.failure.Failure.TheVariants.{Fault as HasFault};

    ghost from_gives = { λ fault failure. failure ≡ HasFault (fault_of fault) };

    fn from(fault: DatabaseFault) -> Failure {
        Failure::Fault(Fault::from(fault))
    }
}

/// The exit status of a job: 0 if it is done; 3 for `Refused`, `NoLineEnd` and `RefusedNoLineEnd`; else 1.
pub fn status_of(ending: &Result<(), Failure>) -> u8
    ensures { result ≡ exit_status ending.now }
{
    match ending {
        Ok(()) => 0,
        Err(Failure::Refused) => 3,
        Err(Failure::NoLineEnd) => 3,
        Err(Failure::RefusedNoLineEnd) => 3,
        Err(_) => 1,
    }
}

/// A text of 1 to 64 bytes as a label. It uses `joined` with an empty second text, because [`Label::of`] gives an `Option`.
fn label(text: &[u8]) -> Label
    requires not_empty { 1 ≤ length text.now }
    requires short { length text.now ≤ 64 }
    ensures { result ≡ text.now }
{
    Label::joined(text, b"")
}
