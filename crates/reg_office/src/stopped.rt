//! Why a transaction that enters pages of another register's changes feed is rolled back.

use reg_core::{Fault, Memory};
use reg_office_api::{BrokenFeed, FeedPart, FeedRule, FollowFault};
use reg_store::DatabaseFault;

/// Why the transaction is rolled back.
#[derive(Clone, Copy)]
pub(crate) enum Stopped {
    Broken(BrokenFeed),
    Database(DatabaseFault),
}

impl From<DatabaseFault> for Stopped {
    ghost use Rattle.std.specs.Prelude.{◌≡◌};
    ghost use Rattle.reg_office.specs.declared.stopped.Stopped.TheVariants.{Database};

    ghost from_gives = { λ fault stopped. stopped ≡ Database fault };

    fn from(fault: DatabaseFault) -> Stopped {
        Stopped::Database(fault)
    }
}

impl From<Memory> for Stopped {
    ghost use Rattle.std.specs.Prelude.{◌≡◌};
    ghost use Rattle.reg_office.specs.declared.stopped.Stopped.TheVariants.{Database};
    ghost use Rattle.reg_store_tables.specs.declared.fault.DatabaseFault.TheVariants.{Memory as OutOfMemory};

    ghost from_gives = { λ _ stopped. stopped ≡ Database OutOfMemory };

    fn from(_memory: Memory) -> Stopped {
        Stopped::Database(DatabaseFault::Memory)
    }
}

/// A part of a page that breaks a rule. `row` is as in [`BrokenFeed`].
pub(crate) fn broken(part: FeedPart, row: u64, why: FeedRule) -> Stopped {
    Stopped::Broken(BrokenFeed { part, row, why })
}

/// Why the follower stops, if the register answers a row's command with this fault.
pub(crate) fn undecided(part: FeedPart, row: u64, fault: Fault) -> Stopped {
    match fault {
        Fault::Refused(refusal) => broken(part, row, FeedRule::Refused(refusal)),
        Fault::Memory => Stopped::Database(DatabaseFault::Memory),
        _ => Stopped::Database(DatabaseFault::Store),
    }
}

pub(crate) fn follow_fault(stopped: Stopped) -> FollowFault {
    match stopped {
        Stopped::Broken(broken) => FollowFault::Broken(broken),
        Stopped::Database(DatabaseFault::Memory) => FollowFault::Memory,
        Stopped::Database(DatabaseFault::Store) => FollowFault::Store,
    }
}
