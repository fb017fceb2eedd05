//! The host of a run of lines.

use crate::answered::Answered;
use reg_core::{Fault, Moment};

/// What a run of lines needs from its caller: an observer of the results, and a clock if the lines have no moments of their own.
pub trait Host {
    ghost use Rattle.std.specs.Prelude.{◌≡◌, ℕ, Bool, IfErr, IfOk, OnErr};
    ghost use Rattle.reg_core.specs.declared.refusal.Fault.TheVariants.{Read};

    // In turn: the host has a clock; the clock has reached this moment; the clock could not be read.
    ghost clocked: { Self → Bool };

    ghost clock_reached: { ℕ → Type 0 };

    ghost clock_failed: { Type 0 };

    /// Whether the host has a clock, at whose moment each line runs. Otherwise each line begins with a moment of its own.
    fn is_clocked(&self) -> bool
        ensures { result ≡ clocked self.now };

    /// The moment of the clock; [`Fault::Read`] if the clock can't be read.
    fn moment(&self) -> Result<Moment, Fault>
        ensures by_clock { IfOk result clock_reached }
        ensures err { IfErr result (λ fault. fault ≡ Read) }
        ensures fails { OnErr result clock_failed };

    /// Observes the result of a line, before its reply is written.
    fn observe(&self, answered: &Answered);
}
