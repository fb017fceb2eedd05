ghost use Rattle.std.specs.Prelude.{◌≡◌, ◌≤◌, ◌↔◌, IsSome, IsTrue, IfSome};
ghost use Rattle.reg_core.specs.Schedule.{IsSchedule, Ascends, IsDays, HasDays, longest_at, greatest_of, same_steps, same_steps_both_ways, same_steps_equivalence};
ghost use Rattle.std.specs.List.{AllByRecursion};

use crate::moment::Moment;
use std::marker::Model;

/// The most steps of a schedule, and the length of its array (no `Vec`, so that it is `Copy`). Each unused element has 0 days at moment 0.
const MAX_STEPS: usize = 16;

/// The longest validity in days that a step may allow: the limit of CA/Browser Forum Baseline Requirements 6.3.2 for issuance before 2026-03-15.
const MAX_DAYS: u64 = 398;

/// A schedule of longest validities: 1 to 16 steps, with strictly ascending moments, the first [`Moment::EPOCH`]. A step is a moment, and the longest
/// validity (1 to 398 days) of certificates with a notBefore from that moment on, but before the next step's. Contracts see the list of the steps.
#[derive(Clone, Copy)]
pub struct Schedule {
    steps: [(Moment, u64); MAX_STEPS],
    len: usize,
}

impl Model for Schedule {
    ghost use Rattle.std.specs.Prelude.{ℕ, List, ◌≡◌, ◌≤◌, ◌++◌, ◌-◌, length, take, replicate};
    ghost use Rattle.reg_core.specs.Schedule.{IsSchedule};

    ghost Value = { List (ℕ × ℕ) };

    ghost view = { λ schedule. take schedule.len schedule.steps };

    ghost invariant = { λ schedule. (schedule.len ≤ 16) × (length schedule.steps ≡ 16)
        × IsSchedule (take schedule.len schedule.steps)
        × (schedule.steps ≡ take schedule.len schedule.steps ++ replicate (16 - schedule.len) (0, 0)) };

    ghost inverse = { λ steps. record { steps = steps ++ replicate (16 - length steps) (0, 0); len = length steps } };
}

impl PartialEq for Schedule {
    ghost eq = { same_steps };

    ghost laws = { same_steps_both_ways };

    fn eq(&self, other: &Schedule) -> bool {
        self.steps() == other.steps()
    }
}

impl Eq for Schedule {
    ghost laws = { same_steps_equivalence };
}

impl Schedule {
    /// The schedule with these steps; `None` if they are not as [`Schedule`] says.
    pub fn new(steps: &[(Moment, u64)]) -> Option<Schedule>
        ensures some { IsSome result ↔ IsSchedule steps.now }
        ensures value { IfSome result (λ schedule. schedule ≡ steps.now) }
    {
        let [(start, _), ..] = steps else {
            return None;
        };
        if steps.len() > MAX_STEPS
            || start.secs() != 0
            || !ascends(steps)
            || !days_in_range(steps)
        {
            return None;
        }
        let mut padded = [(*start, 0); MAX_STEPS];
        padded[..steps.len()].copy_from_slice(steps);
        Some(Schedule {
            steps: padded,
            len: steps.len(),
        })
    }

    /// Whether a schedule can allow this many days: 1 to 398.
    pub fn can_allow(days: u64) -> bool
        ensures { IsTrue result ↔ IsDays days }
    {
        1 <= days && days <= MAX_DAYS
    }

    pub fn steps(&self) -> &[(Moment, u64)]
        ensures steps { result.now ≡ self.now }
        ensures schedule { IsSchedule result.now }
    {
        &self.steps[..self.len]
    }

    /// The longest validity in days of a certificate whose notBefore is `moment`: the days of the last step that begins at `moment` or before.
    pub fn longest(&self, moment: Moment) -> u64
        ensures days { result ≡ longest_at self.now moment }
        ensures at_least_1 { 1 ≤ result }
        ensures at_most_greatest { result ≤ greatest_of self.now }
        ensures at_most_398 { result ≤ 398 }
    {
        let mut days = 0;
        for step in self.steps() {
            let reached = step.0 <= moment;
            if reached {
                days = step.1;
            }
        }
        days
    }

    /// The most days of any step.
    pub fn greatest(&self) -> u64
        ensures days { result ≡ greatest_of self.now }
        ensures at_least_1 { 1 ≤ result }
        ensures at_most_398 { result ≤ 398 }
    {
        let mut days = 0;
        for step in self.steps() {
            days = days.max(step.1);
        }
        days
    }
}

fn ascends(steps: &[(Moment, u64)]) -> bool
    ensures { IsTrue result ↔ Ascends steps.now }
{
    steps.is_sorted_by(|earlier, later| earlier.0 < later.0)
}

fn days_in_range(steps: &[(Moment, u64)]) -> bool
    ensures { IsTrue result ↔ AllByRecursion HasDays steps.now }
{
    steps.iter().all(|step| 1 <= step.1 && step.1 <= MAX_DAYS)
}
