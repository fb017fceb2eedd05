ghost use Rattle.std.specs.Prelude.{◌≡◌, ◌≤◌, ◌↔◌, IsSome, IfSome};
ghost use Rattle.reg_core.specs.Policy.{IsPolicy};
ghost use Rattle.reg_core.specs.Schedule.{IsSchedule, one_step};

use crate::moment::Moment;
use crate::schedule::Schedule;
use std::marker::Model;

/// Ten days less a second: below the limit of the CA/Browser Forum Baseline Requirements for CRLs (4.9.7) and OCSP responses (4.9.10).
const LONGEST_LIFE: u64 = 863_999;

/// Eight hours, the minimum of the Baseline Requirements 4.9.10.
const SHORTEST_OCSP_LIFE: u64 = 28_800;

const LARGEST_CAP: u64 = 1_000_000;

/// The policy of a register: the longest validities, the lives of CRLs and OCSP responses (the seconds from thisUpdate to nextUpdate), and `cap`, the
/// most rows of a table. The model in contracts is the record `Terms`.
#[derive(Clone, Copy, PartialEq, Eq)]
pub struct Policy {
    schedule: Schedule,
    crl_life: u64,
    ocsp_life: u64,
    cap: u64,
}

impl Model for Policy {
    ghost use Rattle.reg_core.specs.Policy.{Terms, IsPolicy};

    ghost Value = { Terms };

    ghost view = { λ policy. record {
      schedule = policy.schedule;
      crl_life = policy.crl_life;
      ocsp_life = policy.ocsp_life;
      cap = policy.cap;
    } };

    ghost invariant = { λ policy. IsPolicy (record {
      schedule = policy.schedule;
      crl_life = policy.crl_life;
      ocsp_life = policy.ocsp_life;
      cap = policy.cap;
    }) };

    ghost inverse = { λ terms. record {
      schedule = terms.schedule;
      crl_life = terms.crl_life;
      ocsp_life = terms.ocsp_life;
      cap = terms.cap;
    } };
}

impl Policy {
    /// The policy with a longest validity of 1 to 398 days at any notBefore, lives of 1 to 863,999 seconds for CRLs and 28,800 to 863,999 for OCSP
    /// responses, and a limit of 1 to 1,000,000 rows for each table; `None` if a value is out of its range.
    pub fn new(longest_days: u64, crl_life: u64, ocsp_life: u64, cap: u64) -> Option<Policy>
        ensures some { IsSome result ↔ IsPolicy (record {
          schedule = one_step longest_days;
          crl_life = crl_life;
          ocsp_life = ocsp_life;
          cap = cap;
        }) }
        ensures value { IfSome result (λ policy. policy ≡ record {
          schedule = one_step longest_days;
          crl_life = crl_life;
          ocsp_life = ocsp_life;
          cap = cap;
        }) }
    {
        let start = Moment::of_secs(0)?;
        let schedule = Schedule::new(&[(start, longest_days)])?;
        Policy::with(schedule, crl_life, ocsp_life, cap)
    }

    /// As [`Policy::new`], but with a schedule of longest validities, which depend on notBefore.
    pub fn with(schedule: Schedule, crl_life: u64, ocsp_life: u64, cap: u64) -> Option<Policy>
        ensures some { IsSome result ↔ IsPolicy (record {
          schedule = schedule;
          crl_life = crl_life;
          ocsp_life = ocsp_life;
          cap = cap;
        }) }
        ensures value { IfSome result (λ policy. policy ≡ record {
          schedule = schedule;
          crl_life = crl_life;
          ocsp_life = ocsp_life;
          cap = cap;
        }) }
    {
        // Called only for the prover: by the contract of `steps`, `schedule` is valid. `with_schedule` does the same.
        let _steps = schedule.steps();
        let in_range = (1..=LONGEST_LIFE).contains(&crl_life)
            && (SHORTEST_OCSP_LIFE..=LONGEST_LIFE).contains(&ocsp_life)
            && (1..=LARGEST_CAP).contains(&cap);
        if !in_range {
            return None;
        }
        Some(Policy {
            schedule,
            crl_life,
            ocsp_life,
            cap,
        })
    }

    /// The default policy: 398 days of validity; nextUpdate eight days after thisUpdate for CRLs, four for OCSP responses; 1,000,000 rows of a table.
    pub fn usual() -> Policy
        ensures { result ≡ record
            { schedule = one_step 398; crl_life = 691200; ocsp_life = 345600; cap = 1000000 } }
    {
        Policy::new(398, 691_200, 345_600, 1_000_000).unwrap()
    }

    /// This policy with another schedule.
    pub fn with_schedule(self, schedule: Schedule) -> Policy
        ensures { result ≡ record self { schedule = schedule } }
    {
        let _steps = schedule.steps();
        Policy { schedule, ..self }
    }

    /// Does nothing: its contract states that the values of a policy are in their ranges.
    pub fn prove_ranges(self)
        ensures { IsPolicy self }
    {}

    /// The schedule of longest validities.
    pub fn schedule(&self) -> Schedule
        ensures schedule { result ≡ self.now.schedule }
        ensures in_range { IsSchedule result }
    {
        self.schedule
    }

    /// The seconds from a CRL's thisUpdate to its nextUpdate.
    pub fn crl_life(&self) -> u64
        ensures seconds { result ≡ self.now.crl_life }
        ensures at_least_1 { 1 ≤ result }
        ensures below_10_days { result ≤ 863999 }
    {
        self.crl_life
    }

    /// The seconds from an OCSP response's thisUpdate to its nextUpdate.
    pub fn ocsp_life(&self) -> u64
        ensures seconds { result ≡ self.now.ocsp_life }
        ensures at_least_8_hours { 28800 ≤ result }
        ensures below_10_days { result ≤ 863999 }
    {
        self.ocsp_life
    }

    /// The most rows of a table.
    pub fn cap(&self) -> u64
        ensures rows { result ≡ self.now.cap }
        ensures at_least_1 { 1 ≤ result }
        ensures at_most_1_000_000 { result ≤ 1000000 }
    {
        self.cap
    }
}
