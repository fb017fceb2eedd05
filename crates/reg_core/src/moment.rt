ghost use Rattle.std.specs.Prelude.{◌≡◌, ◌≢◌, ℕ, ◌+◌, ◌≤◌, MatchOption, IfSome, IfNone, Some};

use crate::calendar::Civil;
use std::marker::Model;

/// A moment in whole seconds since 1970-01-01T00:00:00Z, to 9999-12-31T23:59:59Z (RFC 5280 4.1.2.5). Its model in contracts is this number.
#[derive(Clone, Copy, PartialEq, Eq, PartialOrd, Ord)]
pub struct Moment {
    seconds: u64,
}

impl Model for Moment {
    ghost use Rattle.std.specs.Prelude.{ℕ, ◌<◌};

    ghost Value = { ℕ };

    ghost view = { λ moment. moment.seconds };

    ghost invariant = { λ moment. moment.seconds < 253402300800 };

    ghost inverse = { λ seconds. record { seconds = seconds } };
}

/// 10000-01-01T00:00:00Z, the first second that is no moment.
const END: u64 = 253_402_300_800;

impl Moment {
    ghost use Rattle.reg_core.specs.Calendar.{IsMoment, IsCivil, IsCivilAt, civil_of, moment_of, moment_text};

    /// 1970-01-01T00:00:00Z. A new register, which has accepted no command yet, has it as its last accepted moment.
    pub const EPOCH: Moment = Moment { seconds: 0 };

    /// 9999-12-22T00:00:00Z. From then on commands and queries are refused (`ClockEnd`), so that each nextUpdate, under ten days later, is a moment.
    pub const CLOCK_END: Moment = Moment {
        seconds: 253_401_436_800,
    };

    /// The moment this many seconds after 1970-01-01T00:00:00Z; `None` from the year 10000 on.
    pub fn of_secs(seconds: u64) -> Option<Moment>
        ensures { MatchOption result (253402300800 ≤ seconds) (λ m. (m ≡ seconds) × IsMoment seconds) }
    {
        if seconds < END {
            Some(Moment { seconds })
        } else {
            None
        }
    }

    /// The moment this many seconds later.
    pub fn plus(self, seconds: u64) -> Moment
        requires { IsMoment (self + seconds) }
        ensures { result ≡ self + seconds }
    {
        Moment {
            seconds: self.seconds + seconds,
        }
    }

    /// The seconds since 1970-01-01T00:00:00Z, below 253,402,300,800.
    pub fn secs(self) -> u64
        ensures value { result ≡ self }
        ensures range { IsMoment self }
    {
        self.seconds
    }

    /// The date of the Gregorian calendar and the time of day in UTC; each day has 86,400 seconds.
    pub fn civil(self) -> Civil
        ensures exact { result ≡ civil_of self }
        ensures shown { IsCivilAt self result }
        ensures ranges { IsCivil result }
    {
        Civil::at(self.secs())
    }

    /// Reads `YYYY-MM-DDTHH:MM:SSZ` (RFC 3339 5.6). `None` for other bytes, a year before 1970, a leap second, or a date or time that does not exist.
    pub fn read(bytes: &[u8]) -> Option<Moment>
        ensures found { IfSome result (λ m. IsMoment m × (bytes.now ≡ moment_text m)) }
        ensures none { IfNone result ((m : ℕ) → IsMoment m → bytes.now ≢ moment_text m) }
        ensures only { (m : ℕ) → IsMoment m → bytes.now ≡ moment_text m → result ≡ Some m }
        ensures exact { result ≡ moment_of bytes.now }
    {
        Moment::of_secs(Civil::read(bytes)?.seconds()?)
    }

    /// The text `YYYY-MM-DDTHH:MM:SSZ` (RFC 3339 5.6).
    pub fn text(self) -> [u8; 20]
        ensures { result ≡ moment_text self }
    {
        self.civil().date_time()
    }
}
