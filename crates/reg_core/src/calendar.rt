ghost use Rattle.std.specs.Prelude.{◌≡◌, ◌≢◌, ℕ, ◌+◌, ◌<◌, ◌≤◌, ◌<ℤ◌, [], ◌∷◌, length, pos, MatchOption};
ghost use Rattle.jiff.specs.Words.{epoch_day};
ghost use Rattle.jiff_core.specs.Calendar.{IsCivilDate};
ghost use Rattle.reg_core.specs.Calendar.{IsMoment, Spells, two_digits};

use jiff::ToSpan;
use jiff::civil::{Date, date};

/// A date of the Gregorian calendar (months and days from 1 on) and a time of day in UTC, without leap seconds. A moment's year is 1970 to 9999.
#[derive(Clone, Copy, PartialEq, Eq)]
pub struct Civil {
    pub year: u16,
    pub month: u8,
    pub day: u8,
    pub hour: u8,
    pub minute: u8,
    pub second: u8,
}

impl Civil {
    ghost use Rattle.reg_core.specs.Calendar.{IsCivil, IsCivilAt, HasDigits, civil_of, date_time};

    /// The date and time this many seconds after 1970-01-01T00:00:00Z.
    pub(crate) fn at(seconds: u64) -> Civil
        requires { IsMoment seconds }
        ensures exact { result ≡ civil_of seconds }
        ensures shown { IsCivilAt seconds result }
        ensures ranges { IsCivil result }
    {
        let date = date_after_epoch(seconds / 86_400);
        let second_of_day = seconds % 86_400;
        Civil {
            year: date.year() as u16,
            month: date.month() as u8,
            day: date.day() as u8,
            hour: (second_of_day / 3_600) as u8,
            minute: (second_of_day / 60 % 60) as u8,
            second: (second_of_day % 60) as u8,
        }
    }

    /// The seconds from 1970-01-01T00:00:00Z to this date and time; `None` if there is no such date or time, or its year is not 1970 to 9999.
    pub(crate) fn seconds(self) -> Option<u64>
        ensures { MatchOption result ((s : ℕ) → IsMoment s → civil_of s ≢ self)
            (λ s. IsMoment s × (civil_of s ≡ self)) }
    {
        if self.hour > 23 || self.minute > 59 || self.second > 59 {
            return None;
        }
        let days = days_since_epoch(self.date()?)?;
        let minutes = self.hour as u64 * 60 + self.minute as u64;
        Some(days * 86_400 + minutes * 60 + self.second as u64)
    }

    fn date(self) -> Option<Date>
        ensures { MatchOption result (¬ (IsCivilDate (pos self.year) self.month self.day))
            (λ d. (d.year ≡ pos self.year) × (d.month ≡ self.month) × (d.day ≡ self.day)) }
    {
        let year = i16::try_from(self.year).ok()?;
        let month = i8::try_from(self.month).ok()?;
        let day = i8::try_from(self.day).ok()?;
        Date::new(year, month, day).ok()
    }

    /// The text `YYYY-MM-DDTHH:MM:SSZ` (RFC 3339 5.6).
    #[tactic(auto, unfolding(crate::specs::Calendar::date_time))]
    pub(crate) fn date_time(self) -> [u8; 20]
        requires { HasDigits self }
        ensures { result ≡ date_time self }
    {
        let [y1, y2] = digits((self.year / 100) as u8);
        let [y3, y4] = digits((self.year % 100) as u8);
        let [m1, m2] = digits(self.month);
        let [d1, d2] = digits(self.day);
        let [h1, h2] = digits(self.hour);
        let [n1, n2] = digits(self.minute);
        let [s1, s2] = digits(self.second);
        [
            y1, y2, y3, y4, b'-', m1, m2, b'-', d1, d2, b'T', h1, h2, b':', n1, n2, b':', s1, s2,
            b'Z',
        ]
    }

    /// The fields of a text `YYYY-MM-DDTHH:MM:SSZ`, even if there is no such date or time; `None` for a text of another form.
    #[tactic(auto, unfolding(crate::specs::Calendar::date_time))]
    pub(crate) fn read(text: &[u8]) -> Option<Civil>
        ensures { MatchOption result ((c : Civil) → HasDigits c → text.now ≢ date_time c)
            (λ c. HasDigits c × (text.now ≡ date_time c)) }
    {
        if text.len() != 20 {
            return None;
        }
        let separators = [text[4], text[7], text[10], text[13], text[16], text[19]];
        if separators != *b"--T::Z" {
            return None;
        }
        Some(Civil {
            year: number(text, 0)? as u16 * 100 + number(text, 2)? as u16,
            month: number(text, 5)?,
            day: number(text, 8)?,
            hour: number(text, 11)?,
            minute: number(text, 14)?,
            second: number(text, 17)?,
        })
    }
}

/// The date this many days after 1970-01-01. 10000-01-01, the first day that is too late for a moment, is 2,932,897 days after it.
fn date_after_epoch(days: u64) -> Date
    requires { days < 2932897 }
    ensures { epoch_day result ≡ pos days }
{
    match date(1970, 1, 1).checked_add((days as i64).days()) {
        Ok(date) => date,
        Err(_) => unreachable!(),
    }
}

/// The number of days from 1970-01-01 to `day`; `None` if `day` is earlier.
fn days_since_epoch(day: Date) -> Option<u64>
    ensures { MatchOption result (epoch_day day <ℤ pos 0)
        (λ n. (n < 2932897) × (epoch_day day ≡ pos n)) }
{
    u64::try_from(day.duration_since(date(1970, 1, 1)).as_hours() / 24).ok()
}

fn digits(number: u8) -> [u8; 2]
    requires { number < 100 }
    ensures { result ≡ two_digits number }
{
    [b'0' + number / 10, b'0' + number % 10]
}

/// The number in the two digits from index `at` on; `None` if one of them isn't a digit.
fn number(text: &[u8], at: usize) -> Option<u8>
    requires { at + 2 ≤ length text.now }
    ensures { MatchOption result ((n : ℕ) → ¬ (Spells text.now at n)) (Spells text.now at) }
{
    let (tens, ones) = (text[at], text[at + 1]);
    if tens.is_ascii_digit() && ones.is_ascii_digit() {
        Some((tens - b'0') * 10 + (ones - b'0'))
    } else {
        None
    }
}
