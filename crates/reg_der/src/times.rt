ghost use Rattle.std.specs.Prelude.{◌≡◌, ◌<◌};
ghost use Rattle.reg_core.specs.Calendar.{IsCivil, two_digits, utc_time, generalized_time};

use reg_core::Civil;

/// `YYMMDDHHMMSSZ`, the contents of a UTCTime (RFC 5280 4.1.2.5.1). A `Civil` is a date and a time of day, in UTC.
#[tactic(auto, unfolding(reg_core::specs::Calendar::utc_time))]
pub(crate) fn utc_text(civil: Civil) -> [u8; 13]
    requires { IsCivil civil }
    ensures { result ≡ utc_time civil }
{
    let [y1, y2] = digits((civil.year % 100) as u8);
    let [m1, m2] = digits(civil.month);
    let [d1, d2] = digits(civil.day);
    let [h1, h2] = digits(civil.hour);
    let [n1, n2] = digits(civil.minute);
    let [s1, s2] = digits(civil.second);
    [y1, y2, m1, m2, d1, d2, h1, h2, n1, n2, s1, s2, b'Z']
}

/// `YYYYMMDDHHMMSSZ`, the contents of a GeneralizedTime (RFC 5280 4.1.2.5.2).
#[tactic(auto, unfolding(reg_core::specs::Calendar::generalized_time))]
pub(crate) fn general_text(civil: Civil) -> [u8; 15]
    requires { IsCivil civil }
    ensures { result ≡ generalized_time civil }
{
    let [y1, y2] = digits((civil.year / 100) as u8);
    let [y3, y4] = digits((civil.year % 100) as u8);
    let [m1, m2] = digits(civil.month);
    let [d1, d2] = digits(civil.day);
    let [h1, h2] = digits(civil.hour);
    let [n1, n2] = digits(civil.minute);
    let [s1, s2] = digits(civil.second);
    [y1, y2, y3, y4, m1, m2, d1, d2, h1, h2, n1, n2, s1, s2, b'Z']
}

fn digits(number: u8) -> [u8; 2]
    requires { number < 100 }
    ensures { result ≡ two_digits number }
{
    [b'0' + number / 10, b'0' + number % 10]
}
