//! Appends samples in the text format of Prometheus, version 0.0.4.

ghost use Rattle.std.specs.Prelude.{◌≡◌, ◌<◌, ◌++◌, OnOk};
ghost use Rattle.reg_desk_metrics.specs.Samples.{digit_at as digit_spec, moment_or_zero, fraction as fraction_spec, sample, sample_of_seconds};

use reg_core::{Decimal, Moment};
use std::alloc::AllocError;

/// Appends a sample: `series`, the value and an LF. `series` is the name of a series, or its end after a label's value (`"} `); it ends with a space.
pub(crate) fn put_sample(text: &mut Vec<u8>, series: &str, value: u64) -> Result<(), AllocError>
    ensures { OnOk result (text.new.items ≡ text.old.items ++ sample series.now value) }
{
    let digits = Decimal::of(value);
    text.extend_from_slice(series.as_bytes())?;
    text.extend_from_slice(digits.as_bytes())?;
    text.push(b'\n')?;
    Ok(())
}

/// Appends a sample of a moment, in seconds since 1970; 0 if there is none.
pub(crate) fn put_moment(
    text: &mut Vec<u8>,
    series: &str,
    moment: Option<Moment>,
) -> Result<(), AllocError>
    ensures { OnOk result (text.new.items ≡ text.old.items ++ sample series.now (moment_or_zero moment)) }
{
    match moment {
        Some(at) => put_sample(text, series, at.secs()),
        None => put_sample(text, series, 0),
    }
}

/// Appends a sample of a time in microseconds, written in seconds.
pub(crate) fn put_seconds(text: &mut Vec<u8>, series: &str, micros: u64) -> Result<(), AllocError>
    ensures { OnOk result (text.new.items ≡ text.old.items ++ sample_of_seconds series.now micros) }
{
    let whole = Decimal::of(micros / 1_000_000);
    text.extend_from_slice(series.as_bytes())?;
    text.extend_from_slice(whole.as_bytes())?;
    text.extend_from_slice(&fraction(micros))?;
    text.push(b'\n')?;
    Ok(())
}

fn fraction(micros: u64) -> [u8; 7]
    ensures { result ≡ fraction_spec micros }
{
    [
        b'.',
        digit_at(micros, 100_000),
        digit_at(micros, 10_000),
        digit_at(micros, 1_000),
        digit_at(micros, 100),
        digit_at(micros, 10),
        digit_at(micros, 1),
    ]
}

fn digit_at(number: u64, power_of_ten: u64) -> u8
    requires { 0 < power_of_ten }
    ensures { result ≡ digit_spec number power_of_ten }
{
    b'0' + (number / power_of_ten % 10) as u8
}
