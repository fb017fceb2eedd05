//! Converts the seconds of a clock to a moment.

ghost use Rattle.std.specs.Prelude.{◌≡◌};
ghost use Rattle.reg_desk_service.specs.Clocks.{IsMomentOfSeconds};

use reg_core::Moment;

/// The last moment, 9999-12-31T23:59:59Z. `of_secs` returns `Some` for it, so `last_moment` never returns `EPOCH`.
const LAST_SECOND: u64 = 253_402_300_799;

/// The moment `seconds` after the start of 1970 (UTC), or the last moment if that would be in the year 10000 or later.
pub(crate) fn moment_at(seconds: u64) -> Moment
    ensures { IsMomentOfSeconds seconds result }
{
    match Moment::of_secs(seconds) {
        Some(moment) => moment,
        None => last_moment(),
    }
}

fn last_moment() -> Moment
    ensures { result ≡ 253402300799 }
{
    match Moment::of_secs(LAST_SECOND) {
        Some(moment) => moment,
        None => Moment::EPOCH,
    }
}
