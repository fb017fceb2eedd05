//! Whether the machine's clock is too far ahead of the register's last command.

ghost use Rattle.std.specs.Prelude.{◌≡◌};
ghost use Rattle.reg_desk_metrics.specs.Ahead.{is_ahead as ahead, is_far as far};

use reg_core::Moment;

/// 30 days, in seconds. A CRL is valid for less than ten, so a right clock is this far ahead only if no CRL was issued for weeks.
const MOST_AHEAD: u64 = 2_592_000;

/// Whether the clock, `now`, is more than 30 days past the moment of the last accepted command (`last`), and also more than 30 days past `accepted`:
/// a moment that the operator has accepted with the line `accept-clock`, if any. `false` if `last` is 0: no command was accepted yet.
pub fn is_ahead(now: Moment, last: Moment, accepted: Option<Moment>) -> bool
    ensures { result ≡ ahead now last accepted }
{
    if last.secs() == 0 || !is_far(now, last) {
        return false;
    }
    match accepted {
        Some(moment) => is_far(now, moment),
        None => true,
    }
}

fn is_far(now: Moment, moment: Moment) -> bool
    ensures { result ≡ far now moment }
{
    now.secs().saturating_sub(moment.secs()) > MOST_AHEAD
}
