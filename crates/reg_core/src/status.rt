ghost use Rattle.std.specs.Prelude.{◌≡◌, ℕ, ◌<◌, IfSome};
ghost use Rattle.reg_core.specs.Calendar.{clock_end};
ghost use Rattle.reg_core.specs.Status.{status_by};
ghost use Rattle.reg_core.specs.Due.{due_by};

use crate::command::Status;
use crate::moment::Moment;
use crate::policy::Policy;
use crate::rows::{CertRow, CrlRow, RevocationRow};

/// The next CRL is due at most a week after thisUpdate of the latest one (CA/Browser Forum Baseline Requirements 4.9.7).
const SECONDS_OF_WEEK: u64 = 604_800;
/// The next CRL is due at most a day after a revocation that no CRL has listed (Baseline Requirements 4.9.7).
const SECONDS_OF_DAY: u64 = 86_400;

/// The status of a serial number at `now`. `certificate` and `revocation` are those with this serial number, each `None` if there is none.
pub fn status_of(
    now: Moment,
    certificate: Option<CertRow>,
    revocation: Option<RevocationRow>,
) -> Status
    ensures { result ≡ status_by now certificate revocation }
{
    match (certificate, revocation) {
        (None, _) => Status::Unknown,
        (Some(_), Some(revoked)) => Status::Revoked {
            at: revoked.at,
            reason: revoked.reason,
        },
        (Some(certificate), None) if now > certificate.not_after => Status::Expired,
        (Some(_), None) => Status::Good,
    }
}

/// When the next CRL is due, whichever is first: a week after thisUpdate of the latest one; its nextUpdate; or a day after `earliest_unlisted`, the
/// moment of the earliest revocation that no CRL has listed. `None` if there is no CRL: then one is due at once.
pub fn due_of(
    policy: &Policy,
    latest: Option<CrlRow>,
    earliest_unlisted: Option<Moment>,
) -> Option<Moment>
    requires latest { IfSome latest (λ crl. crl.this_update < clock_end) }
    requires unlisted { IfSome earliest_unlisted (λ at. at < clock_end) }
    ensures { result ≡ due_by policy.now latest earliest_unlisted }
{
    let latest = latest?;
    let regular = latest
        .this_update
        .plus(SECONDS_OF_WEEK.min(policy.crl_life()));
    match earliest_unlisted {
        Some(at) => Some(regular.min(at.plus(SECONDS_OF_DAY))),
        None => Some(regular),
    }
}
