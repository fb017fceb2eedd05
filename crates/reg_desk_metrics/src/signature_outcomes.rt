//! Counts the outcomes of signature requests, and keeps since when signatures or the store fail.

ghost use Rattle.std.specs.Prelude.{◌≡◌};
ghost use Rattle.reg_desk_metrics.specs.Tallies.{nothing_requested, signing_after, store_after as kept_after};

use reg_core::Moment;
use reg_office_api::{SignatureOutcome, StoreEffect};

/// Signatures of one kind (CRLs or OCSP responses): how many were received or failed, and when last. A placeholder digest counts as `received`.
#[derive(Clone, Copy, PartialEq, Eq)]
pub(crate) struct SignatureCounts {
    pub(crate) received: u64,
    pub(crate) failed: u64,
    pub(crate) last: Option<Moment>,
    pub(crate) last_failed: Option<Moment>,
    /// Since when signatures fail; `None` if the last one was received, or none was requested.
    pub(crate) failing_since: Option<Moment>,
}

impl SignatureCounts {
    pub(crate) fn nothing() -> SignatureCounts
        ensures { result ≡ nothing_requested }
    {
        SignatureCounts {
            received: 0,
            failed: 0,
            last: None,
            last_failed: None,
            failing_since: None,
        }
    }

    /// The counts after a signature with this outcome at `now`.
    pub(crate) fn after(self, signature_outcome: SignatureOutcome, now: Moment) -> SignatureCounts
        ensures { result ≡ signing_after signature_outcome now self }
    {
        match signature_outcome {
            SignatureOutcome::NotRequested => self,
            SignatureOutcome::Made => SignatureCounts {
                received: self.received.saturating_add(1),
                last: Some(now),
                failing_since: None,
                ..self
            },
            SignatureOutcome::Failed => SignatureCounts {
                failed: self.failed.saturating_add(1),
                last_failed: Some(now),
                failing_since: self.failing_since.or(Some(now)),
                ..self
            },
        }
    }
}

/// Since when the store fails. `since` is the value before an exchange or line with this effect. A read ends no failure: writes may still fail.
pub(crate) fn store_after(since: Option<Moment>, effect: StoreEffect, now: Moment) -> Option<Moment>
    ensures { result ≡ kept_after effect now since }
{
    match effect {
        StoreEffect::Unwritten => since,
        StoreEffect::Written => None,
        StoreEffect::Failed => since.or(Some(now)),
    }
}
