//! Each function here does nothing when it runs: its contract is a law, which `rt check` proves.

ghost use Rattle.std.specs.Prelude.{ℕ};
ghost use Rattle.reg_core_laws.specs.Headline.{CreatedSound, KeepsSound, RunsInParts, HasExactlyOneStatus, CountsMoveExactly, ListsRevoked, RefusalsChangeNothing};
ghost use Rattle.reg_core_laws.specs.History.{HistoryIsKept};
ghost use Rattle.reg_office.specs.Agreement.{OcspAgrees};
ghost use Rattle.reg_office.specs.Following.{FollowsDigest, RunsSince, SignedOrDigest, Signed};
ghost use Rattle.reg_office.specs.OpenedAgain.{OpensAfterAPrefix, OpensBeforeOrAfter};
ghost use Rattle.reg_office.specs.StoppedFollowers.{StopsKeepFollowing};
ghost use Rattle.reg_office_reads.specs.Decisions.{SubscribersAreSteps, OrdersAreSteps, RegistrationsAreSteps, RequestsAreSteps, DeclinesAreSteps, RevocationsAreSteps, CrlsAreSteps};
ghost use Rattle.reg_office.specs.Shown.{SoundRun, AcceptedRevocation, IsShownEverywhere, WasRevoked, IsNowhereShown};

use reg_crl::{CrlSigner, Signer};
use sqlite::Alter;

/// The main theorem, for any signer (RFC 5280 3.3, RFC 6960 2.2). A new register is sound (its rows fit together: reg_core `Sound`), and runs (lists
/// of commands) keep it sound. The other clauses are about sound registers and runs. In both, CRLs below some number may have the placeholder digest,
/// made without a key. `parts`: a run can be cut in two. `since`: the clauses apply to a run from a sound register if the signer signs its new CRLs.
pub fn headline<S: Signer>()
    ensures created { SignedOrDigest S.Signer CreatedSound }
    ensures since { (signer : S) → RunsSince S.signs (S.identity signer) }
    ensures sound { SignedOrDigest S.Signer KeepsSound }
    ensures parts { SignedOrDigest S.Signer RunsInParts }
    ensures exactly_one { SignedOrDigest S.Signer HasExactlyOneStatus }
    ensures counts { SignedOrDigest S.Signer CountsMoveExactly }
    ensures lists { SignedOrDigest S.Signer ListsRevoked }
    ensures history { SignedOrDigest S.Signer HistoryIsKept }
    ensures statuses { OcspAgrees }
    ensures refused { SignedOrDigest S.Signer RefusalsChangeNothing }
{
    reg_core_laws::laws::headline::<CrlSigner<S>>();
    reg_core_laws::laws::history::<CrlSigner<S>>();
    statuses_agree();
}

/// A register can switch from the placeholder digest to a key: records that are sound for the digest are sound for any next signer.
pub fn a_key_follows_the_digest<C: Alter, S: Signer>()
    ensures { FollowsDigest C.Store S.signs }
{}

/// OCSP statuses agree with the register, and with the entries of its CRLs (RFC 6960 2.2, RFC 5280 5.3).
pub fn statuses_agree()
    ensures { OcspAgrees }
{}

/// Each pure decision of `reg_core`, over the rows that sound records have for a command, is the step that the model defines for the command.
pub fn decisions_are_steps<S: Signer>()
    ensures subscribers { Signed S.Signer SubscribersAreSteps }
    ensures orders { Signed S.Signer OrdersAreSteps }
    ensures registrations { Signed S.Signer RegistrationsAreSteps }
    ensures requests { Signed S.Signer RequestsAreSteps }
    ensures declines { Signed S.Signer DeclinesAreSteps }
    ensures revocations { Signed S.Signer RevocationsAreSteps }
    ensures crls { Signed S.Signer CrlsAreSteps }
{}

/// A revoked certificate is shown as revoked from its revocation on: by its status, by OCSP (RFC 6960 2.2), and by each later CRL up to and
/// including the first one past its notAfter (RFC 5280 3.3).
pub fn a_revoked_certificate_is_shown_as_revoked_everywhere<S: Signer>()
    ensures { (signer : S) (run : SoundRun S.signs (S.identity signer)) (its : AcceptedRevocation run)
        → IsShownEverywhere its }
{
    headline::<S>();
}

/// Only serial numbers that were revoked are shown as revoked by statuses, OCSP responses and CRLs.
pub fn nothing_else_is_shown_as_revoked<S: Signer>()
    ensures { (signer : S) (run : SoundRun S.signs (S.identity signer)) (serial : ℕ)
        → ¬ (WasRevoked run serial) → IsNowhereShown run serial }
{
    headline::<S>();
    reg_core_laws::laws::revocations::<CrlSigner<S>>();
}

/// A register opened after a stop (a crash or power failure) in a command shows the records before it, or those after its acceptance: both are sound.
pub fn a_register_opened_after_a_stop_stands_before_or_after<C: Alter, S: Signer>()
    ensures { OpensBeforeOrAfter C.Store S.signs }
{}

/// A register opened after a stop in a run shows the records after a prefix of the commands. Each command reported as accepted is in this prefix.
pub fn a_register_opened_after_a_stop_stands_after_a_prefix<C: Alter, S: Signer>()
    ensures { OpensAfterAPrefix C.Store S.signs }
{}

/// If a follower's machine stops at any moment, the register that is opened again has records that its leader had, in no earlier state than the
/// follower had before. From these on the law holds again: so over any runs of the follower and any stops between them.
pub fn a_follower_goes_on_after_a_stop<C: Alter, S: Signer>()
    ensures { StopsKeepFollowing C.Store S.signs }
{
    reg_office_api::laws::followers();
}
