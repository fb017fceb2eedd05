//! Each function here does nothing, or only calls other such functions: its contract is a law, which the prover checks.

ghost use Rattle.reg_office_api.specs.FollowedLeaders.{CallsFollowLeader, FollowsLeader, ReadsLeadersPage, StepsMakeLeader};

use reg_core::SignsCrls;

/// A follower has records that its leader had. It starts with such records, and receives pages of the leader's feed from its own positions on, up to
/// the end. Meanwhile the leader may add rows, decline requests and change its settings. If [`crate::Office::follow`] enters the pages, the
/// follower's records are exactly those of which the leader made the last page. `calls`: so any number of calls lead to records that the leader had,
/// and to no earlier ones. `read`: the text of a leader's page is read as that page.
pub fn followers()
    ensures one { FollowsLeader }
    ensures calls { CallsFollowLeader }
    ensures read { ReadsLeadersPage }
{}

/// The records of a register are those of a leader, if they are sound at first, and lists of commands and new schedules change them.
pub fn leaders<S: SignsCrls>()
    ensures { (signer : S) → StepsMakeLeader (S.signed signer) }
{
    reg_core_laws::laws::headline::<S>();
    reg_core_laws::laws::additions::<S>();
}
