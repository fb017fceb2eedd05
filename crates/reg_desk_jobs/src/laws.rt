//! A law (a proved theorem) about the job `follow`. The function has no effect: its contract is the law. It calls functions that ensure facts for it.

ghost use Rattle.reg_desk_jobs.specs.FollowedRuns.{PagesFollowLeader, RunsEnterPages, RunsFollowLeader, ServesByRun};

use reg_desk_service::Machine;
use std::io::Write;

/// A follower has records that its leader had. `enters`: whatever requests and lines clients send, and whenever the desk of [`crate::follow`] works
/// between them, it changes its records only by pages that it enters, each time those after the positions that it reached last. `serves`: so does a
/// run of the job over its register, from the positions of the records on. `pages`: if the records before were a leader's, and these are pages of its
/// feed, the records after are exactly those of which the leader made the last page, in no earlier state. No row and no CRL was lost or changed.
/// `stops`: the same over runs of the job, if each finds the records that the one before left. The first inputs of a run are a run, too: so this
/// holds at every moment. The law presumes that the disk returned what was written, and that each signature in the form of one counts as one
/// (`FormsSign`).
pub fn followers<M: Machine, W: Write>()
    ensures enters { RunsEnterPages M.Machine M.Office.Office }
    ensures serves { ServesByRun M.Machine M.Office.Office W.contents }
    ensures pages { PagesFollowLeader }
    ensures stops { RunsFollowLeader }
{
    reg_office_api::laws::followers();
    let _ = reg_lines::read_line(b"");
}
