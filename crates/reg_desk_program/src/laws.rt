//! Laws: functions that do nothing when they run, and whose contracts state what the prover has proved.

ghost use Rattle.reg_office.specs.Following.{IsDigestSigner};
ghost use Rattle.reg_desk_program.specs.Audited.{FoundSound, StandsOnceAudited};
ghost use Rattle.reg_desk_program.specs.FollowedFiles.{RunsKeepFollowing};
ghost use Rattle.reg_desk_program.specs.Stops.{LeavesWhatWasReported};
ghost use Rattle.reg_crl_signer.specs.KeyOrDigestSignatures.{SignsByKeyOrDigest, digest};

use reg_crl::Signer;
use reg_crl_signer::Device;
use sqlite_disk::Disk;

/// If [`Machine::audit_in`](reg_desk_service::Machine::audit_in) of the [`SystemHost`](crate::SystemHost) returned `Sound`, the file's tables show
/// sound records, and the derived tables (states, counts, CRL entries) agree with them. If an office opens the file with these tables, the records
/// stand in it (`Stands`: its tables show them, and they are sound): the contracts and laws of [`reg_office`] hold for them. The law assumes
/// (`IsPresumed`) what no audit can check: each row of the table `listed` stores its last column (else it reads as NULL), and no call left the
/// connection's transaction broken. It also assumes that the signer signed the stored CRLs (the first ones may have a placeholder digest instead),
/// because an audit verifies no signature. The disks (`A` of the audit, `D` of the office) must have returned what was written.
pub fn a_register_that_was_found_sound_stands<A: Disk, D: Disk, S: Signer>()
    ensures { (found : FoundSound A.Disk) → StandsOnceAudited D.Disk S.signs found }
{}

/// If a register in a file has no signer with a key, each of its signatures is a placeholder digest. So the register may switch from the digest to a
/// key, by [`reg_office::laws::a_key_follows_the_digest`].
pub fn without_a_key_only_digests_are_made<D: Device>()
    ensures { IsDigestSigner (SignsByKeyOrDigest D.answers) digest }
{}

/// If the machine stops at any moment of a job, the register has the records that the job's replies reported, or those after the interrupted call. If
/// the job closed the register without an error, it has those that the replies reported. `begins` and so on are fields of `LeavesWhatWasReported`.
///
/// From the opening of a register to its closing, a job ([`perform`](crate::perform)) changes its records only as the replies report (`UsesRegister`
/// of reg_desk_service). A register that is opened has the sound records that its file showed, also in an older version (`begins`). The machine may
/// stop in any later call, or after it. Then the disk refuses each call, and no client gets a reply: a reply is written only after its call. A
/// register that is opened again from what the disk kept has the records from before the interrupted call, or those after it (`leaves`). The
/// interrupted call is the last one (`call`), or an earlier one in which a failure of the disk closed the connection, so that no later call changed
/// the records (`calls`). No reply accepted the commands of that call, so no accepted command is lost. Of the commands without an accepting reply, at
/// most those of that call (such as a batch) were carried out. The pages that a follower enters together are one call, too. If a job closes the files
/// without an error at its end, a register that is opened from them has the records from before the closing, even if the machine stops then
/// (`closes`). This holds if the connection obeys its schema: `IsLive`, the clause `live` of `Connection::schema`.
pub fn a_stop_leaves_what_was_reported<D: Disk, S: Signer>()
    ensures { LeavesWhatWasReported D.Disk S.signs }
{}

/// After any runs of a follower over its file, each of which ends or is stopped at any moment, the file has records that the leader had, in no
/// earlier state from run to run. A run finds in the file what the one before left: this is proved, and no premise. The law assumes that each run
/// opens what the disk kept, for a signer of CRLs for which the records are sound, and that its pages are of the leader's feed. Between the calls of
/// a run the signer of CRLs may become another one.
pub fn followers_go_on<D: Disk, S: Signer>()
    ensures { RunsKeepFollowing D.Disk S.signs }
{
    a_stop_leaves_what_was_reported::<D, S>();
    reg_office_api::laws::followers();
}
