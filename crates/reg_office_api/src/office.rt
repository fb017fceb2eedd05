//! The trait `Office`, of types that keep a register's records and sign for it. `now` is the moment of a call, an `Outcome` its reply or `Fault`.

use crate::changes::Changes;
use crate::follow::FollowFault;
use crate::register_summary::{RegisterSummary, RequestLoad};
use crate::response::OcspResponse;
use reg_core::{Command, Fault, Label, Memory, Moment, Outcome, Query, Schedule, Serial};
use reg_core_lists::{Cursor, Page, Positions, ReceivedPage};
use reg_io::ReadyOrUnsigned;
use reg_ocsp::Draft;
use std::alloc::Global;

/// An office: the records of a register, and the signers of its CRLs and OCSP answers. A clause of each call but `failure_counts` relates the records
/// before the call to those after it (with `Looks` they are equal), if the disk has returned what was written to it ([`Leads`](crate::specs::Leads)).
pub trait Office {
    ghost use Rattle.std.specs.Prelude.{◌≡◌, ◌≤◌, ◌<◌, ◌↔◌, ◌^◌, ℕ, List, IfErr, IfOk, IsErrOf};
    ghost use Rattle.reg_office_api.specs.CallSteps.{BatchStep, CommandStep, QueryStep, OcspStep, CrlStep};
    ghost use Rattle.reg_office_api.specs.Drafts.{BeginStep, IsSignerFailure};
    ghost use Rattle.reg_office_api.specs.Follows.{ArePositionsOf, FollowStep, FormsSign};
    ghost use Rattle.reg_office_api.specs.Items.{items_of};
    ghost use Rattle.reg_office_api.specs.Leads.{Leads, Looks};
    ghost use Rattle.reg_office_api.specs.LookUps.{HasChanges, HasRequestLoad, HasLastMoment, HasLongest, HasOpen, HasSummary, IsOfStore, PageStep};
    ghost use Rattle.reg_office_api.specs.Settings.{SetsKeyIdentifier, ReplacesSchedule};
    ghost use Rattle.reg_office_api.specs.Signers.{OfficeSigners};
    ghost use Rattle.reg_core.specs.Records.{Records};
    ghost use Rattle.reg_core.specs.declared.refusal.Fault.TheVariants.{Signer};
    ghost use Rattle.reg_crl.specs.Signing.{Identity};

    /// Whether the disk has returned what was written to it.
    ghost is_clean: { Self → Type 0 };

    /// Whether the office has these signers and keeps these records.
    ghost stands: { OfficeSigners → Self → Records → Type 0 };

    /// `signs identity message signature`: the signer with this identity gave the signature for the message.
    ghost signs: { Identity → List ℕ → List ℕ → Type 0 };

    /// `forms identity message signature`: the signature has the form of one of the message by this identity.
    ghost forms: { Identity → List ℕ → List ℕ → Type 0 };

    /// How many failures the signer of the office's CRLs has counted; `answer_failures`: the signer of its OCSP answers.
    ghost failures: { Self → ℕ };

    ghost answer_failures: { Self → ℕ };

    /// Runs a command. Errors, after which the records are as before: the first refusal that applies; `Memory`; `Store`; `Signer`, only for
    /// the command `crl`, and only if the signer of CRLs counted a failure.
    fn run_one(&mut self, alloc: Global, now: Moment, command: &Command) -> Outcome
        ensures runs { Leads is_clean stands (CommandStep signs now command.now result) self.old self.new }
        ensures counts { IsErrOf result Signer → failures self.old < failures self.new };

    /// Runs commands in their order, each at its moment, in one transaction. A refused command changes nothing, and the next ones run. Errors, after
    /// which the records are as before: `Memory`; `Store`; `Signer` if a command issues a CRL, because a batch signs nothing.
    fn run_batch(
        &mut self,
        alloc: Global,
        commands: &[(Moment, Command)],
    ) -> Result<Vec<Outcome>, Fault>
        ensures { Leads is_clean stands (BatchStep signs commands.now result) self.old self.new };

    /// Answers a query. Errors: the first refusal that applies; `Memory`; `Store`.
    fn ask(&mut self, alloc: Global, now: Moment, query: &Query) -> Outcome
        ensures asks { Leads is_clean stands (QueryStep now query.now result) self.old self.new }
        ensures unsigned { ¬ (IsErrOf result Signer) };

    /// The OCSPResponse to the bytes of a request: signed, malformedRequest, internalError or tryLater ([`ResponseKind`](crate::ResponseKind)).
    fn ocsp(&mut self, alloc: Global, now: Moment, request: &[u8]) -> Result<Vec<u8>, Memory>
        ensures { Leads is_clean stands (OcspStep signs now request.now (items_of result))
            self.old self.new };

    /// Begins the response of [`Office::ocsp`]. `Unsigned`: a draft, for which the caller requests the signature. `Ready`: a response with the
    /// placeholder digest or without responseBytes. If a signature is needed and there is no signer: internalError, and a failure is counted.
    fn begin_ocsp(
        &mut self,
        alloc: Global,
        now: Moment,
        request: &[u8],
    ) -> Result<ReadyOrUnsigned<OcspResponse, Draft>, Memory>
        ensures begins { Leads is_clean stands (BeginStep signs now request.now result) self.old self.new }
        ensures counts { IfOk result (λ begun.
            IsSignerFailure begun ↔ (answer_failures self.old < answer_failures self.new)) }
        ensures never_falls { answer_failures self.old ≤ answer_failures self.new };

    /// The DER of the CRL (RFC 5280 5.1) with this number, or of the latest one. Errors: `NoCrl` if there is none; `Memory`; `Store`.
    fn crl_bytes(&mut self, alloc: Global, number: Option<u64>) -> Result<Vec<u8>, Fault>
        ensures { Leads is_clean stands (CrlStep number (items_of result)) self.old self.new };

    /// The DER of the TBSCertList (RFC 5280 5.1.2) that the command `crl` would sign, for a caller that requests the signature before the command.
    /// `None` if the command would be refused, if the signer of CRLs has no public key or is missing, if out of memory, or if the store fails.
    fn crl_message(&mut self, alloc: Global, now: Moment) -> Option<Vec<u8>>
        ensures { Leads is_clean stands (λ signers before after. after ≡ before) self.old self.new };

    /// The page at cursor `from`: of the next `most` rows, those that the cursor's list selects. Errors: `ClockEnd`, `ClockBack`; `Memory`, `Store`.
    fn page(&mut self, alloc: Global, now: Moment, from: Cursor, most: u64) -> Result<Page, Fault>
        ensures { Leads is_clean stands (PageStep now most from result) self.old self.new };

    /// The page of the changes feed after the positions of a client's copy; the first page for `None` (no copy yet). Errors: `Memory`, `Store`.
    fn changes(&mut self, alloc: Global, after: &Option<Positions>) -> Result<Changes, Fault>
        ensures looks { Looks is_clean stands (λ records. HasChanges records after.now result)
            self.old self.new }
        ensures faults { IfErr result IsOfStore };

    /// The positions of this register in its own changes feed. The call goes through the declined requests. Errors: `Memory`, `Store`.
    fn positions(&mut self, alloc: Global) -> Result<Positions, Fault>
        ensures looks { Looks is_clean stands (λ records. IfOk result (ArePositionsOf records))
            self.old self.new }
        ensures faults { IfErr result IsOfStore };

    /// Enters pages of the changes feed of a register of which this one is a copy: all rows in one transaction, in an order in which a register can
    /// have accepted the commands that entered them. `from` has this register's positions; the pages go on from there, and the last one ends the
    /// feed. Returns the positions after the pages. A CRL must have the octets that the records give for it, with a signature in the form of one by
    /// the signer of CRLs, which is not asked. At an error nothing changes.
    fn follow(
        &mut self,
        alloc: Global,
        from: &Positions,
        pages: &[ReceivedPage],
    ) -> Result<Positions, FollowFault>
        ensures { FormsSign signs forms → Leads is_clean stands
            (λ signers. FollowStep from.now pages.now result) self.old self.new };

    /// The register's summary. Errors: `Memory`, `Store`.
    fn summary(&mut self) -> Result<RegisterSummary, Fault>
        ensures looks { Looks is_clean stands (λ records. HasSummary records result) self.old self.new }
        ensures faults { IfErr result IsOfStore };

    /// The last accepted moment: that of the last accepted command, or [`Moment::EPOCH`] if there is none. Errors: `Memory`, `Store`.
    fn last(&mut self) -> Result<Moment, Fault>
        ensures looks { Looks is_clean stands (λ records. HasLastMoment records result) self.old self.new }
        ensures faults { IfErr result IsOfStore };

    /// How many requests for revocation are open: not declined, and their certificates good. Scans all requests. Errors: `Memory`, `Store`.
    fn open_count(&mut self, now: Moment) -> Result<u64, Fault>
        ensures looks { Looks is_clean stands (λ records. HasOpen records now result) self.old self.new }
        ensures faults { IfErr result IsOfStore };

    /// The last accepted moment, how full the requests table is, and how many requests for a serial number are open, counted up to `most` (below
    /// 2^63, as SQL has no larger number). The call may go through all requests. Errors: `Memory`, `Store`.
    fn request_load(&mut self, now: Moment, serial: Serial, most: u64) -> Result<RequestLoad, Fault>
        requires { most < 2 ^ 63 }
        ensures looks { Looks is_clean stands (λ records. HasRequestLoad records now serial most result)
            self.old self.new }
        ensures faults { IfErr result IsOfStore };

    /// The most days of validity that an order and the schedule (see below) allow for a notBefore. `None`: no such order. Errors: `Memory`, `Store`.
    fn longest(&mut self, order: u64, not_before: Moment) -> Result<Option<u64>, Fault>
        ensures looks { Looks is_clean stands
            (λ records. HasLongest records order not_before result) self.old self.new };

    /// Sets the schedule of the longest validities, in days by notBefore. This is no command: no other record changes, not even the last accepted
    /// moment. After an error, the records are as before. Errors: `Memory`, `Store`.
    fn set_schedule(&mut self, alloc: Global, schedule: Schedule) -> Result<(), Fault>
        ensures sets { Leads is_clean stands (λ signers. ReplacesSchedule schedule result)
            self.old self.new }
        ensures faults { IfErr result IsOfStore };

    /// Sets the key identifier (1 to 64 octets) that the issuer's CRLs have from the next one on (RFC 5280 5.2.1). As for
    /// [`Office::set_schedule`], no other record changes, and after an error the records are as before. Errors: `Memory`, `Store`.
    fn set_key_identifier(&mut self, alloc: Global, octets: Label) -> Result<(), Fault>
        ensures sets { Leads is_clean stands (λ signers. SetsKeyIdentifier octets result)
            self.old self.new }
        ensures faults { IfErr result IsOfStore };

    /// How many failures the signer of CRLs (first) and the signer of OCSP answers have counted; the same count twice if one signer makes both.
    fn failure_counts(&self) -> (u64, u64)
        ensures crls { result.0 ≡ failures self.now }
        ensures answers { result.1 ≡ answer_failures self.now };
}
