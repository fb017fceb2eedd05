ghost use Rattle.std.specs.Prelude.{◌≡◌, None};
ghost use Rattle.reg_office_reads.specs.declared.responder.Responder.TheVariants.{Issuer};

use crate::crls::{issue_crl, latest_der, next_message, numbered_der};
use crate::follow::{no_page, own_positions};
use crate::identifiers::set_key_identifier;
use reg_core::{Command, Fault, Label, Memory, Moment, Outcome, Query, Refusal, Schedule, Serial};
use reg_core_lists::{Cursor, Page, Positions, ReceivedPage};
use reg_crl::Signer;
use reg_io::ReadyOrUnsigned;
use reg_ocsp::Draft;
use reg_office_api::{Changes, FollowFault, OcspResponse, RegisterSummary, RequestLoad};
use reg_office_reads::{
    Responder, answer, begin_ocsp, changes_in, decide, failures_in, last_in, longest_in,
    open_count_in, page, request_load_in, sign_draft, summary_in,
};
use reg_store::{DatabaseFault, Store};
use sqlite::Alter;
use std::alloc::Global;

/// A register's tables (`store`), the signer of its CRLs, and the responder to OCSP requests: that signer, or a delegate with its own signer.
#[derive(Drop)]
pub struct Office<C: Alter, S: Signer> {
    pub store: Store<C>,
    pub signer: S,
    pub responder: Responder<S>,
}

impl<C: Alter, S: Signer + Drop> Office<C, S> {
    /// The store and the signer of CRLs, unchanged. The responder is dropped, and with it the signer of a [`Responder::Delegate`].
    pub fn into_parts(self) -> (Store<C>, S)
        ensures store { result.0 ≡ self.store }
        ensures signer { result.1 ≡ self.signer }
    {
        let Office {
            store,
            signer,
            responder: _,
        } = self;
        (store, signer)
    }
}

impl<C: Alter, S: Signer> Office<C, S> {
    /// An office over a store and a signer, which also signs OCSP responses. These include no certificate.
    pub fn new(store: Store<C>, signer: S) -> Office<C, S>
        ensures store { result.store ≡ store }
        ensures signer { result.signer ≡ signer }
        ensures responder { result.responder ≡ Issuer None }
    {
        Office::answering(store, signer, Responder::Issuer(None))
    }

    /// An office over a store and a signer, with this responder to OCSP requests.
    pub fn answering(store: Store<C>, signer: S, responder: Responder<S>) -> Office<C, S>
        ensures store { result.store ≡ store }
        ensures signer { result.signer ≡ signer }
        ensures responder { result.responder ≡ responder }
    {
        Self {
            store,
            signer,
            responder,
        }
    }
}

// In the clauses, `OfficeLeads` relates the records before a call to those after it, `OfficeReports` says that they are the same, and `OfficeLooks`
// also that the call changes no table and commits nothing. `OfficeStops` says which records a stop of the machine in the call leaves.
impl<C: Alter, S: Signer> reg_office_api::Office for Office<C, S> {
    ghost use Rattle.std.specs.Prelude.{◌≤◌, ◌<◌, ◌↔◌, ◌^◌, false, Err, IsErrOf, OnOk, OnErr, IfOk, IfErr};
    ghost use Rattle.sqlite.specs.Held.{state};
    ghost use Rattle.sqlite.specs.State.{HasCleanDisk};
    ghost use Rattle.reg_core.specs.Calendar.{clock_end};
    ghost use Rattle.reg_core.specs.Changes.{with_schedule};
    ghost use Rattle.reg_core.specs.Records.{Records};
    ghost use Rattle.reg_core.specs.declared.refusal.Fault.TheVariants.{Refused, Signer as SignerFailed};
    ghost use Rattle.reg_core.specs.declared.refusal.Refusal.TheVariants.{ClockEnd};
    ghost use Rattle.reg_core_lists.specs.Pages.{IsPageOfSoundRows};
    ghost use Rattle.reg_ocsp.specs.Response.{refusal_response};
    ghost use Rattle.reg_ocsp.specs.declared.response.RefusalStatus.TheVariants.{Malformed, Internal};
    ghost use Rattle.reg_office_api.specs.Answered.{IsAnswered, IsGiven};
    ghost use Rattle.reg_office_api.specs.CallSteps.{BatchStep, CommandStep, QueryStep, OcspStep, CrlStep};
    ghost use Rattle.reg_office_api.specs.Drafts.{BeginStep, IsSignerFailure};
    ghost use Rattle.reg_office_api.specs.Follows.{ArePositionsOf, FollowStep, FormsSign};
    ghost use Rattle.reg_office_api.specs.Items.{items_of};
    ghost use Rattle.reg_office_api.specs.LookUps.{HasChanges, HasLastMoment, HasLongest, HasOpen, HasRequestLoad, HasSummary, IsOfStore, PageStep};
    ghost use Rattle.reg_office_api.specs.Ocsp.{IsNoOcspRequest, IsOcspReply};
    ghost use Rattle.reg_office_api.specs.Settings.{SetsKeyIdentifier, ReplacesSchedule};
    ghost use Rattle.reg_store_changes.specs.AfterStoppedChange.{IsScheduled};
    ghost use Rattle.reg_store_changes.specs.WithinTransactions.{StaysIdle};
    ghost use Rattle.reg_der.specs.Issuers.{with_key_identifier};
    ghost use Rattle.reg_store_tables.specs.Stays.{Changed, Stays};
    ghost use Rattle.reg_office.specs.AfterStoppedCommand.{IsIdentified, batch_call, command_call, follow_call, identifier_call, schedule_call};
    ghost use Rattle.reg_office_reads.specs.Answering.{SignerHasFailed};
    ghost use Rattle.reg_office_reads.specs.Beginning.{IsBegun, RefusesRequest};
    ghost use Rattle.reg_office.specs.Calls.{OfficeLeads, OfficeLooks, OfficeStops, OfficeReports, RanIn, SignsNothing, StandsFor, StandsIn, answer_failures_in, seen, store_result};
    ghost use Rattle.reg_office_reads.specs.Faults.{IsTableFault};

    ghost is_clean = { λ office. HasCleanDisk (state C.Store office.store) };

    ghost stands = { λ signers office records.
        StandsFor C.Store S.signs (seen S.Signer office) signers records };

    ghost signs = { S.signs };

    ghost forms = { S.forms };

    ghost failures = { λ office. S.failure_count office.signer };

    ghost answer_failures = { λ office. answer_failures_in S.Signer office };

    /// If a disk failure during the commit closes the database connection, the register has all of the change or none of it when it is opened again
    /// (clause `ran`: the field `changed` of `IsCommandRun`). Until then no later call changes the records (`stops`).
    fn run_one(&mut self, alloc: Global, now: Moment, command: &Command) -> Outcome
        ensures runs { OfficeLeads C.Store S.Signer
            (CommandStep S.signs now command.now result) self.old self.new }
        ensures counts { IsErrOf result SignerFailed
            → SignerHasFailed S.Signer self.old.signer self.new.signer }
        ensures ran { RanIn C.Store S.Signer now command.now result self.old self.new }
        ensures stops { OfficeStops C.Store S.Signer (command_call now command.now) result
            (CommandStep S.signs now command.now result) self.old self.new }
        ensures ended { clock_end ≤ now → (result ≡ Err (Refused ClockEnd)) × (self.new ≡ self.old) }
        ensures same_responder { self.new.responder ≡ self.old.responder }
    {
        if now >= Moment::CLOCK_END {
            return Err(Fault::Refused(Refusal::ClockEnd));
        }
        match *command {
            Command::Crl => issue_crl(&mut self.store, &mut self.signer, alloc, now),
            // No `?` here: the prover has no rule for `?` on a change that holds a `'static` reference.
            _ => match decide(&mut self.store, now, command) {
                Ok((reply, change)) => {
                    self.store.apply(now, &change)?;
                    Ok(reply)
                }
                Err(fault) => Err(fault),
            },
        }
    }

    /// After a disk failure during the commit: as for `run_one`, with all of the batch or none of it (`stops`).
    fn run_batch(
        &mut self,
        alloc: Global,
        commands: &[(Moment, Command)],
    ) -> Result<Vec<Outcome>, Fault>
        ensures runs { OfficeLeads C.Store S.Signer (BatchStep S.signs commands.now result)
            self.old self.new }
        ensures stops { OfficeStops C.Store S.Signer (batch_call commands.now) result
            (BatchStep S.signs commands.now result) self.old self.new }
        ensures idle { StaysIdle C.Store self.old.store self.new.store }
    {
        match self.store.begin() {
            Ok(()) => {}
            Err(fault) => return Err(Fault::from(fault)),
        }
        match self.run_each(alloc, commands) {
            Ok(outcomes) => match self.store.end(Ok(())) {
                Ok(()) => Ok(outcomes),
                Err(fault) => Err(Fault::from(fault)),
            },
            Err(fault) => {
                // Rolls back. `end` takes a `DatabaseFault`, which `fault` may not be, and returns it; that result is dropped.
                let _ = self.store.end(Err(DatabaseFault::Store));
                Err(fault)
            }
        }
    }

    fn ask(&mut self, alloc: Global, now: Moment, query: &Query) -> Outcome
        ensures asks { OfficeLeads C.Store S.Signer
            (QueryStep now query.now result) self.old self.new }
        ensures unsigned { ¬ (IsErrOf result SignerFailed) }
        ensures looks { OfficeLooks C.Store S.Signer
            (λ records. IsAnswered records now query.now result) self.old self.new }
        ensures untouched { SignsNothing self.old self.new }
        ensures ended { clock_end ≤ now → (result ≡ Err (Refused ClockEnd)) × (self.new ≡ self.old) }
        ensures faults { IfErr result IsTableFault }
    {
        if now < Moment::CLOCK_END {
            return answer(&mut self.store, now, query);
        }
        Err(Fault::Refused(Refusal::ClockEnd))
    }

    /// As in the trait, with malformedRequest exactly for bytes with `IsNoOcspRequest` (clause `malformed`).
    fn ocsp(&mut self, alloc: Global, now: Moment, request: &[u8]) -> Result<Vec<u8>, Memory>
        ensures answers { OfficeLeads C.Store S.Signer
            (OcspStep S.signs now request.now (items_of result)) self.old self.new }
        ensures malformed { IfOk result (λ answer.
            (answer.items ≡ refusal_response Malformed) ↔ IsNoOcspRequest request.now) }
        ensures looks { OfficeLooks C.Store S.Signer (λ records. IfOk result (λ answer.
            IsOcspReply S.signs (seen S.Signer self.old).1.answers records now request.now answer.items))
            self.old self.new }
        ensures failed { answer_failures_in S.Signer self.old < answer_failures_in S.Signer self.new
            → IfOk result (λ answer. answer.items ≡ refusal_response Internal) }
    {
        match self.begin_ocsp(alloc, now, request)? {
            ReadyOrUnsigned::Ready(response) => Ok(response.bytes),
            ReadyOrUnsigned::Unsigned(draft) => {
                sign_draft(alloc, &mut self.signer, &mut self.responder, &draft)
            }
        }
    }

    fn begin_ocsp(
        &mut self,
        alloc: Global,
        now: Moment,
        request: &[u8],
    ) -> Result<ReadyOrUnsigned<OcspResponse, Draft>, Memory>
        ensures begins { OfficeLeads C.Store S.Signer
            (BeginStep S.signs now request.now result) self.old self.new }
        ensures counts { IfOk result (λ begun. IsSignerFailure begun
            ↔ (answer_failures_in S.Signer self.old < answer_failures_in S.Signer self.new)) }
        ensures never_falls { answer_failures_in S.Signer self.old ≤ answer_failures_in S.Signer self.new }
        ensures refuses { IfOk result (RefusesRequest request.now) }
        ensures looks { OfficeLooks C.Store S.Signer
            (λ records. IfOk result
            (IsBegun S.signs (seen S.Signer self.old).1.answers records now request.now)) self.old self.new }
    {
        begin_ocsp(
            alloc,
            &mut self.store,
            &mut self.signer,
            &mut self.responder,
            now,
            request,
        )
    }

    fn crl_bytes(&mut self, alloc: Global, number: Option<u64>) -> Result<Vec<u8>, Fault>
        ensures gives { OfficeLeads C.Store S.Signer
            (CrlStep number (items_of result)) self.old self.new }
        ensures looks { OfficeLooks C.Store S.Signer
            (λ records. IsGiven records number (items_of result)) self.old self.new }
        ensures untouched { SignsNothing self.old self.new }
        ensures faults { IfErr result IsTableFault }
    {
        match number {
            Some(number) => numbered_der(&mut self.store, number),
            None => latest_der(&mut self.store),
        }
    }

    fn crl_message(&mut self, alloc: Global, now: Moment) -> Option<Vec<u8>>
        ensures stays { OfficeLeads C.Store S.Signer (λ signers before after. after ≡ before)
            self.old self.new }
        ensures looks { OfficeLooks C.Store S.Signer (λ records. Unit {0}) self.old self.new }
        ensures untouched { SignsNothing self.old self.new }
    {
        // Without a public key there is no signer process, from which a caller could request the signature first.
        if self.signer.public_key().is_none() || now >= Moment::CLOCK_END {
            return None;
        }
        match next_message(&mut self.store, alloc, self.signer.algorithm(), now) {
            Ok(message) => Some(message),
            Err(_) => None,
        }
    }

    fn page(&mut self, alloc: Global, now: Moment, from: Cursor, most: u64) -> Result<Page, Fault>
        ensures pages { OfficeLeads C.Store S.Signer
            (PageStep now most from result) self.old self.new }
        ensures looks { OfficeLooks C.Store S.Signer
            (λ records. IsPageOfSoundRows records now most from result) self.old self.new }
        ensures untouched { SignsNothing self.old self.new }
        ensures faults { IfErr result IsTableFault }
    {
        page(&mut self.store, alloc, now, from, most)
    }

    fn changes(&mut self, alloc: Global, after: &Option<Positions>) -> Result<Changes, Fault>
        ensures looks { OfficeReports C.Store S.Signer
            (λ records. HasChanges records after.now result) self.old self.new }
        ensures looked { OfficeLooks C.Store S.Signer
            (λ records. HasChanges records after.now result) self.old self.new }
        ensures faults { IfErr result IsOfStore }
    {
        changes_in(&mut self.store, alloc, after)
    }

    fn positions(&mut self, alloc: Global) -> Result<Positions, Fault>
        ensures looks { OfficeReports C.Store S.Signer
            (λ records. IfOk result (ArePositionsOf records)) self.old self.new }
        ensures looked { OfficeLooks C.Store S.Signer
            (λ records. IfOk result (ArePositionsOf records)) self.old self.new }
        ensures faults { IfErr result IsOfStore }
    {
        own_positions(&mut self.store, alloc)
    }

    /// If a disk failure during the commit closes the connection, the register has all of the pages or none of them when it is opened again. Until
    /// then no later call changes the records (`stops`).
    fn follow(
        &mut self,
        alloc: Global,
        from: &Positions,
        pages: &[ReceivedPage],
    ) -> Result<Positions, FollowFault>
        ensures follows { FormsSign S.signs S.forms → OfficeLeads C.Store S.Signer
            (λ signers. FollowStep from.now pages.now result) self.old self.new }
        ensures stops { FormsSign S.signs S.forms → OfficeStops C.Store S.Signer (follow_call pages.now)
            (store_result result) (λ signers. FollowStep from.now pages.now result) self.old self.new }
        ensures idle { StaysIdle C.Store self.old.store self.new.store }
    {
        let Some((page, earlier)) = pages.split_last() else {
            return Err(no_page());
        };
        let news = self.have_news(from, earlier, page)?;
        if news {
            return self.follow_news(alloc, from, pages, page);
        }
        Ok(*from)
    }

    fn summary(&mut self) -> Result<RegisterSummary, Fault>
        ensures looks { OfficeReports C.Store S.Signer
            (λ records. HasSummary records result) self.old self.new }
        ensures looked { OfficeLooks C.Store S.Signer
            (λ records. HasSummary records result) self.old self.new }
        ensures faults { IfErr result IsOfStore }
    {
        summary_in(&mut self.store)
    }

    fn last(&mut self) -> Result<Moment, Fault>
        ensures looks { OfficeReports C.Store S.Signer
            (λ records. HasLastMoment records result) self.old self.new }
        ensures looked { OfficeLooks C.Store S.Signer
            (λ records. HasLastMoment records result) self.old self.new }
        ensures faults { IfErr result IsOfStore }
    {
        last_in(&mut self.store)
    }

    fn open_count(&mut self, now: Moment) -> Result<u64, Fault>
        ensures looks { OfficeReports C.Store S.Signer
            (λ records. HasOpen records now result) self.old self.new }
        ensures looked { OfficeLooks C.Store S.Signer
            (λ records. HasOpen records now result) self.old self.new }
        ensures faults { IfErr result IsOfStore }
    {
        open_count_in(&mut self.store, now)
    }

    fn request_load(&mut self, now: Moment, serial: Serial, most: u64) -> Result<RequestLoad, Fault>
        requires { most < 2 ^ 63 }
        ensures looks { OfficeReports C.Store S.Signer
            (λ records. HasRequestLoad records now serial most result) self.old self.new }
        ensures looked { OfficeLooks C.Store S.Signer
            (λ records. HasRequestLoad records now serial most result) self.old self.new }
        ensures faults { IfErr result IsOfStore }
    {
        request_load_in(&mut self.store, now, serial, most)
    }

    fn longest(&mut self, order: u64, not_before: Moment) -> Result<Option<u64>, Fault>
        ensures looks { OfficeReports C.Store S.Signer
            (λ records. HasLongest records order not_before result) self.old self.new }
        ensures looked { OfficeLooks C.Store S.Signer
            (λ records. HasLongest records order not_before result) self.old self.new }
    {
        longest_in(&mut self.store, order, not_before)
    }

    fn set_schedule(&mut self, alloc: Global, schedule: Schedule) -> Result<(), Fault>
        ensures sets { OfficeLeads C.Store S.Signer (λ signers. ReplacesSchedule schedule result)
            self.old self.new }
        ensures stops { OfficeStops C.Store S.Signer (schedule_call schedule) result
            (λ signers. ReplacesSchedule schedule result) self.old self.new }
        ensures faults { IfErr result IsOfStore }
        ensures ok { (records : Records) → StandsIn C.Store S.Signer self.old records
            → OnOk result (StandsIn C.Store S.Signer self.new (with_schedule records schedule)) }
        ensures changed { Changed C.Store self.old.store self.new.store
            (IsScheduled C.Store self.old.store schedule) result }
        ensures err { OnErr result (Stays (state C.Store self.old.store) (state C.Store self.new.store)) }
        ensures idle { self.old.store.in_transaction ≡ false → self.new.store.in_transaction ≡ false }
        ensures untouched { SignsNothing self.old self.new }
    {
        // Called only for its contract, which says that these are the steps of a valid schedule.
        let _steps = schedule.steps();
        match self.store.set_schedule(schedule) {
            Ok(()) => Ok(()),
            Err(fault) => Err(Fault::from(fault)),
        }
    }

    fn set_key_identifier(&mut self, alloc: Global, octets: Label) -> Result<(), Fault>
        ensures sets { OfficeLeads C.Store S.Signer (λ signers. SetsKeyIdentifier octets result)
            self.old self.new }
        ensures stops { OfficeStops C.Store S.Signer (identifier_call octets) result
            (λ signers. SetsKeyIdentifier octets result) self.old self.new }
        ensures faults { IfErr result IsOfStore }
        ensures ok { (records : Records) → StandsIn C.Store S.Signer self.old records
            → HasCleanDisk (state C.Store self.new.store)
            → OnOk result (StandsIn C.Store S.Signer self.new (with_key_identifier records octets)) }
        ensures changed { Changed C.Store self.old.store self.new.store
            (IsIdentified C.Store self.old.store octets) result }
        ensures idle { self.old.store.in_transaction ≡ false → self.new.store.in_transaction ≡ false }
        ensures untouched { SignsNothing self.old self.new }
    {
        match set_key_identifier(&mut self.store, alloc, octets) {
            Ok(()) => Ok(()),
            Err(fault) => Err(Fault::from(fault)),
        }
    }

    fn failure_counts(&self) -> (u64, u64) {
        let crls = self.signer.failures();
        (crls, failures_in(&self.responder, crls))
    }
}
