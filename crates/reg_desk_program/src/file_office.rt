//! The office of a register in a file.

use reg_core::{Command, Fault, Label, Memory, Moment, Outcome, Query, Schedule, Serial};
use reg_core_lists::{Cursor, Page, Positions, ReceivedPage};
use reg_crl_signer::{BackoffDevice, RegisterSigner, SocketDevice, UnixConnection};
use reg_io::ReadyOrUnsigned;
use reg_ocsp::Draft;
use reg_office_api::{Changes, FollowFault, OcspResponse, RegisterSummary, RequestLoad};
use reg_office_cache::CachingOffice;
use sqlite::{FileFrom, FileStore};
use sqlite_disk::Unknown;
use std::alloc::Global;

/// A signer process behind a Unix socket. In the ten seconds after a timeout, no signature is requested from it (back-off).
pub type FileDevice = BackoffDevice<SocketDevice<UnixConnection>, HostRuntime>;

/// The signer of a register in a file: a process behind a socket, the placeholder digest, or none.
pub type FileSigner = RegisterSigner<FileDevice>;

/// An office over a [`FileConnection`](crate::FileConnection). Contracts suppose nothing of the bytes of its file (`Unknown`).
pub(crate) type OfficeInFile = CachingOffice<FileStore<FileFrom<Unknown>>, FileSigner>;

/// The office of a register in a file. Each method, which the trait describes, calls that of [`CachingOffice`] with its name. The prover can
/// compare this type by its name, but not `OfficeInFile`, whose type arguments take more steps than it allows.
#[derive(Drop)]
pub struct FileOffice {
    pub(crate) office: OfficeInFile,
}

impl reg_office_api::Office for FileOffice {
    ghost is_clean = { λ it. ⟦<OfficeInFile as reg_office_api::Office>⟧.is_clean it.office };

    ghost stands = { λ signers it records.
        ⟦<OfficeInFile as reg_office_api::Office>⟧.stands signers it.office records };

    ghost signs = { ⟦<OfficeInFile as reg_office_api::Office>⟧.signs };

    ghost forms = { ⟦<OfficeInFile as reg_office_api::Office>⟧.forms };

    ghost failures = { λ it. ⟦<OfficeInFile as reg_office_api::Office>⟧.failures it.office };

    ghost answer_failures = { λ it. ⟦<OfficeInFile as reg_office_api::Office>⟧.answer_failures it.office };

    fn run_one(&mut self, alloc: Global, now: Moment, command: &Command) -> Outcome {
        self.office.run_one(alloc, now, command)
    }

    fn run_batch(
        &mut self,
        alloc: Global,
        commands: &[(Moment, Command)],
    ) -> Result<Vec<Outcome>, Fault> {
        self.office.run_batch(alloc, commands)
    }

    fn ask(&mut self, alloc: Global, now: Moment, query: &Query) -> Outcome {
        self.office.ask(alloc, now, query)
    }

    fn ocsp(&mut self, alloc: Global, now: Moment, request: &[u8]) -> Result<Vec<u8>, Memory> {
        self.office.ocsp(alloc, now, request)
    }

    fn begin_ocsp(
        &mut self,
        alloc: Global,
        now: Moment,
        request: &[u8],
    ) -> Result<ReadyOrUnsigned<OcspResponse, Draft>, Memory> {
        self.office.begin_ocsp(alloc, now, request)
    }

    fn crl_bytes(&mut self, alloc: Global, number: Option<u64>) -> Result<Vec<u8>, Fault> {
        self.office.crl_bytes(alloc, number)
    }

    fn crl_message(&mut self, alloc: Global, now: Moment) -> Option<Vec<u8>> {
        self.office.crl_message(alloc, now)
    }

    fn page(&mut self, alloc: Global, now: Moment, from: Cursor, most: u64) -> Result<Page, Fault> {
        self.office.page(alloc, now, from, most)
    }

    fn changes(&mut self, alloc: Global, after: &Option<Positions>) -> Result<Changes, Fault> {
        self.office.changes(alloc, after)
    }

    fn positions(&mut self, alloc: Global) -> Result<Positions, Fault> {
        self.office.positions(alloc)
    }

    fn follow(
        &mut self,
        alloc: Global,
        from: &Positions,
        pages: &[ReceivedPage],
    ) -> Result<Positions, FollowFault> {
        self.office.follow(alloc, from, pages)
    }

    fn summary(&mut self) -> Result<RegisterSummary, Fault> {
        self.office.summary()
    }

    fn last(&mut self) -> Result<Moment, Fault> {
        self.office.last()
    }

    fn open_count(&mut self, now: Moment) -> Result<u64, Fault> {
        self.office.open_count(now)
    }

    fn request_load(
        &mut self,
        now: Moment,
        serial: Serial,
        most: u64,
    ) -> Result<RequestLoad, Fault> {
        self.office.request_load(now, serial, most)
    }

    fn longest(&mut self, order: u64, not_before: Moment) -> Result<Option<u64>, Fault> {
        self.office.longest(order, not_before)
    }

    fn set_schedule(&mut self, alloc: Global, schedule: Schedule) -> Result<(), Fault> {
        self.office.set_schedule(alloc, schedule)
    }

    fn set_key_identifier(&mut self, alloc: Global, octets: Label) -> Result<(), Fault> {
        self.office.set_key_identifier(alloc, octets)
    }

    fn failure_counts(&self) -> (u64, u64) {
        self.office.failure_counts()
    }
}
