//! The undecided requests of a register, kept from one query to the next: then a query reads only the requests and the revocations that came since. A
//! request is undecided if it was not declined and its certificate is not revoked. Which ones are open or overdue follows without a look-up.

ghost use Rattle.std.specs.Prelude.{◌≡◌, ◌<◌, ◌≤◌, ◌+◌, ◌^◌, ◌&&◌, ◌++◌, ◌==◌, List, [], ◌∷◌, map, filter, not, length, take, drop, option_to_list, IfOk, IfSome, OnErr, OnOk, None};
ghost use Rattle.reg_core.specs.Due.{is_open, overdue, overdue_report};
ghost use Rattle.reg_core.specs.Records.{Records};
ghost use Rattle.reg_office_cache.specs.Undecided.{AreAllUndecided, AreUndecided, IsUndecidedRow, TakesRequests, ends_from, is_late_row, has_revocation};
ghost use Rattle.reg_office_reads.specs.Looking.{clock_refusal};
ghost use Rattle.reg_store_tables.specs.LookUps.{Learns, LooksUp};

use reg_core::{Fault, Moment, Overdue, RequestRow, RevocationRow, Serial, clock};
use reg_store_tables::{DatabaseFault, Table, Tables};
use sqlite::Alter;
use std::alloc::Global;

/// How many rows a statement reads at most.
const MOST: u64 = 256;

/// An undecided request, with the notAfter of its certificate.
#[derive(Clone, Copy)]
struct UndecidedRequest {
    request: RequestRow,
    not_after: Moment,
}

impl UndecidedRequest {
    fn is_open(&self, now: Moment) -> bool
        ensures { result ≡ ends_from now self.now }
    {
        now <= self.not_after
    }

    fn is_overdue(&self, now: Moment) -> bool
        ensures { result ≡ is_late_row now self.now }
    {
        let deadline = self.request.received.secs() + self.request.ground.limit_secs();
        let is_past = deadline < now.secs();
        self.is_open(now) && is_past
    }
}

/// The undecided ones (`rows`) among the first `requests` requests of a register, as far as its first `revocations` revocations decide.
#[derive(Drop)]
pub struct UndecidedRequests {
    rows: Vec<UndecidedRequest>,
    requests: u64,
    revocations: u64,
}

impl UndecidedRequests {
    /// Before the first query: of no request.
    pub fn new(alloc: Global) -> UndecidedRequests
        ensures rows { result.rows.items ≡ [] }
        ensures requests { result.requests ≡ 0 }
        ensures revocations { result.revocations ≡ 0 }
    {
        UndecidedRequests {
            rows: Vec::new(alloc),
            requests: 0,
            revocations: 0,
        }
    }

    /// Goes back to none: the next query reads all requests.
    pub fn forget(&mut self)
        ensures rows { self.new.rows.items ≡ [] }
        ensures requests { self.new.requests ≡ 0 }
        ensures revocations { self.new.revocations ≡ self.old.revocations }
    {
        self.rows.clear();
        self.requests = 0;
    }

    /// Takes out the request with this id, which was declined.
    pub fn decline(&mut self, id: u64)
        ensures rows { self.new.rows.items ≡ filter (λ row. not (row.request.id == id)) self.old.rows.items }
        ensures requests { self.new.requests ≡ self.old.requests }
        ensures revocations { self.new.revocations ≡ self.old.revocations }
    {
        self.rows.retain(|row| row.request.id != id);
    }

    fn open_count(&self, now: Moment) -> u64
        ensures { result ≡ length (filter (ends_from now) self.now.rows.items) }
    {
        let mut count: u64 = 0;
        for row in &self.rows {
            if row.is_open(now) {
                count += 1;
            }
        }
        count
    }

    fn overdue(&self, now: Moment) -> Option<Overdue>
        ensures { result ≡ overdue_report
            (map (λ row. row.request) (filter (is_late_row now) self.now.rows.items)) }
    {
        let mut report = None;
        for row in &self.rows {
            if row.is_overdue(now) {
                report = one_more(report, row.request.id);
            }
        }
        report
    }

    /// Takes out the requests for the serial numbers of the next revocations.
    fn take_out(&mut self, page: &[RevocationRow])
        ensures rows { self.new.rows.items
            ≡ filter (λ row. not (has_revocation page.now row.request.serial)) self.old.rows.items }
        ensures requests { self.new.requests ≡ self.old.requests }
        ensures revocations { self.new.revocations ≡ self.old.revocations }
    {
        self.rows
            .retain(|row| !has_serial(page, row.request.serial));
    }

    fn put(&mut self, row: Option<UndecidedRequest>) -> Result<(), DatabaseFault>
        ensures ok { OnOk result (self.new.rows.items ≡ self.old.rows.items ++ option_to_list row) }
        ensures err { OnErr result (self.new.rows.items ≡ self.old.rows.items) }
        ensures requests { self.new.requests ≡ self.old.requests }
        ensures revocations { self.new.revocations ≡ self.old.revocations }
    {
        match row {
            Some(row) => match self.rows.push(row) {
                Ok(()) => Ok(()),
                Err(_) => Err(DatabaseFault::Memory),
            },
            None => Ok(()),
        }
    }
}

/// Adds an overdue request to the report, which has only lower ids (`None`: no request yet).
fn one_more(report: Option<Overdue>, id: u64) -> Option<Overdue>
    requires { IfSome report (λ it. it.count + 1 < 2 ^ 64) }
    ensures { (requests : List RequestRow) (request : RequestRow) → report ≡ overdue_report requests
        → request.id ≡ id → result ≡ overdue_report (requests ++ request ∷ []) }
{
    match report {
        None => Some(Overdue {
            count: 1,
            first: id,
        }),
        Some(report) => Some(Overdue {
            count: report.count + 1,
            first: report.first,
        }),
    }
}

fn has_serial(page: &[RevocationRow], serial: Serial) -> bool
    ensures { result ≡ has_revocation page.now serial }
{
    page.iter().any(|row| row.serial == serial)
}

/// Reads the revocations and the requests that came since. After an error, what was read is kept.
fn update<C: Alter>(
    tables: &mut Tables<C>,
    known: &mut UndecidedRequests,
) -> Result<(), DatabaseFault>
    ensures { LooksUp C.Store tables.old tables.new (λ records. AreUndecided records known.old
        → AreUndecided records known.new × OnOk result (AreAllUndecided records known.new)) }
{
    read_revocations(tables, known)?;
    read_requests(tables, known)
}

fn read_revocations<C: Alter>(
    tables: &mut Tables<C>,
    known: &mut UndecidedRequests,
) -> Result<(), DatabaseFault>
    ensures { LooksUp C.Store tables.old tables.new (λ records. AreUndecided records known.old
        → AreUndecided records known.new × OnOk result (known.new.revocations ≡ length records.revocations)) }
{
    let mut is_full = true;
    while is_full {
        let page = tables.entered_after::<RevocationRow>(known.revocations, MOST)?;
        is_full = page.len() as u64 == MOST;
        take_revocations(known, &page)?;
    }
    Ok(())
}

/// Takes the next revocations. `MOST` of them are too many to compare with each row: then none is kept.
fn take_revocations(
    known: &mut UndecidedRequests,
    page: &[RevocationRow],
) -> Result<(), DatabaseFault>
    ensures are { (records : Records) → page.now ≡ take 256 (drop known.old.revocations records.revocations)
        → AreUndecided records known.old → AreUndecided records known.new }
    ensures ok { OnOk result (known.new.revocations ≡ known.old.revocations + length page.now) }
{
    let count = page.len() as u64;
    let revocations = known
        .revocations
        .checked_add(count)
        .ok_or(DatabaseFault::Store)?;
    if count < MOST {
        known.take_out(page);
    } else {
        known.forget();
    }
    known.revocations = revocations;
    Ok(())
}

fn read_requests<C: Alter>(
    tables: &mut Tables<C>,
    known: &mut UndecidedRequests,
) -> Result<(), DatabaseFault>
    ensures { LooksUp C.Store tables.old tables.new (λ records. AreUndecided records known.old
        → known.old.revocations ≡ length records.revocations
        → AreUndecided records known.new × (known.new.revocations ≡ known.old.revocations)
        × OnOk result (known.new.requests ≡ length records.requests)) }
{
    let held = tables.held(Table::Requests)?;
    while known.requests < held {
        let page = tables.entered_after::<RequestRow>(known.requests, MOST)?;
        if page.is_empty() {
            return Err(DatabaseFault::Store);
        }
        take_requests(tables, known, &page)?;
    }
    Ok(())
}

/// Takes the requests of a page, which are the next ones.
fn take_requests<C: Alter>(
    tables: &mut Tables<C>,
    known: &mut UndecidedRequests,
    page: &[RequestRow],
) -> Result<(), DatabaseFault>
    ensures looks { LooksUp C.Store tables.old tables.new (λ records.
        page.now ≡ take 256 (drop known.old.requests records.requests)
        → TakesRequests records known.old known.new) }
    ensures ok { OnOk result (known.new.requests ≡ known.old.requests + length page.now) }
{
    for request in page {
        take_request(tables, known, *request)?;
    }
    Ok(())
}

fn take_request<C: Alter>(
    tables: &mut Tables<C>,
    known: &mut UndecidedRequests,
    request: RequestRow,
) -> Result<(), DatabaseFault>
    ensures looks { LooksUp C.Store tables.old tables.new (λ records.
        take (known.old.requests + 1) records.requests
        ≡ take known.old.requests records.requests ++ request ∷ []
        → TakesRequests records known.old known.new) }
    ensures ok { OnOk result (known.new.requests ≡ known.old.requests + 1) }
{
    let requests = known.requests.checked_add(1).ok_or(DatabaseFault::Store)?;
    let row = undecided_row(tables, request)?;
    known.put(row)?;
    known.requests = requests;
    Ok(())
}

/// What is kept of a request: nothing if it was declined, or its certificate is revoked.
fn undecided_row<C: Alter>(
    tables: &mut Tables<C>,
    request: RequestRow,
) -> Result<Option<UndecidedRequest>, DatabaseFault>
    ensures { Learns C.Store tables.old tables.new result (λ records. IsUndecidedRow records request) }
{
    if request.declined {
        return Ok(None);
    }
    // Most requests that were not declined led to a revocation. Then the certificate need not be looked up.
    let revoked = tables.revocation(request.serial)?;
    if revoked.is_some() {
        return Ok(None);
    }
    let certificate = tables.cert(request.serial)?;
    match certificate {
        Some(certificate) => Ok(Some(UndecidedRequest {
            request,
            not_after: certificate.not_after,
        })),
        None => Err(DatabaseFault::Store),
    }
}

/// How many requests are open at the moment `now`. `known`: the undecided requests as an earlier query left them, and then as this one found them.
pub fn open_count_by<C: Alter>(
    tables: &mut Tables<C>,
    known: &mut UndecidedRequests,
    now: Moment,
) -> Result<u64, DatabaseFault>
    ensures { LooksUp C.Store tables.old tables.new (λ records. AreUndecided records known.old
        → AreUndecided records known.new
        × IfOk result (λ count. count ≡ length (filter (is_open records now) records.requests))) }
{
    update(tables, known)?;
    Ok(known.open_count(now))
}

/// The overdue requests at the moment `now`; or `clock` refuses this moment. `known` is as in [`open_count_by`].
pub fn overdue_by<C: Alter>(
    tables: &mut Tables<C>,
    known: &mut UndecidedRequests,
    now: Moment,
) -> Result<Option<Overdue>, Fault>
    ensures { LooksUp C.Store tables.old tables.new (λ records. AreUndecided records known.old
        → AreUndecided records known.new
        × IfOk result (λ report. (clock_refusal records now ≡ None)
        × (report ≡ overdue_report (overdue records now)))) }
{
    let last = tables.last()?;
    clock(now, last)?;
    update(tables, known)?;
    Ok(known.overdue(now))
}
