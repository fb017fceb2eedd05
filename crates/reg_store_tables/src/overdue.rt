//! Look-ups of open and overdue requests. A request is open if it was not declined and its certificate is good. It is overdue if it is open after
//! its deadline: the moment of its receipt plus the time limit of its ground (why the certificate is to be revoked).

ghost use Rattle.std.specs.Prelude.{◌≡◌, ◌≤◌, ◌+◌, ◌^◌, ◌&&◌, ◌<◌, ◌==◌, ◌++◌, List, [], ◌∷◌, length, min, not, filter, nat_lt, IfOk, IsSome, OnErr};
ghost use Rattle.reg_core.specs.Due.{deadline, is_open, overdue, overdue_report};
ghost use Rattle.reg_core.specs.Records.{certificate_in};
ghost use Rattle.reg_core.specs.Status.{status, is_good};
ghost use Rattle.reg_store_tables.specs.LookUps.{Finds, FindsIf};

use crate::fault::DatabaseFault;
use crate::read_statements::{look_up_all, read};
use crate::sql::{UNDECLINED, UNDECLINED_OF};
use crate::sql_values::sql_number;
use crate::tables::Tables;
use reg_core::{Moment, Overdue, RequestRow, Serial, Status, status_of};
use sqlite::{Alter, Connection, params};

fn undeclined<S: Alter>(conn: &mut Connection<S>) -> Result<Vec<RequestRow>, DatabaseFault>
    ensures { Finds S.Store conn.old conn.new result (λ records found.
        found.items ≡ filter (λ row. not row.declined) records.requests) }
{
    look_up_all::<S, RequestRow>(conn, UNDECLINED, &[])
}

fn count_undeclined<S: Alter>(
    conn: &mut Connection<S>,
    serial: Serial,
    most: u64,
) -> Result<u64, DatabaseFault>
    ensures { FindsIf (λ _. most < 2 ^ 63) S.Store conn.old conn.new result (λ records count.
        count ≡ min most (length
        (filter (λ row. not row.declined && (row.serial == serial)) records.requests))) }
{
    let limit = sql_number(most)?;
    let newest = read(
        conn,
        UNDECLINED_OF,
        params![serial.bytes20().as_slice(), &limit],
    )?;
    Ok(newest.len() as u64)
}

/// Adds an overdue request to the report, which has only lower ids (`None`: no request yet). So `first`, the lowest id, stays.
fn one_more(report: Option<Overdue>, id: u64) -> Result<Option<Overdue>, DatabaseFault>
    ensures more { (requests : List RequestRow) → (request : RequestRow) → report ≡ overdue_report requests
        → request.id ≡ id → IfOk result (λ more. more ≡ overdue_report (requests ++ request ∷ [])) }
    ensures many { (requests : List RequestRow) → report ≡ overdue_report requests
        → OnErr result (2 ^ 64 ≤ length requests + 1) }
{
    match report {
        None => Ok(Some(Overdue {
            count: 1,
            first: id,
        })),
        Some(report) => Ok(Some(Overdue {
            count: report.count.checked_add(1).ok_or(DatabaseFault::Store)?,
            first: report.first,
        })),
    }
}

impl<S: Alter> Tables<S> {
    fn is_good_at(&mut self, serial: Serial, now: Moment) -> Result<bool, DatabaseFault>
        ensures { FindsIf (λ records. IsSome (certificate_in records.certificates serial))
            S.Store self.old self.new result (λ records good. good ≡ is_good (status records serial now)) }
    {
        // Most requests that were not declined led to a revocation. Then the certificate need not be looked up.
        let revoked = self.revocation(serial)?;
        if revoked.is_some() {
            return Ok(false);
        }
        let certificate = self.cert(serial)?;
        if certificate.is_none() {
            return Err(DatabaseFault::Store);
        }
        Ok(matches!(status_of(now, certificate, revoked), Status::Good))
    }

    fn is_overdue(&mut self, request: RequestRow, now: Moment) -> Result<bool, DatabaseFault>
        ensures { FindsIf (λ records. IsSome (certificate_in records.certificates request.serial))
            S.Store self.old self.new result (λ records late.
            late ≡ (is_good (status records request.serial now) && nat_lt (deadline request) now)) }
    {
        let deadline = request.received.secs() + request.ground.limit_secs();
        let is_past = deadline < now.secs();
        let is_good = self.is_good_at(request.serial, now)?;
        Ok(is_good && is_past)
    }

    /// How many requests are overdue, and their lowest id. The call scans `request`, and looks up one or two rows for each undeclined request.
    pub fn open_past_due(&mut self, now: Moment) -> Result<Option<Overdue>, DatabaseFault>
        ensures { Finds S.Store self.old self.new result (λ records report.
            report ≡ overdue_report (overdue records now)) }
    {
        let requests = undeclined(&mut self.connection)?;
        let mut report = None;
        for request in &requests {
            if self.is_overdue(*request, now)? {
                report = one_more(report, request.id)?;
            }
        }
        Ok(report)
    }

    /// How many requests are open at a moment. The call reads the same rows as [`Tables::open_past_due`].
    pub fn open_count(&mut self, now: Moment) -> Result<u64, DatabaseFault>
        ensures { Finds S.Store self.old self.new result (λ records count.
            count ≡ length (filter (is_open records now) records.requests)) }
    {
        let requests = undeclined(&mut self.connection)?;
        let mut count: u64 = 0;
        for request in &requests {
            if self.is_good_at(request.serial, now)? {
                count += 1;
            }
        }
        Ok(count)
    }

    /// How many requests for a serial number are open at a moment, counted up to `most` (below 2^63). The call may scan all of `request`.
    pub fn open_of(&mut self, serial: Serial, now: Moment, most: u64) -> Result<u64, DatabaseFault>
        ensures { FindsIf (λ _. most < 2 ^ 63) S.Store self.old self.new result (λ records count.
            count ≡ min most (length
            (filter (λ row. (row.serial == serial) && is_open records now row) records.requests))) }
    {
        let certificate = self.cert(serial)?;
        let revoked = self.revocation(serial)?;
        match status_of(now, certificate, revoked) {
            Status::Good => count_undeclined(&mut self.connection, serial, most),
            _ => Ok(0),
        }
    }
}
