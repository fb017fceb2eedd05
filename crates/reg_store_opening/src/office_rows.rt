//! Checks the row of the table `office`, and the schedule's steps: each has a notBefore, and the longest validity in days from it on. Columns
//! of `sql::OFFICE`: 0 the issuer's Name, followed by its key identifiers; 1 the issuer's key; 2 and 3 the lives of CRLs and OCSP responses
//! in seconds; 4 the cap (the most rows of a table); 5 the last accepted moment; in `sql::OLDER_OFFICE` also 6, the longest validity in days.

ghost use Rattle.std.specs.Prelude.{◌≡◌, ◌≢◌, ◌⊎◌, ◌<◌, ◌≤◌, ℕ, List, [], ◌∷◌, IfOk, IfErr, Err, MatchOption, MatchResult};
ghost use Rattle.sqlite_value.specs.Order.{Row as Cells, column};
ghost use Rattle.reg_core.specs.Issuer as core;
ghost use Rattle.reg_core.specs.Policy.{Terms};
ghost use Rattle.reg_core.specs.Schedule.{IsSchedule, one_step};
ghost use Rattle.reg_store_tables.specs.Rows.{number};
ghost use Rattle.reg_store_opening.specs.VersionAndOffice.{version_of, AreVersionRows, HasPolicy, HasLast, HasIssuer, HasOfficeValues, AreOfficeRows, IsOlderRow, AreOlderOffice, Refuses, IsStep, HaveSteps};

use reg_core::{Moment, Policy, Schedule};
use reg_der::{Issuer, IssuerFault};
use reg_store_migration::OlderVersion;
use reg_store_tables::StoreFault;
use reg_store_tables::sql_values::{bytes_at, clock_moment_at, moment_at, number_at};
use sqlite::Row;
use std::alloc::Global;

fn only(rows: &[Row]) -> Option<&Row>
    ensures { MatchOption result ((row : Cells) → rows.now ≢ row ∷ []) (λ row. rows.now ≡ row.now ∷ []) }
{
    match rows {
        [row] => Some(row),
        _ => None,
    }
}

fn version_in(rows: &[Row]) -> Option<u64>
    ensures { MatchOption result ((n : ℕ) → ¬ AreVersionRows n rows.now) (λ n. AreVersionRows n rows.now) }
{
    number_at(only(rows)?, 0)
}

/// The version in `rows`, if 1 or 2; `None` for 3, the program's. `NewVersion` above 3; `NotARegister` for 0, or if `rows` isn't one row of a number.
pub(crate) fn version_in_rows(rows: &[Row]) -> Result<Option<OlderVersion>, StoreFault>
    ensures ok { IfOk result (λ found. AreVersionRows (version_of found) rows.now) }
    ensures newer { result ≡ Err StoreFault.NewVersion → (n : ℕ) × (3 < n) × AreVersionRows n rows.now }
    ensures none { result ≡ Err StoreFault.NotARegister → (n : ℕ) → 1 ≤ n → ¬ AreVersionRows n rows.now }
    ensures faults { IfErr result
        (λ fault. (fault ≡ StoreFault.NotARegister) ⊎ (fault ≡ StoreFault.NewVersion)) }
{
    match version_in(rows) {
        None => Err(StoreFault::NotARegister),
        Some(0) => Err(StoreFault::NotARegister),
        Some(1) => Ok(Some(OlderVersion::First)),
        Some(2) => Ok(Some(OlderVersion::Second)),
        Some(3) => Ok(None),
        Some(_) => Err(StoreFault::NewVersion),
    }
}

fn step_in(row: &Row) -> Option<(Moment, u64)>
    ensures { MatchOption result ((step : ℕ × ℕ) → ¬ IsStep row.now step) (IsStep row.now) }
{
    Some((moment_at(row, 0)?, number_at(row, 1)?))
}

fn steps_in(rows: &Vec<Row>) -> Result<Vec<(Moment, u64)>, StoreFault>
    ensures { MatchResult result (λ steps. HaveSteps rows.now.items steps.items)
        (Refuses ((steps : List (ℕ × ℕ)) → ¬ HaveSteps rows.now.items steps)) }
{
    let mut steps = Vec::new(*rows.allocator());
    for row in rows {
        match step_in(row) {
            Some(step) => steps.push(step)?,
            None => return Err(StoreFault::NotARegister),
        }
    }
    Ok(steps)
}

fn schedule_in(rows: &Vec<Row>) -> Result<Schedule, StoreFault>
    ensures { MatchResult result (HaveSteps rows.now.items)
        (Refuses ((steps : List (ℕ × ℕ)) → IsSchedule steps → ¬ HaveSteps rows.now.items steps)) }
{
    let steps = steps_in(rows)?;
    match Schedule::new(&steps) {
        Some(schedule) => Ok(schedule),
        None => Err(StoreFault::NotARegister),
    }
}

fn policy_in(row: &Row, schedule: Schedule) -> Option<Policy>
    ensures { MatchOption result ((policy : Terms) → ¬ HasPolicy schedule row.now policy)
        (HasPolicy schedule row.now) }
{
    let crl_life = number_at(row, 2)?;
    let ocsp_life = number_at(row, 3)?;
    let cap = number_at(row, 4)?;
    Policy::with(schedule, crl_life, ocsp_life, cap)
}

fn last_in(row: &Row) -> Option<Moment>
    ensures { MatchOption result ((last : ℕ) → ¬ HasLast row.now last) (HasLast row.now) }
{
    clock_moment_at(row, 5)
}

fn check_issuer(alloc: Global, row: &Row) -> Result<(), StoreFault>
    ensures { MatchResult result (λ _. (issuer : core.Issuer) × HasIssuer row.now issuer)
        (Refuses ((issuer : core.Issuer) → ¬ HasIssuer row.now issuer)) }
{
    match bytes_at(row, 0) {
        None => Err(StoreFault::NotARegister),
        Some(name) => match bytes_at(row, 1) {
            None => Err(StoreFault::NotARegister),
            Some(key) => match Issuer::of_stored(alloc, name, key) {
                Ok(_) => Ok(()),
                Err(IssuerFault::Memory) => Err(StoreFault::Memory),
                Err(IssuerFault::BadName) => Err(StoreFault::NotARegister),
                Err(IssuerFault::BadKey) => Err(StoreFault::NotARegister),
            },
        },
    }
}

fn check_office_row(alloc: Global, row: &Row, schedule: Schedule) -> Result<(), StoreFault>
    ensures { MatchResult result (λ _. HasOfficeValues schedule row.now)
        (Refuses (¬ HasOfficeValues schedule row.now)) }
{
    match policy_in(row, schedule) {
        None => Err(StoreFault::NotARegister),
        Some(_) => match last_in(row) {
            None => Err(StoreFault::NotARegister),
            Some(_) => check_issuer(alloc, row),
        },
    }
}

/// Checks that `rows` has the one row of `office`, with values in their ranges, and that the rows `steps` make a schedule.
pub(crate) fn check_office_rows(rows: &Vec<Row>, steps: &Vec<Row>) -> Result<(), StoreFault>
    ensures { MatchResult result (λ _. AreOfficeRows rows.now.items steps.now.items)
        (Refuses (¬ AreOfficeRows rows.now.items steps.now.items)) }
{
    let schedule = schedule_in(steps)?;
    match only(rows) {
        None => Err(StoreFault::NotARegister),
        Some(row) => check_office_row(*rows.allocator(), row, schedule),
    }
}

/// The longest validity in days in an older version (column 6), and its schedule, which has one step: this longest validity from 1970 on.
fn days_and_schedule(row: &Row) -> Option<(u64, Schedule)>
    ensures { MatchOption result ((days : ℕ) → IsSchedule (one_step days) → column row.now 6 ≢ number days)
        (λ found. (column row.now 6 ≡ number found.0) × (found.1 ≡ one_step found.0)) }
{
    let days = number_at(row, 6)?;
    let schedule = Schedule::new(&[(Moment::EPOCH, days)])?;
    Some((days, schedule))
}

fn older_in(alloc: Global, row: &Row) -> Result<(u64, Moment), StoreFault>
    ensures { MatchResult result (λ found. IsOlderRow found.0 found.1 row.now)
        (Refuses ((days : ℕ) → (last : ℕ) → ¬ IsOlderRow days last row.now)) }
{
    match days_and_schedule(row) {
        None => Err(StoreFault::NotARegister),
        Some((days, schedule)) => match last_in(row) {
            None => Err(StoreFault::NotARegister),
            Some(last) => match check_office_row(alloc, row, schedule) {
                Ok(()) => Ok((days, last)),
                Err(fault) => Err(fault),
            },
        },
    }
}

/// The longest validity in days and the last accepted moment in the row of `office` of an older version; `NotARegister` if `rows` are not such a row.
pub(crate) fn older_office_in(rows: &Vec<Row>) -> Result<(u64, Moment), StoreFault>
    ensures { MatchResult result (λ found. AreOlderOffice found.0 found.1 rows.now.items)
        (Refuses ((days : ℕ) → (last : ℕ) → ¬ AreOlderOffice days last rows.now.items)) }
{
    match only(rows) {
        None => Err(StoreFault::NotARegister),
        Some(row) => older_in(*rows.allocator(), row),
    }
}
