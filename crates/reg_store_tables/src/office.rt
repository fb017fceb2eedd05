//! Looks up issuer, policy and last accepted moment in the table `office` (schedule: in `longest`). A life: seconds from thisUpdate to nextUpdate.

ghost use Rattle.std.specs.Prelude.{◌≡◌, ◌≤◌, ◌<◌, ◌+◌, ℕ, [], ◌∷◌, IfOk, IfErr};
ghost use Rattle.sqlite_value.specs.declared.value.Value.TheVariants.{Blob};
ghost use Rattle.sqlite_value.specs.Order.{column};
ghost use Rattle.reg_core.specs.Calendar.{clock_end};
ghost use Rattle.reg_core.specs.Issuer.{Issuer as StoredIssuer};
ghost use Rattle.reg_der.specs.Authority.{IsIssuer};
ghost use Rattle.reg_store_tables.specs.LookUps.{Finds};
ghost use Rattle.reg_store_tables.specs.ShownRows.{shown_ocsp_head};

use crate::fault::DatabaseFault;
use crate::read_statements::{look_up_all, look_up_one, only, read};
use crate::rows::{ClockMoment, LivesAndCap, Step};
use crate::sql::{ISSUER, LAST, OCSP_HEAD, STEPS, TERMS};
use crate::sql_values::{bytes_at, clock_moment_at, life_at};
use crate::tables::Tables;
use reg_core::{Moment, Policy, Schedule};
use reg_der::Issuer;
use sqlite::{Alter, Connection, Row};
use std::alloc::Global;

impl<S: Alter> Tables<S> {
    /// The last accepted moment.
    pub fn last(&mut self) -> Result<Moment, DatabaseFault>
        ensures { Finds S.Store self.old self.new result (λ records last. last ≡ records.last) }
    {
        look_up_one::<S, ClockMoment>(&mut self.connection, LAST, &[])
    }

    /// The issuer: its Name (RFC 5280 5.1.2.3), the key identifiers that were set for it (5.2.1), and its public key.
    pub fn issuer(&mut self) -> Result<Issuer, DatabaseFault>
        ensures { Finds S.Store self.old self.new result (λ records issuer. issuer ≡ records.issuer) }
    {
        issuer(&mut self.connection)
    }

    /// The policy: the schedule of longest validities, the lives of CRLs and OCSP responses, and the cap (the most rows that a table may have).
    pub fn policy(&mut self) -> Result<Policy, DatabaseFault>
        ensures { Finds S.Store self.old self.new result (λ records policy. policy ≡ records.policy) }
    {
        policy(&mut self.connection)
    }

    /// For an OCSP response, by one statement: the last accepted moment, the issuer, and the response's life, which is under ten days (864,000 s).
    pub fn ocsp_head(&mut self) -> Result<(Moment, Issuer, u64), DatabaseFault>
        ensures finds { Finds S.Store self.old self.new result (λ records it.
            (it.0 ≡ records.last) × (it.1 ≡ records.issuer) × (it.2 ≡ records.policy.ocsp_life)) }
        ensures short { IfOk result (λ it. it.2 ≤ 863999) }
    {
        let found = read(&mut self.connection, OCSP_HEAD, &[])?;
        ocsp_head_in(*found.allocator(), only(&found)?)
    }
}

/// The issuer in two columns: `at` has its Name and key identifiers, `at + 1` its public key. With the bound of `at`, the sum can't overflow.
fn issuer_in(alloc: Global, row: &Row, at: usize) -> Result<Issuer, DatabaseFault>
    requires { at < 10 }
    ensures read { (issuer : StoredIssuer) → column row.now at ≡ Blob issuer.name
        → column row.now (at + 1) ≡ Blob issuer.key
        → IfOk result (λ read. read ≡ issuer) }
    ensures has { (issuer : StoredIssuer) → IsIssuer issuer → column row.now at ≡ Blob issuer.name
        → column row.now (at + 1) ≡ Blob issuer.key → IfErr result (λ fault. fault ≡ DatabaseFault.Memory) }
{
    match bytes_at(row, at) {
        None => Err(DatabaseFault::Store),
        Some(name) => match bytes_at(row, at + 1) {
            None => Err(DatabaseFault::Store),
            Some(key) => Ok(Issuer::of_stored(alloc, name, key)?),
        },
    }
}

fn issuer_of(rows: &Vec<Row>) -> Result<Issuer, DatabaseFault>
    ensures read { (issuer : StoredIssuer) → rows.now.items ≡ (Blob issuer.name ∷ Blob issuer.key ∷ []) ∷ []
        → IfOk result (λ read. read ≡ issuer) }
    ensures has { (issuer : StoredIssuer) → IsIssuer issuer
        → rows.now.items ≡ (Blob issuer.name ∷ Blob issuer.key ∷ []) ∷ []
        → IfErr result (λ fault. fault ≡ DatabaseFault.Memory) }
{
    issuer_in(*rows.allocator(), only(rows)?, 0)
}

/// [`Tables::issuer`], read over a connection. Errors: those of the methods of [`Tables`].
pub fn issuer<S: Alter>(conn: &mut Connection<S>) -> Result<Issuer, DatabaseFault>
    ensures { Finds S.Store conn.old conn.new result (λ records issuer. issuer ≡ records.issuer) }
{
    let found = read(conn, ISSUER, &[])?;
    issuer_of(&found)
}

/// The columns are those of `OCSP_HEAD`: the last accepted moment, the issuer's two columns, the life.
fn ocsp_head_in(alloc: Global, row: &Row) -> Result<(Moment, Issuer, u64), DatabaseFault>
    ensures read { (last life : ℕ) → (issuer : StoredIssuer) → row.now ≡ shown_ocsp_head last issuer life
        → IfOk result (λ it. (it.0 ≡ last) × (it.1 ≡ issuer) × (it.2 ≡ life)) }
    ensures has { (last life : ℕ) → (issuer : StoredIssuer) → row.now ≡ shown_ocsp_head last issuer life
        → last < clock_end
        → IsIssuer issuer → life ≤ 863999 → IfErr result (λ fault. fault ≡ DatabaseFault.Memory) }
    ensures short { IfOk result (λ it. it.2 ≤ 863999) }
{
    match clock_moment_at(row, 0) {
        None => Err(DatabaseFault::Store),
        Some(last) => match life_at(row, 3) {
            None => Err(DatabaseFault::Store),
            Some(life) => Ok((last, issuer_in(alloc, row, 1)?, life)),
        },
    }
}

fn lives_and_cap<S: Alter>(conn: &mut Connection<S>) -> Result<(u64, u64, u64), DatabaseFault>
    ensures { Finds S.Store conn.old conn.new result (λ records terms.
        (terms.0 ≡ records.policy.crl_life) × (terms.1 ≡ records.policy.ocsp_life)
        × (terms.2 ≡ records.policy.cap)) }
{
    look_up_one::<S, LivesAndCap>(conn, TERMS, &[])
}

fn schedule<S: Alter>(conn: &mut Connection<S>) -> Result<Schedule, DatabaseFault>
    ensures { Finds S.Store conn.old conn.new result (λ records schedule.
        schedule ≡ records.policy.schedule) }
{
    let steps = look_up_all::<S, Step>(conn, STEPS, &[])?;
    Schedule::new(&steps).ok_or(DatabaseFault::Store)
}

/// [`Tables::policy`], read over a connection. Errors: those of the methods of [`Tables`].
pub fn policy<S: Alter>(conn: &mut Connection<S>) -> Result<Policy, DatabaseFault>
    ensures { Finds S.Store conn.old conn.new result (λ records policy. policy ≡ records.policy) }
{
    let (crl_life, ocsp_life, cap) = lives_and_cap(conn)?;
    let schedule = schedule(conn)?;
    Policy::with(schedule, crl_life, ocsp_life, cap).ok_or(DatabaseFault::Store)
}
