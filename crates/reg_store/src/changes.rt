//! The changes of a register. Each has the errors of the reg_store_changes function that it calls. The moment `now` becomes the last accepted one.

ghost use Rattle.std.specs.Prelude.{◌≡◌, OnOk, not, true};
ghost use Rattle.reg_core.specs.declared.change.Change.TheVariants.{Touch, Subscriber, Order, Certificate, Request, Decline, Revocation, Crl};
ghost use Rattle.reg_store_changes.specs.ChangeSteps.{Enters, ReplacesIssuer, WritesSchedule};
ghost use Rattle.reg_store_changes.specs.MadeChanges.{MakesChange, SetsIssuer, SetsSchedule};
ghost use Rattle.reg_store_changes.specs.WithinTransactions.{BeginsTransaction, EndsTransaction, MakesRowsWithin, MakesWithin, StepsWithin};

use crate::store::Store;
use reg_core::{
    CertRow, Change, CrlRow, Moment, OrderRow, RequestRow, RevocationRow, Schedule, SubscriberRow,
};
use reg_der::Issuer;
use reg_store_tables::DatabaseFault;
use sqlite::Alter;

impl<S: Alter> Store<S> {
    /// Begins a transaction, whose changes [`Store::enter`] makes and [`Store::end`] commits.
    pub fn begin(&mut self) -> Result<(), DatabaseFault>
        ensures { BeginsTransaction S.Store self.old self.new result }
    {
        reg_store_changes::begin(&mut self.tables.connection)
    }

    /// As [`Store::apply`], but inside the transaction that is under way.
    pub fn enter(&mut self, now: Moment, change: &Change<'_>) -> Result<(), DatabaseFault>
        ensures made { MakesWithin S.Store self.old self.new result (Enters now change.now) }
        ensures stepped { StepsWithin S.Store self.old self.new }
        ensures under_way { OnOk result (self.old.in_transaction ≡ true) }
    {
        reg_store_changes::enter(&mut self.tables.connection, now, change)
    }

    /// Sets the schedule of longest validities inside the transaction that is under way. Errors: those of [`reg_store_changes::enter_schedule`].
    pub fn enter_schedule(&mut self, schedule: Schedule) -> Result<(), DatabaseFault>
        ensures made { MakesWithin S.Store self.old self.new result (WritesSchedule schedule) }
        ensures stepped { StepsWithin S.Store self.old self.new }
        ensures under_way { OnOk result (self.old.in_transaction ≡ true) }
    {
        reg_store_changes::enter_schedule(&mut self.tables.connection, &schedule)
    }

    /// Sets the issuer's Name and key identifiers inside the transaction that is under way. The issuer must have the same key as before; the call
    /// doesn't check it. Errors: those of [`reg_store_changes::enter_issuer`].
    pub fn enter_issuer(&mut self, issuer: &Issuer) -> Result<(), DatabaseFault>
        ensures made { MakesRowsWithin S.Store self.old self.new result (ReplacesIssuer issuer.now) }
        ensures stepped { StepsWithin S.Store self.old self.new }
        ensures under_way { OnOk result (self.old.in_transaction ≡ true) }
    {
        reg_store_changes::enter_issuer(&mut self.tables.connection, issuer)
    }

    /// Whether no transaction is under way.
    pub fn is_idle(&self) -> bool
        ensures { result ≡ not self.now.in_transaction }
    {
        self.tables.connection.is_autocommit()
    }

    /// Ends the transaction that is under way: commits it if `made`, the result of its changes, is `Ok`; else rolls it back and returns that error.
    pub fn end(&mut self, made: Result<(), DatabaseFault>) -> Result<(), DatabaseFault>
        ensures { EndsTransaction S.Store self.old self.new made result }
    {
        reg_store_changes::end(&mut self.tables.connection, made)
    }

    /// Makes a change in a transaction of its own, by [`reg_store_changes::apply`], as do the methods below, down to [`Store::add_crl`].
    pub fn apply(&mut self, now: Moment, change: &Change<'_>) -> Result<(), DatabaseFault>
        ensures { MakesChange S.Store self.old self.new now change.now result }
    {
        reg_store_changes::apply(&mut self.tables.connection, now, change)
    }

    /// Changes only the last accepted moment. In tables derived from the records, good certificates whose notAfter is before `now` become expired.
    pub fn touch(&mut self, now: Moment) -> Result<(), DatabaseFault>
        ensures { MakesChange S.Store self.old self.new now Touch result }
    {
        self.apply(now, &Change::Touch)
    }

    pub fn add_subscriber(&mut self, now: Moment, row: SubscriberRow) -> Result<(), DatabaseFault>
        ensures { MakesChange S.Store self.old self.new now (Subscriber row) result }
    {
        self.apply(now, &Change::Subscriber(row))
    }

    pub fn add_order(&mut self, now: Moment, row: OrderRow) -> Result<(), DatabaseFault>
        ensures { MakesChange S.Store self.old self.new now (Order row) result }
    {
        self.apply(now, &Change::Order(row))
    }

    pub fn add_cert(&mut self, now: Moment, row: CertRow) -> Result<(), DatabaseFault>
        ensures { MakesChange S.Store self.old self.new now (Certificate row) result }
    {
        self.apply(now, &Change::Certificate(row))
    }

    pub fn add_request(&mut self, now: Moment, row: RequestRow) -> Result<(), DatabaseFault>
        ensures { MakesChange S.Store self.old self.new now (Request row) result }
    {
        self.apply(now, &Change::Request(row))
    }

    /// Declines the request with an id. If there is none, the call succeeds, and no request changes.
    pub fn decline(&mut self, now: Moment, id: u64) -> Result<(), DatabaseFault>
        ensures { MakesChange S.Store self.old self.new now (Decline id) result }
    {
        self.apply(now, &Change::Decline(id))
    }

    /// Adds the revocation of a certificate, whose notAfter the caller gives. [`DatabaseFault::Store`] also if the certificate is not good.
    pub fn add_revocation(
        &mut self,
        now: Moment,
        row: RevocationRow,
        not_after: Moment,
    ) -> Result<(), DatabaseFault>
        ensures { MakesChange S.Store self.old self.new now (Revocation row not_after) result }
    {
        self.apply(now, &Change::Revocation(row, not_after))
    }

    /// Adds a CRL. If no CRL is yet the last to list a revocation, and its certificate's notAfter is before thisUpdate, records this CRL as the last.
    pub fn add_crl(&mut self, now: Moment, row: CrlRow, der: &[u8]) -> Result<(), DatabaseFault>
        ensures { MakesChange S.Store self.old self.new now (Crl row der.entry) result }
    {
        self.apply(now, &Change::Crl(row, der))
    }

    /// Sets the schedule of longest validities. The last accepted moment doesn't change.
    pub fn set_schedule(&mut self, schedule: Schedule) -> Result<(), DatabaseFault>
        ensures { SetsSchedule S.Store self.old self.new schedule result }
    {
        reg_store_changes::set_schedule(&mut self.tables.connection, &schedule)
    }

    /// Sets the issuer's Name and key identifiers, and nothing else. The issuer must have the same key as before; the call doesn't check the key.
    pub fn set_issuer(&mut self, issuer: &Issuer) -> Result<(), DatabaseFault>
        ensures { SetsIssuer S.Store self.old self.new issuer.now result }
    {
        reg_store_changes::set_issuer(&mut self.tables.connection, issuer)
    }
}
