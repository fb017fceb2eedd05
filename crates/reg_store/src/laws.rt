//! Theorems about a machine that stops in a call: each is the contract of a function that does nothing. In the definitions, `IsOpenedAgain`: after a
//! stop, the database was opened again (as reg_desk_files `restart` ensures); `IsLive`: if it is open, it obeys its schema (`Connection::schema`).

ghost use Rattle.reg_store.specs.OpenedAgain.{OpensEmptyOrMade, OpensWithAnIssuer, OpensWithASchedule, OpensWithTheSame};

use sqlite::Alter;

/// A stop during `create` leaves the database as it was, or with a whole register that has no records.
pub fn a_register_opened_after_a_stop_during_create_is_none_or_an_empty_one<S: Alter>()
    ensures { OpensEmptyOrMade S.Store }
{}

/// A register with sound records that is opened after a stop during its migration shows the same records.
pub fn a_register_opened_after_a_stop_during_a_migration_shows_the_same_records<S: Alter>()
    ensures { OpensWithTheSame S.Store }
{}

/// A register that is opened after a stop in `set_schedule` has the schedule from before the call, or the new one.
pub fn a_register_opened_after_a_stop_has_the_schedule_before_or_after<S: Alter>()
    ensures { OpensWithASchedule S.Store }
{}

/// A register that is opened after a stop in `set_issuer` has the issuer from before the call, or the new one.
pub fn a_register_opened_after_a_stop_has_the_issuer_before_or_after<S: Alter>()
    ensures { OpensWithAnIssuer S.Store }
{}
