//! The counts of certificates by status, from tables derived from the records: `standing` (a state letter for each) and `kept` (the letters' counts).

ghost use Rattle.std.specs.Prelude.{◌≡◌, ◌≤◌, length, filter, IsTrue};
ghost use Rattle.sqlite.specs.Held.{state};
ghost use Rattle.reg_core.specs.Sound.{SoundRows};
ghost use Rattle.reg_core.specs.Status as status;
ghost use Rattle.reg_store_tables.specs.DerivedRows.{DerivedRows, ends_before};
ghost use Rattle.reg_store_tables.specs.Kept.{ShowsKeptNow};
ghost use Rattle.reg_store_tables.specs.LookUps.{Finds};
ghost use Rattle.reg_store_tables.specs.Shows.{ShowsBothNow};

use crate::fault::DatabaseFault;
use crate::read_statements::look_up_one;
use crate::rows::Number;
use crate::sql::{COUNTS, ENDED_BEFORE};
use crate::sql_values::sql_number;
use crate::tables::Tables;
use reg_core::{Counts, Moment};
use sqlite::{Alter, Connection, params};

impl<S: Alter> Tables<S> {
    /// How many registered certificates are good, revoked and expired at a moment; unspecified for a moment before the last accepted one.
    pub fn counts(&mut self, now: Moment) -> Result<Counts, DatabaseFault>
        ensures { Finds S.Store self.old self.new result (λ records found.
            ShowsKeptNow (state S.Store self.old) records → SoundRows records → records.last ≤ now
            → found ≡ status.counts records now) }
    {
        let kept = stored_counts_at_last(&mut self.connection)?;
        let ended = ended_before(&mut self.connection, now)?;
        Ok(Counts {
            good: kept.good.checked_sub(ended).ok_or(DatabaseFault::Store)?,
            revoked: kept.revoked,
            expired: kept.expired.checked_add(ended).ok_or(DatabaseFault::Store)?,
        })
    }
}

/// The counts in the table `kept`, as of the last accepted moment. The call reads one row.
pub fn stored_counts_at_last<S: Alter>(conn: &mut Connection<S>) -> Result<Counts, DatabaseFault>
    ensures { Finds S.Store conn.old conn.new result (λ records counts.
        (kept : DerivedRows) → ShowsBothNow (state S.Store conn.old) records kept → counts ≡ kept.counts) }
{
    look_up_one::<S, Counts>(conn, COUNTS, &[])
}

/// How many certificates with the letter `G` (good) have a notAfter before `now`: those that have expired since the last accepted moment.
fn ended_before<S: Alter>(conn: &mut Connection<S>, now: Moment) -> Result<u64, DatabaseFault>
    ensures { Finds S.Store conn.old conn.new result (λ records ended.
        (kept : DerivedRows) → ShowsBothNow (state S.Store conn.old) records kept
        → IsTrue (state S.Store conn.old).is_open
        × (length kept.letters ≤ 1000000 → ended ≡ length (filter (ends_before now) kept.letters))) }
{
    let value = sql_number(now.secs())?;
    look_up_one::<S, Number>(conn, ENDED_BEFORE, params![&value])
}
