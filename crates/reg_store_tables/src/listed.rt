//! Look-ups in the table `listed`, which is derived from the records: the entries of CRLs, and the CRLs that list a serial number.

ghost use Rattle.std.specs.Prelude.{◌≡◌, ◌<◌, ◌≤◌, ◌^◌, ◌↔◌, List, map, length, IsTrue, IfOk, IfErr};
ghost use Rattle.std.specs.List.{AllByRecursion};
ghost use Rattle.sqlite.specs.Held.{state};
ghost use Rattle.reg_core.specs.Crls.{EntriesAscend, entries};
ghost use Rattle.reg_core.specs.Queries.{listing};
ghost use Rattle.reg_core.specs.Serial.{IsSerial};
ghost use Rattle.reg_store_tables.specs.Kept.{ShowsKeptNow};
ghost use Rattle.reg_store_tables.specs.LookUps.{Finds, FindsIf};
ghost use Rattle.reg_store_tables.specs.ReadStatements.{shown_entry};
ghost use Rattle.reg_store_tables.specs.RecordValues.{AreMomentAndReason};

use crate::fault::DatabaseFault;
use crate::read_statements::{look_up, read};
use crate::rows::rows_in;
use crate::sql::{ENTRIES, LISTED_BY_SERIAL};
use crate::sql_values::sql_number;
use crate::tables::Tables;
use reg_core::{Entry, Listing, Serial};
use sqlite::{Alter, Row, params};

const MOST_ENTRIES: usize = 1_000_000;

fn ascends(entries: &[Entry]) -> bool
    ensures { IsTrue result ↔ EntriesAscend entries.now }
{
    entries.is_sorted_by(|earlier, later| earlier.serial < later.serial)
}

/// The entries in the rows. `Store` if there are over 1,000,000, the most rows of any table, or if their serial numbers don't ascend.
fn entries_of(rows: &Vec<Row>) -> Result<Vec<Entry>, DatabaseFault>
    ensures read { (shown : List Entry) → AllByRecursion (λ entry. IsSerial entry.serial) shown
        → rows.now.items ≡ map shown_entry shown → IfOk result (λ found. found.items ≡ shown) }
    ensures ascending { IfOk result (λ found. EntriesAscend found.items) }
    ensures at_most { IfOk result (λ found. length found.items ≤ 1000000) }
    ensures has { (shown : List Entry) → AllByRecursion (λ entry. IsSerial entry.serial) shown
        → rows.now.items ≡ map shown_entry shown
        → AllByRecursion (λ entry. AreMomentAndReason entry.at entry.reason) shown → EntriesAscend shown
        → length shown ≤ 1000000 → IfErr result (λ fault. fault ≡ DatabaseFault.Memory) }
{
    let entries = rows_in::<Entry>(*rows.allocator(), rows)?;
    if entries.len() > MOST_ENTRIES {
        return Err(DatabaseFault::Store);
    }
    if !ascends(&entries) {
        return Err(DatabaseFault::Store);
    }
    Ok(entries)
}

impl<S: Alter> Tables<S> {
    /// The entries of CRL `number` (issued, or the next one), sorted by serial number. `Store` if over 1,000,000, or if `number` is above 2^63 - 1.
    pub fn entries(&mut self, number: u64) -> Result<Vec<Entry>, DatabaseFault>
        ensures finds { FindsIf (λ _. number < 2 ^ 63) S.Store self.old self.new result (λ records found.
            ShowsKeptNow (state S.Store self.old) records → found.items ≡ entries records number) }
        ensures ascending { IfOk result (λ found. EntriesAscend found.items) }
        ensures at_most { IfOk result (λ found. length found.items ≤ 1000000) }
    {
        let value = sql_number(number)?;
        let found = read(&mut self.connection, ENTRIES, params![&value])?;
        entries_of(&found)
    }

    /// For a revoked serial number: the number of the first CRL that lists it (issued or not yet), and of the last one, once issued. Else `None`.
    pub fn listing(&mut self, serial: Serial) -> Result<Option<Listing>, DatabaseFault>
        ensures { Finds S.Store self.old self.new result (λ records found.
            ShowsKeptNow (state S.Store self.old) records → found ≡ listing records serial) }
    {
        look_up::<S, Listing>(
            &mut self.connection,
            LISTED_BY_SERIAL,
            params![serial.bytes20().as_slice()],
        )
    }
}
