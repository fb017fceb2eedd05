//! Look-ups of revocations.

ghost use Rattle.std.specs.Prelude.{◌≡◌, ◌<◌, ◌^◌, nat_lt, filter, IsTrue};
ghost use Rattle.sqlite.specs.Held.{state};
ghost use Rattle.reg_core.specs.Due.{earliest, unlisted};
ghost use Rattle.reg_core.specs.Records.{revocation_in};
ghost use Rattle.reg_store_tables.specs.LookUps.{Finds, FindsIf};

use crate::fault::DatabaseFault;
use crate::read_statements::look_up;
use crate::rows::ClockMoment;
use crate::sizes::{Table, held};
use crate::sql::{EARLIEST_ABOVE, REVOCATION_BY_SERIAL};
use crate::sql_values::sql_number;
use crate::tables::Tables;
use reg_core::{Moment, RevocationRow, Serial};
use sqlite::{Alter, Connection, params};

impl<S: Alter> Tables<S> {
    /// The revocation of a serial number, if there is one.
    pub fn revocation(&mut self, serial: Serial) -> Result<Option<RevocationRow>, DatabaseFault>
        ensures { Finds S.Store self.old self.new result (λ records row.
            row ≡ revocation_in records.revocations serial) }
    {
        look_up::<S, RevocationRow>(
            &mut self.connection,
            REVOCATION_BY_SERIAL,
            params![serial.bytes20().as_slice()],
        )
    }

    /// The moment of the earliest revocation whose first CRL has not been issued yet. The call scans the table `revocation`.
    pub fn earliest_unlisted(&mut self) -> Result<Option<Moment>, DatabaseFault>
        ensures { Finds S.Store self.old self.new result (λ records at. at ≡ earliest (unlisted records)) }
    {
        // CRLs are numbered from 1 on, so the number of rows is that of the latest CRL.
        let latest = held(&mut self.connection, Table::Crls)?;
        earliest_above(&mut self.connection, latest)
    }
}

fn earliest_above<S: Alter>(
    conn: &mut Connection<S>,
    number: u64,
) -> Result<Option<Moment>, DatabaseFault>
    ensures { FindsIf (λ _. number < 2 ^ 63) S.Store conn.old conn.new result
        (λ records at. IsTrue (state S.Store conn.old).is_open
        × (at ≡ earliest (filter (λ row. nat_lt number row.first) records.revocations))) }
{
    let value = sql_number(number)?;
    look_up::<S, ClockMoment>(conn, EARLIEST_ABOVE, params![&value])
}
