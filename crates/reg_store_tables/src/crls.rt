//! Look-ups of CRLs. No CRL has a number above 2^63 - 1, the greatest SQL INTEGER: for such a number, `none_above_range` finds none.

ghost use Rattle.std.specs.Prelude.{◌≡◌, option_map};
ghost use Rattle.reg_core.specs.Crls.{latest, row_of};
ghost use Rattle.reg_core.specs.Records.{crl_in};
ghost use Rattle.reg_store_tables.specs.LookUps.{Finds};

use crate::fault::DatabaseFault;
use crate::read_statements::{at_most_one, look_up, read};
use crate::sizes::{Table, none_above_range};
use crate::sql::{CRL_BYTES, LATEST_CRL};
use crate::sql_values::sql_key;
use crate::tables::Tables;
use reg_core::CrlRow;
use sqlite::{Alter, Connection, params};

impl<S: Alter> Tables<S> {
    /// The number and thisUpdate of the CRL that was issued last. Its bytes are not read.
    pub fn latest_crl(&mut self) -> Result<Option<CrlRow>, DatabaseFault>
        ensures { Finds S.Store self.old self.new result (λ records row.
            row ≡ option_map row_of (latest records.crls)) }
    {
        look_up::<S, CrlRow>(&mut self.connection, LATEST_CRL, &[])
    }

    /// The DER of a CRL (RFC 5280 5.1), by its number (5.2.3); `None` if there is no such CRL.
    pub fn crl(&mut self, number: u64) -> Result<Option<Vec<u8>>, DatabaseFault>
        ensures { Finds S.Store self.old self.new result (λ records der.
            option_map (λ bytes. bytes.items) der
            ≡ option_map (λ crl. crl.bytes) (crl_in records.crls number)) }
    {
        crl(&mut self.connection, number)
    }
}

/// [`Tables::crl`], read over a connection. Errors: those of the methods of [`Tables`].
pub fn crl<S: Alter>(
    conn: &mut Connection<S>,
    number: u64,
) -> Result<Option<Vec<u8>>, DatabaseFault>
    ensures { Finds S.Store conn.old conn.new result (λ records der.
        option_map (λ bytes. bytes.items) der ≡ option_map (λ crl. crl.bytes) (crl_in records.crls number)) }
{
    let Some(value) = sql_key(number) else {
        return none_above_range(conn, Table::Crls, number);
    };
    let found = read(conn, CRL_BYTES, params![&value])?;
    match at_most_one(&found)? {
        None => Ok(None),
        Some(row) => Ok(Some(row.get::<Vec<u8>>(0)?)),
    }
}
