//! Look-ups of certificates.

ghost use Rattle.std.specs.Prelude.{◌≡◌, ◌<◌, ◌^◌};
ghost use Rattle.reg_core.specs.Records.{certificate_in, certificate_of_order};
ghost use Rattle.reg_store_tables.specs.LookUps.{Finds, FindsIf};

use crate::fault::DatabaseFault;
use crate::read_statements::look_up;
use crate::sql::{CERT_BY_ORDER, CERT_BY_SERIAL};
use crate::sql_values::sql_number;
use crate::tables::Tables;
use reg_core::{CertRow, Serial};
use sqlite::{Alter, params};

impl<S: Alter> Tables<S> {
    /// The certificate with a serial number.
    pub fn cert(&mut self, serial: Serial) -> Result<Option<CertRow>, DatabaseFault>
        ensures { Finds S.Store self.old self.new result (λ records row.
            row ≡ certificate_in records.certificates serial) }
    {
        look_up::<S, CertRow>(
            &mut self.connection,
            CERT_BY_SERIAL,
            params![serial.bytes20().as_slice()],
        )
    }

    /// The certificate that fills the order with this id. An id above 2^63 - 1 gives `DatabaseFault::Store`; lines of commands have ids below 10^18.
    pub fn cert_of_order(&mut self, order: u64) -> Result<Option<CertRow>, DatabaseFault>
        ensures { FindsIf (λ _. order < 2 ^ 63) S.Store self.old self.new result
            (λ records row. row ≡ certificate_of_order records.certificates order) }
    {
        let value = sql_number(order)?;
        look_up::<S, CertRow>(&mut self.connection, CERT_BY_ORDER, params![&value])
    }
}
