//! Look-ups of pages: at most `most` rows, whose keys are above `after`, in the order of keys. A number above 2^63 - 1 gives `DatabaseFault::Store`.

ghost use Rattle.std.specs.Prelude.{◌≡◌, ◌<◌, ◌^◌, map, take};
ghost use Rattle.reg_core.specs.Crls.{row_of};
ghost use Rattle.reg_core.specs.Serial.{serial_bytes};
ghost use Rattle.reg_core.specs.Sound.{SoundRows};
ghost use Rattle.reg_core.specs.AscendingRows.{key_of, past};
ghost use Rattle.reg_store_tables.specs.LookUps.{FindsIf};

use crate::fault::DatabaseFault;
use crate::read_statements::{look_up_all, look_up_page};
use crate::sql::{CERTS_AFTER, CRLS_AFTER, REVOCATIONS_AFTER};
use crate::sql_values::sql_number;
use crate::tables::Tables;
use reg_core::{CertRow, CrlRow, RevocationRow, Serial};
use sqlite::{Alter, params};

/// The key in SQL: the 20 bytes of a serial number, big-endian; for `None` those of 0, which is below each serial number.
#[tactic(auto, unfolding(reg_core::specs::Serial::serial_bytes))]
fn key_bytes(after: Option<Serial>) -> [u8; 20]
    ensures bytes { result ≡ serial_bytes (key_of after) }
    ensures low { key_of after < 2 ^ 159 }
{
    match after {
        Some(serial) => serial.bytes20(),
        None => [0; 20],
    }
}

impl<S: Alter> Tables<S> {
    /// The certificates past a serial number (`None`: from the first one on), in ascending order of their serial numbers.
    pub fn certs_after(
        &mut self,
        after: Option<Serial>,
        most: u64,
    ) -> Result<Vec<CertRow>, DatabaseFault>
        ensures { FindsIf (λ _. most < 2 ^ 63) S.Store self.old self.new result (λ records found.
            SoundRows records
            → found.items ≡ take most (past (λ row. row.serial) (key_of after) records.certificates)) }
    {
        let limit = sql_number(most)?;
        let key = key_bytes(after);
        look_up_all::<S, CertRow>(
            &mut self.connection,
            CERTS_AFTER,
            params![key.as_slice(), &limit],
        )
    }

    /// The revocations past a serial number (`None`: from the first one on), in ascending order of their serial numbers.
    pub fn revocations_after(
        &mut self,
        after: Option<Serial>,
        most: u64,
    ) -> Result<Vec<RevocationRow>, DatabaseFault>
        ensures { FindsIf (λ _. most < 2 ^ 63) S.Store self.old self.new result (λ records found.
            SoundRows records
            → found.items ≡ take most (past (λ row. row.serial) (key_of after) records.revocations)) }
    {
        let limit = sql_number(most)?;
        let key = key_bytes(after);
        look_up_all::<S, RevocationRow>(
            &mut self.connection,
            REVOCATIONS_AFTER,
            params![key.as_slice(), &limit],
        )
    }

    /// The CRLs past a number, without their bytes, in ascending order.
    pub fn crls_after(&mut self, after: u64, most: u64) -> Result<Vec<CrlRow>, DatabaseFault>
        ensures { FindsIf (λ _. (after < 2 ^ 63) × (most < 2 ^ 63))
            S.Store self.old self.new result (λ records found.
            found.items ≡ map row_of (take most (past (λ crl. crl.number) after records.crls))) }
    {
        look_up_page::<S, CrlRow>(&mut self.connection, CRLS_AFTER, after, most)
    }
}
