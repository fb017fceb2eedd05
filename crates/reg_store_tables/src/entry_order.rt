//! Reads pages of tables in the order of entry, and looks up declined requests. A number above 2^63 - 1 gives `DatabaseFault::Store`.

ghost use Rattle.std.specs.Prelude.{◌≡◌, ◌<◌, ◌^◌, ◌&&◌, drop, filter, length, map, nat_le, nat_lt, take};
ghost use Rattle.reg_core.specs.Sound.{SoundRows};
ghost use Rattle.reg_store_tables.specs.LookUps.{FindsIf};

use crate::fault::DatabaseFault;
use crate::read_statements::{look_up_one, look_up_page};
use crate::rows::{Number, RowKind};
use crate::sql::{
    CERTS_ENTERED_AFTER, DECLINED_AFTER, DECLINED_UP_TO, ORDERS_ENTERED_AFTER,
    REQUESTS_ENTERED_AFTER, REVOCATIONS_ENTERED_AFTER, SUBSCRIBERS_ENTERED_AFTER,
};
use crate::sql_values::sql_number;
use crate::tables::Tables;
use reg_core::{CertRow, OrderRow, RequestRow, RevocationRow, SubscriberRow};
use sqlite::{Alter, params};

/// A kind of row whose table is read in the order of entry.
pub trait Entered: RowKind<Record = Self> {
    ghost use Rattle.std.specs.Prelude.{List};
    ghost use Rattle.reg_core.specs.Records.{Records};
    ghost use Rattle.reg_store_tables.specs.Pages.{ReadsPage, entered_page};

    /// The rows of this kind in a register's records, in the order of entry.
    ghost entered: { Records → List Self };

    /// The SQL statement of [`Tables::entered_after`].
    fn entered_sql() -> &'static str
        ensures { ReadsPage Self.has_valid_serial Self.has_values Self.shown
            (entered_page entered) result.now };
}

impl Entered for SubscriberRow {
    ghost entered = { λ records. records.subscribers };

    #[tactic(auto, using(crate::proofs::EnteredLemmas::subscribers_page))]
    fn entered_sql() -> &'static str {
        SUBSCRIBERS_ENTERED_AFTER
    }
}

impl Entered for OrderRow {
    ghost entered = { λ records. records.orders };

    #[tactic(auto, using(crate::proofs::EnteredLemmas::orders_page))]
    fn entered_sql() -> &'static str {
        ORDERS_ENTERED_AFTER
    }
}

impl Entered for CertRow {
    ghost entered = { λ records. records.certificates };

    #[tactic(auto, using(crate::proofs::EnteredLemmas::certificates_page))]
    fn entered_sql() -> &'static str {
        CERTS_ENTERED_AFTER
    }
}

impl Entered for RequestRow {
    ghost entered = { λ records. records.requests };

    #[tactic(auto, using(crate::proofs::EnteredLemmas::requests_page))]
    fn entered_sql() -> &'static str {
        REQUESTS_ENTERED_AFTER
    }
}

impl Entered for RevocationRow {
    ghost entered = { λ records. records.revocations };

    #[tactic(auto, using(crate::proofs::EnteredLemmas::revocations_page))]
    fn entered_sql() -> &'static str {
        REVOCATIONS_ENTERED_AFTER
    }
}

impl<S: Alter> Tables<S> {
    /// At most `most` rows of the table of `T`, after its first `after` rows, whose ids (or rowids) are 1 to `after`.
    pub fn entered_after<T: Entered>(
        &mut self,
        after: u64,
        most: u64,
    ) -> Result<Vec<T>, DatabaseFault>
        ensures { FindsIf (λ _. (after < 2 ^ 63) × (most < 2 ^ 63)) S.Store self.old self.new result
            (λ records found. found.items ≡ take most (drop after (T.entered records))) }
    {
        look_up_page::<S, T>(&mut self.connection, T::entered_sql(), after, most)
    }

    /// The ids of the declined requests past the id `after`, ascending, at most `most` ids. The call scans the table `request` from that id on.
    pub fn declined_after(&mut self, after: u64, most: u64) -> Result<Vec<u64>, DatabaseFault>
        ensures { FindsIf (λ _. (after < 2 ^ 63) × (most < 2 ^ 63)) S.Store self.old self.new result
            (λ records found.
            found.items ≡ take most (filter (nat_lt after)
            (map (λ row. row.id) (filter (λ row. row.declined) records.requests)))) }
    {
        look_up_page::<S, Number>(&mut self.connection, DECLINED_AFTER, after, most)
    }

    /// How many requests up to an id are declined. The call scans the table `request` up to that id.
    pub fn declined_up_to(&mut self, last: u64) -> Result<u64, DatabaseFault>
        ensures { FindsIf (λ _. last < 2 ^ 63) S.Store self.old self.new result
            (λ records count. SoundRows records
            → count ≡ length (filter (λ row. row.declined && nat_le row.id last) records.requests)) }
    {
        let key = sql_number(last)?;
        look_up_one::<S, Number>(&mut self.connection, DECLINED_UP_TO, params![&key])
    }
}
