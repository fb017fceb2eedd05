//! Look-ups of requests. No request has an id above 2^63 - 1, the greatest SQL INTEGER: for such an id, `none_above_range` finds none.

ghost use Rattle.std.specs.Prelude.{◌≡◌};
ghost use Rattle.reg_core.specs.Records.{request_in};
ghost use Rattle.reg_store_tables.specs.LookUps.{Finds};

use crate::fault::DatabaseFault;
use crate::read_statements::look_up;
use crate::sizes::{Table, none_above_range};
use crate::sql::REQUEST_BY_ID;
use crate::sql_values::sql_key;
use crate::tables::Tables;
use reg_core::RequestRow;
use sqlite::{Alter, params};

impl<S: Alter> Tables<S> {
    /// The request with an id.
    pub fn request(&mut self, id: u64) -> Result<Option<RequestRow>, DatabaseFault>
        ensures { Finds S.Store self.old self.new result (λ records row.
            row ≡ request_in records.requests id) }
    {
        let Some(value) = sql_key(id) else {
            return none_above_range(&mut self.connection, Table::Requests, id);
        };
        look_up::<S, RequestRow>(&mut self.connection, REQUEST_BY_ID, params![&value])
    }
}
