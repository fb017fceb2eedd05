//! Look-ups of orders. No order has an id above 2^63 - 1, the greatest SQL INTEGER: for such an id, `none_above_range` finds none.

ghost use Rattle.std.specs.Prelude.{◌≡◌};
ghost use Rattle.reg_core.specs.Records.{order_in};
ghost use Rattle.reg_store_tables.specs.LookUps.{Finds};

use crate::fault::DatabaseFault;
use crate::read_statements::look_up;
use crate::sizes::{Table, none_above_range};
use crate::sql::ORDER_BY_ID;
use crate::sql_values::sql_key;
use crate::tables::Tables;
use reg_core::OrderRow;
use sqlite::{Alter, params};

impl<S: Alter> Tables<S> {
    /// The order with an id.
    pub fn order(&mut self, id: u64) -> Result<Option<OrderRow>, DatabaseFault>
        ensures { Finds S.Store self.old self.new result (λ records row. row ≡ order_in records.orders id) }
    {
        let Some(value) = sql_key(id) else {
            return none_above_range(&mut self.connection, Table::Orders, id);
        };
        look_up::<S, OrderRow>(&mut self.connection, ORDER_BY_ID, params![&value])
    }
}
