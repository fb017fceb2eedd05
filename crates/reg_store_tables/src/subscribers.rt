//! Look-ups of subscribers.

ghost use Rattle.std.specs.Prelude.{◌≡◌};
ghost use Rattle.reg_core.specs.Records.{subscriber_in, subscriber_named};
ghost use Rattle.reg_store_tables.specs.LookUps.{Finds};

use crate::fault::DatabaseFault;
use crate::read_statements::look_up;
use crate::sizes::{Table, none_above_range};
use crate::sql::{SUBSCRIBER_BY_ID, SUBSCRIBER_BY_NAME};
use crate::sql_values::sql_key;
use crate::tables::Tables;
use reg_core::{Label, SubscriberRow};
use sqlite::types::ValueRef;
use sqlite::{Alter, params};

impl<S: Alter> Tables<S> {
    /// The subscriber with an id, if any. No subscriber has an id above 2^63 - 1, the greatest SQL INTEGER.
    pub fn subscriber(&mut self, id: u64) -> Result<Option<SubscriberRow>, DatabaseFault>
        ensures { Finds S.Store self.old self.new result (λ records row.
            row ≡ subscriber_in records.subscribers id) }
    {
        let Some(value) = sql_key(id) else {
            return none_above_range(&mut self.connection, Table::Subscribers, id);
        };
        look_up::<S, SubscriberRow>(&mut self.connection, SUBSCRIBER_BY_ID, params![&value])
    }

    pub fn subscriber_by_name(
        &mut self,
        name: &Label,
    ) -> Result<Option<SubscriberRow>, DatabaseFault>
        ensures { Finds S.Store self.old self.new result (λ records row.
            row ≡ subscriber_named records.subscribers name.now) }
    {
        look_up::<S, SubscriberRow>(
            &mut self.connection,
            SUBSCRIBER_BY_NAME,
            &[ValueRef::Text(name.as_bytes())],
        )
    }
}
