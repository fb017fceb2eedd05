ghost use Rattle.reg_core.specs.declared.command.Command.TheVariants.{Subscriber as EnterSubscriber};
ghost use Rattle.reg_office_reads.specs.Looking.{DecidesCommand};

use crate::decision_head::{Decided, head_at};
use reg_core::{Change, Fault, Label, Moment, Reply, decide_subscriber};
use reg_store_tables::{Table, Tables};
use sqlite::Alter;

/// Decides the command `subscriber`. `head`: now, last accepted moment, policy, subscriber count. `by_name`: the subscriber with the name, if any.
pub(crate) fn enter_subscriber<C: Alter>(
    tables: &mut Tables<C>,
    now: Moment,
    name: Label,
) -> Result<Decided, Fault>
    ensures { DecidesCommand C.Store tables.old tables.new now (EnterSubscriber name) result }
{
    let head = head_at(tables, now, Table::Subscribers)?;
    let by_name = tables.subscriber_by_name(&name)?;
    let row = decide_subscriber(&head, name, by_name)?;
    Ok((Reply::Subscriber { id: row.id }, Change::Subscriber(row)))
}
