ghost use Rattle.reg_core.specs.declared.command.Command.TheVariants.{Order as EnterOrder};
ghost use Rattle.reg_office_reads.specs.Looking.{DecidesCommand};

use crate::decision_head::{Decided, head_at};
use reg_core::{Change, Fault, Moment, Reply, decide_order};
use reg_store_tables::{Table, Tables};
use sqlite::Alter;

/// Decides the command `order`. `head`: now, the last accepted moment, the policy, the number of orders. `known`: the subscriber, if there is one.
pub(crate) fn enter_order<C: Alter>(
    tables: &mut Tables<C>,
    now: Moment,
    subscriber: u64,
    days: u64,
) -> Result<Decided, Fault>
    ensures { DecidesCommand C.Store tables.old tables.new now (EnterOrder subscriber days) result }
{
    let head = head_at(tables, now, Table::Orders)?;
    let known = tables.subscriber(subscriber)?;
    let row = decide_order(&head, known, days)?;
    Ok((Reply::Order { id: row.id }, Change::Order(row)))
}
