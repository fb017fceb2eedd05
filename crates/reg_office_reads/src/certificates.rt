ghost use Rattle.reg_core_laws.specs.Import.{register};
ghost use Rattle.reg_office_reads.specs.Looking.{DecidesCommand};

use crate::decision_head::{Decided, head_at};
use reg_core::{CertRow, Change, Fault, Moment, Reply, decide_register};
use reg_store_tables::{Table, Tables};
use sqlite::Alter;

/// Decides the command `register` for the certificate `wanted`. `head`: now, the last accepted moment, the policy, the number of certificates.
/// `by_order`: the registered certificate of the order, if any. `by_serial`: the registered one with the serial number, if any.
pub(crate) fn register<C: Alter>(
    tables: &mut Tables<C>,
    now: Moment,
    wanted: CertRow,
) -> Result<Decided, Fault>
    ensures { DecidesCommand C.Store tables.old tables.new now (register wanted) result }
{
    let head = head_at(tables, now, Table::Certs)?;
    let order = tables.order(wanted.order)?;
    let by_order = tables.cert_of_order(wanted.order)?;
    let by_serial = tables.cert(wanted.serial)?;
    match decide_register(&head, wanted, order, by_order, by_serial)? {
        Some(row) => Ok((Reply::Registered, Change::Certificate(row))),
        // The same certificate is registered already: only the last accepted moment changes.
        None => Ok((Reply::Same, Change::Touch)),
    }
}
