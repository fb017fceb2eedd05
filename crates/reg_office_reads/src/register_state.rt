//! Look-ups for front ends: a register's summary, open requests, longest validity for an order. `cap`: most rows of a table; `held`: how many it has.

ghost use Rattle.std.specs.Prelude.{◌≡◌, ◌<◌, ◌^◌, IfErr};
ghost use Rattle.reg_office_api.specs.LookUps.{HasLastMoment, HasRequestLoad, HasLongest, HasOpen, HasSummary, IsOfStore, rows_in};
ghost use Rattle.reg_store_tables.specs.LookUps.{Learns, LooksUp};

use reg_core::{Fault, Moment, Serial};
use reg_office_api::{RegisterSummary, RequestLoad, TableSizes};
use reg_store_tables::{DatabaseFault, Table, Tables};
use sqlite::Alter;

/// The last accepted moment.
#[tactic(auto, using(crate::proofs::Composing::answer_of_fault))]
pub fn last_in<C: Alter>(tables: &mut Tables<C>) -> Result<Moment, Fault>
    ensures looks { LooksUp C.Store tables.old tables.new (λ records. HasLastMoment records result) }
    ensures faults { IfErr result IsOfStore }
{
    let last = tables.last()?;
    Ok(last)
}

/// What the register holds: its last accepted moment, policy, counts, latest CRL and table sizes.
#[tactic(auto, using(crate::proofs::Composing::answer_of_fault))]
pub fn summary_in<C: Alter>(tables: &mut Tables<C>) -> Result<RegisterSummary, Fault>
    ensures looks { LooksUp C.Store tables.old tables.new (λ records. HasSummary records result) }
    ensures faults { IfErr result IsOfStore }
{
    let last = tables.last()?;
    let latest = tables.latest_crl()?;
    let policy = tables.policy()?;
    let rows = table_rows(tables)?;
    Ok(RegisterSummary {
        last,
        latest,
        crl_life: policy.crl_life(),
        cap: policy.cap(),
        rows,
    })
}

fn table_rows<C: Alter>(tables: &mut Tables<C>) -> Result<TableSizes, DatabaseFault>
    ensures { Learns C.Store tables.old tables.new result (λ records rows. rows ≡ rows_in records) }
{
    let subscribers = tables.held(Table::Subscribers)?;
    let orders = tables.held(Table::Orders)?;
    let certificates = tables.held(Table::Certs)?;
    let requests = tables.held(Table::Requests)?;
    let crls = tables.held(Table::Crls)?;
    Ok(TableSizes {
        subscribers,
        orders,
        certificates,
        requests,
        crls,
    })
}

/// The last accepted moment, the cap, how many requests there are, and how many for a serial number are open (`waiting`), counted up to `most`.
#[tactic(auto, using(crate::proofs::Composing::answer_of_fault))]
pub fn request_load_in<C: Alter>(
    tables: &mut Tables<C>,
    now: Moment,
    serial: Serial,
    most: u64,
) -> Result<RequestLoad, Fault>
    requires { most < 2 ^ 63 }
    ensures looks { LooksUp C.Store tables.old tables.new
        (λ records. HasRequestLoad records now serial most result) }
    ensures faults { IfErr result IsOfStore }
{
    let last = tables.last()?;
    let policy = tables.policy()?;
    let requests = tables.held(Table::Requests)?;
    let waiting = tables.open_of(serial, now, most)?;
    Ok(RequestLoad {
        last,
        cap: policy.cap(),
        requests,
        waiting,
    })
}

/// How many requests are open at the moment `now`.
#[tactic(auto, using(crate::proofs::Composing::answer_of_fault))]
pub fn open_count_in<C: Alter>(tables: &mut Tables<C>, now: Moment) -> Result<u64, Fault>
    ensures looks { LooksUp C.Store tables.old tables.new (λ records. HasOpen records now result) }
    ensures faults { IfErr result IsOfStore }
{
    let count = tables.open_count(now)?;
    Ok(count)
}

/// The longest validity in days that an order and the policy's schedule allow for a certificate with this notBefore; `None` for no such order.
pub fn longest_in<C: Alter>(
    tables: &mut Tables<C>,
    order: u64,
    not_before: Moment,
) -> Result<Option<u64>, Fault>
    ensures { LooksUp C.Store tables.old tables.new (λ records. HasLongest records order not_before result) }
{
    let row = tables.order(order)?;
    let policy = tables.policy()?;
    match row {
        Some(row) => Ok(Some(row.days.min(policy.schedule().longest(not_before)))),
        None => Ok(None),
    }
}
