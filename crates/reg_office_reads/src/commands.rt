ghost use Rattle.std.specs.Prelude.{◌≢◌, ◌<◌};
ghost use Rattle.reg_core.specs.Calendar.{clock_end};
ghost use Rattle.reg_core.specs.declared.command.Command.TheVariants.{Crl as IssueCrl};
ghost use Rattle.reg_office_reads.specs.Looking.{DecidesCommand};

use crate::certificates::register;
use crate::decision_head::Decided;
use crate::orders::enter_order;
use crate::requests::{decline, enter_request, revoke};
use crate::subscribers::enter_subscriber;
use reg_core::{CertRow, Command, Fault, Moment};
use reg_store_tables::Tables;
use sqlite::Alter;

/// Decides a command at the moment `now`: its refusal, or its reply and the change to make. No table changes. (Not `crl`, which needs the signer.)
pub fn decide<C: Alter>(
    tables: &mut Tables<C>,
    now: Moment,
    command: &Command,
) -> Result<Decided, Fault>
    requires before_end { now < clock_end }
    requires no_crl { command.now ≢ IssueCrl }
    ensures { DecidesCommand C.Store tables.old tables.new now command.now result }
{
    match *command {
        Command::Subscriber { name } => enter_subscriber(tables, now, name),
        Command::Order { subscriber, days } => enter_order(tables, now, subscriber, days),
        Command::Register {
            order,
            serial,
            not_before,
            not_after,
        } => {
            let wanted = CertRow {
                serial,
                order,
                not_before,
                not_after,
            };
            register(tables, now, wanted)
        }
        Command::Request { serial, ground } => enter_request(tables, now, serial, ground),
        Command::Decline { request } => decline(tables, now, request),
        Command::Revoke { request } => revoke(tables, now, request),
        Command::Crl => unreachable!(),
    }
}
