//! The job `list`: writes a whole list of a register.

ghost use Rattle.std.specs.Prelude.{◌≡◌, ◌++◌, IfErr, IfOk, OnOk, flat_map};
ghost use Rattle.reg_core_lists.specs.Filters.{filtered_rows};
ghost use Rattle.reg_office_api.specs.Items.{items_of};
ghost use Rattle.reg_office_api.specs.Calls.{LeadsIn};
ghost use Rattle.reg_core_lists.specs.Pages.{GivesWholeList};
ghost use Rattle.reg_core_lists.specs.Texts.{opening_text, row_text};
ghost use Rattle.reg_desk_jobs.specs.Ends.{IsMomentOf, ListAt};

use crate::jobs::print_result;
use reg_core::{Fault, Moment};
use reg_core_lists::{Cursor, Filter, Format, Row, header, put_rows};
use reg_desk_cli::{Failure, ListJob};
use reg_desk_service::{Machine, open_unsigned};
use reg_office_api::Office;
use std::alloc::Global;
use std::io::Write;

/// The most rows that one call of [`Office::page`] returns. The list does not depend on it.
const MOST_ROWS: u64 = 1_000;

/// Writes a list of a register, with each status at the job's moment, or else at the clock's. Nothing is written before all rows are read. Errors:
/// `Read` if the clock can't be read; those of [`Machine::check_database`], [`Machine::open_in`] and [`Office::page`]; `Write`.
pub fn list<M: Machine, W: Write>(
    alloc: Global,
    machine: &mut M,
    job: &ListJob<'_>,
    writer: &mut W,
) -> Result<(), Failure>
    ensures { ListAt M.Machine M.Office.Office W.contents machine.old machine.new writer.old writer.new
        job.now result }
{
    let now = moment_of(machine, job.moment)?;
    let path = job.file.as_str();
    let mut register = open_unsigned(machine, path)?;
    let outcome = list_text::<M>(alloc, &mut register, now, job);
    machine.close(path, register);
    print_result(writer, outcome)
}

fn moment_of<M: Machine>(machine: &M, wanted_moment: Option<Moment>) -> Result<Moment, Failure>
    ensures ok { IfOk result (IsMomentOf M.clock_reached wanted_moment) }
    ensures err { IfErr result (λ why. why ≡ Failure.Fault Fault.Read) }
{
    match wanted_moment {
        Some(now) => Ok(now),
        None => match machine.moment() {
            Ok(now) => Ok(now),
            Err(_) => Err(Failure::Fault(Fault::Read)),
        },
    }
}

fn list_text<M: Machine>(
    alloc: Global,
    register: &mut M::Office,
    now: Moment,
    wanted: &ListJob<'_>,
) -> Result<Vec<u8>, Fault>
    ensures { LeadsIn M.Office.Office
        (λ identity before after.
        GivesWholeList before now wanted.now.form wanted.now.filter wanted.now.from (items_of result) after)
        register.old register.new }
{
    let mut text = opening(alloc, wanted.form, wanted.from)?;
    let mut next = Some(wanted.from);
    for _ in 0..u64::MAX {
        match next {
            Some(at) => {
                let page = register.page(alloc, now, at, MOST_ROWS)?;
                put(alloc, &mut text, wanted.form, &wanted.filter, &page.rows)?;
                next = page.next;
            }
            None => return Ok(text),
        }
    }
    // Not reached: no register has this many pages.
    Err(Fault::Store)
}

/// The text before the first row: in CSV the header of the list that the cursor `from` is in, in JSON nothing.
fn opening(alloc: Global, form: Format, from: Cursor) -> Result<Vec<u8>, Fault>
    ensures ok { IfOk result (λ text. text.items ≡ opening_text form from) }
    ensures err { IfErr result (λ fault. fault ≡ Fault.Memory) }
{
    let start = match form {
        Format::Csv => header(from),
        Format::Json => "",
    };
    Vec::from_slice(alloc, start.as_bytes()).map_err(|_| Fault::Memory)
}

fn put(
    alloc: Global,
    text: &mut Vec<u8>,
    form: Format,
    filter: &Filter,
    rows: &[Row],
) -> Result<(), Fault>
    ensures ok { OnOk result
        (text.new.items ≡ text.old.items ++ flat_map (row_text form) (filtered_rows filter.now rows.now)) }
    ensures err { IfErr result (λ fault. fault ≡ Fault.Memory) }
{
    let filtered = filter.kept(alloc, rows).map_err(|_| Fault::Memory)?;
    put_rows(alloc, text, form, &filtered).map_err(|_| Fault::Memory)
}
