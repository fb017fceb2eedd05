//! The job `script` with `--clock` or `--strict`, and runs of scripts over an open register.

ghost use Rattle.std.specs.Prelude.{◌↔◌, IsTrue};
ghost use Rattle.reg_office_api.specs.Calls.{LeadsIn, LooksIn};
ghost use Rattle.reg_lines.specs.ByCalls.{Lines};
ghost use Rattle.reg_lines.specs.Script.{LinesEnd, ScriptEnds};
ghost use Rattle.reg_desk_jobs.specs.Ends.{ChecksLines, ChecksMoment, LinesAt};
ghost use Rattle.reg_desk_jobs.specs.PlaceholderWarning.{IsFirstCrl, placeholder_warning};

use crate::jobs::run_ended;
use reg_core::{Fault, Moment, Reply};
use reg_desk_cli::{Failure, LineScript, ResponderChoice, ScriptOptions};
use reg_desk_metrics::is_ahead;
use reg_desk_service::{Machine, Reason, keep_reason, open_signed};
use reg_io::{Sink, Source};
use reg_lines::{Answered, Ended, Host, run_lines, run_script_for};
use reg_office_api::Office;
use std::alloc::Global;
use std::cell::Cell;

/// What the trait `Host` of `reg_lines` gives a script: the machine's clock, and a warning on standard error if CRL 1 gets a placeholder digest.
#[derive(Clone, Copy)]
struct ScriptHost<'a, M: Machine> {
    machine: &'a M,
    /// `is_clocked`: lines have no moments, and run at the clock's (`--clock`). `is_unsigned`: there is no signer; CRLs get a placeholder digest.
    is_clocked: bool,
    is_unsigned: bool,
}

impl<'a, M: Machine> Host for ScriptHost<'a, M> {
    ghost clocked = { λ host. host.is_clocked };

    ghost clock_reached = { M.clock_reached };

    ghost clock_failed = { M.failed };

    fn is_clocked(&self) -> bool {
        self.is_clocked
    }

    fn moment(&self) -> Result<Moment, Fault> {
        self.machine.moment()
    }

    fn observe(&self, answered: &Answered) {
        if self.is_unsigned && is_first_crl(answered) {
            warn(self.machine);
        }
    }
}

/// Runs a script as [`script`](crate::script) does. With `--strict`, it ends at the first refusal or fault (`Refused`), and runs no last line without
/// its line end (`NoLineEnd`). If a registration's refusal (E08, E09 or E12) ends it, `reason` gets the details for `--why`. With `--clock`,
/// no line runs if the clock is over 30 days past the last accepted command (`BadClock`), unless the operator accepts that. Other errors: `script`'s.
pub fn script_by_lines<M: Machine, R: Source, W: Sink>(
    alloc: Global,
    machine: &mut M,
    script: &LineScript<'_>,
    reason: &Cell<Option<Reason>>,
    reader: &mut R,
    writer: &mut W,
) -> Result<(), Failure>
    ensures { LinesAt M.Machine M.Office.Office R.remaining W.contents R.failed W.failed
        machine.old machine.new reader.old reader.new writer.old writer.new script.now result }
{
    let path = script.file.as_str();
    let responder = ResponderChoice::Issuer { certificate: None };
    let mut office = open_signed(machine, path, &script.signer, &responder)?;
    match check_clock::<M>(machine, &mut office, script.options) {
        Ok(()) => {}
        Err(why) => {
            machine.close(path, office);
            return Err(why);
        }
    }
    let is_unsigned = script.signer.is_none();
    let ran = run_over::<M, R, W>(
        alloc,
        machine,
        &mut office,
        is_unsigned,
        script.options,
        reader,
        writer,
    );
    keep_reason::<M>(&mut office, &ran, reason);
    machine.close(path, office);
    run_ended(ran)
}

/// `BadClock` if lines run at a clock that is too far ahead and not accepted. `Ok` if the clock can't be read, which the first line reports. Other
/// errors: those of [`check_moment`].
fn check_clock<M: Machine>(
    machine: &M,
    office: &mut M::Office,
    options: ScriptOptions,
) -> Result<(), Failure>
    ensures { LooksIn M.Office.Office
        (λ records. ChecksLines options M.clock_reached M.failed records result) office.old office.new }
{
    if !options.is_clocked || options.accepts_clock {
        return Ok(());
    }
    let Ok(now) = machine.moment() else {
        return Ok(());
    };
    check_moment::<M>(office, now)
}

/// `BadClock` if `now` is over 30 days past the last accepted command's moment, if there is one. Other errors: `Memory`, `Store`.
pub(crate) fn check_moment<M: Machine>(office: &mut M::Office, now: Moment) -> Result<(), Failure>
    ensures { LooksIn M.Office.Office (λ records. ChecksMoment now records result) office.old office.new }
{
    match office.last() {
        // `None`: no moment was accepted by a line `accept-clock`, which only the control socket of an open desk has.
        Ok(last) if is_ahead(now, last, None) => Err(Failure::BadClock),
        Ok(_) => Ok(()),
        Err(fault) => Err(Failure::Fault(fault)),
    }
}

/// Runs the script in `reader`, whose lines have their own moments, over an open register. [`run_over`] does so with a script's options.
pub(crate) fn run_script_over<M: Machine, R: Source, W: Sink>(
    alloc: Global,
    machine: &M,
    office: &mut M::Office,
    is_unsigned: bool,
    reader: &mut R,
    writer: &mut W,
) -> Result<(), Fault>
    ensures { LeadsIn M.Office.Office
        (λ identity before after.
        ScriptEnds (Lines M.Office.signs identity) R.remaining W.contents R.failed W.failed before after
        reader.old reader.new writer.old writer.new result)
        office.old office.new }
{
    let host: ScriptHost<'_, M> = ScriptHost {
        machine,
        is_clocked: false,
        is_unsigned,
    };
    run_script_for(alloc, reader, writer, office, &host)
}

fn run_over<M: Machine, R: Source, W: Sink>(
    alloc: Global,
    machine: &M,
    office: &mut M::Office,
    is_unsigned: bool,
    options: ScriptOptions,
    reader: &mut R,
    writer: &mut W,
) -> Result<Ended, Fault>
    ensures { LeadsIn M.Office.Office
        (λ identity before after.
        LinesEnd (Lines M.Office.signs identity) R.remaining W.contents R.failed W.failed before after
        reader.old reader.new writer.old writer.new M.clock_reached M.failed options.is_clocked
        options.is_strict result)
        office.old office.new }
{
    let host: ScriptHost<'_, M> = ScriptHost {
        machine,
        is_clocked: options.is_clocked,
        is_unsigned,
    };
    run_lines(alloc, reader, writer, office, &host, options.is_strict)
}

fn is_first_crl(answered: &Answered) -> bool
    ensures { IsTrue result ↔ IsFirstCrl answered.now }
{
    match answered {
        Answered::Completed(_, Ok(Reply::Crl { number, .. })) => *number == 1,
        _ => false,
    }
}

#[tactic(auto, unfolding(crate::specs::PlaceholderWarning::placeholder_warning))]
fn warn<M: Machine>(machine: &M)
    ensures { M.warned placeholder_warning }
{
    machine.warn(
        b"warning: CRL 1 has a placeholder digest instead of a signature, which no client accepts; to sign the next one: --signer SOCKET --algorithm NAME\n",
    );
}
