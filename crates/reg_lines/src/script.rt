//! Runs a script, in which each line begins with a moment, and writes one reply line for each line.

ghost use Rattle.std.specs.Prelude.{IsFalse};
ghost use Rattle.reg_office_api.specs.Calls.{LeadsIn};
ghost use Rattle.reg_lines.specs.Batches.{MayBeAhead};
ghost use Rattle.reg_lines.specs.ByCalls.{LineCalls, Lines};
ghost use Rattle.reg_lines.specs.Script.{ScriptEnds};

use crate::answered::{Answered, done};
use crate::batches::run_batches;
use crate::host::Host;
use crate::lines::{LONGEST_LINE, run_lines};
use reg_core::{Fault, Moment};
use reg_io::{Sink, Source};
use reg_office_api::Office;
use std::alloc::Global;

/// The [`Host`] (observer and clock of a run) of a script whose lines have moments. It has no clock, so `moment` isn't called, and observes nothing.
pub(crate) struct NoHost;

impl Host for NoHost {
    ghost use Rattle.std.specs.Prelude.{false};

    ghost clocked = { λ host. false };

    ghost clock_reached = { λ now. Unit {0} };

    ghost clock_failed = { Unit {0} };

    fn is_clocked(&self) -> bool {
        false
    }

    fn moment(&self) -> Result<Moment, Fault> {
        Err(Fault::Read)
    }

    fn observe(&self, _answered: &Answered) {}
}

/// Runs each line of a script, in order, and writes each reply before it runs the next line. Memory is allocated before the first line, and later
/// only by the office and for `ocsp` lines. If a later allocation fails, the reply is `F1 memory`. The reply is `F3 signer` only if the signer of
/// CRLs failed: its failure count rose ([`Office::failure_counts`]). [`Fault::Read`] if a read fails, a line has more than 8,192 bytes before its LF,
/// or there is a line after the 1,000,000th: each line before ran, and its reply was written. [`Fault::Write`] if a reply can't be written; its line
/// ran. [`Fault::Memory`] if there is no memory for the longest line: nothing was read.
pub fn run_script<R: Source, W: Sink, O: Office>(
    alloc: Global,
    reader: &mut R,
    writer: &mut W,
    office: &mut O,
) -> Result<(), Fault>
    ensures ends { LeadsIn O.Office
        (λ signers before after.
        ScriptEnds (Lines O.signs signers) R.remaining W.contents R.failed W.failed before after
        reader.old reader.new writer.old writer.new result)
        office.old office.new }
    ensures by_calls { ScriptEnds (LineCalls O.Office) R.remaining W.contents R.failed W.failed
        office.old office.new reader.old reader.new writer.old writer.new result }
{
    run_script_for(alloc, reader, writer, office, &NoHost)
}

/// As [`run_script`], with the same errors, for a host that has no clock and observes the result of each line. The run is not strict (`false`).
pub fn run_script_for<R: Source, W: Sink, O: Office, H: Host>(
    alloc: Global,
    reader: &mut R,
    writer: &mut W,
    office: &mut O,
    host: &H,
) -> Result<(), Fault>
    requires { IsFalse (H.clocked host.now) }
    ensures ends { LeadsIn O.Office
        (λ signers before after.
        ScriptEnds (Lines O.signs signers) R.remaining W.contents R.failed W.failed before after
        reader.old reader.new writer.old writer.new result)
        office.old office.new }
    ensures by_calls { ScriptEnds (LineCalls O.Office) R.remaining W.contents R.failed W.failed
        office.old office.new reader.old reader.new writer.old writer.new result }
{
    done(run_lines(alloc, reader, writer, office, host, false))
}

/// As [`run_script`], with the same errors and the same replies in the same order, but command lines that are in the buffer run in one transaction,
/// before their replies are written. If a reply can't be written ([`Fault::Write`]), lines after its own may have run. So it is for an office whose
/// records are lost at the end, as those in memory are.
pub fn run_script_in_batches<R: Source, W: Sink, O: Office>(
    alloc: Global,
    reader: &mut R,
    writer: &mut W,
    office: &mut O,
) -> Result<(), Fault>
    ensures { LeadsIn O.Office
        (λ signers before ahead. MayBeAhead
        (λ s t. ScriptEnds (Lines O.signs signers) R.remaining W.contents R.failed W.failed s t
        reader.old reader.new writer.old writer.new)
        before ahead result)
        office.old office.new }
{
    match vec![in alloc; 0; LONGEST_LINE + 1] {
        Ok(mut buffer) => done(run_batches(alloc, reader, writer, office, &mut buffer)),
        Err(_) => Err(Fault::Memory),
    }
}
