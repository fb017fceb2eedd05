//! Runs the commands of a batch inside one transaction, which `Office::run_batch` begins and ends.

ghost use Rattle.std.specs.Prelude.{IfErr, IfOk};
ghost use Rattle.reg_office.specs.Batches.{HappensWithin, RunsWithin, StopsBatch};
ghost use Rattle.reg_office.specs.Calls.{SignsNothing};
ghost use Rattle.reg_store_changes.specs.WithinTransactions.{StepsWithin};

use crate::office::Office;
use reg_core::{Command, Fault, Moment, Outcome, Refusal};
use reg_crl::Signer;
use reg_office_reads::decide;
use sqlite::Alter;
use std::alloc::Global;

impl<C: Alter, S: Signer> Office<C, S> {
    /// Runs the commands, each at its moment, and returns one outcome for each. Errors, after which the caller must roll the transaction back:
    /// `Memory`; `Store`; `Signer` for the command `crl`, because a batch signs nothing.
    pub(crate) fn run_each(
        &mut self,
        alloc: Global,
        commands: &[(Moment, Command)],
    ) -> Result<Vec<Outcome>, Fault>
        ensures ran { IfOk result (λ outcomes. RunsWithin C.Store S.signs (S.identity self.old.signer)
            self.old.store self.new.store commands.now outcomes.items) }
        ensures stepped { StepsWithin C.Store self.old.store self.new.store }
        ensures untouched { SignsNothing self.old self.new }
        ensures faults { IfErr result StopsBatch }
    {
        let Ok(mut outcomes) = Vec::with_capacity(alloc, commands.len()) else {
            return Err(Fault::Memory);
        };
        for (now, command) in commands {
            let outcome = match self.run_within(*now, command) {
                Ok(outcome) => outcome,
                Err(fault) => return Err(fault),
            };
            let Ok(()) = outcomes.push(outcome) else {
                return Err(Fault::Memory);
            };
        }
        Ok(outcomes)
    }

    /// Runs one command. `Ok` has its outcome: a reply, a refusal, or a failed look-up that leaves the transaction under way. `Err` ends the batch.
    fn run_within(&mut self, now: Moment, command: &Command) -> Result<Outcome, Fault>
        ensures ran { IfOk result (HappensWithin C.Store S.signs (S.identity self.old.signer)
            self.old.store self.new.store now command.now) }
        ensures stepped { StepsWithin C.Store self.old.store self.new.store }
        ensures untouched { SignsNothing self.old self.new }
        ensures faults { IfErr result StopsBatch }
    {
        if now >= Moment::CLOCK_END {
            return Ok(Err(Fault::Refused(Refusal::ClockEnd)));
        }
        match *command {
            Command::Crl => Err(Fault::Signer),
            _ => match decide(&mut self.store, now, command) {
                Ok((reply, change)) => match self.store.enter(now, &change) {
                    Ok(()) => Ok(Ok(reply)),
                    // `enter` writes the change. `Store` stands for its error `Memory` too: after either, the caller rolls back.
                    Err(_) => Err(Fault::Store),
                },
                Err(fault) => {
                    // If no transaction is under way now, a failure of the database has ended it.
                    if self.store.is_idle() {
                        return Err(Fault::Store);
                    }
                    Ok(Err(fault))
                }
            },
        }
    }
}
