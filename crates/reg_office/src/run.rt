ghost use Rattle.std.specs.Prelude.{◌≡◌, ◌≤◌, length, OnErr, IsTrue};
ghost use Rattle.sqlite.specs.Held.{state};
ghost use Rattle.sqlite.specs.State.{HasCleanDisk, IsLive};
ghost use Rattle.sqlite_trees.specs.Tree.{Trees};
ghost use Rattle.sqlite_trees.specs.View.{doubt};
ghost use Rattle.reg_core.specs.Records.{Records};
ghost use Rattle.reg_store_changes.specs.WithinTransactions.{StaysIdle};
ghost use Rattle.reg_office.specs.AfterStoppedCommand.{ShowsPrefix};
ghost use Rattle.reg_office.specs.Calls.{StandsIn};
ghost use Rattle.reg_office.specs.Stands.{Appends, HasRun};

use crate::office::Office;
use reg_core::{Command, Memory, Moment, Outcome};
use reg_crl::Signer;
use reg_office_api::Office as _;
use sqlite::Alter;
use std::alloc::Global;

impl<C: Alter, S: Signer> Office<C, S> {
    /// Runs commands in their order, each at its moment, and goes on after refusals and faults. Appends an outcome (reply, refusal or fault) for each
    /// to `outcomes`. [`Memory`] if out of memory for the outcomes: then no command ran.
    pub fn run(
        &mut self,
        alloc: Global,
        commands: &[(Moment, Command)],
        outcomes: &mut Vec<Outcome>,
    ) -> Result<(), Memory>
        ensures each { Appends result outcomes.old.items outcomes.new.items
            (λ came. length came ≡ length commands.now) }
        ensures ran { (records : Records) → StandsIn C.Store S.Signer self.old records
            → HasCleanDisk (state C.Store self.new.store)
            → Appends result outcomes.old.items outcomes.new.items (λ came.
            HasRun C.Store S.signs self.new.store (S.identity self.new.signer) records commands.now came) }
        ensures none_ran { OnErr result ((outcomes.new.items ≡ outcomes.old.items) × (self.new ≡ self.old)) }
        ensures survives { (records : Records) → StandsIn C.Store S.Signer self.old records
            → IsTrue (state C.Store self.old.store).is_open → IsLive (state C.Store self.old.store)
            → HasCleanDisk (state C.Store self.new.store)
            → Appends result outcomes.old.items outcomes.new.items (λ came.
            (trees : Trees) → (state C.Store self.new.store).may_leave trees
            → ShowsPrefix S.signs (S.identity self.old.signer) records commands.now came trees) }
        ensures clean { doubt (state C.Store self.old.store).is_clean
            ≤ doubt (state C.Store self.new.store).is_clean }
        ensures idle { StaysIdle C.Store self.old.store self.new.store }
        ensures same_identity { S.identity self.new.signer ≡ S.identity self.old.signer }
        ensures same_responder { self.new.responder ≡ self.old.responder }
    {
        let Ok(()) = outcomes.reserve(commands.len()) else {
            return Err(Memory);
        };
        for (now, command) in commands {
            let outcome = self.run_one(alloc, *now, command);
            // Does not fail: the capacity is reserved.
            let Ok(()) = outcomes.push(outcome) else {
                return Err(Memory);
            };
        }
        Ok(())
    }
}
