//! The files that a client may name, in the order of their identifiers.
ghost use Rattle.std.specs.Prelude.{◌+◌, ◌<◌, ◌≤◌, IfOk, IfSome, None};
ghost use Rattle.flat_machine.specs.declared.call.Call.TheVariants as call;
ghost use Rattle.flat_machine.specs.Machine.{Machine};
ghost use Rattle.running_words.specs.Running.{Runs};
ghost use Rattle.pilot_engine.specs.Order.{IsTurn, turn_cost};
ghost use Rattle.fault_core.specs.Core.{state};
ghost use Rattle.pilot_engine.specs.Halting.{NextHalts, TurnHalts};
ghost use Rattle.filer_kernel.specs.View.{FitsLayout};
ghost use Rattle.pilot_engine.specs.Calls.{Answers};
ghost use Rattle.pilot_engine.specs.Outcomes.{AccountsOn, Asks, FailsBy, IsSetUp, LooksOn, Remains, WritesPages};

use crate::Session;
use crate::sight::Sight;
use flat_machine::Reply;
use labelled_disk::{Disk, FileId, Halt};
use std::alloc::Allocator;

/// A file of the volume, and whether it may be named.
#[derive(Clone, Copy, Debug, PartialEq, Eq)]
struct Passed {
    id: FileId,
    named: bool,
}

impl<D: Disk, A: Allocator> Session<D, A> {
    // The file with the least identifier above this one, named or not.
    fn next_passed(&mut self, cursor: FileId) -> Result<Option<Passed>, Halt>
        requires size { FitsLayout (state self.old.core) }
        ensures asks { (m : Machine) → Runs self.old.core self.old.volume m
            → Asks m (IsTurn m cursor) self.new result }
        ensures above { IfOk result (λ next. IfSome next (λ passed. cursor < passed.id)) }
        ensures fails { FailsBy (TurnHalts self.old.core.intervals) self.old self.new result }
        ensures accounts { AccountsOn self.old self.new result }
        ensures looks { LooksOn self.old self.new }
        ensures cost { (state self.new.core).disk.transfers ≤ (state self.old.core).disk.transfers + turn_cost }
    {
        let id = match file_manager::next(&mut self.core.filer, cursor) {
            Ok(Some(id)) => id,
            Ok(None) => return Ok(None),
            Err(halt) => return Err(halt),
        };
        match self.sight(id) {
            Ok(Sight::Hidden) => Ok(Some(Passed { id, named: false })),
            Ok(Sight::By(_)) => Ok(Some(Passed { id, named: true })),
            Err(halt) => Err(halt),
        }
    }

    // The file with the least identifier above this one that a call may name.
    pub(crate) fn next(&mut self, id: FileId) -> Result<Reply, Halt>
        requires set_up { IsSetUp self.old }
        ensures answers { (m : Machine) → Runs self.old.core self.old.volume m
            → Answers m (call.Next id) self.old self.new result }
        ensures fails { FailsBy (NextHalts self.old.core.intervals) self.old self.new result }
        ensures accounts { AccountsOn self.old self.new result }
        ensures writes { WritesPages self.old self.new }
        ensures remains { Remains self.old self.new }
    {
        let mut cursor = id;
        'files: loop {
            let passed = match self.next_passed(cursor) {
                Ok(Some(passed)) => passed,
                Ok(None) => return Ok(Reply::Nothing),
                Err(halt) => return Err(halt),
            };
            if passed.named {
                return Ok(Reply::File(passed.id));
            }
            cursor = passed.id;
        }
    }
}
