//! Calls that ask, and change nothing.
ghost use Rattle.std.specs.Prelude.{◌≡◌, ◌+◌, ◌≤◌, IfErr};
ghost use Rattle.labelled_disk.specs.declared.evidence.Halt.TheVariants as halt;
ghost use Rattle.flat_machine.specs.declared.call.Call.TheVariants as call;
ghost use Rattle.flat_machine.specs.Machine.{Machine};
ghost use Rattle.session_words.specs.Parts.{TablesMeaning};
ghost use Rattle.fault_core.specs.Core.{state};
ghost use Rattle.fault_core.specs.Reach.{BringsOwn};
ghost use Rattle.running_words.specs.Running.{Runs};
ghost use Rattle.space_calls.specs.Halts.{NamedHalts};
ghost use Rattle.pilot_engine.specs.Calls.{Answers};
ghost use Rattle.pilot_engine.specs.Outcomes.{AccountsOn, AnswersIn, FailsBy, IsIn, IsSetUp, Remains, RemainsInside, WritesPages};

use crate::Session;
use file_manager::Attributes;
use flat_machine::{Refusal, Reply};
use labelled_disk::{Disk, FileId, Halt};
use space_calls::named_file;
use std::alloc::Allocator;

impl<D: Disk, A: Allocator> Session<D, A> {
    // How many sectors files may have, and how many of them are free.
    pub(crate) fn volume(&mut self) -> Result<Reply, Halt>
        requires set_up { IsSetUp self.old }
        ensures answers { (spaces_of : TablesMeaning) (m : Machine) → IsIn spaces_of self.old m
            → AnswersIn spaces_of m (call.Volume) self.old self.new result }
        ensures sound { (spaces_of : TablesMeaning) (m : Machine) → IsIn spaces_of self.old m
            → IfErr result (λ e. e ≡ halt.Disk) }
        ensures came { BringsOwn (state self.old.core).slots (state self.new.core).slots }
        ensures fails { FailsBy (λ v w e. ⊥) self.old self.new result }
        ensures accounts { AccountsOn self.old self.new result }
        ensures writes { WritesPages self.old self.new }
        ensures remains { RemainsInside self.old self.new }
        ensures cost { (state self.new.core).disk.transfers ≤ (state self.old.core).disk.transfers + 0 }
    {
        let capacity = self.volume.layout.capacity;
        let free = capacity - self.volume.used;
        Ok(Reply::Volume { capacity, free })
    }

    // Size, type and marks of a file, unless it is anonymous.
    pub(crate) fn attributes(&mut self, id: FileId) -> Result<Reply, Halt>
        requires set_up { IsSetUp self.old }
        ensures answers { (m : Machine) → Runs self.old.core self.old.volume m
            → Answers m (call.Attributes id) self.old self.new result }
        ensures fails { FailsBy (NamedHalts id self.old.core.intervals) self.old self.new result }
        ensures accounts { AccountsOn self.old self.new result }
        ensures writes { WritesPages self.old self.new }
        ensures remains { Remains self.old self.new }
    {
        let found = match named_file(&mut self.core, id) {
            Ok(Some(found)) => found,
            Ok(None) => return Ok(Reply::Refused(Refusal::File)),
            Err(halt) => return Err(halt),
        };
        let Attributes {
            pages,
            kind,
            permanent,
            immutable,
        } = found;
        Ok(Reply::Attributes {
            pages,
            kind,
            permanent,
            immutable,
        })
    }
}
