//! Marks that a file gets for good.
ghost use Rattle.std.specs.Prelude.{◌≡◌, ◌+◌, ◌≤◌, false, IfErr, None};
ghost use Rattle.labelled_disk.specs.declared.evidence.Halt.TheVariants as halt;
ghost use Rattle.flat_machine.specs.declared.call.Call.TheVariants as call;
ghost use Rattle.flat_machine.specs.Machine.{Machine, is_anonymous};
ghost use Rattle.pilot_engine.specs.Sparing.{SparesBut};
ghost use Rattle.label_calls.specs.Synced.{SyncsLeaders};
ghost use Rattle.session_words.specs.Parts.{TablesMeaning};
ghost use Rattle.flat_machine.specs.Refusal.{file_mapped};
ghost use Rattle.fault_core.specs.Core.{state};
ghost use Rattle.running_words.specs.Running.{Runs};
ghost use Rattle.space_calls.specs.Halts.{OnFileHalts, OnNamedHalts};
ghost use Rattle.pilot_engine.specs.Halting.{MarkHalts};
ghost use Rattle.pilot_engine.specs.Calls.{Answers};
ghost use Rattle.pilot_engine.specs.Outcomes.{AccountsOn, AnswersIn, FailsBy, IsIn, IsSetUp, Remains, RemainsInside, WritesFile};

use crate::Session;
use crate::sight::Sight;
use file_manager::attributes_of;
use flat_machine::{Refusal, Reply};
use labelled_disk::{Disk, FileId, Halt};
use space_calls::window_on;
use std::alloc::Allocator;

impl<D: Disk, A: Allocator> Session<D, A> {
    // Lets a file that may be named outlast the session.
    fn mark_permanent(&mut self, id: FileId) -> Result<Reply, Halt>
        requires set_up { IsSetUp self.old }
        ensures answers { (spaces_of : TablesMeaning) (m : Machine) → IsIn spaces_of self.old m
            → is_anonymous m.spaces id ≡ false
            → AnswersIn spaces_of m (call.MakePermanent id) self.old self.new result }
        ensures sound { (spaces_of : TablesMeaning) (m : Machine) → IsIn spaces_of self.old m
            → IfErr result (λ e. e ≡ halt.Disk) }
        ensures fails { FailsBy (OnFileHalts id (MarkHalts id)) self.old self.new result }
        ensures accounts { AccountsOn self.old self.new result }
        ensures writes { WritesFile (call.MakePermanent id) (SparesBut id) self.old self.new }
        ensures remains { RemainsInside self.old self.new }
        ensures cost { (state self.new.core).disk.transfers ≤ (state self.old.core).disk.transfers + 45 }
        ensures around { SyncsLeaders result (state self.old.core).disk (state self.new.core).disk }
    {
        match attributes_of(&mut self.core.filer, id) {
            Ok(Some(_)) => (),
            Ok(None) => return Ok(Reply::Refused(Refusal::File)),
            Err(halt) => return Err(halt),
        }
        match file_manager::make_permanent(&mut self.core.filer, id) {
            Ok(()) => Ok(Reply::Done),
            Err(halt) => Err(halt),
        }
    }

    // Lets nobody write again to a file that may be named, and that no writable window shows.
    fn mark_immutable(&mut self, id: FileId) -> Result<Reply, Halt>
        requires set_up { IsSetUp self.old }
        ensures answers { (spaces_of : TablesMeaning) (m : Machine) → IsIn spaces_of self.old m
            → is_anonymous m.spaces id ≡ false → file_mapped m id (λ w. w.writable) ≡ None
            → AnswersIn spaces_of m (call.MakeImmutable id) self.old self.new result }
        ensures sound { (spaces_of : TablesMeaning) (m : Machine) → IsIn spaces_of self.old m
            → IfErr result (λ e. e ≡ halt.Disk) }
        ensures fails { FailsBy (OnFileHalts id (MarkHalts id)) self.old self.new result }
        ensures accounts { AccountsOn self.old self.new result }
        ensures writes { WritesFile (call.MakeImmutable id) (SparesBut id) self.old self.new }
        ensures remains { RemainsInside self.old self.new }
        ensures cost { (state self.new.core).disk.transfers ≤ (state self.old.core).disk.transfers + 45 }
        ensures around { SyncsLeaders result (state self.old.core).disk (state self.new.core).disk }
    {
        match attributes_of(&mut self.core.filer, id) {
            Ok(Some(_)) => (),
            Ok(None) => return Ok(Reply::Refused(Refusal::File)),
            Err(halt) => return Err(halt),
        }
        match file_manager::make_immutable(&mut self.core.filer, id) {
            Ok(()) => Ok(Reply::Done),
            Err(halt) => Err(halt),
        }
    }

    // Lets a file outlast the session, unless it is anonymous.
    pub(crate) fn make_permanent(&mut self, id: FileId) -> Result<Reply, Halt>
        requires set_up { IsSetUp self.old }
        ensures answers { (m : Machine) → Runs self.old.core self.old.volume m
            → Answers m (call.MakePermanent id) self.old self.new result }
        ensures fails { FailsBy (OnNamedHalts id self.old.core.intervals (MarkHalts id)) self.old self.new result }
        ensures accounts { AccountsOn self.old self.new result }
        ensures writes { WritesFile (call.MakePermanent id) (SparesBut id) self.old self.new }
        ensures remains { Remains self.old self.new }
        ensures around { SyncsLeaders result (state self.old.core).disk (state self.new.core).disk }
    {
        match self.sight(id) {
            Ok(Sight::Hidden) => Ok(Reply::Refused(Refusal::File)),
            Ok(Sight::By(_)) => self.mark_permanent(id),
            Err(halt) => Err(halt),
        }
    }

    // Lets nobody write to a file again, unless a window still lets a client do so.
    pub(crate) fn make_immutable(&mut self, id: FileId) -> Result<Reply, Halt>
        requires set_up { IsSetUp self.old }
        ensures answers { (m : Machine) → Runs self.old.core self.old.volume m
            → Answers m (call.MakeImmutable id) self.old self.new result }
        ensures fails { FailsBy (OnNamedHalts id self.old.core.intervals (MarkHalts id)) self.old self.new result }
        ensures accounts { AccountsOn self.old self.new result }
        ensures writes { WritesFile (call.MakeImmutable id) (SparesBut id) self.old self.new }
        ensures remains { Remains self.old self.new }
        ensures around { SyncsLeaders result (state self.old.core).disk (state self.new.core).disk }
    {
        match self.sight(id) {
            Ok(Sight::Hidden) => return Ok(Reply::Refused(Refusal::File)),
            Ok(Sight::By(_)) => (),
            Err(halt) => return Err(halt),
        }
        match window_on(&mut self.core, id, true) {
            Ok(Some((handle, _))) => return Ok(Reply::Refused(Refusal::FileMapped(handle))),
            Ok(None) => (),
            Err(halt) => return Err(halt),
        }
        self.mark_immutable(id)
    }
}
