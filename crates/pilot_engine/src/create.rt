//! Files that are made.
ghost use Rattle.std.specs.Prelude.{◌≡◌, ℕ, ◌+◌, ◌*◌, ◌<◌, ◌≤◌, IfOk, IfErr};
ghost use Rattle.labelled_disk.specs.declared.evidence.Halt.TheVariants as halt;
ghost use Rattle.flat_machine.specs.declared.call.Call.TheVariants as call;
ghost use Rattle.flat_machine.specs.declared.call.Reply.TheVariants as reply;
ghost use Rattle.file_map.specs.FileMap.{most_records};
ghost use Rattle.flat_machine.specs.Machine.{Machine};
ghost use Rattle.session_words.specs.Parts.{TablesMeaning};
ghost use Rattle.fault_core.specs.Core.{state};
ghost use Rattle.pilot_engine.specs.Seen.{CostsInside};
ghost use Rattle.file_manager.specs.Grounds.{IsNewPage};
ghost use Rattle.pilot_engine.specs.Halting.{NewFileHalts};
ghost use Rattle.file_manager.specs.Creating.{next_id};
ghost use Rattle.file_manager.specs.Reasons.{KeepsOn, InitialState, IsNotOlder, WasBelow};
ghost use Rattle.pilot_engine.specs.Outcomes.{AccountsNew, AnswersIn, FailsBy, IsIn, IsSetUp, RemainsInside, WritesNew};

use crate::Session;
use flat_machine::{Refusal, Reply};
use labelled_disk::{Disk, Halt};
use std::alloc::Allocator;

impl<D: Disk, A: Allocator> Session<D, A> {
    // Makes a temporary file of so many zero pages.
    pub(crate) fn create(&mut self, pages: u32, kind: u16) -> Result<Reply, Halt>
        requires set_up { IsSetUp self.old }
        ensures answers { (spaces_of : TablesMeaning) (m : Machine) → IsIn spaces_of self.old m
            → AnswersIn spaces_of m (call.Create pages kind) self.old self.new result }
        ensures sound { (spaces_of : TablesMeaning) (m : Machine) → IsIn spaces_of self.old m
            → IfErr result (λ e. e ≡ halt.Disk) }
        ensures fails { FailsBy (NewFileHalts (next_id self.old.volume.root) (IsNewPage pages)) self.old self.new
            result }
        ensures accounts { (o : InitialState) → KeepsOn o self.old.core.filer → IsNotOlder o self.old.volume.root
            → AccountsNew o self.old self.new result }
        ensures next { IfOk result (λ answer. (id : ℕ) → answer ≡ reply.File id → id ≡ next_id self.old.volume.root) }
        ensures home { (o : InitialState) → KeepsOn o self.old.core.filer
            → IfOk result
            (λ answer.
            (id : ℕ) → answer ≡ reply.File id → (page : ℕ) → page < pages
            → WasBelow o (state self.new.core).disk id page) }
        ensures writes { WritesNew (call.Create pages kind) self.old self.new result }
        ensures remains { RemainsInside self.old self.new }
        ensures cost { (state self.new.core).disk.transfers ≤ (state self.old.core).disk.transfers
            + (1 + 2 * (1 + 51 * most_records (state self.old.core).layout.sectors) + (pages + 1)
            * (8 * (state self.old.core).layout.vam + 100)) }
        ensures bounded { CostsInside (state self.old.core).disk (state self.new.core).disk }
    {
        let free = self.volume.layout.capacity - self.volume.used;
        if pages >= free {
            return Ok(Reply::Refused(Refusal::Full));
        }
        if self.volume.root.counter == u32::MAX {
            return Ok(Reply::Refused(Refusal::Ids));
        }
        let _serial = self.volume.root.serial;
        match file_manager::create(&mut self.core.filer, &mut self.volume, pages, kind) {
            Ok(id) => Ok(Reply::File(id)),
            Err(halt) => Err(halt),
        }
    }
}
