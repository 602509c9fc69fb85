//! Frames that are given up where a session ends: what is dirty is written out, and no page of a client's file stays.
ghost use Rattle.std.specs.Prelude.{◌≡◌, ◌+◌, ◌*◌, ◌<◌, ◌≤◌, [], ◌∷◌, length};
ghost use Rattle.flat_machine.specs.Machine.{Machine};
ghost use Rattle.flat_machine.specs.Space.{root};
ghost use Rattle.session_words.specs.Parts.{TablesMeaning};
ghost use Rattle.running_words.specs.Bound.{emptying_bound};
ghost use Rattle.running_words.specs.Running.{Runs};
ghost use Rattle.pilot_engine.specs.Closing.{IsEmptied, IsOpenStop};
ghost use Rattle.pilot_engine.specs.Opening.{root_alone};
ghost use Rattle.fault_core.specs.Core.{state};
ghost use Rattle.space_calls.specs.Halts.{After};
ghost use Rattle.pilot_engine.specs.Halting.{EmptyHalts, EvictHalts, Made};
ghost use Rattle.file_manager.specs.Reasons.{KeepsOn, InitialState};
ghost use Rattle.pilot_engine.specs.Calls.{AccountsEnd};
ghost use Rattle.pilot_engine.specs.Outcomes.{AccountsEmptied, ClearsOn, EndsIn, FailsBy, IsAloneIn, IsSetUp};

use crate::Session;
use crate::frames::look_at_frames;
use file_manager::free_tables;
use labelled_disk::{Disk, Halt};
use std::alloc::Allocator;
use swap_units::ROOT_PAGES;

impl<D: Disk, A: Allocator> Session<D, A> {
    // Gives up the frames of all pages that windows show. What is dirty is written out first.
    pub(crate) fn evict_root(&mut self) -> Result<(), Halt>
        requires set_up { IsSetUp self.old }
        ensures ends { (m : Machine) → Runs self.old.core self.old.volume m
            → EndsIn (IsOpenStop m)
            (λ _. IsAloneIn root_alone self.new (record m { spaces = root ∷ []; unforced = [] }))
            (state self.old.core).disk (state self.new.core).disk result }
        ensures fails { FailsBy (EvictHalts self.old.core.intervals) self.old self.new result }
        ensures accounts { (o : InitialState) → KeepsOn o self.old.core.filer
            → AccountsEnd o o self.old self.new result }
        ensures clears { ClearsOn self.old self.new }
        ensures volume { self.new.volume ≡ self.old.volume }
        ensures cost { (state self.new.core).disk.transfers ≤ (state self.old.core).disk.transfers + 1024
            * (196 + length (state self.old.core).slots) }
    {
        match self.core.evict(0, ROOT_PAGES) {
            Ok(()) => Ok(()),
            Err(halt) => Err(halt),
        }
    }

    // The same, of at most 4,096 frames.
    pub(crate) fn evict_all(&mut self) -> Result<(), Halt>
        requires set_up { IsSetUp self.old }
        ensures ends { (m : Machine) → Runs self.old.core self.old.volume m
            → EndsIn (IsOpenStop m)
            (λ _. IsAloneIn root_alone self.new (record m { spaces = root ∷ []; unforced = [] }))
            (state self.old.core).disk (state self.new.core).disk result }
        ensures fails { FailsBy (EvictHalts self.old.core.intervals) self.old self.new result }
        ensures accounts { (o : InitialState) → KeepsOn o self.old.core.filer
            → AccountsEnd o o self.old self.new result }
        ensures clears { ClearsOn self.old self.new }
        ensures volume { self.new.volume ≡ self.old.volume }
        ensures cost { (state self.new.core).disk.transfers ≤ (state self.old.core).disk.transfers + 1024
            * (196 + 4096) }
    {
        look_at_frames(&mut self.core.filer);
        match self.evict_root() {
            Ok(()) => Ok(()),
            Err(halt) => Err(halt),
        }
    }

    // Deletes the temporary files, and frees the pages of the space tables.
    pub(crate) fn empty(&mut self) -> Result<(), Halt>
        requires set_up { IsSetUp self.old }
        ensures ends { (spaces_of : TablesMeaning) (m : Machine) → IsAloneIn spaces_of self.old m
            → EndsIn (IsOpenStop m)
            (λ _. IsEmptied m self.new.volume.root (state self.new.core).disk (state self.new.core).slots)
            (state self.old.core).disk (state self.new.core).disk result }
        ensures fails { FailsBy (After Made EmptyHalts) self.old self.new result }
        ensures accounts { (o : InitialState) → KeepsOn o self.old.core.filer
            → AccountsEmptied o self.old self.new result }
        ensures clears { ClearsOn self.old self.new }
        ensures cost { (spaces_of : TablesMeaning) (m : Machine) → IsAloneIn spaces_of self.old m
            → (state self.new.core).disk.transfers ≤ (state self.old.core).disk.transfers + emptying_bound
            (state self.old.core).layout.sectors }
    {
        match self.delete_temporary() {
            Ok(()) => (),
            Err(halt) => return Err(halt),
        }
        match free_tables(&mut self.core.filer) {
            Ok(()) => Ok(()),
            Err(halt) => Err(halt),
        }
    }
}
