//! The temporary files of a session go, at its end.
ghost use Rattle.std.specs.Prelude.{◌≡◌, ◌+◌, ◌*◌, ◌<◌, ◌≤◌, IfOk, IfSome, Some};
ghost use Rattle.labelled_disk.specs.File.{File, file_at, room_of};
ghost use Rattle.flat_machine.specs.Machine.{Machine, used};
ghost use Rattle.session_words.specs.Parts.{TablesMeaning};
ghost use Rattle.running_words.specs.Bound.{delete_cost, visit_cost, room_above};
ghost use Rattle.pilot_engine.specs.Closing.{IsOpenStop, up_to_next};
ghost use Rattle.fault_core.specs.Core.{state};
ghost use Rattle.space_calls.specs.Halts.{After, OnFileHalts};
ghost use Rattle.pilot_engine.specs.Halting.{ClearHalts, Made, RemoveHalts};
ghost use Rattle.file_manager.specs.Reasons.{KeepsOn, InitialState};
ghost use Rattle.pilot_engine.specs.Calls.{AccountsEnd};
ghost use Rattle.pilot_engine.specs.Outcomes.{ClearsOn, EndsIn, FailsBy, IsAloneIn, IsSetUp, ShedIn};

use crate::Session;
use file_manager::{attributes_of, delete, next};
use labelled_disk::{Disk, FileId, Halt};
use std::alloc::Allocator;

/// The highest identifier that is no client's.
const LAST_RESERVED: FileId = 15;

impl<D: Disk, A: Allocator> Session<D, A> {
    // Deletes a file, unless it is permanent.
    fn delete_unless_permanent(&mut self, id: FileId) -> Result<(), Halt>
        requires set_up { IsSetUp self.old }
        requires client { 16 ≤ id }
        ensures ends { (spaces_of : TablesMeaning) (m : Machine) → IsAloneIn spaces_of self.old m
            → EndsIn (IsOpenStop m) (λ _. ShedIn spaces_of (λ other. other ≡ id) m self.new)
            (state self.old.core).disk (state self.new.core).disk result }
        ensures fails { FailsBy (OnFileHalts id (RemoveHalts id)) self.old self.new result }
        ensures accounts { (o : InitialState) → KeepsOn o self.old.core.filer
            → AccountsEnd o o self.old self.new result }
        ensures clears { ClearsOn self.old self.new }
        ensures cost { (spaces_of : TablesMeaning) (m : Machine) (f : File) → IsAloneIn spaces_of self.old m
            → file_at m.files id ≡ Some f
            → (state self.new.core).disk.transfers ≤ (state self.old.core).disk.transfers + delete_cost * room_of f }
    {
        let found = match attributes_of(&mut self.core.filer, id) {
            Ok(Some(found)) => found,
            Ok(None) => return Ok(()),
            Err(halt) => return Err(halt),
        };
        if found.permanent {
            return Ok(());
        }
        match delete(&mut self.core.filer, &mut self.volume, id) {
            Ok(()) => Ok(()),
            Err(halt) => Err(halt),
        }
    }

    // Looks at the next file above this one, which it deletes unless it is permanent.
    fn delete_next(&mut self, cursor: FileId) -> Result<Option<FileId>, Halt>
        requires set_up { IsSetUp self.old }
        requires client { 15 ≤ cursor }
        ensures ends { (spaces_of : TablesMeaning) (m : Machine) → IsAloneIn spaces_of self.old m
            → EndsIn (IsOpenStop m) (λ next. ShedIn spaces_of (up_to_next cursor next) m self.new)
            (state self.old.core).disk (state self.new.core).disk result }
        ensures above { IfOk result (λ next. IfSome next (λ id. cursor < id)) }
        ensures fails { FailsBy ClearHalts self.old self.new result }
        ensures accounts { (o : InitialState) → KeepsOn o self.old.core.filer
            → AccountsEnd o o self.old self.new result }
        ensures clears { ClearsOn self.old self.new }
        ensures cost { (spaces_of : TablesMeaning) (m : Machine) → IsAloneIn spaces_of self.old m
            → (state self.new.core).disk.transfers ≤ (state self.old.core).disk.transfers
            + (36 + visit_cost * room_above cursor m.files) }
        ensures paid { (spaces_of : TablesMeaning) (m : Machine) → IsAloneIn spaces_of self.old m
            → IfOk result
            (λ next.
            IfSome next
            (λ id.
            (state self.new.core).disk.transfers + visit_cost * room_above id m.files
            ≤ (state self.old.core).disk.transfers + visit_cost * room_above cursor m.files)) }
    {
        let id = match next(&mut self.core.filer, cursor) {
            Ok(Some(id)) => id,
            Ok(None) => return Ok(None),
            Err(halt) => return Err(halt),
        };
        match self.delete_unless_permanent(id) {
            Ok(()) => Ok(Some(id)),
            Err(halt) => Err(halt),
        }
    }

    // Deletes the temporary files.
    pub(crate) fn delete_temporary(&mut self) -> Result<(), Halt>
        requires set_up { IsSetUp self.old }
        ensures ends { (spaces_of : TablesMeaning) (m : Machine) → IsAloneIn spaces_of self.old m
            → EndsIn (IsOpenStop m) (λ _. ShedIn spaces_of (λ id. Unit {0}) m self.new)
            (state self.old.core).disk (state self.new.core).disk result }
        ensures fails { FailsBy (After Made ClearHalts) self.old self.new result }
        ensures accounts { (o : InitialState) → KeepsOn o self.old.core.filer
            → AccountsEnd o o self.old self.new result }
        ensures clears { ClearsOn self.old self.new }
        ensures cost { (spaces_of : TablesMeaning) (m : Machine) → IsAloneIn spaces_of self.old m
            → (state self.new.core).disk.transfers ≤ (state self.old.core).disk.transfers + (36 + visit_cost * used m) }
    {
        let mut cursor = LAST_RESERVED;
        'files: loop {
            match self.delete_next(cursor) {
                Ok(Some(id)) => cursor = id,
                Ok(None) => return Ok(()),
                Err(halt) => return Err(halt),
            }
        }
    }
}
