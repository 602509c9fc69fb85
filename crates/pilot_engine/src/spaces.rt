//! One call of a client on spaces.
ghost use Rattle.std.specs.Prelude.{◌≡◌, ◌+◌, ◌≤◌, true};
ghost use Rattle.flat_machine.specs.Form.{IsInForm};
ghost use Rattle.flat_machine.specs.Machine.{Machine};
ghost use Rattle.flat_machine.specs.References.{is_reference};
ghost use Rattle.running_words.specs.Running.{Runs};
ghost use Rattle.fault_core.specs.Core.{state};
ghost use Rattle.pilot_engine.specs.Stepping.{is_on_spaces};
ghost use Rattle.file_manager.specs.Reasons.{KeepsOn, InitialState, IsNotOlder};
ghost use Rattle.pilot_engine.specs.Outcomes.{AccountsFor, AnswersAll, HaltsAs, IsSetUp, Remains, WritesAs};

use crate::Session;
use flat_machine::{Call, Reply};
use labelled_disk::{Disk, Halt};
use space_calls::{
    activate, deactivate, force_out, kill, load, make_space, map, place, protect, remove_space,
    set_units, store,
};
use std::alloc::Allocator;

impl<D: Disk, A: Allocator> Session<D, A> {
    // Carries out a call on spaces.
    pub(crate) fn answer_on_spaces(&mut self, call: &Call) -> Result<Reply, Halt>
        requires set_up { IsSetUp self.old }
        requires on_spaces { is_on_spaces call.now ≡ true }
        requires in_form { IsInForm call.now }
        ensures machine { (m : Machine) → Runs self.old.core self.old.volume m
            → AnswersAll m call.now self.old self.new result }
        ensures halts { HaltsAs call.now self.old self.new result }
        ensures accounts { (o : InitialState) → KeepsOn o self.old.core.filer → IsNotOlder o self.old.volume.root
            → AccountsFor call.now o self.old self.new result }
        ensures writes { WritesAs call.now self.old self.new result }
        ensures remains { Remains self.old self.new }
        ensures reference { is_reference call.now ≡ true
            → (state self.new.core).disk.transfers ≤ (state self.old.core).disk.transfers + 1680 }
    {
        match call {
            Call::MakeSpace {
                parent,
                pages,
                first,
            } => make_space(&mut self.core, *parent, *pages, *first),
            Call::RemoveSpace { space } => remove_space(&mut self.core, *space),
            Call::Place { page } => place(&mut self.core, *page),
            Call::Units { space, pages } => set_units(&mut self.core, *space, *pages),
            Call::Map {
                space,
                id,
                page,
                writable,
            } => map(&mut self.core, *space, *id, *page, *writable),
            Call::MapAnonymous { space } => self.map_anonymous(*space),
            Call::Unmap { space } => self.unmap(*space),
            Call::Protect { space, writable } => protect(&mut self.core, *space, *writable),
            Call::Load { address, count } => load(&mut self.core, *address, *count),
            Call::Store { address, bytes } => store(&mut self.core, *address, bytes.as_slice()),
            Call::Activate { space } => activate(&mut self.core, *space),
            Call::Deactivate { space } => deactivate(&mut self.core, *space),
            Call::Kill { space } => kill(&mut self.core, *space),
            Call::ForceOut { space } => force_out(&mut self.core, *space),
            _ => unreachable!(),
        }
    }
}
