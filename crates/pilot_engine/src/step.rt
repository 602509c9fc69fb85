//! One call of a client.
ghost use Rattle.std.specs.Prelude.{◌≡◌, ◌+◌, ◌≤◌, true, false};
ghost use Rattle.flat_machine.specs.After.{ends_trace};
ghost use Rattle.flat_machine.specs.Form.{IsInForm};
ghost use Rattle.flat_machine.specs.Machine.{Machine};
ghost use Rattle.flat_machine.specs.References.{is_reference};
ghost use Rattle.file_manager.specs.Reasons.{KeepsOn, InitialState, IsNotOlder};
ghost use Rattle.fault_core.specs.Core.{state};
ghost use Rattle.running_words.specs.Running.{Runs};
ghost use Rattle.pilot_engine.specs.Outcomes.{AccountsFor, AnswersAll, HaltsAs, IsSetUp, Remains, RunsUntilHalt, WritesAs};
ghost use Rattle.pilot_engine.specs.Referring.{TakesCalls};

use crate::Session;
use flat_machine::{Call, Reply};
use labelled_disk::{Disk, Halt};
use std::alloc::Allocator;

impl<D: Disk, A: Allocator> Session<D, A> {
    /// Whether the session goes on: it does until a call halts it.
    pub fn running(&self) -> bool
        ensures { result ≡ self.now.running }
    {
        self.running
    }

    /// Carries out a call that does not end the session. One that is refused changes nothing; one that halts stops the session,
    /// and nothing more is written.
    pub fn step(&mut self, call: &Call) -> Result<Reply, Halt>
        requires taken { TakesCalls self.old }
        requires more { ends_trace call.now ≡ false }
        requires in_form { IsInForm call.now }
        ensures machine { (m : Machine) → Runs self.old.core self.old.volume m
            → AnswersAll m call.now self.old self.new result }
        ensures halts { HaltsAs call.now self.old self.new result }
        ensures accounts { (o : InitialState) → KeepsOn o self.old.core.filer → IsNotOlder o self.old.volume.root
            → AccountsFor call.now o self.old self.new result }
        ensures writes { WritesAs call.now self.old self.new result }
        ensures remains { RunsUntilHalt self.old self.new result }
        ensures reference { is_reference call.now ≡ true
            → (state self.new.core).disk.transfers ≤ (state self.old.core).disk.transfers + 1680 }
    {
        let answer = self.answer(call);
        if answer.is_err() {
            self.running = false;
        }
        answer
    }

    pub(crate) fn answer(&mut self, call: &Call) -> Result<Reply, Halt>
        requires set_up { IsSetUp self.old }
        requires more { ends_trace call.now ≡ false }
        requires in_form { IsInForm call.now }
        ensures machine { (m : Machine) → Runs self.old.core self.old.volume m
            → AnswersAll m call.now self.old self.new result }
        ensures halts { HaltsAs call.now self.old self.new result }
        ensures accounts { (o : InitialState) → KeepsOn o self.old.core.filer → IsNotOlder o self.old.volume.root
            → AccountsFor call.now o self.old self.new result }
        ensures writes { WritesAs call.now self.old self.new result }
        ensures remains { Remains self.old self.new }
        ensures reference { is_reference call.now ≡ true
            → (state self.new.core).disk.transfers ≤ (state self.old.core).disk.transfers + 1680 }
    {
        match call {
            Call::Create { pages, kind } => self.create(*pages, *kind),
            Call::Delete { id } => self.delete(*id),
            Call::Attributes { id } => self.attributes(*id),
            Call::SetSize { id, pages } => self.set_size(*id, *pages),
            Call::MakePermanent { id } => self.make_permanent(*id),
            Call::MakeImmutable { id } => self.make_immutable(*id),
            Call::Next { id } => self.next(*id),
            Call::Volume => self.volume(),
            _ => self.answer_on_spaces(call),
        }
    }
}
