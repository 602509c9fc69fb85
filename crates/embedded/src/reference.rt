//! One load or store of up to a page, answered by why it was not carried out.
ghost use Rattle.std.specs.Prelude.{◌≡◌, ℕ, ◌+◌, ◌%◌, ◌<◌, ◌≤◌, length, slice_get, OnErr, OnOk};
ghost use Rattle.flat_machine.specs.declared.call.Call.TheVariants as call;
ghost use Rattle.flat_machine.specs.declared.call.Reply.TheVariants as reply;
ghost use Rattle.flat_machine.specs.Machine.{Machine};
ghost use Rattle.session_words.specs.StandsFor.{RevealsSettled};
ghost use Rattle.pilot_engine.specs.Referring.{IsAtOnce};
ghost use Rattle.embedded.specs.Answers.{answer_of, replied};
ghost use Rattle.embedded.specs.Called.{Called};
ghost use Rattle.embedded.specs.Engine.{IsClosed, LosesNoFault, StandsFor};
ghost use Rattle.embedded.specs.References.{AreAt, Stored};
ghost use Rattle.embedded.specs.Spending.{Spends};
ghost use Rattle.embedded.specs.Stops.{Leaves};

use crate::held::Held;
use crate::{Code, Engine};
use flat_machine::Refusal;
use labelled_disk::Disk;
use pilot_engine::Access;
use std::alloc::Allocator;

// What the client gets for what a reference came to.
fn answer_of(access: Access) -> Result<(), Code>
    ensures { result ≡ answer_of access }
{
    match access {
        Access::Done => Ok(()),
        Access::NoMap(page) => Err(Code::Refused(Refusal::NoMap(page))),
        Access::ReadOnly(page) => Err(Code::Refused(Refusal::ReadOnly(page))),
    }
}

impl<D: Disk + Drop, A: Allocator> Engine<D, A> {
    // Loads 1 to 512 bytes. Where they are on one page, and are not loaded, none is moved.
    pub(crate) fn load_piece(&mut self, address: u32, into: &mut [u8]) -> Result<(), Code>
        requires { IsAtOnce (length into.old) }
        ensures called { Called (call.Load address (length into.old)) self.old (replied (reply.Bytes into.new) result)
            self.new }
        ensures width { length into.new ≡ length into.old }
        ensures intact { address % 512 + length into.old ≤ 512 → OnErr result (into.new ≡ into.old) }
        ensures faults { OnOk result (LosesNoFault self.old self.new) }
    {
        let Held::Session(live) = &mut self.held else {
            return Err(Code::Closed);
        };
        if !live.running() {
            return Err(Code::Closed);
        }
        match live.load(address, into) {
            Ok(access) => answer_of(access),
            Err(halt) => Err(self.stop(halt)),
        }
    }

    // Loads the first of these bytes whose pages are ready, and says how many.
    pub(crate) fn load_ready(&mut self, address: u32, into: &mut [u8]) -> usize
        ensures loaded { (m : Machine) → StandsFor self.old m → AreAt m address result into.new }
        ensures part { result ≤ length into.old }
        ensures ends { 1 ≤ result → result < length into.old → (address + result) % 512 ≡ 0 }
        ensures rest { (k : ℕ) → result ≤ k → slice_get into.new k ≡ slice_get into.old k }
        ensures width { length into.new ≡ length into.old }
        ensures closed { IsClosed self.old → result ≡ 0 }
        ensures same { self.new ≡ self.old }
    {
        let Held::Session(live) = &mut self.held else {
            return 0;
        };
        if !live.running() {
            return 0;
        }
        live.load_ready(address, into)
    }

    // Stores the first of these bytes whose pages are ready, and says how many.
    pub(crate) fn store_ready(&mut self, address: u32, bytes: &[u8]) -> usize
        requires { 1 ≤ length bytes.now }
        ensures stored { (m : Machine) → StandsFor self.old m → Stored m address result bytes.now self.new }
        ensures leaves { (m : Machine) → StandsFor self.old m → Leaves (λ d. RevealsSettled d m) self.old self.new }
        ensures part { result ≤ length bytes.now }
        ensures ends { 1 ≤ result → result < length bytes.now → (address + result) % 512 ≡ 0 }
        ensures closed { IsClosed self.old → result ≡ 0 }
        ensures left { result ≡ 0 → self.new ≡ self.old }
        ensures faults { LosesNoFault self.old self.new }
        ensures spends { Spends 0 1 self.old self.new }
    {
        let Held::Session(live) = &mut self.held else {
            return 0;
        };
        if !live.running() {
            return 0;
        }
        live.store_ready(address, bytes)
    }

    // Stores 1 to 512 bytes.
    pub(crate) fn store_piece(&mut self, address: u32, bytes: &[u8]) -> Result<(), Code>
        requires { IsAtOnce (length bytes.now) }
        ensures called { Called (call.Store address bytes.now) self.old (replied reply.Done result) self.new }
        ensures faults { OnOk result (LosesNoFault self.old self.new) }
    {
        let Held::Session(live) = &mut self.held else {
            return Err(Code::Closed);
        };
        if !live.running() {
            return Err(Code::Closed);
        }
        match live.store(address, bytes) {
            Ok(access) => answer_of(access),
            Err(halt) => Err(self.stop(halt)),
        }
    }
}
