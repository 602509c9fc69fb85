//! Bytes that are loaded and stored in place, up to a page at once.
ghost use Rattle.std.specs.Prelude.{◌≡◌, ◌≢◌, ℕ, ◌+◌, ◌%◌, ◌<◌, ◌≤◌, false, length, slice_get, IfOk, OnErr};
ghost use Rattle.flat_machine.specs.declared.call.Call.TheVariants as call;
ghost use Rattle.flat_machine.specs.declared.call.Reply.TheVariants as reply;
ghost use Rattle.flat_machine.specs.Machine.{Machine};
ghost use Rattle.file_manager.specs.Reasons.{InitialState, KeepsOn};
ghost use Rattle.fault_core.specs.Core.{kept, state};
ghost use Rattle.fault_core.specs.Ready.{IsAtHand};
ghost use Rattle.fault_core.specs.declared.reference.Access.TheVariants as access;
ghost use Rattle.running_words.specs.Running.{Runs};
ghost use Rattle.pilot_engine.specs.Calls.{Accounts};
ghost use Rattle.pilot_engine.specs.Referring.{AreReplied, IsAtOnce, Refers, RefersIn, TakesCalls};

use crate::Session;
use fault_core::Access;
use labelled_disk::{Disk, Halt};
use std::alloc::Allocator;

impl<D: Disk, A: Allocator> Session<D, A> {
    /// Loads 1 to 512 bytes from an address on. All pages of the reference are tested before the first byte is moved:
    /// one that is refused moves none. One that halts stops the session, and moves none where it is on one page.
    pub fn load(&mut self, address: u32, into: &mut [u8]) -> Result<Access, Halt>
        requires count { IsAtOnce (length into.old) }
        requires taken { TakesCalls self.old }
        ensures machine { (m : Machine) → Runs self.old.core self.old.volume m
            → RefersIn m (call.Load address (length into.old)) (reply.Bytes into.new) self.old result self.new }
        ensures since { (o : InitialState) → KeepsOn o self.old.core.filer → Accounts o o self.old self.new result }
        ensures refers { Refers (call.Load address (length into.old)) self.old result self.new }
        ensures width { length into.new ≡ length into.old }
        ensures unmoved { IfOk result (λ a. a ≢ access.Done → into.new ≡ into.old) }
        ensures intact { address % 512 + length into.old ≤ 512 → OnErr result (into.new ≡ into.old) }
    {
        match self.core.load(address, into) {
            Ok(access) => Ok(access),
            Err(halt) => {
                self.running = false;
                Err(halt)
            }
        }
    }

    /// Loads the first of these bytes, page by page, as far as their pages are ready and in the swap unit of the first one,
    /// and says how many: at least one, where the first is. Nothing but these bytes changes.
    pub fn load_ready(&mut self, address: u32, into: &mut [u8]) -> usize
        requires taken { TakesCalls self.old }
        ensures machine { (m : Machine) → Runs self.old.core self.old.volume m
            → AreReplied m address result into.new }
        ensures part { result ≤ length into.old }
        ensures ends { 1 ≤ result → result < length into.old → (address + result) % 512 ≡ 0 }
        ensures first { (m : Machine) (slot : ℕ) → Runs self.old.core self.old.volume m
            → IsAtHand (kept self.old.core) (state self.old.core).slots false address 1 slot
            → 1 ≤ length into.old → 1 ≤ result }
        ensures rest { (k : ℕ) → result ≤ k → slice_get into.new k ≡ slice_get into.old k }
        ensures width { length into.new ≡ length into.old }
        ensures same { self.new ≡ self.old }
    {
        self.core.load_ready(address, into)
    }

    /// Stores 1 to 512 bytes from an address on. All pages of the reference are tested before the first byte is moved:
    /// one that is refused changes nothing. One that halts stops the session.
    pub fn store(&mut self, address: u32, bytes: &[u8]) -> Result<Access, Halt>
        requires count { IsAtOnce (length bytes.now) }
        requires taken { TakesCalls self.old }
        ensures machine { (m : Machine) → Runs self.old.core self.old.volume m
            → RefersIn m (call.Store address bytes.now) reply.Done self.old result self.new }
        ensures since { (o : InitialState) → KeepsOn o self.old.core.filer → Accounts o o self.old self.new result }
        ensures refers { Refers (call.Store address bytes.now) self.old result self.new }
    {
        match self.core.store(address, bytes) {
            Ok(access) => Ok(access),
            Err(halt) => {
                self.running = false;
                Err(halt)
            }
        }
    }
}
