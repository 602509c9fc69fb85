//! One load or store in a session that has what it requires.
ghost use Rattle.std.specs.Prelude.{◌≡◌, ◌≢◌, ℕ, ◌+◌, ◌%◌, ◌<◌, ◌≤◌, length, slice_get, true, IfOk, OnErr};
ghost use Rattle.flat_machine.specs.declared.call.Call.TheVariants as call;
ghost use Rattle.flat_machine.specs.declared.call.Reply.TheVariants as reply;
ghost use Rattle.flat_machine.specs.Machine.{Machine};
ghost use Rattle.fault_core.specs.declared.reference.Access.TheVariants as access;
ghost use Rattle.running_words.specs.Running.{Runs};
ghost use Rattle.pilot_engine.specs.Referring.{AreReplied, IsAtOnce, Refers, RefersIn};
ghost use Rattle.pilot_engine.specs.StoreReady.{StaysAtHand, StoresAtHand};

use crate::live::Live;
use labelled_disk::{Disk, Halt};
use pilot_engine::Access;
use std::alloc::Allocator;

impl<D: Disk, A: Allocator> Live<D, A> {
    /// Loads 1 to 512 bytes from an address on.
    pub(crate) fn load(&mut self, address: u32, into: &mut [u8]) -> Result<Access, Halt>
        requires count { IsAtOnce (length into.old) }
        requires running { self.old.session.running ≡ true }
        ensures machine { (m : Machine) → Runs self.old.session.core self.old.session.volume m
            → RefersIn m (call.Load address (length into.old)) (reply.Bytes into.new) self.old.session result
            self.new.session }
        ensures refers { Refers (call.Load address (length into.old)) self.old.session result self.new.session }
        ensures width { length into.new ≡ length into.old }
        ensures unmoved { IfOk result (λ a. a ≢ access.Done → into.new ≡ into.old) }
        ensures intact { address % 512 + length into.old ≤ 512 → OnErr result (into.new ≡ into.old) }
    {
        self.session.load(address, into)
    }

    /// Loads the first of these bytes whose pages are ready, and says how many.
    pub(crate) fn load_ready(&mut self, address: u32, into: &mut [u8]) -> usize
        requires running { self.old.session.running ≡ true }
        ensures machine { (m : Machine) → Runs self.old.session.core self.old.session.volume m
            → AreReplied m address result into.new }
        ensures part { result ≤ length into.old }
        ensures ends { 1 ≤ result → result < length into.old → (address + result) % 512 ≡ 0 }
        ensures rest { (k : ℕ) → result ≤ k → slice_get into.new k ≡ slice_get into.old k }
        ensures width { length into.new ≡ length into.old }
        ensures same { self.new ≡ self.old }
    {
        self.session.load_ready(address, into)
    }

    /// Stores the first of these bytes whose pages are ready, and says how many.
    pub(crate) fn store_ready(&mut self, address: u32, bytes: &[u8]) -> usize
        requires some { 1 ≤ length bytes.now }
        requires running { self.old.session.running ≡ true }
        ensures machine { (m : Machine) → Runs self.old.session.core self.old.session.volume m
            → StoresAtHand m address result bytes.now self.old.session self.new.session }
        ensures stays { StaysAtHand self.old.session self.new.session }
        ensures part { result ≤ length bytes.now }
        ensures ends { 1 ≤ result → result < length bytes.now → (address + result) % 512 ≡ 0 }
        ensures left { result ≡ 0 → self.new ≡ self.old }
    {
        self.session.store_ready(address, bytes)
    }

    /// Stores 1 to 512 bytes from an address on.
    pub(crate) fn store(&mut self, address: u32, bytes: &[u8]) -> Result<Access, Halt>
        requires count { IsAtOnce (length bytes.now) }
        requires running { self.old.session.running ≡ true }
        ensures machine { (m : Machine) → Runs self.old.session.core self.old.session.volume m
            → RefersIn m (call.Store address bytes.now) reply.Done self.old.session result self.new.session }
        ensures refers { Refers (call.Store address bytes.now) self.old.session result self.new.session }
    {
        self.session.store(address, bytes)
    }
}
