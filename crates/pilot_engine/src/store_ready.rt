//! Bytes that are stored in place to pages in a row that are ready.
ghost use Rattle.std.specs.Prelude.{◌≡◌, ℕ, ◌+◌, ◌%◌, ◌<◌, ◌≤◌, true, length, Ok};
ghost use Rattle.flat_machine.specs.Machine.{Machine};
ghost use Rattle.file_manager.specs.Reasons.{InitialState, KeepsOn};
ghost use Rattle.fault_core.specs.Core.{kept, state};
ghost use Rattle.fault_core.specs.Ready.{IsAtHand};
ghost use Rattle.running_words.specs.Running.{Runs};
ghost use Rattle.pilot_engine.specs.Calls.{Accounts};
ghost use Rattle.pilot_engine.specs.Referring.{TakesCalls};
ghost use Rattle.pilot_engine.specs.StoreReady.{StaysAtHand, StoresAtHand};

use crate::Session;
use labelled_disk::Disk;
use std::alloc::Allocator;

impl<D: Disk, A: Allocator> Session<D, A> {
    /// Stores the first of these bytes, page by page, as far as their pages are ready, may be stored to and are in the swap
    /// unit of the first one, and says how many: at least one, where the first is. No sector is moved.
    pub fn store_ready(&mut self, address: u32, bytes: &[u8]) -> usize
        requires some { 1 ≤ length bytes.now }
        requires taken { TakesCalls self.old }
        ensures machine { (m : Machine) → Runs self.old.core self.old.volume m
            → StoresAtHand m address result bytes.now self.old self.new }
        ensures since { (o : InitialState) → KeepsOn o self.old.core.filer
            → Accounts o o self.old self.new (Ok result) }
        ensures stays { StaysAtHand self.old self.new }
        ensures part { result ≤ length bytes.now }
        ensures ends { 1 ≤ result → result < length bytes.now → (address + result) % 512 ≡ 0 }
        ensures left { result ≡ 0 → self.new ≡ self.old }
        ensures first { (m : Machine) (slot : ℕ) → Runs self.old.core self.old.volume m
            → IsAtHand (kept self.old.core) (state self.old.core).slots true address 1 slot → 1 ≤ result }
    {
        self.core.store_ready(address, bytes)
    }
}
