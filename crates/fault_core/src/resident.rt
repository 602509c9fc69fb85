//! References whose pages are all resident, which are described first.
ghost use Rattle.std.specs.Prelude.{◌≡◌, ◌≤◌, ◌+◌, ◌/◌, true, false, length, Ok, IsOk};
ghost use Rattle.fault_core.specs.Access.{last_page};
ghost use Rattle.fault_core.specs.Kept.{AreApart};
ghost use Rattle.fault_core.specs.Moves.{Loads};
ghost use Rattle.filer_kernel.specs.View.{FitsLayout};
ghost use Rattle.fault_core.specs.Unit.{IsReady};
ghost use Rattle.fault_core.specs.Comes.{Attempts, TriesToLoad, TriesToStore};
ghost use Rattle.fault_core.specs.Outcomes.{ChangesAlone, FailsAtReference, FindsAlone, StaysKnown, StaysRevealed};

use crate::Core;
use crate::attempt::{Attempt, Prospect};
use crate::frames::{change_pages, copy_pages};
use crate::reference::Access;
use labelled_disk::{Disk, Halt};
use std::alloc::Allocator;

impl<D: Disk, A: Allocator> Core<D, A> {
    ghost use Rattle.fault_core.specs.Core.{core_view, kept, state};

    // Loads where all pages are resident, once they are described.
    pub(crate) fn look_and_load(&mut self, address: u32, into: &mut [u8]) -> Result<Attempt, Halt>
        requires size { FitsLayout (state self.old) }
        requires some { 1 ≤ length into.old }
        requires few { length into.old ≤ 512 }
        ensures comes { Attempts false address (length into.old) (core_view self.old) (core_view self.new) result }
        ensures moves { TriesToLoad address into.old into.new (core_view self.old) result }
        ensures fails { FailsAtReference address (length into.old) (core_view self.old) (core_view self.new) result }
        ensures stays { StaysKnown (core_view self.old) (core_view self.new) }
        ensures brings { FindsAlone (state self.old) (state self.new) }
        ensures idle { IsReady (kept self.old) (state self.old).slots (address / 512)
            → IsReady (kept self.old) (state self.old).slots (last_page address (length into.old))
            → AreApart (kept self.old)
            → IsOk result × (self.new.filer ≡ self.old.filer) × (kept self.new ≡ kept self.old) }
        ensures cost { (state self.new).disk.transfers ≤ (state self.old).disk.transfers + 392 }
    {
        let (first, last) = match self.look_ahead(address, into.len() as u32, false) {
            Ok(Prospect::Ready { first, last }) => (first, last),
            Ok(Prospect::Settled(attempt)) => return Ok(attempt),
            Err(halt) => return Err(halt),
        };
        copy_pages(&mut self.filer, first, last, address, into);
        Ok(Attempt::Access(Access::Done))
    }

    // Stores where all pages are resident, once they are described.
    pub(crate) fn look_and_store(&mut self, address: u32, bytes: &[u8]) -> Result<Attempt, Halt>
        requires size { FitsLayout (state self.old) }
        requires some { 1 ≤ length bytes.now }
        requires few { length bytes.now ≤ 512 }
        ensures comes { Attempts true address (length bytes.now) (core_view self.old) (core_view self.new) result }
        ensures moves { TriesToStore address bytes.now (core_view self.old) (core_view self.new) result }
        ensures stays { StaysRevealed (core_view self.old) (core_view self.new) }
        ensures fails { FailsAtReference address (length bytes.now) (core_view self.old) (core_view self.new) result }
        ensures brings { ChangesAlone (state self.old) (state self.new) }
        ensures idle { IsReady (kept self.old) (state self.old).slots (address / 512)
            → IsReady (kept self.old) (state self.old).slots (last_page address (length bytes.now))
            → AreApart (kept self.old)
            → IsOk result × ((state self.new).disk ≡ (state self.old).disk) × (kept self.new ≡ kept self.old) }
        ensures cost { (state self.new).disk.transfers ≤ (state self.old).disk.transfers + 392 }
    {
        let (first, last) = match self.look_ahead(address, bytes.len() as u32, true) {
            Ok(Prospect::Ready { first, last }) => (first, last),
            Ok(Prospect::Settled(attempt)) => return Ok(attempt),
            Err(halt) => return Err(halt),
        };
        change_pages(&mut self.filer, first, last, address, bytes);
        Ok(Attempt::Access(Access::Done))
    }
}
