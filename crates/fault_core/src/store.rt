//! Bytes are stored to the pages that windows show.
ghost use Rattle.std.specs.Prelude.{◌≡◌, ◌≤◌, ◌+◌, ◌/◌, true, length, Ok, IsOk, OnOk};
ghost use Rattle.swapper_kernel.specs.Goes.{this_page};
ghost use Rattle.session_words.specs.CellLaws.{Stores};
ghost use Rattle.fault_core.specs.Access.{Shows, last_page};
ghost use Rattle.fault_core.specs.Attempt.{moved};
ghost use Rattle.fault_core.specs.Kept.{AreApart};
ghost use Rattle.fault_core.specs.Moves.{of_reference};
ghost use Rattle.filer_kernel.specs.View.{FitsLayout, view_of};
ghost use Rattle.fault_core.specs.Unit.{AreShownStored, BringsBoth, BringsShown, IsReady, IsWhole, KeepsResident, file_page};
ghost use Rattle.fault_core.specs.Lack.{both_units, unit_pages};
ghost use Rattle.fault_core.specs.Comes.{Accesses, Attempts, StoresBytes, TriesToStore};
ghost use Rattle.fault_core.specs.Finding.{StoresPart, StoresShown};
ghost use Rattle.fault_core.specs.Outcomes.{ChangesAlone, ChangesBy, ChangesKnown, FailsAtReference, FailsToBringReference, FailsToFind, StaysRevealed};

use crate::Core;
use crate::attempt::Attempt;
use crate::frames::change_in;
use crate::ready::store_at_hand;
use crate::reference::{Access, Reference};
use crate::touch::touch;
use filer_kernel::Filer;
use labelled_disk::{Disk, Halt, PAGE_BYTES};
use std::alloc::Allocator;
use swap_units::Interval;

// Stores to one page that an interval shows. Its frame is dirty then.
fn store_in<D: Disk, A: Allocator>(
    filer: &mut Filer<D, A>,
    x: &Interval,
    page: u32,
    from: u32,
    bytes: &[u8],
) -> Result<(), Halt>
    requires size { FitsLayout (view_of filer.old) }
    requires shows { Shows x.now page }
    requires inside { from + length bytes.now ≤ 512 }
    ensures moves { StoresPart x.now page from bytes.now (view_of filer.old) (view_of filer.new) result }
    ensures whole { OnOk result (IsWhole (view_of filer.new).slots x.now page) }
    ensures fails { FailsToFind (unit_pages x.now page) (λ named m. AreShownStored named m x.now) (view_of filer.old)
        (view_of filer.new) result }
    ensures brings { ChangesBy (this_page x.now.id (file_page x.now page)) (BringsShown x.now) (view_of filer.old)
        (view_of filer.new) }
    ensures idle { IsWhole (view_of filer.old).slots x.now page
        → IsOk result × ((view_of filer.new).disk ≡ (view_of filer.old).disk)
        × KeepsResident (view_of filer.old).slots (view_of filer.new).slots }
    ensures cost { (view_of filer.new).disk.transfers ≤ (view_of filer.old).disk.transfers + 256 }
{
    let slot = match touch(filer, x, page) {
        Ok(slot) => slot,
        Err(halt) => return Err(halt),
    };
    change_in(filer, slot, from, bytes);
    Ok(())
}

// Stores to the pages of a reference, by the intervals that show them.
fn store_shown<D: Disk, A: Allocator>(
    filer: &mut Filer<D, A>,
    first: &Interval,
    last: &Interval,
    address: u32,
    bytes: &[u8],
) -> Result<(), Halt>
    requires size { FitsLayout (view_of filer.old) }
    requires some { 1 ≤ length bytes.now }
    requires few { length bytes.now ≤ 512 }
    requires first { Shows first.now (address / 512) }
    requires last { Shows last.now (last_page address (length bytes.now)) }
    requires one { address / 512 ≡ last_page address (length bytes.now) → last.now ≡ first.now }
    ensures moves { StoresShown first.now last.now address bytes.now (view_of filer.old) (view_of filer.new) result }
    ensures whole { OnOk result (IsWhole (view_of filer.new).slots last.now (last_page address (length bytes.now))) }
    ensures fails { FailsToFind (both_units first.now last.now address (length bytes.now))
        (λ named m. AreShownStored named m first.now × AreShownStored named m last.now) (view_of filer.old)
        (view_of filer.new) result }
    ensures brings { ChangesBy (of_reference first.now last.now address (length bytes.now))
        (BringsBoth first.now last.now) (view_of filer.old) (view_of filer.new) }
    ensures idle { IsWhole (view_of filer.old).slots first.now (address / 512)
        → IsWhole (view_of filer.old).slots last.now (last_page address (length bytes.now))
        → IsOk result × ((view_of filer.new).disk ≡ (view_of filer.old).disk) }
    ensures cost { (view_of filer.new).disk.transfers ≤ (view_of filer.old).disk.transfers + 512 }
{
    let from = address % PAGE_BYTES as u32;
    let room = (PAGE_BYTES as u32 - from) as usize;
    if bytes.len() <= room {
        return store_in(filer, first, address / PAGE_BYTES as u32, from, bytes);
    }
    let (low, high) = bytes.split_at(room);
    match store_in(filer, first, address / PAGE_BYTES as u32, from, low) {
        Ok(()) => (),
        Err(halt) => return Err(halt),
    }
    store_in(filer, last, address / PAGE_BYTES as u32 + 1, 0, high)
}

impl<D: Disk, A: Allocator> Core<D, A> {
    ghost use Rattle.fault_core.specs.Core.{core_view, kept, state};

    // Stores 1 to 512 bytes, and brings in what is not resident.
    fn bring_and_store(&mut self, address: u32, bytes: &[u8]) -> Result<Access, Halt>
        requires size { FitsLayout (state self.old) }
        requires some { 1 ≤ length bytes.now }
        requires few { length bytes.now ≤ 512 }
        ensures comes { Accesses true address (length bytes.now) (core_view self.old) (core_view self.new) result }
        ensures moves { StoresBytes address bytes.now (core_view self.old) (core_view self.new) result }
        ensures stays { StaysRevealed (core_view self.old) (core_view self.new) }
        ensures fails { FailsToBringReference address (length bytes.now) (core_view self.old) (core_view self.new)
            result }
        ensures brings { ChangesKnown address (length bytes.now) (core_view self.old) (core_view self.new) }
        ensures idle { IsReady (kept self.old) (state self.old).slots (address / 512)
            → IsReady (kept self.old) (state self.old).slots (last_page address (length bytes.now))
            → AreApart (kept self.old)
            → IsOk result × ((state self.new).disk ≡ (state self.old).disk) × (kept self.new ≡ kept self.old) }
        ensures cost { (state self.new).disk.transfers ≤ (state self.old).disk.transfers + 1680 }
    {
        let (first, last) = match self.refer(address, bytes.len() as u32, true) {
            Ok(Reference::Shown { first, last }) => (first, last),
            Ok(Reference::NoMap(page)) => return Ok(Access::NoMap(page)),
            Ok(Reference::ReadOnly(page)) => return Ok(Access::ReadOnly(page)),
            Err(halt) => return Err(halt),
        };
        match store_shown(&mut self.filer, &first, &last, address, bytes) {
            Ok(()) => Ok(Access::Done),
            Err(halt) => Err(halt),
        }
    }

    /// Stores 1 to 512 bytes from an address on. All pages of the reference are tested before the first byte is moved: one
    /// that is refused changes nothing. After `Done` the last page is ready, and its frame dirty.
    pub fn store(&mut self, address: u32, bytes: &[u8]) -> Result<Access, Halt>
        requires size { FitsLayout (state self.old) }
        requires some { 1 ≤ length bytes.now }
        requires few { length bytes.now ≤ 512 }
        ensures comes { Accesses true address (length bytes.now) (core_view self.old) (core_view self.new) result }
        ensures moves { StoresBytes address bytes.now (core_view self.old) (core_view self.new) result }
        ensures stays { StaysRevealed (core_view self.old) (core_view self.new) }
        ensures fails { FailsToBringReference address (length bytes.now) (core_view self.old) (core_view self.new)
            result }
        ensures brings { ChangesKnown address (length bytes.now) (core_view self.old) (core_view self.new) }
        ensures idle { IsReady (kept self.old) (state self.old).slots (address / 512)
            → IsReady (kept self.old) (state self.old).slots (last_page address (length bytes.now))
            → AreApart (kept self.old)
            → IsOk result × ((state self.new).disk ≡ (state self.old).disk) × (kept self.new ≡ kept self.old) }
        ensures cost { (state self.new).disk.transfers ≤ (state self.old).disk.transfers + 1680 }
    {
        if store_at_hand(&mut self.filer, &self.descriptors, address, bytes) {
            return Ok(Access::Done);
        }
        self.bring_and_store(address, bytes)
    }

    /// Stores 1 to 512 bytes from an address on where all pages of the reference are resident, and brings in no page of a
    /// client: it gives the first of them that is not, where the reference is not refused.
    pub fn try_store(&mut self, address: u32, bytes: &[u8]) -> Result<Attempt, Halt>
        requires size { FitsLayout (state self.old) }
        requires some { 1 ≤ length bytes.now }
        requires few { length bytes.now ≤ 512 }
        ensures comes { Attempts true address (length bytes.now) (core_view self.old) (core_view self.new) result }
        ensures moves { TriesToStore address bytes.now (core_view self.old) (core_view self.new) result }
        ensures stays { StaysRevealed (core_view self.old) (core_view self.new) }
        ensures fails { FailsAtReference address (length bytes.now) (core_view self.old) (core_view self.new) result }
        ensures brings { ChangesAlone (state self.old) (state self.new) }
        ensures idle { IsReady (kept self.old) (state self.old).slots (address / 512)
            → IsReady (kept self.old) (state self.old).slots (last_page address (length bytes.now))
            → AreApart (kept self.old)
            → IsOk result × ((state self.new).disk ≡ (state self.old).disk) × (kept self.new ≡ kept self.old) }
        ensures cost { (state self.new).disk.transfers ≤ (state self.old).disk.transfers + 392 }
    {
        if store_at_hand(&mut self.filer, &self.descriptors, address, bytes) {
            return Ok(Attempt::Access(Access::Done));
        }
        self.look_and_store(address, bytes)
    }
}
