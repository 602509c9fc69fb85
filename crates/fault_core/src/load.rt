//! Bytes are loaded from the pages that windows show.
ghost use Rattle.std.specs.Prelude.{◌≡◌, ◌≤◌, ◌<◌, ◌+◌, ◌/◌, ◌%◌, ℕ, false, List, length, slice_get, Ok, IsOk, OnOk};
ghost use Rattle.labelled_disk.specs.Sectors.{Sector};
ghost use Rattle.file_map.specs.FileMap.{Triples};
ghost use Rattle.flat_machine.specs.declared.space.Space.{Space};
ghost use Rattle.fault_core.specs.declared.reference.Access.TheVariants as access;
ghost use Rattle.fault_core.specs.Access.{Shows, access_of, last_page};
ghost use Rattle.fault_core.specs.Attempt.{moved};
ghost use Rattle.fault_core.specs.Kept.{AreApart};
ghost use Rattle.fault_core.specs.Moves.{Loads};
ghost use Rattle.fault_core.specs.Ready.{AreLoaded, IsAtHand};
ghost use Rattle.filer_kernel.specs.View.{FitsLayout, view_of};
ghost use Rattle.fault_core.specs.Unit.{AreShownStored, BringsBoth, BringsShown, IsReady, IsWhole};
ghost use Rattle.fault_core.specs.Lack.{both_units, unit_pages};
ghost use Rattle.fault_core.specs.Comes.{Accesses, Attempts, LoadsBytes, TriesToLoad};
ghost use Rattle.fault_core.specs.Finding.{LoadsPart, LoadsShown};
ghost use Rattle.fault_core.specs.Outcomes.{FailsAtReference, FailsToBringReference, FailsToFind, FetchesKnown, FindsAlone, FindsBy, StaysKnown};

use crate::Core;
use crate::attempt::Attempt;
use crate::frames::copy_out;
use crate::ready::{load_at_hand, load_unit};
use crate::reference::{Access, Reference};
use crate::touch::touch;
use filer_kernel::Filer;
use labelled_disk::{Disk, Halt, PAGE_BYTES};
use std::alloc::Allocator;
use swap_units::Interval;

// Loads from one page that an interval shows.
fn load_in<D: Disk, A: Allocator>(
    filer: &mut Filer<D, A>,
    x: &Interval,
    page: u32,
    from: usize,
    into: &mut [u8],
) -> Result<(), Halt>
    requires size { FitsLayout (view_of filer.old) }
    requires shows { Shows x.now page }
    requires inside { from + length into.old ≤ 512 }
    ensures moves { LoadsPart x.now page from into.old into.new (view_of filer.old) result }
    ensures whole { OnOk result (IsWhole (view_of filer.new).slots x.now page) }
    ensures fails { FailsToFind (unit_pages x.now page) (λ named m. AreShownStored named m x.now) (view_of filer.old)
        (view_of filer.new) result }
    ensures brings { FindsBy (BringsShown x.now) (view_of filer.old) (view_of filer.new) }
    ensures idle { IsWhole (view_of filer.old).slots x.now page → IsOk result × (filer.new ≡ filer.old) }
    ensures cost { (view_of filer.new).disk.transfers ≤ (view_of filer.old).disk.transfers + 256 }
{
    let slot = match touch(filer, x, page) {
        Ok(slot) => slot,
        Err(halt) => return Err(halt),
    };
    copy_out(filer, slot, from, into);
    Ok(())
}

// Loads from the pages of a reference, by the intervals that show them.
fn load_shown<D: Disk, A: Allocator>(
    filer: &mut Filer<D, A>,
    first: &Interval,
    last: &Interval,
    address: u32,
    into: &mut [u8],
) -> Result<(), Halt>
    requires size { FitsLayout (view_of filer.old) }
    requires some { 1 ≤ length into.old }
    requires few { length into.old ≤ 512 }
    requires first { Shows first.now (address / 512) }
    requires last { Shows last.now (last_page address (length into.old)) }
    requires one { address / 512 ≡ last_page address (length into.old) → last.now ≡ first.now }
    ensures moves { LoadsShown first.now last.now address into.old into.new (view_of filer.old) result }
    ensures whole { OnOk result (IsWhole (view_of filer.new).slots last.now (last_page address (length into.old))) }
    ensures fails { FailsToFind (both_units first.now last.now address (length into.old))
        (λ named m. AreShownStored named m first.now × AreShownStored named m last.now) (view_of filer.old)
        (view_of filer.new) result }
    ensures brings { FindsBy (BringsBoth first.now last.now) (view_of filer.old) (view_of filer.new) }
    ensures idle { IsWhole (view_of filer.old).slots first.now (address / 512)
        → IsWhole (view_of filer.old).slots last.now (last_page address (length into.old))
        → IsOk result × (filer.new ≡ filer.old) }
    ensures cost { (view_of filer.new).disk.transfers ≤ (view_of filer.old).disk.transfers + 512 }
{
    let from = (address % PAGE_BYTES as u32) as usize;
    let room = PAGE_BYTES - from;
    if into.len() <= room {
        return load_in(filer, first, address / PAGE_BYTES as u32, from, into);
    }
    let (low, high) = into.split_at_mut(room);
    match load_in(filer, first, address / PAGE_BYTES as u32, from, low) {
        Ok(()) => (),
        Err(halt) => return Err(halt),
    }
    load_in(filer, last, address / PAGE_BYTES as u32 + 1, 0, high)
}

impl<D: Disk, A: Allocator> Core<D, A> {
    ghost use Rattle.fault_core.specs.Core.{Knows, core_view, kept, state};

    // Loads 1 to 512 bytes, and brings in what is not resident.
    fn bring_and_load(&mut self, address: u32, into: &mut [u8]) -> Result<Access, Halt>
        requires size { FitsLayout (state self.old) }
        requires some { 1 ≤ length into.old }
        requires few { length into.old ≤ 512 }
        ensures comes { Accesses false address (length into.old) (core_view self.old) (core_view self.new) result }
        ensures moves { LoadsBytes address into.old into.new (core_view self.old) result }
        ensures fails { FailsToBringReference address (length into.old) (core_view self.old) (core_view self.new)
            result }
        ensures stays { StaysKnown (core_view self.old) (core_view self.new) }
        ensures brings { FetchesKnown (core_view self.old) (core_view self.new) }
        ensures idle { IsReady (kept self.old) (state self.old).slots (address / 512)
            → IsReady (kept self.old) (state self.old).slots (last_page address (length into.old))
            → AreApart (kept self.old)
            → IsOk result × (self.new.filer ≡ self.old.filer) × (kept self.new ≡ kept self.old) }
        ensures cost { (state self.new).disk.transfers ≤ (state self.old).disk.transfers + 1680 }
    {
        let (first, last) = match self.refer(address, into.len() as u32, false) {
            Ok(Reference::Shown { first, last }) => (first, last),
            Ok(Reference::NoMap(page)) => return Ok(Access::NoMap(page)),
            Ok(Reference::ReadOnly(page)) => return Ok(Access::ReadOnly(page)),
            Err(halt) => return Err(halt),
        };
        match load_shown(&mut self.filer, &first, &last, address, into) {
            Ok(()) => Ok(Access::Done),
            Err(halt) => Err(halt),
        }
    }

    /// Loads the first of these bytes, page by page, as far as their pages are ready and in the swap unit of the first one,
    /// and says how many: at least one, where the first is. No table is asked, no page comes in, and nothing but these bytes
    /// changes.
    pub fn load_ready(&mut self, address: u32, into: &mut [u8]) -> usize
        ensures part { result ≤ length into.old }
        ensures ends { 1 ≤ result → result < length into.old → (address + result) % 512 ≡ 0 }
        ensures first { (slot : ℕ) → IsAtHand (kept self.old) (state self.old).slots false address 1 slot
            → AreApart (kept self.old) → 1 ≤ length into.old → 1 ≤ result }
        ensures access { (m : List Sector) (named : Triples) (ss : List Space) → Knows self.old m named ss
            → (k : ℕ) → k < result → access.Done ≡ access_of ss false (address + k) 1 }
        ensures bytes { (m : List Sector) (named : Triples) (ss : List Space) → Knows self.old m named ss
            → AreLoaded ss address result into.new m }
        ensures rest { (k : ℕ) → result ≤ k → slice_get into.new k ≡ slice_get into.old k }
        ensures width { length into.new ≡ length into.old }
        ensures same { self.new ≡ self.old }
    {
        load_unit(&mut self.filer, &self.descriptors, address, into)
    }

    /// Loads 1 to 512 bytes from an address on. All pages of the reference are tested before the first byte is moved. After
    /// `Done` the last page is ready. One that halts, and is on one page, moves no byte.
    pub fn load(&mut self, address: u32, into: &mut [u8]) -> Result<Access, Halt>
        requires size { FitsLayout (state self.old) }
        requires some { 1 ≤ length into.old }
        requires few { length into.old ≤ 512 }
        ensures comes { Accesses false address (length into.old) (core_view self.old) (core_view self.new) result }
        ensures moves { LoadsBytes address into.old into.new (core_view self.old) result }
        ensures fails { FailsToBringReference address (length into.old) (core_view self.old) (core_view self.new)
            result }
        ensures stays { StaysKnown (core_view self.old) (core_view self.new) }
        ensures brings { FetchesKnown (core_view self.old) (core_view self.new) }
        ensures idle { IsReady (kept self.old) (state self.old).slots (address / 512)
            → IsReady (kept self.old) (state self.old).slots (last_page address (length into.old))
            → AreApart (kept self.old)
            → IsOk result × (self.new.filer ≡ self.old.filer) × (kept self.new ≡ kept self.old) }
        ensures cost { (state self.new).disk.transfers ≤ (state self.old).disk.transfers + 1680 }
    {
        if load_at_hand(&mut self.filer, &self.descriptors, address, into) {
            return Ok(Access::Done);
        }
        self.bring_and_load(address, into)
    }

    /// Loads 1 to 512 bytes from an address on where all pages of the reference are resident, and brings in no page of a
    /// client: it gives the first of them that is not, where the reference is not refused.
    pub fn try_load(&mut self, address: u32, into: &mut [u8]) -> Result<Attempt, Halt>
        requires size { FitsLayout (state self.old) }
        requires some { 1 ≤ length into.old }
        requires few { length into.old ≤ 512 }
        ensures comes { Attempts false address (length into.old) (core_view self.old) (core_view self.new) result }
        ensures moves { TriesToLoad address into.old into.new (core_view self.old) result }
        ensures fails { FailsAtReference address (length into.old) (core_view self.old) (core_view self.new) result }
        ensures stays { StaysKnown (core_view self.old) (core_view self.new) }
        ensures brings { FindsAlone (state self.old) (state self.new) }
        ensures idle { IsReady (kept self.old) (state self.old).slots (address / 512)
            → IsReady (kept self.old) (state self.old).slots (last_page address (length into.old))
            → AreApart (kept self.old)
            → IsOk result × (self.new.filer ≡ self.old.filer) × (kept self.new ≡ kept self.old) }
        ensures cost { (state self.new).disk.transfers ≤ (state self.old).disk.transfers + 392 }
    {
        if load_at_hand(&mut self.filer, &self.descriptors, address, into) {
            return Ok(Attempt::Access(Access::Done));
        }
        self.look_and_load(address, into)
    }
}
