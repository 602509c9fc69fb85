//! The bytes of a reference's pages, where these are in frames.
ghost use Rattle.std.specs.Prelude.{◌≡◌, ◌≤◌, ◌<◌, ◌+◌, ◌/◌, ℕ, true, List, length, IsSome};
ghost use Rattle.labelled_disk.specs.Label.{is_file_id};
ghost use Rattle.labelled_disk.specs.Sectors.{Sector};
ghost use Rattle.file_map.specs.FileMap.{Triples};
ghost use Rattle.flat_mem.specs.Memory.{part};
ghost use Rattle.frame_pool.specs.Frames.{Frame, Has, HasPage, frame_at};
ghost use Rattle.flat_machine.specs.declared.space.Space.{Space};
ghost use Rattle.swapper_kernel.specs.Goes.{IsDirty, this_page};
ghost use Rattle.session_words.specs.CellLaws.{Stores, StoresAt};
ghost use Rattle.fault_core.specs.Access.{last_page};
ghost use Rattle.fault_core.specs.Attempt.{HasClient, either};
ghost use Rattle.fault_core.specs.Moves.{Leaves, Loads};
ghost use Rattle.fault_core.specs.Reach.{BringsOwn};
ghost use Rattle.fault_core.specs.Revealed.{AreStored, Known};
ghost use Rattle.fault_core.specs.Touch.{Touches};
ghost use Rattle.fault_core.specs.Unit.{IsShownDirty, IsSlotOf};
ghost use Rattle.fault_core.specs.Room.{KeepsSlots};
ghost use Rattle.filer_kernel.specs.View.{disk_of, view_of};

use filer_kernel::Filer;
use labelled_disk::{Disk, PAGE_BYTES};
use std::alloc::Allocator;

/// Reads from a page in a frame.
pub(crate) fn copy_out<D: Disk, A: Allocator>(
    filer: &mut Filer<D, A>,
    slot: u32,
    from: usize,
    into: &mut [u8],
)
    requires below { slot < length (view_of filer.old).slots }
    requires filled { IsSome (frame_at (view_of filer.old).slots slot) }
    requires inside { from + length into.old ≤ 512 }
    ensures bytes { (f : Frame) → Has (view_of filer.old).slots slot f
        → into.new ≡ part f.bytes from (length into.old) }
    ensures width { length into.new ≡ length into.old }
    ensures same { filer.new ≡ filer.old }
{
    let page = filer.swapper_over().frames().bytes(slot);
    into.copy_from_slice(&page[from..from + into.len()]);
}

/// Reads the bytes of a reference from the slots of its first and of its last page.
pub(crate) fn copy_pages<D: Disk, A: Allocator>(
    filer: &mut Filer<D, A>,
    first: u32,
    last: u32,
    address: u32,
    into: &mut [u8],
)
    requires some { 1 ≤ length into.old }
    requires few { length into.old ≤ 512 }
    requires first { HasClient (view_of filer.old).slots first }
    requires last { HasClient (view_of filer.old).slots last }
    ensures bytes { (m : List Sector) (named : Triples) (b : List ℕ) (ss : List Space)
        → Known (view_of filer.old) m named b → AreStored named m ss
        → IsSlotOf ss (view_of filer.old).slots (address / 512) first
        → IsSlotOf ss (view_of filer.old).slots (last_page address (length into.old)) last
        → Loads ss address into.new m }
    ensures width { length into.new ≡ length into.old }
    ensures same { filer.new ≡ filer.old }
{
    let from = (address % PAGE_BYTES as u32) as usize;
    let room = PAGE_BYTES - from;
    if into.len() <= room {
        return copy_out(filer, first, from, into);
    }
    let (low, high) = into.split_at_mut(room);
    copy_out(filer, first, from, low);
    copy_out(filer, last, 0, high);
}

/// Writes over the bytes of a page in a frame. The frame is dirty then.
pub(crate) fn change_in<D: Disk, A: Allocator>(
    filer: &mut Filer<D, A>,
    slot: u32,
    from: u32,
    bytes: &[u8],
)
    requires slot { HasClient (view_of filer.old).slots slot }
    requires inside { from + length bytes.now ≤ 512 }
    ensures stored { (m : List Sector) (named : Triples) (b : List ℕ) (id page : ℕ)
        → Known (view_of filer.old) m named b → HasPage (view_of filer.old).slots slot id page → is_file_id id ≡ true
        → Leaves (StoresAt id page from bytes.now) m named b (view_of filer.new) }
    ensures dirty { (id page : ℕ) → HasPage (view_of filer.old).slots slot id page
        → IsDirty (view_of filer.new).slots id page }
    ensures touches { (id page : ℕ) → HasPage (view_of filer.old).slots slot id page → 16 ≤ id
        → Touches (this_page id page) (view_of filer.old) (view_of filer.new) }
    ensures came { BringsOwn (view_of filer.old).slots (view_of filer.new).slots }
    ensures slots { KeepsSlots (view_of filer.old).slots (view_of filer.new).slots }
    ensures disk { (disk_of filer.new) ≡ (disk_of filer.old) }
{
    filer.swapper_over().change(slot, from, bytes);
}

/// Writes the bytes of a reference over those in the slots of its first and of its last page.
pub(crate) fn change_pages<D: Disk, A: Allocator>(
    filer: &mut Filer<D, A>,
    first: u32,
    last: u32,
    address: u32,
    bytes: &[u8],
)
    requires some { 1 ≤ length bytes.now }
    requires few { length bytes.now ≤ 512 }
    requires first { HasClient (view_of filer.old).slots first }
    requires last { HasClient (view_of filer.old).slots last }
    ensures stored { (m : List Sector) (named : Triples) (b : List ℕ) (ss : List Space)
        → Known (view_of filer.old) m named b → AreStored named m ss
        → IsSlotOf ss (view_of filer.old).slots (address / 512) first
        → IsSlotOf ss (view_of filer.old).slots (last_page address (length bytes.now)) last
        → Leaves (Stores ss address bytes.now) m named b (view_of filer.new) }
    ensures dirty { (ss : List Space) → IsSlotOf ss (view_of filer.old).slots (address / 512) first
        → IsSlotOf ss (view_of filer.old).slots (last_page address (length bytes.now)) last
        → IsShownDirty ss (view_of filer.new).slots (last_page address (length bytes.now)) }
    ensures touches { (i p j q : ℕ) → HasPage (view_of filer.old).slots first i p
        → HasPage (view_of filer.old).slots last j q → 16 ≤ i → 16 ≤ j
        → Touches (either i p j q) (view_of filer.old) (view_of filer.new) }
    ensures came { BringsOwn (view_of filer.old).slots (view_of filer.new).slots }
    ensures slots { KeepsSlots (view_of filer.old).slots (view_of filer.new).slots }
    ensures disk { (disk_of filer.new) ≡ (disk_of filer.old) }
{
    let from = address % PAGE_BYTES as u32;
    let room = (PAGE_BYTES as u32 - from) as usize;
    if bytes.len() <= room {
        return change_in(filer, first, from, bytes);
    }
    let (low, high) = bytes.split_at(room);
    change_in(filer, first, from, low);
    change_in(filer, last, 0, high);
}
