//! A reference on pages that are ready: a kept interval shows them, and their whole swap unit is resident. No table is asked.
ghost use Rattle.std.specs.Prelude.{◌≡◌, ◌≢◌, ◌≤◌, ◌<◌, ◌+◌, ◌-◌, ◌*◌, ◌/◌, ◌%◌, ◌^◌, ℕ, true, false, List, length, slice_get, None, IfSome};
ghost use Rattle.labelled_disk.specs.Sectors.{Sector};
ghost use Rattle.descriptor_cache.specs.Cache.{kept_in};
ghost use Rattle.file_map.specs.FileMap.{Triples};
ghost use Rattle.flat_machine.specs.declared.space.Space.{Space};
ghost use Rattle.frame_pool.specs.Frames.{HasPage};
ghost use Rattle.swap_units.specs.Mode.{is_mapped};
ghost use Rattle.filer_kernel.specs.View.{view_of};
ghost use Rattle.fault_core.specs.Access.{Shows, is_load_only};
ghost use Rattle.fault_core.specs.Kept.{AreApart, AreFormed, IsFormed};
ghost use Rattle.fault_core.specs.Moves.{AreSeen, Loads};
ghost use Rattle.fault_core.specs.Ready.{AreHere, AreLoaded, IsAtHand, IsChanged};
ghost use Rattle.fault_core.specs.Revealed.{Known, Revealed};
ghost use Rattle.fault_core.specs.Unit.{IsWhole, file_page};

use crate::attempt::slot_at;
use crate::frames::{change_in, copy_out};
use crate::unit::{is_there, slot_of, unit_run};
use descriptor_cache::DescriptorCache;
use filer_kernel::Filer;
use labelled_disk::{Disk, PAGE_BYTES};
use std::alloc::Allocator;
use swap_units::Interval;

// Whether the pages of an interval may be loaded, or stored to.
pub(crate) fn lets(x: &Interval, writes: bool) -> bool
    ensures mapped { result ≡ true → is_mapped x.now.mode ≡ true }
    ensures allowed { result ≡ true → writes ≡ true → is_load_only x.now ≡ false }
    ensures all { is_mapped x.now.mode ≡ true → (writes ≡ true → is_load_only x.now ≡ false) → result ≡ true }
{
    if writes {
        return x.mode.is_writable();
    }
    x.mode.is_mapped()
}

// The slot of a page that an interval shows, where its whole swap unit is resident.
fn whole_slot<D: Disk, A: Allocator>(
    filer: &mut Filer<D, A>,
    x: &Interval,
    page: u32,
) -> Option<u32>
    requires shows { Shows x.now page }
    ensures slot { IfSome result (λ i. HasPage (view_of filer.old).slots i x.now.id (file_page x.now page)) }
    ensures whole { result ≢ None → IsWhole (view_of filer.old).slots x.now page }
    ensures same { filer.new ≡ filer.old }
{
    let (first, pages) = unit_run(x, page);
    if !is_there(filer, x.id, first, pages) {
        return None;
    }
    slot_at(filer, x, page)
}

// The slot of the page of a reference, where the reference is on one page, and that is ready.
fn slot_at_hand<D: Disk, A: Allocator>(
    filer: &mut Filer<D, A>,
    kept: &DescriptorCache,
    address: u32,
    count: usize,
    writes: bool,
) -> Option<u32>
    requires formed { AreFormed (kept_in kept.now) }
    ensures ready { IfSome result (IsAtHand (kept_in kept.now) (view_of filer.old).slots writes address count) }
    ensures same { filer.new ≡ filer.old }
{
    if count > PAGE_BYTES - (address % PAGE_BYTES as u32) as usize {
        return None;
    }
    let page = address / PAGE_BYTES as u32;
    let Some(x) = kept.look(page) else {
        return None;
    };
    if !lets(&x, writes) {
        return None;
    }
    whole_slot(filer, &x, page)
}

/// Loads bytes of a page that is ready, and says whether it did.
pub(crate) fn load_at_hand<D: Disk, A: Allocator>(
    filer: &mut Filer<D, A>,
    kept: &DescriptorCache,
    address: u32,
    into: &mut [u8],
) -> bool
    requires formed { AreFormed (kept_in kept.now) }
    ensures ready { result ≡ true → (slot : ℕ)
        × IsAtHand (kept_in kept.now) (view_of filer.old).slots false address (length into.old) slot }
    ensures bytes { (n : ℕ) (m : List Sector) (named : Triples) (ss : List Space) → result ≡ true
        → Revealed (view_of filer.old) (kept_in kept.now) n m named ss → Loads ss address into.new m }
    ensures width { length into.new ≡ length into.old }
    ensures left { result ≡ false → into.new ≡ into.old }
    ensures same { filer.new ≡ filer.old }
{
    let Some(slot) = slot_at_hand(filer, kept, address, into.len(), false) else {
        return false;
    };
    copy_out(filer, slot, (address % PAGE_BYTES as u32) as usize, into);
    true
}

// Loads those of so many bytes from an address on that come after the first ones and are on one page, and says how many.
fn load_part<D: Disk, A: Allocator>(
    filer: &mut Filer<D, A>,
    x: &Interval,
    address: u32,
    into: &mut [u8],
    done: usize,
    count: usize,
) -> usize
    requires formed { IsFormed x.now }
    requires mapped { is_mapped x.now.mode ≡ true }
    requires here { AreHere (view_of filer.old).slots x.now address count }
    requires below { address + count ≤ 2 ^ 32 }
    requires within { count ≤ length into.old }
    requires more { done < count }
    ensures some { 1 ≤ result }
    ensures fits { done + result ≤ count }
    ensures bytes { (m : List Sector) (named : Triples) (b : List ℕ) (ss : List Space)
        → Known (view_of filer.old) m named b → AreSeen ss named m x.now
        → AreLoaded ss address done into.old m → AreLoaded ss address (done + result) into.new m }
    ensures rest { (k : ℕ) → done + result ≤ k → slice_get into.new k ≡ slice_get into.old k }
    ensures width { length into.new ≡ length into.old }
    ensures same { filer.new ≡ filer.old }
{
    let at = address + done as u32;
    let page = at / PAGE_BYTES as u32;
    let from = (at % PAGE_BYTES as u32) as usize;
    let part = (count - done).min(PAGE_BYTES - from);
    let slot = slot_of(filer, x.id, x.page + (page - x.first));
    copy_out(filer, slot, from, &mut into[done..done + part]);
    part
}

// Loads the first of these bytes, so many, page by page.
fn load_parts<D: Disk, A: Allocator>(
    filer: &mut Filer<D, A>,
    x: &Interval,
    address: u32,
    into: &mut [u8],
    count: usize,
)
    requires formed { IsFormed x.now }
    requires mapped { is_mapped x.now.mode ≡ true }
    requires here { AreHere (view_of filer.old).slots x.now address count }
    requires below { address + count ≤ 2 ^ 32 }
    requires within { count ≤ length into.old }
    ensures bytes { (m : List Sector) (named : Triples) (b : List ℕ) (ss : List Space)
        → Known (view_of filer.old) m named b → AreSeen ss named m x.now → AreLoaded ss address count into.new m }
    ensures rest { (k : ℕ) → count ≤ k → slice_get into.new k ≡ slice_get into.old k }
    ensures width { length into.new ≡ length into.old }
    ensures same { filer.new ≡ filer.old }
{
    let mut done = 0;
    'parts: while done < count {
        done += load_part(filer, x, address, into, done, count);
    }
}

// How many bytes there are from an address up to the end of a run of pages, of which the address is on the given one.
pub(crate) fn bytes_left(run: (u32, u32), page: u32, address: u32) -> usize
    requires among { (run.0 ≤ page) × (page < run.0 + run.1) }
    requires few { run.1 ≤ 16 }
    ensures { result + address % 512 ≡ (run.0 + run.1 - page) * 512 }
{
    let pages = run.1 - (page - run.0);
    pages as usize * PAGE_BYTES - (address % PAGE_BYTES as u32) as usize
}

/// Loads the first of these bytes, page by page, as far as they are ready and in the swap unit of the first page, and says
/// how many.
pub(crate) fn load_unit<D: Disk, A: Allocator>(
    filer: &mut Filer<D, A>,
    kept: &DescriptorCache,
    address: u32,
    into: &mut [u8],
) -> usize
    requires formed { AreFormed (kept_in kept.now) }
    ensures part { result ≤ length into.old }
    ensures ends { 1 ≤ result → result < length into.old → (address + result) % 512 ≡ 0 }
    ensures hand { (k : ℕ) → k < result → (slot : ℕ)
        × IsAtHand (kept_in kept.now) (view_of filer.old).slots false (address + k) 1 slot }
    ensures first { (slot : ℕ) → IsAtHand (kept_in kept.now) (view_of filer.old).slots false address 1 slot
        → AreApart (kept_in kept.now) → 1 ≤ length into.old → 1 ≤ result }
    ensures bytes { (n : ℕ) (m : List Sector) (named : Triples) (ss : List Space)
        → Revealed (view_of filer.old) (kept_in kept.now) n m named ss → AreLoaded ss address result into.new m }
    ensures rest { (k : ℕ) → result ≤ k → slice_get into.new k ≡ slice_get into.old k }
    ensures width { length into.new ≡ length into.old }
    ensures same { filer.new ≡ filer.old }
{
    let page = address / PAGE_BYTES as u32;
    let Some(x) = kept.look(page) else {
        return 0;
    };
    if !lets(&x, false) {
        return 0;
    }
    let run = unit_run(&x, page);
    if !is_there(filer, x.id, run.0, run.1) {
        return 0;
    }
    let count = into
        .len()
        .min(bytes_left(run, x.page + (page - x.first), address));
    load_parts(filer, &x, address, into, count);
    count
}

/// Stores bytes to a page that is ready, and says whether it did. The frame is dirty then.
pub(crate) fn store_at_hand<D: Disk, A: Allocator>(
    filer: &mut Filer<D, A>,
    kept: &DescriptorCache,
    address: u32,
    bytes: &[u8],
) -> bool
    requires formed { AreFormed (kept_in kept.now) }
    ensures stored { result ≡ true
        → IsChanged (kept_in kept.now) address bytes.now (view_of filer.old) (view_of filer.new) }
    ensures left { result ≡ false → filer.new ≡ filer.old }
{
    let Some(slot) = slot_at_hand(filer, kept, address, bytes.len(), true) else {
        return false;
    };
    change_in(filer, slot, address % PAGE_BYTES as u32, bytes);
    true
}
