//! Bytes are stored to pages in a row that are ready: their interval and their swap unit are looked up once.
ghost use Rattle.std.specs.Prelude.{◌≡◌, ◌≤◌, ◌<◌, ◌+◌, ◌%◌, ◌^◌, ℕ, true, false, List, length, slice_range};
ghost use Rattle.descriptor_cache.specs.Cache.{kept_in};
ghost use Rattle.swap_units.specs.declared.interval.Interval.{Interval as IntervalIs};
ghost use Rattle.swap_units.specs.Mode.{is_mapped};
ghost use Rattle.filer_kernel.specs.View.{view_of};
ghost use Rattle.fault_core.specs.Access.{is_load_only};
ghost use Rattle.fault_core.specs.Kept.{AreApart, AreFormed, IsFormed, IsKept};
ghost use Rattle.fault_core.specs.Ready.{AreHere, IsAtHand, IsChanged};
ghost use Rattle.fault_core.specs.Room.{KeepsSlots};
ghost use Rattle.fault_core.specs.StoreReady.{AreStoredAtHand};

use crate::Core;
use crate::frames::change_in;
use crate::ready::{bytes_left, lets};
use crate::unit::{is_there, slot_of, unit_run};
use descriptor_cache::DescriptorCache;
use filer_kernel::Filer;
use labelled_disk::{Disk, PAGE_BYTES};
use std::alloc::Allocator;
use swap_units::Interval;

// Stores those of so many bytes from an address on that come after the first ones and are on one page, and says how many.
fn store_part<D: Disk, A: Allocator>(
    filer: &mut Filer<D, A>,
    x: &Interval,
    address: u32,
    bytes: &[u8],
    done: usize,
    count: usize,
) -> usize
    requires formed { IsFormed x.now }
    requires mapped { is_mapped x.now.mode ≡ true }
    requires allowed { is_load_only x.now ≡ false }
    requires here { AreHere (view_of filer.old).slots x.now address count }
    requires below { address + count ≤ 2 ^ 32 }
    requires within { count ≤ length bytes.now }
    requires more { done < count }
    ensures some { 1 ≤ result }
    ensures fits { done + result ≤ count }
    ensures changed { (kept : List IntervalIs) → IsKept kept x.now
        → IsChanged kept (address + done) (slice_range bytes.now done (done + result)) (view_of filer.old)
        (view_of filer.new) }
    ensures here { AreHere (view_of filer.new).slots x.now address count }
{
    let at = address + done as u32;
    let page = at / PAGE_BYTES as u32;
    let from = at % PAGE_BYTES as u32;
    let part = (count - done).min(PAGE_BYTES - from as usize);
    let slot = slot_of(filer, x.id, x.page + (page - x.first));
    change_in(filer, slot, from, &bytes[done..done + part]);
    part
}

// Stores the first of these bytes, so many, page by page.
fn store_parts<D: Disk, A: Allocator>(
    filer: &mut Filer<D, A>,
    x: &Interval,
    address: u32,
    bytes: &[u8],
    count: usize,
)
    requires formed { IsFormed x.now }
    requires mapped { is_mapped x.now.mode ≡ true }
    requires allowed { is_load_only x.now ≡ false }
    requires here { AreHere (view_of filer.old).slots x.now address count }
    requires below { address + count ≤ 2 ^ 32 }
    requires within { count ≤ length bytes.now }
    ensures stored { (kept : List IntervalIs) → IsKept kept x.now
        → AreStoredAtHand kept address count bytes.now (view_of filer.old) (view_of filer.new) }
{
    let mut done = 0;
    'parts: while done < count {
        done += store_part(filer, x, address, bytes, done, count);
    }
}

// Stores the first of these bytes, page by page, as far as their pages are ready and in the swap unit of the first one, and
// says how many.
fn store_unit<D: Disk, A: Allocator>(
    filer: &mut Filer<D, A>,
    kept: &DescriptorCache,
    address: u32,
    bytes: &[u8],
) -> usize
    requires formed { AreFormed (kept_in kept.now) }
    requires some { 1 ≤ length bytes.now }
    ensures part { result ≤ length bytes.now }
    ensures ends { 1 ≤ result → result < length bytes.now → (address + result) % 512 ≡ 0 }
    ensures stored { AreStoredAtHand (kept_in kept.now) address result bytes.now (view_of filer.old)
        (view_of filer.new) }
    ensures left { result ≡ 0 → filer.new ≡ filer.old }
    ensures first { (slot : ℕ) → IsAtHand (kept_in kept.now) (view_of filer.old).slots true address 1 slot
        → AreApart (kept_in kept.now) → 1 ≤ result }
{
    let page = address / PAGE_BYTES as u32;
    let Some(x) = kept.look(page) else {
        return 0;
    };
    if !lets(&x, true) {
        return 0;
    }
    let run = unit_run(&x, page);
    if !is_there(filer, x.id, run.0, run.1) {
        return 0;
    }
    let count = bytes
        .len()
        .min(bytes_left(run, x.page + (page - x.first), address));
    store_parts(filer, &x, address, bytes, count);
    count
}

impl<D: Disk, A: Allocator> Core<D, A> {
    ghost use Rattle.fault_core.specs.Core.{kept, state};

    /// Stores the first of these bytes, page by page, as far as their pages are ready, may be stored to and are in the swap
    /// unit of the first one, and says how many: at least one, where the first is. No table is asked and no page comes in: each
    /// stays in its slot.
    pub fn store_ready(&mut self, address: u32, bytes: &[u8]) -> usize
        requires some { 1 ≤ length bytes.now }
        ensures part { result ≤ length bytes.now }
        ensures ends { 1 ≤ result → result < length bytes.now → (address + result) % 512 ≡ 0 }
        ensures stored { AreStoredAtHand (kept self.old) address result bytes.now (state self.old) (state self.new) }
        ensures left { result ≡ 0 → self.new ≡ self.old }
        ensures first { (slot : ℕ) → IsAtHand (kept self.old) (state self.old).slots true address 1 slot
            → AreApart (kept self.old) → 1 ≤ result }
        ensures slots { KeepsSlots (state self.old).slots (state self.new).slots }
        ensures disk { (state self.new).disk ≡ (state self.old).disk }
        ensures kept { kept self.new ≡ kept self.old }
        ensures intervals { self.new.intervals ≡ self.old.intervals }
    {
        store_unit(&mut self.filer, &self.descriptors, address, bytes)
    }
}
