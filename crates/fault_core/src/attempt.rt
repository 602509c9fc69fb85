//! A reference that brings in no page of a client: its pages are described, and then looked for in the frames.
ghost use Rattle.std.specs.Prelude.{◌≡◌, ◌≤◌, ◌<◌, ◌+◌, ◌/◌, None, IfSome, IsOk};
ghost use Rattle.frame_pool.specs.Frames.{HasPage};
ghost use Rattle.fault_core.specs.Access.{Shows, last_page};
ghost use Rattle.fault_core.specs.Attempt.{IfAbsent, IfAccess, IfReady, IfSettled, IsUnfound, moved};
ghost use Rattle.fault_core.specs.Kept.{AreApart};
ghost use Rattle.fault_core.specs.Kill.{is_absent};
ghost use Rattle.fault_core.specs.Unit.{IsReady, file_page};
ghost use Rattle.filer_kernel.specs.View.{FitsLayout, view_of};
ghost use Rattle.fault_core.specs.Comes.{Foresees};
ghost use Rattle.fault_core.specs.Outcomes.{FailsAtReference, FindsAlone, StaysKnown};

use crate::Core;
use crate::reference::{Access, Reference, last_page};
use filer_kernel::Filer;
use labelled_disk::{Disk, Halt, PAGE_BYTES};
use std::alloc::Allocator;
use swap_units::Interval;

/// What comes of a load or a store that brings in no page of a client.
#[derive(Clone, Copy, Debug, PartialEq, Eq)]
pub enum Attempt {
    Access(Access),
    /// No page is refused, and this is the first of the reference that is not resident. No byte was moved.
    Absent(u32),
}

// A reference whose pages were described: the slots of its first and of its last page, or what the attempt comes to.
#[derive(Clone, Copy)]
pub(crate) enum Prospect {
    Ready { first: u32, last: u32 },
    Settled(Attempt),
}

/// The slot of a page that an interval shows, or None where the page is not resident.
pub(crate) fn slot_at<D: Disk, A: Allocator>(
    filer: &mut Filer<D, A>,
    x: &Interval,
    page: u32,
) -> Option<u32>
    requires shows { Shows x.now page }
    ensures slot { IfSome result (λ i. HasPage (view_of filer.old).slots i x.now.id (file_page x.now page)) }
    ensures absent { result ≡ None → is_absent (view_of filer.old).slots x.now.id (file_page x.now page) }
    ensures same { filer.new ≡ filer.old }
{
    filer
        .swapper_over()
        .frames()
        .find(x.id, x.page + (page - x.first))
}

// The slots of the first and of the last page of a reference, by the intervals that show them, or the first of its pages
// that is not resident.
fn look_for<D: Disk, A: Allocator>(
    filer: &mut Filer<D, A>,
    first: &Interval,
    last: &Interval,
    address: u32,
    count: u32,
) -> Prospect
    requires some { 1 ≤ count }
    requires few { count ≤ 512 }
    requires first { Shows first.now (address / 512) }
    requires last { Shows last.now (last_page address count) }
    ensures first { IfReady
        (λ i j. HasPage (view_of filer.old).slots i first.now.id (file_page first.now (address / 512))) result }
    ensures last { IfReady
        (λ i j. HasPage (view_of filer.old).slots j last.now.id (file_page last.now (last_page address count))) result }
    ensures absent { IfSettled (IfAbsent (IsUnfound (view_of filer.old).slots first.now last.now address count))
        result }
    ensures no_access { IfSettled (IfAccess (λ a. ⊥)) result }
    ensures same { filer.new ≡ filer.old }
{
    let low = address / PAGE_BYTES as u32;
    let high = last_page(address, count);
    let i = match slot_at(filer, first, low) {
        Some(slot) => slot,
        None => return Prospect::Settled(Attempt::Absent(low)),
    };
    let j = match slot_at(filer, last, high) {
        Some(slot) => slot,
        None => return Prospect::Settled(Attempt::Absent(high)),
    };
    Prospect::Ready { first: i, last: j }
}

impl<D: Disk, A: Allocator> Core<D, A> {
    ghost use Rattle.fault_core.specs.Core.{core_view, kept, state};

    // What comes of a reference, before a byte of it is moved. All its pages are described here, then looked for in the
    // frames, and none of them is brought in.
    pub(crate) fn look_ahead(
        &mut self,
        address: u32,
        count: u32,
        writes: bool,
    ) -> Result<Prospect, Halt>
        requires size { FitsLayout (state self.old) }
        requires some { 1 ≤ count }
        requires few { count ≤ 512 }
        ensures comes { Foresees writes address count (core_view self.old) (core_view self.new) result }
        ensures fails { FailsAtReference address count (core_view self.old) (core_view self.new) result }
        ensures stays { StaysKnown (core_view self.old) (core_view self.new) }
        ensures brings { FindsAlone (state self.old) (state self.new) }
        ensures idle { IsReady (kept self.old) (state self.old).slots (address / 512)
            → IsReady (kept self.old) (state self.old).slots (last_page address count) → AreApart (kept self.old)
            → IsOk result × (self.new.filer ≡ self.old.filer) × (kept self.new ≡ kept self.old) }
        ensures cost { (state self.new).disk.transfers ≤ (state self.old).disk.transfers + 392 }
    {
        let (first, last) = match self.refer(address, count, writes) {
            Ok(Reference::Shown { first, last }) => (first, last),
            Ok(Reference::NoMap(page)) => {
                return Ok(Prospect::Settled(Attempt::Access(Access::NoMap(page))));
            }
            Ok(Reference::ReadOnly(page)) => {
                return Ok(Prospect::Settled(Attempt::Access(Access::ReadOnly(page))));
            }
            Err(halt) => return Err(halt),
        };
        Ok(look_for(&mut self.filer, &first, &last, address, count))
    }
}
