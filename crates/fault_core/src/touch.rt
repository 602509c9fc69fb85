//! A page that a window shows is made resident, and its whole swap unit with it.
ghost use Rattle.std.specs.Prelude.{◌≡◌, ◌≤◌, ◌<◌, ◌+◌, None, IfErr, IsOk, OnOk};
ghost use Rattle.fault_core.specs.Access.{Shows};
ghost use Rattle.fault_core.specs.Early.{IfUnfound, KeepsClients};
ghost use Rattle.fault_core.specs.Kept.{AreApart};
ghost use Rattle.filer_kernel.specs.View.{FitsLayout, view_of};
ghost use Rattle.fault_core.specs.Unit.{AreShownStored, BringsShown, IsReady, IsWhole};
ghost use Rattle.fault_core.specs.Lack.{MissesPage, kept_unit, unit_pages};
ghost use Rattle.fault_core.specs.Comes.{Fetches};
ghost use Rattle.fault_core.specs.Finding.{TouchesPage};
ghost use Rattle.fault_core.specs.Outcomes.{FailsEarly, FailsToBringPage, FetchesBy, FetchesInRoom, StaysKnown};

use crate::Core;
use crate::unit::{bring_run, is_there, slot_of, unit_run};
use filer_kernel::Filer;
use labelled_disk::{Disk, Halt};
use std::alloc::Allocator;
use swap_units::Interval;

// Brings in the swap unit of a page, all of it, where not all of it is resident.
fn bring_unit<D: Disk, A: Allocator>(
    filer: &mut Filer<D, A>,
    x: &Interval,
    page: u32,
) -> Result<(), Halt>
    requires size { FitsLayout (view_of filer.old) }
    requires shows { Shows x.now page }
    ensures whole { OnOk result (IsWhole (view_of filer.new).slots x.now page) }
    ensures fails { FailsEarly (unit_pages x.now page) (λ named m. AreShownStored named m x.now) (view_of filer.old)
        (view_of filer.new) result }
    ensures brings { FetchesBy (BringsShown x.now) (view_of filer.old) (view_of filer.new) }
    ensures idle { IsWhole (view_of filer.old).slots x.now page → IsOk result × (filer.new ≡ filer.old) }
    ensures cost { (view_of filer.new).disk.transfers ≤ (view_of filer.old).disk.transfers + 256 }
{
    let (first, pages) = unit_run(x, page);
    if is_there(filer, x.id, first, pages) {
        return Ok(());
    }
    bring_run(filer, x.id, first, pages)
}

/// Makes the whole swap unit of a page resident, and gives the slot of the page.
pub(crate) fn touch<D: Disk, A: Allocator>(
    filer: &mut Filer<D, A>,
    x: &Interval,
    page: u32,
) -> Result<u32, Halt>
    requires size { FitsLayout (view_of filer.old) }
    requires shows { Shows x.now page }
    ensures comes { TouchesPage x.now page (view_of filer.new) result }
    ensures fails { FailsEarly (unit_pages x.now page) (λ named m. AreShownStored named m x.now) (view_of filer.old)
        (view_of filer.new) result }
    ensures brings { FetchesBy (BringsShown x.now) (view_of filer.old) (view_of filer.new) }
    ensures idle { IsWhole (view_of filer.old).slots x.now page → IsOk result × (filer.new ≡ filer.old) }
    ensures cost { (view_of filer.new).disk.transfers ≤ (view_of filer.old).disk.transfers + 256 }
{
    match bring_unit(filer, x, page) {
        Ok(()) => (),
        Err(halt) => return Err(halt),
    }
    Ok(slot_of(filer, x.id, x.page + (page - x.first)))
}

impl<D: Disk, A: Allocator> Core<D, A> {
    ghost use Rattle.fault_core.specs.Core.{core_view, kept, state};

    /// Makes the whole swap unit of a page resident, and gives the slot of the page, or None where no window shows it.
    pub fn fetch_page(&mut self, page: u32) -> Result<Option<u32>, Halt>
        requires size { FitsLayout (state self.old) }
        ensures comes { Fetches page (core_view self.old) (core_view self.new) result }
        ensures fails { FailsToBringPage page (core_view self.old) (core_view self.new) result }
        ensures misses { IfErr result (MissesPage (kept_unit (kept self.new) page)) }
        ensures stays { StaysKnown (core_view self.old) (core_view self.new) }
        ensures brings { FetchesInRoom (core_view self.old) (core_view self.new) }
        ensures early { IfErr result (IfUnfound (KeepsClients (state self.old).slots (state self.new).slots)) }
        ensures idle { IsReady (kept self.old) (state self.old).slots page → AreApart (kept self.old)
            → IsOk result × (self.new.filer ≡ self.old.filer) × (kept self.new ≡ kept self.old) }
        ensures cost { (state self.new).disk.transfers ≤ (state self.old).disk.transfers + 644 }
    {
        let x = match self.shown(page) {
            Ok(Some(x)) => x,
            Ok(None) => return Ok(None),
            Err(halt) => return Err(halt),
        };
        match touch(&mut self.filer, &x, page) {
            Ok(slot) => Ok(Some(slot)),
            Err(halt) => Err(halt),
        }
    }
}
