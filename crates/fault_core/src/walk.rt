//! A range of pages of the root, interval by interval.
ghost use Rattle.std.specs.Prelude.{◌≡◌, ◌≤◌, ◌<◌, ◌+◌, ℕ, Some, IsOk, find};
ghost use Rattle.flat_machine.specs.Space.{root_pages};
ghost use Rattle.swap_units.specs.Unit.{has_page};
ghost use Rattle.filer_kernel.specs.View.{FitsLayout};
ghost use Rattle.fault_core.specs.Comes.{GivesPart};
ghost use Rattle.swap_units.specs.declared.interval.Interval.{Interval as IntervalIs};
ghost use Rattle.fault_core.specs.Outcomes.{FailsAtPage, FindsAlone, StaysKnown};

use crate::Core;
use labelled_disk::{Disk, Halt};
use std::alloc::Allocator;
use swap_units::{Interval, ROOT_PAGES};

/// Where so many pages from one on end, or the root does.
pub(crate) fn end_of(first: u32, pages: u32) -> u32
    ensures in_root { result ≤ root_pages }
    ensures within { result ≤ first + pages }
    ensures all { (p : ℕ) → p < first + pages → p < root_pages → p < result }
{
    (u64::from(first) + u64::from(pages)).min(u64::from(ROOT_PAGES)) as u32
}

impl<D: Disk, A: Allocator> Core<D, A> {
    ghost use Rattle.fault_core.specs.Core.{core_view, kept, state};

    /// The interval that holds a page, and where it ends, or the range does.
    pub(crate) fn part_at(&mut self, page: u32, end: u32) -> Result<(Interval, u32), Halt>
        requires size { FitsLayout (state self.old) }
        requires before { page < end }
        requires in_root { end ≤ root_pages }
        ensures comes { GivesPart page end (core_view self.old) result }
        ensures fails { FailsAtPage page (core_view self.old) (core_view self.new) result }
        ensures stays { StaysKnown (core_view self.old) (core_view self.new) }
        ensures brings { FindsAlone (state self.old) (state self.new) }
        ensures idle { (x : IntervalIs) → find (has_page page) (kept self.old) ≡ Some x
            → IsOk result × (self.new.filer ≡ self.old.filer) × (kept self.new ≡ kept self.old) }
        ensures cost { (state self.new).disk.transfers ≤ (state self.old).disk.transfers + 196 }
    {
        match self.describe(page) {
            Ok(Some(x)) => Ok((x, end.min(x.first + x.pages))),
            Ok(None) => unreachable!(),
            Err(halt) => Err(halt),
        }
    }
}
