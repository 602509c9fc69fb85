//! The swap units of a range are brought in before they are asked for.
ghost use Rattle.std.specs.Prelude.{◌≡◌, ◌≤◌, ◌<◌, ◌+◌, ◌*◌, ◌/◌, List, length, None, IfOk, OnOk};
ghost use Rattle.labelled_disk.specs.Sectors.{Sector};
ghost use Rattle.file_map.specs.FileMap.{Triples};
ghost use Rattle.flat_machine.specs.declared.space.Space.{Space};
ghost use Rattle.flat_machine.specs.Space.{root_pages};
ghost use Rattle.fault_core.specs.Activate.{AreBrought, IsActive};
ghost use Rattle.filer_kernel.specs.View.{FitsLayout, view_of};
ghost use Rattle.fault_core.specs.Comes.{BringsUnits, GivesUnit, TakesTurn};
ghost use Rattle.fault_core.specs.Outcomes.{FailsAtPage, FailsToBringPage, FailsToBringRange, FetchesInRoom, FetchesKnown, FindsAlone, StaysKnown};

use crate::Core;
use crate::walk::end_of;
use filer_kernel::Filer;
use labelled_disk::{Disk, Halt};
use std::alloc::Allocator;
use swap_units::unit_of;

// How far a range was brought in: its first page that is left, the last page that was brought in with its swap unit, how many
// units were, and how many pages may still be.
#[derive(Clone, Copy)]
pub(crate) struct Progress {
    page: u32,
    last: u32,
    units: u32,
    left: u32,
}

// Half of the frames: more pages are not brought in, but for the first swap unit.
fn half_of<D: Disk, A: Allocator>(filer: &mut Filer<D, A>) -> u32
    ensures half { result ≡ length (view_of filer.old).slots / 2 }
    ensures some { 1 ≤ result }
    ensures few { result ≤ 2048 }
    ensures same { filer.new ≡ filer.old }
{
    filer.swapper_over().frames().frames() / 2
}

impl<D: Disk, A: Allocator> Core<D, A> {
    ghost use Rattle.fault_core.specs.Core.{Knows, core_view, kept, state};

    // The page after the swap unit that a page is in, and how many pages the unit has; or where no window shows the page, that
    // after its interval, or the end of the range, and 0.
    fn unit_at(&mut self, page: u32, end: u32) -> Result<(u32, u32), Halt>
        requires size { FitsLayout (state self.old) }
        requires before { page < end }
        requires in_root { end ≤ root_pages }
        ensures comes { GivesUnit page end (core_view self.old) result }
        ensures fails { FailsAtPage page (core_view self.old) (core_view self.new) result }
        ensures stays { StaysKnown (core_view self.old) (core_view self.new) }
        ensures brings { FindsAlone (state self.old) (state self.new) }
        ensures cost { (state self.new).disk.transfers ≤ (state self.old).disk.transfers + 196 }
    {
        let (x, next) = match self.part_at(page, end) {
            Ok(part) => part,
            Err(halt) => return Err(halt),
        };
        if !x.mode.is_mapped() {
            return Ok((next, 0));
        }
        let (first, pages) = unit_of(&x, page);
        Ok((first + pages, pages))
    }

    // The page that is next is brought in with its swap unit, or its interval is passed where no window shows it. None where
    // the unit has more pages than may still be brought in, and is not the first one.
    fn bring_next(&mut self, so_far: Progress, end: u32) -> Result<Option<Progress>, Halt>
        requires size { FitsLayout (state self.old) }
        requires before { so_far.page < end }
        requires in_root { end ≤ root_pages }
        requires some { 1 ≤ so_far.units + so_far.left }
        requires few { so_far.units + so_far.left ≤ 2048 }
        ensures comes { TakesTurn so_far end (core_view self.old) (core_view self.new) result }
        ensures fails { FailsToBringPage so_far.page (core_view self.old) (core_view self.new) result }
        ensures stays { StaysKnown (core_view self.old) (core_view self.new) }
        ensures brings { FetchesInRoom (core_view self.old) (core_view self.new) }
        ensures cost { (state self.new).disk.transfers ≤ (state self.old).disk.transfers + 840 }
    {
        let (next, pages) = match self.unit_at(so_far.page, end) {
            Ok(unit) => unit,
            Err(halt) => return Err(halt),
        };
        if pages == 0 {
            return Ok(Some(Progress {
                page: next,
                ..so_far
            }));
        }
        if so_far.units != 0 && pages > so_far.left {
            return Ok(None);
        }
        match self.fetch_page(so_far.page) {
            Ok(_slot) => Ok(Some(Progress {
                page: next,
                last: so_far.page,
                units: so_far.units + 1,
                left: so_far.left.saturating_sub(pages),
            })),
            Err(halt) => Err(halt),
        }
    }

    // Brings in the swap units of the pages that windows show in a range. Gives how many there were, and the page that was
    // brought in last.
    fn bring_units(&mut self, first: u32, pages: u32) -> Result<(u32, u32), Halt>
        requires size { FitsLayout (state self.old) }
        ensures comes { BringsUnits first pages (core_view self.old) (core_view self.new) result }
        ensures fails { FailsToBringRange first (first + pages) (core_view self.old) (core_view self.new) result }
        ensures stays { StaysKnown (core_view self.old) (core_view self.new) }
        ensures brings { FetchesKnown (core_view self.old) (core_view self.new) }
        ensures cost { (state self.new).disk.transfers ≤ (state self.old).disk.transfers
            + (self.old.intervals + length (state self.old).slots / 2 + 1) * 840 }
        ensures at_most { (state self.new).disk.transfers ≤ (state self.old).disk.transfers + 2580480 }
    {
        let end = end_of(first, pages);
        let half = half_of(&mut self.filer);
        let mut so_far = Progress {
            page: first,
            last: first,
            units: 0,
            left: half,
        };
        for _turn in 0..self.intervals + half + 1 {
            if so_far.page >= end {
                return Ok((so_far.units, so_far.last));
            }
            match self.bring_next(so_far, end) {
                Ok(Some(further)) => so_far = further,
                Ok(None) => return Ok((so_far.units, so_far.last)),
                Err(halt) => return Err(halt),
            }
        }
        Ok((so_far.units, so_far.last))
    }

    /// Brings in the swap units of the pages that windows show in a range of pages of the root, in ascending order: the first one
    /// in any case, and each next one while their pages are at most half of the frames. Gives how many units there were. The one
    /// that was brought in last is resident, all of it: it is touched once more, after the tables were asked for what is next.
    /// While a slot of the frames is empty, so is each of them.
    pub fn activate(&mut self, first: u32, pages: u32) -> Result<u32, Halt>
        requires size { FitsLayout (state self.old) }
        ensures whole { (m : List Sector) (named : Triples) (ss : List Space) → Knows self.old m named ss
            → OnOk result (IsActive ss (kept self.new) (state self.new).slots first (first + pages)) }
        ensures units { (m : List Sector) (named : Triples) (ss : List Space) → Knows self.old m named ss
            → IfOk result
            (AreBrought ss (kept self.new) (state self.new).slots first (first + pages)
            (length (state self.old).slots / 2)) }
        ensures fails { FailsToBringRange first (first + pages) (core_view self.old) (core_view self.new) result }
        ensures stays { StaysKnown (core_view self.old) (core_view self.new) }
        ensures brings { FetchesKnown (core_view self.old) (core_view self.new) }
        ensures cost { (state self.new).disk.transfers ≤ (state self.old).disk.transfers
            + (self.old.intervals + length (state self.old).slots / 2 + 2) * 840 }
        ensures at_most { (state self.new).disk.transfers ≤ (state self.old).disk.transfers + 2581320 }
    {
        let (units, last) = match self.bring_units(first, pages) {
            Ok(brought) => brought,
            Err(halt) => return Err(halt),
        };
        if units == 0 {
            return Ok(0);
        }
        match self.fetch_page(last) {
            Ok(_slot) => Ok(units),
            Err(halt) => Err(halt),
        }
    }
}
