//! Pages of a range that may be stored to are given up without a write: their bytes are those of the disk again.
ghost use Rattle.std.specs.Prelude.{◌≡◌, ◌≤◌, ◌<◌, ◌+◌, ◌*◌, ℕ, List, [], Some, IsOk, OnOk, find};
ghost use Rattle.labelled_disk.specs.Sectors.{Sector};
ghost use Rattle.file_map.specs.FileMap.{Triples};
ghost use Rattle.flat_machine.specs.declared.space.Space.{Space};
ghost use Rattle.flat_machine.specs.Space.{root_pages};
ghost use Rattle.swapper_kernel.specs.Differs.{Differs};
ghost use Rattle.swapper_kernel.specs.Goes.{no_page};
ghost use Rattle.session_words.specs.CellLaws.{Kills, is_killed};
ghost use Rattle.session_words.specs.Volume.{volume_page};
ghost use Rattle.swap_units.specs.Unit.{has_page};
ghost use Rattle.fault_core.specs.Kept.{AreFound};
ghost use Rattle.fault_core.specs.Kill.{AreWritableSo, LeavesCore, ShowsPart, is_absent, may_store, of_part};
ghost use Rattle.fault_core.specs.Moves.{Leaves};
ghost use Rattle.fault_core.specs.Reach.{BringsOwn};
ghost use Rattle.fault_core.specs.Revealed.{Known};
ghost use Rattle.fault_core.specs.Touch.{Touches};
ghost use Rattle.fault_core.specs.Unit.{file_page};
ghost use Rattle.filer_kernel.specs.View.{disk_of, FitsLayout, GoesTo, view_of};
ghost use Rattle.fault_core.specs.Comes.{KillsPart};
ghost use Rattle.swap_units.specs.declared.interval.Interval.{Interval as IntervalIs};
ghost use Rattle.fault_core.specs.Outcomes.{ChangesBy, FailsAtPage, FailsInRange, StaysSeen, StaysRevealed};

use crate::Core;
use crate::walk::end_of;
use filer_kernel::Filer;
use labelled_disk::{Disk, Halt};
use std::alloc::Allocator;
use swap_units::Interval;

// Whether the pages of an interval may be stored to.
fn may_store(x: &Interval) -> bool
    ensures { result ≡ may_store x.now }
{
    x.mode.is_writable()
}

// Gives up the pages from one on up to another, by the interval that shows them.
fn discard_shown<D: Disk, A: Allocator>(filer: &mut Filer<D, A>, x: &Interval, page: u32, next: u32)
    requires shows { ShowsPart x.now page next }
    ensures gone { (p : ℕ) → page ≤ p → p < next → is_absent (view_of filer.new).slots x.now.id (file_page x.now p) }
    ensures left { (m : List Sector) (named : Triples) (b : List ℕ) → Known (view_of filer.old) m named b
        → Leaves (Differs (of_part (view_of filer.old).layout.first x.now page next)) m named b (view_of filer.new) }
    ensures touches { Touches no_page (view_of filer.old) (view_of filer.new) }
    ensures came { BringsOwn (view_of filer.old).slots (view_of filer.new).slots }
    ensures disk { (disk_of filer.new) ≡ (disk_of filer.old) }
{
    force_calls::discard(
        filer.swapper_over(),
        x.id,
        x.page + (page - x.first),
        next - page,
    );
}

impl<D: Disk, A: Allocator> Core<D, A> {
    ghost use Rattle.fault_core.specs.Core.{Knows, core_view, kept, state};

    // The same of the interval that holds a page, from that page on, where it may be stored to. Gives the page where it ends,
    // or the range does.
    fn kill_part(&mut self, page: u32, end: u32) -> Result<u32, Halt>
        requires size { FitsLayout (state self.old) }
        requires before { page < end }
        requires in_root { end ≤ root_pages }
        ensures comes { KillsPart page end (core_view self.old) (core_view self.new) result }
        ensures fails { FailsAtPage page (core_view self.old) (core_view self.new) result }
        ensures stays { StaysSeen (core_view self.old) (core_view self.new) }
        ensures left { (m : List Sector) (named : Triples) (ss : List Space) (range : Space) → Knows self.old m named ss
            → range.first ≤ page → end ≤ range.first + range.pages
            → LeavesCore (Differs (is_killed (state self.old).layout.sectors ss range)) m named ss (state self.new)
            (kept self.new) self.new.intervals }
        ensures brings { ChangesBy no_page BringsOwn (state self.old) (state self.new) }
        ensures idle { (x : IntervalIs) → find (has_page page) (kept self.old) ≡ Some x
            → IsOk result × ((state self.new).disk ≡ (state self.old).disk) × (kept self.new ≡ kept self.old) }
        ensures cost { (state self.new).disk.transfers ≤ (state self.old).disk.transfers + 196 }
    {
        let (x, next) = match self.part_at(page, end) {
            Ok(part) => part,
            Err(halt) => return Err(halt),
        };
        if !may_store(&x) {
            return Ok(next);
        }
        discard_shown(&mut self.filer, &x, page, next);
        Ok(next)
    }

    /// Gives up the frames of the pages that windows show in a range of pages of the root and let stores through. What is
    /// dirty is lost: the bytes of these pages are those of the disk. Where intervals that are kept have the range, no sector is
    /// read or written.
    pub fn kill(&mut self, first: u32, pages: u32) -> Result<(), Halt>
        requires size { FitsLayout (state self.old) }
        ensures gone { (m : List Sector) (named : Triples) (ss : List Space) → Knows self.old m named ss
            → OnOk result (AreWritableSo (is_absent (state self.new).slots) ss first (first + pages)) }
        ensures fails { FailsInRange first (first + pages) (core_view self.old) (core_view self.new) result }
        ensures stays { StaysRevealed (core_view self.old) (core_view self.new) }
        ensures killed { (m : List Sector) (named : Triples) (ss : List Space) (range : Space)
            → Knows self.old m named ss → range.first ≡ first → range.pages ≡ pages
            → GoesTo (Kills ss range) volume_page [] (state self.old) (state self.new) }
        ensures brings { ChangesBy no_page BringsOwn (state self.old) (state self.new) }
        ensures idle { AreFound (kept self.old) first (first + pages)
            → IsOk result × ((state self.new).disk ≡ (state self.old).disk) × (kept self.new ≡ kept self.old) }
        ensures cost { (state self.new).disk.transfers ≤ (state self.old).disk.transfers + (self.old.intervals + 1)
            * 196 }
    {
        let end = end_of(first, pages);
        let mut page = first;
        for _part in 0..self.intervals + 1 {
            if page >= end {
                return Ok(());
            }
            match self.kill_part(page, end) {
                Ok(next) => page = next,
                Err(halt) => return Err(halt),
            }
        }
        Ok(())
    }
}
