//! What windows show in a range of pages is forced, or its frames are evicted.
ghost use Rattle.std.specs.Prelude.{◌≡◌, ◌≤◌, ◌<◌, ◌+◌, ◌-◌, ◌*◌, ℕ, List, length, Some, IfOk, IfErr, OnOk, find};
ghost use Rattle.labelled_disk.specs.declared.evidence.Halt.TheVariants as halt;
ghost use Rattle.labelled_disk.specs.Sectors.{Sector};
ghost use Rattle.file_map.specs.FileMap.{Triples};
ghost use Rattle.flat_machine.specs.declared.space.Space.{Space};
ghost use Rattle.fault_core.specs.declared.range.WriteBack.TheVariants as way_is;
ghost use Rattle.force_calls.specs.Run.{OnlyRun, Stay};
ghost use Rattle.swap_units.specs.Unit.{has_page};
ghost use Rattle.fault_core.specs.Range.{AreWrittenBack, IsWrittenBack, LeavesFrames};
ghost use Rattle.fault_core.specs.Unit.{file_page};
ghost use Rattle.filer_kernel.specs.View.{FitsLayout, view_of};
ghost use Rattle.fault_core.specs.Reach.{Reaches, ReachHalts, BringsOwn, StayOrYield, no_break};
ghost use Rattle.fault_core.specs.Revealed.{Known};
ghost use Rattle.fault_core.specs.Comes.{WritesPart};
ghost use Rattle.swap_units.specs.declared.interval.Interval.{Interval as IntervalIs};
ghost use Rattle.fault_core.specs.Outcomes.{FailsAtPage, FailsInRange, FindsBy, StaysKnown};

use crate::Core;
use crate::walk::end_of;
use filer_kernel::Filer;
use labelled_disk::{Disk, FileId, Halt};
use std::alloc::Allocator;

// How the frames of pages are flushed or evicted: those that are dirty are written out; and then all are given up.
#[derive(Clone, Copy)]
pub(crate) enum WriteBack {
    Flush,
    Evict,
}

// Writes out what is dirty of so many pages of a file.
fn flush_run<D: Disk, A: Allocator>(
    filer: &mut Filer<D, A>,
    id: FileId,
    first: u32,
    pages: u32,
) -> Result<(), Halt>
    requires size { FitsLayout (view_of filer.old) }
    ensures rest { OnOk result
        ((p : ℕ) → first ≤ p → p < first + pages → IsWrittenBack way_is.Flush (view_of filer.new).slots id p) }
    ensures cause { IfErr result (ReachHalts no_break (view_of filer.old) (view_of filer.new)) }
    ensures sound { (m : List Sector) (named : Triples) (b : List ℕ) → Known (view_of filer.old) m named b
        → IfErr result (λ e. e ≡ halt.Disk) }
    ensures reaches { Reaches (view_of filer.old) (view_of filer.new) }
    ensures came { BringsOwn (view_of filer.old).slots (view_of filer.new).slots }
    ensures frames { Stay (view_of filer.old).slots (view_of filer.new).slots }
    ensures cost { (view_of filer.new).disk.transfers ≤ (view_of filer.old).disk.transfers + length
        (view_of filer.old).slots }
{
    force_calls::flush(filer.swapper_over(), id, first, pages)
}

// Gives up the frames of so many pages of a file. What is dirty is written out first.
fn evict_run<D: Disk, A: Allocator>(
    filer: &mut Filer<D, A>,
    id: FileId,
    first: u32,
    pages: u32,
) -> Result<(), Halt>
    requires size { FitsLayout (view_of filer.old) }
    ensures rest { OnOk result
        ((p : ℕ) → first ≤ p → p < first + pages → IsWrittenBack way_is.Evict (view_of filer.new).slots id p) }
    ensures cause { IfErr result (ReachHalts no_break (view_of filer.old) (view_of filer.new)) }
    ensures sound { (m : List Sector) (named : Triples) (b : List ℕ) → Known (view_of filer.old) m named b
        → IfErr result (λ e. e ≡ halt.Disk) }
    ensures reaches { Reaches (view_of filer.old) (view_of filer.new) }
    ensures came { BringsOwn (view_of filer.old).slots (view_of filer.new).slots }
    ensures frames { OnlyRun id first pages (view_of filer.old).slots (view_of filer.new).slots }
    ensures cost { (view_of filer.new).disk.transfers ≤ (view_of filer.old).disk.transfers + length
        (view_of filer.old).slots }
{
    force_calls::evict(filer.swapper_over(), id, first, pages)
}

// The one or the other.
fn write_back_run<D: Disk, A: Allocator>(
    filer: &mut Filer<D, A>,
    write_back: WriteBack,
    id: FileId,
    first: u32,
    pages: u32,
) -> Result<(), Halt>
    requires size { FitsLayout (view_of filer.old) }
    ensures rest { OnOk result
        ((p : ℕ) → first ≤ p → p < first + pages → IsWrittenBack write_back (view_of filer.new).slots id p) }
    ensures cause { IfErr result (ReachHalts no_break (view_of filer.old) (view_of filer.new)) }
    ensures sound { (m : List Sector) (named : Triples) (b : List ℕ) → Known (view_of filer.old) m named b
        → IfErr result (λ e. e ≡ halt.Disk) }
    ensures reaches { Reaches (view_of filer.old) (view_of filer.new) }
    ensures came { BringsOwn (view_of filer.old).slots (view_of filer.new).slots }
    ensures frames { LeavesFrames write_back id first pages (view_of filer.old).slots (view_of filer.new).slots }
    ensures cost { (view_of filer.new).disk.transfers ≤ (view_of filer.old).disk.transfers + length
        (view_of filer.old).slots }
{
    match write_back {
        WriteBack::Flush => return flush_run(filer, id, first, pages),
        WriteBack::Evict => (),
    }
    evict_run(filer, id, first, pages)
}

impl<D: Disk, A: Allocator> Core<D, A> {
    ghost use Rattle.fault_core.specs.Core.{Knows, core_view, kept, state};

    // What one interval shows of a range from a page on is flushed or evicted. The first page after it is given.
    fn write_back_part(&mut self, write_back: WriteBack, page: u32, end: u32) -> Result<u32, Halt>
        requires size { FitsLayout (state self.old) }
        requires below { page < end }
        ensures comes { WritesPart write_back page end (core_view self.old) (core_view self.new) result }
        ensures fails { FailsAtPage page (core_view self.old) (core_view self.new) result }
        ensures stays { StaysKnown (core_view self.old) (core_view self.new) }
        ensures brings { FindsBy BringsOwn (state self.old) (state self.new) }
        ensures stay { write_back ≡ way_is.Flush → StayOrYield (state self.old).slots (state self.new).slots }
        ensures frames { (x : IntervalIs) → find (has_page page) (kept self.old) ≡ Some x → end ≤ x.first + x.pages
            → LeavesFrames write_back x.id (file_page x page) (end - page) (state self.old).slots
            (state self.new).slots }
        ensures all { (x : IntervalIs) → find (has_page page) (kept self.old) ≡ Some x → end ≤ x.first + x.pages
            → IfOk result (λ next. next ≡ end) }
        ensures cost { (state self.new).disk.transfers ≤ (state self.old).disk.transfers
            + (196 + length (state self.old).slots) }
    {
        let x = match self.describe(page) {
            Ok(Some(x)) => x,
            Ok(None) => return Ok(end),
            Err(halt) => return Err(halt),
        };
        let next = (x.first + x.pages).min(end);
        if !x.mode.is_mapped() {
            return Ok(next);
        }
        match write_back_run(
            &mut self.filer,
            write_back,
            x.id,
            x.page + (page - x.first),
            next - page,
        ) {
            Ok(()) => Ok(next),
            Err(halt) => Err(halt),
        }
    }

    // What windows show in a range of pages of the root is flushed or evicted, interval by interval.
    fn write_back_range(
        &mut self,
        write_back: WriteBack,
        first: u32,
        pages: u32,
    ) -> Result<(), Halt>
        requires size { FitsLayout (state self.old) }
        ensures rest { (m : List Sector) (named : Triples) (ss : List Space) → Knows self.old m named ss
            → OnOk result (AreWrittenBack write_back ss (state self.new).slots first (first + pages)) }
        ensures fails { FailsInRange first (first + pages) (core_view self.old) (core_view self.new) result }
        ensures stays { StaysKnown (core_view self.old) (core_view self.new) }
        ensures brings { FindsBy BringsOwn (state self.old) (state self.new) }
        ensures stay { write_back ≡ way_is.Flush → StayOrYield (state self.old).slots (state self.new).slots }
        ensures frames { (x : IntervalIs) → find (has_page first) (kept self.old) ≡ Some x
            → first + pages ≤ x.first + x.pages
            → LeavesFrames write_back x.id (file_page x first) pages (state self.old).slots (state self.new).slots }
        ensures cost { (state self.new).disk.transfers ≤ (state self.old).disk.transfers + (self.old.intervals + 1)
            * (196 + length (state self.old).slots) }
    {
        let end = end_of(first, pages);
        let mut page = first;
        for _part in 0..self.intervals + 1 {
            if page >= end {
                return Ok(());
            }
            match self.write_back_part(write_back, page, end) {
                Ok(next) => page = next,
                Err(halt) => return Err(halt),
            }
        }
        Ok(())
    }

    /// Writes out the dirty frames of the pages that windows show in a range of pages of the root. Each frame stays, but where the
    /// page of the tables or of the map that is asked takes its slot. Where an interval that is kept has all of the range, no table
    /// is asked, and each frame stays.
    pub fn flush(&mut self, first: u32, pages: u32) -> Result<(), Halt>
        requires size { FitsLayout (state self.old) }
        ensures clean { (m : List Sector) (named : Triples) (ss : List Space) → Knows self.old m named ss
            → OnOk result (AreWrittenBack way_is.Flush ss (state self.new).slots first (first + pages)) }
        ensures fails { FailsInRange first (first + pages) (core_view self.old) (core_view self.new) result }
        ensures stays { StaysKnown (core_view self.old) (core_view self.new) }
        ensures brings { FindsBy BringsOwn (state self.old) (state self.new) }
        ensures stay { StayOrYield (state self.old).slots (state self.new).slots }
        ensures still { (x : IntervalIs) → find (has_page first) (kept self.old) ≡ Some x
            → first + pages ≤ x.first + x.pages → Stay (state self.old).slots (state self.new).slots }
        ensures cost { (state self.new).disk.transfers ≤ (state self.old).disk.transfers + (self.old.intervals + 1)
            * (196 + length (state self.old).slots) }
    {
        self.write_back_range(WriteBack::Flush, first, pages)
    }

    /// Gives up the frames of the pages that windows show in a range of pages of the root. What is dirty is written out first.
    /// Where an interval that is kept has all of it, no other slot changes.
    pub fn evict(&mut self, first: u32, pages: u32) -> Result<(), Halt>
        requires size { FitsLayout (state self.old) }
        ensures gone { (m : List Sector) (named : Triples) (ss : List Space) → Knows self.old m named ss
            → OnOk result (AreWrittenBack way_is.Evict ss (state self.new).slots first (first + pages)) }
        ensures fails { FailsInRange first (first + pages) (core_view self.old) (core_view self.new) result }
        ensures stays { StaysKnown (core_view self.old) (core_view self.new) }
        ensures brings { FindsBy BringsOwn (state self.old) (state self.new) }
        ensures others { (x : IntervalIs) → find (has_page first) (kept self.old) ≡ Some x
            → first + pages ≤ x.first + x.pages
            → OnlyRun x.id (file_page x first) pages (state self.old).slots (state self.new).slots }
        ensures cost { (state self.new).disk.transfers ≤ (state self.old).disk.transfers + (self.old.intervals + 1)
            * (196 + length (state self.old).slots) }
    {
        self.write_back_range(WriteBack::Evict, first, pages)
    }
}
