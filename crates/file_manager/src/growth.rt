//! Pages of a file that are made: free sectors are taken, labelled, and put into the file map.
ghost use Rattle.std.specs.Prelude.{◌≡◌, ℕ, ◌+◌, ◌-◌, ◌*◌, ◌^◌, ◌≤◌, ◌<◌, true, false, List, length, IfOk, IfErr, OnErr, Err, None, MatchResult};
ghost use Rattle.labelled_disk.specs.declared.evidence.Halt.TheVariants as halt;
ghost use Rattle.labelled_disk.specs.Label.{is_file_id};
ghost use Rattle.labelled_disk.specs.Runs.{growth};
ghost use Rattle.labelled_disk.specs.Sectors.{Sector};
ghost use Rattle.alloc_map.specs.Runs.{IsDataRun};
ghost use Rattle.file_map.specs.FileMap.{Triples, with_run};
ghost use Rattle.flat_machine.specs.declared.space.Space.{Space};
ghost use Rattle.swapper_kernel.specs.declared.manager.Manager.TheVariants.{AllocationMap};
ghost use Rattle.swapper_kernel.specs.Maps.{IsMapHome};
ghost use Rattle.swapper_kernel.specs.Homes.{AreNamed};
ghost use Rattle.label_calls.specs.Labels.{free_ones};
ghost use Rattle.label_calls.specs.Clearing.{NamedCleared, RelabelsCleared};
ghost use Rattle.label_calls.specs.Runs.{AreOfFile, AreUncovered, HaveOnes, IsOneTaken};
ghost use Rattle.label_calls.specs.Synced.{LabelsAfterSync};
ghost use Rattle.filer_kernel.specs.Becomes.{Becomes};
ghost use Rattle.filer_kernel.specs.Marks.{Marks, BitsAre, marked, IsFreeRun};
ghost use Rattle.file_manager.specs.NewPages.{AreToMake};
ghost use Rattle.file_manager.specs.Grounds.{RangeHalts, TakeHalts, MakesFor};
ghost use Rattle.swapper_kernel.specs.Halts.{HasCause};
ghost use Rattle.session_words.specs.Parts.{Shape, Shapes};
ghost use Rattle.session_words.specs.GrowLaws.{Grows};
ghost use Rattle.session_words.specs.Volume.{volume_page};
ghost use Rattle.frame_pool.specs.Frames.{ArePages};
ghost use Rattle.file_manager.specs.Book.{BooksUpto, Leads};
ghost use Rattle.file_manager.specs.Broken.{GrewSome};
ghost use Rattle.file_manager.specs.Costs.{label_cost};
ghost use Rattle.file_manager.specs.Making.{AreUnownedUpto, ShowsNoFree, free_count, sectors_of, IsRunFor, MayGrowUpto, GrownBy, MakesAll, MakesSome};
ghost use Rattle.file_manager.specs.Reasons.{Keeps, KeepsFrom, MayTake, InitialState, ShowsReason, telling};
ghost use Rattle.file_manager.specs.Taking.{NamesNoneOf};
ghost use Rattle.filer_kernel.specs.View.{FitsLayout, HasMemory, MakesOnly, view_of};
ghost use Rattle.file_manager.specs.Stays.{FramesStay, MarksBeside, BringsMaps};
ghost use Rattle.filer_kernel.specs.Fails.{Fails};

use alloc_map::AllocError;
use file_map::Run;
use filer_kernel::Filer;
use label_calls::{make_cleared_pages, make_pages};
use labelled_disk::{Disk, Evidence, FileId, Halt, TABLES};
use std::alloc::Allocator;

// Takes a free data sector, and free ones after it, at most so many together.
fn take_run<D: Disk, A: Allocator>(filer: &mut Filer<D, A>, most: u32) -> Result<(u32, u32), Halt>
    requires size { FitsLayout (view_of filer.old) }
    requires some { 1 ≤ most }
    ensures free { (m : List Sector) (marks : Marks) → HasMemory (view_of filer.old) m
        → BitsAre (view_of filer.old).layout marks m → IfOk result (IsFreeRun (view_of filer.old).layout marks most) }
    ensures taken { (m : List Sector) (marks : Marks) → HasMemory (view_of filer.old) m
        → BitsAre (view_of filer.old).layout marks m
        → IfOk result
        (λ run.
        Becomes AllocationMap (view_of filer.old).layout m
        (BitsAre (view_of filer.old).layout (marked true run.0 run.1 marks)) (view_of filer.new).disk
        (view_of filer.new).slots) }
    ensures sound { (m : List Sector) (marks : Marks) (k : ℕ) → HasMemory (view_of filer.old) m
        → BitsAre (view_of filer.old).layout marks m → AreNamed m (IsMapHome AllocationMap (view_of filer.old).layout)
        → (view_of filer.old).layout.first ≤ k → k < (view_of filer.old).layout.sectors → marks k ≡ false
        → IfErr result (λ e. e ≡ halt.Disk) }
    ensures fails { IfErr result
        (Fails
        (TakeHalts (view_of filer.old).layout (view_of filer.old).disk (view_of filer.old).slots
        (view_of filer.new).disk (view_of filer.new).slots)
        (view_of filer.old) (view_of filer.new)) }
    ensures reasons { (o : InitialState) (named : Triples) → Keeps o filer.old named
        → IfErr result (ShowsReason o (view_of filer.old).layout (view_of filer.new).disk) }
    ensures form { IfOk result (IsDataRun (view_of filer.old).layout.first (view_of filer.old).layout.sectors most) }
    ensures stays { MarksBeside (view_of filer.old) (view_of filer.new) }
    ensures cost { (view_of filer.new).disk.transfers ≤ (view_of filer.old).disk.transfers + 8
        * (view_of filer.old).layout.vam }
{
    match filer.take(most) {
        Ok(run) => Ok(run),
        Err(AllocError::NoRoom) => Err(Halt::Damaged(Evidence::Missing {
            id: TABLES,
            page: 0,
        })),
        Err(AllocError::Mem(halt)) => Err(halt),
    }
}

// Gives the sectors of a run the labels of its pages, and pages of zeros. They may have been cleared: if they are to
// be, those under plain free labels (identifier 0, page 0, flags below 4, last byte 0) are zeros first, and that is on
// the medium.
fn label_run<D: Disk, A: Allocator>(
    filer: &mut Filer<D, A>,
    run: Run,
    kind: u16,
    clears: bool,
) -> Result<(), Halt>
    requires size { FitsLayout (view_of filer.old) }
    requires data { (view_of filer.old).layout.first ≤ run.sector }
    requires inside { run.sector + run.pages ≤ (view_of filer.old).layout.sectors }
    requires numbers { run.first + run.pages ≤ 2 ^ 32 }
    requires of_file { AreOfFile run.id kind run.first run.pages }
    ensures writes { MatchResult result
        (λ _.
        RelabelsCleared run.sector run.pages (growth run.id kind run.first (sectors_of run)) (view_of filer.old).disk
        (view_of filer.old).slots (view_of filer.new).disk)
        (λ _.
        NamedCleared (λ k. run.sector + k) (λ k. free_ones) (growth run.id kind run.first (sectors_of run))
        (view_of filer.old).disk (view_of filer.old).slots (view_of filer.new).disk) }
    ensures sound { (m : List Sector) → HasMemory (view_of filer.old) m
        → AreUncovered (view_of filer.old).slots run.sector run.pages → HaveOnes (λ k. free_ones) m run.sector run.pages
        → IfErr result (λ e. e ≡ halt.Disk) }
    ensures fails { IfErr result
        (Fails
        (HasCause (IsOneTaken run.sector run.pages (view_of filer.old).disk) (view_of filer.old).disk
        (view_of filer.new).disk)
        (view_of filer.old) (view_of filer.new)) }
    ensures stays { FramesStay (view_of filer.old) (view_of filer.new) }
    ensures cleared { clears ≡ true → LabelsAfterSync (view_of filer.old).disk (view_of filer.new).disk }
    ensures cost { (view_of filer.new).disk.transfers ≤ (view_of filer.old).disk.transfers
        + label_cost clears * run.pages }
{
    let swapper = filer.swapper_over();
    if clears {
        match make_cleared_pages(swapper, run.sector, run.pages, run.id, kind, run.first) {
            Ok(()) => Ok(()),
            Err(halt) => Err(halt),
        }
    } else {
        match make_pages(swapper, run.sector, run.pages, run.id, kind, run.first) {
            Ok(()) => Ok(()),
            Err(halt) => Err(halt),
        }
    }
}

// How many frames there are. The bytes of each are a page's.
pub(crate) fn frames_of<D: Disk, A: Allocator>(filer: &mut Filer<D, A>) -> u32
    ensures pages { ArePages (view_of filer.old).slots }
    ensures same { filer.new ≡ filer.old }
{
    filer.swapper_over().frames().frames()
}

// Makes some of the next pages of a file or of the space tables, at least one and at most so many: a free data sector
// is taken, and free ones after it, they get the labels of the pages, cleared before or not, and the file map has them.
pub(crate) fn make_run<D: Disk, A: Allocator>(
    filer: &mut Filer<D, A>,
    id: FileId,
    kind: u16,
    page: u32,
    most: u32,
    clears: bool,
) -> Result<Run, Halt>
    requires size { FitsLayout (view_of filer.old) }
    requires to_make { AreToMake id kind page most }
    ensures made { (tables : ℕ) (x : List Sector) (shapes : Shapes) (spaces : List Space)
        → BooksUpto tables (view_of filer.old).disk (view_of filer.old).slots (view_of filer.old).layout
        (view_of filer.old).runs shapes spaces x
        → ShowsNoFree spaces → AreUnownedUpto tables shapes id page most → 1 ≤ free_count (view_of filer.old).layout x
        → MatchResult result
        (λ run.
        Leads (Grows id kind page (sectors_of run)) (growth id kind page (sectors_of run)) (view_of filer.old).disk
        (view_of filer.old).slots (view_of filer.old).layout (view_of filer.new).disk (view_of filer.new).slots
        (view_of filer.new).runs)
        (λ e. e ≡ halt.Disk) }
    ensures fails { IfErr result
        (Fails
        (RangeHalts (view_of filer.old).layout id page (page + most) (view_of filer.old).disk (view_of filer.old).slots
        (view_of filer.new).disk (view_of filer.new).slots)
        (view_of filer.old) (view_of filer.new)) }
    ensures accounts { (o : InitialState) (named : Triples) → Keeps o filer.old named
        → NamesNoneOf id (λ p. (page ≤ p) × (p < page + most)) named
        → MatchResult result (λ run. MayTake o id → (id ≡ 3 → o.tables ≡ None) → Keeps o filer.new (with_run named run))
        (ShowsReason o (view_of filer.old).layout (view_of filer.new).disk) }
    ensures tables { (o : InitialState) (named : Triples) (b : List ℕ) → id ≡ 3 → page + most ≤ 96
        → length b ≡ 512 * page → Keeps (telling o b) filer.old named
        → NamesNoneOf id (λ p. (page ≤ p) × (p < page + most)) named
        → IfOk result
        (λ run.
        (c : List ℕ) × (Keeps (telling o c) filer.new (with_run named run) × (length c ≡ 512 * (page + run.pages)))) }
    ensures run { IfOk result
        (λ run.
        IsRunFor (view_of filer.old).layout.sectors id page most run
        × (run.pages < most → (m : List Sector) (marks : Marks) → HasMemory (view_of filer.old) m
        → BitsAre (view_of filer.old).layout marks m → run.sector + run.pages < (view_of filer.old).layout.sectors
        → marks (run.sector + run.pages) ≡ true)
        × MakesFor (view_of filer.old).layout id (λ p. (page ≤ p) × (p < page + run.pages)) (view_of filer.old).disk
        (view_of filer.old).slots (view_of filer.new).disk (view_of filer.new).slots) }
    ensures stays { BringsMaps (view_of filer.old) (view_of filer.new) }
    ensures broken { (tables : ℕ) (x : List Sector) (shapes : Shapes) (spaces : List Space)
        → BooksUpto tables (view_of filer.old).disk (view_of filer.old).slots (view_of filer.old).layout
        (view_of filer.old).runs shapes spaces x
        → ShowsNoFree spaces → AreUnownedUpto tables shapes id page most → 1 ≤ free_count (view_of filer.old).layout x
        → OnErr result
        (GrewSome id kind page most x (view_of filer.old).disk (view_of filer.old).slots (view_of filer.new).disk
        (view_of filer.new).slots) }
    ensures writes { MatchResult result
        (λ run. MakesOnly volume_page (growth id kind page (sectors_of run)) (view_of filer.old) (view_of filer.new))
        (λ _.
        MakesSome id kind page most (view_of filer.old).disk (view_of filer.old).slots (view_of filer.new).disk
        (view_of filer.new).slots) }
    ensures cost { ((view_of filer.new).disk.transfers ≤ (view_of filer.old).disk.transfers
        + (8 * (view_of filer.old).layout.vam + label_cost clears * most + 98))
        × IfOk result
        (λ run.
        (view_of filer.new).disk.transfers ≤ (view_of filer.old).disk.transfers
        + (8 * (view_of filer.old).layout.vam + label_cost clears * run.pages + 98)) }
    ensures cleared { clears ≡ true → LabelsAfterSync (view_of filer.old).disk (view_of filer.new).disk }
{
    let (sector, pages) = match take_run(filer, most) {
        Ok(taken) => taken,
        Err(halt) => return Err(halt),
    };
    let run = Run {
        id,
        first: page,
        pages,
        sector,
    };
    match label_run(filer, run, kind, clears) {
        Ok(()) => (),
        Err(halt) => return Err(halt),
    }
    match filer.add(run) {
        Ok(()) => (),
        Err(halt) => return Err(halt),
    }
    frames_of(filer);
    Ok(run)
}

// Makes the pages of a file from one on up to another, in free data sectors, cleared before or not.
pub(crate) fn make_up<D: Disk, A: Allocator>(
    filer: &mut Filer<D, A>,
    id: FileId,
    kind: u16,
    from: u32,
    end: u32,
    clears: bool,
) -> Result<(), Halt>
    requires size { FitsLayout (view_of filer.old) }
    requires of_file { is_file_id id ≡ true }
    requires order { from ≤ end }
    requires numbers { end < 4294967295 }
    ensures made { (tables : ℕ) (x : List Sector) (shapes : Shapes) (spaces : List Space) (f : Shape)
        → MayGrowUpto tables (view_of filer.old).disk (view_of filer.old).slots (view_of filer.old).layout
        (view_of filer.old).runs shapes spaces id f end x
        → f.size ≡ from
        → MatchResult result
        (λ _.
        GrownBy id kind from (end - from) (view_of filer.old).disk (view_of filer.old).slots (view_of filer.old).layout
        (view_of filer.new).disk (view_of filer.new).slots (view_of filer.new).runs)
        (λ e.
        (e ≡ halt.Disk)
        × GrewSome id kind from (end - from) x (view_of filer.old).disk (view_of filer.old).slots
        (view_of filer.new).disk (view_of filer.new).slots) }
    ensures writes { MatchResult result
        (λ _.
        MakesAll id kind from (end - from) (view_of filer.old).disk (view_of filer.old).slots (view_of filer.new).disk
        (view_of filer.new).slots
        × MakesFor (view_of filer.old).layout id (λ p. (from ≤ p) × (p < end)) (view_of filer.old).disk
        (view_of filer.old).slots (view_of filer.new).disk (view_of filer.new).slots)
        (λ _.
        MakesSome id kind from (end - from) (view_of filer.old).disk (view_of filer.old).slots (view_of filer.new).disk
        (view_of filer.new).slots) }
    ensures fails { IfErr result
        (Fails
        (RangeHalts (view_of filer.old).layout id from end (view_of filer.old).disk (view_of filer.old).slots
        (view_of filer.new).disk (view_of filer.new).slots)
        (view_of filer.old) (view_of filer.new)) }
    ensures accounts { (o : InitialState) (named : Triples) → Keeps o filer.old named → MayTake o id
        → NamesNoneOf id (λ p. (from ≤ p) × (p < end)) named
        → MatchResult result (λ _. KeepsFrom o named filer.new)
        (ShowsReason o (view_of filer.old).layout (view_of filer.new).disk) }
    ensures stays { BringsMaps (view_of filer.old) (view_of filer.new) }
    ensures cost { (view_of filer.new).disk.transfers ≤ (view_of filer.old).disk.transfers + (end - from)
        * (8 * (view_of filer.old).layout.vam + (98 + label_cost clears)) }
    ensures cleared { clears ≡ true → LabelsAfterSync (view_of filer.old).disk (view_of filer.new).disk }
{
    let mut page = from;
    while page < end {
        match make_run(filer, id, kind, page, end - page, clears) {
            Ok(run) => page += run.pages,
            Err(halt) => return Err(halt),
        }
    }
    Ok(())
}
