//! Pages of a file that become free: their labels, and their sectors in the allocation map.
ghost use Rattle.std.specs.Prelude.{◌≡◌, ◌⊎◌, ℕ, ◌+◌, ◌-◌, ◌*◌, ◌≤◌, ◌<◌, true, List, IfOk, IfErr, Err, Some, MatchResult};
ghost use Rattle.labelled_disk.specs.declared.evidence.Halt.TheVariants as halt;
ghost use Rattle.labelled_disk.specs.Runs.{freeing};
ghost use Rattle.labelled_disk.specs.Sectors.{Sector};
ghost use Rattle.file_map.specs.Run.{IsRun};
ghost use Rattle.file_map.specs.FileMap.{Triples};
ghost use Rattle.flat_machine.specs.declared.space.Space.{Space};
ghost use Rattle.swapper_kernel.specs.declared.manager.Manager.TheVariants.{FileMap as FileMapPages};
ghost use Rattle.swapper_kernel.specs.Maps.{IsMapHome};
ghost use Rattle.swapper_kernel.specs.Homes.{AreNamed, home_at};
ghost use Rattle.label_calls.specs.Labels.{ones_of};
ghost use Rattle.label_calls.specs.Runs.{AreUncovered, HaveOnes, RelabelsRun, MadeSome, IsOneNotOf};
ghost use Rattle.filer_kernel.specs.Cached.{runs_of};
ghost use Rattle.filer_kernel.specs.Triples.{MapIs, AreOf};
ghost use Rattle.file_manager.specs.Grounds.{FreeHalts, IsUnframed, KeepsMap};
ghost use Rattle.filer_kernel.specs.Causes.{IsRunHome};
ghost use Rattle.swapper_kernel.specs.Halts.{HasCause};
ghost use Rattle.filer_kernel.specs.Evidence.{MayBeMissing};
ghost use Rattle.file_manager.specs.Freeing.{MayFree, Freed, FreedSome, IsPartOf, NamesAll, MakesFree, MakesSomeFree, run_sectors};
ghost use Rattle.file_manager.specs.Reasons.{AreReleased, Keeps, MissesNone, LeavesTables, MayLack, InitialState, ShowsReason};
ghost use Rattle.filer_kernel.specs.View.{FitsLayout, HasMemory, kept_by, view_of};
ghost use Rattle.file_manager.specs.Outcomes.{FailsIf};
ghost use Rattle.label_calls.specs.Synced.{RelabelsAround};
ghost use Rattle.file_manager.specs.Stays.{FramesStay, FindsRuns, MapStays};
ghost use Rattle.filer_kernel.specs.Fails.{Fails};

use crate::forgetting::discard_run;
use file_map::Run;
use filer_kernel::Filer;
use label_calls::free_pages_up;
use labelled_disk::{Disk, Evidence, FileId, Halt};
use std::alloc::Allocator;

// The sectors in a row of this page of a file and of those after it, at most so many pages.
fn part_of<D: Disk, A: Allocator>(
    filer: &mut Filer<D, A>,
    id: FileId,
    page: u32,
    most: u32,
) -> Result<Run, Halt>
    requires size { FitsLayout (view_of filer.old) }
    requires some { 1 ≤ most }
    ensures fails { IfErr result
        (FailsIf (MayBeMissing id page)
        (FreeHalts (IsUnframed (view_of filer.old).slots id) (view_of filer.old).layout (kept_by (view_of filer.old)) id
        (λ p. p ≡ page) (view_of filer.old).disk (view_of filer.old).slots (view_of filer.new).disk)
        (view_of filer.old) (view_of filer.new)) }
    ensures accounts { (o : InitialState) (named : Triples) → Keeps o filer.old named
        → MatchResult result (λ _. Keeps o filer.new named)
        (λ e.
        (MayLack named id page → ShowsReason o (view_of filer.old).layout (view_of filer.new).disk e)
        × ((sector : ℕ) → named id page sector ≡ true → MissesNone e)) }
    ensures part { IfOk result
        (λ run.
        IsPartOf (view_of filer.old).layout.sectors id page (page + most) run
        × ((k : ℕ) → k < run.pages
        → IsRunHome (view_of filer.old).layout (view_of filer.old).disk (view_of filer.old).slots
        (kept_by (view_of filer.old)) (home_at (run.sector + k) (record { id = id; page = run.first + k })))) }
    ensures keeps { (id ≡ 3) ⊎ (16 ≤ id)
        → KeepsMap (IsUnframed (view_of filer.old).slots id) (view_of filer.old).layout id (view_of filer.old).disk
        (view_of filer.old).slots (kept_by (view_of filer.old)) (view_of filer.new).disk (view_of filer.new).slots
        (runs_of (view_of filer.old).layout.sectors (view_of filer.new).runs) }
    ensures named { (m : List Sector) (named : Triples) → HasMemory (view_of filer.old) m
        → MapIs (view_of filer.old).layout named m → AreOf named (kept_by (view_of filer.old))
        → IfOk result (NamesAll named)
        × AreOf named (runs_of (view_of filer.old).layout.sectors (view_of filer.new).runs) }
    ensures sound { (m : List Sector) (named : Triples) (sector : ℕ) → HasMemory (view_of filer.old) m
        → MapIs (view_of filer.old).layout named m → AreNamed m (IsMapHome FileMapPages (view_of filer.old).layout)
        → named id page sector ≡ true → IfErr result (λ e. e ≡ halt.Disk) }
    ensures stays { FindsRuns (view_of filer.old) (view_of filer.new) }
    ensures cost { (view_of filer.new).disk.transfers ≤ (view_of filer.old).disk.transfers + 14 }
{
    match filer.find(id, page) {
        Ok(Some(run)) => {
            let before = page - run.first;
            let pages = (run.pages - before).min(most);
            Ok(Run {
                id,
                first: page,
                pages,
                sector: run.sector + before,
            })
        }
        Ok(None) => Err(Halt::Damaged(Evidence::Missing { id, page })),
        Err(halt) => Err(halt),
    }
}

// Frees the labels of the sectors of a run, the first page first.
fn free_labels<D: Disk, A: Allocator>(filer: &mut Filer<D, A>, run: Run) -> Result<(), Halt>
    requires size { FitsLayout (view_of filer.old) }
    requires data { (view_of filer.old).layout.first ≤ run.sector }
    requires form { IsRun (view_of filer.old).layout.sectors run }
    ensures writes { MatchResult result
        (λ _.
        RelabelsRun run.sector run.pages (freeing (run_sectors run)) (view_of filer.old).disk (view_of filer.old).slots
        (view_of filer.new).disk
        × ((d : List Sector) → (view_of filer.old).disk.contents ≡ Some d
        → HaveOnes (λ k. ones_of (record { id = run.id; page = run.first + k })) d run.sector run.pages))
        (λ _.
        MadeSome (freeing (run_sectors run)) (view_of filer.old).disk (view_of filer.old).slots
        (view_of filer.new).disk) }
    ensures sound { (m : List Sector) → HasMemory (view_of filer.old) m
        → AreUncovered (view_of filer.old).slots run.sector run.pages
        → HaveOnes (λ k. ones_of (record { id = run.id; page = run.first + k })) m run.sector run.pages
        → IfErr result (λ e. e ≡ halt.Disk) }
    ensures fails { IfErr result
        (Fails
        (HasCause
        (IsOneNotOf run.sector run.pages (λ k. record { id = run.id; page = run.first + k }) (view_of filer.old).disk)
        (view_of filer.old).disk (view_of filer.new).disk)
        (view_of filer.old) (view_of filer.new)) }
    ensures stays { FramesStay (view_of filer.old) (view_of filer.new) }
    ensures cost { (view_of filer.new).disk.transfers ≤ (view_of filer.old).disk.transfers + 2 * run.pages }
    ensures labels { RelabelsAround run.id result (view_of filer.old).disk (view_of filer.new).disk }
{
    let swapper = filer.swapper_over();
    match free_pages_up(swapper, run.sector, run.pages, run.id, run.first) {
        Ok(()) => Ok(()),
        Err(halt) => Err(halt),
    }
}

// Frees pages of a file from one on, at least that one and at most so many: those whose sectors are in a row. The file map
// stays.
pub(crate) fn free_run<D: Disk, A: Allocator>(
    filer: &mut Filer<D, A>,
    id: FileId,
    page: u32,
    most: u32,
) -> Result<u32, Halt>
    requires size { FitsLayout (view_of filer.old) }
    requires of_file { (id ≡ 3) ⊎ (16 ≤ id) }
    requires some { 1 ≤ most }
    ensures freed { (named : Triples) (spaces : List Space) (m : List Sector)
        → MayFree (view_of filer.old).disk (view_of filer.old).slots (view_of filer.old).layout (view_of filer.old).runs
        named spaces id page (page + most) m
        → MatchResult result
        (λ pages.
        Freed (view_of filer.old).layout named spaces id page pages (page + most) (view_of filer.old).disk
        (view_of filer.old).slots (view_of filer.new).disk (view_of filer.new).slots (view_of filer.new).runs)
        (λ e.
        (e ≡ halt.Disk)
        × FreedSome named id page (page + most) (view_of filer.old).disk (view_of filer.old).slots
        (view_of filer.new).disk (view_of filer.new).slots) }
    ensures some { IfOk result (λ pages. (1 ≤ pages) × (pages ≤ most)) }
    ensures writes { MatchResult result
        (λ pages.
        MakesFree pages (view_of filer.old).disk (view_of filer.old).slots (view_of filer.new).disk
        (view_of filer.new).slots)
        (λ _.
        MakesSomeFree (view_of filer.old).disk (view_of filer.old).slots (view_of filer.new).disk
        (view_of filer.new).slots) }
    ensures fails { IfErr result
        (FailsIf (MayBeMissing id page)
        (FreeHalts (IsUnframed (view_of filer.old).slots id) (view_of filer.old).layout (kept_by (view_of filer.old)) id
        (λ p. p ≡ page) (view_of filer.old).disk (view_of filer.old).slots (view_of filer.new).disk)
        (view_of filer.old) (view_of filer.new)) }
    ensures accounts { (o : InitialState) (named : Triples) → Keeps o filer.old named
        → MatchResult result
        (λ pages.
        LeavesTables o id
        → Keeps o filer.new named
        × AreReleased o (view_of filer.new).disk named id (λ p. (page ≤ p) × (p < page + pages)))
        (λ e.
        (LeavesTables o id → MayLack named id page
        → ShowsReason o (view_of filer.old).layout (view_of filer.new).disk e)
        × ((sector : ℕ) → named id page sector ≡ true → MissesNone e)) }
    ensures stays { MapStays id result (view_of filer.old) (view_of filer.new) }
    ensures cost { ((view_of filer.new).disk.transfers ≤ (view_of filer.old).disk.transfers
        + (14 + 2 * most + 4 * (view_of filer.old).layout.vam))
        × IfOk result
        (λ pages.
        (view_of filer.new).disk.transfers ≤ (view_of filer.old).disk.transfers
        + (14 + 2 * pages + 4 * (view_of filer.old).layout.vam)) }
    ensures labels { RelabelsAround id result (view_of filer.old).disk (view_of filer.new).disk }
{
    let run = match part_of(filer, id, page, most) {
        Ok(run) => run,
        Err(halt) => return Err(halt),
    };
    discard_run(filer, run.id, run.first, run.pages);
    match free_labels(filer, run) {
        Ok(()) => (),
        Err(halt) => return Err(halt),
    }
    match filer.give(run.sector, run.pages) {
        Ok(()) => (),
        Err(halt) => return Err(halt),
    }
    Ok(run.pages)
}

// Frees the pages of a file from one on up to another, run by run. The file map stays.
pub(crate) fn free_up<D: Disk, A: Allocator>(
    filer: &mut Filer<D, A>,
    id: FileId,
    from: u32,
    end: u32,
) -> Result<(), Halt>
    requires size { FitsLayout (view_of filer.old) }
    requires of_file { (id ≡ 3) ⊎ (16 ≤ id) }
    requires order { from ≤ end }
    ensures freed { (named : Triples) (spaces : List Space) (m : List Sector)
        → MayFree (view_of filer.old).disk (view_of filer.old).slots (view_of filer.old).layout (view_of filer.old).runs
        named spaces id from end m
        → MatchResult result
        (λ _.
        Freed (view_of filer.old).layout named spaces id from (end - from) end (view_of filer.old).disk
        (view_of filer.old).slots (view_of filer.new).disk (view_of filer.new).slots (view_of filer.new).runs)
        (λ e.
        (e ≡ halt.Disk)
        × FreedSome named id from end (view_of filer.old).disk (view_of filer.old).slots (view_of filer.new).disk
        (view_of filer.new).slots) }
    ensures writes { MatchResult result
        (λ _.
        MakesFree (end - from) (view_of filer.old).disk (view_of filer.old).slots (view_of filer.new).disk
        (view_of filer.new).slots)
        (λ _.
        MakesSomeFree (view_of filer.old).disk (view_of filer.old).slots (view_of filer.new).disk
        (view_of filer.new).slots) }
    ensures fails { IfErr result
        (FailsIf (((page : ℕ) → page < end → MayBeMissing id page))
        (FreeHalts (IsUnframed (view_of filer.old).slots id) (view_of filer.old).layout (kept_by (view_of filer.old)) id
        (λ p. (from ≤ p) × (p < end)) (view_of filer.old).disk (view_of filer.old).slots (view_of filer.new).disk)
        (view_of filer.old) (view_of filer.new)) }
    ensures accounts { (o : InitialState) (named : Triples) → Keeps o filer.old named → LeavesTables o id
        → MatchResult result
        (λ _. Keeps o filer.new named × AreReleased o (view_of filer.new).disk named id (λ p. (from ≤ p) × (p < end)))
        (λ e.
        (((page : ℕ) → page < end → MayLack named id page)
        → ShowsReason o (view_of filer.old).layout (view_of filer.new).disk e)
        × (((page : ℕ) → page < end → (sector : ℕ) × (named id page sector ≡ true)) → MissesNone e)) }
    ensures stays { MapStays id result (view_of filer.old) (view_of filer.new) }
    ensures cost { (view_of filer.new).disk.transfers ≤ (view_of filer.old).disk.transfers + (end - from)
        * (16 + 4 * (view_of filer.old).layout.vam) }
    ensures labels { RelabelsAround id result (view_of filer.old).disk (view_of filer.new).disk }
{
    let mut page = from;
    while page < end {
        match free_run(filer, id, page, end - page) {
            Ok(pages) => page += pages,
            Err(halt) => return Err(halt),
        }
    }
    Ok(())
}
