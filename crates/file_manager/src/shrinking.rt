//! The last pages of a file that become free, the last one first: their labels, and their sectors in the allocation map.
ghost use Rattle.std.specs.Prelude.{◌≡◌, ◌⊎◌, ℕ, ◌+◌, ◌-◌, ◌*◌, ◌≤◌, ◌<◌, true, List, IfOk, IfErr, Some, MatchResult};
ghost use Rattle.labelled_disk.specs.declared.evidence.Halt.TheVariants as halt;
ghost use Rattle.labelled_disk.specs.Runs.{freeing};
ghost use Rattle.labelled_disk.specs.Sectors.{Sector};
ghost use Rattle.file_map.specs.Run.{IsRun};
ghost use Rattle.file_map.specs.FileMap.{Triples};
ghost use Rattle.flat_machine.specs.declared.space.Space.{Space};
ghost use Rattle.swapper_kernel.specs.declared.manager.Manager.TheVariants.{FileMap as FileMapPages};
ghost use Rattle.swapper_kernel.specs.Maps.{IsMapHome};
ghost use Rattle.swapper_kernel.specs.Homes.{AreNamed, home_at};
ghost use Rattle.label_calls.specs.Labels.{ones_of};
ghost use Rattle.label_calls.specs.Runs.{AreUncovered, HaveOnes, RelabelsRun, MadeSome, IsOneNotOf};
ghost use Rattle.label_calls.specs.Own.{RelabelsOwn};
ghost use Rattle.filer_kernel.specs.Cached.{runs_of};
ghost use Rattle.filer_kernel.specs.Triples.{MapIs, AreOf};
ghost use Rattle.file_manager.specs.Grounds.{FreeHalts, IsUnframed, KeepsMap};
ghost use Rattle.filer_kernel.specs.Causes.{IsRunHome};
ghost use Rattle.swapper_kernel.specs.Halts.{HasCause};
ghost use Rattle.filer_kernel.specs.Evidence.{MayBeMissing};
ghost use Rattle.file_manager.specs.Freeing.{MayFree, NamesAll, MakesFree, MakesSomeFree};
ghost use Rattle.file_manager.specs.Shrinking.{IsLastPart, FreedDown, StoppedDown, run_down};
ghost use Rattle.file_manager.specs.Reasons.{AreReleased, Keeps, MayLack, InitialState, ShowsReason};
ghost use Rattle.filer_kernel.specs.View.{FitsLayout, HasMemory, kept_by, view_of};
ghost use Rattle.file_manager.specs.Outcomes.{FailsIf};
ghost use Rattle.file_manager.specs.Stays.{FramesStay, FindsRuns, MapStays};
ghost use Rattle.filer_kernel.specs.Fails.{Fails};

use crate::forgetting::discard_run;
use file_map::Run;
use filer_kernel::Filer;
use label_calls::free_pages_down;
use labelled_disk::{Disk, Evidence, FileId, Halt};
use std::alloc::Allocator;

// The sectors in a row of the last page of a file below one and of those before it, none of them below `from`.
fn last_part<D: Disk, A: Allocator>(
    filer: &mut Filer<D, A>,
    id: FileId,
    from: u32,
    end: u32,
) -> Result<Run, Halt>
    requires size { FitsLayout (view_of filer.old) }
    requires some { from < end }
    ensures part { IfOk result
        (λ run.
        IsLastPart (view_of filer.old).layout.sectors id from end run
        × ((k : ℕ) → k < run.pages
        → IsRunHome (view_of filer.old).layout (view_of filer.old).disk (view_of filer.old).slots
        (kept_by (view_of filer.old)) (home_at (run.sector + k) (record { id = id; page = run.first + k })))) }
    ensures named { (m : List Sector) (named : Triples) → HasMemory (view_of filer.old) m
        → MapIs (view_of filer.old).layout named m → AreOf named (kept_by (view_of filer.old))
        → IfOk result (NamesAll named)
        × AreOf named (runs_of (view_of filer.old).layout.sectors (view_of filer.new).runs) }
    ensures sound { (m : List Sector) (named : Triples) (sector : ℕ) → HasMemory (view_of filer.old) m
        → MapIs (view_of filer.old).layout named m → AreNamed m (IsMapHome FileMapPages (view_of filer.old).layout)
        → named id (end - 1) sector ≡ true → IfErr result (λ e. e ≡ halt.Disk) }
    ensures fails { IfErr result
        (FailsIf (MayBeMissing id (end - 1))
        (FreeHalts (IsUnframed (view_of filer.old).slots id) (view_of filer.old).layout (kept_by (view_of filer.old)) id
        (λ p. p ≡ end - 1) (view_of filer.old).disk (view_of filer.old).slots (view_of filer.new).disk)
        (view_of filer.old) (view_of filer.new)) }
    ensures accounts { (o : InitialState) (named : Triples) → Keeps o filer.old named
        → MatchResult result (λ _. Keeps o filer.new named)
        (λ e. MayLack named id (end - 1) → ShowsReason o (view_of filer.old).layout (view_of filer.new).disk e) }
    ensures keeps { (id ≡ 3) ⊎ (16 ≤ id)
        → KeepsMap (IsUnframed (view_of filer.old).slots id) (view_of filer.old).layout id (view_of filer.old).disk
        (view_of filer.old).slots (kept_by (view_of filer.old)) (view_of filer.new).disk (view_of filer.new).slots
        (runs_of (view_of filer.old).layout.sectors (view_of filer.new).runs) }
    ensures stays { FindsRuns (view_of filer.old) (view_of filer.new) }
    ensures cost { (view_of filer.new).disk.transfers ≤ (view_of filer.old).disk.transfers + 14 }
{
    match filer.find(id, end - 1) {
        Ok(Some(run)) => {
            let first = run.first.max(from);
            Ok(Run {
                id,
                first,
                pages: end - first,
                sector: run.sector + (first - run.first),
            })
        }
        Ok(None) => Err(Halt::Damaged(Evidence::Missing { id, page: end - 1 })),
        Err(halt) => Err(halt),
    }
}

// Frees the labels of the sectors of a run, the last page first.
fn free_labels_down<D: Disk, A: Allocator>(filer: &mut Filer<D, A>, run: Run) -> Result<(), Halt>
    requires size { FitsLayout (view_of filer.old) }
    requires data { (view_of filer.old).layout.first ≤ run.sector }
    requires form { IsRun (view_of filer.old).layout.sectors run }
    ensures writes { MatchResult result
        (λ _.
        RelabelsRun run.sector run.pages (freeing (run_down run)) (view_of filer.old).disk (view_of filer.old).slots
        (view_of filer.new).disk
        × ((d : List Sector) → (view_of filer.old).disk.contents ≡ Some d
        → HaveOnes (λ k. ones_of (record { id = run.id; page = run.first + k })) d run.sector run.pages))
        (λ _.
        MadeSome (freeing (run_down run)) (view_of filer.old).disk (view_of filer.old).slots (view_of filer.new).disk) }
    ensures sound { (m : List Sector) → HasMemory (view_of filer.old) m
        → AreUncovered (view_of filer.old).slots run.sector run.pages
        → HaveOnes (λ k. ones_of (record { id = run.id; page = run.first + k })) m run.sector run.pages
        → IfErr result (λ e. e ≡ halt.Disk) }
    ensures fails { IfErr result
        (Fails
        (HasCause
        (IsOneNotOf run.sector run.pages (λ k. record { id = run.id; page = run.first + k }) (view_of filer.old).disk)
        (view_of filer.old).disk (view_of filer.new).disk)
        (view_of filer.old) (view_of filer.new)) }
    ensures stays { FramesStay (view_of filer.old) (view_of filer.new) }
    ensures cost { (view_of filer.new).disk.transfers ≤ (view_of filer.old).disk.transfers + 2 * run.pages }
    ensures own { RelabelsOwn run.id (view_of filer.old).disk (view_of filer.new).disk }
{
    let swapper = filer.swapper_over();
    match free_pages_down(swapper, run.sector, run.pages, run.id, run.first) {
        Ok(()) => Ok(()),
        Err(halt) => Err(halt),
    }
}

// Frees pages of a file below one, the last of them at least and none below `from`: those whose sectors are in a row. The
// file map stays.
fn free_last<D: Disk, A: Allocator>(
    filer: &mut Filer<D, A>,
    id: FileId,
    from: u32,
    end: u32,
) -> Result<u32, Halt>
    requires size { FitsLayout (view_of filer.old) }
    requires of_file { 16 ≤ id }
    requires some { from < end }
    ensures freed { (named : Triples) (spaces : List Space) (m : List Sector)
        → MayFree (view_of filer.old).disk (view_of filer.old).slots (view_of filer.old).layout (view_of filer.old).runs
        named spaces id from end m
        → MatchResult result
        (λ pages.
        FreedDown (view_of filer.old).layout named spaces id from pages end (view_of filer.old).disk
        (view_of filer.old).slots (view_of filer.new).disk (view_of filer.new).slots (view_of filer.new).runs)
        (λ e.
        (e ≡ halt.Disk)
        × StoppedDown named id (end - from) end (view_of filer.old).disk (view_of filer.old).slots
        (view_of filer.new).disk (view_of filer.new).slots) }
    ensures some { IfOk result (λ pages. (1 ≤ pages) × (pages ≤ end - from)) }
    ensures fails { IfErr result
        (Fails
        (FreeHalts (IsUnframed (view_of filer.old).slots id) (view_of filer.old).layout (kept_by (view_of filer.old)) id
        (λ p. p ≡ end - 1) (view_of filer.old).disk (view_of filer.old).slots (view_of filer.new).disk)
        (view_of filer.old) (view_of filer.new)) }
    ensures accounts { (o : InitialState) (named : Triples) → Keeps o filer.old named
        → MatchResult result
        (λ pages.
        Keeps o filer.new named × AreReleased o (view_of filer.new).disk named id (λ p. (end - pages ≤ p) × (p < end)))
        (ShowsReason o (view_of filer.old).layout (view_of filer.new).disk) }
    ensures stays { MapStays id result (view_of filer.old) (view_of filer.new) }
    ensures writes { MatchResult result
        (λ pages.
        MakesFree pages (view_of filer.old).disk (view_of filer.old).slots (view_of filer.new).disk
        (view_of filer.new).slots)
        (λ _.
        MakesSomeFree (view_of filer.old).disk (view_of filer.old).slots (view_of filer.new).disk
        (view_of filer.new).slots) }
    ensures cost { ((view_of filer.new).disk.transfers ≤ (view_of filer.old).disk.transfers
        + (14 + 2 * (end - from) + 4 * (view_of filer.old).layout.vam))
        × IfOk result
        (λ pages.
        (view_of filer.new).disk.transfers ≤ (view_of filer.old).disk.transfers
        + (14 + 2 * pages + 4 * (view_of filer.old).layout.vam)) }
    ensures own { RelabelsOwn id (view_of filer.old).disk (view_of filer.new).disk }
{
    let run = match last_part(filer, id, from, end) {
        Ok(run) => run,
        Err(halt) => return Err(halt),
    };
    discard_run(filer, run.id, run.first, run.pages);
    match free_labels_down(filer, run) {
        Ok(()) => (),
        Err(halt) => return Err(halt),
    }
    match filer.give(run.sector, run.pages) {
        Ok(()) => (),
        Err(halt) => return Err(halt),
    }
    Ok(run.pages)
}

// Frees the pages of a file below one, down to another, run by run. The file map stays.
pub(crate) fn free_down<D: Disk, A: Allocator>(
    filer: &mut Filer<D, A>,
    id: FileId,
    from: u32,
    end: u32,
) -> Result<(), Halt>
    requires size { FitsLayout (view_of filer.old) }
    requires of_file { 16 ≤ id }
    requires order { from ≤ end }
    ensures freed { (named : Triples) (spaces : List Space) (m : List Sector)
        → MayFree (view_of filer.old).disk (view_of filer.old).slots (view_of filer.old).layout (view_of filer.old).runs
        named spaces id from end m
        → MatchResult result
        (λ _.
        FreedDown (view_of filer.old).layout named spaces id from (end - from) end (view_of filer.old).disk
        (view_of filer.old).slots (view_of filer.new).disk (view_of filer.new).slots (view_of filer.new).runs)
        (λ e.
        (e ≡ halt.Disk)
        × StoppedDown named id (end - from) end (view_of filer.old).disk (view_of filer.old).slots
        (view_of filer.new).disk (view_of filer.new).slots) }
    ensures fails { IfErr result
        (Fails
        (FreeHalts (IsUnframed (view_of filer.old).slots id) (view_of filer.old).layout (kept_by (view_of filer.old)) id
        (λ p. (from ≤ p) × (p < end)) (view_of filer.old).disk (view_of filer.old).slots (view_of filer.new).disk)
        (view_of filer.old) (view_of filer.new)) }
    ensures accounts { (o : InitialState) (named : Triples) → Keeps o filer.old named
        → MatchResult result
        (λ _. Keeps o filer.new named × AreReleased o (view_of filer.new).disk named id (λ p. (from ≤ p) × (p < end)))
        (ShowsReason o (view_of filer.old).layout (view_of filer.new).disk) }
    ensures stays { MapStays id result (view_of filer.old) (view_of filer.new) }
    ensures writes { MatchResult result
        (λ _.
        MakesFree (end - from) (view_of filer.old).disk (view_of filer.old).slots (view_of filer.new).disk
        (view_of filer.new).slots)
        (λ _.
        MakesSomeFree (view_of filer.old).disk (view_of filer.old).slots (view_of filer.new).disk
        (view_of filer.new).slots) }
    ensures cost { (view_of filer.new).disk.transfers ≤ (view_of filer.old).disk.transfers + (end - from)
        * (16 + 4 * (view_of filer.old).layout.vam) }
    ensures own { RelabelsOwn id (view_of filer.old).disk (view_of filer.new).disk }
{
    let mut page = end;
    while from < page {
        match free_last(filer, id, from, page) {
            Ok(pages) => page -= pages,
            Err(halt) => return Err(halt),
        }
    }
    Ok(())
}
