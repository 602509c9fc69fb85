//! Files that get fewer pages: pages are freed, and the file map has them no more.
ghost use Rattle.std.specs.Prelude.{◌≡◌, ◌⊎◌, ◌+◌, ◌-◌, ◌*◌, ◌≤◌, ◌<◌, true, List, IfErr, OnOk, MatchResult};
ghost use Rattle.labelled_disk.specs.Label.{leader_page, is_permanent};
ghost use Rattle.labelled_disk.specs.Sectors.{Sector, AreSectors};
ghost use Rattle.labelled_disk.specs.declared.evidence.Halt.TheVariants as halt;
ghost use Rattle.file_map.specs.FileMap.{Triples, without_from, most_records};
ghost use Rattle.file_map.specs.Cause.{IsToCut};
ghost use Rattle.file_map.specs.Laws.{AreOnce};
ghost use Rattle.flat_machine.specs.declared.space.Space.{Space};
ghost use Rattle.label_calls.specs.Own.{RelabelsOwn};
ghost use Rattle.swapper_kernel.specs.declared.manager.Manager.TheVariants.{FileMap as FileMapPages};
ghost use Rattle.swapper_kernel.specs.Maps.{IsMapHome};
ghost use Rattle.swapper_kernel.specs.Homes.{AreNamed};
ghost use Rattle.swapper_kernel.specs.Stands.{labels_of};
ghost use Rattle.filer_kernel.specs.Becomes.{Becomes};
ghost use Rattle.filer_kernel.specs.Causes.{MapShows, MapHalts, CutHalts, IsFaultOrMismatch};
ghost use Rattle.filer_kernel.specs.Triples.{MapIs};
ghost use Rattle.file_manager.specs.Grounds.{ShrinkHalts, IsUnframed};
ghost use Rattle.session_words.specs.Parts.{Shape, Shapes, IsTriple};
ghost use Rattle.file_manager.specs.Freeing.{MakesFree, MakesSomeFree};
ghost use Rattle.file_manager.specs.Shrinking.{MayShrink, ShrunkBy, ShrunkSome, IsLeaderAlone, cut_triples};
ghost use Rattle.file_manager.specs.Reasons.{AreReleased, Keeps, KeepsFrom, InitialState, ShowsReason};
ghost use Rattle.file_manager.specs.Synced.{SyncsQuietly, LabelsAreSynced};
ghost use Rattle.file_manager.specs.Taking.{NamesNoneOf};
ghost use Rattle.filer_kernel.specs.View.{FitsLayout, HasMemory, kept_by, view_of};
ghost use Rattle.file_manager.specs.Stays.{CutsRuns};
ghost use Rattle.filer_kernel.specs.Fails.{Fails};

use crate::Volume;
use crate::finding::FoundFile;
use crate::growth::frames_of;
use crate::shrinking::free_down;
use crate::syncing::sync_disk;
use file_map::Run;
use filer_kernel::Filer;
use labelled_disk::{Disk, FileId, Halt, LEADER};
use std::alloc::Allocator;

// Takes the pages of a file from one on out of the file map, its leader among them. Then all that was written is on the medium,
// if it is to be.
fn cut_synced<D: Disk, A: Allocator>(
    filer: &mut Filer<D, A>,
    id: FileId,
    from: u32,
    syncs: bool,
) -> Result<(), Halt>
    requires size { FitsLayout (view_of filer.old) }
    ensures cut { (m : List Sector) (named : Triples) → HasMemory (view_of filer.old) m
        → MapIs (view_of filer.old).layout named m
        → MatchResult result
        (λ _.
        Becomes FileMapPages (view_of filer.old).layout m
        (MapIs (view_of filer.old).layout (without_from named id from)) (view_of filer.new).disk
        (view_of filer.new).slots)
        IsFaultOrMismatch }
    ensures stays { CutsRuns id (view_of filer.old) (view_of filer.new) }
    ensures sound { (m : List Sector) (named : Triples) → HasMemory (view_of filer.old) m
        → MapIs (view_of filer.old).layout named m → AreNamed m (IsMapHome FileMapPages (view_of filer.old).layout)
        → IfErr result (λ e. e ≡ halt.Disk) }
    ensures cause { IfErr result
        (λ why.
        CutHalts (view_of filer.old).layout (view_of filer.old).disk (view_of filer.old).slots (view_of filer.new).disk
        (view_of filer.new).slots why
        × (MapHalts (view_of filer.old).layout (view_of filer.old).disk (view_of filer.old).slots
        (view_of filer.new).disk why
        ⊎ IsToCut id from (MapShows (view_of filer.old).layout (view_of filer.old).disk (view_of filer.old).slots))) }
    ensures cost { (view_of filer.new).disk.transfers ≤ (view_of filer.old).disk.transfers + 2
        * (1 + 51 * most_records (view_of filer.old).layout.sectors) }
    ensures synced { syncs ≡ true → OnOk result (SyncsQuietly (view_of filer.old).disk (view_of filer.new).disk) }
{
    match filer.cut(id, from) {
        Ok(()) => (),
        Err(halt) => return Err(halt),
    }
    if !syncs {
        return Ok(());
    }
    match sync_disk(filer) {
        Ok(()) => Ok(()),
        Err(halt) => Err(halt),
    }
}

// Takes the pages of a file from one on out of the file map, and puts its leader, which stands in this sector, in again.
fn cut_to<D: Disk, A: Allocator>(
    filer: &mut Filer<D, A>,
    id: FileId,
    from: u32,
    leader: u32,
    syncs: bool,
) -> Result<(), Halt>
    requires size { FitsLayout (view_of filer.old) }
    requires of_file { 16 ≤ id }
    requires data { (view_of filer.old).layout.first ≤ leader }
    requires inside { leader < (view_of filer.old).layout.sectors }
    ensures cut { (m : List Sector) (named : Triples) → HasMemory (view_of filer.old) m
        → MapIs (view_of filer.old).layout named m
        → OnOk result
        (Becomes FileMapPages (view_of filer.old).layout m
        (MapIs (view_of filer.old).layout (cut_triples named id from leader)) (view_of filer.new).disk
        (view_of filer.new).slots) }
    ensures in_form { OnOk result ((y : List Sector) → HasMemory (view_of filer.new) y → AreSectors y) }
    ensures sound { (m : List Sector) (named : Triples) → HasMemory (view_of filer.old) m
        → MapIs (view_of filer.old).layout named m → AreNamed m (IsMapHome FileMapPages (view_of filer.old).layout)
        → AreOnce named → IsLeaderAlone named id leader → IfErr result (λ e. e ≡ halt.Disk) }
    ensures stays { CutsRuns id (view_of filer.old) (view_of filer.new) }
    ensures fails { IfErr result
        (Fails
        (ShrinkHalts (IsUnframed (view_of filer.old).slots id) (view_of filer.old).layout (kept_by (view_of filer.old))
        id from (λ p. ⊥) (view_of filer.old).disk (view_of filer.old).slots (view_of filer.new).disk
        (view_of filer.new).slots)
        (view_of filer.old) (view_of filer.new)) }
    ensures accounts { (o : InitialState) (named : Triples) → Keeps o filer.old named
        → named id leader_page leader ≡ true
        → MatchResult result
        (λ _.
        AreReleased o (view_of filer.old).disk named id (λ p. (from ≤ p) × (p < 4294967295))
        → KeepsFrom o named filer.new)
        (ShowsReason o (view_of filer.old).layout (view_of filer.new).disk) }
    ensures cost { (view_of filer.new).disk.transfers ≤ (view_of filer.old).disk.transfers
        + (100 + 102 * most_records (view_of filer.old).layout.sectors) }
    ensures synced { syncs ≡ true → OnOk result (SyncsQuietly (view_of filer.old).disk (view_of filer.new).disk) }
{
    match cut_synced(filer, id, from, syncs) {
        Ok(()) => (),
        Err(halt) => return Err(halt),
    }
    let run = Run {
        id,
        first: LEADER,
        pages: 1,
        sector: leader,
    };
    match filer.add(run) {
        Ok(()) => (),
        Err(halt) => return Err(halt),
    }
    frames_of(filer);
    Ok(())
}

// Frees the pages of a file from one on, the last one first. Its leader stands in this sector.
pub(crate) fn shrink<D: Disk, A: Allocator>(
    filer: &mut Filer<D, A>,
    volume: &mut Volume,
    id: FileId,
    file: FoundFile,
    pages: u32,
) -> Result<(), Halt>
    requires sectors { FitsLayout (view_of filer.old) }
    requires of_file { 16 ≤ id }
    requires place { ((view_of filer.old).layout.first ≤ file.sector)
        × (file.sector < (view_of filer.old).layout.sectors) }
    requires order { pages ≤ file.pages }
    ensures shrunk { (x : List Sector) (shapes : Shapes) (spaces : List Space) (f : Shape)
        → MayShrink (view_of filer.old).disk (view_of filer.old).slots (view_of filer.old).layout
        (view_of filer.old).runs shapes spaces id f pages x
        → f.size ≡ file.pages → IsTriple (labels_of x) id leader_page file.sector
        → MatchResult result
        (λ _.
        ShrunkBy id pages file.pages x (view_of filer.old).disk (view_of filer.old).slots (view_of filer.old).layout
        (view_of filer.new).disk (view_of filer.new).slots (view_of filer.new).runs)
        (λ e.
        (e ≡ halt.Disk)
        × ShrunkSome id pages file.pages x (view_of filer.old).disk (view_of filer.old).slots (view_of filer.new).disk
        (view_of filer.new).slots) }
    ensures fails { IfErr result
        (Fails
        (ShrinkHalts (IsUnframed (view_of filer.old).slots id) (view_of filer.old).layout (kept_by (view_of filer.old))
        id pages (λ p. (pages ≤ p) × (p < file.pages)) (view_of filer.old).disk (view_of filer.old).slots
        (view_of filer.new).disk (view_of filer.new).slots)
        (view_of filer.old) (view_of filer.new)) }
    ensures accounts { (o : InitialState) (named : Triples) → Keeps o filer.old named
        → named id leader_page file.sector ≡ true
        → MatchResult result
        (λ _. NamesNoneOf id (λ p. (file.pages ≤ p) × (p < 4294967295)) named → KeepsFrom o named filer.new)
        (ShowsReason o (view_of filer.old).layout (view_of filer.new).disk) }
    ensures writes { MatchResult result
        (λ _.
        MakesFree (file.pages - pages) (view_of filer.old).disk (view_of filer.old).slots (view_of filer.new).disk
        (view_of filer.new).slots)
        (λ _.
        MakesSomeFree (view_of filer.old).disk (view_of filer.old).slots (view_of filer.new).disk
        (view_of filer.new).slots) }
    ensures volume { MatchResult result
        (λ _. volume.new ≡ record volume.old { used = volume.old.used - (file.pages - pages) })
        (λ _. volume.new ≡ volume.old) }
    ensures layout { (view_of filer.new).layout ≡ (view_of filer.old).layout }
    ensures cost { (view_of filer.new).disk.transfers ≤ (view_of filer.old).disk.transfers
        + ((file.pages - pages) * (16 + 4 * (view_of filer.old).layout.vam)
        + (100 + 102 * most_records (view_of filer.old).layout.sectors)) }
    ensures labels { RelabelsOwn id (view_of filer.old).disk (view_of filer.new).disk
        × (is_permanent file.leader ≡ true
        → OnOk result (LabelsAreSynced (view_of filer.old).disk (view_of filer.new).disk)) }
{
    match free_down(filer, id, pages, file.pages) {
        Ok(()) => (),
        Err(halt) => return Err(halt),
    }
    let syncs = file.leader.marks().permanent;
    match cut_to(filer, id, pages, file.sector, syncs) {
        Ok(()) => (),
        Err(halt) => return Err(halt),
    }
    volume.used = volume.used.saturating_sub(file.pages - pages);
    Ok(())
}
