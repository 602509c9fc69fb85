//! All pages of a file that become free, its leader first.
ghost use Rattle.std.specs.Prelude.{◌≡◌, ◌+◌, ◌*◌, ◌≤◌, List, IfErr, Err, ◌<◌, ◌⊎◌, MatchResult};
ghost use Rattle.labelled_disk.specs.declared.evidence.Halt.TheVariants as halt;
ghost use Rattle.labelled_disk.specs.Sectors.{Sector};
ghost use Rattle.file_map.specs.FileMap.{Triples};
ghost use Rattle.flat_machine.specs.declared.space.Space.{Space};
ghost use Rattle.file_manager.specs.Grounds.{FreeHalts, IsUnframed};
ghost use Rattle.labelled_disk.specs.Label.{leader_page};
ghost use Rattle.file_manager.specs.Freeing.{MayFreeAll, FreedAll, FreedFirst, MakesFree, MakesSomeFree};
ghost use Rattle.file_manager.specs.Reasons.{AreReleased, Keeps, InitialState, ShowsReason};
ghost use Rattle.filer_kernel.specs.View.{FitsLayout, kept_by, view_of};
ghost use Rattle.label_calls.specs.Synced.{RelabelsAround};
ghost use Rattle.file_manager.specs.Stays.{MapStays};
ghost use Rattle.filer_kernel.specs.Fails.{Fails};

use crate::release::{free_run, free_up};
use filer_kernel::Filer;
use labelled_disk::{Disk, FileId, Halt, LEADER};
use std::alloc::Allocator;

// Frees the leader of a file, and then its pages from 0 up. The file map stays.
pub(crate) fn free_all<D: Disk, A: Allocator>(
    filer: &mut Filer<D, A>,
    id: FileId,
    pages: u32,
) -> Result<(), Halt>
    requires size { FitsLayout (view_of filer.old) }
    requires of_file { 16 ≤ id }
    ensures freed { (named : Triples) (spaces : List Space) (m : List Sector)
        → MayFreeAll (view_of filer.old).disk (view_of filer.old).slots (view_of filer.old).layout
        (view_of filer.old).runs named spaces id pages m
        → MatchResult result
        (λ _.
        FreedAll (view_of filer.old).layout named spaces id pages (view_of filer.old).disk (view_of filer.old).slots
        (view_of filer.new).disk (view_of filer.new).slots (view_of filer.new).runs)
        (λ e.
        (e ≡ halt.Disk)
        × FreedFirst named id pages (view_of filer.old).disk (view_of filer.old).slots (view_of filer.new).disk
        (view_of filer.new).slots) }
    ensures writes { MatchResult result
        (λ _.
        MakesFree (1 + pages) (view_of filer.old).disk (view_of filer.old).slots (view_of filer.new).disk
        (view_of filer.new).slots)
        (λ _.
        MakesSomeFree (view_of filer.old).disk (view_of filer.old).slots (view_of filer.new).disk
        (view_of filer.new).slots) }
    ensures fails { IfErr result
        (Fails
        (FreeHalts (IsUnframed (view_of filer.old).slots id) (view_of filer.old).layout (kept_by (view_of filer.old)) id
        (λ p. (p ≡ leader_page) ⊎ (p < pages)) (view_of filer.old).disk (view_of filer.old).slots
        (view_of filer.new).disk)
        (view_of filer.old) (view_of filer.new)) }
    ensures accounts { (o : InitialState) (named : Triples) → Keeps o filer.old named
        → MatchResult result
        (λ _.
        Keeps o filer.new named
        × AreReleased o (view_of filer.new).disk named id (λ p. (p ≡ leader_page) ⊎ (p < pages)))
        (ShowsReason o (view_of filer.old).layout (view_of filer.new).disk) }
    ensures stays { MapStays id result (view_of filer.old) (view_of filer.new) }
    ensures cost { (view_of filer.new).disk.transfers ≤ (view_of filer.old).disk.transfers + (1 + pages)
        * (16 + 4 * (view_of filer.old).layout.vam) }
    ensures labels { RelabelsAround id result (view_of filer.old).disk (view_of filer.new).disk }
{
    match free_run(filer, id, LEADER, 1) {
        Ok(_) => (),
        Err(halt) => return Err(halt),
    }
    match free_up(filer, id, 0, pages) {
        Ok(()) => Ok(()),
        Err(halt) => Err(halt),
    }
}
