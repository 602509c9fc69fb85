//! Files that are deleted.
ghost use Rattle.std.specs.Prelude.{◌≡◌, ◌+◌, ◌-◌, ◌*◌, ◌^◌, ◌≤◌, List, Some, IfErr, Err, MatchResult};
ghost use Rattle.labelled_disk.specs.declared.evidence.Halt.TheVariants as halt;
ghost use Rattle.labelled_disk.specs.Sectors.{Sector};
ghost use Rattle.file_map.specs.FileMap.{Triples, most_records};
ghost use Rattle.flat_machine.specs.declared.space.Space.{Space};
ghost use Rattle.session_words.specs.Parts.{Shape, Shapes};
ghost use Rattle.file_manager.specs.Grounds.{DeleteHalts};
ghost use Rattle.file_manager.specs.Book.{Books};
ghost use Rattle.file_manager.specs.Deleting.{MakesOneFree};
ghost use Rattle.file_manager.specs.Freeing.{MakesSomeFree};
ghost use Rattle.file_manager.specs.Reasons.{Keeps, KeepsFrom, InitialState, ShowsReason};
ghost use Rattle.filer_kernel.specs.View.{FitsLayout, kept_by, view_of};
ghost use Rattle.file_manager.specs.Outcomes.{Deletes};
ghost use Rattle.label_calls.specs.Synced.{RelabelsAround};
ghost use Rattle.file_manager.specs.Stays.{KeepsRoot, UsesLess};
ghost use Rattle.filer_kernel.specs.Fails.{Fails};

use crate::Volume;
use crate::free_all::free_all;
use crate::growth::frames_of;
use filer_kernel::Filer;
use labelled_disk::{Disk, FileId, Halt};
use std::alloc::Allocator;

/// Deletes a file: its leader becomes free, then its pages from 0 up, and the file map has none of them. No window shows
/// a page of it.
pub fn delete<D: Disk, A: Allocator>(
    filer: &mut Filer<D, A>,
    volume: &mut Volume,
    id: FileId,
) -> Result<(), Halt>
    requires size { FitsLayout (view_of filer.old) }
    requires client { 16 ≤ id }
    ensures deleted { (x : List Sector) (shapes : Shapes) (spaces : List Space) (f : Shape)
        → Books (view_of filer.old).disk (view_of filer.old).slots (view_of filer.old).layout (view_of filer.old).runs
        shapes spaces x
        → shapes id ≡ Some f
        → Deletes result id f.size spaces x volume.old volume.new (view_of filer.old) (view_of filer.new) }
    ensures volume { UsesLess result volume.old volume.new }
    ensures writes { MatchResult result
        (λ _.
        MakesOneFree (view_of filer.old).disk (view_of filer.old).slots (view_of filer.new).disk
        (view_of filer.new).slots)
        (λ _.
        MakesSomeFree (view_of filer.old).disk (view_of filer.old).slots (view_of filer.new).disk
        (view_of filer.new).slots) }
    ensures fails { IfErr result
        (Fails
        (DeleteHalts (view_of filer.old).layout (kept_by (view_of filer.old)) id (view_of filer.old).disk
        (view_of filer.old).slots (view_of filer.new).disk)
        (view_of filer.old) (view_of filer.new)) }
    ensures accounts { (o : InitialState) (named : Triples) → Keeps o filer.old named
        → MatchResult result (λ _. KeepsFrom o named filer.new)
        (ShowsReason o (view_of filer.old).layout (view_of filer.new).disk) }
    ensures stays { KeepsRoot (view_of filer.old) (view_of filer.new) }
    ensures cost { (view_of filer.new).disk.transfers ≤ (view_of filer.old).disk.transfers
        + (14 + 2 ^ 32 * (16 + 4 * (view_of filer.old).layout.vam) + 2
        * (1 + 51 * most_records (view_of filer.old).layout.sectors)) }
    ensures labels { RelabelsAround id result (view_of filer.old).disk (view_of filer.new).disk }
{
    let pages = match filer.size(id) {
        Ok(pages) => pages,
        Err(halt) => return Err(halt),
    };
    match free_all(filer, id, pages) {
        Ok(()) => (),
        Err(halt) => return Err(halt),
    }
    match filer.cut(id, 0) {
        Ok(()) => (),
        Err(halt) => return Err(halt),
    }
    frames_of(filer);
    volume.used = volume.used.saturating_sub(pages).saturating_sub(1);
    Ok(())
}
