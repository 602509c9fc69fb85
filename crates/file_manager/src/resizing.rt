//! Files that get another size.
ghost use Rattle.std.specs.Prelude.{◌≡◌, ◌+◌, ◌-◌, ◌*◌, ◌≤◌, ◌<◌, true, List, IfErr, Err, Some, MatchResult};
ghost use Rattle.labelled_disk.specs.declared.evidence.Halt.TheVariants as halt;
ghost use Rattle.labelled_disk.specs.Label.{is_file_id};
ghost use Rattle.labelled_disk.specs.Sectors.{Sector};
ghost use Rattle.file_map.specs.FileMap.{Triples, most_records};
ghost use Rattle.flat_machine.specs.declared.space.Space.{Space};
ghost use Rattle.label_calls.specs.Own.{RelabelsOwn};
ghost use Rattle.session_words.specs.Parts.{Shape, Shapes};
ghost use Rattle.file_manager.specs.Grounds.{ResizeHalts};
ghost use Rattle.file_manager.specs.Book.{Books};
ghost use Rattle.file_manager.specs.Resizing.{Resizes, ResizesSome};
ghost use Rattle.file_manager.specs.Reasons.{Keeps, KeepsFrom, InitialState, ShowsReason};
ghost use Rattle.filer_kernel.specs.View.{FitsLayout, kept_by, view_of};
ghost use Rattle.file_manager.specs.Outcomes.{ResizesFile};
ghost use Rattle.file_manager.specs.Stays.{KeepsRoot, UsesWithin};
ghost use Rattle.filer_kernel.specs.Fails.{Fails};

use crate::Volume;
use crate::cutting::shrink;
use crate::finding::find_file;
use crate::growing::grow;
use filer_kernel::Filer;
use labelled_disk::{Disk, Evidence, FileId, Halt, LEADER};
use std::alloc::Allocator;

/// Gives a file so many pages: others of zeros after those that it has, or the first of them alone.
pub fn set_size<D: Disk, A: Allocator>(
    filer: &mut Filer<D, A>,
    volume: &mut Volume,
    id: FileId,
    pages: u32,
) -> Result<(), Halt>
    requires sectors { FitsLayout (view_of filer.old) }
    requires of_file { is_file_id id ≡ true }
    requires numbers { pages < 4294967295 }
    ensures resized { (x : List Sector) (shapes : Shapes) (spaces : List Space) (f : Shape)
        → Books (view_of filer.old).disk (view_of filer.old).slots (view_of filer.old).layout (view_of filer.old).runs
        shapes spaces x
        → shapes id ≡ Some f
        → ResizesFile result id pages f shapes spaces x volume.old volume.new (view_of filer.old) (view_of filer.new) }
    ensures volume { UsesWithin result volume.old volume.new }
    ensures writes { MatchResult result
        (λ _.
        Resizes id pages (view_of filer.old).disk (view_of filer.old).slots (view_of filer.new).disk
        (view_of filer.new).slots)
        (λ _.
        ResizesSome id pages (view_of filer.old).disk (view_of filer.old).slots (view_of filer.new).disk
        (view_of filer.new).slots) }
    ensures fails { IfErr result
        (Fails
        (ResizeHalts (view_of filer.old).layout (kept_by (view_of filer.old)) id pages (view_of filer.old).disk
        (view_of filer.old).slots (view_of filer.new).disk (view_of filer.new).slots)
        (view_of filer.old) (view_of filer.new)) }
    ensures accounts { (o : InitialState) (named : Triples) → Keeps o filer.old named
        → MatchResult result (λ _. KeepsFrom o named filer.new)
        (ShowsReason o (view_of filer.old).layout (view_of filer.new).disk) }
    ensures stays { KeepsRoot (view_of filer.old) (view_of filer.new) }
    ensures cost { (view_of filer.new).disk.transfers ≤ (view_of filer.old).disk.transfers
        + (129 + 4294967295 * (8 * (view_of filer.old).layout.vam + 101) + 102 * most_records
        (view_of filer.old).layout.sectors) }
    ensures own { RelabelsOwn id (view_of filer.old).disk (view_of filer.new).disk }
{
    let file = match find_file(filer, id, true) {
        Ok(Some(file)) => file,
        Ok(None) => {
            return Err(Halt::Damaged(Evidence::Missing { id, page: LEADER }));
        }
        Err(halt) => return Err(halt),
    };
    if file.pages <= pages {
        match grow(filer, volume, id, file.leader, file.pages, pages) {
            Ok(()) => Ok(()),
            Err(halt) => Err(halt),
        }
    } else {
        match shrink(filer, volume, id, file, pages) {
            Ok(()) => Ok(()),
            Err(halt) => Err(halt),
        }
    }
}
