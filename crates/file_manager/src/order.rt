//! The files in the order of their identifiers.
ghost use Rattle.std.specs.Prelude.{◌≡◌, ◌+◌, ◌<◌, ◌≤◌, List, IfOk, IfErr, IfSome, MatchResult, Err};
ghost use Rattle.labelled_disk.specs.Sectors.{Sector};
ghost use Rattle.labelled_disk.specs.declared.evidence.Halt.TheVariants as halt;
ghost use Rattle.file_map.specs.FileMap.{Triples};
ghost use Rattle.flat_machine.specs.declared.space.Space.{Space};
ghost use Rattle.session_words.specs.Parts.{Shapes};
ghost use Rattle.filer_kernel.specs.Causes.{MapHalts};
ghost use Rattle.file_manager.specs.Answer.{IsNextFile};
ghost use Rattle.file_manager.specs.Book.{Books};
ghost use Rattle.file_manager.specs.Reasons.{Keeps, InitialState, ShowsReason};
ghost use Rattle.filer_kernel.specs.View.{FitsLayout, view_of};
ghost use Rattle.file_manager.specs.Stays.{LooksAlone};
ghost use Rattle.filer_kernel.specs.Fails.{Fails};

use crate::growth::frames_of;
use filer_kernel::Filer;
use labelled_disk::{Disk, FileId, Halt};
use std::alloc::Allocator;

/// The least identifier above this one of which the file map has a page, and at least 16; None where there is none.
pub fn next<D: Disk, A: Allocator>(
    filer: &mut Filer<D, A>,
    id: FileId,
) -> Result<Option<FileId>, Halt>
    requires size { FitsLayout (view_of filer.old) }
    ensures revealed { (x : List Sector) (shapes : Shapes) (spaces : List Space)
        → Books (view_of filer.old).disk (view_of filer.old).slots (view_of filer.old).layout (view_of filer.old).runs
        shapes spaces x
        → MatchResult result (IsNextFile shapes id) (λ e. e ≡ halt.Disk)
        × Books (view_of filer.new).disk (view_of filer.new).slots (view_of filer.old).layout (view_of filer.new).runs
        shapes spaces x }
    ensures above { IfOk result (λ found. IfSome found (λ next. (id < next) × (16 ≤ next))) }
    ensures stays { LooksAlone (view_of filer.old) (view_of filer.new) }
    ensures fails { IfErr result
        (Fails
        (MapHalts (view_of filer.old).layout (view_of filer.old).disk (view_of filer.old).slots
        (view_of filer.new).disk)
        (view_of filer.old) (view_of filer.new)) }
    ensures accounts { (o : InitialState) (named : Triples) → Keeps o filer.old named
        → MatchResult result (λ _. Keeps o filer.new named)
        (ShowsReason o (view_of filer.old).layout (view_of filer.new).disk) }
    ensures cost { (view_of filer.new).disk.transfers ≤ (view_of filer.old).disk.transfers + 36 }
{
    frames_of(filer);
    match filer.next_file(id) {
        Ok(found) => Ok(found),
        Err(halt) => Err(halt),
    }
}
