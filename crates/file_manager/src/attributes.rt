//! What a client may ask of a file.
ghost use Rattle.std.specs.Prelude.{◌≡◌, ◌⊎◌, ℕ, ◌+◌, ◌≤◌, ◌<◌, true, List, Ok, Err, None, IfOk, IfSome, IfErr, MatchResult};
ghost use Rattle.labelled_disk.specs.Label.{leader_page};
ghost use Rattle.labelled_disk.specs.Sectors.{Sector};
ghost use Rattle.labelled_disk.specs.declared.evidence.Halt.TheVariants as halt;
ghost use Rattle.file_map.specs.FileMap.{IsSize, Triples};
ghost use Rattle.flat_machine.specs.declared.space.Space.{Space};
ghost use Rattle.session_words.specs.Parts.{Shapes};
ghost use Rattle.filer_kernel.specs.Triples.{AreOf, MapIs};
ghost use Rattle.file_manager.specs.Attributes.{HasLeader, IsAttributesOf};
ghost use Rattle.file_manager.specs.Book.{BooksUpto};
ghost use Rattle.file_manager.specs.Causes.{NamesNone};
ghost use Rattle.file_manager.specs.Finding.{FileHalts};
ghost use Rattle.file_manager.specs.Reasons.{Keeps, InitialState, ShowsReason};
ghost use Rattle.filer_kernel.specs.View.{FitsLayout, HasMemory, kept_by, view_of};
ghost use Rattle.file_manager.specs.Stays.{LooksAlone};
ghost use Rattle.filer_kernel.specs.Fails.{Fails};

use crate::finding::find_file;
use crate::growth::frames_of;
use filer_kernel::Filer;
use labelled_disk::{Disk, FileId, Halt};
use std::alloc::Allocator;

/// Size, type and marks of a file.
#[derive(Clone, Copy, Debug, PartialEq, Eq)]
pub struct Attributes {
    pub pages: u32,
    pub kind: u16,
    pub permanent: bool,
    pub immutable: bool,
}

/// Identifiers below this one are no client's.
const FIRST_CLIENT: FileId = 16;

/// Size, type and marks of a file; None where there is no such file.
pub fn attributes_of<D: Disk, A: Allocator>(
    filer: &mut Filer<D, A>,
    id: FileId,
) -> Result<Option<Attributes>, Halt>
    requires size { FitsLayout (view_of filer.old) }
    ensures revealed { (tables : ℕ) (x : List Sector) (shapes : Shapes) (spaces : List Space)
        → BooksUpto tables (view_of filer.old).disk (view_of filer.old).slots (view_of filer.old).layout
        (view_of filer.old).runs shapes spaces x
        → MatchResult result (IsAttributesOf (shapes id)) (λ e. e ≡ halt.Disk)
        × BooksUpto tables (view_of filer.new).disk (view_of filer.new).slots (view_of filer.old).layout
        (view_of filer.new).runs shapes spaces x }
    ensures reserved { id < 16 → (result ≡ Ok None) × (filer.new ≡ filer.old) }
    ensures named { (m : List Sector) (named : Triples) → HasMemory (view_of filer.old) m
        → MapIs (view_of filer.old).layout named m
        → IfOk result
        (λ found.
        IfSome found (λ a. IsSize named id a.pages)
        × (AreOf named (kept_by (view_of filer.old))
        → IfSome found (λ _. (sector : ℕ) × (named id leader_page sector ≡ true)))) }
    ensures marked { IfOk result (λ found. IfSome found (λ a. HasLeader (view_of filer.new).disk id a.permanent)) }
    ensures none { result ≡ Ok None
        → (id < 16)
        ⊎ NamesNone (view_of filer.old).layout (view_of filer.old).disk (view_of filer.old).slots id leader_page }
    ensures fails { IfErr result
        (Fails
        (FileHalts (view_of filer.old).layout (kept_by (view_of filer.old)) id (view_of filer.old).disk
        (view_of filer.old).slots (view_of filer.new).disk)
        (view_of filer.old) (view_of filer.new)) }
    ensures accounts { (o : InitialState) (named : Triples) → Keeps o filer.old named
        → MatchResult result (λ _. Keeps o filer.new named)
        (ShowsReason o (view_of filer.old).layout (view_of filer.new).disk) }
    ensures stays { LooksAlone (view_of filer.old) (view_of filer.new) }
    ensures cost { (view_of filer.new).disk.transfers ≤ (view_of filer.old).disk.transfers + 29 }
{
    if id < FIRST_CLIENT {
        return Ok(None);
    }
    frames_of(filer);
    match find_file(filer, id, false) {
        Ok(Some(file)) => {
            let marks = file.leader.marks();
            Ok(Some(Attributes {
                pages: file.pages,
                kind: file.leader.kind,
                permanent: marks.permanent,
                immutable: marks.immutable,
            }))
        }
        Ok(None) => Ok(None),
        Err(halt) => Err(halt),
    }
}
