//! Where the leader of a file stands.
ghost use Rattle.std.specs.Prelude.{◌≡◌, ℕ, ◌+◌, ◌≤◌, ◌<◌, true, List, IfOk, IfErr, IfSome, MatchResult, Ok, Err, None};
ghost use Rattle.labelled_disk.specs.Label.{leader_page};
ghost use Rattle.labelled_disk.specs.Sectors.{Sector};
ghost use Rattle.labelled_disk.specs.declared.evidence.Halt.TheVariants as halt;
ghost use Rattle.flat_machine.specs.declared.space.Space.{Space};
ghost use Rattle.swapper_kernel.specs.Homes.{home_at};
ghost use Rattle.swapper_kernel.specs.Stands.{labels_of};
ghost use Rattle.session_words.specs.Parts.{Shapes};
ghost use Rattle.filer_kernel.specs.Causes.{MapHalts, IsRunHome};
ghost use Rattle.filer_kernel.specs.Triples.{MapIs, AreOf};
ghost use Rattle.file_map.specs.FileMap.{Triples};
ghost use Rattle.file_manager.specs.Answer.{IsLeaderOf};
ghost use Rattle.file_manager.specs.Book.{BooksUpto};
ghost use Rattle.file_manager.specs.Causes.{NamesNone};
ghost use Rattle.file_manager.specs.Reasons.{Keeps, InitialState, ShowsReason};
ghost use Rattle.filer_kernel.specs.View.{FitsLayout, HasMemory, kept_by, view_of};
ghost use Rattle.file_manager.specs.Stays.{Searches};
ghost use Rattle.filer_kernel.specs.Fails.{Fails};

use filer_kernel::Filer;
use labelled_disk::{Disk, FileId, Halt, LEADER};
use std::alloc::Allocator;

// The sector of the leader of a file, or none where the file map has no leader of it.
pub(crate) fn leader_of<D: Disk, A: Allocator>(
    filer: &mut Filer<D, A>,
    id: FileId,
) -> Result<Option<u32>, Halt>
    requires size { FitsLayout (view_of filer.old) }
    requires client { 16 ≤ id }
    ensures revealed { (tables : ℕ) (x : List Sector) (shapes : Shapes) (spaces : List Space)
        → BooksUpto tables (view_of filer.old).disk (view_of filer.old).slots (view_of filer.old).layout
        (view_of filer.old).runs shapes spaces x
        → MatchResult result (IsLeaderOf (labels_of x) shapes id) (λ e. e ≡ halt.Disk)
        × BooksUpto tables (view_of filer.new).disk (view_of filer.new).slots (view_of filer.old).layout
        (view_of filer.new).runs shapes spaces x }
    ensures found { IfOk result
        (λ found.
        IfSome found
        (λ sector. ((view_of filer.old).layout.first ≤ sector) × (sector < (view_of filer.old).layout.sectors))
        × IfSome found
        (λ sector.
        IsRunHome (view_of filer.old).layout (view_of filer.old).disk (view_of filer.old).slots
        (kept_by (view_of filer.old)) (home_at sector (record { id = id; page = leader_page })))) }
    ensures stays { Searches id (view_of filer.old) (view_of filer.new) }
    ensures names { (m : List Sector) (named : Triples) → HasMemory (view_of filer.old) m
        → MapIs (view_of filer.old).layout named m → AreOf named (kept_by (view_of filer.old))
        → IfOk result (λ found. IfSome found (λ sector. named id leader_page sector ≡ true)) }
    ensures missing { result ≡ Ok None
        → NamesNone (view_of filer.old).layout (view_of filer.old).disk (view_of filer.old).slots id leader_page }
    ensures fails { IfErr result
        (Fails
        (MapHalts (view_of filer.old).layout (view_of filer.old).disk (view_of filer.old).slots
        (view_of filer.new).disk)
        (view_of filer.old) (view_of filer.new)) }
    ensures accounts { (o : InitialState) (named : Triples) → Keeps o filer.old named
        → MatchResult result (λ _. Keeps o filer.new named)
        (ShowsReason o (view_of filer.old).layout (view_of filer.new).disk) }
    ensures cost { (view_of filer.new).disk.transfers ≤ (view_of filer.old).disk.transfers + 14 }
{
    match filer.find(id, LEADER) {
        Ok(Some(run)) => Ok(Some(run.sector + (LEADER - run.first))),
        Ok(None) => Ok(None),
        Err(halt) => Err(halt),
    }
}
