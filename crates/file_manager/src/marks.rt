//! Marks that a file gets for good.
ghost use Rattle.std.specs.Prelude.{◌≡◌, ℕ, ◌+◌, ◌≤◌, false, List, Some, IfErr, Err, MatchResult};
ghost use Rattle.labelled_disk.specs.declared.evidence.Halt.TheVariants as halt;
ghost use Rattle.labelled_disk.specs.Label.{leader_page};
ghost use Rattle.labelled_disk.specs.Sectors.{Sector};
ghost use Rattle.file_map.specs.FileMap.{Triples};
ghost use Rattle.flat_machine.specs.declared.space.Space.{Space};
ghost use Rattle.session_words.specs.FrameLaws.{is_shown};
ghost use Rattle.session_words.specs.Parts.{Shape, Shapes};
ghost use Rattle.label_calls.specs.Labels.{with_mark};
ghost use Rattle.label_laws.specs.Marks.{permanent_label, immutable_label};
ghost use Rattle.label_calls.specs.declared.page.Mark.TheVariants.{Permanent, Immutable};
ghost use Rattle.file_manager.specs.Answer.{IsMarked, WritesMark};
ghost use Rattle.file_manager.specs.Book.{BooksUpto};
ghost use Rattle.file_manager.specs.Broken.{MarksFirst};
ghost use Rattle.file_manager.specs.Causes.{LeaderHalts};
ghost use Rattle.file_manager.specs.Reasons.{Keeps, InitialState, ShowsReason};
ghost use Rattle.filer_kernel.specs.View.{FitsLayout, kept_by, view_of};
ghost use Rattle.label_calls.specs.Synced.{RelabelsAround};
ghost use Rattle.file_manager.specs.Stays.{KeepsRoot};
ghost use Rattle.filer_kernel.specs.Fails.{Fails};

use crate::leader::leader_of;
use filer_kernel::Filer;
use label_calls::{Mark, mark_leader};
use labelled_disk::{Disk, Evidence, FileId, Halt, LEADER};
use std::alloc::Allocator;

// Gives a file a mark.
fn mark<D: Disk, A: Allocator>(filer: &mut Filer<D, A>, id: FileId, mark: Mark) -> Result<(), Halt>
    requires size { FitsLayout (view_of filer.old) }
    requires client { 16 ≤ id }
    ensures revealed { (tables : ℕ) (x : List Sector) (shapes : Shapes) (spaces : List Space) (f : Shape)
        → BooksUpto tables (view_of filer.old).disk (view_of filer.old).slots (view_of filer.old).layout
        (view_of filer.old).runs shapes spaces x
        → shapes id ≡ Some f
        → MatchResult result
        (λ _.
        is_shown spaces id leader_page ≡ false
        → IsMarked id (with_mark mark) x (view_of filer.old).disk (view_of filer.old).slots (view_of filer.old).layout
        (view_of filer.new).disk (view_of filer.new).slots (view_of filer.new).runs)
        (λ e.
        (e ≡ halt.Disk)
        × MarksFirst id (with_mark mark) x (view_of filer.old).disk (view_of filer.old).slots (view_of filer.new).disk
        (view_of filer.new).slots) }
    ensures makes { WritesMark mark (view_of filer.old).disk (view_of filer.old).slots (view_of filer.new).disk
        (view_of filer.new).slots }
    ensures fails { IfErr result
        (Fails
        (LeaderHalts (view_of filer.old).layout (kept_by (view_of filer.old)) id (view_of filer.old).disk
        (view_of filer.old).slots (view_of filer.new).disk)
        (view_of filer.old) (view_of filer.new)) }
    ensures accounts { (o : InitialState) (named : Triples) → Keeps o filer.old named
        → MatchResult result (λ _. Keeps o filer.new named)
        (ShowsReason o (view_of filer.old).layout (view_of filer.new).disk) }
    ensures stays { KeepsRoot (view_of filer.old) (view_of filer.new) }
    ensures cost { (view_of filer.new).disk.transfers ≤ (view_of filer.old).disk.transfers + 16 }
    ensures labels { RelabelsAround id result (view_of filer.old).disk (view_of filer.new).disk }
{
    let sector = match leader_of(filer, id) {
        Ok(Some(sector)) => sector,
        Ok(None) => {
            return Err(Halt::Damaged(Evidence::Missing { id, page: LEADER }));
        }
        Err(halt) => return Err(halt),
    };
    let swapper = filer.swapper_over();
    match mark_leader(swapper, sector, id, mark) {
        Ok(()) => (),
        Err(halt) => return Err(halt),
    }
    Ok(())
}

/// Makes a file permanent for good: its leader gets the mark, in one write. No window shows the leader's page.
pub fn make_permanent<D: Disk, A: Allocator>(
    filer: &mut Filer<D, A>,
    id: FileId,
) -> Result<(), Halt>
    requires size { FitsLayout (view_of filer.old) }
    requires client { 16 ≤ id }
    ensures revealed { (tables : ℕ) (x : List Sector) (shapes : Shapes) (spaces : List Space) (f : Shape)
        → BooksUpto tables (view_of filer.old).disk (view_of filer.old).slots (view_of filer.old).layout
        (view_of filer.old).runs shapes spaces x
        → shapes id ≡ Some f
        → MatchResult result
        (λ _.
        is_shown spaces id leader_page ≡ false
        → IsMarked id permanent_label x (view_of filer.old).disk (view_of filer.old).slots (view_of filer.old).layout
        (view_of filer.new).disk (view_of filer.new).slots (view_of filer.new).runs)
        (λ e.
        (e ≡ halt.Disk)
        × MarksFirst id permanent_label x (view_of filer.old).disk (view_of filer.old).slots (view_of filer.new).disk
        (view_of filer.new).slots) }
    ensures makes { WritesMark Permanent (view_of filer.old).disk (view_of filer.old).slots (view_of filer.new).disk
        (view_of filer.new).slots }
    ensures fails { IfErr result
        (Fails
        (LeaderHalts (view_of filer.old).layout (kept_by (view_of filer.old)) id (view_of filer.old).disk
        (view_of filer.old).slots (view_of filer.new).disk)
        (view_of filer.old) (view_of filer.new)) }
    ensures accounts { (o : InitialState) (named : Triples) → Keeps o filer.old named
        → MatchResult result (λ _. Keeps o filer.new named)
        (ShowsReason o (view_of filer.old).layout (view_of filer.new).disk) }
    ensures stays { KeepsRoot (view_of filer.old) (view_of filer.new) }
    ensures cost { (view_of filer.new).disk.transfers ≤ (view_of filer.old).disk.transfers + 16 }
    ensures labels { RelabelsAround id result (view_of filer.old).disk (view_of filer.new).disk }
{
    match mark(filer, id, Mark::Permanent) {
        Ok(()) => Ok(()),
        Err(halt) => Err(halt),
    }
}

/// Makes a file immutable for good: its leader gets the mark, in one write. No window shows the leader's page.
pub fn make_immutable<D: Disk, A: Allocator>(
    filer: &mut Filer<D, A>,
    id: FileId,
) -> Result<(), Halt>
    requires size { FitsLayout (view_of filer.old) }
    requires client { 16 ≤ id }
    ensures revealed { (tables : ℕ) (x : List Sector) (shapes : Shapes) (spaces : List Space) (f : Shape)
        → BooksUpto tables (view_of filer.old).disk (view_of filer.old).slots (view_of filer.old).layout
        (view_of filer.old).runs shapes spaces x
        → shapes id ≡ Some f
        → MatchResult result
        (λ _.
        is_shown spaces id leader_page ≡ false
        → IsMarked id immutable_label x (view_of filer.old).disk (view_of filer.old).slots (view_of filer.old).layout
        (view_of filer.new).disk (view_of filer.new).slots (view_of filer.new).runs)
        (λ e.
        (e ≡ halt.Disk)
        × MarksFirst id immutable_label x (view_of filer.old).disk (view_of filer.old).slots (view_of filer.new).disk
        (view_of filer.new).slots) }
    ensures makes { WritesMark Immutable (view_of filer.old).disk (view_of filer.old).slots (view_of filer.new).disk
        (view_of filer.new).slots }
    ensures fails { IfErr result
        (Fails
        (LeaderHalts (view_of filer.old).layout (kept_by (view_of filer.old)) id (view_of filer.old).disk
        (view_of filer.old).slots (view_of filer.new).disk)
        (view_of filer.old) (view_of filer.new)) }
    ensures accounts { (o : InitialState) (named : Triples) → Keeps o filer.old named
        → MatchResult result (λ _. Keeps o filer.new named)
        (ShowsReason o (view_of filer.old).layout (view_of filer.new).disk) }
    ensures stays { KeepsRoot (view_of filer.old) (view_of filer.new) }
    ensures cost { (view_of filer.new).disk.transfers ≤ (view_of filer.old).disk.transfers + 16 }
    ensures labels { RelabelsAround id result (view_of filer.old).disk (view_of filer.new).disk }
{
    match mark(filer, id, Mark::Immutable) {
        Ok(()) => Ok(()),
        Err(halt) => Err(halt),
    }
}
