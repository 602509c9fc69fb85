//! Leader and pages of a new file.
ghost use Rattle.std.specs.Prelude.{◌≡◌, ℕ, ◌+◌, ◌*◌, ◌≤◌, ◌<◌, true, List, [], IfErr, Err, MatchResult};
ghost use Rattle.labelled_disk.specs.declared.evidence.Halt.TheVariants as halt;
ghost use Rattle.labelled_disk.specs.Label.{is_file_id};
ghost use Rattle.labelled_disk.specs.Sectors.{Sector};
ghost use Rattle.file_map.specs.FileMap.{Triples};
ghost use Rattle.flat_machine.specs.declared.space.Space.{Space};
ghost use Rattle.session_words.specs.Parts.{Shapes};
ghost use Rattle.file_manager.specs.Grounds.{IsNewPage, MakeHalts};
ghost use Rattle.file_manager.specs.CreateBroken.{CreatedSome};
ghost use Rattle.file_manager.specs.Making.{MayCreateUpto, CreatedBy, CreatesAll, CreatesSome};
ghost use Rattle.file_manager.specs.Taking.{NamesNoneOf, every_page};
ghost use Rattle.file_manager.specs.Reasons.{Keeps, KeepsFrom, MayTake, InitialState, ShowsReason};
ghost use Rattle.filer_kernel.specs.View.{FitsLayout, view_of};
ghost use Rattle.file_manager.specs.Stays.{RunsStay};
ghost use Rattle.filer_kernel.specs.Fails.{Fails};

use crate::growth::{make_run, make_up};
use filer_kernel::Filer;
use labelled_disk::{Disk, FileId, Halt, LEADER};
use std::alloc::Allocator;

/// Makes the leader of a file that there is not yet, and then so many pages of zeros.
pub fn make_file<D: Disk, A: Allocator>(
    filer: &mut Filer<D, A>,
    id: FileId,
    kind: u16,
    pages: u32,
) -> Result<(), Halt>
    requires size { FitsLayout (view_of filer.old) }
    requires of_file { is_file_id id ≡ true }
    requires numbers { pages < 4294967295 }
    ensures made { (tables : ℕ) (x : List Sector) (shapes : Shapes) (spaces : List Space)
        → MayCreateUpto tables (view_of filer.old).disk (view_of filer.old).slots (view_of filer.old).layout
        (view_of filer.old).runs shapes spaces id pages x
        → MatchResult result
        (λ _.
        CreatedBy id kind pages (view_of filer.old).disk (view_of filer.old).slots (view_of filer.old).layout
        (view_of filer.new).disk (view_of filer.new).slots (view_of filer.new).runs)
        (λ e.
        (e ≡ halt.Disk)
        × CreatedSome [] id kind pages x (view_of filer.old).disk (view_of filer.old).slots (view_of filer.new).disk
        (view_of filer.new).slots) }
    ensures writes { MatchResult result
        (λ _.
        CreatesAll id kind pages (view_of filer.old).disk (view_of filer.old).slots (view_of filer.new).disk
        (view_of filer.new).slots)
        (λ _.
        CreatesSome id kind pages (view_of filer.old).disk (view_of filer.old).slots (view_of filer.new).disk
        (view_of filer.new).slots) }
    ensures fails { IfErr result
        (Fails
        (MakeHalts (view_of filer.old).layout id every_page (IsNewPage pages) (view_of filer.old).disk
        (view_of filer.old).slots (view_of filer.new).disk (view_of filer.new).slots)
        (view_of filer.old) (view_of filer.new)) }
    ensures accounts { (o : InitialState) (named : Triples) → Keeps o filer.old named → MayTake o id
        → NamesNoneOf id every_page named
        → MatchResult result (λ _. KeepsFrom o named filer.new)
        (ShowsReason o (view_of filer.old).layout (view_of filer.new).disk) }
    ensures stays { RunsStay (view_of filer.old) (view_of filer.new) }
    ensures cost { (view_of filer.new).disk.transfers ≤ (view_of filer.old).disk.transfers
        + (8 * (view_of filer.old).layout.vam + 100 + pages * (8 * (view_of filer.old).layout.vam + 100)) }
{
    match make_run(filer, id, kind, LEADER, 1, false) {
        Ok(_run) => (),
        Err(halt) => return Err(halt),
    }
    match make_up(filer, id, kind, 0, pages, false) {
        Ok(()) => (),
        Err(halt) => return Err(halt),
    }
    Ok(())
}
