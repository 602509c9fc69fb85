//! Files that are created under an identifier from outside.
ghost use Rattle.std.specs.Prelude.{◌≡◌, ◌≢◌, ℕ, ◌+◌, ◌*◌, ◌/◌, ◌^◌, ◌≤◌, true, List, [], IfErr, MatchResult};
ghost use Rattle.labelled_disk.specs.declared.evidence.Halt.TheVariants as halt;
ghost use Rattle.labelled_disk.specs.Label.{is_file_id};
ghost use Rattle.labelled_disk.specs.Sectors.{Sector};
ghost use Rattle.file_map.specs.FileMap.{Triples, most_records};
ghost use Rattle.flat_machine.specs.declared.space.Space.{Space};
ghost use Rattle.session_words.specs.Parts.{Shapes};
ghost use Rattle.filer_kernel.specs.Fails.{Fails};
ghost use Rattle.filer_kernel.specs.View.{FitsLayout, view_of};
ghost use Rattle.file_manager.specs.CreateBroken.{CreatedSome};
ghost use Rattle.file_manager.specs.Grounds.{CreateHalts, IsNewPage};
ghost use Rattle.file_manager.specs.Making.{CreatedBy, CreatesAll, CreatesSome, MayCreateUpto};
ghost use Rattle.file_manager.specs.Reasons.{InitialState, Keeps, KeepsFrom, MayTake, ShowsReason};
ghost use Rattle.file_manager.specs.Stays.{KeepsRoot};
ghost use Rattle.file_manager.specs.Taking.{NamesNoneOf, every_page};

use crate::Volume;
use crate::creating::used_with;
use crate::growth::frames_of;
use crate::making::make_file;
use filer_kernel::Filer;
use labelled_disk::{Disk, FileId, Halt};
use std::alloc::Allocator;

/// Creates a file of so many pages of zeros under this identifier, which the volume doesn't give out: no root is written.
/// What the file map might have of the identifier goes.
pub fn create_as<D: Disk, A: Allocator>(
    filer: &mut Filer<D, A>,
    volume: &mut Volume,
    id: FileId,
    pages: u32,
    kind: u16,
) -> Result<(), Halt>
    requires size { FitsLayout (view_of filer.old) }
    requires of_file { is_file_id id ≡ true }
    requires other { id / 2 ^ 32 ≢ volume.old.root.serial }
    requires room { volume.old.used + pages + 1 ≤ volume.old.layout.capacity }
    ensures created { (tables : ℕ) (x : List Sector) (shapes : Shapes) (spaces : List Space)
        → MayCreateUpto tables (view_of filer.old).disk (view_of filer.old).slots (view_of filer.old).layout
        (view_of filer.old).runs shapes spaces id pages x
        → MatchResult result
        (λ _.
        CreatedBy id kind pages (view_of filer.old).disk (view_of filer.old).slots (view_of filer.old).layout
        (view_of filer.new).disk (view_of filer.new).slots (view_of filer.new).runs)
        (λ e.
        (e ≡ halt.Disk)
        × CreatedSome [] id kind pages x (view_of filer.old).disk (view_of filer.old).slots (view_of filer.new).disk
        (view_of filer.new).slots) }
    ensures fails { IfErr result
        (Fails
        (CreateHalts (view_of filer.old).layout id (IsNewPage pages) (view_of filer.old).disk (view_of filer.old).slots
        (view_of filer.new).disk (view_of filer.new).slots)
        (view_of filer.old) (view_of filer.new)) }
    ensures accounts { (o : InitialState) (named : Triples) → Keeps o filer.old named → MayTake o id
        → NamesNoneOf id every_page named
        → MatchResult result (λ _. KeepsFrom o named filer.new)
        (ShowsReason o (view_of filer.old).layout (view_of filer.new).disk) }
    ensures volume { MatchResult result
        (λ _. volume.new ≡ record volume.old { used = volume.old.used + pages + 1 })
        (λ _. volume.new ≡ volume.old) }
    ensures writes { MatchResult result
        (λ _.
        CreatesAll id kind pages (view_of filer.old).disk (view_of filer.old).slots (view_of filer.new).disk
        (view_of filer.new).slots)
        (λ _.
        CreatesSome id kind pages (view_of filer.old).disk (view_of filer.old).slots (view_of filer.new).disk
        (view_of filer.new).slots) }
    ensures stays { KeepsRoot (view_of filer.old) (view_of filer.new) }
    ensures cost { (view_of filer.new).disk.transfers ≤ (view_of filer.old).disk.transfers
        + (2 * (1 + 51 * most_records (view_of filer.old).layout.sectors) + (pages + 1)
        * (8 * (view_of filer.old).layout.vam + 100)) }
{
    let used = used_with(volume, pages);
    match filer.cut(id, 0) {
        Ok(()) => (),
        Err(halt) => return Err(halt),
    }
    frames_of(filer);
    match make_file(filer, id, kind, pages) {
        Ok(()) => (),
        Err(halt) => return Err(halt),
    }
    volume.used = used;
    Ok(())
}
