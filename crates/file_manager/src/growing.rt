//! Files that get more pages.
ghost use Rattle.std.specs.Prelude.{◌≡◌, ◌+◌, ◌-◌, ◌*◌, ◌≤◌, ◌<◌, true, List, IfErr, min, Err, MatchResult};
ghost use Rattle.labelled_disk.specs.declared.evidence.Halt.TheVariants as halt;
ghost use Rattle.labelled_disk.specs.Label.{is_file_id, is_permanent};
ghost use Rattle.labelled_disk.specs.Sectors.{Sector};
ghost use Rattle.label_calls.specs.Synced.{LabelsAfterSync};
ghost use Rattle.file_map.specs.FileMap.{Triples};
ghost use Rattle.flat_machine.specs.declared.space.Space.{Space};
ghost use Rattle.session_words.specs.Parts.{Shape, Shapes};
ghost use Rattle.file_manager.specs.Grounds.{RangeHalts};
ghost use Rattle.file_manager.specs.Broken.{GrewSome};
ghost use Rattle.file_manager.specs.Making.{MayGrow, GrownBy, MakesAll, MakesSome};
ghost use Rattle.file_manager.specs.Reasons.{Keeps, KeepsFrom, MayTake, InitialState, ShowsReason};
ghost use Rattle.file_manager.specs.Taking.{NamesNoneOf};
ghost use Rattle.filer_kernel.specs.View.{FitsLayout, view_of};
ghost use Rattle.file_manager.specs.Stays.{RunsStay};
ghost use Rattle.filer_kernel.specs.Fails.{Fails};

use crate::Volume;
use crate::growth::make_up;
use filer_kernel::Filer;
use labelled_disk::{Disk, FileId, Halt, Label};
use std::alloc::Allocator;

/// Gives a file with this leader more pages, of zeros: it has so many, and is to have others up to `pages`. Those of a
/// permanent one are zeros on the medium before they get its labels, where the free label of their sector is plain:
/// identifier 0, page 0, flags below 4, last byte 0.
pub fn grow<D: Disk, A: Allocator>(
    filer: &mut Filer<D, A>,
    volume: &mut Volume,
    id: FileId,
    leader: Label,
    size: u32,
    pages: u32,
) -> Result<(), Halt>
    requires sectors { FitsLayout (view_of filer.old) }
    requires of_file { is_file_id id ≡ true }
    requires order { size ≤ pages }
    requires numbers { pages < 4294967295 }
    ensures grown { (x : List Sector) (shapes : Shapes) (spaces : List Space) (f : Shape)
        → MayGrow (view_of filer.old).disk (view_of filer.old).slots (view_of filer.old).layout (view_of filer.old).runs
        shapes spaces id f pages x
        → f.size ≡ size
        → MatchResult result
        (λ _.
        GrownBy id leader.kind size (pages - size) (view_of filer.old).disk (view_of filer.old).slots
        (view_of filer.old).layout (view_of filer.new).disk (view_of filer.new).slots (view_of filer.new).runs)
        (λ e.
        (e ≡ halt.Disk)
        × GrewSome id leader.kind size (pages - size) x (view_of filer.old).disk (view_of filer.old).slots
        (view_of filer.new).disk (view_of filer.new).slots) }
    ensures writes { MatchResult result
        (λ _.
        MakesAll id leader.kind size (pages - size) (view_of filer.old).disk (view_of filer.old).slots
        (view_of filer.new).disk (view_of filer.new).slots)
        (λ _.
        MakesSome id leader.kind size (pages - size) (view_of filer.old).disk (view_of filer.old).slots
        (view_of filer.new).disk (view_of filer.new).slots) }
    ensures fails { IfErr result
        (Fails
        (RangeHalts (view_of filer.old).layout id size pages (view_of filer.old).disk (view_of filer.old).slots
        (view_of filer.new).disk (view_of filer.new).slots)
        (view_of filer.old) (view_of filer.new)) }
    ensures accounts { (o : InitialState) (named : Triples) → Keeps o filer.old named → MayTake o id
        → NamesNoneOf id (λ p. (size ≤ p) × (p < pages)) named
        → MatchResult result (λ _. KeepsFrom o named filer.new)
        (ShowsReason o (view_of filer.old).layout (view_of filer.new).disk) }
    ensures volume { MatchResult result
        (λ _.
        volume.new ≡ record volume.old { used = min (volume.old.used + (pages - size)) volume.old.layout.capacity })
        (λ _. volume.new ≡ volume.old) }
    ensures stays { RunsStay (view_of filer.old) (view_of filer.new) }
    ensures cost { (view_of filer.new).disk.transfers ≤ (view_of filer.old).disk.transfers + (pages - size)
        * (8 * (view_of filer.old).layout.vam + 101) }
    ensures cleared { is_permanent leader ≡ true → LabelsAfterSync (view_of filer.old).disk (view_of filer.new).disk }
{
    let clears = leader.marks().permanent;
    match make_up(filer, id, leader.kind, size, pages, clears) {
        Ok(()) => (),
        Err(halt) => return Err(halt),
    }
    volume.used = volume
        .used
        .saturating_add(pages - size)
        .min(volume.layout.capacity);
    Ok(())
}
