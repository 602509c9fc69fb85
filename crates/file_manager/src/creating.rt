//! Files that are created.
ghost use Rattle.std.specs.Prelude.{◌≡◌, ◌+◌, ◌*◌, ◌^◌, ◌≤◌, ◌<◌, List, [], ◌∷◌, IfErr, OnOk, MatchResult};
ghost use Rattle.labelled_disk.specs.declared.evidence.Halt.TheVariants as halt;
ghost use Rattle.labelled_disk.specs.CrashState.{written};
ghost use Rattle.labelled_disk.specs.Calls.{Rose};
ghost use Rattle.labelled_disk.specs.Sectors.{Sector};
ghost use Rattle.file_map.specs.FileMap.{Triples, most_records};
ghost use Rattle.flat_machine.specs.declared.space.Space.{Space};
ghost use Rattle.label_calls.specs.Labels.{MayHaveWritten};
ghost use Rattle.session_words.specs.Parts.{Shapes};
ghost use Rattle.swapper_kernel.specs.Goes.{Goes, no_page};
ghost use Rattle.volume_root.specs.RootPage.{IsValidRoot, root_write};
ghost use Rattle.file_manager.specs.Grounds.{CreateHalts, IsNewPage};
ghost use Rattle.file_manager.specs.CreateBroken.{CreatedSome};
ghost use Rattle.file_manager.specs.Creating.{next_id, counted, CreatedAs, NewMade, NewSome};
ghost use Rattle.file_manager.specs.Making.{MayCreate};
ghost use Rattle.file_manager.specs.Reasons.{giving, IsNotOlder, Keeps, KeepsFrom, InitialState, ShowsReason};
ghost use Rattle.filer_kernel.specs.View.{FitsLayout, view_of};
ghost use Rattle.file_manager.specs.Stays.{FramesStay, CountsInRoot};
ghost use Rattle.filer_kernel.specs.Fails.{Fails};

use crate::Volume;
use crate::growth::frames_of;
use crate::making::make_file;
use filer_kernel::Filer;
use labelled_disk::{Disk, FileId, Halt};
use std::alloc::Allocator;
use volume_root::{Root, write_root};

// The identifier that the volume of this root gives out next.
fn next_id(root: Root) -> FileId
    ensures next { result ≡ next_id root }
    ensures serial { root.serial < 2 ^ 32 }
{
    u64::from(root.serial) * 4_294_967_296 + u64::from(root.counter)
}

// How many data sectors the files have, once one of so many pages is among them.
pub(crate) fn used_with(volume: &Volume, pages: u32) -> u32
    requires room { volume.now.used + pages + 1 ≤ volume.now.layout.capacity }
    ensures total { result ≡ volume.now.used + pages + 1 }
    ensures numbers { pages < 4294967295 }
{
    let _capacity = volume.layout.capacity;
    volume.used + pages + 1
}

/// Writes a root to the disk. No frame is over its sector.
pub fn write_over<D: Disk, A: Allocator>(filer: &mut Filer<D, A>, root: Root) -> Result<(), Halt>
    requires size { FitsLayout (view_of filer.old) }
    requires valid { IsValidRoot (view_of filer.old).layout.sectors root }
    requires serial { root.serial < 2 ^ 32 }
    requires counter { root.counter < 2 ^ 32 }
    ensures writes { MatchResult result
        (λ _.
        Goes (λ m n. n ≡ written (root_write root) m) no_page (root_write root ∷ []) (view_of filer.old).disk
        (view_of filer.old).slots (view_of filer.new).disk (view_of filer.old).slots)
        (λ _.
        MayHaveWritten (root_write root) (view_of filer.old).disk (view_of filer.old).slots (view_of filer.new).disk) }
    ensures fault { IfErr result
        (λ e. (e ≡ halt.Disk) × Rose (view_of filer.old).disk.faults (view_of filer.new).disk.faults) }
    ensures keeps_to { (o : InitialState) (named : Triples) → Keeps o filer.old named → next_id root ≤ o.next
        → OnOk result (Keeps o filer.new named) }
    ensures reasons { (o : InitialState) (named : Triples) → Keeps o filer.old named
        → IfErr result (ShowsReason o (view_of filer.old).layout (view_of filer.new).disk) }
    ensures stays { FramesStay (view_of filer.old) (view_of filer.new) }
    ensures cost { (view_of filer.new).disk.transfers ≤ (view_of filer.old).disk.transfers + 1 }
{
    let disk = filer.disk_over();
    match write_root(disk, &root) {
        Ok(()) => Ok(()),
        Err(_) => Err(Halt::Disk),
    }
}

/// Creates a file of so many pages of zeros, with the next identifier of the volume: the root with the next counter is
/// written first, and what the file map might have of the identifier goes.
pub fn create<D: Disk, A: Allocator>(
    filer: &mut Filer<D, A>,
    volume: &mut Volume,
    pages: u32,
    kind: u16,
) -> Result<FileId, Halt>
    requires size { FitsLayout (view_of filer.old) }
    requires valid { IsValidRoot (view_of filer.old).layout.sectors volume.old.root }
    requires counter { volume.old.root.counter < 4294967295 }
    requires room { volume.old.used + pages + 1 ≤ volume.old.layout.capacity }
    ensures volume { MatchResult result
        (λ id.
        (id ≡ next_id volume.old.root)
        × (volume.new ≡ record volume.old { root = counted volume.old.root; used = volume.old.used + pages + 1 }))
        (λ _. volume.new ≡ volume.old) }
    ensures created { (x : List Sector) (shapes : Shapes) (spaces : List Space)
        → MayCreate (view_of filer.old).disk (view_of filer.old).slots (view_of filer.old).layout
        (view_of filer.old).runs shapes spaces (next_id volume.old.root) pages x
        → MatchResult result
        (λ _.
        CreatedAs volume.old.root kind pages (view_of filer.old).disk (view_of filer.old).slots
        (view_of filer.old).layout (view_of filer.new).disk (view_of filer.new).slots (view_of filer.new).runs)
        (λ e.
        (e ≡ halt.Disk)
        × CreatedSome (root_write (counted volume.old.root) ∷ []) (next_id volume.old.root) kind pages x
        (view_of filer.old).disk (view_of filer.old).slots (view_of filer.new).disk (view_of filer.new).slots) }
    ensures fails { IfErr result
        (Fails
        (CreateHalts (view_of filer.old).layout (next_id volume.old.root) (IsNewPage pages) (view_of filer.old).disk
        (view_of filer.old).slots (view_of filer.new).disk (view_of filer.new).slots)
        (view_of filer.old) (view_of filer.new)) }
    ensures accounts { (o : InitialState) (named : Triples) → Keeps o filer.old named → IsNotOlder o volume.old.root
        → MatchResult result (λ _. KeepsFrom (giving o (next_id volume.new.root)) named filer.new)
        (ShowsReason o (view_of filer.old).layout (view_of filer.new).disk) }
    ensures writes { MatchResult result
        (λ _.
        NewMade volume.old.root kind pages (view_of filer.old).disk (view_of filer.old).slots (view_of filer.new).disk
        (view_of filer.new).slots)
        (λ _.
        NewSome volume.old.root kind pages (view_of filer.old).disk (view_of filer.old).slots (view_of filer.new).disk
        (view_of filer.new).slots) }
    ensures stays { CountsInRoot volume.old.root (view_of filer.old) (view_of filer.new) }
    ensures cost { (view_of filer.new).disk.transfers ≤ (view_of filer.old).disk.transfers
        + (1 + 2 * (1 + 51 * most_records (view_of filer.old).layout.sectors) + (pages + 1)
        * (8 * (view_of filer.old).layout.vam + 100)) }
{
    let used = used_with(volume, pages);
    let root = volume.root;
    let id = next_id(root);
    let next_root = Root {
        clean: false,
        counter: root.counter + 1,
        ..root
    };
    match write_over(filer, next_root) {
        Ok(()) => (),
        Err(halt) => return Err(halt),
    }
    match filer.cut(id, 0) {
        Ok(()) => (),
        Err(halt) => return Err(halt),
    }
    frames_of(filer);
    match make_file(filer, id, kind, pages) {
        Ok(()) => (),
        Err(halt) => return Err(halt),
    }
    volume.root = next_root;
    volume.used = used;
    Ok(id)
}
