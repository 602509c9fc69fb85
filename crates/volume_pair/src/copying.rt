//! A file is copied.
ghost use Rattle.std.specs.Prelude.{◌≡◌, ◌≤◌, ◌<◌, ◌+◌, ◌*◌, true, false, List, Some, None, Ok, IfErr, IfOk, MatchResult};
ghost use Rattle.labelled_disk.specs.declared.evidence.Halt.TheVariants as halt;
ghost use Rattle.labelled_disk.specs.File.{File, file_at, size};
ghost use Rattle.labelled_disk.specs.FilesOn.{files_on};
ghost use Rattle.labelled_disk.specs.Label.{is_file_id};
ghost use Rattle.labelled_disk.specs.Root.{LabelsRight};
ghost use Rattle.labelled_disk.specs.Sectors.{Sector};
ghost use Rattle.label_calls.specs.Synced.{SyncedThere, SyncsLeaders};
ghost use Rattle.filer_kernel.specs.View.{FitsLayout, view_of};
ghost use Rattle.pair_machine.specs.Pair as machine;
ghost use Rattle.pair_machine.specs.Pair.{next_pair, with_copy};
ghost use Rattle.pair_machine.specs.declared.call.PairCall.TheVariants as call;
ghost use Rattle.volume_pair.specs.Copied.{IsCopying, IsSealing};
ghost use Rattle.volume_pair.specs.Copying.{IsOriginal, KeepsNumbers, LeavesSecond, RepliesPair, Takes, judged, refusal_in, room_refusal};
ghost use Rattle.volume_pair.specs.Costs.{SpendsOnFile, making};
ghost use Rattle.volume_pair.specs.CrashStates.{ChangesFiles, CrashStatesOf};
ghost use Rattle.volume_pair.specs.Pairs.{IsFaultOfDisk, IsPaired, ShowsSide};
ghost use Rattle.volume_pair.specs.Sides.{IsLookedAt, IsSide, IsWrittenFor, ShowsWhy, SyncsSecond, WritesPages};

use crate::PairHalt;
use crate::comparing::size_of;
use crate::pages::{read_file_page, write_file_page};
use crate::syncing::sync_disk;
use file_manager::{Attributes, Volume, attributes_of, create_as, make_immutable, make_permanent};
use filer_kernel::Filer;
use labelled_disk::{Disk, FileId, Halt};
use pair_machine::{PairRefusal, PairReply};
use std::alloc::Allocator;

// Identifiers below this one are no file's, nor are those whose low half is the number of a leader.
fn is_file_id(id: FileId) -> bool
    ensures { result ≡ is_file_id id }
{
    id >= 16 && id % 0x1_0000_0000 != 0xffff_ffff
}

// Why the volume has no room for a file of so many pages under this identifier, which no file of it has.
fn refusal_of(volume: &Volume, id: FileId, pages: u32) -> Option<PairRefusal>
    ensures exact { result ≡ room_refusal volume.now id pages }
    ensures takes { result ≡ None → Takes volume.now id pages }
{
    if id / 0x1_0000_0000 == u64::from(volume.root.serial) {
        return Some(PairRefusal::Serial);
    }
    let wanted = u64::from(volume.used) + u64::from(pages) + 1;
    if wanted > u64::from(volume.layout.capacity) {
        return Some(PairRefusal::Full);
    }
    None
}

// A file is copied once it is immutable.
fn judged(file: Attributes) -> Result<Attributes, PairRefusal>
    ensures { result ≡ judged file }
{
    if file.immutable {
        Ok(file)
    } else {
        Err(PairRefusal::Mutable)
    }
}

// Why the volume takes no such file, if it takes none.
fn refusal<E: Disk, A: Allocator>(
    to: &mut Filer<E, A>,
    volume: &Volume,
    id: FileId,
    pages: u32,
) -> Result<Option<PairRefusal>, Halt>
    requires size { FitsLayout (view_of to.old) }
    ensures known { (gs : List File) (y : List Sector) → IsSide (view_of to.old) gs y
        → IsSide (view_of to.new) gs y
        × MatchResult result (λ r. r ≡ refusal_in gs volume.now id pages) (λ e. e ≡ halt.Disk) }
    ensures takes { IfOk result (λ r. r ≡ None → Takes volume.now id pages) }
    ensures looks { IsLookedAt (view_of to.old) (view_of to.new) }
    ensures cost { (view_of to.new).disk.transfers ≤ (view_of to.old).disk.transfers + 29 }
    ensures why { IfErr result (ShowsWhy (view_of to.old) (view_of to.new)) }
{
    match size_of(to, id) {
        Ok(Some(_)) => Ok(Some(PairRefusal::Exists)),
        Ok(None) => Ok(refusal_of(volume, id, pages)),
        Err(halt) => Err(halt),
    }
}

// The file that is to be copied, or why it is not.
fn original<D: Disk, A: Allocator>(
    from: &mut Filer<D, A>,
    id: FileId,
) -> Result<Result<Attributes, PairRefusal>, Halt>
    requires size { FitsLayout (view_of from.old) }
    ensures known { (fs : List File) (x : List Sector) → IsSide (view_of from.old) fs x
        → IsSide (view_of from.new) fs x × MatchResult result (IsOriginal fs id) (λ e. e ≡ halt.Disk) }
    ensures of_file { IfOk result (λ found. IfOk found (λ _. is_file_id id ≡ true)) }
    ensures looks { IsLookedAt (view_of from.old) (view_of from.new) }
    ensures cost { (view_of from.new).disk.transfers ≤ (view_of from.old).disk.transfers + 29 }
    ensures why { IfErr result (ShowsWhy (view_of from.old) (view_of from.new)) }
{
    if !is_file_id(id) {
        return Ok(Err(PairRefusal::File));
    }
    match attributes_of(from, id) {
        Ok(Some(file)) => Ok(judged(file)),
        Ok(None) => Ok(Err(PairRefusal::File)),
        Err(halt) => Err(halt),
    }
}

// The bytes of each page, in ascending order.
fn copy_pages<D: Disk, E: Disk, A: Allocator>(
    from: &mut Filer<D, A>,
    to: &mut Filer<E, A>,
    id: FileId,
    pages: u32,
) -> Result<(), PairHalt>
    requires from_size { FitsLayout (view_of from.old) }
    requires to_size { FitsLayout (view_of to.old) }
    requires client { 16 ≤ id }
    ensures copies { (fs gs : List File) (x y : List Sector) (f : File) → IsSide (view_of from.old) fs x
        → file_at fs id ≡ Some f → pages ≡ size f → IsCopying (view_of to.old) y gs f false false 0
        → IsSide (view_of from.new) fs x
        × MatchResult result (λ _. IsCopying (view_of to.new) y gs f false false pages) IsFaultOfDisk }
    ensures from_looks { IsLookedAt (view_of from.old) (view_of from.new) }
    ensures to_writes { WritesPages id (view_of to.old) (view_of to.new) }
    ensures from_cost { (view_of from.new).disk.transfers ≤ (view_of from.old).disk.transfers + 15 * pages }
    ensures to_cost { (view_of to.new).disk.transfers ≤ (view_of to.old).disk.transfers + 15 * pages }
    ensures why { IfErr result
        (ShowsSide (view_of from.old) (view_of to.old) (view_of from.new) (view_of to.new)) }
{
    for page in 0..pages {
        match copy_page(from, to, id, page) {
            Ok(()) => (),
            Err(halt) => return Err(halt),
        }
    }
    Ok(())
}

fn copy_page<D: Disk, E: Disk, A: Allocator>(
    from: &mut Filer<D, A>,
    to: &mut Filer<E, A>,
    id: FileId,
    page: u32,
) -> Result<(), PairHalt>
    requires from_size { FitsLayout (view_of from.old) }
    requires to_size { FitsLayout (view_of to.old) }
    requires client { 16 ≤ id }
    ensures copies { (fs gs : List File) (x y : List Sector) (f : File) → IsSide (view_of from.old) fs x
        → file_at fs id ≡ Some f → page < size f → IsCopying (view_of to.old) y gs f false false page
        → IsSide (view_of from.new) fs x
        × MatchResult result (λ _. IsCopying (view_of to.new) y gs f false false (page + 1)) IsFaultOfDisk }
    ensures from_looks { IsLookedAt (view_of from.old) (view_of from.new) }
    ensures to_writes { WritesPages id (view_of to.old) (view_of to.new) }
    ensures from_cost { (view_of from.new).disk.transfers ≤ (view_of from.old).disk.transfers + 15 }
    ensures to_cost { (view_of to.new).disk.transfers ≤ (view_of to.old).disk.transfers + 15 }
    ensures why { IfErr result
        (ShowsSide (view_of from.old) (view_of to.old) (view_of from.new) (view_of to.new)) }
{
    let mut bytes = [0; 512];
    match read_file_page(from, id, page, &mut bytes) {
        Ok(()) => (),
        Err(halt) => return Err(PairHalt::From(halt)),
    }
    match write_file_page(to, id, page, &bytes) {
        Ok(()) => Ok(()),
        Err(halt) => Err(PairHalt::To(halt)),
    }
}

// All that stands is on the medium; then the file gets its marks, the permanent one last, and is on the medium itself.
fn seal<E: Disk, A: Allocator>(to: &mut Filer<E, A>, id: FileId) -> Result<(), Halt>
    requires size { FitsLayout (view_of to.old) }
    requires client { 16 ≤ id }
    ensures seals { (gs : List File) (y : List Sector) (f : File) → f.id ≡ id
        → IsCopying (view_of to.old) y gs f false false (size f)
        → MatchResult result (λ _. IsCopying (view_of to.new) y gs f true true (size f)) (λ e. e ≡ halt.Disk) }
    ensures crash_states { (gs : List File) (y d : List Sector) (f : File) → f.id ≡ id
        → IsCopying (view_of to.old) y gs f false false (size f) → (view_of to.old).disk.contents ≡ Some d
        → LabelsRight d → file_at (files_on d) id ≡ None
        → CrashStatesOf (IsSealing y gs f (view_of to.old).layout d) 1 (view_of to.old).disk (view_of to.new).disk }
    ensures writes { IsWrittenFor id (view_of to.old) (view_of to.new) }
    ensures pages_first { IfOk result (λ _. SyncedThere (view_of to.old).disk (view_of to.new).disk) }
    ensures around { SyncsLeaders result (view_of to.old).disk (view_of to.new).disk }
    ensures synced { IfOk result (λ _. (view_of to.new).disk.synced ≡ true) }
    ensures cost { (view_of to.new).disk.transfers ≤ (view_of to.old).disk.transfers + 32 }
    ensures why { IfErr result (ShowsWhy (view_of to.old) (view_of to.new)) }
{
    match sync_disk(to) {
        Ok(()) => (),
        Err(halt) => return Err(halt),
    }
    match make_immutable(to, id) {
        Ok(()) => (),
        Err(halt) => return Err(halt),
    }
    match make_permanent(to, id) {
        Ok(()) => (),
        Err(halt) => return Err(halt),
    }
    match sync_disk(to) {
        Ok(()) => Ok(()),
        Err(halt) => Err(halt),
    }
}

// Makes the copy.
fn make_copy<D: Disk, E: Disk, A: Allocator>(
    from: &mut Filer<D, A>,
    to: &mut Filer<E, A>,
    volume: &mut Volume,
    id: FileId,
    file: Attributes,
) -> Result<(), PairHalt>
    requires sizes { FitsLayout (view_of from.old) × FitsLayout (view_of to.old) }
    requires of_file { is_file_id id ≡ true }
    requires takes { Takes volume.old id file.pages }
    ensures copies { (p : machine.Pair) (h : IsPaired (view_of from.old) (view_of to.old) volume.old p)
        → IsOriginal p.from id (Ok file) → file_at p.to id ≡ None
        → MatchResult result
        (λ _. IsPaired (view_of from.new) (view_of to.new) volume.new (with_copy p id)) IsFaultOfDisk
        × ChangesFiles p.to (with_copy p id).to volume.old.root (view_of to.old).disk (view_of to.new).disk }
    ensures from_looks { IsLookedAt (view_of from.old) (view_of from.new) }
    ensures to_writes { IsWrittenFor id (view_of to.old) (view_of to.new) }
    ensures around { SyncsSecond result (view_of to.old).disk (view_of to.new).disk }
    ensures synced { IfOk result (λ _. (view_of to.new).disk.synced ≡ true) }
    ensures from_cost { (view_of from.new).disk.transfers ≤ (view_of from.old).disk.transfers + 15 * file.pages }
    ensures to_cost { (view_of to.new).disk.transfers ≤ (view_of to.old).disk.transfers
        + (making (view_of to.old).layout file.pages + 15 * file.pages) }
    ensures volume { KeepsNumbers volume.old volume.new }
    ensures why { IfErr result
        (ShowsSide (view_of from.old) (view_of to.old) (view_of from.new) (view_of to.new)) }
{
    match create_as(to, volume, id, file.pages, file.kind) {
        Ok(()) => (),
        Err(halt) => return Err(PairHalt::To(halt)),
    }
    match copy_pages(from, to, id, file.pages) {
        Ok(()) => (),
        Err(halt) => return Err(halt),
    }
    match seal(to, id) {
        Ok(()) => Ok(()),
        Err(halt) => Err(PairHalt::To(halt)),
    }
}

// The second volume gets the file of the first.
pub(crate) fn copy<D: Disk, E: Disk, A: Allocator>(
    from: &mut Filer<D, A>,
    to: &mut Filer<E, A>,
    volume: &mut Volume,
    id: FileId,
) -> Result<PairReply, PairHalt>
    requires from_size { FitsLayout (view_of from.old) }
    requires to_size { FitsLayout (view_of to.old) }
    ensures replies { (p : machine.Pair) → IsPaired (view_of from.old) (view_of to.old) volume.old p
        → MatchResult result (RepliesPair p (call.Copy id) (view_of from.new) (view_of to.new) volume.new)
        IsFaultOfDisk }
    ensures crash_states { (p : machine.Pair) → IsPaired (view_of from.old) (view_of to.old) volume.old p
        → ChangesFiles p.to (next_pair p (call.Copy id)).to volume.old.root (view_of to.old).disk
        (view_of to.new).disk }
    ensures from_looks { IsLookedAt (view_of from.old) (view_of from.new) }
    ensures to_writes { IsWrittenFor id (view_of to.old) (view_of to.new) }
    ensures around { SyncsSecond result (view_of to.old).disk (view_of to.new).disk }
    ensures leaves { IfOk result (LeavesSecond (view_of to.old) (view_of to.new)) }
    ensures cost { (p : machine.Pair) → IsPaired (view_of from.old) (view_of to.old) volume.old p
        → SpendsOnFile p id (view_of from.old) (view_of to.old) (view_of from.new) (view_of to.new) }
    ensures volume { KeepsNumbers volume.old volume.new }
    ensures why { IfErr result
        (ShowsSide (view_of from.old) (view_of to.old) (view_of from.new) (view_of to.new)) }
{
    let file = match original(from, id) {
        Ok(Ok(file)) => file,
        Ok(Err(why)) => return Ok(PairReply::Refused(why)),
        Err(halt) => return Err(PairHalt::From(halt)),
    };
    let refused = match refusal(to, volume, id, file.pages) {
        Ok(refused) => refused,
        Err(halt) => return Err(PairHalt::To(halt)),
    };
    if let Some(why) = refused {
        return Ok(PairReply::Refused(why));
    }
    match make_copy(from, to, volume, id, file) {
        Ok(()) => Ok(PairReply::Done),
        Err(halt) => Err(halt),
    }
}
