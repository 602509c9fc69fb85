//! Two files of one identifier are compared.
ghost use Rattle.std.specs.Prelude.{◌≡◌, ◌≢◌, ◌≤◌, ◌<◌, ◌+◌, ◌*◌, true, false, List, Some, IfErr, IfOk, IfSome, MatchResult};
ghost use Rattle.labelled_disk.specs.declared.evidence.Halt.TheVariants as halt;
ghost use Rattle.labelled_disk.specs.File.{File, file_at, size};
ghost use Rattle.labelled_disk.specs.Sectors.{Sector};
ghost use Rattle.filer_kernel.specs.View.{FitsLayout, view_of};
ghost use Rattle.pair_machine.specs.declared.call.PairReply.TheVariants as reply;
ghost use Rattle.volume_pair.specs.Comparing.{AnswersCompare, AreSizes, IsDifference, IsSamePage, IsSizeIn, compare_reply};
ghost use Rattle.volume_pair.specs.Costs.{Spends, size_in};
ghost use Rattle.volume_pair.specs.Pairs.{IsFaultOfDisk, ShowsSide};
ghost use Rattle.volume_pair.specs.Sides.{IsLookedAt, IsSide, ShowsWhy};

use crate::PairHalt;
use crate::pages::read_file_page;
use file_manager::attributes_of;
use filer_kernel::Filer;
use labelled_disk::{Disk, FileId, Halt, Page};
use pair_machine::{PairRefusal, PairReply};
use std::alloc::Allocator;

// The size of the file, or none where the volume has no such file.
pub(crate) fn size_of<D: Disk, A: Allocator>(
    filer: &mut Filer<D, A>,
    id: FileId,
) -> Result<Option<u32>, Halt>
    requires size { FitsLayout (view_of filer.old) }
    ensures known { (fs : List File) (x : List Sector) → IsSide (view_of filer.old) fs x
        → IsSide (view_of filer.new) fs x × MatchResult result (IsSizeIn fs id) (λ e. e ≡ halt.Disk) }
    ensures client { IfOk result (λ found. IfSome found (λ _. 16 ≤ id)) }
    ensures looks { IsLookedAt (view_of filer.old) (view_of filer.new) }
    ensures cost { (view_of filer.new).disk.transfers ≤ (view_of filer.old).disk.transfers + 29 }
    ensures why { IfErr result (ShowsWhy (view_of filer.old) (view_of filer.new)) }
{
    match attributes_of(filer, id) {
        Ok(Some(file)) => Ok(Some(file.pages)),
        Ok(None) => Ok(None),
        Err(halt) => Err(halt),
    }
}

// The sizes of the file on both sides, or none where one of them has no such file.
fn sizes<D: Disk, E: Disk, A: Allocator>(
    from: &mut Filer<D, A>,
    to: &mut Filer<E, A>,
    id: FileId,
) -> Result<Option<(u32, u32)>, PairHalt>
    requires from_size { FitsLayout (view_of from.old) }
    requires to_size { FitsLayout (view_of to.old) }
    ensures sizes { (fs gs : List File) (x y : List Sector) → IsSide (view_of from.old) fs x
        → IsSide (view_of to.old) gs y
        → IsSide (view_of from.new) fs x × IsSide (view_of to.new) gs y
        × MatchResult result (AreSizes fs gs id) IsFaultOfDisk }
    ensures client { IfOk result (λ found. IfSome found (λ _. 16 ≤ id)) }
    ensures from_looks { IsLookedAt (view_of from.old) (view_of from.new) }
    ensures to_looks { IsLookedAt (view_of to.old) (view_of to.new) }
    ensures from_cost { (view_of from.new).disk.transfers ≤ (view_of from.old).disk.transfers + 29 }
    ensures to_cost { (view_of to.new).disk.transfers ≤ (view_of to.old).disk.transfers + 29 }
    ensures why { IfErr result
        (ShowsSide (view_of from.old) (view_of to.old) (view_of from.new) (view_of to.new)) }
{
    let here = match size_of(from, id) {
        Ok(Some(pages)) => pages,
        Ok(None) => return Ok(None),
        Err(halt) => return Err(PairHalt::From(halt)),
    };
    match size_of(to, id) {
        Ok(Some(pages)) => Ok(Some((here, pages))),
        Ok(None) => Ok(None),
        Err(halt) => Err(PairHalt::To(halt)),
    }
}

// Whether two pages have the same bytes.
fn are_same(here: &Page, there: &Page) -> bool
    ensures same { result ≡ true → here.now ≡ there.now }
    ensures differ { result ≡ false → here.now ≢ there.now }
{
    here == there
}

// Whether the page has the same bytes on both sides.
fn is_same_page<D: Disk, E: Disk, A: Allocator>(
    from: &mut Filer<D, A>,
    to: &mut Filer<E, A>,
    id: FileId,
    page: u32,
) -> Result<bool, PairHalt>
    requires from_size { FitsLayout (view_of from.old) }
    requires to_size { FitsLayout (view_of to.old) }
    requires client { 16 ≤ id }
    ensures same { (fs gs : List File) (x y : List Sector) → IsSide (view_of from.old) fs x
        → IsSide (view_of to.old) gs y
        → IsSide (view_of from.new) fs x × IsSide (view_of to.new) gs y
        × ((f g : File) → file_at fs id ≡ Some f → file_at gs id ≡ Some g → page < size f → page < size g
        → MatchResult result (IsSamePage f g page) IsFaultOfDisk) }
    ensures from_looks { IsLookedAt (view_of from.old) (view_of from.new) }
    ensures to_looks { IsLookedAt (view_of to.old) (view_of to.new) }
    ensures from_cost { (view_of from.new).disk.transfers ≤ (view_of from.old).disk.transfers + 15 }
    ensures to_cost { (view_of to.new).disk.transfers ≤ (view_of to.old).disk.transfers + 15 }
    ensures why { IfErr result
        (ShowsSide (view_of from.old) (view_of to.old) (view_of from.new) (view_of to.new)) }
{
    let mut here = [0; 512];
    let mut there = [0; 512];
    match read_file_page(from, id, page, &mut here) {
        Ok(()) => (),
        Err(halt) => return Err(PairHalt::From(halt)),
    }
    match read_file_page(to, id, page, &mut there) {
        Ok(()) => (),
        Err(halt) => return Err(PairHalt::To(halt)),
    }
    Ok(are_same(&here, &there))
}

// The first of so many pages whose bytes differ.
fn first_difference<D: Disk, E: Disk, A: Allocator>(
    from: &mut Filer<D, A>,
    to: &mut Filer<E, A>,
    id: FileId,
    pages: u32,
) -> Result<Option<u32>, PairHalt>
    requires from_size { FitsLayout (view_of from.old) }
    requires to_size { FitsLayout (view_of to.old) }
    requires client { 16 ≤ id }
    ensures difference { (fs gs : List File) (x y : List Sector) → IsSide (view_of from.old) fs x
        → IsSide (view_of to.old) gs y
        → IsSide (view_of from.new) fs x × IsSide (view_of to.new) gs y
        × ((f g : File) → file_at fs id ≡ Some f → file_at gs id ≡ Some g → pages ≤ size f → pages ≤ size g
        → MatchResult result (IsDifference f g pages) IsFaultOfDisk) }
    ensures from_looks { IsLookedAt (view_of from.old) (view_of from.new) }
    ensures to_looks { IsLookedAt (view_of to.old) (view_of to.new) }
    ensures from_cost { (view_of from.new).disk.transfers ≤ (view_of from.old).disk.transfers + 15 * pages }
    ensures to_cost { (view_of to.new).disk.transfers ≤ (view_of to.old).disk.transfers + 15 * pages }
    ensures why { IfErr result
        (ShowsSide (view_of from.old) (view_of to.old) (view_of from.new) (view_of to.new)) }
{
    for page in 0..pages {
        match is_same_page(from, to, id, page) {
            Ok(true) => (),
            Ok(false) => return Ok(Some(page)),
            Err(halt) => return Err(halt),
        }
    }
    Ok(None)
}

// The answer, by the first of the pages of both that differs, and their sizes.
fn answer_of(difference: Option<u32>, here: u32, there: u32) -> PairReply
    ensures { result ≡ compare_reply difference here there }
{
    match difference {
        Some(page) => PairReply::Differs(page),
        None => {
            if here == there {
                PairReply::Same
            } else {
                PairReply::Differs(here.min(there))
            }
        }
    }
}

// Whether the file is the same on both sides.
pub(crate) fn compare<D: Disk, E: Disk, A: Allocator>(
    from: &mut Filer<D, A>,
    to: &mut Filer<E, A>,
    id: FileId,
) -> Result<PairReply, PairHalt>
    requires from_size { FitsLayout (view_of from.old) }
    requires to_size { FitsLayout (view_of to.old) }
    ensures compared { (fs gs : List File) (x y : List Sector) → IsSide (view_of from.old) fs x
        → IsSide (view_of to.old) gs y
        → IsSide (view_of from.new) fs x × IsSide (view_of to.new) gs y
        × MatchResult result (AnswersCompare fs gs id) IsFaultOfDisk }
    ensures from_looks { IsLookedAt (view_of from.old) (view_of from.new) }
    ensures to_looks { IsLookedAt (view_of to.old) (view_of to.new) }
    ensures not_done { IfOk result (λ r. r ≢ reply.Done) }
    ensures cost { (fs gs : List File) (x y : List Sector) → IsSide (view_of from.old) fs x
        → IsSide (view_of to.old) gs y
        → Spends (size_in fs id) 0 (view_of from.old) (view_of to.old) (view_of from.new) (view_of to.new) }
    ensures why { IfErr result
        (ShowsSide (view_of from.old) (view_of to.old) (view_of from.new) (view_of to.new)) }
{
    let (here, there) = match sizes(from, to, id) {
        Ok(Some(found)) => found,
        Ok(None) => return Ok(PairReply::Refused(PairRefusal::File)),
        Err(halt) => return Err(halt),
    };
    match first_difference(from, to, id, here.min(there)) {
        Ok(difference) => Ok(answer_of(difference, here, there)),
        Err(halt) => Err(halt),
    }
}
