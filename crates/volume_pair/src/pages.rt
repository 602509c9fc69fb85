//! Pages of a file, read and written past the frames: no frame ever has one.
ghost use Rattle.std.specs.Prelude.{◌≡◌, ◌≤◌, ◌<◌, ◌+◌, List, Some, IfOk, IfErr, MatchResult};
ghost use Rattle.labelled_disk.specs.declared.evidence.Halt.TheVariants as halt;
ghost use Rattle.labelled_disk.specs.Sectors.{Sector};
ghost use Rattle.swapper_kernel.specs.Stands.{labels_of};
ghost use Rattle.filer_kernel.specs.View.{FitsLayout, view_of};
ghost use Rattle.session_words.specs.Parts.{Shape, Shapes, IsTriple};
ghost use Rattle.volume_pair.specs.Copied.{PutsInFile};
ghost use Rattle.volume_pair.specs.Sides.{HasBooks, HasPageBytes, IsLookedAt, ShowsWhy, WritesPages};

use filer_kernel::Filer;
use label_calls::{read_page, write_page};
use labelled_disk::{Disk, Evidence, FileId, Halt, Page, Wanted};
use std::alloc::Allocator;

// The sector of a page, which the file map has.
fn sector_of<D: Disk, A: Allocator>(
    filer: &mut Filer<D, A>,
    id: FileId,
    page: u32,
) -> Result<u32, Halt>
    requires size { FitsLayout (view_of filer.old) }
    requires client { 16 ≤ id }
    ensures found { (x : List Sector) (shapes : Shapes) → HasBooks (view_of filer.old) shapes x
        → HasBooks (view_of filer.new) shapes x
        × ((f : Shape) → shapes id ≡ Some f → page < f.size
        → MatchResult result (IsTriple (labels_of x) id page) (λ e. e ≡ halt.Disk)) }
    ensures inside { IfOk result
        (λ sector.
        ((view_of filer.old).layout.first ≤ sector) × (sector < (view_of filer.old).layout.sectors)) }
    ensures looks { IsLookedAt (view_of filer.old) (view_of filer.new) }
    ensures why { IfErr result (ShowsWhy (view_of filer.old) (view_of filer.new)) }
    ensures cost { (view_of filer.new).disk.transfers ≤ (view_of filer.old).disk.transfers + 14 }
{
    match filer.find(id, page) {
        Ok(Some(run)) => Ok(run.sector + (page - run.first)),
        Ok(None) => Err(Halt::Damaged(Evidence::Missing { id, page })),
        Err(halt) => Err(halt),
    }
}

// The bytes of a page of a file.
pub(crate) fn read_file_page<D: Disk, A: Allocator>(
    filer: &mut Filer<D, A>,
    id: FileId,
    page: u32,
    into: &mut Page,
) -> Result<(), Halt>
    requires size { FitsLayout (view_of filer.old) }
    requires client { 16 ≤ id }
    ensures read { (x : List Sector) (shapes : Shapes) → HasBooks (view_of filer.old) shapes x
        → HasBooks (view_of filer.new) shapes x
        × ((f : Shape) → shapes id ≡ Some f → page < f.size
        → MatchResult result (λ _. HasPageBytes x id page into.new) (λ e. e ≡ halt.Disk)) }
    ensures looks { IsLookedAt (view_of filer.old) (view_of filer.new) }
    ensures why { IfErr result (ShowsWhy (view_of filer.old) (view_of filer.new)) }
    ensures cost { (view_of filer.new).disk.transfers ≤ (view_of filer.old).disk.transfers + 15 }
{
    let sector = match sector_of(filer, id, page) {
        Ok(sector) => sector,
        Err(halt) => return Err(halt),
    };
    let swapper = filer.swapper_over();
    match read_page(swapper, sector, Wanted { id, page }, into) {
        Ok(()) => Ok(()),
        Err(halt) => Err(halt),
    }
}

// Puts these bytes into a page of a file.
pub(crate) fn write_file_page<D: Disk, A: Allocator>(
    filer: &mut Filer<D, A>,
    id: FileId,
    page: u32,
    bytes: &Page,
) -> Result<(), Halt>
    requires size { FitsLayout (view_of filer.old) }
    requires client { 16 ≤ id }
    ensures puts { (x : List Sector) (shapes : Shapes) (f : Shape) → HasBooks (view_of filer.old) shapes x
        → shapes id ≡ Some f → page < f.size
        → MatchResult result
        (λ _. (n : List Sector) × HasBooks (view_of filer.new) shapes n × PutsInFile id page bytes.now x n)
        (λ e. e ≡ halt.Disk) }
    ensures writes { WritesPages id (view_of filer.old) (view_of filer.new) }
    ensures why { IfErr result (ShowsWhy (view_of filer.old) (view_of filer.new)) }
    ensures cost { (view_of filer.new).disk.transfers ≤ (view_of filer.old).disk.transfers + 15 }
{
    let sector = match sector_of(filer, id, page) {
        Ok(sector) => sector,
        Err(halt) => return Err(halt),
    };
    let swapper = filer.swapper_over();
    match write_page(swapper, sector, Wanted { id, page }, bytes) {
        Ok(()) => Ok(()),
        Err(halt) => Err(halt),
    }
}
