//! Pages of a disk that stand in sectors in a row, brought into memory, and a page of a file.
ghost use Rattle.std.specs.Prelude.{◌≡◌, ◌+◌, ◌*◌, ◌≤◌, ◌<◌, List, Some, Err, length, IfOk, IfErr};
ghost use Rattle.flat_mem.specs.Memory.{overwritten};
ghost use Rattle.flat_mem.specs.Vec.{vec_mem_bytes};
ghost use Rattle.labelled_disk.specs.Calls.{ReadsAtMost, Rose};
ghost use Rattle.labelled_disk.specs.Sectors.{Sector};
ghost use Rattle.label_survey.specs.Runs.{triples_of, all_triples};
ghost use Rattle.volume_view.specs.Pages.{IsDiskOrMemory, bytes_of, HasPage, SaysNamed};
ghost use Rattle.volume_view.specs.Placed.{IsPlace};

use crate::LookFault;
use flat_mem::{FlatMem, VecMem};
use label_survey::Run;
use labelled_disk::{Disk, FileId, PAGE_BYTES, Page, Wanted};
use std::alloc::Allocator;

fn put_page<A: Allocator>(mem: &mut VecMem<A>, index: u32, page: &Page)
    requires { 512 * index + 512 ≤ length (vec_mem_bytes mem.old) }
    ensures { vec_mem_bytes mem.new ≡ overwritten (vec_mem_bytes mem.old) (512 * index) page.now }
{
    match mem.write(PAGE_BYTES as u64 * u64::from(index), page) {
        Ok(()) => {}
        Err(never) => match never {},
    }
}

/// The pages of a map in so many sectors from this one on, one after the other. Where a label isn't
/// that of its page, `labelled` is false afterwards. The memory is taken before the first is read.
pub(crate) fn read_pages<A: Allocator, D: Disk>(
    alloc: A,
    disk: &mut D,
    id: FileId,
    first: u32,
    count: u32,
    labelled: &mut bool,
) -> Result<VecMem<A>, LookFault>
    requires inside { first + count ≤ (D.state disk.old).sectors }
    ensures bytes { IfOk result (λ mem. (d : List Sector) → (D.state disk.old).contents ≡ Some d
        → vec_mem_bytes mem ≡ bytes_of d first count) }
    ensures size { IfOk result (λ mem. length (vec_mem_bytes mem) ≡ 512 * count) }
    ensures labels { IfOk result (λ mem. (d : List Sector) → (D.state disk.old).contents ≡ Some d
        → SaysNamed labelled.old labelled.new d id first count) }
    ensures err { IfErr result IsDiskOrMemory }
    ensures cause { result ≡ Err LookFault.Disk
        → Rose (D.state disk.old).faults (D.state disk.new).faults }
    ensures cost { ReadsAtMost count (D.state disk.old) (D.state disk.new) }
{
    let Ok(mut mem) = VecMem::zeroed(alloc, count) else {
        return Err(LookFault::NoMemory);
    };
    let mut page = [0; PAGE_BYTES];
    for index in 0..count {
        let Ok(label) = disk.read(first + index, &mut page) else {
            return Err(LookFault::Disk);
        };
        *labelled = *labelled && label.names(Wanted { id, page: index });
        put_page(&mut mem, index, &page);
    }
    Ok(mem)
}

// The sector of a page of a file, if it stands in this run.
fn sector_in(run: Run, id: FileId, page: u32) -> Option<u32>
    ensures { IsPlace (triples_of run) id page result }
{
    if run.id != id {
        return None;
    }
    if page < run.first {
        return None;
    }
    if page - run.first >= run.pages {
        return None;
    }
    run.sector.checked_add(page - run.first)
}

/// The sector of a page of a file, by runs.
pub fn sector_of(runs: &[Run], id: FileId, page: u32) -> Option<u32>
    ensures found { IsPlace (all_triples runs.now) id page result }
{
    for i in 0..runs.len() {
        if let Some(sector) = sector_in(runs[i], id, page) {
            return Some(sector);
        }
    }
    None
}

/// The bytes of a sector of the disk.
pub fn read_page<D: Disk>(disk: &mut D, sector: u32) -> Result<Page, LookFault>
    requires { sector < (D.state disk.old).sectors }
    ensures page { IfOk result (λ page. (d : List Sector) → (D.state disk.old).contents ≡ Some d
        → HasPage d sector page) }
    ensures err { IfErr result (λ why. why ≡ LookFault.Disk) }
    ensures cause { result ≡ Err LookFault.Disk
        → Rose (D.state disk.old).faults (D.state disk.new).faults }
    ensures cost { ReadsAtMost 1 (D.state disk.old) (D.state disk.new) }
{
    let mut page = [0; PAGE_BYTES];
    match disk.read(sector, &mut page) {
        Ok(_) => Ok(page),
        Err(_) => Err(LookFault::Disk),
    }
}
