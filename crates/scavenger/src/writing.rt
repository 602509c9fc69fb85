//! The writes that restore a volume.
ghost use Rattle.std.specs.Prelude.{◌≡◌, ◌+◌, ◌*◌, ◌-◌, ◌≤◌, ◌<◌, ◌∷◌, [], true, false, length};
ghost use Rattle.flat_mem.specs.Vec.{vec_mem_bytes};
ghost use Rattle.labelled_disk.specs.Runs.{freeing};
ghost use Rattle.page_tree.specs.Page.{page_at};
ghost use Rattle.volume_root.specs.RootPage.{IsValidRoot, root_write};
ghost use Rattle.label_survey.specs.Survey.{is_freed, places_by};
ghost use Rattle.scavenger.specs.Carries.{Carries};
ghost use Rattle.scavenger.specs.Orders.{map_writes};

use flat_mem::{FlatMem, VecMem};
use label_survey::SectorState;
use labelled_disk::{Disk, DiskError, FileId, Label, PAGE_BYTES, Page};
use std::alloc::Allocator;
use volume_root::{Root, write_root};

fn put_root<D: Disk>(disk: &mut D, root: &Root) -> Result<(), DiskError>
    requires { IsValidRoot (D.state disk.old).sectors root.now }
    ensures { Carries (root_write root.now ∷ []) (D.state disk.old) result (D.state disk.new) }
{
    match write_root(disk, root) {
        Ok(()) => Ok(()),
        Err(_) => Err(DiskError::Failed),
    }
}

/// Writes the root with this counter and the clean flag 0, whatever it was: a flag that is read as 0
/// need not be on the medium. The counter comes with it, since a root that changes the flag and the
/// counter at once may be found with the one and without the other.
pub(crate) fn open_root<D: Disk>(disk: &mut D, root: &Root, counter: u32) -> Result<(), DiskError>
    requires valid { IsValidRoot (D.state disk.old).sectors root.now }
    requires counter { 1 ≤ counter }
    ensures { Carries (root_write (record root.now { clean = false; counter = counter }) ∷ [])
        (D.state disk.old) result (D.state disk.new) }
{
    let opened = Root {
        clean: false,
        counter,
        ..*root
    };
    put_root(disk, &opened)
}

/// Writes the root with this counter and the clean flag 1. All else is to be on the medium before: so
/// no root that says that the volume is whole is there before what it speaks of.
pub(crate) fn close_root<D: Disk>(disk: &mut D, root: &Root, counter: u32) -> Result<(), DiskError>
    requires valid { IsValidRoot (D.state disk.old).sectors root.now }
    requires counter { 1 ≤ counter }
    ensures { Carries (root_write (record root.now { clean = true; counter = counter }) ∷ [])
        (D.state disk.old) result (D.state disk.new) }
{
    let closed = Root {
        clean: true,
        counter,
        ..*root
    };
    put_root(disk, &closed)
}

/// Writes a free label over each sector that is freed, ascending; the first of them all is sector
/// `first`.
pub fn free_sectors<D: Disk>(
    disk: &mut D,
    first: u32,
    sector_states: &[SectorState],
) -> Result<(), DiskError>
    requires { first + length sector_states.now ≤ (D.state disk.old).sectors }
    ensures { Carries (freeing (places_by is_freed first sector_states.now))
        (D.state disk.old) result (D.state disk.new) }
{
    for i in 0..sector_states.len() {
        if sector_states[i].is_freed() {
            disk.write_label(first + i as u32, &Label::FREE)?;
        }
    }
    Ok(())
}

fn page_of<A: Allocator>(map: &mut VecMem<A>, index: u32) -> Page
    requires { 512 * index + 512 ≤ length (vec_mem_bytes map.old) }
    ensures page { result ≡ page_at (vec_mem_bytes map.old) index }
    ensures same { vec_mem_bytes map.new ≡ vec_mem_bytes map.old }
{
    let mut page = [0; PAGE_BYTES];
    match map.read(PAGE_BYTES as u64 * u64::from(index), &mut page) {
        Ok(()) => page,
        Err(never) => match never {},
    }
}

/// Writes the pages of a map with their labels, ascending; page 0 stands in sector `first`.
pub(crate) fn write_map<A: Allocator, D: Disk>(
    disk: &mut D,
    id: FileId,
    first: u32,
    pages: u32,
    map: &mut VecMem<A>,
) -> Result<(), DiskError>
    requires inside { first + pages ≤ (D.state disk.old).sectors }
    requires whole { length (vec_mem_bytes map.old) ≡ 512 * pages }
    ensures { Carries (map_writes id first (vec_mem_bytes map.old) pages)
        (D.state disk.old) result (D.state disk.new) }
{
    for i in 0..pages {
        let page = page_of(map, i);
        disk.write(first + i, &Label::of_page(id, 0, i), &page)?;
    }
    Ok(())
}
