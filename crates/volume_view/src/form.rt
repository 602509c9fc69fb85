//! Whether the file map is in form as a whole.
ghost use Rattle.std.specs.Prelude.{◌≡◌, ◌*◌, true, false, Ok, length};
ghost use Rattle.flat_mem.specs.Vec.{vec_mem_bytes};
ghost use Rattle.labelled_disk.specs.Layout.{IsCount, layout_of, vfm};
ghost use Rattle.volume_view.specs.Form.{HasForm, AreCounted};
ghost use Rattle.volume_view.specs.Walk.{least_records};

use crate::free_pages::follow_free;
use crate::header::{Header, header_of, is_header, load_page};
use crate::leaves::read_leaves;
use crate::levels::find_leaves;
use crate::once::are_used_once;
use flat_mem::VecMem;
use labelled_disk::{Layout, TABLE_PAGES};
use std::alloc::{AllocError, Allocator};

// How many records a leaf has at least in a tree of so many levels.
fn least_of(levels: u32) -> u32
    ensures { result ≡ least_records levels }
{
    if levels <= 1 { 1 } else { 10 }
}

// Whether the header counts so many records, and the map may have them.
fn are_counted(header: &Header, layout: &Layout, records: usize) -> bool
    requires layout { layout.now ≡ layout_of layout.now.sectors }
    ensures yes { result ≡ true → AreCounted header.now.count layout.now.sectors records }
    ensures no { result ≡ false → ¬ AreCounted header.now.count layout.now.sectors records }
{
    header.count as usize == records
        && records <= 9 * (layout.vfm as usize).saturating_sub(8)
        && records <= layout.capacity as usize + TABLE_PAGES as usize
}

/// Whether the bytes are those of a file map in form.
pub(crate) fn is_in_form<A: Allocator + Clone>(
    alloc: A,
    map: &mut VecMem<A>,
    layout: &Layout,
) -> Result<bool, AllocError>
    requires counted { IsCount layout.now.sectors }
    requires layout { layout.now ≡ layout_of layout.now.sectors }
    requires size { length (vec_mem_bytes map.old) ≡ 512 * vfm layout.now.sectors }
    ensures yes { result ≡ Ok true → HasForm layout.now.sectors (vec_mem_bytes map.old) }
    ensures no { result ≡ Ok false → ¬ HasForm layout.now.sectors (vec_mem_bytes map.old) }
    ensures same { vec_mem_bytes map.new ≡ vec_mem_bytes map.old }
{
    let page = load_page(map, 0);
    if !is_header(&page, layout.vfm) {
        return Ok(false);
    }
    let header = header_of(&page);
    let mut used = Vec::new(alloc.clone()?);
    let Some(leaves) = find_leaves(alloc.clone()?, map, layout.vfm, &header, &mut used)? else {
        return Ok(false);
    };
    let least = least_of(header.levels);
    let Some(runs) = read_leaves(alloc.clone()?, map, layout, least, &leaves)? else {
        return Ok(false);
    };
    if !are_counted(&header, layout, runs.len()) {
        return Ok(false);
    }
    if !follow_free(map, layout.vfm, header.free, header.top, &mut used)? {
        return Ok(false);
    }
    are_used_once(alloc, &used, header.top)
}
