// What a removal changes in the bytes of a page.
ghost use Rattle.std.specs.Prelude.{length, ◌≡◌, ◌+◌, ◌-◌, ◌*◌, ◌<◌, ◌≤◌};
ghost use Rattle.flat_mem.specs.Memory.{overwritten};
ghost use Rattle.page_tree.specs.Page.{key_room, leaf_room, record_at};
ghost use Rattle.page_tree.specs.Copied.{copy_cells, leaf_without, leaf_joined, inner_without, inner_joined, with_free};

use crate::pages::{put, put_count};
use flat_mem::Page;

/// The cells of a page, `width` bytes apart from byte `base` on.
#[derive(Clone, Copy, Drop)]
struct Cells {
    base: usize,
    width: usize,
}

/// Moves the cells from `from` up to `count` of another page to place `at` and after it.
fn copy_cells(page: &mut Page, cells: Cells, at: usize, other: &Page, from: usize, count: usize)
    requires order { from ≤ count }
    requires there { cells.base + cells.width * count ≤ 512 }
    requires fits { cells.base + cells.width * at
        + ((cells.base + cells.width * count) - (cells.base + cells.width * from)) ≤ 512 }
    ensures { page.new ≡ copy_cells cells.base cells.width page.old at other.now from count }
{
    put(
        page,
        cells.base + cells.width * at,
        &other[cells.base + cells.width * from..cells.base + cells.width * count],
    );
}

/// Takes record `at` out of a leaf of `count`.
pub fn remove_record<const E: usize>(page: &mut Page, count: usize, at: usize)
    requires some { 1 ≤ E }
    requires place { at < count }
    requires room { count ≤ leaf_room E }
    ensures { page.new ≡ leaf_without E page.old count at }
{
    let moved = *page;
    copy_cells(page, Cells { base: 8, width: E }, at, &moved, at + 1, count);
    put_count(page, count - 1);
}

/// Puts the records of another leaf after those of this one.
pub fn append_records<const E: usize>(page: &mut Page, count: usize, other: &Page, more: usize)
    requires some { 1 ≤ E }
    requires room { count + more ≤ leaf_room E }
    ensures { page.new ≡ leaf_joined E page.old count other.now more }
{
    copy_cells(page, Cells { base: 8, width: E }, count, other, 0, more);
    put_count(page, count + more);
}

/// Writes a record over record `at` of a leaf.
pub fn set_record<const E: usize>(page: &mut Page, at: usize, entry: &[u8; E])
    requires place { at < leaf_room E }
    ensures { page.new ≡ overwritten page.old (8 + E * at) entry.now }
{
    put(page, 8 + E * at, entry);
}

/// Copies record `at` of a leaf.
pub fn record_of<const E: usize>(page: &Page, at: usize, into: &mut [u8; E])
    requires place { at < leaf_room E }
    ensures { into.new ≡ record_at E page.now at }
{
    let from = 8 + E * at;
    into.copy_from_slice(&page[from..from + E]);
}

/// Takes child `at` out of an inner page of `count` keys, and the key at `slot`.
pub fn remove_child<const K: usize>(page: &mut Page, count: usize, slot: usize, at: usize)
    requires some { 1 ≤ K }
    requires most { K ≤ 12 }
    requires key_place { slot < count }
    requires place { at ≤ count }
    requires room { count ≤ key_room K }
    ensures { page.new ≡ inner_without K page.old count slot at }
{
    let moved = *page;
    copy_cells(
        page,
        Cells { base: 8, width: K },
        slot,
        &moved,
        slot + 1,
        count,
    );
    let keyed = *page;
    let links = Cells {
        base: 8 + K * (500 / (K + 4)),
        width: 4,
    };
    copy_cells(page, links, at, &keyed, at + 1, count + 1);
    put_count(page, count - 1);
}

/// Puts the children of another inner page after those of this one; `key` is the first key below them.
pub fn append_children<const K: usize>(
    page: &mut Page,
    count: usize,
    key: &[u8; K],
    other: &Page,
    more: usize,
)
    requires some { 1 ≤ K }
    requires most { K ≤ 12 }
    requires room { count + more + 1 ≤ key_room K }
    ensures { page.new ≡ inner_joined K page.old count key.now other.now more }
{
    put(page, 8 + K * count, key);
    copy_cells(page, Cells { base: 8, width: K }, count + 1, other, 0, more);
    let links = Cells {
        base: 8 + K * (500 / (K + 4)),
        width: 4,
    };
    copy_cells(page, links, count + 1, other, 0, more + 1);
    put_count(page, count + more + 1);
}

/// Writes another key at `slot` of an inner page.
pub fn set_key<const K: usize>(page: &mut Page, slot: usize, key: &[u8; K])
    requires some { 1 ≤ K }
    requires most { K ≤ 12 }
    requires place { slot < key_room K }
    ensures written { page.new ≡ overwritten page.old (8 + K * slot) key.now }
    ensures width { length key.now ≡ K }
{
    put(page, 8 + K * slot, key);
}

/// Makes a free page, whose next is this one.
pub fn set_free(page: &mut Page, next: u32)
    ensures { page.new ≡ with_free page.old next }
{
    put(page, 0, &[0]);
    put(page, 4, &next.to_be_bytes());
}
