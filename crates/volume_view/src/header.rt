//! Pages of the file map's tree, and its header.
ghost use Rattle.std.specs.Prelude.{◌≡◌, ◌+◌, ◌*◌, ◌≤◌, true, false, length};
ghost use Rattle.flat_mem.specs.Vec.{vec_mem_bytes};
ghost use Rattle.page_tree.specs.Page.{page_at, IsBlank};
ghost use Rattle.volume_view.specs.Level.{IsHeaderOf};
ghost use Rattle.volume_view.specs.Walk.{IsHeaderForm};

use byteorder::{BigEndian, ByteOrder};
use flat_mem::{FlatMem, VecMem};
use labelled_disk::{PAGE_BYTES, Page};
use std::alloc::Allocator;

/// The numbers of the header.
#[derive(Clone, Copy, Debug, PartialEq, Eq)]
pub(crate) struct Header {
    /// How many records there are.
    pub count: u32,
    pub root: u32,
    /// The greatest page that was ever used.
    pub top: u32,
    /// The first free page, or 0.
    pub free: u32,
    pub levels: u32,
}

/// The bytes of a page of the map.
pub(crate) fn load_page<A: Allocator>(map: &mut VecMem<A>, index: u32) -> Page
    requires { 512 * index + 512 ≤ length (vec_mem_bytes map.old) }
    ensures page { result ≡ page_at (vec_mem_bytes map.old) index }
    ensures same { vec_mem_bytes map.new ≡ vec_mem_bytes map.old }
{
    let mut page = [0; PAGE_BYTES];
    match map.read(PAGE_BYTES as u64 * u64::from(index), &mut page) {
        Ok(()) => page,
        Err(never) => match never {},
    }
}

/// The header that a page reveals.
pub(crate) fn header_of(page: &Page) -> Header
    ensures { IsHeaderOf page.now result }
{
    Header {
        count: BigEndian::read_u32(&page[0..4]),
        root: BigEndian::read_u32(&page[4..8]),
        top: BigEndian::read_u32(&page[8..12]),
        free: BigEndian::read_u32(&page[12..16]),
        levels: u32::from(page[16]),
    }
}

// Whether the bytes after the header's numbers are zeros.
fn is_blank(page: &Page) -> bool
    ensures yes { result ≡ true → IsBlank page.now }
    ensures no { result ≡ false → ¬ IsBlank page.now }
{
    for i in 17..512usize {
        if page[i] != 0 {
            return false;
        }
    }
    true
}

/// Whether the numbers may be those of a tree in so many pages.
pub(crate) fn is_header(page: &Page, pages: u32) -> bool
    ensures yes { result ≡ true → IsHeaderForm page.now pages }
    ensures no { result ≡ false → ¬ IsHeaderForm page.now pages }
{
    let header = header_of(page);
    if header.levels > 6 || header.top >= pages {
        return false;
    }
    if header.levels == 0 && header.root != 0 {
        return false;
    }
    is_blank(page)
}
