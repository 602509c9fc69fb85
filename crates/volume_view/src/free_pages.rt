//! The list of free pages of the file map's tree.
ghost use Rattle.std.specs.Prelude.{◌≡◌, ◌≢◌, ℕ, ◌+◌, ◌*◌, ◌<◌, ◌++◌, true, false, List, None, Ok, length, IfSome};
ghost use Rattle.flat_mem.specs.Vec.{vec_mem_bytes};
ghost use Rattle.page_tree.specs.Page.{page_at, kind_of, next_in};
ghost use Rattle.volume_view.specs.Form.{IsFreeList};

use crate::header::load_page;
use byteorder::{BigEndian, ByteOrder};
use flat_mem::VecMem;
use std::alloc::{AllocError, Allocator};

// The next free page after this one, or none where it is outside or no free page.
fn next_free<A: Allocator>(map: &mut VecMem<A>, pages: u32, at: u32) -> Option<u32>
    requires size { length (vec_mem_bytes map.old) ≡ 512 * pages }
    ensures next { IfSome result (λ next. next ≡ next_in (page_at (vec_mem_bytes map.old) at)) }
    ensures free { IfSome result (λ next.
        (at < pages) × (kind_of (page_at (vec_mem_bytes map.old) at) ≡ 0)) }
    ensures none { result ≡ None → at < pages → kind_of (page_at (vec_mem_bytes map.old) at) ≢ 0 }
    ensures same { vec_mem_bytes map.new ≡ vec_mem_bytes map.old }
{
    if at >= pages {
        return None;
    }
    let page = load_page(map, at);
    if page[0] != 0 {
        return None;
    }
    Some(BigEndian::read_u32(&page[4..8]))
}

/// Adds the free pages from this one on to those that are used. Answers false where one of them is
/// no free page, or there are more than `top`.
pub(crate) fn follow_free<A: Allocator>(
    map: &mut VecMem<A>,
    pages: u32,
    first: u32,
    top: u32,
    used: &mut Vec<u32, A>,
) -> Result<bool, AllocError>
    requires size { length (vec_mem_bytes map.old) ≡ 512 * pages }
    ensures free { result ≡ Ok true → (free : List ℕ)
        × IsFreeList (vec_mem_bytes map.old) pages first free
        × (used.new.items ≡ used.old.items ++ free) }
    ensures broken { (free : List ℕ) → result ≡ Ok false
        → IsFreeList (vec_mem_bytes map.old) pages first free → top < length free }
    ensures same { vec_mem_bytes map.new ≡ vec_mem_bytes map.old }
{
    let mut at = first;
    for _ in 0..top {
        if at == 0 {
            return Ok(true);
        }
        let Some(next) = next_free(map, pages, at) else {
            return Ok(false);
        };
        used.push(at)?;
        at = next;
    }
    if at != 0 {
        return Ok(false);
    }
    Ok(true)
}
