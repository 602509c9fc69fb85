// The record after a key.
ghost use Rattle.std.specs.Prelude.{◌≡◌, ℕ, ◌*◌, ◌/◌, ◌<◌, ◌≤◌, List, IfOk, IfErr, IfSome, MatchResult, is_some};
ghost use Rattle.page_tree.specs.Page.{leaf_room, record_at};
ghost use Rattle.page_tree.specs.Tree.{IsTree};
ghost use Rattle.page_tree.specs.Answer.{IsNextEntry, FromMemory};
ghost use Rattle.page_tree.specs.Broken.{Breaks, IfMalformed};
ghost use Rattle.page_tree.specs.Reveals.{StandsIn};
ghost use Rattle.page_tree.specs.Bounds.{IsRoomy};
ghost use Rattle.page_tree.specs.Calls.{Looks};

use crate::error::TreeError;
use crate::look::{Path, descend, read_numbers};
use crate::pages::{count_at_most, filled_of};
use crate::walk::next_leaf;
use flat_mem::{FlatMem, PAGE_BYTES, Page};

/// Copies the record at `index` of a leaf.
pub fn record_of<const E: usize>(page: &Page, index: usize, into: &mut [u8; E])
    requires some { 1 ≤ E }
    requires inside { index < leaf_room E }
    ensures { into.new ≡ record_at E page.now index }
{
    let at = 8 + E * index;
    into.copy_from_slice(&page[at..at + E]);
}

/// The first record whose key is above the given one, and the page of its leaf.
pub fn look_after<M: FlatMem, const E: usize, const K: usize>(
    mem: &mut M,
    key: &[u8; K],
    into: &mut [u8; E],
) -> Result<Option<u32>, TreeError<M::Error>>
    requires sized { IsRoomy E K (M.size mem.old) }
    ensures answer { (b : List ℕ) → M.reveals mem.old b → (records : List (List ℕ))
        → IsTree E K (M.size mem.old / 512) b records
        → MatchResult result (λ found. IsNextEntry K records key.now into.new (is_some found)) FromMemory }
    ensures home { (b : List ℕ) → M.reveals mem.old b → IfOk result (λ found. IfSome found (StandsIn E K b into.new)) }
    ensures broken { (b : List ℕ) → M.reveals mem.old b
        → IfErr result (IfMalformed (Breaks E K (M.size mem.old / 512) b)) }
    ensures looks { Looks M.FlatMem (18 * M.cost) mem.old mem.new result }
{
    let mut page = [0; PAGE_BYTES];
    let mut path = Path {
        pages: [0; 7],
        index: [0; 7],
    };
    let header = match read_numbers::<M, E, K>(mem) {
        Ok(header) => header,
        Err(error) => return Err(error),
    };
    if header.levels == 0 {
        return Ok(None);
    }
    let at = match descend::<M, E, K>(mem, header.root, header.levels, key, &mut path, &mut page) {
        Ok(at) => at,
        Err(error) => return Err(error),
    };
    let count = filled_of(&page);
    let place = count_at_most(&page, E, count, key);
    if place < count {
        record_of(&page, place, into);
        return Ok(Some(at));
    }
    let found = match next_leaf::<M, E, K>(mem, header.levels, &mut path, &mut page) {
        Ok(found) => found,
        Err(error) => return Err(error),
    };
    let next = match found {
        Some(next) => next,
        None => return Ok(None),
    };
    record_of(&page, 0, into);
    Ok(Some(next))
}
