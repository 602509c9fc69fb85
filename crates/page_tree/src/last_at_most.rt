// The last record whose key is at most a given one, by its index.
ghost use Rattle.std.specs.Prelude.{ℕ, ◌+◌, ◌*◌, ◌/◌, List, IfErr, MatchResult};
ghost use Rattle.flat_mem.specs.Order.{IsFound};
ghost use Rattle.page_tree.specs.Page.{page_at};
ghost use Rattle.page_tree.specs.Tree.{IsTree};
ghost use Rattle.page_tree.specs.SectorState.{IsSectorState};
ghost use Rattle.page_tree.specs.Climb.{IsHead};
ghost use Rattle.page_tree.specs.Answer.{FromMemory};
ghost use Rattle.page_tree.specs.Broken.{Breaks, IfMalformed};
ghost use Rattle.page_tree.specs.Placed.{IsCounted};
ghost use Rattle.page_tree.specs.Bounds.{IsSized, IsRoomy, HasRoot};
ghost use Rattle.page_tree.specs.Calls.{Looks};

use crate::by_index::first_leaf;
use crate::error::TreeError;
use crate::look::{Header, Path, read_header};
use crate::pages::{count_at_most, filled_of};
use crate::walk::next_leaf;
use flat_mem::{FlatMem, PAGE_BYTES, Page};

// How many records have a key that is at most this one, leaf by leaf from the first.
fn count_to<M: FlatMem, const E: usize, const K: usize>(
    mem: &mut M,
    header: Header,
    key: &[u8; K],
    path: &mut Path,
    page: &mut Page,
) -> Result<u32, TreeError<M::Error>>
    requires sized { IsSized E K (M.size mem.old) }
    requires rooted { HasRoot (M.size mem.old / 512) header.levels header.root }
    ensures counted { (b : List ℕ) → M.reveals mem.old b → (records : List (List ℕ))
        → IsSectorState E K (M.size mem.old / 512) b records header.levels header.root header.free header.top
        → MatchResult result (IsCounted K records key.now) FromMemory }
    ensures broken { (b : List ℕ) → M.reveals mem.old b
        → IsHead (page_at b 0) header.count header.root header.top header.free header.levels
        → IfErr result (IfMalformed (Breaks E K (M.size mem.old / 512) b)) }
    ensures looks { Looks M.FlatMem ((6 + 11 * (M.size mem.old / 512)) * M.cost) mem.old mem.new result }
{
    let pages = (mem.len() / PAGE_BYTES as u64) as u32;
    match first_leaf::<M, E, K>(mem, header.root, header.levels, path, page) {
        Ok(_) => (),
        Err(error) => return Err(error),
    }
    let mut total = 0;
    let mut passed = 0;
    'leaves: while passed < pages {
        let count = filled_of(page);
        let place = count_at_most(page, E, count, key);
        total += place as u32;
        if place < count {
            return Ok(total);
        }
        let found = match next_leaf::<M, E, K>(mem, header.levels, path, page) {
            Ok(found) => found,
            Err(error) => return Err(error),
        };
        match found {
            Some(_) => (),
            None => return Ok(total),
        }
        passed += 1;
    }
    Err(TreeError::Malformed { page: 0 })
}

/// The index of the last record whose key is at most this one.
pub fn find_last_at_most<M: FlatMem, const E: usize, const K: usize>(
    mem: &mut M,
    key: &[u8; K],
) -> Result<Option<u32>, TreeError<M::Error>>
    requires sized { IsRoomy E K (M.size mem.old) }
    ensures answer { (b : List ℕ) → M.reveals mem.old b → (records : List (List ℕ))
        → IsTree E K (M.size mem.old / 512) b records → MatchResult result (IsFound K records key.now) FromMemory }
    ensures broken { (b : List ℕ) → M.reveals mem.old b
        → IfErr result (IfMalformed (Breaks E K (M.size mem.old / 512) b)) }
    ensures looks { Looks M.FlatMem (12 * (M.size mem.old / 512) * M.cost) mem.old mem.new result }
{
    let mut page = [0; PAGE_BYTES];
    let header = match read_header::<M, E, K>(mem, &mut page) {
        Ok(header) => header,
        Err(error) => return Err(error),
    };
    if header.levels == 0 {
        return Ok(None);
    }
    let mut path = Path {
        pages: [0; 7],
        index: [0; 7],
    };
    let count = match count_to::<M, E, K>(mem, header, key, &mut path, &mut page) {
        Ok(count) => count,
        Err(error) => return Err(error),
    };
    if count == 0 {
        return Ok(None);
    }
    Ok(Some(count - 1))
}
