// The new first key of a leaf, in the page above that has it.
ghost use Rattle.std.specs.Prelude.{◌≡◌, ℕ, ◌*◌, ◌/◌, ◌≤◌, List, length, MatchResult};
ghost use Rattle.page_tree.specs.Answer.{FromMemory};
ghost use Rattle.page_tree.specs.Named.{IsLowestTurn, CanName, IsNamed};
ghost use Rattle.page_tree.specs.Bounds.{IsKeyed};
ghost use Rattle.page_tree.specs.Calls.{Works};

use crate::edits::set_key;
use crate::error::TreeError;
use crate::look::Path;
use crate::pages::{filled_of, load, store};
use flat_mem::{FlatMem, PAGE_BYTES, Page};

// The lowest level at which the path does not take the first child.
fn lowest_turn(path: &Path, levels: u32) -> Option<u32>
    requires { levels ≤ 6 }
    ensures { IsLowestTurn path.now.index levels result }
{
    let mut level = 2;
    'up: while level <= levels {
        if path.index[level as usize] > 0 {
            return Some(level);
        }
        level += 1;
    }
    None
}

/// Writes the new first key of a leaf into the one page above it that has it. The first leaf of all has none.
pub fn name_leaf<M: FlatMem, const K: usize>(
    mem: &mut M,
    path: &Path,
    levels: u32,
    key: &[u8; K],
    page: &mut Page,
) -> Result<(), TreeError<M::Error>>
    requires sized { IsKeyed K (M.size mem.old) }
    requires few { levels ≤ 6 }
    ensures named { (b : List ℕ) → M.reveals mem.old b
        → CanName K b (M.size mem.old / 512) levels path.now.pages path.now.index
        → MatchResult result (λ _. IsNamed K (M.reveals mem.new) b levels path.now.pages path.now.index key.now)
        FromMemory }
    ensures width { length key.now ≡ K }
    ensures works { Works M.FlatMem (2 * M.cost) mem.old mem.new result }
{
    let level = match lowest_turn(path, levels) {
        Some(level) => level,
        None => return Ok(()),
    };
    let pages = (mem.len() / PAGE_BYTES as u64) as u32;
    let at = path.pages[level as usize];
    let index = path.index[level as usize] as usize;
    if at >= pages {
        return Err(TreeError::Malformed { page: 0 });
    }
    match load(mem, at, page) {
        Ok(()) => (),
        Err(error) => return Err(error),
    }
    let count = filled_of(page);
    if page[0] != 2 || count > 500 / (K + 4) || index > count {
        return Err(TreeError::Malformed { page: at });
    }
    set_key(page, index - 1, key);
    match store(mem, at, page) {
        Ok(()) => (),
        Err(error) => return Err(error),
    }
    Ok(())
}
