// A removal by its key, from the header on.
ghost use Rattle.std.specs.Prelude.{◌≡◌, ℕ, ◌*◌, ◌/◌, ◌≤◌, List, false, IfOk, IfErr, MatchResult};
ghost use Rattle.page_tree.specs.Page.{page_at, levels_in};
ghost use Rattle.page_tree.specs.Tree.{IsTree};
ghost use Rattle.page_tree.specs.Answer.{FromMemory};
ghost use Rattle.page_tree.specs.Climb.{IsHead};
ghost use Rattle.page_tree.specs.Removed.{IsRemoved};
ghost use Rattle.page_tree.specs.Out.{IsOut};
ghost use Rattle.page_tree.specs.Broken.{Meets, Breaks, IfMalformed};
ghost use Rattle.page_tree.specs.Bounds.{IsSized, IsRoomy, HasRoot};
ghost use Rattle.page_tree.specs.Calls.{Works};

use crate::by_index::Place;
use crate::error::TreeError;
use crate::look::{Header, Path, descend, read_header};
use crate::pages::filled_of;
use crate::redistribute::give_page;
use crate::sought::last_of_key;
use crate::take::finish;
use crate::taking::{take_first, take_later};
use flat_mem::{FlatMem, PAGE_BYTES, Page};

// Takes the last record of the key out. Only the header is left to be written.
fn remove_in<M: FlatMem, const E: usize, const K: usize>(
    mem: &mut M,
    header: &mut Header,
    key: &[u8; K],
    path: &mut Path,
    page: &mut Page,
) -> Result<bool, TreeError<M::Error>>
    requires sized { IsSized E K (M.size mem.old) }
    requires rooted { HasRoot (M.size mem.old / 512) header.old.levels header.old.root }
    ensures out { (b : List ℕ) → M.reveals mem.old b → (records : List (List ℕ))
        → IsTree E K (M.size mem.old / 512) b records
        → IsHead (page_at b 0) header.old.count header.old.root header.old.top header.old.free header.old.levels
        → MatchResult result
        (IsOut E K (M.size mem.old / 512) (M.reveals mem.new) b records key.now header.new.levels header.new.root
        header.new.free header.new.top)
        FromMemory }
    ensures broken { (b : List ℕ) → M.reveals mem.old b → header.old.levels ≡ levels_in (page_at b 0)
        → Meets K b header.old.levels header.old.root
        → IfErr result (IfMalformed (Breaks E K (M.size mem.old / 512) b)) }
    ensures few { header.new.levels ≤ 6 }
    ensures count { header.new.count ≡ header.old.count }
    ensures absent { (b : List ℕ) → M.reveals mem.old b → IfOk result (λ found. found ≡ false → M.reveals mem.new b) }
    ensures works { Works M.FlatMem (34 * M.cost) mem.old mem.new result }
{
    let at = match descend::<M, E, K>(mem, header.root, header.levels, key, path, page) {
        Ok(at) => at,
        Err(error) => return Err(error),
    };
    let place = match last_of_key::<E, K>(page, key) {
        Some(place) => place,
        None => return Ok(false),
    };
    let count = filled_of(page);
    if count == 1 {
        if header.levels > 1 {
            return Err(TreeError::Malformed { page: at });
        }
        header.root = 0;
        header.levels = 0;
        match give_page(mem, header, at) {
            Ok(()) => return Ok(true),
            Err(error) => return Err(error),
        }
    }
    if place == 0 {
        match take_first::<M, E, K>(mem, header, path, at, page, count) {
            Ok(()) => return Ok(true),
            Err(error) => return Err(error),
        }
    }
    let place = Place {
        page: at,
        index: place,
    };
    match take_later::<M, E, K>(mem, header, path, place, page, count) {
        Ok(()) => (),
        Err(error) => return Err(error),
    }
    Ok(true)
}

/// Takes out the last record of this key, and says whether there is one.
pub fn remove_key<M: FlatMem, const E: usize, const K: usize>(
    mem: &mut M,
    key: &[u8; K],
) -> Result<bool, TreeError<M::Error>>
    requires sized { IsRoomy E K (M.size mem.old) }
    ensures answer { (b : List ℕ) → M.reveals mem.old b → (records : List (List ℕ))
        → IsTree E K (M.size mem.old / 512) b records
        → MatchResult result (IsRemoved E K (M.size mem.old / 512) (M.reveals mem.new) b records key.now) FromMemory }
    ensures broken { (b : List ℕ) → M.reveals mem.old b
        → IfErr result (IfMalformed (Breaks E K (M.size mem.old / 512) b)) }
    ensures absent { (b : List ℕ) → M.reveals mem.old b → IfOk result (λ found. found ≡ false → M.reveals mem.new b) }
    ensures works { Works M.FlatMem (36 * M.cost) mem.old mem.new result }
{
    let mut head = [0; PAGE_BYTES];
    let mut header = match read_header::<M, E, K>(mem, &mut head) {
        Ok(header) => header,
        Err(error) => return Err(error),
    };
    if header.levels == 0 {
        return Ok(false);
    }
    let mut path = Path {
        pages: [0; 7],
        index: [0; 7],
    };
    let mut page = [0; PAGE_BYTES];
    let found = match remove_in::<M, E, K>(mem, &mut header, key, &mut path, &mut page) {
        Ok(found) => found,
        Err(error) => return Err(error),
    };
    if !found {
        return Ok(false);
    }
    if header.count == 0 {
        return Err(TreeError::Malformed { page: 0 });
    }
    header.count -= 1;
    match finish(mem, &mut head, header) {
        Ok(()) => (),
        Err(error) => return Err(error),
    }
    Ok(true)
}
