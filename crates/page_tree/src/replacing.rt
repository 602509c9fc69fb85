// A record that is replaced by another of the same key.
ghost use Rattle.std.specs.Prelude.{◌≡◌, ℕ, ◌*◌, ◌/◌, List, take, false, IfOk, IfErr, MatchResult};
ghost use Rattle.page_tree.specs.Page.{page_at};
ghost use Rattle.page_tree.specs.Tree.{IsTree};
ghost use Rattle.page_tree.specs.Answer.{FromMemory};
ghost use Rattle.page_tree.specs.Climb.{IsHead};
ghost use Rattle.page_tree.specs.Removed.{IsReplaced};
ghost use Rattle.page_tree.specs.Broken.{Meets, Breaks, IfMalformed};
ghost use Rattle.page_tree.specs.Bounds.{IsSized, IsRoomy, HasRoot};
ghost use Rattle.page_tree.specs.Calls.{Works};

use crate::edits::set_record;
use crate::error::TreeError;
use crate::look::{Header, Path, descend, read_numbers};
use crate::pages::store;
use crate::sought::last_of_key;
use flat_mem::{FlatMem, PAGE_BYTES, Page};

fn replace_in<M: FlatMem, const E: usize, const K: usize>(
    mem: &mut M,
    header: Header,
    key: &[u8; K],
    entry: &[u8; E],
    path: &mut Path,
    page: &mut Page,
) -> Result<bool, TreeError<M::Error>>
    requires sized { IsSized E K (M.size mem.old) }
    requires rooted { HasRoot (M.size mem.old / 512) header.levels header.root }
    requires same { key.now ≡ take K entry.now }
    ensures replaced { (b : List ℕ) → M.reveals mem.old b → (records : List (List ℕ))
        → IsTree E K (M.size mem.old / 512) b records
        → IsHead (page_at b 0) header.count header.root header.top header.free header.levels
        → MatchResult result (IsReplaced E K (M.size mem.old / 512) (M.reveals mem.new) b records entry.now)
        FromMemory }
    ensures absent { (b : List ℕ) → M.reveals mem.old b → IfOk result (λ found. found ≡ false → M.reveals mem.new b) }
    ensures broken { (b : List ℕ) → M.reveals mem.old b → Meets K b header.levels header.root
        → IfErr result (IfMalformed (Breaks E K (M.size mem.old / 512) b)) }
    ensures works { Works M.FlatMem (7 * M.cost) mem.old mem.new result }
{
    let at = match descend::<M, E, K>(mem, header.root, header.levels, key, path, page) {
        Ok(at) => at,
        Err(error) => return Err(error),
    };
    let place = match last_of_key::<E, K>(page, key) {
        Some(place) => place,
        None => return Ok(false),
    };
    set_record(page, place, entry);
    match store(mem, at, page) {
        Ok(()) => Ok(true),
        Err(error) => Err(error),
    }
}

/// Writes a record over the last one of its own key, and says whether there is one.
pub fn replace_key<M: FlatMem, const E: usize, const K: usize>(
    mem: &mut M,
    entry: &[u8; E],
) -> Result<bool, TreeError<M::Error>>
    requires sized { IsRoomy E K (M.size mem.old) }
    ensures answer { (b : List ℕ) → M.reveals mem.old b → (records : List (List ℕ))
        → IsTree E K (M.size mem.old / 512) b records
        → MatchResult result (IsReplaced E K (M.size mem.old / 512) (M.reveals mem.new) b records entry.now)
        FromMemory }
    ensures absent { (b : List ℕ) → M.reveals mem.old b → IfOk result (λ found. found ≡ false → M.reveals mem.new b) }
    ensures broken { (b : List ℕ) → M.reveals mem.old b
        → IfErr result (IfMalformed (Breaks E K (M.size mem.old / 512) b)) }
    ensures works { Works M.FlatMem (8 * M.cost) mem.old mem.new result }
{
    let header = match read_numbers::<M, E, K>(mem) {
        Ok(header) => header,
        Err(error) => return Err(error),
    };
    if header.levels == 0 {
        return Ok(false);
    }
    let mut key = [0; K];
    key.copy_from_slice(&entry[..K]);
    let mut path = Path {
        pages: [0; 7],
        index: [0; 7],
    };
    let mut page = [0; PAGE_BYTES];
    match replace_in::<M, E, K>(mem, header, &key, entry, &mut path, &mut page) {
        Ok(found) => Ok(found),
        Err(error) => Err(error),
    }
}
