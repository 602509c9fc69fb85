// The record of an index.
ghost use Rattle.std.specs.Prelude.{◌≡◌, ℕ, ◌+◌, ◌*◌, ◌/◌, ◌<◌, ◌≤◌, ◌⊎◌, List, [], length, get_or, IfOk, IfErr, MatchResult};
ghost use Rattle.flat_mem.specs.Order.{entry_at};
ghost use Rattle.page_tree.specs.Page.{page_at, filled, count_in};
ghost use Rattle.page_tree.specs.Tree.{Node, IsRooted, IsTree};
ghost use Rattle.page_tree.specs.Path.{IsLed};
ghost use Rattle.page_tree.specs.SectorState.{IsSectorState};
ghost use Rattle.page_tree.specs.Climb.{IsHead};
ghost use Rattle.page_tree.specs.Answer.{FromMemory, IsPast};
ghost use Rattle.page_tree.specs.Broken.{IsLeafForm, Meets, Breaks, IfMalformed};
ghost use Rattle.page_tree.specs.Met.{IsMetPath};
ghost use Rattle.page_tree.specs.Walked.{IsWalked};
ghost use Rattle.page_tree.specs.Placed.{IsPlaced};
ghost use Rattle.page_tree.specs.Indexed.{IsIndexed, IsNth, MissesNth};
ghost use Rattle.page_tree.specs.Bounds.{IsSized, IsRoomy, IsOnLevel, HasRoot};
ghost use Rattle.page_tree.specs.Calls.{Looks};

use crate::after::record_of;
use crate::error::TreeError;
use crate::look::{Header, Path, read_header};
use crate::pages::filled_of;
use crate::walk::{go_down, next_leaf};
use flat_mem::{FlatMem, PAGE_BYTES, Page};

/// Where a record stands: the page of its leaf, and its place in the leaf.
#[derive(Clone, Copy, Drop)]
pub struct Place {
    pub page: u32,
    pub index: usize,
}

/// Goes down to the first leaf, and leaves its bytes in `page`.
pub fn first_leaf<M: FlatMem, const E: usize, const K: usize>(
    mem: &mut M,
    root: u32,
    levels: u32,
    path: &mut Path,
    page: &mut Page,
) -> Result<u32, TreeError<M::Error>>
    requires sized { IsSized E K (M.size mem.old) }
    requires place { IsOnLevel (M.size mem.old / 512) levels root }
    ensures leaf { (b : List ℕ) → M.reveals mem.old b → (records : List (List ℕ)) (nodes : ℕ → List Node)
        → IsRooted E K (M.size mem.old / 512) b records levels root nodes
        → MatchResult result (λ leaf. IsLed b levels nodes page.new path.new.pages path.new.index leaf 0) FromMemory }
    ensures walked { (b : List ℕ) → M.reveals mem.old b → Meets K b levels root
        → MatchResult result (λ leaf. IsWalked K b levels root path.new.pages path.new.index leaf [])
        (IfMalformed (Breaks E K (M.size mem.old / 512) b)) }
    ensures named { 1 ≤ root → IfErr result (IfMalformed (λ page. 1 ≤ page)) }
    ensures path { IfOk result (λ _. (n : ℕ) → 1 < n → n ≤ levels → get_or path.new.pages n 0 < M.size mem.old / 512) }
    ensures inside { IfOk result (λ leaf. leaf < M.size mem.old / 512) }
    ensures form { IfOk result (λ _. IsLeafForm E page.new) }
    ensures read { (b : List ℕ) → M.reveals mem.old b → IfOk result (λ leaf. page.new ≡ page_at b leaf) }
    ensures looks { Looks M.FlatMem (6 * M.cost) mem.old mem.new result }
{
    match go_down::<M, E, K>(mem, levels, root, 0, path, page) {
        Ok(leaf) => Ok(leaf),
        Err(error) => Err(error),
    }
}

/// Finds the record of this index, leaf by leaf from the first, and leaves the bytes of its leaf in `page`.
pub fn find_place<M: FlatMem, const E: usize, const K: usize>(
    mem: &mut M,
    header: Header,
    index: u32,
    path: &mut Path,
    page: &mut Page,
) -> Result<Place, TreeError<M::Error>>
    requires sized { IsSized E K (M.size mem.old) }
    requires rooted { HasRoot (M.size mem.old / 512) header.levels header.root }
    ensures placed { (b : List ℕ) → M.reveals mem.old b
        → (records : List (List ℕ))
        (here : IsSectorState E K (M.size mem.old / 512) b records header.levels header.root header.free header.top)
        → index < length records
        → MatchResult result
        (λ at. IsPlaced b header.levels here.nodes page.new path.new.pages path.new.index index at.page at.index)
        FromMemory }
    ensures broken { (b : List ℕ) → M.reveals mem.old b
        → IsHead (page_at b 0) header.count header.root header.top header.free header.levels → index < header.count
        → IfErr result (IfMalformed (Breaks E K (M.size mem.old / 512) b)) }
    ensures indexed { (b : List ℕ) → M.reveals mem.old b
        → IsHead (page_at b 0) header.count header.root header.top header.free header.levels
        → IfOk result (λ at. IsIndexed E K b index at.page at.index) }
    ensures missing { (b : List ℕ) → M.reveals mem.old b
        → IsHead (page_at b 0) header.count header.root header.top header.free header.levels
        → IfErr result (IfMalformed (λ page. page ≡ 0 → MissesNth E K (M.size mem.old / 512) b index)) }
    ensures inside { IfOk result (λ at. (at.page < M.size mem.old / 512) × (at.index < filled page.new)) }
    ensures path { IfOk result
        (λ _. (n : ℕ) → 1 < n → n ≤ header.levels → get_or path.new.pages n 0 < M.size mem.old / 512) }
    ensures met { (b : List ℕ) → M.reveals mem.old b
        → IsHead (page_at b 0) header.count header.root header.top header.free header.levels
        → IfOk result
        (λ at. Meets K b 1 at.page × IsMetPath K b header.levels 1 header.root path.new.pages path.new.index) }
    ensures form { IfOk result (λ _. IsLeafForm E page.new) }
    ensures read { (b : List ℕ) → M.reveals mem.old b → IfOk result (λ at. page.new ≡ page_at b at.page) }
    ensures looks { Looks M.FlatMem ((6 + 11 * (M.size mem.old / 512)) * M.cost) mem.old mem.new result }
{
    let pages = (mem.len() / PAGE_BYTES as u64) as u32;
    let mut at = match first_leaf::<M, E, K>(mem, header.root, header.levels, path, page) {
        Ok(at) => at,
        Err(error) => return Err(error),
    };
    let mut rest = index as usize;
    let mut passed = 0;
    'leaves: while passed < pages {
        let count = filled_of(page);
        if rest < count {
            return Ok(Place {
                page: at,
                index: rest,
            });
        }
        rest -= count;
        let found = match next_leaf::<M, E, K>(mem, header.levels, path, page) {
            Ok(found) => found,
            Err(error) => return Err(error),
        };
        at = match found {
            Some(next) => next,
            None => return Err(TreeError::Malformed { page: 0 }),
        };
        passed += 1;
    }
    Err(TreeError::Malformed { page: 0 })
}

/// Copies the record of this index.
pub fn nth<M: FlatMem, const E: usize, const K: usize>(
    mem: &mut M,
    index: u32,
    into: &mut [u8; E],
) -> Result<(), TreeError<M::Error>>
    requires sized { IsRoomy E K (M.size mem.old) }
    ensures answer { (b : List ℕ) → M.reveals mem.old b → (records : List (List ℕ))
        → IsTree E K (M.size mem.old / 512) b records → index < length records
        → MatchResult result (λ _. into.new ≡ entry_at records index) FromMemory }
    ensures past { (b : List ℕ) → M.reveals mem.old b → (records : List (List ℕ))
        → IsTree E K (M.size mem.old / 512) b records → length records ≤ index → MatchResult result (λ _. ⊥) IsPast }
    ensures past_any { (b : List ℕ) → M.reveals mem.old b → count_in (page_at b 0) ≤ index
        → MatchResult result (λ _. ⊥) IsPast }
    ensures stands { (b : List ℕ) → M.reveals mem.old b → IfOk result (λ _. IsNth E K b index into.new) }
    ensures broken { (b : List ℕ) → M.reveals mem.old b
        → IfErr result
        (IfMalformed
        (λ page. Breaks E K (M.size mem.old / 512) b page ⊎ ((page ≡ 0) × (count_in (page_at b 0) ≤ index)))) }
    ensures missing { (b : List ℕ) → M.reveals mem.old b
        → IfErr result (IfMalformed (λ page. page ≡ 0 → MissesNth E K (M.size mem.old / 512) b index)) }
    ensures looks { Looks M.FlatMem (12 * (M.size mem.old / 512) * M.cost) mem.old mem.new result }
{
    let mut page = [0; PAGE_BYTES];
    let header = match read_header::<M, E, K>(mem, &mut page) {
        Ok(header) => header,
        Err(error) => return Err(error),
    };
    if index >= header.count {
        return Err(TreeError::Malformed { page: 0 });
    }
    if header.levels == 0 {
        return Err(TreeError::Malformed { page: 0 });
    }
    let mut path = Path {
        pages: [0; 7],
        index: [0; 7],
    };
    let place = match find_place::<M, E, K>(mem, header, index, &mut path, &mut page) {
        Ok(place) => place,
        Err(error) => return Err(error),
    };
    record_of(&page, place.index, into);
    Ok(())
}
