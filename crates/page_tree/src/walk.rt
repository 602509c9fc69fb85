// The way from one leaf to the next.
ghost use Rattle.std.specs.Prelude.{◌≡◌, ℕ, ◌+◌, ◌*◌, ◌/◌, ◌^◌, ◌<◌, ◌≤◌, List, length, get_or, IfOk, IfErr, IfSome, OnOk, MatchResult};
ghost use Rattle.page_tree.specs.Page.{page_at, filled};
ghost use Rattle.page_tree.specs.Tree.{Node, node_at, IsRooted};
ghost use Rattle.page_tree.specs.Path.{IsPath, IsLed, IsLedOn, Turns, leaf_under};
ghost use Rattle.page_tree.specs.Answer.{FromMemory};
ghost use Rattle.page_tree.specs.Broken.{IsInnerForm, IsLeafForm, Meets, Breaks, IfMalformed};
ghost use Rattle.page_tree.specs.Met.{IsMetPath, AvoidsHeader};
ghost use Rattle.page_tree.specs.Walked.{IsThread, IsLedDown, IsLastUntil, IsWalked, IsWalkedOn};
ghost use Rattle.page_tree.specs.Bounds.{IsSized, IsOnLevel, IsWay};
ghost use Rattle.page_tree.specs.Calls.{Looks};

use crate::error::TreeError;
use crate::look::Path;
use crate::pages::{filled_of, link_of, load};
use flat_mem::{FlatMem, PAGE_BYTES, Page};

/// Reads an inner page, and tests it. The answer is how many keys it has.
pub fn read_inner<M: FlatMem, const K: usize>(
    mem: &mut M,
    at: u32,
    page: &mut Page,
) -> Result<usize, TreeError<M::Error>>
    requires inside { 512 * at + 512 ≤ M.size mem.old }
    requires width { K ≤ 12 }
    ensures read { (b : List ℕ) → M.reveals mem.old b → OnOk result (page.new ≡ page_at b at) }
    ensures form { IfOk result (λ n. (n ≡ filled page.new) × IsInnerForm K page.new) }
    ensures well { (b : List ℕ) → M.reveals mem.old b → IsInnerForm K (page_at b at) → IfErr result FromMemory }
    ensures broken { (e l pages : ℕ) (b : List ℕ) → M.reveals mem.old b → 1 < l → Meets K b l at
        → IfErr result (IfMalformed (Breaks e K pages b)) }
    ensures named { IfErr result (IfMalformed (λ page. page ≡ at)) }
    ensures looks { Looks M.FlatMem M.cost mem.old mem.new result }
{
    match load(mem, at, page) {
        Ok(()) => (),
        Err(error) => return Err(error),
    }
    let count = filled_of(page);
    if page[0] != 2 || count == 0 || count > 500 / (K + 4) {
        return Err(TreeError::Malformed { page: at });
    }
    Ok(count)
}

/// Reads a leaf, and tests it.
pub fn read_leaf<M: FlatMem, const E: usize, const K: usize>(
    mem: &mut M,
    at: u32,
    page: &mut Page,
) -> Result<(), TreeError<M::Error>>
    requires inside { 512 * at + 512 ≤ M.size mem.old }
    requires some { 1 ≤ E }
    ensures read { (b : List ℕ) → M.reveals mem.old b → OnOk result (page.new ≡ page_at b at) }
    ensures form { IfOk result (λ _. IsLeafForm E page.new) }
    ensures well { (b : List ℕ) → M.reveals mem.old b → IsLeafForm E (page_at b at) → IfErr result FromMemory }
    ensures broken { (pages : ℕ) (b : List ℕ) → M.reveals mem.old b → Meets K b 1 at
        → IfErr result (IfMalformed (Breaks E K pages b)) }
    ensures named { IfErr result (IfMalformed (λ page. page ≡ at)) }
    ensures looks { Looks M.FlatMem M.cost mem.old mem.new result }
{
    match load(mem, at, page) {
        Ok(()) => (),
        Err(error) => return Err(error),
    }
    let count = filled_of(page);
    if page[0] != 1 || count == 0 || count > 504 / E {
        return Err(TreeError::Malformed { page: at });
    }
    Ok(())
}

/// Goes from page `at` of this level down to its child `place`, on by first children, and leaves the leaf's bytes in `page`.
pub fn go_down<M: FlatMem, const E: usize, const K: usize>(
    mem: &mut M,
    level: u32,
    at: u32,
    place: usize,
    path: &mut Path,
    page: &mut Page,
) -> Result<u32, TreeError<M::Error>>
    requires sized { IsSized E K (M.size mem.old) }
    requires place { IsOnLevel (M.size mem.old / 512) level at }
    ensures leaf { (b : List ℕ) → M.reveals mem.old b
        → (records : List (List ℕ)) (levels root : ℕ) (nodes : ℕ → List Node) (home : ℕ → ℕ)
        → IsRooted E K (M.size mem.old / 512) b records levels root nodes → level ≤ levels
        → IsPath nodes levels level path.old.pages path.old.index at home
        → (1 < level → place < length (node_at (nodes level) (home level)).items)
        → MatchResult result
        (λ leaf.
        IsLed b levels nodes page.new path.new.pages path.new.index leaf (leaf_under nodes level (home level) place))
        FromMemory }
    ensures met { (b : List ℕ) → M.reveals mem.old b → (levels root : ℕ) → level ≤ levels → Meets K b level at
        → IsMetPath K b levels level root path.old.pages path.old.index → (1 < level → place ≤ filled (page_at b at))
        → (level ≡ levels → at ≡ root)
        → MatchResult result (λ leaf. Meets K b 1 leaf × IsMetPath K b levels 1 root path.new.pages path.new.index)
        (IfMalformed (Breaks E K (M.size mem.old / 512) b)) }
    ensures named { 1 ≤ at → IfErr result (IfMalformed (λ page. 1 ≤ page)) }
    ensures thread { (b : List ℕ) → M.reveals mem.old b → (levels root : ℕ) → level ≤ levels
        → IsThread K b levels level root path.old.pages path.old.index at
        → IfOk result (IsThread K b levels 1 root path.new.pages path.new.index) }
    ensures down { IfOk result
        (λ _. IsLedDown level at place path.old.pages path.old.index path.new.pages path.new.index) }
    ensures path { (levels : ℕ) → ((n : ℕ) → level < n → n ≤ levels → get_or path.old.pages n 0 < M.size mem.old / 512)
        → IfOk result (λ _. (n : ℕ) → 1 < n → n ≤ levels → get_or path.new.pages n 0 < M.size mem.old / 512) }
    ensures inside { IfOk result (λ leaf. leaf < M.size mem.old / 512) }
    ensures form { IfOk result (λ _. IsLeafForm E page.new) }
    ensures read { (b : List ℕ) → M.reveals mem.old b → IfOk result (λ leaf. page.new ≡ page_at b leaf) }
    ensures looks { Looks M.FlatMem (level * M.cost) mem.old mem.new result }
{
    let pages = (mem.len() / PAGE_BYTES as u64) as u32;
    let mut at = at;
    let mut place = place;
    let mut level = level;
    'down: while level > 1 {
        let count = match read_inner::<M, K>(mem, at, page) {
            Ok(count) => count,
            Err(error) => return Err(error),
        };
        if place > count {
            return Err(TreeError::Malformed { page: at });
        }
        let child = link_of::<K>(page, place);
        if child == 0 || child >= pages {
            return Err(TreeError::Malformed { page: at });
        }
        path.pages[level as usize] = at;
        path.index[level as usize] = place as u32;
        at = child;
        place = 0;
        level -= 1;
    }
    match read_leaf::<M, E, K>(mem, at, page) {
        Ok(()) => (),
        Err(error) => return Err(error),
    }
    Ok(at)
}

/// The lowest level at which the path has a child after its own.
fn turning_level<M: FlatMem, const K: usize>(
    mem: &mut M,
    levels: u32,
    path: &Path,
    page: &mut Page,
) -> Result<Option<u32>, TreeError<M::Error>>
    requires width { K ≤ 12 }
    requires small { M.size mem.old ≤ 2 ^ 27 }
    requires way { IsWay (M.size mem.old / 512) levels path.now.pages }
    ensures turn { (b : List ℕ) → M.reveals mem.old b
        → (e : ℕ) (records : List (List ℕ)) (root at : ℕ) (nodes : ℕ → List Node) (home : ℕ → ℕ)
        → IsRooted e K (M.size mem.old / 512) b records levels root nodes
        → IsPath nodes levels 1 path.now.pages path.now.index at home
        → MatchResult result (Turns nodes levels path.now.index home) FromMemory }
    ensures met { (b : List ℕ) → M.reveals mem.old b → (e root : ℕ)
        → IsMetPath K b levels 1 root path.now.pages path.now.index
        → MatchResult result
        (λ found.
        IfSome found (λ level. get_or path.now.index level 0 + 1 ≤ filled (page_at b (get_or path.now.pages level 0))))
        (IfMalformed (Breaks e K (M.size mem.old / 512) b)) }
    ensures named { AvoidsHeader levels path.now.pages → IfErr result (IfMalformed (λ page. 1 ≤ page)) }
    ensures last { (b : List ℕ) → M.reveals mem.old b → (root : ℕ)
        → IsMetPath K b levels 1 root path.now.pages path.now.index
        → IfOk result (IsLastUntil b levels path.now.pages path.now.index) }
    ensures form { IfOk result (λ found. IfSome found (λ level. (2 ≤ level) × (level ≤ levels))) }
    ensures looks { Looks M.FlatMem (5 * M.cost) mem.old mem.new result }
{
    let mut level = 2;
    'up: while level <= levels {
        let at = path.pages[level as usize];
        let place = path.index[level as usize] as usize + 1;
        let count = match read_inner::<M, K>(mem, at, page) {
            Ok(count) => count,
            Err(error) => return Err(error),
        };
        if place <= count {
            return Ok(Some(level));
        }
        level += 1;
    }
    Ok(None)
}

/// Goes from the leaf at the path's end to the one after it, and leaves its bytes in `page`.
pub fn next_leaf<M: FlatMem, const E: usize, const K: usize>(
    mem: &mut M,
    levels: u32,
    path: &mut Path,
    page: &mut Page,
) -> Result<Option<u32>, TreeError<M::Error>>
    requires sized { IsSized E K (M.size mem.old) }
    requires way { IsWay (M.size mem.old / 512) levels path.old.pages }
    ensures leaf { (b : List ℕ) → M.reveals mem.old b
        → (records : List (List ℕ)) (root at : ℕ) (nodes : ℕ → List Node) (home : ℕ → ℕ)
        → IsRooted E K (M.size mem.old / 512) b records levels root nodes
        → IsPath nodes levels 1 path.old.pages path.old.index at home
        → MatchResult result (IsLedOn b levels nodes page.new path.new.pages path.new.index (home 1)) FromMemory }
    ensures met { (b : List ℕ) → M.reveals mem.old b → (root : ℕ)
        → IsMetPath K b levels 1 root path.old.pages path.old.index
        → MatchResult result
        (λ found. IfSome found (Meets K b 1) × IsMetPath K b levels 1 root path.new.pages path.new.index)
        (IfMalformed (Breaks E K (M.size mem.old / 512) b)) }
    ensures named { AvoidsHeader levels path.old.pages → IfErr result (IfMalformed (λ page. 1 ≤ page)) }
    ensures walked { (b : List ℕ) → M.reveals mem.old b → (root at : ℕ) (passed : List ℕ)
        → IsWalked K b levels root path.old.pages path.old.index at passed
        → MatchResult result (IsWalkedOn K b levels root path.new.pages path.new.index at passed)
        (IfMalformed (Breaks E K (M.size mem.old / 512) b)) }
    ensures path { IfOk result (λ _. (n : ℕ) → 1 < n → n ≤ levels → get_or path.new.pages n 0 < M.size mem.old / 512) }
    ensures inside { IfOk result (λ found. IfSome found (λ leaf. leaf < M.size mem.old / 512)) }
    ensures form { IfOk result (λ found. IfSome found (λ _. IsLeafForm E page.new)) }
    ensures read { (b : List ℕ) → M.reveals mem.old b
        → IfOk result (λ found. IfSome found (λ leaf. page.new ≡ page_at b leaf)) }
    ensures looks { Looks M.FlatMem (11 * M.cost) mem.old mem.new result }
{
    let found = match turning_level::<M, K>(mem, levels, path, page) {
        Ok(found) => found,
        Err(error) => return Err(error),
    };
    let level = match found {
        Some(level) => level,
        None => return Ok(None),
    };
    let at = path.pages[level as usize];
    let place = path.index[level as usize] as usize + 1;
    let leaf = match go_down::<M, E, K>(mem, level, at, place, path, page) {
        Ok(leaf) => leaf,
        Err(error) => return Err(error),
    };
    Ok(Some(leaf))
}
