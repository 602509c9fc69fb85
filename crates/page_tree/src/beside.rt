// A page that is underfull, the page above it and its neighbour.
ghost use Rattle.std.specs.Prelude.{◌≡◌, ℕ, ◌+◌, ◌*◌, ◌/◌, ◌<◌, ◌≤◌, List, get_or, IfOk, IfErr, MatchResult};
ghost use Rattle.page_tree.specs.Keys.{Item};
ghost use Rattle.page_tree.specs.Page.{page_at, filled, key_room, link_at, IsPageOf};
ghost use Rattle.page_tree.specs.Answer.{FromMemory};
ghost use Rattle.page_tree.specs.Neighbours.{IsUnderfull};
ghost use Rattle.page_tree.specs.Underfull.{IsPending, IsSecond, NeedsKeyUpdate};
ghost use Rattle.page_tree.specs.Broken.{IsInnerForm, Meets, Breaks, IfMalformed};
ghost use Rattle.page_tree.specs.Rebalancing.{IsLike, IsRebalancing, IsBesideOf, AreNotAbove};
ghost use Rattle.page_tree.specs.Bounds.{IsSized, IsKeyed, IsBelowRoot, HasChild};
ghost use Rattle.page_tree.specs.Calls.{Looks, Works, KeepsTree, IsPageAbove, IsChildPage};

use crate::error::TreeError;
use crate::look::{Header, Path};
use crate::pages::{filled_of, key_of, link_of, load};
use crate::redistribute::{Neighbours, redistribute_page};
use flat_mem::{FlatMem, PAGE_BYTES, Page};

/// Page `at` of level `level`, which is child `index` of page `up`. Of it and its neighbour, the second is child `slot`.
#[derive(Clone, Copy, Drop)]
pub struct Child {
    pub level: u32,
    pub at: u32,
    pub index: usize,
    pub slot: usize,
    pub up: u32,
}

/// Reads the page above level `level` on the path.
pub fn load_above<M: FlatMem, const K: usize>(
    mem: &mut M,
    path: &Path,
    level: u32,
    levels: u32,
    above: &mut Page,
) -> Result<u32, TreeError<M::Error>>
    requires sized { IsKeyed K (M.size mem.old) }
    requires below { IsBelowRoot levels level }
    requires inside { get_or path.now.pages (level + 1) 0 < M.size mem.old / 512 }
    ensures read { (b : List ℕ) → M.reveals mem.old b → IfOk result (λ up. above.new ≡ page_at b up) }
    ensures above { IfOk result
        (λ up. IsPageAbove K (M.size mem.old / 512) levels level path.now.pages path.now.index above.new up) }
    ensures well { (e : ℕ) (b : List ℕ) → M.reveals mem.old b
        → (records : List (List ℕ)) (at : ℕ) (page : List ℕ) (root first top : ℕ)
        → IsPending e K (M.size mem.old / 512) b records levels level path.now.pages path.now.index at page root first
        top
        → IfErr result FromMemory }
    ensures like { (root : ℕ) (b c : List ℕ) → M.reveals mem.old c
        → IsRebalancing K b c levels level root path.now.pages path.now.index
        → IfOk result (λ up. IsLike K above.new (page_at b up)) }
    ensures broken { (e root : ℕ) (b c : List ℕ) → M.reveals mem.old c
        → IsRebalancing K b c levels level root path.now.pages path.now.index
        → IfErr result (IfMalformed (Breaks e K (M.size mem.old / 512) b)) }
    ensures named { 1 ≤ get_or path.now.pages (level + 1) 0 → IfErr result (IfMalformed (λ page. 1 ≤ page)) }
    ensures looks { Looks M.FlatMem M.cost mem.old mem.new result }
{
    let up = path.pages[level as usize + 1];
    match load(mem, up, above) {
        Ok(()) => (),
        Err(error) => return Err(error),
    }
    let count = filled_of(above);
    let index = path.index[level as usize + 1] as usize;
    if above[0] != 2 || count == 0 || count > 500 / (K + 4) || index > count {
        return Err(TreeError::Malformed { page: up });
    }
    if count == 1 && level + 1 < levels {
        return Err(TreeError::Malformed { page: up });
    }
    Ok(up)
}

/// Reads child `index` of the page above, which is a page of level `level`.
fn load_beside<M: FlatMem, const E: usize, const K: usize>(
    mem: &mut M,
    above: &Page,
    up: u32,
    index: usize,
    level: u32,
    page: &mut Page,
) -> Result<u32, TreeError<M::Error>>
    requires sized { IsSized E K (M.size mem.old) }
    requires some { 1 ≤ level }
    requires child { index ≤ key_room K }
    ensures read { (b : List ℕ) → M.reveals mem.old b → IfOk result (λ at. page.new ≡ page_at b at) }
    ensures child { IfOk result (λ at. IsChildPage E K (M.size mem.old / 512) level above.now index page.new at) }
    ensures well { (b : List ℕ) → M.reveals mem.old b → (xs : List Item) → 1 ≤ link_at K above.now index
        → link_at K above.now index < M.size mem.old / 512
        → IsPageOf E K level (page_at b (link_at K above.now index)) xs → IfErr result FromMemory }
    ensures broken { (root levels : ℕ) (paths indexes b c : List ℕ) → M.reveals mem.old c
        → IsRebalancing K b c levels level root paths indexes → Meets K b (level + 1) up → IsInnerForm K (page_at b up)
        → IsLike K above.now (page_at b up) → index ≤ filled above.now
        → IfErr result (IfMalformed (Breaks E K (M.size mem.old / 512) b)) }
    ensures named { 1 ≤ up → IfErr result (IfMalformed (λ page. 1 ≤ page)) }
    ensures looks { Looks M.FlatMem M.cost mem.old mem.new result }
{
    let pages = (mem.len() / PAGE_BYTES as u64) as u32;
    let at = link_of::<K>(above, index);
    if at == 0 || at >= pages {
        return Err(TreeError::Malformed { page: up });
    }
    match load(mem, at, page) {
        Ok(()) => (),
        Err(error) => return Err(error),
    }
    let count = filled_of(page);
    if level == 1 && (page[0] != 1 || count > 504 / E) {
        return Err(TreeError::Malformed { page: at });
    }
    if level != 1 && (page[0] != 2 || count > 500 / (K + 4)) {
        return Err(TreeError::Malformed { page: at });
    }
    Ok(at)
}

/// Redistributes the child with a neighbour under `above`, and says whether the two are one page now.
/// `key` becomes the first key of the second.
pub fn rebalance_beside<M: FlatMem, const E: usize, const K: usize>(
    mem: &mut M,
    header: &mut Header,
    child: Child,
    page: &mut Page,
    above: &Page,
    key: &mut [u8; K],
) -> Result<bool, TreeError<M::Error>>
    requires sized { IsSized E K (M.size mem.old) }
    requires some { 1 ≤ child.level }
    requires underfull { IsUnderfull E K child.level (filled page.old) }
    requires second { IsSecond child.index child.slot }
    requires child { HasChild K above.now child.index }
    requires inside { child.at < M.size mem.old / 512 }
    ensures redistributed { (b : List ℕ) → M.reveals mem.old b → (records : List (List ℕ)) (paths indexes : List ℕ)
        → IsPending E K (M.size mem.old / 512) b records header.old.levels child.level paths indexes child.at page.old
        header.old.root header.old.free header.old.top
        → child.level < header.old.levels → child.index ≡ get_or indexes (child.level + 1) 0
        → above.now ≡ page_at b (get_or paths (child.level + 1) 0)
        → MatchResult result
        (NeedsKeyUpdate E K (M.size mem.old / 512) (M.reveals mem.new) b records header.old.levels child.level paths
        indexes above.now child.slot key.new header.old.root header.new.free header.old.top)
        FromMemory }
    ensures on { (root beside : ℕ) (paths indexes b c : List ℕ) → M.reveals mem.old c
        → IsRebalancing K b c header.old.levels child.level root paths indexes → child.level < header.old.levels
        → child.up ≡ get_or paths (child.level + 1) 0 → IsLike K above.now (page_at b child.up)
        → Meets K b child.level child.at → IsBesideOf child.index beside
        → AreNotAbove paths child.level header.old.levels child.at (link_at K above.now beside)
        → MatchResult result
        (λ _.
        (d : List ℕ) × M.reveals mem.new d × IsRebalancing K b d header.old.levels (child.level + 1) root paths indexes)
        (IfMalformed (Breaks E K (M.size mem.old / 512) b)) }
    ensures named { 1 ≤ child.up → IfErr result (IfMalformed (λ page. 1 ≤ page)) }
    ensures keeps { KeepsTree header.old header.new }
    ensures top { header.new.top ≡ header.old.top }
    ensures works { Works M.FlatMem (3 * M.cost) mem.old mem.new result }
{
    let mut other = [0; PAGE_BYTES];
    let level = child.level;
    key_of(above, child.slot - 1, key);
    if child.index == 0 {
        let right = match load_beside::<M, E, K>(mem, above, child.up, 1, level, &mut other) {
            Ok(right) => right,
            Err(error) => return Err(error),
        };
        let left = child.at;
        let pair = Neighbours { level, left, right };
        match redistribute_page::<M, E, K>(mem, header, pair, page, &mut other, key) {
            Ok(joined) => return Ok(joined),
            Err(error) => return Err(error),
        }
    }
    let index = child.index - 1;
    let left = match load_beside::<M, E, K>(mem, above, child.up, index, level, &mut other) {
        Ok(left) => left,
        Err(error) => return Err(error),
    };
    let right = child.at;
    let pair = Neighbours { level, left, right };
    match redistribute_page::<M, E, K>(mem, header, pair, &mut other, page, key) {
        Ok(joined) => Ok(joined),
        Err(error) => Err(error),
    }
}
