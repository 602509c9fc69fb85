// A removal on its way up: pages that may be underfull.
ghost use Rattle.std.specs.Prelude.{◌≡◌, ℕ, ◌+◌, ◌*◌, ◌/◌, ◌<◌, ◌≤◌, List, get_or, true, false, IfErr, OnOk, MatchResult};
ghost use Rattle.page_tree.specs.Page.{IsWidths, filled, link_at};
ghost use Rattle.page_tree.specs.Broken.{Meets, Breaks, IfMalformed};
ghost use Rattle.page_tree.specs.Met.{AvoidsHeader};
ghost use Rattle.page_tree.specs.Rebalancing.{IsRebalancing, IsBesideOf, IsMetAgain, RebalancesOn};
ghost use Rattle.page_tree.specs.Answer.{FromMemory};
ghost use Rattle.page_tree.specs.Climb.{RevealsClosed};
ghost use Rattle.page_tree.specs.Neighbours.{IsUnderfull, IsAmple};
ghost use Rattle.page_tree.specs.Underfull.{IsPending, IsSecond, IsRebalanced, IsGiven};
ghost use Rattle.page_tree.specs.Bounds.{IsSized, IsBelowRoot, IsWay};
ghost use Rattle.page_tree.specs.Calls.{Works, LowersTree, GoesUp};

use crate::beside::{Child, load_above, rebalance_beside};
use crate::edits::{remove_child, set_key};
use crate::error::TreeError;
use crate::look::{Header, Path};
use crate::pages::{filled_of, link_of, store};
use crate::redistribute::give_page;
use flat_mem::{FlatMem, PAGE_BYTES, Page};

// Whether a page of level `level` is filled enough.
fn is_ample<const E: usize, const K: usize>(level: u32, page: &Page) -> bool
    requires widths { IsWidths E K }
    ensures ample { result ≡ true → IsAmple E K level (filled page.now) }
    ensures underfull { result ≡ false → IsUnderfull E K level (filled page.now) }
{
    if level == 1 {
        filled_of(page) >= 504 / E / 2
    } else {
        filled_of(page) >= 500 / (K + 4) / 2
    }
}

// Of child `index` and its neighbour, the place of the second.
fn second_of(index: usize) -> usize
    ensures { IsSecond index result }
{
    if index == 0 { 1 } else { index }
}

// The child beside child `index` that it is redistributed with.
fn beside_of(index: usize) -> usize
    ensures { IsBesideOf index result }
{
    if index == 0 { 1 } else { index - 1 }
}

// Which of two pages of level `level` stands further up the path, if one does.
fn met_again(path: &Path, level: u32, levels: u32, at: u32, beside: u32) -> Option<u32>
    requires under { level < levels }
    requires few { levels ≤ 6 }
    ensures { IsMetAgain path.now.pages level levels at beside result }
{
    let mut up = level + 1;
    'up: while up <= levels {
        let page = path.pages[up as usize];
        if page == at || page == beside {
            return Some(page);
        }
        up += 1;
    }
    None
}

// The root has one child left, which is the root now.
fn drop_root<M: FlatMem, const K: usize>(
    mem: &mut M,
    header: &mut Header,
    root: u32,
    page: &Page,
) -> Result<(), TreeError<M::Error>>
    requires key_most { K ≤ 12 }
    requires inside { root < M.size mem.old / 512 }
    requires some { 1 ≤ header.old.levels }
    ensures given { (b : List ℕ) → M.reveals mem.old b
        → MatchResult result (λ _. IsGiven (M.reveals mem.new) b root header.old.free) FromMemory }
    ensures free { OnOk result (header.new.free ≡ root) }
    ensures root { header.new.root ≡ link_at K page.now 0 }
    ensures levels { header.new.levels + 1 ≡ header.old.levels }
    ensures count { header.new.count ≡ header.old.count }
    ensures top { header.new.top ≡ header.old.top }
    ensures memory { IfErr result FromMemory }
    ensures works { Works M.FlatMem M.cost mem.old mem.new result }
{
    header.root = link_of::<K>(page, 0);
    header.levels -= 1;
    match give_page(mem, header, root) {
        Ok(()) => Ok(()),
        Err(error) => Err(error),
    }
}

// Redistributes an underfull page of level `level`, and says whether all is done. Else the page above has still to be written, and stands in `page`.
fn rebalance_underfull<M: FlatMem, const E: usize, const K: usize>(
    mem: &mut M,
    header: &mut Header,
    path: &Path,
    level: u32,
    at: &mut u32,
    page: &mut Page,
) -> Result<bool, TreeError<M::Error>>
    requires sized { IsSized E K (M.size mem.old) }
    requires below { IsBelowRoot header.old.levels level }
    requires underfull { IsUnderfull E K level (filled page.old) }
    requires inside { at.old < M.size mem.old / 512 }
    requires path { (l : ℕ) → 1 < l → l ≤ header.old.levels → get_or path.now.pages l 0 < M.size mem.old / 512 }
    ensures rebalanced { (b : List ℕ) → M.reveals mem.old b → (records : List (List ℕ))
        → IsPending E K (M.size mem.old / 512) b records header.old.levels level path.now.pages path.now.index at.old
        page.old header.old.root header.old.free header.old.top
        → MatchResult result
        (IsRebalanced E K (M.size mem.old / 512) (M.reveals mem.new) records header.old.levels (level + 1)
        path.now.pages path.now.index at.new page.new header.old.root header.new.free header.new.top header.new.levels
        header.new.root)
        FromMemory }
    ensures on { (root : ℕ) (b c : List ℕ) → M.reveals mem.old c
        → IsRebalancing K b c header.old.levels level root path.now.pages path.now.index → Meets K b level at.old
        → MatchResult result
        (RebalancesOn K (M.reveals mem.new) b header.old.levels (level + 1) root path.now.pages path.now.index)
        (IfMalformed (Breaks E K (M.size mem.old / 512) b)) }
    ensures named { AvoidsHeader header.old.levels path.now.pages → IfErr result (IfMalformed (λ page. 1 ≤ page)) }
    ensures goes { GoesUp (M.size mem.old / 512) level path.now.pages header.old header.new at.new result }
    ensures works { Works M.FlatMem (5 * M.cost) mem.old mem.new result }
{
    let mut above = [0; PAGE_BYTES];
    let mut key = [0; K];
    let up = match load_above::<M, K>(mem, path, level, header.levels, &mut above) {
        Ok(up) => up,
        Err(error) => return Err(error),
    };
    let count = filled_of(&above);
    let index = path.index[level as usize + 1] as usize;
    let slot = second_of(index);
    let beside = link_of::<K>(&above, beside_of(index));
    match met_again(path, level, header.levels, *at, beside) {
        Some(page) => return Err(TreeError::Malformed { page }),
        None => (),
    }
    let child = Child {
        level,
        at: *at,
        index,
        slot,
        up,
    };
    let joined = match rebalance_beside::<M, E, K>(mem, header, child, page, &above, &mut key) {
        Ok(joined) => joined,
        Err(error) => return Err(error),
    };
    *at = up;
    if !joined {
        set_key(&mut above, slot - 1, &key);
        *page = above;
        return Ok(false);
    }
    if count == 1 {
        match drop_root::<M, K>(mem, header, up, &above) {
            Ok(()) => return Ok(true),
            Err(error) => return Err(error),
        }
    }
    remove_child::<K>(&mut above, count, slot - 1, slot);
    *page = above;
    Ok(false)
}

/// Writes the page of level `level` where it is filled enough, and says that all is done. Else it is redistributed with a neighbour; then the page above has still to be written, and stands in `page`.
fn rebalance_up<M: FlatMem, const E: usize, const K: usize>(
    mem: &mut M,
    header: &mut Header,
    path: &Path,
    level: u32,
    at: &mut u32,
    page: &mut Page,
) -> Result<bool, TreeError<M::Error>>
    requires sized { IsSized E K (M.size mem.old) }
    requires below { IsBelowRoot header.old.levels level }
    requires inside { at.old < M.size mem.old / 512 }
    requires path { (l : ℕ) → 1 < l → l ≤ header.old.levels → get_or path.now.pages l 0 < M.size mem.old / 512 }
    ensures rebalanced { (b : List ℕ) → M.reveals mem.old b → (records : List (List ℕ))
        → IsPending E K (M.size mem.old / 512) b records header.old.levels level path.now.pages path.now.index at.old
        page.old header.old.root header.old.free header.old.top
        → MatchResult result
        (IsRebalanced E K (M.size mem.old / 512) (M.reveals mem.new) records header.old.levels (level + 1)
        path.now.pages path.now.index at.new page.new header.old.root header.new.free header.new.top header.new.levels
        header.new.root)
        FromMemory }
    ensures on { (root : ℕ) (b c : List ℕ) → M.reveals mem.old c
        → IsRebalancing K b c header.old.levels level root path.now.pages path.now.index → Meets K b level at.old
        → MatchResult result
        (RebalancesOn K (M.reveals mem.new) b header.old.levels (level + 1) root path.now.pages path.now.index)
        (IfMalformed (Breaks E K (M.size mem.old / 512) b)) }
    ensures named { AvoidsHeader header.old.levels path.now.pages → IfErr result (IfMalformed (λ page. 1 ≤ page)) }
    ensures goes { GoesUp (M.size mem.old / 512) level path.now.pages header.old header.new at.new result }
    ensures works { Works M.FlatMem (5 * M.cost) mem.old mem.new result }
{
    if is_ample::<E, K>(level, page) {
        match store(mem, *at, page) {
            Ok(()) => return Ok(true),
            Err(error) => return Err(error),
        }
    }
    match rebalance_underfull::<M, E, K>(mem, header, path, level, at, page) {
        Ok(done) => Ok(done),
        Err(error) => Err(error),
    }
}

/// Writes the leaf, and sees to it that the pages of the path are filled enough.
pub fn rebalance<M: FlatMem, const E: usize, const K: usize>(
    mem: &mut M,
    header: &mut Header,
    path: &Path,
    at: u32,
    page: &mut Page,
) -> Result<(), TreeError<M::Error>>
    requires sized { IsSized E K (M.size mem.old) }
    requires way { IsWay (M.size mem.old / 512) header.old.levels path.now.pages }
    requires inside { at < M.size mem.old / 512 }
    ensures rebalanced { (b : List ℕ) → M.reveals mem.old b → (records : List (List ℕ))
        → IsPending E K (M.size mem.old / 512) b records header.old.levels 1 path.now.pages path.now.index at page.old
        header.old.root header.old.free header.old.top
        → MatchResult result
        (λ _.
        RevealsClosed E K (M.size mem.old / 512) (M.reveals mem.new) records header.new.levels header.new.root
        header.new.free header.new.top)
        FromMemory }
    ensures broken { (root : ℕ) (b c : List ℕ) → M.reveals mem.old c
        → IsRebalancing K b c header.old.levels 1 root path.now.pages path.now.index → Meets K b 1 at
        → IfErr result (IfMalformed (Breaks E K (M.size mem.old / 512) b)) }
    ensures named { AvoidsHeader header.old.levels path.now.pages → IfErr result (IfMalformed (λ page. 1 ≤ page)) }
    ensures lowers { LowersTree header.old header.new }
    ensures works { Works M.FlatMem (26 * M.cost) mem.old mem.new result }
{
    let mut level = 1;
    let mut at = at;
    'up: while level < header.levels {
        match rebalance_up::<M, E, K>(mem, header, path, level, &mut at, page) {
            Ok(done) => {
                if done {
                    return Ok(());
                }
            }
            Err(error) => return Err(error),
        }
        level += 1;
    }
    match store(mem, at, page) {
        Ok(()) => Ok(()),
        Err(error) => Err(error),
    }
}
