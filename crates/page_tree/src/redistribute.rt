// Two neighbours are written, and a page is freed.
ghost use Rattle.std.specs.Prelude.{◌≡◌, ℕ, ◌+◌, ◌*◌, ◌/◌, ◌<◌, ◌≤◌, List, ◌++◌, IfErr, OnOk, MatchResult};
ghost use Rattle.page_tree.specs.Page.{IsWidths, filled};
ghost use Rattle.page_tree.specs.Answer.{FromMemory};
ghost use Rattle.page_tree.specs.Neighbours.{IsBalanced, IsLean};
ghost use Rattle.page_tree.specs.Underfull.{IsPair, IsRedistributed, IsGiven};
ghost use Rattle.page_tree.specs.Broken.{Meets};
ghost use Rattle.page_tree.specs.Rebalancing.{IsRebalancing, AreNotAbove};
ghost use Rattle.page_tree.specs.Calls.{Works, KeepsTree};

use crate::balance::{balance_inners, balance_leaves};
use crate::edits::set_free;
use crate::error::TreeError;
use crate::look::Header;
use crate::pages::store;
use flat_mem::{FlatMem, PAGE_BYTES, Page};

/// Two neighbours of one level, under one page.
#[derive(Clone, Copy, Drop)]
pub struct Neighbours {
    pub level: u32,
    pub left: u32,
    pub right: u32,
}

/// Puts a page at the head of the list of free pages.
pub fn give_page<M: FlatMem>(
    mem: &mut M,
    header: &mut Header,
    at: u32,
) -> Result<(), TreeError<M::Error>>
    requires inside { at < M.size mem.old / 512 }
    ensures given { (b : List ℕ) → M.reveals mem.old b
        → MatchResult result (λ _. IsGiven (M.reveals mem.new) b at header.old.free) FromMemory }
    ensures free { OnOk result (header.new.free ≡ at) }
    ensures keeps { KeepsTree header.old header.new }
    ensures top { header.new.top ≡ header.old.top }
    ensures memory { IfErr result FromMemory }
    ensures works { Works M.FlatMem M.cost mem.old mem.new result }
{
    let mut page = [0; PAGE_BYTES];
    write_free(mem, &mut page, at, header.free)?;
    header.free = at;
    Ok(())
}

fn write_free<M: FlatMem>(
    mem: &mut M,
    page: &mut Page,
    at: u32,
    next: u32,
) -> Result<(), TreeError<M::Error>>
    requires inside { at < M.size mem.old / 512 }
    ensures given { (b : List ℕ) → M.reveals mem.old b
        → MatchResult result (λ _. IsGiven (M.reveals mem.new) b at next) FromMemory }
    ensures memory { IfErr result FromMemory }
    ensures works { Works M.FlatMem M.cost mem.old mem.new result }
{
    set_free(page, next);
    match store(mem, at, page) {
        Ok(()) => Ok(()),
        Err(error) => Err(error),
    }
}

// Joins two neighbours, or shifts one item.
fn balance<const E: usize, const K: usize>(
    level: u32,
    left: &mut Page,
    right: &mut Page,
    key: &mut [u8; K],
) -> bool
    requires widths { IsWidths E K }
    requires lean { IsLean E K level (filled left.old) (filled right.old) }
    ensures balanced { (pages : ℕ) (c : List ℕ) (records : List (List ℕ)) (levels : ℕ) (paths index : List ℕ)
        (left_at right_at slot root first top : ℕ)
        (pair : IsPair E K pages c records levels level paths index left_at right_at slot left.old right.old key.old
        root first top)
        → 1 ≤ level → IsBalanced E K level (pair.xs ++ pair.ys) left.new right.new key.new result }
{
    if level == 1 {
        balance_leaves::<E, K>(left, right, key)
    } else {
        balance_inners(left, right, key)
    }
}

/// Joins two neighbours and says whether they are one page now, or shifts one item; then they are written.
pub fn redistribute_page<M: FlatMem, const E: usize, const K: usize>(
    mem: &mut M,
    header: &mut Header,
    pair: Neighbours,
    left: &mut Page,
    right: &mut Page,
    key: &mut [u8; K],
) -> Result<bool, TreeError<M::Error>>
    requires widths { IsWidths E K }
    requires lean { IsLean E K pair.level (filled left.old) (filled right.old) }
    requires left_inside { pair.left < M.size mem.old / 512 }
    requires right_inside { pair.right < M.size mem.old / 512 }
    ensures redistribute { (b : List ℕ) → M.reveals mem.old b
        → (records : List (List ℕ)) (levels : ℕ) (paths index : List ℕ) (slot : ℕ)
        → IsPair E K (M.size mem.old / 512) b records levels pair.level paths index pair.left pair.right slot left.old
        right.old key.old header.old.root header.old.free header.old.top
        → 1 ≤ pair.level
        → MatchResult result
        (IsRedistributed E K (M.size mem.old / 512) (M.reveals mem.new) b records levels pair.level paths index
        pair.left pair.right slot key.new header.old.root header.new.free header.old.top)
        FromMemory }
    ensures on { (root levels : ℕ) (paths index b c : List ℕ) → M.reveals mem.old c
        → IsRebalancing K b c levels pair.level root paths index → 1 ≤ pair.level → Meets K b pair.level pair.left
        → Meets K b pair.level pair.right → AreNotAbove paths pair.level levels pair.left pair.right
        → MatchResult result
        (λ _. (d : List ℕ) × M.reveals mem.new d × IsRebalancing K b d levels (pair.level + 1) root paths index)
        FromMemory }
    ensures keeps { KeepsTree header.old header.new }
    ensures top { header.new.top ≡ header.old.top }
    ensures memory { IfErr result FromMemory }
    ensures works { Works M.FlatMem (2 * M.cost) mem.old mem.new result }
{
    let joined = balance::<E, K>(pair.level, left, right, key);
    match store(mem, pair.left, left) {
        Ok(()) => (),
        Err(error) => return Err(error),
    }
    if joined {
        match give_page(mem, header, pair.right) {
            Ok(()) => return Ok(true),
            Err(error) => return Err(error),
        }
    }
    match store(mem, pair.right, right) {
        Ok(()) => Ok(false),
        Err(error) => Err(error),
    }
}
