// A record is taken out of its leaf and out of the levels.
ghost use Rattle.std.specs.Prelude.{◌≡◌, ℕ, ◌+◌, ◌*◌, ◌/◌, ◌<◌, ◌≤◌, List, remove, IfErr, MatchResult};
ghost use Rattle.page_tree.specs.Page.{page_at, levels_in};
ghost use Rattle.page_tree.specs.Tree.{node_at, before};
ghost use Rattle.page_tree.specs.Path.{IsPath};
ghost use Rattle.page_tree.specs.Answer.{FromMemory};
ghost use Rattle.page_tree.specs.Climb.{RevealsClosed};
ghost use Rattle.page_tree.specs.SectorState.{IsSectorState};
ghost use Rattle.page_tree.specs.Broken.{Meets, Breaks, IfMalformed};
ghost use Rattle.page_tree.specs.Met.{IsMetPath, AvoidsHeader};
ghost use Rattle.page_tree.specs.Bounds.{IsSized, IsWay, HasTwo};
ghost use Rattle.page_tree.specs.Calls.{Works, LowersTree};

use crate::by_index::Place;
use crate::edits::{record_of, remove_record};
use crate::error::TreeError;
use crate::look::{Header, Path};
use crate::naming::name_leaf;
use crate::underfull::rebalance;
use flat_mem::{FlatMem, PAGE_BYTES, Page};

/// Takes out a record that is not the first of its leaf.
pub fn take_later<M: FlatMem, const E: usize, const K: usize>(
    mem: &mut M,
    header: &mut Header,
    path: &Path,
    place: Place,
    page: &mut Page,
    count: usize,
) -> Result<(), TreeError<M::Error>>
    requires sized { IsSized E K (M.size mem.old) }
    requires way { IsWay (M.size mem.old / 512) header.old.levels path.now.pages }
    requires inside { place.page < M.size mem.old / 512 }
    requires two { HasTwo E page.old count }
    requires below { place.index < count }
    requires after { 0 < place.index }
    ensures out { (b : List ℕ) → M.reveals mem.old b
        → (records : List (List ℕ))
        (here : IsSectorState E K (M.size mem.old / 512) b records header.old.levels header.old.root header.old.free
        header.old.top)
        (home : ℕ → ℕ)
        → IsPath here.nodes header.old.levels 1 path.now.pages path.now.index place.page home
        → page.old ≡ page_at b (node_at (here.nodes 1) (home 1)).page
        → MatchResult result
        (λ _.
        RevealsClosed E K (M.size mem.old / 512) (M.reveals mem.new)
        (remove records (before (here.nodes 1) (home 1) + place.index)) header.new.levels header.new.root
        header.new.free header.new.top)
        FromMemory }
    ensures broken { (root : ℕ) (b : List ℕ) → M.reveals mem.old b → header.old.levels ≡ levels_in (page_at b 0)
        → IsMetPath K b header.old.levels 1 root path.now.pages path.now.index → Meets K b 1 place.page
        → IfErr result (IfMalformed (Breaks E K (M.size mem.old / 512) b)) }
    ensures named { AvoidsHeader header.old.levels path.now.pages → IfErr result (IfMalformed (λ page. 1 ≤ page)) }
    ensures lowers { LowersTree header.old header.new }
    ensures works { Works M.FlatMem (26 * M.cost) mem.old mem.new result }
{
    remove_record::<E>(page, count, place.index);
    match rebalance::<M, E, K>(mem, header, path, place.page, page) {
        Ok(()) => (),
        Err(error) => return Err(error),
    }
    Ok(())
}

/// Takes out the first of at least two records of a leaf. The key of the second goes to the page above that has the first.
pub fn take_first<M: FlatMem, const E: usize, const K: usize>(
    mem: &mut M,
    header: &mut Header,
    path: &Path,
    at: u32,
    page: &mut Page,
    count: usize,
) -> Result<(), TreeError<M::Error>>
    requires sized { IsSized E K (M.size mem.old) }
    requires way { IsWay (M.size mem.old / 512) header.old.levels path.now.pages }
    requires inside { at < M.size mem.old / 512 }
    requires two { HasTwo E page.old count }
    ensures out { (b : List ℕ) → M.reveals mem.old b
        → (records : List (List ℕ))
        (here : IsSectorState E K (M.size mem.old / 512) b records header.old.levels header.old.root header.old.free
        header.old.top)
        (home : ℕ → ℕ)
        → IsPath here.nodes header.old.levels 1 path.now.pages path.now.index at home
        → page.old ≡ page_at b (node_at (here.nodes 1) (home 1)).page
        → MatchResult result
        (λ _.
        RevealsClosed E K (M.size mem.old / 512) (M.reveals mem.new)
        (remove records (before (here.nodes 1) (home 1) + 0)) header.new.levels header.new.root header.new.free
        header.new.top)
        FromMemory }
    ensures broken { (root : ℕ) (b : List ℕ) → M.reveals mem.old b → header.old.levels ≡ levels_in (page_at b 0)
        → IsMetPath K b header.old.levels 1 root path.now.pages path.now.index → Meets K b 1 at
        → IfErr result (IfMalformed (Breaks E K (M.size mem.old / 512) b)) }
    ensures named { (root : ℕ) (b : List ℕ) → M.reveals mem.old b → header.old.levels ≡ levels_in (page_at b 0)
        → IsMetPath K b header.old.levels 1 root path.now.pages path.now.index
        → IfErr result (IfMalformed (λ page. 1 ≤ page)) }
    ensures lowers { LowersTree header.old header.new }
    ensures works { Works M.FlatMem (28 * M.cost) mem.old mem.new result }
{
    let mut above = [0; PAGE_BYTES];
    let mut second = [0; E];
    let mut key = [0; K];
    record_of(page, 1, &mut second);
    key.copy_from_slice(&second[..K]);
    match name_leaf(mem, path, header.levels, &key, &mut above) {
        Ok(()) => (),
        Err(error) => return Err(error),
    }
    remove_record::<E>(page, count, 0);
    match rebalance::<M, E, K>(mem, header, path, at, page) {
        Ok(()) => (),
        Err(error) => return Err(error),
    }
    Ok(())
}
