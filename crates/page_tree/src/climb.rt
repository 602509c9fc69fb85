// An insertion on its way up.
ghost use Rattle.std.specs.Prelude.{◌≡◌, ◌≢◌, ℕ, ◌+◌, ◌*◌, ◌/◌, ◌^◌, ◌<◌, ◌≤◌, List, length, get_or, false, IfOk, IfErr, MatchResult};
ghost use Rattle.page_tree.specs.Answer.{FromMemory};
ghost use Rattle.page_tree.specs.Open.{CanTake};
ghost use Rattle.page_tree.specs.Climb.{IsClimb, IsStep, IsStoredAs, RevealsClosed};
ghost use Rattle.page_tree.specs.Page.{IsWidths, kind_of};
ghost use Rattle.page_tree.specs.Broken.{Meets, StopsInsertion, IfMalformed};
ghost use Rattle.page_tree.specs.Met.{IsMetPath};
ghost use Rattle.page_tree.specs.Way.{IsUnderWay, WasFull, GoesOn};
ghost use Rattle.page_tree.specs.Put.{capacity_of};
ghost use Rattle.page_tree.specs.Bounds.{HasRoom, IsBelowRoot, IsWay};
ghost use Rattle.page_tree.specs.Calls.{Works, KeepsTree};

use crate::error::TreeError;
use crate::look::{Header, Path};
use crate::pages::{filled_of, load, put_child, store};
use crate::split::{make_root, split_inner};
use crate::take::take_page;
use flat_mem::{FlatMem, PAGE_BYTES, Page};

/// The second half of a page that was split, which has still to be listed above: its first key and its page.
#[derive(Drop)]
pub struct NewHalf<const K: usize> {
    pub key: [u8; K],
    pub page: u32,
}

/// Writes the halves of a page: the first in its place, the second into a page that is taken.
pub fn store_halves<M: FlatMem>(
    mem: &mut M,
    header: &mut Header,
    at: u32,
    left: &Page,
    right: &Page,
) -> Result<u32, TreeError<M::Error>>
    requires small { M.size mem.old ≤ 2 ^ 27 }
    requires some_pages { 9 * 512 ≤ M.size mem.old }
    requires inside { at < M.size mem.old / 512 }
    requires free { header.old.free < M.size mem.old / 512 }
    ensures halves { (b : List ℕ) → M.reveals mem.old b → (free : List ℕ)
        → CanTake b free header.old.free header.old.top (M.size mem.old / 512)
        → MatchResult result
        (IsStoredAs (M.reveals mem.new) b free (M.size mem.old / 512) at left.now right.now header.old.top
        header.new.free header.new.top)
        FromMemory }
    ensures on { (e k level t : ℕ) (b c : List ℕ) → M.reveals mem.old c → t ≤ 5
        → IsUnderWay k b c level t header.old.free header.old.top → Meets k b (level + 1) at → kind_of left.now ≢ 0
        → kind_of right.now ≢ 0
        → MatchResult result
        (λ _. (d : List ℕ) × M.reveals mem.new d × IsUnderWay k b d (level + 1) (t + 1) header.new.free header.new.top)
        (IfMalformed (StopsInsertion e k (M.size mem.old / 512) b)) }
    ensures free { IfOk result (λ _. header.new.free < M.size mem.old / 512) }
    ensures keeps { KeepsTree header.old header.new }
    ensures works { Works M.FlatMem (3 * M.cost) mem.old mem.new result }
{
    let page = match take_page(mem, header) {
        Ok(page) => page,
        Err(error) => return Err(error),
    };
    match store(mem, at, left) {
        Ok(()) => (),
        Err(error) => return Err(error),
    }
    match store(mem, page, right) {
        Ok(()) => Ok(page),
        Err(error) => Err(error),
    }
}

/// Puts the new half of level `level` into the page above it on the path, and says whether there was room. Else that page is split, and its new half is carried on.
pub fn put_up<M: FlatMem, const K: usize>(
    mem: &mut M,
    header: &mut Header,
    path: &Path,
    level: u32,
    half: &mut NewHalf<K>,
) -> Result<bool, TreeError<M::Error>>
    requires sized { HasRoom K (M.size mem.old) }
    requires below { IsBelowRoot header.old.levels level }
    requires inside { get_or path.now.pages (level + 1) 0 < M.size mem.old / 512 }
    requires free { header.old.free < M.size mem.old / 512 }
    ensures step { (e : ℕ) (b : List ℕ) → M.reveals mem.old b → (records : List (List ℕ))
        → IsClimb e K (M.size mem.old / 512) b records header.old.levels level path.now.pages path.now.index
        half.old.key half.old.page header.old.root header.old.free header.old.top
        → MatchResult result
        (IsStep e K (M.size mem.old / 512) (M.reveals mem.new) records header.old.levels (level + 1) path.now.pages
        path.now.index half.new.key half.new.page header.old.root header.new.free header.new.top)
        FromMemory }
    ensures on { (e root : ℕ) (b c : List ℕ) → M.reveals mem.old c
        → IsUnderWay K b c level level header.old.free header.old.top
        → IsMetPath K b header.old.levels 1 root path.now.pages path.now.index
        → MatchResult result (GoesOn K (M.reveals mem.new) b (level + 1) header.new.free header.new.top)
        (IfMalformed (StopsInsertion e K (M.size mem.old / 512) b)) }
    ensures full { (e root : ℕ) (b c : List ℕ) → M.reveals mem.old c
        → IsUnderWay K b c level level header.old.free header.old.top
        → IsMetPath K b header.old.levels 1 root path.now.pages path.now.index
        → IfOk result
        (λ done. done ≡ false → WasFull e K (M.size mem.old / 512) b (get_or path.now.pages (level + 1) 0)) }
    ensures free { IfOk result (λ _. header.new.free < M.size mem.old / 512) }
    ensures keeps { KeepsTree header.old header.new }
    ensures works { Works M.FlatMem (4 * M.cost) mem.old mem.new result }
{
    let at = path.pages[level as usize + 1];
    let place = path.index[level as usize + 1] as usize + 1;
    let mut page = [0; PAGE_BYTES];
    match load(mem, at, &mut page) {
        Ok(()) => (),
        Err(error) => return Err(error),
    }
    let count = filled_of(&page);
    if page[0] != 2 || count == 0 || count > 500 / (K + 4) || place > count + 1 {
        return Err(TreeError::Malformed { page: at });
    }
    if count < 500 / (K + 4) {
        put_child(&mut page, count, place - 1, place, &half.key, half.page);
        match store(mem, at, &page) {
            Ok(()) => return Ok(true),
            Err(error) => return Err(error),
        }
    }
    let mut right = [0; PAGE_BYTES];
    split_inner(
        &mut page,
        &mut right,
        count,
        place,
        &mut half.key,
        half.page,
    );
    let new = match store_halves(mem, header, at, &page, &right) {
        Ok(new) => new,
        Err(error) => return Err(error),
    };
    half.page = new;
    Ok(false)
}

/// Sets a new root above one that was split.
pub fn grow<M: FlatMem, const K: usize>(
    mem: &mut M,
    header: &mut Header,
    key: &[u8; K],
    link: u32,
) -> Result<(), TreeError<M::Error>>
    requires sized { HasRoom K (M.size mem.old) }
    requires some { 1 ≤ header.old.levels }
    requires few { header.old.levels ≤ 6 }
    requires free { header.old.free < M.size mem.old / 512 }
    ensures grown { (e : ℕ) (b : List ℕ) → M.reveals mem.old b
        → (records : List (List ℕ)) (level : ℕ) (paths index : List ℕ) → IsWidths e K
        → length records ≤ capacity_of e (M.size mem.old / 512) → level ≡ header.old.levels
        → IsClimb e K (M.size mem.old / 512) b records header.old.levels level paths index key.now link header.old.root
        header.old.free header.old.top
        → MatchResult result
        (λ _.
        RevealsClosed e K (M.size mem.old / 512) (M.reveals mem.new) records header.new.levels header.new.root
        header.new.free header.new.top)
        FromMemory }
    ensures on { (e : ℕ) (b c : List ℕ) → M.reveals mem.old c
        → IsUnderWay K b c header.old.levels header.old.levels header.old.free header.old.top
        → (6 ≤ header.old.levels → StopsInsertion e K (M.size mem.old / 512) b header.old.root)
        → IfErr result (IfMalformed (StopsInsertion e K (M.size mem.old / 512) b)) }
    ensures few_now { IfOk result (λ _. header.new.levels ≤ 6) }
    ensures count { header.new.count ≡ header.old.count }
    ensures works { Works M.FlatMem (2 * M.cost) mem.old mem.new result }
{
    if header.levels >= 6 {
        return Err(TreeError::Malformed { page: header.root });
    }
    let new = match take_page(mem, header) {
        Ok(new) => new,
        Err(error) => return Err(error),
    };
    let mut page = [0; PAGE_BYTES];
    make_root(&mut page, header.root, key, link);
    match store(mem, new, &page) {
        Ok(()) => (),
        Err(error) => return Err(error),
    }
    header.root = new;
    header.levels += 1;
    Ok(())
}

/// Lists the new half of the leaf in the levels above, as far up as pages are full.
pub fn climb<M: FlatMem, const K: usize>(
    mem: &mut M,
    header: &mut Header,
    path: &Path,
    half: &mut NewHalf<K>,
) -> Result<(), TreeError<M::Error>>
    requires sized { HasRoom K (M.size mem.old) }
    requires way { IsWay (M.size mem.old / 512) header.old.levels path.now.pages }
    requires free { header.old.free < M.size mem.old / 512 }
    ensures done { (e : ℕ) (b : List ℕ) → M.reveals mem.old b → (records : List (List ℕ)) → IsWidths e K
        → length records ≤ capacity_of e (M.size mem.old / 512)
        → IsClimb e K (M.size mem.old / 512) b records header.old.levels 1 path.now.pages path.now.index half.old.key
        half.old.page header.old.root header.old.free header.old.top
        → MatchResult result
        (λ _.
        RevealsClosed e K (M.size mem.old / 512) (M.reveals mem.new) records header.new.levels header.new.root
        header.new.free header.new.top)
        FromMemory }
    ensures on { (e : ℕ) (b c : List ℕ) → M.reveals mem.old c → IsUnderWay K b c 1 1 header.old.free header.old.top
        → Meets K b header.old.levels header.old.root
        → IsMetPath K b header.old.levels 1 header.old.root path.now.pages path.now.index
        → IfErr result (IfMalformed (StopsInsertion e K (M.size mem.old / 512) b)) }
    ensures few_now { IfOk result (λ _. header.new.levels ≤ 6) }
    ensures count { header.new.count ≡ header.old.count }
    ensures works { Works M.FlatMem (22 * M.cost) mem.old mem.new result }
{
    let mut level = 1;
    'up: while level < header.levels {
        match put_up(mem, header, path, level, half) {
            Ok(done) => {
                if done {
                    return Ok(());
                }
            }
            Err(error) => return Err(error),
        }
        level += 1;
    }
    grow(mem, header, &half.key, half.page)
}
