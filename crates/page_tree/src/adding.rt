// An insertion from the header on.
ghost use Rattle.std.specs.Prelude.{◌≡◌, ℕ, ◌+◌, ◌*◌, ◌/◌, ◌<◌, ◌≤◌, List, length, take, IfOk, IfErr, MatchResult};
ghost use Rattle.page_tree.specs.Page.{page_at, kind_of, filled, count_in};
ghost use Rattle.page_tree.specs.Broken.{Meets, StopsInsertion, IfMalformed};
ghost use Rattle.page_tree.specs.Way.{IsUnderWay, GoesOn};
ghost use Rattle.page_tree.specs.Tree.{IsTree};
ghost use Rattle.page_tree.specs.Path.{IsReached};
ghost use Rattle.page_tree.specs.Answer.{FromMemory, IfMemory, IfFull, CanBegin};
ghost use Rattle.page_tree.specs.Put.{IsPut, FullOr, capacity_of};
ghost use Rattle.page_tree.specs.Climb.{IsHead, IsReady, IsLow, IsPutIn};
ghost use Rattle.page_tree.specs.Bounds.{IsRoomy, IsFilledLeaf};
ghost use Rattle.page_tree.specs.Calls.{Works, KeepsTree};

use crate::climb::{NewHalf, climb, store_halves};
use crate::error::TreeError;
use crate::look::{Header, Path, capacity_of_pages, descend, read_header};
use crate::pages::{count_at_most, filled_of, put_record, store};
use crate::split::{make_leaf, split_leaf};
use crate::take::{finish, take_page};
use flat_mem::{FlatMem, PAGE_BYTES, Page};

/// Puts a record into its leaf, and says whether there was room. Else the leaf is split, and `half` is its new half.
fn put_low<M: FlatMem, const E: usize, const K: usize>(
    mem: &mut M,
    header: &mut Header,
    at: u32,
    page: &mut Page,
    entry: &[u8; E],
    half: &mut NewHalf<K>,
) -> Result<bool, TreeError<M::Error>>
    requires sized { IsRoomy E K (M.size mem.old) }
    requires inside { at < M.size mem.old / 512 }
    requires filled { IsFilledLeaf E page.old }
    requires same { half.old.key ≡ take K entry.now }
    requires levels { 1 ≤ header.old.levels }
    requires few { header.old.levels ≤ 6 }
    requires free { header.old.free < M.size mem.old / 512 }
    ensures low { (b : List ℕ) → M.reveals mem.old b
        → (records : List (List ℕ))
        (ready : IsReady E K (M.size mem.old / 512) b records header.old.levels header.old.root header.old.free
        header.old.top)
        (paths index : List ℕ)
        → IsReached b header.old.levels ready.nodes half.old.key page.old paths index at
        → MatchResult result
        (IsLow E K (M.size mem.old / 512) (M.reveals mem.new) records entry.now half.old.key header.old.levels paths
        index half.new.key half.new.page header.old.root header.new.free header.new.top)
        FromMemory }
    ensures on { (b : List ℕ) → M.reveals mem.old b → IsUnderWay K b b 0 0 header.old.free header.old.top
        → Meets K b 1 at → kind_of page.old ≡ 1
        → MatchResult result (GoesOn K (M.reveals mem.new) b 1 header.new.free header.new.top)
        (IfMalformed (StopsInsertion E K (M.size mem.old / 512) b)) }
    ensures free { IfOk result (λ _. header.new.free < M.size mem.old / 512) }
    ensures keeps { KeepsTree header.old header.new }
    ensures works { Works M.FlatMem (3 * M.cost) mem.old mem.new result }
{
    let count = filled_of(page);
    let place = count_at_most(page, E, count, &half.key);
    if count < 504 / E {
        put_record(page, count, place, entry);
        match store(mem, at, page) {
            Ok(()) => return Ok(true),
            Err(error) => return Err(error),
        }
    }
    let mut right = [0; PAGE_BYTES];
    split_leaf(page, &mut right, count, place, entry, &mut half.key);
    let new = match store_halves(mem, header, at, page, &right) {
        Ok(new) => new,
        Err(error) => return Err(error),
    };
    half.page = new;
    Ok(false)
}

/// Puts the first record of all.
fn put_first<M: FlatMem, const E: usize, const K: usize>(
    mem: &mut M,
    header: &mut Header,
    entry: &[u8; E],
) -> Result<(), TreeError<M::Error>>
    requires sized { IsRoomy E K (M.size mem.old) }
    requires none { header.old.levels ≡ 0 }
    requires free { header.old.free < M.size mem.old / 512 }
    ensures put { (b : List ℕ) → M.reveals mem.old b → (records : List (List ℕ))
        → IsTree E K (M.size mem.old / 512) b records
        → IsHead (page_at b 0) header.old.count header.old.root header.old.top header.old.free header.old.levels
        → MatchResult result
        (λ _.
        IsPutIn E K (M.size mem.old / 512) (M.reveals mem.new) records entry.now header.new.levels header.new.root
        header.new.free header.new.top)
        FromMemory }
    ensures on { (b : List ℕ) → M.reveals mem.old b → IsUnderWay K b b 0 0 header.old.free header.old.top
        → IfErr result (IfMalformed (StopsInsertion E K (M.size mem.old / 512) b)) }
    ensures count { header.new.count ≡ header.old.count }
    ensures levels { IfOk result (λ _. header.new.levels ≤ 6) }
    ensures works { Works M.FlatMem (2 * M.cost) mem.old mem.new result }
{
    let new = match take_page(mem, header) {
        Ok(new) => new,
        Err(error) => return Err(error),
    };
    let mut page = [0; PAGE_BYTES];
    make_leaf(&mut page, entry);
    match store(mem, new, &page) {
        Ok(()) => (),
        Err(error) => return Err(error),
    }
    header.root = new;
    header.levels = 1;
    Ok(())
}

/// Puts a record into the levels. Only the header is left to be written.
fn put_in<M: FlatMem, const E: usize, const K: usize>(
    mem: &mut M,
    header: &mut Header,
    entry: &[u8; E],
) -> Result<(), TreeError<M::Error>>
    requires sized { IsRoomy E K (M.size mem.old) }
    requires begins { CanBegin (M.size mem.old / 512) header.old.levels header.old.root }
    requires free { header.old.free < M.size mem.old / 512 }
    ensures put { (b : List ℕ) → M.reveals mem.old b → (records : List (List ℕ))
        → IsTree E K (M.size mem.old / 512) b records
        → IsHead (page_at b 0) header.old.count header.old.root header.old.top header.old.free header.old.levels
        → length records < capacity_of E (M.size mem.old / 512)
        → MatchResult result
        (λ _.
        IsPutIn E K (M.size mem.old / 512) (M.reveals mem.new) records entry.now header.new.levels header.new.root
        header.new.free header.new.top)
        FromMemory }
    ensures on { (b : List ℕ) → M.reveals mem.old b
        → IsHead (page_at b 0) header.old.count header.old.root header.old.top header.old.free header.old.levels
        → IfErr result (IfMalformed (StopsInsertion E K (M.size mem.old / 512) b)) }
    ensures count { header.new.count ≡ header.old.count }
    ensures few { IfOk result (λ _. header.new.levels ≤ 6) }
    ensures works { Works M.FlatMem (31 * M.cost) mem.old mem.new result }
{
    if header.levels == 0 {
        return put_first::<M, E, K>(mem, header, entry);
    }
    let mut half = NewHalf {
        key: [0; K],
        page: 0,
    };
    half.key.copy_from_slice(&entry[..K]);
    let mut path = Path {
        pages: [0; 7],
        index: [0; 7],
    };
    let mut page = [0; PAGE_BYTES];
    let at = match descend::<M, E, K>(
        mem,
        header.root,
        header.levels,
        &half.key,
        &mut path,
        &mut page,
    ) {
        Ok(at) => at,
        Err(error) => return Err(error),
    };
    let done = match put_low(mem, header, at, &mut page, entry, &mut half) {
        Ok(done) => done,
        Err(error) => return Err(error),
    };
    if done {
        return Ok(());
    }
    climb(mem, header, &path, &mut half)
}

/// Puts a record after those whose key is at most its own.
pub fn insert<M: FlatMem, const E: usize, const K: usize>(
    mem: &mut M,
    entry: &[u8; E],
) -> Result<(), TreeError<M::Error>>
    requires sized { IsRoomy E K (M.size mem.old) }
    ensures answer { (b : List ℕ) → M.reveals mem.old b → (records : List (List ℕ))
        → IsTree E K (M.size mem.old / 512) b records
        → MatchResult result (λ _. IsPut E K (M.size mem.old / 512) (M.reveals mem.new) records entry.now)
        (FullOr E (M.size mem.old / 512) (M.reveals mem.new) b records) }
    ensures full { (b : List ℕ) → M.reveals mem.old b
        → IfErr result (IfFull (capacity_of E (M.size mem.old / 512) ≤ count_in (page_at b 0))) }
    ensures full_same { (b : List ℕ) → M.reveals mem.old b → IfErr result (IfFull (M.reveals mem.new b)) }
    ensures broken { (b : List ℕ) → M.reveals mem.old b
        → IfErr result (IfMalformed (StopsInsertion E K (M.size mem.old / 512) b)) }
    ensures kept { M.beside mem.old mem.new }
    ensures cause { IfErr result (IfMemory (M.accounted mem.old mem.new)) }
    ensures cost { M.spent mem.new ≤ M.spent mem.old + 33 * M.cost }
{
    let capacity = capacity_of_pages::<E>((mem.len() / PAGE_BYTES as u64) as u32);
    let mut head = [0; PAGE_BYTES];
    let mut header = match read_header::<M, E, K>(mem, &mut head) {
        Ok(header) => header,
        Err(error) => return Err(error),
    };
    if header.count >= capacity {
        return Err(TreeError::Full);
    }
    match put_in::<M, E, K>(mem, &mut header, entry) {
        Ok(()) => (),
        Err(error) => return Err(error),
    }
    header.count += 1;
    match finish(mem, &mut head, header) {
        Ok(()) => (),
        Err(error) => return Err(error),
    }
    Ok(())
}
