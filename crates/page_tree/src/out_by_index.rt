// A record that is taken out by its index.
ghost use Rattle.std.specs.Prelude.{◌≡◌, ℕ, ◌+◌, ◌*◌, ◌/◌, ◌<◌, ◌≤◌, ◌⊎◌, List, length, remove, IfOk, IfErr, MatchResult};
ghost use Rattle.page_tree.specs.Page.{page_at, filled, leaf_room, count_in, levels_in};
ghost use Rattle.page_tree.specs.Tree.{IsTree};
ghost use Rattle.page_tree.specs.SectorState.{IsSectorState};
ghost use Rattle.page_tree.specs.Climb.{IsHead};
ghost use Rattle.page_tree.specs.Answer.{FromMemory, IsPast};
ghost use Rattle.page_tree.specs.Broken.{Meets, Breaks, IfMalformed};
ghost use Rattle.page_tree.specs.Met.{IsMetPath};
ghost use Rattle.page_tree.specs.Placed.{IsPlaced, IsLeft, IsOutAt};
ghost use Rattle.page_tree.specs.Indexed.{HasNth, MissesNth};
ghost use Rattle.page_tree.specs.Bounds.{IsSized, IsRoomy, IsWay, HasRoot};
ghost use Rattle.page_tree.specs.Calls.{Works};

use crate::by_index::{Place, find_place};
use crate::error::TreeError;
use crate::look::{Header, Path, read_header};
use crate::pages::filled_of;
use crate::redistribute::give_page;
use crate::take::finish;
use crate::taking::{take_first, take_later};
use flat_mem::{FlatMem, PAGE_BYTES, Page};

// Takes the record at this place out. Only the header is left to be written.
fn take_out<M: FlatMem, const E: usize, const K: usize>(
    mem: &mut M,
    header: &mut Header,
    path: &Path,
    place: Place,
    page: &mut Page,
) -> Result<(), TreeError<M::Error>>
    requires sized { IsSized E K (M.size mem.old) }
    requires way { IsWay (M.size mem.old / 512) header.old.levels path.now.pages }
    requires inside { place.page < M.size mem.old / 512 }
    requires below { place.index < filled page.old }
    requires most { filled page.old ≤ leaf_room E }
    ensures out { (b : List ℕ) → M.reveals mem.old b
        → (records : List (List ℕ))
        (here : IsSectorState E K (M.size mem.old / 512) b records header.old.levels header.old.root header.old.free
        header.old.top)
        (i : ℕ)
        → IsPlaced b header.old.levels here.nodes page.old path.now.pages path.now.index i place.page place.index
        → MatchResult result
        (λ _.
        IsLeft E K (M.size mem.old / 512) (M.reveals mem.new) (remove records i) header.new.levels header.new.root
        header.new.free header.new.top)
        FromMemory }
    ensures broken { (b : List ℕ) → M.reveals mem.old b → header.old.levels ≡ levels_in (page_at b 0)
        → IsMetPath K b header.old.levels 1 header.old.root path.now.pages path.now.index → Meets K b 1 place.page
        → page.old ≡ page_at b place.page → IfErr result (IfMalformed (Breaks E K (M.size mem.old / 512) b)) }
    ensures named { (b : List ℕ) → M.reveals mem.old b → header.old.levels ≡ levels_in (page_at b 0)
        → IsMetPath K b header.old.levels 1 header.old.root path.now.pages path.now.index → Meets K b 1 place.page
        → IfErr result (IfMalformed (λ page. 1 ≤ page)) }
    ensures levels { header.new.levels ≤ header.old.levels }
    ensures count { header.new.count ≡ header.old.count }
    ensures works { Works M.FlatMem (28 * M.cost) mem.old mem.new result }
{
    let count = filled_of(page);
    if count == 1 {
        if header.levels > 1 {
            return Err(TreeError::Malformed { page: place.page });
        }
        header.root = 0;
        header.levels = 0;
        match give_page(mem, header, place.page) {
            Ok(()) => return Ok(()),
            Err(error) => return Err(error),
        }
    }
    if place.index == 0 {
        match take_first::<M, E, K>(mem, header, path, place.page, page, count) {
            Ok(()) => return Ok(()),
            Err(error) => return Err(error),
        }
    }
    match take_later::<M, E, K>(mem, header, path, place, page, count) {
        Ok(()) => (),
        Err(error) => return Err(error),
    }
    Ok(())
}

// Finds the record of this index and takes it out. Only the header is left to be written.
fn remove_in<M: FlatMem, const E: usize, const K: usize>(
    mem: &mut M,
    header: &mut Header,
    index: u32,
    path: &mut Path,
    page: &mut Page,
) -> Result<(), TreeError<M::Error>>
    requires sized { IsSized E K (M.size mem.old) }
    requires rooted { HasRoot (M.size mem.old / 512) header.old.levels header.old.root }
    ensures out { (b : List ℕ) → M.reveals mem.old b → (records : List (List ℕ))
        → IsTree E K (M.size mem.old / 512) b records
        → IsHead (page_at b 0) header.old.count header.old.root header.old.top header.old.free header.old.levels
        → index < length records
        → MatchResult result
        (λ _.
        IsLeft E K (M.size mem.old / 512) (M.reveals mem.new) (remove records index) header.new.levels header.new.root
        header.new.free header.new.top)
        FromMemory }
    ensures stood { (b : List ℕ) → M.reveals mem.old b
        → IsHead (page_at b 0) header.old.count header.old.root header.old.top header.old.free header.old.levels
        → IfOk result (λ _. HasNth E K b index) }
    ensures broken { (b : List ℕ) → M.reveals mem.old b
        → IsHead (page_at b 0) header.old.count header.old.root header.old.top header.old.free header.old.levels
        → index < header.old.count → IfErr result (IfMalformed (Breaks E K (M.size mem.old / 512) b)) }
    ensures missing { (b : List ℕ) → M.reveals mem.old b
        → IsHead (page_at b 0) header.old.count header.old.root header.old.top header.old.free header.old.levels
        → IfErr result (IfMalformed (λ page. page ≡ 0 → MissesNth E K (M.size mem.old / 512) b index)) }
    ensures few { header.new.levels ≤ 6 }
    ensures count { header.new.count ≡ header.old.count }
    ensures works { Works M.FlatMem ((34 + 11 * (M.size mem.old / 512)) * M.cost) mem.old mem.new result }
{
    let place = match find_place::<M, E, K>(mem, *header, index, path, page) {
        Ok(place) => place,
        Err(error) => return Err(error),
    };
    match take_out::<M, E, K>(mem, header, path, place, page) {
        Ok(()) => Ok(()),
        Err(error) => Err(error),
    }
}

/// Takes out the record of this index.
pub fn remove<M: FlatMem, const E: usize, const K: usize>(
    mem: &mut M,
    index: u32,
) -> Result<(), TreeError<M::Error>>
    requires sized { IsRoomy E K (M.size mem.old) }
    ensures answer { (b : List ℕ) → M.reveals mem.old b → (records : List (List ℕ))
        → IsTree E K (M.size mem.old / 512) b records → index < length records
        → MatchResult result (λ _. IsOutAt E K (M.size mem.old / 512) (M.reveals mem.new) records index) FromMemory }
    ensures past { (b : List ℕ) → M.reveals mem.old b → (records : List (List ℕ))
        → IsTree E K (M.size mem.old / 512) b records → length records ≤ index → MatchResult result (λ _. ⊥) IsPast }
    ensures past_any { (b : List ℕ) → M.reveals mem.old b → count_in (page_at b 0) ≤ index
        → MatchResult result (λ _. ⊥) IsPast }
    ensures past_same { (b : List ℕ) → M.reveals mem.old b → count_in (page_at b 0) ≤ index → M.reveals mem.new b }
    ensures stood { (b : List ℕ) → M.reveals mem.old b → IfOk result (λ _. HasNth E K b index) }
    ensures broken { (b : List ℕ) → M.reveals mem.old b
        → IfErr result
        (IfMalformed
        (λ page. Breaks E K (M.size mem.old / 512) b page ⊎ ((page ≡ 0) × (count_in (page_at b 0) ≤ index)))) }
    ensures missing { (b : List ℕ) → M.reveals mem.old b
        → IfErr result (IfMalformed (λ page. page ≡ 0 → MissesNth E K (M.size mem.old / 512) b index)) }
    ensures works { Works M.FlatMem (15 * (M.size mem.old / 512) * M.cost) mem.old mem.new result }
{
    let mut head = [0; PAGE_BYTES];
    let mut header = match read_header::<M, E, K>(mem, &mut head) {
        Ok(header) => header,
        Err(error) => return Err(error),
    };
    if index >= header.count {
        return Err(TreeError::Malformed { page: 0 });
    }
    if header.levels == 0 {
        return Err(TreeError::Malformed { page: 0 });
    }
    let mut path = Path {
        pages: [0; 7],
        index: [0; 7],
    };
    let mut page = [0; PAGE_BYTES];
    match remove_in::<M, E, K>(mem, &mut header, index, &mut path, &mut page) {
        Ok(()) => (),
        Err(error) => return Err(error),
    }
    header.count -= 1;
    match finish(mem, &mut head, header) {
        Ok(()) => (),
        Err(error) => return Err(error),
    }
    Ok(())
}
