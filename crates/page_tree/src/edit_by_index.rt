// A record that is replaced, by its index.
ghost use Rattle.std.specs.Prelude.{◌≡◌, ℕ, ◌+◌, ◌*◌, ◌/◌, ◌<◌, ◌≤◌, ◌⊎◌, List, length, take, IfOk, IfErr, MatchResult};
ghost use Rattle.flat_mem.specs.Order.{key_at};
ghost use Rattle.page_tree.specs.Page.{page_at, count_in};
ghost use Rattle.page_tree.specs.Tree.{IsTree};
ghost use Rattle.page_tree.specs.Climb.{IsHead};
ghost use Rattle.page_tree.specs.Answer.{FromMemory, IsPast};
ghost use Rattle.page_tree.specs.Broken.{Breaks, IfMalformed};
ghost use Rattle.page_tree.specs.Placed.{IsSetAt};
ghost use Rattle.page_tree.specs.Indexed.{IsNthSet, MissesNth};
ghost use Rattle.page_tree.specs.Bounds.{IsSized, IsRoomy, HasRoot};
ghost use Rattle.page_tree.specs.Calls.{Works};

use crate::by_index::find_place;
use crate::edits::set_record;
use crate::error::TreeError;
use crate::look::{Header, Path, read_header};
use crate::pages::store;
use flat_mem::{FlatMem, PAGE_BYTES, Page};

// Writes a record over the one of this index.
fn set_in<M: FlatMem, const E: usize, const K: usize>(
    mem: &mut M,
    header: Header,
    index: u32,
    entry: &[u8; E],
    path: &mut Path,
    page: &mut Page,
) -> Result<(), TreeError<M::Error>>
    requires sized { IsSized E K (M.size mem.old) }
    requires rooted { HasRoot (M.size mem.old / 512) header.levels header.root }
    ensures set { (b : List ℕ) → M.reveals mem.old b → (records : List (List ℕ))
        → IsTree E K (M.size mem.old / 512) b records
        → IsHead (page_at b 0) header.count header.root header.top header.free header.levels → index < length records
        → take K entry.now ≡ key_at K records index
        → MatchResult result (λ _. IsSetAt E K (M.size mem.old / 512) (M.reveals mem.new) records index entry.now)
        FromMemory }
    ensures written { (b : List ℕ) → M.reveals mem.old b
        → IsHead (page_at b 0) header.count header.root header.top header.free header.levels
        → IfOk result (λ _. IsNthSet E K (M.reveals mem.new) b index entry.now) }
    ensures broken { (b : List ℕ) → M.reveals mem.old b
        → IsHead (page_at b 0) header.count header.root header.top header.free header.levels → index < header.count
        → IfErr result (IfMalformed (Breaks E K (M.size mem.old / 512) b)) }
    ensures missing { (b : List ℕ) → M.reveals mem.old b
        → IsHead (page_at b 0) header.count header.root header.top header.free header.levels
        → IfErr result (IfMalformed (λ page. page ≡ 0 → MissesNth E K (M.size mem.old / 512) b index)) }
    ensures works { Works M.FlatMem ((7 + 11 * (M.size mem.old / 512)) * M.cost) mem.old mem.new result }
{
    let place = match find_place::<M, E, K>(mem, header, index, path, page) {
        Ok(place) => place,
        Err(error) => return Err(error),
    };
    set_record(page, place.index, entry);
    match store(mem, place.page, page) {
        Ok(()) => Ok(()),
        Err(error) => Err(error),
    }
}

/// Writes a record over the one of this index, which has the same key.
pub fn replace<M: FlatMem, const E: usize, const K: usize>(
    mem: &mut M,
    index: u32,
    entry: &[u8; E],
) -> Result<(), TreeError<M::Error>>
    requires sized { IsRoomy E K (M.size mem.old) }
    ensures answer { (b : List ℕ) → M.reveals mem.old b → (records : List (List ℕ))
        → IsTree E K (M.size mem.old / 512) b records → index < length records
        → take K entry.now ≡ key_at K records index
        → MatchResult result (λ _. IsSetAt E K (M.size mem.old / 512) (M.reveals mem.new) records index entry.now)
        FromMemory }
    ensures past { (b : List ℕ) → M.reveals mem.old b → (records : List (List ℕ))
        → IsTree E K (M.size mem.old / 512) b records → length records ≤ index → MatchResult result (λ _. ⊥) IsPast }
    ensures past_any { (b : List ℕ) → M.reveals mem.old b → count_in (page_at b 0) ≤ index
        → MatchResult result (λ _. ⊥) IsPast }
    ensures past_same { (b : List ℕ) → M.reveals mem.old b → count_in (page_at b 0) ≤ index → M.reveals mem.new b }
    ensures written { (b : List ℕ) → M.reveals mem.old b
        → IfOk result (λ _. IsNthSet E K (M.reveals mem.new) b index entry.now) }
    ensures broken { (b : List ℕ) → M.reveals mem.old b
        → IfErr result
        (IfMalformed
        (λ page. Breaks E K (M.size mem.old / 512) b page ⊎ ((page ≡ 0) × (count_in (page_at b 0) ≤ index)))) }
    ensures missing { (b : List ℕ) → M.reveals mem.old b
        → IfErr result (IfMalformed (λ page. page ≡ 0 → MissesNth E K (M.size mem.old / 512) b index)) }
    ensures works { Works M.FlatMem (12 * (M.size mem.old / 512) * M.cost) mem.old mem.new result }
{
    let mut page = [0; PAGE_BYTES];
    let header = match read_header::<M, E, K>(mem, &mut page) {
        Ok(header) => header,
        Err(error) => return Err(error),
    };
    if index >= header.count {
        return Err(TreeError::Malformed { page: 0 });
    }
    if header.levels == 0 {
        return Err(TreeError::Malformed { page: 0 });
    }
    let mut path = Path {
        pages: [0; 7],
        index: [0; 7],
    };
    match set_in::<M, E, K>(mem, header, index, entry, &mut path, &mut page) {
        Ok(()) => Ok(()),
        Err(error) => Err(error),
    }
}
