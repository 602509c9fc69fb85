// Searches from the root down.
ghost use Rattle.std.specs.Prelude.{◌≡◌, ℕ, ◌*◌, ◌/◌, ◌^◌, ◌<◌, ◌≤◌, List, length, get_or, true, false, IfOk, IfErr, IfSome, OnOk, MatchResult, is_some};
ghost use Rattle.page_tree.specs.Page.{IsWidths, page_at, kind_of, filled, leaf_room, count_in, root_in, top_in, free_in, levels_in};
ghost use Rattle.page_tree.specs.Tree.{Node, IsRooted, IsTree};
ghost use Rattle.page_tree.specs.Path.{IsReached};
ghost use Rattle.page_tree.specs.Climb.{IsHead};
ghost use Rattle.page_tree.specs.Put.{capacity_of};
ghost use Rattle.page_tree.specs.Broken.{AreInForm, IsHeaderForm, Meets, Breaks, IfMalformed};
ghost use Rattle.page_tree.specs.Met.{IsMetPath};
ghost use Rattle.page_tree.specs.Reveals.{StandsIn};
ghost use Rattle.page_tree.specs.Answer.{IsLastEntry, IsLastInPage, CanBegin, FromMemory, IsPast};
ghost use Rattle.page_tree.specs.Bounds.{IsRoomy, IsOnLevel};
ghost use Rattle.page_tree.specs.Calls.{Looks};

use crate::error::TreeError;
use crate::pages::{count_at_most, filled_of, link_of, load};
use byteorder::{BigEndian, ByteOrder};
use flat_mem::{FlatMem, PAGE_BYTES, Page};

#[derive(Clone, Copy, Drop)]
pub struct Header {
    pub count: u32,
    pub root: u32,
    pub top: u32,
    pub free: u32,
    pub levels: u32,
}

// The numbers of a header, which stand in its first 17 bytes.
fn header_of(bytes: &[u8]) -> Header
    requires { 17 ≤ length bytes.now }
    ensures count { result.count ≡ count_in bytes.now }
    ensures root { result.root ≡ root_in bytes.now }
    ensures top { result.top ≡ top_in bytes.now }
    ensures free { result.free ≡ free_in bytes.now }
    ensures levels { result.levels ≡ levels_in bytes.now }
{
    Header {
        count: BigEndian::read_u32(&bytes[0..4]),
        root: BigEndian::read_u32(&bytes[4..8]),
        top: BigEndian::read_u32(&bytes[8..12]),
        free: BigEndian::read_u32(&bytes[12..16]),
        levels: bytes[16] as u32,
    }
}

/// The way from the root down: at each level the page, and which of its children was chosen.
#[derive(Drop)]
pub struct Path {
    pub pages: [u32; 7],
    pub index: [u32; 7],
}

/// Goes down to the leaf where an entry with this key belongs, and leaves its bytes in `page`.
pub fn descend<M: FlatMem, const E: usize, const K: usize>(
    mem: &mut M,
    root: u32,
    levels: u32,
    key: &[u8; K],
    path: &mut Path,
    page: &mut Page,
) -> Result<u32, TreeError<M::Error>>
    requires widths { IsWidths E K }
    requires small { M.size mem.old ≤ 2 ^ 31 }
    requires place { IsOnLevel (M.size mem.old / 512) levels root }
    ensures leaf { (b : List ℕ) → M.reveals mem.old b → (records : List (List ℕ)) (nodes : ℕ → List Node)
        → IsRooted E K (M.size mem.old / 512) b records levels root nodes
        → MatchResult result (λ at. IsReached b levels nodes key.now page.new path.new.pages path.new.index at)
        FromMemory }
    ensures inside { IfOk result (λ at. at < M.size mem.old / 512) }
    ensures form { IfOk result (λ _. (1 ≤ filled page.new) × (filled page.new ≤ leaf_room E)) }
    ensures read { (b : List ℕ) → M.reveals mem.old b
        → IfOk result (λ at. (page.new ≡ page_at b at) × (kind_of page.new ≡ 1)) }
    ensures met { (b : List ℕ) → M.reveals mem.old b → Meets K b levels root
        → IfOk result (λ at. Meets K b 1 at × IsMetPath K b levels 1 root path.new.pages path.new.index) }
    ensures path { IfOk result (λ _. (l : ℕ) → 1 < l → l ≤ levels → get_or path.new.pages l 0 < M.size mem.old / 512) }
    ensures broken { (b : List ℕ) → M.reveals mem.old b → Meets K b levels root
        → IfErr result (IfMalformed (Breaks E K (M.size mem.old / 512) b)) }
    ensures looks { Looks M.FlatMem (levels * M.cost) mem.old mem.new result }
{
    let pages = (mem.len() / PAGE_BYTES as u64) as u32;
    let mut at = root;
    let mut level = levels;
    'descent: while level > 1 {
        load(mem, at, page)?;
        let count = filled_of(page);
        if page[0] != 2 || count == 0 || count > 500 / (K + 4) {
            return Err(TreeError::Malformed { page: at });
        }
        let place = count_at_most(page, K, count, key);
        let child = link_of::<K>(page, place);
        if child == 0 || child >= pages {
            return Err(TreeError::Malformed { page: at });
        }
        path.pages[level as usize] = at;
        path.index[level as usize] = place as u32;
        at = child;
        level -= 1;
    }
    load(mem, at, page)?;
    let count = filled_of(page);
    if page[0] != 1 || count == 0 || count > 504 / E {
        return Err(TreeError::Malformed { page: at });
    }
    Ok(at)
}

/// Finds in a leaf the last entry whose key is at most the given one.
fn last_in_page<const E: usize, const K: usize>(
    page: &Page,
    key: &[u8; K],
    into: &mut [u8; E],
) -> bool
    requires widths { IsWidths E K }
    requires some { 1 ≤ filled page.now }
    requires most { filled page.now ≤ leaf_room E }
    ensures { IsLastInPage E K page.now key.now into.new result }
{
    let found = count_at_most(page, E, filled_of(page), key);
    if found == 0 {
        return false;
    }
    let at = 8 + E * (found - 1);
    into.copy_from_slice(&page[at..at + E]);
    true
}

/// How many records a memory of this many pages may list.
pub fn capacity_of_pages<const E: usize>(pages: u32) -> u32
    requires least { 24 ≤ E }
    requires most { E ≤ 32 }
    requires some_pages { 9 ≤ pages }
    requires few_pages { pages ≤ 2 ^ 18 }
    ensures { result ≡ capacity_of E pages }
{
    (504 / E as u32 / 2 - 1) * (pages - 8)
}

// Whether these numbers may stand in the header of a memory of this many pages.
fn is_in_form<const E: usize>(header: &Header, pages: u32) -> bool
    requires least { 24 ≤ E }
    requires most { E ≤ 32 }
    requires some_pages { 9 ≤ pages }
    requires few_pages { pages ≤ 2 ^ 18 }
    ensures yes { result ≡ true
        → AreInForm E pages header.now.count header.now.root header.now.top header.now.free header.now.levels }
    ensures no { result ≡ false
        → ¬ AreInForm E pages header.now.count header.now.root header.now.top header.now.free header.now.levels }
{
    if header.levels > 6 || header.top >= pages || header.free >= pages {
        return false;
    }
    if header.count > capacity_of_pages::<E>(pages) {
        return false;
    }
    header.levels == 0 || (header.root > 0 && header.root < pages)
}

/// Reads the header.
pub fn read_header<M: FlatMem, const E: usize, const K: usize>(
    mem: &mut M,
    page: &mut Page,
) -> Result<Header, TreeError<M::Error>>
    requires sized { IsRoomy E K (M.size mem.old) }
    ensures header { (b : List ℕ) → M.reveals mem.old b
        → IfOk result (λ h. (h.levels ≡ levels_in (page_at b 0)) × (h.root ≡ root_in (page_at b 0))) }
    ensures read { (b : List ℕ) → M.reveals mem.old b → OnOk result (page.new ≡ page_at b 0) }
    ensures fields { (b : List ℕ) → M.reveals mem.old b
        → IfOk result (λ h. IsHead (page_at b 0) h.count h.root h.top h.free h.levels) }
    ensures count { IfOk result (λ h. h.count ≡ count_in page.new) }
    ensures form { IfOk result (λ h. CanBegin (M.size mem.old / 512) h.levels h.root) }
    ensures whole { IfOk result (λ h. AreInForm E (M.size mem.old / 512) h.count h.root h.top h.free h.levels) }
    ensures well { (b : List ℕ) → M.reveals mem.old b → (records : List (List ℕ))
        → IsTree E K (M.size mem.old / 512) b records → IfErr result FromMemory }
    ensures named { IfErr result IsPast }
    ensures broken { (b : List ℕ) → M.reveals mem.old b
        → IfErr result (IfMalformed (Breaks E K (M.size mem.old / 512) b)) }
    ensures unlike { (b : List ℕ) → M.reveals mem.old b
        → IfErr result (IfMalformed (λ _. ¬ IsHeaderForm E (M.size mem.old / 512) (page_at b 0))) }
    ensures looks { Looks M.FlatMem M.cost mem.old mem.new result }
{
    let pages = (mem.len() / PAGE_BYTES as u64) as u32;
    load(mem, 0, page)?;
    let header = header_of(page);
    if !is_in_form::<E>(&header, pages) {
        return Err(TreeError::Malformed { page: 0 });
    }
    Ok(header)
}

/// Reads the numbers of the header, and no more of its page.
pub fn read_numbers<M: FlatMem, const E: usize, const K: usize>(
    mem: &mut M,
) -> Result<Header, TreeError<M::Error>>
    requires sized { IsRoomy E K (M.size mem.old) }
    ensures header { (b : List ℕ) → M.reveals mem.old b
        → IfOk result (λ h. (h.levels ≡ levels_in (page_at b 0)) × (h.root ≡ root_in (page_at b 0))) }
    ensures fields { (b : List ℕ) → M.reveals mem.old b
        → IfOk result (λ h. IsHead (page_at b 0) h.count h.root h.top h.free h.levels) }
    ensures form { IfOk result (λ h. CanBegin (M.size mem.old / 512) h.levels h.root) }
    ensures well { (b : List ℕ) → M.reveals mem.old b → (records : List (List ℕ))
        → IsTree E K (M.size mem.old / 512) b records → IfErr result FromMemory }
    ensures broken { (b : List ℕ) → M.reveals mem.old b
        → IfErr result (IfMalformed (Breaks E K (M.size mem.old / 512) b)) }
    ensures looks { Looks M.FlatMem M.cost mem.old mem.new result }
{
    let pages = (mem.len() / PAGE_BYTES as u64) as u32;
    let mut bytes = [0; 20];
    match mem.read(0, &mut bytes) {
        Ok(()) => (),
        Err(error) => return Err(TreeError::Mem(error)),
    }
    let header = header_of(&bytes);
    if !is_in_form::<E>(&header, pages) {
        return Err(TreeError::Malformed { page: 0 });
    }
    Ok(header)
}

/// How many records there are, as the header says.
pub fn count<M: FlatMem, const E: usize, const K: usize>(
    mem: &mut M,
) -> Result<u32, TreeError<M::Error>>
    requires sized { IsRoomy E K (M.size mem.old) }
    ensures header { (b : List ℕ) → M.reveals mem.old b → IfOk result (λ n. n ≡ count_in (page_at b 0)) }
    ensures well { (b : List ℕ) → M.reveals mem.old b → (records : List (List ℕ))
        → IsTree E K (M.size mem.old / 512) b records → MatchResult result (λ n. n ≡ length records) FromMemory }
    ensures broken { (b : List ℕ) → M.reveals mem.old b
        → IfErr result (IfMalformed (Breaks E K (M.size mem.old / 512) b)) }
    ensures looks { Looks M.FlatMem M.cost mem.old mem.new result }
{
    match read_numbers::<M, E, K>(mem) {
        Ok(header) => Ok(header.count),
        Err(error) => Err(error),
    }
}

/// The last record whose key is at most the given one, and the page of its leaf.
pub fn look_up<M: FlatMem, const E: usize, const K: usize>(
    mem: &mut M,
    key: &[u8; K],
    into: &mut [u8; E],
) -> Result<Option<u32>, TreeError<M::Error>>
    requires sized { IsRoomy E K (M.size mem.old) }
    ensures answer { (b : List ℕ) → M.reveals mem.old b → (records : List (List ℕ))
        → IsTree E K (M.size mem.old / 512) b records
        → MatchResult result (λ found. IsLastEntry K records key.now into.new (is_some found)) FromMemory }
    ensures home { (b : List ℕ) → M.reveals mem.old b → IfOk result (λ found. IfSome found (StandsIn E K b into.new)) }
    ensures broken { (b : List ℕ) → M.reveals mem.old b
        → IfErr result (IfMalformed (Breaks E K (M.size mem.old / 512) b)) }
    ensures looks { Looks M.FlatMem (7 * M.cost) mem.old mem.new result }
{
    let mut page = [0; PAGE_BYTES];
    let mut path = Path {
        pages: [0; 7],
        index: [0; 7],
    };
    match read_numbers::<M, E, K>(mem) {
        Ok(header) => {
            if header.levels == 0 {
                return Ok(None);
            }
            match descend::<M, E, K>(mem, header.root, header.levels, key, &mut path, &mut page) {
                Ok(at) => {
                    if last_in_page(&page, key, into) {
                        return Ok(Some(at));
                    }
                    Ok(None)
                }
                Err(error) => Err(error),
            }
        }
        Err(error) => Err(error),
    }
}
