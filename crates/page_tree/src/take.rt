// Pages that are free, and the header.
ghost use Rattle.std.specs.Prelude.{◌≡◌, ℕ, ◌*◌, ◌/◌, ◌^◌, ◌<◌, ◌≤◌, List, [], length, IfOk, IfErr, MatchResult};
ghost use Rattle.page_tree.specs.Page.{IsBlank};
ghost use Rattle.page_tree.specs.Head.{with_header};
ghost use Rattle.page_tree.specs.Tree.{Node, IsTree};
ghost use Rattle.page_tree.specs.Put.{capacity_of};
ghost use Rattle.page_tree.specs.Climb.{IsClosed};
ghost use Rattle.page_tree.specs.Answer.{FromMemory};
ghost use Rattle.page_tree.specs.Broken.{StopsInsertion, IfMalformed};
ghost use Rattle.page_tree.specs.Way.{IsUnderWay, IsTakenOn};
ghost use Rattle.page_tree.specs.Open.{IsOpen, IsTaken, CanTake, IsFirstFree};
ghost use Rattle.page_tree.specs.Calls.{Looks, Works, KeepsTree};

use crate::error::TreeError;
use crate::look::Header;
use crate::pages::{load, put, store};
use byteorder::{BigEndian, ByteOrder};
use flat_mem::{FlatMem, PAGE_BYTES, Page};

/// Takes a page: the first free one, or else the one above all that were ever used.
pub fn take_page<M: FlatMem>(mem: &mut M, header: &mut Header) -> Result<u32, TreeError<M::Error>>
    requires small { M.size mem.old ≤ 2 ^ 27 }
    requires some_pages { 9 * 512 ≤ M.size mem.old }
    requires free { header.old.free < M.size mem.old / 512 }
    ensures taken { (b : List ℕ) → M.reveals mem.old b → (free : List ℕ)
        → CanTake b free header.old.free header.old.top (M.size mem.old / 512)
        → MatchResult result (IsTaken b free header.old.top header.new.free header.new.top) FromMemory }
    ensures on { (e k level t : ℕ) (b c : List ℕ) → M.reveals mem.old c → t ≤ 5
        → IsUnderWay k b c level t header.old.free header.old.top
        → MatchResult result (λ page. IsTakenOn k b c level t page header.new.free header.new.top)
        (IfMalformed (StopsInsertion e k (M.size mem.old / 512) b)) }
    ensures first { (b : List ℕ) → M.reveals mem.old b
        → IfOk result (λ page. IsFirstFree b header.old.free header.old.top page header.new.free header.new.top) }
    ensures inside { IfOk result (λ page. (1 ≤ page) × (page < M.size mem.old / 512)) }
    ensures free { IfOk result (λ _. header.new.free < M.size mem.old / 512) }
    ensures keeps { KeepsTree header.old header.new }
    ensures looks { Looks M.FlatMem M.cost mem.old mem.new result }
{
    let pages = (mem.len() / PAGE_BYTES as u64) as u32;
    let first = header.free;
    if first == 0 {
        if header.top >= pages - 1 {
            return Err(TreeError::Malformed { page: 0 });
        }
        header.top += 1;
        return Ok(header.top);
    }
    let mut bytes = [0; PAGE_BYTES];
    match load(mem, first, &mut bytes) {
        Ok(()) => (),
        Err(error) => return Err(error),
    }
    let next = BigEndian::read_u32(&bytes[4..8]);
    if bytes[0] != 0 {
        return Err(TreeError::Malformed { page: first });
    }
    if next >= pages {
        return Err(TreeError::Malformed { page: first });
    }
    header.free = next;
    Ok(first)
}

// Writes the fields of the header into its page.
fn put_fields(page: &mut Page, header: Header)
    requires { header.levels ≤ 6 }
    ensures { page.new ≡ with_header page.old header.count header.root header.top header.free header.levels }
{
    put(page, 0, &header.count.to_be_bytes());
    put(page, 4, &header.root.to_be_bytes());
    put(page, 8, &header.top.to_be_bytes());
    put(page, 12, &header.free.to_be_bytes());
    put(page, 16, &[header.levels as u8]);
}

/// Writes the header, once all else is done.
pub fn finish<M: FlatMem>(
    mem: &mut M,
    page: &mut Page,
    header: Header,
) -> Result<(), TreeError<M::Error>>
    requires some_pages { 9 * 512 ≤ M.size mem.old }
    requires few { header.levels ≤ 6 }
    ensures tree { (e k : ℕ) (c : List ℕ) → M.reveals mem.old c → (records : List (List ℕ))
        → IsClosed e k (M.size mem.old / 512) c records header.levels header.root header.free header.top
        → 1 ≤ header.levels → IsBlank page.old → header.count ≡ length records
        → length records ≤ capacity_of e (M.size mem.old / 512)
        → MatchResult result (λ _. (x : List ℕ) × M.reveals mem.new x × IsTree e k (M.size mem.old / 512) x records)
        FromMemory }
    ensures memory { IfErr result FromMemory }
    ensures empty { (e k : ℕ) (c : List ℕ) → M.reveals mem.old c → (nodes : ℕ → List Node) (free : List ℕ)
        → IsOpen e k c 0 nodes free header.free header.top → header.levels ≡ 0 → IsBlank page.old → header.root ≡ 0
        → header.count ≡ 0 → header.top < M.size mem.old / 512
        → MatchResult result (λ _. (x : List ℕ) × M.reveals mem.new x × IsTree e k (M.size mem.old / 512) x [])
        FromMemory }
    ensures works { Works M.FlatMem M.cost mem.old mem.new result }
{
    put_fields(page, header);
    match store(mem, 0, page) {
        Ok(()) => Ok(()),
        Err(error) => Err(error),
    }
}

/// Makes the list without records.
pub fn begin<M: FlatMem, const E: usize, const K: usize>(
    mem: &mut M,
) -> Result<(), TreeError<M::Error>>
    requires some_pages { 9 * 512 ≤ M.size mem.old }
    ensures empty { (b : List ℕ) → M.reveals mem.old b
        → MatchResult result (λ _. (x : List ℕ) × M.reveals mem.new x × IsTree E K (M.size mem.old / 512) x [])
        FromMemory }
    ensures memory { IfErr result FromMemory }
    ensures works { Works M.FlatMem M.cost mem.old mem.new result }
{
    let mut page = [0; PAGE_BYTES];
    write_empty(mem, &mut page)
}

fn write_empty<M: FlatMem>(mem: &mut M, page: &mut Page) -> Result<(), TreeError<M::Error>>
    requires some_pages { 9 * 512 ≤ M.size mem.old }
    ensures empty { (e k : ℕ) (b : List ℕ) → M.reveals mem.old b → IsBlank page.old
        → MatchResult result (λ _. (x : List ℕ) × M.reveals mem.new x × IsTree e k (M.size mem.old / 512) x [])
        FromMemory }
    ensures memory { IfErr result FromMemory }
    ensures works { Works M.FlatMem M.cost mem.old mem.new result }
{
    put_fields(
        page,
        Header {
            count: 0,
            root: 0,
            top: 0,
            free: 0,
            levels: 0,
        },
    );
    match store(mem, 0, page) {
        Ok(()) => (),
        Err(error) => return Err(error),
    }
    Ok(())
}
