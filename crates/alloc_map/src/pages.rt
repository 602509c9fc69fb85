//! The sectors of the whole map, page by page.
ghost use Rattle.std.specs.Prelude.{◌≡◌, ℕ, ◌+◌, ◌-◌, ◌*◌, ◌/◌, ◌≤◌, ◌<◌, not, List, IfOk, IfErr, OnOk, OnErr};
ghost use Rattle.flat_mem.specs.Memory.{InOnePage, part};
ghost use Rattle.alloc_map.specs.Bits.{is_used, AreAll, free_in, RevealsMarked, RevealsOthers};
ghost use Rattle.alloc_map.specs.Pages.{first_sector_after, pages_to, pages_between};

use crate::bits;
use flat_mem::{FlatMem, PAGE_BYTES, Page};

/// The end of the sectors from `at` to `end` that lie in one page with the first.
pub fn page_stop(at: u32, end: u32) -> u32
    requires { at < end }
    ensures more { at < result }
    ensures within { result ≤ end }
    ensures one_page { result ≤ first_sector_after at }
    ensures whole { result < end → result ≡ first_sector_after at }
{
    at + (4096 - at % 4096).min(end - at)
}

// The first sector from `at` on that is used, or is free, or `stop`. They lie in one page.
fn find_in_page<M: FlatMem>(mem: &mut M, at: u32, stop: u32, used: bool) -> Result<u32, M::Error>
    requires order { at < stop }
    requires one_page { stop ≤ first_sector_after at }
    requires inside { 512 * (at / 4096) + 512 ≤ M.size mem.old }
    ensures range { IfOk result (λ s. (at ≤ s) × (s ≤ stop)) }
    ensures before { (b : List ℕ) → M.reveals mem.old b → IfOk result (AreAll (not used) b at) }
    ensures found { (b : List ℕ) → M.reveals mem.old b
        → IfOk result (λ s. s < stop → is_used b s ≡ used) }
    ensures cause { IfErr result (λ e. M.accounted mem.old mem.new e) }
    ensures unchanged { (b : List ℕ) → M.reveals mem.old b → M.reveals mem.new b }
    ensures kept { M.beside mem.old mem.new }
    ensures looked { M.only_reads mem.old mem.new }
    ensures cost { M.spent mem.new ≤ M.spent mem.old + M.cost }
{
    let mut page = [0; PAGE_BYTES];
    mem.read(PAGE_BYTES as u64 * (at / 4096) as u64, &mut page)?;
    let from = at % 4096;
    let found = bits::find(&page, from, from + (stop - at), used);
    Ok(at + (found - from))
}

/// The first sector from `from` on that is used, or is free, or `end` where there is none below it.
pub fn find<M: FlatMem>(mem: &mut M, from: u32, end: u32, used: bool) -> Result<u32, M::Error>
    requires order { from ≤ end }
    requires inside { 512 * pages_to end ≤ M.size mem.old }
    ensures range { IfOk result (λ s. (from ≤ s) × (s ≤ end)) }
    ensures before { (b : List ℕ) → M.reveals mem.old b → IfOk result (AreAll (not used) b from) }
    ensures found { (b : List ℕ) → M.reveals mem.old b
        → IfOk result (λ s. s < end → is_used b s ≡ used) }
    ensures cause { IfErr result (λ e. M.accounted mem.old mem.new e) }
    ensures unchanged { (b : List ℕ) → M.reveals mem.old b → M.reveals mem.new b }
    ensures kept { M.beside mem.old mem.new }
    ensures looked { M.only_reads mem.old mem.new }
    ensures cost { M.spent mem.new ≤ M.spent mem.old + pages_between from end * M.cost }
{
    let mut at = from;
    'search: while at < end {
        let stop = page_stop(at, end);
        let found = find_in_page(mem, at, stop, used)?;
        if found < stop {
            return Ok(found);
        }
        at = stop;
    }
    Ok(end)
}

// How many of these sectors are free. They lie in one page.
fn count_in_page<M: FlatMem>(mem: &mut M, at: u32, stop: u32) -> Result<u32, M::Error>
    requires order { at < stop }
    requires one_page { stop ≤ first_sector_after at }
    requires inside { 512 * (at / 4096) + 512 ≤ M.size mem.old }
    ensures count { (b : List ℕ) → M.reveals mem.old b
        → IfOk result (λ n. n ≡ free_in b at (stop - at)) }
    ensures form { IfOk result (λ n. n ≤ stop - at) }
    ensures cause { IfErr result (λ e. M.accounted mem.old mem.new e) }
    ensures unchanged { (b : List ℕ) → M.reveals mem.old b → M.reveals mem.new b }
    ensures kept { M.beside mem.old mem.new }
    ensures looked { M.only_reads mem.old mem.new }
    ensures cost { M.spent mem.new ≤ M.spent mem.old + M.cost }
{
    let mut page = [0; PAGE_BYTES];
    mem.read(PAGE_BYTES as u64 * (at / 4096) as u64, &mut page)?;
    let from = at % 4096;
    Ok(bits::count_free(&page, from, from + (stop - at)))
}

/// How many of these sectors are free.
pub fn count_free<M: FlatMem>(mem: &mut M, from: u32, end: u32) -> Result<u32, M::Error>
    requires order { from ≤ end }
    requires inside { 512 * pages_to end ≤ M.size mem.old }
    ensures count { (b : List ℕ) → M.reveals mem.old b
        → IfOk result (λ n. n ≡ free_in b from (end - from)) }
    ensures form { IfOk result (λ n. n ≤ end - from) }
    ensures cause { IfErr result (λ e. M.accounted mem.old mem.new e) }
    ensures unchanged { (b : List ℕ) → M.reveals mem.old b → M.reveals mem.new b }
    ensures kept { M.beside mem.old mem.new }
    ensures looked { M.only_reads mem.old mem.new }
    ensures cost { M.spent mem.new ≤ M.spent mem.old + pages_between from end * M.cost }
{
    let mut count = 0;
    let mut at = from;
    'counting: while at < end {
        let stop = page_stop(at, end);
        count += count_in_page(mem, at, stop)?;
        at = stop;
    }
    Ok(count)
}

// Reads bytes of the memory to the same place of a page: those from `first` up to `last`.
fn read_bytes<M: FlatMem>(
    mem: &mut M,
    place: u64,
    first: usize,
    last: usize,
    page: &mut Page,
) -> Result<(), M::Error>
    requires order { first ≤ last }
    requires most { last ≤ 512 }
    requires inside { place + (last - first) ≤ M.size mem.old }
    requires in_one_page { InOnePage place (last - first) }
    ensures read { (b : List ℕ) → M.reveals mem.old b
        → OnOk result (part page.new first (last - first) ≡ part b place (last - first)) }
    ensures cause { IfErr result (λ e. M.accounted mem.old mem.new e) }
    ensures unchanged { (b : List ℕ) → M.reveals mem.old b → M.reveals mem.new b }
    ensures kept { M.beside mem.old mem.new }
    ensures cost { M.spent mem.new ≤ M.spent mem.old + M.cost }
{
    mem.read(place, &mut page[first..last])
}

// Marks these sectors used or free. They lie in one page. Only the bytes that have them are read and written.
fn set_in_page<M: FlatMem>(mem: &mut M, at: u32, stop: u32, used: bool) -> Result<(), M::Error>
    requires order { at < stop }
    requires one_page { stop ≤ first_sector_after at }
    requires inside { 512 * (at / 4096) + 512 ≤ M.size mem.old }
    ensures marked { (b : List ℕ) → M.reveals mem.old b
        → OnOk result (RevealsMarked used (M.reveals mem.new) b at stop) }
    ensures cause { IfErr result (λ e. M.accounted mem.old mem.new e) }
    ensures unchanged { (b : List ℕ) → M.reveals mem.old b → OnErr result (M.reveals mem.new b) }
    ensures kept { M.beside mem.old mem.new }
    ensures cost { M.spent mem.new ≤ M.spent mem.old + 2 * M.cost }
{
    let from = at % 4096;
    let end = from + (stop - at);
    let first = (from / 8) as usize;
    let last = (end - 1) as usize / 8 + 1;
    let place = PAGE_BYTES as u64 * (at / 4096) as u64 + first as u64;
    let mut page = [0; PAGE_BYTES];
    read_bytes(mem, place, first, last, &mut page)?;
    bits::set_range(&mut page, from, end, used);
    mem.write(place, &page[first..last])
}

/// Marks these sectors used or free.
pub fn set_range<M: FlatMem>(mem: &mut M, from: u32, end: u32, used: bool) -> Result<(), M::Error>
    requires order { from ≤ end }
    requires inside { 512 * pages_to end ≤ M.size mem.old }
    ensures marked { (b : List ℕ) → M.reveals mem.old b
        → OnOk result (RevealsMarked used (M.reveals mem.new) b from end) }
    ensures cause { IfErr result (λ e. M.accounted mem.old mem.new e) }
    ensures others { (b : List ℕ) → M.reveals mem.old b
        → OnErr result (RevealsOthers (M.reveals mem.new) b from end) }
    ensures kept { M.beside mem.old mem.new }
    // one read and one write a page
    ensures cost { M.spent mem.new ≤ M.spent mem.old + 2 * pages_between from end * M.cost }
{
    let mut at = from;
    'marking: while at < end {
        let stop = page_stop(at, end);
        set_in_page(mem, at, stop, used)?;
        at = stop;
    }
    Ok(())
}
