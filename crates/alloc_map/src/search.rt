//! A free sector is looked for from a sector on, and then before it.
ghost use Rattle.std.specs.Prelude.{◌≡◌, ◌⊎◌, ℕ, ◌+◌, ◌-◌, ◌*◌, ◌/◌, ◌%◌, ◌≤◌, ◌<◌, true, false, List, IfOk, IfErr};
ghost use Rattle.alloc_map.specs.Bits.{AreAll};
ghost use Rattle.alloc_map.specs.Pages.{first_sector_after, pages_to};
ghost use Rattle.alloc_map.specs.Runs.{IsFreeFrom};

use crate::{bits, pages};
use flat_mem::{FlatMem, PAGE_BYTES};

// A free one of the sectors from `low` up to `stop`, or `stop` where none is free: the lowest one from `from` on, or else one
// before it. They lie in one page, which is read once.
fn find_free_in_page<M: FlatMem>(
    mem: &mut M,
    low: u32,
    from: u32,
    stop: u32,
) -> Result<u32, M::Error>
    requires above { low ≤ from }
    requires order { from < stop }
    requires one_page { stop ≤ first_sector_after low }
    requires inside { 512 * (from / 4096) + 512 ≤ M.size mem.old }
    ensures range { IfOk result (λ s. (low ≤ s) × (s ≤ stop)) }
    ensures free { (b : List ℕ) → M.reveals mem.old b → IfOk result (IsFreeFrom b low from stop) }
    ensures cause { IfErr result (λ e. M.accounted mem.old mem.new e) }
    ensures unchanged { (b : List ℕ) → M.reveals mem.old b → M.reveals mem.new b }
    ensures kept { M.beside mem.old mem.new }
    ensures cost { M.spent mem.new ≤ M.spent mem.old + M.cost }
{
    let mut page = [0; PAGE_BYTES];
    mem.read(PAGE_BYTES as u64 * (from / 4096) as u64, &mut page)?;
    let place = from % 4096;
    let end = place + (stop - from);
    let found = bits::find(&page, place, end, false);
    if found < end {
        return Ok(from + (found - place));
    }
    let found = bits::find(&page, low % 4096, place, false);
    if found < place {
        return Ok(low + (found - low % 4096));
    }
    Ok(stop)
}

// The first free sector from `first` on, or `sectors` where none is free below `end`.
fn find_before<M: FlatMem>(mem: &mut M, first: u32, end: u32, sectors: u32) -> Result<u32, M::Error>
    requires order { first ≤ end }
    requires below { end < sectors }
    requires whole { (end ≡ first) ⊎ (end % 4096 ≡ 0) }
    requires inside { 512 * pages_to end ≤ M.size mem.old }
    ensures range { IfOk result (λ s. (first ≤ s) × (s ≤ sectors)) }
    ensures free { (b : List ℕ) → M.reveals mem.old b → AreAll true b end sectors
        → IfOk result (IsFreeFrom b first end sectors) }
    ensures cause { IfErr result (λ e. M.accounted mem.old mem.new e) }
    ensures unchanged { (b : List ℕ) → M.reveals mem.old b → M.reveals mem.new b }
    ensures kept { M.beside mem.old mem.new }
    ensures cost { M.spent mem.new ≤ M.spent mem.old + (end / 4096 - first / 4096) * M.cost }
{
    if end == first {
        return Ok(sectors);
    }
    let found = pages::find(mem, first, end, false)?;
    if found < end {
        return Ok(found);
    }
    Ok(sectors)
}

/// A free one of the sectors from `first` on, or `sectors` where none is free. Where all before `from` are used it is the
/// lowest one.
///
/// The page that has `from` is looked at first, then those after it, then those before it: none is read twice.
pub fn find_free<M: FlatMem>(
    mem: &mut M,
    first: u32,
    from: u32,
    sectors: u32,
) -> Result<u32, M::Error>
    requires order { first < sectors }
    requires inside { 512 * pages_to sectors ≤ M.size mem.old }
    ensures range { IfOk result (λ s. (first ≤ s) × (s ≤ sectors)) }
    ensures free { (b : List ℕ) → M.reveals mem.old b → IfOk result (IsFreeFrom b first from sectors) }
    ensures cause { IfErr result (λ e. M.accounted mem.old mem.new e) }
    ensures unchanged { (b : List ℕ) → M.reveals mem.old b → M.reveals mem.new b }
    ensures kept { M.beside mem.old mem.new }
    ensures cost { M.spent mem.new ≤ M.spent mem.old + pages_to sectors * M.cost }
{
    let at = first.max(from.min(sectors - 1));
    let low = first.max(at / 4096 * 4096);
    let stop = pages::page_stop(at, sectors);
    let found = find_free_in_page(mem, low, at, stop)?;
    if found < stop {
        return Ok(found);
    }
    if stop == sectors {
        return find_before(mem, first, low, sectors);
    }
    let found = pages::find(mem, stop, sectors, false)?;
    if found < sectors {
        return Ok(found);
    }
    find_before(mem, first, low, sectors)
}
