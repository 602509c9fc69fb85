//! An interval is split where a space comes into it.
ghost use Rattle.std.specs.Prelude.{◌≡◌, ◌≢◌, ◌+◌, ◌*◌, ◌<◌, ◌≤◌, true, List, length, Option, Some, IfOk, IfErr, slice_get};
ghost use Rattle.flat_machine.specs.declared.space.Space.{Space};
ghost use Rattle.flat_machine.specs.Space.{end};
ghost use Rattle.projection_laws.specs.Edits.{cut, inside, some_pages, pieces, replaced};
ghost use Rattle.projection_laws.specs.Sight.{Interval, end_of};
ghost use Rattle.space_tables.specs.Form.{in_form, IsOverfull, MaySplit};
ghost use Rattle.space_tables.specs.Answer.{FromMemory, NotRefused, IfMem, IfMalformed};
ghost use Rattle.space_tables.specs.Stored.{HoldTables};
ghost use Rattle.space_tables.specs.Change.{put_in};

use crate::SpaceError;
use crate::projection::insert;
use crate::records::put_interval;
use flat_machine::Space;
use flat_mem::FlatMem;
use swap_units::Interval;

// So many pages of an interval, from one of them on.
fn cut(i: &Interval, first: u32, pages: u32) -> Interval
    requires form { in_form i.now ≡ true }
    requires inside { (i.now.first ≤ first) × (first < end_of i.now) }
    ensures { result ≡ cut i.now first pages }
{
    let page = if i.mode.is_mapped() {
        i.page + (first - i.first)
    } else {
        0
    };
    Interval {
        first,
        pages,
        page,
        ..*i
    }
}

/// The interval where that space is the innermost one.
pub fn inside(x: &Space, i: &Interval) -> Interval
    requires handle { x.now.handle ≤ 511 }
    ensures { result ≡ inside x.now i.now }
{
    Interval {
        space: x.handle as u16,
        unit: x.unit,
        start: x.first,
        ..*i
    }
}

// Puts so many pages of an interval in at an index, if there are any. Gives how many intervals there are then.
fn put_part<M: FlatMem>(
    mem: &mut M,
    count: u32,
    at: u32,
    i: &Interval,
    first: u32,
    pages: u32,
) -> Result<u32, SpaceError<M::Error>>
    requires size { 49152 ≤ M.size mem.old }
    requires order { at ≤ count }
    requires form { in_form i.now ≡ true }
    requires inside { (i.now.first ≤ first) × (first + pages ≤ end_of i.now) }
    requires few { (count ≤ 1023) × (pages ≢ 0 → count ≤ 1022) }
    ensures put { (slots : List (Option Space)) (xs : List Interval) → HoldTables (M.reveals mem.old) slots xs
        → length xs ≡ count
        → IfOk result
        (λ n.
        HoldTables (M.reveals mem.new) slots (put_in xs at (some_pages (cut i.now first pages)))
        × (length (put_in xs at (some_pages (cut i.now first pages))) ≡ n)) }
    ensures count { IfOk result (λ n. (count ≤ n) × (n ≤ count + 1) × (n ≤ 1023) × (pages ≡ 0 → n ≡ count)) }
    ensures memory { IfErr result FromMemory }
    ensures kept { M.beside mem.old mem.new }
    ensures cause { IfErr result (IfMem (M.accounted mem.old mem.new)) }
    ensures cost { M.spent mem.new ≤ M.spent mem.old + 128 * M.cost }
{
    if pages == 0 {
        return Ok(count);
    }
    insert(mem, count, at, &cut(i, first, pages))?;
    Ok(count + 1)
}

// How many intervals more there are, where so many pages are left on either side.
fn more(prefix: u32, back: u32) -> u32
    ensures most { result ≤ 2 }
    ensures prefix { prefix ≢ 0 → 1 ≤ result }
    ensures back { back ≢ 0 → 1 ≤ result }
    ensures both { prefix ≢ 0 → back ≢ 0 → 2 ≤ result }
    ensures no_prefix { prefix ≡ 0 → result ≤ 1 }
    ensures no_back { back ≡ 0 → result ≤ 1 }
    ensures neither { prefix ≡ 0 → back ≡ 0 → result ≡ 0 }
{
    u32::from(prefix != 0) + u32::from(back != 0)
}

/// Splits the interval at an index where a space comes into it. Gives how many intervals there are then.
pub fn split<M: FlatMem>(
    mem: &mut M,
    count: u32,
    index: u32,
    i: &Interval,
    x: &Space,
) -> Result<u32, SpaceError<M::Error>>
    requires size { 49152 ≤ M.size mem.old }
    requires few { count ≤ 1023 }
    requires order { index < count }
    requires fits { MaySplit i.now x.now }
    ensures split { (slots : List (Option Space)) (xs : List Interval) → HoldTables (M.reveals mem.old) slots xs
        → length xs ≡ count → slice_get xs index ≡ Some i.now
        → IfOk result
        (λ n.
        HoldTables (M.reveals mem.new) slots (replaced xs index (pieces x.now i.now))
        × (length (replaced xs index (pieces x.now i.now)) ≡ n)) }
    ensures memory { count ≤ 1021 → IfErr result FromMemory }
    ensures count { IfOk result (λ n. (1 ≤ n) × (n ≤ 1023)) }
    ensures malformed { IfErr result (IfMalformed (IsOverfull count x.now i.now)) }
    ensures refused { IfErr result NotRefused }
    ensures kept { M.beside mem.old mem.new }
    ensures cause { IfErr result (IfMem (M.accounted mem.old mem.new)) }
    ensures cost { M.spent mem.new ≤ M.spent mem.old + 257 * M.cost }
{
    let after = x.first + x.pages;
    let prefix = x.first - i.first;
    let back = i.first + i.pages - after;
    if count + more(prefix, back) > 1023 {
        return Err(SpaceError::Malformed { page: 32 });
    }
    put_interval(mem, index, &inside(x, &cut(i, x.first, x.pages)))?;
    let count = put_part(mem, count, index + 1, i, after, back)?;
    put_part(mem, count, index, i, i.first, prefix)
}
