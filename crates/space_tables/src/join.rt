//! An interval that is joined with those beside it that are alike.
ghost use Rattle.std.specs.Prelude.{◌≡◌, ℕ, suc, ◌+◌, ◌*◌, ◌^◌, ◌<◌, ◌≤◌, List, length, Option, Some, IfOk, IfErr, IfSome, MatchResult, slice_get};
ghost use Rattle.flat_machine.specs.declared.space.Space.{Space};
ghost use Rattle.flat_machine.specs.Space.{root_pages};
ghost use Rattle.projection_laws.specs.Edits.{alike, paired, paired_before, rejoined};
ghost use Rattle.projection_laws.specs.Sight.{Interval};
ghost use Rattle.space_tables.specs.Form.{BreaksProjection};
ghost use Rattle.space_tables.specs.Answer.{FromMemory, NotRefused, IfMem, IfMalformed};
ghost use Rattle.space_tables.specs.Looks.{Looks};
ghost use Rattle.space_tables.specs.Change.{one_before, pages_in};
ghost use Rattle.space_tables.specs.Stored.{HoldTables, IsReadable};

use crate::SpaceError;
use crate::projection::remove;
use crate::records::{interval, put_interval};
use flat_mem::FlatMem;
use swap_units::Interval;

// The same innermost space, and the same mapped space.
fn alike(i: &Interval, j: &Interval) -> bool
    ensures { result ≡ alike i.now j.now }
{
    i.space == j.space && i.mapped == j.mapped
}

// The interval after an index, or none.
fn next<M: FlatMem>(
    mem: &mut M,
    count: u32,
    index: u32,
) -> Result<Option<Interval>, SpaceError<M::Error>>
    requires size { 49152 ≤ M.size mem.old }
    requires few { count ≤ 1023 }
    requires order { index < count }
    ensures next { (slots : List (Option Space)) (xs : List Interval) → HoldTables (M.reveals mem.old) slots xs
        → length xs ≡ count → ((k : ℕ) (x : Interval) → slice_get xs k ≡ Some x → IsReadable x)
        → MatchResult result (λ o. o ≡ slice_get xs (suc index)) FromMemory }
    ensures inside { IfOk result (λ o. IfSome o (λ _. index + 1 < count)) }
    ensures pages { IfOk result (λ o. pages_in o ≤ root_pages) }
    ensures malformed { (b : List ℕ) → M.reveals mem.old b → IfErr result (IfMalformed (BreaksProjection count b)) }
    ensures refused { IfErr result NotRefused }
    ensures looks { Looks M.FlatMem (M.cost) mem.old mem.new result }
{
    if index + 1 == count {
        return Ok(None);
    }
    let x = interval(mem, index + 1)?;
    Ok(Some(x))
}

// The interval before an index, or none.
fn previous<M: FlatMem>(mem: &mut M, index: u32) -> Result<Option<Interval>, SpaceError<M::Error>>
    requires size { 49152 ≤ M.size mem.old }
    requires few { index < 1023 }
    ensures previous { (slots : List (Option Space)) (xs : List Interval) → HoldTables (M.reveals mem.old) slots xs
        → index < length xs → ((k : ℕ) (x : Interval) → slice_get xs k ≡ Some x → IsReadable x)
        → MatchResult result (λ o. o ≡ one_before xs index) FromMemory }
    ensures inside { IfOk result (λ o. IfSome o (λ _. 1 ≤ index)) }
    ensures pages { IfOk result (λ o. pages_in o ≤ root_pages) }
    ensures malformed { (b : List ℕ) (count : ℕ) → M.reveals mem.old b → index < count
        → IfErr result (IfMalformed (BreaksProjection count b)) }
    ensures refused { IfErr result NotRefused }
    ensures looks { Looks M.FlatMem (M.cost) mem.old mem.new result }
{
    if index == 0 {
        return Ok(None);
    }
    let x = interval(mem, index - 1)?;
    Ok(Some(x))
}

// Joins the interval at an index with the next, where there is one and they are alike. Gives how many there are then, and the one there.
fn pair<M: FlatMem>(
    mem: &mut M,
    count: u32,
    index: u32,
    i: &Interval,
    next: Option<Interval>,
) -> Result<(u32, Interval), SpaceError<M::Error>>
    requires size { 49152 ≤ M.size mem.old }
    requires few { count ≤ 1023 }
    requires order { (index < count) × IfSome next (λ _. index + 1 < count) }
    requires pages { i.now.pages + pages_in next < 2 ^ 32 }
    ensures paired { (slots : List (Option Space)) (xs : List Interval) → HoldTables (M.reveals mem.old) slots xs
        → length xs ≡ count → slice_get xs index ≡ Some i.now → slice_get xs (suc index) ≡ next
        → IfOk result
        (λ at.
        HoldTables (M.reveals mem.new) slots (paired xs index) × (length (paired xs index) ≡ at.0)
        × (slice_get (paired xs index) index ≡ Some at.1)) }
    ensures count { IfOk result (λ at. (index < at.0) × (at.0 ≤ count)) }
    ensures pages { IfOk result (λ at. at.1.pages ≤ i.now.pages + pages_in next) }
    ensures memory { IfErr result FromMemory }
    ensures kept { M.beside mem.old mem.new }
    ensures cause { IfErr result (IfMem (M.accounted mem.old mem.new)) }
    ensures cost { M.spent mem.new ≤ M.spent mem.old + 129 * M.cost }
{
    let Some(next) = next else {
        return Ok((count, *i));
    };
    if !alike(i, &next) {
        return Ok((count, *i));
    }
    let whole = Interval {
        pages: i.pages + next.pages,
        ..*i
    };
    put_interval(mem, index, &whole)?;
    remove(mem, count, index + 1)?;
    Ok((count - 1, whole))
}

// Joins the interval at an index with the one before it, where there is one and they are alike. Gives how many there are then.
fn pair_before<M: FlatMem>(
    mem: &mut M,
    count: u32,
    index: u32,
    before: Option<Interval>,
    i: &Interval,
) -> Result<u32, SpaceError<M::Error>>
    requires size { 49152 ≤ M.size mem.old }
    requires few { count ≤ 1023 }
    requires order { (index < count) × IfSome before (λ _. 1 ≤ index) }
    requires pages { pages_in before + i.now.pages < 2 ^ 32 }
    ensures paired { (slots : List (Option Space)) (xs : List Interval) → HoldTables (M.reveals mem.old) slots xs
        → length xs ≡ count → slice_get xs index ≡ Some i.now → one_before xs index ≡ before
        → IfOk result
        (λ n. HoldTables (M.reveals mem.new) slots (paired_before xs index) × (length (paired_before xs index) ≡ n)) }
    ensures count { IfOk result (λ n. (1 ≤ n) × (n ≤ count)) }
    ensures memory { IfErr result FromMemory }
    ensures kept { M.beside mem.old mem.new }
    ensures cause { IfErr result (IfMem (M.accounted mem.old mem.new)) }
    ensures cost { M.spent mem.new ≤ M.spent mem.old + 129 * M.cost }
{
    let Some(before) = before else {
        return Ok(count);
    };
    let (count, _) = pair(mem, count, index - 1, &before, Some(*i))?;
    Ok(count)
}

/// Puts an interval in the place of that at an index, and joins it with those on both sides that are alike.
/// Gives how many there are then. Nothing is written before all three were read.
pub fn rejoin<M: FlatMem>(
    mem: &mut M,
    count: u32,
    index: u32,
    new: &Interval,
) -> Result<u32, SpaceError<M::Error>>
    requires size { 49152 ≤ M.size mem.old }
    requires few { count ≤ 1023 }
    requires order { index < count }
    requires pages { new.now.pages ≤ root_pages }
    ensures rejoined { (slots : List (Option Space)) (xs : List Interval) → HoldTables (M.reveals mem.old) slots xs
        → length xs ≡ count → ((k : ℕ) (x : Interval) → slice_get xs k ≡ Some x → IsReadable x)
        → MatchResult result
        (λ n.
        HoldTables (M.reveals mem.new) slots (rejoined xs index new.now) × (length (rejoined xs index new.now) ≡ n))
        FromMemory }
    ensures count { IfOk result (λ n. (1 ≤ n) × (n ≤ count)) }
    ensures malformed { (b : List ℕ) → M.reveals mem.old b → IfErr result (IfMalformed (BreaksProjection count b)) }
    ensures refused { IfErr result NotRefused }
    ensures kept { M.beside mem.old mem.new }
    ensures cause { IfErr result (IfMem (M.accounted mem.old mem.new)) }
    ensures cost { M.spent mem.new ≤ M.spent mem.old + 261 * M.cost }
{
    let next = next(mem, count, index)?;
    let before = previous(mem, index)?;
    put_interval(mem, index, new)?;
    let (count, whole) = pair(mem, count, index, new, next)?;
    pair_before(mem, count, index, before, &whole)
}
