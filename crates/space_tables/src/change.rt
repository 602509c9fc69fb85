//! A space is changed, and the intervals with it: none is split or joined.
ghost use Rattle.std.specs.Prelude.{◌≡◌, ℕ, ◌+◌, ◌*◌, ◌/◌, ◌<◌, ◌≤◌, true, List, length, map, Option, Some, IfErr, OnOk, MatchResult, slice_get, slice_set};
ghost use Rattle.flat_machine.specs.declared.space.Space.{Space};
ghost use Rattle.projection_laws.specs.Sight.{Interval, AreIntervals, mode_of};
ghost use Rattle.space_tables.specs.Form.{interval_page, space_in_form, BreaksInterval, BreaksProjection};
ghost use Rattle.space_tables.specs.Answer.{FromMemory, NotRefused, IfMem, IfMalformed};
ghost use Rattle.space_tables.specs.Stored.{AreTables, HoldTables, IsReadable, RevealsRest};
ghost use Rattle.space_tables.specs.Change.{touches, changed, changed_before, Counts, HasSmallHandle, AreAllReadable, LiesInside};

use crate::SpaceError;
use crate::code::mode_of;
use crate::projection::within;
use crate::records::{interval_on, load_page, page_end, put_interval};
use flat_machine::{Space, Window};
use flat_mem::{FlatMem, PAGE_BYTES, Page};
use swap_units::{Interval, Mode};

/// What is changed of a space.
#[derive(Clone, Copy, Debug)]
pub enum Change {
    /// The space with this handle has this unit.
    Unit(u32, u8),
    /// The space has this window, or none.
    Window(Space, Option<Window>),
}

fn touches(change: &Change, x: &Interval) -> bool
    ensures { result ≡ touches change.now x.now }
{
    match change {
        Change::Unit(handle, _) => u32::from(x.space) == *handle,
        Change::Window(space, _) => {
            let end = u64::from(space.first) + u64::from(space.pages);
            space.first <= x.first && u64::from(x.first) < end
        }
    }
}

// The interval as the space of the change shows it now.
fn changed(change: &Change, x: &Interval) -> Interval
    requires touched { touches change.now x.now ≡ true }
    ensures { Counts change.now → HasSmallHandle change.now → result ≡ changed change.now x.now }
{
    match change {
        Change::Unit(_, unit) => Interval { unit: *unit, ..*x },
        Change::Window(_, None) => Interval {
            mode: Mode::Unmapped,
            id: 0,
            page: 0,
            mapped: 0,
            ..*x
        },
        Change::Window(space, Some(window)) => Interval {
            mode: mode_of(window),
            id: window.file,
            page: window.first.wrapping_add(x.first - space.first),
            mapped: (space.handle % 65536) as u16,
            ..*x
        },
    }
}

// Changes the interval at an index, by the page that has its record, as it was read before.
fn rewrite_at<M: FlatMem>(
    mem: &mut M,
    page: &Page,
    index: u32,
    change: &Change,
) -> Result<(), SpaceError<M::Error>>
    requires size { 49152 ≤ M.size mem.old }
    requires inside { index < 1024 }
    ensures changed { (b : List ℕ) (slots : List (Option Space)) (before xs : List Interval) (x : Interval)
        → page.now ≡ interval_page b index → AreTables b slots before → slice_get before index ≡ Some x → IsReadable x
        → HoldTables (M.reveals mem.old) slots xs → slice_get xs index ≡ Some x → Counts change.now
        → HasSmallHandle change.now
        → MatchResult result (λ _. HoldTables (M.reveals mem.new) slots (slice_set xs index (changed change.now x)))
        FromMemory }
    ensures rest { (b : List ℕ) → M.reveals mem.old b → OnOk result (RevealsRest (M.reveals mem.new) b (index + 1)) }
    ensures malformed { (b : List ℕ) (count : ℕ) → page.now ≡ interval_page b index → index < count
        → IfErr result (IfMalformed (λ page. BreaksInterval count b page index)) }
    ensures refused { IfErr result NotRefused }
    ensures kept { M.beside mem.old mem.new }
    ensures cause { IfErr result (IfMem (M.accounted mem.old mem.new)) }
    ensures cost { M.spent mem.new ≤ M.spent mem.old + M.cost }
{
    let Some(old) = interval_on(page, index) else {
        return Err(SpaceError::Malformed {
            page: 32 + index / 16,
        });
    };
    if touches(change, &old) {
        put_interval(mem, index, &changed(change, &old))
    } else {
        Ok(())
    }
}

// Changes the intervals from an index on, before another, by the page that has their records, as it was read before.
fn rewrite_on<M: FlatMem>(
    mem: &mut M,
    page: &Page,
    from: u32,
    end: u32,
    change: &Change,
) -> Result<(), SpaceError<M::Error>>
    requires size { 49152 ≤ M.size mem.old }
    requires order { from < end }
    requires inside { end ≤ 1024 }
    requires page { end ≤ 16 * (from / 16) + 16 }
    ensures changed { (b : List ℕ) (slots : List (Option Space)) (xs : List Interval) → page.now ≡ interval_page b from
        → M.reveals mem.old b → AreTables b slots (changed_before change.now from xs) → end ≤ length xs
        → AreAllReadable xs → Counts change.now → HasSmallHandle change.now
        → MatchResult result (λ _. HoldTables (M.reveals mem.new) slots (changed_before change.now end xs)) FromMemory }
    ensures rest { (b : List ℕ) → M.reveals mem.old b → OnOk result (RevealsRest (M.reveals mem.new) b end) }
    ensures malformed { (b : List ℕ) (count : ℕ) → page.now ≡ interval_page b from → end ≤ count
        → IfErr result (IfMalformed (λ page. (k : ℕ) × (from ≤ k) × BreaksInterval count b page k)) }
    ensures refused { IfErr result NotRefused }
    ensures kept { M.beside mem.old mem.new }
    ensures cause { IfErr result (IfMem (M.accounted mem.old mem.new)) }
    ensures cost { M.spent mem.new ≤ M.spent mem.old + 16 * M.cost }
{
    let mut index = from;
    'rewriting: while index < end {
        rewrite_at(mem, page, index, change)?;
        index += 1;
    }
    Ok(())
}

/// Changes the intervals inside a space. Each is read before it is written.
pub fn rewrite<M: FlatMem>(
    mem: &mut M,
    count: u32,
    space: &Space,
    change: &Change,
) -> Result<(), SpaceError<M::Error>>
    requires size { 49152 ≤ M.size mem.old }
    requires some { 1 ≤ count }
    requires few { count ≤ 1023 }
    requires in_form { space_in_form space.now ≡ true }
    ensures changed { (slots : List (Option Space)) (xs : List Interval) (ss : List Space)
        → HoldTables (M.reveals mem.old) slots xs → AreIntervals ss xs → length xs ≡ count → AreAllReadable xs
        → Counts change.now → HasSmallHandle change.now → LiesInside change.now space.now xs
        → MatchResult result (λ _. HoldTables (M.reveals mem.new) slots (map (changed change.now) xs)) FromMemory }
    ensures malformed { (b : List ℕ) → M.reveals mem.old b → IfErr result (IfMalformed (BreaksProjection count b)) }
    ensures refused { IfErr result NotRefused }
    ensures kept { M.beside mem.old mem.new }
    ensures cause { IfErr result (IfMem (M.accounted mem.old mem.new)) }
    ensures cost { M.spent mem.new ≤ M.spent mem.old + 2046 * M.cost }
{
    let (from, end) = within(mem, count, space)?;
    let mut page = [0; PAGE_BYTES];
    let mut index = from;
    let mut number = from / 16;
    'rewriting: while index < end {
        load_page(mem, 32 + number, &mut page)?;
        let last = page_end(number, end);
        rewrite_on(mem, &page, index, last, change)?;
        index = last;
        number += 1;
    }
    Ok(())
}
