//! The projection as a table in its pages of the memory: a look-up, and intervals put in and taken out.
ghost use Rattle.std.specs.Prelude.{◌≡◌, ℕ, ◌+◌, ◌*◌, ◌-◌, ◌<◌, ◌≤◌, true, false, List, length, Option, Some, Ok, Err, ◌≢◌, IfOk, IfErr, OnOk, MatchResult, slice_get, insert, remove};
ghost use Rattle.std.specs.Int.{w32, to_be_bytes};
ghost use Rattle.flat_machine.specs.declared.space.Space.{Space};
ghost use Rattle.flat_machine.specs.Space.{root_pages};
ghost use Rattle.flat_mem.specs.Memory.{part};
ghost use Rattle.flat_mem.specs.Order.{at_most};
ghost use Rattle.record_table.specs.Table.{entries};
ghost use Rattle.record_table.specs.Look.{IsAnswer, IsWithin, TurnsAt};
ghost use Rattle.record_table.specs.declared.look.Count.TheVariants.{Given};
ghost use Rattle.record_table.specs.declared.look.Look.TheVariants.{Before};
ghost use Rattle.record_table.specs.Edits.{IfMem as IfTableMem};
ghost use Rattle.projection_laws.specs.Sight.{Interval, AreIntervals};
ghost use Rattle.projection_laws.specs.Stored.{bytes_of, interval_in, HoldsAt};
ghost use Rattle.space_tables.specs.Form.{interval_record, in_form, space_in_form, BreaksLookUp};
ghost use Rattle.swap_units.specs.Unit.{has_page};
ghost use Rattle.space_tables.specs.Answer.{FromMemory, NotRefused, IfMem, IfMalformed};
ghost use Rattle.space_tables.specs.Looks.{Looks};
ghost use Rattle.space_tables.specs.Handles.{AreWithin};
ghost use Rattle.space_tables.specs.Stored.{HoldTables, AreRight};

use crate::SpaceError;
use crate::code::{Record, interval_bytes, read_interval};
use flat_machine::Space;
use flat_mem::{FlatMem, Part, TableError};
use record_table::{Count, Look, RecordTable, look_up};
use swap_units::Interval;

// Looks up the last record whose first page is at most a page.
fn look_up_record<M: FlatMem>(
    mem: &mut M,
    count: u32,
    page: u32,
    into: &mut Record,
) -> Result<Look, M::Error>
    requires size { 49152 ≤ M.size mem.old }
    requires few { count ≤ 1023 }
    ensures answer { (w : List ℕ) → M.reveals mem.old w
        → IfOk result (IsAnswer 4 (entries 32 (part w 16384 32768) count) count (to_be_bytes w32 page) into.new) }
    ensures before { (w : List ℕ) → M.reveals mem.old w → result ≡ Ok Before → 0 < count
        → at_most (part w 16384 4) (to_be_bytes w32 page) ≡ false }
    ensures turn { (w : List ℕ) → M.reveals mem.old w
        → IfOk result (TurnsAt 4 (entries 32 (part w 16384 32768) count) (to_be_bytes w32 page)) }
    ensures form { IfOk result (IsWithin (Given count) count) }
    ensures unchanged { (w : List ℕ) → M.reveals mem.old w → M.reveals mem.new w }
    ensures kept { M.beside mem.old mem.new }
    ensures looked { M.only_reads mem.old mem.new }
    ensures cause { IfErr result (λ e. M.accounted mem.old mem.new e) }
    ensures cost { M.spent mem.new ≤ M.spent mem.old + 7 * M.cost }
{
    let mut projection = Part::of(mem, 32, 64);
    let key = page.to_be_bytes();
    look_up(&mut projection, Count::Given(count), count, &key, into)
}

/// The interval that holds a page of the root, and its index.
pub fn find<M: FlatMem>(
    mem: &mut M,
    count: u32,
    page: u32,
) -> Result<(u32, Interval), SpaceError<M::Error>>
    requires size { 49152 ≤ M.size mem.old }
    requires some { 1 ≤ count }
    requires few { count ≤ 1023 }
    ensures found { (slots : List (Option Space)) (xs : List Interval) → HoldTables (M.reveals mem.old) slots xs
        → AreRight slots xs → length xs ≡ count → page < root_pages
        → MatchResult result (λ at. slice_get xs at.0 ≡ Some at.1) FromMemory }
    ensures form { IfOk result (λ at. (at.0 < count) × (in_form at.1 ≡ true) × (has_page page at.1 ≡ true)) }
    ensures read { (b : List ℕ) → M.reveals mem.old b
        → IfOk result (λ at. at.1 ≡ interval_in (interval_record b at.0)) }
    ensures malformed { (b : List ℕ) → M.reveals mem.old b → IfErr result (IfMalformed (BreaksLookUp page count b)) }
    ensures refused { IfErr result NotRefused }
    ensures looks { Looks M.FlatMem (7 * M.cost) mem.old mem.new result }
{
    let mut bytes = [0; 32];
    let index = match look_up_record(mem, count, page, &mut bytes) {
        Ok(Look::Entry(index)) => index,
        Ok(Look::Before) => return Err(SpaceError::Malformed { page: 32 }),
        Ok(Look::Count(_)) => unreachable!(),
        Err(error) => return Err(SpaceError::Mem(error)),
    };
    match read_interval(&bytes) {
        Some(interval) if interval.has_page(page) => Ok((index, interval)),
        _ => Err(SpaceError::Malformed {
            page: 32 + index / 16,
        }),
    }
}

// The index of the last interval that begins at or before a page, or 0.
fn index_of<M: FlatMem>(mem: &mut M, count: u32, page: u32) -> Result<u32, SpaceError<M::Error>>
    requires size { 49152 ≤ M.size mem.old }
    requires some { 1 ≤ count }
    requires few { count ≤ 1023 }
    ensures found { (slots : List (Option Space)) (xs : List Interval) (ss : List Space)
        → HoldTables (M.reveals mem.old) slots xs → AreIntervals ss xs → length xs ≡ count → page < root_pages
        → MatchResult result (λ k. HoldsAt xs k page) FromMemory }
    ensures form { IfOk result (λ k. k < count) }
    ensures memory { IfErr result FromMemory }
    ensures unchanged { (b : List ℕ) → M.reveals mem.old b → M.reveals mem.new b }
    ensures kept { M.beside mem.old mem.new }
    ensures looked { M.only_reads mem.old mem.new }
    ensures cause { IfErr result (IfMem (M.accounted mem.old mem.new)) }
    ensures cost { M.spent mem.new ≤ M.spent mem.old + 7 * M.cost }
{
    let mut bytes = [0; 32];
    match look_up_record(mem, count, page, &mut bytes) {
        Ok(Look::Entry(index)) => Ok(index),
        Ok(Look::Before) => Ok(0),
        Ok(Look::Count(_)) => unreachable!(),
        Err(error) => Err(SpaceError::Mem(error)),
    }
}

/// Where the intervals that share a page with a space stand: the index of the first one, and the index after the last.
pub fn within<M: FlatMem>(
    mem: &mut M,
    count: u32,
    space: &Space,
) -> Result<(u32, u32), SpaceError<M::Error>>
    requires size { 49152 ≤ M.size mem.old }
    requires some { 1 ≤ count }
    requires few { count ≤ 1023 }
    requires in_form { space_in_form space.now ≡ true }
    ensures found { (slots : List (Option Space)) (xs : List Interval) (ss : List Space)
        → HoldTables (M.reveals mem.old) slots xs → AreIntervals ss xs → length xs ≡ count
        → MatchResult result (AreWithin xs space.now) FromMemory }
    ensures form { IfOk result (λ at. (at.0 < at.1) × (at.1 ≤ count)) }
    ensures memory { IfErr result FromMemory }
    ensures unchanged { (b : List ℕ) → M.reveals mem.old b → M.reveals mem.new b }
    ensures kept { M.beside mem.old mem.new }
    ensures looked { M.only_reads mem.old mem.new }
    ensures cause { IfErr result (IfMem (M.accounted mem.old mem.new)) }
    ensures cost { M.spent mem.new ≤ M.spent mem.old + 14 * M.cost }
{
    // A few intervals are passed sooner than two are looked up.
    if count <= 8 {
        return Ok((0, count));
    }
    let from = index_of(mem, count, space.first)?;
    let last = index_of(mem, count, space.first + (space.pages - 1))?;
    Ok((from, if last < from { from } else { last } + 1))
}

// Puts a record at an index, and moves those from there on one place up.
fn insert_record<M: FlatMem>(
    mem: &mut M,
    count: u32,
    at: u32,
    bytes: &Record,
) -> Result<(), TableError<M::Error>>
    requires size { 49152 ≤ M.size mem.old }
    requires order { at ≤ count }
    requires few { count ≤ 1022 }
    ensures inserted { (slots : List (Option Space)) (xs : List Interval) (x : Interval)
        → HoldTables (M.reveals mem.old) slots xs → length xs ≡ count → bytes.now ≡ bytes_of x
        → OnOk result (HoldTables (M.reveals mem.new) slots (insert xs at x)) }
    ensures room { result ≢ Err TableError.Full }
    ensures kept { M.beside mem.old mem.new }
    ensures cause { IfErr result (IfTableMem (M.accounted mem.old mem.new)) }
    ensures cost { M.spent mem.new ≤ M.spent mem.old + 128 * M.cost }
{
    let mut table = RecordTable::<_, 32, 4>::over(Part::of(mem, 32, 64), count);
    table.insert_at(at, bytes)
}

/// Puts an interval at an index, and moves those from there on one place up.
pub fn insert<M: FlatMem>(
    mem: &mut M,
    count: u32,
    at: u32,
    interval: &Interval,
) -> Result<(), SpaceError<M::Error>>
    requires size { 49152 ≤ M.size mem.old }
    requires order { at ≤ count }
    requires few { count ≤ 1022 }
    ensures inserted { (slots : List (Option Space)) (xs : List Interval) → HoldTables (M.reveals mem.old) slots xs
        → length xs ≡ count → OnOk result (HoldTables (M.reveals mem.new) slots (insert xs at interval.now)) }
    ensures memory { IfErr result FromMemory }
    ensures kept { M.beside mem.old mem.new }
    ensures cause { IfErr result (IfMem (M.accounted mem.old mem.new)) }
    ensures cost { M.spent mem.new ≤ M.spent mem.old + 128 * M.cost }
{
    match insert_record(mem, count, at, &interval_bytes(interval)) {
        Ok(()) => Ok(()),
        Err(TableError::Full) => Err(SpaceError::Malformed { page: 32 }),
        Err(TableError::Mem(error)) => Err(SpaceError::Mem(error)),
    }
}

// Takes the record at an index out, and moves those after it one place down.
fn remove_record<M: FlatMem>(mem: &mut M, count: u32, at: u32) -> Result<(), M::Error>
    requires size { 49152 ≤ M.size mem.old }
    requires order { at < count }
    requires few { count ≤ 1023 }
    ensures removed { (slots : List (Option Space)) (xs : List Interval) → HoldTables (M.reveals mem.old) slots xs
        → length xs ≡ count → OnOk result (HoldTables (M.reveals mem.new) slots (remove xs at)) }
    ensures kept { M.beside mem.old mem.new }
    ensures cause { IfErr result (λ e. M.accounted mem.old mem.new e) }
    ensures cost { M.spent mem.new ≤ M.spent mem.old + 128 * M.cost }
{
    let mut table = RecordTable::<_, 32, 4>::over(Part::of(mem, 32, 64), count);
    table.remove(at)
}

/// Takes the interval at an index out, and moves those after it one place down.
pub fn remove<M: FlatMem>(mem: &mut M, count: u32, at: u32) -> Result<(), SpaceError<M::Error>>
    requires size { 49152 ≤ M.size mem.old }
    requires order { at < count }
    requires few { count ≤ 1023 }
    ensures removed { (slots : List (Option Space)) (xs : List Interval) → HoldTables (M.reveals mem.old) slots xs
        → length xs ≡ count → OnOk result (HoldTables (M.reveals mem.new) slots (remove xs at)) }
    ensures memory { IfErr result FromMemory }
    ensures kept { M.beside mem.old mem.new }
    ensures cause { IfErr result (IfMem (M.accounted mem.old mem.new)) }
    ensures cost { M.spent mem.new ≤ M.spent mem.old + 128 * M.cost }
{
    match remove_record(mem, count, at) {
        Ok(()) => Ok(()),
        Err(error) => Err(SpaceError::Mem(error)),
    }
}
