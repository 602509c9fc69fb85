//! Records of the tables in a memory, read and written by their index.
ghost use Rattle.std.specs.Prelude.{◌≡◌, ℕ, ◌+◌, ◌*◌, ◌-◌, if◌then◌else◌, ◌<◌, ◌≤◌, ◌↔◌, ◌⊎◌, true, false, List, length, Option, Some, None, IfOk, IfErr, IfSome, OnOk, OnErr, MatchResult, slice_get, slice_set};
ghost use Rattle.flat_machine.specs.declared.space.Space.{Space};
ghost use Rattle.flat_mem.specs.Memory.{part, overwritten};
ghost use Rattle.projection_laws.specs.Sight.{Interval};
ghost use Rattle.projection_laws.specs.Stored.{interval_in, slot_bytes, slot_in};
ghost use Rattle.space_tables.specs.Form.{slot_record, slot_page, interval_record, interval_page, is_slot_record, is_interval_record, in_form, space_in_form, BreaksSlot, BreaksInterval};
ghost use Rattle.space_tables.specs.Answer.{FromMemory, NotRefused, IfMem, IfMalformed};
ghost use Rattle.space_tables.specs.Stored.{AreTables, HoldTables, AreReadable, IsReadable, RevealsRest};

use crate::SpaceError;
use crate::code::{Record, interval_bytes, read_interval, read_slot};
use flat_machine::Space;
use flat_mem::{FlatMem, PAGE_BYTES, Page};
use swap_units::Interval;

// Reads a record: the hierarchy has those below 512, and the projection those from there on.
fn load<M: FlatMem>(mem: &mut M, index: u32, into: &mut Record) -> Result<(), SpaceError<M::Error>>
    requires size { 49152 ≤ M.size mem.old }
    requires inside { index < 1536 }
    ensures read { (b : List ℕ) → M.reveals mem.old b → OnOk result (into.new ≡ part b (32 * index) 32) }
    ensures memory { IfErr result FromMemory }
    ensures unchanged { (b : List ℕ) → M.reveals mem.old b → M.reveals mem.new b }
    ensures kept { M.beside mem.old mem.new }
    ensures looked { M.only_reads mem.old mem.new }
    ensures cause { IfErr result (IfMem (M.accounted mem.old mem.new)) }
    ensures cost { M.spent mem.new ≤ M.spent mem.old + M.cost }
{
    match mem.read(32 * u64::from(index), into) {
        Ok(()) => Ok(()),
        Err(error) => Err(SpaceError::Mem(error)),
    }
}

/// Writes a record.
pub fn store<M: FlatMem>(
    mem: &mut M,
    index: u32,
    bytes: &Record,
) -> Result<(), SpaceError<M::Error>>
    requires size { 49152 ≤ M.size mem.old }
    requires inside { index < 1536 }
    ensures written { (b : List ℕ) → M.reveals mem.old b
        → OnOk result (M.reveals mem.new (overwritten b (32 * index) bytes.now)) }
    ensures memory { IfErr result FromMemory }
    ensures unchanged { (b : List ℕ) → M.reveals mem.old b → OnErr result (M.reveals mem.new b) }
    ensures kept { M.beside mem.old mem.new }
    ensures cause { IfErr result (IfMem (M.accounted mem.old mem.new)) }
    ensures cost { M.spent mem.new ≤ M.spent mem.old + M.cost }
{
    match mem.write(32 * u64::from(index), bytes) {
        Ok(()) => Ok(()),
        Err(error) => Err(SpaceError::Mem(error)),
    }
}

/// The space of a handle, or none.
pub fn slot<M: FlatMem>(mem: &mut M, handle: u32) -> Result<Option<Space>, SpaceError<M::Error>>
    requires size { 49152 ≤ M.size mem.old }
    requires inside { handle < 512 }
    ensures slot { (slots : List (Option Space)) (xs : List Interval) → HoldTables (M.reveals mem.old) slots xs
        → AreReadable slots xs → MatchResult result (λ o. slice_get slots handle ≡ Some o) FromMemory }
    ensures read { (b : List ℕ) → M.reveals mem.old b → IfOk result (λ o. o ≡ slot_in handle (slot_record b handle)) }
    ensures form { IfOk result (λ o. IfSome o (λ s. (space_in_form s ≡ true) × (s.handle ≡ handle))) }
    ensures malformed { (b : List ℕ) → M.reveals mem.old b
        → IfErr result (IfMalformed (λ page. BreaksSlot b page handle)) }
    ensures refused { IfErr result NotRefused }
    ensures unchanged { (b : List ℕ) → M.reveals mem.old b → M.reveals mem.new b }
    ensures kept { M.beside mem.old mem.new }
    ensures looked { M.only_reads mem.old mem.new }
    ensures cause { IfErr result (IfMem (M.accounted mem.old mem.new)) }
    ensures cost { M.spent mem.new ≤ M.spent mem.old + M.cost }
{
    let mut bytes = [0; 32];
    load(mem, handle, &mut bytes)?;
    match read_slot(handle, &bytes) {
        Some(slot) => Ok(slot),
        None => Err(SpaceError::Malformed { page: handle / 16 }),
    }
}

/// Reads a page of the tables: the hierarchy has those below 32, and the projection those from there on.
pub fn load_page<M: FlatMem>(
    mem: &mut M,
    number: u32,
    page: &mut Page,
) -> Result<(), SpaceError<M::Error>>
    requires size { 49152 ≤ M.size mem.old }
    requires inside { number < 96 }
    ensures read { (b : List ℕ) → M.reveals mem.old b → OnOk result (page.new ≡ part b (512 * number) 512) }
    ensures memory { IfErr result FromMemory }
    ensures refused { IfErr result NotRefused }
    ensures unchanged { (b : List ℕ) → M.reveals mem.old b → M.reveals mem.new b }
    ensures kept { M.beside mem.old mem.new }
    ensures looked { M.only_reads mem.old mem.new }
    ensures cause { IfErr result (IfMem (M.accounted mem.old mem.new)) }
    ensures cost { M.spent mem.new ≤ M.spent mem.old + M.cost }
{
    match mem.read(PAGE_BYTES as u64 * u64::from(number), page) {
        Ok(()) => Ok(()),
        Err(error) => Err(SpaceError::Mem(error)),
    }
}

/// The index after the last one before an end whose record stands in this page, counted from the page with index 0.
pub fn page_end(number: u32, end: u32) -> u32
    requires few { number < 64 }
    ensures within { (result ≤ end) × (result ≤ 16 * number + 16) }
    ensures last { (result ≡ end) ⊎ (result ≡ 16 * number + 16) }
{
    let last = 16 * number + 16;
    if end < last { end } else { last }
}

/// The space of a handle, or none there, by the page that has its record. The outer None means that the record breaks its
/// form.
pub fn slot_on(page: &Page, handle: u32) -> Option<Option<Space>>
    requires inside { handle < 512 }
    ensures slot { (b : List ℕ) → page.now ≡ slot_page b handle
        → result
        ≡ (if is_slot_record (slot_record b handle) then Some (slot_in handle (slot_record b handle)) else None) }
    ensures form { IfSome result (λ o. IfSome o (λ s. (space_in_form s ≡ true) × (s.handle ≡ handle))) }
{
    let at = (handle % 16 * 32) as usize;
    if page[at] == 0 {
        return Some(None);
    }
    let mut bytes = [0; 32];
    bytes.copy_from_slice(&page[at..at + 32]);
    read_slot(handle, &bytes)
}

/// Whether a space stands at a handle, by the page that has its record: the first byte of the record is not 0.
pub fn has_space_on(page: &Page, handle: u32) -> bool
    requires inside { handle < 512 }
    ensures space { (b : List ℕ) (slots : List (Option Space)) (xs : List Interval) → page.now ≡ slot_page b handle
        → AreTables b slots xs → (result ≡ false) ↔ (slice_get slots handle ≡ Some None) }
{
    page[(handle % 16 * 32) as usize] != 0
}

/// The interval at an index, by the page that has its record. None means that the record breaks its form.
pub fn interval_on(page: &Page, index: u32) -> Option<Interval>
    requires inside { index < 1024 }
    ensures interval { (b : List ℕ) → page.now ≡ interval_page b index
        → result
        ≡ (if is_interval_record (interval_record b index) then Some (interval_in (interval_record b index)) else
        None) }
    ensures form { IfSome result (λ x. in_form x ≡ true) }
{
    let at = (index % 16 * 32) as usize;
    let mut bytes = [0; 32];
    bytes.copy_from_slice(&page[at..at + 32]);
    read_interval(&bytes)
}

/// The interval at an index.
pub fn interval<M: FlatMem>(mem: &mut M, index: u32) -> Result<Interval, SpaceError<M::Error>>
    requires size { 49152 ≤ M.size mem.old }
    requires inside { index < 1024 }
    ensures interval { (slots : List (Option Space)) (xs : List Interval) (x : Interval)
        → HoldTables (M.reveals mem.old) slots xs → slice_get xs index ≡ Some x → IsReadable x
        → MatchResult result (λ y. y ≡ x) FromMemory }
    ensures read { (b : List ℕ) → M.reveals mem.old b → IfOk result (λ x. x ≡ interval_in (interval_record b index)) }
    ensures form { IfOk result (λ x. in_form x ≡ true) }
    ensures malformed { (b : List ℕ) (count : ℕ) → M.reveals mem.old b → index < count
        → IfErr result (IfMalformed (λ page. BreaksInterval count b page index)) }
    ensures refused { IfErr result NotRefused }
    ensures unchanged { (b : List ℕ) → M.reveals mem.old b → M.reveals mem.new b }
    ensures kept { M.beside mem.old mem.new }
    ensures looked { M.only_reads mem.old mem.new }
    ensures cause { IfErr result (IfMem (M.accounted mem.old mem.new)) }
    ensures cost { M.spent mem.new ≤ M.spent mem.old + M.cost }
{
    let mut bytes = [0; 32];
    load(mem, 512 + index, &mut bytes)?;
    match read_interval(&bytes) {
        Some(interval) => Ok(interval),
        None => Err(SpaceError::Malformed {
            page: 32 + index / 16,
        }),
    }
}

/// Writes the record of a handle: a space, or 32 zeros for none.
pub fn put_slot<M: FlatMem>(
    mem: &mut M,
    handle: u32,
    bytes: &Record,
) -> Result<(), SpaceError<M::Error>>
    requires size { 49152 ≤ M.size mem.old }
    requires inside { handle < 512 }
    ensures written { (slots : List (Option Space)) (xs : List Interval) (o : Option Space)
        → HoldTables (M.reveals mem.old) slots xs → bytes.now ≡ slot_bytes o
        → OnOk result (HoldTables (M.reveals mem.new) (slice_set slots handle o) xs) }
    ensures rest { (b : List ℕ) → M.reveals mem.old b → OnOk result (RevealsRest (M.reveals mem.new) b 0) }
    ensures memory { IfErr result FromMemory }
    ensures kept { M.beside mem.old mem.new }
    ensures cause { IfErr result (IfMem (M.accounted mem.old mem.new)) }
    ensures cost { M.spent mem.new ≤ M.spent mem.old + M.cost }
{
    store(mem, handle, bytes)
}

/// Writes an interval over that at an index.
pub fn put_interval<M: FlatMem>(
    mem: &mut M,
    index: u32,
    interval: &Interval,
) -> Result<(), SpaceError<M::Error>>
    requires size { 49152 ≤ M.size mem.old }
    requires inside { index < 1024 }
    ensures written { (slots : List (Option Space)) (xs : List Interval) → HoldTables (M.reveals mem.old) slots xs
        → index < length xs → OnOk result (HoldTables (M.reveals mem.new) slots (slice_set xs index interval.now)) }
    ensures rest { (b : List ℕ) → M.reveals mem.old b → OnOk result (RevealsRest (M.reveals mem.new) b (index + 1)) }
    ensures memory { IfErr result FromMemory }
    ensures kept { M.beside mem.old mem.new }
    ensures cause { IfErr result (IfMem (M.accounted mem.old mem.new)) }
    ensures cost { M.spent mem.new ≤ M.spent mem.old + M.cost }
{
    store(mem, 512 + index, &interval_bytes(interval))
}
