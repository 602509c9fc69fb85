//! Passes over the hierarchy.
ghost use Rattle.std.specs.Prelude.{◌≡◌, ℕ, ◌+◌, ◌*◌, ◌/◌, ◌%◌, ◌<◌, ◌≤◌, true, List, Option, Some, None, IfOk, IfErr, IfSome, MatchResult, slice_get, find};
ghost use Rattle.flat_machine.specs.declared.space.Space.{Space};
ghost use Rattle.projection_laws.specs.Sight.{Interval};
ghost use Rattle.projection_laws.specs.Slots.{listed};
ghost use Rattle.projection_laws.specs.Stored.{slot_in};
ghost use Rattle.space_tables.specs.Form.{slot_record, slot_page, space_in_form, BreaksSlot, BreaksHierarchy};
ghost use Rattle.space_tables.specs.Answer.{FromMemory, NotRefused, IfMem, IfMalformed};
ghost use Rattle.space_tables.specs.Stored.{AreTables, HoldTables, AreReadable};
ghost use Rattle.space_tables.specs.Scan.{passes, kept, end_on, IsFirstFrom, HaveAll, IsLowestFrom, IsLowestFree};

use crate::SpaceError;
use crate::handles::Handles;
use crate::records::{has_space_on, load_page, page_end, slot_on};
use flat_machine::{Space, Window};
use flat_mem::{FlatMem, Page};
use labelled_disk::{FileId, PAGE_BYTES};

/// Which space is looked for.
#[derive(Clone, Copy, Debug)]
pub enum Test {
    /// A child of the space with this handle.
    ChildOf(u32),
    /// A mapped space that shares a page with this one.
    OnPath(Space),
    /// A space with a window on this file, or with a writable one.
    Shows(FileId, bool),
}

fn passes(test: &Test, s: &Space) -> bool
    ensures { result ≡ passes test.now s.now }
{
    match test {
        Test::ChildOf(parent) => s.handle != 0 && s.parent == *parent,
        Test::OnPath(t) => s.window.is_some() && t.overlaps(s),
        Test::Shows(id, writable_only) => match s.window {
            Some(window) => window.file == *id && (!*writable_only || window.writable),
            None => false,
        },
    }
}

// The space of a handle, if it passes the test, by the page that has its record. The outer None means that the record
// breaks its form.
fn passing(page: &Page, handle: u32, test: &Test) -> Option<Option<Space>>
    requires inside { handle < 512 }
    ensures found { (b : List ℕ) (slots : List (Option Space)) (xs : List Interval) → page.now ≡ slot_page b handle
        → AreTables b slots xs → AreReadable slots xs
        → (p : Option Space) × (slice_get slots handle ≡ Some p) × (result ≡ Some (kept (passes test.now) p)) }
    ensures read { (b : List ℕ) → page.now ≡ slot_page b handle
        → IfSome result (λ o. IfSome o (λ s. slot_in s.handle (slot_record b s.handle) ≡ Some s)) }
    ensures form { IfSome result
        (λ o. IfSome o (λ s. (space_in_form s ≡ true) × (passes test.now s ≡ true) × (s.handle < 512))) }
    ensures malformed { (b : List ℕ) → page.now ≡ slot_page b handle → result ≡ None
        → BreaksSlot b (handle / 16) handle }
{
    match slot_on(page, handle)? {
        Some(space) => {
            if passes(test, &space) {
                Some(Some(space))
            } else {
                Some(None)
            }
        }
        None => Some(None),
    }
}

// The first space that passes the test among the handles from one on, before another, by the page that has their records. The
// outer None means that a record breaks its form.
fn first_on(page: &Page, from: u32, end: u32, test: &Test) -> Option<Option<Space>>
    requires inside { end ≤ 512 }
    requires page { end ≤ 16 * (from / 16) + 16 }
    ensures found { (b : List ℕ) (slots : List (Option Space)) (xs : List Interval) → page.now ≡ slot_page b from
        → AreTables b slots xs → AreReadable slots xs
        → (o : Option Space) × (result ≡ Some o) × IsFirstFrom (passes test.now) slots from end o }
    ensures read { (b : List ℕ) → page.now ≡ slot_page b from
        → IfSome result (λ o. IfSome o (λ s. slot_in s.handle (slot_record b s.handle) ≡ Some s)) }
    ensures form { IfSome result
        (λ o. IfSome o (λ s. (space_in_form s ≡ true) × (passes test.now s ≡ true) × (s.handle < 512))) }
    ensures malformed { (b : List ℕ) → page.now ≡ slot_page b from → result ≡ None → BreaksHierarchy b (from / 16) }
{
    let mut handle = from;
    'scan: while handle < end {
        if !has_space_on(page, handle) {
            handle += 1;
            continue 'scan;
        }
        if let Some(space) = passing(page, handle, test)? {
            return Some(Some(space));
        }
        handle += 1;
    }
    Some(None)
}

/// The first space, in ascending handles, that passes the test; the handles of all that pass are given, and maybe others.
pub fn find_space<M: FlatMem>(
    mem: &mut M,
    handles: &Handles,
    test: &Test,
) -> Result<Option<Space>, SpaceError<M::Error>>
    requires size { 49152 ≤ M.size mem.old }
    requires inside { handles.now.end ≤ 512 }
    ensures found { (slots : List (Option Space)) (xs : List Interval) → HoldTables (M.reveals mem.old) slots xs
        → AreReadable slots xs → HaveAll (passes test.now) slots handles.now
        → MatchResult result (λ o. o ≡ find (passes test.now) (listed slots)) FromMemory }
    ensures read { (b : List ℕ) → M.reveals mem.old b
        → IfOk result (λ o. IfSome o (λ s. slot_in s.handle (slot_record b s.handle) ≡ Some s)) }
    ensures form { IfOk result
        (λ o. IfSome o (λ s. (space_in_form s ≡ true) × (passes test.now s ≡ true) × (s.handle < 512))) }
    ensures malformed { (b : List ℕ) → M.reveals mem.old b → IfErr result (IfMalformed (BreaksHierarchy b)) }
    ensures refused { IfErr result NotRefused }
    ensures unchanged { (b : List ℕ) → M.reveals mem.old b → M.reveals mem.new b }
    ensures kept { M.beside mem.old mem.new }
    ensures looked { M.only_reads mem.old mem.new }
    ensures cause { IfErr result (IfMem (M.accounted mem.old mem.new)) }
    ensures cost { M.spent mem.new ≤ M.spent mem.old + 32 * M.cost }
{
    let mut page = [0; PAGE_BYTES];
    let mut from = handles.low;
    let mut number = from / 16;
    'scan: while from < handles.end {
        load_page(mem, number, &mut page)?;
        let end = page_end(number, handles.end);
        let Some(found) = first_on(&page, from, end, test) else {
            return Err(SpaceError::Malformed { page: number });
        };
        if let Some(space) = found {
            return Ok(Some(space));
        }
        from = end;
        number += 1;
    }
    Ok(None)
}

// The lowest handle from `from` on that no space has, among those whose records the page has.
fn free_on(page: &Page, from: u32) -> Option<u32>
    requires inside { from < 512 }
    ensures free { (b : List ℕ) (slots : List (Option Space)) (xs : List Interval) → page.now ≡ slot_page b from
        → AreTables b slots xs → IsLowestFrom slots from (end_on from) result }
    ensures form { IfSome result (λ h. (from ≤ h) × (h < 512)) }
{
    let end = from - from % 16 + 16;
    let mut handle = from;
    'scan: while handle < end {
        if !has_space_on(page, handle) {
            return Some(handle);
        }
        handle += 1;
    }
    None
}

/// The lowest handle from 1 on that no space has.
pub fn free_handle<M: FlatMem>(mem: &mut M) -> Result<Option<u32>, SpaceError<M::Error>>
    requires size { 49152 ≤ M.size mem.old }
    ensures free { (slots : List (Option Space)) (xs : List Interval) → HoldTables (M.reveals mem.old) slots xs
        → AreReadable slots xs → MatchResult result (IsLowestFree slots) FromMemory }
    ensures form { IfOk result (λ o. IfSome o (λ h. (1 ≤ h) × (h < 512))) }
    ensures memory { IfErr result FromMemory }
    ensures refused { IfErr result NotRefused }
    ensures unchanged { (b : List ℕ) → M.reveals mem.old b → M.reveals mem.new b }
    ensures kept { M.beside mem.old mem.new }
    ensures looked { M.only_reads mem.old mem.new }
    ensures cause { IfErr result (IfMem (M.accounted mem.old mem.new)) }
    ensures cost { M.spent mem.new ≤ M.spent mem.old + 511 * M.cost }
{
    let mut page = [0; PAGE_BYTES];
    let mut from = 1;
    'scan: while from < 512 {
        load_page(mem, from / 16, &mut page)?;
        if let Some(handle) = free_on(&page, from) {
            return Ok(Some(handle));
        }
        from = from - from % 16 + 16;
    }
    Ok(None)
}
