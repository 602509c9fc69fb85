//! Where a new space has room.
ghost use Rattle.std.specs.Prelude.{◌≡◌, ℕ, ◌+◌, ◌*◌, ◌/◌, ◌<◌, ◌≤◌, true, false, List, length, Option, Some, None, IfOk, IfErr, IfSome, MatchResult, slice_get, find};
ghost use Rattle.std.specs.Option.{option_map_or};
ghost use Rattle.flat_machine.specs.declared.space.Space.{Space};
ghost use Rattle.flat_machine.specs.Space.{space_at};
ghost use Rattle.flat_machine.specs.Next.{first_page_for};
ghost use Rattle.projection_laws.specs.Laws.{is_gap};
ghost use Rattle.projection_laws.specs.Sight.{Interval, end_of};
ghost use Rattle.projection_laws.specs.Slots.{listed};
ghost use Rattle.projection_laws.specs.Stored.{interval_in};
ghost use Rattle.projection_laws.specs.Tests.{no_place};
ghost use Rattle.space_tables.specs.Form.{interval_record, interval_page, in_form, BreaksProjection, BreaksLookUp, BreaksAt};
ghost use Rattle.space_tables.specs.Answer.{FromMemory, NotRefused, IfMem, IfMalformed, Replies};
ghost use Rattle.space_tables.specs.Looks.{Looks};
ghost use Rattle.space_tables.specs.Stored.{HoldTables, AreRight, IsReadable};
ghost use Rattle.space_tables.specs.Scan.{ends_in, IsFirstGap};

use crate::code::Record;
use crate::records::{interval_on, load_page, page_end};
use crate::{SpaceError, projection};
use byteorder::{BigEndian, ByteOrder};
use flat_machine::Refusal;
use flat_mem::{FlatMem, PAGE_BYTES, Page};
use record_table::field;
use swap_units::{Interval, ROOT_PAGES};

/// The interval that a new space lies in, with its index, and the first page of the space.
#[derive(Clone, Copy, Debug)]
pub struct Room {
    pub index: u32,
    pub interval: Interval,
    pub first: u32,
}

fn is_gap(parent: u32, pages: u32, x: &Interval) -> bool
    ensures { result ≡ is_gap parent pages x.now }
{
    u32::from(x.space) == parent && pages <= x.pages
}

// Whether the record of an interval says that it is one of the space, and of so many pages.
fn gap_in(bytes: &Record, parent: u32, pages: u32) -> bool
    ensures { result ≡ is_gap parent pages (interval_in bytes.now) }
{
    u32::from(field!(u16, bytes, 8)) == parent && pages <= field!(u32, bytes, 4)
}

// The same, by the page that has the record.
fn gap_at(page: &Page, index: u32, parent: u32, pages: u32) -> bool
    requires inside { index < 1024 }
    ensures gap { (b : List ℕ) → page.now ≡ interval_page b index
        → result ≡ is_gap parent pages (interval_in (interval_record b index)) }
{
    let at = (index % 16 * 32) as usize;
    let mut bytes = [0; 32];
    bytes.copy_from_slice(&page[at..at + 32]);
    gap_in(&bytes, parent, pages)
}

// Room for so many pages of a space in its first interval that has them, from an index on, before another, by the page that has
// their records. The outer None means that its record breaks its form.
fn gap_on(page: &Page, from: u32, end: u32, parent: u32, pages: u32) -> Option<Option<Room>>
    requires inside { end ≤ 1024 }
    requires page { end ≤ 16 * (from / 16) + 16 }
    ensures room { (b : List ℕ) → page.now ≡ interval_page b from
        → IfSome result
        (λ o.
        IfSome o
        (λ r.
        (from ≤ r.index) × (r.interval ≡ interval_in (interval_record b r.index))
        × ((k : ℕ) → from ≤ k → k < r.index → is_gap parent pages (interval_in (interval_record b k)) ≡ false))) }
    ensures none { (b : List ℕ) → page.now ≡ interval_page b from → result ≡ Some None
        → (k : ℕ) → from ≤ k → k < end → is_gap parent pages (interval_in (interval_record b k)) ≡ false }
    ensures form { IfSome result
        (λ o.
        IfSome o
        (λ r.
        (r.index < end) × (in_form r.interval ≡ true) × (is_gap parent pages r.interval ≡ true)
        × (r.first ≡ r.interval.first))) }
    ensures malformed { (b : List ℕ) (count : ℕ) → page.now ≡ interval_page b from → end ≤ count → result ≡ None
        → BreaksProjection count b (32 + from / 16) }
{
    let mut index = from;
    'scan: while index < end {
        if !gap_at(page, index, parent, pages) {
            index += 1;
            continue 'scan;
        }
        let interval = interval_on(page, index)?;
        if is_gap(parent, pages, &interval) {
            let first = interval.first;
            return Some(Some(Room {
                index,
                interval,
                first,
            }));
        }
        index += 1;
    }
    Some(None)
}

// Room for so many pages of a space in its first interval that has them.
fn find_gap<M: FlatMem>(
    mem: &mut M,
    count: u32,
    parent: u32,
    pages: u32,
) -> Result<Option<Room>, SpaceError<M::Error>>
    requires size { 49152 ≤ M.size mem.old }
    requires few { count ≤ 1023 }
    ensures found { (slots : List (Option Space)) (xs : List Interval) → HoldTables (M.reveals mem.old) slots xs
        → length xs ≡ count → ((k : ℕ) (x : Interval) → slice_get xs k ≡ Some x → IsReadable x)
        → MatchResult result (IsFirstGap parent pages xs) FromMemory }
    ensures form { IfOk result
        (λ o.
        IfSome o
        (λ r.
        (r.index < count) × (in_form r.interval ≡ true) × (is_gap parent pages r.interval ≡ true)
        × (r.first ≡ r.interval.first))) }
    ensures read { (b : List ℕ) → M.reveals mem.old b
        → IfOk result (λ o. IfSome o (λ r. r.interval ≡ interval_in (interval_record b r.index))) }
    ensures malformed { (b : List ℕ) → M.reveals mem.old b → IfErr result (IfMalformed (BreaksProjection count b)) }
    ensures refused { IfErr result NotRefused }
    ensures unchanged { (b : List ℕ) → M.reveals mem.old b → M.reveals mem.new b }
    ensures kept { M.beside mem.old mem.new }
    ensures looked { M.only_reads mem.old mem.new }
    ensures cause { IfErr result (IfMem (M.accounted mem.old mem.new)) }
    ensures cost { M.spent mem.new ≤ M.spent mem.old + 1023 * M.cost }
{
    let mut page = [0; PAGE_BYTES];
    let mut index = 0;
    let mut number = 0;
    'scan: while index < count {
        load_page(mem, 32 + number, &mut page)?;
        let end = page_end(number, count);
        let Some(found) = gap_on(&page, index, end, parent, pages) else {
            return Err(SpaceError::Malformed { page: 32 + number });
        };
        if let Some(room) = found {
            return Ok(Some(room));
        }
        index = end;
        number += 1;
    }
    Ok(None)
}

// The interval is one of the space, and so many pages from the first one on end in it.
fn ends_in(parent: u32, pages: u32, first: u32, x: &Interval) -> bool
    ensures { result ≡ ends_in parent pages first x.now }
{
    let end = u64::from(first) + u64::from(pages);
    u32::from(x.space) == parent && end <= u64::from(x.first) + u64::from(x.pages)
}

// Room for so many pages of a space from a given page on.
fn given_room<M: FlatMem>(
    mem: &mut M,
    count: u32,
    parent: u32,
    pages: u32,
    first: u32,
) -> Result<Room, SpaceError<M::Error>>
    requires size { 49152 ≤ M.size mem.old }
    requires some { 1 ≤ count }
    requires few { count ≤ 1023 }
    requires pages { 1 ≤ pages }
    ensures answer { (slots : List (Option Space)) (xs : List Interval) (p : Space)
        → HoldTables (M.reveals mem.old) slots xs → AreRight slots xs → length xs ≡ count
        → space_at (listed slots) parent ≡ Some p
        → Replies (no_place (listed slots) parent pages (Some first))
        (λ r. (slice_get xs r.index ≡ Some r.interval) × (r.first ≡ first)) result }
    ensures form { IfOk result
        (λ r.
        (r.index < count) × (in_form r.interval ≡ true) × (r.interval.first ≤ r.first)
        × (r.first + pages ≤ end_of r.interval)) }
    ensures own { IfOk result (λ r. r.interval.space ≡ parent) }
    ensures placed { IfOk result (λ r. r.first ≡ first) }
    ensures read { (b : List ℕ) → M.reveals mem.old b
        → IfOk result (λ r. r.interval ≡ interval_in (interval_record b r.index)) }
    ensures malformed { (b : List ℕ) → M.reveals mem.old b → IfErr result (IfMalformed (BreaksLookUp first count b)) }
    ensures looks { Looks M.FlatMem (7 * M.cost) mem.old mem.new result }
{
    if first >= ROOT_PAGES {
        return Err(SpaceError::Refused(Refusal::Range));
    }
    let (index, interval) = projection::find(mem, count, first)?;
    if ends_in(parent, pages, first, &interval) {
        Ok(Room {
            index,
            interval,
            first,
        })
    } else {
        Err(SpaceError::Refused(Refusal::Range))
    }
}

/// Room for so many pages of a space: from a given page on, or in its lowest gap that is long enough.
pub fn find_room<M: FlatMem>(
    mem: &mut M,
    count: u32,
    parent: u32,
    pages: u32,
    first: Option<u32>,
) -> Result<Room, SpaceError<M::Error>>
    requires size { 49152 ≤ M.size mem.old }
    requires some { 1 ≤ count }
    requires few { count ≤ 1023 }
    requires pages { 1 ≤ pages }
    ensures answer { (slots : List (Option Space)) (xs : List Interval) (p : Space)
        → HoldTables (M.reveals mem.old) slots xs → AreRight slots xs → length xs ≡ count
        → space_at (listed slots) parent ≡ Some p
        → Replies (no_place (listed slots) parent pages first)
        (λ r. (slice_get xs r.index ≡ Some r.interval) × (r.first ≡ first_page_for (listed slots) parent pages first))
        result }
    ensures form { IfOk result
        (λ r.
        (r.index < count) × (in_form r.interval ≡ true) × (r.interval.first ≤ r.first)
        × (r.first + pages ≤ end_of r.interval)) }
    ensures own { IfOk result (λ r. r.interval.space ≡ parent) }
    ensures placed { IfOk result (λ r. r.first ≡ option_map_or (λ p. p) first r.interval.first) }
    ensures read { (b : List ℕ) → M.reveals mem.old b
        → IfOk result (λ r. r.interval ≡ interval_in (interval_record b r.index)) }
    ensures malformed { (b : List ℕ) → M.reveals mem.old b → IfErr result (IfMalformed (BreaksAt first count b)) }
    ensures looks { Looks M.FlatMem (1023 * M.cost) mem.old mem.new result }
{
    let Some(first) = first else {
        return match find_gap(mem, count, parent, pages)? {
            Some(room) => Ok(room),
            None => Err(SpaceError::Refused(Refusal::Gap)),
        };
    };
    given_room(mem, count, parent, pages, first)
}
