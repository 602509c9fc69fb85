//! Which handles the intervals name.
ghost use Rattle.std.specs.Prelude.{◌≡◌, ℕ, ◌+◌, ◌*◌, ◌/◌, ◌<◌, ◌≤◌, List, IfOk, IfErr, IfSome};
ghost use Rattle.projection_laws.specs.Stored.{interval_in};
ghost use Rattle.space_tables.specs.Form.{interval_record, interval_page};
ghost use Rattle.space_tables.specs.Answer.{FromMemory, IfMem};
ghost use Rattle.space_tables.specs.Handles.{handle_for, IsOneOf, NameOnly, Widens};

use crate::SpaceError;
use crate::code::Record;
use crate::records::{load_page, page_end};
use byteorder::{BigEndian, ByteOrder};
use flat_mem::{FlatMem, PAGE_BYTES, Page};
use labelled_disk::FileId;
use record_table::field;

/// Handles in a row: the lowest one, and the one after the last.
#[derive(Clone, Copy, Debug)]
pub struct Handles {
    pub low: u32,
    pub end: u32,
}

/// All of them.
pub const EVERY: Handles = Handles { low: 0, end: 512 };

/// Of which intervals the mapped space is asked for.
#[derive(Clone, Copy, Debug)]
pub enum Sought {
    /// Those that a window shows.
    Mapped,
    /// Those that show this file.
    Showing(FileId),
}

// The handle of the mapped space in the record of an interval, where the interval is one that is asked for.
fn handle_in(bytes: &Record, sought: &Sought) -> Option<u32>
    ensures { result ≡ handle_for sought.now (interval_in bytes.now) }
{
    let mapped = u32::from(field!(u16, bytes, 28));
    let is_sought = match sought {
        Sought::Mapped => mapped != 0,
        Sought::Showing(id) => field!(u64, bytes, 16) == *id,
    };
    if is_sought && mapped < 512 {
        Some(mapped)
    } else {
        None
    }
}

// The same, by the page that has the record.
fn handle_on(page: &Page, index: u32, sought: &Sought) -> Option<u32>
    requires inside { index < 1024 }
    ensures handle { (b : List ℕ) → page.now ≡ interval_page b index
        → result ≡ handle_for sought.now (interval_in (interval_record b index)) }
    ensures form { IfSome result (λ h. h < 512) }
{
    let at = (index % 16 * 32) as usize;
    let mut bytes = [0; 32];
    bytes.copy_from_slice(&page[at..at + 32]);
    handle_in(&bytes, sought)
}

// Handles with this one among them, if there is one.
fn with_handle(handles: Handles, handle: Option<u32>) -> Handles
    requires { IfSome handle (λ h. h < 512) }
    ensures has { IfSome handle (IsOneOf result) }
    ensures wider { Widens handles result }
    ensures form { handles.end ≤ 512 → result.end ≤ 512 }
{
    let Some(handle) = handle else {
        return handles;
    };
    Handles {
        low: if handle < handles.low {
            handle
        } else {
            handles.low
        },
        end: if handles.end <= handle {
            handle + 1
        } else {
            handles.end
        },
    }
}

// Handles with those among them that are named from an index on, before another, by the page that has their records.
fn with_named_on(page: &Page, from: u32, end: u32, sought: &Sought, handles: Handles) -> Handles
    requires inside { end ≤ 1024 }
    requires page { end ≤ 16 * (from / 16) + 16 }
    ensures named { (b : List ℕ) → page.now ≡ interval_page b from → NameOnly sought.now b from end result }
    ensures wider { Widens handles result }
    ensures form { handles.end ≤ 512 → result.end ≤ 512 }
{
    let mut handles = handles;
    let mut index = from;
    'naming: while index < end {
        handles = with_handle(handles, handle_on(page, index, sought));
        index += 1;
    }
    handles
}

/// The handles that are named by the intervals from an index on, before another, and those between them.
pub fn named_handles<M: FlatMem>(
    mem: &mut M,
    from: u32,
    end: u32,
    sought: &Sought,
) -> Result<Handles, SpaceError<M::Error>>
    requires size { 49152 ≤ M.size mem.old }
    requires inside { from < 1024 }
    requires few { end ≤ 1024 }
    ensures named { (b : List ℕ) → M.reveals mem.old b → IfOk result (NameOnly sought.now b from end) }
    ensures form { IfOk result (λ handles. handles.end ≤ 512) }
    ensures memory { IfErr result FromMemory }
    ensures unchanged { (b : List ℕ) → M.reveals mem.old b → M.reveals mem.new b }
    ensures kept { M.beside mem.old mem.new }
    ensures looked { M.only_reads mem.old mem.new }
    ensures cause { IfErr result (IfMem (M.accounted mem.old mem.new)) }
    ensures cost { M.spent mem.new ≤ M.spent mem.old + 64 * M.cost }
{
    let mut page = [0; PAGE_BYTES];
    let mut handles = Handles { low: 512, end: 0 };
    let mut index = from;
    let mut number = from / 16;
    'naming: while index < end {
        load_page(mem, 32 + number, &mut page)?;
        let last = page_end(number, end);
        handles = with_named_on(&page, index, last, sought, handles);
        index = last;
        number += 1;
    }
    Ok(handles)
}
