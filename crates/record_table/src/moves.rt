//! Entries moved by one place, each page read and written once.
ghost use Rattle.std.specs.Prelude.{◌≡◌, ℕ, ◌+◌, ◌-◌, ◌*◌, ◌<◌, ◌≤◌, ◌/◌, ◌%◌, ◌^◌, List, length, IfErr, OnOk, insert, remove};
ghost use Rattle.flat_mem.specs.Memory.{overwritten};
ghost use Rattle.record_table.specs.Table.{per_page, capacity_of, pages_of, entries, RevealsEntries};
ghost use Rattle.record_table.specs.Pages.{IsPushed, IsPulled};
ghost use Rattle.record_table.specs.Moves.{MovesUp, MovesDown};

use crate::pages::{read_page, write_page};
use flat_mem::{FlatMem, PAGE_BYTES, Page};

// Writes over some bytes of a page.
fn put(page: &mut Page, at: usize, bytes: &[u8])
    requires { at + length bytes.now ≤ 512 }
    ensures { page.new ≡ overwritten page.old at bytes.now }
{
    page[at..at + bytes.len()].copy_from_slice(bytes);
}

// Puts the entry `carried` into a slot of a page, and moves those from there on one slot up.
// `carried` is then the entry that was the last.
fn push<const E: usize>(page: &mut Page, slot: usize, carried: &mut [u8; E])
    requires some { 1 ≤ E }
    requires most { E ≤ 64 }
    requires inside { slot < per_page E }
    ensures pushed { IsPushed E slot page.old page.new carried.old carried.new }
    ensures long { length carried.new ≡ E }
{
    let old = *page;
    let from = E * slot;
    let end = E * (PAGE_BYTES / E);
    put(page, from + E, &old[from..end - E]);
    put(page, from, carried);
    carried.copy_from_slice(&old[end - E..end]);
}

// Takes the entry of a slot out of a page, moves those after it one slot down, and puts `carried` into the last slot.
// `carried` is then the entry that was taken out.
fn pull<const E: usize>(page: &mut Page, slot: usize, carried: &mut [u8; E])
    requires some { 1 ≤ E }
    requires most { E ≤ 64 }
    requires inside { slot < per_page E }
    ensures pulled { IsPulled E slot page.old page.new carried.old carried.new }
    ensures long { length carried.new ≡ E }
{
    let old = *page;
    let from = E * slot;
    let end = E * (PAGE_BYTES / E);
    put(page, from, &old[from + E..end]);
    put(page, end - E, carried);
    carried.copy_from_slice(&old[from..from + E]);
}

// Pushes the entry `carried` into the page that has the place `at`.
fn push_page<M: FlatMem, const E: usize>(
    mem: &mut M,
    at: u32,
    carried: &mut [u8; E],
) -> Result<(), M::Error>
    requires some { 1 ≤ E }
    requires most { E ≤ 64 }
    requires inside { at < capacity_of E (M.size mem.old) }
    ensures moved { (b : List ℕ) → M.reveals mem.old b
        → OnOk result (MovesUp E (M.reveals mem.new) b at carried.old carried.new) }
    ensures long { length carried.new ≡ E }
    ensures kept { M.beside mem.old mem.new }
    ensures cause { IfErr result (λ e. M.accounted mem.old mem.new e) }
    ensures cost { M.spent mem.new ≤ M.spent mem.old + 2 * M.cost }
{
    let per_page = (PAGE_BYTES / E) as u32;
    let index = at / per_page;
    let mut page = [0; PAGE_BYTES];
    read_page(mem, index, &mut page)?;
    push(&mut page, (at % per_page) as usize, carried);
    write_page(mem, index, &page)
}

// Pulls the entry at the place `at` out of its page, with `carried` after the others.
fn pull_page<M: FlatMem, const E: usize>(
    mem: &mut M,
    at: u32,
    carried: &mut [u8; E],
) -> Result<(), M::Error>
    requires some { 1 ≤ E }
    requires most { E ≤ 64 }
    requires inside { at < capacity_of E (M.size mem.old) }
    ensures moved { (b : List ℕ) → M.reveals mem.old b
        → OnOk result (MovesDown E (M.reveals mem.new) b at carried.old carried.new) }
    ensures long { length carried.new ≡ E }
    ensures kept { M.beside mem.old mem.new }
    ensures cause { IfErr result (λ e. M.accounted mem.old mem.new e) }
    ensures cost { M.spent mem.new ≤ M.spent mem.old + 2 * M.cost }
{
    let per_page = (PAGE_BYTES / E) as u32;
    let index = at / per_page;
    let mut page = [0; PAGE_BYTES];
    read_page(mem, index, &mut page)?;
    pull(&mut page, (at % per_page) as usize, carried);
    write_page(mem, index, &page)
}

/// Puts an entry at the index `at` of a table, and moves those from there on one place up.
pub fn put_at<M: FlatMem, const E: usize>(
    mem: &mut M,
    at: u32,
    count: u32,
    new: &[u8; E],
) -> Result<(), M::Error>
    requires some { 1 ≤ E }
    requires most { E ≤ 64 }
    requires small { M.size mem.old ≤ 2 ^ 31 }
    requires order { at ≤ count }
    requires inside { count < capacity_of E (M.size mem.old) }
    ensures put { (b : List ℕ) → M.reveals mem.old b
        → OnOk result (RevealsEntries E (M.reveals mem.new) (count + 1) (insert (entries E b count) at new.now)) }
    ensures kept { M.beside mem.old mem.new }
    ensures cause { IfErr result (λ e. M.accounted mem.old mem.new e) }
    // one read and one write a page
    ensures cost { M.spent mem.new ≤ M.spent mem.old + 2 * pages_of E (count + 1) * M.cost }
{
    let per_page = (PAGE_BYTES / E) as u32;
    let mut carried = *new;
    let mut place = at;
    'moving: while place <= count {
        push_page(mem, place, &mut carried)?;
        place = place - place % per_page + per_page;
    }
    Ok(())
}

/// Takes the entry at the index `at` out of a table, and moves those after it one place down.
pub fn take_out<M: FlatMem, const E: usize>(
    mem: &mut M,
    at: u32,
    count: u32,
) -> Result<(), M::Error>
    requires some { 1 ≤ E }
    requires most { E ≤ 64 }
    requires order { at < count }
    requires inside { count ≤ capacity_of E (M.size mem.old) }
    ensures taken { (b : List ℕ) → M.reveals mem.old b
        → OnOk result (RevealsEntries E (M.reveals mem.new) (count - 1) (remove (entries E b count) at)) }
    ensures kept { M.beside mem.old mem.new }
    ensures cause { IfErr result (λ e. M.accounted mem.old mem.new e) }
    // one read and one write a page
    ensures cost { M.spent mem.new ≤ M.spent mem.old + 2 * pages_of E count * M.cost }
{
    let per_page = (PAGE_BYTES / E) as u32;
    let mut carried = [0; E];
    let mut end = count;
    'moving: while end > at {
        let last = end - 1;
        let from = at.max(last - last % per_page);
        pull_page(mem, from, &mut carried)?;
        end = from;
    }
    Ok(())
}
