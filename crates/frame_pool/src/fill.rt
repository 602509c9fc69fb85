//! Filling a slot and emptying it: its frame, its place in the index and its place in the order change together.
ghost use Rattle.std.specs.Prelude.{◌≡◌, ◌<◌, ℕ, length, Some, None, slice_set};
ghost use Rattle.frame_pool.specs.Frames.{frame_at, new_frame, IsNowhere};
ghost use Rattle.frame_pool.specs.Pool.{IsPool};
ghost use Rattle.frame_pool.specs.Runs.{HasRuns};

use crate::chain::{bucket_of, link, unlink};
use crate::home::Home;
use crate::order::exchange;
use crate::table::Table;
use labelled_disk::Page;
use std::alloc::Allocator;

/// Puts a clean frame into an empty slot, and gives the number of empty slots that are left.
pub(crate) fn fill<A: Allocator>(
    table: &mut Table<A>,
    empties: u16,
    slot: u16,
    home: Home,
    bytes: &Page,
) -> u16
    requires pool { IsPool table.old empties }
    requires slot { slot < length table.old.frames }
    requires empty { frame_at table.old.frames slot ≡ None }
    requires nowhere { IsNowhere table.old.frames home.id home.page }
    ensures frames { table.new.frames ≡ slice_set table.old.frames slot (Some (new_frame home bytes.now)) }
    ensures pool { IsPool table.new result }
    ensures runs { (time : ℕ) → HasRuns table.old.frames table.old.founds time
        → HasRuns table.new.frames table.new.founds time }
{
    let bucket = bucket_of(home.id, home.page, table.len() as u16);
    link(table, bucket, slot);
    exchange(table, slot, empties - 1);
    table.fill(slot, home, bytes);
    empties - 1
}

/// Empties a slot, and gives the number of empty slots. Where it had a page, the time goes on, and no run that was found
/// is trusted any more.
pub(crate) fn clear<A: Allocator>(
    table: &mut Table<A>,
    time: &mut u32,
    empties: u16,
    slot: u16,
) -> u16
    requires pool { IsPool table.old empties }
    requires runs { HasRuns table.old.frames table.old.founds time.old }
    requires slot { slot < length table.old.frames }
    ensures frames { table.new.frames ≡ slice_set table.old.frames slot None }
    ensures pool { IsPool table.new result }
    ensures runs { HasRuns table.new.frames table.new.founds time.new }
{
    match table.held(slot) {
        Some((home, _)) => {
            *time = time.saturating_add(1);
            let bucket = bucket_of(home.id, home.page, table.len() as u16);
            unlink(table, bucket, slot);
            exchange(table, slot, empties);
            table.empty(slot);
            empties + 1
        }
        None => empties,
    }
}
