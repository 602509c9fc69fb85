//! The index: the slots whose pages are in one bucket, as a chain of falling numbers.
ghost use Rattle.std.specs.Prelude.{◌≡◌, ◌<◌, ◌≤◌, ◌+◌, ◌^◌, ◌↔◌, ℕ, length, true, false, IfSome, Option, Some, None};
ghost use Rattle.frame_pool.specs.Frames.{frame_at, is_of};
ghost use Rattle.frame_pool.specs.Lists.{IsSized};
ghost use Rattle.frame_pool.specs.Index.{bucket_of, bucket_at, IsIndex, IsFirstAbove, Puts, KeepsButChains};
ghost use Rattle.frame_pool.specs.Runs.{HasRun};

use crate::table::{Run, Table};
use labelled_disk::FileId;
use std::alloc::Allocator;

/// The odd number next to 2^64 divided by the golden ratio: multiplying by it spreads what is close.
const SPREAD: u64 = 11_400_714_819_323_198_485;

/// The bucket of a page, among so many.
#[tactic(auto, unfolding(crate::specs::Index::bucket_of))]
pub(crate) fn bucket_of(id: FileId, page: u32, buckets: u16) -> u16
    requires { 0 < buckets }
    ensures value { result ≡ bucket_of buckets id page }
    ensures below { result < buckets }
{
    let mixed = id
        .wrapping_mul(SPREAD)
        .wrapping_add(u64::from(page))
        .wrapping_mul(SPREAD);
    (mixed / 0x1_0000_0000 % u64::from(buckets)) as u16
}

/// The slot that has the page.
pub(crate) fn find<A: Allocator>(table: &Table<A>, id: FileId, page: u32) -> Option<u16>
    requires some { 0 < length table.now.frames }
    requires few { length table.now.frames < 2 ^ 16 }
    requires indexed { IsIndex (bucket_at table.now.frames) table.now }
    ensures found { IfSome result
        (λ slot. (slot < length table.now.frames) × (is_of id page (frame_at table.now.frames slot) ≡ true)) }
    ensures nowhere { result ≡ None → (slot : ℕ) → is_of id page (frame_at table.now.frames slot) ≡ false }
{
    let mut cursor = table.head(bucket_of(id, page, table.len() as u16));
    while let Some(slot) = cursor {
        if table.has(slot, id, page) {
            table.mark(slot);
            return Some(slot);
        }
        cursor = table.next(slot);
    }
    None
}

/// Whether each page of the run is in a slot.
pub(crate) fn has_run<A: Allocator>(table: &Table<A>, run: &Run) -> bool
    requires some { 0 < length table.now.frames }
    requires few { length table.now.frames < 2 ^ 16 }
    requires indexed { IsIndex (bucket_at table.now.frames) table.now }
    requires fits { run.now.first + run.now.pages ≤ 2 ^ 32 }
    ensures { result ≡ true ↔ HasRun table.now.frames run.now.id run.now.first run.now.pages }
{
    for k in 0..run.pages {
        if let None = find(table, run.id, run.first + k) {
            return false;
        }
    }
    true
}

/// The slot of the bucket's chain whose link is to lead to this slot, or none where the head is to.
fn first_above<A: Allocator>(table: &Table<A>, bucket: u16, slot: u16) -> Option<u16>
    requires below { bucket < length table.now.frames }
    requires indexed { IsIndex (bucket_at table.now.frames) table.now }
    ensures { IsFirstAbove (bucket_at table.now.frames) bucket slot (length table.now.frames) result }
{
    let mut above = None;
    let mut cursor = table.head(bucket);
    while let Some(other) = cursor {
        if other <= slot {
            break;
        }
        above = cursor;
        cursor = table.next(other);
    }
    above
}

/// Puts an empty slot into the bucket's chain.
pub(crate) fn link<A: Allocator>(table: &mut Table<A>, bucket: u16, slot: u16)
    requires below { bucket < length table.old.frames }
    requires slot { slot < length table.old.frames }
    requires sized { IsSized table.old }
    requires indexed { IsIndex (bucket_at table.old.frames) table.old }
    requires empty { bucket_at table.old.frames slot ≡ None }
    ensures linked { (at : ℕ → Option ℕ) → Puts (bucket_at table.old.frames) slot (Some bucket) at
        → IsIndex at table.new }
    ensures kept { KeepsButChains table.old table.new }
{
    match first_above(table, bucket, slot) {
        Some(above) => {
            let next = table.next(above);
            table.set_next(slot, next);
            table.set_next(above, Some(slot));
        }
        None => {
            let next = table.head(bucket);
            table.set_next(slot, next);
            table.set_head(bucket, Some(slot));
        }
    }
}

/// Takes a slot out of its bucket's chain.
pub(crate) fn unlink<A: Allocator>(table: &mut Table<A>, bucket: u16, slot: u16)
    requires below { bucket < length table.old.frames }
    requires slot { slot < length table.old.frames }
    requires sized { IsSized table.old }
    requires indexed { IsIndex (bucket_at table.old.frames) table.old }
    requires there { bucket_at table.old.frames slot ≡ Some bucket }
    ensures unlinked { (at : ℕ → Option ℕ) → Puts (bucket_at table.old.frames) slot None at → IsIndex at table.new }
    ensures kept { KeepsButChains table.old table.new }
{
    let next = table.next(slot);
    match first_above(table, bucket, slot) {
        Some(above) => table.set_next(above, next),
        None => table.set_head(bucket, next),
    }
}
