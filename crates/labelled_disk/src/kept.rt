//! What a disk in memory keeps of its writes and syncs.
ghost use Rattle.std.specs.Prelude.{◌≡◌, ◌<◌, ◌≤◌, ◌↔◌, true, false, [], ◌++◌, ◌∷◌, length, vec_capacity, IfOk, option_map};
ghost use Rattle.labelled_disk.specs.Memory.{FillsRoom, kept_writes, kept_room};
ghost use Rattle.labelled_disk.specs.Syncing.{is_last};

use crate::DiskWrite;
use std::alloc::{AllocError, Allocator};

// The syncs of a new disk, with room for one more at each of so many writes.
pub(crate) fn synced_once<A: Allocator>(alloc: A, room: u32) -> Result<Vec<u64, A>, AllocError>
    ensures items { IfOk result (λ syncs. syncs.items ≡ 0 ∷ []) }
    ensures room { IfOk result (λ syncs. room < vec_capacity syncs) }
{
    let mut syncs = Vec::with_capacity(alloc, room as usize + 1)?;
    syncs.push(0)?;
    Ok(syncs)
}

// Keeps a write in the list, where writes are kept, and answers whether there was room.
pub(crate) fn keep<A: Allocator>(
    writes: &mut Vec<DiskWrite, A>,
    recording: bool,
    room: u32,
    write: DiskWrite,
) -> bool
    requires { recording ≡ true → room ≤ vec_capacity writes.old }
    ensures kept { result ≡ true → kept_writes recording writes.new.items
        ≡ option_map (λ list. list ++ write ∷ []) (kept_writes recording writes.old.items) }
    ensures same { result ≡ false → writes.new.items ≡ writes.old.items }
    ensures full { result ≡ false ↔ FillsRoom (kept_room recording room) (kept_writes recording writes.old.items) }
    ensures capacity { vec_capacity writes.old ≤ vec_capacity writes.new }
    ensures longer { length writes.old.items ≤ length writes.new.items }
    ensures in_room { recording ≡ true → length writes.old.items ≤ room → length writes.new.items ≤ room }
{
    if !recording {
        return true;
    }
    writes.len() < room as usize && writes.push(write).is_ok()
}

// Whether this is the last of these numbers.
pub(crate) fn ends_with(syncs: &[u64], made: u64) -> bool
    ensures { result ≡ is_last made syncs.now }
{
    syncs.last() == Some(&made)
}
