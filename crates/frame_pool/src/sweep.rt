//! The choice of a slot to give up, by second chance.
ghost use Rattle.std.specs.Prelude.{◌≡◌, ◌<◌, ◌≤◌, ◌^◌, ℕ, length, false, true, IfSome, None};
ghost use Rattle.frame_pool.specs.Frames.{frame_at, is_kept, HasDistinct};

use crate::table::{Run, Table};
use std::alloc::Allocator;

/// The first of these slots that has no page of the run and no second chance. Those before it lose theirs.
fn first_unmarked<A: Allocator>(table: &Table<A>, run: &Run, from: u16, to: u16) -> Option<u16>
    requires { to ≤ length table.now.frames }
    ensures { IfSome result
        (λ s. (s < to) × (is_kept run.now.id run.now.first run.now.pages (frame_at table.now.frames s) ≡ false)) }
{
    for slot in from..to {
        if !table.is_kept(slot, run) && !table.take_mark(slot) {
            return Some(slot);
        }
    }
    None
}

/// The first of these slots that has no page of the run.
fn first_outside<A: Allocator>(table: &Table<A>, run: &Run, from: u16, to: u16) -> Option<u16>
    requires { to ≤ length table.now.frames }
    ensures found { IfSome result
        (λ s. (s < to) × (is_kept run.now.id run.now.first run.now.pages (frame_at table.now.frames s) ≡ false)) }
    ensures none { result ≡ None → (s : ℕ) → from ≤ s → s < to
        → is_kept run.now.id run.now.first run.now.pages (frame_at table.now.frames s) ≡ true }
{
    for slot in from..to {
        if !table.is_kept(slot, run) {
            return Some(slot);
        }
    }
    None
}

/// A slot that has no page of the run: the next one from the hand on, round and round, that has no second chance.
pub(crate) fn sweep<A: Allocator>(table: &Table<A>, run: &Run, hand: u16) -> u16
    requires few { length table.now.frames < 2 ^ 16 }
    requires distinct { HasDistinct table.now.frames }
    requires room { run.now.pages < length table.now.frames }
    ensures below { result < length table.now.frames }
    ensures outside { is_kept run.now.id run.now.first run.now.pages (frame_at table.now.frames result) ≡ false }
{
    let slots = table.len() as u16;
    let hand = hand.min(slots);
    if let Some(slot) = first_unmarked(table, run, hand, slots) {
        return slot;
    }
    if let Some(slot) = first_unmarked(table, run, 0, hand) {
        return slot;
    }
    if let Some(slot) = first_outside(table, run, hand, slots) {
        return slot;
    }
    match first_outside(table, run, 0, hand) {
        Some(slot) => slot,
        None => unreachable!(),
    }
}
