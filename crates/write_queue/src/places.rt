//! Where a page stands among those that wait.
ghost use Rattle.std.specs.Prelude.{◌≡◌, ◌<◌, ◌≤◌, ◌+◌, ◌==◌, true, length, slice_get, slice_index, take, Some, None, IfSome};
ghost use Rattle.std.specs.List.{list_any};
ghost use Rattle.write_queue.specs.declared.entry.Entry.{Entry};
ghost use Rattle.write_queue.specs.Entries.{waiting_at};
ghost use Rattle.write_queue.specs.Finding.{IsFirstAt, IsFirstOf, Misses};
ghost use Rattle.write_queue.specs.Inside.{HasFirst};
ghost use Rattle.write_queue.specs.Sweeps.{sweep_key};

use crate::QueueOver;
use labelled_disk::Disk;
use std::alloc::Allocator;

// How many sectors are compared in one step.
const BLOCK: usize = 32;

// How far a sector is ahead of the head, round the disk.
fn ahead(head: u32, sector: u32) -> u32
    ensures { result + head ≡ sweep_key head sector }
{
    sector.wrapping_sub(head)
}

// The first sector of the sweep.
fn first_of_sweep(head: u32, sectors: &[u32]) -> u32
    requires { 0 < length sectors.now }
    ensures { IsFirstOf head result sectors.now }
{
    let mut least = ahead(head, sectors[0]);
    for sector in sectors {
        least = least.min(ahead(head, *sector));
    }
    head.wrapping_add(least)
}

// Whether the sector is in the block. It looks at each, also after the first.
fn has(sector: u32, block: &[u32]) -> bool
    ensures { result ≡ list_any (λ s. s == sector) block.now }
{
    let mut any = false;
    for other in block {
        any |= *other == sector;
    }
    any
}

// How many sectors the whole blocks before the first that has the sector hold.
fn length_of_blocks_before(sector: u32, sectors: &[u32]) -> usize
    ensures within { result ≤ length sectors.now }
    ensures misses { Misses sector (take result sectors.now) }
{
    let mut length = 0;
    while sectors.len() - length >= BLOCK && !has(sector, &sectors[length..length + BLOCK]) {
        length += BLOCK;
    }
    length
}

// How many sectors stand before this one; all, if it is none of them.
fn length_before(sector: u32, sectors: &[u32]) -> usize
    ensures misses { Misses sector (take result sectors.now) }
    ensures stands { result < length sectors.now → slice_index sectors.now result ≡ sector }
    ensures within { result ≤ length sectors.now }
{
    for (place, other) in sectors.iter().enumerate() {
        if *other == sector {
            return place;
        }
    }
    sectors.len()
}

// The index of a sector; the length of the list, if it is not there.
fn index_of(sectors: &[u32], sector: u32) -> usize
    ensures misses { Misses sector (take result sectors.now) }
    ensures stands { result < length sectors.now → slice_index sectors.now result ≡ sector }
    ensures within { result ≤ length sectors.now }
{
    let blocks = length_of_blocks_before(sector, sectors);
    blocks + length_before(sector, &sectors[blocks..])
}

// The index of the sector after the head, where it stands there. The guess is looked at first.
fn next_after(head: u32, guess: usize, sectors: &[u32]) -> Option<usize>
    requires { Misses head sectors.now }
    ensures { IfSome result (λ place. IsFirstAt head place sectors.now) }
{
    let next = head.checked_add(1)?;
    if guess < sectors.len() && sectors[guess] == next {
        return Some(guess);
    }
    let place = index_of(sectors, next);
    if place < sectors.len() {
        return Some(place);
    }
    None
}

// The index of the first sector of the sweep.
fn first_ahead(head: u32, sectors: &[u32]) -> usize
    requires { 0 < length sectors.now }
    ensures { IsFirstAt head result sectors.now }
{
    let first = first_of_sweep(head, sectors);
    index_of(sectors, first)
}

// The same. Where no page waits for the head it is most often the sector after it, near the guess.
fn first_near(head: u32, is_free: bool, guess: usize, sectors: &[u32]) -> usize
    requires some { 0 < length sectors.now }
    requires free { is_free ≡ true → Misses head sectors.now }
    ensures { IsFirstAt head result sectors.now }
{
    if is_free && let Some(place) = next_after(head, guess, sectors) {
        return place;
    }
    first_ahead(head, sectors)
}

impl<D: Disk, A: Allocator> QueueOver<D, A> {
    // The index of the first page of the sweep.
    pub(crate) fn first_place(&self) -> usize
        requires { 0 < length self.now.entries.items }
        ensures { HasFirst self.now.head self.now.entries.items result }
    {
        first_near(self.head, self.head_free, self.guess, &self.sectors)
    }

    // The index of the page that waits for the sector.
    pub(crate) fn place_of(&self, sector: u32) -> Option<usize>
        ensures found { IfSome result (λ j. (e : Entry) × (slice_get self.now.entries.items j ≡ Some e)
            × (e.sector ≡ sector)) }
        ensures nowhere { result ≡ None → waiting_at self.now.entries.items sector ≡ None }
    {
        if !self.filter.admits(sector) {
            return None;
        }
        let place = index_of(&self.sectors, sector);
        if place < self.sectors.len() {
            return Some(place);
        }
        None
    }
}
