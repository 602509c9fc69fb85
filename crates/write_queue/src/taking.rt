//! Pages are let wait.
ghost use Rattle.std.specs.Prelude.{◌≡◌, ◌≢◌, true, ◌<◌, ◌≤◌, ◌+◌, ◌++◌, ◌∷◌, [], length, slice_get, Some, None, OnOk};
ghost use Rattle.labelled_disk.specs.Calls.{WritesData, FailsWith};
ghost use Rattle.write_queue.specs.declared.entry.Entry.{Entry};
ghost use Rattle.write_queue.specs.Beneath.{TakesIn};
ghost use Rattle.write_queue.specs.Entries.{waiting_at, Waits};
ghost use Rattle.write_queue.specs.Inside.{MakesRoom, RoomMade};
ghost use Rattle.write_queue.specs.View.{Covers};

use crate::{Entry, QueueOver};
use labelled_disk::{Disk, DiskError, PAGE_BYTES, Page, Wanted};
use std::alloc::Allocator;

// Whether the head is free still when a page waits for this sector.
fn stays_free(is_free: bool, head: u32, sector: u32) -> bool
    ensures { result ≡ true → (is_free ≡ true) × (head ≢ sector) }
{
    is_free && head != sector
}

impl<D: Disk, A: Allocator> QueueOver<D, A> {
    ghost use Rattle.write_queue.specs.Queue.{state_of, view_of, SameBut};

    // Lets another page wait in the place of one that waits.
    pub(crate) fn replace(
        &mut self,
        place: usize,
        wanted: Wanted,
        page: &Page,
    ) -> Result<(), DiskError>
        requires below { place < length self.old.entries.items }
        ensures data { (e : Entry) → slice_get self.old.entries.items place ≡ Some e
            → WritesData e.sector wanted page.now (state_of self.old) result (state_of self.new) }
        ensures takes { (e : Entry) → slice_get self.old.entries.items place ≡ Some e
            → TakesIn e.sector wanted page.now (view_of self.old) result (view_of self.new) }
        ensures same { SameBut self.old self.new }
    {
        let entry = self.entries[place];
        if !entry.label.names(wanted) {
            return Err(DiskError::Wrong { found: entry.label });
        }
        self.entries[place] = Entry {
            sector: entry.sector,
            wanted,
            label: entry.label,
            page: *page,
        };
        Ok(())
    }

    // Lets a page wait that the label beneath names, and writes the first one of the sweep where
    // there is no room.
    pub(crate) fn take_in(
        &mut self,
        sector: u32,
        wanted: Wanted,
        page: &Page,
    ) -> Result<(), DiskError>
        requires inside { sector < (D.state self.old.beneath).sectors }
        requires free { waiting_at self.old.entries.items sector ≡ None }
        requires credit { Covers 2 self.old.begun self.old.transfers self.old.no_sync
            (D.state self.old.beneath).transfers (length self.old.entries.items) }
        ensures data { WritesData sector wanted page.now (state_of self.old) result
            (state_of self.new) }
        ensures takes { TakesIn sector wanted page.now (view_of self.old) result (view_of self.new) }
        ensures same { SameBut self.old self.new }
    {
        let mut scratch = [0; PAGE_BYTES];
        let label = self.beneath.read(sector, &mut scratch)?;
        if !label.names(wanted) {
            return Err(DiskError::Wrong { found: label });
        }
        self.make_room()?;
        self.put_in(Entry {
            sector,
            wanted,
            label,
            page: *page,
        });
        Ok(())
    }

    // Writes the first page of the sweep where there is no room for one more.
    fn make_room(&mut self) -> Result<(), DiskError>
        requires credit { Covers 1 self.old.begun self.old.transfers self.old.no_sync
            (D.state self.old.beneath).transfers (length self.old.entries.items) }
        ensures room { OnOk result (length self.new.entries.items < self.new.room) }
        ensures credit { OnOk result (Covers 1 self.new.begun self.new.transfers self.new.no_sync
            (D.state self.new.beneath).transfers (length self.new.entries.items)) }
        ensures revealed { (state_of self.new).contents ≡ (state_of self.old).contents }
        ensures later { (state_of self.old).faults ≤ (state_of self.new).faults }
        ensures fails { FailsWith result (state_of self.old) (state_of self.new) }
        ensures few { (D.state self.new.beneath).transfers ≤ (D.state self.old.beneath).transfers + 1 }
        ensures made { MakesRoom (D.state self.old.beneath) self.old.entries.items
            (D.state self.new.beneath) self.new.entries.items }
        ensures takes { RoomMade (view_of self.old) result (view_of self.new) }
        ensures same { SameBut self.old self.new }
    {
        if self.entries.len() < self.room as usize {
            return Ok(());
        }
        self.write_first()
    }

    // Lets a page wait where there is room.
    fn put_in(&mut self, entry: Entry)
        requires waits { Waits (D.state self.old.beneath) entry }
        requires free { waiting_at self.old.entries.items entry.sector ≡ None }
        requires room { length self.old.entries.items < self.old.room }
        requires credit { Covers 1 self.old.begun self.old.transfers self.old.no_sync
            (D.state self.old.beneath).transfers (length self.old.entries.items) }
        ensures put { self.new.entries.items ≡ self.old.entries.items ++ entry ∷ [] }
        ensures beneath { self.new.beneath ≡ self.old.beneath }
        ensures head { self.new.head ≡ self.old.head }
        ensures own { self.new.own ≡ self.old.own }
        ensures changed { self.new.changed ≡ self.old.changed }
        ensures same { SameBut self.old self.new }
    {
        self.head_free = stays_free(self.head_free, self.head, entry.sector);
        self.filter.renew(&self.sectors);
        self.filter.add(entry.sector);
        let _ = self.sectors.push(entry.sector);
        let _ = self.entries.push(entry);
    }
}
