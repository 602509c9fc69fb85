//! Pages that wait are written beneath.
ghost use Rattle.std.specs.Prelude.{◌≡◌, ◌<◌, ◌≤◌, ◌+◌, length, OnOk};
ghost use Rattle.labelled_disk.specs.Calls.{FailsWith};
ghost use Rattle.write_queue.specs.Beneath.{Meets};
ghost use Rattle.write_queue.specs.Inside.{WritesOut, Sweeping};
ghost use Rattle.write_queue.specs.View.{Covers};

use crate::QueueOver;
use labelled_disk::{Disk, DiskError};
use std::alloc::Allocator;

impl<D: Disk, A: Allocator> QueueOver<D, A> {
    ghost use Rattle.write_queue.specs.Queue.{state_of, view_of, SameBut};

    // Writes the first page of the sweep beneath, if the label there names it.
    pub(crate) fn write_first(&mut self) -> Result<(), DiskError>
        requires some { 0 < length self.old.entries.items }
        requires credit { Covers 1 self.old.begun self.old.transfers self.old.no_sync
            (D.state self.old.beneath).transfers (length self.old.entries.items) }
        ensures out { WritesOut self.old.head self.old.entries.items (D.state self.old.beneath) result
            (D.state self.new.beneath) self.new.entries.items self.new.head }
        ensures met { Meets (view_of self.old) result (view_of self.new) }
        ensures credit { OnOk result (Covers 1 self.new.begun self.new.transfers self.new.no_sync
            (D.state self.new.beneath).transfers (length self.new.entries.items)) }
        ensures revealed { (state_of self.new).contents ≡ (state_of self.old).contents }
        ensures later { (state_of self.old).faults ≤ (state_of self.new).faults }
        ensures fails { FailsWith result (state_of self.old) (state_of self.new) }
        ensures same { SameBut self.old self.new }
    {
        let place = self.first_place();
        let entry = self.entries[place];
        match self
            .beneath
            .write_data(entry.sector, entry.wanted, &entry.page)
        {
            Ok(()) => {
                let _ = self.entries.swap_remove(place);
                let _ = self.sectors.swap_remove(place);
                self.guess = place + 1;
                self.head = entry.sector;
                self.head_free = true;
                Ok(())
            }
            Err(DiskError::Failed) => Err(DiskError::Failed),
            Err(DiskError::Wrong { found }) => {
                self.own = self.own.saturating_add(1);
                self.changed = Some((entry.sector, entry.wanted, found));
                Err(DiskError::Failed)
            }
        }
    }

    // Writes all pages that wait beneath, in a sweep.
    pub(crate) fn empty(&mut self) -> Result<(), DiskError>
        requires credit { Covers 1 self.old.begun self.old.transfers self.old.no_sync
            (D.state self.old.beneath).transfers (length self.old.entries.items) }
        ensures swept { Sweeping self.old.head self.old.entries.items (D.state self.old.beneath) result
            (D.state self.new.beneath) self.new.entries.items self.new.head }
        ensures met { Meets (view_of self.old) result (view_of self.new) }
        ensures credit { OnOk result (Covers 1 self.new.begun self.new.transfers self.new.no_sync
            (D.state self.new.beneath).transfers (length self.new.entries.items)) }
        ensures revealed { (state_of self.new).contents ≡ (state_of self.old).contents }
        ensures later { (state_of self.old).faults ≤ (state_of self.new).faults }
        ensures fails { FailsWith result (state_of self.old) (state_of self.new) }
        ensures same { SameBut self.old self.new }
    {
        for _ in 0..self.entries.len() {
            self.write_first()?;
        }
        Ok(())
    }
}
