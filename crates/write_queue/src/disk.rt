//! A queue as a disk.
ghost use Rattle.std.specs.Prelude.{◌≡◌, ◌<◌, true, OnOk};
ghost use Rattle.labelled_disk.specs.Calls.{Reads, Writes, WritesData, Syncs};
ghost use Rattle.write_queue.specs.Beneath.{ReadsOne, PassesOn, TakesIn, Empties, CountsCall, CountsSync};
ghost use Rattle.write_queue.specs.CrashStates.{CrashStatesBetween};

use crate::QueueOver;
use labelled_disk::{Disk, DiskError, DiskWrite, Label, Page, Wanted};
use std::alloc::Allocator;

impl<D: Disk, A: Allocator> Disk for QueueOver<D, A> {
    ghost use Rattle.write_queue.specs.Queue.{state_of, view_of, tally_of};
    ghost use Rattle.labelled_disk.specs.Syncing.{no_syncs};
    ghost use Rattle.write_queue.specs.QueueLaws.{revealed_whole, revealed_in_form};

    ghost state = { λ q. state_of q };

    ghost whole = { λ q all revealed. revealed_whole (D.state q.beneath) q.entries.items (D.whole q.beneath) all
        revealed };

    ghost in_form = { λ q all revealed. revealed_in_form (D.state q.beneath) q.entries.items q.waiting
        (D.in_form q.beneath) all revealed };

    ghost few = { λ q. D.few q.beneath };

    ghost few_transfers = { λ q. q.few_transfers };

    ghost sync_counts = { λ q. no_syncs (state_of q).synced };

    fn sectors(&self) -> u32 {
        self.beneath.sectors()
    }

    fn read(&mut self, sector: u32, page: &mut Page) -> Result<Label, DiskError>
        requires { sector < (state_of self.old).sectors }
        ensures reads { Reads (state_of self.old) sector page.new result (state_of self.new) }
        ensures beneath { ReadsOne sector page.new (view_of self.old) result (view_of self.new) }
        ensures crash_states { CrashStatesBetween (view_of self.old) (view_of self.new) }
        ensures counts { CountsCall (tally_of self.old) (tally_of self.new) }
    {
        self.transfers = self.transfers.saturating_add(1);
        match self.place_of(sector) {
            Some(place) => {
                let entry = self.entries[place];
                let waiting = entry.page;
                *page = waiting;
                Ok(entry.label)
            }
            None => self.beneath.read(sector, page),
        }
    }

    fn write(&mut self, sector: u32, label: &Label, page: &Page) -> Result<(), DiskError>
        requires { sector < (state_of self.old).sectors }
        ensures writes { Writes (DiskWrite.Whole sector label.now page.now) (state_of self.old) result
            (state_of self.new) }
        ensures beneath { PassesOn (DiskWrite.Whole sector label.now page.now) (view_of self.old)
            result (view_of self.new) }
        ensures crash_states { CrashStatesBetween (view_of self.old) (view_of self.new) }
        ensures counts { CountsCall (tally_of self.old) (tally_of self.new) }
    {
        self.transfers = self.transfers.saturating_add(1);
        self.empty()?;
        self.beneath.write(sector, label, page)
    }

    fn write_label(&mut self, sector: u32, label: &Label) -> Result<(), DiskError>
        requires { sector < (state_of self.old).sectors }
        ensures writes { Writes (DiskWrite.LabelOnly sector label.now) (state_of self.old) result
            (state_of self.new) }
        ensures beneath { PassesOn (DiskWrite.LabelOnly sector label.now) (view_of self.old) result
            (view_of self.new) }
        ensures crash_states { CrashStatesBetween (view_of self.old) (view_of self.new) }
        ensures counts { CountsCall (tally_of self.old) (tally_of self.new) }
    {
        self.transfers = self.transfers.saturating_add(1);
        self.empty()?;
        self.beneath.write_label(sector, label)
    }

    fn write_data(&mut self, sector: u32, wanted: Wanted, page: &Page) -> Result<(), DiskError>
        requires { sector < (state_of self.old).sectors }
        ensures writes { WritesData sector wanted page.now (state_of self.old) result
            (state_of self.new) }
        ensures beneath { TakesIn sector wanted page.now (view_of self.old) result
            (view_of self.new) }
        ensures crash_states { CrashStatesBetween (view_of self.old) (view_of self.new) }
        ensures counts { CountsCall (tally_of self.old) (tally_of self.new) }
    {
        self.transfers = self.transfers.saturating_add(1);
        match self.place_of(sector) {
            Some(place) => self.replace(place, wanted, page),
            None => self.take_in(sector, wanted, page),
        }
    }

    fn sync(&mut self) -> Result<(), DiskError>
        ensures syncs { Syncs (state_of self.old) result (state_of self.new) }
        ensures synced { OnOk result ((view_of self.new).beneath.synced ≡ true) }
        ensures beneath { Empties (view_of self.old) result (view_of self.new) }
        ensures crash_states { CrashStatesBetween (view_of self.old) (view_of self.new) }
        ensures counts { CountsSync (tally_of self.old) result (tally_of self.new) }
    {
        let before = self.no_sync;
        self.no_sync = before.saturating_add(1);
        self.empty()?;
        self.beneath.sync()?;
        self.no_sync = before;
        Ok(())
    }

    fn transfers(&self) -> u64 {
        self.transfers
    }

    fn faults(&self) -> u64 {
        self.beneath.faults().saturating_add(self.own)
    }
}
