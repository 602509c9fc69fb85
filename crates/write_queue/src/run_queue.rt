//! The queue of a run: nothing comes of its calls after a syncing that failed.
ghost use Rattle.std.specs.Prelude.{◌≡◌, ◌<◌, ◌≤◌, IfOk, IfErr};
ghost use Rattle.labelled_disk.specs.Calls.{Reads, Writes, WritesData, Syncs};
ghost use Rattle.write_queue.specs.Stopping.{IsLow, IsStoppedByFault, FailedOnce, has_stopped};

use crate::QueueOver;
use labelled_disk::{Disk, DiskError, DiskWrite, Label, NoMemory, Page, Wanted};
use std::alloc::Allocator;

/// A queue, until a `sync` fails. Each later call fails, and nothing comes of it beneath. So one syncing
/// that failed is paid for at most, whoever holds the queue.
#[derive(Drop)]
pub struct RunQueue<D: Disk, A: Allocator> {
    pub(crate) queue: QueueOver<D, A>,
    // The faults beneath when the queue was made.
    pub(crate) before: u64,
    ghost low: { IsLow before queue },
    ghost why: { IsStoppedByFault before queue },
    ghost once: { FailedOnce queue },
}

impl<D: Disk, A: Allocator + Clone> RunQueue<D, A> {
    ghost use Rattle.write_queue.specs.RunQueue.{held_by, run_state, Starts};

    /// A queue with room for 1 to 256 pages. All memory is taken here, and none later. The disk is handed
    /// back where there is none.
    pub fn over(alloc: A, disk: D, room: u32) -> Result<RunQueue<D, A>, (NoMemory, D)>
        requires least { 1 ≤ room }
        requires most { room ≤ 256 }
        ensures over { IfOk result (λ q. held_by q ≡ disk) }
        ensures starts { IfOk result (λ q. Starts (D.state disk) (run_state q)) }
        ensures back { IfErr result (λ e. e.1 ≡ disk) }
    {
        let before = disk.faults();
        match QueueOver::over(alloc, disk, room) {
            Ok(queue) => Ok(RunQueue { queue, before }),
            Err(none) => Err(none),
        }
    }
}

impl<D: Disk, A: Allocator> RunQueue<D, A> {
    ghost use Rattle.write_queue.specs.RunQueue.{changed_by, held_by, run_state, LiesBeneath};

    /// Gives the pages that wait up, and the disk back.
    pub fn into_disk(self) -> D
        ensures disk { result ≡ held_by self }
        ensures beneath { LiesBeneath (run_state self) (changed_by self) (D.state result) }
    {
        let RunQueue { queue, before: _ } = self;
        let _moved = queue.moved_beneath();
        queue.into_disk()
    }

    /// The sector in which another label was found than that of the page that waits for it, with
    /// that page and the label that was found.
    pub fn changed(&self) -> Option<(u32, Wanted, Label)>
        ensures value { result ≡ changed_by self.now }
    {
        self.queue.changed()
    }

    // Whether a syncing failed.
    fn has_stopped(&self) -> bool
        ensures value { result ≡ has_stopped self.now.queue }
    {
        self.queue.no_sync > 0
    }
}

impl<D: Disk, A: Allocator> Disk for RunQueue<D, A> {
    ghost use Rattle.write_queue.specs.RunQueue.{run_state, StaysStopped};
    ghost use Rattle.labelled_disk.specs.Syncing.{no_syncs};
    ghost use Rattle.write_queue.specs.QueueLaws.{revealed_whole, revealed_in_form};

    ghost state = { λ q. run_state q };

    ghost whole = { λ q all revealed. revealed_whole (D.state q.queue.beneath) q.queue.entries.items
        (D.whole q.queue.beneath) all revealed };

    ghost in_form = { λ q all revealed. revealed_in_form (D.state q.queue.beneath)
        q.queue.entries.items q.queue.waiting (D.in_form q.queue.beneath) all revealed };

    ghost few = { λ q. D.few q.queue.beneath };

    ghost few_transfers = { λ q. q.queue.few_transfers };

    ghost sync_counts = { λ q. no_syncs (run_state q).synced };

    fn sectors(&self) -> u32 {
        self.queue.sectors()
    }

    fn read(&mut self, sector: u32, page: &mut Page) -> Result<Label, DiskError>
        requires { sector < (run_state self.old).sectors }
        ensures stopped { StaysStopped self.old result self.new }
        ensures reads { Reads (run_state self.old) sector page.new result (run_state self.new) }
    {
        if self.has_stopped() {
            return Err(DiskError::Failed);
        }
        self.queue.read(sector, page)
    }

    fn write(&mut self, sector: u32, label: &Label, page: &Page) -> Result<(), DiskError>
        requires { sector < (run_state self.old).sectors }
        ensures stopped { StaysStopped self.old result self.new }
        ensures writes { Writes (DiskWrite.Whole sector label.now page.now) (run_state self.old) result
            (run_state self.new) }
    {
        if self.has_stopped() {
            return Err(DiskError::Failed);
        }
        self.queue.write(sector, label, page)
    }

    fn write_label(&mut self, sector: u32, label: &Label) -> Result<(), DiskError>
        requires { sector < (run_state self.old).sectors }
        ensures stopped { StaysStopped self.old result self.new }
        ensures writes { Writes (DiskWrite.LabelOnly sector label.now) (run_state self.old) result
            (run_state self.new) }
    {
        if self.has_stopped() {
            return Err(DiskError::Failed);
        }
        self.queue.write_label(sector, label)
    }

    fn write_data(&mut self, sector: u32, wanted: Wanted, page: &Page) -> Result<(), DiskError>
        requires { sector < (run_state self.old).sectors }
        ensures stopped { StaysStopped self.old result self.new }
        ensures writes { WritesData sector wanted page.now (run_state self.old) result
            (run_state self.new) }
    {
        if self.has_stopped() {
            return Err(DiskError::Failed);
        }
        self.queue.write_data(sector, wanted, page)
    }

    fn sync(&mut self) -> Result<(), DiskError>
        ensures stopped { StaysStopped self.old result self.new }
        ensures syncs { Syncs (run_state self.old) result (run_state self.new) }
    {
        if self.has_stopped() {
            return Err(DiskError::Failed);
        }
        self.queue.sync()
    }

    fn transfers(&self) -> u64 {
        self.queue.transfers()
    }

    fn faults(&self) -> u64 {
        if self.has_stopped() {
            return u64::MAX;
        }
        self.queue.faults()
    }
}
