//! A disk as a run ends on it: pages may wait before it.
ghost use Rattle.std.specs.Prelude.{◌≡◌, Option, Some, None, true, OnOk};
ghost use Rattle.labelled_disk.specs.declared.evidence.Evidence.{Evidence};
ghost use Rattle.pilot_top.specs.RunDisk.{IsChange, Rests};

use labelled_disk::{Disk, DiskError, Evidence};
use std::alloc::Allocator;
use write_queue::RunQueue;

/// A disk that a run is carried out on. Pages may wait before it, and it may have met a label that had changed.
pub(crate) trait RunDisk: Disk {
    /// Nothing waits before it.
    ghost rests: { Self → Type 0 };

    /// What shows that a label had changed, if one had.
    ghost shown: { Self → Option Evidence };

    /// Brings what waits to the medium, if pages may wait before the disk.
    fn rest(&mut self) -> Result<(), DiskError>
        ensures same { Rests (Self.state self.old) result (Self.state self.new) }
        ensures rests { OnOk result (rests self.new) };

    /// What shows that a label had changed.
    fn changed(&self) -> Option<Evidence>
        ensures { result ≡ shown self.now };

    ghost synced_rests: { (d : Self) → (Self.state d).synced ≡ true → rests d };

    /// A label that had changed is met only on a disk that doesn't reveal what it holds.
    ghost unrevealed: { (d : Self) (e : Evidence) → shown d ≡ Some e
        → IsChange e × ((Self.state d).contents ≡ None) };
}

impl<'m, D: Disk> RunDisk for &'m mut D {
    ghost use Rattle.pilot_top.specs.RunDisk.{never_shown};

    ghost rests = { λ d. Unit {0} };

    ghost shown = { λ d. None };

    ghost synced_rests = { λ d synced. tt };

    ghost unrevealed = { λ d e is. never_shown e is };

    fn rest(&mut self) -> Result<(), DiskError> {
        Ok(())
    }

    fn changed(&self) -> Option<Evidence> {
        None
    }
}

impl<D: Disk, A: Allocator> RunDisk for RunQueue<D, A> {
    ghost use Rattle.write_queue.specs.RunQueue.{changed_by, run_state};
    ghost use Rattle.pilot_top.specs.RunDisk.{change_shown, shown_of};

    ghost rests = { λ q. (run_state q).synced ≡ true };

    ghost shown = { λ q. shown_of (changed_by q) };

    ghost synced_rests = { λ q synced. synced };

    ghost unrevealed = { λ q e is. change_shown q e is };

    fn rest(&mut self) -> Result<(), DiskError> {
        self.sync()
    }

    fn changed(&self) -> Option<Evidence> {
        match RunQueue::changed(self) {
            Some((sector, wanted, found)) => Some(Evidence::Mismatch {
                sector,
                wanted,
                found,
            }),
            None => None,
        }
    }
}
