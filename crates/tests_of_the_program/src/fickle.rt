//! A disk that reveals nothing, on which a label changes.
ghost use Rattle.std.proofs.lemmas.Option.{none-some};
ghost use Rattle.labelled_disk.specs.Syncing.{no_syncs};
ghost use Rattle.tests_of_the_program.specs.Untold.{untold};

use labelled_disk::{Disk, DiskError, Label, Page, Wanted};

/// A disk that reveals nothing of what it holds. A write of a page in one sector finds the label of no file.
#[derive(Drop)]
pub(crate) struct FickleDisk<D: Disk> {
    pub(crate) disk: D,
    pub(crate) fickle: u32,
}

impl<D: Disk> Disk for FickleDisk<D> {
    ghost state = { λ d. untold (D.state d.disk) };

    ghost whole = { λ d all revealed. absurd (none-some all revealed) };

    ghost in_form = { λ d all revealed. absurd (none-some all revealed) };

    ghost few = { λ d. D.few d.disk };

    ghost few_transfers = { λ d. D.few_transfers d.disk };

    ghost sync_counts = { λ d. no_syncs (D.state d.disk).synced };

    fn sectors(&self) -> u32 {
        self.disk.sectors()
    }

    fn read(&mut self, sector: u32, page: &mut Page) -> Result<Label, DiskError> {
        self.disk.read(sector, page)
    }

    fn write(&mut self, sector: u32, label: &Label, page: &Page) -> Result<(), DiskError> {
        self.disk.write(sector, label, page)
    }

    fn write_label(&mut self, sector: u32, label: &Label) -> Result<(), DiskError> {
        self.disk.write_label(sector, label)
    }

    fn write_data(&mut self, sector: u32, wanted: Wanted, page: &Page) -> Result<(), DiskError> {
        if sector == self.fickle && !Label::FREE.names(wanted) {
            return Err(DiskError::Wrong { found: Label::FREE });
        }
        self.disk.write_data(sector, wanted, page)
    }

    fn sync(&mut self) -> Result<(), DiskError> {
        self.disk.sync()
    }

    fn transfers(&self) -> u64 {
        self.disk.transfers()
    }

    fn faults(&self) -> u64 {
        self.disk.faults()
    }
}
