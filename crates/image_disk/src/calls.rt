//! An image as a disk.
ghost use Rattle.std.specs.Prelude.{◌≡◌, ◌<◌, false};
ghost use Rattle.labelled_disk.specs.Calls.{Reads, Writes, WritesData, Syncs};
ghost use Rattle.labelled_disk.specs.Memory.{CountsFault};

use crate::bytes::{joined, label_at};
use crate::{ImageDisk, Trouble};
use labelled_disk::{Disk, DiskError, DiskWrite, Label, Page, Wanted};
use std::fs::OpenFile;
use std::os::unix::fs::FileExt;

impl<F: FileExt + OpenFile> Disk for ImageDisk<F> {
    ghost use Rattle.image_disk.specs.Image.{image_state, not_revealed, Counts};
    ghost use Rattle.labelled_disk.specs.Syncing.{no_syncs};

    ghost state = { image_state };

    ghost whole = { λ d all revealed. not_revealed all revealed };

    ghost in_form = { λ d all revealed. not_revealed all revealed };

    ghost few = { λ d. d.few };

    ghost few_transfers = { λ d. d.few_transfers };

    ghost sync_counts = { λ d. no_syncs d.synced };

    fn sectors(&self) -> u32 {
        self.sectors
    }

    fn read(&mut self, sector: u32, page: &mut Page) -> Result<Label, DiskError>
        requires { sector < (image_state self.old).sectors }
        ensures reads { Reads (image_state self.old) sector page.new result (image_state self.new) }
        ensures counts { Counts result (image_state self.old) (image_state self.new) }
    {
        self.count_transfer();
        match self.get_sector(sector, page) {
            Ok(label) => {
                self.labels.keep(sector, &label);
                Ok(label)
            }
            Err(trouble) => Err(self.fault(trouble)),
        }
    }

    fn write(&mut self, sector: u32, label: &Label, page: &Page) -> Result<(), DiskError>
        requires { sector < (image_state self.old).sectors }
        ensures writes { Writes (DiskWrite.Whole sector label.now page.now) (image_state self.old)
            result (image_state self.new) }
        ensures counts { Counts result (image_state self.old) (image_state self.new) }
        ensures synced { (image_state self.new).synced ≡ false }
    {
        self.count_write();
        let bytes = joined(label, page);
        match self.put_sector(sector, &bytes) {
            Ok(()) => {
                self.last.keep(sector, &bytes);
                self.labels.keep(sector, label);
                Ok(())
            }
            Err(trouble) => Err(self.fault(trouble)),
        }
    }

    fn write_label(&mut self, sector: u32, label: &Label) -> Result<(), DiskError>
        requires { sector < (image_state self.old).sectors }
        ensures writes { Writes (DiskWrite.LabelOnly sector label.now) (image_state self.old)
            result (image_state self.new) }
        ensures counts { Counts result (image_state self.old) (image_state self.new) }
        ensures synced { (image_state self.new).synced ≡ false }
    {
        self.count_write();
        if let Err(trouble) = self.write_out() {
            return Err(self.fault(trouble));
        }
        let bytes = label.to_bytes();
        match self.put(label_at(sector), &bytes) {
            Ok(()) => {
                self.labels.keep(sector, label);
                self.last.put_label(sector, &bytes);
                Ok(())
            }
            Err(error) => Err(self.fault(Trouble::Sector { sector, error })),
        }
    }

    fn write_data(&mut self, sector: u32, wanted: Wanted, page: &Page) -> Result<(), DiskError>
        requires { sector < (image_state self.old).sectors }
        ensures writes { WritesData sector wanted page.now (image_state self.old) result
            (image_state self.new) }
        ensures counts { Counts result (image_state self.old) (image_state self.new) }
        ensures synced { (image_state self.new).synced ≡ false }
    {
        self.count_write();
        let found = match self.get_label(sector) {
            Ok(found) => found,
            Err(trouble) => return Err(self.fault(trouble)),
        };
        if !found.names(wanted) {
            return Err(DiskError::Wrong { found });
        }
        match self.put_page(sector, found, wanted, page) {
            Ok(()) => {
                self.last.put_page(sector, page);
                Ok(())
            }
            Err(trouble) => Err(self.fault(trouble)),
        }
    }

    fn sync(&mut self) -> Result<(), DiskError>
        ensures syncs { Syncs (image_state self.old) result (image_state self.new) }
        ensures faults { CountsFault result self.old.faults self.new.faults }
    {
        if self.synced {
            return Ok(());
        }
        if let Err(trouble) = self.write_out() {
            return Err(self.fault(trouble));
        }
        if let Err(error) = self.sync_file() {
            return Err(self.fault(Trouble::Syncing(error)));
        }
        self.synced = true;
        Ok(())
    }

    fn transfers(&self) -> u64 {
        self.transfers
    }

    fn faults(&self) -> u64 {
        self.faults
    }
}
