//! A disk as the code above it sees it: sectors, each with a label and a page, and calls that may fail.
ghost use Rattle.std.specs.Prelude.{◌≡◌, ◌<◌, ◌^◌, List, length, Some};
ghost use Rattle.labelled_disk.specs.State.{DiskState, lent_state};
ghost use Rattle.labelled_disk.specs.Sectors.{Sector, AreSectors};
ghost use Rattle.labelled_disk.specs.Calls.{Reads, Writes, WritesData, Syncs};
ghost use Rattle.labelled_disk.specs.Syncing.{RevealsSyncs};

use crate::{Label, Page, Wanted};
use thiserror::Error;

/// Why a call of a disk has no answer.
#[derive(Clone, Copy, Debug, PartialEq, Eq, Error)]
pub enum DiskError {
    /// The disk failed, and counted a fault.
    #[error("the disk failed")]
    Failed,
    /// The label in the sector, which is carried, doesn't name the wanted page.
    #[error("another label stands there")]
    Wrong { found: Label },
}

/// A write that was made on a disk.
#[derive(Clone, Copy, Debug, PartialEq, Eq)]
pub enum DiskWrite {
    /// The sector got this label and this page.
    Whole {
        sector: u32,
        label: Label,
        page: Page,
    },
    /// The sector got this label, and kept its page.
    LabelOnly {
        sector: u32,
        label: Label,
    },
    /// The sector, whose label named the wanted page, got this page, and kept its label.
    Page {
        sector: u32,
        wanted: Wanted,
        page: Page,
    },
}

/// Sectors that are read and written one by one. A sector is a label of 16 bytes and a page of 512.
///
/// A disk may reveal what it holds and which writes were made on it, and it may reveal neither. Code
/// over any disk is right on each: a fact on contents or writes holds where they are revealed.
pub trait Disk {
    ghost state: { Self → DiskState };

    /// The number of sectors, which never changes. They are counted from 0.
    fn sectors(&self) -> u32
        ensures { result ≡ (state self.now).sectors };

    /// The label of a sector; its page is put in `page`, whose bytes may be any after an error.
    fn read(&mut self, sector: u32, page: &mut Page) -> Result<Label, DiskError>
        requires { sector < (state self.old).sectors }
        ensures { Reads (state self.old) sector page.new result (state self.new) };

    /// Sets the label and the page of a sector. After an error both are new, or both as they were.
    fn write(&mut self, sector: u32, label: &Label, page: &Page) -> Result<(), DiskError>
        requires { sector < (state self.old).sectors }
        ensures { Writes (DiskWrite.Whole sector label.now page.now) (state self.old) result
            (state self.new) };

    /// Sets the label of a sector, which keeps its page.
    fn write_label(&mut self, sector: u32, label: &Label) -> Result<(), DiskError>
        requires { sector < (state self.old).sectors }
        ensures { Writes (DiskWrite.LabelOnly sector label.now) (state self.old) result
            (state self.new) };

    /// Sets the page of a sector whose label names the wanted page, and keeps the label. The test
    /// of the label and the write are one transfer.
    fn write_data(&mut self, sector: u32, wanted: Wanted, page: &Page) -> Result<(), DiskError>
        requires { sector < (state self.old).sectors }
        ensures { WritesData sector wanted page.now (state self.old) result (state self.new) };

    /// Waits for all earlier writes: after an Ok they are on the medium. No sector is moved.
    fn sync(&mut self) -> Result<(), DiskError>
        ensures { Syncs (state self.old) result (state self.new) };

    /// How many sectors were moved since the disk was made. The count stays at the last value of
    /// u64.
    fn transfers(&self) -> u64
        ensures { result ≡ (state self.now).transfers };

    /// How often the disk failed since it was made. The count stays at the last value of u64.
    fn faults(&self) -> u64
        ensures { result ≡ (state self.now).faults };

    /// There are as many sectors as the disk says.
    ghost whole: { (d : Self) (all : List Sector) → (state d).contents ≡ Some all
        → length all ≡ (state d).sectors };

    /// What is revealed of a sector fits: each field of its label, and its 512 bytes.
    ghost in_form: { (d : Self) (all : List Sector) → (state d).contents ≡ Some all
        → AreSectors all };

    /// The number of sectors fits a u32.
    ghost few: { (d : Self) → (state d).sectors < 2 ^ 32 };

    /// A count of transfers fits a u64.
    ghost few_transfers: { (d : Self) → (state d).transfers < 2 ^ 64 };

    /// Syncs are revealed where the writes are: they rise, and a disk that is synced ends with one.
    ghost sync_counts: { (d : Self) → RevealsSyncs (state d).writes (state d).syncs (state d).synced };
}

// A disk that is lent is that disk, under one name more.
impl<'m, D: Disk> Disk for &'m mut D {
    ghost state = { λ d. lent_state d.ghost_name (D.state d.now) };

    ghost whole = { λ d all revealed. D.whole d.now all revealed };

    ghost in_form = { λ d all revealed. D.in_form d.now all revealed };

    ghost few = { λ d. D.few d.now };

    ghost few_transfers = { λ d. D.few_transfers d.now };

    ghost sync_counts = { λ d. D.sync_counts d.now };

    fn sectors(&self) -> u32 {
        (**self).sectors()
    }

    fn read(&mut self, sector: u32, page: &mut Page) -> Result<Label, DiskError> {
        (**self).read(sector, page)
    }

    fn write(&mut self, sector: u32, label: &Label, page: &Page) -> Result<(), DiskError> {
        (**self).write(sector, label, page)
    }

    fn write_label(&mut self, sector: u32, label: &Label) -> Result<(), DiskError> {
        (**self).write_label(sector, label)
    }

    fn write_data(&mut self, sector: u32, wanted: Wanted, page: &Page) -> Result<(), DiskError> {
        (**self).write_data(sector, wanted, page)
    }

    fn sync(&mut self) -> Result<(), DiskError> {
        (**self).sync()
    }

    fn transfers(&self) -> u64 {
        (**self).transfers()
    }

    fn faults(&self) -> u64 {
        (**self).faults()
    }
}
