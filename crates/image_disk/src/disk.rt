//! A disk over a file of sectors of 528 bytes, each a label of 16 bytes and then a page of 512.
ghost use Rattle.std.specs.Prelude.{◌≡◌, ◌<◌, ◌≤◌, ◌+◌, ◌-◌, ◌/◌, ◌^◌, min, false};
ghost use Rattle.labelled_disk.specs.Calls.{Rose, Moved};

use crate::Remembered;
use crate::neighbours::{Neighbours, room_for_sectors};
use labelled_disk::{DiskError, Label};
use std::alloc::Global;
use std::fs::OpenFile;
use std::io;
use std::os::unix::fs::FileExt;
use thiserror::Error;

/// What the system answered to a call on the file that failed, and where.
#[derive(Clone, Copy, Debug, Drop, Error)]
pub enum Trouble {
    /// A sector could not be read or written.
    #[error("sector {sector}: {error}")]
    Sector { sector: u32, error: io::Error },
    /// What was written could not be put on the medium.
    #[error("fdatasync: {0}")]
    Syncing(io::Error),
}

/// The bytes of a sector in an image file.
pub const SECTOR_BYTES: u64 = 528;

/// How many labels of an image are remembered, where nobody asks for more.
pub const LABELS: usize = 1024;

// How many places there are for sectors, two each.
const SECTOR_PLACES: usize = 64;

/// A disk over an image file. It reveals nothing of what the file holds, since no contract can: only
/// its counts. It is synced from an Ok of `sync` to the next call that may write, and a `sync` until
/// then is no call of the system.
///
/// It may remember sectors that it read last, and labels that it read or wrote last, so that another
/// look at them is no call of the system. Then it also reads up to 32 sectors at once, where these are
/// read one after the other.
#[derive(Drop)]
pub struct ImageDisk<F: FileExt + OpenFile> {
    pub(crate) file: Option<F>,
    pub(crate) sectors: u32,
    pub(crate) transfers: u64,
    pub(crate) faults: u64,
    pub(crate) synced: bool,
    trouble: Option<Trouble>,
    // Sectors and labels as they stand in the file once what waits is written.
    pub(crate) last: Remembered<[u8; 528]>,
    pub(crate) labels: Remembered<Label>,
    // Where neighbouring sectors are read to, before they are remembered.
    pub(crate) room: Option<Vec<u8>>,
    // Neighbouring sectors that wait to be written in one call of the system, where writes are joined.
    pub(crate) waiting: Option<Neighbours>,
    // Whether sectors that are written whole are joined too, and not pages alone.
    pub(crate) joins_sectors: bool,
    ghost few: { sectors < 2 ^ 32 },
    ghost few_transfers: { transfers < 2 ^ 64 },
}

impl<F: FileExt + OpenFile> ImageDisk<F> {
    ghost use Rattle.image_disk.specs.Image.{image_state};

    /// The disk of the sectors that lie in the file whole. Bytes after the last of them are not
    /// looked at. Where the file doesn't reveal its length the disk has no sector.
    pub fn over(file: F) -> ImageDisk<F>
        ensures counts { image_state result
            ≡ record (image_state result) { transfers = 0; faults = 0; synced = false } }
    {
        let length = file.metadata().map_or(0, |metadata| metadata.len());
        ImageDisk::with_length(file, length)
    }

    fn with_length(file: F, length: u64) -> ImageDisk<F>
        ensures sectors { (image_state result).sectors ≡ min (length / 528) (2 ^ 32 - 1) }
        ensures counts { image_state result
            ≡ record (image_state result) { transfers = 0; faults = 0; synced = false } }
    {
        ImageDisk {
            file: Some(file),
            sectors: u32::try_from(length / SECTOR_BYTES).unwrap_or(u32::MAX),
            transfers: 0,
            faults: 0,
            synced: false,
            trouble: None,
            last: Remembered::none(),
            labels: Remembered::none(),
            room: None,
            waiting: None,
            joins_sectors: false,
        }
    }

    /// A disk of no sector, for an image that can't be opened.
    pub fn absent() -> ImageDisk<F>
        ensures sectors { (image_state result).sectors ≡ 0 }
        ensures counts { image_state result
            ≡ record (image_state result) { transfers = 0; faults = 0; synced = false } }
    {
        ImageDisk::without_file(0)
    }

    /// A disk of so many sectors without a file, which can neither be read nor written: for an image
    /// that is not made, since no volume has so many.
    pub fn without_file(sectors: u32) -> ImageDisk<F>
        ensures sectors { (image_state result).sectors ≡ sectors }
        ensures counts { image_state result
            ≡ record (image_state result) { transfers = 0; faults = 0; synced = false } }
    {
        ImageDisk {
            file: None,
            sectors,
            transfers: 0,
            faults: 0,
            synced: false,
            trouble: None,
            last: Remembered::none(),
            labels: Remembered::none(),
            room: None,
            waiting: None,
            joins_sectors: false,
        }
    }

    /// From now on, up to 128 sectors and so many labels are remembered, where there is
    /// memory for them.
    pub fn remember(&mut self, alloc: Global, labels: usize)
        ensures same { image_state self.new ≡ image_state self.old }
    {
        self.last = Remembered::with_places(alloc, SECTOR_PLACES);
        self.labels = Remembered::with_places(alloc, labels / 2);
        self.room = room_for_sectors(alloc);
    }

    /// From now on, up to 32 sectors that are written one after the other are written in one call of
    /// the system: before the next write on another place or of a label alone, before a sector is read
    /// that may be one of them, before a sync, and at `write_out`. A page is written with the label
    /// that it was found to have. Where there is no memory for them, or no file, each is written by itself.
    pub fn join_writes(&mut self, alloc: Global)
        ensures same { image_state self.new ≡ image_state self.old }
    {
        self.join_pages(alloc);
        self.joins_sectors = true;
    }

    /// From now on, pages that are written over labels which stay are joined as by `join_writes`. A
    /// sector that is written whole, and a label alone, is written at once, after what waits.
    pub fn join_pages(&mut self, alloc: Global)
        ensures same { image_state self.new ≡ image_state self.old }
    {
        if self.file.is_some() && self.waiting.is_none() {
            self.waiting = Neighbours::with_room(alloc).ok();
        }
    }

    /// Writes what waits.
    pub fn write_out(&mut self) -> Result<(), Trouble>
        ensures same { image_state self.new ≡ image_state self.old }
    {
        let Some(file) = &self.file else {
            return Ok(());
        };
        let Some(waiting) = &mut self.waiting else {
            return Ok(());
        };
        match waiting.write_to(file) {
            Ok(()) => Ok(()),
            Err(error) => Err(Trouble::Sector {
                sector: waiting.first(),
                error,
            }),
        }
    }

    /// What the system answered to the last call that failed, if one did.
    pub fn trouble(&self) -> Option<Trouble> {
        self.trouble
    }

    pub(crate) fn count_transfer(&mut self)
        ensures moved { Moved self.old.transfers self.new.transfers }
        ensures transfers { self.new.transfers ≡ min (self.old.transfers + 1) (2 ^ 64 - 1) }
        ensures faults { self.new.faults ≡ self.old.faults }
        ensures sectors { self.new.sectors ≡ self.old.sectors }
        ensures synced { self.new.synced ≡ self.old.synced }
    {
        self.transfers = self.transfers.saturating_add(1);
    }

    // Counts a call that may write.
    pub(crate) fn count_write(&mut self)
        ensures counted { image_state self.new
            ≡ record (image_state self.old) { transfers = min (self.old.transfers + 1) (2 ^ 64 - 1); synced = false } }
        ensures moved { Moved self.old.transfers self.new.transfers }
    {
        self.count_transfer();
        self.synced = false;
    }

    // Counts a fault of the system, and keeps what it answered. Nothing else is remembered then.
    pub(crate) fn fault(&mut self, trouble: Trouble) -> DiskError
        ensures result { result ≡ DiskError.Failed }
        ensures cause { Rose self.old.faults self.new.faults }
        ensures never_falls { self.old.faults ≤ self.new.faults }
        ensures faults { self.new.faults ≡ min (self.old.faults + 1) (2 ^ 64 - 1) }
        ensures transfers { self.new.transfers ≡ self.old.transfers }
        ensures sectors { self.new.sectors ≡ self.old.sectors }
        ensures synced { self.new.synced ≡ self.old.synced }
    {
        self.faults = self.faults.saturating_add(1);
        self.trouble = Some(trouble);
        self.last.clear();
        self.labels.clear();
        DiskError::Failed
    }
}
