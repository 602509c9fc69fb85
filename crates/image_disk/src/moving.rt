//! Bytes are moved between the file and the memory.
ghost use Rattle.std.specs.Prelude.{◌≡◌, ◌<◌, true};
ghost use Rattle.labelled_disk.specs.Label.{names};

use crate::bytes::{joined, label_at, label_in, page_at, parted};
use crate::neighbours::{MOST, read_labels, read_neighbours};
use crate::{ImageDisk, Trouble};
use labelled_disk::{Label, Page, Wanted};
use std::fs::OpenFile;
use std::io;
use std::os::unix::fs::FileExt;

impl<F: FileExt + OpenFile> ImageDisk<F> {
    ghost use Rattle.image_disk.specs.Image.{image_state};

    // Reads as many bytes as there are to fill, from the begin of this sector on.
    fn get(&self, sector: u32, bytes: &mut [u8]) -> Result<(), Trouble> {
        let read = match &self.file {
            Some(file) => file.read_exact_at(bytes, label_at(sector)),
            None => Err(io::ErrorKind::NotFound.into()),
        };
        match read {
            Ok(()) => Ok(()),
            Err(error) => Err(Trouble::Sector { sector, error }),
        }
    }

    // Writes what waits where it may be among the sectors that are read from this one on.
    fn write_out_from(&mut self, sector: u32) -> Result<(), Trouble>
        ensures same { image_state self.new ≡ image_state self.old }
    {
        match &self.waiting {
            Some(waiting) if waiting.may_lie_from(sector) => self.write_out(),
            _ => Ok(()),
        }
    }

    // The label of a sector, which is remembered or read; its page is put in `page`. Where the sector
    // before it was read lately, those after it are read as well.
    pub(crate) fn get_sector(&mut self, sector: u32, page: &mut Page) -> Result<Label, Trouble>
        requires { sector < (image_state self.old).sectors }
        ensures same { image_state self.new ≡ image_state self.old }
    {
        if let Some(bytes) = self.last.get(sector) {
            return Ok(parted(bytes, page));
        }
        self.write_out_from(sector)?;
        if sector > 0 && self.last.has(sector - 1) {
            self.get_neighbours(sector);
            if let Some(bytes) = self.last.get(sector) {
                return Ok(parted(bytes, page));
            }
        }
        self.get_alone(sector, page)
    }

    // The same of a sector that is not remembered: it is read by itself.
    fn get_alone(&mut self, sector: u32, page: &mut Page) -> Result<Label, Trouble>
        ensures same { image_state self.new ≡ image_state self.old }
    {
        let mut bytes = [0; 528];
        self.get(sector, &mut bytes)?;
        self.last.keep(sector, &bytes);
        Ok(parted(&bytes, page))
    }

    // Reads up to 32 sectors from this one on, and remembers them.
    fn get_neighbours(&mut self, sector: u32)
        requires { sector < (image_state self.old).sectors }
        ensures same { image_state self.new ≡ image_state self.old }
    {
        let count = MOST.min(self.sectors - sector) as usize;
        if let Some(file) = &self.file
            && let Some(room) = &mut self.room
            && 528 * count <= room.len()
        {
            let _ = read_neighbours(file, sector, &mut room[..528 * count], &mut self.last);
        }
    }

    // The label of a sector, which is remembered or read. Where that of the sector before it is
    // remembered, those of the ones after it are read as well.
    pub(crate) fn get_label(&mut self, sector: u32) -> Result<Label, Trouble>
        requires { sector < (image_state self.old).sectors }
        ensures same { image_state self.new ≡ image_state self.old }
    {
        if let Some(label) = self.known_label(sector) {
            return Ok(label);
        }
        self.write_out_from(sector)?;
        if sector > 0 && self.labels.has(sector - 1) {
            self.get_labels(sector);
            if let Some(label) = self.known_label(sector) {
                return Ok(label);
            }
        }
        let mut bytes = [0; 16];
        self.get(sector, &mut bytes)?;
        let label = Label::from_bytes(&bytes);
        self.labels.keep(sector, &label);
        Ok(label)
    }

    // The label of a sector where it, or the whole sector, is remembered.
    fn known_label(&self, sector: u32) -> Option<Label> {
        match self.labels.get(sector) {
            Some(label) => Some(*label),
            None => self.last.get(sector).map(label_in),
        }
    }

    // Reads up to 32 sectors from this one on, and remembers their labels.
    fn get_labels(&mut self, sector: u32)
        requires { sector < (image_state self.old).sectors }
        ensures same { image_state self.new ≡ image_state self.old }
    {
        let count = MOST.min(self.sectors - sector) as usize;
        if let Some(file) = &self.file
            && let Some(room) = &mut self.room
            && 528 * count <= room.len()
        {
            let _ = read_labels(file, sector, &mut room[..528 * count], &mut self.labels);
        }
    }

    // Writes a sector after what waits, or lets it wait too, where sectors are joined.
    pub(crate) fn put_sector(&mut self, sector: u32, bytes: &[u8; 528]) -> Result<(), Trouble>
        ensures same { image_state self.new ≡ image_state self.old }
    {
        if self.joins_sectors {
            return self.join_sector(sector, bytes);
        }
        self.write_out()?;
        match self.put(label_at(sector), bytes) {
            Ok(()) => Ok(()),
            Err(error) => Err(Trouble::Sector { sector, error }),
        }
    }

    // Lets a sector wait until its neighbours are written too, where there is memory for that.
    fn join_sector(&mut self, sector: u32, bytes: &[u8; 528]) -> Result<(), Trouble>
        ensures same { image_state self.new ≡ image_state self.old }
    {
        if self.lets_wait(sector, bytes) {
            return Ok(());
        }
        self.write_out()?;
        if self.lets_wait(sector, bytes) {
            return Ok(());
        }
        match self.put(label_at(sector), bytes) {
            Ok(()) => Ok(()),
            Err(error) => Err(Trouble::Sector { sector, error }),
        }
    }

    // Lets a sector wait, where writes are joined and it comes next after those that wait.
    fn lets_wait(&mut self, sector: u32, bytes: &[u8; 528]) -> bool
        ensures same { image_state self.new ≡ image_state self.old }
    {
        match &mut self.waiting {
            Some(waiting) => waiting.push(sector, bytes),
            None => false,
        }
    }

    // Writes all bytes, from this byte of the file on.
    pub(crate) fn put(&self, at: u64, bytes: &[u8]) -> io::Result<()> {
        match &self.file {
            Some(file) => file.write_all_at(bytes, at),
            None => Err(io::ErrorKind::NotFound.into()),
        }
    }

    // Writes the page of a sector whose label was found to name it: with that label where writes are
    // joined, and else alone.
    pub(crate) fn put_page(
        &mut self,
        sector: u32,
        found: Label,
        _wanted: Wanted,
        page: &Page,
    ) -> Result<(), Trouble>
        requires { names found _wanted ≡ true }
        ensures same { image_state self.new ≡ image_state self.old }
    {
        if self.waiting.is_some() {
            return self.join_sector(sector, &joined(&found, page));
        }
        match self.put(page_at(sector), page.as_slice()) {
            Ok(()) => Ok(()),
            Err(error) => Err(Trouble::Sector { sector, error }),
        }
    }

    // Waits until what was written to the file is on the medium.
    pub(crate) fn sync_file(&self) -> io::Result<()> {
        match &self.file {
            Some(file) => file.sync_data(),
            None => Ok(()),
        }
    }
}
