//! Sectors that lie in the file one after the other: read in one call of the system, or written in one.

use crate::Remembered;
use crate::bytes::{label_at, label_in};
use labelled_disk::Label;
use std::alloc::{AllocError, Global};
use std::io;
use std::os::unix::fs::FileExt;

/// How many sectors are moved in one call of the system at most.
pub(crate) const MOST: u32 = 32;

/// Room for the bytes of so many sectors, where there is memory for it.
pub(crate) fn room_for_sectors(alloc: Global) -> Option<Vec<u8>> {
    vec![in alloc; 0; 16896].ok()
}

/// Reads as many sectors as there is room for in one call, and remembers them.
pub(crate) fn read_neighbours<F: FileExt>(
    file: &F,
    first: u32,
    room: &mut [u8],
    into: &mut Remembered<[u8; 528]>,
) -> io::Result<()> {
    file.read_exact_at(room, label_at(first))?;
    let (sectors, _) = room.as_chunks::<528>();
    for (sector, bytes) in (first..=u32::MAX).zip(sectors) {
        into.keep(sector, bytes);
    }
    Ok(())
}

/// Reads as many sectors as there is room for in one call, and remembers their labels.
pub(crate) fn read_labels<F: FileExt>(
    file: &F,
    first: u32,
    room: &mut [u8],
    into: &mut Remembered<Label>,
) -> io::Result<()> {
    file.read_exact_at(room, label_at(first))?;
    let (sectors, _) = room.as_chunks::<528>();
    for (sector, bytes) in (first..=u32::MAX).zip(sectors) {
        into.keep(sector, &label_in(bytes));
    }
    Ok(())
}

/// Up to 32 neighbouring sectors that wait to be written.
#[derive(Drop)]
pub(crate) struct Neighbours {
    first: u32,
    sectors: Vec<[u8; 528]>,
}

impl Neighbours {
    pub(crate) fn with_room(alloc: Global) -> Result<Neighbours, AllocError> {
        Ok(Neighbours {
            first: 0,
            sectors: Vec::with_capacity(alloc, MOST as usize)?,
        })
    }

    pub(crate) fn first(&self) -> u32 {
        self.first
    }

    /// Whether one of these may be among the sectors that are read at once from this one on.
    pub(crate) fn may_lie_from(&self, sector: u32) -> bool {
        let count = self.sectors.len() as u64;
        u64::from(sector) < u64::from(self.first).saturating_add(count)
            && u64::from(self.first) < u64::from(sector) + u64::from(MOST)
    }

    /// Takes a sector in that comes next after these, while there is room.
    pub(crate) fn push(&mut self, sector: u32, bytes: &[u8; 528]) -> bool {
        let count = self.sectors.len() as u64;
        if count == 0 {
            self.first = sector;
        }
        count < u64::from(MOST)
            && u64::from(self.first) + count == u64::from(sector)
            && self.sectors.push(*bytes).is_ok()
    }

    /// Writes these sectors into a file, after which none waits.
    pub(crate) fn write_to<F: FileExt>(&mut self, file: &F) -> io::Result<()> {
        if !self.sectors.is_empty() {
            file.write_all_at(self.sectors.as_flattened(), label_at(self.first))?;
            self.sectors.clear();
        }
        Ok(())
    }
}
