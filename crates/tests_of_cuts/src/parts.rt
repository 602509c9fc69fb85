//! Disks on which a part of one write is not there, or is there before the others.

use cut_laws::lagging_page;
use labelled_disk::{Disk, DiskError, DiskWrite, Label, MemoryDisk, Page};
use std::alloc::Allocator;
use std::test::Fail;

pub const SECTORS: u32 = 256;

/// A part of a sector that is written whole or not at all.
#[derive(Clone, Copy, Debug, PartialEq, Eq)]
pub enum Part {
    Label,
    /// 16 bytes of its page.
    Unit(usize),
}

/// What is there of a write.
#[derive(Clone, Copy, Debug, PartialEq, Eq)]
pub enum There {
    Whole,
    Nothing,
    Without(Part),
    Only(Part),
}

/// What may be there of a write that lags while others are there.
pub const LAGS: [There; 4] = [
    There::Nothing,
    There::Without(Part::Label),
    There::Without(Part::Unit(0)),
    There::Without(Part::Unit(1)),
];

/// What may be there of a write that runs ahead while others are not there.
pub const AHEAD: [There; 4] = [
    There::Whole,
    There::Only(Part::Label),
    There::Only(Part::Unit(0)),
    There::Only(Part::Unit(1)),
];

/// What is there of writes of which the last ones were not waited for.
#[derive(Clone, Copy, Debug)]
pub struct Cut {
    /// How many of them stand before the last sync.
    pub settled: usize,
    /// One of the later ones.
    pub number: usize,
    pub there: There,
    /// What is there of the rest of the later ones.
    pub others: There,
}

fn sector_of(write: &DiskWrite) -> u32 {
    match write {
        DiskWrite::Whole { sector, .. }
        | DiskWrite::LabelOnly { sector, .. }
        | DiskWrite::Page { sector, .. } => *sector,
    }
}

// A sector, where the disk has it.
fn sector_at<D: Disk>(disk: &mut D, sector: u32) -> Result<(Label, Page), DiskError> {
    let mut page = [0; 512];
    if sector >= disk.sectors() {
        return Ok((Label::FREE, page));
    }
    let label = disk.read(sector, &mut page)?;
    Ok((label, page))
}

// Writes to a sector. The bytes of a page get there whatever its label is.
fn put<D: Disk>(disk: &mut D, write: &DiskWrite) -> Result<(), DiskError> {
    match write {
        DiskWrite::Whole {
            sector,
            label,
            page,
        } if *sector < disk.sectors() => disk.write(*sector, label, page),
        DiskWrite::LabelOnly { sector, label } if *sector < disk.sectors() => {
            disk.write_label(*sector, label)
        }
        DiskWrite::Page { sector, page, .. } if *sector < disk.sectors() => {
            let mut old = [0; 512];
            let label = disk.read(*sector, &mut old)?;
            disk.write(*sector, &label, page)
        }
        _ => Ok(()),
    }
}

// A sector with this part of another.
fn with_part(sector: &(Label, Page), other: &(Label, Page), part: Part) -> (Label, Page) {
    match part {
        Part::Label => (other.0, sector.1),
        Part::Unit(unit) if unit < 32 => (sector.0, lagging_page(&other.1, &sector.1, unit)),
        Part::Unit(_) => *sector,
    }
}

// Makes of a sector what is there, and answers whether that is neither the old one nor the new one.
fn put_part<D: Disk>(disk: &mut D, write: &DiskWrite, there: There) -> Result<bool, DiskError> {
    let sector = sector_of(write);
    let old = sector_at(disk, sector)?;
    put(disk, write)?;
    let new = sector_at(disk, sector)?;
    let found = match there {
        There::Whole => return Ok(false),
        There::Nothing => old,
        There::Without(part) => with_part(&new, &old, part),
        There::Only(part) => with_part(&old, &new, part),
    };
    if sector < disk.sectors() {
        disk.write(sector, &found.0, &found.1)?;
    }
    Ok(found != old && found != new)
}

impl Cut {
    // What is there of the write with this number.
    fn there_of(&self, at: usize) -> There {
        if at == self.number {
            self.there
        } else if at < self.settled {
            There::Whole
        } else {
            self.others
        }
    }

    /// A new disk with what is there of these writes; and whether of one of them there is a part.
    pub fn disk<A: Allocator + Clone>(
        &self,
        alloc: A,
        writes: &[DiskWrite],
    ) -> Result<(MemoryDisk<A>, bool), Fail> {
        let mut disk = MemoryDisk::new(alloc, SECTORS)?;
        let mut in_part = false;
        for (at, write) in writes.iter().enumerate() {
            match self.there_of(at) {
                There::Whole => put(&mut disk, write)?,
                There::Nothing => {}
                there => in_part = put_part(&mut disk, write, there)?,
            }
        }
        Ok((disk, in_part))
    }
}

/// Few writes that make the same of a new disk: one for each sector that is not as it was.
pub fn squeezed<A: Allocator + Clone>(
    alloc: A,
    writes: &[DiskWrite],
) -> Result<Vec<DiskWrite, A>, Fail> {
    let mut disk = MemoryDisk::new(alloc.clone()?, SECTORS)?;
    for write in writes {
        put(&mut disk, write)?;
    }
    let mut few = Vec::new(alloc);
    for sector in 0..SECTORS {
        let (label, page) = sector_at(&mut disk, sector)?;
        if label != Label::FREE || page != [0; 512] {
            few.push(DiskWrite::Whole {
                sector,
                label,
                page,
            })?;
        }
    }
    Ok(few)
}
