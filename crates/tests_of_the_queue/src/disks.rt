//! A disk whose sectors have the labels of one file.

use labelled_disk::{Disk, FileId, Label, MemoryDisk, Wanted};
use std::alloc::Allocator;
use std::test::Fail;

pub const SECTORS: u32 = 64;

const FILE: FileId = 0x7_0000_0001;

/// The label of a sector: the file's page of that number.
pub fn label(sector: u32) -> Label {
    Label::of_page(FILE, 0, sector)
}

/// The page that stands in a sector.
pub fn wanted(sector: u32) -> Wanted {
    Wanted {
        id: FILE,
        page: sector,
    }
}

/// A disk that fails at these calls, keeps so many writes, and was labelled by its first 64 calls.
pub fn labelled<A: Allocator + Clone>(
    alloc: A,
    failing: &[u64],
    room: u32,
) -> Result<MemoryDisk<A>, Fail> {
    let mut disk = MemoryDisk::failing(alloc, SECTORS, failing, room)?;
    for sector in 0..SECTORS {
        if sector < disk.sectors() {
            disk.write_label(sector, &label(sector))?;
        }
    }
    Ok(disk)
}
