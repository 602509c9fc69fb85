mod drawn;
mod roots;
mod rows;
mod stops;

use labelled_disk::{Disk, Label, MemoryDisk, Page};
use pilot_top::{Status, pilot};
use std::alloc::Global;
use std::test::Fail;
use trace_io::{MemorySink, MemorySource};

const FILE: u64 = 0x0000_0007_0000_0001;

// Page 0 of a permanent file of type 9, as an old volume has it.
const FIRST_PAGE: Label = Label {
    id: FILE,
    page: 0,
    kind: 9,
    flags: 1,
    last: 0,
};

// A later page of that file.
const fn page(number: u32) -> Label {
    Label {
        page: number,
        flags: 0,
        ..FIRST_PAGE
    }
}

// A page of one of the volume's own files: the allocation map, the file map, the root.
const fn own(id: u64, page: u32) -> Label {
    Label {
        id,
        page,
        kind: 0,
        flags: 0,
        last: 0,
    }
}

// What a command writes, and its status.
#[derive(Drop)]
struct Outcome {
    status: Status,
    out: Vec<u8>,
}

fn command(
    alloc: Global,
    word: &str,
    disk: &mut MemoryDisk<Global>,
    trace: &[u8],
) -> Result<Outcome, Fail> {
    let mut words = Vec::new(alloc);
    words.push(String::from_str(alloc, word)?)?;
    let mut other = MemoryDisk::new(alloc, 0)?;
    let mut source = MemorySource::new(alloc, trace, &[])?;
    let mut sink = MemorySink::new(alloc, 100_000, &[])?;
    let status = pilot(
        alloc,
        alloc,
        &words,
        disk,
        &mut other,
        &mut source,
        &mut sink,
    );
    Ok(Outcome {
        status,
        out: sink.taken().to_vec(alloc)?,
    })
}

// Writes a sector that the disk has.
fn put(disk: &mut MemoryDisk<Global>, sector: u32, label: &Label, page: &Page) -> Result<(), Fail> {
    if sector < disk.sectors() {
        disk.write(sector, label, page)?;
    }
    Ok(())
}

// The label and the page of a sector, where the disk has it.
fn sector_at(disk: &mut MemoryDisk<Global>, sector: u32) -> Result<Option<(Label, Page)>, Fail> {
    if sector >= disk.sectors() {
        return Ok(None);
    }
    let mut page = [0; 512];
    let label = disk.read(sector, &mut page)?;
    Ok(Some((label, page)))
}

// The page of the root of an old volume of 256 sectors, clean, with serial 7 and counter 2.
fn root_page(version: u8) -> Page {
    let mut page = [0; 512];
    page[..24].copy_from_slice(&[
        0x50, 0x49, 0x4c, 0x4f, 0x54, 0x56, 0x4f, 0x4c, 0, version, 0, 1, 0, 0, 1, 0, 0, 0, 0, 7,
        0, 0, 0, 2,
    ]);
    page
}

// The transfers that make an old volume.
const MADE: u64 = 36;

// An old volume of 256 sectors without a file, whose file map is empty, written sector by sector.
// The disk fails at the transfers with these numbers, and it reveals its writes.
fn old_volume(alloc: Global, version: u8, fails: &[u64]) -> Result<MemoryDisk<Global>, Fail> {
    let mut disk = MemoryDisk::failing(alloc, 256, fails, 2000)?;
    put(&mut disk, 0, &own(4, 0), &root_page(version))?;
    let mut bits = [0; 512];
    bits[..5].copy_from_slice(&[0xff, 0xff, 0xff, 0xff, 0xf0]);
    put(&mut disk, 1, &own(1, 0), &bits)?;
    for number in 0u32..34 {
        put(
            &mut disk,
            number.wrapping_add(2),
            &own(2, number),
            &[0; 512],
        )?;
    }
    Ok(disk)
}
