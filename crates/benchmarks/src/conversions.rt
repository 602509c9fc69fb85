//! Old volumes of 65,536 sectors, and how long it takes to convert and then to restore them.
ghost use Rattle.std.specs.Prelude.{◌≤◌};

use labelled_disk::{Disk, FileId, Label, Layout, Marks, MemoryDisk, NoMemory, Page};
use scavenger::{Report, scavenge};
use std::alloc::Global;
use std::io;
use std::time::Instant;
use volume_convert::convert;

const SECTORS: u32 = 65_536;

// The files and the pages of each on the volumes that are converted.
const VOLUMES: [(u32, u32); 3] = [(10, 5_700), (1_000, 56), (28_000, 1)];

// How often each volume is converted; the least time counts.
const TURNS: u32 = 5;

const FIRST_FILE: FileId = 0x7_0000_0001;

// The first bytes of the root: version 1, clean, 65,536 sectors, serial 7, counter 1.
const FIELDS: [u8; 24] = [
    0x50, 0x49, 0x4c, 0x4f, 0x54, 0x56, 0x4f, 0x4c, 0, 1, 0, 1, 0, 1, 0, 0, 0, 0, 0, 7, 0, 0, 0, 1,
];

fn root_page() -> Page {
    let mut page = [0; 512];
    page[..24].copy_from_slice(&FIELDS);
    page
}

// An old volume with so many files of so many pages, one file after the other.
fn old_volume(alloc: Global, files: u32, pages: u32) -> Result<MemoryDisk<Global>, NoMemory>
    requires some { 1 ≤ pages }
{
    let mut disk = MemoryDisk::new(alloc, SECTORS)?;
    let Ok(layout) = Layout::of(SECTORS) else {
        return Err(NoMemory);
    };
    let Ok(()) = disk.write(0, &Label::ROOT, &root_page()) else {
        return Err(NoMemory);
    };
    for sector in layout.first..SECTORS {
        let index = sector - layout.first;
        if index / pages < files && sector < disk.sectors() {
            let page = index % pages;
            let marks = Marks {
                permanent: page == 0,
                immutable: false,
            };
            let label = Label {
                id: FIRST_FILE + u64::from(index / pages),
                page,
                kind: 9,
                flags: marks.to_flags(),
                last: 0,
            };
            let Ok(()) = disk.write(sector, &label, &[0; 512]) else {
                return Err(NoMemory);
            };
        }
    }
    Ok(disk)
}

// Converts an old volume with so many files of so many pages, and restores what it became.
fn time_both(rt: &HostRuntime, files: u32, pages: u32) -> io::Result<()>
    requires some { 1 ≤ pages }
{
    let Ok(mut disk) = old_volume(rt.alloc(), files, pages) else {
        return println!(rt; "no memory");
    };
    let Ok(mut found) = Report::with_room(rt.alloc(), SECTORS) else {
        return println!(rt; "no memory");
    };
    let made = disk.transfers();
    let start = Instant::now(rt)?;
    let Ok(revealed) = convert(rt.alloc(), &mut disk) else {
        return println!(rt; "not converted");
    };
    let converted = Instant::now(rt)?;
    let moved = disk.transfers().saturating_sub(made);
    let Ok(()) = scavenge(rt.alloc(), &mut disk, &mut found) else {
        return println!(rt; "not restored");
    };
    let restored = Instant::now(rt)?;
    let first = converted.saturating_duration_since(start).as_micros();
    let second = restored.saturating_duration_since(converted).as_micros();
    let again = disk.transfers().saturating_sub(made).saturating_sub(moved);
    println!(rt;
        "{} files, {} pages: convert {first} us, {moved} sectors; scavenge {second} us, {again} sectors",
        revealed.files, revealed.pages
    )
}

/// Prints how long conversions and restorations take, in microseconds, and how many sectors they
/// move.
pub fn report(rt: &HostRuntime) -> io::Result<()> {
    for (files, pages) in VOLUMES {
        for _ in 0..TURNS {
            time_both(rt, files, pages)?;
        }
    }
    Ok(())
}
