//! Volumes of a row, written sector by sector on a disk in memory.

use crate::draws::Draws;
use anyhow::{Context, Result, bail};
use labelled_disk::{Disk, FileId, LEADER, Label, Layout, MemoryDisk, Page};
use scavenger::{Report, scavenge};
use std::alloc::Global;
use volume_root::format;

/// A number that no transfer has.
pub(crate) const NEVER: u64 = u64::MAX;

pub(crate) type Volume = MemoryDisk<Global>;

/// A file that is put on a volume.
#[derive(Clone, Copy)]
pub(crate) struct Given {
    pub id: FileId,
    pub pages: u32,
    pub kind: u16,
    /// 1 where it is permanent, and 2 more where it is immutable.
    pub flags: u8,
    /// How many first pages have the same bytes on each volume. The others have their own.
    pub same: u32,
}

/// The label and the page of a sector, where the disk has it.
pub(crate) fn sector_at(disk: &mut Volume, sector: u32) -> Result<Option<(Label, Page)>> {
    if sector >= disk.sectors() {
        return Ok(None);
    }
    let mut page = [0; 512];
    let label = disk.read(sector, &mut page)?;
    Ok(Some((label, page)))
}

/// Writes a sector that the disk has.
pub(crate) fn put(disk: &mut Volume, sector: u32, label: &Label, page: &Page) -> Result<()> {
    if sector < disk.sectors() {
        disk.write(sector, label, page)?;
    }
    Ok(())
}

// The bytes of a page of a file on the volume of this serial.
fn page_of(file: &Given, number: u32, serial: u32) -> Page {
    let own = if number < file.same { 0 } else { serial };
    let first = file
        .id
        .wrapping_mul(1_000_003)
        .wrapping_add(u64::from(number));
    let mut draws = Draws::from(first.wrapping_mul(1_000_003).wrapping_add(u64::from(own)));
    let mut page = [0; 512];
    for byte in &mut page {
        *byte = draws.byte();
    }
    page
}

// The data sector of a leader or a page: neighbours are seven sectors apart, so that each page is a run of its own.
fn place_of(layout: &Layout, number: u32) -> u32 {
    let sectors = layout.sectors.wrapping_sub(layout.first);
    let apart = if sectors % 7 == 0 { 1 } else { 7 };
    let place = number.wrapping_mul(apart).checked_rem(sectors);
    layout.first.wrapping_add(place.unwrap_or(0))
}

// Puts the leaders and pages of these files into data sectors.
fn put_files(disk: &mut Volume, layout: &Layout, serial: u32, files: &[Given]) -> Result<()> {
    let mut number = 0u32;
    for file in files {
        let mut leader = Label::of_page(file.id, file.kind, LEADER);
        leader.flags = file.flags;
        put(disk, place_of(layout, number), &leader, &[0; 512])?;
        number = number.wrapping_add(1);
        for page in 0..file.pages {
            let label = Label::of_page(file.id, file.kind, page);
            let bytes = page_of(file, page, serial);
            put(disk, place_of(layout, number), &label, &bytes)?;
            number = number.wrapping_add(1);
        }
    }
    Ok(())
}

/// Restores a volume.
pub(crate) fn restore(alloc: Global, disk: &mut Volume) -> Result<()> {
    let mut report = Report::with_room(alloc, disk.sectors())?;
    if scavenge(alloc, disk, &mut report).is_err() {
        bail!("the volume is not restored");
    }
    Ok(())
}

/// A closed volume of this serial with these files, or an empty disk where there is none of so many sectors.
pub(crate) fn made(alloc: Global, sectors: u32, serial: u32, files: &[Given]) -> Result<Volume> {
    let mut disk = MemoryDisk::new(alloc, sectors)?;
    if serial < 1 {
        bail!("no volume has serial 0");
    }
    if let Ok(layout) = format(&mut disk, serial, 1) {
        put_files(&mut disk, &layout, serial, files)?;
        restore(alloc, &mut disk)?;
    }
    Ok(disk)
}

/// The same sectors on a disk that reveals its writes, of which the first ones are these. It fails at the transfer of this
/// number after them.
pub(crate) fn twin(alloc: Global, disk: &mut Volume, fails: u64) -> Result<Volume> {
    let sectors = disk.sectors();
    let call = u64::from(sectors).saturating_add(fails);
    let mut twin = MemoryDisk::failing(alloc, sectors, &[call], sectors.saturating_mul(4))?;
    for sector in 0..sectors {
        let (label, page) = sector_at(disk, sector)?.context("no sector")?;
        put(&mut twin, sector, &label, &page)?;
    }
    Ok(twin)
}
