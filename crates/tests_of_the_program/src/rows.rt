//! The blocks of a section, one after the other over one disk. An error says what they show that is not as they say.

use crate::part::Part;
use crate::sector::{self, numbers_of};
use anyhow::{Result, bail};
use image_disk::{new_image, open_image};
use labelled_disk::{Disk, DiskWrite, MemoryDisk};
use std::alloc::{AllocError, Global};
use std::fs;

/// How many writes a disk records.
const WRITES: u32 = 1_000;

/// The image file of the sections.
const IMAGE: &str = "image";

/// How many sectors the disk of a section has, and how many the second one.
#[derive(Clone, Copy)]
pub(crate) struct Disks {
    pub(crate) sectors: u32,
    pub(crate) others: u32,
}

/// A command with its rows, or lines on sectors, over a disk and a second one.
fn block_on<D: Disk, E: Disk>(
    alloc: Global,
    disk: &mut D,
    other: &mut E,
    frames: &str,
    block: &str,
) -> Result<()> {
    if let Some(command) = block.strip_prefix('$') {
        return Part::of_block(alloc, frames, command)?.does(alloc, disk, other);
    }
    for line in block.lines() {
        sector::line(alloc, disk, line)?;
    }
    Ok(())
}

/// A block. One that begins with `&` is over the second disk.
fn block<D: Disk, E: Disk>(
    alloc: Global,
    disk: &mut D,
    other: &mut E,
    frames: &str,
    block: &str,
) -> Result<()> {
    match block.strip_prefix('&') {
        Some(block) => block_on(alloc, other, disk, frames, block),
        None => block_on(alloc, disk, other, frames, block),
    }
}

/// Blocks in a row.
pub(crate) fn blocks<D: Disk, E: Disk>(
    alloc: Global,
    disk: &mut D,
    other: &mut E,
    frames: &str,
    blocks: &str,
) -> Result<()> {
    for text in blocks.split("\n\n") {
        block(alloc, disk, other, frames, text)?;
    }
    Ok(())
}

/// The same over disks in memory. Gives how many sectors were moved on the first.
fn in_memory(alloc: Global, disks: Disks, frames: &str, text: &str) -> Result<u64> {
    let mut disk = MemoryDisk::new(alloc, disks.sectors)?;
    let mut other = MemoryDisk::new(alloc, disks.others)?;
    blocks(alloc, &mut disk, &mut other, frames, text)?;
    Ok(disk.transfers())
}

/// A block over the image file, which is opened for it.
fn on_image(rt: &HostRuntime, other: &mut MemoryDisk<Global>, text: &str) -> Result<()> {
    let mut disk = open_image(rt, IMAGE)?;
    block(rt.alloc(), &mut disk, other, "24", text)
}

/// The same over an image file, which is opened anew for each block, in 24 frames; the second disk is in memory.
fn in_a_file(rt: &HostRuntime, disks: Disks, text: &str) -> Result<()> {
    let mut other = MemoryDisk::new(rt.alloc(), disks.others)?;
    let _ = fs::remove_file(rt, IMAGE);
    drop(new_image(rt, disks.sectors, IMAGE)?);
    for text in text.split("\n\n") {
        on_image(rt, &mut other, text)?;
    }
    Ok(())
}

/// The same in few frames and in many, where a `^` in the end has fewer sectors moved in the many; and over an image file.
pub(crate) fn everywhere(rt: &HostRuntime, disks: Disks, text: &str) -> Result<()> {
    let without = text.trim_end_matches("\n\n^");
    let few = in_memory(rt.alloc(), disks, "24", without)?;
    let many = in_memory(rt.alloc(), disks, "4096", without)?;
    if without.len() < text.len() && few <= many {
        bail!("with 24 frames it moves {few} sectors, with 4096 {many}");
    }
    if disks.sectors == 0 {
        return Ok(());
    }
    in_a_file(rt, disks, without)
}

/// Those of two sectors whose pages were written, in this order.
fn written(alloc: Global, writes: &[DiskWrite], pair: [u32; 2]) -> Result<Vec<u32>, AllocError> {
    let mut found = Vec::new(alloc);
    for write in writes {
        if let DiskWrite::Page { sector, .. } = write {
            if pair.contains(sector) {
                found.push(*sector)?;
            }
        }
    }
    Ok(found)
}

/// The same over a disk that records its writes. The pages of two sectors have to be written in this order, each once.
pub(crate) fn in_order(alloc: Global, sectors: u32, text: &str, order: &str) -> Result<()> {
    let order: [u32; 2] = numbers_of(order)?;
    let mut disk = MemoryDisk::failing(alloc, sectors, &[], WRITES)?;
    blocks(
        alloc,
        &mut disk,
        &mut MemoryDisk::new(alloc, 0)?,
        "24",
        text,
    )?;
    if written(alloc, disk.written(), order)?.as_slice() != order.as_slice() {
        bail!("written in another order");
    }
    Ok(())
}
