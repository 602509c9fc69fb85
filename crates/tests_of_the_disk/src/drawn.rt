//! Calls in a fixed pseudo-random order over an image, beside the same calls over a disk in memory.

use anyhow::Result;
use image_disk::{new_image, open_image};
use labelled_disk::{Disk, DiskError, Label, MemoryDisk, Page, Wanted};

/// The files whose pages are drawn.
const FILES: u32 = 3;

/// The answer of the call that a number gives, and the page that was read.
fn answer<D: Disk>(disk: &mut D, number: u32) -> (Result<Label, DiskError>, Page) {
    let mut page = [(number / 256 % 251) as u8; 512];
    let near = number / 0x1_0000 % 64;
    let sector = if number / 0x80_0000 % 2 == 0 {
        near
    } else {
        near * 64
    };
    if sector >= disk.sectors() {
        return (Err(DiskError::Failed), page);
    }
    let id = u64::from(number % FILES);
    let label = Label::of_page(id, 0, sector);
    let done = match number / 0x1000_0000 {
        0..=6 => {
            let answer = disk.read(sector, &mut page);
            return (answer, page);
        }
        7..=11 => disk.write_data(sector, Wanted { id, page: sector }, &page),
        12..=13 => disk.write_label(sector, &label),
        14 => disk.write(sector, &label, &page),
        _ => disk.sync(),
    };
    (done.map(|_| label), page)
}

/// The first of so many calls that a disk answers otherwise than another one, counted from 1, or 0.
fn first_difference<D: Disk, E: Disk>(disk: &mut D, plain: &mut E, turns: u32) -> u32 {
    let mut number: u32 = 7;
    for turn in 1..=turns {
        number = number.wrapping_mul(1_103_515_245).wrapping_add(12_345);
        if answer(disk, number) != answer(plain, number) {
            return turn;
        }
    }
    0
}

/// How many sectors of two disks are not the same.
fn other_sectors<D: Disk, E: Disk>(disk: &mut D, plain: &mut E) -> u32 {
    let mut others: u32 = 0;
    for sector in 0..disk.sectors() {
        let (mut page, mut same) = ([0; 512], [0; 512]);
        if sector < plain.sectors() && sector < disk.sectors() {
            let labels = (disk.read(sector, &mut page), plain.read(sector, &mut same));
            if labels.0 != labels.1 || page != same {
                others = others.saturating_add(1);
            }
        }
    }
    others
}

/// So many calls over a new image of 4,100 sectors, whose writes may be joined, all or those of pages
/// alone; and over what is in the file in the end.
pub(crate) fn answer_all(rt: &HostRuntime, name: &str, words: &str) -> Result<String> {
    let (turns, joins) = words.split_once(' ').unwrap_or((words, ""));
    let mut plain = MemoryDisk::new(rt.alloc(), 4100)?;
    let mut disk = new_image(rt, 4100, name)?;
    match joins {
        "j" => disk.join_writes(rt.alloc()),
        "g" => disk.join_pages(rt.alloc()),
        _ => (),
    }
    let difference = first_difference(&mut disk, &mut plain, turns.parse()?);
    disk.sync()?;
    drop(disk);
    let others = other_sectors(&mut open_image(rt, name)?, &mut plain);
    Ok(format!(in rt.alloc(); "{difference} {others}")?)
}
