//! Images in files of the system, in the folder that the program runs in.

use crate::drawn;
use anyhow::{Context, Result};
use image_disk::{ImageDisk, NoImage, new_image, open_image, remove_image};
use labelled_disk::{Disk, Label, Wanted};
use std::fs;
use std::fs::{File, OpenFile};
use std::os::unix::fs::FileExt;

/// How many sectors an image has, or why there is none.
fn revealed(rt: &HostRuntime, image: Result<ImageDisk<File>, NoImage>) -> Result<String> {
    match image {
        Ok(disk) => Ok(format!(in rt.alloc(); "{} sectors", disk.sectors())?),
        Err(why) => Ok(format!(in rt.alloc(); "{why}")?),
    }
}

/// Writes a label and a page of bytes 65.
fn write(rt: &HostRuntime, disk: &mut ImageDisk<File>, words: &str) -> Result<String> {
    let (sector, label) = words.split_once(' ').context("no label")?;
    let sector = sector.parse()?;
    let label = Label::from_bytes(&u128::from_str_radix(label, 16)?.to_be_bytes());
    if sector < disk.sectors() {
        disk.write(sector, &label, &[65; 512])?;
    }
    Ok(String::from_str(rt.alloc(), "ok")?)
}

/// The label of a sector, and the first and the last byte of its page.
fn read(rt: &HostRuntime, disk: &mut ImageDisk<File>, sector: u32) -> Result<String> {
    let mut page = [0; 512];
    if sector >= disk.sectors() {
        return Ok(String::from_str(rt.alloc(), "no sector")?);
    }
    let label = u128::from_be_bytes(disk.read(sector, &mut page)?.to_bytes());
    Ok(format!(in rt.alloc(); "{label:032x} {} {}", page[0], page[511])?)
}

/// The page of a free label.
const WANTED: Wanted = Wanted { id: 0, page: 0 };

/// A call on an image, a letter and a sector: `w` writes a page whose bytes are the call's number, `p` writes it over the label that
/// is there, `l` writes a label, and `r` reads. The answer is a byte that was read, or what went wrong.
fn call<D: Disk>(rt: &HostRuntime, disk: &mut D, number: usize, word: &str) -> Result<String> {
    let (letter, sector) = word.split_at_checked(1).context("no call")?;
    let sector = sector.parse()?;
    let mut page = [(number % 256) as u8; 512];
    if sector >= disk.sectors() {
        return Ok(String::from_str(rt.alloc(), "no sector")?);
    }
    let done = match letter {
        "w" => disk.write(sector, &Label::FREE, &page),
        "p" => disk.write_data(sector, WANTED, &page),
        "l" => disk.write_label(sector, &Label::FREE),
        _ => disk.read(sector, &mut page).map(|_| ()),
    };
    match done {
        Ok(()) if letter == "r" => Ok(format!(in rt.alloc(); "{} ", page[0])?),
        Ok(()) => Ok(String::new(rt.alloc())),
        Err(why) => Ok(format!(in rt.alloc(); "{why} ")?),
    }
}

/// Calls on one opened image; `j` has writes joined from then on, and `g` pages alone.
pub(crate) fn calls<F: FileExt + OpenFile>(
    rt: &HostRuntime,
    disk: &mut ImageDisk<F>,
    words: &str,
) -> Result<String> {
    let mut text = String::new(rt.alloc());
    for (number, word) in words.split(' ').enumerate() {
        if word == "j" {
            disk.join_writes(rt.alloc());
        } else if word == "g" {
            disk.join_pages(rt.alloc());
        } else {
            text.push_str(&call(rt, disk, number, word)?)?;
        }
    }
    disk.sync()?;
    Ok(text)
}

/// Bytes of a file, from one on, in hexadecimal digits.
fn dump(rt: &HostRuntime, name: &str, words: &str) -> Result<String> {
    let (from, count) = words.split_once(' ').context("no count")?;
    let (from, count) = (from.parse()?, count.parse()?);
    let mut text = String::new(rt.alloc());
    for byte in fs::read(rt, name)?.iter().skip(from).take(count) {
        text.push_str(&format!(in rt.alloc(); "{byte:02x}")?)?;
    }
    Ok(text)
}

/// The length of a file, and how many of its bytes are not 0.
fn size(rt: &HostRuntime, name: &str) -> Result<String> {
    let bytes = fs::read(rt, name)?;
    let some = bytes.iter().filter(|byte| **byte != 0).count();
    Ok(format!(in rt.alloc(); "{} bytes, {some} not 0", bytes.len())?)
}

/// What a command on a file answers: its name comes first.
pub(crate) fn answer(rt: &HostRuntime, verb: &str, rest: &str) -> Result<String> {
    let (name, words) = rest.split_once(' ').unwrap_or((rest, ""));
    match verb {
        "new" => revealed(rt, new_image(rt, words.parse()?, name)),
        "open" => revealed(rt, open_image(rt, name)),
        "twice" => {
            let held = open_image(rt, name)?;
            let second = revealed(rt, open_image(rt, name))?;
            drop(held);
            Ok(second)
        }
        "write" => write(rt, &mut open_image(rt, name)?, words),
        "calls" => calls(rt, &mut open_image(rt, name)?, words),
        "read" => read(rt, &mut open_image(rt, name)?, words.parse()?),
        "drawn" => drawn::answer_all(rt, name, words),
        "dump" => dump(rt, name, words),
        "size" => size(rt, name),
        "remove" => {
            remove_image(rt, name)?;
            Ok(String::new(rt.alloc()))
        }
        _ => {
            fs::write(rt, name, words)?;
            Ok(String::new(rt.alloc()))
        }
    }
}
