//! Questions on a volume, and their answers.

use crate::sectors::set;
use anyhow::{Context, Result};
use labelled_disk::Disk;
use look_text::{json_of, write_file, write_listing, write_page, write_picture};
use std::alloc::Global;
use volume_view::{look, read_page};

fn listing<D: Disk>(alloc: Global, disk: &mut D) -> Result<String> {
    let view = look(alloc, disk)?;
    let mut text = String::new(alloc);
    write_listing(&mut text, &view)?;
    Ok(text)
}

/// What a listing says of the file map.
fn map_line<D: Disk>(alloc: Global, disk: &mut D) -> Result<String> {
    let text = listing(alloc, disk)?;
    let line = text.lines().find(|line| line.starts_with("file map"));
    Ok(String::from_str(alloc, line.unwrap_or("no line"))?)
}

/// What a listing says where a byte is another one; afterwards it stands there again: `SECTOR AT BYTE OLD`.
fn poked<D: Disk>(alloc: Global, disk: &mut D, words: &str) -> Result<String> {
    let (sector, rest) = words.split_once(' ').context("no place")?;
    let (at, rest) = rest.split_once(' ').context("no byte")?;
    let (byte, old) = rest.split_once(' ').unwrap_or((rest, rest));
    let (sector, at) = (sector.parse()?, at.parse()?);
    set(disk, sector, at, byte)?;
    let line = map_line(alloc, disk)?;
    set(disk, sector, at, old)?;
    Ok(line)
}

/// The runs of a file, or whether there is none.
fn file<D: Disk>(alloc: Global, disk: &mut D, digits: &str) -> Result<String> {
    let view = look(alloc, disk)?;
    let mut text = String::new(alloc);
    let found = write_file(&mut text, &view, u64::from_str_radix(digits, 16)?)?;
    Ok(format!(in alloc; "{found:?}\n{text}")?)
}

/// The bytes of a sector's page.
fn page<D: Disk>(alloc: Global, disk: &mut D, sector: u32) -> Result<String> {
    let mut text = String::new(alloc);
    if sector < disk.sectors() {
        let bytes = read_page(disk, sector)?;
        write_page(&mut text, &bytes)?;
    }
    Ok(text)
}

fn picture<D: Disk>(alloc: Global, disk: &mut D) -> Result<String> {
    let view = look(alloc, disk)?;
    let mut text = String::new(alloc);
    write_picture(alloc, &mut text, &view)?;
    Ok(text)
}

pub(crate) fn answer<D: Disk>(alloc: Global, disk: &mut D, question: &str) -> Result<String> {
    let (verb, words) = question.split_once(' ').unwrap_or((question, ""));
    match verb {
        "listing" => listing(alloc, disk),
        "json" => Ok(json_of(alloc, &look(alloc, disk)?)?),
        "picture" => picture(alloc, disk),
        "file" => file(alloc, disk, words),
        "page" => page(alloc, disk, words.parse()?),
        "agrees" => {
            let line = poked(alloc, disk, words)?;
            Ok(format!(in alloc; "{}", line.contains("agrees"))?)
        }
        _ => poked(alloc, disk, words),
    }
}
