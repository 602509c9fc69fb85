//! Lines on the sectors of a disk.

use anyhow::{Context, Result, bail};
use labelled_disk::{Disk, Label, Page};
use std::alloc::{AllocError, Global};

/// So many numbers, with spaces between them.
pub(crate) fn numbers_of<const N: usize>(words: &str) -> Result<[u32; N]> {
    let mut numbers = [0; N];
    let mut words = words.split(' ');
    for number in &mut numbers {
        *number = words.next().context("too few numbers")?.parse()?;
    }
    Ok(numbers)
}

/// A label and a page, in hexadecimal digits.
fn digits(alloc: Global, label: &Label, page: &Page) -> Result<String, AllocError> {
    let label = u128::from_be_bytes(label.to_bytes());
    let mut text = format!(in alloc; "{label:032x} ")?;
    for bytes in page.as_chunks::<16>().0 {
        text.push_str(&format!(in alloc; "{:032x}", u128::from_be_bytes(*bytes))?)?;
    }
    Ok(text)
}

/// Looks whether this stands in a sector, `SECTOR|LABEL PAGE`, without the zeros at the page's end.
fn look<D: Disk>(alloc: Global, disk: &mut D, words: &str) -> Result<()> {
    let (sector, wanted) = words.split_once('|').context("no bar")?;
    let sector: u32 = sector.parse()?;
    let mut page = [0; 512];
    if sector >= disk.sectors() {
        bail!("there is no sector {sector}");
    }
    let label = disk.read(sector, &mut page)?;
    let found = digits(alloc, &label, &page)?;
    let rest = found.strip_prefix(wanted).unwrap_or("else");
    if !rest.trim_matches(' ').trim_matches('0').is_empty() {
        bail!("sector {sector} has {found}");
    }
    Ok(())
}

/// Writes a label, and a page that begins with the sector's number: `SECTOR LABEL`.
fn set_label<D: Disk>(disk: &mut D, words: &str) -> Result<()> {
    let (sector, label) = words.split_once(' ').context("no label")?;
    let sector: u32 = sector.parse()?;
    let label = Label::from_bytes(&u128::from_str_radix(label, 16)?.to_be_bytes());
    let mut page = [0; 512];
    page[..4].copy_from_slice(&sector.to_be_bytes());
    if sector < disk.sectors() {
        disk.write(sector, &label, &page)?;
    }
    Ok(())
}

/// Sets bytes of the page of a sector, from one up to another.
fn set_page<D: Disk>(disk: &mut D, sector: u32, from: u32, to: u32, byte: u8) -> Result<()> {
    let mut page = [0; 512];
    if sector < disk.sectors() {
        let label = disk.read(sector, &mut page)?;
        for place in page.iter_mut().take(to as usize).skip(from as usize) {
            *place = byte;
        }
        disk.write(sector, &label, &page)?;
    }
    Ok(())
}

/// Sets bytes of pages: `SECTOR END AT END BYTE`, each END being one after the last.
fn set_bytes<D: Disk>(disk: &mut D, words: &str) -> Result<()> {
    let [first, end, from, to, byte]: [u32; 5] = numbers_of(words)?;
    for sector in first..end {
        set_page(disk, sector, from, to, (byte % 256) as u8)?;
    }
    Ok(())
}

/// Carries out a line. The error says what it shows that is not as it says.
pub(crate) fn line<D: Disk>(alloc: Global, disk: &mut D, line: &str) -> Result<()> {
    let (word, rest) = line.split_once(' ').context("no words")?;
    match word {
        "label" => set_label(disk, rest),
        "bytes" => set_bytes(disk, rest),
        _ => look(alloc, disk, rest),
    }
}
