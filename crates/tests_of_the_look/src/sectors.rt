//! Lines that write sectors of a disk.

use anyhow::{Context, Result};
use labelled_disk::{Disk, Label};

/// Sets bytes of a page from one on, which are revealed by hexadecimal digits.
pub(crate) fn set<D: Disk>(disk: &mut D, sector: u32, at: usize, digits: &str) -> Result<()> {
    let mut page = [0; 512];
    if sector < disk.sectors() {
        let label = disk.read(sector, &mut page)?;
        for (place, pair) in page.iter_mut().skip(at).zip(digits.as_bytes().chunks(2)) {
            *place = u8::from_str_radix(std::str::from_utf8(pair)?, 16)?;
        }
        disk.write(sector, &label, &page)?;
    }
    Ok(())
}

/// Labels a sector, and those after it up to another with the next pages, and sets the first bytes of the first:
/// `SECTOR LAST LABEL DIGITS`.
pub(crate) fn put<D: Disk>(disk: &mut D, line: &str) -> Result<()> {
    let (first, rest) = line.split_once(' ').context("no last sector")?;
    let (last, rest) = rest.split_once(' ').context("no label")?;
    let (label, digits) = rest.split_once(' ').unwrap_or((rest, ""));
    let first: u32 = first.parse()?;
    let label = Label::from_bytes(&u128::from_str_radix(label, 16)?.to_be_bytes());
    for sector in first..=last.parse()? {
        let page = label.page.wrapping_add(sector.wrapping_sub(first));
        if sector < disk.sectors() {
            disk.write(sector, &Label { page, ..label }, &[0; 512])?;
        }
    }
    set(disk, first, 0, digits)
}
