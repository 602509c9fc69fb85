//! The bytes of a page, in the form of `hexdump -C`.
use labelled_disk::Page;
use std::alloc::AllocError;

/// A row has so many bytes.
const ROW: usize = 16;

fn write_byte(out: &mut String, byte: u8) -> Result<(), AllocError> {
    if (32..127).contains(&byte) {
        out.push(char::from(byte))
    } else {
        out.push('.')
    }
}

fn write_row(out: &mut String, at: usize, row: &[u8]) -> Result<(), AllocError> {
    write!(out, "{at:08x} ")?;
    for i in 0..row.len() {
        let byte = row[i];
        let gap = if i == 8 { "  " } else { " " };
        write!(out, "{gap}{byte:02x}")?;
    }
    write!(out, "  |")?;
    for byte in row {
        write_byte(out, *byte)?;
    }
    writeln!(out, "|")
}

/// Writes a page as `hexdump -C` does: rows of 16 bytes, each in hexadecimal digits and as text, a star for rows that are
/// the same as the one before, and the number of bytes.
pub fn write_page(out: &mut String, page: &Page) -> Result<(), AllocError> {
    let mut starred = false;
    for k in 0..32usize {
        let row = &page[ROW * k..ROW * k + ROW];
        if k > 0 && row == &page[ROW * k - ROW..ROW * k] {
            if !starred {
                writeln!(out, "*")?;
            }
            starred = true;
        } else {
            write_row(out, ROW * k, row)?;
            starred = false;
        }
    }
    writeln!(out, "00000200")
}
