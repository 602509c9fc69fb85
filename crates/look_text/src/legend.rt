//! The colours of a picture, and its legend.
use crate::kinds::Kind;
use std::alloc::AllocError;

/// How many lines the legend has.
pub(crate) const LINES: usize = 9;

/// The colour of a kind.
pub(crate) fn colour_of(kind: Kind) -> &'static str {
    match kind {
        Kind::Free => "#eceff1",
        Kind::Root => "#000000",
        Kind::AllocationMap => "#7b1fa2",
        Kind::FileMap => "#ba68c8",
        Kind::WrongMap => "#ec407a",
        Kind::Leader => "#0d3b66",
        Kind::Page(0) => "#1b9e77",
        Kind::Page(1) => "#4fa3e0",
        Kind::Page(2) => "#9acd32",
        Kind::Page(3) => "#00b8b8",
        Kind::Page(4) => "#3f6fd8",
        Kind::Page(_) => "#7fb069",
        Kind::Leftover => "#ff9f1c",
        Kind::Lost => "#d7263d",
    }
}

/// The line of the legend that a kind has.
pub(crate) fn line_of(kind: Kind) -> usize {
    match kind {
        Kind::Root => 0,
        Kind::AllocationMap => 1,
        Kind::FileMap => 2,
        Kind::WrongMap => 3,
        Kind::Leader => 4,
        Kind::Page(_) => 5,
        Kind::Free => 6,
        Kind::Leftover => 7,
        Kind::Lost => 8,
    }
}

fn text_of(line: usize) -> &'static str {
    match line {
        0 => "root",
        1 => "allocation map",
        2 => "file map",
        3 => "a map where it differs from the labels",
        4 => "leaders of files",
        5 => "pages of files, the next colour for each file",
        6 => "free",
        7 => "left over: of no permanent file",
        _ => "lost: of a permanent file that does not need it",
    }
}

fn swatch(out: &mut String, x: u64, y: u64, kind: Kind) -> Result<(), AllocError> {
    let colour = colour_of(kind);
    writeln!(
        out,
        "<rect x=\"{x}\" y=\"{y}\" width=\"14\" height=\"14\" fill=\"{colour}\"/>"
    )
}

fn swatches(out: &mut String, y: u64, line: usize) -> Result<(), AllocError> {
    match line {
        0 => swatch(out, 84, y, Kind::Root),
        1 => swatch(out, 84, y, Kind::AllocationMap),
        2 => swatch(out, 84, y, Kind::FileMap),
        3 => swatch(out, 84, y, Kind::WrongMap),
        4 => swatch(out, 84, y, Kind::Leader),
        6 => swatch(out, 84, y, Kind::Free),
        7 => swatch(out, 84, y, Kind::Leftover),
        8 => swatch(out, 84, y, Kind::Lost),
        _ => {
            swatch(out, 84, y, Kind::Page(0))?;
            swatch(out, 98, y, Kind::Page(1))?;
            swatch(out, 112, y, Kind::Page(2))?;
            swatch(out, 126, y, Kind::Page(3))?;
            swatch(out, 140, y, Kind::Page(4))?;
            swatch(out, 154, y, Kind::Page(5))
        }
    }
}

/// Writes the legend from this height on, with how many sectors are of each kind.
pub(crate) fn write_legend(
    out: &mut String,
    top: u64,
    counts: &[u32; LINES],
) -> Result<(), AllocError> {
    for line in 0..LINES {
        let y = top.saturating_add(20 * line as u64);
        swatches(out, y, line)?;
        let text_y = y.saturating_add(12);
        let count = counts[line];
        let text = text_of(line);
        writeln!(out, "<text x=\"176\" y=\"{text_y}\">{text}: {count}</text>")?;
    }
    Ok(())
}
