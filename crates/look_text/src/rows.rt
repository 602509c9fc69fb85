//! Runs of pages and of sectors, as text.
use label_survey::Run;
use labelled_disk::LEADER;
use std::alloc::AllocError;

/// The last of so many from this one on.
pub(crate) fn last_of(first: u32, count: u32) -> u32 {
    first.saturating_add(count.saturating_sub(1))
}

/// Writes a run of a file: its pages and its sectors.
pub(crate) fn write_run(out: &mut String, run: &Run) -> Result<(), AllocError> {
    let first = run.first;
    let sector = run.sector;
    if first == LEADER {
        return write!(out, "leader in sector {sector}");
    }
    let last = last_of(first, run.pages);
    let end = last_of(sector, run.pages);
    write!(out, "pages {first} to {last} in sectors {sector} to {end}")
}

/// How many pages these runs have.
pub(crate) fn total_pages(runs: &[Run]) -> u64 {
    let mut pages = 0u64;
    for run in runs {
        pages = pages.saturating_add(u64::from(run.pages));
    }
    pages
}
