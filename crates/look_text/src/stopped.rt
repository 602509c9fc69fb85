//! What a stopped volume has: the pages of its space tables are in neither map.
use label_survey::Run;
use labelled_disk::{Label, TABLES};
use std::alloc::Global;
use volume_view::{BitRun, Condition, Names, View};

// How many sectors have a label of the space tables.
fn table_sectors(labels: &[Label]) -> u64 {
    let mut sectors = 0u64;
    for label in labels {
        if label.id == TABLES && !label.is_free() {
            sectors = sectors.saturating_add(1);
        }
    }
    sectors
}

// Whether these are runs of the space tables, of so many pages.
fn are_tables(runs: &[Run], pages: u64) -> bool {
    let mut found = 0u64;
    for run in runs {
        if run.id != TABLES {
            return false;
        }
        found = found.saturating_add(u64::from(run.pages));
    }
    found == pages
}

// Whether the labels of all sectors of a run are of the space tables.
fn is_of_tables(first: u32, labels: &[Label], run: &BitRun) -> bool {
    let begin = run.first.saturating_sub(first) as usize;
    match labels.get(begin..begin.saturating_add(run.sectors as usize)) {
        Some(labels) => labels.iter().all(|label| label.id == TABLES),
        None => false,
    }
}

// Whether the map has these sectors as free, and they are those of the space tables, so many.
fn are_of_tables(first: u32, labels: &[Label], runs: &[BitRun], sectors: u64) -> bool {
    let mut found = 0u64;
    for run in runs {
        if run.used || run.first < first || !is_of_tables(first, labels, run) {
            return false;
        }
        found = found.saturating_add(u64::from(run.sectors));
    }
    found == sectors
}

// Whether the file map misses the pages of the space tables, so many, and has nothing else wrong.
fn misses_tables(names: &Names<Global>, pages: u64) -> bool {
    match names {
        Names::Malformed { page: _ } => false,
        Names::Read {
            in_form,
            differences,
        } => *in_form
            && differences.unlabelled.is_empty()
            && are_tables(&differences.unmapped, pages),
    }
}

/// How many pages the space tables have, where the volume was not closed, and both maps differ from
/// the labels in that they lack these pages, and in nothing else.
pub(crate) fn missing_tables(view: &View<Global>) -> Option<u64> {
    let pages = table_sectors(&view.labels);
    let stopped = view.condition() == Condition::NotClosed && pages > 0;
    if stopped
        && misses_tables(&view.names, pages)
        && are_of_tables(view.layout.first, &view.labels, &view.bits, pages)
    {
        Some(pages)
    } else {
        None
    }
}
