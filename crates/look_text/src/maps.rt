//! Both maps beside the labels.
use crate::rows::{last_of, write_run};
use crate::stopped::missing_tables;
use label_survey::Run;
use labelled_disk::Layout;
use std::alloc::{AllocError, Global};
use volume_view::{BitRun, NameDifferences, Names, View};

/// How many runs of a map are written.
const FEW: usize = 16;

// A line where there are more runs than were written.
fn write_more(out: &mut String, runs: usize) -> Result<(), AllocError> {
    if runs > FEW {
        writeln!(out, "  and more")?;
    }
    Ok(())
}

// Writes what is so of some sectors of a run.
fn write_sectors(
    out: &mut String,
    first: u32,
    sectors: u32,
    state: &str,
) -> Result<(), AllocError> {
    if sectors == 0 {
        return Ok(());
    }
    let last = last_of(first, sectors);
    writeln!(out, "  sectors {first} to {last}: {state}")
}

// Writes a run in two parts: what is below this sector, and the rest.
fn write_parts(
    out: &mut String,
    run: &BitRun,
    border: u32,
    states: (&str, &str),
) -> Result<(), AllocError> {
    let (low_state, high_state) = states;
    let low = border.saturating_sub(run.first).min(run.sectors);
    let high = run.sectors.saturating_sub(low);
    write_sectors(out, run.first, low, low_state)?;
    write_sectors(out, run.first.saturating_add(low), high, high_state)
}

fn write_bit_run(out: &mut String, layout: &Layout, run: &BitRun) -> Result<(), AllocError> {
    if run.used {
        let states = (
            "used in the map, free by label",
            "used in the map, not there",
        );
        write_parts(out, run, layout.sectors, states)
    } else {
        let states = (
            "free in the map, of root or maps",
            "free in the map, used by label",
        );
        write_parts(out, run, layout.first, states)
    }
}

// Writes what the allocation map says beside the labels.
fn write_bits(out: &mut String, layout: &Layout, runs: &[BitRun]) -> Result<(), AllocError> {
    if runs.is_empty() {
        return writeln!(out, "allocation map   agrees with the labels");
    }
    writeln!(out, "allocation map   differs from the labels, first here:")?;
    for run in runs.iter().take(FEW) {
        write_bit_run(out, layout, run)?;
    }
    write_more(out, runs.len())
}

fn write_name_run(out: &mut String, run: &Run, who: &str) -> Result<(), AllocError> {
    let id = run.id;
    write!(out, "  {who}: {id:016x} ")?;
    write_run(out, run)?;
    writeln!(out)
}

fn write_differences(
    out: &mut String,
    differences: &NameDifferences<Global>,
) -> Result<(), AllocError> {
    let unmapped = differences.unmapped.len();
    for run in differences.unmapped.iter().take(FEW) {
        write_name_run(out, run, "only by label")?;
    }
    for run in differences
        .unlabelled
        .iter()
        .take(FEW.saturating_sub(unmapped))
    {
        write_name_run(out, run, "only in the map")?;
    }
    write_more(out, unmapped.saturating_add(differences.unlabelled.len()))
}

// What is so of a file map that was read.
fn names_state(in_form: bool, alike: bool) -> &'static str {
    if alike && in_form {
        "agrees with the labels"
    } else if alike {
        "names what the labels name, but is out of form"
    } else if in_form {
        "differs from the labels, first here:"
    } else {
        "is out of form, and differs from the labels, first here:"
    }
}

// Writes what the file map says beside the labels.
fn write_names(out: &mut String, names: &Names<Global>) -> Result<(), AllocError> {
    match names {
        Names::Malformed { page } => {
            let page = *page;
            writeln!(out, "file map         is out of form in its page {page}")
        }
        Names::Read {
            in_form,
            differences,
        } => {
            let state = names_state(*in_form, differences.is_empty());
            writeln!(out, "file map         {state}")?;
            write_differences(out, differences)
        }
    }
}

/// Writes what both maps say beside the labels.
pub(crate) fn write_maps(out: &mut String, view: &View<Global>) -> Result<(), AllocError> {
    if let Some(pages) = missing_tables(view) {
        return writeln!(
            out,
            "both maps        as a stopped volume has: the space tables' {pages} pages are not in the maps"
        );
    }
    write_bits(out, &view.layout, &view.bits)?;
    write_names(out, &view.names)
}
