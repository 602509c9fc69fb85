//! The listing: the root, a line for each file, both maps, leftovers, and what a restoration would do.
use crate::maps::write_maps;
use crate::rows::{last_of, total_pages};
use label_survey::Run;
use labelled_disk::{FileId, LEADER, Label, TABLES};
use std::alloc::{AllocError, Global};
use volume_root::Root;
use volume_view::{FileLine, Found, View};

/// How many sectors are not free.
pub(crate) fn used_sectors(labels: &[Label]) -> u32 {
    let mut used = 0u32;
    for label in labels {
        if !label.is_free() {
            used = used.saturating_add(1);
        }
    }
    used
}

/// The identifier that the volume gives out next.
pub(crate) fn next_identifier(root: &Root) -> FileId {
    u64::from(root.serial) * 0x1_0000_0000 + u64::from(root.counter)
}

fn write_root(out: &mut String, view: &View<Global>) -> Result<(), AllocError> {
    let sectors = view.layout.sectors;
    let first = view.layout.first;
    let capacity = view.layout.capacity;
    let used = used_sectors(&view.labels);
    match &view.root {
        Ok(root) => {
            let version = root.version;
            let state = if root.clean { "clean" } else { "not clean" };
            writeln!(out, "volume           version {version}, {state}")?;
        }
        Err(why) => {
            let why = *why;
            writeln!(out, "volume           refused: {why}")?;
        }
    }
    writeln!(out, "sectors          {sectors}, data from {first} on")?;
    writeln!(out, "capacity         {capacity}")?;
    writeln!(out, "used             {used}")?;
    if let Ok(root) = &view.root {
        let serial = root.serial;
        let next = next_identifier(root);
        writeln!(out, "serial           {serial}")?;
        writeln!(out, "next identifier  {next:016x}")?;
    }
    Ok(())
}

/// How many of these runs, which begin with the first of a file, are those of its pages.
pub(crate) fn page_runs(runs: &[Run], id: FileId) -> usize {
    for i in 0..runs.len() {
        if runs[i].id != id || runs[i].first == LEADER {
            return i;
        }
    }
    runs.len()
}

fn write_line(
    out: &mut String,
    file: &FileLine,
    runs: usize,
    first: u32,
) -> Result<(), AllocError> {
    let id = file.id;
    let pages = file.pages;
    let kind = file.kind;
    let mark = if file.immutable {
        "immutable"
    } else {
        "mutable"
    };
    writeln!(
        out,
        "{id:016x}  {pages:>7}  {kind:>5}  {mark:<9}  {runs:>5}  {first:>12}"
    )
}

// A line for each file. The runs are those of the files in their order, the leader after the pages of each.
fn write_files(out: &mut String, files: &[FileLine], runs: &[Run]) -> Result<(), AllocError> {
    if files.is_empty() {
        return writeln!(out, "no permanent file");
    }
    writeln!(
        out,
        "file                pages   type  marks       runs  first sector"
    )?;
    let mut rest = runs;
    for file in files {
        let count = page_runs(rest, file.id);
        let first = match rest.first() {
            Some(run) => run.sector,
            None => file.leader,
        };
        write_line(out, file, count, first)?;
        rest = rest.get(count.saturating_add(1)..).unwrap_or(&[]);
    }
    Ok(())
}

fn name_of(id: FileId, has_leader: bool) -> &'static str {
    if id == TABLES {
        "space tables"
    } else if has_leader {
        "temporary file"
    } else {
        "no file"
    }
}

// A line for the runs of one identifier, which are in the order of their pages, the leader last.
fn write_leftover(out: &mut String, id: FileId, runs: &[Run]) -> Result<(), AllocError> {
    let has_leader = match runs.last() {
        Some(run) => last_of(run.first, run.pages) == LEADER,
        None => false,
    };
    let name = name_of(id, has_leader);
    let sectors = total_pages(runs);
    let count = runs.len();
    let mut lowest = u32::MAX;
    for run in runs {
        lowest = lowest.min(run.sector);
    }
    writeln!(
        out,
        "  {id:016x}  {name}: sectors {sectors}, runs {count}, lowest {lowest}"
    )
}

// A line for each identifier.
fn write_leftovers(out: &mut String, leftovers: &[Run]) -> Result<(), AllocError> {
    if leftovers.is_empty() {
        return writeln!(out, "leftovers        none");
    }
    let sectors = total_pages(leftovers);
    writeln!(
        out,
        "leftovers        {sectors} sectors of no permanent file:"
    )?;
    let mut begin = 0;
    for i in 1..=leftovers.len() {
        let id = leftovers[i - 1].id;
        if i == leftovers.len() || leftovers[i].id != id {
            write_leftover(out, id, leftovers.get(begin..i).unwrap_or(&[]))?;
            begin = i;
        }
    }
    Ok(())
}

// What a restoration would do, or would do if it didn't refuse the root, with a line for each sector that it would lose.
fn write_scavenge(
    out: &mut String,
    refused: bool,
    first: u32,
    labels: &[Label],
    found: &Found<Global>,
) -> Result<(), AllocError> {
    let files = found.survey.tally.files;
    let pages = found.survey.tally.pages;
    let freed = found.survey.tally.freed;
    let lost = found.survey.lost.len();
    let keep = if refused {
        "refuse this root; by the labels it would keep"
    } else {
        "keep"
    };
    writeln!(
        out,
        "scavenge         would {keep} {files} files of {pages} pages, free {freed} sectors, and lose {lost} of these"
    )?;
    for i in 0..found.survey.lost.len() {
        let sector = found.survey.lost[i];
        if let Some(label) = labels.get(sector.saturating_sub(first) as usize) {
            let id = label.id;
            let page = label.page;
            writeln!(out, "  lost {sector} {id:016x} {page}")?;
        }
    }
    Ok(())
}

// A line for each of the other things that a sound volume has, where this one misses it.
fn write_misses(out: &mut String, view: &View<Global>) -> Result<(), AllocError> {
    if !view.maps_labelled {
        writeln!(
            out,
            "labels           a sector of the maps has the label of another page"
        )?;
    }
    if !view.has_room() {
        writeln!(
            out,
            "room             the files need more sectors than the capacity"
        )?;
    }
    if !view.has_given_ids() {
        writeln!(
            out,
            "identifiers      a file has one that is given out next or later"
        )?;
    }
    Ok(())
}

/// Writes the listing of a volume.
pub fn write_listing(out: &mut String, view: &View<Global>) -> Result<(), AllocError> {
    write_root(out, view)?;
    writeln!(out)?;
    write_files(out, &view.found.files, &view.found.runs)?;
    writeln!(out)?;
    write_maps(out, view)?;
    write_misses(out, view)?;
    write_leftovers(out, &view.found.leftovers)?;
    write_scavenge(
        out,
        view.root.is_err(),
        view.layout.first,
        &view.labels,
        &view.found,
    )
}
