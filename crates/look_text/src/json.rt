//! The listing as JSON: a line for each file and each run.
use crate::fields::{begin_item, flag, identifier, next_flag, next_number, number, text};
use crate::listing::{next_identifier, page_runs, used_sectors};
use label_survey::Run;
use labelled_disk::Label;
use std::alloc::{AllocError, Global};
use volume_root::{Root, RootFault};
use volume_view::{BitRun, Condition, FileLine, Found, Names, View};

fn write_root(out: &mut String, root: &Root) -> Result<(), AllocError> {
    let version = u32::from(root.version);
    next_number(out, "version", version)?;
    next_flag(out, "clean", root.clean)?;
    next_number(out, "serial", root.serial)?;
    out.push(',')?;
    identifier(out, "next", next_identifier(root))
}

fn write_refusal(alloc: Global, out: &mut String, why: RootFault) -> Result<(), AllocError> {
    let why = format!(in alloc; "{why}")?;
    out.push(',')?;
    text(out, "refused", why.as_str())
}

fn condition_word(condition: Condition) -> &'static str {
    match condition {
        Condition::Sound => "sound",
        Condition::NotClosed => "not closed",
        Condition::Damaged => "damaged",
        Condition::Refused => "refused",
    }
}

// How the volume stands, and what is asked of a sound one beside files and maps.
fn write_condition(out: &mut String, view: &View<Global>) -> Result<(), AllocError> {
    out.push(',')?;
    text(out, "condition", condition_word(view.condition()))?;
    next_flag(out, "maps_labelled", view.maps_labelled)?;
    next_flag(out, "has_room", view.has_room())?;
    next_flag(out, "ids_given", view.has_given_ids())
}

fn write_volume(alloc: Global, out: &mut String, view: &View<Global>) -> Result<(), AllocError> {
    out.push('{')?;
    number(out, "sectors", view.layout.sectors)?;
    next_number(out, "first_data", view.layout.first)?;
    next_number(out, "capacity", view.layout.capacity)?;
    next_number(out, "used", used_sectors(&view.labels))?;
    match &view.root {
        Ok(root) => write_root(out, root)?,
        Err(why) => write_refusal(alloc, out, *why)?,
    }
    write_condition(out, view)?;
    out.push('}')
}

// The pages and the sectors of a run.
fn write_pages(out: &mut String, run: &Run) -> Result<(), AllocError> {
    number(out, "first", run.first)?;
    next_number(out, "pages", run.pages)?;
    next_number(out, "sector", run.sector)?;
    out.push('}')
}

fn write_runs(out: &mut String, runs: &[Run]) -> Result<(), AllocError> {
    for i in 0..runs.len() {
        out.push_str(if i == 0 { "{" } else { ",{" })?;
        write_pages(out, &runs[i])?;
    }
    Ok(())
}

fn write_file(out: &mut String, file: &FileLine, runs: &[Run]) -> Result<(), AllocError> {
    identifier(out, "id", file.id)?;
    next_number(out, "pages", file.pages)?;
    next_number(out, "type", u32::from(file.kind))?;
    next_flag(out, "immutable", file.immutable)?;
    next_number(out, "leader", file.leader)?;
    out.push_str(",\"runs\":[")?;
    write_runs(out, runs)?;
    out.push_str("]}")
}

// The files, each with the runs of its pages.
fn write_files(out: &mut String, files: &[FileLine], runs: &[Run]) -> Result<(), AllocError> {
    let mut rest = runs;
    for i in 0..files.len() {
        let count = page_runs(rest, files[i].id);
        begin_item(out, i)?;
        write_file(out, &files[i], rest.get(..count).unwrap_or(&[]))?;
        rest = rest.get(count.saturating_add(1)..).unwrap_or(&[]);
    }
    Ok(())
}

// Runs, each with the identifier of its file.
fn write_named_runs(out: &mut String, runs: &[Run]) -> Result<(), AllocError> {
    for i in 0..runs.len() {
        begin_item(out, i)?;
        identifier(out, "id", runs[i].id)?;
        out.push(',')?;
        write_pages(out, &runs[i])?;
    }
    Ok(())
}

fn write_bit_run(out: &mut String, run: &BitRun) -> Result<(), AllocError> {
    number(out, "sector", run.first)?;
    next_number(out, "sectors", run.sectors)?;
    out.push(',')?;
    text(out, "map", if run.used { "used" } else { "free" })?;
    out.push('}')
}

fn write_bits(out: &mut String, runs: &[BitRun]) -> Result<(), AllocError> {
    out.push('{')?;
    flag(out, "agrees", runs.is_empty())?;
    out.push_str(",\"differences\":[")?;
    for i in 0..runs.len() {
        begin_item(out, i)?;
        write_bit_run(out, &runs[i])?;
    }
    out.push_str("]}")
}

fn write_names(out: &mut String, names: &Names<Global>) -> Result<(), AllocError> {
    out.push('{')?;
    match names {
        Names::Malformed { page } => {
            flag(out, "agrees", false)?;
            next_flag(out, "alike", false)?;
            next_number(out, "malformed", *page)?;
            out.push('}')
        }
        Names::Read {
            in_form,
            differences,
        } => {
            let alike = differences.is_empty();
            flag(out, "agrees", alike && *in_form)?;
            next_flag(out, "alike", alike)?;
            next_flag(out, "in_form", *in_form)?;
            out.push_str(",\"only_labelled\":[")?;
            write_named_runs(out, &differences.unmapped)?;
            out.push_str("],\"only_mapped\":[")?;
            write_named_runs(out, &differences.unlabelled)?;
            out.push_str("]}")
        }
    }
}

fn write_lost(out: &mut String, sector: u32, label: &Label) -> Result<(), AllocError> {
    identifier(out, "id", label.id)?;
    next_number(out, "page", label.page)?;
    next_number(out, "sector", sector)?;
    out.push('}')
}

fn write_scavenge(
    out: &mut String,
    first: u32,
    labels: &[Label],
    found: &Found<Global>,
) -> Result<(), AllocError> {
    out.push('{')?;
    number(out, "files", found.survey.tally.files)?;
    next_number(out, "pages", found.survey.tally.pages)?;
    next_number(out, "freed", found.survey.tally.freed)?;
    out.push_str(",\"lost\":[")?;
    for i in 0..found.survey.lost.len() {
        let sector = found.survey.lost[i];
        if let Some(label) = labels.get(sector.saturating_sub(first) as usize) {
            begin_item(out, i)?;
            write_lost(out, sector, label)?;
        }
    }
    out.push_str("]}")
}

/// The listing of a volume as JSON.
pub fn json_of(alloc: Global, view: &View<Global>) -> Result<String, AllocError> {
    let mut out = String::new(alloc);
    out.push_str("{\"volume\":")?;
    write_volume(alloc, &mut out, view)?;
    out.push_str(",\n\"files\":[")?;
    write_files(&mut out, &view.found.files, &view.found.runs)?;
    out.push_str("],\n\"allocation_map\":")?;
    write_bits(&mut out, &view.bits)?;
    out.push_str(",\n\"file_map\":")?;
    write_names(&mut out, &view.names)?;
    out.push_str(",\n\"leftovers\":[")?;
    write_named_runs(&mut out, &view.found.leftovers)?;
    out.push_str("],\n\"scavenge\":")?;
    write_scavenge(&mut out, view.layout.first, &view.labels, &view.found)?;
    out.push('}')?;
    Ok(out)
}
