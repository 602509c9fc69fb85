//! What each sector of a volume is, for a picture.
use crate::rows::last_of;
use label_survey::{Run, SectorState};
use labelled_disk::{LEADER, Layout};
use std::alloc::{AllocError, Global};
use volume_view::{BitRun, Names, View};

/// What a sector is. The pages of files have one of six colours, the next for each file.
#[derive(Clone, Copy, Debug, PartialEq, Eq)]
pub(crate) enum Kind {
    Free,
    Root,
    AllocationMap,
    FileMap,
    /// A page of a map where that differs from the labels.
    WrongMap,
    Leader,
    Page(u8),
    Leftover,
    Lost,
}

/// What a sector is, and the number of the run in which it stands: those of the files come first,
/// and then those that are left over.
#[derive(Clone, Copy, Debug, PartialEq, Eq)]
pub(crate) struct Place {
    pub(crate) kind: Kind,
    pub(crate) run: Option<usize>,
}

/// How many colours the pages of files have.
pub(crate) const COLOURS: u8 = 6;

/// How many sectors a page of the allocation map reveals of.
const BITS: u32 = 4096;

fn low_kind(layout: &Layout, sector: u32) -> Kind {
    if sector == 0 {
        Kind::Root
    } else if sector <= layout.vam {
        Kind::AllocationMap
    } else {
        Kind::FileMap
    }
}

fn data_kind(sector_state: SectorState) -> Kind {
    match sector_state {
        SectorState::Free => Kind::Free,
        SectorState::Orphan => Kind::Leftover,
        SectorState::Lost => Kind::Lost,
        SectorState::Leader => Kind::Leader,
        SectorState::Page => Kind::Page(0),
    }
}

fn plain_places(alloc: Global, view: &View<Global>) -> Result<Vec<Place>, AllocError> {
    let mut places = Vec::new(alloc);
    for sector in 0..view.layout.first {
        let kind = low_kind(&view.layout, sector);
        places.push(Place { kind, run: None })?;
    }
    for i in 0..view.found.survey.sector_states.len() {
        let kind = data_kind(view.found.survey.sector_states[i]);
        places.push(Place { kind, run: None })?;
    }
    Ok(places)
}

// Marks the pages of the maps from this sector to that.
fn mark_wrong(places: &mut [Place], first: u32, last: u32) {
    for sector in first..=last {
        if let Some(place) = places.get_mut(sector as usize) {
            place.kind = Kind::WrongMap;
        }
    }
}

// Marks the pages of the allocation map that have a bit of these runs.
fn mark_bits(places: &mut [Place], runs: &[BitRun]) {
    for run in runs {
        let last = last_of(run.first, run.sectors);
        mark_wrong(places, 1 + run.first / BITS, 1 + last / BITS);
    }
}

// Marks the page of the file map that breaks its form, or all of them where it differs.
fn mark_names(places: &mut [Place], layout: &Layout, names: &Names<Global>) {
    let first = layout.vam.saturating_add(1);
    match names {
        Names::Malformed { page } => {
            let page = first.saturating_add(*page);
            mark_wrong(places, page, page);
        }
        Names::Read {
            in_form,
            differences,
        } => {
            if !*in_form || !differences.is_empty() {
                mark_wrong(places, first, last_of(first, layout.vfm));
            }
        }
    }
}

// Gives the sectors of a run its number, and those of a file's pages its colour.
fn number_run(places: &mut [Place], run: &Run, number: usize, colour: Option<u8>) {
    for k in 0..run.pages {
        if let Some(place) = places.get_mut(run.sector.saturating_add(k) as usize) {
            place.run = Some(number);
            if let Some(colour) = colour {
                place.kind = Kind::Page(colour);
            }
        }
    }
}

// Each file gets the next colour.
fn number_files(places: &mut [Place], runs: &[Run]) {
    let mut colour = 0u8;
    for i in 0..runs.len() {
        if runs[i].first == LEADER {
            colour = colour.wrapping_add(1) % COLOURS;
            number_run(places, &runs[i], i, None);
        } else {
            number_run(places, &runs[i], i, Some(colour));
        }
    }
}

fn number_leftovers(places: &mut [Place], files: usize, runs: &[Run]) {
    for i in 0..runs.len() {
        number_run(places, &runs[i], files.saturating_add(i), None);
    }
}

/// What each sector of the volume is.
pub(crate) fn places_of(alloc: Global, view: &View<Global>) -> Result<Vec<Place>, AllocError> {
    let mut places = plain_places(alloc, view)?;
    mark_bits(&mut places, &view.bits);
    mark_names(&mut places, &view.layout, &view.names);
    number_files(&mut places, &view.found.runs);
    number_leftovers(&mut places, view.found.runs.len(), &view.found.leftovers);
    Ok(places)
}
