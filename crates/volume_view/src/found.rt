//! What the labels of a volume reveal: its files, where they lie, and what a restoration would free and lose.
ghost use Rattle.std.specs.Prelude.{◌≡◌, ◌+◌, ◌<◌, ◌^◌, List, length, map, IfOk};
ghost use Rattle.labelled_disk.specs.Layout.{data_sectors, first_data};
ghost use Rattle.labelled_disk.specs.Sectors.{Sector};
ghost use Rattle.volume_view.specs.Found.{IsFound};

use crate::files::{FileLine, list_files};
use crate::leftovers::leftovers_of;
use crate::rows::join_pages;
use label_survey::{Run, Survey, needed_triples, survey_labels};
use labelled_disk::{Label, NoMemory};
use std::alloc::Allocator;

/// What the labels of a volume reveal.
#[derive(Drop)]
pub struct Found<A: Allocator> {
    /// What each data sector is, and what a restoration would free and lose.
    pub survey: Survey<A>,
    /// The permanent files, in ascending identifiers.
    pub files: Vec<FileLine, A>,
    /// Where they lie: for each file, ascending, the runs of its pages, and then its leader; each run is
    /// as long as it can be.
    pub runs: Vec<Run, A>,
    /// The sectors that are neither free nor of a permanent file, as runs, by the identifier and the
    /// page of their labels.
    pub leftovers: Vec<Run, A>,
}

/// What these labels reveal, the first of which is that of sector `first`.
pub(crate) fn find_files<A: Allocator + Clone>(
    alloc: A,
    first: u32,
    labels: &[Label],
) -> Result<Found<A>, NoMemory>
    requires few { first + length labels.now + 1 < 2 ^ 32 }
    ensures { IfOk result (λ found. (d : List Sector) → first ≡ first_data (length d)
        → labels.now ≡ map (λ s. s.0) (data_sectors d) → IsFound d found) }
{
    let survey = survey_labels(alloc.clone()?, first, labels)?;
    let triples = needed_triples(alloc.clone()?, first, labels, &survey.sector_states)?;
    let files = list_files(alloc.clone()?, first, labels, &triples)?;
    let runs = join_pages(alloc.clone()?, &triples)?;
    let leftovers = leftovers_of(alloc, first, labels, &survey.sector_states)?;
    Ok(Found {
        survey,
        files,
        runs,
        leftovers,
    })
}
