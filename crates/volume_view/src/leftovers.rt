//! What no permanent file has: temporary files that were left, and labels of no file.
ghost use Rattle.std.specs.Prelude.{◌≡◌, ◌+◌, ◌<◌, ◌^◌, List, length, map, IfOk};
ghost use Rattle.std.specs.List.Sorted.{IsPermutation};
ghost use Rattle.labelled_disk.specs.Layout.{data_sectors, first_data};
ghost use Rattle.labelled_disk.specs.Sectors.{Sector};
ghost use Rattle.label_survey.specs.SectorStates.{AreSectorStates};
ghost use Rattle.volume_view.specs.Leftovers.{is_orphan, AreLeftovers};
ghost use Rattle.volume_view.specs.Orphans.{AreOrphans};

use crate::rows::join_pages;
use label_survey::{Run, SectorState, Triple};
use labelled_disk::Label;
use std::alloc::{AllocError, Allocator};

// Whether the sector is neither free nor of a permanent file.
fn is_orphan(sector_state: SectorState) -> bool
    ensures { result ≡ is_orphan sector_state }
{
    match sector_state {
        SectorState::Orphan => true,
        SectorState::Free => false,
        SectorState::Lost => false,
        SectorState::Leader => false,
        SectorState::Page => false,
    }
}

fn sort_triples(triples: &mut [Triple])
    ensures { IsPermutation triples.old triples.new }
{
    triples.sort_unstable();
}

// The sectors that are neither free nor of a permanent file, the first of all being sector `first`.
fn collect_leftovers<A: Allocator>(
    alloc: A,
    first: u32,
    labels: &[Label],
    sector_states: &[SectorState],
) -> Result<Vec<Triple, A>, AllocError>
    requires few { first + length labels.now < 2 ^ 32 }
    requires same_length { length sector_states.now ≡ length labels.now }
    ensures { IfOk result (λ triples.
        AreOrphans first labels.now sector_states.now (length labels.now) triples.items) }
{
    let mut triples = Vec::new(alloc);
    for i in 0..labels.len() {
        if is_orphan(sector_states[i]) {
            let label = &labels[i];
            triples.push(Triple {
                id: label.id,
                page: label.page,
                sector: first + i as u32,
            })?;
        }
    }
    Ok(triples)
}

/// The sectors that are neither free nor of a permanent file, with what their labels say, by identifier and page.
pub(crate) fn leftovers_of<A: Allocator + Clone>(
    alloc: A,
    first: u32,
    labels: &[Label],
    sector_states: &[SectorState],
) -> Result<Vec<Run, A>, AllocError>
    requires few { first + length labels.now < 2 ^ 32 }
    requires same_length { length sector_states.now ≡ length labels.now }
    ensures { IfOk result (λ runs. (d : List Sector) → first ≡ first_data (length d)
        → labels.now ≡ map (λ s. s.0) (data_sectors d) → AreSectorStates d sector_states.now
        → AreLeftovers d runs.items) }
{
    let mut triples = collect_leftovers(alloc.clone()?, first, labels, sector_states)?;
    sort_triples(&mut triples);
    Ok(join_pages(alloc, &triples)?)
}
