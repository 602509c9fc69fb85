//! Where the leaders and pages of files stand.
ghost use Rattle.std.specs.Prelude.{◌≡◌, ◌+◌, ◌≤◌, ◌<◌, ◌^◌, List, length, map, IfOk};
ghost use Rattle.std.specs.List.Sorted.{IsPermutation};
ghost use Rattle.labelled_disk.specs.Layout.{data_sectors, first_data};
ghost use Rattle.labelled_disk.specs.Sectors.{Sector};
ghost use Rattle.label_survey.specs.SectorStates.{AreSectorStates};
ghost use Rattle.label_survey.specs.Triples.{AreNeeded, AreUp, triples_from};

use crate::sector_state::SectorState;
use labelled_disk::{FileId, Label, NoMemory};
use std::alloc::{AllocError, Allocator};

/// A leader or a page of a file, and its sector. The order is that of the fields.
#[derive(Clone, Copy, Debug, PartialEq, Eq, PartialOrd, Ord)]
pub struct Triple {
    pub id: FileId,
    /// `ffffffff` for the leader.
    pub page: u32,
    /// Counted from sector 0.
    pub sector: u32,
}

fn collect_triples<A: Allocator>(
    alloc: A,
    first: u32,
    labels: &[Label],
    sector_states: &[SectorState],
) -> Result<Vec<Triple, A>, AllocError>
    requires few { first + length labels.now < 2 ^ 32 }
    requires same_length { length sector_states.now ≡ length labels.now }
    ensures { IfOk result (λ triples. triples.items ≡ triples_from first labels.now sector_states.now) }
{
    let mut triples = Vec::new(alloc);
    for i in 0..labels.len() {
        if sector_states[i].is_kept() {
            let label = &labels[i];
            triples.push(Triple {
                id: label.id,
                page: label.page,
                sector: first + i as u32,
            })?;
        }
    }
    Ok(triples)
}

fn sort_triples(triples: &mut [Triple])
    ensures order { AreUp triples.new }
    ensures same { IsPermutation triples.old triples.new }
{
    triples.sort_unstable();
}

/// The leaders and pages that the files of a disk need, by identifier, page and sector: of a disk
/// with these labels and these sector states, whose first data sector is sector `first`.
pub fn needed_triples<A: Allocator>(
    alloc: A,
    first: u32,
    labels: &[Label],
    sector_states: &[SectorState],
) -> Result<Vec<Triple, A>, NoMemory>
    requires few { first + length labels.now < 2 ^ 32 }
    requires same_length { length sector_states.now ≡ length labels.now }
    ensures order { IfOk result (λ triples. AreUp triples.items) }
    ensures few { IfOk result (λ triples. length triples.items ≤ length labels.now) }
    ensures needed { IfOk result (λ triples. (d : List Sector) → first ≡ first_data (length d)
        → labels.now ≡ map (λ s. s.0) (data_sectors d) → AreSectorStates d sector_states.now
        → AreNeeded d triples.items) }
{
    let mut triples = collect_triples(alloc, first, labels, sector_states)?;
    sort_triples(&mut triples);
    Ok(triples)
}
