//! All that the labels of a disk reveal.
ghost use Rattle.std.specs.Prelude.{◌≡◌, ◌+◌, ◌<◌, ◌^◌, List, length, map, IfOk};
ghost use Rattle.labelled_disk.specs.Layout.{data_sectors, first_data};
ghost use Rattle.labelled_disk.specs.Sectors.{Sector};
ghost use Rattle.label_survey.specs.Survey.{Reveals};

use crate::sector_state::SectorState;
use crate::tally::{Tally, lost_sectors, tally_sectors};
use crate::walk::find_sector_states;
use labelled_disk::{Label, NoMemory};
use std::alloc::Allocator;

/// What the labels of a disk make of its data sectors.
#[derive(Drop)]
pub struct Survey<A: Allocator> {
    /// What each data sector is, counted from the first.
    pub sector_states: Vec<SectorState, A>,
    pub tally: Tally,
    /// The freed sectors whose labels are those of files that stay, ascending, counted from sector 0.
    pub lost: Vec<u32, A>,
}

/// The survey of a disk with these labels, whose first data sector is sector `first`.
pub fn survey_labels<A: Allocator + Clone>(
    alloc: A,
    first: u32,
    labels: &[Label],
) -> Result<Survey<A>, NoMemory>
    requires few { first + length labels.now + 1 < 2 ^ 32 }
    ensures reveals { IfOk result (λ survey. (d : List Sector) → first ≡ first_data (length d)
        → labels.now ≡ map (λ s. s.0) (data_sectors d)
        → Reveals d survey.sector_states.items survey.tally survey.lost.items) }
    ensures all { IfOk result (λ survey. length survey.sector_states.items ≡ length labels.now) }
{
    let sector_states = find_sector_states(alloc.clone()?, labels)?;
    let lost = lost_sectors(alloc, first, &sector_states)?;
    let tally = tally_sectors(&sector_states);
    Ok(Survey {
        sector_states,
        tally,
        lost,
    })
}
