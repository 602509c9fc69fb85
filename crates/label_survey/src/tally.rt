//! How many sectors are what.
ghost use Rattle.std.specs.Prelude.{◌≡◌, ◌+◌, ◌≤◌, ◌<◌, ◌^◌, List, length, IfOk};
ghost use Rattle.labelled_disk.specs.Sectors.{Sector};
ghost use Rattle.label_survey.specs.SectorStates.{AreSectorStates};
ghost use Rattle.label_survey.specs.Survey.{IsTally, Tallies, counted, is_lost, places_by};

use crate::sector_state::SectorState;
use std::alloc::{AllocError, Allocator};

/// What stays and what is freed, in files, pages and sectors.
#[derive(Clone, Copy, Debug, PartialEq, Eq)]
pub struct Tally {
    pub files: u32,
    /// No leader is among them.
    pub pages: u32,
    /// The sectors that are neither free nor of a file that needs them.
    pub freed: u32,
}

impl Tally {
    fn count(&mut self, sector_state: SectorState)
        requires files { self.old.files + 1 < 2 ^ 32 }
        requires pages { self.old.pages + 1 < 2 ^ 32 }
        requires freed { self.old.freed + 1 < 2 ^ 32 }
        ensures { self.new ≡ counted sector_state self.old }
    {
        match sector_state {
            SectorState::Leader => self.files += 1,
            SectorState::Page => self.pages += 1,
            SectorState::Lost => self.freed += 1,
            SectorState::Orphan => self.freed += 1,
            SectorState::Free => {}
        }
    }
}

/// The counts of data sectors that are these.
pub fn tally_sectors(sector_states: &[SectorState]) -> Tally
    requires few { length sector_states.now + 1 < 2 ^ 32 }
    ensures tally { IsTally sector_states.now result }
    ensures tallies { (d : List Sector) → AreSectorStates d sector_states.now → Tallies d result }
    ensures within { result.files + result.pages + result.freed ≤ length sector_states.now }
{
    let mut tally = Tally {
        files: 0,
        pages: 0,
        freed: 0,
    };
    for i in 0..sector_states.len() {
        tally.count(sector_states[i]);
    }
    tally
}

// The lost sectors, ascending; the first of them all is sector `first`.
pub(crate) fn lost_sectors<A: Allocator>(
    alloc: A,
    first: u32,
    sector_states: &[SectorState],
) -> Result<Vec<u32, A>, AllocError>
    requires few { first + length sector_states.now < 2 ^ 32 }
    ensures { IfOk result (λ lost. lost.items ≡ places_by is_lost first sector_states.now) }
{
    let mut lost = Vec::new(alloc);
    for i in 0..sector_states.len() {
        if sector_states[i].is_lost() {
            lost.push(first + i as u32)?;
        }
    }
    Ok(lost)
}
