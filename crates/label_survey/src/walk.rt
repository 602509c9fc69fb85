//! One walk over the entries in order reveals what each data sector is.
ghost use Rattle.std.specs.Prelude.{◌≡◌, ◌<◌, ◌≤◌, ◌^◌, ℕ, List, length, map, slice_get, Some, IfOk};
ghost use Rattle.labelled_disk.specs.Layout.{data_sectors};
ghost use Rattle.labelled_disk.specs.Sectors.{Sector};
ghost use Rattle.label_survey.specs.Entries.{AreInOrder, AreOf};
ghost use Rattle.label_survey.specs.Progress.{TakesNext};
ghost use Rattle.label_survey.specs.SectorStates.{AreSectorStates, unclaimed};

use crate::entries::{Entry, TEMPORARY, entries_in_order};
use crate::sector_state::{SectorState, unclaimed_sectors};
use labelled_disk::{FileId, Label, NoMemory};
use std::alloc::Allocator;

// The last permanent file that the entries have come to, and the place that it misses so far.
#[derive(Clone, Copy)]
struct Progress {
    id: FileId,
    next: u64,
}

impl Progress {
    // The next entry, in order.
    fn take(&mut self, entry: &Entry) -> SectorState
        requires bounded { self.old.next ≤ 2 ^ 32 }
        ensures next { TakesNext entry.now self.old result self.new }
        ensures bounded { self.new.next ≤ 2 ^ 32 }
    {
        if entry.id != self.id {
            if entry.place != 0 {
                return SectorState::Orphan;
            }
            *self = Progress {
                id: entry.id,
                next: 1,
            };
            return SectorState::Leader;
        }
        if entry.place != self.next || entry.place == TEMPORARY {
            return SectorState::Lost;
        }
        self.next += 1;
        SectorState::Page
    }
}

// Each entry reveals what its sector is.
fn claim_sectors(entries: &[Entry], sector_states: &mut [SectorState])
    requires within { (k : ℕ) (e : Entry) → slice_get entries.now k ≡ Some e
        → e.sector < length sector_states.old }
    requires order { AreInOrder entries.now }
    ensures claimed { (d : List Sector) → AreOf (map (λ s. s.0) (data_sectors d)) entries.now
        → sector_states.old ≡ map unclaimed (map (λ s. s.0) (data_sectors d))
        → AreSectorStates d sector_states.new }
    ensures len { length sector_states.new ≡ length sector_states.old }
{
    let mut progress = Progress { id: 0, next: 1 };
    for k in 0..entries.len() {
        let entry = &entries[k];
        sector_states[entry.sector as usize] = progress.take(entry);
    }
}

/// What each data sector is, by the labels of them all: one sort, and one walk. The memory beside
/// the answer is 24 bytes for each label, which are given back.
pub fn find_sector_states<A: Allocator + Clone>(
    alloc: A,
    labels: &[Label],
) -> Result<Vec<SectorState, A>, NoMemory>
    requires few { length labels.now < 2 ^ 32 }
    ensures sector_states { IfOk result (λ sector_states. (d : List Sector)
        → labels.now ≡ map (λ s. s.0) (data_sectors d) → AreSectorStates d sector_states.items) }
    ensures len { IfOk result (λ sector_states. length sector_states.items ≡ length labels.now) }
{
    let mut sector_states = unclaimed_sectors(alloc.clone()?, labels)?;
    let entries = entries_in_order(alloc, labels)?;
    claim_sectors(&entries, &mut sector_states);
    Ok(sector_states)
}
