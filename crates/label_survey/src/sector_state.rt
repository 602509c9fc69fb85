//! What a data sector is.
ghost use Rattle.std.specs.Prelude.{◌≡◌, map, IfOk};
ghost use Rattle.label_survey.specs.SectorStates.{unclaimed};
ghost use Rattle.label_survey.specs.Survey.{is_kept, is_lost, is_freed};

use labelled_disk::Label;
use std::alloc::{AllocError, Allocator};

/// What the labels of a disk make of a data sector.
#[derive(Clone, Copy, Debug, PartialEq, Eq)]
pub enum SectorState {
    /// No file has it.
    Free,
    /// Its label is not free, and is not of a permanent file.
    Orphan,
    /// Its label is of a permanent file, which doesn't need it.
    Lost,
    /// It is the leader of a permanent file.
    Leader,
    /// It is a page of a permanent file.
    Page,
}

impl SectorState {
    /// Whether a permanent file needs the sector.
    pub fn is_kept(self) -> bool
        ensures { result ≡ is_kept self }
    {
        match self {
            SectorState::Leader => true,
            SectorState::Page => true,
            SectorState::Free => false,
            SectorState::Lost => false,
            SectorState::Orphan => false,
        }
    }

    /// Whether a permanent file has the sector in vain.
    pub fn is_lost(self) -> bool
        ensures { result ≡ is_lost self }
    {
        match self {
            SectorState::Leader => false,
            SectorState::Page => false,
            SectorState::Free => false,
            SectorState::Lost => true,
            SectorState::Orphan => false,
        }
    }

    /// Whether the sector is neither free nor needed.
    pub fn is_freed(self) -> bool
        ensures { result ≡ is_freed self }
    {
        match self {
            SectorState::Leader => false,
            SectorState::Page => false,
            SectorState::Free => false,
            SectorState::Lost => true,
            SectorState::Orphan => true,
        }
    }
}

fn unclaimed(label: &Label) -> SectorState
    ensures { result ≡ unclaimed label.now }
{
    if label.is_free() {
        SectorState::Free
    } else {
        SectorState::Orphan
    }
}

// What each label says alone.
pub(crate) fn unclaimed_sectors<A: Allocator>(
    alloc: A,
    labels: &[Label],
) -> Result<Vec<SectorState, A>, AllocError>
    ensures { IfOk result (λ sector_states. sector_states.items ≡ map unclaimed labels.now) }
{
    let mut sector_states = Vec::with_capacity(alloc, labels.len())?;
    for i in 0..labels.len() {
        sector_states.push(unclaimed(&labels[i]))?;
    }
    Ok(sector_states)
}
