//! Labels and sector states once all that is not kept is free, and each leader stands in the lowest
//! free sector.
ghost use Rattle.std.specs.Prelude.{◌≡◌, ◌<◌, ◌^◌, length, option_map, IfOk};
ghost use Rattle.volume_convert.specs.Heads.{leader_by, leaders_by};
ghost use Rattle.volume_convert.specs.Settled.{settled_label, settled_labels, settled_sector_state, settled_sector_states};

use crate::heads::Head;
use label_survey::SectorState;
use labelled_disk::Label;
use std::alloc::{AllocError, Allocator};

// The label that a sector gets, if there is a file left for it.
fn settled_label(head: Option<&Head>, sector_state: SectorState, label: &Label) -> Label
    ensures { result ≡ settled_label (option_map (λ h. leader_by h.now) head.entry) sector_state label.now }
{
    if sector_state.is_kept() {
        return *label;
    }
    if let Some(head) = head {
        return head.leader();
    }
    if sector_state.is_freed() {
        return Label::FREE;
    }
    *label
}

/// The labels as they will be, in the place of these.
pub(crate) fn arrange_labels(labels: &mut [Label], sector_states: &[SectorState], heads: &[Head])
    requires same_length { length sector_states.now ≡ length labels.old }
    requires few { length labels.old < 2 ^ 32 }
    ensures { labels.new ≡ settled_labels labels.old sector_states.now (leaders_by heads.now) }
{
    let mut gaps = 0;
    for i in 0..labels.len() {
        labels[i] = settled_label(heads.get(gaps), sector_states[i], &labels[i]);
        if !sector_states[i].is_kept() {
            gaps += 1;
        }
    }
}

fn settled_sector_state(led: bool, sector_state: SectorState) -> SectorState
    ensures { result ≡ settled_sector_state led sector_state }
{
    if sector_state.is_kept() {
        return SectorState::Page;
    }
    if led {
        return SectorState::Leader;
    }
    SectorState::Free
}

// What the sectors will be, in the place of these, where there are so many files.
fn arrange_sector_states(sector_states: &mut [SectorState], count: usize)
    requires few { length sector_states.old < 2 ^ 32 }
    ensures { sector_states.new ≡ settled_sector_states sector_states.old count }
{
    let mut gaps = 0;
    for i in 0..sector_states.len() {
        let sector_state = sector_states[i];
        sector_states[i] = settled_sector_state(gaps < count, sector_state);
        if !sector_state.is_kept() {
            gaps += 1;
        }
    }
}

/// What each data sector is, where there are so many files.
pub(crate) fn settled_sector_states<A: Allocator>(
    alloc: A,
    sector_states: &[SectorState],
    count: usize,
) -> Result<Vec<SectorState, A>, AllocError>
    requires few { length sector_states.now < 2 ^ 32 }
    ensures { IfOk result (λ settled. settled.items ≡ settled_sector_states sector_states.now count) }
{
    let mut settled = sector_states.to_vec(alloc)?;
    arrange_sector_states(&mut settled, count);
    Ok(settled)
}
