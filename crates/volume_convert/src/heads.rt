//! The files of an old volume, by what their page 0 says.
ghost use Rattle.std.specs.Prelude.{◌≡◌, length, IfOk};
ghost use Rattle.std.specs.List.Sorted.{IsPermutation};
ghost use Rattle.label_survey.specs.Survey.{is_leader};
ghost use Rattle.volume_convert.specs.Heads.{head_of, leader_by, heads_from, AreHeads, AreHeadsUp};

use label_survey::SectorState;
use labelled_disk::{FileId, LEADER, Label, NoMemory};
use std::alloc::{AllocError, Allocator};

/// A file, by the label of its page 0. The order is that of the fields.
#[derive(Clone, Copy, Debug, PartialEq, Eq, PartialOrd, Ord)]
pub(crate) struct Head {
    pub id: FileId,
    pub kind: u16,
    pub flags: u8,
}

impl Head {
    fn of(label: &Label) -> Head
        ensures { result ≡ head_of label.now }
    {
        Head {
            id: label.id,
            kind: label.kind,
            flags: label.flags,
        }
    }

    /// The label of the file's leader.
    pub(crate) fn leader(&self) -> Label
        ensures { result ≡ leader_by self.now }
    {
        Label {
            id: self.id,
            page: LEADER,
            kind: self.kind,
            flags: self.flags,
            last: 0,
        }
    }
}

fn is_leader(sector_state: SectorState) -> bool
    ensures { result ≡ is_leader sector_state }
{
    match sector_state {
        SectorState::Leader => true,
        SectorState::Page => false,
        SectorState::Free => false,
        SectorState::Lost => false,
        SectorState::Orphan => false,
    }
}

fn collect_heads<A: Allocator>(
    alloc: A,
    labels: &[Label],
    sector_states: &[SectorState],
    count: usize,
) -> Result<Vec<Head, A>, AllocError>
    requires same_length { length sector_states.now ≡ length labels.now }
    ensures { IfOk result (λ heads. heads.items ≡ heads_from labels.now sector_states.now) }
{
    let mut heads = Vec::with_capacity(alloc, count)?;
    for i in 0..labels.len() {
        if is_leader(sector_states[i]) {
            heads.push(Head::of(&labels[i]))?;
        }
    }
    Ok(heads)
}

fn sort_heads(heads: &mut [Head])
    ensures order { AreHeadsUp heads.new }
    ensures same { IsPermutation heads.old heads.new }
{
    heads.sort_unstable();
}

/// The files, of which there are so many, in ascending identifiers: 16 bytes for each.
pub(crate) fn heads_of<A: Allocator>(
    alloc: A,
    labels: &[Label],
    sector_states: &[SectorState],
    count: usize,
) -> Result<Vec<Head, A>, NoMemory>
    requires same_length { length sector_states.now ≡ length labels.now }
    ensures { IfOk result (λ heads. AreHeads labels.now sector_states.now heads.items) }
{
    let mut heads = collect_heads(alloc, labels, sector_states, count)?;
    sort_heads(&mut heads);
    Ok(heads)
}
