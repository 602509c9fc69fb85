//! Old labels, read as those of today: page 0 stands where the leader does, and each page where
//! the one before does.
ghost use Rattle.std.specs.Prelude.{◌≡◌, ◌<◌, ◌^◌, List, length, map, IfOk};
ghost use Rattle.labelled_disk.specs.Layout.{data_sectors};
ghost use Rattle.labelled_disk.specs.Sectors.{Sector};
ghost use Rattle.label_survey.specs.SectorStates.{AreSectorStates};
ghost use Rattle.old_files.specs.Reread.{all_reread, label_before, page_before};

use label_survey::{SectorState, find_sector_states};
use labelled_disk::{LEADER, Label, NoMemory};
use std::alloc::{AllocError, Allocator};

fn page_before(page: u32) -> u32
    ensures { result ≡ page_before page }
{
    if page == 0 {
        return LEADER;
    }
    page - 1
}

fn label_before(label: &Label) -> Label
    ensures { result ≡ label_before label.now }
{
    Label {
        page: page_before(label.page),
        ..*label
    }
}

fn step_back(labels: &mut [Label])
    ensures { labels.new ≡ map label_before labels.old }
{
    for i in 0..labels.len() {
        labels[i] = label_before(&labels[i]);
    }
}

fn reread_labels<A: Allocator>(alloc: A, labels: &[Label]) -> Result<Vec<Label, A>, AllocError>
    ensures { IfOk result (λ reread. reread.items ≡ map label_before labels.now) }
{
    let mut reread = labels.to_vec(alloc)?;
    step_back(&mut reread);
    Ok(reread)
}

/// What each data sector of an old volume is, by the labels of them all: page 0 of a file is revealed
/// as its leader.
pub(crate) fn find_old_sector_states<A: Allocator + Clone>(
    alloc: A,
    labels: &[Label],
) -> Result<Vec<SectorState, A>, NoMemory>
    requires few { length labels.now < 2 ^ 32 }
    ensures sector_states { IfOk result (λ sector_states. (d : List Sector)
        → labels.now ≡ map (λ s. s.0) (data_sectors d)
        → AreSectorStates (all_reread d) sector_states.items) }
    ensures len { IfOk result (λ sector_states. length sector_states.items ≡ length labels.now) }
{
    let reread = reread_labels(alloc.clone()?, labels)?;
    find_sector_states(alloc, &reread)
}
