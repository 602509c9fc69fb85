//! The labels of all data sectors, read one by one.
ghost use Rattle.std.specs.Prelude.{◌≡◌, ◌-◌, List, length, map, IfOk, Some, Err};
ghost use Rattle.labelled_disk.specs.Calls.{ReadsAtMost, Rose};
ghost use Rattle.labelled_disk.specs.Layout.{IsCount, layout_of, first_data, data_sectors};
ghost use Rattle.labelled_disk.specs.Sectors.{Sector};

use labelled_disk::{Disk, Label, Layout, PAGE_BYTES};
use std::alloc::Allocator;
use thiserror::Error;

/// Why the labels are not there.
#[derive(Clone, Copy, Debug, PartialEq, Eq, Error)]
pub enum SurveyFault {
    #[error("the disk failed")]
    Disk,
    #[error("there is no memory left")]
    NoMemory,
}

/// The labels of the data sectors, ascending. The memory is taken before the first is read: 16 bytes
/// for each.
pub fn read_labels<A: Allocator, D: Disk>(
    alloc: A,
    disk: &mut D,
    layout: &Layout,
) -> Result<Vec<Label, A>, SurveyFault>
    requires counted { IsCount (D.state disk.old).sectors }
    requires layout { layout.now ≡ layout_of (D.state disk.old).sectors }
    ensures labels { IfOk result (λ labels. (d : List Sector) → (D.state disk.old).contents ≡ Some d
        → labels.items ≡ map (λ s. s.0) (data_sectors d)) }
    ensures all { IfOk result (λ labels. length labels.items
        ≡ (D.state disk.old).sectors - first_data (D.state disk.old).sectors) }
    ensures cause { result ≡ Err SurveyFault.Disk
        → Rose (D.state disk.old).faults (D.state disk.new).faults }
    ensures unread { result ≡ Err SurveyFault.NoMemory → D.state disk.new ≡ D.state disk.old }
    ensures cost { ReadsAtMost ((D.state disk.old).sectors - first_data (D.state disk.old).sectors)
        (D.state disk.old) (D.state disk.new) }
{
    let count = layout.sectors - layout.first;
    let Ok(mut labels) = Vec::with_capacity(alloc, count as usize) else {
        return Err(SurveyFault::NoMemory);
    };
    let mut page = [0; PAGE_BYTES];
    for sector in layout.first..layout.sectors {
        let Ok(label) = disk.read(sector, &mut page) else {
            return Err(SurveyFault::Disk);
        };
        let Ok(()) = labels.push(label) else {
            return Err(SurveyFault::NoMemory);
        };
    }
    Ok(labels)
}
