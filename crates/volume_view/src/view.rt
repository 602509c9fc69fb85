//! A look at a volume.
ghost use Rattle.std.specs.Prelude.{◌≡◌, ◌-◌, ℕ, false, List, Some, Err, length, map, slice_get, IfOk, IfErr};
ghost use Rattle.labelled_disk.specs.Calls.{OnlyReads, ReadsAtMost, Rose};
ghost use Rattle.labelled_disk.specs.Layout.{IsCount, layout_of, data_sectors, first_data};
ghost use Rattle.labelled_disk.specs.Sectors.{Sector};
ghost use Rattle.volume_root.specs.RootPage.{judged};
ghost use Rattle.volume_view.specs.Pages.{IsDiskOrMemory};
ghost use Rattle.volume_view.specs.View.{IsView};

use crate::LookFault;
use crate::bit_runs::BitRun;
use crate::bits::look_at_bits;
use crate::found::{Found, find_files};
use crate::names::{Names, look_at_names};
use label_survey::{SurveyFault, read_labels};
use labelled_disk::{Disk, Label, Layout};
use std::alloc::Allocator;
use volume_root::{Root, RootFault, read_root};

/// What a look finds.
#[derive(Drop)]
pub struct View<A: Allocator> {
    pub layout: Layout,
    /// The root, closed or not, or why there is none.
    pub root: Result<Root, RootFault>,
    /// The labels of the data sectors, ascending.
    pub labels: Vec<Label, A>,
    pub found: Found<A>,
    /// The sectors, ascending, of which the allocation map says something else than the labels.
    pub bits: Vec<BitRun, A>,
    pub names: Names<A>,
    /// The labels of both maps' sectors are those of their pages.
    pub maps_labelled: bool,
}

// The labels of the data sectors.
fn labels_of<A: Allocator, D: Disk>(
    alloc: A,
    disk: &mut D,
    layout: &Layout,
) -> Result<Vec<Label, A>, LookFault>
    requires counted { IsCount (D.state disk.old).sectors }
    requires layout { layout.now ≡ layout_of (D.state disk.old).sectors }
    ensures labels { IfOk result (λ labels. (d : List Sector) → (D.state disk.old).contents ≡ Some d
        → labels.items ≡ map (λ s. s.0) (data_sectors d)) }
    ensures all { IfOk result (λ labels. length labels.items
        ≡ (D.state disk.old).sectors - first_data (D.state disk.old).sectors) }
    ensures err { IfErr result IsDiskOrMemory }
    ensures cause { result ≡ Err LookFault.Disk
        → Rose (D.state disk.old).faults (D.state disk.new).faults }
    ensures cost { ReadsAtMost ((D.state disk.old).sectors - first_data (D.state disk.old).sectors)
        (D.state disk.old) (D.state disk.new) }
{
    match read_labels(alloc, disk, layout) {
        Ok(labels) => Ok(labels),
        Err(SurveyFault::Disk) => Err(LookFault::Disk),
        Err(SurveyFault::NoMemory) => Err(LookFault::NoMemory),
    }
}

// The root, closed or not.
fn root_of<D: Disk>(disk: &mut D) -> Result<Result<Root, RootFault>, LookFault>
    requires counted { IsCount (D.state disk.old).sectors }
    ensures root { IfOk result (λ root. (d : List Sector) → (D.state disk.old).contents ≡ Some d
        → (s : Sector) → slice_get d 0 ≡ Some s → root ≡ judged false (length d) s) }
    ensures err { IfErr result IsDiskOrMemory }
    ensures cause { result ≡ Err LookFault.Disk
        → Rose (D.state disk.old).faults (D.state disk.new).faults }
    ensures cost { ReadsAtMost 1 (D.state disk.old) (D.state disk.new) }
{
    match read_root(disk, false) {
        Ok(root) => Ok(Ok(root)),
        Err(why) => match why {
            RootFault::Disk => Err(LookFault::Disk),
            _ => Ok(Err(why)),
        },
    }
}

// Looks at a volume of this layout.
fn look_inside<A: Allocator + Clone, D: Disk>(
    alloc: A,
    disk: &mut D,
    layout: Layout,
) -> Result<View<A>, LookFault>
    requires counted { IsCount (D.state disk.old).sectors }
    requires layout { layout ≡ layout_of (D.state disk.old).sectors }
    ensures view { IfOk result (λ view. (d : List Sector) → (D.state disk.old).contents ≡ Some d
        → IsView d view) }
    ensures layout { IfOk result (λ view. view.layout ≡ layout) }
    ensures err { IfErr result IsDiskOrMemory }
    ensures cause { result ≡ Err LookFault.Disk
        → Rose (D.state disk.old).faults (D.state disk.new).faults }
    ensures cost { ReadsAtMost (D.state disk.old).sectors (D.state disk.old) (D.state disk.new) }
{
    let root = root_of(disk)?;
    let Ok(own) = alloc.clone() else {
        return Err(LookFault::NoMemory);
    };
    let labels = labels_of(own, disk, &layout)?;
    let Ok(own) = alloc.clone() else {
        return Err(LookFault::NoMemory);
    };
    let Ok(found) = find_files(own, layout.first, &labels) else {
        return Err(LookFault::NoMemory);
    };
    let Ok(own) = alloc.clone() else {
        return Err(LookFault::NoMemory);
    };
    let mut maps_labelled = true;
    let bits = look_at_bits(own, disk, &layout, &labels, &mut maps_labelled)?;
    let names = look_at_names(alloc, disk, &layout, &labels, &mut maps_labelled)?;
    Ok(View {
        layout,
        root,
        labels,
        found,
        bits,
        names,
        maps_labelled,
    })
}

/// Looks at a volume, sound or not, and writes nothing: each sector is read once at most. The
/// memory is taken as it is needed, at most some 250 bytes for each sector.
pub fn look<A: Allocator + Clone, D: Disk>(alloc: A, disk: &mut D) -> Result<View<A>, LookFault>
    ensures view { IfOk result (λ view. (d : List Sector) → (D.state disk.old).contents ≡ Some d
        → IsView d view) }
    ensures layout { IfOk result (λ view. view.layout ≡ layout_of (D.state disk.old).sectors) }
    ensures count { ¬ IsCount (D.state disk.old).sectors
        → result ≡ Err (LookFault.BadCount (D.state disk.old).sectors) }
    ensures bad_count { (n : ℕ) → result ≡ Err (LookFault.BadCount n)
        → ¬ IsCount (D.state disk.old).sectors × (n ≡ (D.state disk.old).sectors) }
    ensures cause { result ≡ Err LookFault.Disk
        → Rose (D.state disk.old).faults (D.state disk.new).faults }
    ensures unwritten { OnlyReads (D.state disk.old) (D.state disk.new) }
    ensures cost { ReadsAtMost (D.state disk.old).sectors (D.state disk.old) (D.state disk.new) }
{
    let Ok(layout) = Layout::of(disk.sectors()) else {
        return Err(LookFault::BadCount(disk.sectors()));
    };
    look_inside(alloc, disk, layout)
}
