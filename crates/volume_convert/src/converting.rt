//! An old volume is brought to the version of today.
ghost use Rattle.std.specs.Prelude.{◌≡◌, ◌≢◌, ◌⊎◌, ◌-◌, ◌<◌, ℕ, List, Some, Err, true, IfOk, IfErr, OnOk};
ghost use Rattle.labelled_disk.specs.Calls.{OnlyReads, ReadsAtMost, Rose};
ghost use Rattle.labelled_disk.specs.Layout.{layout_of, first_data};
ghost use Rattle.labelled_disk.specs.Root.{root_page};
ghost use Rattle.labelled_disk.specs.Sectors.{Sector};
ghost use Rattle.volume_root.specs.Later.{IsLater};
ghost use Rattle.volume_root.specs.OldRoot.{IsValidOldRoot};
ghost use Rattle.volume_root.specs.RootPage.{root_in};
ghost use Rattle.scavenger.specs.Carries.{Carries};
ghost use Rattle.volume_convert.specs.Answers.{JudgesRoom, JudgesRoot, LeavesOthers, Refuses};
ghost use Rattle.volume_convert.specs.Leaves.{AreMade, ArePartMade, CostsAtMost, IsConverted, IsRevealed, StaysConvertible};
ghost use Rattle.volume_convert.specs.Planned.{all_writes, IsFit, IsPlannedFor};

use crate::ConvertFault;
use crate::plan::Conversion;
use convert_laws::conversions_convert;
use label_survey::{SurveyFault, read_labels};
use labelled_disk::{Disk, Layout};
use scavenger::scavenging_restores;
use std::alloc::Allocator;
use volume_root::{Root, RootFault, read_old_root};

/// What a conversion found on an old volume.
#[derive(Clone, Copy, Debug, PartialEq, Eq)]
pub struct Converted {
    /// The permanent files, which stay.
    pub files: u32,
    /// Their pages, page 0 of each among them.
    pub pages: u32,
    /// The sectors that were freed.
    pub freed: u32,
}

// The root of an old volume, whether it was closed or not.
fn read_any_old_root<D: Disk>(disk: &mut D) -> Result<Root, ConvertFault>
    ensures judged { JudgesRoot (D.state disk.old) result }
    ensures root { (d : List Sector) → (D.state disk.old).contents ≡ Some d
        → IfOk result (λ root. root ≡ root_in (root_page d)) }
    ensures valid { IfOk result (IsValidOldRoot (D.state disk.old).sectors) }
    ensures err { IfErr result (λ why. (why ≡ ConvertFault.Disk)
        ⊎ ((fault : RootFault) × (why ≡ ConvertFault.Root fault))) }
    ensures cause { result ≡ Err ConvertFault.Disk
        → Rose (D.state disk.old).faults (D.state disk.new).faults }
    ensures cost { ReadsAtMost 1 (D.state disk.old) (D.state disk.new) }
{
    match read_old_root(disk) {
        Ok(root) => Ok(root),
        Err(why) => match why {
            RootFault::Disk => Err(ConvertFault::Disk),
            _ => Err(ConvertFault::Root(why)),
        },
    }
}

// Reads all labels, and plans.
fn make_plan<A: Allocator + Clone, D: Disk>(
    alloc: A,
    disk: &mut D,
    layout: &Layout,
    root: &Root,
) -> Result<Conversion<A>, ConvertFault>
    requires layout { layout.now ≡ layout_of (D.state disk.old).sectors }
    requires valid { IsValidOldRoot (D.state disk.old).sectors root.now }
    ensures fit { IfOk result (IsFit (D.state disk.old).sectors root.now) }
    ensures planned { IfOk result (λ conversion. (d : List Sector)
        → (D.state disk.old).contents ≡ Some d → root.now ≡ root_in (root_page d)
        → IsPlannedFor d root.now layout.now.first conversion) }
    ensures room { JudgesRoom (D.state disk.old) result }
    ensures err { IfErr result (λ why. (why ≡ ConvertFault.Disk) ⊎ (why ≡ ConvertFault.NoMemory)
        ⊎ ((wanted room : ℕ) × (why ≡ ConvertFault.Unfit wanted room))) }
    ensures cause { result ≡ Err ConvertFault.Disk
        → Rose (D.state disk.old).faults (D.state disk.new).faults }
    ensures cost { ReadsAtMost ((D.state disk.old).sectors - first_data (D.state disk.old).sectors)
        (D.state disk.old) (D.state disk.new) }
{
    let Ok(own) = alloc.clone() else {
        return Err(ConvertFault::NoMemory);
    };
    let labels = match read_labels(own, disk, layout) {
        Ok(labels) => labels,
        Err(SurveyFault::Disk) => return Err(ConvertFault::Disk),
        Err(SurveyFault::NoMemory) => return Err(ConvertFault::NoMemory),
    };
    Conversion::of(alloc, layout, root, labels)
}

// Carries it out, and waits until all is on the medium.
fn finish<A: Allocator + Clone, D: Disk>(
    conversion: Conversion<A>,
    disk: &mut D,
    layout: &Layout,
    root: &Root,
) -> Result<(), ConvertFault>
    requires layout { layout.now ≡ layout_of (D.state disk.old).sectors }
    requires valid { IsValidOldRoot (D.state disk.old).sectors root.now }
    requires fit { IsFit (D.state disk.old).sectors root.now conversion }
    ensures carries { Carries (all_writes root.now layout.now.first conversion)
        (D.state disk.old) result (D.state disk.new) }
    ensures synced { OnOk result ((D.state disk.new).synced ≡ true) }
    ensures err { IfErr result (λ why. why ≡ ConvertFault.Disk) }
{
    let Ok(()) = conversion.carry_out(disk, layout, root) else {
        return Err(ConvertFault::Disk);
    };
    let Ok(()) = disk.sync() else {
        return Err(ConvertFault::Disk);
    };
    Ok(())
}

/// Brings a volume of version 1 or 2 to version 3, whatever stands in its maps. The permanent files
/// stay as they are; each other data sector is freed, and each file gets a leader.
///
/// All labels are read, and all that is written is made in memory, before the first write. Then each
/// freed sector, ascending, gets a free label; each leader, files in ascending identifiers, the lowest free
/// sector; each sector of both maps its label and its new page; and the root comes last, clean and of
/// version 3. A volume that was left in between is still an old one with the same files: it is
/// converted again.
pub fn convert<A: Allocator + Clone, D: Disk>(
    alloc: A,
    disk: &mut D,
) -> Result<Converted, ConvertFault>
    // What it leaves, and what is revealed of it.
    ensures converted { OnOk result (IsConverted (D.state disk.old) (D.state disk.new)) }
    ensures revealed { IfOk result (λ revealed. (d : List Sector) → (D.state disk.old).contents ≡ Some d
        → IsRevealed d revealed) }
    ensures synced { OnOk result ((D.state disk.new).synced ≡ true) }

    // The writes: all of them, or where the disk failed none or some first ones; and what stands
    // after each of them, whatever it answers.
    ensures made { OnOk result (AreMade (D.state disk.old) (D.state disk.new)) }
    ensures part { result ≡ Err ConvertFault.Disk
        → ArePartMade (D.state disk.old) (D.state disk.new) }
    ensures crash_states { StaysConvertible (D.state disk.old) (D.state disk.new) }

    // The root is refused, or the files have no room; nothing is written but where it answers Ok or
    // the disk failed.
    ensures refuses { Refuses (D.state disk.old) (D.state disk.new) result }
    ensures others { LeavesOthers (D.state disk.old) (D.state disk.new) }

    ensures cause { result ≡ Err ConvertFault.Disk
        → Rose (D.state disk.old).faults (D.state disk.new).faults }
    ensures later { IsLater (D.state disk.old) (D.state disk.new) }
    ensures cost { CostsAtMost (D.state disk.old) (D.state disk.new) }
{
    scavenging_restores();
    conversions_convert();
    let root = read_any_old_root(disk)?;
    let Ok(layout) = Layout::of(root.sectors) else {
        unreachable!();
    };
    let conversion = make_plan(alloc, disk, &layout, &root)?;
    let revealed = conversion.revealed;
    finish(conversion, disk, &layout, &root)?;
    Ok(revealed)
}
