//! The root of an old volume, which is one of version 1 or 2, as it is read.
ghost use Rattle.std.specs.Prelude.{◌≡◌, ℕ, List, Some, Err, length, slice_get, IfOk};
ghost use Rattle.labelled_disk.specs.Calls.{OnlyReads, ReadsAtMost, Rose};
ghost use Rattle.labelled_disk.specs.Sectors.{Sector};
ghost use Rattle.volume_root.specs.OldRoot.{is_old_version, judged_old, IsOldCount, IsValidOldRoot};
ghost use Rattle.volume_root.specs.RootPage.{IsUnlessFault};

use crate::page::short_at;
use crate::read::judge;
use crate::{Layout, Root, RootFault};
use labelled_disk::{Disk, PAGE_BYTES};

/// An old volume has no more sectors.
const OLD_SECTORS: u32 = 65_536;

fn is_old_version(page: &[u8]) -> Option<RootFault>
    requires { length page.now ≡ 512 }
    ensures { result ≡ is_old_version page.now }
{
    let version = short_at(page, 8);
    (version != 1 && version != 2).then_some(RootFault::Version(version))
}

/// Reads the root of an old volume, closed or not, and tests it in the order of `read_root`.
pub fn read_old_root<D: Disk>(disk: &mut D) -> Result<Root, RootFault>
    ensures count { ¬ IsOldCount (D.state disk.old).sectors
        → result ≡ Err (RootFault.BadCount (D.state disk.old).sectors) }
    ensures bad_count { (n : ℕ) → result ≡ Err (RootFault.BadCount n)
        → ¬ IsOldCount (D.state disk.old).sectors × (n ≡ (D.state disk.old).sectors) }
    ensures judged { IsOldCount (D.state disk.old).sectors → (d : List Sector)
        → (D.state disk.old).contents ≡ Some d → (s : Sector) → slice_get d 0 ≡ Some s
        → IsUnlessFault result (judged_old (length d) s) }
    ensures valid { IfOk result (IsValidOldRoot (D.state disk.old).sectors) }
    ensures cause { result ≡ Err RootFault.Disk
        → Rose (D.state disk.old).faults (D.state disk.new).faults }
    ensures only_reads { OnlyReads (D.state disk.old) (D.state disk.new) }
    ensures at_most { ReadsAtMost 1 (D.state disk.old) (D.state disk.new) }
{
    let sectors = disk.sectors();
    let _layout = Layout::of(sectors)?;
    if sectors > OLD_SECTORS {
        return Err(RootFault::BadCount(sectors));
    }
    let mut page = [0; PAGE_BYTES];
    let Ok(label) = disk.read(0, &mut page) else {
        return Err(RootFault::Disk);
    };
    judge(is_old_version(&page), false, sectors, &label, &page)
}
