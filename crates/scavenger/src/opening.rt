//! The root of a volume that is restored, as it is read.
ghost use Rattle.std.specs.Prelude.{◌≡◌, List, Some, Err, length, slice_get, IfOk};
ghost use Rattle.labelled_disk.specs.Calls.{ReadsAtMost, Rose};
ghost use Rattle.labelled_disk.specs.Root.{IsRoot, root_page};
ghost use Rattle.labelled_disk.specs.Sectors.{Sector};
ghost use Rattle.volume_root.specs.RootPage.{root_in, IsValidRoot};
ghost use Rattle.scavenger.specs.Opening.{JudgesRoot};

use crate::ScavengeFault;
use labelled_disk::Disk;
use volume_root::{Root, RootFault, read_root};

// The root, whether the volume was closed or not.
pub(crate) fn read_any_root<D: Disk>(disk: &mut D) -> Result<Root, ScavengeFault>
    ensures judged { JudgesRoot (D.state disk.old) result }
    ensures root { (g : List Sector) → (D.state disk.old).contents ≡ Some g
        → IfOk result (λ root. (root ≡ root_in (root_page g)) × IsRoot (length g) (slice_get g 0)) }
    ensures valid { IfOk result (IsValidRoot (D.state disk.old).sectors) }
    ensures memory { ¬ (result ≡ Err ScavengeFault.NoMemory) }
    ensures cause { result ≡ Err ScavengeFault.Disk
        → Rose (D.state disk.old).faults (D.state disk.new).faults }
    ensures cost { ReadsAtMost 1 (D.state disk.old) (D.state disk.new) }
{
    match read_root(disk, false) {
        Ok(root) => Ok(root),
        Err(why) => match why {
            RootFault::Disk => Err(ScavengeFault::Disk),
            _ => Err(ScavengeFault::Root(why)),
        },
    }
}
