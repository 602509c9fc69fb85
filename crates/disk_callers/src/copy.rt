//! A page copied from one sector of a disk to another.
ghost use Rattle.std.specs.Prelude.{◌≡◌, ◌<◌, ◌≤◌, ◌+◌, ◌⊎◌, OnOk, true, false};
ghost use Rattle.labelled_disk.specs.Calls.{OnFailed, OnWrong, Rose, RevealsSame};
ghost use Rattle.labelled_disk.specs.Label.{names};
ghost use Rattle.labelled_disk.specs.State.{HasLabel, NamesThere};
ghost use Rattle.disk_callers.specs.Copies.{RevealsCopy};

use labelled_disk::{Disk, DiskError, PAGE_BYTES, Wanted};

/// Copies the page of sector `from` to sector `to`, whose label names the wanted page and stays.
/// Two sectors are moved at most.
pub fn copy_page<D: Disk>(disk: &mut D, from: u32, to: u32, wanted: Wanted) -> Result<(), DiskError>
    requires exist { (from < (D.state disk.old).sectors) × (to < (D.state disk.old).sectors) }
    ensures copied { OnOk result (RevealsCopy from to wanted (D.state disk.old) (D.state disk.new)) }
    ensures named { OnOk result (NamesThere (D.state disk.old) to wanted true) }

    // Another label stands there.
    ensures wrong { OnWrong result (λ found. names found wanted ≡ false) }
    ensures there { OnWrong result (λ found. HasLabel (D.state disk.old) to found) }
    ensures same { OnWrong result (λ found. RevealsSame (D.state disk.old) (D.state disk.new)) }

    // The disk failed.
    ensures whole_or_absent { OnFailed result (RevealsSame (D.state disk.old) (D.state disk.new)
        ⊎ RevealsCopy from to wanted (D.state disk.old) (D.state disk.new)) }
    ensures cause { OnFailed result (Rose (D.state disk.old).faults (D.state disk.new).faults) }

    ensures later { (D.state disk.old).faults ≤ (D.state disk.new).faults }
    ensures sectors { (D.state disk.new).sectors ≡ (D.state disk.old).sectors }
    ensures lent { (D.state disk.new).lent ≡ (D.state disk.old).lent }
    ensures cost { (D.state disk.new).transfers ≤ (D.state disk.old).transfers + 2 }
{
    let mut page = [0; PAGE_BYTES];
    disk.read(from, &mut page)?;
    disk.write_data(to, wanted, &page)
}
