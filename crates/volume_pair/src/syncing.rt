//! Waiting for the medium.
ghost use Rattle.std.specs.Prelude.{◌≡◌, true, IfErr, OnOk};
ghost use Rattle.labelled_disk.specs.declared.evidence.Halt.TheVariants as halt;
ghost use Rattle.labelled_disk.specs.Calls.{RevealsSame};
ghost use Rattle.label_calls.specs.Synced.{SyncedThere};
ghost use Rattle.filer_kernel.specs.View.{SwapsOnly, view_of};
ghost use Rattle.file_manager.specs.Stays.{FramesStay};
ghost use Rattle.volume_pair.specs.Sides.{ShowsWhy};

use filer_kernel::Filer;
use labelled_disk::{Disk, Halt};
use std::alloc::Allocator;

// Waits until all that was written is on the medium.
pub(crate) fn sync_disk<D: Disk, A: Allocator>(filer: &mut Filer<D, A>) -> Result<(), Halt>
    ensures synced { OnOk result ((view_of filer.new).disk.synced ≡ true) }
    ensures there { OnOk result (SyncedThere (view_of filer.old).disk (view_of filer.new).disk) }
    ensures same { RevealsSame (view_of filer.old).disk (view_of filer.new).disk }
    ensures swaps { SwapsOnly (view_of filer.old) (view_of filer.new) }
    ensures stays { FramesStay (view_of filer.old) (view_of filer.new) }
    ensures fault { IfErr result (λ e. e ≡ halt.Disk) }
    ensures cost { (view_of filer.new).disk.transfers ≡ (view_of filer.old).disk.transfers }
    ensures why { IfErr result (ShowsWhy (view_of filer.old) (view_of filer.new)) }
{
    let disk = filer.disk_over();
    match disk.sync() {
        Ok(()) => Ok(()),
        Err(_) => Err(Halt::Disk),
    }
}
