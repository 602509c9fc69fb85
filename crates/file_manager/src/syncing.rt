//! What was written is on the medium.
ghost use Rattle.std.specs.Prelude.{◌≡◌, ◌≤◌, IfErr, OnOk};
ghost use Rattle.labelled_disk.specs.declared.evidence.Halt.TheVariants as halt;
ghost use Rattle.labelled_disk.specs.Calls.{Rose};
ghost use Rattle.file_map.specs.FileMap.{Triples};
ghost use Rattle.file_manager.specs.Reasons.{Keeps, InitialState};
ghost use Rattle.file_manager.specs.Synced.{SyncsQuietly};
ghost use Rattle.filer_kernel.specs.View.{view_of};
ghost use Rattle.file_manager.specs.Stays.{ReadsAlone};

use filer_kernel::Filer;
use label_calls::sync;
use labelled_disk::{Disk, Halt};
use std::alloc::Allocator;

// Waits until all that was written is on the medium.
pub(crate) fn sync_disk<D: Disk, A: Allocator>(filer: &mut Filer<D, A>) -> Result<(), Halt>
    ensures synced { OnOk result (SyncsQuietly (view_of filer.old).disk (view_of filer.new).disk) }
    ensures stays { ReadsAlone (view_of filer.old) (view_of filer.new) }
    ensures cause { IfErr result
        (λ e. (e ≡ halt.Disk) × Rose (view_of filer.old).disk.faults (view_of filer.new).disk.faults) }
    ensures keeps_to { (o : InitialState) (named : Triples) → Keeps o filer.old named → Keeps o filer.new named }
    ensures cost { (view_of filer.new).disk.transfers ≤ (view_of filer.old).disk.transfers }
{
    let swapper = filer.swapper_over();
    match sync(swapper) {
        Ok(()) => Ok(()),
        Err(halt) => Err(halt),
    }
}
