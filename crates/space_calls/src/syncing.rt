//! What was written is on the medium.
ghost use Rattle.std.specs.Prelude.{◌≡◌, ◌≤◌, true, OnOk};
ghost use Rattle.labelled_disk.specs.declared.evidence.Halt.TheVariants as halt;
ghost use Rattle.fault_core.specs.Core.{state};
ghost use Rattle.space_calls.specs.Outcomes.{HaltsBy, WaitsFor};

use fault_core::Core;
use labelled_disk::{Disk, Halt};
use std::alloc::Allocator;

/// Waits until all that was written is on the medium.
pub fn sync<D: Disk, A: Allocator>(core: &mut Core<D, A>) -> Result<(), Halt>
    ensures synced { OnOk result ((state core.new).disk.synced ≡ true) }
    ensures waits { WaitsFor core.old core.new }
    ensures fails { HaltsBy (λ e. e ≡ halt.Disk) core.old core.new result }
    ensures cost { (state core.new).disk.transfers ≤ (state core.old).disk.transfers }
{
    let disk = core.filer.disk_over();
    match disk.sync() {
        Ok(()) => Ok(()),
        Err(_) => Err(Halt::Disk),
    }
}
