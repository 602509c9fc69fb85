//! A session is started over a root that was read before.
ghost use Rattle.std.specs.Prelude.{◌≡◌, ◌≤◌, true, List, Some, IfOk, IfErr};
ghost use Rattle.labelled_disk.specs.Root.{root_page};
ghost use Rattle.labelled_disk.specs.Sectors.{Sector};
ghost use Rattle.flat_machine.specs.Start.{start};
ghost use Rattle.volume_root.specs.RootPage.{IsValidRoot, root_in};
ghost use Rattle.volume_root.specs.Sound.{Sound};
ghost use Rattle.pilot_engine.specs.Opening.{IsBlank};
ghost use Rattle.filer_kernel.specs.View.{disk_of, view_of};
ghost use Rattle.pilot_engine.specs.Starting.{FailsFromRoot, LeavesFromRoot, StartsAs};
ghost use Rattle.pilot_engine.specs.Referring.{TakesCalls};

use crate::start::begin;
use crate::{Session, StartFault};
use fault_core::Core;
use filer_kernel::Filer;
use labelled_disk::{Disk, Layout};
use std::alloc::Allocator;
use swapper_kernel::Swapper;
use volume_root::Root;

// Takes the memory of so many frames over the disk of a volume with this root.
fn filer_over<D: Disk, A: Allocator>(
    alloc: A,
    disk: D,
    root: Root,
    frames: u32,
) -> Result<(Filer<D, A>, Layout), D>
    requires least { 24 ≤ frames }
    requires most { frames ≤ 4096 }
    requires valid { IsValidRoot (D.state disk).sectors root }
    ensures blank { IfOk result (λ r. IsBlank r.0 r.1) }
    ensures valid { IfOk result (λ r. IsValidRoot (view_of r.0).layout.sectors root) }
    ensures over { IfOk result (λ r. (disk_of r.0) ≡ disk) }
    ensures back { IfErr result (λ e. e ≡ disk) }
{
    let layout = match Layout::of(root.sectors) {
        Ok(layout) => layout,
        Err(_) => return Err(disk),
    };
    match Swapper::over(alloc, disk, layout, frames) {
        Ok(swapper) => Ok((Filer::over(swapper), layout)),
        Err((_, disk)) => Err(disk),
    }
}

impl<D: Disk, A: Allocator> Session<D, A> {
    /// Starts a session on the volume of a disk, whose root was read before and is that of a volume that was closed. This takes
    /// all the memory of the frames. The disk is handed back where no session starts.
    pub fn with_root(
        alloc: A,
        disk: D,
        root: Root,
        frames: u32,
    ) -> Result<Session<D, A>, (StartFault, D)>
        requires least { 24 ≤ frames }
        requires most { frames ≤ 4096 }
        requires valid { IsValidRoot (D.state disk).sectors root }
        requires read { (d : List Sector) → (D.state disk).contents ≡ Some d → root ≡ root_in (root_page d) }
        ensures machine { (d : List Sector) → (D.state disk).contents ≡ Some d → Sound d → StartsAs (start d) result }
        ensures takes { IfOk result TakesCalls }
        ensures fails { FailsFromRoot disk result }
        ensures leaves { LeavesFromRoot (D.state disk) result }
    {
        let (mut filer, layout) = match filer_over(alloc, disk, root, frames) {
            Ok(opened) => opened,
            Err(disk) => return Err((StartFault::NoMemory, disk)),
        };
        match begin(&mut filer, layout, root) {
            Ok(volume) => Ok(Session {
                core: Core::over(filer, 1),
                volume,
                running: true,
            }),
            Err(halt) => Err((StartFault::Halt(halt), filer.into_disk())),
        }
    }
}
