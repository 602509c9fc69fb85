//! A session is started on a volume that is made for it.
ghost use Rattle.std.specs.Prelude.{◌≡◌, ◌≤◌, List, Some, true, length, IfOk, IfErr, OnOk, OnErr};
ghost use Rattle.labelled_disk.specs.declared.evidence.Halt.TheVariants as halt;
ghost use Rattle.labelled_disk.specs.Calls.{Rose};
ghost use Rattle.labelled_disk.specs.Layout.{IsCount};
ghost use Rattle.labelled_disk.specs.Sectors.{Sector};
ghost use Rattle.volume_root.specs.Format.{new_root};
ghost use Rattle.volume_root.specs.Later.{IsLater};
ghost use Rattle.pilot_engine.specs.Fresh.{BeganVolume, HasFreshCause, IsFreshFault, MadeVolume};
ghost use Rattle.pilot_engine.specs.Opening.{IsEarly, IsBlank};
ghost use Rattle.filer_kernel.specs.View.{disk_of, view_of};
ghost use Rattle.file_manager.specs.Stays.{FramesStay};
ghost use Rattle.pilot_engine.specs.Starting.{FailsAtStart, StartsNew, StartsWith, RefusesNew, WritesNewVolume};

use crate::start::begin;
use crate::{Session, StartFault};
use fault_core::Core;
use filer_kernel::Filer;
use labelled_disk::{Disk, Halt, Layout, RootFault};
use std::alloc::Allocator;
use swapper_kernel::Swapper;
use volume_root::{Root, format};

// Takes the memory of so many frames over a disk that a volume can be made on.
fn frames_for<D: Disk, A: Allocator>(
    alloc: A,
    disk: D,
    frames: u32,
) -> Result<(Filer<D, A>, Layout), (StartFault, D)>
    requires least { 24 ≤ frames }
    requires most { frames ≤ 4096 }
    ensures count { IfOk result (λ r. IsCount (D.state disk).sectors) }
    ensures blank { IfOk result (λ r. IsBlank r.0 r.1) }
    ensures disk { IfOk result (λ r. (disk_of r.0) ≡ disk) }
    ensures frames { IfOk result (λ r. length (view_of r.0).slots ≡ frames) }
    ensures refused { IfErr result (λ e. IsFreshFault (D.state disk).sectors e.0 × IsEarly e.0) }
    ensures back { IfErr result (λ e. e.1 ≡ disk) }
{
    let layout = match Layout::of(disk.sectors()) {
        Ok(layout) => layout,
        Err(why) => return Err((StartFault::Root(why), disk)),
    };
    match Swapper::over(alloc, disk, layout, frames) {
        Ok(swapper) => Ok((Filer::over(swapper), layout)),
        Err((_, disk)) => Err((StartFault::NoMemory, disk)),
    }
}

// Makes a volume of all sectors of the disk, with serial 1 and counter 1, and gives its root. No frame is over a sector.
fn make_volume<D: Disk, A: Allocator>(filer: &mut Filer<D, A>) -> Result<Root, Halt>
    requires count { IsCount (view_of filer.old).disk.sectors }
    ensures root { IfOk result (λ root. root ≡ new_root (view_of filer.old).disk.sectors 1 1) }
    ensures made { OnOk result (MadeVolume (view_of filer.old).disk (view_of filer.new).disk) }
    ensures part { OnErr result (BeganVolume (view_of filer.old).disk (view_of filer.new).disk) }
    ensures fault { IfErr result
        (λ e. (e ≡ halt.Disk) × Rose (view_of filer.old).disk.faults (view_of filer.new).disk.faults) }
    ensures later { IsLater (view_of filer.old).disk (view_of filer.new).disk }
    ensures stays { FramesStay (view_of filer.old) (view_of filer.new) }
{
    let disk = filer.disk_over();
    match format(disk, 1, 1) {
        Ok(layout) => Ok(Root {
            version: 3,
            clean: true,
            sectors: layout.sectors,
            serial: 1,
            counter: 1,
        }),
        Err(_) => Err(Halt::Disk),
    }
}

impl<D: Disk, A: Allocator> Session<D, A> {
    /// Makes a volume of all sectors of a disk, whatever it holds, with serial 1 and counter 1, and starts a session on it, with
    /// 24 to 4,096 frames. The memory for these, all that they ever have, is taken before anything is written. The disk is handed
    /// back where no session starts.
    pub fn fresh(alloc: A, disk: D, frames: u32) -> Result<Session<D, A>, (StartFault, D)>
        requires least { 24 ≤ frames }
        requires most { frames ≤ 4096 }
        ensures machine { (d : List Sector) → (D.state disk).contents ≡ Some d → StartsNew (D.state disk) result }
        ensures session { StartsWith frames result }

        // No session starts.
        ensures refuses { RefusesNew (D.state disk) result }
        ensures fails { FailsAtStart HasFreshCause (D.state disk) result }

        // Whether or not one starts.
        ensures writes { WritesNewVolume (D.state disk) result }
    {
        let (mut filer, layout) = match frames_for(alloc, disk, frames) {
            Ok(opened) => opened,
            Err(fault) => return Err(fault),
        };
        let root = match make_volume(&mut filer) {
            Ok(root) => root,
            Err(halt) => return Err((StartFault::Halt(halt), filer.into_disk())),
        };
        match begin(&mut filer, layout, root) {
            Ok(volume) => Ok(Session {
                core: Core::over(filer, 1),
                volume,
                running: true,
            }),
            Err(halt) => Err((StartFault::Halt(halt), filer.into_disk())),
        }
    }
}
