//! A volume that is closed: both maps and the clean root come to the medium.
ghost use Rattle.std.specs.Prelude.{◌≡◌, ℕ, ◌+◌, ◌^◌, ◌<◌, ◌≤◌, true, List, IfErr, OnOk, OnErr, Some};
ghost use Rattle.labelled_disk.specs.declared.evidence.Halt.TheVariants as halt;
ghost use Rattle.labelled_disk.specs.Calls.{Rose};
ghost use Rattle.labelled_disk.specs.Sectors.{Sector};
ghost use Rattle.flat_machine.specs.Machine.{Machine};
ghost use Rattle.flat_machine.specs.Space.{root};
ghost use Rattle.swapper_kernel.specs.Goes.{IsDirty};
ghost use Rattle.swapper_kernel.specs.Maps.{id_of};
ghost use Rattle.pilot_engine.specs.Closing.{AreWritten, IsOpenStop, IsReady, IsStop, RevealsShut, MayClose, Throughout, WroteAny, closed_root};
ghost use Rattle.fault_core.specs.Core.{state};
ghost use Rattle.pilot_engine.specs.Sparing.{SparesAll};
ghost use Rattle.space_calls.specs.Halts.{After};
ghost use Rattle.pilot_engine.specs.Halting.{Made, WriteHalts};
ghost use Rattle.file_manager.specs.Reasons.{KeepsBare, InitialState, ShowsReason};
ghost use Rattle.pilot_engine.specs.Reasons.{NeverBlamesEnd};
ghost use Rattle.filer_kernel.specs.View.{FitsLayout, HasMemory, SwapsOnly};
ghost use Rattle.pilot_engine.specs.Outcomes.{FailsBy, IsSetUp};

use crate::Session;
use force_calls::flush;
use labelled_disk::{Disk, Halt};
use space_calls::sync;
use std::alloc::Allocator;
use swapper_kernel::Manager;
use volume_root::{Root, write_root};

// The root of a volume, once it is closed.
fn closed(root: Root) -> Root
    ensures closed { result ≡ closed_root root }
    ensures serial { root.serial < 2 ^ 32 }
    ensures counter { root.counter < 2 ^ 32 }
{
    let Root {
        version,
        clean: _,
        sectors,
        serial,
        counter,
    } = root;
    Root {
        version,
        clean: true,
        sectors,
        serial,
        counter,
    }
}

impl<D: Disk, A: Allocator> Session<D, A> {
    // Writes out the dirty pages of a map.
    pub(crate) fn write_map(&mut self, which: Manager) -> Result<(), Halt>
        requires size { FitsLayout (state self.old.core) }
        ensures clean { OnOk result ((page : ℕ) → IsDirty (state self.new.core).slots (id_of which) page → ⊥) }
        ensures sound { (x : List Sector) → HasMemory (state self.old.core) x → IfErr result (λ e. e ≡ halt.Disk) }
        ensures fails { FailsBy WriteHalts self.old self.new result }
        ensures keeps_to { (o : InitialState) → KeepsBare o self.old.core.filer
            → OnOk result (KeepsBare o self.new.core.filer) }
        ensures reasons { (o : InitialState) → KeepsBare o self.old.core.filer
            → IfErr result (ShowsReason o (state self.old.core).layout (state self.new.core).disk) }
        ensures right { (o : InitialState) → IfErr result (NeverBlamesEnd o (state self.new.core).disk) }
        ensures swaps { SwapsOnly (state self.old.core) (state self.new.core) }
        ensures layout { (state self.new.core).layout ≡ (state self.old.core).layout }
        ensures volume { self.new.volume ≡ self.old.volume }
        ensures cost { (state self.new.core).disk.transfers ≤ (state self.old.core).disk.transfers + 4096 }
    {
        let swapper = self.core.filer.swapper_over();
        let layout = swapper.layout();
        let _slots = swapper.frames().frames();
        match flush(swapper, which.id(), 0, which.pages(&layout)) {
            Ok(()) => Ok(()),
            Err(halt) => Err(halt),
        }
    }

    // Writes out the dirty pages of both maps.
    pub(crate) fn write_maps(&mut self) -> Result<(), Halt>
        requires size { FitsLayout (state self.old.core) }
        ensures clean { OnOk result (AreWritten (state self.new.core).slots) }
        ensures sound { (x : List Sector) → HasMemory (state self.old.core) x → IfErr result (λ e. e ≡ halt.Disk) }
        ensures fails { FailsBy (After Made WriteHalts) self.old self.new result }
        ensures keeps_to { (o : InitialState) → KeepsBare o self.old.core.filer
            → OnOk result (KeepsBare o self.new.core.filer) }
        ensures reasons { (o : InitialState) → KeepsBare o self.old.core.filer
            → IfErr result (ShowsReason o (state self.old.core).layout (state self.new.core).disk) }
        ensures right { (o : InitialState) → IfErr result (NeverBlamesEnd o (state self.new.core).disk) }
        ensures swaps { SwapsOnly (state self.old.core) (state self.new.core) }
        ensures layout { (state self.new.core).layout ≡ (state self.old.core).layout }
        ensures volume { self.new.volume ≡ self.old.volume }
        ensures cost { (state self.new.core).disk.transfers ≤ (state self.old.core).disk.transfers + 8192 }
    {
        match self.write_map(Manager::AllocationMap) {
            Ok(()) => (),
            Err(halt) => return Err(halt),
        }
        match self.write_map(Manager::FileMap) {
            Ok(()) => Ok(()),
            Err(halt) => Err(halt),
        }
    }

    // The same, and waits until all that was written is on the medium: what is written next comes after it there, too.
    pub(crate) fn sync_maps(&mut self) -> Result<(), Halt>
        requires size { FitsLayout (state self.old.core) }
        ensures clean { OnOk result (AreWritten (state self.new.core).slots) }
        ensures synced { OnOk result ((state self.new.core).disk.synced ≡ true) }
        ensures sound { (x : List Sector) → HasMemory (state self.old.core) x → IfErr result (λ e. e ≡ halt.Disk) }
        ensures fails { FailsBy (After Made WriteHalts) self.old self.new result }
        ensures reasons { (o : InitialState) → KeepsBare o self.old.core.filer
            → IfErr result (ShowsReason o (state self.old.core).layout (state self.new.core).disk) }
        ensures right { (o : InitialState) → IfErr result (NeverBlamesEnd o (state self.new.core).disk) }
        ensures swaps { SwapsOnly (state self.old.core) (state self.new.core) }
        ensures layout { (state self.new.core).layout ≡ (state self.old.core).layout }
        ensures volume { self.new.volume ≡ self.old.volume }
        ensures cost { (state self.new.core).disk.transfers ≤ (state self.old.core).disk.transfers + 8192 }
    {
        match self.write_maps() {
            Ok(()) => (),
            Err(halt) => return Err(halt),
        }
        match sync(&mut self.core) {
            Ok(()) => Ok(()),
            Err(halt) => Err(halt),
        }
    }

    // Writes the root of the closed volume.
    pub(crate) fn write_clean(&mut self) -> Result<(), Halt>
        requires set_up { IsSetUp self.old }
        ensures made { (m : Machine) → IsReady m self.old.volume.root (state self.old.core).disk
            → OnOk result (RevealsShut m (state self.new.core).disk) }
        ensures fault { IfErr result (λ e. e ≡ halt.Disk) }
        ensures counted { OnErr result (Rose (state self.old.core).disk.faults (state self.new.core).disk.faults) }
        ensures stops { (m : Machine) → IsReady m self.old.volume.root (state self.old.core).disk
            → ((d : List Sector) → (state self.old.core).disk.contents ≡ Some d → IsOpenStop m d)
            → Throughout (IsStop m) (state self.old.core).disk (state self.new.core).disk }
        ensures wrote { WroteAny self.old.volume.root (state self.old.core).disk (state self.old.core).slots
            (state self.new.core).disk (state self.new.core).slots }
        ensures spares { SparesAll (state self.old.core).disk (state self.new.core).disk }
        ensures sets { (m : Machine) → IsReady m self.old.volume.root (state self.old.core).disk
            → MayClose self.old.volume.root (state self.old.core).disk (state self.new.core).disk }
        ensures cost { (state self.new.core).disk.transfers ≤ (state self.old.core).disk.transfers + 1 }
    {
        let root = closed(self.volume.root);
        let disk = self.core.filer.disk_over();
        match write_root(disk, &root) {
            Ok(()) => Ok(()),
            Err(_) => Err(Halt::Disk),
        }
    }
}
