//! The end of a session: its temporary files and the pages of the space tables go, and the volume is closed.
ghost use Rattle.std.specs.Prelude.{◌≡◌, true, IfErr, OnOk, Err};
ghost use Rattle.flat_machine.specs.Machine.{Machine};
ghost use Rattle.running_words.specs.Bound.{CostsOther};
ghost use Rattle.running_words.specs.Running.{Runs};
ghost use Rattle.pilot_engine.specs.Closing.{HasShut, IsStop, ShutsBySync, WroteAny};
ghost use Rattle.pilot_engine.specs.Opening.{IsUnset, LeavesOpen};
ghost use Rattle.fault_core.specs.Core.{state};
ghost use Rattle.pilot_engine.specs.Sparing.{SparesAll};
ghost use Rattle.pilot_engine.specs.Halting.{EndHalts};
ghost use Rattle.file_manager.specs.Reasons.{KeepsOn, InitialState, ShowsReason};
ghost use Rattle.pilot_engine.specs.Reasons.{SeesHome, NeverBlamesEnd};
ghost use Rattle.filer_kernel.specs.View.{disk_of};
ghost use Rattle.pilot_engine.specs.Outcomes.{EndsIn, FailsBy, IsSetUp};
ghost use Rattle.pilot_engine.specs.Ending.{AccountsAtEnd, ClosesIn, HaltsAtEnd, WritesAtEnd};
ghost use Rattle.pilot_engine.specs.Referring.{TakesCalls};

use crate::Session;
use labelled_disk::{Disk, Halt};
use space_calls::sync;
use std::alloc::Allocator;

impl<D: Disk, A: Allocator> Session<D, A> {
    // Closes the volume.
    fn close(&mut self) -> Result<(), Halt>
        requires set_up { IsSetUp self.old }
        ensures ends { (m : Machine) → Runs self.old.core self.old.volume m
            → EndsIn (IsStop m) (λ _. HasShut m (state self.new.core).disk)
            (state self.old.core).disk (state self.new.core).disk result }
        ensures synced { OnOk result ((state self.new.core).disk.synced ≡ true) }
        ensures fails { FailsBy (EndHalts self.old.core.intervals) self.old self.new result }
        ensures reasons { (o : InitialState) → KeepsOn o self.old.core.filer
            → IfErr result (ShowsReason o (state self.old.core).layout (state self.new.core).disk) }
        ensures sees { (o : InitialState) → KeepsOn o self.old.core.filer → SeesHome o self.old.core
            → IfErr result (NeverBlamesEnd o (state self.new.core).disk) }
        ensures left_open { IsUnset (state self.old.core).disk → IfErr result (LeavesOpen (state self.new.core).disk) }
        ensures wrote { WroteAny self.old.volume.root (state self.old.core).disk (state self.old.core).slots
            (state self.new.core).disk (state self.new.core).slots }
        ensures spares { SparesAll (state self.old.core).disk (state self.new.core).disk }
        ensures syncs { (m : Machine) → Runs self.old.core self.old.volume m
            → ShutsBySync (state self.old.core).disk (state self.new.core).disk }
        ensures cost { (m : Machine) → Runs self.old.core self.old.volume m
            → CostsOther (state self.old.core).disk (state self.new.core).disk }
    {
        match self.evict_all() {
            Ok(()) => (),
            Err(halt) => return Err(halt),
        }
        match self.empty() {
            Ok(()) => (),
            Err(halt) => return Err(halt),
        }
        match self.sync_maps() {
            Ok(()) => (),
            Err(halt) => return Err(halt),
        }
        match self.write_clean() {
            Ok(()) => (),
            Err(halt) => return Err(halt),
        }
        match sync(&mut self.core) {
            Ok(()) => Ok(()),
            Err(halt) => Err(halt),
        }
    }

    /// The disk, as it stands: what is dirty in frames is lost, and the volume stays open.
    pub fn into_disk(self) -> D
        ensures { result ≡ (disk_of self.core.filer) }
    {
        let Session {
            core,
            volume: _,
            running: _,
        } = self;
        core.into_filer().into_disk()
    }

    /// Ends the session, and hands the disk back: the temporary files are deleted, the pages of the space tables are
    /// freed, both maps are written, and once all of it is on the medium the root with its clean flag set, which then is
    /// so too. After a halt the volume is to be restored before it can be opened.
    pub fn finish(self) -> (Result<(), Halt>, D)
        requires taken { TakesCalls self }
        ensures machine { (m : Machine) → Runs self.core self.volume m
            → ClosesIn m (state self.core).disk (D.state result.1) result.0 }
        ensures halts { HaltsAtEnd self (D.state result.1) result.0 }
        ensures accounts { (o : InitialState) → KeepsOn o self.core.filer
            → AccountsAtEnd o self (D.state result.1) result.0 }
        ensures writes { WritesAtEnd self.volume.root (state self.core).slots (state self.core).disk
            (D.state result.1) result.0 }
    {
        let mut session = self;
        let closed = session.close();
        (closed, session.into_disk())
    }
}
