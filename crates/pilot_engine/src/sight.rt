//! How windows show a file that a call names.
ghost use Rattle.std.specs.Prelude.{◌+◌, ◌≤◌};
ghost use Rattle.flat_machine.specs.Machine.{Machine};
ghost use Rattle.running_words.specs.Running.{Runs};
ghost use Rattle.pilot_engine.specs.Seen.{IsSight};
ghost use Rattle.fault_core.specs.Core.{state};
ghost use Rattle.space_calls.specs.Halts.{SightHalts};
ghost use Rattle.filer_kernel.specs.View.{FitsLayout};
ghost use Rattle.pilot_engine.specs.Outcomes.{AccountsOn, Asks, FailsBy, LooksOn};

use crate::Session;
use labelled_disk::{Disk, FileId, Halt};
use space_calls::window_on;
use std::alloc::Allocator;

/// Whose windows show a file.
#[derive(Clone, Copy, Debug, PartialEq, Eq)]
pub(crate) enum Sight {
    /// An anonymous one does, so that no call may name the file.
    Hidden,
    /// That of the space of this handle is the first that does, or none is.
    By(Option<u32>),
}

impl<D: Disk, A: Allocator> Session<D, A> {
    // Asks the space tables whose windows show a file.
    pub(crate) fn sight(&mut self, id: FileId) -> Result<Sight, Halt>
        requires size { FitsLayout (state self.old.core) }
        ensures asks { (m : Machine) → Runs self.old.core self.old.volume m → Asks m (IsSight m id) self.new result }
        ensures fails { FailsBy (SightHalts self.old.core.intervals) self.old self.new result }
        ensures accounts { AccountsOn self.old self.new result }
        ensures looks { LooksOn self.old self.new }
        ensures cost { (state self.new.core).disk.transfers ≤ (state self.old.core).disk.transfers + 14532 }
    {
        match window_on(&mut self.core, id, false) {
            Ok(Some((handle, shown))) => {
                if shown.anonymous {
                    return Ok(Sight::Hidden);
                }
                Ok(Sight::By(Some(handle)))
            }
            Ok(None) => Ok(Sight::By(None)),
            Err(halt) => Err(halt),
        }
    }
}
