//! Pages of a space that are brought in before they are asked for.
ghost use Rattle.std.specs.Prelude.{◌≡◌, ◌≤◌, ◌+◌, ◌/◌, ℕ, length, Some, OnOk};
ghost use Rattle.flat_machine.specs.declared.call.Call.TheVariants as call;
ghost use Rattle.flat_machine.specs.declared.space.Space.{Space};
ghost use Rattle.flat_machine.specs.Machine.{Machine};
ghost use Rattle.flat_machine.specs.Space.{space_at};
ghost use Rattle.session_words.specs.Volume.{volume_page};
ghost use Rattle.file_manager.specs.declared.volume.Volume.{Volume};
ghost use Rattle.fault_core.specs.Activate.{AreBrought, IsActive};
ghost use Rattle.fault_core.specs.Core.{kept, state};
ghost use Rattle.fault_core.specs.Reach.{ReachHalts, TouchHalts};
ghost use Rattle.running_words.specs.Bound.{CostsOther};
ghost use Rattle.running_words.specs.Running.{Runs};
ghost use Rattle.space_calls.specs.Ranges.{BreaksRange, space_units};
ghost use Rattle.space_calls.specs.Sees.{StillOn};
ghost use Rattle.filer_kernel.specs.View.{FitsLayout};
ghost use Rattle.space_calls.specs.Calls.{Answers};
ghost use Rattle.space_calls.specs.Outcomes.{HaltsBy, HaltsToBring, MovesOver, MovesOwn};

use fault_core::Core;
use flat_machine::Reply;
use labelled_disk::{Disk, Halt};
use std::alloc::Allocator;
use table_calls::bounds;

/// Brings in the swap units of the pages of a space, at most half of the frames.
pub fn activate<D: Disk, A: Allocator>(core: &mut Core<D, A>, space: u32) -> Result<Reply, Halt>
    requires size { FitsLayout (state core.old) }
    ensures answers { (volume : Volume) (m : Machine) → Runs core.old volume m
        → Answers m (call.Activate space) core.old core.new volume result }
    ensures fails { HaltsToBring
        (TouchHalts (BreaksRange (state core.old) core.old.intervals space) (state core.old) (state core.new))
        (λ ss. space_units ss space) core.old core.new result }
    ensures went { MovesOver volume_page (state core.old) (state core.new) }
    ensures sees { OnOk result (StillOn core.old core.new) }
    ensures cost { CostsOther (state core.old).disk (state core.new).disk }
    ensures whole { (volume : Volume) (m : Machine) (s : Space) → Runs core.old volume m
        → space_at m.spaces space ≡ Some s
        → OnOk result (IsActive m.spaces (kept core.new) (state core.new).slots s.first (s.first + s.pages)) }
    ensures brought { (volume : Volume) (m : Machine) (s : Space) → Runs core.old volume m
        → space_at m.spaces space ≡ Some s
        → OnOk result
        ((units : ℕ)
        × AreBrought m.spaces (kept core.new) (state core.new).slots s.first (s.first + s.pages)
        (length (state core.old).slots / 2) units) }
{
    let (first, pages) = match bounds(core, space) {
        Ok(Ok(run)) => run,
        Ok(Err(word)) => return Ok(Reply::Refused(word)),
        Err(halt) => return Err(halt),
    };
    match core.activate(first, pages) {
        Ok(_units) => Ok(Reply::Done),
        Err(halt) => Err(halt),
    }
}

/// Answers as bringing in the pages of a space does, and brings in none: it looks up the space alone.
pub fn try_activate<D: Disk, A: Allocator>(core: &mut Core<D, A>, space: u32) -> Result<Reply, Halt>
    requires size { FitsLayout (state core.old) }
    ensures answers { (volume : Volume) (m : Machine) → Runs core.old volume m
        → Answers m (call.Activate space) core.old core.new volume result }
    ensures fails { HaltsBy
        (ReachHalts (BreaksRange (state core.old) core.old.intervals space) (state core.old) (state core.new))
        core.old core.new result }
    ensures went { MovesOwn (state core.old) (state core.new) }
    ensures sees { OnOk result (StillOn core.old core.new) }
    ensures cost { (state core.new).disk.transfers ≤ (state core.old).disk.transfers + 28 }
{
    match bounds(core, space) {
        Ok(Ok(_run)) => Ok(Reply::Done),
        Ok(Err(word)) => Ok(Reply::Refused(word)),
        Err(halt) => Err(halt),
    }
}
