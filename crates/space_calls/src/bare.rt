//! Whether no space is mapped, where that is cheap to reveal.
ghost use Rattle.std.specs.Prelude.{◌≡◌, ◌≤◌, ◌+◌, true, false, MatchResult};
ghost use Rattle.std.specs.List.{list_any};
ghost use Rattle.labelled_disk.specs.declared.evidence.Halt.TheVariants as halt;
ghost use Rattle.flat_machine.specs.Machine.{Machine};
ghost use Rattle.flat_machine.specs.Space.{is_mapped};
ghost use Rattle.file_manager.specs.declared.volume.Volume.{Volume};
ghost use Rattle.running_words.specs.Running.{Runs};
ghost use Rattle.fault_core.specs.Core.{state};
ghost use Rattle.fault_core.specs.Reach.{ReachHalts};
ghost use Rattle.fault_core.specs.Revealed.{BreaksTables};
ghost use Rattle.filer_kernel.specs.View.{FitsLayout};
ghost use Rattle.space_calls.specs.Calls.{Looks};
ghost use Rattle.space_calls.specs.Outcomes.{HaltsBy};

use fault_core::Core;
use labelled_disk::{Disk, Halt};
use std::alloc::Allocator;

// Whether the projection is one interval, which shows nothing. From the second time on that costs nothing, since the core
// keeps the interval.
pub(crate) fn shows_nothing<D: Disk, A: Allocator>(core: &mut Core<D, A>) -> Result<bool, Halt>
    requires size { FitsLayout (state core.old) }
    ensures answer { (volume : Volume) (m : Machine) → Runs core.old volume m
        → MatchResult result (λ none. none ≡ true → list_any is_mapped m.spaces ≡ false) (λ e. e ≡ halt.Disk) }
    ensures looks { Looks core.old core.new }
    ensures fails { HaltsBy
        (ReachHalts (BreaksTables (state core.old) core.old.intervals 0) (state core.old) (state core.new))
        core.old core.new result }
    ensures cost { (state core.new).disk.transfers ≤ (state core.old).disk.transfers + 196 }
{
    if core.interval_count() != 1 {
        return Ok(false);
    }
    match core.describe(0) {
        Ok(Some(interval)) => Ok(!interval.mode.is_mapped()),
        Ok(None) => Ok(false),
        Err(halt) => Err(halt),
    }
}
