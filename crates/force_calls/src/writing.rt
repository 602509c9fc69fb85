//! Dirty frames of a run written out: by looks at all pages or slots, or at marked pages alone.
ghost use Rattle.std.specs.Prelude.{◌≡◌, ◌<◌, ◌≤◌, ◌+◌, ◌^◌, ℕ, true, false, length, List, IfErr, OnOk};
ghost use Rattle.labelled_disk.specs.declared.evidence.Halt.TheVariants as halt;
ghost use Rattle.labelled_disk.specs.Sectors.{Sector};
ghost use Rattle.frame_pool.specs.Frames.{Frame, Has, IsWithin};
ghost use Rattle.swapper_kernel.specs.Homes.{no_home};
ghost use Rattle.swapper_kernel.specs.Stands.{Stands};
ghost use Rattle.swapper_kernel.specs.Halts.{Halts};
ghost use Rattle.force_calls.specs.Forces.{Forces};

use crate::marks::Marks;
use crate::run::Run;
use labelled_disk::{Disk, Halt};
use std::alloc::Allocator;
use swapper_kernel::Swapper;

/// Looks at each page of the run, or at each slot, whichever are fewer.
pub(crate) fn write_each<D: Disk, A: Allocator>(
    memory: &mut Swapper<D, A>,
    run: &Run,
) -> Result<(), Halt>
    requires size { (D.state memory.old.disk).sectors ≡ memory.old.layout.sectors }
    ensures clean { OnOk result ((i : ℕ) (f : Frame) → Has memory.new.pool i f
        → IsWithin run.now.id run.now.first run.now.pages f.home → f.dirty ≡ false) }
    ensures forces { Forces run.now.id run.now.first run.now.pages (D.state memory.old.disk) memory.old.pool
        (D.state memory.new.disk) memory.new.pool }
    ensures sound { (m : List Sector) → Stands (D.state memory.old.disk) memory.old.pool m
        → IfErr result (λ e. e ≡ halt.Disk) }
    ensures cause { IfErr result
        (Halts no_home (D.state memory.old.disk) memory.old.pool (D.state memory.new.disk)) }
    ensures layout { memory.new.layout ≡ memory.old.layout }
{
    let slots = memory.frames().frames();
    let by_page = run.is_short(slots);
    for look in 0..run.looks(by_page, slots) {
        if let Some(slot) = run.dirty_found(memory.frames(), by_page, look) {
            memory.write_out(slot)?;
        }
    }
    Ok(())
}

/// Marks the pages of the run that are dirty, and looks at these alone.
pub(crate) fn write_marked<D: Disk, A: Allocator>(
    memory: &mut Swapper<D, A>,
    run: &Run,
) -> Result<(), Halt>
    requires size { (D.state memory.old.disk).sectors ≡ memory.old.layout.sectors }
    requires fits { run.now.first + run.now.pages < 2 ^ 32 }
    requires few { run.now.pages ≤ 4096 }
    ensures clean { OnOk result ((i : ℕ) (f : Frame) → Has memory.new.pool i f
        → IsWithin run.now.id run.now.first run.now.pages f.home → f.dirty ≡ false) }
    ensures forces { Forces run.now.id run.now.first run.now.pages (D.state memory.old.disk) memory.old.pool
        (D.state memory.new.disk) memory.new.pool }
    ensures sound { (m : List Sector) → Stands (D.state memory.old.disk) memory.old.pool m
        → IfErr result (λ e. e ≡ halt.Disk) }
    ensures cause { IfErr result
        (Halts no_home (D.state memory.old.disk) memory.old.pool (D.state memory.new.disk)) }
    ensures layout { memory.new.layout ≡ memory.old.layout }
{
    let mut marks = Marks::none();
    marks.mark(memory.frames(), run);
    for place in 0..run.pages {
        if marks.has(place) {
            if let Some(slot) = run.dirty_found(memory.frames(), true, place) {
                memory.write_out(slot)?;
            }
        }
    }
    Ok(())
}
