//! The calls: each looks at each page of the run, or at each slot, whichever are fewer.
ghost use Rattle.std.specs.Prelude.{◌≡◌, ◌≤◌, ◌+◌, ℕ, false, List, [], IfErr, OnErr, OnOk};
ghost use Rattle.labelled_disk.specs.declared.evidence.Halt.TheVariants as halt;
ghost use Rattle.labelled_disk.specs.Sectors.{Sector};
ghost use Rattle.frame_pool.specs.Frames.{Frame, Has, IsWithin};
ghost use Rattle.swapper_kernel.specs.Homes.{no_home};
ghost use Rattle.swapper_kernel.specs.Stands.{Stands};
ghost use Rattle.swapper_kernel.specs.Goes.{Goes, Swaps, no_page};
ghost use Rattle.swapper_kernel.specs.Differs.{Differs, of_run};
ghost use Rattle.swapper_kernel.specs.Halts.{Halts};
ghost use Rattle.swapper_kernel.specs.Steps.{Steps};
ghost use Rattle.force_calls.specs.Run.{Evicts, OnlyRun, Stay, dirty_count};

use crate::run::Run;
use crate::writing::{write_each, write_marked};
use labelled_disk::{Disk, FileId, Halt};
use std::alloc::Allocator;
use swapper_kernel::Swapper;

/// Writes out each dirty frame of these pages of a file. The frames stay.
pub fn flush<D: Disk, A: Allocator>(
    memory: &mut Swapper<D, A>,
    id: FileId,
    first: u32,
    pages: u32,
) -> Result<(), Halt>
    requires size { (D.state memory.old.disk).sectors ≡ memory.old.layout.sectors }
    ensures clean { OnOk result
        ((i : ℕ) (f : Frame) → Has memory.new.pool i f → IsWithin id first pages f.home → f.dirty ≡ false) }
    ensures stay { Stay memory.old.pool memory.new.pool }
    ensures run { OnlyRun id first pages memory.old.pool memory.new.pool }
    ensures sound { (m : List Sector) → Stands (D.state memory.old.disk) memory.old.pool m
        → IfErr result (λ e. e ≡ halt.Disk) }
    ensures cause { IfErr result
        (Halts no_home (D.state memory.old.disk) memory.old.pool (D.state memory.new.disk)) }
    ensures swaps { Swaps (D.state memory.old.disk) memory.old.pool (D.state memory.new.disk) memory.new.pool }
    ensures steps { Steps no_home no_home (D.state memory.old.disk) memory.old.pool (D.state memory.new.disk)
        memory.new.pool }
    ensures layout { memory.new.layout ≡ memory.old.layout }
    ensures cost { (D.state memory.new.disk).transfers ≤ (D.state memory.old.disk).transfers + dirty_count id first
        pages memory.old.pool }
{
    let run = Run { id, first, pages };
    if run.is_long(memory.frames().frames()) {
        write_marked(memory, &run)
    } else {
        write_each(memory, &run)
    }
}

/// Gives up each frame of these pages of a file. What is dirty is written out first.
pub fn evict<D: Disk, A: Allocator>(
    memory: &mut Swapper<D, A>,
    id: FileId,
    first: u32,
    pages: u32,
) -> Result<(), Halt>
    requires size { (D.state memory.old.disk).sectors ≡ memory.old.layout.sectors }
    ensures gone { OnOk result ((i : ℕ) (f : Frame) → Has memory.new.pool i f → IsWithin id first pages f.home → ⊥) }
    ensures run { OnlyRun id first pages memory.old.pool memory.new.pool }
    ensures sound { (m : List Sector) → Stands (D.state memory.old.disk) memory.old.pool m
        → IfErr result (λ e. e ≡ halt.Disk) }
    ensures cause { IfErr result
        (Halts no_home (D.state memory.old.disk) memory.old.pool (D.state memory.new.disk)) }
    ensures swaps { Swaps (D.state memory.old.disk) memory.old.pool (D.state memory.new.disk) memory.new.pool }
    ensures written { OnOk result
        (Evicts id first pages (D.state memory.old.disk) memory.old.pool (D.state memory.new.disk)
        memory.new.pool) }
    ensures stay { OnErr result (Stay memory.old.pool memory.new.pool) }
    ensures steps { OnErr result
        (Steps no_home no_home (D.state memory.old.disk) memory.old.pool (D.state memory.new.disk)
        memory.new.pool) }
    ensures layout { memory.new.layout ≡ memory.old.layout }
    ensures cost { (D.state memory.new.disk).transfers ≤ (D.state memory.old.disk).transfers + dirty_count id first
        pages memory.old.pool }
{
    flush(memory, id, first, pages)?;
    discard(memory, id, first, pages);
    Ok(())
}

/// Gives up each frame of these pages of a file, dirty or not, without a transfer. The pages are what the disk has.
pub fn discard<D: Disk, A: Allocator>(
    memory: &mut Swapper<D, A>,
    id: FileId,
    first: u32,
    pages: u32,
)
    ensures gone { (i : ℕ) (f : Frame) → Has memory.new.pool i f → IsWithin id first pages f.home → ⊥ }
    ensures run { OnlyRun id first pages memory.old.pool memory.new.pool }
    ensures left { (i : ℕ) (f : Frame) → Has memory.new.pool i f → Has memory.old.pool i f }
    ensures swaps { ((i : ℕ) (f : Frame) → Has memory.old.pool i f → IsWithin id first pages f.home → f.dirty ≡ false)
        → Swaps (D.state memory.old.disk) memory.old.pool (D.state memory.new.disk) memory.new.pool }
    ensures goes { Goes (Differs (of_run id first pages)) no_page [] (D.state memory.old.disk) memory.old.pool
        (D.state memory.new.disk) memory.new.pool }
    ensures disk { memory.new.disk ≡ memory.old.disk }
    ensures layout { memory.new.layout ≡ memory.old.layout }
{
    let run = Run { id, first, pages };
    let slots = memory.frames().frames();
    let by_page = run.is_short(slots);
    for look in 0..run.looks(by_page, slots) {
        if let Some((slot, _dirty)) = run.held_at(memory.frames(), by_page, look) {
            memory.clear(slot);
        }
    }
}
