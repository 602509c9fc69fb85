//! The allocation map of a volume, made from what its data sectors are.
ghost use Rattle.std.specs.Prelude.{◌≡◌, ℕ, ◌+◌, ◌*◌, ◌-◌, ◌≤◌, ◌<◌, true, length, replicate, false, IfOk};
ghost use Rattle.flat_mem.specs.Vec.{vec_mem_bytes};
ghost use Rattle.labelled_disk.specs.Layout.{IsCount, layout_of, first_data, vam};
ghost use Rattle.alloc_map.specs.Bits.{is_used, IsMarked};
ghost use Rattle.scavenger.specs.Marks.{marks, IsMarkedSoFar};

use alloc_map::{AllocError, AllocMap};
use flat_mem::VecMem;
use label_survey::SectorState;
use labelled_disk::{Layout, NoMemory};
use std::alloc::Allocator;

// Marks all sectors of a map used on which all are free.
fn mark_all<A: Allocator>(map: &mut VecMem<A>, sectors: u32)
    requires some { 1 ≤ sectors }
    requires size { length (vec_mem_bytes map.old) ≡ 512 * vam sectors }
    requires zeros { vec_mem_bytes map.old ≡ replicate (512 * vam sectors) 0 }
    ensures { IsMarked true (vec_mem_bytes map.old) (vec_mem_bytes map.new) 0 sectors }
{
    match AllocMap::<&mut VecMem<A>>::over(map, 0, sectors).take(0, sectors) {
        Ok(_) => {}
        Err(AllocError::NoRoom) => unreachable!(),
        Err(AllocError::Mem(never)) => match never {},
    }
}

// Marks one sector free.
fn free_one<A: Allocator>(map: &mut VecMem<A>, sectors: u32, sector: u32)
    requires within { sector < sectors }
    requires size { length (vec_mem_bytes map.old) ≡ 512 * vam sectors }
    ensures { IsMarked false (vec_mem_bytes map.old) (vec_mem_bytes map.new) sector (sector + 1) }
{
    match AllocMap::<&mut VecMem<A>>::over(map, 0, sectors).give(sector, 1) {
        Ok(()) => {}
        Err(never) => match never {},
    }
}

// Marks each data sector free that is not kept, where all sectors are used.
fn free_rest<A: Allocator>(map: &mut VecMem<A>, layout: &Layout, sector_states: &[SectorState])
    requires all { layout.now.first + length sector_states.now ≡ layout.now.sectors }
    requires full { IsMarkedSoFar layout.now.sectors layout.now.first sector_states.now 0
        (vec_mem_bytes map.old) }
    ensures { IsMarkedSoFar layout.now.sectors layout.now.first sector_states.now
        (length sector_states.now) (vec_mem_bytes map.new) }
{
    for i in 0..sector_states.len() {
        if !sector_states[i].is_kept() {
            free_one(map, layout.sectors, layout.first + i as u32);
        }
    }
}

/// The allocation map on which root, maps and kept data sectors are used, and no others.
pub(crate) fn make_bits<A: Allocator>(
    alloc: A,
    layout: &Layout,
    sector_states: &[SectorState],
) -> Result<VecMem<A>, NoMemory>
    requires counted { IsCount layout.now.sectors }
    requires layout { layout.now ≡ layout_of layout.now.sectors }
    requires all { length sector_states.now ≡ layout.now.sectors - first_data layout.now.sectors }
    ensures size { IfOk result (λ map. length (vec_mem_bytes map) ≡ 512 * vam layout.now.sectors) }
    ensures used { IfOk result (λ map. (i : ℕ)
        → is_used (vec_mem_bytes map) i ≡ marks layout.now.first sector_states.now i) }
{
    let Ok(mut map) = VecMem::zeroed(alloc, layout.vam) else {
        return Err(NoMemory);
    };
    mark_all(&mut map, layout.sectors);
    free_rest(&mut map, layout, sector_states);
    Ok(map)
}
