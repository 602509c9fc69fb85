//! The allocation map beside the labels.
ghost use Rattle.std.specs.Prelude.{◌≡◌, ◌≢◌, ◌*◌, ◌<◌, ℕ, true, false, List, Some, Err, length, map, IfOk, IfErr};
ghost use Rattle.flat_mem.specs.Vec.{vec_mem_bytes};
ghost use Rattle.alloc_map.specs.Bits.{is_used as is_used_in};
ghost use Rattle.labelled_disk.specs.Calls.{ReadsAtMost, Rose};
ghost use Rattle.labelled_disk.specs.Layout.{IsCount, layout_of, data_sectors, vam};
ghost use Rattle.labelled_disk.specs.Sectors.{Sector};
ghost use Rattle.volume_view.specs.BitRuns.{AreCompared};
ghost use Rattle.volume_view.specs.Bits.{taken, AreWrongBits};
ghost use Rattle.volume_view.specs.Pages.{IsDiskOrMemory, SaysNamed};

use crate::LookFault;
use crate::bit_runs::{BitRun, add_sector};
use crate::pages::read_pages;
use alloc_map::AllocMap;
use flat_mem::VecMem;
use labelled_disk::{Disk, Label, Layout};
use std::alloc::{AllocError, Allocator};

// Whether a sector is of root or maps, or a data sector whose label is not free.
fn is_taken(first: u32, labels: &[Label], sector: u32) -> bool
    ensures { result ≡ taken first labels.now sector }
{
    if sector < first {
        return true;
    }
    match labels.get((sector - first) as usize) {
        Some(label) => !label.is_free(),
        None => false,
    }
}

// Whether the map has a sector as used.
fn is_used<A: Allocator>(map: &mut VecMem<A>, end: u32, sector: u32) -> bool
    requires within { sector < end }
    requires size { length (vec_mem_bytes map.old) * 8 ≡ end }
    requires pages { (n : ℕ) × (end ≡ 4096 * n) }
    ensures used { result ≡ is_used_in (vec_mem_bytes map.old) sector }
    ensures same { vec_mem_bytes map.new ≡ vec_mem_bytes map.old }
{
    match AllocMap::<&mut VecMem<A>>::over(map, 0, end).is_free(sector) {
        Ok(free) => !free,
        Err(never) => match never {},
    }
}

// Whether the two say different things.
fn differ(used: bool, taken: bool) -> bool
    ensures yes { result ≡ true → taken ≢ used }
    ensures no { result ≡ false → used ≡ taken }
{
    used != taken
}

fn compare_bits<A: Allocator>(
    alloc: A,
    map: &mut VecMem<A>,
    end: u32,
    first: u32,
    labels: &[Label],
) -> Result<Vec<BitRun, A>, AllocError>
    requires size { length (vec_mem_bytes map.old) * 8 ≡ end }
    requires pages { (n : ℕ) × (end ≡ 4096 * n) }
    ensures { IfOk result (λ runs.
        AreCompared (is_used_in (vec_mem_bytes map.old)) (taken first labels.now) end runs.items) }
{
    let mut runs = Vec::new(alloc);
    for sector in 0..end {
        let used = is_used(map, end, sector);
        if differ(used, is_taken(first, labels, sector)) {
            add_sector(&mut runs, sector, used)?;
        }
    }
    Ok(runs)
}

/// The runs of sectors, ascending, of which the allocation map says something else than the labels. Where
/// a label of its pages isn't right, `labelled` is false afterwards.
pub(crate) fn look_at_bits<A: Allocator + Clone, D: Disk>(
    alloc: A,
    disk: &mut D,
    layout: &Layout,
    labels: &[Label],
    labelled: &mut bool,
) -> Result<Vec<BitRun, A>, LookFault>
    requires counted { IsCount (D.state disk.old).sectors }
    requires layout { layout.now ≡ layout_of (D.state disk.old).sectors }
    ensures bits { IfOk result (λ runs.
        (d : List Sector) → (D.state disk.old).contents ≡ Some d
        → labels.now ≡ map (λ s. s.0) (data_sectors d) → AreWrongBits d runs.items) }
    ensures labelled { IfOk result (λ runs. (d : List Sector)
        → (D.state disk.old).contents ≡ Some d
        → SaysNamed labelled.old labelled.new d 1 1 (vam (length d))) }
    ensures err { IfErr result IsDiskOrMemory }
    ensures cause { result ≡ Err LookFault.Disk
        → Rose (D.state disk.old).faults (D.state disk.new).faults }
    ensures cost { ReadsAtMost (vam (D.state disk.old).sectors) (D.state disk.old)
        (D.state disk.new) }
{
    let Ok(own) = alloc.clone() else {
        return Err(LookFault::NoMemory);
    };
    let mut map = read_pages(own, disk, 1, 1, layout.vam, labelled)?;
    match compare_bits(alloc, &mut map, 4096 * layout.vam, layout.first, labels) {
        Ok(runs) => Ok(runs),
        Err(_) => Err(LookFault::NoMemory),
    }
}
