//! The swap unit of a page as pages in a row of a file, and such pages brought in together.
ghost use Rattle.std.specs.Prelude.{◌≡◌, ◌↔◌, ◌≤◌, ◌<◌, ◌+◌, ◌^◌, true, List, length, IfErr, OnOk};
ghost use Rattle.labelled_disk.specs.declared.evidence.Halt.TheVariants as halt;
ghost use Rattle.labelled_disk.specs.Sectors.{Sector};
ghost use Rattle.frame_pool.specs.Frames.{HasPage};
ghost use Rattle.swap_units.specs.Mode.{is_mapped};
ghost use Rattle.swap_units.specs.Unit.{Holds};
ghost use Rattle.swapper_kernel.specs.Bring.{AreThere};
ghost use Rattle.swapper_kernel.specs.Halts.{Halts};
ghost use Rattle.swapper_kernel.specs.Homes.{AreFileHomes, AreNamed, Brings, IsAmong, IsRow, no_home};
ghost use Rattle.fault_core.specs.Kept.{IsFormed};
ghost use Rattle.filer_kernel.specs.View.{FitsLayout, HasMemory, SwapsOnly, view_of};
ghost use Rattle.fault_core.specs.Homes.{homes_in};
ghost use Rattle.fault_core.specs.Unit.{AreResident, AreRunStored, BringsRun, IsResident, IsUnitRun};
ghost use Rattle.swapper_kernel.specs.Steps.{Steps};
ghost use Rattle.fault_core.specs.Lack.{run_pages};
ghost use Rattle.fault_core.specs.Outcomes.{FailsEarly, FetchesBy};

use crate::homes::Homes;
use crate::search::homes_of;
use filer_kernel::Filer;
use labelled_disk::{Disk, FileId, Halt};
use std::alloc::Allocator;
use swap_units::{Interval, unit_of};

/// The pages of the file that are shown at the swap unit of a page: the first one, and how many.
pub(crate) fn unit_run(x: &Interval, page: u32) -> (u32, u32)
    requires formed { IsFormed x.now }
    requires holds { Holds x.now page }
    requires mapped { is_mapped x.now.mode ≡ true }
    ensures { IsUnitRun x.now page result }
{
    let (first, pages) = unit_of(x, page);
    (x.page + (first - x.first), pages)
}

/// Whether pages in a row of a file are all resident.
pub(crate) fn is_there<D: Disk, A: Allocator>(
    filer: &mut Filer<D, A>,
    id: FileId,
    first: u32,
    pages: u32,
) -> bool
    requires fits { first + pages ≤ 2 ^ 32 }
    ensures there { result ≡ true ↔ AreResident (view_of filer.old).slots id first pages }
    ensures same { filer.new ≡ filer.old }
{
    filer.swapper_over().has_run(id, first, pages)
}

/// The slot of a page that is resident.
pub(crate) fn slot_of<D: Disk, A: Allocator>(filer: &mut Filer<D, A>, id: FileId, page: u32) -> u32
    requires resident { IsResident (view_of filer.old).slots id page }
    ensures slot { HasPage (view_of filer.old).slots result id page }
    ensures below { result < length (view_of filer.old).slots }
    ensures same { filer.new ≡ filer.old }
{
    match filer.swapper_over().frames().find(id, page) {
        Some(slot) => slot,
        None => unreachable!(),
    }
}

// Brings the pages of these homes in.
fn bring<D: Disk, A: Allocator>(filer: &mut Filer<D, A>, homes: &Homes) -> Result<(), Halt>
    requires size { FitsLayout (view_of filer.old) }
    requires row { IsRow (homes_in homes.now) }
    requires homes { AreFileHomes (homes_in homes.now) (view_of filer.old).layout }
    ensures there { OnOk result
        (AreThere (view_of filer.new).slots (homes_in homes.now) (length (homes_in homes.now))) }
    ensures sound { (m : List Sector) → HasMemory (view_of filer.old) m → AreNamed m (IsAmong (homes_in homes.now))
        → IfErr result (λ e. e ≡ halt.Disk) }
    ensures cause { IfErr result
        (Halts (IsAmong (homes_in homes.now)) (view_of filer.old).disk (view_of filer.old).slots
        (view_of filer.new).disk) }
    ensures swaps { SwapsOnly (view_of filer.old) (view_of filer.new) }
    ensures brings { Brings (IsAmong (homes_in homes.now)) (view_of filer.old).slots (view_of filer.new).slots }
    ensures steps { Steps (IsAmong (homes_in homes.now)) no_home (view_of filer.old).disk (view_of filer.old).slots
        (view_of filer.new).disk (view_of filer.new).slots }
    ensures layout { (view_of filer.new).layout ≡ (view_of filer.old).layout }
    ensures runs { (view_of filer.new).runs ≡ (view_of filer.old).runs }
    ensures cost { (view_of filer.new).disk.transfers ≤ (view_of filer.old).disk.transfers + 32 }
{
    filer.swapper_over().bring(homes.as_slice())
}

/// Finds pages in a row of a client's file, all of them, and then brings them in.
pub(crate) fn bring_run<D: Disk, A: Allocator>(
    filer: &mut Filer<D, A>,
    id: FileId,
    first: u32,
    pages: u32,
) -> Result<(), Halt>
    requires size { FitsLayout (view_of filer.old) }
    requires client { 16 ≤ id }
    requires some { 1 ≤ pages }
    requires few { pages ≤ 16 }
    requires fits { first + pages ≤ 2 ^ 32 }
    ensures there { OnOk result (AreResident (view_of filer.new).slots id first pages) }
    ensures fails { FailsEarly (run_pages id first pages) (λ named m. AreRunStored named m id first pages)
        (view_of filer.old) (view_of filer.new) result }
    ensures brings { FetchesBy (BringsRun id first pages) (view_of filer.old) (view_of filer.new) }
    ensures cost { (view_of filer.new).disk.transfers ≤ (view_of filer.old).disk.transfers + 256 }
{
    let homes = match homes_of(filer, id, first, pages) {
        Ok(homes) => homes,
        Err(halt) => return Err(halt),
    };
    bring(filer, &homes)
}
