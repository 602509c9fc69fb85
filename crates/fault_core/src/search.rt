//! Where pages in a row of one file stand, by the file map.
ghost use Rattle.std.specs.Prelude.{◌≡◌, ◌⊎◌, ◌≤◌, ◌<◌, ◌+◌, ◌*◌, ◌^◌, ℕ, true, List, Ok, Some, None, IfOk, IfErr};
ghost use Rattle.labelled_disk.specs.declared.evidence.Halt.TheVariants as halt;
ghost use Rattle.labelled_disk.specs.Sectors.{Sector};
ghost use Rattle.file_map.specs.FileMap.{Triples};
ghost use Rattle.file_map.specs.Run.{holds};
ghost use Rattle.frame_pool.specs.Frames.{ArePages};
ghost use Rattle.filer_kernel.specs.View.{FitsLayout, view_of};
ghost use Rattle.fault_core.specs.Reach.{ReachHalts, TouchHalts, no_break};
ghost use Rattle.fault_core.specs.Revealed.{Known};
ghost use Rattle.fault_core.specs.Homes.{HaveSectors};
ghost use Rattle.fault_core.specs.Lack.{MissesPage, run_pages};
ghost use Rattle.swapper_kernel.specs.Goes.{this_page};
ghost use Rattle.fault_core.specs.Finding.{FindsHomes, FindsRun, IsRunFor};
ghost use Rattle.fault_core.specs.Outcomes.{FailsToFind, FindsAlone};

use crate::homes::{Homes, MOST};
use file_map::Run;
use filer_kernel::Filer;
use frame_pool::Home;
use labelled_disk::{Disk, Evidence, FileId, Halt};
use std::alloc::Allocator;

// How many frames there are. The bytes of each are a page's.
fn count_frames<D: Disk, A: Allocator>(filer: &mut Filer<D, A>) -> u32
    ensures pages { ArePages (view_of filer.old).slots }
    ensures same { filer.new ≡ filer.old }
{
    filer.swapper_over().frames().frames()
}

// The run of the map that has a page, or none.
fn run_of<D: Disk, A: Allocator>(
    filer: &mut Filer<D, A>,
    id: FileId,
    page: u32,
) -> Result<Option<Run>, Halt>
    requires size { FitsLayout (view_of filer.old) }
    ensures comes { FindsRun id page (view_of filer.old) result }
    ensures cause { IfErr result (ReachHalts no_break (view_of filer.old) (view_of filer.new)) }
    ensures sound { (m : List Sector) (named : Triples) (b : List ℕ) → Known (view_of filer.old) m named b
        → IfErr result (λ e. e ≡ halt.Disk) }
    ensures brings { FindsAlone (view_of filer.old) (view_of filer.new) }
    ensures cost { (view_of filer.new).disk.transfers ≤ (view_of filer.old).disk.transfers + 14 }
{
    count_frames(filer);
    filer.find(id, page)
}

// The run that has a page of a client's file: the one at hand, where it has the page, else one of the map.
fn run_at<D: Disk, A: Allocator>(
    filer: &mut Filer<D, A>,
    id: FileId,
    page: u32,
    hand: Option<Run>,
) -> Result<Run, Halt>
    requires size { FitsLayout (view_of filer.old) }
    requires client { 16 ≤ id }
    ensures holds { IfOk result (λ run. holds run id page ≡ true) }
    ensures which { IfOk result (λ run. (hand ≡ Some run) ⊎ IsRunFor id (view_of filer.old) run) }
    ensures cause { IfErr result (TouchHalts no_break (view_of filer.old) (view_of filer.new)) }
    ensures misses { IfErr result (MissesPage (this_page id page)) }
    ensures sound { (m : List Sector) (named : Triples) (b : List ℕ) (sector : ℕ) → Known (view_of filer.old) m named b
        → named id page sector ≡ true → IfErr result (λ e. e ≡ halt.Disk) }
    ensures brings { FindsAlone (view_of filer.old) (view_of filer.new) }
    ensures cost { (view_of filer.new).disk.transfers ≤ (view_of filer.old).disk.transfers + 14 }
{
    if let Some(run) = hand {
        if run.holds(id, page) {
            return Ok(run);
        }
    }
    match run_of(filer, id, page) {
        Ok(Some(run)) => Ok(run),
        Ok(None) => Err(Halt::Damaged(Evidence::Missing { id, page })),
        Err(halt) => Err(halt),
    }
}

/// Where the map says that 1 to 16 pages in a row of a client's file stand. It is asked once for each run that has some of them.
pub(crate) fn homes_of<D: Disk, A: Allocator>(
    filer: &mut Filer<D, A>,
    id: FileId,
    first: u32,
    pages: u32,
) -> Result<Homes, Halt>
    requires size { FitsLayout (view_of filer.old) }
    requires client { 16 ≤ id }
    requires some { 1 ≤ pages }
    requires few { pages ≤ 16 }
    requires fits { first + pages ≤ 2 ^ 32 }
    ensures comes { FindsHomes id first pages (view_of filer.old) result }
    ensures fails { FailsToFind (run_pages id first pages) (λ named m. HaveSectors named id first pages)
        (view_of filer.old) (view_of filer.new) result }
    ensures brings { FindsAlone (view_of filer.old) (view_of filer.new) }
    ensures cost { (view_of filer.new).disk.transfers ≤ (view_of filer.old).disk.transfers + 14 * pages }
{
    let mut homes = [Home {
        sector: 0,
        id,
        page: first,
    }; MOST];
    let mut hand = None;
    for k in 0..pages {
        let page = first + k;
        let run = match run_at(filer, id, page, hand) {
            Ok(run) => run,
            Err(halt) => return Err(halt),
        };
        homes[k as usize] = Home {
            sector: run.sector + (page - run.first),
            id,
            page,
        };
        hand = Some(run);
    }
    Ok(Homes {
        homes,
        count: pages,
    })
}
