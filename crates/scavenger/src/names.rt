//! The file map of a volume, made from where its pages stand.
ghost use Rattle.std.specs.Prelude.{◌≡◌, ◌<◌, ◌^◌, List, length, IfOk};
ghost use Rattle.flat_mem.specs.Vec.{vec_mem_bytes};
ghost use Rattle.labelled_disk.specs.Layout.{IsCount, layout_of};
ghost use Rattle.file_map.specs.FileMap.{Triples, IsNew, no_triples, with_run};
ghost use Rattle.file_map.specs.Run.{IsRun};
ghost use Rattle.label_survey.specs.Runs.{AreRunsOf, all_triples};
ghost use Rattle.label_survey.specs.declared.triples.Triple.{Triple};
ghost use Rattle.scavenger.specs.Naming.{among, AreTriples, HasRoomFor, IsNaming, map_run};

use file_map::{FileMap, MapError, records_are_few};
use flat_mem::VecMem;
use label_survey::{Run, Triple, runs_of};
use labelled_disk::{Layout, NoMemory};
use std::alloc::Allocator;

fn map_run(run: Run) -> file_map::Run
    ensures same { result ≡ map_run run }
    ensures id { result.id < 2 ^ 64 }
{
    file_map::Run {
        id: run.id,
        first: run.first,
        pages: run.pages,
        sector: run.sector,
    }
}

// A map of zeros, which names nothing.
fn empty_map<A: Allocator>(alloc: A, layout: &Layout) -> Result<VecMem<A>, NoMemory>
    requires counted { IsCount layout.now.sectors }
    requires layout { layout.now ≡ layout_of layout.now.sectors }
    ensures { IfOk result (λ map. IsNaming layout.now.sectors no_triples (vec_mem_bytes map)) }
{
    match VecMem::zeroed(alloc, layout.vfm) {
        Ok(map) => Ok(map),
        Err(_) => Err(NoMemory),
    }
}

// Adds a run. There is room for it, since each sector is named once.
fn add_run<A: Allocator>(map: &mut VecMem<A>, sectors: u32, run: file_map::Run)
    requires counted { IsCount sectors }
    requires run { IsRun sectors run }
    requires room { HasRoomFor sectors (vec_mem_bytes map.old) run }
    ensures { (named : Triples) → IsNaming sectors named (vec_mem_bytes map.old)
        → IsNew named run → IsNaming sectors (with_run named run) (vec_mem_bytes map.new) }
{
    let mut map = FileMap::<&mut VecMem<A>>::over(map, sectors);
    records_are_few(&map);
    match map.add(run) {
        Ok(()) => {}
        Err(MapError::Full) => unreachable!(),
        Err(MapError::Malformed { .. }) => unreachable!(),
        Err(MapError::Mem(never)) => match never {},
    }
}

fn add_runs<A: Allocator>(map: &mut VecMem<A>, sectors: u32, runs: &[Run])
    requires counted { IsCount sectors }
    requires form { (triples : List Triple) × AreTriples sectors triples × AreRunsOf triples runs.now }
    requires empty { IsNaming sectors no_triples (vec_mem_bytes map.old) }
    ensures { IsNaming sectors (among (all_triples runs.now)) (vec_mem_bytes map.new) }
{
    for i in 0..runs.len() {
        add_run(map, sectors, map_run(runs[i]));
    }
}

/// The file map that names these triples, and no others.
pub(crate) fn make_names<A: Allocator + Clone>(
    alloc: A,
    layout: &Layout,
    triples: Vec<Triple, A>,
) -> Result<VecMem<A>, NoMemory>
    requires counted { IsCount layout.now.sectors }
    requires layout { layout.now ≡ layout_of layout.now.sectors }
    requires form { AreTriples layout.now.sectors triples.items }
    requires few { length triples.items < 2 ^ 32 }
    ensures { IfOk result (λ map.
        IsNaming layout.now.sectors (among triples.items) (vec_mem_bytes map)) }
{
    let runs = runs_of(alloc.clone()?, &triples)?;
    drop(triples);
    let mut map = empty_map(alloc, layout)?;
    add_runs(&mut map, layout.sectors, &runs);
    Ok(map)
}
