//! All records of the file map, in their order.
ghost use Rattle.std.specs.Prelude.{◌≡◌, ◌*◌, ◌≤◌, ℕ, List, length, IfOk, IfSome, MatchResult};
ghost use Rattle.flat_mem.specs.Vec.{vec_mem_bytes};
ghost use Rattle.labelled_disk.specs.Layout.{IsCount, layout_of, vfm};
ghost use Rattle.file_map.specs.declared.run.Run.{Run as MapRun};
ghost use Rattle.page_tree.specs.Page.{page_at, count_in};
ghost use Rattle.volume_view.specs.Recorded.{AllStand, StandsInLeaf};
ghost use Rattle.volume_view.specs.Records.{AreRunsOfMap, AreAllInForm, IsInForm, IsNoMemory, IsStep, last_of};

use crate::record::{key_of, read_after};
use crate::stop::Stop;
use file_map::Run;
use flat_mem::VecMem;
use labelled_disk::Layout;
use page_tree::{PageTree, TreeError};
use std::alloc::Allocator;

// How many records the header counts.
fn count_of<A: Allocator>(map: &mut VecMem<A>, sectors: u32) -> Result<u32, Stop>
    requires counted { IsCount sectors }
    requires size { length (vec_mem_bytes map.old) ≡ 512 * vfm sectors }
    ensures count { (runs : List MapRun) → AreRunsOfMap sectors (vec_mem_bytes map.old) runs
        → MatchResult result (λ n. n ≡ length runs) IsNoMemory }
    ensures header { IfOk result (λ n. n ≡ count_in (page_at (vec_mem_bytes map.old) 0)) }
    ensures same { vec_mem_bytes map.new ≡ vec_mem_bytes map.old }
{
    match PageTree::<&mut VecMem<A>, 24, 12>::over(map).count() {
        Ok(count) => Ok(count),
        Err(TreeError::Malformed { page }) => Err(Stop::Broken { page }),
        Err(TreeError::Full) => unreachable!(),
        Err(TreeError::Mem(never)) => match never {},
    }
}

// The run of the first record after that of the last run, or none where there is no such record.
fn next_run<A: Allocator>(
    map: &mut VecMem<A>,
    layout: &Layout,
    last: Run,
) -> Result<Option<Run>, Stop>
    requires counted { IsCount layout.now.sectors }
    requires layout { layout.now ≡ layout_of layout.now.sectors }
    requires size { length (vec_mem_bytes map.old) ≡ 512 * vfm layout.now.sectors }
    ensures next { (runs : List MapRun) (k : ℕ)
        → AreRunsOfMap layout.now.sectors (vec_mem_bytes map.old) runs
        → last ≡ last_of runs k → k ≤ length runs
        → MatchResult result (IsStep runs k) IsNoMemory }
    ensures form { IfOk result (IsInForm layout.now.sectors) }
    ensures stands { IfOk result (λ found. IfSome found (StandsInLeaf (vec_mem_bytes map.old))) }
    ensures same { vec_mem_bytes map.new ≡ vec_mem_bytes map.old }
{
    let mut bytes = [0; 24];
    match PageTree::<&mut VecMem<A>, 24, 12>::over(map).look_after_at(&key_of(last), &mut bytes) {
        Ok(Some(page)) => match read_after(last, &bytes, layout.first, layout.sectors) {
            Some(run) => Ok(Some(run)),
            None => Err(Stop::Broken { page }),
        },
        Ok(None) => Ok(None),
        Err(TreeError::Malformed { page }) => Err(Stop::Broken { page }),
        Err(TreeError::Full) => unreachable!(),
        Err(TreeError::Mem(never)) => match never {},
    }
}

// The runs that were read, where there is no record after that of the last.
fn end_of<A: Allocator>(
    map: &mut VecMem<A>,
    layout: &Layout,
    last: Run,
    runs: Vec<Run, A>,
) -> Result<Vec<Run, A>, Stop>
    requires counted { IsCount layout.now.sectors }
    requires layout { layout.now ≡ layout_of layout.now.sectors }
    requires size { length (vec_mem_bytes map.old) ≡ 512 * vfm layout.now.sectors }
    ensures end { (all : List MapRun)
        → AreRunsOfMap layout.now.sectors (vec_mem_bytes map.old) all
        → last ≡ last_of all (length all)
        → MatchResult result (λ found. found.items ≡ runs.items) IsNoMemory }
    ensures found { IfOk result (λ found. found.items ≡ runs.items) }
    ensures same { vec_mem_bytes map.new ≡ vec_mem_bytes map.old }
{
    match next_run(map, layout, last) {
        Ok(None) => Ok(runs),
        Ok(Some(_)) => Err(Stop::Broken { page: 0 }),
        Err(stop) => Err(stop),
    }
}

/// The runs of the map, as many as its header counts, each after the one before. Where there are
/// fewer or more, the header is what breaks the form.
pub(crate) fn read_runs<A: Allocator>(
    alloc: A,
    map: &mut VecMem<A>,
    layout: &Layout,
) -> Result<Vec<Run, A>, Stop>
    requires counted { IsCount layout.now.sectors }
    requires layout { layout.now ≡ layout_of layout.now.sectors }
    requires size { length (vec_mem_bytes map.old) ≡ 512 * vfm layout.now.sectors }
    ensures read { (runs : List MapRun)
        → AreRunsOfMap layout.now.sectors (vec_mem_bytes map.old) runs
        → MatchResult result (λ found. found.items ≡ runs) IsNoMemory }
    ensures form { IfOk result (λ found. AreAllInForm layout.now.sectors found.items) }
    ensures stand { IfOk result (λ found. AllStand (vec_mem_bytes map.old) found.items) }
    ensures counted { IfOk result (λ found. length found.items
        ≡ count_in (page_at (vec_mem_bytes map.old) 0)) }
    ensures same { vec_mem_bytes map.new ≡ vec_mem_bytes map.old }
{
    let count = match count_of(map, layout.sectors) {
        Ok(count) => count,
        Err(stop) => return Err(stop),
    };
    let mut runs = Vec::new(alloc);
    let mut last = Run::default();
    for k in 0..count {
        let found = match next_run(map, layout, last) {
            Ok(found) => found,
            Err(stop) => return Err(stop),
        };
        let Some(run) = found else {
            return Err(Stop::Broken { page: 0 });
        };
        let Ok(()) = runs.push(run) else {
            return Err(Stop::NoMemory);
        };
        last = run;
    }
    end_of(map, layout, last, runs)
}
