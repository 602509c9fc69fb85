//! Pages that labels name and the file map does not.
ghost use Rattle.std.specs.Prelude.{◌≡◌, ◌*◌, ◌+◌, ◌<◌, ◌≤◌, true, false, [], None, length, IfOk, IfSome, MatchResult};
ghost use Rattle.flat_mem.specs.Vec.{vec_mem_bytes};
ghost use Rattle.labelled_disk.specs.Label.{is_free};
ghost use Rattle.labelled_disk.specs.Layout.{IsCount, vfm};
ghost use Rattle.file_map.specs.FileMap.{Triples};
ghost use Rattle.volume_view.specs.Names.{labelled, NamesIn, IsUnmapped, IsDifferenceAt};
ghost use Rattle.volume_view.specs.Recorded.{IsRecorded, AreRecorded};
ghost use Rattle.volume_view.specs.Records.{IsNoMemory};

use crate::rows::add_page;
use crate::stop::Stop;
use file_map::{FileMap, MapError};
use flat_mem::VecMem;
use label_survey::{Run, Triple};
use labelled_disk::{Label, Layout};
use std::alloc::Allocator;

// Whether the map names the page in this sector.
fn is_mapped<A: Allocator>(map: &mut VecMem<A>, sectors: u32, triple: Triple) -> Result<bool, Stop>
    requires counted { IsCount sectors }
    requires size { length (vec_mem_bytes map.old) ≡ 512 * vfm sectors }
    ensures mapped { (named : Triples) → NamesIn sectors (vec_mem_bytes map.old) named
        → MatchResult result (λ yes. yes ≡ named triple.id triple.page triple.sector) IsNoMemory }
    ensures recorded { IfOk result (λ yes. yes ≡ true
        → IsRecorded sectors (vec_mem_bytes map.old) triple.id triple.page triple.sector) }
    ensures same { vec_mem_bytes map.new ≡ vec_mem_bytes map.old }
{
    match FileMap::<&mut VecMem<A>>::over(map, sectors).find(triple.id, triple.page) {
        Ok(Some(run)) => {
            let sector = u64::from(run.sector) + u64::from(triple.page - run.first);
            Ok(sector == u64::from(triple.sector))
        }
        Ok(None) => Ok(false),
        Err(MapError::Malformed { page }) => Err(Stop::Broken { page }),
        Err(MapError::Full) => unreachable!(),
        Err(MapError::Mem(never)) => match never {},
    }
}

// The page of a label that is not free, if the map doesn't name it in this sector.
fn difference_at<A: Allocator>(
    map: &mut VecMem<A>,
    sectors: u32,
    label: &Label,
    sector: u32,
) -> Result<Option<Triple>, Stop>
    requires counted { IsCount sectors }
    requires size { length (vec_mem_bytes map.old) ≡ 512 * vfm sectors }
    ensures difference { (named : Triples) → NamesIn sectors (vec_mem_bytes map.old) named
        → MatchResult result (IsDifferenceAt named label.now sector) IsNoMemory }
    ensures place { IfOk result (λ found. IfSome found (λ page. page.sector ≡ sector)) }
    ensures recorded { IfOk result (λ found. found ≡ None → is_free label.now ≡ false
        → IsRecorded sectors (vec_mem_bytes map.old) label.now.id label.now.page sector) }
    ensures same { vec_mem_bytes map.new ≡ vec_mem_bytes map.old }
{
    if label.is_free() {
        return Ok(None);
    }
    let triple = Triple {
        id: label.id,
        page: label.page,
        sector,
    };
    match is_mapped(map, sectors, triple) {
        Ok(true) => Ok(None),
        Ok(false) => Ok(Some(triple)),
        Err(stop) => Err(stop),
    }
}

/// The pages that labels name and the map doesn't name there.
pub(crate) fn find_unmapped<A: Allocator>(
    alloc: A,
    map: &mut VecMem<A>,
    layout: &Layout,
    labels: &[Label],
) -> Result<Vec<Run, A>, Stop>
    requires counted { IsCount layout.now.sectors }
    requires size { length (vec_mem_bytes map.old) ≡ 512 * vfm layout.now.sectors }
    requires few { layout.now.first + length labels.now ≤ layout.now.sectors }
    ensures unmapped { (named : Triples)
        → NamesIn layout.now.sectors (vec_mem_bytes map.old) named
        → MatchResult result (λ runs.
        IsUnmapped named (labelled layout.now.first labels.now) runs.items) IsNoMemory }
    ensures recorded { IfOk result (λ runs. runs.items ≡ [] → AreRecorded
        layout.now.sectors (vec_mem_bytes map.old) (labelled layout.now.first labels.now)) }
    ensures same { vec_mem_bytes map.new ≡ vec_mem_bytes map.old }
{
    let mut runs = Vec::new(alloc);
    for i in 0..labels.len() {
        let found = match difference_at(map, layout.sectors, &labels[i], layout.first + i as u32) {
            Ok(found) => found,
            Err(stop) => return Err(stop),
        };
        match found {
            Some(page) => {
                let Ok(()) = add_page(&mut runs, page) else {
                    return Err(Stop::NoMemory);
                };
            }
            None => {}
        }
    }
    Ok(runs)
}
