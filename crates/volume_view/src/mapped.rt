//! Pages that the file map names and labels do not.
ghost use Rattle.std.specs.Prelude.{◌≡◌, [], ◌∷◌, IfOk};
ghost use Rattle.labelled_disk.specs.Layout.{IsCount};
ghost use Rattle.file_map.specs.FileMap.{names_triple, AreRuns};
ghost use Rattle.file_map.specs.Run.{IsRun};
ghost use Rattle.label_survey.specs.Runs.{all_triples};
ghost use Rattle.volume_view.specs.Names.{labelled, AddsUnlabelled, AreOnce, IsUnlabelled, StayOnce};
ghost use Rattle.volume_view.specs.Records.{AreAllInForm};
ghost use Rattle.volume_view.specs.Rows.{AreJoined};

use crate::rows::add_page;
use file_map::Run as MapRun;
use label_survey::{Run, Triple};
use labelled_disk::Label;
use std::alloc::{AllocError, Allocator};

// Whether the label of the sector names the page; the first label is that of sector `first`.
fn is_labelled(first: u32, labels: &[Label], triple: Triple) -> bool
    ensures { result ≡ labelled first labels.now triple.id triple.page triple.sector }
{
    if triple.sector < first {
        return false;
    }
    match labels.get((triple.sector - first) as usize) {
        Some(label) => !label.is_free() && (label.id == triple.id && label.page == triple.page),
        None => false,
    }
}

// Adds the pages of one run that labels don't name, at most so many, and answers how many more
// may come.
fn add_unlabelled<A: Allocator>(
    pages: &mut Vec<Run, A>,
    left: u32,
    first: u32,
    labels: &[Label],
    sectors: u32,
    run: MapRun,
) -> Result<u32, AllocError>
    requires counted { IsCount sectors }
    requires run { IsRun sectors run }
    ensures adds { IfOk result (λ now. AddsUnlabelled (run ∷ []) (labelled first labels.now) left now
        (all_triples pages.old.items) (all_triples pages.new.items)) }
    ensures joined { IfOk result (λ now. AreJoined pages.old.items → AreJoined pages.new.items) }
    ensures once { IfOk result (λ now. StayOnce run (all_triples pages.old.items)
        (all_triples pages.new.items)) }
{
    let mut now = left;
    for k in 0..run.pages {
        if now == 0 {
            return Ok(0);
        }
        let triple = Triple {
            id: run.id,
            page: run.first + k,
            sector: run.sector + k,
        };
        if !is_labelled(first, labels, triple) {
            add_page(pages, triple)?;
            now -= 1;
        }
    }
    Ok(now)
}

/// The pages of these runs that the labels of their sectors don't name: all of them, or as many as
/// there are sectors, since a map may name pages without end.
pub(crate) fn find_unlabelled<A: Allocator>(
    alloc: A,
    first: u32,
    labels: &[Label],
    sectors: u32,
    runs: &[MapRun],
) -> Result<Vec<Run, A>, AllocError>
    requires counted { IsCount sectors }
    requires form { AreAllInForm sectors runs.now }
    ensures unlabelled { IfOk result (λ found. IsUnlabelled sectors (names_triple runs.now)
        (labelled first labels.now) found.items) }
    ensures once { IfOk result (λ found. AreRuns sectors runs.now → AreOnce (all_triples found.items)) }
{
    let mut found = Vec::new(alloc);
    let mut left = sectors;
    for j in 0..runs.len() {
        left = add_unlabelled(&mut found, left, first, labels, sectors, runs[j])?;
    }
    Ok(found)
}
