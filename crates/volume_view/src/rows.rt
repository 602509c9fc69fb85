//! Pages in a row that stand in sectors in a row, as runs that are as long as they can be.
ghost use Rattle.std.specs.Prelude.{◌≡◌, ◌⊎◌, ◌+◌, ◌<◌, ◌^◌, ◌++◌, ◌∷◌, [], All, OnOk, IfOk, length};
ghost use Rattle.label_survey.specs.Runs.{all_triples, run_of, goes_on};
ghost use Rattle.volume_view.specs.Rows.{AreJoined};

use label_survey::{Run, Triple};
use std::alloc::{AllocError, Allocator};

// Whether the page goes on the run: in its number, and in its sector.
fn goes_on(run: &Run, page: &Triple) -> bool
    ensures { result ≡ goes_on run.now page.now }
{
    page.id == run.id
        && u64::from(page.page) == u64::from(run.first) + u64::from(run.pages)
        && u64::from(page.sector) == u64::from(run.sector) + u64::from(run.pages)
}

// The page alone.
fn run_of(page: Triple) -> Run
    ensures { result ≡ run_of page }
{
    Run {
        id: page.id,
        first: page.page,
        pages: 1,
        sector: page.sector,
    }
}

/// Adds a page after those of the runs: to the last run where it goes that on, or as a run of its own.
pub(crate) fn add_page<A: Allocator>(runs: &mut Vec<Run, A>, page: Triple) -> Result<(), AllocError>
    requires few { (page.sector + 1 < 2 ^ 32)
        ⊎ (length (all_triples runs.old.items) + 1 < 2 ^ 32) }
    ensures pages { OnOk result (all_triples runs.new.items
        ≡ all_triples runs.old.items ++ page ∷ []) }
    ensures joined { OnOk result (AreJoined runs.old.items → AreJoined runs.new.items) }
{
    let Some(last) = runs.pop() else {
        runs.push(run_of(page))?;
        return Ok(());
    };
    if goes_on(&last, &page) {
        let pages = last.pages + 1;
        runs.push(Run { pages, ..last })?;
        return Ok(());
    }
    runs.push(last)?;
    runs.push(run_of(page))?;
    Ok(())
}

/// These pages as runs, in their order.
pub(crate) fn join_pages<A: Allocator>(
    alloc: A,
    pages: &[Triple],
) -> Result<Vec<Run, A>, AllocError>
    requires few { All (λ t. t.sector + 1 < 2 ^ 32) pages.now ⊎ (length pages.now < 2 ^ 32) }
    ensures pages { IfOk result (λ runs. all_triples runs.items ≡ pages.now) }
    ensures joined { IfOk result (λ runs. AreJoined runs.items) }
{
    let mut runs = Vec::new(alloc);
    for i in 0..pages.len() {
        add_page(&mut runs, pages[i])?;
    }
    Ok(runs)
}
