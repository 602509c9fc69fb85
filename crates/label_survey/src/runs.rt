//! Pages in a row that stand in sectors in a row.
ghost use Rattle.std.specs.Prelude.{◌≡◌, ◌+◌, ◌<◌, ◌^◌, length, IfOk};
ghost use Rattle.label_survey.specs.Runs.{AreRunsOf, run_of, goes_on};

use crate::triples::Triple;
use labelled_disk::{FileId, NoMemory};
use std::alloc::{AllocError, Allocator};

/// Page `first + k` of the file stands in sector `sector + k`, for each k below `pages`.
#[derive(Clone, Copy, Debug, PartialEq, Eq)]
pub struct Run {
    pub id: FileId,
    pub first: u32,
    pub pages: u32,
    pub sector: u32,
}

impl Run {
    fn of(triple: &Triple) -> Run
        ensures { result ≡ run_of triple.now }
    {
        Run {
            id: triple.id,
            first: triple.page,
            pages: 1,
            sector: triple.sector,
        }
    }

    fn goes_on(&self, triple: &Triple) -> bool
        ensures { result ≡ goes_on self.now triple.now }
    {
        triple.id == self.id
            && u64::from(triple.page) == u64::from(self.first) + u64::from(self.pages)
            && u64::from(triple.sector) == u64::from(self.sector) + u64::from(self.pages)
    }
}

fn join_triples<A: Allocator>(alloc: A, triples: &[Triple]) -> Result<Vec<Run, A>, AllocError>
    requires few { length triples.now < 2 ^ 32 }
    ensures { IfOk result (λ runs. AreRunsOf triples.now runs.items) }
{
    let mut runs = Vec::new(alloc);
    if triples.is_empty() {
        return Ok(runs);
    }
    let mut open = Run::of(&triples[0]);
    for i in 1..triples.len() {
        let triple = &triples[i];
        if open.goes_on(triple) {
            open.pages += 1;
        } else {
            runs.push(open)?;
            open = Run::of(triple);
        }
    }
    runs.push(open)?;
    Ok(runs)
}

/// Triples as runs, in their order.
pub fn runs_of<A: Allocator>(alloc: A, triples: &[Triple]) -> Result<Vec<Run, A>, NoMemory>
    requires few { length triples.now < 2 ^ 32 }
    ensures { IfOk result (λ runs. AreRunsOf triples.now runs.items) }
{
    Ok(join_triples(alloc, triples)?)
}
