//! The runs that were found last.
ghost use Rattle.std.specs.Prelude.{◌≡◌, ℕ, ◌≤◌, ◌++◌, ◌∷◌, ◌==◌, not, filter, find, [], length, option_copied};
ghost use Rattle.file_map.specs.Run.{IsRun, holds};
ghost use Rattle.filer_kernel.specs.Runs.{AreRunsOf, newest};
ghost use Rattle.filer_kernel.specs.RunLaws.{are_once};

use arrayvec::ArrayVec;
use file_map::Run;
use labelled_disk::FileId;

/// At most 32 runs of a volume of so many sectors, the oldest first. Of a volume of another size it has none.
#[derive(Drop)]
pub struct CachedRuns {
    pub(crate) sectors: u32,
    pub(crate) runs: ArrayVec<Run, 32>,
    ghost form: { AreRunsOf sectors runs.items } by { are_once sectors runs.items },
    ghost few: { length runs.items ≤ 32 },
}

// The first of these runs that has the page.
fn first_with(runs: &[Run], id: FileId, page: u32) -> Option<&Run>
    ensures { option_copied result ≡ find (λ r. holds r id page) runs.now }
{
    runs.iter().find(|run| run.holds(id, page))
}

impl CachedRuns {
    ghost use Rattle.filer_kernel.specs.Cached.{runs_of};

    /// No runs.
    pub fn new(sectors: u32) -> CachedRuns
        ensures sectors { result.sectors ≡ sectors }
        ensures empty { (n : ℕ) → runs_of n result ≡ [] }
    {
        CachedRuns {
            sectors,
            runs: ArrayVec::new(),
        }
    }

    /// The oldest run that has the page.
    pub fn find(&self, sectors: u32, id: FileId, page: u32) -> Option<Run>
        ensures { result ≡ find (λ r. holds r id page) (runs_of sectors self.now) }
    {
        if self.sectors != sectors {
            return None;
        }
        first_with(&self.runs, id, page).copied()
    }

    // Keeps one more run of the same volume.
    fn push(&mut self, run: Run)
        requires { IsRun self.old.sectors run }
        ensures runs { self.new.runs.items ≡ newest 32 (self.old.runs.items ++ run ∷ []) }
        ensures sectors { self.new.sectors ≡ self.old.sectors }
    {
        if self.runs.is_full() {
            self.runs.remove(0);
        }
        self.runs.push(run);
    }

    /// Keeps a run as the newest. Of 33 the oldest is dropped.
    pub fn keep(&mut self, sectors: u32, run: Run)
        requires { IsRun sectors run }
        ensures { runs_of sectors self.new ≡ newest 32 (runs_of sectors self.old ++ run ∷ []) }
    {
        if self.sectors != sectors {
            *self = CachedRuns::new(sectors);
        }
        self.push(run);
    }

    /// Drops the runs of a file.
    pub fn discard(&mut self, id: FileId)
        ensures { (n : ℕ) → runs_of n self.new ≡ filter (λ r. not (r.id == id)) (runs_of n self.old) }
    {
        self.runs.retain(|run| run.id != id);
    }
}
