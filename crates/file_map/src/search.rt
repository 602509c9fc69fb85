//! Searches for the run that a page may be in.
ghost use Rattle.std.specs.Prelude.{ℕ, ◌+◌, ◌≤◌, List, map, IfOk, IfErr, IfSome, MatchResult};
ghost use Rattle.file_map.specs.Run.{IsRun, run_bytes};
ghost use Rattle.file_map.specs.FileMap.{AreRuns};
ghost use Rattle.file_map.specs.Searches.{IsLastRun, IsFirstRun};
ghost use Rattle.file_map.specs.Entries.{Sight, Entry};
ghost use Rattle.file_map.specs.Cause.{IsCause, FromMemory};

use crate::entries::SearchedEntries;
use crate::error::MapError;
use crate::run::{Run, key_of, read_record};
use labelled_disk::FileId;

/// The last run whose first page is at most this one.
pub fn last_run<T: SearchedEntries>(
    entries: &mut T,
    sectors: u32,
    id: FileId,
    page: u32,
) -> Result<Option<Run>, MapError<T::Error>>
    requires { sectors ≤ 1048576 }
    ensures answer { (runs : List Run) → T.lists entries.old (map run_bytes runs) → AreRuns sectors runs
        → MatchResult result (IsLastRun runs id page) FromMemory }
    ensures form { IfOk result (λ found. IfSome found (λ run. IsRun sectors run)) }
    ensures shown { IfOk result
        (λ found. IfSome found (λ run. (at : ℕ) × T.shows entries.old (Entry at (run_bytes run)))) }
    ensures same { (xs : List (List ℕ)) → T.lists entries.old xs → T.lists entries.new xs }
    ensures same_count { (n : ℕ) → T.counts entries.old n → T.counts entries.new n }
    ensures same_sights { (sight : Sight) → T.shows entries.new sight → T.shows entries.old sight }
    ensures same_bytes { (b : List ℕ) → T.revealed entries.old b → T.revealed entries.new b }
    ensures kept { T.beside entries.old entries.new }
    ensures looked { T.only_reads entries.old entries.new }
    ensures cause { IfErr result (IsCause sectors ⊥ (T.shows entries.old) (T.accounted entries.old entries.new)) }
    ensures cost { T.spent entries.new ≤ T.spent entries.old + T.look_cost }
{
    let mut bytes = [0; 24];
    let Some(at) = entries.look_up(&key_of(id, page), &mut bytes)? else {
        return Ok(None);
    };
    match read_record(&bytes, sectors) {
        Some(run) => Ok(Some(run)),
        None => Err(MapError::Malformed { page: at }),
    }
}

/// The first run whose first page is above this one.
pub fn first_run_above<T: SearchedEntries>(
    entries: &mut T,
    sectors: u32,
    id: FileId,
    page: u32,
) -> Result<Option<Run>, MapError<T::Error>>
    requires { sectors ≤ 1048576 }
    ensures answer { (runs : List Run) → T.lists entries.old (map run_bytes runs) → AreRuns sectors runs
        → MatchResult result (IsFirstRun runs id page) FromMemory }
    ensures form { IfOk result (λ found. IfSome found (λ run. IsRun sectors run)) }
    ensures shown { IfOk result
        (λ found. IfSome found (λ run. (at : ℕ) × T.shows entries.old (Entry at (run_bytes run)))) }
    ensures same { (xs : List (List ℕ)) → T.lists entries.old xs → T.lists entries.new xs }
    ensures same_count { (n : ℕ) → T.counts entries.old n → T.counts entries.new n }
    ensures same_sights { (sight : Sight) → T.shows entries.new sight → T.shows entries.old sight }
    ensures same_bytes { (b : List ℕ) → T.revealed entries.old b → T.revealed entries.new b }
    ensures kept { T.beside entries.old entries.new }
    ensures looked { T.only_reads entries.old entries.new }
    ensures cause { IfErr result (IsCause sectors ⊥ (T.shows entries.old) (T.accounted entries.old entries.new)) }
    ensures cost { T.spent entries.new ≤ T.spent entries.old + T.after_cost }
{
    let mut bytes = [0; 24];
    let Some(at) = entries.look_after(&key_of(id, page), &mut bytes)? else {
        return Ok(None);
    };
    match read_record(&bytes, sectors) {
        Some(run) => Ok(Some(run)),
        None => Err(MapError::Malformed { page: at }),
    }
}
