//! What the map says of a page, of a file, and of the files after one.
ghost use Rattle.std.specs.Prelude.{◌≡◌, ℕ, ◌+◌, ◌<◌, ◌≤◌, true, List, IfOk, IfErr, IfSome, MatchResult};
ghost use Rattle.file_map.specs.Run.{IsRun, holds, run_bytes};
ghost use Rattle.file_map.specs.FileMap.{AreNamed, Triples, IsFound, IsSize, IsNext};
ghost use Rattle.file_map.specs.Entries.{Sight, Entry};
ghost use Rattle.file_map.specs.Cause.{IsCause, FromMemory};

use crate::entries::SearchedEntries;
use crate::error::MapError;
use crate::run::Run;
use crate::search::{first_run_above, last_run};
use labelled_disk::{FileId, LEADER};

/// The run that has this page.
pub fn find<T: SearchedEntries>(
    entries: &mut T,
    sectors: u32,
    id: FileId,
    page: u32,
) -> Result<Option<Run>, MapError<T::Error>>
    requires { sectors ≤ 1048576 }
    ensures found { (named : Triples) → AreNamed sectors (T.lists entries.old) named
        → MatchResult result (IsFound named id page) FromMemory }
    ensures form { IfOk result (λ found. IfSome found (λ run. IsRun sectors run)) }
    ensures holds { IfOk result (λ found. IfSome found (λ run. holds run id page ≡ true)) }
    ensures read { IfOk result
        (λ found. IfSome found (λ run. (at : ℕ) × T.shows entries.old (Entry at (run_bytes run)))) }
    ensures same { (xs : List (List ℕ)) → T.lists entries.old xs → T.lists entries.new xs }
    ensures same_count { (n : ℕ) → T.counts entries.old n → T.counts entries.new n }
    ensures same_sights { (sight : Sight) → T.shows entries.new sight → T.shows entries.old sight }
    ensures same_bytes { (b : List ℕ) → T.revealed entries.old b → T.revealed entries.new b }
    ensures kept { T.beside entries.old entries.new × T.only_reads entries.old entries.new }
    ensures cause { IfErr result (IsCause sectors ⊥ (T.shows entries.old) (T.accounted entries.old entries.new)) }
    ensures cost { T.spent entries.new ≤ T.spent entries.old + T.look_cost }
{
    let run = match last_run(entries, sectors, id, page)? {
        Some(run) => run,
        None => return Ok(None),
    };
    if run.holds(id, page) {
        return Ok(Some(run));
    }
    Ok(None)
}

/// One more than the highest page of the file but its leader.
pub fn size<T: SearchedEntries>(
    entries: &mut T,
    sectors: u32,
    id: FileId,
) -> Result<u32, MapError<T::Error>>
    requires { sectors ≤ 1048576 }
    ensures size { (named : Triples) → AreNamed sectors (T.lists entries.old) named
        → MatchResult result (IsSize named id) FromMemory }
    ensures same { (xs : List (List ℕ)) → T.lists entries.old xs → T.lists entries.new xs }
    ensures same_count { (n : ℕ) → T.counts entries.old n → T.counts entries.new n }
    ensures same_sights { (sight : Sight) → T.shows entries.new sight → T.shows entries.old sight }
    ensures same_bytes { (b : List ℕ) → T.revealed entries.old b → T.revealed entries.new b }
    ensures kept { T.beside entries.old entries.new }
    ensures looked { T.only_reads entries.old entries.new }
    ensures cause { IfErr result (IsCause sectors ⊥ (T.shows entries.old) (T.accounted entries.old entries.new)) }
    ensures cost { T.spent entries.new ≤ T.spent entries.old + T.look_cost }
{
    let run = match last_run(entries, sectors, id, LEADER - 1)? {
        Some(run) => run,
        None => return Ok(0),
    };
    if run.id != id {
        return Ok(0);
    }
    Ok(run.end().min(u64::from(LEADER)) as u32)
}

/// The least identifier above this one, and at least 16, of which there is a run.
pub fn next_file<T: SearchedEntries>(
    entries: &mut T,
    sectors: u32,
    id: FileId,
) -> Result<Option<FileId>, MapError<T::Error>>
    requires { sectors ≤ 1048576 }
    ensures next { (named : Triples) → AreNamed sectors (T.lists entries.old) named
        → MatchResult result (IsNext named id) FromMemory }
    ensures above { IfOk result (λ found. IfSome found (λ next. (id < next) × (16 ≤ next))) }
    ensures same { (xs : List (List ℕ)) → T.lists entries.old xs → T.lists entries.new xs }
    ensures same_count { (n : ℕ) → T.counts entries.old n → T.counts entries.new n }
    ensures same_sights { (sight : Sight) → T.shows entries.new sight → T.shows entries.old sight }
    ensures same_bytes { (b : List ℕ) → T.revealed entries.old b → T.revealed entries.new b }
    ensures kept { T.beside entries.old entries.new }
    ensures looked { T.only_reads entries.old entries.new }
    ensures cause { IfErr result (IsCause sectors ⊥ (T.shows entries.old) (T.accounted entries.old entries.new)) }
    ensures cost { T.spent entries.new ≤ T.spent entries.old + T.after_cost }
{
    let start = id.max(15);
    let run = match first_run_above(entries, sectors, start, LEADER)? {
        Some(run) => run,
        None => return Ok(None),
    };
    if run.id > start {
        return Ok(Some(run.id));
    }
    Ok(None)
}
