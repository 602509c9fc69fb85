//! A run is added to the map.
ghost use Rattle.std.specs.Prelude.{◌≡◌, ℕ, ◌+◌, ◌<◌, ◌≤◌, true, false, List, IfOk, IfErr, IfSome, MatchResult};
ghost use Rattle.labelled_disk.specs.Layout.{IsCount};
ghost use Rattle.file_map.specs.Run.{IsRun};
ghost use Rattle.file_map.specs.FileMap.{AreNamed, Triples, IsNew, with_run, most_records};
ghost use Rattle.file_map.specs.Edits.{Joins};
ghost use Rattle.file_map.specs.Entries.{Sight};
ghost use Rattle.file_map.specs.Cause.{IsCause, IsAddCause, FromMemory, IsFullOr, IsMost, IfFull};

use crate::count::{count_of, most_of};
use crate::entries::SortedEntries;
use crate::error::MapError;
use crate::run::Run;
use crate::search::last_run;
use labelled_disk::LEADER;

// A run together with the one before it, where they touch in page and in sector.
fn join(before: Run, run: Run, sectors: u32) -> Option<Run>
    requires few { sectors ≤ 1048576 }
    requires first { IsRun sectors before }
    requires second { IsRun sectors run }
    ensures { IfSome result (λ both. Joins before run both) }
{
    if before.id == run.id
        && before.end() == u64::from(run.first)
        && before.sector + before.pages == run.sector
    {
        return Some(Run {
            id: before.id,
            first: before.first,
            pages: before.pages + run.pages,
            sector: before.sector,
        });
    }
    None
}

// Joins a run to the one before it. False where they don't touch, and then nothing is changed.
fn extend<T: SortedEntries>(
    entries: &mut T,
    sectors: u32,
    run: Run,
) -> Result<bool, MapError<T::Error>>
    requires few { sectors ≤ 1048576 }
    requires run { IsRun sectors run }
    ensures joined { (named : Triples) → AreNamed sectors (T.lists entries.old) named → IsNew named run
        → IfOk result (λ done. done ≡ true → AreNamed sectors (T.lists entries.new) (with_run named run)) }
    ensures same { (xs : List (List ℕ)) → T.lists entries.old xs
        → IfOk result (λ done. done ≡ false → T.lists entries.new xs) }
    ensures same_count { IfOk result
        (λ done. done ≡ false → (n : ℕ) → T.counts entries.old n → T.counts entries.new n) }
    ensures same_sights { IfOk result
        (λ done. done ≡ false → (sight : Sight) → T.shows entries.new sight → T.shows entries.old sight) }
    ensures well { (named : Triples) → AreNamed sectors (T.lists entries.old) named → IfErr result FromMemory }
    ensures kept { T.beside entries.old entries.new }
    ensures cause { IfErr result (IsCause sectors ⊥ (T.shows entries.old) (T.accounted entries.old entries.new)) }
    ensures cost { T.spent entries.new ≤ T.spent entries.old + T.look_cost + T.replace_cost }
{
    let before = match last_run(entries, sectors, run.id, run.first)? {
        Some(before) => before,
        None => return Ok(false),
    };
    let both = match join(before, run, sectors) {
        Some(both) => both,
        None => return Ok(false),
    };
    let done = entries.replace_key(&both.to_bytes())?;
    Ok(done)
}

// Whether the run may begin where another of its file ends. A leader stands apart.
fn may_join(run: Run) -> bool {
    run.first > 0 && run.first < LEADER
}

// Adds a run, where there is room for one more record.
fn put<T: SortedEntries>(entries: &mut T, sectors: u32, run: Run) -> Result<(), MapError<T::Error>>
    requires few { sectors ≤ 1048576 }
    requires run { IsRun sectors run }
    ensures added { (named : Triples) → AreNamed sectors (T.lists entries.old) named → IsNew named run → (n : ℕ)
        → T.counts entries.old n → n < most_records sectors → n < T.room entries.old
        → MatchResult result (λ _. AreNamed sectors (T.lists entries.new) (with_run named run)) FromMemory }
    ensures kept { T.beside entries.old entries.new }
    ensures cause { IfErr result
        (IsAddCause sectors ((n : ℕ) → T.counts entries.old n → T.room entries.old ≤ n) (T.shows entries.old)
        (T.accounted entries.old entries.new)) }
    ensures cost { T.spent entries.new ≤ T.spent entries.old + T.look_cost + T.replace_cost + T.insert_cost }
{
    if !may_join(run) {
        entries.insert(&run.to_bytes())?;
        return Ok(());
    }
    if extend(entries, sectors, run)? {
        return Ok(());
    }
    entries.insert(&run.to_bytes())?;
    Ok(())
}

/// Adds a run. Its pages have no sector yet.
pub fn add<T: SortedEntries>(
    entries: &mut T,
    sectors: u32,
    run: Run,
) -> Result<(), MapError<T::Error>>
    requires count { IsCount sectors }
    requires run { IsRun sectors run }
    requires room { most_records sectors ≤ T.room entries.old }
    ensures added { (named : Triples) → AreNamed sectors (T.lists entries.old) named → IsNew named run
        → MatchResult result (λ _. AreNamed sectors (T.lists entries.new) (with_run named run))
        (IsFullOr (T.counts entries.old (most_records sectors)) (AreNamed sectors (T.lists entries.new) named)) }
    ensures room { (n : ℕ) → T.counts entries.old n → IfOk result (λ _. n < most_records sectors) }
    ensures full_same { (b : List ℕ) → T.revealed entries.old b → IfErr result (IfFull (T.revealed entries.new b)) }
    ensures kept { T.beside entries.old entries.new }
    ensures cause { IfErr result
        (IsAddCause sectors (IsMost sectors (T.counts entries.old)) (T.shows entries.old)
        (T.accounted entries.old entries.new)) }
    ensures cost { T.spent entries.new ≤ T.spent entries.old + T.count_cost + T.look_cost + T.replace_cost
        + T.insert_cost }
{
    if count_of(entries, sectors)? == most_of(sectors) {
        return Err(MapError::Full);
    }
    put(entries, sectors, run)
}
