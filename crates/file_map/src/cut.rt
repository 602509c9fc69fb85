//! The pages of a file from one on are cut off.
ghost use Rattle.std.specs.Prelude.{◌≡◌, ◌⊎◌, ℕ, ◌+◌, ◌*◌, ◌<◌, ◌≤◌, true, false, IfOk, IfErr, MatchResult};
ghost use Rattle.labelled_disk.specs.Layout.{IsCount};
ghost use Rattle.file_map.specs.FileMap.{AreNamed, IsSize, Triples, without_from, most_records};
ghost use Rattle.file_map.specs.Edits.{IsStep};
ghost use Rattle.file_map.specs.Cause.{IsCause, IsToCut, FromMemory};

use crate::count::count_of;
use crate::entries::CutEntries;
use crate::error::MapError;
use crate::run::{Run, key_of};
use crate::search::last_run;
use labelled_disk::{FileId, LEADER};

// Whether the file may have pages from `from` on left, once its last run, which begins at page `first`, was taken out.
fn may_have_more(taken: bool, first: u32, from: u32) -> bool
    ensures yes { result ≡ true → taken ≡ true }
    ensures no { result ≡ false → taken ≡ true → first ≤ from }
{
    taken && first > from
}

// Takes the last run of the file out where it begins at `from` or after it; true says that there may be more. Else the
// last run is shortened where it ends after `from`.
fn cut_last<T: CutEntries>(
    entries: &mut T,
    sectors: u32,
    id: FileId,
    from: u32,
) -> Result<bool, MapError<T::Error>>
    requires { sectors ≤ 1048576 }
    ensures step { (named : Triples) → AreNamed sectors (T.lists entries.old) named → (n : ℕ) → T.counts entries.old n
        → MatchResult result (IsStep sectors (T.lists entries.new) (T.counts entries.new) named id from n) FromMemory }
    ensures kept { T.beside entries.old entries.new }
    ensures cause { IfErr result (IsCause sectors ⊥ (T.shows entries.old) (T.accounted entries.old entries.new)) }
    ensures more { IfOk result (λ more. more ≡ true → IsToCut id from (T.shows entries.old)) }
    ensures cost { T.spent entries.new ≤ T.spent entries.old + T.look_cost + T.replace_cost + T.remove_cost }
{
    let run = match last_run(entries, sectors, id, LEADER)? {
        Some(run) => run,
        None => return Ok(false),
    };
    if run.id != id || run.end() <= u64::from(from) {
        return Ok(false);
    }
    if run.first >= from {
        let taken = entries.remove_key(&key_of(id, run.first))?;
        return Ok(may_have_more(taken, run.first, from));
    }
    let short = Run {
        id,
        first: run.first,
        pages: from - run.first,
        sector: run.sector,
    };
    entries.replace_key(&short.to_bytes())?;
    Ok(false)
}

/// Takes the pages of the file from one on out of the map, the leader among them.
pub fn cut<T: CutEntries>(
    entries: &mut T,
    sectors: u32,
    id: FileId,
    from: u32,
) -> Result<(), MapError<T::Error>>
    requires { IsCount sectors }
    ensures cut { (named : Triples) → AreNamed sectors (T.lists entries.old) named
        → MatchResult result (λ _. AreNamed sectors (T.lists entries.new) (without_from named id from)) FromMemory }
    ensures kept { T.beside entries.old entries.new }
    ensures cause { IfErr result
        (λ error.
        (m : T) × T.beside entries.old m × T.beside m entries.new
        × IsCause sectors ⊥ (T.shows m) (T.accounted entries.old entries.new) error) }
    ensures begun { IfErr result
        (λ error.
        IsCause sectors ⊥ (T.shows entries.old) (T.accounted entries.old entries.new) error
        ⊎ IsToCut id from (T.shows entries.old)) }
    ensures cost { T.spent entries.new ≤ T.spent entries.old + T.count_cost + most_records sectors
        * (T.look_cost + T.replace_cost + T.remove_cost) }
    ensures cost_sized { (named : Triples) (size : ℕ) → AreNamed sectors (T.lists entries.old) named
        → IsSize named id size
        → T.spent entries.new ≤ T.spent entries.old + T.count_cost + (size + 2)
        * (T.look_cost + T.replace_cost + T.remove_cost) }
{
    let mut left = count_of(entries, sectors)?;
    'cutting: while left > 0 {
        if !cut_last(entries, sectors, id, from)? {
            return Ok(());
        }
        left -= 1;
    }
    Ok(())
}
