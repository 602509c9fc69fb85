//! How many records there are, and may be.
ghost use Rattle.std.specs.Prelude.{◌≡◌, ℕ, ◌+◌, ◌≤◌, List, length, IfOk, IfErr};
ghost use Rattle.labelled_disk.specs.Layout.{IsCount};
ghost use Rattle.file_map.specs.FileMap.{most_records};
ghost use Rattle.file_map.specs.Entries.{Sight};
ghost use Rattle.file_map.specs.Cause.{IsCause, FromMemory};

use crate::entries::SearchedEntries;
use crate::error::MapError;

/// How many data sectors there are, so many records there may be.
pub fn most_of(sectors: u32) -> u32
    requires { IsCount sectors }
    ensures { result ≡ most_records sectors }
{
    sectors - 1 - sectors.div_ceil(4096) - (sectors / 8 + 2)
}

/// How many records there are.
pub fn count_of<T: SearchedEntries>(
    entries: &mut T,
    sectors: u32,
) -> Result<u32, MapError<T::Error>>
    requires { IsCount sectors }
    ensures count { (n : ℕ) → T.counts entries.old n → IfOk result (λ count. count ≡ n) }
    ensures few { IfOk result (λ count. count ≤ most_records sectors) }
    ensures well { (xs : List (List ℕ)) → T.lists entries.old xs → length xs ≤ most_records sectors
        → IfErr result FromMemory }
    ensures same { (xs : List (List ℕ)) → T.lists entries.old xs → T.lists entries.new xs }
    ensures same_count { (n : ℕ) → T.counts entries.old n → T.counts entries.new n }
    ensures same_sights { (sight : Sight) → T.shows entries.new sight → T.shows entries.old sight }
    ensures same_bytes { (b : List ℕ) → T.revealed entries.old b → T.revealed entries.new b }
    ensures kept { T.beside entries.old entries.new }
    ensures looked { T.only_reads entries.old entries.new }
    ensures cause { IfErr result (IsCause sectors ⊥ (T.shows entries.old) (T.accounted entries.old entries.new)) }
    ensures cost { T.spent entries.new ≤ T.spent entries.old + T.count_cost }
{
    let count = entries.count()?;
    if count > most_of(sectors) {
        return Err(MapError::Malformed { page: 0 });
    }
    Ok(count)
}
