//! A sorted list of entries, as the map uses it.
ghost use Rattle.std.specs.Prelude.{◌≡◌, ℕ, ◌+◌, ◌≤◌, List, length, false, IfOk, IfErr, IfSome, MatchResult, is_some};
ghost use Rattle.flat_mem.specs.Order.{IsInKeyOrder};
ghost use Rattle.file_map.specs.Entries.{Sight, Entry, Count, IsFirst, IsPut, IsReplaced, IsTakenOut, IsCause, IsPutCause, IsFullOr};
ghost use Rattle.page_tree.specs.Answer.{FromMemory, IsLastEntry};

use crate::run::{Key, Record};
use page_tree::TreeError;

/// A list of entries of 24 bytes in ascending order of their first 12 bytes, the key, that is searched.
pub trait SearchedEntries {
    /// What a memory that failed answers.
    type Error;

    /// The most transfers that a count spends.
    ghost count_cost: { ℕ };

    /// And a search for the last entry at most a key.
    ghost look_cost: { ℕ };

    /// And one for the first above it.
    ghost after_cost: { ℕ };

    /// The most entries that it takes.
    ghost room: { Self → ℕ };

    /// It reveals that its entries are these.
    ghost lists: { Self → List (List ℕ) → Type 0 };

    /// It reveals that it has so many entries, whatever their form is.
    ghost counts: { Self → ℕ → Type 0 };

    /// The transfers that were spent so far.
    ghost spent: { Self → ℕ };

    /// What stands beside the list was kept from the first state to the second.
    ghost beside: { Self → Self → Type 0 };

    /// From the first state to the second there were reads alone.
    ghost only_reads: { Self → Self → Type 0 };

    /// The memory's error is accounted for by what happened between the two states.
    ghost accounted: { Self → Self → Self.Error → Type 0 };

    /// What it reveals, whatever its form is, shows this.
    ghost shows: { Self → Sight → Type 0 };

    /// It reveals these bytes.
    ghost revealed: { Self → List ℕ → Type 0 };

    /// How many entries there are.
    fn count(&mut self) -> Result<u32, TreeError<Self::Error>>
        ensures count { (n : ℕ) → counts self.old n → IfOk result (λ count. count ≡ n) }
        ensures well { (xs : List (List ℕ)) → lists self.old xs → IfErr result FromMemory }
        ensures shown { IfOk result (λ count. shows self.old (Count count)) }
        ensures same { (xs : List (List ℕ)) → lists self.old xs → lists self.new xs }
        ensures same_count { (n : ℕ) → counts self.old n → counts self.new n }
        ensures same_sights { (sight : Sight) → shows self.new sight → shows self.old sight }
        ensures same_bytes { (b : List ℕ) → revealed self.old b → revealed self.new b }
        ensures kept { beside self.old self.new }
        ensures looked { only_reads self.old self.new }
        ensures cause { IfErr result (IsCause ⊥ (shows self.old) (accounted self.old self.new)) }
        ensures cost { spent self.new ≤ spent self.old + count_cost };

    /// The last entry whose key is at most the given one, and the page where it stands.
    fn look_up(
        &mut self,
        key: &Key,
        into: &mut Record,
    ) -> Result<Option<u32>, TreeError<Self::Error>>
        ensures answer { (xs : List (List ℕ)) → lists self.old xs
            → MatchResult result (λ found. IsLastEntry 12 xs key.now into.new (is_some found)) FromMemory }
        ensures shown { IfOk result (λ found. IfSome found (λ page. shows self.old (Entry page into.new))) }
        ensures same { (xs : List (List ℕ)) → lists self.old xs → lists self.new xs }
        ensures same_count { (n : ℕ) → counts self.old n → counts self.new n }
        ensures same_sights { (sight : Sight) → shows self.new sight → shows self.old sight }
        ensures same_bytes { (b : List ℕ) → revealed self.old b → revealed self.new b }
        ensures kept { beside self.old self.new }
        ensures looked { only_reads self.old self.new }
        ensures cause { IfErr result (IsCause ⊥ (shows self.old) (accounted self.old self.new)) }
        ensures cost { spent self.new ≤ spent self.old + look_cost };

    /// The first entry whose key is above the given one, and the page where it stands.
    fn look_after(
        &mut self,
        key: &Key,
        into: &mut Record,
    ) -> Result<Option<u32>, TreeError<Self::Error>>
        ensures answer { (xs : List (List ℕ)) → lists self.old xs
            → MatchResult result (IsFirst 12 xs key.now into.new) FromMemory }
        ensures shown { IfOk result (λ found. IfSome found (λ page. shows self.old (Entry page into.new))) }
        ensures same { (xs : List (List ℕ)) → lists self.old xs → lists self.new xs }
        ensures same_count { (n : ℕ) → counts self.old n → counts self.new n }
        ensures same_sights { (sight : Sight) → shows self.new sight → shows self.old sight }
        ensures same_bytes { (b : List ℕ) → revealed self.old b → revealed self.new b }
        ensures kept { beside self.old self.new }
        ensures looked { only_reads self.old self.new }
        ensures cause { IfErr result (IsCause ⊥ (shows self.old) (accounted self.old self.new)) }
        ensures cost { spent self.new ≤ spent self.old + after_cost };

    ghost ascending: { (t : Self) (xs : List (List ℕ)) → lists t xs → IsInKeyOrder 12 xs };

    ghost counted: { (t : Self) (xs : List (List ℕ)) → lists t xs → counts t (length xs) };

    ghost counted_once: { (t : Self) (n m : ℕ) → counts t n → counts t m → n ≡ m };

    ghost counted_revealed: { (t : Self) (b : List ℕ) → revealed t b → (n : ℕ) × counts t n };

    ghost same_room: { (a b : Self) → beside a b → room a ≡ room b };

    ghost beside_itself: { (t : Self) → beside t t };

    ghost beside_through: { (a b c : Self) → beside a b → beside b c → beside a c };

    ghost accounted_wider: { (a b c d : Self) (e : Self.Error) → beside a b → beside b c → beside c d → accounted b c e → accounted a d e };
}

/// A list that is searched, and whose entries are put in and written over.
pub trait SortedEntries: SearchedEntries {
    /// The most transfers that an insertion spends.
    ghost insert_cost: { ℕ };

    /// And a replacement.
    ghost replace_cost: { ℕ };

    /// Puts an entry after those whose key is at most its own.
    fn insert(&mut self, entry: &Record) -> Result<(), TreeError<Self::Error>>
        ensures answer { (xs : List (List ℕ)) → Self.lists self.old xs
            → MatchResult result (λ _. IsPut 12 (Self.lists self.new) xs entry.now)
            (IsFullOr (Self.room self.old) (Self.lists self.new) xs) }
        ensures kept { Self.beside self.old self.new }
        ensures cause { IfErr result
            (IsPutCause ((n : ℕ) → Self.counts self.old n → Self.room self.old ≤ n) (Self.shows self.old)
            (Self.accounted self.old self.new)) }
        ensures cost { Self.spent self.new ≤ Self.spent self.old + insert_cost };

    /// Writes an entry over the last with its key. False where there is none.
    fn replace_key(&mut self, entry: &Record) -> Result<bool, TreeError<Self::Error>>
        ensures answer { (xs : List (List ℕ)) → Self.lists self.old xs
            → MatchResult result (IsReplaced 12 (Self.lists self.new) xs entry.now) FromMemory }
        ensures same_count { IfOk result
            (λ done. done ≡ false → (n : ℕ) → Self.counts self.old n → Self.counts self.new n) }
        ensures same_sights { IfOk result
            (λ done. done ≡ false → (sight : Sight) → Self.shows self.new sight → Self.shows self.old sight) }
        ensures kept { Self.beside self.old self.new }
        ensures cause { IfErr result (IsCause ⊥ (Self.shows self.old) (Self.accounted self.old self.new)) }
        ensures cost { Self.spent self.new ≤ Self.spent self.old + replace_cost };
}

/// A list out of which entries are taken too.
pub trait CutEntries: SortedEntries {
    /// The most transfers that a removal spends.
    ghost remove_cost: { ℕ };

    /// Takes out the last entry with this key. False where there is none.
    fn remove_key(&mut self, key: &Key) -> Result<bool, TreeError<Self::Error>>
        ensures answer { (xs : List (List ℕ)) → Self.lists self.old xs
            → MatchResult result (IsTakenOut 12 (Self.lists self.new) xs key.now) FromMemory }
        ensures kept { Self.beside self.old self.new }
        ensures cause { IfErr result (IsCause ⊥ (Self.shows self.old) (Self.accounted self.old self.new)) }
        ensures cost { Self.spent self.new ≤ Self.spent self.old + remove_cost };
}
