//! The tree.
ghost use Rattle.std.specs.Prelude.{◌≡◌, ℕ, ◌+◌, ◌*◌, ◌/◌, ◌^◌, ◌<◌, ◌≤◌, ◌⊎◌, List, [], length, take, remove, slice_set, false, IfOk, IfErr, IfSome, MatchResult, is_some, replicate};
ghost use Rattle.flat_mem.specs.Order.{entry_at, key_at, IsFound};
ghost use Rattle.page_tree.specs.Answer.{IsLastEntry, IsNextEntry, FromMemory, IfMemNotFull, IfMemory, IfFull, IsPast};
ghost use Rattle.page_tree.specs.Page.{IsWidths, page_at, count_in};
ghost use Rattle.page_tree.specs.Put.{capacity_of};
ghost use Rattle.page_tree.specs.Broken.{Breaks, StopsInsertion, IfMalformed};
ghost use Rattle.page_tree.specs.Reveals.{IsInserted, IsFull, IsTakenOut, IsPutOver, StandsIn};
ghost use Rattle.page_tree.specs.Indexed.{HasNth, IsNth, IsNthSet, MissesNth};

use crate::error::TreeError;
use crate::{
    adding, after, by_index, edit_by_index, last_at_most, look, out_by_index, removing, replacing,
    take,
};
use flat_mem::{FlatMem, PAGE_BYTES};

/// A sorted list of entries of `E` bytes, whose first `K` bytes are the key, kept as a tree of pages.
///
/// Page 0 of the memory is the header. The tree keeps nothing beside its memory, so that it may be begun in one call and
/// gone on with in another. After an error in a call that writes the bytes are open.
#[derive(Drop)]
pub struct PageTree<M: FlatMem, const E: usize, const K: usize> {
    mem: M,
    ghost widths: { IsWidths E K },
    ghost least: { 9 * 512 ≤ M.size mem },
    ghost most: { M.size mem ≤ 2 ^ 27 },
}

impl<M: FlatMem + Drop, const E: usize, const K: usize> PageTree<M, E, K> {
    ghost use Rattle.page_tree.specs.PageTree.{tree_memory, Lists};

    /// Makes the list without entries, whatever the memory holds.
    pub fn begin(mem: M) -> Result<PageTree<M, E, K>, TreeError<M::Error>>
        requires widths { IsWidths E K }
        requires least { 9 * 512 ≤ M.size mem }
        requires most { M.size mem ≤ 2 ^ 27 }
        ensures empty { (b : List ℕ) → M.reveals mem b → IfOk result (λ t. Lists t []) }
        ensures cause { IfErr result
            (λ why. (m : M) × M.beside mem m × FromMemory why × IfMemNotFull (M.accounted mem m) why) }
        ensures kept { IfOk result (λ t. M.beside mem (tree_memory t)) }
        ensures cost { IfOk result (λ t. M.spent (tree_memory t) ≤ M.spent mem + M.cost) }
    {
        let mut mem = mem;
        match take::begin::<M, E, K>(&mut mem) {
            Ok(()) => Ok(PageTree { mem }),
            Err(error) => Err(error),
        }
    }
}

impl<M: FlatMem, const E: usize, const K: usize> PageTree<M, E, K> {
    ghost use Rattle.page_tree.specs.PageTree.{tree_memory, Lists};

    /// The tree that stands in the memory. A header of zeros is that of the list without entries.
    pub fn over(mem: M) -> PageTree<M, E, K>
        requires widths { IsWidths E K }
        requires least { 9 * 512 ≤ M.size mem }
        requires most { M.size mem ≤ 2 ^ 27 }
        ensures memory { tree_memory result ≡ mem }
        ensures zeros { (b : List ℕ) → M.reveals mem b → page_at b 0 ≡ replicate 512 0 → Lists result [] }
    {
        PageTree { mem }
    }

    /// How many entries there may be.
    pub fn capacity(&self) -> u32
        ensures { result ≡ capacity_of E (M.size (tree_memory self.now) / 512) }
    {
        look::capacity_of_pages::<E>((self.mem.len() / PAGE_BYTES as u64) as u32)
    }

    /// How many entries there are, as the header says.
    pub fn count(&mut self) -> Result<u32, TreeError<M::Error>>
        ensures count { (xs : List (List ℕ)) → Lists self.old xs → MatchResult result (λ n. n ≡ length xs) FromMemory }
        ensures header { (b : List ℕ) → M.reveals (tree_memory self.old) b
            → IfOk result (λ n. n ≡ count_in (page_at b 0)) }
        ensures malformed { (b : List ℕ) → M.reveals (tree_memory self.old) b
            → IfErr result (IfMalformed (Breaks E K (M.size (tree_memory self.old) / 512) b)) }
        ensures inside { (b : List ℕ) → M.reveals (tree_memory self.old) b
            → IfErr result (IfMalformed (λ page. page < M.size (tree_memory self.old) / 512)) }
        ensures cause { IfErr result (IfMemNotFull (M.accounted (tree_memory self.old) (tree_memory self.new))) }
        ensures same_list { (xs : List (List ℕ)) → Lists self.old xs → Lists self.new xs }
        ensures same_bytes { (b : List ℕ) → M.reveals (tree_memory self.old) b → M.reveals (tree_memory self.new) b }
        ensures kept { M.beside (tree_memory self.old) (tree_memory self.new) }
        ensures looked { M.only_reads (tree_memory self.old) (tree_memory self.new) }
        ensures cost { M.spent (tree_memory self.new) ≤ M.spent (tree_memory self.old) + M.cost }
    {
        look::count::<M, E, K>(&mut self.mem)
    }

    /// Finds the last entry whose key is at most `key`, and gives it in `into`.
    pub fn look_up(
        &mut self,
        key: &[u8; K],
        into: &mut [u8; E],
    ) -> Result<bool, TreeError<M::Error>>
        ensures found { (xs : List (List ℕ)) → Lists self.old xs
            → MatchResult result (IsLastEntry K xs key.now into.new) FromMemory }
        ensures malformed { (b : List ℕ) → M.reveals (tree_memory self.old) b
            → IfErr result (IfMalformed (Breaks E K (M.size (tree_memory self.old) / 512) b)) }
        ensures inside { (b : List ℕ) → M.reveals (tree_memory self.old) b
            → IfErr result (IfMalformed (λ page. page < M.size (tree_memory self.old) / 512)) }
        ensures cause { IfErr result (IfMemNotFull (M.accounted (tree_memory self.old) (tree_memory self.new))) }
        ensures same_list { (xs : List (List ℕ)) → Lists self.old xs → Lists self.new xs }
        ensures same_bytes { (b : List ℕ) → M.reveals (tree_memory self.old) b → M.reveals (tree_memory self.new) b }
        ensures kept { M.beside (tree_memory self.old) (tree_memory self.new) }
        ensures looked { M.only_reads (tree_memory self.old) (tree_memory self.new) }
        ensures cost { M.spent (tree_memory self.new) ≤ M.spent (tree_memory self.old) + 7 * M.cost }
    {
        match look::look_up(&mut self.mem, key, into) {
            Ok(found) => Ok(found.is_some()),
            Err(error) => Err(error),
        }
    }

    /// Finds the last entry whose key is at most `key`, gives it in `into`, and answers the page of its leaf.
    pub fn look_up_at(
        &mut self,
        key: &[u8; K],
        into: &mut [u8; E],
    ) -> Result<Option<u32>, TreeError<M::Error>>
        ensures found { (xs : List (List ℕ)) → Lists self.old xs
            → MatchResult result (λ page. IsLastEntry K xs key.now into.new (is_some page)) FromMemory }
        ensures page { (b : List ℕ) → M.reveals (tree_memory self.old) b
            → IfOk result (λ page. IfSome page (StandsIn E K b into.new)) }
        ensures malformed { (b : List ℕ) → M.reveals (tree_memory self.old) b
            → IfErr result (IfMalformed (Breaks E K (M.size (tree_memory self.old) / 512) b)) }
        ensures inside { (b : List ℕ) → M.reveals (tree_memory self.old) b
            → IfErr result (IfMalformed (λ page. page < M.size (tree_memory self.old) / 512)) }
        ensures cause { IfErr result (IfMemNotFull (M.accounted (tree_memory self.old) (tree_memory self.new))) }
        ensures same_list { (xs : List (List ℕ)) → Lists self.old xs → Lists self.new xs }
        ensures same_bytes { (b : List ℕ) → M.reveals (tree_memory self.old) b → M.reveals (tree_memory self.new) b }
        ensures kept { M.beside (tree_memory self.old) (tree_memory self.new) }
        ensures looked { M.only_reads (tree_memory self.old) (tree_memory self.new) }
        ensures cost { M.spent (tree_memory self.new) ≤ M.spent (tree_memory self.old) + 7 * M.cost }
    {
        look::look_up(&mut self.mem, key, into)
    }

    /// Finds the first entry whose key is above `key`, and gives it in `into`.
    pub fn look_after(
        &mut self,
        key: &[u8; K],
        into: &mut [u8; E],
    ) -> Result<bool, TreeError<M::Error>>
        ensures found { (xs : List (List ℕ)) → Lists self.old xs
            → MatchResult result (IsNextEntry K xs key.now into.new) FromMemory }
        ensures malformed { (b : List ℕ) → M.reveals (tree_memory self.old) b
            → IfErr result (IfMalformed (Breaks E K (M.size (tree_memory self.old) / 512) b)) }
        ensures inside { (b : List ℕ) → M.reveals (tree_memory self.old) b
            → IfErr result (IfMalformed (λ page. page < M.size (tree_memory self.old) / 512)) }
        ensures cause { IfErr result (IfMemNotFull (M.accounted (tree_memory self.old) (tree_memory self.new))) }
        ensures same_list { (xs : List (List ℕ)) → Lists self.old xs → Lists self.new xs }
        ensures same_bytes { (b : List ℕ) → M.reveals (tree_memory self.old) b → M.reveals (tree_memory self.new) b }
        ensures kept { M.beside (tree_memory self.old) (tree_memory self.new) }
        ensures looked { M.only_reads (tree_memory self.old) (tree_memory self.new) }
        ensures cost { M.spent (tree_memory self.new) ≤ M.spent (tree_memory self.old) + 18 * M.cost }
    {
        match after::look_after(&mut self.mem, key, into) {
            Ok(found) => Ok(found.is_some()),
            Err(error) => Err(error),
        }
    }

    /// Finds the first entry whose key is above `key`, gives it in `into`, and answers the page of its leaf.
    pub fn look_after_at(
        &mut self,
        key: &[u8; K],
        into: &mut [u8; E],
    ) -> Result<Option<u32>, TreeError<M::Error>>
        ensures found { (xs : List (List ℕ)) → Lists self.old xs
            → MatchResult result (λ page. IsNextEntry K xs key.now into.new (is_some page)) FromMemory }
        ensures page { (b : List ℕ) → M.reveals (tree_memory self.old) b
            → IfOk result (λ page. IfSome page (StandsIn E K b into.new)) }
        ensures malformed { (b : List ℕ) → M.reveals (tree_memory self.old) b
            → IfErr result (IfMalformed (Breaks E K (M.size (tree_memory self.old) / 512) b)) }
        ensures inside { (b : List ℕ) → M.reveals (tree_memory self.old) b
            → IfErr result (IfMalformed (λ page. page < M.size (tree_memory self.old) / 512)) }
        ensures cause { IfErr result (IfMemNotFull (M.accounted (tree_memory self.old) (tree_memory self.new))) }
        ensures same_list { (xs : List (List ℕ)) → Lists self.old xs → Lists self.new xs }
        ensures same_bytes { (b : List ℕ) → M.reveals (tree_memory self.old) b → M.reveals (tree_memory self.new) b }
        ensures kept { M.beside (tree_memory self.old) (tree_memory self.new) }
        ensures looked { M.only_reads (tree_memory self.old) (tree_memory self.new) }
        ensures cost { M.spent (tree_memory self.new) ≤ M.spent (tree_memory self.old) + 18 * M.cost }
    {
        after::look_after(&mut self.mem, key, into)
    }

    /// Adds an entry after the last whose key is at most its own.
    pub fn insert(&mut self, entry: &[u8; E]) -> Result<(), TreeError<M::Error>>
        ensures inserted { (xs : List (List ℕ)) → Lists self.old xs
            → MatchResult result
            (λ _. IsInserted E K (M.size (tree_memory self.old) / 512) (Lists self.new) xs entry.now)
            (IsFull E (M.size (tree_memory self.old) / 512) (Lists self.new) xs) }
        ensures full { (b : List ℕ) → M.reveals (tree_memory self.old) b
            → IfErr result (IfFull (capacity_of E (M.size (tree_memory self.old) / 512) ≤ count_in (page_at b 0))) }
        ensures full_same { (b : List ℕ) → M.reveals (tree_memory self.old) b
            → IfErr result (IfFull (M.reveals (tree_memory self.new) b)) }
        ensures malformed { (b : List ℕ) → M.reveals (tree_memory self.old) b
            → IfErr result (IfMalformed (StopsInsertion E K (M.size (tree_memory self.old) / 512) b)) }
        ensures inside { (b : List ℕ) → M.reveals (tree_memory self.old) b
            → IfErr result (IfMalformed (λ page. page < M.size (tree_memory self.old) / 512)) }
        ensures cause { IfErr result (IfMemory (M.accounted (tree_memory self.old) (tree_memory self.new))) }
        ensures kept { M.beside (tree_memory self.old) (tree_memory self.new) }
        ensures cost { M.spent (tree_memory self.new) ≤ M.spent (tree_memory self.old) + 33 * M.cost }
    {
        adding::insert::<M, E, K>(&mut self.mem, entry)
    }

    /// Takes out the last entry that has this key, and says whether there was one.
    pub fn remove_key(&mut self, key: &[u8; K]) -> Result<bool, TreeError<M::Error>>
        ensures removed { (xs : List (List ℕ)) → Lists self.old xs
            → MatchResult result (IsTakenOut K (Lists self.new) xs key.now) FromMemory }
        ensures absent { (b : List ℕ) → M.reveals (tree_memory self.old) b
            → IfOk result (λ found. found ≡ false → M.reveals (tree_memory self.new) b) }
        ensures malformed { (b : List ℕ) → M.reveals (tree_memory self.old) b
            → IfErr result (IfMalformed (Breaks E K (M.size (tree_memory self.old) / 512) b)) }
        ensures inside { (b : List ℕ) → M.reveals (tree_memory self.old) b
            → IfErr result (IfMalformed (λ page. page < M.size (tree_memory self.old) / 512)) }
        ensures cause { IfErr result (IfMemNotFull (M.accounted (tree_memory self.old) (tree_memory self.new))) }
        ensures kept { M.beside (tree_memory self.old) (tree_memory self.new) }
        ensures cost { M.spent (tree_memory self.new) ≤ M.spent (tree_memory self.old) + 36 * M.cost }
    {
        removing::remove_key::<M, E, K>(&mut self.mem, key)
    }

    /// Writes an entry over the last that has its key, and says whether there was one.
    pub fn replace_key(&mut self, entry: &[u8; E]) -> Result<bool, TreeError<M::Error>>
        ensures replaced { (xs : List (List ℕ)) → Lists self.old xs
            → MatchResult result (IsPutOver K (Lists self.new) xs entry.now) FromMemory }
        ensures absent { (b : List ℕ) → M.reveals (tree_memory self.old) b
            → IfOk result (λ found. found ≡ false → M.reveals (tree_memory self.new) b) }
        ensures malformed { (b : List ℕ) → M.reveals (tree_memory self.old) b
            → IfErr result (IfMalformed (Breaks E K (M.size (tree_memory self.old) / 512) b)) }
        ensures inside { (b : List ℕ) → M.reveals (tree_memory self.old) b
            → IfErr result (IfMalformed (λ page. page < M.size (tree_memory self.old) / 512)) }
        ensures cause { IfErr result (IfMemNotFull (M.accounted (tree_memory self.old) (tree_memory self.new))) }
        ensures kept { M.beside (tree_memory self.old) (tree_memory self.new) }
        ensures cost { M.spent (tree_memory self.new) ≤ M.spent (tree_memory self.old) + 8 * M.cost }
    {
        replacing::replace_key::<M, E, K>(&mut self.mem, entry)
    }

    /// Gives in `into` the entry of this index, found leaf by leaf.
    pub fn nth(&mut self, index: u32, into: &mut [u8; E]) -> Result<(), TreeError<M::Error>>
        ensures entry { (xs : List (List ℕ)) → Lists self.old xs → index < length xs
            → MatchResult result (λ _. into.new ≡ entry_at xs index) FromMemory }
        ensures past { ((xs : List (List ℕ)) → Lists self.old xs → length xs ≤ index
            → MatchResult result (λ _. ⊥) IsPast)
            × ((b : List ℕ) → M.reveals (tree_memory self.old) b → count_in (page_at b 0) ≤ index
            → MatchResult result (λ _. ⊥) IsPast) }
        ensures stands { (b : List ℕ) → M.reveals (tree_memory self.old) b
            → IfOk result (λ _. IsNth E K b index into.new) }
        ensures malformed { (b : List ℕ) → M.reveals (tree_memory self.old) b
            → IfErr result
            (IfMalformed
            (λ page.
            Breaks E K (M.size (tree_memory self.old) / 512) b page
            ⊎ ((page ≡ 0) × (count_in (page_at b 0) ≤ index)))) }
        ensures missing { (b : List ℕ) → M.reveals (tree_memory self.old) b
            → IfErr result
            (IfMalformed (λ page. page ≡ 0 → MissesNth E K (M.size (tree_memory self.old) / 512) b index)) }
        ensures inside { (b : List ℕ) → M.reveals (tree_memory self.old) b
            → IfErr result (IfMalformed (λ page. page < M.size (tree_memory self.old) / 512)) }
        ensures cause { IfErr result (IfMemNotFull (M.accounted (tree_memory self.old) (tree_memory self.new))) }
        ensures same_list { (xs : List (List ℕ)) → Lists self.old xs → Lists self.new xs }
        ensures same_bytes { (b : List ℕ) → M.reveals (tree_memory self.old) b → M.reveals (tree_memory self.new) b }
        ensures kept { M.beside (tree_memory self.old) (tree_memory self.new) }
        ensures looked { M.only_reads (tree_memory self.old) (tree_memory self.new) }
        ensures cost { M.spent (tree_memory self.new) ≤ M.spent (tree_memory self.old) + 12
            * (M.size (tree_memory self.old) / 512) * M.cost }
    {
        by_index::nth::<M, E, K>(&mut self.mem, index, into)
    }

    /// Finds the index of the last entry whose key is at most `key`, leaf by leaf.
    pub fn find_last_at_most(&mut self, key: &[u8; K]) -> Result<Option<u32>, TreeError<M::Error>>
        ensures found { (xs : List (List ℕ)) → Lists self.old xs
            → MatchResult result (IsFound K xs key.now) FromMemory }
        ensures malformed { (b : List ℕ) → M.reveals (tree_memory self.old) b
            → IfErr result (IfMalformed (Breaks E K (M.size (tree_memory self.old) / 512) b)) }
        ensures inside { (b : List ℕ) → M.reveals (tree_memory self.old) b
            → IfErr result (IfMalformed (λ page. page < M.size (tree_memory self.old) / 512)) }
        ensures cause { IfErr result (IfMemNotFull (M.accounted (tree_memory self.old) (tree_memory self.new))) }
        ensures same_list { (xs : List (List ℕ)) → Lists self.old xs → Lists self.new xs }
        ensures same_bytes { (b : List ℕ) → M.reveals (tree_memory self.old) b → M.reveals (tree_memory self.new) b }
        ensures kept { M.beside (tree_memory self.old) (tree_memory self.new) }
        ensures looked { M.only_reads (tree_memory self.old) (tree_memory self.new) }
        ensures cost { M.spent (tree_memory self.new) ≤ M.spent (tree_memory self.old) + 12
            * (M.size (tree_memory self.old) / 512) * M.cost }
    {
        last_at_most::find_last_at_most::<M, E, K>(&mut self.mem, key)
    }

    /// Writes an entry over the one of this index, whose key is the same.
    pub fn replace(&mut self, index: u32, entry: &[u8; E]) -> Result<(), TreeError<M::Error>>
        ensures replaced { (xs : List (List ℕ)) → Lists self.old xs → index < length xs
            → take K entry.now ≡ key_at K xs index
            → MatchResult result (λ _. Lists self.new (slice_set xs index entry.now)) FromMemory }
        ensures past { (xs : List (List ℕ)) → Lists self.old xs → length xs ≤ index
            → MatchResult result (λ _. ⊥) IsPast }
        ensures past_any { (b : List ℕ) → M.reveals (tree_memory self.old) b → count_in (page_at b 0) ≤ index
            → MatchResult result (λ _. ⊥) IsPast }
        ensures past_same { (b : List ℕ) → M.reveals (tree_memory self.old) b → count_in (page_at b 0) ≤ index
            → M.reveals (tree_memory self.new) b }
        ensures written { (b : List ℕ) → M.reveals (tree_memory self.old) b
            → IfOk result (λ _. IsNthSet E K (M.reveals (tree_memory self.new)) b index entry.now) }
        ensures malformed { (b : List ℕ) → M.reveals (tree_memory self.old) b
            → IfErr result
            (IfMalformed
            (λ page.
            Breaks E K (M.size (tree_memory self.old) / 512) b page
            ⊎ ((page ≡ 0) × (count_in (page_at b 0) ≤ index)))) }
        ensures missing { (b : List ℕ) → M.reveals (tree_memory self.old) b
            → IfErr result
            (IfMalformed (λ page. page ≡ 0 → MissesNth E K (M.size (tree_memory self.old) / 512) b index)) }
        ensures inside { (b : List ℕ) → M.reveals (tree_memory self.old) b
            → IfErr result (IfMalformed (λ page. page < M.size (tree_memory self.old) / 512)) }
        ensures cause { IfErr result (IfMemNotFull (M.accounted (tree_memory self.old) (tree_memory self.new))) }
        ensures kept { M.beside (tree_memory self.old) (tree_memory self.new) }
        ensures cost { M.spent (tree_memory self.new) ≤ M.spent (tree_memory self.old) + 12
            * (M.size (tree_memory self.old) / 512) * M.cost }
    {
        edit_by_index::replace::<M, E, K>(&mut self.mem, index, entry)
    }

    /// Takes out the entry of this index.
    pub fn remove(&mut self, index: u32) -> Result<(), TreeError<M::Error>>
        ensures removed { (xs : List (List ℕ)) → Lists self.old xs → index < length xs
            → MatchResult result (λ _. Lists self.new (remove xs index)) FromMemory }
        ensures past { (xs : List (List ℕ)) → Lists self.old xs → length xs ≤ index
            → MatchResult result (λ _. ⊥) IsPast }
        ensures past_any { (b : List ℕ) → M.reveals (tree_memory self.old) b → count_in (page_at b 0) ≤ index
            → MatchResult result (λ _. ⊥) IsPast }
        ensures past_same { (b : List ℕ) → M.reveals (tree_memory self.old) b → count_in (page_at b 0) ≤ index
            → M.reveals (tree_memory self.new) b }
        ensures stood { (b : List ℕ) → M.reveals (tree_memory self.old) b → IfOk result (λ _. HasNth E K b index) }
        ensures malformed { (b : List ℕ) → M.reveals (tree_memory self.old) b
            → IfErr result
            (IfMalformed
            (λ page.
            Breaks E K (M.size (tree_memory self.old) / 512) b page
            ⊎ ((page ≡ 0) × (count_in (page_at b 0) ≤ index)))) }
        ensures missing { (b : List ℕ) → M.reveals (tree_memory self.old) b
            → IfErr result
            (IfMalformed (λ page. page ≡ 0 → MissesNth E K (M.size (tree_memory self.old) / 512) b index)) }
        ensures inside { (b : List ℕ) → M.reveals (tree_memory self.old) b
            → IfErr result (IfMalformed (λ page. page < M.size (tree_memory self.old) / 512)) }
        ensures cause { IfErr result (IfMemNotFull (M.accounted (tree_memory self.old) (tree_memory self.new))) }
        ensures kept { M.beside (tree_memory self.old) (tree_memory self.new) }
        ensures cost { M.spent (tree_memory self.new) ≤ M.spent (tree_memory self.old) + 15
            * (M.size (tree_memory self.old) / 512) * M.cost }
    {
        out_by_index::remove::<M, E, K>(&mut self.mem, index)
    }
}
