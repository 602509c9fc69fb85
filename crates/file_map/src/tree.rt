//! A tree of pages is a sorted list of entries.
ghost use Rattle.std.specs.Prelude.{◌≡◌, ℕ, ◌*◌, ◌/◌, List};
ghost use Rattle.std.proofs.Common.{refl, sym, ap};
ghost use Rattle.page_tree.specs.Page.{page_at, count_in};
ghost use Rattle.page_tree.specs.Put.{capacity_of};
ghost use Rattle.file_map.specs.Shown.{IsShown, counted_same};

use crate::entries::{CutEntries, SearchedEntries, SortedEntries};
use crate::run::{Key, Record};
use flat_mem::FlatMem;
use page_tree::{PageTree, TreeError};

impl<'m, M: FlatMem> SearchedEntries for PageTree<&'m mut M, 24, 12> {
    ghost use Rattle.page_tree.specs.PageTree.{tree_memory, Lists};

    type Error = M::Error;

    ghost count_cost = { M.cost };

    ghost look_cost = { 7 * M.cost };

    ghost after_cost = { 18 * M.cost };

    ghost room = { λ t. capacity_of 24 (M.size (tree_memory t).now / 512) };

    ghost lists = { λ t xs. Lists t xs };

    ghost counts = { λ t n. (b : List ℕ) × M.reveals (tree_memory t).now b × (n ≡ count_in (page_at b 0)) };

    ghost spent = { λ t. M.spent (tree_memory t).now };

    ghost beside = { λ a b. ((tree_memory a).ghost_name ≡ (tree_memory b).ghost_name) × M.beside (tree_memory a).now (tree_memory b).now };

    ghost only_reads = { λ a b. ((tree_memory a).ghost_name ≡ (tree_memory b).ghost_name) × M.only_reads (tree_memory a).now (tree_memory b).now };

    ghost accounted = { λ a b e. M.accounted (tree_memory a).now (tree_memory b).now e };

    ghost shows = { λ t sight. (b : List ℕ) → M.reveals (tree_memory t).now b → IsShown (M.size (tree_memory t).now / 512) b sight };

    ghost revealed = { λ t b. M.reveals (tree_memory t).now b };

    ghost ascending = { λ t xs h. h.ascending };

    ghost counted = { λ t xs h. (h.bytes, h.revealed, sym h.tree.header.count_is) };

    ghost counted_once = { λ t n m h k. counted_same n m h.0 k.0 (M.revealed_once _ _ _ h.1 k.1) h.2 k.2 };

    ghost counted_revealed = { λ t b h. (count_in (page_at b 0), (b, h, refl)) };

    ghost same_room = { λ a b h. ap (λ (n : ℕ). capacity_of 24 (n / 512)) (M.same_size _ _ h.1) };

    ghost beside_itself = { λ t. (Prim.cc, M.beside_itself _) };

    ghost beside_through = { λ a b c h k. (Prim.cc, M.beside_through _ _ _ h.1 k.1) };

    ghost accounted_wider = { λ a b c d e h k l x. M.accounted_wider _ _ _ _ e h.1 k.1 l.1 x };

    fn count(&mut self) -> Result<u32, TreeError<M::Error>> {
        self.count()
    }

    fn look_up(
        &mut self,
        key: &Key,
        into: &mut Record,
    ) -> Result<Option<u32>, TreeError<M::Error>> {
        self.look_up_at(key, into)
    }

    fn look_after(
        &mut self,
        key: &Key,
        into: &mut Record,
    ) -> Result<Option<u32>, TreeError<Self::Error>> {
        self.look_after_at(key, into)
    }
}

impl<'m, M: FlatMem> SortedEntries for PageTree<&'m mut M, 24, 12> {
    ghost insert_cost = { 33 * M.cost };

    ghost replace_cost = { 8 * M.cost };

    fn insert(&mut self, entry: &Record) -> Result<(), TreeError<M::Error>> {
        self.insert(entry)
    }

    fn replace_key(&mut self, entry: &Record) -> Result<bool, TreeError<M::Error>> {
        self.replace_key(entry)
    }
}

impl<'m, M: FlatMem> CutEntries for PageTree<&'m mut M, 24, 12> {
    ghost remove_cost = { 36 * M.cost };

    fn remove_key(&mut self, key: &Key) -> Result<bool, TreeError<M::Error>> {
        self.remove_key(key)
    }
}
