// What the form of a tree says, as the contract of a function that does nothing.
ghost use Rattle.std.specs.Prelude.{ℕ, ◌/◌, List};
ghost use Rattle.page_tree.specs.Broken.{StopsInsertion};
ghost use Rattle.page_tree.specs.PageTree.{tree_memory, Lists};

use crate::tree::PageTree;
use flat_mem::FlatMem;

/// No page breaks the form of a well-formed tree, and none stops an insertion.
pub fn listed_is_unbroken<M: FlatMem, const E: usize, const K: usize>(tree: &PageTree<M, E, K>)
    ensures { (xs : List (List ℕ)) → Lists tree.now xs → (b : List ℕ) → M.reveals (tree_memory tree.now) b → (page : ℕ)
        → ¬ StopsInsertion E K (M.size (tree_memory tree.now) / 512) b page }
{}
