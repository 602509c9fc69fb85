// The place of a key in its leaf.
ghost use Rattle.std.specs.Prelude.{◌≡◌, ◌≤◌};
ghost use Rattle.std.specs.Str.{bytes_eq};
ghost use Rattle.page_tree.specs.Page.{IsWidths, filled, leaf_room};
ghost use Rattle.page_tree.specs.Removed.{IsSought};

use crate::pages::{count_at_most, filled_of};
use flat_mem::Page;

fn is_same(key: &[u8], other: &[u8]) -> bool
    ensures { result ≡ bytes_eq key.now other.now }
{
    key == other
}

/// The place of the last record of a leaf that has this key.
pub fn last_of_key<const E: usize, const K: usize>(page: &Page, key: &[u8; K]) -> Option<usize>
    requires widths { IsWidths E K }
    requires most { filled page.now ≤ leaf_room E }
    ensures { IsSought E K page.now key.now result }
{
    let found = count_at_most(page, E, filled_of(page), key);
    if found == 0 {
        return None;
    }
    let at = 8 + E * (found - 1);
    if !is_same(&page[at..at + K], key) {
        return None;
    }
    Some(found - 1)
}
