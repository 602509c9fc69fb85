// Two neighbours of which one is underfull: they become one page, or one item goes over.
ghost use Rattle.std.specs.Prelude.{◌≡◌, ℕ, ◌+◌, ◌-◌, ◌/◌, ◌<◌, ◌≤◌, ◌⊎◌, List, ◌++◌, length};
ghost use Rattle.page_tree.specs.Keys.{Item, item_at};
ghost use Rattle.page_tree.specs.Page.{IsWidths, filled, key_room, leaf_room, IsEnough, IsInner, IsLeaf};
ghost use Rattle.page_tree.specs.Climb.{IsHalves};
ghost use Rattle.page_tree.specs.Neighbours.{IsBalanced};

use crate::edits::{append_children, append_records, record_of, remove_child, remove_record};
use crate::pages::{filled_of, first_key_of, key_of, link_of, put_child, put_count, put_record};
use flat_mem::Page;

// The first record of the second leaf goes after those of the first.
fn record_left<const E: usize, const K: usize>(
    left: &mut Page,
    right: &mut Page,
    count: usize,
    more: usize,
    key: &mut [u8; K],
)
    requires widths { IsWidths E K }
    requires room { count < leaf_room E }
    requires some { 1 ≤ more }
    requires most { more ≤ leaf_room E }
    ensures halves { (xs ys : List Item) → IsLeaf E K left.old xs → IsLeaf E K right.old ys → count ≡ filled left.old
        → more ≡ filled right.old → 2 ≤ more → IsEnough E K 1 (length xs + 1) → IsEnough E K 1 (length ys - 1)
        → IsHalves E K 1 (xs ++ ys) left.new right.new key.new }
{
    let mut entry = [0; E];
    record_of(right, 0, &mut entry);
    put_record(left, count, count, &entry);
    remove_record::<E>(right, more, 0);
    first_key_of(right, key);
}

// The last record of the first leaf goes before those of the second.
fn record_right<const E: usize, const K: usize>(
    left: &mut Page,
    right: &mut Page,
    count: usize,
    more: usize,
    key: &mut [u8; K],
)
    requires widths { IsWidths E K }
    requires room { more < leaf_room E }
    requires some { 1 ≤ count }
    requires most { count ≤ leaf_room E }
    ensures halves { (xs ys : List Item) → IsLeaf E K left.old xs → IsLeaf E K right.old ys → count ≡ filled left.old
        → more ≡ filled right.old → 2 ≤ count → IsEnough E K 1 (length xs - 1) → IsEnough E K 1 (length ys + 1)
        → IsHalves E K 1 (xs ++ ys) left.new right.new key.new }
{
    let mut entry = [0; E];
    record_of(left, count - 1, &mut entry);
    put_record(right, more, 0, &entry);
    put_count(left, count - 1);
    first_key_of(right, key);
}

/// Joins two leaves where they fit in one page, and says whether they do. Else one record goes over, and `key` becomes the first key of the second.
pub fn balance_leaves<const E: usize, const K: usize>(
    left: &mut Page,
    right: &mut Page,
    key: &mut [u8; K],
) -> bool
    requires widths { IsWidths E K }
    requires left_most { filled left.old ≤ leaf_room E }
    requires right_most { filled right.old ≤ leaf_room E }
    requires lean { filled left.old + filled right.old < leaf_room E + leaf_room E / 2 }
    ensures balanced { (xs ys : List Item) → IsLeaf E K left.old xs → IsLeaf E K right.old ys
        → IsEnough E K 1 (length xs + 1) → IsEnough E K 1 (length ys + 1)
        → IsBalanced E K 1 (xs ++ ys) left.new right.new key.new result }
{
    let count = filled_of(left);
    let more = filled_of(right);
    if count + more <= 504 / E {
        append_records::<E>(left, count, right, more);
        return true;
    }
    if count < more {
        record_left::<E, K>(left, right, count, more, key);
    } else {
        record_right::<E, K>(left, right, count, more, key);
    }
    false
}

// The first child of the second page goes after those of the first.
fn child_left<const K: usize>(
    left: &mut Page,
    right: &mut Page,
    count: usize,
    more: usize,
    key: &mut [u8; K],
)
    requires some_key { 1 ≤ K }
    requires key_most { K ≤ 12 }
    requires room { count < key_room K }
    requires some { 1 ≤ more }
    requires most { more ≤ key_room K }
    ensures halves { (e l : ℕ) (xs ys : List Item) → 1 < l → IsInner K left.old xs → IsInner K right.old ys
        → count ≡ filled left.old → more ≡ filled right.old → 2 ≤ more → (item_at ys 0).key ≡ key.old
        → IsEnough e K l (length xs + 1) → IsEnough e K l (length ys - 1)
        → IsHalves e K l (xs ++ ys) left.new right.new key.new }
{
    let mut up = [0; K];
    key_of(right, 0, &mut up);
    let link = link_of::<K>(right, 0);
    put_child(left, count, count, count + 1, key, link);
    remove_child::<K>(right, more, 0, 0);
    *key = up;
}

// The last child of the first page goes before those of the second.
fn child_right<const K: usize>(
    left: &mut Page,
    right: &mut Page,
    count: usize,
    more: usize,
    key: &mut [u8; K],
)
    requires some_key { 1 ≤ K }
    requires key_most { K ≤ 12 }
    requires room { more < key_room K }
    requires some { 1 ≤ count }
    requires most { count ≤ key_room K }
    ensures halves { (e l : ℕ) (xs ys : List Item) → 1 < l → IsInner K left.old xs → IsInner K right.old ys
        → count ≡ filled left.old → more ≡ filled right.old → 2 ≤ count → (item_at ys 0).key ≡ key.old
        → IsEnough e K l (length xs - 1) → IsEnough e K l (length ys + 1)
        → IsHalves e K l (xs ++ ys) left.new right.new key.new }
{
    let mut up = [0; K];
    key_of(left, count - 1, &mut up);
    let link = link_of::<K>(left, count);
    put_child(right, more, 0, 0, key, link);
    put_count(left, count - 1);
    *key = up;
}

/// Joins two inner pages where they fit in one, and says whether they do. Else one child goes over. `key` is the first key below the second, before and after.
pub fn balance_inners<const K: usize>(left: &mut Page, right: &mut Page, key: &mut [u8; K]) -> bool
    requires some_key { 1 ≤ K }
    requires key_most { K ≤ 12 }
    requires left_most { filled left.old ≤ key_room K }
    requires right_most { filled right.old ≤ key_room K }
    requires lean { filled left.old + filled right.old < key_room K + key_room K / 2 }
    ensures balanced { (e l : ℕ) (xs ys : List Item) → 1 < l → IsInner K left.old xs → IsInner K right.old ys
        → (item_at ys 0).key ≡ key.old → IsEnough e K l (length xs + 1) → IsEnough e K l (length ys + 1)
        → (filled left.old < key_room K / 2) ⊎ (filled right.old < key_room K / 2)
        → IsBalanced e K l (xs ++ ys) left.new right.new key.new result }
{
    let count = filled_of(left);
    let more = filled_of(right);
    if count + more < 500 / (K + 4) {
        append_children(left, count, key, right, more);
        return true;
    }
    if count < more {
        child_left(left, right, count, more, key);
    } else {
        child_right(left, right, count, more, key);
    }
    false
}
