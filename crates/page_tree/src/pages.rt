// Reading a page of the tree, and the steps of a search in it.
ghost use Rattle.std.specs.Prelude.{◌≡◌, ℕ, ◌+◌, ◌-◌, ◌*◌, ◌<◌, ◌≤◌, List, length, true, false, IfErr, OnOk};
ghost use Rattle.byteorder.specs.Endian.{big_number};
ghost use Rattle.flat_mem.specs.Memory.{part, overwritten};
ghost use Rattle.flat_mem.specs.Order.{at_most};
ghost use Rattle.page_tree.specs.Page.{page_at, filled, key_room, leaf_room, link_at, key_at};
ghost use Rattle.page_tree.specs.Answer.{FromMemory};
ghost use Rattle.page_tree.specs.Change.{with_record, with_cell, with_count, with_child, with_root, with_leaf, from_cell, leaf_from, inner_from};
ghost use Rattle.page_tree.specs.Calls.{Looks, Works};

use crate::error::TreeError;
use byteorder::{BigEndian, ByteOrder};
use flat_mem::{FlatMem, PAGE_BYTES, Page};

/// Whether one key is at most another, compared as bytes: the first eight of both as one number, where there are so many.
#[tactic(auto, unfolding(flat_mem::specs::Order::at_most))]
pub fn is_at_most(key: &[u8], other: &[u8]) -> bool
    ensures { result ≡ at_most key.now other.now }
{
    if key.len() < 8 || other.len() < 8 {
        return key.cmp(&other).is_le();
    }
    let first = BigEndian::read_u64(key);
    let limit = BigEndian::read_u64(other);
    if first == limit {
        return is_rest_at_most(&key[8..], &other[8..]);
    }
    first < limit
}

// The same of what comes after the first eight bytes: four as one number, where these are all.
#[tactic(auto, unfolding(flat_mem::specs::Order::at_most))]
fn is_rest_at_most(key: &[u8], other: &[u8]) -> bool
    ensures { result ≡ at_most key.now other.now }
{
    if key.len() != 4 || other.len() != 4 {
        return key.cmp(&other).is_le();
    }
    let last = BigEndian::read_u32(key);
    let limit = BigEndian::read_u32(other);
    last <= limit
}

// The first eight bytes of a key as one number, where it has so many.
fn first_number<const K: usize>(key: &[u8; K]) -> u64
    ensures { 8 ≤ K → result ≡ big_number 8 key.now }
{
    if K < 8 {
        return 0;
    }
    BigEndian::read_u64(key)
}

// Whether the key at a place of a page is at most another, whose first eight bytes are this number, where it has so many.
#[tactic(auto, unfolding(flat_mem::specs::Order::at_most))]
fn is_key_at_most<const K: usize>(page: &Page, at: usize, limit: u64, key: &[u8]) -> bool
    requires inside { at + K ≤ 512 }
    requires width { length key.now ≡ K }
    requires limit { 8 ≤ K → limit ≡ big_number 8 key.now }
    ensures { result ≡ at_most (part page.now at K) key.now }
{
    let here = &page[at..at + K];
    if K < 8 {
        return is_at_most(here, key);
    }
    let first = BigEndian::read_u64(here);
    if first == limit {
        return is_at_most(here, key);
    }
    first < limit
}

/// Reads page `index` for a call of the tree.
pub fn load<M: FlatMem>(mem: &mut M, index: u32, page: &mut Page) -> Result<(), TreeError<M::Error>>
    requires { 512 * index + 512 ≤ M.size mem.old }
    ensures read { (b : List ℕ) → M.reveals mem.old b → OnOk result (page.new ≡ page_at b index) }
    ensures memory { IfErr result FromMemory }
    ensures looks { Looks M.FlatMem M.cost mem.old mem.new result }
{
    match mem.read(PAGE_BYTES as u64 * index as u64, page) {
        Ok(()) => Ok(()),
        Err(error) => Err(TreeError::Mem(error)),
    }
}

/// How many of the first `count` keys, which rise, are at most `key`. Over keys in any order: a place where one that is
/// at most `key` ends and one that is not begins.
/// The keys stand from byte 8 on, `step` bytes apart.
pub fn count_at_most<const K: usize>(page: &Page, step: usize, count: usize, key: &[u8; K]) -> usize
    requires inside { 8 + step * count ≤ 512 }
    requires width { K ≤ step }
    ensures below { result ≤ count }
    ensures holds { 0 < result → at_most (part page.now (8 + step * (result - 1)) K) key.now ≡ true }
    ensures above { result < count → at_most (part page.now (8 + step * result) K) key.now ≡ false }
{
    let limit = first_number::<K>(key);
    let mut found = 0;
    let mut end = count;
    'search: while found < end {
        let middle = found + (end - found) / 2;
        if is_key_at_most::<K>(page, 8 + step * middle, limit, key) {
            found = middle + 1;
        } else {
            end = middle;
        }
    }
    found
}

pub fn filled_of(page: &Page) -> usize
    ensures { result ≡ filled page.now }
{
    BigEndian::read_u16(&page[2..4]) as usize
}

/// The page number at `index` of an inner page.
pub fn link_of<const K: usize>(page: &Page, index: usize) -> u32
    requires width { K ≤ 12 }
    requires inside { index ≤ key_room K }
    ensures { result ≡ link_at K page.now index }
{
    let at = 8 + K * (500 / (K + 4)) + 4 * index;
    BigEndian::read_u32(&page[at..at + 4])
}

/// Copies the key at `index` of an inner page.
pub fn key_of<const K: usize>(page: &Page, index: usize, into: &mut [u8; K])
    requires width { K ≤ 12 }
    requires inside { index < key_room K }
    ensures { into.new ≡ key_at K page.now index }
{
    let at = 8 + K * index;
    into.copy_from_slice(&page[at..at + K]);
}

/// Copies the key of the first record of a leaf.
pub fn first_key_of<const K: usize>(page: &Page, into: &mut [u8; K])
    requires width { K ≤ 12 }
    ensures { into.new ≡ part page.now 8 K }
{
    let at = 8;
    into.copy_from_slice(&page[at..at + K]);
}

/// Writes page `index` for a call of the tree.
pub fn store<M: FlatMem>(mem: &mut M, index: u32, page: &Page) -> Result<(), TreeError<M::Error>>
    requires { 512 * index + 512 ≤ M.size mem.old }
    ensures written { (b : List ℕ) → M.reveals mem.old b
        → OnOk result (M.reveals mem.new (overwritten b (512 * index) page.now)) }
    ensures memory { IfErr result FromMemory }
    ensures works { Works M.FlatMem M.cost mem.old mem.new result }
{
    match mem.write(PAGE_BYTES as u64 * index as u64, page) {
        Ok(()) => Ok(()),
        Err(error) => Err(TreeError::Mem(error)),
    }
}

/// Writes bytes into a page.
pub fn put(page: &mut Page, at: usize, bytes: &[u8])
    requires { at + length bytes.now ≤ 512 }
    ensures { page.new ≡ overwritten page.old at bytes.now }
{
    page[at..at + bytes.len()].copy_from_slice(bytes);
}

/// Puts a record into a leaf of `count` records, before record `at`.
pub fn put_record<const E: usize>(page: &mut Page, count: usize, at: usize, entry: &[u8; E])
    requires some { 24 ≤ E }
    requires most { E ≤ 32 }
    requires place { at ≤ count }
    requires room { count < leaf_room E }
    ensures { page.new ≡ with_record E page.old count at entry.now }
{
    let moved = *page;
    put(page, 8 + E * (at + 1), &moved[8 + E * at..8 + E * count]);
    put(page, 8 + E * at, entry);
    put(page, 2, &((count + 1) as u16).to_be_bytes());
}

/// Writes the count of a page of the tree.
pub fn put_count(page: &mut Page, count: usize)
    requires { count < 512 }
    ensures { page.new ≡ with_count page.old count }
{
    put(page, 2, &(count as u16).to_be_bytes());
}

/// Puts a cell before cell `at` of the `count` that stand `width` bytes apart from byte `base` on.
fn put_cell(page: &mut Page, base: usize, width: usize, count: usize, at: usize, cell: &[u8])
    requires width { length cell.now ≡ width }
    requires few { count < 512 }
    requires place { at ≤ count }
    requires room { base + width * (count + 1) ≤ 512 }
    ensures { page.new ≡ with_cell base width page.old count at cell.now }
{
    let moved = *page;
    put(
        page,
        base + width * (at + 1),
        &moved[base + width * at..base + width * count],
    );
    put(page, base + width * at, cell);
}

/// Moves the cells from `from` on to the start.
fn keep_cells(page: &mut Page, base: usize, width: usize, count: usize, from: usize)
    requires place { from ≤ count }
    requires room { base + width * count ≤ 512 }
    ensures { page.new ≡ from_cell base width page.old count from }
{
    let moved = *page;
    put(
        page,
        base,
        &moved[base + width * from..base + width * count],
    );
}

/// Puts a child into an inner page of `count` keys: its number before child `at`, and a key before key `slot`.
pub fn put_child<const K: usize>(
    page: &mut Page,
    count: usize,
    slot: usize,
    at: usize,
    key: &[u8; K],
    link: u32,
)
    requires some { 1 ≤ K }
    requires most { K ≤ 12 }
    requires key_place { slot ≤ count }
    requires place { at ≤ count + 1 }
    requires room { count < key_room K }
    ensures { page.new ≡ with_child K page.old count slot key.now at link }
{
    put_cell(page, 8, K, count, slot, key);
    put_cell(
        page,
        8 + K * (500 / (K + 4)),
        4,
        count + 1,
        at,
        &link.to_be_bytes(),
    );
    put_count(page, count + 1);
}

/// Makes an inner page of two children.
pub fn put_root<const K: usize>(page: &mut Page, left: u32, key: &[u8; K], right: u32)
    requires some { 1 ≤ K }
    requires most { K ≤ 12 }
    ensures { page.new ≡ with_root K page.old left key.now right }
{
    put(page, 0, &[2]);
    put_count(page, 1);
    put(page, 8, key);
    let at = 8 + K * (500 / (K + 4));
    put(page, at, &left.to_be_bytes());
    put(page, at + 4, &right.to_be_bytes());
}

/// Makes a leaf of one record.
pub fn put_leaf<const E: usize>(page: &mut Page, entry: &[u8; E])
    requires { E ≤ 32 }
    ensures { page.new ≡ with_leaf page.old entry.now }
{
    put(page, 0, &[1]);
    put_count(page, 1);
    put(page, 8, entry);
}

/// Leaves in a leaf of `count` records those from `from` on.
pub fn keep_records<const E: usize>(page: &mut Page, count: usize, from: usize)
    requires some { 1 ≤ E }
    requires place { from ≤ count }
    requires room { count ≤ leaf_room E }
    ensures { page.new ≡ leaf_from E page.old count from }
{
    keep_cells(page, 8, E, count, from);
    put_count(page, count - from);
}

/// Leaves in an inner page of `count` keys the children from `from` on.
pub fn keep_children<const K: usize>(page: &mut Page, count: usize, from: usize)
    requires some { 1 ≤ K }
    requires most { K ≤ 12 }
    requires place { from ≤ count }
    requires room { count ≤ key_room K }
    ensures { page.new ≡ inner_from K page.old count from }
{
    keep_cells(page, 8, K, count, from);
    keep_cells(page, 8 + K * (500 / (K + 4)), 4, count + 1, from);
    put_count(page, count - from);
}
