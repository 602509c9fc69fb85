//! The levels of the file map's tree, from the root down to the leaves.
ghost use Rattle.std.specs.Prelude.{◌≡◌, ℕ, suc, ◌+◌, ◌-◌, ◌*◌, ◌<◌, ◌≤◌, ◌++◌, true, false, None, Ok, length, map, IfOk, IfSome, OnOk};
ghost use Rattle.std.specs.List.{flat_map};
ghost use Rattle.flat_mem.specs.Vec.{vec_mem_bytes};
ghost use Rattle.page_tree.specs.Page.{page_at, filled, key_at, link_at};
ghost use Rattle.volume_view.specs.Level.{item_of, items_of};
ghost use Rattle.volume_view.specs.Walk.{values, child_at, children_in, tops, level_at, pages_used, least_children, IsInnerForm, IsInnerPage, AreInner};

use crate::header::{Header, load_page};
use byteorder::{BigEndian, ByteOrder};
use flat_mem::VecMem;
use labelled_disk::Page;
use std::alloc::{AllocError, Allocator};

/// A page of a level, and the key under which the level above names it: the first key below it. The
/// first page of a level is named under none.
#[derive(Clone, Copy, Debug, PartialEq, Eq)]
pub(crate) struct Child {
    pub key: Option<[u8; 12]>,
    pub page: u32,
}

/// How many records or keys a page has.
pub(crate) fn filled_of(page: &Page) -> u32
    ensures { result ≡ filled page.now }
{
    u32::from(BigEndian::read_u16(&page[2..4]))
}

fn key_of(page: &Page, index: u32) -> [u8; 12]
    requires { index < 31 }
    ensures { result ≡ key_at 12 page.now index }
{
    let from = 8 + 12 * index as usize;
    let mut key = [0; 12];
    key.copy_from_slice(&page[from..from + 12]);
    key
}

fn link_of(page: &Page, index: u32) -> u32
    requires { index < 32 }
    ensures { result ≡ link_at 12 page.now index }
{
    let from = 380 + 4 * index as usize;
    BigEndian::read_u32(&page[from..from + 4])
}

// Whether this is an inner page of at least so many children.
fn is_inner(page: &Page, least: u32) -> bool
    ensures yes { result ≡ true → IsInnerForm page.now least }
    ensures no { result ≡ false → ¬ IsInnerForm page.now least }
{
    let count = filled_of(page);
    page[0] == 2 && count + 1 >= least && count <= 31
}

// An inner page of the map, or none where the page is outside or no such page.
fn inner_page<A: Allocator>(
    map: &mut VecMem<A>,
    pages: u32,
    least: u32,
    child: &Child,
) -> Option<Page>
    requires size { length (vec_mem_bytes map.old) ≡ 512 * pages }
    ensures inner { IfSome result (λ page.
        IsInnerPage (vec_mem_bytes map.old) pages least (item_of child.now)) }
    ensures page { IfSome result (λ page. page ≡ page_at (vec_mem_bytes map.old) child.now.page) }
    ensures none { result ≡ None
        → ¬ IsInnerPage (vec_mem_bytes map.old) pages least (item_of child.now) }
    ensures same { vec_mem_bytes map.new ≡ vec_mem_bytes map.old }
{
    if child.page >= pages {
        return None;
    }
    let page = load_page(map, child.page);
    if is_inner(&page, least) {
        return Some(page);
    }
    None
}

// Adds the children of an inner page.
fn add_children<A: Allocator>(
    children: &mut Vec<Child, A>,
    parent: &Child,
    page: &Page,
) -> Result<(), AllocError>
    requires { filled page.now ≤ 31 }
    ensures { OnOk result (items_of children.new.items ≡ items_of children.old.items
        ++ values (child_at (item_of parent.now).key page.now) (suc (filled page.now))) }
{
    children.push(Child {
        key: parent.key,
        page: link_of(page, 0),
    })?;
    for i in 0..filled_of(page) {
        children.push(Child {
            key: Some(key_of(page, i)),
            page: link_of(page, i + 1),
        })?;
    }
    Ok(())
}

// The children of all pages of a level, or none where a page is no inner page of at least so many
// children, or they have more than `top`.
fn children_of<A: Allocator>(
    alloc: A,
    map: &mut VecMem<A>,
    pages: u32,
    top: u32,
    least: u32,
    parents: &[Child],
) -> Result<Option<Vec<Child, A>>, AllocError>
    requires size { length (vec_mem_bytes map.old) ≡ 512 * pages }
    ensures inner { IfOk result (λ found. IfSome found (λ children.
        AreInner (vec_mem_bytes map.old) pages top least (items_of parents.now))) }
    ensures children { IfOk result (λ found. IfSome found (λ children. items_of children.items
        ≡ flat_map (children_in (vec_mem_bytes map.old)) (items_of parents.now))) }
    ensures none { result ≡ Ok None
        → ¬ AreInner (vec_mem_bytes map.old) pages top least (items_of parents.now) }
    ensures same { vec_mem_bytes map.new ≡ vec_mem_bytes map.old }
{
    let mut children = Vec::new(alloc);
    for j in 0..parents.len() {
        let Some(page) = inner_page(map, pages, least, &parents[j]) else {
            return Ok(None);
        };
        add_children(&mut children, &parents[j], &page)?;
        if children.len() > top as usize {
            return Ok(None);
        }
    }
    Ok(Some(children))
}

// The highest level: the root alone, if there is one.
fn top_level<A: Allocator>(alloc: A, header: &Header) -> Result<Vec<Child, A>, AllocError>
    ensures { IfOk result (λ level. items_of level.items ≡ tops header.now.levels header.now.root) }
{
    let mut level = Vec::new(alloc);
    if header.levels > 0 {
        level.push(Child {
            key: None,
            page: header.root,
        })?;
    }
    Ok(level)
}

// Adds the pages of a level to those that are used.
fn add_pages<A: Allocator>(used: &mut Vec<u32, A>, level: &[Child]) -> Result<(), AllocError>
    ensures { OnOk result (used.new.items
        ≡ used.old.items ++ map (λ h. h.page) (items_of level.now)) }
{
    for j in 0..level.len() {
        used.push(level[j].page)?;
    }
    Ok(())
}

// How many children a page at this depth has at least.
fn least_at(depth: u32) -> u32
    ensures { result ≡ least_children depth }
{
    if depth == 0 { 2 } else { 16 }
}

/// The leaves of the tree, or none where a page above them breaks the form. Adds the pages of all
/// levels to those that are used.
pub(crate) fn find_leaves<A: Allocator + Clone>(
    alloc: A,
    map: &mut VecMem<A>,
    pages: u32,
    header: &Header,
    used: &mut Vec<u32, A>,
) -> Result<Option<Vec<Child, A>>, AllocError>
    requires size { length (vec_mem_bytes map.old) ≡ 512 * pages }
    ensures inner { IfOk result (λ found. IfSome found (λ leaves.
        (s : ℕ) → suc s < header.now.levels
        → AreInner (vec_mem_bytes map.old) pages header.now.top (least_children s)
        (level_at (vec_mem_bytes map.old) (tops header.now.levels header.now.root) s))) }
    ensures leaves { IfOk result (λ found. IfSome found (λ leaves. items_of leaves.items
        ≡ level_at (vec_mem_bytes map.old) (tops header.now.levels header.now.root)
        (header.now.levels - 1))) }
    ensures used { IfOk result (λ found. IfSome found (λ leaves. used.new.items
        ≡ used.old.items ++ pages_used (vec_mem_bytes map.old)
        (tops header.now.levels header.now.root) header.now.levels)) }
    ensures none { result ≡ Ok None → ¬ ((s : ℕ) → suc s < header.now.levels
        → AreInner (vec_mem_bytes map.old) pages header.now.top (least_children s)
        (level_at (vec_mem_bytes map.old) (tops header.now.levels header.now.root) s)) }
    ensures same { vec_mem_bytes map.new ≡ vec_mem_bytes map.old }
{
    let mut level = top_level(alloc.clone()?, header)?;
    for depth in 0..header.levels.saturating_sub(1) {
        add_pages(used, &level)?;
        let least = least_at(depth);
        let found = children_of(alloc.clone()?, map, pages, header.top, least, &level)?;
        let Some(children) = found else {
            return Ok(None);
        };
        level = children;
    }
    add_pages(used, &level)?;
    Ok(Some(level))
}
