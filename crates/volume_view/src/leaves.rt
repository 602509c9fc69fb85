//! The records in the leaves of the file map's tree.
ghost use Rattle.std.specs.Prelude.{◌≡◌, ℕ, ◌+◌, ◌*◌, ◌<◌, ◌≤◌, ◌++◌, true, false, List, Some, None, Ok, length, take, IfOk, IfSome};
ghost use Rattle.std.specs.List.{flat_map};
ghost use Rattle.flat_mem.specs.Vec.{vec_mem_bytes};
ghost use Rattle.labelled_disk.specs.Layout.{IsCount, layout_of};
ghost use Rattle.page_tree.specs.Page.{page_at, filled, record_at};
ghost use Rattle.file_map.specs.declared.run.Run.{Run as MapRun};
ghost use Rattle.volume_view.specs.Form.{AreRead};
ghost use Rattle.volume_view.specs.Level.{item_of, items_of};
ghost use Rattle.volume_view.specs.Records.{last_of};
ghost use Rattle.volume_view.specs.Walk.{values, records_in, IsLeafForm, IsLeafPage, AreLeaves};

use crate::header::load_page;
use crate::levels::{Child, filled_of};
use crate::record::read_after;
use file_map::Run;
use flat_mem::VecMem;
use labelled_disk::{Layout, Page};
use std::alloc::{AllocError, Allocator};

// Whether this is a leaf of at least so many records.
fn is_leaf(page: &Page, least: u32) -> bool
    ensures yes { result ≡ true → IsLeafForm page.now least }
    ensures no { result ≡ false → ¬ IsLeafForm page.now least }
{
    let count = filled_of(page);
    page[0] == 1 && count >= least && count <= 21
}

fn record_of(page: &Page, index: u32) -> [u8; 24]
    requires { index < 21 }
    ensures { result ≡ record_at 24 page.now index }
{
    let from = 8 + 24 * index as usize;
    let mut record = [0; 24];
    record.copy_from_slice(&page[from..from + 24]);
    record
}

// The key of the first record.
fn first_key(page: &Page) -> [u8; 12]
    ensures { result ≡ take 12 (record_at 24 page.now 0) }
{
    let mut key = [0; 12];
    key.copy_from_slice(&page[8..20]);
    key
}

// Whether the first record of the leaf has the key under which the leaf is named.
fn is_named_right(child: &Child, page: &Page) -> bool
    ensures yes { result ≡ true
        → (item_of child.now).key ≡ take 12 (record_at 24 page.now 0) }
    ensures no { result ≡ false
        → ¬ ((item_of child.now).key ≡ take 12 (record_at 24 page.now 0)) }
{
    match child.key {
        Some(key) => key == first_key(page),
        None => false,
    }
}

// A leaf of the map, or none where the page is outside or no such page.
fn leaf_page<A: Allocator>(
    map: &mut VecMem<A>,
    pages: u32,
    least: u32,
    child: &Child,
) -> Option<Page>
    requires size { length (vec_mem_bytes map.old) ≡ 512 * pages }
    ensures leaf { IfSome result (λ page.
        IsLeafPage (vec_mem_bytes map.old) pages least (item_of child.now)) }
    ensures page { IfSome result (λ page. page ≡ page_at (vec_mem_bytes map.old) child.now.page) }
    ensures none { result ≡ None
        → ¬ IsLeafPage (vec_mem_bytes map.old) pages least (item_of child.now) }
    ensures same { vec_mem_bytes map.new ≡ vec_mem_bytes map.old }
{
    if child.page >= pages {
        return None;
    }
    let page = load_page(map, child.page);
    if is_leaf(&page, least) {
        return Some(page);
    }
    None
}

// The last of these runs, or a run of no pages.
fn last_run(runs: &[Run]) -> Run
    ensures { result ≡ last_of runs.now (length runs.now) }
{
    if runs.len() == 0 {
        return Run::default();
    }
    runs[runs.len() - 1]
}

// Adds the runs of the records of a leaf, or answers false where one of them breaks the form.
fn add_runs<A: Allocator>(
    runs: &mut Vec<Run, A>,
    page: &Page,
    layout: &Layout,
) -> Result<bool, AllocError>
    requires counted { IsCount layout.now.sectors }
    requires layout { layout.now ≡ layout_of layout.now.sectors }
    requires few { filled page.now ≤ 21 }
    ensures read { (records : List (List ℕ))
        → AreRead layout.now.sectors records runs.old.items → result ≡ Ok true
        → AreRead layout.now.sectors
        (records ++ values (record_at 24 page.now) (filled page.now)) runs.new.items }
    ensures broken { (records : List (List ℕ)) (all : List MapRun)
        → AreRead layout.now.sectors records runs.old.items → result ≡ Ok false
        → ¬ AreRead layout.now.sectors
        (records ++ values (record_at 24 page.now) (filled page.now)) all }
{
    for i in 0..filled_of(page) {
        let bytes = record_of(page, i);
        let last = last_run(runs);
        let Some(run) = read_after(last, &bytes, layout.first, layout.sectors) else {
            return Ok(false);
        };
        runs.push(run)?;
    }
    Ok(true)
}

/// The runs of the records of all leaves, or none where a leaf or a record breaks the form.
pub(crate) fn read_leaves<A: Allocator>(
    alloc: A,
    map: &mut VecMem<A>,
    layout: &Layout,
    least: u32,
    leaves: &[Child],
) -> Result<Option<Vec<Run, A>>, AllocError>
    requires counted { IsCount layout.now.sectors }
    requires layout { layout.now ≡ layout_of layout.now.sectors }
    requires size { length (vec_mem_bytes map.old) ≡ 512 * layout.now.vfm }
    ensures leaves { IfOk result (λ found. IfSome found (λ runs.
        AreLeaves (vec_mem_bytes map.old) layout.now.vfm least (items_of leaves.now))) }
    ensures read { IfOk result (λ found. IfSome found (λ runs. AreRead layout.now.sectors
        (flat_map (records_in (vec_mem_bytes map.old)) (items_of leaves.now)) runs.items)) }
    ensures none { (all : List MapRun) → result ≡ Ok None
        → AreLeaves (vec_mem_bytes map.old) layout.now.vfm least (items_of leaves.now)
        → ¬ AreRead layout.now.sectors
        (flat_map (records_in (vec_mem_bytes map.old)) (items_of leaves.now)) all }
    ensures same { vec_mem_bytes map.new ≡ vec_mem_bytes map.old }
{
    let mut runs = Vec::new(alloc);
    for j in 0..leaves.len() {
        let Some(page) = leaf_page(map, layout.vfm, least, &leaves[j]) else {
            return Ok(None);
        };
        if j > 0 && !is_named_right(&leaves[j], &page) {
            return Ok(None);
        }
        if !add_runs(&mut runs, &page, layout)? {
            return Ok(None);
        }
    }
    Ok(Some(runs))
}
