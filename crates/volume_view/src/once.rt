//! Whether each page of the file map's tree is used once.
ghost use Rattle.std.specs.Prelude.{◌≡◌, ℕ, ◌<◌, true, false, None, Ok, [], length, IfOk, IfSome};
ghost use Rattle.volume_view.specs.Marks.{mark_at, AreMarks};
ghost use Rattle.volume_view.specs.Walk.{AreUsedOnce};

use std::alloc::{AllocError, Allocator};

// A mark for each page from 0 to `top`, of which that of page 0 is set.
fn new_marks<A: Allocator>(alloc: A, top: u32) -> Result<Vec<bool, A>, AllocError>
    ensures { IfOk result (λ marks. AreMarks top [] marks.items) }
{
    let mut marks = Vec::new(alloc);
    marks.resize(top as usize + 1, false)?;
    marks[0] = true;
    Ok(marks)
}

// The marks of these pages, or none where one of them is the header, is above `top`, or was met
// before.
fn mark_pages<A: Allocator>(
    alloc: A,
    used: &[u32],
    top: u32,
) -> Result<Option<Vec<bool, A>>, AllocError>
    ensures marked { IfOk result (λ found. IfSome found (λ marks.
        AreMarks top used.now marks.items)) }
    ensures twice { result ≡ Ok None → ¬ AreUsedOnce top used.now }
{
    let mut marks = new_marks(alloc, top)?;
    for j in 0..used.len() {
        let page = used[j] as usize;
        if page >= marks.len() || marks[page] {
            return Ok(None);
        }
        marks[page] = true;
    }
    Ok(Some(marks))
}

// Whether each mark is set.
fn are_all_set(marks: &[bool]) -> bool
    ensures yes { result ≡ true → (q : ℕ) → q < length marks.now → mark_at marks.now q ≡ true }
    ensures no { result ≡ false → (q : ℕ) × (q < length marks.now)
        × (mark_at marks.now q ≡ false) }
{
    for q in 0..marks.len() {
        if !marks[q] {
            return false;
        }
    }
    true
}

/// Whether each page from 1 to `top` stands in this list once, and no other page does.
pub(crate) fn are_used_once<A: Allocator>(
    alloc: A,
    used: &[u32],
    top: u32,
) -> Result<bool, AllocError>
    ensures yes { result ≡ Ok true → AreUsedOnce top used.now }
    ensures no { result ≡ Ok false → ¬ AreUsedOnce top used.now }
{
    if used.len() != top as usize {
        return Ok(false);
    }
    match mark_pages(alloc, used, top) {
        Ok(Some(marks)) => Ok(are_all_set(&marks)),
        Ok(None) => Ok(false),
        Err(error) => Err(error),
    }
}
