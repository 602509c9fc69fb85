//! The file pages that were stored to and not forced since.

ghost use Rattle.std.specs.Prelude.{◌≡◌, OnOk, OnErr, fold, if◌then◌else◌};
ghost use Rattle.std.specs.List.{list_any};
ghost use Rattle.flat_machine.specs.At.{one_or_two};
ghost use Rattle.flat_machine.specs.Next as after;

use crate::{look, window};
use flat_machine::{FilePage, Space};
use std::alloc::{AllocError, Allocator};

/// Whether the page is among them.
fn is_marked(unforced: &[FilePage], page: &FilePage) -> bool
    ensures { result ≡ list_any (after.is_same_page page.now) unforced.now }
{
    unforced
        .iter()
        .any(|u| page.file == u.file && page.page == u.page)
}

/// Adds the page, unless it is there.
fn mark<A: Allocator>(unforced: &mut Vec<FilePage, A>, page: FilePage) -> Result<(), AllocError>
    ensures ok { OnOk result (unforced.new.items ≡ after.mark page unforced.old.items) }
    ensures err { OnErr result (unforced.new.items ≡ unforced.old.items) }
{
    if is_marked(unforced, &page) {
        return Ok(());
    }
    unforced.push(page)?;
    Ok(())
}

/// Adds the file page that is shown there, if one is.
fn mark_shown<A: Allocator>(
    spaces: &[Space],
    unforced: &mut Vec<FilePage, A>,
    page: u32,
) -> Result<(), AllocError>
    ensures ok { OnOk result (unforced.new.items ≡ after.mark_page spaces.now unforced.old.items page) }
    ensures err { OnErr result (unforced.new.items ≡ unforced.old.items) }
{
    match look::shown_at(spaces, page) {
        Some(shown) => mark(unforced, shown),
        None => Ok(()),
    }
}

/// Adds the file pages that are shown at one or two pages.
pub fn mark_both<A: Allocator>(
    spaces: &[Space],
    unforced: &mut Vec<FilePage, A>,
    first: u32,
    last: u32,
) -> Result<(), AllocError>
    ensures ok { OnOk result
        (unforced.new.items ≡ fold (after.mark_page spaces.now) unforced.old.items (one_or_two first last)) }
    ensures err { OnErr result (unforced.new.items ≡ unforced.old.items) }
{
    let before = unforced.len();
    mark_shown(spaces, unforced, first)?;
    if first == last {
        return Ok(());
    }
    if let Err(want) = mark_shown(spaces, unforced, last) {
        unforced.truncate(before);
        return Err(want);
    }
    Ok(())
}

/// Takes the pages away that the window of the space shows.
pub fn force_window<A: Allocator>(space: &Space, unforced: &mut Vec<FilePage, A>)
    ensures { unforced.new.items ≡ after.without_window_of space.now unforced.old.items }
{
    unforced.retain(|u| !window::shows(space, u));
}

/// Takes the pages away that the window of the space shows, where it is no longer writable.
pub fn force_unless<A: Allocator>(writable: bool, space: &Space, unforced: &mut Vec<FilePage, A>)
    ensures { unforced.new.items
        ≡ (if writable then unforced.old.items else after.without_window_of space.now unforced.old.items) }
{
    if !writable {
        force_window(space, unforced);
    }
}

/// Takes the pages away that some window shows in the range.
pub fn force_range<A: Allocator>(spaces: &[Space], range: &Space, unforced: &mut Vec<FilePage, A>)
    ensures { unforced.new.items ≡ after.without_shown_within spaces.now range.now unforced.old.items }
{
    unforced.retain(|u| !window::is_shown_within(spaces, range, u));
}
