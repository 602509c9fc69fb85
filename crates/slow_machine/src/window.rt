//! Which file pages the windows show.

ghost use Rattle.std.specs.Prelude.{◌≡◌};
ghost use Rattle.flat_machine.specs.Space as of_space;
ghost use Rattle.flat_machine.specs.Next as after;

use crate::look::{holds, is_writable};
use flat_machine::{FilePage, Space};

/// Whether the window of the space shows the file page.
pub fn shows(space: &Space, shown: &FilePage) -> bool
    ensures { result ≡ of_space.shows shown.now.file shown.now.page space.now }
{
    match space.window {
        Some(w) => {
            w.file == shown.file
                && u64::from(w.first) <= shown.page
                && shown.page < u64::from(w.first) + u64::from(space.pages)
        }
        None => false,
    }
}

/// Whether the space shows the file page at a page of the range.
fn shows_within(range: &Space, shown: &FilePage, s: &Space) -> bool
    ensures { result ≡ after.shows_within range.now shown.now s.now }
{
    let _pages = s.pages;
    match s.window {
        Some(w) if shows(s, shown) => {
            holds(
                range,
                u64::from(s.first) + (shown.page - u64::from(w.first)),
            )
        }
        _ => false,
    }
}

/// Whether some space shows the file page at a page of the range.
pub fn is_shown_within(spaces: &[Space], range: &Space, shown: &FilePage) -> bool
    ensures { result ≡ after.is_shown_within spaces.now range.now shown.now }
{
    spaces.iter().any(|s| shows_within(range, shown, s))
}

/// Whether some writable window shows the file page at a page of the range.
pub fn is_writable_within(spaces: &[Space], range: &Space, shown: &FilePage) -> bool
    ensures { result ≡ after.is_writable_within spaces.now range.now shown.now }
{
    spaces
        .iter()
        .any(|s| is_writable(s) && shows_within(range, shown, s))
}
