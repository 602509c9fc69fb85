//! Pages whose bytes may be any from now on.

ghost use Rattle.std.specs.Prelude.{◌≡◌, if◌then◌else◌};
ghost use Rattle.flat_machine.specs.Next as after;
ghost use Rattle.flat_machine.specs.File as of_file;

use crate::stored::{CellPage, any_page};
use crate::window::is_writable_within;
use flat_machine::{FilePage, Space};
use labelled_disk::FileId;

/// The page, or any cells where a writable window shows it in the range.
fn killed_page(spaces: &[Space], range: &Space, at: &FilePage, page: CellPage) -> CellPage
    ensures { result ≡ (if after.is_writable_within spaces.now range.now at.now then of_file.any_page else page) }
{
    if is_writable_within(spaces, range, at) {
        return any_page();
    }
    page
}

/// Kills those pages of a file that a writable window shows in the range.
pub fn kill_pages(spaces: &[Space], range: &Space, file: FileId, pages: &mut [CellPage])
    ensures { pages.new ≡ after.with_any
        (λ page. after.is_writable_within spaces.now range.now (record { file = file; page = page })) pages.old }
{
    for (index, page) in pages.iter_mut().enumerate() {
        let at = FilePage {
            file,
            page: index as u64,
        };
        *page = killed_page(spaces, range, &at, *page);
    }
}
