//! What a space shows.
ghost use Rattle.std.specs.Prelude.{◌≡◌, option_map};
ghost use Rattle.space_tables.specs.Shows.{window_of};

use flat_machine::Window;
use labelled_disk::FileId;

/// What the pages of a space show: a file, from one of its pages on.
#[derive(Clone, Copy, Debug, PartialEq, Eq)]
pub struct Shown {
    pub id: FileId,
    /// The page of the file that the space's first page shows.
    pub page: u32,
    pub writable: bool,
    pub anonymous: bool,
}

/// The same as a window of the machine.
pub fn shown_in(window: Window) -> Shown
    ensures { window_of result ≡ window }
{
    Shown {
        id: window.file,
        page: window.first,
        writable: window.writable,
        anonymous: window.anonymous,
    }
}

/// A window as the machine has it.
pub fn window_in(shown: Option<Shown>) -> Option<Window>
    ensures { result ≡ option_map window_of shown }
{
    let shown = shown?;
    Some(Window {
        file: shown.id,
        first: shown.page,
        writable: shown.writable,
        anonymous: shown.anonymous,
    })
}
