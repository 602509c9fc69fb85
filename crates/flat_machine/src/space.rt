//! Spaces, the windows that they have on files, and pages of files.

ghost use Rattle.std.specs.Prelude.{◌≡◌};
ghost use Rattle.flat_machine.specs.Space.{end, overlap};

use labelled_disk::FileId;

/// How many pages the virtual memory has.
pub const ROOT_PAGES: u32 = 8126464;

/// Which file is shown, from which of its pages on, and how.
#[derive(Clone, Copy, Debug, PartialEq, Eq)]
pub struct Window {
    pub file: FileId,
    pub first: u32,
    pub writable: bool,
    /// No call can name the file, and it goes with the window.
    pub anonymous: bool,
}

/// A run of pages of the virtual memory, with or without a window.
#[derive(Clone, Copy, Debug, PartialEq, Eq)]
pub struct Space {
    pub handle: u32,
    pub parent: u32,
    pub first: u32,
    pub pages: u32,
    /// So many pages are swapped together.
    pub unit: u8,
    pub window: Option<Window>,
}

impl Space {
    /// The first page after the space.
    pub fn end(&self) -> u64
        ensures { result ≡ end self.now }
    {
        u64::from(self.first) + u64::from(self.pages)
    }

    /// Whether some page is in both spaces.
    pub fn overlaps(&self, other: &Space) -> bool
        ensures { result ≡ overlap self.now other.now }
    {
        u64::from(self.first) < other.end() && u64::from(other.first) < self.end()
    }
}

/// A page of a file. Its number has room for the sum of a window's first page and a page of its
/// space.
#[derive(Clone, Copy, Debug, PartialEq, Eq)]
pub struct FilePage {
    pub file: FileId,
    pub page: u64,
}
