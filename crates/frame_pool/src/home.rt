//! Where a page of a file stands on the disk.
use labelled_disk::FileId;

/// A sector, and the page of the file that stands in it.
#[derive(Clone, Copy, Debug, PartialEq, Eq)]
pub struct Home {
    pub sector: u32,
    pub id: FileId,
    pub page: u32,
}
