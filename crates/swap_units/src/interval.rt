//! An interval of the projection, and the swap unit of one of its pages.
ghost use Rattle.std.specs.Prelude.{◌≡◌, ◌+◌, ◌<◌, ◌≤◌};
ghost use Rattle.swap_units.specs.Unit.{Holds, has_page, IsUnit, IsAmong, LiesIn};

use crate::Mode;
use labelled_disk::FileId;

/// A longest run of pages of the root that have the same innermost space and the same mapped space.
#[derive(Clone, Copy, Debug, Default, PartialEq, Eq)]
pub struct Interval {
    /// The first page of the root that the interval has.
    pub first: u32,
    pub pages: u32,
    /// The handle of the innermost space.
    pub space: u16,
    /// The unit size of the innermost space, 1 to 16 pages.
    pub unit: u8,
    pub mode: Mode,
    /// The first page of the innermost space: the units are counted from there.
    pub start: u32,
    pub id: FileId,
    /// The page of the file that is shown at `first`.
    pub page: u32,
    /// The handle of the mapped space, or 0.
    pub mapped: u16,
}

impl Interval {
    /// Whether the page is one of the interval's.
    pub fn has_page(&self, page: u32) -> bool
        ensures { result ≡ has_page page self.now }
    {
        let end = u64::from(self.first) + u64::from(self.pages);
        self.first <= page && u64::from(page) < end
    }
}

/// The first page and the number of pages of the swap unit that a page is in.
pub fn unit_of(interval: &Interval, page: u32) -> (u32, u32)
    requires holds { Holds interval.now page }
    requires in_space { interval.now.start ≤ interval.now.first }
    requires in_root { interval.now.first + interval.now.pages ≤ 8126464 }
    requires unit { (1 ≤ interval.now.unit) × (interval.now.unit ≤ 16) }
    ensures pages { IsUnit interval.now page result }
    ensures holds { IsAmong result page }
    ensures inside { LiesIn interval.now result }
    ensures size { result.1 ≤ interval.now.unit }
{
    let unit = u32::from(interval.unit);
    let block = page - (page - interval.start) % unit;
    let first = block.max(interval.first);
    let end = (block + unit).min(interval.first + interval.pages);
    (first, end - first)
}
