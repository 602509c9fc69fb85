//! What a slot remembers of the pages from its own on.
ghost use Rattle.std.specs.Prelude.{◌≡◌, ◌≤◌, true};
ghost use Rattle.frame_pool.specs.Runs.{IsFresh};

/// So many pages, from the slot's own on, were there when so many slots had been emptied.
#[derive(Clone, Copy)]
pub(crate) struct FoundRun {
    pub(crate) pages: u16,
    pub(crate) time: u32,
}

/// No page: nothing is said.
pub(crate) const NOTHING: FoundRun = FoundRun { pages: 0, time: 0 };

impl FoundRun {
    /// Whether it reveals, at this time, that so many pages are there. At the greatest time it reveals nothing.
    pub(crate) fn reveals(&self, pages: u32, time: u32) -> bool
        ensures { result ≡ true → IsFresh self.now time × (pages ≤ self.now.pages) }
    {
        self.time == time && time < u32::MAX && pages <= u32::from(self.pages)
    }
}
