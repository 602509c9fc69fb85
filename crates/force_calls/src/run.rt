//! So many pages of a file, from the first one on, and the looks that find their frames.
ghost use Rattle.std.specs.Prelude.{◌≡◌, ◌<◌, ◌+◌, ◌-◌, ◌^◌, ℕ, true, length, Some, IfSome};
ghost use Rattle.frame_pool.specs.Frames.{Frame, Has, IsWithin, frame_at};
ghost use Rattle.force_calls.specs.Run.{dirty_within, is_within, look_at, looks_of};

use frame_pool::{FramePool, Home};
use labelled_disk::FileId;
use std::alloc::Allocator;

#[derive(Clone, Copy)]
pub(crate) struct Run {
    pub(crate) id: FileId,
    pub(crate) first: u32,
    pub(crate) pages: u32,
}

impl Run {
    /// Whether looks at the pages are fewer than looks at so many slots.
    pub(crate) fn is_short(&self, slots: u32) -> bool
        ensures fits { result ≡ true → self.now.first + self.now.pages < 2 ^ 32 }
        ensures fewer { result ≡ true → self.now.pages < slots }
    {
        self.pages < slots && self.pages <= u32::MAX - self.first
    }

    /// Whether one pass over the slots costs less than looks at the pages where few of these are dirty.
    pub(crate) fn is_long(&self, slots: u32) -> bool
        ensures fits { result ≡ true → self.now.first + self.now.pages < 2 ^ 32 }
        ensures fewer { result ≡ true → self.now.pages < slots }
    {
        self.is_short(slots) && self.pages > 64 && self.pages > slots / 4
    }

    /// How many looks find all frames of the run.
    pub(crate) fn looks(&self, by_page: bool, slots: u32) -> u32
        ensures { result ≡ looks_of by_page self.now.pages slots }
    {
        if by_page { self.pages } else { slots }
    }

    // Whether the home is that of a page of the run.
    fn has(&self, home: Home) -> bool
        ensures { result ≡ is_within self.now.id self.now.first self.now.pages home }
    {
        home.id == self.id && home.page >= self.first && home.page - self.first < self.pages
    }

    // Where the slot has a page of the run, whether it is dirty.
    fn held_in<A: Allocator>(&self, frames: &FramePool<A>, slot: u32) -> Option<bool>
        requires { slot < length frames.now }
        ensures { result ≡ dirty_within self.now.id self.now.first self.now.pages (frame_at frames.now slot) }
    {
        let (home, dirty) = frames.held(slot)?;
        if self.has(home) { Some(dirty) } else { None }
    }

    /// Where the slot has a dirty page of the run, how many of the run's pages are before it.
    pub(crate) fn dirty_at<A: Allocator>(&self, frames: &FramePool<A>, slot: u32) -> Option<u32>
        requires { slot < length frames.now }
        ensures below { IfSome result (λ place. place < self.now.pages) }
        ensures all { (f : Frame) → Has frames.now slot f
            → IsWithin self.now.id self.now.first self.now.pages f.home → f.dirty ≡ true
            → result ≡ Some (f.home.page - self.now.first) }
    {
        let (home, dirty) = frames.held(slot)?;
        if dirty && self.has(home) {
            Some(home.page - self.first)
        } else {
            None
        }
    }

    // The slot that is looked at: the one with a page, or the one of this number.
    fn slot_at<A: Allocator>(&self, frames: &FramePool<A>, by_page: bool, look: u32) -> Option<u32>
        requires below { look < looks_of by_page self.now.pages (length frames.now) }
        requires fits { by_page ≡ true → self.now.first + self.now.pages < 2 ^ 32 }
        ensures below { IfSome result (λ slot. slot < length frames.now) }
        ensures all { (i : ℕ) (f : Frame) → Has frames.now i f
            → IsWithin self.now.id self.now.first self.now.pages f.home
            → look_at by_page self.now.first i f.home ≡ look → result ≡ Some i }
    {
        if by_page {
            frames.find(self.id, self.first + look)
        } else {
            Some(look)
        }
    }

    /// The slot that a look finds to have a page of the run, and whether it is dirty.
    pub(crate) fn held_at<A: Allocator>(
        &self,
        frames: &FramePool<A>,
        by_page: bool,
        look: u32,
    ) -> Option<(u32, bool)>
        requires below { look < looks_of by_page self.now.pages (length frames.now) }
        requires fits { by_page ≡ true → self.now.first + self.now.pages < 2 ^ 32 }
        ensures below { IfSome result (λ held. held.0 < length frames.now) }
        ensures held { IfSome result (λ held. (f : Frame) × Has frames.now held.0 f × (f.dirty ≡ held.1)
            × IsWithin self.now.id self.now.first self.now.pages f.home) }
        ensures all { (i : ℕ) (f : Frame) → Has frames.now i f
            → IsWithin self.now.id self.now.first self.now.pages f.home
            → look_at by_page self.now.first i f.home ≡ look → result ≡ Some (i, f.dirty) }
    {
        let slot = self.slot_at(frames, by_page, look)?;
        let dirty = self.held_in(frames, slot)?;
        Some((slot, dirty))
    }

    /// The slot that a look finds to have a dirty page of the run.
    pub(crate) fn dirty_found<A: Allocator>(
        &self,
        frames: &FramePool<A>,
        by_page: bool,
        look: u32,
    ) -> Option<u32>
        requires below { look < looks_of by_page self.now.pages (length frames.now) }
        requires fits { by_page ≡ true → self.now.first + self.now.pages < 2 ^ 32 }
        ensures below { IfSome result (λ slot. slot < length frames.now) }
        ensures dirty { IfSome result (λ slot. (f : Frame) × Has frames.now slot f × (f.dirty ≡ true)
            × IsWithin self.now.id self.now.first self.now.pages f.home) }
        ensures all { (i : ℕ) (f : Frame) → Has frames.now i f
            → IsWithin self.now.id self.now.first self.now.pages f.home
            → look_at by_page self.now.first i f.home ≡ look → f.dirty ≡ true → result ≡ Some i }
    {
        let (slot, dirty) = self.held_at(frames, by_page, look)?;
        if dirty { Some(slot) } else { None }
    }
}
