//! Which pages of a run are dirty: a mark for each of them, set in one pass over the slots.
ghost use Rattle.std.specs.Prelude.{◌≡◌, ◌≤◌, ◌<◌};
ghost use Rattle.force_calls.specs.Forces.{is_marked, MarksDirty};

use crate::run::Run;
use frame_pool::FramePool;
use std::alloc::Allocator;

/// Places for as many pages as a pool has slots at most. A page's place is the number of the run's pages before it.
#[derive(Drop)]
pub(crate) struct Marks {
    dirty: [bool; 4096],
}

impl Marks {
    pub(crate) fn none() -> Marks {
        Marks {
            dirty: [false; 4096],
        }
    }

    /// Marks each page of the run whose frame is dirty.
    pub(crate) fn mark<A: Allocator>(&mut self, frames: &FramePool<A>, run: &Run)
        requires { run.now.pages ≤ 4096 }
        ensures { MarksDirty run.now.id run.now.first run.now.pages frames.now self.new }
    {
        for slot in 0..frames.frames() {
            if let Some(place) = run.dirty_at(frames, slot) {
                self.dirty[place as usize] = true;
            }
        }
    }

    pub(crate) fn has(&self, place: u32) -> bool
        requires { place < 4096 }
        ensures { result ≡ is_marked self.now place }
    {
        self.dirty[place as usize]
    }
}
