//! The cache.
ghost use Rattle.std.specs.Prelude.{◌≡◌, ◌<◌, ◌≤◌, [], ◌∷◌, ◌++◌, length, drop, find};
ghost use Rattle.swap_units.specs.Unit.{has_page};

use arrayvec::ArrayVec;
use swap_units::Interval;

const MOST: usize = 16;

/// At most 16 intervals, the one that was kept last at the end.
#[derive(Drop)]
pub struct DescriptorCache {
    kept: ArrayVec<Interval, 16>,
    ghost few: { length kept.items ≤ 16 },
}

impl DescriptorCache {
    ghost use Rattle.descriptor_cache.specs.Cache.{kept_in};

    /// A cache that keeps nothing.
    pub fn new() -> DescriptorCache
        ensures { kept_in result ≡ [] }
    {
        DescriptorCache {
            kept: ArrayVec::new(),
        }
    }

    /// The first of the kept intervals that has the page, or None where none has it.
    pub fn look(&self, page: u32) -> Option<Interval>
        ensures found { result ≡ find (has_page page) (kept_in self.now) }
    {
        self.kept.iter().copied().find(|x| x.has_page(page))
    }

    /// Keeps an interval, and lets the oldest go where there are 16.
    pub fn keep(&mut self, interval: Interval)
        ensures room { length (kept_in self.old) < 16 → kept_in self.new ≡ kept_in self.old ++ interval ∷ [] }
        ensures full { length (kept_in self.old) ≡ 16 → kept_in self.new ≡ drop 1 (kept_in self.old) ++ interval ∷ [] }
        ensures few { length (kept_in self.old) ≤ 16 }
    {
        if self.kept.len() == MOST {
            self.kept.remove(0);
        }
        self.kept.push(interval);
    }

    /// Lets all go.
    pub fn clear(&mut self)
        ensures { kept_in self.new ≡ [] }
    {
        self.kept.clear();
    }
}
