//! What a file map and labels have not in common.
ghost use Rattle.std.specs.Prelude.{◌≡◌, ◌↔◌, true};
ghost use Rattle.volume_view.specs.Names.{AreNone};

use label_survey::Run;
use std::alloc::Allocator;

/// The pages that a file map and labels have not in common, as runs.
#[derive(Drop)]
pub struct NameDifferences<A: Allocator> {
    /// The labels of the sectors name these pages, and the map doesn't name them there: in ascending sectors.
    pub unmapped: Vec<Run, A>,
    /// The map names these pages there, and the labels of the sectors don't: all of them, or as many
    /// as the volume has sectors.
    pub unlabelled: Vec<Run, A>,
}

impl<A: Allocator> NameDifferences<A> {
    /// Whether map and labels name the same pages in the same sectors.
    pub fn is_empty(&self) -> bool
        ensures { result ≡ true ↔ AreNone self.now }
    {
        self.unmapped.is_empty() && self.unlabelled.is_empty()
    }
}
