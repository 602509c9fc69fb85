//! What the definitions say, as the contracts of functions that do nothing.
ghost use Rattle.std.specs.Prelude.{ℕ, List};
ghost use Rattle.cut_words.specs.Barriers.{BarriersLeaveTwoWindows};
ghost use Rattle.cut_words.specs.Syncs.{SyncLaws};

/// The last sync before a write is the greatest number that is not above it.
pub fn last_sync_is_greatest()
    ensures { (syncs : List ℕ) (k : ℕ) → SyncLaws syncs k }
{}

/// Where the first and the last of some writes stand alone between two syncs, a cut has parts of the
/// others, or a part of the last one.
pub fn barriers_leave_two_windows()
    ensures { BarriersLeaveTwoWindows }
{}
