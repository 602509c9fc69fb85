//! Why a pair stopped, and on which side.
use labelled_disk::{Halt, RootFault};

/// Why a pair gave up, and on which volume.
#[derive(Clone, Copy, Debug, PartialEq, Eq)]
pub enum PairHalt {
    /// On the first volume, which is not written.
    From(Halt),
    /// On the second one, which gets the copies.
    To(Halt),
}

/// Why no pair starts.
#[derive(Clone, Copy, Debug, PartialEq, Eq)]
pub enum PairStart {
    /// The first volume has no root that can be opened.
    From(RootFault),
    /// The second one has none.
    To(RootFault),
    NoMemory,
    /// The start gave up on the second volume.
    Halt(Halt),
}
