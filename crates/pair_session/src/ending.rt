//! How lines of a pair end.

use volume_pair::PairHalt;

/// How lines end, before the second volume is closed.
#[derive(Clone, Copy, Debug, PartialEq, Eq)]
pub(crate) enum Ending {
    /// At a line `close`.
    Close,
    /// At the end of the text.
    End,
    /// As many bytes as the limit were taken, and a further one is needed.
    Long,
    ReadFault,
    /// The sink failed on a reply.
    SinkFault,
    /// A line gave up on one of both volumes.
    Halted(PairHalt),
}
