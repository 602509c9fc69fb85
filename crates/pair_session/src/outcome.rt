//! How a replication ends.

use volume_pair::{PairHalt, PairStart};

/// How a replication ends.
#[derive(Clone, Copy, Debug, PartialEq, Eq)]
pub enum Outcome {
    /// At a line `close` or at the end of the text; the second volume is closed.
    Done,
    /// No pair was started. Nothing was read of the source, and nothing was written to the sink.
    NotStarted(PairStart),
    /// A call or the end gave up on one of both volumes.
    Halted(PairHalt),
    /// As many bytes as the limit were taken, and a further one is needed.
    Long,
    /// The source failed.
    ReadFault,
    /// The sink failed on the reply to a line, which was carried out.
    SinkFault,
}
