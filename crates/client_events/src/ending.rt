//! How events end.

use labelled_disk::Halt;

/// How events end.
#[derive(Drop)]
pub enum Ending {
    /// At a line `close`.
    Close,
    /// At a line `halt`.
    Halt,
    /// The source is at its end.
    End,
    /// As many bytes as the limit were taken, and a further one is needed.
    Long,
    /// The source failed.
    ReadFault,
    /// The sink failed on the lines of an event, which was carried out.
    SinkFault,
    /// An event halted the machine. Nothing was written of it.
    Halted(Halt),
}
