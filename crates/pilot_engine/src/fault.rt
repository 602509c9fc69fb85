//! Why no session starts.
use labelled_disk::{Halt, RootFault};
use thiserror::Error;

/// Why no session starts.
#[derive(Clone, Copy, Debug, PartialEq, Eq, Error)]
pub enum StartFault {
    #[error("{0}")]
    Root(RootFault),
    #[error("there is no memory left")]
    NoMemory,
    /// The root was written, or may have been; or other sectors, where a volume is made.
    #[error("{0}")]
    Halt(Halt),
}
