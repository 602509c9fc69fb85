//! Why a volume was not restored.
use thiserror::Error;
use volume_root::RootFault;

/// Why a volume was not restored.
#[derive(Clone, Copy, Debug, PartialEq, Eq, Error)]
pub enum ScavengeFault {
    /// The volume is refused, and was not written.
    #[error("{0}")]
    Root(RootFault),
    /// The disk failed. Some prefix of the writes may have been made.
    #[error("the disk failed")]
    Disk,
    /// Nothing was written.
    #[error("there is no memory left")]
    NoMemory,
}
