//! Why a look found nothing.
use thiserror::Error;

/// Why a look found nothing.
#[derive(Clone, Copy, Debug, PartialEq, Eq, Error)]
pub enum LookFault {
    /// No volume has so many sectors.
    #[error("no volume has {0} sectors")]
    BadCount(u32),
    #[error("the disk failed")]
    Disk,
    #[error("there is no memory left")]
    NoMemory,
}
