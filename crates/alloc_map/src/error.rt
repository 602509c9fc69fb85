//! Why no sectors were taken.

/// No data sector is free, or the map's memory failed.
#[derive(Debug, Drop)]
pub enum AllocError<X> {
    /// No data sector is free.
    NoRoom,
    /// The memory's own error. Which sectors are marked is then open.
    Mem(X),
}
