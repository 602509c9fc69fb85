//! Why a table in a memory did not take an entry.

/// The table is full, or its memory failed.
#[derive(Debug, Drop)]
pub enum TableError<X> {
    /// There is no room for one more entry.
    Full,
    /// The memory's own error. The table's bytes are then open.
    Mem(X),
}
