// Why a call of the tree was not done.

/// Why a call of the tree was not done.
#[derive(Clone, Copy, Debug, PartialEq, Eq, Drop)]
pub enum TreeError<X> {
    /// There is no room for one more entry.
    Full,
    /// This page breaks the form of the tree. The tree is given up.
    Malformed { page: u32 },
    /// The memory's own error. The tree is given up where the call writes.
    Mem(X),
}
