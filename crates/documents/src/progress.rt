//! Who learns how far a document has come.

/// Learns how many bytes of a document were put or got.
pub trait Progress {
    fn moved(&mut self, bytes: u64);
}

/// Nobody learns of it.
#[derive(Clone, Copy, Debug)]
pub struct Silent;

impl Progress for Silent {
    fn moved(&mut self, _bytes: u64) {}
}
