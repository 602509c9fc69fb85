//! What the root of a volume says.

/// The fields of a volume's root.
#[derive(Clone, Copy, Debug, PartialEq, Eq)]
pub struct Root {
    pub version: u16,
    /// The volume was closed after its last use.
    pub clean: bool,
    /// How many sectors the disk has.
    pub sectors: u32,
    /// The high half of each identifier that the volume gives out.
    pub serial: u32,
    /// The low half of the next identifier that it gives out.
    pub counter: u32,
}
