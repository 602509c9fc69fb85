//! What the calls on files know of the volume.
use labelled_disk::Layout;
use volume_root::Root;

/// A volume in use.
#[derive(Clone, Copy, Debug, PartialEq, Eq)]
pub struct Volume {
    pub layout: Layout,
    pub root: Root,
    /// How many data sectors the files have, leaders among them.
    pub used: u32,
}
