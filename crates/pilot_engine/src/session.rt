//! What a session holds.
use fault_core::Core;
use file_manager::Volume;
use labelled_disk::Disk;
use std::alloc::Allocator;

/// A volume in use: its disk with frames over it and its spaces, its root, and how much of it is used.
#[derive(Drop)]
pub struct Session<D: Disk, A: Allocator> {
    pub(crate) core: Core<D, A>,
    pub(crate) volume: Volume,
    pub(crate) running: bool,
}

/// A session on a disk that is lent.
pub type LentSession<'d, D, A> = Session<&'d mut D, A>;
