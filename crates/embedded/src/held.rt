//! What an engine holds of its disk.
use crate::live::Live;
use labelled_disk::Disk;
use std::alloc::Allocator;

/// What an engine holds of its disk.
#[derive(Drop)]
pub(crate) enum Held<D: Disk, A: Allocator> {
    /// It let go of it.
    Nothing,
    Disk(D),
    Session(Live<D, A>),
}
