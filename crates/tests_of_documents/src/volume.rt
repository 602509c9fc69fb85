//! A volume on a disk in memory, with a session on it.
use anyhow::{Result, bail};
use embedded::Engine;
use labelled_disk::MemoryDisk;
use std::alloc::Global;

pub(crate) type Volume = Engine<MemoryDisk<Global>, Global>;

/// A new volume of so many sectors, with a session.
pub(crate) fn opened(alloc: Global, sectors: u32) -> Result<Volume> {
    let mut volume = Engine::over(MemoryDisk::new(alloc, sectors)?);
    if volume.format(7, 1).is_err() || volume.open(alloc, 24).is_err() {
        bail!("there is no volume");
    }
    Ok(volume)
}
