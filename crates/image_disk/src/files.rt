//! Image files: a new one, and one that is there. Each is locked while it is worked on.

use crate::{ImageDisk, LABELS, SECTOR_BYTES};
use labelled_disk::Disk;
use std::fs::{File, OpenOptions, TryLockError};
use std::{fs, io};
use thiserror::Error;

/// Why there is no image to work on.
#[derive(Debug, Drop, Error)]
pub enum NoImage {
    /// What the system answered.
    #[error("{0}")]
    System(io::Error),
    /// Another program holds the lock.
    #[error("in use by another program")]
    InUse,
    /// Not one sector lies in the file whole.
    #[error("no image: shorter than a sector of 528 bytes")]
    Short,
}

impl From<io::Error> for NoImage {
    fn from(error: io::Error) -> Self {
        NoImage::System(error)
    }
}

/// The disk in a new file of so many zero sectors. There must be no file of that path. Where the
/// file can't be locked or can't get its length, it is removed again.
pub fn new_image(rt: &HostRuntime, sectors: u32, path: &str) -> Result<ImageDisk<File>, NoImage> {
    let file = new_file(rt, path).map_err(NoImage::System)?;
    match with_sectors(file, sectors) {
        Ok(disk) => Ok(remembering(rt, disk)),
        Err(why) => {
            let _ = remove_image(rt, path);
            Err(why)
        }
    }
}

/// Removes the file of an image that no volume was made in.
pub fn remove_image(rt: &HostRuntime, path: &str) -> io::Result<()> {
    fs::remove_file(rt, path)
}

/// The disk in the file that is there, which has a sector at least.
pub fn open_image(rt: &HostRuntime, path: &str) -> Result<ImageDisk<File>, NoImage> {
    let file = file_there(rt, path).map_err(NoImage::System)?;
    let disk = ImageDisk::over(locked(file)?);
    if disk.sectors() == 0 {
        return Err(NoImage::Short);
    }
    Ok(remembering(rt, disk))
}

// The disk that remembers what it read or wrote last, where there is memory for that.
fn remembering(rt: &HostRuntime, mut disk: ImageDisk<File>) -> ImageDisk<File> {
    disk.remember(rt.alloc(), LABELS);
    disk
}

fn new_file(rt: &HostRuntime, path: &str) -> io::Result<File> {
    OpenOptions::new()
        .read(true)
        .write(true)
        .create_new(true)
        .open(rt, path)
}

fn file_there(rt: &HostRuntime, path: &str) -> io::Result<File> {
    OpenOptions::new().read(true).write(true).open(rt, path)
}

// The disk of so many zero sectors in a file that is empty.
fn with_sectors(file: File, sectors: u32) -> Result<ImageDisk<File>, NoImage> {
    let file = locked(file)?;
    match file.set_len(u64::from(sectors) * SECTOR_BYTES) {
        Ok(()) => Ok(ImageDisk::over(file)),
        Err(error) => Err(NoImage::System(error)),
    }
}

// The file once it is locked.
fn locked(file: File) -> Result<File, NoImage> {
    match file.try_lock() {
        Ok(()) => Ok(file),
        Err(TryLockError::WouldBlock) => Err(NoImage::InUse),
        Err(TryLockError::Error(error)) => Err(NoImage::System(error)),
    }
}
