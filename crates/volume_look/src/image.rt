//! The image, opened for reading alone.
use image_disk::{ImageDisk, LABELS};
use labelled_disk::Disk;
use std::fs::{File, OpenOptions, metadata};
use std::io;
use thiserror::Error;

/// Why there is no image to look at.
#[derive(Debug, Drop, Error)]
pub(crate) enum NoImage {
    /// What the system answered.
    #[error("{0}")]
    System(io::Error),
    /// A folder, a FIFO, a socket or a device: opening or reading one may wait without end.
    #[error("no image: not a file")]
    NoFile,
    /// Not one sector lies in the file whole.
    #[error("no image: shorter than a sector of 528 bytes")]
    Short,
}

fn open_file(rt: &HostRuntime, path: &str) -> io::Result<File> {
    OpenOptions::new().read(true).open(rt, path)
}

/// The disk in the file of this path, which has a sector at least. What is no file is not opened.
pub(crate) fn open_image(rt: &HostRuntime, path: &str) -> Result<ImageDisk<File>, NoImage> {
    if !metadata(rt, path).map_err(NoImage::System)?.is_file() {
        return Err(NoImage::NoFile);
    }
    let mut disk = ImageDisk::over(open_file(rt, path).map_err(NoImage::System)?);
    disk.remember(rt.alloc(), LABELS);
    if disk.sectors() == 0 {
        return Err(NoImage::Short);
    }
    Ok(disk)
}
