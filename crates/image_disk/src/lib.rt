//! Disks over image files, and the word that asks for one.
#![tactic(auto)]

mod bytes;
mod calls;
mod disk;
mod files;
mod moving;
mod neighbours;
mod remembered;
mod word;

pub use disk::{ImageDisk, LABELS, SECTOR_BYTES, Trouble};
pub use files::{NoImage, new_image, open_image, remove_image};
pub(crate) use remembered::Remembered;
pub use word::{Image, image_of};
