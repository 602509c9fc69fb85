//! The root of a volume, read, judged and written, and new volumes.
#![tactic(auto)]

mod formatting;
mod laws;
mod old;
mod page;
mod read;
mod root;
mod write;

pub use formatting::format;
pub use labelled_disk::{Difference, Layout, RootFault};
pub use laws::{
    flag_keeps_volume, new_volume_is_empty, old_roots_are_not_new, sound_is_opened,
    sound_volumes_are_mapped, three_files_are_sound, valid_roots_pass, written_root_is_read,
};
pub use old::read_old_root;
pub use read::read_root;
pub use root::Root;
pub use write::write_root;
