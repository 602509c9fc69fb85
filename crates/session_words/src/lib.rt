//! The words in which sessions speak of disk and frames, and what follows from them.
#![tactic(auto)]

mod laws;

pub use laws::{
    bytes_change, calls_stand, cells_alone, disk_reveals_settled, files_deleted, files_grow,
    files_made, files_marked, files_resized, frames_are_known, labels_reveal_files, maps_are_shown,
    pages_freed, parts_stay, sector_relabelled, sound_labels_are_files, sound_volumes_open,
    stops_between_writes, stops_reveal_settled, volume_closed, volume_opened,
};
