//! Laws of labels and writes, for the layers above.
#![tactic(auto)]

mod callers;
mod laws;

pub use callers::{put_pages, put_twice};
pub use laws::{
    any_disk_keeps_files, label_writes_in_a_row, labels_by_label_writes, labels_give_shape,
    map_labels, marks_are_added, needed_sectors_are_counted, permanent_files, permanent_files_stay,
    permitted_runs, permitted_writes_leave_others, right_by_room, sound_when_closed,
    temporary_runs_are_unseen, unneeded_are_freed, unseen_runs,
};
