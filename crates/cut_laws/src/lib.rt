//! What stays of the files of a disk where the power goes.
#![tactic(auto)]

mod laws;
mod pages;

pub use laws::{
    changes_apart_are_of_one_crash_state, changes_of_calls_are_apart, common_stays_in_cuts,
    cuts_are_parts_of_writes, cuts_of_a_disk, example_cuts, flag_is_honest_in_cuts,
    labels_apart_are_changes_apart, new_pages_are_own, one_change_is_of_one_crash_state,
    others_stay_in_cuts, own_bytes_in_cuts, restored_keep_files_in_cuts, root_in_cuts,
    runs_of_one_file, shapes_stay_in_cuts, sizes_in_cuts,
};
pub use pages::lagging_page;
