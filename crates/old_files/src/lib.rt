//! The files that the labels of an old volume name.
#![tactic(auto)]

mod laws;

pub use laws::{
    conversions_go_one_way, leaders_are_settled, leaders_make_files, old_files_are_listed,
    old_files_stay, old_labels_are_reread, placed_leaders_are_settled,
};
