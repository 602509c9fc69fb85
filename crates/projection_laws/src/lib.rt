//! How the projection changes with the spaces.
#![tactic(auto)]

mod laws;

pub use laws::{
    added_splits, entries_are_intervals, few_intervals, intervals_are_formed, intervals_are_one,
    intervals_reveal, last_holds, places_by_intervals, records_read_back, removed_joins,
    root_is_one, slots_are_spaces, tests_on_spaces, unit_refits, window_reshows, windows_stay_fit,
    worked_row, writes_of_a_table,
};
