//! What the conversion of an old volume writes, and what it leaves.
#![tactic(auto)]

mod laws;

pub use laws::{conversions_convert, example_old_files, first_writes_place, left_is_taken_again};
