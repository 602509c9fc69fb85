//! What may stand on a disk where the power went: the words, and what barriers among writes leave.
#![tactic(auto)]

mod laws;

pub use laws::{barriers_leave_two_windows, last_sync_is_greatest};
