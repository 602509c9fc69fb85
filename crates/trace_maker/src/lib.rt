//! Drawn calls: the trace of a trial, by its seed.
#![tactic(auto)]

mod drawn;
mod laws;
mod maker;

pub use laws::{first_call_sets_units, replies_are_fixed};
pub use maker::{TraceMaker, call_at};
