//! Dirty pages of a file written out, given up, or forgotten: a run of its pages at a time.
#![tactic(auto)]

mod calls;
mod marks;
mod run;
mod writing;

pub use calls::{discard, evict, flush};
