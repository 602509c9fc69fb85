//! The machine that a core and a volume stand for, and how it goes with what calls do to disk and frames; no code to run.
#![tactic(auto)]

mod laws;

pub use laws::running_cores;
