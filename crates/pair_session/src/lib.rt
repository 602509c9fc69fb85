//! Lines for a pair of volumes, read from a source and answered to a sink.
#![tactic(auto)]

mod answering;
mod closing;
mod ending;
mod laws;
mod outcome;
mod replication;
mod turn;

pub use laws::answers_are_transcripts;
pub use outcome::Outcome;
pub use replication::replicate;
