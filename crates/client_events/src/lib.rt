//! Events of clients, read from a source and answered to a sink.
#![tactic(auto)]

mod answering;
mod dropped;
mod ending;
mod laws;
mod outcome;
mod turn;

pub use answering::answer_events;
pub use dropped::{Clients, waiting_clients, write_dropped, write_dropped_clients};
pub use ending::Ending;
pub use laws::{answers_are_runs, answers_grow};
