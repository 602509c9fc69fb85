//! Two volumes in use, of which the second gets copies of immutable files of the first.
#![tactic(auto)]

mod comparing;
mod copying;
mod ending;
mod fault;
mod pages;
mod pair;
mod starting;
mod syncing;

pub use fault::{PairHalt, PairStart};
pub use pair::{LentPair, Pair};
