//! Which command words mean: the command word by hand, and its options by `clap`.
#![tactic(auto)]

mod laws;
mod parsers;
mod refusal;
mod words;

pub use laws::{plain_is_meant, what_is_meant_is_in_range};
pub use refusal::Refused;
pub use words::{Command, command_of};
