//! The map of a volume's used sectors, in a flat memory.
#![tactic(auto)]

mod bits;
mod error;
mod map;
mod pages;
mod search;

pub use error::AllocError;
pub use map::AllocMap;
