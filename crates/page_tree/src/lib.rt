//! A sorted list of entries of one width, kept as a tree of pages in a flat memory.
#![tactic(auto)]

mod adding;
mod after;
mod balance;
mod beside;
mod by_index;
mod climb;
mod edit_by_index;
mod edits;
mod error;
mod last_at_most;
mod laws;
mod look;
mod naming;
mod out_by_index;
mod pages;
mod redistribute;
mod removing;
mod replacing;
mod sought;
mod split;
mod take;
mod taking;
mod tree;
mod underfull;
mod walk;

pub use error::TreeError;
pub use laws::listed_is_unbroken;
pub use tree::PageTree;
