//! Tables over the pages of a map, inside a method, as the crates above a swapper have them.
#![tactic(auto)]

mod book;

pub use book::{Book, BookOver};
