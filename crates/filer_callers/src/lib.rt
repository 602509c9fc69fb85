//! A table in the pages of the space tables, inside a method, as the crates above a filer have it.
#![tactic(auto)]

mod register;

pub use register::{Register, RegisterOver};
