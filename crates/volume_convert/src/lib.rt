//! The call that brings a volume of version 1 or 2 to version 3.
#![tactic(auto)]

mod arranging;
mod converting;
mod fault;
mod heads;
mod leaders;
mod plan;
mod reread;

pub use converting::{Converted, convert};
pub use fault::ConvertFault;
