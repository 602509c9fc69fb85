//! From an address to a byte: pages are described by the projection, and found through the file map.
#![tactic(auto)]

mod activate;
mod attempt;
mod core_over;
mod describe;
mod frames;
mod homes;
mod kill;
mod laws;
mod load;
mod plan;
mod range;
mod ready;
mod reference;
mod resident;
mod search;
mod shown;
mod store;
mod store_ready;
mod touch;
mod unit;
mod walk;

pub use attempt::Attempt;
pub use core_over::{Core, LentCore};
pub use homes::Homes;
pub use laws::{
    loads_are_allowed, ranges_are_forced, reaches_in_turn, references_are_tested,
    stores_are_allowed,
};
pub use plan::Plan;
pub use reference::Access;
