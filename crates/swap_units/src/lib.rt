//! Intervals of pages that are shown alike, and the swap unit of a page: what is brought in together.
#![tactic(auto)]

mod interval;
mod mode;

pub use flat_machine::ROOT_PAGES;
pub use interval::{Interval, unit_of};
pub use mode::Mode;
