//! Calls of the space tables, over a core.
#![tactic(auto)]

mod adding;
mod asking;
mod beginning;
mod changing;
mod halting;
mod opening;
mod showing;

pub use adding::{add, remove};
pub use asking::{bounds, can_map, place};
pub use beginning::begin;
pub use changing::{set_unit, set_window};
pub use showing::{shown, shows_file};
