//! Pages of files in frames over a disk: brought in, changed, and written out to their homes.
#![tactic(auto)]

mod bring;
mod laws;
mod manager;
mod swapper;
mod window;

pub use laws::{frames_move, maps_are_revealed, swapper_steps, swaps_keep_memory};
pub use manager::Manager;
pub use swapper::{LentSwapper, Swapper};
pub use window::{LentMapMemory, MapMemory};
