//! Calls on spaces, over a core: what each of them does to the machine that the core stands for.
#![tactic(auto)]

mod advice;
mod bare;
mod framing;
mod mapping;
mod naming;
mod range;
mod reference;
mod spaces;
mod syncing;
mod unmapping;
mod windows;

pub use advice::{activate, try_activate};
pub use mapping::{give_window, map};
pub use naming::{named_file, window_on};
pub use range::{deactivate, force_out, kill};
pub use reference::{load, store};
pub use spaces::{make_space, place, remove_space, set_units};
pub use syncing::sync;
pub use unmapping::{protect, take_window};
