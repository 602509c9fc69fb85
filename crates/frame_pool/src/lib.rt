//! A pool of page frames: a bounded map from the pages of files to their bytes.
#![tactic(auto)]

mod chain;
mod fill;
mod found;
mod home;
mod order;
mod pool;
mod sweep;
mod table;

pub use home::Home;
pub use pool::FramePool;
