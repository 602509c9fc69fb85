//! A session inside its client's process: none yet, a running one, or one that stopped. Every call may be made at any
//! time.
#![tactic(auto)]

mod bytes;
mod calling;
mod calls;
mod code;
mod engine;
mod held;
mod image;
mod live;
mod making;
mod opening;
mod reference;
mod referring;
mod stepping;

pub use code::Code;
pub use engine::Engine;
pub use image::ImageEngine;
