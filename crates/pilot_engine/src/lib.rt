//! A session: the calls of a client on the files of a volume.
#![tactic(auto)]

mod anonymous;
mod ask;
mod clear;
mod closing;
mod create;
mod delete;
mod emptying;
mod fault;
mod finish;
mod frames;
mod fresh;
mod laws;
mod marks;
mod order;
mod referring;
mod rooted;
mod session;
mod set_size;
mod sight;
mod spaces;
mod start;
mod step;
mod stepped;
mod store_ready;
mod trying;

pub use fault::StartFault;
pub use fault_core::Access;
pub use laws::{sessions_have_room, sound_volumes_are_begun};
pub use session::{LentSession, Session};
