//! References in flight for several clients of one machine.
#![tactic(auto)]

mod answers;
mod flights;
mod landing;
mod laws;
mod pending;
mod stepped;

pub use answers::{Answer, Answers, Landed, Revealed};
pub use flights::Flights;
pub use laws::runs_grow;
pub use pending::Pending;
pub use stepped::{Stepped, Tried};
