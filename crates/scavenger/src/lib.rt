//! The call that restores a volume from its labels, whatever stands in its maps.
#![tactic(auto)]

mod bits;
mod fault;
mod laws;
mod names;
mod opening;
mod plan;
mod report;
mod restoring;
mod writing;

pub use fault::ScavengeFault;
pub use laws::scavenging_restores;
pub use plan::Plan;
pub use report::{Lost, Report};
pub use restoring::scavenge;
pub use writing::free_sectors;
