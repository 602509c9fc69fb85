//! The sectors in which the pages of a volume's files stand, in a sorted list of runs.
#![tactic(auto)]

mod add;
mod count;
mod cut;
mod entries;
mod error;
mod laws;
mod map;
mod reads;
mod run;
mod search;
mod tree;

pub use error::MapError;
pub use laws::records_are_few;
pub use map::FileMap;
pub use run::Run;
