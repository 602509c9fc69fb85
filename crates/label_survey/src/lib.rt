//! What the labels of a disk make of each data sector.
#![tactic(auto)]

mod counter;
mod entries;
mod laws;
mod reading;
mod runs;
mod sector_state;
mod survey;
mod tally;
mod triples;
mod walk;

pub use counter::raise_counter;
pub use laws::sector_states_reveal;
pub use reading::{SurveyFault, read_labels};
pub use runs::{Run, runs_of};
pub use sector_state::SectorState;
pub use survey::{Survey, survey_labels};
pub use tally::{Tally, tally_sectors};
pub use triples::{Triple, needed_triples};
pub use walk::find_sector_states;
