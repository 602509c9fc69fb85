//! What a restoration is, as the contract of a function that does nothing but call others such.
ghost use Rattle.scavenger.specs.Restored.{RestoresEach};

use cut_laws::{cuts_are_parts_of_writes, restored_keep_files_in_cuts, root_in_cuts};
use label_laws::{map_labels, sound_when_closed, unneeded_are_freed};
use label_survey::sector_states_reveal;

/// The writes of a restoration restore each disk with a valid root, and keep its files at each
/// crash state, and in each cut once the first of them is on the medium.
pub fn scavenging_restores()
    ensures { RestoresEach }
{
    unneeded_are_freed();
    map_labels();
    sound_when_closed();
    sector_states_reveal();
    cuts_are_parts_of_writes();
    restored_keep_files_in_cuts();
    root_in_cuts();
}
