//! What sector states say of a disk, as the contract of a function that does nothing.
ghost use Rattle.label_survey.specs.Laws.{FreedAreUnneeded, KeptAreNeeded, NeededAreFiles};

/// The sectors that are freed and kept, and the labels of those that files need.
pub fn sector_states_reveal()
    ensures freed { FreedAreUnneeded }
    ensures kept { KeptAreNeeded }
    ensures files { NeededAreFiles }
{}
