//! What the definitions say, as the contracts of functions that do nothing.
ghost use Rattle.std.specs.Prelude.{◌≡◌, ℕ};
ghost use Rattle.flat_machine.specs.declared.call.Call.TheVariants.{Units};
ghost use Rattle.trace_maker.specs.Drawn.{value};
ghost use Rattle.trace_maker.specs.Calls.{call_of};
ghost use Rattle.trace_maker.specs.Fixed.{AllowedInAnyRoom, RepliesAreFixed};

/// The first call of seed 0 sets the unit size of a space.
#[tactic(auto, unfolding(crate::specs::Drawn::number_after))]
pub fn first_call_sets_units()
    ensures value { value 0 0 ≡ 167951807 }
    ensures call { (space : ℕ) × (pages : ℕ) × (call_of 0 0 ≡ Units space pages) }
{}

/// Where each cell is a byte, the replies to drawn calls are fixed: none of the calls makes a cell any. The capacity of the
/// volume has no part in them.
pub fn replies_are_fixed()
    ensures fixed { RepliesAreFixed }
    ensures any_room { AllowedInAnyRoom }
{}
