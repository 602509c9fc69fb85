//! Bytes are loaded and stored.
ghost use Rattle.pilot_c.specs.Moves.{Loads, Stores};
ghost use Rattle.pilot_c.specs.Numbers.{IsNumberOf};

use crate::Pilot;
use crate::answers::number;

/// Loads bytes from an address on; how many is put in `done`.
#[unsafe(no_mangle)]
pub extern "C" fn pilot_load(
    pilot: &mut Pilot,
    address: u32,
    into: &mut [u8],
    done: &mut usize,
) -> i32
    ensures { IsNumberOf (λ answer. Loads address into.old into.new done.new pilot.old.value.engine answer
        pilot.new.value.engine) result }
{
    let (count, answer) = pilot.engine().engine.load(address, into);
    *done = count;
    number(&answer)
}

/// Stores bytes from an address on; how many is put in `done`.
#[unsafe(no_mangle)]
pub extern "C" fn pilot_store(
    pilot: &mut Pilot,
    address: u32,
    bytes: &[u8],
    done: &mut usize,
) -> i32
    ensures { IsNumberOf (λ answer. Stores address bytes.now done.new pilot.old.value.engine answer
        pilot.new.value.engine) result }
{
    let (count, answer) = pilot.engine().engine.store(address, bytes);
    *done = count;
    number(&answer)
}
