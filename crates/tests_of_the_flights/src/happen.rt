//! Events in a row, over any machine that is stepped.
ghost use Rattle.std.specs.Prelude.{◌≡◌, ◌≤◌, ◌<◌, ◌+◌, ◌*◌, ◌^◌, ◌++◌, ◌∷◌, [], length, true, IfOk, OnOk, OnErr};
ghost use Rattle.std.specs.List.{All};
ghost use Rattle.flat_machine.specs.Form.{IsInForm};
ghost use Rattle.flat_machine.specs.Machine.{Machine};
ghost use Rattle.flight_core.specs.Flights.{crowd_of, LeadsTo};
ghost use Rattle.flight_core.specs.Run.{Happens};
ghost use Rattle.tests_of_the_flights.specs.Happening.{happening, outcome, MayHappen, Happened, HappenAll};

use flat_machine::Call;
use flight_core::{Flights, Landed, Revealed, Stepped, runs_grow};
use labelled_disk::Halt;
use std::alloc::{AllocError, Allocator};

/// A client asks, or a flight is done.
#[derive(Drop)]
pub enum Event {
    Ask { client: u8, call: Call },
    Done(u64),
}

/// What comes of it.
#[derive(Drop)]
pub enum Outcome {
    Revealed(Revealed),
    Landed(Landed),
}

/// Why not all events happen.
#[derive(Drop)]
pub enum Stop {
    Halt(Halt),
    NoMemory,
}

/// Whether a load or a store has 1 to 64 bytes.
pub fn is_in_form(call: &Call) -> bool
    ensures { result ≡ true → IsInForm call.now }
{
    match call {
        Call::Load { count, .. } => 1 <= *count && *count <= 64,
        Call::Store { bytes, .. } => !bytes.as_slice().is_empty(),
        _ => true,
    }
}

/// Whether a client asks for a call in form that does not end the session, or a flight is done.
pub fn may_happen(event: &Event) -> bool
    ensures { result ≡ true → MayHappen event.now }
{
    match event {
        Event::Ask { client, call } => {
            1 <= *client
                && *client <= 16
                && is_in_form(call)
                && !matches!(call, Call::Close | Call::Halt)
        }
        Event::Done(_) => true,
    }
}

/// One event.
pub fn happen<S: Stepped>(flights: &mut Flights<S>, event: &Event) -> Result<Outcome, Halt>
    requires may_happen { MayHappen event.now }
    requires runs { S.runs flights.old.stepped }
    requires few { flights.old.begun < 2 ^ 63 }
    ensures happens { (m : Machine) → S.stands flights.old.stepped m → IfOk result
        (λ o. LeadsTo (λ n. crowd_of n flights.new) (S.stands flights.new.stepped)
        (Happens (crowd_of m flights.old) (happening event.now) (outcome o))) }
    ensures goes_on { OnOk result (S.runs flights.new.stepped) }
    ensures few { flights.new.begun ≤ flights.old.begun + 16 }
{
    match event {
        Event::Ask { client, call } => Ok(Outcome::Revealed(flights.ask(*client, call)?)),
        Event::Done(flight) => Ok(Outcome::Landed(flights.complete(*flight)?)),
    }
}

fn add<A: Allocator>(outcomes: &mut Vec<Outcome, A>, outcome: Outcome) -> Result<(), AllocError>
    ensures ok { OnOk result (outcomes.new.items ≡ outcomes.old.items ++ outcome ∷ []) }
    ensures err { OnErr result (outcomes.new.items ≡ outcomes.old.items) }
{
    outcomes.push(outcome)?;
    Ok(())
}

/// Events in a row, up to the first halt: what comes of each is added, and is a run of the crowd.
pub fn happen_in_a_row<S: Stepped, A: Allocator>(
    flights: &mut Flights<S>,
    events: &[Event],
    outcomes: &mut Vec<Outcome, A>,
) -> Result<(), Stop>
    requires may_happen { All MayHappen events.now }
    requires runs { S.runs flights.old.stepped }
    requires few { flights.old.begun + 16 * length events.now < 2 ^ 63 }
    requires begins { outcomes.old.items ≡ [] }
    ensures all { (m : Machine) → S.stands flights.old.stepped m → OnOk result
        (LeadsTo (λ n. crowd_of n flights.new) (S.stands flights.new.stepped)
        (HappenAll (crowd_of m flights.old) events.now outcomes.new.items)) }
    ensures first { (m : Machine) → S.stands flights.old.stepped m
        → Happened (crowd_of m flights.old) events.now outcomes.new.items }
    ensures goes_on { OnOk result (S.runs flights.new.stepped) }
{
    runs_grow();
    for event in events {
        match happen(flights, event) {
            Ok(outcome) => match add(outcomes, outcome) {
                Ok(()) => {}
                Err(_want) => return Err(Stop::NoMemory),
            },
            Err(halt) => return Err(Stop::Halt(halt)),
        }
    }
    Ok(())
}
