//! One line of events, what comes of it, and what is written of that.
ghost use Rattle.std.specs.Prelude.{◌≡◌, ◌⊎◌, ◌≤◌, ◌<◌, ◌^◌, Some, None, false};
ghost use Rattle.flat_machine.specs.After.{ends_trace};
ghost use Rattle.flat_machine.specs.Form.{IsInForm};
ghost use Rattle.flight_core.specs.Pending.{IsClient};
ghost use Rattle.trace_io.specs.EventGrammar as event;
ghost use Rattle.client_events.specs.Carrying.{CarriesOut};
ghost use Rattle.client_events.specs.Turn.{Answered, FaultsIf, IsIdle, Keeps, Steps, Turns};

use crate::Ending;
use crate::outcome::{write_landed, write_revealed};
use flat_machine::{Call, Refusal, Reply};
use flight_core::{Flights, Stepped};
use trace_io::{Event, Events, Sink, Source, Stop, write_reply};

/// What becomes of one line of events.
#[derive(Drop)]
pub(crate) enum Turn {
    /// Others may follow it, and what comes of it is written.
    Written,
    /// Others may follow it, and the sink failed on what comes of it.
    CutShort,
    Ends(Ending),
}

// Carries out what a client asks for, and writes what it gets.
fn ask<T: Stepped, K: Sink>(flights: &mut Flights<T>, client: u8, call: &Call, sink: &mut K) -> Turn
    requires client { IsClient client }
    requires more { ends_trace call.now ≡ false }
    requires in_form { IsInForm call.now }
    requires runs { T.runs flights.old.stepped }
    requires few { flights.old.begun < 2 ^ 63 }
    ensures answered { Answered result (Some (event.Ask client call.now)) (K.took sink.old) (K.took sink.new)
        (Steps flights.old flights.new) (CarriesOut flights.old flights.new) }
    ensures keeps { Keeps result flights.old flights.new }
    ensures faults { FaultsIf (result ≡ Turn.CutShort) (K.faults sink.old) (K.faults sink.new) }
{
    match &flights.ask(client, call) {
        Ok(revealed) => match write_revealed(sink, client, revealed) {
            Ok(()) => Turn::Written,
            Err(_) => Turn::CutShort,
        },
        Err(halt) => Turn::Ends(Ending::Halted(*halt)),
    }
}

// Lands a flight, and writes what those get who wait for it.
fn land<T: Stepped, K: Sink>(flights: &mut Flights<T>, flight: u64, sink: &mut K) -> Turn
    requires runs { T.runs flights.old.stepped }
    requires few { flights.old.begun < 2 ^ 63 }
    ensures answered { Answered result (Some (event.Done flight)) (K.took sink.old) (K.took sink.new)
        (Steps flights.old flights.new) (CarriesOut flights.old flights.new) }
    ensures keeps { Keeps result flights.old flights.new }
    ensures faults { FaultsIf (result ≡ Turn.CutShort) (K.faults sink.old) (K.faults sink.new) }
{
    match flights.complete(flight) {
        Ok(landed) => match write_landed(sink, landed) {
            Ok(()) => Turn::Written,
            Err(_) => Turn::CutShort,
        },
        Err(halt) => Turn::Ends(Ending::Halted(halt)),
    }
}

/// Reads a line, carries out its event, and writes what comes of it.
pub(crate) fn take_turn<T: Stepped, S: Source, K: Sink>(
    flights: &mut Flights<T>,
    events: &mut Events,
    source: &mut S,
    sink: &mut K,
) -> Turn
    requires stopped { (events.old.stopped ≡ None) ⊎ (events.old.stopped ≡ Some Stop.End) }
    requires runs { T.runs flights.old.stepped }
    requires few { flights.old.begun < 2 ^ 63 }
    ensures turns { Turns result (S.left source.old) (S.left source.new) events.old events.new
        (K.took sink.old) (K.took sink.new) (Steps flights.old flights.new) (CarriesOut flights.old flights.new) }
    ensures bound { events.new.taken ≤ events.new.limit }
    ensures idle { IsIdle result → flights.new ≡ flights.old }
    ensures keeps { Keeps result flights.old flights.new }
    ensures source { FaultsIf (result ≡ Turn.Ends Ending.ReadFault) (S.faults source.old) (S.faults source.new) }
    ensures sink { FaultsIf (result ≡ Turn.CutShort) (K.faults sink.old) (K.faults sink.new) }
{
    match &events.next(source) {
        Event::Ask { client, call } => ask(flights, *client, call, sink),
        Event::Done(flight) => land(flights, *flight, sink),
        Event::Bad => match write_reply(sink, &Reply::Refused(Refusal::Syntax)) {
            Ok(()) => Turn::Written,
            Err(_) => Turn::CutShort,
        },
        Event::Close => Turn::Ends(Ending::Close),
        Event::Halt => Turn::Ends(Ending::Halt),
        Event::End => Turn::Ends(Ending::End),
        Event::ReadFault => Turn::Ends(Ending::ReadFault),
        Event::Long => Turn::Ends(Ending::Long),
    }
}
