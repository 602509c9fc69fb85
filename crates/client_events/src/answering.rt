//! Events in a row, each answered before the next one is read.
ghost use Rattle.std.specs.Prelude.{◌≡◌, ◌≤◌, ◌+◌, ◌^◌, ℕ, List, Some};
ghost use Rattle.labelled_disk.specs.declared.evidence.Halt.TheVariants as why;
ghost use Rattle.flat_machine.specs.Machine.{Machine};
ghost use Rattle.client_events.specs.Answers.{AreTo};
ghost use Rattle.client_events.specs.Carrying.{CarriesOutLines};
ghost use Rattle.client_events.specs.Ending.{AccountsFor, Ended, HasReason, IfHalted, IsGoing, Leads, LeadsToHalt};

use crate::Ending;
use crate::turn::{Turn, take_turn};
use flight_core::{Flights, Stepped};
use trace_io::{Events, Sink, Source};

// The most bytes that are read.
const LIMIT: u64 = 1 << 32;

/// Reads events, and writes the lines of each before the next one is read, until they end. What
/// stands after `close` or `halt` is not taken, and no line of theirs is written.
pub fn answer_events<T: Stepped, S: Source, K: Sink>(
    flights: &mut Flights<T>,
    source: &mut S,
    sink: &mut K,
) -> Ending
    requires runs { T.runs flights.old.stepped }
    requires few { flights.old.begun ≤ 2 ^ 62 }
    ensures answers { (m : Machine) (b t : List ℕ) → T.stands flights.old.stepped m → S.left source.old ≡ Some b
        → K.took sink.old ≡ Some t → Ended result b (S.left source.new) t (K.took sink.new)
        (Leads m flights.old flights.new) (LeadsToHalt m flights.old flights.new) }
    ensures replied { (b t : List ℕ) → S.left source.old ≡ Some b → K.took sink.old ≡ Some t
        → Ended result b (S.left source.new) t (K.took sink.new) AreTo (λ e items item os. AreTo items os) }
    ensures carried { CarriesOutLines flights.old flights.new result (S.left source.old) (S.left source.new)
        (K.took sink.old) (K.took sink.new) }
    ensures sound { (m : Machine) → T.stands flights.old.stepped m → IfHalted result (λ e. e ≡ why.Disk) }
    ensures accounts { AccountsFor result flights.old flights.new }
    ensures reason { HasReason result (S.left source.old) (S.faults source.old) (S.faults source.new)
        (K.faults sink.old) (K.faults sink.new) }
    ensures goes_on { IsGoing result → T.runs flights.new.stepped }
    ensures few { flights.new.begun ≤ flights.old.begun + 2 ^ 37 }
{
    let mut events = Events::with_limit(LIMIT);
    'turns: loop {
        match take_turn(flights, &mut events, source, sink) {
            Turn::Written => {}
            Turn::CutShort => return Ending::SinkFault,
            Turn::Ends(ending) => return ending,
        }
    }
}
