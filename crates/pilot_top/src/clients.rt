//! Clients of a session that wait for their pages: their events are answered, and the session is ended.
ghost use Rattle.std.specs.Prelude.{◌≡◌, ◌≢◌, ◌⊎◌, ℕ, List, Some};
ghost use Rattle.std.specs.Io.KnownBytes.{Appends};
ghost use Rattle.labelled_disk.specs.declared.evidence.Evidence.{Evidence};
ghost use Rattle.labelled_disk.specs.Calls.{RevealsSame, Rose};
ghost use Rattle.flat_machine.specs.Machine.{Machine};
ghost use Rattle.swapper_kernel.specs.Goes.{Went};
ghost use Rattle.trace_io.specs.Stream.{IsPrefixOf};
ghost use Rattle.client_events.specs.Dropped.{waiting_clients};
ghost use Rattle.running_words.specs.Bound.{CostsOther, other_bound};
ghost use Rattle.pilot_engine.specs.Closing.{HasShut, WroteOn};
ghost use Rattle.pilot_engine.specs.Opening.{IsUnset};
ghost use Rattle.pilot_engine.specs.Referring.{TakesCalls};
ghost use Rattle.pilot_engine.specs.Trying.{StandsAs};
ghost use Rattle.pilot_top.specs.Clients.{AnswersCrowd, AnswersEvents, CostsEvents, end_lines};
ghost use Rattle.pilot_top.specs.CrashStates.{ShutsLast};
ghost use Rattle.pilot_top.specs.Headline.{IsLeftOpen};
ghost use Rattle.pilot_top.specs.InitialState.{FromEachInitialState};
ghost use Rattle.pilot_top.specs.Last.{last_line, Puts};
ghost use Rattle.pilot_top.specs.Lines.{session_disk};
ghost use Rattle.pilot_top.specs.Processing.{IsShortText};
ghost use Rattle.pilot_top.specs.Started.{HasCauses};
ghost use Rattle.pilot_top.specs.World.{world};
ghost use Rattle.filer_kernel.specs.Evidence.{IsEvident};
ghost use Rattle.fault_core.specs.Core.{state};

use crate::Status;
use crate::closing::close;
use crate::last::{Cause, put_last};
use crate::stopping::stop;
use crate::turn::End;
use client_events::{Clients, Ending, answer_events, waiting_clients, write_dropped_clients};
use flat_machine::Reply;
use flight_core::Flights;
use labelled_disk::Disk;
use pilot_engine::Session;
use std::alloc::Allocator;
use trace_io::{Sink, Source, write_reply};

// Writes a line for each client that is dropped, and the reply to the line that ended the events.
fn put_end<K: Sink>(sink: &mut K, clients: Clients, end: End) -> Status
    ensures done { result ≡ Status.Done → Appends (K.took sink.old) (K.took sink.new) (end_lines clients.items end) }
    ensures part { result ≡ Status.StreamFault → (prefix : List ℕ) × IsPrefixOf prefix (end_lines clients.items end)
        × Appends (K.took sink.old) (K.took sink.new) prefix }
    ensures cause { result ≡ Status.StreamFault → Rose (K.faults sink.old) (K.faults sink.new) }
    ensures ends { (result ≡ Status.Done) ⊎ (result ≡ Status.StreamFault) }
{
    if write_dropped_clients(sink, clients).is_err() {
        return Status::StreamFault;
    }
    if end != End::Trace && write_reply(sink, &Reply::Done).is_err() {
        return Status::StreamFault;
    }
    Status::Done
}

/// Ends the session of clients, unless their events were stopped. Who still waits is dropped, and has no effect.
fn end_events<D: Disk, A: Allocator, K: Sink>(
    flights: Flights<Session<D, A>>,
    end: End,
    sink: &mut K,
) -> (Status, D)
    requires runs { TakesCalls flights.stepped }
    ensures closed { (m : Machine) → StandsAs flights.stepped m → end ≢ End.Halt
        → (result.0 ≡ Status.Done) ⊎ (result.0 ≡ Status.StreamFault) → HasShut m (D.state result.1) }
    ensures halted { end ≡ End.Halt → RevealsSame (state flights.stepped.core).disk (D.state result.1) }
    ensures done { result.0 ≡ Status.Done → Appends (K.took sink.old) (K.took sink.new)
        (end_lines (waiting_clients flights.waiting.items) end) }
    ensures part { result.0 ≡ Status.StreamFault → Rose (K.faults sink.old) (K.faults sink.new)
        × (prefix : List ℕ) × IsPrefixOf prefix (end_lines (waiting_clients flights.waiting.items) end)
        × Appends (K.took sink.old) (K.took sink.new) prefix }
    ensures disk_fault { result.0 ≡ Status.DiskFault → (end ≢ End.Halt)
        × Rose (state flights.stepped.core).disk.faults (D.state result.1).faults
        × Puts (Rose (K.faults sink.old) (K.faults sink.new)) (K.took sink.old) (K.took sink.new)
        (last_line Cause.DiskFault) }
    ensures damage { result.0 ≡ Status.Damaged → (end ≢ End.Halt) × (e : Evidence) × IsEvident (D.state result.1) e
        × FromEachInitialState flights.stepped (D.state result.1) e
        × Puts (Rose (K.faults sink.old) (K.faults sink.new)) (K.took sink.old) (K.took sink.new)
        (last_line (Cause.Damaged e)) }
    ensures sound { (m : Machine) → StandsAs flights.stepped m → result.0 ≢ Status.Damaged }
    ensures cost { (m : Machine) → StandsAs flights.stepped m
        → CostsOther (state flights.stepped.core).disk (D.state result.1) }
    ensures left_open { IsUnset (state flights.stepped.core).disk → result.0 ≡ Status.Damaged
        → IsUnset (D.state result.1) }
    ensures wrote { WroteOn flights.stepped.volume.root (state flights.stepped.core).slots
        (state flights.stepped.core).disk (D.state result.1) }
    ensures ends { (result.0 ≡ Status.Done) ⊎ (result.0 ≡ Status.StreamFault)
        ⊎ (result.0 ≡ Status.DiskFault) ⊎ (result.0 ≡ Status.Damaged) }
{
    let clients = waiting_clients(&flights);
    let session = flights.into_inner();
    if end == End::Halt {
        let disk = session.into_disk();
        return (put_end(sink, clients, end), disk);
    }
    let (stopped, disk) = close(session, sink);
    match stopped {
        Some(status) => (status, disk),
        None => (put_end(sink, clients, end), disk),
    }
}

/// Answers the events of clients of a session that was started, and ends the session.
pub(crate) fn answer_clients<D: Disk, A: Allocator, S: Source, K: Sink>(
    session: Session<D, A>,
    source: &mut S,
    sink: &mut K,
) -> (Status, D)
    requires runs { TakesCalls session }
    ensures answers { (m : Machine) (b t : List ℕ) → StandsAs session m → IsLeftOpen (state session.core).disk
        → S.left source.old ≡ Some b → K.took sink.old ≡ Some t
        → AnswersCrowd result.0 m b (S.left source.new) t (K.took sink.new)
        (Rose (K.faults sink.old) (K.faults sink.new)) (D.state result.1) }
    ensures replied { (b t : List ℕ) → IsLeftOpen (state session.core).disk → S.left source.old ≡ Some b
        → K.took sink.old ≡ Some t
        → AnswersEvents result.0 b (S.left source.new) t (K.took sink.new)
        (Rose (K.faults sink.old) (K.faults sink.new))
        (λ e. IsEvident (D.state result.1) e × FromEachInitialState session (D.state result.1) e)
        (IsLeftOpen (D.state result.1)) }
    ensures transfers { (m : Machine) (b t : List ℕ) → StandsAs session m → S.left source.old ≡ Some b
        → K.took sink.old ≡ Some t
        → CostsEvents b (other_bound (state session.core).disk.sectors) (state session.core).disk (D.state result.1) }
    ensures permitted { ShutsLast (state session.core).disk (D.state result.1) }
    ensures left_open { IsLeftOpen (state session.core).disk
        → (result.0 ≡ Status.Long) ⊎ (result.0 ≡ Status.Damaged) → IsLeftOpen (D.state result.1) }
    ensures damage { result.0 ≡ Status.Damaged → (e : Evidence) × IsEvident (D.state result.1) e
        × FromEachInitialState session (D.state result.1) e }
    ensures sound { (m : Machine) → StandsAs session m → result.0 ≢ Status.Damaged }
    ensures same_disk { Went (state session.core).disk (D.state result.1) }
    ensures short { (b : List ℕ) → S.left source.old ≡ Some b → result.0 ≡ Status.Done → IsShortText b }
    ensures causes { HasCauses IsShortText result.0
        (world (session_disk session) (S.left source.old) (S.faults source.old) (K.took sink.old) (K.faults sink.old))
        (world (D.state result.1) (S.left source.new) (S.faults source.new) (K.took sink.new) (K.faults sink.new)) }
    ensures began { result.0 ≢ Status.NotOpened × result.0 ≢ Status.NoMemory }
{
    let mut flights = Flights::new(session);
    match answer_events(&mut flights, source, sink) {
        Ending::Close => end_events(flights, End::Close, sink),
        Ending::Halt => end_events(flights, End::Halt, sink),
        Ending::End => end_events(flights, End::Trace, sink),
        Ending::Long => {
            put_last(sink, Cause::Long);
            (Status::Long, flights.into_inner().into_disk())
        }
        Ending::ReadFault => (Status::StreamFault, flights.into_inner().into_disk()),
        Ending::SinkFault => (Status::StreamFault, flights.into_inner().into_disk()),
        Ending::Halted(halt) => {
            let status = stop(halt, sink);
            (status, flights.into_inner().into_disk())
        }
    }
}
