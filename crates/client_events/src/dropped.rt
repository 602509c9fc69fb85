//! The clients that wait where a session ends, and their lines.
ghost use Rattle.std.specs.Prelude.{◌≡◌, ◌<◌, ◌≤◌, ◌+◌, ◌++◌, [], ◌∷◌, OnOk, OnErr, length, flat_map};
ghost use Rattle.std.specs.Io.KnownBytes.{Appends};
ghost use Rattle.trace_io.specs.Stream.{AppendsPrefix, HasCause};
ghost use Rattle.flight_core.specs.Pending.{IsClient};
ghost use Rattle.client_events.specs.Dropped.{dropped_line, dropped_lines, those_that_wait, waiting_clients};

use arrayvec::ArrayVec;
use flight_core::{Flights, Stepped};
use trace_io::{ClientLine, Sink, SinkFault, write_client_line};

/// Clients, at most all sixteen.
pub type Clients = ArrayVec<u8, 16>;

// Adds a client, if it waits.
fn add<T: Stepped>(clients: &mut Clients, flights: &Flights<T>, client: u8)
    requires client { IsClient client }
    requires room { length clients.old.items < 16 }
    ensures items { clients.new.items
        ≡ clients.old.items ++ those_that_wait flights.now.waiting.items (client ∷ []) }
    ensures few { length clients.new.items ≤ length clients.old.items + 1 }
{
    if flights.waiting(client).is_some() {
        clients.push(client);
    }
}

/// The clients that wait, in ascending numbers.
pub fn waiting_clients<T: Stepped>(flights: &Flights<T>) -> Clients
    ensures { result.items ≡ waiting_clients flights.now.waiting.items }
{
    let mut clients = Clients::new();
    for client in 1..17 {
        add(&mut clients, flights, client);
    }
    clients
}

/// Writes a line for each of these clients, that its reference is not carried out, or at an error a
/// prefix of these lines.
pub fn write_dropped_clients<K: Sink>(sink: &mut K, clients: Clients) -> Result<(), SinkFault>
    ensures ok { OnOk result (Appends (K.took sink.old) (K.took sink.new) (flat_map dropped_line clients.items)) }
    ensures err { OnErr result (AppendsPrefix (K.took sink.old) (K.took sink.new)
        (flat_map dropped_line clients.items)) }
    ensures cause { HasCause (K.faults sink.old) (K.faults sink.new) result }
{
    for client in clients {
        write_client_line(sink, &ClientLine::Dropped { client })?;
    }
    Ok(())
}

/// Writes a line for each client that waits, in ascending numbers, or at an error a prefix of these
/// lines.
pub fn write_dropped<T: Stepped, K: Sink>(
    flights: &Flights<T>,
    sink: &mut K,
) -> Result<(), SinkFault>
    ensures ok { OnOk result (Appends (K.took sink.old) (K.took sink.new)
        (dropped_lines flights.now.waiting.items)) }
    ensures err { OnErr result (AppendsPrefix (K.took sink.old) (K.took sink.new)
        (dropped_lines flights.now.waiting.items)) }
    ensures cause { HasCause (K.faults sink.old) (K.faults sink.new) result }
{
    write_dropped_clients(sink, waiting_clients(flights))
}
