//! Lines of events and what they say, and the lines that clients get.

use anyhow::Result;
use flat_machine::{Piece, Reply};
use std::alloc::Global;
use trace_io::{ClientLine, Event, Events, MemorySink, MemorySource, write_client_line};

/// What an event says.
fn text(alloc: Global, event: &Event) -> Result<String> {
    match event {
        Event::Ask { client, call } => Ok(format!(in alloc; "client {client}: {call}\n")?),
        Event::Done(flight) => Ok(format!(in alloc; "flight {flight}\n")?),
        Event::Close => Ok(String::from_str(alloc, "close\n")?),
        Event::Halt => Ok(String::from_str(alloc, "halt\n")?),
        Event::Bad => Ok(String::from_str(alloc, "bad\n")?),
        _ => Ok(String::from_str(alloc, "end\n")?),
    }
}

/// What the first two lines of events say.
pub(crate) fn read(alloc: Global, trace: &[u8]) -> Result<(String, String)> {
    let mut source = MemorySource::new(alloc, trace, &[])?;
    let mut events = Events::with_limit(1 << 32);
    let first = text(alloc, &events.next(&mut source))?;
    let second = text(alloc, &events.next(&mut source))?;
    Ok((first, second))
}

/// A line of each kind that clients get.
pub(crate) fn report(alloc: Global) -> Result<String> {
    let mut sink = MemorySink::new(alloc, 192, &[])?;
    let lines = [
        ClientLine::Reply {
            client: 1,
            reply: Reply::Done,
        },
        ClientLine::Reply {
            client: 16,
            reply: Reply::Bytes(Piece::of(b"A")),
        },
        ClientLine::Busy { client: 2 },
        ClientLine::Waits {
            client: 3,
            flight: u64::MAX,
        },
        ClientLine::Dropped { client: 10 },
        ClientLine::NoFlight,
    ];
    for line in &lines {
        let _ = write_client_line(&mut sink, line);
    }
    Ok(String::from_str(alloc, std::str::from_utf8(sink.taken())?)?)
}
