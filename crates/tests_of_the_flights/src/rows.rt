//! Rows of an event and the line that clients get.
ghost use Rattle.std.specs.Prelude.{IfOk, IfSome};
ghost use Rattle.std.specs.List.{All};
ghost use Rattle.tests_of_the_flights.specs.Happening.{MayHappen};

use crate::answered::answered;
use crate::happen::Event;
use anyhow::{Context, Result};
use linked_list_allocator::LocalHeap;
use slow_machine::SlowMachine;
use std::alloc::Global;
use trace_io::{Event as Line, Events, MemorySource};

/// What a line says, where that is a client's call or a flight.
pub(crate) fn event_of(alloc: Global, line: &str) -> Result<Option<Event>>
    ensures { IfOk result (λ event. IfSome event MayHappen) }
{
    let text = format!(in alloc; "{line}\n")?;
    let mut source = MemorySource::new(alloc, text.as_bytes(), &[])?;
    let mut events = Events::with_limit(1 << 32);
    match events.next(&mut source) {
        Line::Ask { client, call } => Ok(Some(Event::Ask { client, call })),
        Line::Done(flight) => Ok(Some(Event::Done(flight))),
        _ => Ok(None),
    }
}

/// The events of rows. What stands before a row's bar may be none.
pub(crate) fn events_of(alloc: Global, rows: &str) -> Result<Vec<Event>>
    ensures { IfOk result (λ events. All MayHappen events.items) }
{
    let mut events = Vec::new(alloc);
    for row in rows.lines() {
        let (line, _) = row.split_once('|').unwrap_or((row, ""));
        if let Some(event) = event_of(alloc, line)? {
            events.push(event)?;
        }
    }
    Ok(events)
}

// What stands after the bars, a line each.
fn wanted(alloc: Global, rows: &str) -> Result<String> {
    let mut wanted = String::new(alloc);
    for row in rows.lines() {
        let (_, line) = row.split_once('|').context("a row has no bar")?;
        if !line.is_empty() {
            wanted.push_str(line)?;
            wanted.push('\n')?;
        }
    }
    Ok(wanted)
}

/// The title of a section, and what clients get where that is not as it says. The numbers before
/// the title are the bytes that the machine has, its serial and its capacity.
pub(crate) fn report(alloc: Global, head: &str, rows: &str) -> Result<String> {
    let (bytes, rest) = head.split_once(' ').context("no bytes")?;
    let (serial, rest) = rest.split_once(' ').context("no serial")?;
    let (capacity, title) = rest.split_once(' ').context("no capacity")?;
    let heap = LocalHeap::new(alloc, bytes.parse()?)?;
    let machine = SlowMachine::new(&heap, serial.parse()?, 1, capacity.parse()?)?;
    let found = answered(alloc, machine, rows)?;
    if found == wanted(alloc, rows)? {
        return Ok(format!(in alloc; "{title}: as it says")?);
    }
    Ok(format!(in alloc; "{title}: and not {found}")?)
}
