//! The events of rows, answered in a row.

use crate::paged::PagedMachine;
use anyhow::Result;
use client_events::{Ending, answer_events, write_dropped};
use flight_core::Flights;
use slow_machine::SlowMachine;
use std::alloc::{Allocator, Global};
use std::str::from_utf8;
use trace_io::{MemorySink, MemorySource, Sink};

// What stands before the bars, a line each.
fn text_of(alloc: Global, rows: &str) -> Result<String> {
    let mut text = String::new(alloc);
    for row in rows.lines() {
        let (line, _) = row.split_once('|').unwrap_or((row, ""));
        if !line.is_empty() {
            text.push_str(line)?;
            text.push('\n')?;
        }
    }
    Ok(text)
}

/// The lines that clients of the machine get of the events, and of the closing.
pub(crate) fn answered<A: Allocator + Clone>(
    alloc: Global,
    machine: SlowMachine<A>,
    rows: &str,
) -> Result<String> {
    let text = text_of(alloc, rows)?;
    let mut source = MemorySource::new(alloc, text.as_bytes(), &[])?;
    let mut sink = MemorySink::new(alloc, 1 << 16, &[])?;
    let mut flights = Flights::new(PagedMachine::over(machine));
    if flights.begun() > 0 {
        return Ok(text);
    }
    match answer_events(&mut flights, &mut source, &mut sink) {
        Ending::Close | Ending::Halt => {
            let _ = write_dropped(&flights, &mut sink);
            let _ = sink.put(b"ok\n");
        }
        Ending::Halted(_) => {
            let _ = sink.put(b"halt\n");
        }
        _ => {}
    }
    Ok(String::from_str(alloc, from_utf8(sink.taken())?)?)
}
