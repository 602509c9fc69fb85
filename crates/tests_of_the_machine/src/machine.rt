//! Rows of a line and the plain machine's reply.

use anyhow::{Context, Result};
use flat_machine::{Refusal, Reply};
use slow_machine::SlowMachine;
use std::alloc::Global;
use std::str::from_utf8;
use trace_io::{Line, Lines, MemorySink, MemorySource, write_reply};

/// The machine that these numbers begin, and the title after them.
fn begun<'a>(alloc: Global, head: &'a str) -> Result<(SlowMachine<Global>, &'a str)> {
    let (serial, rest) = head.split_once(' ').context("no serial")?;
    let (counter, rest) = rest.split_once(' ').context("no counter")?;
    let (capacity, title) = rest.split_once(' ').context("no capacity")?;
    let machine = SlowMachine::new(alloc, serial.parse()?, counter.parse()?, capacity.parse()?)?;
    Ok((machine, title))
}

/// The machine's reply to a line, as it is written.
fn reply(alloc: Global, machine: &mut SlowMachine<Global>, line: &str) -> Result<String> {
    let trace = format!(in alloc; "{line}\n")?;
    let mut source = MemorySource::new(alloc, trace.as_bytes(), &[])?;
    let reply = match Lines::with_limit(1 << 32).next(&mut source) {
        Line::Call(call) => machine.step(&call)?,
        _ => Reply::Refused(Refusal::Syntax),
    };
    let mut sink = MemorySink::new(alloc, 192, &[])?;
    let _ = write_reply(&mut sink, &reply);
    Ok(String::from_str(alloc, from_utf8(sink.taken())?)?)
}

/// The title of a section, and its first row whose reply is another one.
pub(crate) fn report(alloc: Global, head: &str, rows: &str) -> Result<String> {
    let (mut machine, title) = begun(alloc, head)?;
    for row in rows.lines() {
        let (line, wanted) = row.split_once('|').context("a row has no bar")?;
        let found = reply(alloc, &mut machine, line)?;
        if found.strip_suffix('\n') != Some(wanted) {
            return Ok(format!(in alloc; "{title}: {row} and not {found}")?);
        }
    }
    Ok(format!(in alloc; "{title}: as it says")?)
}
