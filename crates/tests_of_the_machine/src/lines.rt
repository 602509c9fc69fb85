//! Rows of a line and what it says.

use crate::{events, pairs};
use anyhow::{Context, Result};
use std::alloc::Global;
use trace_io::{Line, Lines, MemorySink, MemorySource, write_call};

/// What lines are read as.
#[derive(Clone, Copy)]
pub(crate) enum Grammar {
    Calls,
    Events,
    Pairs,
}

/// The bytes of a line, which may be revealed by hexadecimal digits after `=`.
fn bytes_of(alloc: Global, line: &str) -> Result<Vec<u8>> {
    let mut bytes = Vec::new(alloc);
    match line.strip_prefix('=') {
        Some(digits) => {
            for pair in digits.split(' ') {
                bytes.push(u8::from_str_radix(pair, 16)?)?;
            }
        }
        None => bytes.extend_from_slice(line.as_bytes())?,
    }
    Ok(bytes)
}

/// The text of the call that a line says, where it is also what is written of it, or `bad` or `end`.
fn text(alloc: Global, line: &Line) -> Result<String> {
    let Line::Call(call) = line else {
        let word = if matches!(line, Line::Bad) {
            "bad\n"
        } else {
            "end\n"
        };
        return Ok(String::from_str(alloc, word)?);
    };
    let mut sink = MemorySink::new(alloc, 192, &[])?;
    let _ = write_call(&mut sink, call);
    let text = format!(in alloc; "{call}\n")?;
    if sink.taken() == text.as_bytes() {
        return Ok(text);
    }
    Ok(String::from_str(alloc, "written otherwise\n")?)
}

/// What the first two lines of a text say.
fn read(alloc: Global, grammar: Grammar, trace: &[u8]) -> Result<(String, String)> {
    match grammar {
        Grammar::Calls => read_calls(alloc, trace),
        Grammar::Events => events::read(alloc, trace),
        Grammar::Pairs => pairs::read(alloc, trace),
    }
}

/// What the first two lines of a trace say.
fn read_calls(alloc: Global, trace: &[u8]) -> Result<(String, String)> {
    let mut source = MemorySource::new(alloc, trace, &[])?;
    let mut lines = Lines::with_limit(1 << 32);
    let first = text(alloc, &lines.next(&mut source))?;
    let second = text(alloc, &lines.next(&mut source))?;
    Ok((first, second))
}

/// The title, and the first row whose line says something else, with a line feed after it or without.
pub(crate) fn report(alloc: Global, grammar: Grammar, title: &str, rows: &str) -> Result<String> {
    for row in rows.lines() {
        let (line, wanted) = row.rsplit_once('|').context("a row has no bar")?;
        let mut trace = bytes_of(alloc, line)?;
        for _ in 0..2 {
            let (found, then) = read(alloc, grammar, &trace)?;
            let is_said = found.strip_suffix('\n') == Some(wanted) && then.as_str() == "end\n";
            if !is_said && !trace.is_empty() {
                return Ok(format!(in alloc; "{title}: {row} and not {found}{then}")?);
            }
            trace.push(b'\n')?;
        }
    }
    Ok(format!(in alloc; "{title}: as it says")?)
}
