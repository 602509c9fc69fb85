//! A writer that moves few bytes and fails, beneath a sink.

use anyhow::Result;
use std::alloc::Global;
use std::io::{self, ErrorKind, Write};
use trace_io::{Sink, WriterSink};

// Takes at most 3 bytes a call, and fails at its second call and at its second flush.
#[derive(Drop)]
struct Halting {
    bytes: Vec<u8>,
    calls: u8,
    flushes: u8,
}

impl Write for Halting {
    fn write(&mut self, buf: &[u8]) -> io::Result<usize> {
        self.calls = self.calls.saturating_add(1);
        if self.calls == 2 {
            return Err(io::Error::from(ErrorKind::WouldBlock));
        }
        let len = buf.len().min(3);
        self.bytes.extend_from_slice(&buf[..len])?;
        Ok(len)
    }

    fn flush(&mut self) -> io::Result<()> {
        self.flushes = self.flushes.saturating_add(1);
        if self.flushes == 2 {
            return Err(io::Error::from(ErrorKind::BrokenPipe));
        }
        Ok(())
    }
}

// What becomes of pieces, each a byte after the one before, and what a writer took of them.
fn written(alloc: Global, calls: u8, pieces: &[&[u8]]) -> Result<String> {
    let mut halting = Halting {
        bytes: Vec::new(alloc),
        calls,
        flushes: 0,
    };
    let mut sink = WriterSink::over(&mut halting);
    let mut text = String::from_str(alloc, "written ")?;
    for piece in pieces {
        let mark = if sink.put(piece).is_ok() { '+' } else { '!' };
        text.push(mark)?;
    }
    drop(sink);
    text.push_str(&format!(in alloc; " flushed {} ", halting.flushes)?)?;
    for byte in &halting.bytes {
        text.push(char::from(*byte))?;
    }
    text.push('\n')?;
    Ok(text)
}

/// What becomes of these, a line each.
pub(crate) fn report(alloc: Global) -> Result<String> {
    let mut text = written(alloc, 2, &[b"abcdefgh", b"i", b"j"])?;
    text.push_str(&written(alloc, 0, &[b"abcdefgh"])?)?;
    Ok(text)
}
