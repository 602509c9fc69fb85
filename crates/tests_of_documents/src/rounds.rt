//! Documents of each length come back as they were put.
use crate::bytes::{drawn, numbers_of};
use crate::volume::Volume;
use anyhow::Result;
use documents::{Fault, Silent, get, put, remove};
use std::alloc::Global;
use std::io::{self, Write};
use trace_io::{MemorySink, MemorySource, Sink, Source, SourceFault, WriterSink};

/// Gives the bytes of another source one at a time.
#[derive(Drop)]
struct Slow<S: Source> {
    source: S,
}

impl<S: Source> Source for Slow<S> {
    ghost left = { λ s. S.left s.source };

    ghost faults = { λ s. S.faults s.source };

    fn next(&mut self) -> Result<Option<u8>, SourceFault> {
        self.source.next()
    }
}

/// Takes one byte a call.
#[derive(Drop)]
struct Narrow {
    bytes: Vec<u8>,
}

impl Write for Narrow {
    fn write(&mut self, buf: &[u8]) -> io::Result<usize> {
        let count = buf.len().min(1);
        self.bytes.extend_from_slice(&buf[..count])?;
        Ok(count)
    }

    fn flush(&mut self) -> io::Result<()> {
        Ok(())
    }
}

/// Puts a document, gets it, and removes it.
fn pass<S: Source, K: Sink>(
    volume: &mut Volume,
    buffer: &mut [u8],
    source: &mut S,
    sink: &mut K,
) -> Result<(), Fault> {
    let id = put(volume, buffer, source, "name", &mut Silent)?;
    let got = get(volume, buffer, id, sink, &mut Silent).map(|_| ());
    got.and(remove(volume, id))
}

/// Whether bytes come back, from a source that has one byte at hand into a writer that takes one byte a call.
fn comes_back_slowly(
    alloc: Global,
    volume: &mut Volume,
    buffer: &mut [u8],
    bytes: &[u8],
) -> Result<bool> {
    let source = MemorySource::new(alloc, bytes, &[])?;
    let mut narrow = Narrow {
        bytes: Vec::new(alloc),
    };
    pass(
        volume,
        buffer,
        &mut Slow { source },
        &mut WriterSink::over(&mut narrow),
    )?;
    Ok(narrow.bytes.as_slice() == bytes)
}

/// Whether bytes come back.
fn comes_back(alloc: Global, volume: &mut Volume, buffer: &mut [u8], bytes: &[u8]) -> Result<bool> {
    let mut source = MemorySource::new(alloc, bytes, &[])?;
    let mut sink = MemorySink::new(alloc, 10_000, &[])?;
    pass(volume, buffer, &mut source, &mut sink)?;
    Ok(sink.taken() == bytes)
}

/// Which length between two is the first whose bytes do not come back through a buffer of so many, slowly where that is said.
pub(crate) fn all(alloc: Global, volume: &mut Volume, words: &str) -> Result<String> {
    let [least, most, room, slowly]: [u32; 4] = numbers_of(words)?;
    let mut buffer = Vec::from_elem(alloc, 0u8, room as usize)?;
    for length in least..=most {
        let bytes = drawn(alloc, length)?;
        let same = if slowly == 1 {
            comes_back_slowly(alloc, volume, &mut buffer, &bytes)?
        } else {
            comes_back(alloc, volume, &mut buffer, &bytes)?
        };
        if !same {
            return Ok(format!(in alloc; "{length}")?);
        }
    }
    Ok(String::from_str(alloc, "as they were")?)
}
