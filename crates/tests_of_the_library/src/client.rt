//! A client of an engine, and what it is answered.
use crate::memory::{Memory, drawn};
use crate::steps::{on_files, on_volume};
use anyhow::{Context, Result, bail};
use embedded::{Code, Engine};
use labelled_disk::MemoryDisk;
use linked_list_allocator::LocalHeap;
use std::alloc::{AllocError, Global};
use trace_io::{Line, Lines, MemorySource};

pub(crate) type Disk = MemoryDisk<Global>;

/// An engine over a disk that lies elsewhere, as the volume does.
pub(crate) type Rows<'a> = Engine<&'a mut Disk, &'a LocalHeap>;

/// An engine, the memory of its sessions, and what was stored.
#[derive(Drop)]
pub(crate) struct Client<'a> {
    engine: Rows<'a>,
    heap: &'a LocalHeap,
    memory: Memory,
}

/// So many numbers, with spaces between them.
pub(crate) fn numbers_of<const N: usize>(words: &str) -> Result<[u32; N]> {
    let mut numbers = [0; N];
    let mut words = words.split(' ');
    for number in &mut numbers {
        *number = words.next().context("too few numbers")?.parse()?;
    }
    Ok(numbers)
}

/// `ok`, or the code with its number.
fn said(alloc: Global, done: Result<(), Code>) -> Result<String, AllocError> {
    match done {
        Ok(()) => String::from_str(alloc, "ok"),
        Err(code) => format!(in alloc; "{} {code}", code.number()),
    }
}

/// Why the session stopped.
fn evidence(alloc: Global, engine: &Rows<'_>) -> Result<String, AllocError> {
    match engine.evidence() {
        Some(halt) => format!(in alloc; "{halt}"),
        None => String::from_str(alloc, "none"),
    }
}

/// Carries out the call that a line of a trace is.
fn call(alloc: Global, engine: &mut Rows<'_>, line: &str) -> Result<Result<(), Code>> {
    let text = format!(in alloc; "{line}\n")?;
    let mut source = MemorySource::new(alloc, text.as_bytes(), &[])?;
    match Lines::with_limit(1 << 32).next(&mut source) {
        Line::Call(call) => Ok(on_files(engine, &call)),
        _ => bail!("no call"),
    }
}

impl<'a> Client<'a> {
    /// There is no session.
    pub(crate) fn over(disk: &'a mut Disk, heap: &'a LocalHeap, memory: Memory) -> Client<'a> {
        Client {
            engine: Engine::over(disk),
            heap,
            memory,
        }
    }

    /// Stores so many bytes from an address on.
    fn put(&mut self, alloc: Global, words: &str) -> Result<String> {
        let [address, count, first]: [u32; 3] = numbers_of(words)?;
        let bytes = drawn(alloc, count, first)?;
        let (moved, done) = self.engine.store(address, &bytes);
        self.memory.store(address, &bytes, moved);
        let said = said(alloc, done)?;
        Ok(format!(in alloc; "{moved} {said}")?)
    }

    /// Loads so many bytes from an address on, which have to be those that were stored.
    fn get(&mut self, alloc: Global, words: &str) -> Result<String> {
        let [address, count]: [u32; 2] = numbers_of(words)?;
        let mut found = Vec::from_elem(alloc, 255u8, count as usize)?;
        let (moved, done) = self.engine.load(address, &mut found);
        if !self.memory.has(address, &found, moved) {
            bail!("other bytes");
        }
        let said = said(alloc, done)?;
        Ok(format!(in alloc; "{moved} {said}")?)
    }

    /// What a line answers.
    pub(crate) fn answer(&mut self, alloc: Global, line: &str) -> Result<String> {
        let (verb, rest) = line.split_once(' ').unwrap_or((line, ""));
        let done = match verb {
            "put" => return self.put(alloc, rest),
            "get" => return self.get(alloc, rest),
            "evidence" => return Ok(evidence(alloc, &self.engine)?),
            "format" | "open" | "scavenge" | "restore" => {
                on_volume(&mut self.engine, self.heap, verb, numbers_of(rest)?)
            }
            _ => call(alloc, &mut self.engine, line)?,
        };
        Ok(said(alloc, done)?)
    }
}
