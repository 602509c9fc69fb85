//! A command, what it is given, and what it must write and leave.

use crate::fickle::FickleDisk;
use crate::sector::numbers_of;
use anyhow::{Context, Result, bail};
use labelled_disk::Disk;
use linked_list_allocator::LocalHeap;
use pilot_top::pilot;
use std::alloc::{AllocError, Global};
use std::str::from_utf8;
use trace_io::{MemorySink, MemorySource, Source};

/// Room for 4,096 frames on each of two disks, and for a restoration of as many sectors.
const ROOM: usize = 4_800_000;

/// Room for 24 frames, and for such a restoration.
const LITTLE_ROOM: usize = 500_000;

/// How many bytes the memory of a command has; the calls of the source and of the sink that fail, counted from 1, and 0 where none
/// does; and the sector whose label changes.
#[derive(Clone, Copy)]
pub(crate) struct Around {
    room: usize,
    pub(crate) source: u64,
    pub(crate) sink: u64,
    fickle: u32,
}

/// A command with its exit, its trace, what it writes, and what it leaves of the trace.
#[derive(Drop)]
pub(crate) struct Part {
    words: Vec<String>,
    exit: u8,
    trace: String,
    pub(crate) out: String,
    left: String,
    pub(crate) around: Around,
}

/// What a command did: its exit, what it wrote, and what it left.
#[derive(Drop)]
pub(crate) struct Ended {
    pub(crate) exit: u8,
    sink: MemorySink<Global>,
    left: Vec<u8>,
}

impl Ended {
    /// What it wrote.
    pub(crate) fn out(&self) -> &str {
        from_utf8(self.sink.taken()).unwrap_or("no text")
    }
}

/// Adds a line. A text for which memory is wanting is lost.
fn push_line(text: &mut String, line: &str) {
    if text.push_str(line).is_err() || text.push('\n').is_err() {
        text.clear();
    }
}

/// The words after the first. The word `?` stands for the number of frames.
fn words_of(alloc: Global, frames: &str, head: &str) -> Result<Vec<String>, AllocError> {
    let mut words = Vec::new(alloc);
    for word in head.split(' ').skip(1) {
        let word = if word == "?" { frames } else { word };
        words.push(String::from_str(alloc, word)?)?;
    }
    Ok(words)
}

/// A row with a number in the place of `{d}`, and with its eight digits in that of `{x}`.
fn numbered(alloc: Global, row: &str, number: u32) -> Result<String, AllocError> {
    let row = row.replace(alloc, "{d}", &format!(in alloc; "{number}")?)?;
    row.replace(alloc, "{x}", &format!(in alloc; "{number:08x}")?)
}

/// What is left of a trace of so many bytes. Calls of the source that fail are passed over.
fn left_of(
    alloc: Global,
    source: &mut MemorySource<Global>,
    bytes: usize,
) -> Result<Vec<u8>, AllocError> {
    let mut left = Vec::new(alloc);
    for _ in 0..bytes {
        if let Ok(Some(byte)) = source.next() {
            left.push(byte)?;
        }
    }
    Ok(left)
}

impl Part {
    /// A command, `EXIT WORDS`.
    pub(crate) fn of_words(alloc: Global, frames: &str, head: &str) -> Result<Part> {
        let (exit, _) = head.split_once(' ').unwrap_or((head, ""));
        let exit = exit.parse()?;
        Ok(Part {
            words: words_of(alloc, frames, head)?,
            exit,
            trace: String::new(alloc),
            out: String::new(alloc),
            left: String::new(alloc),
            around: Around {
                room: if frames == "24" { LITTLE_ROOM } else { ROOM },
                source: 0,
                sink: 0,
                fickle: u32::MAX,
            },
        })
    }

    /// A command and its rows.
    pub(crate) fn of_block(alloc: Global, frames: &str, block: &str) -> Result<Part> {
        let (head, rows) = block.split_once('\n').unwrap_or((block, ""));
        let mut part = Part::of_words(alloc, frames, head)?;
        for row in rows.lines() {
            part.add(alloc, row)?;
        }
        Ok(part)
    }

    /// A line of the trace and its reply, or another row.
    fn add(&mut self, alloc: Global, row: &str) -> Result<()> {
        let (kind, rest) = row.split_at_checked(1).context("an empty row")?;
        match kind {
            ">" => push_line(&mut self.out, rest),
            "-" => push_line(&mut self.trace, rest),
            "<" => {
                push_line(&mut self.trace, rest);
                push_line(&mut self.left, rest);
            }
            "+" => self.trace.push_str(rest)?,
            "@" => return self.around.set(rest),
            "*" => return self.repeat(alloc, rest),
            _ => self.answer(row),
        }
        Ok(())
    }

    /// A line of the trace and its reply.
    fn answer(&mut self, row: &str) {
        let (line, reply) = row.split_once('|').unwrap_or((row, "a row has no bar"));
        push_line(&mut self.trace, line);
        push_line(&mut self.out, reply);
    }

    /// A row for each number from one on, so many, each by so much greater: `FROM COUNT STEP: ROW`.
    fn repeat(&mut self, alloc: Global, row: &str) -> Result<()> {
        let (numbers, row) = row.split_once(": ").context("no row")?;
        let [from, count, step]: [u32; 3] = numbers_of(numbers)?;
        for turn in 0..count {
            let number = from.wrapping_add(step.wrapping_mul(turn));
            self.answer(&numbered(alloc, row, number)?);
        }
        Ok(())
    }

    /// Carries the command out on a disk, beside a second one.
    pub(crate) fn carry_out<D: Disk, E: Disk>(
        &self,
        alloc: Global,
        disk: &mut D,
        other: &mut E,
    ) -> Result<Ended> {
        let fickle = self.around.fickle;
        let mut disk = FickleDisk { disk, fickle };
        let heap = LocalHeap::new(alloc, self.around.room)?;
        let trace = self.trace.as_bytes();
        let mut source = MemorySource::new(alloc, trace, &[self.around.source])?;
        let mut sink = MemorySink::new(alloc, 1_000_000, &[self.around.sink])?;
        let status = pilot(
            alloc,
            &heap,
            &self.words,
            &mut disk,
            other,
            &mut source,
            &mut sink,
        );
        Ok(Ended {
            exit: status.exit(),
            left: left_of(alloc, &mut source, trace.len())?,
            sink,
        })
    }

    /// Whether it did so.
    pub(crate) fn is(&self, ended: &Ended) -> bool {
        self.exit == ended.exit
            && self.out.as_bytes() == ended.sink.taken()
            && self.left.as_bytes() == ended.left.as_slice()
    }

    /// Carries the command out. The error says what it did where that is not what its rows say.
    pub(crate) fn does<D: Disk, E: Disk>(
        &self,
        alloc: Global,
        disk: &mut D,
        other: &mut E,
    ) -> Result<()> {
        let ended = self.carry_out(alloc, disk, other)?;
        if self.is(&ended) {
            return Ok(());
        }
        let (exit, left, out) = (ended.exit, ended.left.len(), ended.out());
        bail!("status {exit}, leaves {left} bytes and writes\n{out}")
    }
}

impl Around {
    /// A call that fails, the sector whose label changes, or the room of the memory.
    fn set(&mut self, option: &str) -> Result<()> {
        let (name, number) = option.split_once(' ').context("no option")?;
        let number: u32 = number.parse()?;
        match name {
            "source" => self.source = u64::from(number),
            "sink" => self.sink = u64::from(number),
            "fickle" => self.fickle = number,
            _ => self.room = number as usize,
        }
        Ok(())
    }
}
