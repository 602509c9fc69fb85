//! Commands that are stopped at each transfer of either disk, at each call of the source and at each piece of the sink in turn. Then
//! the volume is restored twice, and looked at. An error says what is not as it should be.

use crate::part::{Ended, Part};
use crate::rows::{self, Disks};
use anyhow::{Context, Result, bail};
use labelled_disk::{Disk, MemoryDisk};
use std::alloc::Global;

/// How many writes a disk keeps at most.
const WRITES: u32 = 10_000;

/// The blocks before the commands, the commands, and a run over the volume with the answers that it may get.
#[derive(Clone, Copy)]
struct Section<'a> {
    disks: Disks,
    before: &'a str,
    commands: &'a str,
    look: &'a str,
    answers: &'a str,
}

/// What stops a command.
#[derive(Clone, Copy, PartialEq)]
enum Kind {
    First,
    Second,
    Source,
    Sink,
}

/// The call that fails: of a disk, or of a stream in each command.
#[derive(Clone, Copy)]
struct Stop {
    kind: Kind,
    number: u64,
}

impl Stop {
    /// Its number where it is of this kind, else 0.
    fn at(self, kind: Kind) -> u64 {
        if self.kind == kind { self.number } else { 0 }
    }

    /// The exit of a command that is stopped, and the line that it writes in the end.
    fn end(self) -> (u8, &'static str) {
        match self.kind {
            Kind::First => (3, "stopped disk\n"),
            Kind::Second => (3, "stopped other disk\n"),
            Kind::Source | Kind::Sink => (4, ""),
        }
    }
}

/// Both disks.
#[derive(Drop)]
struct Two {
    disk: MemoryDisk<Global>,
    other: MemoryDisk<Global>,
}

/// How many lines were written, and whether nothing was stopped.
#[derive(Clone, Copy)]
struct Reached {
    lines: usize,
    ended: bool,
}

/// Both disks after the blocks before the commands.
fn made(alloc: Global, section: Section<'_>, stop: Stop) -> Result<Two> {
    let Disks { sectors, others } = section.disks;
    let mut disk = MemoryDisk::failing(alloc, sectors, &[stop.at(Kind::First)], WRITES)?;
    let mut other = MemoryDisk::failing(alloc, others, &[stop.at(Kind::Second)], WRITES)?;
    rows::blocks(alloc, &mut disk, &mut other, "24", section.before)?;
    Ok(Two { disk, other })
}

/// What a command that was stopped had written before: whole lines of what its rows say.
fn written<'a>(part: &Part, ended: &'a Ended, stop: Stop) -> Option<&'a str> {
    let (exit, last) = stop.end();
    let text = ended.out().strip_suffix(last)?;
    let whole = text.is_empty() || text.ends_with('\n');
    if ended.exit == exit && whole && part.out.starts_with(text) {
        return Some(text);
    }
    None
}

/// One command.
fn command(alloc: Global, two: &mut Two, block: &str, stop: Stop) -> Result<Reached> {
    let mut part = Part::of_block(alloc, "24", block)?;
    part.around.source = stop.at(Kind::Source);
    part.around.sink = stop.at(Kind::Sink);
    let ended = part.carry_out(alloc, &mut two.disk, &mut two.other)?;
    if part.is(&ended) {
        let lines = part.out.lines().count();
        return Ok(Reached { lines, ended: true });
    }
    let Some(text) = written(&part, &ended, stop) else {
        bail!("status {} after\n{}", ended.exit, ended.out());
    };
    let lines = text.lines().count();
    Ok(Reached {
        lines,
        ended: false,
    })
}

/// Commands until one of them is stopped.
fn commands(alloc: Global, two: &mut Two, blocks: &str, stop: Stop) -> Result<Reached> {
    let mut all = Reached {
        lines: 0,
        ended: true,
    };
    for block in blocks.split("\n\n") {
        if all.ended {
            let block = block.strip_prefix('$').context("no command")?;
            let Reached { lines, ended } = command(alloc, two, block, stop)?;
            all = Reached {
                lines: all.lines.saturating_add(lines),
                ended,
            };
        }
    }
    Ok(all)
}

/// What a command does on one disk.
fn done(alloc: Global, disk: &mut MemoryDisk<Global>, block: &str) -> Result<Ended> {
    let part = Part::of_block(alloc, "24", block)?;
    part.carry_out(alloc, disk, &mut MemoryDisk::new(alloc, 0)?)
}

/// Restores a volume twice, and gives what a run then answers, each line ended by a bar; or what the second restoration writes where
/// it frees a sector or there is no volume.
fn restored(alloc: Global, disk: &mut MemoryDisk<Global>, look: &str) -> Result<String> {
    done(alloc, disk, "0 scavenge")?;
    let again = done(alloc, disk, "0 scavenge")?;
    let last = if again.out().ends_with(" 0 0\n") {
        done(alloc, disk, look)?
    } else {
        again
    };
    Ok(last.out().replace(alloc, '\n', "|")?)
}

/// Whether the answer, `LEAST MOST TEXT`, is this one, and so many lines may have been written before it.
fn is_answer(answer: &str, lines: usize, text: &str) -> Option<bool> {
    let (least, rest) = answer.split_once(' ')?;
    let (most, wanted) = rest.split_once(' ')?;
    let least: usize = least.parse().ok()?;
    let most: usize = most.parse().ok()?;
    Some(least <= lines && lines <= most && wanted == text)
}

/// One stop of the commands. Gives whether they ended before it.
fn turn(alloc: Global, section: Section<'_>, stop: Stop) -> Result<bool> {
    let mut two = made(alloc, section, stop)?;
    let Reached { lines, ended } = commands(alloc, &mut two, section.commands, stop)?;
    let text = if section.disks.others == 0 {
        restored(alloc, &mut two.disk, section.look)?
    } else {
        restored(alloc, &mut two.other, section.look)?
    };
    for answer in section.answers.lines() {
        if is_answer(answer, lines, &text) == Some(true) {
            return Ok(ended);
        }
    }
    bail!("stop {}, after {lines} lines: {text}", stop.number)
}

/// The stops of one kind after so many calls, until the commands end.
fn turns(alloc: Global, section: Section<'_>, kind: Kind, calls: u64) -> Result<()> {
    for call in 1..10_000 {
        let number = calls.saturating_add(call);
        if turn(alloc, section, Stop { kind, number })? {
            return Ok(());
        }
    }
    bail!("no end")
}

/// All stops of a section.
pub(crate) fn everywhere(alloc: Global, disks: Disks, steps: &str, look: &str) -> Result<()> {
    let (before, commands) = steps.split_once("\n\n%\n\n").context("no commands")?;
    let (look, answers) = look.split_once("\n\n").context("no answers")?;
    let section = Section {
        disks,
        before,
        commands,
        look,
        answers,
    };
    let none = Stop {
        kind: Kind::First,
        number: 0,
    };
    let two = made(alloc, section, none)?;
    turns(alloc, section, Kind::First, two.disk.transfers())?;
    turns(alloc, section, Kind::Second, two.other.transfers())?;
    turns(alloc, section, Kind::Source, 0)?;
    turns(alloc, section, Kind::Sink, 0)
}
