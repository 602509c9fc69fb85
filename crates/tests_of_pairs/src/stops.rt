//! One of both disks fails at one transfer, each in turn, and the second volume is restored.

use crate::asked::{End, asked};
use crate::labels::leaves_of;
use crate::rows::{Row, is_unwritten, row_of};
use crate::volume::{NEVER, Volume, restore, twin};
use anyhow::{Result, bail, ensure};
use labelled_disk::{Halt, RootFault};
use std::alloc::Global;
use volume_pair::{PairHalt, PairStart};
use volume_root::read_root;

/// When a disk failed.
#[derive(Clone, Copy)]
enum When {
    BeforeStart,
    InCall,
    /// All calls had been answered.
    AtEnd,
}

// Whether a pair ended so where the first disk failed, or where the second did.
fn is_fault(end: End, is_first: bool) -> bool {
    match end {
        End::NotStarted(PairStart::From(RootFault::Disk)) => is_first,
        End::NotStarted(PairStart::To(RootFault::Disk)) => !is_first,
        End::NotStarted(PairStart::Halt(Halt::Disk)) => !is_first,
        End::Halted(PairHalt::From(Halt::Disk)) => is_first,
        End::Halted(PairHalt::To(Halt::Disk)) => !is_first,
        _ => false,
    }
}

// Whether the volume of a disk has its clean flag cleared.
fn is_open(disk: &mut Volume) -> bool {
    read_root(disk, true) == Err(RootFault::Unclean)
}

// Whether a pair that ended so may leave the second volume so: open where a call halted, as it was where the start never wrote.
fn is_left_right(end: End, open: bool, in_call: bool) -> bool {
    match end {
        End::NotStarted(PairStart::Halt(_)) => true,
        End::NotStarted(_) => !open,
        End::Halted(_) => open || !in_call,
        End::Closed => !open,
    }
}

// When one disk fails at this transfer, or none where it has no such transfer. The second volume, restored, has to have the
// files of after the calls that were answered.
fn stopped_at(alloc: Global, row: &mut Row, is_first: bool, transfer: u64) -> Result<Option<When>> {
    let (first, second) = if is_first {
        (transfer, NEVER)
    } else {
        (NEVER, transfer)
    };
    let mut from = twin(alloc, &mut row.from, first)?;
    let mut to = twin(alloc, &mut row.to, second)?;
    let mut plain = row.plain.without(None)?;
    let answers = asked(alloc, &mut from, &mut to, &row.calls)?;
    ensure!(is_unwritten(&from), "the first volume was written");
    ensure!(
        plain.replies(&row.calls, &answers.replies)?,
        "another reply"
    );
    if answers.end == End::Closed {
        return Ok(None);
    }
    ensure!(is_fault(answers.end, is_first), "no disk failed");
    let in_call = answers.replies.len() < row.calls.len();
    ensure!(
        is_left_right(answers.end, is_open(&mut to), in_call),
        "transfer {transfer}: the second volume is closed, or was opened"
    );
    restore(alloc, &mut to)?;
    let found = leaves_of(alloc, &mut to)?;
    ensure!(found == plain.to, "transfer {transfer}: torn, or lost");
    Ok(Some(match answers.end {
        End::NotStarted(_) => When::BeforeStart,
        _ if in_call => When::InCall,
        _ => When::AtEnd,
    }))
}

/// How often a disk fails when, each of its transfers in turn.
pub(crate) fn each(alloc: Global, words: &str, is_first: bool) -> Result<String> {
    let mut row = row_of(alloc, words)?;
    let (mut before, mut within, mut after) = (0u32, 0u32, 0u32);
    for transfer in 1..100_000 {
        match stopped_at(alloc, &mut row, is_first, transfer)? {
            Some(When::BeforeStart) => before = before.saturating_add(1),
            Some(When::InCall) => within = within.saturating_add(1),
            Some(When::AtEnd) => after = after.saturating_add(1),
            None => {
                return Ok(format!(in alloc;
                    "{before} before the start, {within} in calls, {after} at the end"
                )?);
            }
        }
    }
    bail!("the disk fails still")
}
