//! Drawn volumes and calls, beside the plain lists.

use crate::asked::{End, asked};
use crate::draws::Draws;
use crate::labels::leaves_of;
use crate::rows::{Row, is_unwritten};
use crate::volume::{Given, NEVER, Volume, made, twin};
use anyhow::{Context, Result, bail, ensure};
use labelled_disk::FileId;
use pair_machine::{PairCall, PairRefusal, PairReply};
use std::alloc::Global;
use volume_view::{Condition, look};

// Identifiers that files may have, the first two of larger ones.
const FILES: [FileId; 9] = [
    0x5_0000_0001,
    0x9_0000_0005,
    0x6_0000_0001,
    0x7_0000_0001,
    0x7_0000_0002,
    0x8_0000_0001,
    0x8_0000_0002,
    0x9_0000_0001,
    0x9_ffff_fffe,
];

// Some that no file has.
const OTHERS: [FileId; 3] = [3, 0x7_ffff_ffff, 0x7_0000_0003];

// How many pages the file of this number has.
fn drawn_size(draws: &mut Draws, number: usize) -> u32 {
    if number < 2 {
        draws.below(60).wrapping_add(20)
    } else {
        draws.below(7)
    }
}

fn drawn_flags(draws: &mut Draws) -> u8 {
    match draws.below(8) {
        0 => 0,
        1 | 2 => 1,
        _ => 3,
    }
}

// Each file of a volume by chance, so often of eight times, as far as there is room for them on 256 sectors.
fn drawn_files(alloc: Global, draws: &mut Draws, often: u32) -> Result<Vec<Given>> {
    let mut files = Vec::new(alloc);
    let mut used = 0u32;
    for (number, id) in FILES.iter().enumerate() {
        let pages = drawn_size(draws, number);
        let after = used.wrapping_add(pages).wrapping_add(1);
        let file = Given {
            id: *id,
            pages,
            kind: u16::from(draws.byte()),
            flags: drawn_flags(draws),
            same: draws.below(3).wrapping_mul(pages.wrapping_add(1) / 2),
        };
        if draws.below(8) < often && after <= 124 {
            used = after;
            files.push(file)?;
        }
    }
    Ok(files)
}

fn drawn_call(draws: &mut Draws) -> PairCall {
    let other = OTHERS.get(draws.below(3) as usize).copied().unwrap_or(0);
    let id = FILES
        .get(draws.below(10) as usize)
        .copied()
        .unwrap_or(other);
    if draws.below(2) == 0 {
        PairCall::Copy { id }
    } else {
        PairCall::Compare { id }
    }
}

// One of eight kinds of replies.
fn kind_of(reply: &PairReply) -> usize {
    match reply {
        PairReply::Done => 0,
        PairReply::Same => 1,
        PairReply::Differs(_) => 2,
        PairReply::Refused(PairRefusal::File) => 3,
        PairReply::Refused(PairRefusal::Mutable) => 4,
        PairReply::Refused(PairRefusal::Exists) => 5,
        PairReply::Refused(PairRefusal::Serial) => 6,
        PairReply::Refused(PairRefusal::Full) => 7,
        PairReply::Refused(PairRefusal::Syntax) => 8,
    }
}

fn is_sound(alloc: Global, disk: &mut Volume) -> Result<bool> {
    let Ok(view) = look(alloc, disk) else {
        bail!("a volume can't be looked at");
    };
    Ok(view.condition() == Condition::Sound)
}

// So many drawn calls.
fn drawn_calls(alloc: Global, draws: &mut Draws, count: u32) -> Result<Vec<PairCall>> {
    let mut calls = Vec::new(alloc);
    for _ in 0..count {
        calls.push(drawn_call(draws))?;
    }
    Ok(calls)
}

// A pair on both volumes is asked these calls. The second is then the volume that it leaves.
fn turn(alloc: Global, row: &mut Row, counts: &mut [u32; 8]) -> Result<()> {
    let mut to = twin(alloc, &mut row.to, NEVER)?;
    let answers = asked(alloc, &mut row.from, &mut to, &row.calls)?;
    ensure!(answers.end == End::Closed, "it halted");
    ensure!(is_unwritten(&row.from), "the first volume was written");
    ensure!(
        row.plain.replies(&row.calls, &answers.replies)?,
        "another reply"
    );
    ensure!(leaves_of(alloc, &mut to)? == row.plain.to, "other files");
    ensure!(is_sound(alloc, &mut to)?, "no sound volume");
    for reply in &answers.replies {
        let count = counts.get_mut(kind_of(reply)).context("no call")?;
        *count = count.saturating_add(1);
    }
    row.to = to;
    Ok(())
}

// Two drawn volumes, and three pairs on both, the second of them the other way round, each with so many calls.
fn pairs(alloc: Global, seed: u64, count: u32, counts: &mut [u32; 8]) -> Result<()> {
    let mut draws = Draws::from(seed);
    let mut first = made(alloc, 256, 7, &drawn_files(alloc, &mut draws, 7)?)?;
    let mut second = made(alloc, 256, 8, &drawn_files(alloc, &mut draws, 4)?)?;
    for serial in [8, 7, 8] {
        let calls = drawn_calls(alloc, &mut draws, count)?;
        let mut row = Row::of(alloc, &mut first, second, serial, calls)?;
        turn(alloc, &mut row, counts)?;
        first = row.to;
        second = row.from;
    }
    Ok(())
}

/// So many times two drawn volumes.
pub(crate) fn all(alloc: Global, words: &str) -> Result<String> {
    let (volumes, calls) = words.split_once(' ').context("no calls")?;
    let (volumes, calls): (u64, u32) = (volumes.parse()?, calls.parse()?);
    let mut counts = [0; 8];
    for seed in 0..volumes {
        pairs(alloc, seed, calls, &mut counts)?;
    }
    if counts.iter().all(|count| *count >= 5) {
        let text = "as the plain lists say, each kind of reply five times or more";
        return Ok(String::from_str(alloc, text)?);
    }
    Ok(format!(in alloc; "as the plain lists say, but so often: {counts:?}")?)
}
