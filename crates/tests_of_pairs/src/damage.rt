//! One sector of one volume is damaged, each in turn.

use crate::asked::{End, asked};
use crate::labels::{Leaf, all_but, leaf_at, leaves_of};
use crate::plain::PlainPair;
use crate::rows::{Row, is_unwritten, row_of};
use crate::volume::{NEVER, Volume, put, sector_at, twin};
use anyhow::{Context, Result, bail, ensure};
use labelled_disk::{Evidence, Halt, Label, Page};
use pair_machine::{PairCall, PairReply};
use std::alloc::Global;
use volume_pair::{PairHalt, PairStart};

/// What comes of a pair with a damaged sector.
#[derive(Clone, Copy)]
enum Came {
    NotStarted,
    /// A halt with evidence.
    Halted,
    /// A copy is refused that would be made without the damage.
    Refused,
    /// All is as without the damage.
    Right,
}

// What a sector holds once it is damaged.
fn damaged(what: &str, label: Label, page: Page) -> Result<(Label, Page)> {
    let mut new = label;
    match what {
        "id" => new.id = label.id.wrapping_add(16),
        "page" => new.page = label.page.wrapping_add(1),
        "last" => new.last = 1,
        "bytes" => return Ok((label, [0xff; 512])),
        _ => bail!("no such damage"),
    }
    Ok((new, page))
}

// Whether a halt of this side shows the damage in this sector. Bytes are shown by any evidence.
fn is_evident(end: End, is_first: bool, sector: u32, is_label: bool) -> bool {
    let halt = match end {
        End::NotStarted(PairStart::From(_)) => return is_first && sector == 0,
        End::NotStarted(PairStart::To(_)) => return !is_first && sector == 0,
        End::NotStarted(PairStart::Halt(halt)) if !is_first => halt,
        End::Halted(PairHalt::From(halt)) if is_first => halt,
        End::Halted(PairHalt::To(halt)) if !is_first => halt,
        _ => return false,
    };
    match halt {
        Halt::Damaged(Evidence::Mismatch { sector: found, .. }) => found == sector,
        Halt::Damaged(_) => !is_label,
        Halt::Disk => false,
    }
}

// Whether all replies are those of the plain lists, or a first other one refuses.
fn are_right(plain: &mut PlainPair, calls: &[PairCall], replies: &[PairReply]) -> Result<bool> {
    for (call, reply) in calls.iter().zip(replies) {
        if plain.reply(call)? != *reply {
            ensure!(matches!(reply, PairReply::Refused(_)), "a wrong answer");
            return Ok(false);
        }
    }
    Ok(true)
}

// Damages a sector of a disk, whose label is then this one.
fn damage(disk: &mut Volume, what: &str, sector: u32) -> Result<Label> {
    let (label, page) = sector_at(disk, sector)?.context("no sector")?;
    let (label, page) = damaged(what, label, page)?;
    put(disk, sector, &label, &page)?;
    Ok(label)
}

// What the damaged sector has of a file, unless it got another label.
fn left_at(disk: &mut Volume, sector: u32, label: Label) -> Result<Option<Leaf>> {
    match sector_at(disk, sector)? {
        Some((found, _)) if found == label => leaf_at(disk, sector),
        _ => Ok(None),
    }
}

// What comes of a pair where this sector of the first volume is damaged.
fn of_first(alloc: Global, row: &mut Row, what: &str, sector: u32) -> Result<Came> {
    let mut from = twin(alloc, &mut row.from, NEVER)?;
    let mut to = twin(alloc, &mut row.to, NEVER)?;
    damage(&mut from, what, sector)?;
    let written = from.written().len();
    let answers = asked(alloc, &mut from, &mut to, &row.calls)?;
    ensure!(
        from.written().len() == written,
        "the first volume was written"
    );
    if answers.end != End::Closed {
        return ended(answers.end, true, what, sector);
    }
    let mut plain = row.plain.without(None)?;
    if !are_right(&mut plain, &row.calls, &answers.replies)? {
        return Ok(Came::Refused);
    }
    ensure!(leaves_of(alloc, &mut to)? == plain.to, "other files");
    Ok(Came::Right)
}

// The same of the second volume: what stands in the damaged sector is left out on either side.
fn of_second(alloc: Global, row: &mut Row, what: &str, sector: u32) -> Result<Came> {
    let mut to = twin(alloc, &mut row.to, NEVER)?;
    let label = damage(&mut to, what, sector)?;
    let answers = asked(alloc, &mut row.from, &mut to, &row.calls)?;
    ensure!(is_unwritten(&row.from), "the first volume was written");
    if answers.end != End::Closed {
        return ended(answers.end, false, what, sector);
    }
    let mut plain = row.plain.without(leaf_at(&mut row.to, sector)?)?;
    if !are_right(&mut plain, &row.calls, &answers.replies)? {
        return Ok(Came::Refused);
    }
    let left = left_at(&mut to, sector, label)?;
    let found = all_but(alloc, &leaves_of(alloc, &mut to)?, left)?;
    ensure!(found == plain.to, "sector {sector}: other files");
    Ok(Came::Right)
}

// What came of a pair that did not end well, which has to show the damage.
fn ended(end: End, is_first: bool, what: &str, sector: u32) -> Result<Came> {
    let is_shown = is_evident(end, is_first, sector, what != "bytes");
    ensure!(is_shown, "sector {sector}: no evidence of it");
    Ok(match end {
        End::NotStarted(_) => Came::NotStarted,
        _ => Came::Halted,
    })
}

/// How often what comes of it, each of so many first sectors of one volume being damaged in turn.
pub(crate) fn each(alloc: Global, words: &str) -> Result<String> {
    let (side, rest) = words.split_once(' ').context("no damage")?;
    let (what, rest) = rest.split_once(' ').context("no sectors")?;
    let (sectors, rest) = rest.split_once(' ').context("no volumes")?;
    let sectors: u32 = sectors.parse()?;
    let mut row = row_of(alloc, rest)?;
    let (mut before, mut halted, mut refused, mut right) = (0u32, 0u32, 0u32, 0u32);
    for sector in 0..sectors {
        let came = match side {
            "first" => of_first(alloc, &mut row, what, sector)?,
            _ => of_second(alloc, &mut row, what, sector)?,
        };
        match came {
            Came::NotStarted => before = before.saturating_add(1),
            Came::Halted => halted = halted.saturating_add(1),
            Came::Refused => refused = refused.saturating_add(1),
            Came::Right => right = right.saturating_add(1),
        }
    }
    Ok(format!(in alloc;
        "{before} not started, {halted} halted, {refused} refused, {right} as without it"
    )?)
}
