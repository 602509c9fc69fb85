//! The words of a row, and a pair that is started on its volumes.

use crate::asked::{Answers, End, asked};
use crate::labels::leaves_of;
use crate::plain::PlainPair;
use crate::volume::{Given, NEVER, Volume, made, put, sector_at, twin};
use anyhow::{Context, Result, bail, ensure};
use labelled_disk::{Disk, FileId};
use pair_machine::PairCall;
use std::alloc::Global;
use volume_view::look;

/// Two volumes, and what is asked of both. The first disk reveals its writes.
#[derive(Drop)]
pub(crate) struct Row {
    pub from: Volume,
    pub to: Volume,
    pub calls: Vec<PairCall>,
    /// The plain lists of both.
    pub plain: PlainPair,
}

impl Row {
    /// The row of two volumes, the second of this serial.
    pub(crate) fn of(
        alloc: Global,
        from: &mut Volume,
        to: Volume,
        serial: u32,
        calls: Vec<PairCall>,
    ) -> Result<Row> {
        let mut from = twin(alloc, from, NEVER)?;
        let mut to = to;
        let plain = PlainPair::of(alloc, &mut from, &mut to, serial)?;
        Ok(Row {
            from,
            to,
            calls,
            plain,
        })
    }
}

// An identifier: its high half, a point, and its low half.
fn id_of(word: &str) -> Result<FileId> {
    let (high, low) = word.split_once('.').context("no identifier")?;
    let (high, low): (u32, u32) = (high.parse()?, low.parse()?);
    Ok((u64::from(high) << 32) | u64::from(low))
}

// A file: identifier, pages, type, flags, and how many pages have the same bytes on each volume.
fn file_of(word: &str) -> Result<Given> {
    let (id, rest) = word.split_once(':').context("no pages")?;
    let (pages, rest) = rest.split_once(':').context("no type")?;
    let (kind, rest) = rest.split_once(':').context("no flags")?;
    let (flags, same) = rest.split_once(':').context("nothing is the same")?;
    Ok(Given {
        id: id_of(id)?,
        pages: pages.parse()?,
        kind: kind.parse()?,
        flags: flags.parse()?,
        same: same.parse()?,
    })
}

// Another byte at a place of the root.
fn change_root(disk: &mut Volume, word: &str) -> Result<()> {
    let (place, byte) = word.split_once('=').context("no byte")?;
    let place: usize = place.parse()?;
    let (label, mut page) = sector_at(disk, 0)?.context("no root")?;
    let old = page.get_mut(place).context("no such byte")?;
    *old = byte.parse()?;
    put(disk, 0, &label, &page)
}

// A volume: its sectors and its serial, then its files, and then bytes of its root.
fn volume_of(alloc: Global, words: &str) -> Result<(Volume, u32)> {
    let mut words = words.split(' ');
    let sectors = words.next().context("no sectors")?.parse()?;
    let serial = words.next().context("no serial")?.parse()?;
    let (mut files, mut bytes) = (Vec::new(alloc), Vec::new(alloc));
    for word in words {
        if word.contains('=') {
            bytes.push(word)?;
        } else {
            files.push(file_of(word)?)?;
        }
    }
    let mut volume = made(alloc, sectors, serial, &files)?;
    for word in bytes {
        change_root(&mut volume, word)?;
    }
    Ok((volume, serial))
}

fn call_of(words: &str) -> Result<PairCall> {
    let (verb, id) = words.split_once(' ').context("no call")?;
    let id = id_of(id)?;
    match verb {
        "copy" => Ok(PairCall::Copy { id }),
        "compare" => Ok(PairCall::Compare { id }),
        _ => bail!("no call"),
    }
}

/// Two volumes and calls, with semicolons between them.
pub(crate) fn row_of(alloc: Global, words: &str) -> Result<Row> {
    let (from, rest) = words.split_once("; ").context("one volume")?;
    let (to, lines) = rest.split_once("; ").context("no calls")?;
    let mut calls = Vec::new(alloc);
    for line in lines.split(", ") {
        calls.push(call_of(line)?)?;
    }
    let (mut from, _) = volume_of(alloc, from)?;
    let (to, serial) = volume_of(alloc, to)?;
    Row::of(alloc, &mut from, to, serial, calls)
}

/// Whether nothing was written on the first disk since it got its sectors.
pub(crate) fn is_unwritten(disk: &Volume) -> bool {
    disk.written().len() as u64 == u64::from(disk.sectors())
}

// How a volume stands: its counter, its free sectors, and its files.
fn state_of(alloc: Global, disk: &mut Volume) -> Result<String> {
    let Ok(view) = look(alloc, disk) else {
        bail!("the second volume can't be looked at");
    };
    let counter = view.root.map_or(0, |root| root.counter);
    let mut used = 0u32;
    for file in &view.found.files {
        used = used.wrapping_add(file.pages).wrapping_add(1);
    }
    let free = view.layout.capacity.wrapping_sub(used);
    let condition = view.condition();
    let mut text = format!(in alloc; "{condition:?}, counter {counter}, {free} free")?;
    for file in &view.found.files {
        let (high, low) = (file.id >> 32, file.id & 0xffff_ffff);
        let mark = if file.immutable { " immutable" } else { "" };
        let (pages, kind) = (file.pages, file.kind);
        text.push_str(&format!(in alloc; ", {high}.{low} {pages} {kind}{mark}")?)?;
    }
    Ok(text)
}

// Each reply, and how it ended.
fn text_of(alloc: Global, answers: &Answers) -> Result<String> {
    let mut text = String::new(alloc);
    for reply in &answers.replies {
        text.push_str(&format!(in alloc; "{reply:?}, ")?)?;
    }
    let end = answers.end;
    text.push_str(&format!(in alloc; "{end:?}")?)?;
    Ok(text)
}

/// What a pair on these volumes replies, how it ends, and how the second volume stands then.
pub(crate) fn replied(alloc: Global, words: &str) -> Result<String> {
    let Row {
        mut from,
        mut to,
        calls,
        mut plain,
    } = row_of(alloc, words)?;
    let mut to = twin(alloc, &mut to, NEVER)?;
    let answers = asked(alloc, &mut from, &mut to, &calls)?;
    ensure!(is_unwritten(&from), "the first volume was written");
    let mut text = text_of(alloc, &answers)?;
    if answers.end == End::Closed {
        let right = plain.replies(&calls, &answers.replies)?;
        let found = leaves_of(alloc, &mut to)?;
        ensure!(
            right && found == plain.to,
            "the plain lists say something else"
        );
        text.push_str("; ")?;
        text.push_str(&state_of(alloc, &mut to)?)?;
    } else {
        ensure!(is_unwritten(&to), "the second volume was written");
    }
    Ok(text)
}
