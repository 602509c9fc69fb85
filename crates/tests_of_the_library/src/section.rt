//! Sections of rows, each over a disk of its own.
use crate::client::{Client, Disk, numbers_of};
use crate::memory::Memory;
use anyhow::{Context, Result};
use labelled_disk::{Disk as _, Label, MemoryDisk};
use linked_list_allocator::LocalHeap;
use std::alloc::Global;

/// How many sectors the disk of a section has, and how many bytes the memory of its sessions.
#[derive(Clone, Copy)]
struct Size {
    sectors: u32,
    room: usize,
}

/// Sets a byte of a sector, `SECTOR PLACE BYTE`: those of its label come after the 512 of its page.
fn change(disk: &mut Disk, words: &str) -> Result<()> {
    let [sector, place, byte]: [u32; 3] = numbers_of(words)?;
    let mut page = [0; 512];
    if sector < disk.sectors() {
        let mut label = disk.read(sector, &mut page)?.to_bytes();
        if place < 512 {
            page[place as usize] = (byte % 256) as u8;
        } else {
            label[(place % 16) as usize] = (byte % 256) as u8;
        }
        if sector < disk.sectors() {
            disk.write(sector, &Label::from_bytes(&label), &page)?;
        }
    }
    Ok(())
}

/// What the first row shows that is not as it says; no text where all are.
fn wrong_row(alloc: Global, client: &mut Client<'_>, rows: &str) -> Result<String> {
    for row in rows.lines() {
        let (line, wanted) = row.split_once('|').context("a row has no bar")?;
        let found = client.answer(alloc, line)?;
        if found.as_str() != wanted {
            return Ok(format!(in alloc; "{row} and not {found}")?);
        }
    }
    Ok(String::new(alloc))
}

/// The same of the rows of a new engine over a disk.
fn wrong_engine(
    alloc: Global,
    disk: &mut Disk,
    heap: &LocalHeap,
    memory: Memory,
    rows: &str,
) -> Result<String> {
    let mut client = Client::over(disk, heap, memory);
    let wrong = wrong_row(alloc, &mut client, rows);
    drop(client);
    wrong
}

/// The same of blocks over one disk: changes of it, and rows of a new engine.
fn wrong_block(alloc: Global, size: Size, blocks: &str) -> Result<String> {
    let mut disk = MemoryDisk::new(alloc, size.sectors)?;
    let heap = LocalHeap::new(alloc, size.room)?;
    for block in blocks.split("\n\n") {
        if let Some(words) = block.strip_prefix('!') {
            change(&mut disk, words)?;
        } else {
            let memory = Memory::new(alloc)?;
            let wrong = wrong_engine(alloc, &mut disk, &heap, memory, block)?;
            if !wrong.is_empty() {
                return Ok(wrong);
            }
        }
    }
    Ok(String::new(alloc))
}

/// What is not as these rows say, where they have to be answered by the one that meets a failure, and other rows as they say then;
/// nothing where the rows come to their end.
fn wrong_after(
    alloc: Global,
    client: &mut Client<'_>,
    rows: &str,
    then: &str,
) -> Result<Option<String>> {
    let stop = wrong_row(alloc, client, rows)?;
    if stop.is_empty() {
        return Ok(None);
    }
    let (end, then) = then.split_once('\n').context("no rows after a stop")?;
    if !stop.ends_with(end) {
        return Ok(Some(stop));
    }
    Ok(Some(wrong_row(alloc, client, then)?))
}

/// The same of a new engine over a disk.
fn wrong_client(
    alloc: Global,
    disk: &mut Disk,
    heap: &LocalHeap,
    memory: Memory,
    rows: &str,
    then: &str,
) -> Result<Option<String>> {
    let mut client = Client::over(disk, heap, memory);
    let wrong = wrong_after(alloc, &mut client, rows, then);
    drop(client);
    wrong
}

/// The same over a disk that fails at this transfer.
fn wrong_stop(
    alloc: Global,
    size: Size,
    rows: &str,
    then: &str,
    transfer: u64,
) -> Result<Option<String>> {
    let mut disk = MemoryDisk::failing(alloc, size.sectors, &[transfer], 2_000)?;
    let heap = LocalHeap::new(alloc, size.room)?;
    let memory = Memory::new(alloc)?;
    wrong_client(alloc, &mut disk, &heap, memory, rows, then)
}

/// The same with every seventh transfer failing in turn, until the rows come to their end.
fn wrong_stops(alloc: Global, size: Size, rows: &str, then: &str) -> Result<String> {
    for turn in 0..300 {
        match wrong_stop(alloc, size, rows, then, 7 * turn + 1)? {
            None if turn < 100 => break,
            None => return Ok(String::new(alloc)),
            Some(wrong) if wrong.is_empty() => {}
            Some(wrong) => return Ok(format!(in alloc; "turn {turn}: {wrong}")?),
        }
    }
    Ok(String::from_str(alloc, "another end")?)
}

/// The title of a section, and what it shows that is not as it says.
pub(crate) fn report(alloc: Global, text: &str) -> Result<String> {
    let (head, blocks) = text.split_once("\n\n").context("no rows")?;
    let (sectors, rest) = head.split_once(' ').context("no sectors")?;
    let (room, title) = rest.split_once(' ').context("no room")?;
    let size = Size {
        sectors: sectors.parse()?,
        room: room.parse()?,
    };
    let blocks = blocks.trim_end();
    let wrong = match blocks.split_once("\n\n?") {
        Some((rows, then)) => wrong_stops(alloc, size, rows, then)?,
        None => wrong_block(alloc, size, blocks)?,
    };
    let wrong = if wrong.is_empty() {
        "as it says"
    } else {
        wrong.as_str()
    };
    Ok(format!(in alloc; "{title}: {wrong}")?)
}
