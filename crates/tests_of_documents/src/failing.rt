//! A disk that fails at one transfer, each in turn: what the volume has of a document after a restoration.
use crate::bytes::{drawn, numbers_of};
use crate::volume::Volume;
use anyhow::{Result, bail};
use documents::{Silent, get, next_listed, put};
use embedded::Engine;
use labelled_disk::MemoryDisk;
use std::alloc::Global;
use trace_io::{MemorySink, MemorySource};

/// What became of a document.
#[derive(Clone, Copy)]
enum End {
    /// The disk failed before there was a session.
    NoVolume,
    Absent,
    Whole,
    /// The disk did not fail.
    Closed,
}

/// Whether the first document of a volume has these bytes, if there is one.
fn first_is(alloc: Global, volume: &mut Volume, bytes: &[u8]) -> Result<Option<bool>> {
    let Some(file) = next_listed(volume, 0)? else {
        return Ok(None);
    };
    let mut sink = MemorySink::new(alloc, 10_000, &[])?;
    let got = get(volume, &mut [0; 1024], file.id, &mut sink, &mut Silent);
    Ok(Some(got.is_ok() && sink.taken() == bytes))
}

/// Puts a document on a disk that fails at this transfer, closes the volume, and restores it where either failed.
fn put_at(alloc: Global, transfer: u64, bytes: &[u8], frames: u32) -> Result<End> {
    let disk = MemoryDisk::failing(alloc, 256, &[transfer], 4_000)?;
    let mut volume = Engine::over(disk);
    if volume.format(7, 1).is_err() || volume.open(alloc, frames).is_err() {
        return Ok(End::NoVolume);
    }
    let mut source = MemorySource::new(alloc, bytes, &[])?;
    let id = put(&mut volume, &mut [0; 1024], &mut source, "a", &mut Silent);
    if id.is_ok() && volume.close().is_ok() {
        return Ok(End::Closed);
    }
    if volume.is_open() {
        bail!("the session went on after transfer {transfer}");
    }
    if volume.scavenge(alloc).is_err() || volume.open(alloc, frames).is_err() {
        bail!("no volume after transfer {transfer}");
    }
    match first_is(alloc, &mut volume, bytes)? {
        Some(true) => Ok(End::Whole),
        None if id.is_err() => Ok(End::Absent),
        _ => bail!("torn or lost after transfer {transfer}"),
    }
}

/// How often a document of so many bytes is absent, and how often whole, after each transfer failed in turn, with so many
/// frames. The one number is that of the transfers of the `put`, the other of those of the end.
pub(crate) fn each(alloc: Global, words: &str) -> Result<String> {
    let [length, frames]: [u32; 2] = numbers_of(words)?;
    let bytes = drawn(alloc, length)?;
    let (mut absent, mut whole) = (0u32, 0u32);
    for transfer in 1..10_000 {
        match put_at(alloc, transfer, bytes.as_slice(), frames)? {
            End::NoVolume => {}
            End::Absent => absent = absent.saturating_add(1),
            End::Whole => whole = whole.saturating_add(1),
            End::Closed => return Ok(format!(in alloc; "{absent} absent, {whole} whole")?),
        }
    }
    bail!("the disk fails still")
}
