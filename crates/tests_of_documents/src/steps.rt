//! Steps over a volume: what is answered, and what the volume has afterwards.
use crate::bytes::{drawn, numbers_of};
use crate::volume::Volume;
use crate::{failing, heads, rounds};
use anyhow::{Context, Result, bail};
use documents::{Fault, Silent, get, get_pages, next_listed, put, remove, replace};
use embedded::Code;
use flat_machine::Reply;
use labelled_disk::FileId;
use std::alloc::Global;
use trace_io::{MemorySink, MemorySource};

/// The file of a number.
fn file(number: u32) -> FileId {
    0x7_0000_0000 | u64::from(number)
}

/// The files of a volume, as they are listed.
fn state(alloc: Global, volume: &mut Volume) -> Result<String> {
    let mut text = String::new(alloc);
    let mut cursor = 0;
    for _ in 0..u64::MAX {
        let Some(listed) = next_listed(volume, cursor)? else {
            break;
        };
        cursor = listed.id;
        let line = match &listed.head {
            Some(head) => format!(in alloc; ", {} {:?}", head.bytes, head.name)?,
            None => format!(in alloc; ", pages {} type {}", listed.pages, listed.kind)?,
        };
        text.push_str(line.as_str())?;
    }
    Ok(text)
}

/// What was answered, the files after it, and how many sectors are free.
fn outcome(alloc: Global, volume: &mut Volume, done: Result<(), Fault>) -> Result<String> {
    let state = state(alloc, volume)?;
    let Ok(Reply::Volume { free, .. }) = volume.volume() else {
        bail!("there is no volume");
    };
    Ok(match done {
        Ok(()) => format!(in alloc; "done{state}, {free} free")?,
        Err(fault) => format!(in alloc; "{fault}{state}, {free} free")?,
    })
}

/// Puts so many bytes from a source whose call of this number fails, or lets them take the place of the document of a number.
fn putting(alloc: Global, volume: &mut Volume, words: &str) -> Result<Result<(), Fault>> {
    let (numbers, name) = words.rsplit_once(' ').context("no name")?;
    let [length, call, old]: [u32; 3] = numbers_of(numbers)?;
    let bytes = drawn(alloc, length)?;
    let mut source = MemorySource::new(alloc, &bytes, &[u64::from(call)])?;
    let mut buffer = [0; 1024];
    let id = if old == 0 {
        put(volume, &mut buffer, &mut source, name, &mut Silent)
    } else {
        replace(
            volume,
            &mut buffer,
            &mut source,
            name,
            &mut Silent,
            file(old),
        )
    };
    Ok(id.map(|_| ()))
}

/// Gets a document into a sink whose call of this number fails, and says how much came. These are the bytes of documents.
fn getting(alloc: Global, volume: &mut Volume, words: &str) -> Result<String> {
    let [length, call, number]: [u32; 3] = numbers_of(words)?;
    let bytes = drawn(alloc, length)?;
    let mut sink = MemorySink::new(alloc, 10_000, &[u64::from(call)])?;
    let got = get(volume, &mut [0; 1024], file(number), &mut sink, &mut Silent).map(|_| ());
    let taken = sink.taken();
    let common = taken.len().min(bytes.len());
    if taken[..common] != bytes[..common] {
        bail!("other bytes");
    }
    let outcome = outcome(alloc, volume, got)?;
    Ok(format!(in alloc; "{} bytes: {outcome}", taken.len())?)
}

/// Gets the pages of a file, and says how many bytes came.
fn paging(alloc: Global, volume: &mut Volume, number: u32) -> Result<String> {
    let mut sink = MemorySink::new(alloc, 10_000, &[])?;
    let got = get_pages(volume, &mut [0; 512], file(number), &mut sink, &mut Silent).map(|_| ());
    let outcome = outcome(alloc, volume, got)?;
    Ok(format!(in alloc; "{} bytes: {outcome}", sink.taken().len())?)
}

/// Stores a byte at a place of the first page of the file of a number, in a space of its own.
fn change(volume: &mut Volume, number: u32, place: u32, byte: u32) -> Result<(), Code> {
    let Reply::Space { handle, first } = volume.make_space(0, 1, None)? else {
        return Err(Code::Argument);
    };
    volume.map(handle, file(number), 0, true)?;
    let address = first.wrapping_mul(512).wrapping_add(place);
    volume.store(address, &[(byte % 256) as u8]).1
}

/// Changes a byte of a file, or makes one of a type with so many pages where the byte is none.
fn making(volume: &mut Volume, words: &str) -> Result<Result<(), Fault>> {
    let [number, place, byte]: [u32; 3] = numbers_of(words)?;
    let done = if number == 0 {
        volume.create(place, (byte % 0x1_0000) as u16).map(|_| ())
    } else {
        change(volume, number, place, byte)
    };
    Ok(done.map_err(Fault::Call))
}

/// What a line answers.
pub(crate) fn answer(alloc: Global, volume: &mut Volume, line: &str) -> Result<String> {
    let (verb, rest) = line.split_once(' ').context("no words")?;
    let done = match verb {
        "head" => return heads::text(alloc, rest),
        "get" => return getting(alloc, volume, rest),
        "pages" => return paging(alloc, volume, rest.parse()?),
        "round" => return rounds::all(alloc, volume, rest),
        "failing" => return failing::each(alloc, rest),
        "put" => putting(alloc, volume, rest)?,
        "remove" => remove(volume, file(rest.parse()?)),
        _ => making(volume, rest)?,
    };
    outcome(alloc, volume, done)
}
