//! Documents are got out of the volume.

use crate::buffer::buffer_for;
use crate::host::{Beside, NoFile, no_file, old_file};
use crate::meter::Meter;
use crate::status::Status;
use crate::volume::{Volume, document_line};
use documents::{Fault, Listed, describe, get, get_pages};
use embedded::Code;
use labelled_disk::FileId;
use std::fs::exists;
use std::io;
use trace_io::{Sink, WriterSink};

/// What is got, and how.
#[derive(Clone, Copy)]
pub(crate) struct Getting {
    pub(crate) id: FileId,
    pub(crate) force: bool,
    pub(crate) pages: bool,
    pub(crate) quiet: bool,
    /// How many bytes at a time.
    pub(crate) window: usize,
}

/// How many bytes are got of a file, where it is one to get.
fn bytes_of(file: &Listed, pages: bool) -> Option<u64> {
    if pages {
        return Some(u64::from(file.pages) * 512);
    }
    file.head.as_ref().map(|head| head.bytes)
}

/// Writes a document, or the pages of a file, to a sink.
fn got<S: Sink>(
    rt: &HostRuntime,
    volume: &mut Volume,
    sink: &mut S,
    getting: Getting,
) -> Result<(), Fault> {
    let all = match describe(volume, getting.id) {
        Ok(file) => bytes_of(&file, getting.pages),
        Err(code) => return Err(Fault::Call(code)),
    };
    let Ok(mut buffer) = buffer_for(rt, all, getting.window) else {
        return Err(Fault::Call(Code::NoMemory));
    };
    let buffer = buffer.as_mut_slice();
    let mut meter = Meter::new(rt, "get", all, getting.quiet);
    let answer = if getting.pages {
        get_pages(volume, buffer, getting.id, sink, &mut meter).map(|_| ())
    } else {
        get(volume, buffer, getting.id, sink, &mut meter).map(|_| ())
    };
    meter.finish();
    answer
}

/// A line on standard error that says why a document was not got.
fn not_got(
    rt: &HostRuntime,
    volume: &mut Volume,
    id: FileId,
    fault: Fault,
    trouble: Option<io::Error>,
) -> Status {
    let Some(why) = trouble else {
        return document_line(rt, volume, id, fault);
    };
    let _ = eprintln!(rt; "pilot_files: \"{id:016x}\": the output failed: {why}");
    Status::StreamFault
}

/// Writes a document to standard output.
pub(crate) fn get_to_output(rt: &HostRuntime, volume: &mut Volume, getting: Getting) -> Status {
    let mut sink = WriterSink::over(io::writer(rt));
    match got(rt, volume, &mut sink, getting) {
        Ok(()) => Status::Done,
        Err(fault) => not_got(rt, volume, getting.id, fault, sink.trouble()),
    }
}

/// Whether there may be a new file of that path.
fn is_free(rt: &HostRuntime, path: &str, force: bool) -> Result<(), NoFile> {
    match exists(rt, path) {
        Ok(true) if force => old_file(rt, path).map(|_| ()),
        Ok(true) => Err(NoFile::Taken(io::ErrorKind::AlreadyExists.into())),
        _ => Ok(()),
    }
}

/// Writes a document into a new file beside the one of the path, which then gets that name.
fn get_beside(
    rt: &HostRuntime,
    volume: &mut Volume,
    beside: Beside<'_>,
    path: &str,
    getting: Getting,
) -> Status {
    let mut sink = match beside.writer() {
        Ok(file) => WriterSink::over(file),
        Err(why) => {
            beside.drop_file(rt);
            return no_file(rt, path, why);
        }
    };
    match got(rt, volume, &mut sink, getting) {
        Ok(()) => match beside.finish(rt, getting.force) {
            Ok(()) => Status::Done,
            Err(why) => no_file(rt, path, why),
        },
        Err(fault) => {
            beside.drop_file(rt);
            not_got(rt, volume, getting.id, fault, sink.trouble())
        }
    }
}

/// Writes a document into a new file.
pub(crate) fn get_to_file(
    rt: &HostRuntime,
    volume: &mut Volume,
    path: &str,
    getting: Getting,
) -> Status {
    if let Err(why) = is_free(rt, path, getting.force) {
        return no_file(rt, path, why);
    }
    let Ok(part) = format!(in rt.alloc(); "{path}.part") else {
        return no_file(rt, path, NoFile::NoMemory);
    };
    match Beside::new(rt, path, part.as_str()) {
        Ok(beside) => get_beside(rt, volume, beside, path, getting),
        Err(why) => no_file(rt, part.as_str(), why),
    }
}
