//! Documents are put into the volume.

use crate::buffer::{WINDOW, buffer_for};
use crate::host::{last_part, no_file, old_file, written};
use crate::meter::Meter;
use crate::status::Status;
use crate::volume::{Volume, document_line, fault_line, is_too_long};
use documents::{Fault, put, replace};
use embedded::Code;
use flat_machine::Refusal;
use labelled_disk::FileId;
use std::fs::File;
use std::io::{self, Read};
use trace_io::{ReaderSource, Source};

/// What a document is put with: the name that was given, how many bytes it has, where that is known, and which document it
/// replaces.
#[derive(Clone, Copy)]
pub(crate) struct Placing<'a> {
    pub(crate) name: Option<&'a str>,
    pub(crate) bytes: Option<u64>,
    pub(crate) instead: Option<FileId>,
    pub(crate) quiet: bool,
}

/// Puts what a source has into the volume, and waits until it is on the medium.
fn placed<S: Source>(
    volume: &mut Volume,
    buffer: &mut [u8],
    source: &mut S,
    name: &str,
    meter: &mut Meter<'_>,
    instead: Option<FileId>,
) -> Result<FileId, Fault> {
    let id = match instead {
        Some(old) => replace(volume, buffer, source, name, meter, old),
        None => put(volume, buffer, source, name, meter),
    };
    match (id, volume.force(0)) {
        (Ok(_), Err(code)) => Err(Fault::Call(code)),
        (id, _) => id,
    }
}

/// Whether a fault is that there is no document of an identifier.
fn is_missing(fault: Fault) -> bool {
    match fault {
        Fault::NoDocument => true,
        Fault::Call(Code::Refused(Refusal::File)) => true,
        _ => false,
    }
}

/// A line on standard error that says why a document was not put. It names the one that was to be replaced where that
/// one is not there, and else the file.
fn not_put(
    rt: &HostRuntime,
    volume: &mut Volume,
    path: &str,
    instead: Option<FileId>,
    fault: Fault,
    trouble: Option<io::Error>,
) -> Status {
    if let Some(why) = trouble {
        let _ = eprintln!(rt; "pilot_files: {path:?}: {fault}: {why}");
        return Status::of_fault(fault);
    }
    match instead {
        Some(old) if is_missing(fault) => document_line(rt, volume, old, fault),
        _ => fault_line(rt, volume, path, fault),
    }
}

/// Puts a document, and writes its identifier.
fn put_source<R: Read>(
    rt: &HostRuntime,
    volume: &mut Volume,
    source: &mut ReaderSource<R>,
    path: &str,
    placing: Placing<'_>,
) -> Status {
    let Ok(mut buffer) = buffer_for(rt, placing.bytes, WINDOW) else {
        return fault_line(rt, volume, path, Fault::Call(Code::NoMemory));
    };
    let buffer = buffer.as_mut_slice();
    let name = placing.name.unwrap_or(last_part(path));
    let mut meter = Meter::new(rt, path, placing.bytes, placing.quiet);
    let answer = placed(volume, buffer, source, name, &mut meter, placing.instead);
    meter.finish();
    match answer {
        Ok(id) => written(rt, println!(rt; "{id:016x}")),
        Err(fault) => {
            let trouble = source.trouble();
            not_put(rt, volume, path, placing.instead, fault, trouble)
        }
    }
}

/// Puts a file, unless the volume has no room for it.
fn put_file(
    rt: &HostRuntime,
    volume: &mut Volume,
    file: File,
    path: &str,
    placing: Placing<'_>,
) -> Status {
    match length_of(&file) {
        Some(bytes) if is_too_long(rt, volume, path, bytes) => Status::Refused,
        bytes => {
            let placing = Placing { bytes, ..placing };
            let mut source = ReaderSource::over(file);
            put_source(rt, volume, &mut source, path, placing)
        }
    }
}

/// How many bytes a file has, where it is one that has so many.
fn length_of(file: &File) -> Option<u64> {
    match file.metadata() {
        Ok(about) if about.is_file() => Some(about.len()),
        _ => None,
    }
}

/// Puts the file of a path, or standard input for `-`.
pub(crate) fn put_path(
    rt: &HostRuntime,
    volume: &mut Volume,
    path: &str,
    placing: Placing<'_>,
) -> Status {
    if path == "-" {
        let mut source = ReaderSource::over(rt.reader());
        return put_source(rt, volume, &mut source, path, placing);
    }
    match old_file(rt, path) {
        Ok(file) => put_file(rt, volume, file, path, placing),
        Err(why) => no_file(rt, path, why),
    }
}
