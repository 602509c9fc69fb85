//! The volume in an image file, with a session on it.

use crate::status::Status;
use crate::words::Options;
use documents::Fault;
use embedded::{Code, Engine};
use flat_machine::{Refusal, Reply};
use image_disk::{ImageDisk, open_image};
use labelled_disk::{FileId, RootFault};
use scavenger::Lost;
use std::alloc::Global;
use std::fs::File;

pub(crate) type Volume = Engine<ImageDisk<File>, Global>;

/// Why there is no session on the volume.
fn not_opened(rt: &HostRuntime, path: &str, code: Code) -> Status {
    let _ = match code {
        Code::Root(RootFault::Unclean) => eprintln!(rt;
            "pilot_files: {path:?}: the volume was not closed; --restore restores it"
        ),
        _ => eprintln!(rt; "pilot_files: {path:?}: {code}"),
    };
    Status::of_code(code)
}

/// Says which page of which file a sector was that was freed, though that file stays.
fn say_lost(rt: &HostRuntime, path: &str, lost: &Lost) {
    let Lost { sector, id, page } = *lost;
    let _ = match page {
        u32::MAX => eprintln!(rt;
            "pilot_files: {path:?}: lost: sector {sector}, a leader of the file {id:016x}"
        ),
        _ => eprintln!(rt;
            "pilot_files: {path:?}: lost: sector {sector}, page {page} of the file {id:016x}"
        ),
    };
}

/// Restores a volume that was not closed, and says what was lost.
fn restore(rt: &HostRuntime, volume: &mut Volume, path: &str) -> Result<(), Code> {
    let report = volume.scavenge(rt.alloc())?;
    for lost in report.lost() {
        say_lost(rt, path, lost);
    }
    let (freed, lost) = (report.freed, report.lost().len());
    let _ = eprintln!(rt;
        "pilot_files: {path:?}: restored: {freed} sectors were freed, {lost} were lost"
    );
    Ok(())
}

/// Starts a session, after a restoration where one is asked for and needed.
fn start(rt: &HostRuntime, volume: &mut Volume, path: &str, options: Options) -> Result<(), Code> {
    match volume.open(rt.alloc(), options.frames) {
        Err(Code::Root(RootFault::Unclean)) if options.restore => {
            restore(rt, volume, path)?;
            volume.open(rt.alloc(), options.frames)
        }
        opened => opened,
    }
}

/// The volume in the file of this path, with a session on it.
pub(crate) fn opened(rt: &HostRuntime, path: &str, options: Options) -> Result<Volume, Status> {
    let mut volume = match open_image(rt, path) {
        Ok(mut disk) => {
            disk.join_writes(rt.alloc());
            Engine::over(disk)
        }
        Err(why) => {
            let _ = eprintln!(rt; "pilot_files: {path:?}: {why}");
            return Err(Status::NotOpened);
        }
    };
    match start(rt, &mut volume, path, options) {
        Ok(()) => Ok(volume),
        Err(code) => Err(not_opened(rt, path, code)),
    }
}

/// Closes the volume after what was done in it, unless that stopped the session.
pub(crate) fn closed(rt: &HostRuntime, volume: &mut Volume, path: &str, status: Status) -> Status {
    if !volume.is_open() {
        return status;
    }
    match volume.close() {
        Ok(()) => status,
        Err(code) => not_opened(rt, path, code),
    }
}

/// How many pages a volume has free, where it says so.
fn free_pages(volume: &mut Volume) -> Option<u32> {
    match volume.volume() {
        Ok(Reply::Volume { free, .. }) => Some(free),
        _ => None,
    }
}

/// As many pages as the file of a document of so many bytes takes: those of the bytes, the head, and the one that each
/// file has.
fn wanted_pages(bytes: u64) -> u64 {
    bytes.div_ceil(512).saturating_add(2)
}

/// How many pages are free and how many are wanted for a document of so many bytes, where these are more.
fn missing(volume: &mut Volume, bytes: u64) -> Option<(u32, u64)> {
    let wanted = wanted_pages(bytes);
    match free_pages(volume) {
        Some(free) if u64::from(free) < wanted => Some((free, wanted)),
        _ => None,
    }
}

/// Says on standard error that a file of so many bytes does not fit into the volume, where that is so.
pub(crate) fn is_too_long(rt: &HostRuntime, volume: &mut Volume, path: &str, bytes: u64) -> bool {
    let Some((free, wanted)) = missing(volume, bytes) else {
        return false;
    };
    let _ = eprintln!(rt;
        "pilot_files: {path:?}: the volume is full: {free} pages are free, {wanted} are wanted"
    );
    true
}

/// A line on standard error: what was asked, and why it was not done.
pub(crate) fn fault_line(
    rt: &HostRuntime,
    volume: &mut Volume,
    what: &str,
    fault: Fault,
) -> Status {
    let _ = match fault {
        Fault::Call(Code::Refused(Refusal::Full)) => match free_pages(volume) {
            Some(free) => eprintln!(rt;
                "pilot_files: {what:?}: the volume is full: {free} pages are free"
            ),
            None => eprintln!(rt; "pilot_files: {what:?}: the volume is full"),
        },
        Fault::Call(Code::Refused(Refusal::File)) => {
            eprintln!(rt; "pilot_files: {what:?}: there is no such document")
        }
        Fault::Call(Code::Refused(Refusal::Ids)) => {
            eprintln!(rt; "pilot_files: {what:?}: all identifiers of the volume are given out")
        }
        _ => eprintln!(rt; "pilot_files: {what:?}: {fault}"),
    };
    Status::of_fault(fault)
}

/// The same of a document: its identifier is what was asked for.
pub(crate) fn document_line(
    rt: &HostRuntime,
    volume: &mut Volume,
    id: FileId,
    fault: Fault,
) -> Status {
    let what = format!(in rt.alloc(); "{id:016x}");
    fault_line(rt, volume, what.as_deref().unwrap_or("document"), fault)
}
