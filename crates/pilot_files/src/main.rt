//! Documents of the host, put into a volume and got out of it.
#![tactic(auto)]

mod about;
mod buffer;
mod getting;
mod host;
mod listing;
mod meter;
mod putting;
mod status;
mod task;
mod volume;
mod words;

use crate::status::Status;
use crate::volume::{closed, opened};
use crate::words::{NoRequest, request_of};
use std::fs::File;
use std::process::ExitCode;
use std::{env, io};

/// What is opened three times so that no file gets the number of a standard stream.
const NOTHING: &str = "/dev/null";

fn hold_stream(rt: &HostRuntime) -> io::Result<File> {
    File::open(rt, NOTHING)
}

/// Takes the numbers of the standard streams that were closed, so that no later file gets one.
fn hold_streams(rt: &HostRuntime) -> io::Result<(File, File, File)> {
    Ok((hold_stream(rt)?, hold_stream(rt)?, hold_stream(rt)?))
}

/// The words after the program's name, or how the program ends without them.
fn words_of(rt: &HostRuntime) -> Result<Vec<String>, Status> {
    let args = env::args(rt).map_err(|error| match error.kind() {
        io::ErrorKind::OutOfMemory => Status::NoMemory,
        _ => Status::Usage,
    })?;
    args.skip(1)
        .collect(rt.alloc())
        .map_err(|_| Status::NoMemory)
}

/// Writes a text of the program's own.
fn reveal(rt: &HostRuntime, text: &str) -> Status {
    match print!(rt; "{text}") {
        Ok(()) => Status::Done,
        Err(_) => Status::StreamFault,
    }
}

/// Writes on standard error that the words ask for nothing, and how the program is called, or where that stands.
fn usage(rt: &HostRuntime, why: NoRequest<'_>, words: &[String]) -> Status {
    let _ = match (&why, words) {
        (NoRequest::Usage, [_, ..]) => eprintln!(rt; "pilot_files: {why}: {words:?}"),
        _ => eprintln!(rt; "pilot_files: {why}"),
    };
    let _ = match (&why, words) {
        (NoRequest::Usage, []) => eprint!(rt; "{}", about::HELP),
        _ => eprintln!(rt; "pilot_files: --help alone says how it is called"),
    };
    match why {
        NoRequest::NoMemory => Status::NoMemory,
        _ => Status::Usage,
    }
}

/// Carries out what the words ask for on the volume in an image.
fn on_image(rt: &HostRuntime, held: io::Result<()>, image: &str, words: &[String]) -> Status {
    let request = match request_of(rt.alloc(), words) {
        Ok(request) => request,
        Err(why) => return usage(rt, why, words),
    };
    if let Err(why) = held {
        let _ = eprintln!(rt; "pilot_files: {NOTHING:?}: {why}");
        return Status::StreamFault;
    }
    let mut volume = match opened(rt, image, request.options) {
        Ok(volume) => volume,
        Err(status) => return status,
    };
    let status = task::carry_out(rt, &mut volume, &request);
    closed(rt, &mut volume, image, status)
}

fn asks_for_help(word: &str) -> bool {
    matches!(word, "--help" | "-h" | "help")
}

fn run(rt: &HostRuntime, held: io::Result<()>) -> Status {
    let words = match words_of(rt) {
        Ok(words) => words,
        Err(Status::Usage) => return usage(rt, NoRequest::NoText, &[]),
        Err(status) => return status,
    };
    match words.as_slice() {
        [word] if asks_for_help(word.as_str()) => reveal(rt, about::HELP),
        [word] if word.as_str() == "--version" => reveal(rt, about::VERSION),
        [image, rest @ ..] => on_image(rt, held, image.as_str(), rest),
        [] => usage(rt, NoRequest::Usage, &[]),
    }
}

fn main(rt: HostRuntime) -> ExitCode {
    let streams = hold_streams(&rt);
    let held = streams.as_ref().map(|_| ()).map_err(|error| *error);
    ExitCode::from(run(&rt, held).exit())
}
