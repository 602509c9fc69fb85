//! The program: looks at a volume in an image file, which it opens for reading alone.
#![tactic(auto)]

mod about;
mod image;
mod output;
mod status;

use crate::image::{NoImage, open_image};
use crate::output::{answer, reveal};
use crate::status::Status;
use image_disk::ImageDisk;
use look_text::{Request, request_of};
use std::fs::File;
use std::process::ExitCode;
use std::{env, io};
use volume_view::{LookFault, look};

/// What is opened three times so that no file gets the number of a standard stream.
const NOTHING: &str = "/dev/null";

fn hold_stream(rt: &HostRuntime) -> io::Result<File> {
    File::open(rt, NOTHING)
}

/// Takes the numbers of the standard streams that were closed, so that no later file gets one.
fn hold_streams(rt: &HostRuntime) -> io::Result<(File, File, File)> {
    Ok((hold_stream(rt)?, hold_stream(rt)?, hold_stream(rt)?))
}

/// The words after the program's name, or how the program ends without them.
fn words_of(rt: &HostRuntime) -> Result<Vec<String>, Status> {
    let args = env::args(rt).map_err(|error| match error.kind() {
        io::ErrorKind::OutOfMemory => Status::NoMemory,
        _ => Status::Usage,
    })?;
    args.skip(1)
        .collect(rt.alloc())
        .map_err(|_| Status::NoMemory)
}

/// Writes a line on standard error that says why there is no answer.
fn complain(rt: &HostRuntime, path: &str, fault: LookFault) -> Status {
    let _ = eprintln!(rt; "look: {path:?}: {fault}");
    match fault {
        LookFault::BadCount(_) => Status::NoImage,
        LookFault::Disk => Status::DiskFault,
        LookFault::NoMemory => Status::NoMemory,
    }
}

/// Looks at the image, and answers.
fn on_disk(
    rt: &HostRuntime,
    path: &str,
    disk: &mut ImageDisk<File>,
    request: Request<'_>,
) -> Status {
    match look(rt.alloc(), disk) {
        Ok(view) => answer(rt, path, disk, &view, request),
        Err(fault) => complain(rt, path, fault),
    }
}

/// Opens the image, and answers.
fn on_image(rt: &HostRuntime, held: io::Result<()>, path: &str, request: Request<'_>) -> Status {
    let opened = held
        .map_err(NoImage::System)
        .and_then(|()| open_image(rt, path));
    match opened {
        Ok(mut disk) => on_disk(rt, path, &mut disk, request),
        Err(why) => {
            let _ = eprintln!(rt; "look: {path:?}: {why}");
            Status::NoImage
        }
    }
}

/// Writes on standard error that the words ask for nothing, and how the program is called.
fn usage(rt: &HostRuntime) -> Status {
    let help = about::HELP;
    let _ = eprint!(rt; "look: these words ask for nothing\n{help}");
    Status::Usage
}

fn asks_for_help(word: &str) -> bool {
    matches!(word, "--help" | "-h" | "help")
}

fn run(rt: &HostRuntime, held: io::Result<()>) -> Status {
    let words = match words_of(rt) {
        Ok(words) => words,
        Err(Status::Usage) => return usage(rt),
        Err(status) => return status,
    };
    match words.as_slice() {
        [word] if asks_for_help(word.as_str()) => reveal(rt, about::HELP),
        [word] if word.as_str() == "--version" => reveal(rt, about::VERSION),
        [image, rest @ ..] => match request_of(rest) {
            Some(request) => on_image(rt, held, image.as_str(), request),
            None => usage(rt),
        },
        [] => usage(rt),
    }
}

fn main(rt: HostRuntime) -> ExitCode {
    let streams = hold_streams(&rt);
    let held = streams.as_ref().map(|_| ()).map_err(|error| *error);
    ExitCode::from(run(&rt, held).exit())
}
