//! The program: makes the disks and the streams of this process, and hands them to the top call.
#![tactic(auto)]

ghost use Rattle.std.specs.Prelude.{◌≡◌};
ghost use Rattle.std.specs.Process.{exit_status};
ghost use Rattle.pilot_top.specs.Status.{exit_of};

mod about;
mod beside;
mod images;
mod reasons;

use crate::images::on_image;
use crate::reasons::no_command;
use image_disk::ImageDisk;
use labelled_disk::Disk;
use pilot_top::{Status, pilot};
use std::fs::File;
use std::process::ExitCode;
use std::{env, io};
use trace_io::{ReaderSource, WriterSink};

/// What is opened three times so that no image gets the number of a standard stream.
const NOTHING: &str = "/dev/null";

fn hold_stream(rt: &HostRuntime) -> io::Result<File> {
    File::open(rt, NOTHING)
}

/// Takes the numbers of the standard streams that were closed, so that no later file gets one.
fn hold_streams(rt: &HostRuntime) -> io::Result<(File, File, File)> {
    Ok((hold_stream(rt)?, hold_stream(rt)?, hold_stream(rt)?))
}

/// The words after the program's name, or how the program ends without them.
fn words_of(rt: &HostRuntime) -> Result<Vec<String>, Status> {
    let args = env::args(rt).map_err(|error| match error.kind() {
        io::ErrorKind::OutOfMemory => Status::NoMemory,
        _ => Status::Usage,
    })?;
    args.skip(1)
        .collect(rt.alloc())
        .map_err(|_| Status::NoMemory)
}

/// Carries out a command on a disk and a second one, over the standard streams. Where one of these
/// failed, standard error gets a line that says which and why.
fn command<D: Disk, E: Disk>(
    rt: &HostRuntime,
    disk: &mut D,
    other: &mut E,
    words: &[String],
) -> Status {
    let mut source = ReaderSource::over(rt.reader());
    let mut sink = WriterSink::over(io::writer(rt));
    let status = pilot(
        rt.alloc(),
        rt.alloc(),
        words,
        disk,
        other,
        &mut source,
        &mut sink,
    );
    if status == Status::StreamFault {
        reasons::stream_failed(rt, source.trouble(), sink.trouble());
    }
    status
}

/// The word after `replicate`, where it is the command, is taken out: the image of the second volume.
fn other_image(words: &mut Vec<String>) -> Option<String> {
    match words.get(1) {
        Some(command) if command.as_str() == "replicate" => (),
        _ => return None,
    }
    if words.len() <= 2 {
        return None;
    }
    Some(words.remove(2))
}

/// Writes a text of the program's own.
fn reveal(rt: &HostRuntime, text: &str) -> Status {
    match print!(rt; "{text}") {
        Ok(()) => Status::Done,
        Err(error) => {
            reasons::stream_failed(rt, None, Some(error));
            Status::StreamFault
        }
    }
}

fn asks_for_help(word: &str) -> bool {
    matches!(word, "--help" | "-h" | "help")
}

fn run(rt: &HostRuntime, held: io::Result<()>) -> Status {
    let mut words = match words_of(rt) {
        Ok(words) => words,
        Err(Status::Usage) => {
            let _ = reveal(rt, "stopped usage\n");
            reasons::not_a_text(rt);
            return Status::Usage;
        }
        Err(status) => {
            reasons::no_memory(rt, "the words");
            return status;
        }
    };
    let other = other_image(&mut words);
    let other = other.as_ref().map(|word| word.as_str());
    match words.as_slice() {
        [word] if asks_for_help(word.as_str()) => reveal(rt, about::HELP),
        [word] if word.as_str() == "--version" => reveal(rt, about::VERSION),
        [] => no_command(rt, "", &[], None),
        [image, rest @ ..] => on_image(rt, held, image.as_str(), rest, other),
    }
}

/// Carries out a command, and gives the exit status of the `Status` that it answered.
fn process<F: FnOnce() -> Status>(command: F) -> ExitCode
    requires { F.IsAlwaysCallable command }
    ensures exit { (status : Status) × F.post command status × (exit_status result ≡ exit_of status) }
{
    ExitCode::from(command().exit())
}

fn main(rt: HostRuntime) -> ExitCode {
    let streams = hold_streams(&rt);
    let held = streams.as_ref().map(|_| ()).map_err(|error| *error);
    process(|| run(&rt, held))
}
