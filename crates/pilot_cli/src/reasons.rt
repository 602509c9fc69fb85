//! Why a command did not do its work: a line on standard error, for whoever sits there.

use crate::about;
use crate::beside::beside_none;
use crate::images::Task;
use command_words::Command;
use image_disk::{ImageDisk, NoImage};
use labelled_disk::{Layout, RootFault};
use pilot_top::Status;
use std::fs::File;
use std::io;
use volume_root::{Root, read_old_root, read_root};

/// What is said where a command stands in the place of the image.
fn order(image: &str) -> &'static str {
    match image {
        "format" | "run" | "processes" | "replicate" | "scavenge" | "convert" | "trial" => {
            "; the image comes first: pilot IMAGE COMMAND"
        }
        _ => "",
    }
}

/// The words after the image word mean no command: which words, and how the program is called.
pub(crate) fn no_command(
    rt: &HostRuntime,
    image: &str,
    words: &[String],
    other: Option<&str>,
) -> Status {
    let status = beside_none(rt, &mut ImageDisk::<File>::absent(), words);
    let order = order(image);
    let _ = match (words, other) {
        ([], _) => eprintln!(rt; "pilot: no command"),
        (_, None) => eprintln!(rt; "pilot: no command: {words:?}{order}"),
        (_, Some(other)) => eprintln!(rt;
            "pilot: no command: {words:?}, with the second image {other:?}"
        ),
    };
    let _ = eprint!(rt; "{}", about::HELP);
    status
}

/// No word asks for the second image of a command on two.
pub(crate) fn no_second_image(rt: &HostRuntime) {
    let _ = eprintln!(rt; "pilot: no second image: pilot IMAGE replicate OTHER");
}

/// A word is not UTF-8.
pub(crate) fn not_a_text(rt: &HostRuntime) {
    let _ = eprintln!(rt; "pilot: no command: a word is not UTF-8");
    let _ = eprint!(rt; "{}", about::HELP);
}

/// There is no memory for something.
pub(crate) fn no_memory(rt: &HostRuntime, something: &str) {
    let _ = eprintln!(rt; "pilot: no memory for {something}");
}

/// The image can't be had.
pub(crate) fn no_image(rt: &HostRuntime, path: &str, why: NoImage) {
    let _ = eprintln!(rt; "pilot: {path:?}: {why}");
}

/// The kind of what the system answered.
fn kind_of(why: &NoImage) -> Option<io::ErrorKind> {
    match why {
        NoImage::System(error) => Some(error.kind()),
        _ => None,
    }
}

/// There is no file of that path, and how one is made.
fn not_there(rt: &HostRuntime, path: &str, why: NoImage) {
    let _ = if path.contains(':') {
        eprintln!(rt; "pilot: {path:?}: {why}; a new file is n:FILE, n a number of sectors")
    } else {
        eprintln!(rt; "pilot: {path:?}: {why}; to make a volume there: pilot 256:{path:?} format")
    };
}

/// The image file can't be had that was to be there.
pub(crate) fn no_old_image(rt: &HostRuntime, path: &str, why: NoImage) {
    match kind_of(&why) {
        Some(io::ErrorKind::NotFound) if !path.is_empty() => not_there(rt, path, why),
        _ => no_image(rt, path, why),
    }
}

/// The image file of so many sectors can't be had that was to be new.
pub(crate) fn no_new_image(rt: &HostRuntime, sectors: u32, path: &str, why: NoImage) {
    if path.is_empty() {
        let _ = eprintln!(rt; "pilot: no path behind \"{sectors}:\"");
        return;
    }
    match kind_of(&why) {
        Some(io::ErrorKind::AlreadyExists) => {
            let _ = eprintln!(rt; "pilot: {path:?}: {why}; to work on it leave out \"{sectors}:\"");
        }
        _ => no_image(rt, path, why),
    }
}

/// A standard stream failed: standard output, if the sink has an error.
pub(crate) fn stream_failed(rt: &HostRuntime, source: Option<io::Error>, sink: Option<io::Error>) {
    let _ = match (source, sink) {
        (_, Some(error)) => eprintln!(rt; "pilot: standard output: {error}"),
        (Some(error), None) => eprintln!(rt; "pilot: standard input: {error}"),
        (None, None) => eprintln!(rt; "pilot: a standard stream failed"),
    };
}

/// What a command takes memory for.
fn what_takes_memory(meant: Command) -> &'static str {
    match meant {
        Command::Run { queue: 0, .. } | Command::Processes { .. } | Command::Trial { .. } => {
            "the frames"
        }
        Command::Replicate { .. } => "the frames of both",
        Command::Run { .. } => "the frames and the queue",
        Command::Scavenge | Command::Convert => "labels and maps",
        _ => "the words",
    }
}

fn too_long(rt: &HostRuntime, meant: Command) {
    let last = match meant {
        Command::Replicate { .. } => "close",
        _ => "close or halt",
    };
    let _ = eprintln!(rt;
        "pilot: standard input: 4294967296 bytes, and no line {last} whole in them"
    );
}

/// What is said after the fault of a root: the counts of sectors that a volume can have, or that
/// a volume is not old.
fn beside(fault: RootFault) -> &'static str {
    match fault {
        RootFault::BadCount(_) => "; a volume has 256 to 1048576",
        RootFault::Version(3) => ", which is that of today: there is nothing to convert",
        _ => "",
    }
}

/// A disk in memory of so many sectors has no volume.
pub(crate) fn not_in_memory(rt: &HostRuntime, sectors: u32) {
    let _ = match Layout::of(sectors) {
        Err(fault) => eprintln!(rt; "pilot: {fault}{}", beside(fault)),
        Ok(_) => eprintln!(rt; "pilot: a disk in memory has no volume until it is formatted"),
    };
}

/// A command on a disk in memory of so many sectors did not do its work.
pub(crate) fn memory_stopped(rt: &HostRuntime, status: Status, sectors: u32, meant: Command) {
    match status {
        Status::NotOpened => not_in_memory(rt, sectors),
        Status::NoMemory => no_memory(rt, what_takes_memory(meant)),
        Status::Long => too_long(rt, meant),
        _ => {}
    }
}

/// What restores a volume.
fn remedy(rt: &HostRuntime, path: &str, why: &str) {
    let _ = eprintln!(rt; "pilot: {path:?}: {why}; to restore it: pilot {path:?} scavenge");
}

/// What makes a volume of today of an old one.
fn renewal(rt: &HostRuntime, path: &str, version: u16) {
    let _ = eprintln!(rt;
        "pilot: {path:?}: the volume has version {version}; to bring it to version 3: pilot {path:?} convert"
    );
}

/// The volume was refused: its root was read once more, and the first test of it that fails is revealed.
pub(crate) fn not_opened(rt: &HostRuntime, path: &str, root: Result<Root, RootFault>) {
    match root {
        Err(RootFault::Unclean) => remedy(rt, path, "the volume was not closed"),
        Err(RootFault::Version(version @ (1 | 2))) => renewal(rt, path, version),
        Err(RootFault::BadCount(sectors)) if Layout::of(sectors).is_ok() => {
            let _ = eprintln!(rt;
                "pilot: {path:?}: an old volume has 256 to 65536 sectors; this disk has {sectors}"
            );
        }
        Err(fault) => {
            let _ = eprintln!(rt; "pilot: {path:?}: {fault}{}", beside(fault));
        }
        Ok(_) => {}
    }
}

/// The root by which a command opens a volume.
fn root_for(meant: Command, disk: &mut ImageDisk<File>) -> Result<Root, RootFault> {
    match meant {
        Command::Convert => read_old_root(disk),
        _ => read_root(disk, true),
    }
}

/// Whether the volume was left open, and what restores it.
fn left_open(rt: &HostRuntime, path: &str, disk: &mut ImageDisk<File>) {
    if let Err(RootFault::Unclean) = read_root(disk, true) {
        remedy(rt, path, "the volume was left open");
    }
}

/// The files of an old volume have no room.
fn unfit(rt: &HostRuntime, path: &str) {
    let _ = eprintln!(rt;
        "pilot: {path:?}: its files need more room than a volume of today has; nothing was written"
    );
}

/// The volume is damaged; or the second one is, as the last line then says.
fn damaged(rt: &HostRuntime, task: Task<'_>) {
    let path = task.path;
    if task.other.is_none() {
        return remedy(rt, path, "the volume is damaged");
    }
    let _ = eprintln!(rt;
        "pilot: {path:?}: the volume is damaged, unless the last line begins with \"stopped other\""
    );
}

/// A command did not do its work on a second image file: what failed there, and whether its volume was left open.
pub(crate) fn other_stopped(
    rt: &HostRuntime,
    status: Status,
    path: &str,
    disk: &mut ImageDisk<File>,
) {
    if let (Status::DiskFault, Some(trouble)) = (status, disk.trouble()) {
        let _ = eprintln!(rt; "pilot: {path:?}: {trouble}");
    }
    if status != Status::Done {
        left_open(rt, path, disk);
    }
}

/// A command on an image file did not do its work.
pub(crate) fn image_stopped(
    rt: &HostRuntime,
    status: Status,
    disk: &mut ImageDisk<File>,
    task: Task<'_>,
) {
    match (status, disk.trouble()) {
        (Status::DiskFault, Some(trouble)) => {
            let _ = eprintln!(rt; "pilot: {:?}: {trouble}", task.path);
        }
        (Status::NotOpened, _) => not_opened(rt, task.path, root_for(task.meant, disk)),
        (Status::StreamFault, _) => left_open(rt, task.path, disk),
        (Status::NoMemory, _) => no_memory(rt, what_takes_memory(task.meant)),
        (Status::Long, _) => too_long(rt, task.meant),
        (Status::Damaged, _) => damaged(rt, task),
        (Status::Unfit, _) => unfit(rt, task.path),
        _ => {}
    }
}
