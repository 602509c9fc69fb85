//! The disks that image words ask for, and a command on them.

use crate::NOTHING;
use crate::beside::{beside_none, beside_other};
use crate::reasons::{self, no_command};
use command_words::{Command, Refused, command_of};
use image_disk::{Image, ImageDisk, NoImage, image_of, new_image, open_image, remove_image};
use labelled_disk::{Layout, MemoryDisk};
use pilot_top::Status;
use std::fs::File;
use std::io;

/// What a command on an image knows: the path of the file, the image word of the second disk, whether the numbers of the
/// standard streams are held, the words, and the command that they mean.
#[derive(Clone, Copy)]
pub(crate) struct Task<'a> {
    pub(crate) path: &'a str,
    pub(crate) other: Option<&'a str>,
    pub(crate) held: io::Result<()>,
    pub(crate) words: &'a [String],
    pub(crate) meant: Command,
}

/// Whether a status leaves a volume in a new image file.
pub(crate) fn leaves_a_volume(status: Status) -> bool {
    matches!(status, Status::Done | Status::StreamFault)
}

/// Carries out a command on a disk in memory.
fn in_memory(rt: &HostRuntime, sectors: u32, task: Task<'_>) -> Status {
    let Ok(mut disk) = MemoryDisk::new(rt.alloc(), sectors) else {
        reasons::no_memory(rt, "the disk");
        return Status::NoMemory;
    };
    let status = beside_other(rt, &mut disk, task);
    reasons::memory_stopped(rt, status, sectors, task.meant);
    status
}

/// Carries out a command on disks of no sector, since the image can't be had.
fn on_none(rt: &HostRuntime, words: &[String]) -> Status {
    beside_none(rt, &mut ImageDisk::<File>::absent(), words)
}

/// Carries out a command on disks of no sector, since a number of a standard stream may be free.
fn on_loose(rt: &HostRuntime, why: io::Error, words: &[String]) -> Status {
    reasons::no_image(rt, NOTHING, NoImage::System(why));
    on_none(rt, words)
}

/// Whether a command answers nothing before all that it writes is on the medium.
fn answers_at_its_end(meant: Command) -> bool {
    matches!(
        meant,
        Command::Format { .. } | Command::Scavenge | Command::Convert
    )
}

/// Carries out a command on the disk in an image file.
fn on_disk(rt: &HostRuntime, mut disk: ImageDisk<File>, task: Task<'_>) -> Status {
    if answers_at_its_end(task.meant) {
        disk.join_writes(rt.alloc());
    }
    let status = beside_other(rt, &mut disk, task);
    // Nothing waits after a command that was carried out, since it ends with a sync. After one that was not,
    // what waits is written as far as that goes.
    let _ = disk.write_out();
    reasons::image_stopped(rt, status, &mut disk, task);
    status
}

/// Carries out a command on a new image file, which stays only where a volume was made in it. No
/// file is made of a number of sectors that no volume has.
fn on_new(rt: &HostRuntime, sectors: u32, task: Task<'_>) -> Status {
    if Layout::of(sectors).is_err() {
        return on_disk(rt, ImageDisk::without_file(sectors), task);
    }
    if let Err(why) = task.held {
        return on_loose(rt, why, task.words);
    }
    match new_image(rt, sectors, task.path) {
        Ok(disk) => {
            let status = on_disk(rt, disk, task);
            if !leaves_a_volume(status) {
                let _ = remove_image(rt, task.path);
            }
            status
        }
        Err(why) => {
            reasons::no_new_image(rt, sectors, task.path, why);
            on_none(rt, task.words)
        }
    }
}

/// Carries out a command on an image file that is there.
fn on_file(rt: &HostRuntime, task: Task<'_>) -> Status {
    if let Err(why) = task.held {
        return on_loose(rt, why, task.words);
    }
    match open_image(rt, task.path) {
        Ok(disk) => on_disk(rt, disk, task),
        Err(why) => {
            reasons::no_old_image(rt, task.path, why);
            on_none(rt, task.words)
        }
    }
}

/// Carries out a command on the disks that image words ask for, once the words are known to mean
/// one. No file is opened where a number of a standard stream may be free.
pub(crate) fn on_image<'a>(
    rt: &HostRuntime,
    held: io::Result<()>,
    image: &'a str,
    words: &'a [String],
    other: Option<&'a str>,
) -> Status {
    let meant = match command_of(rt.alloc(), words) {
        Ok(meant) => meant,
        Err(Refused::Usage) => return no_command(rt, image, words, other),
        Err(Refused::NoMemory) => {
            reasons::no_memory(rt, "the words");
            return Status::NoMemory;
        }
    };
    let task = Task {
        path: image,
        other,
        held,
        words,
        meant,
    };
    match image_of(image) {
        Image::Memory(sectors) => in_memory(rt, sectors, task),
        Image::New { sectors, path } => on_new(rt, sectors, Task { path, ..task }),
        Image::File(path) => on_file(rt, Task { path, ..task }),
    }
}
