//! A command on a disk beside the second one, which the word after `replicate` asks for.

use crate::images::{Task, leaves_a_volume};
use crate::{NOTHING, command, reasons};
use command_words::Command;
use image_disk::{Image, ImageDisk, NoImage, image_of, new_image, open_image, remove_image};
use labelled_disk::{Disk, Layout, MemoryDisk};
use pilot_top::Status;
use std::fs::File;
use std::io;
use volume_root::read_root;

/// Carries out a command on a disk beside one of no sector.
pub(crate) fn beside_none<D: Disk>(rt: &HostRuntime, disk: &mut D, words: &[String]) -> Status {
    command(rt, disk, &mut ImageDisk::<File>::absent(), words)
}

fn asks_for_two(meant: Command) -> bool {
    matches!(meant, Command::Replicate { .. })
}

/// Carries out a command on a disk beside one of no sector, since no word asks for another.
fn beside_nothing<D: Disk>(rt: &HostRuntime, disk: &mut D, task: Task<'_>) -> Status {
    let status = beside_none(rt, disk, task.words);
    let is_refused = asks_for_two(task.meant) && status == Status::NotOpened;
    if is_refused && read_root(disk, true).is_ok() {
        reasons::no_second_image(rt);
    }
    status
}

/// Carries out a command on a disk beside one in memory.
fn beside_memory<D: Disk>(
    rt: &HostRuntime,
    disk: &mut D,
    sectors: u32,
    words: &[String],
) -> Status {
    let Ok(mut other) = MemoryDisk::new(rt.alloc(), sectors) else {
        reasons::no_memory(rt, "the second disk");
        return Status::NoMemory;
    };
    let status = command(rt, disk, &mut other, words);
    if status == Status::NotOpened && read_root(disk, true).is_ok() {
        reasons::not_in_memory(rt, sectors);
    }
    status
}

/// Carries out a command on a disk beside the one in an image file.
fn beside_disk<D: Disk>(
    rt: &HostRuntime,
    disk: &mut D,
    mut other: ImageDisk<File>,
    path: &str,
    words: &[String],
) -> Status {
    let status = command(rt, disk, &mut other, words);
    match status {
        Status::NotOpened => {
            if read_root(disk, true).is_ok() {
                reasons::not_opened(rt, path, read_root(&mut other, true));
            }
        }
        _ => reasons::other_stopped(rt, status, path, &mut other),
    }
    status
}

/// Carries out a command on a disk beside one of no sector, since a number of a standard stream may be free.
fn beside_loose<D: Disk>(
    rt: &HostRuntime,
    disk: &mut D,
    why: io::Error,
    words: &[String],
) -> Status {
    reasons::no_image(rt, NOTHING, NoImage::System(why));
    beside_none(rt, disk, words)
}

/// Carries out a command on a disk beside the one in a new image file, which stays only where a volume was made in it.
fn beside_new<D: Disk>(
    rt: &HostRuntime,
    disk: &mut D,
    sectors: u32,
    path: &str,
    task: Task<'_>,
) -> Status {
    if Layout::of(sectors).is_err() {
        return beside_disk(rt, disk, ImageDisk::without_file(sectors), path, task.words);
    }
    if let Err(why) = task.held {
        return beside_loose(rt, disk, why, task.words);
    }
    match new_image(rt, sectors, path) {
        Ok(other) => {
            let status = beside_disk(rt, disk, other, path, task.words);
            if !leaves_a_volume(status) {
                let _ = remove_image(rt, path);
            }
            status
        }
        Err(why) => {
            reasons::no_new_image(rt, sectors, path, why);
            beside_none(rt, disk, task.words)
        }
    }
}

/// Carries out a command on a disk beside the one in an image file that is there.
fn beside_file<D: Disk>(rt: &HostRuntime, disk: &mut D, path: &str, task: Task<'_>) -> Status {
    if let Err(why) = task.held {
        return beside_loose(rt, disk, why, task.words);
    }
    match open_image(rt, path) {
        Ok(other) => beside_disk(rt, disk, other, path, task.words),
        Err(why) => {
            reasons::no_old_image(rt, path, why);
            beside_none(rt, disk, task.words)
        }
    }
}

/// Carries out a command on a disk beside the one that the second image word asks for. No file is opened where a
/// number of a standard stream may be free.
pub(crate) fn beside_other<D: Disk>(rt: &HostRuntime, disk: &mut D, task: Task<'_>) -> Status {
    let Some(word) = task.other else {
        return beside_nothing(rt, disk, task);
    };
    match image_of(word) {
        Image::Memory(sectors) => beside_memory(rt, disk, sectors, task.words),
        Image::New { sectors, path } => beside_new(rt, disk, sectors, path, task),
        Image::File(path) => beside_file(rt, disk, path, task),
    }
}
