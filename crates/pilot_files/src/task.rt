//! A task is carried out in a session on the volume.

use crate::buffer::WINDOW;
use crate::getting::{Getting, get_to_file, get_to_output};
use crate::listing::list;
use crate::putting::{Placing, put_path};
use crate::status::Status;
use crate::volume::{Volume, document_line};
use crate::words::{Request, Task};
use documents::remove;
use labelled_disk::FileId;

/// As many bytes as are got at a time with so many frames. Half of these hold them, and the rest what was changed, so that a
/// `get` writes nothing.
fn got_at_once(frames: u32) -> usize {
    WINDOW.min((frames / 2).saturating_mul(512) as usize)
}

/// Puts documents one after the other, up to the first that is not put.
fn put_all(rt: &HostRuntime, volume: &mut Volume, files: &[&str], placing: Placing<'_>) -> Status {
    for path in files {
        let status = put_path(rt, volume, path, placing);
        if status != Status::Done {
            return status;
        }
    }
    Status::Done
}

/// Removes documents one after the other, up to the first that is not removed.
fn remove_all(rt: &HostRuntime, volume: &mut Volume, ids: &[FileId]) -> Status {
    for id in ids {
        if let Err(fault) = remove(volume, *id) {
            return document_line(rt, volume, *id, fault);
        }
    }
    Status::Done
}

/// Gets a document into the file of a path, or to standard output.
fn get_to(rt: &HostRuntime, volume: &mut Volume, file: Option<&str>, getting: Getting) -> Status {
    match file {
        Some(path) => get_to_file(rt, volume, path, getting),
        None => get_to_output(rt, volume, getting),
    }
}

/// Carries out a task.
pub(crate) fn carry_out(rt: &HostRuntime, volume: &mut Volume, request: &Request<'_>) -> Status {
    let quiet = request.options.quiet;
    match &request.task {
        Task::Put { files, name } => {
            let placing = Placing {
                name: *name,
                bytes: None,
                instead: None,
                quiet,
            };
            put_all(rt, volume, files.as_slice(), placing)
        }
        Task::Replace { id, file, name } => {
            let placing = Placing {
                name: *name,
                bytes: None,
                instead: Some(*id),
                quiet,
            };
            put_path(rt, volume, file, placing)
        }
        Task::Get {
            id,
            file,
            force,
            pages,
        } => {
            let getting = Getting {
                id: *id,
                force: *force,
                pages: *pages,
                quiet,
                window: got_at_once(request.options.frames),
            };
            get_to(rt, volume, *file, getting)
        }
        Task::List { json } => list(rt, volume, *json),
        Task::Remove { ids } => remove_all(rt, volume, ids.as_slice()),
    }
}
