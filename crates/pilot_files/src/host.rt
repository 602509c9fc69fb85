//! Files of the host: documents are read from them, and written to new ones.

use crate::status::Status;
use std::fs::{File, OpenOptions, TryLockError, hard_link, remove_file, rename};
use std::io;
use thiserror::Error;

/// Why a file can't be had.
#[derive(Debug, Drop, Error)]
pub(crate) enum NoFile {
    /// What the system answered.
    #[error("{0}")]
    System(io::Error),
    /// Another program has its lock, or it is the image.
    #[error("in use: it is the image, or another program has it")]
    InUse,
    /// There is a file of that name, and it is to stay.
    #[error("{0}; --force takes its place")]
    Taken(io::Error),
    #[error("there is no memory left")]
    NoMemory,
}

impl NoFile {
    /// Why a file does not get its name: there may be one of that name by then.
    fn of_naming(why: io::Error) -> NoFile {
        match why.kind() {
            io::ErrorKind::AlreadyExists => NoFile::Taken(why),
            _ => NoFile::System(why),
        }
    }
}

/// A line on standard error that says why a file can't be had.
pub(crate) fn no_file(rt: &HostRuntime, path: &str, why: NoFile) -> Status {
    let _ = eprintln!(rt; "pilot_files: {path:?}: {why}");
    Status::StreamFault
}

/// How the program ends after it has written to standard output; where that failed a line on standard error says so.
pub(crate) fn written(rt: &HostRuntime, done: io::Result<()>) -> Status {
    match done {
        Ok(()) => Status::Done,
        Err(why) => {
            let _ = eprintln!(rt; "pilot_files: standard output: {why}");
            Status::StreamFault
        }
    }
}

/// The last part of a path.
pub(crate) fn last_part(path: &str) -> &str {
    match path.rsplit_once('/') {
        Some((_, last)) => last,
        None => path,
    }
}

/// A file to read a document from. It is locked against those who lock it alone, as the image is.
pub(crate) fn old_file(rt: &HostRuntime, path: &str) -> Result<File, NoFile> {
    let file = File::open(rt, path).map_err(NoFile::System)?;
    match file.try_lock_shared() {
        Err(TryLockError::WouldBlock) => Err(NoFile::InUse),
        _ => Ok(file),
    }
}

/// A new file beside the one that is to be made.
#[derive(Drop)]
pub(crate) struct Beside<'a> {
    path: &'a str,
    beside: &'a str,
    file: File,
}

impl<'a> Beside<'a> {
    /// Makes it, with a path of its own. There must be no file of that path.
    pub(crate) fn new(
        rt: &HostRuntime,
        path: &'a str,
        beside: &'a str,
    ) -> Result<Beside<'a>, NoFile> {
        let file = OpenOptions::new()
            .write(true)
            .create_new(true)
            .open(rt, beside)
            .map_err(NoFile::System)?;
        Ok(Beside { path, beside, file })
    }

    /// The file once more, to write to.
    pub(crate) fn writer(&self) -> Result<File, NoFile> {
        self.file.try_clone().map_err(NoFile::System)
    }

    /// Gives the file its name, once what was written to it is on the medium. It takes the place of another one only if
    /// it is to.
    pub(crate) fn finish(self, rt: &HostRuntime, force: bool) -> Result<(), NoFile> {
        let named = match self.file.sync_all() {
            Ok(()) if force => rename(rt, self.beside, self.path),
            Ok(()) => hard_link(rt, self.beside, self.path),
            Err(why) => Err(why),
        };
        if !force || named.is_err() {
            let _ = remove_file(rt, self.beside);
        }
        named.map_err(NoFile::of_naming)
    }

    /// Removes the file.
    pub(crate) fn drop_file(self, rt: &HostRuntime) {
        let _ = remove_file(rt, self.beside);
    }
}
