//! A file: its runs of sectors.
use crate::rows::write_run;
use labelled_disk::FileId;
use std::alloc::{AllocError, Global};
use volume_view::{FileLine, View};

/// Whether a file was written.
#[derive(Clone, Copy, Debug, PartialEq, Eq)]
pub enum FileText {
    /// The file has so many pages.
    Written { pages: u32 },
    /// There is no permanent file of that identifier.
    NoFile,
}

fn find_file(files: &[FileLine], id: FileId) -> Option<FileLine> {
    for file in files {
        if file.id == id {
            return Some(*file);
        }
    }
    None
}

/// Writes the attributes of a permanent file and its runs of sectors.
pub fn write_file(
    out: &mut String,
    view: &View<Global>,
    id: FileId,
) -> Result<FileText, AllocError> {
    let Some(file) = find_file(&view.found.files, id) else {
        return Ok(FileText::NoFile);
    };
    let pages = file.pages;
    let kind = file.kind;
    let mark = if file.immutable {
        "immutable"
    } else {
        "mutable"
    };
    writeln!(
        out,
        "file {id:016x}: {pages} pages, type {kind}, permanent, {mark}"
    )?;
    for run in &view.found.runs {
        if run.id == id {
            write_run(out, run)?;
            writeln!(out)?;
        }
    }
    Ok(FileText::Written { pages })
}
