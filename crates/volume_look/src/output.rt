//! What is asked for, written to standard output or into a new file.
ghost use Rattle.std.specs.Prelude.{◌≡◌, ◌≤◌, None};

use crate::status::Status;
use image_disk::ImageDisk;
use labelled_disk::{Disk, FileId, Page, RootFault};
use look_text::{FileText, Request, json_of, write_file, write_listing, write_page, write_picture};
use std::alloc::{AllocError, Global};
use std::fs::{File, OpenOptions, remove_file};
use std::io::{self, Write};
use volume_view::{LookFault, View, read_page, sector_of};

/// Writes a text to standard output.
pub(crate) fn reveal(rt: &HostRuntime, text: &str) -> Status {
    match print!(rt; "{text}") {
        Ok(()) => Status::Done,
        Err(why) => {
            let _ = eprintln!(rt; "look: standard output: {why}");
            Status::StreamFault
        }
    }
}

fn no_memory(rt: &HostRuntime) -> Status {
    let _ = eprintln!(rt; "look: there is no memory left");
    Status::NoMemory
}

/// Writes what a look at the whole volume found; how that stands is how the program ends.
fn reveal_view(rt: &HostRuntime, view: &View<Global>, text: Result<String, AllocError>) -> Status {
    let Ok(text) = text else {
        return no_memory(rt);
    };
    match reveal(rt, text.as_str()) {
        Status::Done => view.condition().into(),
        status => status,
    }
}

fn listing(alloc: Global, view: &View<Global>) -> Result<String, AllocError> {
    let mut text = String::new(alloc);
    write_listing(&mut text, view)?;
    Ok(text)
}

fn json(alloc: Global, view: &View<Global>) -> Result<String, AllocError> {
    let mut text = json_of(alloc, view)?;
    text.push('\n')?;
    Ok(text)
}

fn picture(alloc: Global, view: &View<Global>) -> Result<String, AllocError> {
    let mut text = String::new(alloc);
    write_picture(alloc, &mut text, view)?;
    Ok(text)
}

fn new_file(rt: &HostRuntime, path: &str) -> io::Result<File> {
    OpenOptions::new()
        .write(true)
        .create_new(true)
        .open(rt, path)
}

/// Writes a text into a new file, and leaves none where it could not be written.
fn put_text(rt: &HostRuntime, path: &str, text: &str) -> io::Result<()> {
    let mut file = new_file(rt, path)?;
    let written = file.write_all(text.as_bytes());
    if written.is_err() {
        let _ = remove_file(rt, path);
    }
    written
}

/// Writes the picture into a new file.
fn put_picture(rt: &HostRuntime, path: &str, view: &View<Global>) -> Status {
    let Ok(text) = picture(rt.alloc(), view) else {
        return no_memory(rt);
    };
    match put_text(rt, path, text.as_str()) {
        Ok(()) => Status::Done,
        Err(why) => {
            let _ = eprintln!(rt; "look: {path:?}: {why}");
            Status::StreamFault
        }
    }
}

/// The sector of a page of a file of so many pages. The runs know its leader as a page too, which is none of these.
fn page_sector(view: &View<Global>, id: FileId, pages: u32, page: u32) -> Option<u32>
    ensures { pages ≤ page → result ≡ None }
{
    if page >= pages {
        return None;
    }
    sector_of(&view.found.runs, id, page)
}

/// The bytes of a sector, where the disk has it.
fn page_at<D: Disk>(disk: &mut D, sector: u32) -> Option<Result<Page, LookFault>> {
    if sector >= disk.sectors() {
        return None;
    }
    Some(read_page(disk, sector))
}

/// Writes the bytes of a page after the text of its file.
fn reveal_page(
    rt: &HostRuntime,
    image: &str,
    page: Result<Page, LookFault>,
    text: &mut String,
) -> Status {
    match page {
        Ok(page) => match write_page(text, &page) {
            Ok(()) => reveal(rt, text.as_str()),
            Err(_) => no_memory(rt),
        },
        Err(_) => {
            let fault = LookFault::Disk;
            let _ = eprintln!(rt; "look: {image:?}: {fault}");
            Status::DiskFault
        }
    }
}

/// Writes the runs of a file, and the bytes of a page where one is asked for.
fn reveal_file(
    rt: &HostRuntime,
    image: &str,
    disk: &mut ImageDisk<File>,
    view: &View<Global>,
    id: FileId,
    page: Option<u32>,
) -> Status {
    let mut text = String::new(rt.alloc());
    let pages = match write_file(&mut text, view, id) {
        Err(_) => return no_memory(rt),
        Ok(FileText::NoFile) => {
            let _ = eprintln!(rt; "look: {image:?}: no permanent file {id:016x}");
            return Status::NoFile;
        }
        Ok(FileText::Written { pages }) => pages,
    };
    let Some(page) = page else {
        return reveal(rt, text.as_str());
    };
    let found = match page_sector(view, id, pages, page) {
        Some(sector) => page_at(disk, sector),
        None => None,
    };
    match found {
        Some(bytes) => reveal_page(rt, image, bytes, &mut text),
        None => {
            let _ = eprintln!(rt; "look: {image:?}: file {id:016x} has no page {page}");
            Status::NoFile
        }
    }
}

/// Writes on standard error what makes a volume of today of an old one, where the root is refused as one.
fn reveal_renewal(rt: &HostRuntime, image: &str, view: &View<Global>) {
    match view.root {
        Err(RootFault::Version(version)) if version == 1 || version == 2 => {
            let _ = eprintln!(rt;
                "look: {image:?}: the volume has version {version}; to bring it to version 3: pilot {image:?} convert"
            );
        }
        _ => {}
    }
}

/// Answers a request from a look.
pub(crate) fn answer(
    rt: &HostRuntime,
    image: &str,
    disk: &mut ImageDisk<File>,
    view: &View<Global>,
    request: Request<'_>,
) -> Status {
    let status = match request {
        Request::Listing => reveal_view(rt, view, listing(rt.alloc(), view)),
        Request::Json => reveal_view(rt, view, json(rt.alloc(), view)),
        Request::Picture { path } => put_picture(rt, path, view),
        Request::File { id, page } => reveal_file(rt, image, disk, view, id, page),
    };
    if matches!(status, Status::Refused | Status::NoFile) {
        reveal_renewal(rt, image, view);
    }
    status
}
