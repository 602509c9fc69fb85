//! The files of the volume, a line each.

use crate::host::written;
use crate::status::Status;
use crate::volume::{Volume, fault_line};
use documents::{Fault, Listed, next_listed};
use std::alloc::{AllocError, Global};

/// A text between quotes, with the escapes of JSON.
fn push_text(line: &mut String, text: &str) -> Result<(), AllocError> {
    line.push('"')?;
    for letter in text.chars() {
        match letter {
            '"' | '\\' => {
                line.push('\\')?;
                line.push(letter)?;
            }
            '\0'..='\x1f' => write!(line, "\\u{:04x}", u32::from(letter))?,
            _ => line.push(letter)?,
        }
    }
    line.push('"')
}

/// The line of a file.
fn plain(alloc: Global, file: &Listed) -> Result<String, AllocError> {
    let Listed {
        id,
        pages,
        kind,
        ..
    } = file;
    match &file.head {
        Some(head) => format!(in alloc; "{id:016x} {} {:?}\n", head.bytes, head.name),
        None => format!(in alloc; "{id:016x} pages {pages} type {kind}\n"),
    }
}

/// The line of a file as an object of JSON.
fn object(alloc: Global, file: &Listed) -> Result<String, AllocError> {
    let Listed {
        id,
        pages,
        kind,
        ..
    } = file;
    let Some(head) = &file.head else {
        return format!(in alloc; "{{\"id\":\"{id:016x}\",\"pages\":{pages},\"type\":{kind}}}\n");
    };
    let bytes = head.bytes;
    let mut line = format!(in alloc; "{{\"id\":\"{id:016x}\",\"bytes\":{bytes},\"name\":")?;
    push_text(&mut line, head.name.as_str())?;
    line.push_str("}\n")?;
    Ok(line)
}

/// Writes the line of a file.
fn reveal(rt: &HostRuntime, file: &Listed, json: bool) -> Status {
    let line = if json {
        object(rt.alloc(), file)
    } else {
        plain(rt.alloc(), file)
    };
    let Ok(line) = line else {
        let _ = eprintln!(rt; "pilot_files: there is no memory left");
        return Status::NoMemory;
    };
    written(rt, print!(rt; "{line}"))
}

/// Writes a line for each file of the volume.
pub(crate) fn list(rt: &HostRuntime, volume: &mut Volume, json: bool) -> Status {
    let mut cursor = 0;
    for _ in 0..u64::MAX {
        match next_listed(volume, cursor) {
            Ok(Some(file)) => {
                cursor = file.id;
                let status = reveal(rt, &file, json);
                if status != Status::Done {
                    return status;
                }
            }
            Ok(None) => return Status::Done,
            Err(code) => return fault_line(rt, volume, "list", Fault::Call(code)),
        }
    }
    Status::Done
}
