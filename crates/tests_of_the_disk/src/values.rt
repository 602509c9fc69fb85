//! What words, labels, layouts and errors are, as `Debug` and `Display` write them.

use anyhow::Result;
use image_disk::image_of;
use labelled_disk::{DiskError, Label, Layout, NoMemory};
use std::alloc::Global;

fn error(alloc: Global, name: &str) -> Result<String> {
    let error = match name {
        "memory" => return Ok(format!(in alloc; "{NoMemory}")?),
        "failed" => DiskError::Failed,
        _ => DiskError::Wrong { found: Label::FREE },
    };
    Ok(format!(in alloc; "{error}")?)
}

fn label(alloc: Global, digits: &str) -> Result<String> {
    let bytes = u128::from_str_radix(digits, 16)?.to_be_bytes();
    let label = Label::from_bytes(&bytes);
    let written = u128::from_be_bytes(label.to_bytes());
    Ok(format!(in alloc; "{label:?} {written:032x}")?)
}

pub(crate) fn answer(alloc: Global, verb: &str, rest: &str) -> Result<String> {
    match verb {
        "word" => Ok(format!(in alloc; "{:?}", image_of(rest))?),
        "layout" => Ok(format!(in alloc; "{:?}", Layout::of(rest.parse()?))?),
        "label" => label(alloc, rest),
        _ => error(alloc, rest),
    }
}
