//! The pages of heads.
use anyhow::{Context, Result, bail};
use documents::{Head, Name};
use std::alloc::Global;

/// The page of the head that a length and a name make, in hexadecimal digits, as far as these are not zeros, eight bytes at least.
pub(crate) fn text(alloc: Global, words: &str) -> Result<String> {
    let (bytes, name) = words.split_once(' ').context("no name")?;
    let bytes = bytes.parse()?;
    let Ok(name) = Name::from(name) else {
        bail!("the name is too long");
    };
    let mut text = String::new(alloc);
    let head = Head { bytes, name };
    for byte in head.to_page() {
        text.push_str(format!(in alloc; "{byte:02x}")?.as_str())?;
    }
    Ok(String::from_str(alloc, text.trim_end_matches("00"))?)
}
